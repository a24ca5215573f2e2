ghost use Rattle.std.specs.Prelude.{◌≡◌, ◌++◌, ◌∷◌, [], length, None, Some, IfOk, OnOk};
ghost use Rattle.std.specs.Option.{option_map};
ghost use Rattle.vh_ast.specs.Views.{delay_tree, expr_tree, stmt_tree};
ghost use Rattle.vh_bind.specs.Steps.{Gives};
ghost use Rattle.vh_bind.specs.Views.{scope_seen};
ghost use Rattle.vh_lower.specs.Views.{added_seen};
ghost use Rattle.vh_elab_sites.specs.Views.{driven_seen};
ghost use Rattle.vh_elab.specs.Coded;
ghost use Rattle.vh_elab.specs.Views.{Becomes, Codes, DrivesBy, Looks, Puts, Stands, Tries, coding_seen, ready_seen};

use crate::routines::Routines;
use sqlite_items::Boxed;
use std::alloc::Global;
use vh_ast::{Delay, Expr, Stmt};
use vh_base::{DesignFault, DriverId, NoMemory, ObjId, Place, Sequence};
use vh_bind::{ElabFault, Scope};
use vh_bind_least::{Fault, least};
use vh_bind_scope::Names;
use vh_bind_stmt::Surroundings;
use vh_design::{Code, DriverIds, DriverInfo, ExprKind, ExprNode, ObjectInfo};
use vh_elab_declare::Genvars;
use vh_elab_drives::{Drivers, Driving, object_width, target_drivers};
use vh_elab_sites::Driven;
use vh_logic::Vec4;
use vh_lower::{Added, LowerFault, Maker, drive_code, initial_code, lower};
use vh_lower_flow::CodeKind;

// The instances, of which all constants are known.
#[derive(Clone, Copy)]
pub(crate) struct Ready<'a> {
    pub(crate) top_name: &'a [u8],
    // That of the simulation.
    pub(crate) precision: u8,
    pub(crate) names: &'a Names,
    pub(crate) objects: &'a [ObjectInfo],
    // The values of parameters, at their numbers as expressions.
    pub(crate) values: &'a [Vec4],
    pub(crate) routines: &'a Routines,
    pub(crate) genvars: &'a Genvars,
}

// What is made so far, and the least fault so far.
#[derive(Drop)]
pub(crate) struct Coding {
    pub(crate) added: Added,
    pub(crate) drivers: Vec<DriverInfo>,
    pub(crate) codes: Vec<Code>,
    pub(crate) bodies: Vec<Code>,
    pub(crate) fault: Option<Fault>,
    pub(crate) passed: bool,
    // How many statements and operators there are.
    pub(crate) count: u64,
}

// Where code is made: the instances, what its statements stand in, and what is made so far.
#[derive(Drop)]
pub(crate) struct Coder<'m, 'r, 's, 'a, 'b> {
    pub(crate) alloc: Global,
    pub(crate) ready: Ready<'r>,
    pub(crate) around: &'m Surroundings<'s, 'a, 'b>,
    pub(crate) coding: &'m mut Coding,
}

// The values of parameters alone.
pub(crate) fn only_values(alloc: Global, ready: Ready) -> Result<Added, NoMemory>
    ensures { IfOk result (λ a. added_seen a ≡ Coded.only_values (ready_seen ready.entry)) }
{
    let mut exprs = Vec::new(alloc);
    for value in ready.values {
        exprs.push(ExprNode {
            kind: ExprKind::Literal(*value),
            width: value.width(),
            signed: value.is_signed(),
        })?;
    }
    Ok(Added {
        exprs,
        waits: Vec::new(alloc),
        shows: Vec::new(alloc),
        stmts: Vec::new(alloc),
    })
}

// One fault more.
pub(crate) fn take_fault(fault: DesignFault, place: Place, coding: &mut Coding)
    ensures { coding_seen coding.new
        ≡ Coded.with_fault (fault, place) (coding_seen coding.old) }
{
    coding.fault = least(coding.fault, Some((fault, place)));
}

// What was tried: behind a fault the values of parameters alone are left.
pub(crate) fn tried<T>(
    alloc: Global,
    ready: Ready,
    outcome: Result<T, LowerFault>,
    coding: &mut Coding,
) -> Result<Option<T>, NoMemory>
    ensures { IfOk result (λ found. Tries (ready_seen ready.entry) outcome
        (coding_seen coding.old) found (coding_seen coding.new)) }
{
    match outcome {
        Ok(made) => Ok(Some(made)),
        Err(LowerFault::NoMemory) => Err(NoMemory),
        Err(LowerFault::Refused(fault, place)) => {
            coding.added = only_values(alloc, ready)?;
            take_fault(fault, place, coding);
            Ok(None)
        }
        Err(LowerFault::PassedOver) => {
            coding.added = only_values(alloc, ready)?;
            coding.passed = true;
            Ok(None)
        }
    }
}

// What was looked at.
fn looked<T>(
    outcome: Result<Option<T>, ElabFault>,
    coding: &mut Coding,
) -> Result<Option<T>, NoMemory>
    ensures looked { IfOk result (λ found. Looks outcome (coding_seen coding.old) found
        (coding_seen coding.new)) }
    ensures added { (coding_seen coding.new).added ≡ (coding_seen coding.old).added }
{
    match outcome {
        Ok(Some(found)) => Ok(Some(found)),
        Ok(None) => {
            coding.passed = true;
            Ok(None)
        }
        Err(ElabFault::Refused(fault, place)) => {
            take_fault(fault, place, coding);
            Ok(None)
        }
        Err(ElabFault::NoMemory) => Err(NoMemory),
    }
}

// A process more, if one was made.
fn add_code(code: Option<Code>, coding: &mut Coding) -> Result<(), NoMemory>
    ensures { OnOk result (coding_seen coding.new
        ≡ Coded.with_code (code, coding_seen coding.old)) }
{
    if let Some(code) = code {
        coding.codes.push(code)?;
    }
    Ok(())
}

// A body more, if one was made.
fn add_body(code: Option<Code>, coding: &mut Coding) -> Result<(), NoMemory>
    ensures { OnOk result (coding_seen coding.new
        ≡ Coded.with_body (code, coding_seen coding.old)) }
{
    if let Some(code) = code {
        coding.bodies.push(code)?;
    }
    Ok(())
}

// A process that was tried.
pub(crate) fn put_code(
    alloc: Global,
    ready: Ready,
    outcome: Result<Code, LowerFault>,
    coding: &mut Coding,
) -> Result<(), NoMemory>
    ensures { OnOk result (Puts Coded.with_code (ready_seen ready.entry) outcome
        (coding_seen coding.old) (coding_seen coding.new)) }
{
    let code = tried(alloc, ready, outcome, coding)?;
    add_code(code, coding)
}

// A body that was tried.
fn put_body(
    alloc: Global,
    ready: Ready,
    outcome: Result<Code, LowerFault>,
    coding: &mut Coding,
) -> Result<(), NoMemory>
    ensures { OnOk result (Puts Coded.with_body (ready_seen ready.entry) outcome
        (coding_seen coding.old) (coding_seen coding.new)) }
{
    let code = tried(alloc, ready, outcome, coding)?;
    add_body(code, coding)
}

// The process of a first value.
pub(crate) fn code_value(coder: &mut Coder, number: u32, e: &Expr) -> Result<(), NoMemory>
    requires stands { Stands coder.old }
    ensures { Codes (λ r w c. Becomes (Coded.value_coded r w number (expr_tree e.now) c))
        coder.old result coder.new }
{
    let object = ObjId::new(number);
    let outcome = initial_code(
        &mut Maker {
            alloc: coder.alloc,
            around: coder.around,
            added: &mut coder.coding.added,
        },
        object,
        e,
    );
    put_code(coder.alloc, coder.ready, outcome, coder.coding)
}

// An `initial` or `always` construct.
pub(crate) fn code_construct(coder: &mut Coder, kind: CodeKind, stmt: &Stmt) -> Result<(), NoMemory>
    requires stands { Stands coder.old }
    ensures { Codes (λ r w c. Becomes (Coded.construct_coded r w kind (stmt_tree stmt.now) c))
        coder.old result coder.new }
{
    let outcome = lower(
        &mut Maker {
            alloc: coder.alloc,
            around: coder.around,
            added: &mut coder.coding.added,
        },
        kind,
        stmt,
    );
    put_code(coder.alloc, coder.ready, outcome, coder.coding)
}

// The body of a task or function.
pub(crate) fn code_body(coder: &mut Coder, stmt: &Stmt) -> Result<(), NoMemory>
    requires stands { Stands coder.old }
    ensures { Codes (λ r w c. Becomes (Coded.body_coded r w (stmt_tree stmt.now) c))
        coder.old result coder.new }
{
    let outcome = lower(
        &mut Maker {
            alloc: coder.alloc,
            around: coder.around,
            added: &mut coder.coding.added,
        },
        CodeKind::Body,
        stmt,
    );
    put_body(coder.alloc, coder.ready, outcome, coder.coding)
}

// A driver more; answers its number.
fn add_driver(driver: DriverInfo, drivers: &mut Vec<DriverInfo>) -> Result<DriverId, NoMemory>
    ensures number { IfOk result (λ n. n ≡ length drivers.old.items) }
    ensures added { OnOk result (drivers.new.items ≡ drivers.old.items ++ driver ∷ []) }
{
    let Ok(number) = u32::try_from(drivers.len()) else {
        return Err(NoMemory);
    };
    drivers.push(driver)?;
    Ok(DriverId::new(number))
}

// Drivers in a row more; answers their numbers.
fn add_row(
    alloc: Global,
    row: &[DriverInfo],
    drivers: &mut Vec<DriverInfo>,
) -> Result<Vec<DriverId>, NoMemory>
    ensures numbers { IfOk result (λ v. v.items
        ≡ Coded.numbers_from (length drivers.old.items) row.now) }
    ensures added { OnOk result (drivers.new.items ≡ drivers.old.items ++ row.now) }
{
    let mut numbers = Vec::new(alloc);
    for driver in row {
        let number = add_driver(*driver, drivers)?;
        numbers.push(number)?;
    }
    Ok(numbers)
}

// Drivers more, if some were made; answers their numbers.
fn add_drivers(
    alloc: Global,
    drivers: Option<Drivers>,
    coding: &mut Coding,
) -> Result<DriverIds, NoMemory>
    ensures numbers { IfOk result (λ numbers. (numbers, coding_seen coding.new)
        ≡ Coded.with_drivers (drivers, coding_seen coding.old)) }
    ensures added { (coding_seen coding.new).added ≡ (coding_seen coding.old).added }
{
    match drivers {
        None => Ok(Sequence::new(Vec::new(alloc))),
        Some(row) => {
            let numbers = add_row(alloc, row.as_slice(), &mut coding.drivers)?;
            Ok(Sequence::new(numbers))
        }
    }
}

// Drivers that were looked at; answers their numbers.
pub(crate) fn put_drivers(
    alloc: Global,
    outcome: Driving,
    coding: &mut Coding,
) -> Result<DriverIds, NoMemory>
    ensures numbers { IfOk result (λ numbers. DrivesBy outcome (coding_seen coding.old) numbers
        (coding_seen coding.new)) }
    ensures added { OnOk result
        ((coding_seen coding.new).added ≡ (coding_seen coding.old).added) }
{
    let drivers = looked(outcome, coding)?;
    add_drivers(alloc, drivers, coding)
}

// A driver of a whole net.
fn whole_driver(alloc: Global, objects: &[ObjectInfo], object: ObjId) -> Result<Drivers, NoMemory>
    ensures { IfOk result (λ ds. ds ≡ Coded.whole_driver objects.now object) }
{
    let mut drivers = Vec::new(alloc);
    drivers.push(DriverInfo {
        object,
        low: 0,
        below: 0,
        width: object_width(objects, object),
    })?;
    Ok(Sequence::new(drivers))
}

// What a continuous assignment drives.
fn driven(alloc: Global, scope: &Scope, nodes: &[ExprNode], driven: Driven) -> Driving
    ensures { Gives (Coded.driven_by (scope_seen scope.now) nodes.now (driven_seen driven.entry))
        result }
{
    match driven {
        Driven::Net(number) => {
            let object = ObjId::new(number);
            Ok(Some(whole_driver(alloc, scope.objects, object)?))
        }
        Driven::Target(lv) => target_drivers(alloc, scope, nodes, lv),
    }
}

// The value of a continuous assignment.
fn code_drive(
    coder: &mut Coder,
    numbers: DriverIds,
    delay: &Option<Boxed<Delay>>,
    e: &Expr,
) -> Result<(), NoMemory>
    requires stands { Stands coder.old }
    ensures { Codes
        (λ r w c. Becomes
        (Coded.drive_coded r w (option_map delay_tree delay.now) (expr_tree e.now) (numbers, c)))
        coder.old result coder.new }
{
    let outcome = drive_code(
        &mut Maker {
            alloc: coder.alloc,
            around: coder.around,
            added: &mut coder.coding.added,
        },
        numbers,
        delay,
        e,
    );
    put_code(coder.alloc, coder.ready, outcome, coder.coding)
}

// A continuous assignment.
pub(crate) fn code_assignment(
    coder: &mut Coder,
    delay: &Option<Boxed<Delay>>,
    target: Driven,
    e: &Expr,
) -> Result<(), NoMemory>
    requires stands { Stands coder.old }
    ensures { Codes
        (λ r w c. Becomes
        (Coded.assignment_coded r w (option_map delay_tree delay.now) (driven_seen target.entry)
        (expr_tree e.now) c))
        coder.old result coder.new }
{
    let outcome = driven(
        coder.alloc,
        coder.around.scope,
        &coder.coding.added.exprs,
        target,
    );
    let numbers = put_drivers(coder.alloc, outcome, coder.coding)?;
    code_drive(coder, numbers, delay, e)
}

// A net or variable that an input drives: its driver, and the value that it takes.
pub(crate) fn code_input_value(coder: &mut Coder, inner: ObjId, e: &Expr) -> Result<(), NoMemory>
    requires stands { Stands coder.old }
    ensures { Codes
        (λ r w c. Becomes
        (Coded.drive_coded r w None (expr_tree e.now)
        (Coded.with_drivers (Some (Coded.whole_driver r.objects inner), c))))
        coder.old result coder.new }
{
    let drivers = whole_driver(coder.alloc, coder.ready.objects, inner)?;
    let numbers = add_drivers(coder.alloc, Some(drivers), coder.coding)?;
    code_drive(coder, numbers, &None, e)
}

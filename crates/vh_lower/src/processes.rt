ghost use Rattle.std.specs.Prelude.{◌≡◌, ◌++◌, true, IfOk, OnOk};
ghost use Rattle.std.specs.Option.{option_map};
ghost use Rattle.vh_ast.specs.Views.{delay_tree, expr_tree};
ghost use Rattle.vh_lower_flow.specs.declared.code_kind.CodeKind.TheVariants as of;
ghost use Rattle.vh_lower_flow.specs.Positions.{is_closed};
ghost use Rattle.vh_lower_flow.specs.Views.{flow_tree};
ghost use Rattle.vh_lower.specs.Instructions;
ghost use Rattle.vh_lower.specs.Making.{Makes};
ghost use Rattle.vh_lower.specs.Processes.{plain_instruction, plain_instructions, plain_code, initial_operations, initial_code, drive_at, drive_behind, drive_operations, drive_code};
ghost use Rattle.vh_lower.specs.Views.{flows_seen, Stands, Adds};

use crate::added::Maker;
use crate::assignments::with_operation;
use crate::fault::Lowered;
use crate::instructions::{Operations, in_row};
use crate::making::{delay_of, reading_from, value_of};
use sqlite_items::{Boxed as TreeBox, Items};
use std::alloc::Global;
use vh_ast::{Delay, Expr};
use vh_base::{Boxed, ExprId, NoMemory, ObjId, WaitId};
use vh_design_code::{Code, Delay as Wait, Drive, DriverIds, Operation};
use vh_lower_flow::{CodeKind, Flow, FlowForm, Origin, Step, code_of};

// An instruction that belongs to no statement.
fn plain_instruction(operation: Operation) -> Result<Flow, NoMemory>
    ensures { IfOk result (λ f. flow_tree f ≡ plain_instruction operation) }
{
    let origin = Origin {
        stmt: None,
        first: false,
    };
    Flow::new(FlowForm::Step(Step { operation, origin }))
}

// Such instructions behind others.
fn add_plain(row: &mut Items<Flow>, operations: Operations) -> Result<(), NoMemory>
    ensures { OnOk result (flows_seen row.new ≡ flows_seen row.old ++ plain_instructions operations) }
{
    for operation in operations.into_vec() {
        row.push(plain_instruction(operation)?)?;
    }
    Ok(())
}

// The code of a process of such instructions.
fn plain_code(alloc: Global, kind: CodeKind, operations: Operations) -> Result<Code, NoMemory>
    ensures { IfOk result (λ c. c ≡ plain_code kind operations) }
{
    let mut row = Items::new(alloc);
    add_plain(&mut row, operations)?;
    let flow = in_row(row)?;
    code_of(alloc, kind, &flow)
}

// The instructions of a declared initial value.
fn initial_operations(maker: &mut Maker, object: ObjId, value: &Expr) -> Lowered<Operations>
    requires stands { Stands maker.old }
    ensures { Adds (λ s a. Makes (initial_operations s object (expr_tree value.now) a))
        maker.old result maker.new }
{
    let mut operations = Vec::new(maker.alloc);
    let value = value_of(maker, &mut operations, value)?;
    Ok(with_operation(operations, Operation::Initial { object, value })?)
}

// The code of a declared initial value.
fn laid_value(maker: &mut Maker, object: ObjId, value: &Expr) -> Lowered<Code>
    requires stands { Stands maker.old }
    ensures { Adds (λ s a. Makes (initial_code s object (expr_tree value.now) a))
        maker.old result maker.new }
{
    let operations = initial_operations(maker, object, value)?;
    Ok(plain_code(maker.alloc, CodeKind::Value, operations)?)
}

/// The code of a declared initial value of a variable, or its first fault (IEEE 1364-2005, 6.2.1).
pub fn initial_code(maker: &mut Maker, object: ObjId, value: &Expr) -> Lowered<Code>
    requires stands { Stands maker.old }
    ensures made { Adds (λ s a. Makes (initial_code s object (expr_tree value.now) a))
        maker.old result maker.new }
    ensures closed { IfOk result (λ c. is_closed c ≡ true) }
{
    laid_value(maker, object, value)
}

// The instruction of a continuous assignment.
fn drive_at(
    alloc: Global,
    drivers: DriverIds,
    value: ExprId,
    delay: Option<Wait>,
    wait: WaitId,
) -> Result<Operation, NoMemory>
    ensures { IfOk result (λ o. o ≡ drive_at drivers value delay wait) }
{
    let drive = Drive {
        drivers,
        value,
        delay,
        wait,
    };
    Ok(Operation::Drive(Boxed::new(alloc, drive)?))
}

// Its instructions behind some calls.
fn drive_behind(
    maker: &mut Maker,
    drivers: DriverIds,
    mut operations: Vec<Operation>,
    delay: Option<Wait>,
    value: &Expr,
) -> Lowered<Operations>
    requires stands { Stands maker.old }
    ensures { Adds
        (λ s a. Makes (drive_behind s drivers operations.items delay (expr_tree value.now) a))
        maker.old result maker.new }
{
    let from = maker.added.exprs.len();
    let value = value_of(maker, &mut operations, value)?;
    let wait = reading_from(maker.alloc, maker.added, from)?;
    let drive = drive_at(maker.alloc, drivers, value, delay, wait)?;
    Ok(with_operation(operations, drive)?)
}

// Its instructions, with those of its delay.
fn drive_operations(
    maker: &mut Maker,
    drivers: DriverIds,
    delay: &Option<TreeBox<Delay>>,
    value: &Expr,
) -> Lowered<Operations>
    requires stands { Stands maker.old }
    ensures { Adds
        (λ s a. Makes
        (drive_operations s drivers (option_map delay_tree delay.now) (expr_tree value.now) a))
        maker.old result maker.new }
{
    let mut operations = Vec::new(maker.alloc);
    match delay {
        None => drive_behind(maker, drivers, operations, None, value),
        Some(delay) => {
            let delay = delay_of(maker, &mut operations, delay.get())?;
            drive_behind(maker, drivers, operations, Some(delay), value)
        }
    }
}

// The code of a continuous assignment.
fn laid_assignment(
    maker: &mut Maker,
    drivers: DriverIds,
    delay: &Option<TreeBox<Delay>>,
    value: &Expr,
) -> Lowered<Code>
    requires stands { Stands maker.old }
    ensures { Adds
        (λ s a. Makes
        (drive_code s drivers (option_map delay_tree delay.now) (expr_tree value.now) a))
        maker.old result maker.new }
{
    let operations = drive_operations(maker, drivers, delay, value)?;
    Ok(plain_code(maker.alloc, CodeKind::Assign, operations)?)
}

/// The code of a continuous assignment to these drivers, or its first fault (IEEE 1364-2005, 6.1).
pub fn drive_code(
    maker: &mut Maker,
    drivers: DriverIds,
    delay: &Option<TreeBox<Delay>>,
    value: &Expr,
) -> Lowered<Code>
    requires stands { Stands maker.old }
    ensures made { Adds
        (λ s a. Makes
        (drive_code s drivers (option_map delay_tree delay.now) (expr_tree value.now) a))
        maker.old result maker.new }
    ensures closed { IfOk result (λ c. is_closed c ≡ true) }
{
    laid_assignment(maker, drivers, delay, value)
}

/// The code of a process that drives so, behind some instructions.
pub fn driving_code(
    alloc: Global,
    drivers: DriverIds,
    value: ExprId,
    delay: Option<Wait>,
    wait: WaitId,
    operations: Vec<Operation>,
) -> Result<Code, NoMemory>
    ensures { IfOk result (λ c. c
        ≡ plain_code of.Assign (Instructions.with_operation operations.items
        (drive_at drivers value delay wait))) }
{
    let drive = drive_at(alloc, drivers, value, delay, wait)?;
    let operations = with_operation(operations, drive)?;
    plain_code(alloc, CodeKind::Assign, operations)
}

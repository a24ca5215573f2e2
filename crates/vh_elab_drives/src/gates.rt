ghost use Rattle.std.specs.Prelude.{◌≡◌, ◌<◌, ◌≤◌, length, map, true, None, Some, IfOk, IfSome, OnOk};
ghost use Rattle.std.specs.Option.{option_map};
ghost use Rattle.vh_design_nodes.specs.Fits.{all_before, fits_word};
ghost use Rattle.vh_design_nodes.specs.declared.expr.Access.TheVariants as access;
ghost use Rattle.vh_design_nodes.specs.declared.expr.Select.TheVariants as select;
ghost use Rattle.vh_design_nodes.specs.Widths;
ghost use Rattle.vh_ast.specs.Views.{delay_tree, expr_tree};
ghost use Rattle.vh_bind.specs.declared.scope.Mode.TheVariants as mode;
ghost use Rattle.vh_bind.specs.Constants.{selected_pushed, whole_of};
ghost use Rattle.vh_bind.specs.Nodes.{IsSound};
ghost use Rattle.vh_bind.specs.Steps.{Steps};
ghost use Rattle.vh_bind.specs.Views.{scope_seen};
ghost use Rattle.vh_lower.specs.Making.{Makes, performed};
ghost use Rattle.vh_lower.specs.Views.{added_seen, Performs, Stands, HasSound, Adds, around_of, added_of};
ghost use Rattle.vh_elab_drives.specs.Gates;

use sqlite_items::Boxed;
use std::alloc::Global;
use vh_ast::{Delay, Expr, GateType, Unary};
use vh_base::{DesignFault, ExprId, NoMemory, ObjId, Place};
use vh_bind::{ElabFault, Mode, Operator, Prefix, Scope, push_links, push_prefixed};
use vh_bind_expr::{push_selected, whole_of};
use vh_design_code::{Code, Delay as Wait, DriverIds, Operation};
use vh_design_nodes::{Arithmetic, ExprIds, ExprNode, Select};
use vh_lower::{
    Added, LowerFault, Lowered, Maker, delay_of, driving_code, reading_from, value_of, with_calls,
};

fn operator_of(word: GateType) -> Option<Operator>
    ensures { result ≡ Gates.operator_of word }
{
    match word {
        GateType::And | GateType::Nand => Some(Operator::Arithmetic(Arithmetic::And)),
        GateType::Or | GateType::Nor => Some(Operator::Arithmetic(Arithmetic::Or)),
        GateType::Xor | GateType::Xnor => Some(Operator::Arithmetic(Arithmetic::Xor)),
        GateType::Buf | GateType::Not => None,
    }
}

/// Whether a gate has so many terminals.
pub fn has_terminals(word: GateType, count: usize) -> bool
    ensures { result ≡ Gates.has_terminals word count }
{
    match operator_of(word) {
        None => count == 2,
        Some(_) => count >= 3,
    }
}

// It as often as there are inputs behind the first.
fn repeated(alloc: Global, operator: Operator, rest: &[ExprId]) -> Result<Vec<Operator>, NoMemory>
    ensures { IfOk result (λ v. v.items ≡ map (λ e. operator) rest.now) }
{
    let mut all = Vec::new(alloc);
    for part in rest {
        let _part = *part;
        all.push(operator)?;
    }
    Ok(all)
}

// The operators between inputs: one before each but the first.
fn operators(
    alloc: Global,
    operator: Option<Operator>,
    rest: &[ExprId],
) -> Result<Vec<Operator>, NoMemory>
    ensures { IfOk result (λ v. v.items ≡ Gates.operators operator rest.now) }
{
    match operator {
        None => Ok(Vec::new(alloc)),
        Some(operator) => repeated(alloc, operator, rest),
    }
}

// Inverted once.
fn inverted(
    scope: &Scope,
    nodes: &mut Vec<ExprNode>,
    place: Place,
    value: Option<ExprId>,
) -> Result<Option<ExprId>, ElabFault>
    requires sound { IsSound mode.Value (scope_seen scope.now) nodes.old.items }
    requires part { IfSome value (λ n. n < length nodes.old.items) }
    ensures step { Steps (Gates.inverted (scope_seen scope.now) place value nodes.old.items)
        result nodes.new.items }
    ensures sound { OnOk result (IsSound mode.Value (scope_seen scope.now) nodes.new.items) }
    ensures below { IfOk result (λ o. IfSome o (λ n. n < length nodes.new.items)) }
{
    push_prefixed(
        scope,
        Mode::Value,
        nodes,
        place,
        Prefix::UnaryOperator(Unary::Invert),
        value,
    )
}

// Inverted as often as a gate does.
fn finished(
    scope: &Scope,
    nodes: &mut Vec<ExprNode>,
    place: Place,
    word: GateType,
    value: Option<ExprId>,
) -> Result<Option<ExprId>, ElabFault>
    requires sound { IsSound mode.Value (scope_seen scope.now) nodes.old.items }
    requires part { IfSome value (λ n. n < length nodes.old.items) }
    ensures step { Steps (Gates.finished (scope_seen scope.now) place word value nodes.old.items)
        result nodes.new.items }
    ensures sound { OnOk result (IsSound mode.Value (scope_seen scope.now) nodes.new.items) }
{
    match word {
        GateType::And | GateType::Or | GateType::Xor => Ok(value),
        GateType::Nand | GateType::Nor | GateType::Xnor | GateType::Not => {
            inverted(scope, nodes, place, value)
        }
        GateType::Buf => {
            let once = inverted(scope, nodes, place, value)?;
            inverted(scope, nodes, place, once)
        }
    }
}

// The nodes of a gate over its inputs.
fn of_inputs(
    alloc: Global,
    scope: &Scope,
    nodes: &mut Vec<ExprNode>,
    place: Place,
    word: GateType,
    first: ExprId,
    rest: ExprIds,
) -> Result<Option<ExprId>, ElabFault>
    requires sound { IsSound mode.Value (scope_seen scope.now) nodes.old.items }
    requires first { first < length nodes.old.items }
    requires rest { all_before (length nodes.old.items) rest ≡ true }
    ensures step { Steps
        (Gates.of_inputs (scope_seen scope.now) place word first rest nodes.old.items)
        result nodes.new.items }
    ensures sound { OnOk result (IsSound mode.Value (scope_seen scope.now) nodes.new.items) }
{
    let operators = operators(alloc, operator_of(word), rest.as_slice())?;
    let value = push_links(
        alloc,
        scope,
        Mode::Value,
        nodes,
        place,
        &operators,
        Some(first),
        Some(rest),
    )?;
    finished(scope, nodes, place, word, value)
}

// The same, with the calls in them: there are none.
fn gate_value(
    maker: &mut Maker,
    calls: &mut Vec<Operation>,
    place: Place,
    word: GateType,
    first: ExprId,
    rest: ExprIds,
) -> Lowered<ExprId>
    requires sound { HasSound maker.old (added_of maker.old) }
    requires first { first < length (added_of maker.old).exprs }
    requires rest { all_before (length (added_of maker.old).exprs) rest ≡ true }
    ensures { Adds
        (λ s a. Performs
        (performed s calls.old.items (Gates.of_inputs s.scope place word first rest) a)
        calls.new.items)
        maker.old result maker.new }
{
    let from = maker.added.exprs.len();
    let value = of_inputs(
        maker.alloc,
        maker.around.scope,
        &mut maker.added.exprs,
        place,
        word,
        first,
        rest,
    )?;
    with_calls(maker, calls, from, value)
}

/// The delay of a gate, behind the calls that it makes.
pub fn gate_delay(
    maker: &mut Maker,
    calls: &mut Vec<Operation>,
    delay: &Option<Boxed<Delay>>,
) -> Lowered<Option<Wait>>
    requires stands { Stands maker.old }
    ensures { Adds
        (λ s a. Performs (Gates.gate_delay s calls.old.items (option_map delay_tree delay.now) a)
        calls.new.items)
        maker.old result maker.new }
{
    match delay {
        None => Ok(None),
        Some(delay) => {
            let wait = delay_of(maker, calls, delay.get())?;
            Ok(Some(wait))
        }
    }
}

fn width_of(nodes: &[ExprNode], e: ExprId) -> u32
    ensures { result ≡ Widths.width_of nodes.now e }
{
    match nodes.get(e.number() as usize) {
        None => 1,
        Some(node) => node.width,
    }
}

/// An input of a gate, behind the calls that it makes; `N7` at the gate where it isn't one digit
/// wide.
pub fn gate_input(
    maker: &mut Maker,
    calls: &mut Vec<Operation>,
    place: Place,
    e: &Expr,
) -> Lowered<ExprId>
    requires stands { Stands maker.old }
    ensures made { Adds
        (λ s a. Performs (Gates.input_of s place calls.old.items (expr_tree e.now) a)
        calls.new.items)
        maker.old result maker.new }
    ensures below { IfOk result (λ n. n < length (added_of maker.new).exprs) }
    ensures grows { OnOk result
        (length (added_of maker.old).exprs ≤ length (added_of maker.new).exprs) }
{
    let value = value_of(maker, calls, e)?;
    if width_of(&maker.added.exprs, value) != 1 {
        return Err(LowerFault::Refused(DesignFault::N7, place));
    }
    Ok(value)
}

// The code of a process that drives so, behind some instructions.
fn driving_from(
    alloc: Global,
    added: &mut Added,
    drivers: DriverIds,
    from: usize,
    delay: Option<Wait>,
    value: ExprId,
    operations: Vec<Operation>,
) -> Result<Code, LowerFault>
    ensures made { Makes (Gates.driving_from drivers from delay (value, operations.items)
        (added_seen added.old)) result (added_seen added.new) }
    ensures exprs { (added_seen added.new).exprs ≡ (added_seen added.old).exprs }
{
    let wait = reading_from(alloc, added, from)?;
    Ok(driving_code(alloc, drivers, value, delay, wait, operations)?)
}

/// The code of a gate over its inputs, whose nodes stand from one on.
pub fn gate_code(
    maker: &mut Maker,
    place: Place,
    word: GateType,
    drivers: DriverIds,
    from: usize,
    delay: Option<Wait>,
    first: ExprId,
    rest: ExprIds,
    operations: Vec<Operation>,
) -> Lowered<Code>
    requires sound { HasSound maker.old (added_of maker.old) }
    requires first { first < length (added_of maker.old).exprs }
    requires rest { all_before (length (added_of maker.old).exprs) rest ≡ true }
    ensures { Adds
        (λ s a. Makes
        (Gates.gate_code s place word drivers from delay first rest operations.items a))
        maker.old result maker.new }
{
    let mut operations = operations;
    let value = gate_value(maker, &mut operations, place, word, first, rest)?;
    driving_from(
        maker.alloc,
        maker.added,
        drivers,
        from,
        delay,
        value,
        operations,
    )
}

// The whole of an object, with the calls in that: there are none.
fn whole_value(
    maker: &mut Maker,
    calls: &mut Vec<Operation>,
    place: Place,
    inner: ObjId,
) -> Lowered<ExprId>
    requires sound { HasSound maker.old (added_of maker.old) }
    requires readable { fits_word (around_of maker.old).scope.objects
        (length (added_of maker.old).exprs) access.Read inner None ≡ true }
    ensures { Adds
        (λ s a. Performs
        (performed s calls.old.items
        (selected_pushed s.scope place (whole_of inner) (Some select.Whole)) a) calls.new.items)
        maker.old result maker.new }
{
    let from = maker.added.exprs.len();
    let of = whole_of(inner);
    let whole = Some(Select::Whole);
    let value = push_selected(maker.around.scope, &mut maker.added.exprs, place, of, whole)?;
    with_calls(maker, calls, from, value)
}

/// The code of an output port, whose inner net or variable is this object.
pub fn port_code(maker: &mut Maker, place: Place, drivers: DriverIds, inner: ObjId) -> Lowered<Code>
    requires sound { HasSound maker.old (added_of maker.old) }
    requires readable { fits_word (around_of maker.old).scope.objects
        (length (added_of maker.old).exprs) access.Read inner None ≡ true }
    ensures { Adds (λ s a. Makes (Gates.port_code s place drivers inner a))
        maker.old result maker.new }
{
    let from = maker.added.exprs.len();
    let mut operations = Vec::new(maker.alloc);
    let value = whole_value(maker, &mut operations, place, inner)?;
    driving_from(
        maker.alloc,
        maker.added,
        drivers,
        from,
        None,
        value,
        operations,
    )
}

ghost use Rattle.std.specs.Prelude.{◌≡◌, [], ◌∷◌, ◌++◌, IfOk, OnOk};
ghost use Rattle.vh_lower_flow.specs.Views.{flow_tree};
ghost use Rattle.vh_lower.specs.Instructions.{instruction, choice_of, behind_operations, in_row, nothing, further, from_first, instructions, is_empty, gated, gated_further, again};
ghost use Rattle.vh_lower.specs.Views.{flows_seen};

use sqlite_items::{Boxed, Items};
use std::alloc::Global;
use vh_base::{NoMemory, Sequence};
use vh_design_code::Operation;
use vh_lower_flow::{Flow, FlowForm, Gate, Origin, Step, copied};

// Operations in a row, which contracts see as a list.
pub(crate) type Operations = Sequence<Operation>;

// An instruction of a statement.
fn instruction(number: u32, first: bool, operation: Operation) -> Result<Flow, NoMemory>
    ensures { IfOk result (λ f. flow_tree f ≡ instruction number first operation) }
{
    let origin = Origin {
        stmt: Some(number),
        first,
    };
    Flow::new(FlowForm::Step(Step { operation, origin }))
}

// Statements in a row.
pub(crate) fn in_row(items: Items<Flow>) -> Result<Flow, NoMemory>
    ensures { IfOk result (λ f. flow_tree f ≡ in_row (flows_seen items)) }
{
    Flow::new(FlowForm::Row(items))
}

// None.
pub(crate) fn nothing(alloc: Global) -> Result<Flow, NoMemory>
    ensures { IfOk result (λ f. flow_tree f ≡ nothing) }
{
    in_row(Items::new(alloc))
}

// Further instructions of a statement.
pub(crate) fn add_further(
    row: &mut Items<Flow>,
    number: u32,
    operations: Operations,
) -> Result<(), NoMemory>
    ensures { OnOk result
        (flows_seen row.new ≡ flows_seen row.old ++ further number operations) }
{
    for operation in operations.into_vec() {
        row.push(instruction(number, false, operation)?)?;
    }
    Ok(())
}

// The instructions of a statement from its first on.
pub(crate) fn add_first(
    row: &mut Items<Flow>,
    number: u32,
    operations: Operations,
) -> Result<(), NoMemory>
    ensures { OnOk result
        (flows_seen row.new ≡ flows_seen row.old ++ from_first number operations) }
{
    let mut first = true;
    for operation in operations.into_vec() {
        row.push(instruction(number, first, operation)?)?;
        first = false;
    }
    Ok(())
}

// The instructions of a statement.
pub(crate) fn instructions(
    alloc: Global,
    number: u32,
    operations: Operations,
) -> Result<Flow, NoMemory>
    ensures { IfOk result (λ f. flow_tree f ≡ instructions number operations) }
{
    let mut row = Items::new(alloc);
    add_first(&mut row, number, operations)?;
    in_row(row)
}

// An instruction that goes on in one of two ways.
fn choice(
    alloc: Global,
    gate: Gate,
    origin: Origin,
    holds: Flow,
    fails: Flow,
) -> Result<Flow, NoMemory>
    ensures { IfOk result
        (λ f. flow_tree f ≡ choice_of gate origin (flow_tree holds) (flow_tree fails)) }
{
    let holds = Boxed::new(alloc, holds)?;
    let fails = Boxed::new(alloc, fails)?;
    Flow::new(FlowForm::Choice {
        gate,
        origin,
        holds,
        fails,
    })
}

// Behind some calls, an instruction that goes on in one of two ways.
pub(crate) fn gated(
    alloc: Global,
    number: u32,
    calls: Operations,
    gate: Gate,
    holds: Flow,
    fails: Flow,
) -> Result<Flow, NoMemory>
    ensures { IfOk result
        (λ f. flow_tree f ≡ gated number calls gate (flow_tree holds) (flow_tree fails)) }
{
    let origin = Origin {
        stmt: Some(number),
        first: is_empty(&calls),
    };
    let mut row = Items::new(alloc);
    add_first(&mut row, number, calls)?;
    row.push(choice(alloc, gate, origin, holds, fails)?)?;
    in_row(row)
}

// Whether there are none.
pub(crate) fn is_empty(operations: &Operations) -> bool
    ensures { result ≡ is_empty operations.now }
{
    operations.as_slice().is_empty()
}

// The same where it isn't the first instruction.
pub(crate) fn gated_further(
    alloc: Global,
    number: u32,
    calls: Operations,
    gate: Gate,
    holds: Flow,
    fails: Flow,
) -> Result<Flow, NoMemory>
    ensures { IfOk result
        (λ f. flow_tree f ≡ gated_further number calls gate (flow_tree holds) (flow_tree fails)) }
{
    let origin = Origin {
        stmt: Some(number),
        first: false,
    };
    let mut row = Items::new(alloc);
    add_further(&mut row, number, calls)?;
    row.push(choice(alloc, gate, origin, holds, fails)?)?;
    in_row(row)
}

// The turns of a loop: its body, the calls that its gate needs, and the gate again.
pub(crate) fn again(
    alloc: Global,
    number: u32,
    calls: Operations,
    gate: Gate,
    mut body: Items<Flow>,
) -> Result<Flow, NoMemory>
    ensures { IfOk result (λ f. flow_tree f ≡ again number calls gate (flows_seen body)) }
{
    add_further(&mut body, number, calls)?;
    let body = Boxed::new(alloc, in_row(body)?)?;
    let origin = Origin {
        stmt: Some(number),
        first: false,
    };
    Flow::new(FlowForm::Turns { body, gate, origin })
}

// One statement in a row.
pub(crate) fn alone(alloc: Global, flow: Flow) -> Result<Items<Flow>, NoMemory>
    ensures { IfOk result (λ row. flows_seen row ≡ flow_tree flow ∷ []) }
{
    let mut row = Items::new(alloc);
    row.push(flow)?;
    Ok(row)
}

// An instruction that waits, or others, and the statement behind.
pub(crate) fn behind_operations(
    alloc: Global,
    number: u32,
    operations: Operations,
    body: Flow,
) -> Result<Flow, NoMemory>
    ensures { IfOk result (λ f. flow_tree f ≡ behind_operations number operations (flow_tree body)) }
{
    let mut row = Items::new(alloc);
    row.push(instructions(alloc, number, operations)?)?;
    row.push(body)?;
    in_row(row)
}

// Operations once more.
pub(crate) fn copies(alloc: Global, operations: &Operations) -> Result<Operations, NoMemory>
    ensures { IfOk result (λ os. os ≡ operations.now) }
{
    let mut all = Vec::new(alloc);
    for operation in operations.as_slice() {
        all.push(copied(alloc, operation)?)?;
    }
    Ok(Sequence::new(all))
}

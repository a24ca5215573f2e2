ghost use Rattle.std.specs.Prelude.{◌≡◌, [], IfOk};
ghost use Rattle.vh_lower_flow.specs.Views.{flow_tree};
ghost use Rattle.vh_lower.specs.Statements.{if_flow, while_flow, repeat_flow, loop_flow, for_turns, for_flow, forever_flow};

use crate::heads::{ForHead, Head};
use crate::instructions::{
    Operations, add_further, again, alone, copies, gated, gated_further, in_row, instructions,
    nothing,
};
use sqlite_items::Items;
use std::alloc::Global;
use vh_ast::LoopWord;
use vh_base::{NoMemory, Sequence};
use vh_lower_flow::{Flow, Gate};

// No instructions.
fn none(alloc: Global) -> Operations
    ensures { result ≡ [] }
{
    Sequence::new(Vec::new(alloc))
}

// An `if` (IEEE 1364-2005, 9.4).
pub(crate) fn if_flow(alloc: Global, head: Head, holds: Flow, fails: Flow) -> Result<Flow, NoMemory>
    ensures { IfOk result (λ f. flow_tree f ≡ if_flow head (flow_tree holds) (flow_tree fails)) }
{
    let Head {
        number,
        calls,
        test,
    } = head;
    gated(alloc, number, calls, Gate::Test(test), holds, fails)
}

// A `while`.
fn while_flow(alloc: Global, head: Head, body: Flow) -> Result<Flow, NoMemory>
    ensures { IfOk result (λ f. flow_tree f ≡ while_flow head (flow_tree body)) }
{
    let Head {
        number,
        calls,
        test,
    } = head;
    let more = copies(alloc, &calls)?;
    let turns = again(alloc, number, more, Gate::Test(test), alone(alloc, body)?)?;
    gated(
        alloc,
        number,
        calls,
        Gate::Test(test),
        turns,
        nothing(alloc)?,
    )
}

// A `repeat`.
fn repeat_flow(alloc: Global, head: Head, body: Flow) -> Result<Flow, NoMemory>
    ensures { IfOk result (λ f. flow_tree f ≡ repeat_flow head (flow_tree body)) }
{
    let Head {
        number,
        calls,
        test,
    } = head;
    let turns = again(alloc, number, none(alloc), Gate::Again, alone(alloc, body)?)?;
    gated(
        alloc,
        number,
        calls,
        Gate::Repeat(test),
        turns,
        nothing(alloc)?,
    )
}

// A `while` or a `repeat` (IEEE 1364-2005, 9.6).
pub(crate) fn loop_flow(
    alloc: Global,
    word: LoopWord,
    head: Head,
    body: Flow,
) -> Result<Flow, NoMemory>
    ensures { IfOk result (λ f. flow_tree f ≡ loop_flow word head (flow_tree body)) }
{
    match word {
        LoopWord::While => while_flow(alloc, head, body),
        LoopWord::Repeat => repeat_flow(alloc, head, body),
    }
}

// The turns of a `for`: its body, its step, and its test again.
fn for_turns(
    alloc: Global,
    number: u32,
    calls: Operations,
    gate: Gate,
    step: Operations,
    body: Flow,
) -> Result<Flow, NoMemory>
    ensures { IfOk result
        (λ f. flow_tree f ≡ for_turns number calls gate step (flow_tree body)) }
{
    let mut row = alone(alloc, body)?;
    add_further(&mut row, number, step)?;
    again(alloc, number, calls, gate, row)
}

// A `for` (IEEE 1364-2005, 9.6).
pub(crate) fn for_flow(alloc: Global, head: ForHead, body: Flow) -> Result<Flow, NoMemory>
    ensures { IfOk result (λ f. flow_tree f ≡ for_flow head (flow_tree body)) }
{
    let ForHead {
        number,
        start,
        calls,
        test,
        step,
    } = head;
    let gate = Gate::Test(test);
    let more = copies(alloc, &calls)?;
    let turns = for_turns(alloc, number, more, gate, step, body)?;
    let test = gated_further(alloc, number, calls, gate, turns, nothing(alloc)?)?;
    let mut row = Items::new(alloc);
    row.push(instructions(alloc, number, start)?)?;
    row.push(test)?;
    in_row(row)
}

// A `forever` (IEEE 1364-2005, 9.6).
pub(crate) fn forever_flow(alloc: Global, number: u32, body: Flow) -> Result<Flow, NoMemory>
    ensures { IfOk result (λ f. flow_tree f ≡ forever_flow number (flow_tree body)) }
{
    let turns = again(alloc, number, none(alloc), Gate::Turn, alone(alloc, body)?)?;
    gated(
        alloc,
        number,
        none(alloc),
        Gate::Turn,
        turns,
        nothing(alloc)?,
    )
}

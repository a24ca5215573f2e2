ghost use Rattle.std.specs.Prelude.{◌≡◌, ◌<◌, ◌∷◌, length, map, true, Some, IfOk, IfSome};
ghost use Rattle.std.specs.Option.{option_map};
ghost use Rattle.vh_design_nodes.specs.Fits.{all_before};
ghost use Rattle.vh_ast.specs.Views.{delay_tree, expr_tree, gate_tree};
ghost use Rattle.vh_bind.specs.Scopes.{here};
ghost use Rattle.vh_bind.specs.Steps.{Gives};
ghost use Rattle.vh_bind.specs.Views.{numbers_of, scope_seen};
ghost use Rattle.vh_elab_drives.specs.Gates;
ghost use Rattle.vh_elab_drives.specs.Nets;
ghost use Rattle.vh_elab.specs.Coded;
ghost use Rattle.vh_elab.specs.Views.{Becomes, BecomesWith, Codes, Stands, coding_of, delay_made, inputs_seen};

use crate::coding::{Coder, put_code, put_drivers, take_fault, tried};
use sqlite_items::Boxed;
use std::alloc::Global;
use vh_ast::{Delay, Expr, Gate, GateType};
use vh_base::{DesignFault, ExprId, NoMemory, Place, Sequence};
use vh_bind::{ElabFault, Scope, with_number};
use vh_design::{Delay as Wait, DriverIds, ExprIds, ExprNode, Operation};
use vh_elab_drives::{
    Driving, drivers_sum, gate_code, gate_delay, gate_input, has_terminals, output_drivers,
};
use vh_lower::Maker;

// The output of a gate has one digit.
fn output_one(alloc: Global, scope: &Scope, nodes: &[ExprNode], place: Place, e: &Expr) -> Driving
    ensures { Gives (Coded.output_one place
        (Nets.output_drivers (here (scope_seen scope.now) nodes.now) (expr_tree e.now))) result }
{
    let Some(drivers) = output_drivers(alloc, scope, nodes, e)? else {
        return Ok(None);
    };
    if drivers_sum(drivers.as_slice()) != 1 {
        return Err(ElabFault::Refused(DesignFault::N7, place));
    }
    Ok(Some(drivers))
}

// The inputs of a gate so far, behind the calls that they make; none where one of them has a fault.
#[derive(Drop)]
pub(crate) struct Inputs {
    pub(crate) numbers: Option<Vec<ExprId>>,
    pub(crate) calls: Vec<Operation>,
}

// One more, if it was made.
fn with_input(
    alloc: Global,
    numbers: Option<Vec<ExprId>>,
    calls: Vec<Operation>,
    number: Option<ExprId>,
) -> Result<Inputs, NoMemory>
    ensures { IfOk result (λ i. inputs_seen i
        ≡ Coded.one_input (numbers_of numbers) (option_map (λ n. (n, calls.items)) number)) }
{
    match number {
        None => Ok(Inputs {
            numbers: None,
            calls: Vec::new(alloc),
        }),
        Some(number) => Ok(Inputs {
            numbers: with_number(numbers, Some(number))?,
            calls,
        }),
    }
}

// An input of a gate.
fn code_input(coder: &mut Coder, place: Place, e: &Expr, inputs: Inputs) -> Result<Inputs, NoMemory>
    requires stands { Stands coder.old }
    requires below { IfSome (numbers_of inputs.numbers)
        (λ ns. all_before (length (coding_of coder.old).added.exprs) ns ≡ true) }
    ensures coded { Codes
        (λ r w c. BecomesWith inputs_seen
        (Coded.with_input (inputs_seen inputs)
        (Coded.tried r (Gates.input_of w place (inputs_seen inputs).calls (expr_tree e.now)) c)))
        coder.old result coder.new }
    ensures below { IfOk result (λ i. IfSome (numbers_of i.numbers)
        (λ ns. all_before (length (coding_of coder.new).added.exprs) ns ≡ true)) }
{
    let Inputs { numbers, calls } = inputs;
    let mut calls = calls;
    let outcome = gate_input(
        &mut Maker {
            alloc: coder.alloc,
            around: coder.around,
            added: &mut coder.coding.added,
        },
        &mut calls,
        place,
        e,
    );
    let number = tried(coder.alloc, coder.ready, outcome, coder.coding)?;
    let inputs = with_input(coder.alloc, numbers, calls, number)?;
    Ok(inputs)
}

// The inputs of a gate, each by itself.
fn code_inputs(
    coder: &mut Coder,
    place: Place,
    all: &[Expr],
    inputs: Inputs,
) -> Result<Inputs, NoMemory>
    requires stands { Stands coder.old }
    requires below { IfSome (numbers_of inputs.numbers)
        (λ ns. all_before (length (coding_of coder.old).added.exprs) ns ≡ true) }
    ensures coded { Codes
        (λ r w c. BecomesWith inputs_seen
        (Coded.inputs_coded r w place (map expr_tree all.now) (inputs_seen inputs, c)))
        coder.old result coder.new }
    ensures below { IfOk result (λ i. IfSome (numbers_of i.numbers)
        (λ ns. all_before (length (coding_of coder.new).added.exprs) ns ≡ true)) }
{
    let mut inputs = inputs;
    for e in all {
        inputs = code_input(coder, place, e, inputs)?;
    }
    Ok(inputs)
}

// The code of a gate over its inputs, of which there is one.
fn code_made(
    coder: &mut Coder,
    place: Place,
    word: GateType,
    drivers: DriverIds,
    from: usize,
    delay: Option<Wait>,
    first: ExprId,
    rest: ExprIds,
    calls: Vec<Operation>,
) -> Result<(), NoMemory>
    requires stands { Stands coder.old }
    requires first { first < length (coding_of coder.old).added.exprs }
    requires rest { all_before (length (coding_of coder.old).added.exprs) rest ≡ true }
    ensures { Codes
        (λ r w c. Becomes
        (Coded.gate_made r w place word drivers from delay (Some (first ∷ rest)) calls.items c))
        coder.old result coder.new }
{
    let outcome = gate_code(
        &mut Maker {
            alloc: coder.alloc,
            around: coder.around,
            added: &mut coder.coding.added,
        },
        place,
        word,
        drivers,
        from,
        delay,
        first,
        rest,
        calls,
    );
    put_code(coder.alloc, coder.ready, outcome, coder.coding)
}

// The code of a gate, where none of its inputs has a fault.
fn code_ended(
    coder: &mut Coder,
    place: Place,
    word: GateType,
    drivers: DriverIds,
    from: usize,
    delay: Option<Wait>,
    inputs: Inputs,
) -> Result<(), NoMemory>
    requires stands { Stands coder.old }
    requires below { IfSome (numbers_of inputs.numbers)
        (λ ns. all_before (length (coding_of coder.old).added.exprs) ns ≡ true) }
    ensures { Codes
        (λ r w c. Becomes
        (Coded.gate_ended r w place word drivers from delay (inputs_seen inputs, c)))
        coder.old result coder.new }
{
    let Inputs { numbers, calls } = inputs;
    let Some(numbers) = numbers else {
        return Ok(());
    };
    match numbers.as_slice() {
        [] => Ok(()),
        [first, rest @ ..] => {
            let rest = Sequence::new(Vec::from_slice(coder.alloc, rest)?);
            code_made(
                coder, place, word, drivers, from, delay, *first, rest, calls,
            )
        }
    }
}

// A gate, whose delay and drivers are known.
fn code_driven(
    coder: &mut Coder,
    place: Place,
    word: GateType,
    drivers: DriverIds,
    delay: Option<Wait>,
    calls: Vec<Operation>,
    all: &[Expr],
) -> Result<(), NoMemory>
    requires stands { Stands coder.old }
    ensures { Codes
        (λ r w c. Becomes
        (Coded.gate_inputs r w place word (map expr_tree all.now) (delay, calls.items)
        (drivers, c)))
        coder.old result coder.new }
{
    let from = coder.coding.added.exprs.len();
    let inputs = Inputs {
        numbers: Some(Vec::new(coder.alloc)),
        calls,
    };
    let inputs = code_inputs(coder, place, all, inputs)?;
    code_ended(coder, place, word, drivers, from, delay, inputs)
}

// The delay of a gate, with the calls that it makes: none where it has a fault.
fn code_delay(
    coder: &mut Coder,
    delay: &Option<Boxed<Delay>>,
) -> Result<(Option<Wait>, Vec<Operation>), NoMemory>
    requires stands { Stands coder.old }
    ensures { Codes
        (λ r w c. BecomesWith delay_made
        (Coded.delay_coded r w (option_map delay_tree delay.now) c))
        coder.old result coder.new }
{
    let mut calls = Vec::new(coder.alloc);
    let outcome = gate_delay(
        &mut Maker {
            alloc: coder.alloc,
            around: coder.around,
            added: &mut coder.coding.added,
        },
        &mut calls,
        delay,
    );
    match tried(coder.alloc, coder.ready, outcome, coder.coding)? {
        None => Ok((None, Vec::new(coder.alloc))),
        Some(delay) => Ok((delay, calls)),
    }
}

// The terminals of a gate: the first is its output.
fn code_terminals(
    coder: &mut Coder,
    place: Place,
    word: GateType,
    delay: &Option<Boxed<Delay>>,
    output: &Expr,
    all: &[Expr],
) -> Result<(), NoMemory>
    requires stands { Stands coder.old }
    ensures { Codes
        (λ r w c. Becomes
        (Coded.gate_driven r w place word (expr_tree output.now) (map expr_tree all.now)
        (Coded.delay_coded r w (option_map delay_tree delay.now) c)))
        coder.old result coder.new }
{
    let (delay, calls) = code_delay(coder, delay)?;
    let outcome = output_one(
        coder.alloc,
        coder.around.scope,
        &coder.coding.added.exprs,
        place,
        output,
    );
    let numbers = put_drivers(coder.alloc, outcome, coder.coding)?;
    code_driven(coder, place, word, numbers, delay, calls, all)
}

// A gate.
pub(crate) fn code_gate(
    coder: &mut Coder,
    word: GateType,
    delay: &Option<Boxed<Delay>>,
    gate: &Gate,
) -> Result<(), NoMemory>
    requires stands { Stands coder.old }
    ensures { Codes
        (λ r w c. Becomes
        (Coded.gate_coded r w word (option_map delay_tree delay.now) (gate_tree gate.now) c))
        coder.old result coder.new }
{
    let terminals = gate.terminals.as_slice();
    match terminals {
        [] => {
            take_fault(DesignFault::N7, gate.place, coder.coding);
            Ok(())
        }
        [output, all @ ..] => {
            if !has_terminals(word, terminals.len()) {
                take_fault(DesignFault::N7, gate.place, coder.coding);
                return Ok(());
            }
            code_terminals(coder, gate.place, word, delay, output, all)
        }
    }
}

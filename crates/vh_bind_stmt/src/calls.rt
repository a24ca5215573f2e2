ghost use Rattle.std.specs.Prelude.{◌≡◌, ◌++◌, ◌∷◌, [], ◌-◌, length, slice_get, IfOk, OnOk};
ghost use Rattle.std.specs.List.{flat_map};
ghost use Rattle.std.specs.Option.{option_copied};
ghost use Rattle.vh_bind_stmt.specs.Calls.{arguments_of, kept_if, given_of, taken_of, inputs_of, selected_in, selected_as, selected_at, joined_at, outputs_of, begin_of, end_of, call_of, calls_in, calls_at, calls_of, read_as, reads_at, reads_of};
ghost use Rattle.vh_sense.specs.Reads.{object_in};
ghost use Rattle.vh_bind_stmt.specs.Views.{surroundings_seen};

use crate::surroundings::{Argument, Surroundings};
use sqlite_items::at;
use std::alloc::Global;
use vh_base::{Boxed, ExprId, NoMemory, ObjId, Sequence};
use vh_bind_expr::{is_given, is_taken};
use vh_design_code::{
    Input, Inputs, Leave, Operation, Output, Outputs, Returned, Targets, Term, Terms,
};
use vh_design_nodes::{Chosen, ExprKind, ExprNode, Select, Selected, body_number};

/// The arguments of a task or function, in order.
pub fn arguments_of<'s>(around: &Surroundings<'s, '_, '_>, routine: ObjId) -> &'s [Argument]
    ensures { result.now ≡ arguments_of (surroundings_seen around.now) routine }
{
    let Some(body) = body_number(around.scope.objects, routine) else {
        return &[];
    };
    match around.arguments.get(body as usize) {
        None => &[],
        Some(arguments) => arguments.as_slice(),
    }
}

// An argument, where it counts.
fn keep_if(kept: &mut Vec<Argument>, counts: bool, argument: Argument) -> Result<(), NoMemory>
    ensures { OnOk result (kept.new.items ≡ kept.old.items ++ kept_if counts argument) }
{
    if counts {
        kept.push(argument)?;
    }
    Ok(())
}

// The arguments that are given a value at the begin of a call.
fn given_of(alloc: Global, arguments: &[Argument]) -> Result<Vec<Argument>, NoMemory>
    ensures { IfOk result (λ v. v.items ≡ given_of arguments.now) }
{
    let mut kept = Vec::new(alloc);
    for argument in arguments {
        keep_if(&mut kept, is_given(argument.direction), *argument)?;
    }
    Ok(kept)
}

// The arguments that are assigned at its end.
fn taken_of(alloc: Global, arguments: &[Argument]) -> Result<Vec<Argument>, NoMemory>
    ensures { IfOk result (λ v. v.items ≡ taken_of arguments.now) }
{
    let mut kept = Vec::new(alloc);
    for argument in arguments {
        keep_if(&mut kept, is_taken(argument.direction), *argument)?;
    }
    Ok(kept)
}

// One input more.
fn add_input(inputs: &mut Vec<Input>, argument: Argument, value: ExprId) -> Result<(), NoMemory>
    ensures { OnOk result (inputs.new.items
        ≡ inputs.old.items ++ record { variable = argument.variable; value = value } ∷ []) }
{
    inputs.push(Input {
        variable: argument.variable,
        value,
    })?;
    Ok(())
}

// What the begin gives to them.
fn inputs_of(alloc: Global, arguments: &[Argument], values: &[ExprId]) -> Result<Inputs, NoMemory>
    ensures { IfOk result (λ inputs. inputs ≡ inputs_of arguments.now values.now) }
{
    let mut inputs = Vec::new(alloc);
    for (k, argument) in arguments.iter().enumerate() {
        let Some(value) = values.get(k) else {
            return Ok(Sequence::new(inputs));
        };
        add_input(&mut inputs, *argument, *value)?;
    }
    Ok(Sequence::new(inputs))
}

// What an expression selects, where it does.
fn selected_in(kind: &ExprKind) -> Option<Selected>
    ensures { result ≡ selected_in kind.now }
{
    match kind {
        ExprKind::Selected(selected) => Some(*selected),
        ExprKind::Literal(_)
        | ExprKind::Unary { .. }
        | ExprKind::Arithmetic { .. }
        | ExprKind::Shift { .. }
        | ExprKind::Comparison { .. }
        | ExprKind::Logic { .. }
        | ExprKind::Choice { .. }
        | ExprKind::Join { .. }
        | ExprKind::Repeat { .. }
        | ExprKind::WithSign { .. }
        | ExprKind::Time { .. }
        | ExprKind::Call { .. }
        | ExprKind::SysCall(_) => None,
    }
}

// One target more.
pub(crate) fn add_one(
    targets: &mut Vec<Selected>,
    of: Chosen,
    select: Select,
) -> Result<(), NoMemory>
    ensures { OnOk result
        (targets.new.items ≡ targets.old.items ++ record { of = of; select = select } ∷ []) }
{
    targets.push(Selected { of, select })?;
    Ok(())
}

fn add_selected_as(targets: &mut Vec<Selected>, selected: Option<Selected>) -> Result<(), NoMemory>
    ensures { OnOk result (targets.new.items ≡ targets.old.items ++ selected_as selected) }
{
    match selected {
        None => Ok(()),
        Some(selected) => add_one(targets, selected.of, selected.select),
    }
}

// The same of an expression, if it is there.
fn add_selected_there(targets: &mut Vec<Selected>, node: Option<&ExprNode>) -> Result<(), NoMemory>
    ensures { OnOk result
        (targets.new.items ≡ targets.old.items ++ selected_at (option_copied node.entry)) }
{
    match node {
        None => Ok(()),
        Some(node) => add_selected_as(targets, selected_in(&node.kind)),
    }
}

fn add_selected(targets: &mut Vec<Selected>, nodes: &[ExprNode], e: ExprId) -> Result<(), NoMemory>
    ensures { OnOk result
        (targets.new.items ≡ targets.old.items ++ selected_at (slice_get nodes.now e)) }
{
    add_selected_there(targets, at(nodes, e.number() as usize))
}

// What some expressions select.
fn add_all_selected(
    targets: &mut Vec<Selected>,
    nodes: &[ExprNode],
    parts: &[ExprId],
) -> Result<(), NoMemory>
    ensures { OnOk result (targets.new.items
        ≡ targets.old.items ++ flat_map (λ e. selected_at (slice_get nodes.now e)) parts.now) }
{
    for part in parts {
        add_selected(targets, nodes, *part)?;
    }
    Ok(())
}

// The variables that are joined in an expression.
fn joined_at(alloc: Global, nodes: &[ExprNode], e: ExprId) -> Result<Targets, NoMemory>
    ensures { IfOk result (λ targets. targets ≡ joined_at nodes.now e) }
{
    let mut targets = Vec::new(alloc);
    if let Some(
        ExprNode {
            kind: ExprKind::Join { first, rest },
            ..
        },
    ) = nodes.get(e.number() as usize)
    {
        add_selected(&mut targets, nodes, *first)?;
        add_all_selected(&mut targets, nodes, rest.as_slice())?;
    }
    Ok(Sequence::new(targets))
}

// One output more.
fn add_output(
    outputs: &mut Vec<Output>,
    argument: Argument,
    targets: Targets,
) -> Result<(), NoMemory>
    ensures { OnOk result (outputs.new.items
        ≡ outputs.old.items ++ record { targets = targets; variable = argument.variable } ∷ []) }
{
    outputs.push(Output {
        targets,
        variable: argument.variable,
    })?;
    Ok(())
}

// What the end assigns.
fn outputs_of(
    alloc: Global,
    nodes: &[ExprNode],
    arguments: &[Argument],
    joins: &[ExprId],
) -> Result<Outputs, NoMemory>
    ensures { IfOk result (λ outputs. outputs ≡ outputs_of nodes.now arguments.now joins.now) }
{
    let mut outputs = Vec::new(alloc);
    for (k, argument) in arguments.iter().enumerate() {
        let Some(join) = joins.get(k) else {
            return Ok(Sequence::new(outputs));
        };
        let targets = joined_at(alloc, nodes, *join)?;
        add_output(&mut outputs, *argument, targets)?;
    }
    Ok(Sequence::new(outputs))
}

// The begin of a call, where an expression is one.
fn add_begin(
    alloc: Global,
    operations: &mut Vec<Operation>,
    function: ObjId,
    arguments: &[Argument],
    values: &[ExprId],
) -> Result<(), NoMemory>
    ensures { OnOk result (operations.new.items
        ≡ operations.old.items ++ begin_of function arguments.now values.now) }
{
    let given = given_of(alloc, arguments)?;
    if values.len() != given.len() {
        return Ok(());
    }
    let inputs = inputs_of(alloc, &given, values)?;
    operations.push(Operation::Enter {
        routine: function,
        inputs,
    })?;
    Ok(())
}

// The end of a call, where an expression is one.
fn add_end(
    alloc: Global,
    operations: &mut Vec<Operation>,
    nodes: &[ExprNode],
    arguments: &[Argument],
    values: &[ExprId],
    returned: Returned,
) -> Result<(), NoMemory>
    ensures { OnOk result (operations.new.items
        ≡ operations.old.items ++ end_of nodes.now arguments.now values.now returned) }
{
    let given = given_of(alloc, arguments)?.len();
    let taken = taken_of(alloc, arguments)?;
    if values.len() < given || values.len() - given != taken.len() {
        return Ok(());
    }
    let outputs = outputs_of(alloc, nodes, &taken, &values[given..])?;
    let leave = Leave {
        outputs,
        result: Some(returned),
    };
    operations.push(Operation::Leave(Boxed::new(alloc, leave)?))?;
    Ok(())
}

// The labels of a call of a function: its begin and its end, which keeps the result.
fn add_call(
    alloc: Global,
    operations: &mut Vec<Operation>,
    nodes: &[ExprNode],
    function: ObjId,
    arguments: &[Argument],
    values: &[ExprId],
    returned: Returned,
) -> Result<(), NoMemory>
    ensures { OnOk result (operations.new.items
        ≡ operations.old.items ++ call_of nodes.now function arguments.now values.now returned) }
{
    add_begin(alloc, operations, function, arguments, values)?;
    add_end(alloc, operations, nodes, arguments, values, returned)
}

// The labels of one expression, if it is a call.
fn add_calls_in(
    alloc: Global,
    around: &Surroundings,
    operations: &mut Vec<Operation>,
    nodes: &[ExprNode],
    e: ExprId,
    kind: &ExprKind,
) -> Result<(), NoMemory>
    ensures { OnOk result
        (operations.new.items ≡
        operations.old.items ++ calls_in (surroundings_seen around.now) nodes.now e kind.now) }
{
    match kind {
        ExprKind::Literal(_)
        | ExprKind::Selected(_)
        | ExprKind::Unary { .. }
        | ExprKind::Arithmetic { .. }
        | ExprKind::Shift { .. }
        | ExprKind::Comparison { .. }
        | ExprKind::Logic { .. }
        | ExprKind::Choice { .. }
        | ExprKind::Join { .. }
        | ExprKind::Repeat { .. }
        | ExprKind::WithSign { .. }
        | ExprKind::Time { .. } => Ok(()),
        ExprKind::Call {
            function,
            result,
            arguments,
        } => {
            let returned = Returned {
                call: e,
                variable: *result,
            };
            let values = arguments.get().as_slice();
            let arguments = arguments_of(around, *function);
            add_call(
                alloc, operations, nodes, *function, arguments, values, returned,
            )
        }
        ExprKind::SysCall(call) => Ok(operations.push(Operation::SysFunc(*call))?),
    }
}

// The labels of an expression of this number, if it is there.
fn add_calls_there(
    alloc: Global,
    around: &Surroundings,
    operations: &mut Vec<Operation>,
    nodes: &[ExprNode],
    e: usize,
    node: Option<&ExprNode>,
) -> Result<(), NoMemory>
    ensures { OnOk result
        (operations.new.items ≡
        operations.old.items
        ++ calls_at (surroundings_seen around.now) nodes.now e (option_copied node.entry)) }
{
    match node {
        None => Ok(()),
        Some(node) => {
            let Ok(number) = u32::try_from(e) else {
                return Err(NoMemory);
            };
            add_calls_in(
                alloc,
                around,
                operations,
                nodes,
                ExprId::new(number),
                &node.kind,
            )
        }
    }
}

/// Adds the labels of the calls in the expressions from one on, in the order in which they are
/// performed (IEEE 1364-2005, 10.4).
pub fn add_calls(
    alloc: Global,
    around: &Surroundings,
    operations: &mut Vec<Operation>,
    nodes: &[ExprNode],
    from: usize,
) -> Result<(), NoMemory>
    ensures { OnOk result
        (operations.new.items ≡
        operations.old.items
        ++ calls_of (surroundings_seen around.now) nodes.now (length nodes.now - from) from) }
{
    for e in from..nodes.len() {
        add_calls_there(alloc, around, operations, nodes, e, at(nodes, e))?;
    }
    Ok(())
}

// The object whose value an expression itself reads, where it reads one.
#[tactic(auto, using(crate::proofs::CallsLemmas::object_selected))]
fn object_in(kind: &ExprKind) -> Option<ObjId>
    ensures { result ≡ object_in kind.now }
{
    match selected_in(kind) {
        None => None,
        Some(selected) => Some(selected.of.object),
    }
}

// An object that is read, if one is.
fn add_read(terms: &mut Vec<Term>, object: Option<ObjId>) -> Result<(), NoMemory>
    ensures { OnOk result (terms.new.items ≡ terms.old.items ++ read_as object) }
{
    match object {
        None => Ok(()),
        Some(object) => Ok(terms.push(Term::Reads(object))?),
    }
}

// What an expression reads, if it is there.
fn add_reads_there(terms: &mut Vec<Term>, node: Option<&ExprNode>) -> Result<(), NoMemory>
    ensures { OnOk result
        (terms.new.items ≡ terms.old.items ++ reads_at (option_copied node.entry)) }
{
    match node {
        None => Ok(()),
        Some(node) => add_read(terms, object_in(&node.kind)),
    }
}

/// What the expressions from one on read; a memory counts with all its words (IEEE 1364-2005, 9.7.5).
pub fn reads_of(alloc: Global, nodes: &[ExprNode], from: usize) -> Result<Terms, NoMemory>
    ensures { IfOk result (λ terms. terms ≡ reads_of nodes.now (length nodes.now - from) from) }
{
    let mut terms = Vec::new(alloc);
    for e in from..nodes.len() {
        add_reads_there(&mut terms, at(nodes, e))?;
    }
    Ok(Sequence::new(terms))
}

ghost use Rattle.std.specs.Prelude.{◌≡◌, ◌++◌, map, IfOk, OnOk};
ghost use Rattle.vh_lower_flow.specs.Trees;
ghost use Rattle.vh_lower_flow.specs.Trees.{case_items};
ghost use Rattle.vh_lower_flow.specs.Laid as rules;
ghost use Rattle.vh_lower_flow.specs.Laid.{arms_from, branches_from, with_choice, with_case, with_fork, laid, row_laid, items_laid, branches_laid, code_of};
ghost use Rattle.vh_lower_flow.specs.Views.{flow_tree, item_tree, form_tree, laid_seen};

use crate::code_kind::CodeKind;
use crate::copies::copied;
use crate::flow::{CaseHead, CaseItem, Flow, FlowForm, Gate, Origin};
use crate::positions::{
    Laid, NO_ORIGIN, add_block, add_end, add_instruction, empty, gate_of, next_block, position_in,
    start_at,
};
use crate::sizes::{items_size, plus, size_of};
use std::alloc::Global;
use vh_base::{Boxed, ExprId, NoMemory, Sequence};
use vh_design_code::{Arm, Arms, CaseTest, Code, Goes, Loop, Operation, Positions};

/// The code of a statement. It goes over the tree once; its instructions' operations are copied.
pub fn code_of(alloc: Global, kind: CodeKind, flow: &Flow) -> Result<Code, NoMemory>
    ensures { IfOk result (λ c. c ≡ code_of kind (flow_tree flow.now)) }
{
    let size = size_of(flow);
    let mut so = empty(alloc);
    match kind {
        CodeKind::Initial => {
            lay(alloc, &mut so, Goes::To(size), None, flow)?;
            add_end(&mut so)?;
            Ok(code_from(Goes::To(0), so))
        }
        CodeKind::Always => {
            let next = start_at(1, size, Goes::To(0));
            add_instruction(&mut so, Operation::Loop(Loop::Turn), NO_ORIGIN, next, None)?;
            lay(alloc, &mut so, Goes::To(0), None, flow)?;
            Ok(code_from(Goes::To(0), so))
        }
        CodeKind::Body | CodeKind::Value => {
            lay(alloc, &mut so, Goes::Back, None, flow)?;
            Ok(code_from(start_at(0, size, Goes::Back), so))
        }
        CodeKind::Assign => {
            let again = start_at(0, size, Goes::Back);
            lay(alloc, &mut so, again, None, flow)?;
            Ok(code_from(again, so))
        }
    }
}

// A code that begins there.
fn code_from(start: Goes, so: Laid) -> Code
    ensures { result ≡ rules.code_from start (laid_seen so) }
{
    Code {
        start,
        instructions: Sequence::new(so.instructions),
        blocks: Sequence::new(so.blocks),
    }
}

// The values of a `case`'s items, each with the statement that it leads to.
fn arms_from(
    alloc: Global,
    first: u32,
    after: Goes,
    items: &[CaseItem<Flow>],
) -> Result<Arms, NoMemory>
    ensures { IfOk result
        (λ arms. arms ≡ arms_from first after (case_items (map item_tree items.now))) }
{
    let mut arms = Vec::new(alloc);
    let mut position = first;
    for item in items {
        let size = size_of(&item.body);
        add_arms(
            &mut arms,
            start_at(position, size, after),
            item.matched.as_slice(),
        )?;
        position = plus(position, size)?;
    }
    Ok(Sequence::new(arms))
}

// What a `case` compares.
fn case_test(head: CaseHead, arms: Arms) -> CaseTest
    ensures { result ≡ rules.case_test head arms }
{
    CaseTest {
        kind: head.kind,
        subject: head.subject,
        arms,
        width: head.width,
        signed: head.signed,
    }
}

// Matched that lead to one statement.
fn add_arms(arms: &mut Vec<Arm>, to: Goes, matched: &[ExprId]) -> Result<(), NoMemory>
    ensures { OnOk result (arms.new.items ≡ arms.old.items ++ map (rules.arm_to to) matched.now) }
{
    for value in matched {
        arms.push(Arm { value: *value, to })?;
    }
    Ok(())
}

// Where the branches of a `fork` begin.
fn branches_from(alloc: Global, first: u32, flows: &[Flow]) -> Result<Positions, NoMemory>
    ensures { IfOk result
        (λ positions. positions ≡ branches_from first (Trees.flows (map flow_tree flows.now))) }
{
    let mut positions = Vec::new(alloc);
    let mut position = first;
    for flow in flows {
        positions.push(position)?;
        let end = plus(position, size_of(flow))?;
        position = plus(end, 1)?;
    }
    Ok(Sequence::new(positions))
}

// An instruction that goes on at a statement of so many instructions behind it, or at one of so many behind that.
fn add_choice(
    so: &mut Laid,
    gate: Gate,
    origin: Origin,
    sizes: (u32, u32),
    after: Goes,
    inner: Option<u32>,
) -> Result<(), NoMemory>
    ensures { OnOk result
        (laid_seen so.new ≡ with_choice gate origin sizes.0 sizes.1 after inner (laid_seen so.old)) }
{
    let (holds, fails) = sizes;
    let first = plus(position_in(so)?, 1)?;
    let second = plus(first, holds)?;
    let operation = gate_of(gate, start_at(second, fails, after));
    add_instruction(so, operation, origin, start_at(first, holds, after), inner)
}

// The test of a `case`.
fn add_case(
    alloc: Global,
    so: &mut Laid,
    head: CaseHead,
    origin: Origin,
    items: &[CaseItem<Flow>],
    default: u32,
    after: Goes,
    inner: Option<u32>,
) -> Result<(), NoMemory>
    ensures { OnOk result
        (laid_seen so.new ≡
        with_case head origin (case_items (map item_tree items.now)) default after inner
        (laid_seen so.old)) }
{
    let first = plus(position_in(so)?, 1)?;
    let last = plus(first, items_size(items)?)?;
    let arms = arms_from(alloc, first, after, items)?;
    let test = Operation::Case(Boxed::new(alloc, case_test(head, arms))?);
    add_instruction(so, test, origin, start_at(last, default, after), inner)
}

// A `fork`.
fn add_fork(
    alloc: Global,
    so: &mut Laid,
    origin: Origin,
    branches: &[Flow],
    after: Goes,
    inner: Option<u32>,
) -> Result<(), NoMemory>
    ensures { OnOk result
        (laid_seen so.new ≡
        with_fork origin (Trees.flows (map flow_tree branches.now)) after inner (laid_seen so.old)) }
{
    let first = plus(position_in(so)?, 1)?;
    let positions = branches_from(alloc, first, branches)?;
    add_instruction(so, Operation::Fork(positions), origin, after, inner)
}

// The instructions of a statement, which goes on there, in that block.
#[cycle(lay)]
fn lay(
    alloc: Global,
    so: &mut Laid,
    after: Goes,
    inner: Option<u32>,
    flow: &Flow,
) -> Result<(), NoMemory>
    ensures { OnOk result
        (laid_seen so.new ≡ laid (flow_tree flow.now) after inner (laid_seen so.old)) }
{
    match &flow.form {
        FlowForm::Step(step) => {
            let operation = copied(alloc, &step.operation)?;
            add_instruction(so, operation, step.origin, after, inner)
        }
        FlowForm::Row(flows) => lay_row(alloc, so, after, inner, flow.size, flows.as_slice()),
        FlowForm::Choice {
            gate,
            origin,
            holds,
            fails,
        } => {
            let sizes = (size_of(holds.get()), size_of(fails.get()));
            add_choice(so, *gate, *origin, sizes, after, inner)?;
            lay(alloc, so, after, inner, holds.get())?;
            lay(alloc, so, after, inner, fails.get())
        }
        FlowForm::Turns { body, gate, origin } => {
            let first = position_in(so)?;
            let end = plus(first, size_of(body.get()))?;
            lay(alloc, so, Goes::To(end), inner, body.get())?;
            add_instruction(so, gate_of(*gate, after), *origin, Goes::To(first), inner)
        }
        FlowForm::Case {
            head,
            origin,
            items,
            default,
        } => {
            let size = size_of(default.get());
            add_case(
                alloc,
                so,
                *head,
                *origin,
                items.as_slice(),
                size,
                after,
                inner,
            )?;
            lay_items(alloc, so, after, inner, items.as_slice())?;
            lay(alloc, so, after, inner, default.get())
        }
        FlowForm::Block { object, body } => {
            let number = next_block(so)?;
            add_block(so, *object, inner, after)?;
            lay(alloc, so, after, Some(number), body.get())
        }
        FlowForm::Fork { origin, branches } => {
            add_fork(alloc, so, *origin, branches.as_slice(), after, inner)?;
            lay_branches(alloc, so, branches.as_slice())
        }
    }
}

// One after another: each goes on at the next that has an instruction, or behind the row.
#[cycle(lay)]
fn lay_row(
    alloc: Global,
    so: &mut Laid,
    after: Goes,
    inner: Option<u32>,
    size: u32,
    flows: &[Flow],
) -> Result<(), NoMemory>
    ensures { OnOk result
        (laid_seen so.new ≡
        row_laid size (Trees.flows (map flow_tree flows.now)) after inner (laid_seen so.old)) }
{
    let mut rest = size;
    for flow in flows {
        rest = rest.saturating_sub(size_of(flow));
        let position = position_in(so)?;
        let next = plus(position, size_of(flow))?;
        lay(alloc, so, start_at(next, rest, after), inner, flow)?;
    }
    Ok(())
}

// The statements of a `case`.
#[cycle(lay)]
fn lay_items(
    alloc: Global,
    so: &mut Laid,
    after: Goes,
    inner: Option<u32>,
    items: &[CaseItem<Flow>],
) -> Result<(), NoMemory>
    ensures { OnOk result
        (laid_seen so.new ≡
        items_laid (case_items (map item_tree items.now)) after inner (laid_seen so.old)) }
{
    for item in items {
        lay(alloc, so, after, inner, &item.body)?;
    }
    Ok(())
}

// The branches of a `fork`, each with its end.
#[cycle(lay)]
fn lay_branches(alloc: Global, so: &mut Laid, flows: &[Flow]) -> Result<(), NoMemory>
    ensures { OnOk result
        (laid_seen so.new ≡
        branches_laid (Trees.flows (map flow_tree flows.now)) (laid_seen so.old)) }
{
    for flow in flows {
        let position = position_in(so)?;
        let end = plus(position, size_of(flow))?;
        lay(alloc, so, Goes::To(end), None, flow)?;
        add_end(so)?;
    }
    Ok(())
}

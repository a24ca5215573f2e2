ghost use Rattle.std.specs.Prelude.{◌≡◌, ◌+◌, IfOk};
ghost use Rattle.vh_lower_flow.specs.Trees.{row_size, items_size, branches_size, instructions_in, size_of};
ghost use Rattle.vh_lower_flow.specs.Trees;
ghost use Rattle.vh_lower_flow.specs.Trees.{case_items};
ghost use Rattle.vh_lower_flow.specs.Views.{flow_tree, item_tree, form_tree};
ghost use Rattle.std.specs.Prelude.{map};

use crate::flow::{CaseItem, Flow, FlowForm};
use vh_base::NoMemory;

// So many instructions and so many more, where they can be numbered.
pub(crate) fn plus(matched: u32, more: u32) -> Result<u32, NoMemory>
    ensures { IfOk result (λ n. n ≡ matched + more) }
{
    match matched.checked_add(more) {
        None => Err(NoMemory),
        Some(sum) => Ok(sum),
    }
}

// How many instructions a statement has.
pub(crate) fn size_of(flow: &Flow) -> u32
    ensures { result ≡ size_of (flow_tree flow.now) }
{
    flow.size
}

// How many statements in a row have.
fn row_size(flows: &[Flow]) -> Result<u32, NoMemory>
    ensures { IfOk result (λ n. n ≡ row_size (Trees.flows (map flow_tree flows.now))) }
{
    let mut sum = 0;
    for flow in flows {
        sum = plus(sum, size_of(flow))?;
    }
    Ok(sum)
}

// How many the statements of a `case` have.
pub(crate) fn items_size(items: &[CaseItem<Flow>]) -> Result<u32, NoMemory>
    ensures { IfOk result (λ n. n ≡ items_size (case_items (map item_tree items.now))) }
{
    let mut sum = 0;
    for item in items {
        sum = plus(sum, size_of(&item.body))?;
    }
    Ok(sum)
}

// How many the branches of a `fork` have, each with its end.
fn branches_size(flows: &[Flow]) -> Result<u32, NoMemory>
    ensures { IfOk result (λ n. n ≡ branches_size (Trees.flows (map flow_tree flows.now))) }
{
    let mut sum = 0;
    for flow in flows {
        let branch = plus(size_of(flow), 1)?;
        sum = plus(sum, branch)?;
    }
    Ok(sum)
}

// How many a form has.
pub(crate) fn instructions_in(form: &FlowForm<Flow>) -> Result<u32, NoMemory>
    ensures { IfOk result (λ n. n ≡ instructions_in (form_tree form.now)) }
{
    match form {
        FlowForm::Step(_) => Ok(1),
        FlowForm::Row(flows) => row_size(flows.as_slice()),
        FlowForm::Choice { holds, fails, .. } => {
            let first = plus(1, size_of(holds.get()))?;
            plus(first, size_of(fails.get()))
        }
        FlowForm::Turns { body, .. } => plus(size_of(body.get()), 1),
        FlowForm::Case { items, default, .. } => {
            let items = items_size(items.as_slice())?;
            let first = plus(1, items)?;
            plus(first, size_of(default.get()))
        }
        FlowForm::Block { body, .. } => Ok(size_of(body.get())),
        FlowForm::Fork { branches, .. } => {
            let branches = branches_size(branches.as_slice())?;
            plus(1, branches)
        }
    }
}

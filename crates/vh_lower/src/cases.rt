ghost use Rattle.std.specs.Prelude.{◌≡◌, [], ◌∷◌, ◌++◌, map, IfOk, OnOk};
ghost use Rattle.vh_design_nodes.specs.Widths.{widest, all_signed};
ghost use Rattle.vh_ast.specs.Views.{expr_tree};
ghost use Rattle.vh_lower_flow.specs.Views.{flow_tree, item_tree};
ghost use Rattle.vh_lower.specs.Statements.{case_kind, case_head, case_with, case_tree, no_cases, or_nothing, with_item, with_default, values_of};
ghost use Rattle.vh_lower.specs.Views.{cases_seen, flows_seen, Performs, Stands, Adds};

use crate::added::Maker;
use crate::fault::Lowered;
use crate::instructions::{Operations, add_first, in_row, is_empty, nothing};
use crate::making::value_of;
use sqlite_items::{Boxed, Items};
use std::alloc::Global;
use vh_ast::{CaseWord, Expr};
use vh_base::{ExprId, NoMemory, Sequence};
use vh_design_code::{CaseKind, Operation};
use vh_design_nodes::{ExprIds, ExprNode, signed_of, width_of};
use vh_lower_flow::{CaseHead, CaseItem, Flow, FlowForm, Origin};

// A `case` so far: the calls that its test makes, all its matched, its statements, and what is done
// where no value fits.
#[derive(Drop)]
pub(crate) struct Cases {
    pub calls: Vec<Operation>,
    pub matched: Vec<ExprId>,
    pub items: Items<CaseItem<Flow>>,
    /// The first of them counts.
    pub default: Items<Flow>,
}

// What a `case` is compared with.
fn case_kind(word: CaseWord) -> CaseKind
    ensures { result ≡ case_kind word }
{
    match word {
        CaseWord::Case => CaseKind::Plain,
        CaseWord::Casez => CaseKind::Z,
        CaseWord::Casex => CaseKind::X,
    }
}

// The greatest width of a subject and matched.
fn widest(nodes: &[ExprNode], subject: u32, matched: &[ExprId]) -> u32
    ensures { result ≡ widest nodes.now subject matched.now }
{
    matched
        .iter()
        .fold(subject, |best, e| best.max(width_of(nodes, *e)))
}

// Whether all matched are signed.
fn all_signed(nodes: &[ExprNode], matched: &[ExprId]) -> bool
    ensures { result ≡ all_signed nodes.now matched.now }
{
    matched.iter().all(|e| signed_of(nodes, *e))
}

// What a `case` compares, and how.
fn case_head(word: CaseWord, subject: ExprId, matched: &[ExprId], nodes: &[ExprNode]) -> CaseHead
    ensures { result ≡ case_head word subject matched.now nodes.now }
{
    CaseHead {
        kind: case_kind(word),
        subject,
        width: widest(nodes, width_of(nodes, subject), matched),
        signed: signed_of(nodes, subject) && all_signed(nodes, matched),
    }
}

// None yet, behind some calls.
pub(crate) fn no_cases(alloc: Global, calls: Operations) -> Cases
    ensures { cases_seen result ≡ no_cases calls }
{
    Cases {
        calls: calls.into_vec(),
        matched: Vec::new(alloc),
        items: Items::new(alloc),
        default: Items::new(alloc),
    }
}

// The first of some statements, or none.
fn or_nothing(alloc: Global, mut flows: Items<Flow>) -> Result<Flow, NoMemory>
    ensures { IfOk result (λ f. flow_tree f ≡ or_nothing (flows_seen flows)) }
{
    if flows.is_empty() {
        return nothing(alloc);
    }
    Ok(flows.remove(0))
}

// The test of a `case` with its statements.
fn case_of(
    alloc: Global,
    head: CaseHead,
    origin: Origin,
    items: Items<CaseItem<Flow>>,
    default: Flow,
) -> Result<Flow, NoMemory>
    ensures { IfOk result
        (λ f. flow_tree f ≡ case_with head origin (map item_tree items) (flow_tree default)) }
{
    let default = Boxed::new(alloc, default)?;
    Flow::new(FlowForm::Case {
        head,
        origin,
        items,
        default,
    })
}

// The tree of a `case`.
fn case_tree(alloc: Global, number: u32, head: CaseHead, cases: Cases) -> Result<Flow, NoMemory>
    ensures { IfOk result (λ f. flow_tree f ≡ case_tree number head (cases_seen cases)) }
{
    let Cases {
        calls,
        items,
        default,
        ..
    } = cases;
    let calls = Sequence::new(calls);
    let origin = Origin {
        stmt: Some(number),
        first: is_empty(&calls),
    };
    let default = or_nothing(alloc, default)?;
    let test = case_of(alloc, head, origin, items, default)?;
    let mut row = Items::new(alloc);
    add_first(&mut row, number, calls)?;
    row.push(test)?;
    in_row(row)
}

// A `case` (IEEE 1364-2005, 9.5).
pub(crate) fn case_flow(
    alloc: Global,
    word: CaseWord,
    number: u32,
    subject: ExprId,
    cases: Cases,
    nodes: &[ExprNode],
) -> Result<Flow, NoMemory>
    ensures { IfOk result
        (λ f. flow_tree f ≡
        case_tree number (case_head word subject (cases_seen cases).matched nodes.now)
        (cases_seen cases)) }
{
    let compared = case_head(word, subject, &cases.matched, nodes);
    case_tree(alloc, number, compared, cases)
}

// The matched of one statement, with the calls that they make behind those before.
pub(crate) fn values_of(
    maker: &mut Maker,
    calls: &mut Vec<Operation>,
    values: &[Expr],
) -> Lowered<ExprIds>
    requires stands { Stands maker.old }
    ensures { Adds
        (λ s a. Performs (values_of s [] calls.old.items (map expr_tree values.now) a)
        calls.new.items)
        maker.old result maker.new }
{
    let mut numbers = Vec::new(maker.alloc);
    for value in values {
        let number = value_of(maker, calls, value)?;
        add_number(&mut numbers, number)?;
    }
    Ok(Sequence::new(numbers))
}

// One number more.
fn add_number(numbers: &mut Vec<ExprId>, number: ExprId) -> Result<(), NoMemory>
    ensures { OnOk result (numbers.new.items ≡ numbers.old.items ++ number ∷ []) }
{
    numbers.push(number)?;
    Ok(())
}

// Numbers behind others.
fn add_numbers(numbers: &mut Vec<ExprId>, more: &[ExprId]) -> Result<(), NoMemory>
    ensures { OnOk result (numbers.new.items ≡ numbers.old.items ++ more.now) }
{
    numbers.extend_from_slice(more)?;
    Ok(())
}

// One statement more, whose matched' calls are there.
pub(crate) fn with_item(cases: &mut Cases, matched: ExprIds, body: Flow) -> Result<(), NoMemory>
    ensures { OnOk result
        (cases_seen cases.new ≡
        with_item (cases_seen cases.old) matched (cases_seen cases.old).calls (flow_tree body)) }
{
    add_numbers(&mut cases.matched, matched.as_slice())?;
    cases.items.push(CaseItem { matched, body })?;
    Ok(())
}

// What is done where no value fits.
pub(crate) fn with_default(cases: &mut Cases, body: Flow) -> Result<(), NoMemory>
    ensures { OnOk result
        (cases_seen cases.new ≡ with_default (cases_seen cases.old) (flow_tree body)) }
{
    cases.default.push(body)?;
    Ok(())
}

ghost use Rattle.std.specs.Prelude.{◌≡◌, ◌+◌, ◌-◌, drop, length, IfOk, OnOk};
ghost use Rattle.vh_elab.specs.Coded;
ghost use Rattle.vh_elab.specs.Views.{coding_seen};

use crate::coding::Coding;
use vh_base::{DesignFault, NoMemory, Place};
use vh_bind_least::{fault_if, least};
use vh_design::{ExprKind, ExprNode};

// How many statements and operators a design may have.
pub(crate) const MOST_COUNTED: u64 = 4_194_304;

// How many operators an expression has.
fn operators_in(kind: &ExprKind) -> usize
    ensures { result ≡ Coded.operators_in kind.now }
{
    match kind {
        ExprKind::Unary { .. } | ExprKind::Choice { .. } => 1,
        ExprKind::Arithmetic { rest, .. } => rest.as_slice().len(),
        ExprKind::Shift { rest, .. } => rest.as_slice().len(),
        ExprKind::Comparison { rest, .. } => rest.as_slice().len(),
        ExprKind::Logic { rest, .. } => rest.as_slice().len(),
        ExprKind::Literal(_)
        | ExprKind::Selected(_)
        | ExprKind::Join { .. }
        | ExprKind::Repeat { .. }
        | ExprKind::WithSign { .. }
        | ExprKind::Time { .. }
        | ExprKind::Call { .. }
        | ExprKind::SysCall(_) => 0,
    }
}

// The operators of expressions behind some statements and operators.
fn with_operators(before: u64, nodes: &[ExprNode]) -> Result<u64, NoMemory>
    ensures { IfOk result (λ n. n ≡ before + Coded.operators_of nodes.now) }
{
    let mut total = before;
    for node in nodes {
        let more = operators_in(&node.kind) as u64;
        total = total.checked_add(more).ok_or(NoMemory)?;
    }
    Ok(total)
}

// Those behind so many.
fn behind(nodes: &[ExprNode], count: usize) -> &[ExprNode]
    ensures { result.now ≡ drop count nodes.now }
{
    if count > nodes.len() {
        return &[];
    }
    &nodes[count..]
}

// The statements and operators of a site, behind so many statements and expressions.
pub(crate) fn count(
    place: Place,
    stmts: usize,
    exprs: usize,
    coding: &mut Coding,
) -> Result<(), NoMemory>
    ensures counted { OnOk result (coding_seen coding.new
        ≡ Coded.counted place stmts exprs (coding_seen coding.old)) }
    ensures added { (coding_seen coding.new).added ≡ (coding_seen coding.old).added }
{
    let more = coding.added.stmts.len().saturating_sub(stmts) as u64;
    let before = coding.count.checked_add(more).ok_or(NoMemory)?;
    let number = with_operators(before, behind(&coding.added.exprs, exprs))?;
    let fault = fault_if(number > MOST_COUNTED, DesignFault::N11, place);
    coding.fault = least(coding.fault, fault);
    coding.count = number;
    Ok(())
}

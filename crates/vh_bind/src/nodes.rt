ghost use Rattle.std.specs.Prelude.{◌≡◌, ◌<◌, ◌≤◌, ◌++◌, ◌∷◌, [], true, false, length, IfOk, IfSome, OnOk};
ghost use Rattle.vh_design_nodes.specs.Fits.{fits_kind, all_before};
ghost use Rattle.vh_bind.specs.Steps.{Steps};
ghost use Rattle.vh_bind.specs.Nodes.{pushed, chained, chain_kind, joined, repeated, byte_value, text_value, text_pushed, IsSound};
ghost use Rattle.vh_logic.specs.Vector.{width_of};
ghost use Rattle.vh_bind.specs.Scopes.{objects_of, precision_of};
ghost use Rattle.vh_bind.specs.Views.{scope_seen};

use crate::fault::ElabFault;
use crate::operators::{Operator, links_of};
use crate::scope::{Mode, Scope};
use std::alloc::Global;
use vh_base::{DesignFault, ExprId, NoMemory, Place, Sequence};
use vh_design::{ExprIds, ExprKind, ExprNode, ObjectInfo};
use vh_design_nodes::{is_width, kind_signed, kind_width};
use vh_logic::{Digit, MAX_WIDTH, Vec4, concat};

/// Nodes of expressions, each under its place as its number.
pub type Nodes = Vec<ExprNode>;

/// The number of the node that was added last; none where something that it needs is passed over; or the first fault.
pub type Numbered = Result<Option<ExprId>, ElabFault>;

/// The same of several nodes.
pub type Numbers = Result<Option<ExprIds>, ElabFault>;

/// The greatest number of expressions.
pub const MOST_EXPRS: usize = 0x8000_0000;

// The objects that an expression may read: a constant reads none.
fn objects_of<'a>(scope: &Scope<'a, '_>, mode: Mode) -> &'a [ObjectInfo]
    ensures { result.now ≡ objects_of mode (scope_seen scope.now) }
{
    match mode {
        Mode::Constant => &[],
        Mode::Value => scope.objects,
    }
}

/// One node more, under the next number.
pub fn push(scope: &Scope, mode: Mode, nodes: &mut Nodes, place: Place, kind: ExprKind) -> Numbered
    requires sound { IsSound mode (scope_seen scope.now) nodes.old.items }
    requires fits { fits_kind
        (objects_of mode (scope_seen scope.now)) (precision_of mode (scope_seen scope.now))
        (length nodes.old.items) kind ≡ true }
    ensures step { Steps
        (pushed mode (scope_seen scope.now) place kind nodes.old.items) result nodes.new.items }
    ensures sound { OnOk result (IsSound mode (scope_seen scope.now) nodes.new.items) }
    ensures below { IfOk result (λ o. IfSome o (λ e. e < length nodes.new.items)) }
    ensures grows { OnOk result (length nodes.old.items ≤ length nodes.new.items) }
{
    let objects = objects_of(scope, mode);
    let width = kind_width(nodes, objects, &kind);
    if !is_width(width) {
        return Err(ElabFault::Refused(DesignFault::N3, place));
    }
    let number = nodes.len();
    if number >= MOST_EXPRS {
        return Err(ElabFault::Refused(DesignFault::N11, place));
    }
    let signed = kind_signed(nodes, objects, &kind);
    let node = ExprNode {
        kind,
        width,
        signed,
    };
    add(nodes, node)?;
    Ok(Some(ExprId::new(number as u32)))
}

// One node more.
fn add(nodes: &mut Nodes, node: ExprNode) -> Result<(), NoMemory>
    ensures { OnOk result (nodes.new.items ≡ nodes.old.items ++ node ∷ []) }
{
    nodes.push(node)?;
    Ok(())
}

// A chain, by its first operator.
fn chain_kind(
    alloc: Global,
    operators: &[Operator],
    operator: Operator,
    first: ExprId,
    rest: &[ExprId],
) -> Result<ExprKind, NoMemory>
    ensures kind { IfOk result (λ k. k ≡ chain_kind operator operators.now first rest.now) }
{
    Ok(match operator {
        Operator::Arithmetic(_) => ExprKind::Arithmetic {
            first,
            rest: links_of(alloc, operators, rest)?,
        },
        Operator::Shift(_) => ExprKind::Shift {
            first,
            rest: links_of(alloc, operators, rest)?,
        },
        Operator::Comparison(_) => ExprKind::Comparison {
            first,
            rest: links_of(alloc, operators, rest)?,
        },
        Operator::Logic(_) => ExprKind::Logic {
            first,
            rest: links_of(alloc, operators, rest)?,
        },
    })
}

/// A chain of operators of one kind, with an operand before each and one behind the last.
pub fn push_chain(
    alloc: Global,
    scope: &Scope,
    mode: Mode,
    nodes: &mut Nodes,
    place: Place,
    operators: &[Operator],
    first: ExprId,
    rest: &[ExprId],
) -> Numbered
    requires sound { IsSound mode (scope_seen scope.now) nodes.old.items }
    requires first { first < length nodes.old.items }
    requires rest { all_before (length nodes.old.items) rest.now ≡ true }
    ensures step { Steps
        (chained mode (scope_seen scope.now) place operators.now first rest.now nodes.old.items)
        result nodes.new.items }
    ensures sound { OnOk result (IsSound mode (scope_seen scope.now) nodes.new.items) }
    ensures below { IfOk result (λ o. IfSome o (λ e. e < length nodes.new.items)) }
    ensures grows { OnOk result (length nodes.old.items ≤ length nodes.new.items) }
{
    let Some(operator) = operators.first() else {
        return Ok(Some(first));
    };
    let kind = chain_kind(alloc, operators, *operator, first, rest)?;
    push(scope, mode, nodes, place, kind)
}

/// A concatenation of these, the highest first.
pub fn push_join(
    alloc: Global,
    scope: &Scope,
    mode: Mode,
    nodes: &mut Nodes,
    place: Place,
    parts: &[ExprId],
) -> Numbered
    requires sound { IsSound mode (scope_seen scope.now) nodes.old.items }
    requires parts { all_before (length nodes.old.items) parts.now ≡ true }
    ensures step { Steps
        (joined mode (scope_seen scope.now) place parts.now nodes.old.items) result
        nodes.new.items }
    ensures sound { OnOk result (IsSound mode (scope_seen scope.now) nodes.new.items) }
    ensures below { IfOk result (λ o. IfSome o (λ e. e < length nodes.new.items)) }
    ensures grows { OnOk result (length nodes.old.items ≤ length nodes.new.items) }
{
    let [first, rest @ ..] = parts else {
        return Err(ElabFault::Refused(DesignFault::N3, place));
    };
    let rest = Sequence::from_slice(alloc, rest)?;
    push(
        scope,
        mode,
        nodes,
        place,
        ExprKind::Join {
            first: *first,
            rest,
        },
    )
}

/// So many times an expression.
pub fn push_repeat(
    scope: &Scope,
    mode: Mode,
    nodes: &mut Nodes,
    place: Place,
    count: u64,
    part: ExprId,
) -> Numbered
    requires sound { IsSound mode (scope_seen scope.now) nodes.old.items }
    requires part { part < length nodes.old.items }
    ensures step { Steps
        (repeated mode (scope_seen scope.now) place count part nodes.old.items) result
        nodes.new.items }
    ensures sound { OnOk result (IsSound mode (scope_seen scope.now) nodes.new.items) }
    ensures below { IfOk result (λ o. IfSome o (λ e. e < length nodes.new.items)) }
    ensures grows { OnOk result (length nodes.old.items ≤ length nodes.new.items) }
{
    if count > u64::from(MAX_WIDTH) {
        return Err(ElabFault::Refused(DesignFault::N3, place));
    }
    let count = count as u32;
    push(scope, mode, nodes, place, ExprKind::Repeat { count, part })
}

// The 8 digits of a byte.
fn byte_value(byte: u8) -> Vec4
    ensures value { result ≡ byte_value byte }
    ensures width { width_of result ≡ 8 }
{
    Vec4::from_planes(8, u64::from(byte), 0, false)
}

// A string of at most 8 bytes as a number.
fn text_value(bytes: &[u8]) -> Vec4
    requires { length bytes.now ≤ 8 }
    ensures { result ≡ text_value bytes.now }
{
    let [first, rest @ ..] = bytes else {
        return Vec4::filled(8, Digit::Zero, false);
    };
    let mut value = byte_value(*first);
    for byte in rest {
        value = concat(&value, &byte_value(*byte));
    }
    value
}

/// A string as a number.
pub fn push_text(
    scope: &Scope,
    mode: Mode,
    nodes: &mut Nodes,
    place: Place,
    bytes: &[u8],
) -> Numbered
    requires sound { IsSound mode (scope_seen scope.now) nodes.old.items }
    ensures step { Steps
        (text_pushed mode (scope_seen scope.now) place bytes.now nodes.old.items) result
        nodes.new.items }
    ensures sound { OnOk result (IsSound mode (scope_seen scope.now) nodes.new.items) }
    ensures below { IfOk result (λ o. IfSome o (λ e. e < length nodes.new.items)) }
    ensures grows { OnOk result (length nodes.old.items ≤ length nodes.new.items) }
{
    if bytes.len() > 8 {
        return Err(ElabFault::Refused(DesignFault::N3, place));
    }
    push(
        scope,
        mode,
        nodes,
        place,
        ExprKind::Literal(text_value(bytes)),
    )
}

ghost use Rattle.std.specs.Prelude.{◌≡◌, ◌<◌, ◌≤◌, true, length, map, IfOk, IfSome, OnOk};
ghost use Rattle.vh_design_nodes.specs.Fits.{all_before};
ghost use Rattle.vh_ast.specs.Expressions;
ghost use Rattle.vh_ast.specs.Views.{expr_tree, link_tree};
ghost use Rattle.vh_bind.specs.Steps.{Steps};
ghost use Rattle.vh_bind.specs.Nodes.{IsSound};
ghost use Rattle.vh_bind.specs.Constants.{literal, prefixed, chain_pushed, concat_pushed, times_pushed, choice_pushed, operators, is_unsized, with_number, given_sign};
ghost use Rattle.vh_bind.specs.Views.{scope_seen, numbers_of};

use crate::fault::ElabFault;
use crate::nodes::{Nodes, Numbered, push, push_chain, push_join, push_repeat};
use crate::operators::{Operator, operator_of, unary_of};
use crate::scope::{Mode, Scope};
use std::alloc::Global;
use vh_ast::{Expr, ExprForm, Link, Primary, Unary};
use vh_base::{ExprId, NoMemory, Place, Sequence};
use vh_design::{ExprIds, ExprKind};
use vh_logic::Vec4;

/// How `$signed` or `$unsigned` marks its argument.
pub fn given_sign(name: &[u8]) -> Option<bool>
    ensures { result ≡ given_sign name.now }
{
    if name == b"$signed".as_slice() {
        return Some(true);
    }
    if name == b"$unsigned".as_slice() {
        return Some(false);
    }
    None
}

/// Whether an expression is a number without a size.
pub fn is_unsized(e: &Expr) -> bool
    ensures { result ≡ is_unsized (expr_tree e.now) }
{
    match &e.form {
        ExprForm::Primary(Primary::Number(n)) => !n.sized,
        _ => false,
    }
}

/// One number more, where none is passed over.
pub fn with_number(
    numbers: Option<Vec<ExprId>>,
    number: Option<ExprId>,
) -> Result<Option<Vec<ExprId>>, NoMemory>
    ensures { IfOk result (λ ns. numbers_of ns ≡ with_number (numbers_of numbers) number) }
{
    let Some(mut numbers) = numbers else {
        return Ok(None);
    };
    let Some(number) = number else {
        return Ok(None);
    };
    numbers.push(number)?;
    Ok(Some(numbers))
}

/// The numbers as a sequence.
pub fn sequence(numbers: Option<Vec<ExprId>>) -> Option<ExprIds>
    ensures { result ≡ numbers_of numbers }
{
    match numbers {
        None => None,
        Some(numbers) => Some(Sequence::new(numbers)),
    }
}

/// The operators of a chain.
pub fn chain_operators(alloc: Global, links: &[Link<Expr>]) -> Result<Vec<Operator>, NoMemory>
    ensures { IfOk result
        (λ os. os.items ≡ operators (Expressions.links (map link_tree links.now))) }
{
    let mut operators = Vec::new(alloc);
    for link in links {
        operators.push(operator_of(link.operator))?;
    }
    Ok(operators)
}

/// What is written of a value, where there is one.
pub fn push_literal(
    scope: &Scope,
    mode: Mode,
    nodes: &mut Nodes,
    place: Place,
    value: Option<Vec4>,
) -> Numbered
    requires sound { IsSound mode (scope_seen scope.now) nodes.old.items }
    ensures step { Steps
        (literal mode (scope_seen scope.now) place value nodes.old.items) result nodes.new.items }
    ensures sound { OnOk result (IsSound mode (scope_seen scope.now) nodes.new.items) }
    ensures below { IfOk result (λ o. IfSome o (λ n. n < length nodes.new.items)) }
    ensures grows { OnOk result (length nodes.old.items ≤ length nodes.new.items) }
{
    match value {
        None => Ok(None),
        Some(v) => push(scope, mode, nodes, place, ExprKind::Literal(v)),
    }
}

/// What stands before one operand: `$signed` or `$unsigned` with the sign that it gives, or an operator.
#[derive(Clone, Copy)]
pub enum Prefix {
    WithSign { signed: bool },
    UnaryOperator(Unary),
}

/// A part behind a prefix, where it is not passed over.
pub fn push_prefixed(
    scope: &Scope,
    mode: Mode,
    nodes: &mut Nodes,
    place: Place,
    prefix: Prefix,
    part: Option<ExprId>,
) -> Numbered
    requires sound { IsSound mode (scope_seen scope.now) nodes.old.items }
    requires part { IfSome part (λ n. n < length nodes.old.items) }
    ensures step { Steps
        (prefixed mode (scope_seen scope.now) place prefix part nodes.old.items) result
        nodes.new.items }
    ensures sound { OnOk result (IsSound mode (scope_seen scope.now) nodes.new.items) }
    ensures below { IfOk result (λ o. IfSome o (λ n. n < length nodes.new.items)) }
    ensures grows { OnOk result (length nodes.old.items ≤ length nodes.new.items) }
{
    let Some(part) = part else {
        return Ok(None);
    };
    match prefix {
        Prefix::WithSign { signed } => {
            push(
                scope,
                mode,
                nodes,
                place,
                ExprKind::WithSign { part, signed },
            )
        }
        Prefix::UnaryOperator(sign) => {
            let op = unary_of(sign);
            push(scope, mode, nodes, place, ExprKind::Unary { op, part })
        }
    }
}

/// A chain of operators, where no operand is passed over.
pub fn push_links(
    alloc: Global,
    scope: &Scope,
    mode: Mode,
    nodes: &mut Nodes,
    place: Place,
    operators: &[Operator],
    first: Option<ExprId>,
    rest: Option<ExprIds>,
) -> Numbered
    requires sound { IsSound mode (scope_seen scope.now) nodes.old.items }
    requires first { IfSome first (λ n. n < length nodes.old.items) }
    requires rest { IfSome rest (λ ns. all_before (length nodes.old.items) ns ≡ true) }
    ensures step { Steps
        (chain_pushed mode (scope_seen scope.now) place operators.now first rest nodes.old.items)
        result nodes.new.items }
    ensures sound { OnOk result (IsSound mode (scope_seen scope.now) nodes.new.items) }
    ensures below { IfOk result (λ o. IfSome o (λ n. n < length nodes.new.items)) }
    ensures grows { OnOk result (length nodes.old.items ≤ length nodes.new.items) }
{
    let Some(first) = first else {
        return Ok(None);
    };
    let Some(rest) = rest else {
        return Ok(None);
    };
    push_chain(
        alloc,
        scope,
        mode,
        nodes,
        place,
        operators,
        first,
        rest.as_slice(),
    )
}

/// A concatenation, where no entry is passed over.
pub fn push_concat(
    alloc: Global,
    scope: &Scope,
    mode: Mode,
    nodes: &mut Nodes,
    place: Place,
    parts: Option<ExprIds>,
) -> Numbered
    requires sound { IsSound mode (scope_seen scope.now) nodes.old.items }
    requires parts { IfSome parts (λ ns. all_before (length nodes.old.items) ns ≡ true) }
    ensures step { Steps
        (concat_pushed mode (scope_seen scope.now) place parts nodes.old.items) result
        nodes.new.items }
    ensures sound { OnOk result (IsSound mode (scope_seen scope.now) nodes.new.items) }
    ensures below { IfOk result (λ o. IfSome o (λ n. n < length nodes.new.items)) }
    ensures grows { OnOk result (length nodes.old.items ≤ length nodes.new.items) }
{
    match parts {
        None => Ok(None),
        Some(parts) => push_join(alloc, scope, mode, nodes, place, parts.as_slice()),
    }
}

/// So many times a part, where neither is passed over.
pub fn push_times(
    scope: &Scope,
    mode: Mode,
    nodes: &mut Nodes,
    place: Place,
    count: Option<u64>,
    part: Option<ExprId>,
) -> Numbered
    requires sound { IsSound mode (scope_seen scope.now) nodes.old.items }
    requires part { IfSome part (λ n. n < length nodes.old.items) }
    ensures step { Steps
        (times_pushed mode (scope_seen scope.now) place count part nodes.old.items) result
        nodes.new.items }
    ensures sound { OnOk result (IsSound mode (scope_seen scope.now) nodes.new.items) }
    ensures below { IfOk result (λ o. IfSome o (λ n. n < length nodes.new.items)) }
    ensures grows { OnOk result (length nodes.old.items ≤ length nodes.new.items) }
{
    let Some(count) = count else {
        return Ok(None);
    };
    let Some(part) = part else {
        return Ok(None);
    };
    push_repeat(scope, mode, nodes, place, count, part)
}

/// One of two parts by a third, where none is passed over.
pub fn push_choice(
    scope: &Scope,
    mode: Mode,
    nodes: &mut Nodes,
    place: Place,
    condition: Option<ExprId>,
    yes: Option<ExprId>,
    no: Option<ExprId>,
) -> Numbered
    requires sound { IsSound mode (scope_seen scope.now) nodes.old.items }
    requires condition { IfSome condition (λ n. n < length nodes.old.items) }
    requires yes { IfSome yes (λ n. n < length nodes.old.items) }
    requires no { IfSome no (λ n. n < length nodes.old.items) }
    ensures step { Steps
        (choice_pushed mode (scope_seen scope.now) place condition yes no nodes.old.items) result
        nodes.new.items }
    ensures sound { OnOk result (IsSound mode (scope_seen scope.now) nodes.new.items) }
    ensures below { IfOk result (λ o. IfSome o (λ n. n < length nodes.new.items)) }
    ensures grows { OnOk result (length nodes.old.items ≤ length nodes.new.items) }
{
    let Some(condition) = condition else {
        return Ok(None);
    };
    let Some(yes) = yes else {
        return Ok(None);
    };
    let Some(no) = no else {
        return Ok(None);
    };
    push(
        scope,
        mode,
        nodes,
        place,
        ExprKind::Choice { condition, yes, no },
    )
}

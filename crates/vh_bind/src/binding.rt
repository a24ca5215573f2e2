ghost use Rattle.std.specs.Prelude.{◌≡◌, ◌<◌, ◌≤◌, [], Some, true, length, map, IfOk, IfSome, OnOk};
ghost use Rattle.vh_logic.specs.declared.vector.TheConstants.{MAX_WIDTH};
ghost use Rattle.vh_design_nodes.specs.Fits.{all_before};
ghost use Rattle.vh_ast.specs.Expressions;
ghost use Rattle.vh_ast.specs.Expressions.{exprs};
ghost use Rattle.vh_ast.specs.Views.{expr_tree, link_tree, name_tree, sel_tree};
ghost use Rattle.vh_bind.specs.Steps.{Steps, Gives};
ghost use Rattle.vh_bind.specs.Nodes.{IsSound};
ghost use Rattle.vh_bind.specs.Constants.{bound, call_fault, entry, entries_bound, links_bound, name_value, sel_value, given_sign, system_row, sole_bound, constant};
ghost use Rattle.vh_bind.specs.declared.scope.Mode.TheVariants as mode;
ghost use Rattle.vh_bind.specs.Views.{scope_seen, numbers_of};

use crate::fault::ElabFault;
use crate::named::{Named, alone_called, look_up};
use crate::nodes::{Nodes, Numbered, Numbers, push, push_text};
use crate::parts::{
    Prefix, chain_operators, given_sign, is_unsized, push_choice, push_concat, push_links,
    push_literal, push_prefixed, push_times, sequence, with_number,
};
use crate::scope::{Mode, Scope};
use crate::selects::{Bounded, bit_of, indexed_of, number_in, part_of};
use crate::value::value_at;
use sqlite_items::{Boxed, Items};
use std::alloc::Global;
use vh_ast::{Expr, ExprForm, Id, Link, Name, Part, Primary, Sel};
use vh_base::{DesignFault, ExprId, Place};
use vh_design::ExprKind;
use vh_logic::Vec4;

/// The value of a constant expression in its own width or in `least`, the greater of the two, with its
/// own sign (IEEE 1364-2005, 4.10 and 5.4.1); none where it needs a parameter that has no value yet. An
/// error is the first fault of the expression, or want of memory.
pub fn constant(
    alloc: Global,
    scope: &Scope,
    e: &Expr,
    least: u32,
) -> Result<Option<Vec4>, ElabFault>
    requires { least ≤ MAX_WIDTH }
    ensures { Gives (constant (scope_seen scope.now) least (expr_tree e.now)) result }
{
    let mut nodes = Vec::new(alloc);
    match bind(alloc, scope, &mut nodes, e)? {
        None => Ok(None),
        Some(e) => Ok(Some(value_at(alloc, nodes, e, least)?)),
    }
}

// The nodes of an expression, a row for each form.
#[cycle(bind)]
fn bind(alloc: Global, scope: &Scope, nodes: &mut Nodes, e: &Expr) -> Numbered
    requires sound { IsSound mode.Constant (scope_seen scope.now) nodes.old.items }
    ensures step { Steps (bound mode.Constant (scope_seen scope.now) (expr_tree e.now)
        nodes.old.items) result nodes.new.items }
    ensures sound { OnOk result (IsSound mode.Constant (scope_seen scope.now) nodes.new.items) }
    ensures below { IfOk result (λ o. IfSome o (λ n. n < length nodes.new.items)) }
    ensures grows { OnOk result (length nodes.old.items ≤ length nodes.new.items) }
{
    let place = e.place;
    match &e.form {
        ExprForm::Primary(primary) => match primary {
            Primary::Number(n) => push(
                scope,
                Mode::Constant,
                nodes,
                place,
                ExprKind::Literal(n.value),
            ),
            Primary::Text(bytes) => push_text(
                scope,
                Mode::Constant,
                nodes,
                place,
                bytes.as_slice(),
            ),
            Primary::Name(name, sel) => {
                let value = name_value(scope, name.get())?;
                let value = sel_value(alloc, scope, place, value, sel)?;
                push_literal(scope, Mode::Constant, nodes, place, value)
            }
            Primary::Call(name, _) => {
                Err(ElabFault::Refused(call_fault(scope, name.get()), place))
            }
            Primary::System(id, arguments) => {
                bind_system(alloc, scope, nodes, id.get(), arguments)
            }
            Primary::Paren(inner) => bind(alloc, scope, nodes, inner.get()),
            Primary::Concat(parts) => {
                let parts = bind_entries(alloc, scope, nodes, parts)?;
                push_concat(alloc, scope, Mode::Constant, nodes, place, parts)
            }
            Primary::Repeat(count, parts) => {
                let count = constant_in(alloc, scope, count.get())?;
                let count = number_in(place, 1, u64::MAX, count)?;
                let parts = bind_entries(alloc, scope, nodes, parts)?;
                let joined = push_concat(alloc, scope, Mode::Constant, nodes, place, parts)?;
                push_times(scope, Mode::Constant, nodes, place, count, joined)
            }
        },
        ExprForm::Unary(sign, operand) => {
            let part = bind(alloc, scope, nodes, operand.get())?;
            push_prefixed(
                scope,
                Mode::Constant,
                nodes,
                place,
                Prefix::UnaryOperator(*sign),
                part,
            )
        }
        ExprForm::Chain(first, links) => {
            let first = bind(alloc, scope, nodes, first.get())?;
            let rest = bind_links(alloc, scope, nodes, links)?;
            let operators = chain_operators(alloc, links.as_slice())?;
            push_links(
                alloc,
                scope,
                Mode::Constant,
                nodes,
                place,
                &operators,
                first,
                rest,
            )
        }
        ExprForm::Choice { test, holds, fails } => {
            let condition = bind(alloc, scope, nodes, test.get())?;
            let yes = bind(alloc, scope, nodes, holds.get())?;
            let no = bind(alloc, scope, nodes, fails.get())?;
            push_choice(scope, Mode::Constant, nodes, place, condition, yes, no)
        }
    }
}

// What is wrong with a call.
fn call_fault(scope: &Scope, name: &Name<Expr>) -> DesignFault
    ensures { result ≡ call_fault (scope_seen scope.now) (name_tree name.now) }
{
    if name.first.index.is_some() || !name.more.is_empty() {
        return DesignFault::N4;
    }
    alone_called(scope, name.first.id.name.as_slice())
}

// The value that a name stands for: a path is no constant.
fn name_value(scope: &Scope, name: &Name<Expr>) -> Result<Option<Bounded>, ElabFault>
    ensures { Gives (name_value (scope_seen scope.now) (name_tree name.now)) result }
{
    let place = name.first.id.place;
    if name.first.index.is_some() || !name.more.is_empty() {
        return Err(ElabFault::Refused(DesignFault::N4, place));
    }
    match look_up(scope, name.first.id.name.as_slice()) {
        Named::Known(range, value) => Ok(Some((range, value))),
        Named::Unknown => Ok(None),
        Named::Wrong(fault) => Err(ElabFault::Refused(fault, place)),
    }
}

/// What a constant select names of a value that has a name (IEEE 1364-2005, 5.2.1): a second bracket
/// stands at a memory alone. None where a value that it needs has none; the place is that of the name.
#[cycle(bind)]
pub fn sel_value(
    alloc: Global,
    scope: &Scope,
    place: Place,
    value: Option<Bounded>,
    sel: &Option<Boxed<Sel<Expr>>>,
) -> Result<Option<Vec4>, ElabFault>
    ensures { Gives (sel_value (scope_seen scope.now) place value (sel_tree sel.now)) result }
{
    let Some(sel) = sel else {
        return Ok(value.map(|bounded| bounded.1));
    };
    match sel.get() {
        Sel::Index(_, index) => {
            let index = constant_in(alloc, scope, index.get())?;
            Ok(bit_of(value, index))
        }
        Sel::Both { .. } => Err(ElabFault::Refused(DesignFault::N1, place)),
        Sel::Part(last) => match &last.part {
            Part::Index(index) => {
                let index = constant_in(alloc, scope, index.get())?;
                Ok(bit_of(value, index))
            }
            Part::Range(left, right) => {
                let left = constant_in(alloc, scope, left.get())?;
                let right = constant_in(alloc, scope, right.get())?;
                part_of(last.place, value, left, right)
            }
            Part::Up(base, width) => {
                let base = constant_in(alloc, scope, base.get())?;
                let width = constant_in(alloc, scope, width.get())?;
                indexed_of(last.place, true, value, base, width)
            }
            Part::Down(base, width) => {
                let base = constant_in(alloc, scope, base.get())?;
                let width = constant_in(alloc, scope, width.get())?;
                indexed_of(last.place, false, value, base, width)
            }
        },
    }
}

// The value of an expression in another one, in its own width.
#[cycle(bind)]
fn constant_in(alloc: Global, scope: &Scope, e: &Expr) -> Result<Option<Vec4>, ElabFault>
    ensures { Gives (constant (scope_seen scope.now) 0 (expr_tree e.now)) result }
{
    let mut nodes = Vec::new(alloc);
    match bind(alloc, scope, &mut nodes, e)? {
        None => Ok(None),
        Some(e) => Ok(Some(value_at(alloc, nodes, e, 0)?)),
    }
}

// A system call: `$signed` and `$unsigned` of one argument are constants.
#[cycle(bind)]
fn bind_system(
    alloc: Global,
    scope: &Scope,
    nodes: &mut Nodes,
    id: &Id,
    arguments: &Items<Expr>,
) -> Numbered
    requires sound { IsSound mode.Constant (scope_seen scope.now) nodes.old.items }
    ensures step { Steps
        (system_row mode.Constant (scope_seen scope.now) id.now
        (exprs (map expr_tree arguments.now)) (given_sign id.now.name)
        (sole_bound mode.Constant (scope_seen scope.now) (exprs (map expr_tree arguments.now)))
        nodes.old.items) result nodes.new.items }
    ensures sound { OnOk result (IsSound mode.Constant (scope_seen scope.now) nodes.new.items) }
    ensures below { IfOk result (λ o. IfSome o (λ n. n < length nodes.new.items)) }
    ensures grows { OnOk result (length nodes.old.items ≤ length nodes.new.items) }
{
    let Some(signed) = given_sign(id.name.as_slice()) else {
        return Err(ElabFault::Refused(DesignFault::N4, id.place));
    };
    let arguments = arguments.as_slice();
    if arguments.len() != 1 {
        return Err(ElabFault::Refused(DesignFault::N10, id.place));
    }
    let part = bind(alloc, scope, nodes, &arguments[0])?;
    let with_sign = Prefix::WithSign { signed };
    push_prefixed(scope, Mode::Constant, nodes, id.place, with_sign, part)
}

// An entry of a concatenation.
#[cycle(bind)]
fn bind_entry(alloc: Global, scope: &Scope, nodes: &mut Nodes, e: &Expr) -> Numbered
    requires sound { IsSound mode.Constant (scope_seen scope.now) nodes.old.items }
    ensures step { Steps
        (entry (expr_tree e.now) (bound mode.Constant (scope_seen scope.now) (expr_tree e.now))
        nodes.old.items)
        result nodes.new.items }
    ensures sound { OnOk result (IsSound mode.Constant (scope_seen scope.now) nodes.new.items) }
    ensures below { IfOk result (λ o. IfSome o (λ n. n < length nodes.new.items)) }
    ensures grows { OnOk result (length nodes.old.items ≤ length nodes.new.items) }
{
    if is_unsized(e) {
        return Err(ElabFault::Refused(DesignFault::N3, e.place));
    }
    bind(alloc, scope, nodes, e)
}

// The entries of a concatenation, from the left.
#[cycle(bind)]
fn bind_entries(alloc: Global, scope: &Scope, nodes: &mut Nodes, parts: &Items<Expr>) -> Numbers
    requires sound { IsSound mode.Constant (scope_seen scope.now) nodes.old.items }
    ensures step { Steps
        (entries_bound mode.Constant (scope_seen scope.now) (Some [])
        (exprs (map expr_tree parts.now)) nodes.old.items)
        result nodes.new.items }
    ensures sound { OnOk result (IsSound mode.Constant (scope_seen scope.now) nodes.new.items) }
    ensures below { IfOk result
        (λ o. IfSome o (λ ns. all_before (length nodes.new.items) ns ≡ true)) }
    ensures grows { OnOk result (length nodes.old.items ≤ length nodes.new.items) }
{
    let mut numbers = Some(Vec::new(alloc));
    for part in parts.as_slice() {
        let number = bind_entry(alloc, scope, nodes, part)?;
        numbers = with_number(numbers, number)?;
    }
    Ok(sequence(numbers))
}

// The operands of a chain behind the first, from the left.
#[cycle(bind)]
fn bind_links(alloc: Global, scope: &Scope, nodes: &mut Nodes, links: &Items<Link<Expr>>) -> Numbers
    requires sound { IsSound mode.Constant (scope_seen scope.now) nodes.old.items }
    ensures step { Steps
        (links_bound mode.Constant (scope_seen scope.now) (Some [])
        (Expressions.links (map link_tree links.now)) nodes.old.items)
        result nodes.new.items }
    ensures sound { OnOk result (IsSound mode.Constant (scope_seen scope.now) nodes.new.items) }
    ensures below { IfOk result
        (λ o. IfSome o (λ ns. all_before (length nodes.new.items) ns ≡ true)) }
    ensures grows { OnOk result (length nodes.old.items ≤ length nodes.new.items) }
{
    let mut numbers = Some(Vec::new(alloc));
    for link in links.as_slice() {
        let number = bind(alloc, scope, nodes, &link.operand)?;
        numbers = with_number(numbers, number)?;
    }
    Ok(sequence(numbers))
}

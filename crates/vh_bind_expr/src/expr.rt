ghost use Rattle.std.specs.Prelude.{◌≡◌, ◌<◌, ◌≤◌, [], Some, true, length, map, IfOk, IfSome, OnOk};
ghost use Rattle.vh_design_nodes.specs.Kinds.{is_vector, is_memory};
ghost use Rattle.vh_design_nodes.specs.Fits.{all_before, fits_select, has_kind, is_unit};
ghost use Rattle.vh_ast.specs.Expressions;
ghost use Rattle.vh_ast.specs.Expressions.{exprs};
ghost use Rattle.vh_ast.specs.Views.{expr_tree, link_tree, name_tree, part_by, sel_tree};
ghost use Rattle.vh_bind.specs.declared.scope.Mode.TheVariants as mode;
ghost use Rattle.std.specs.List.{list_any};
ghost use Rattle.vh_bind.specs.Steps.{Steps, StepsOn, beside};
ghost use Rattle.vh_bind.specs.Objects.{directions_of, is_taken};
ghost use Rattle.vh_bind.specs.Nodes.{IsSound};
ghost use Rattle.vh_bind.specs.Constants.{bound, call_row, entries_bound, entry, form_bound, given_bound, links_bound, given_sign, memory_bound, part_bound, sole_bound, system_row, taken_bound, target_pieces, targets_pieces, vector_bound};
ghost use Rattle.vh_bind.specs.Views.{scope_seen};
ghost use Rattle.vh_bind_expr.specs.Kinds.{IsFunction};
ghost use Rattle.vh_bind_expr.specs.Rows.{argument_bound, output_bound, side_bound, variable_bound};

use crate::functions::{Side, any_taken, directions_of, is_at};
use crate::names::{function_called, name_read};
use crate::reads::{
    add_number, bit_select, indexed_select, push_begin, push_call, push_selected, push_system,
    whole_of, with_numbers, word_of,
};
use crate::rows::{count_at, push_chained, push_genvar, push_repeated, range_at, width_at};
use sqlite_items::{Boxed, Items};
use std::alloc::Global;
use vh_ast::{Esel, Expr, ExprForm, Id, Link, Name, Part, Primary, Sel, TaskDirection};
use vh_base::{DesignFault, ExprId, ObjId, Place, Sequence};
use vh_bind::{
    ElabFault, Function, Mode, Nodes, Numbered, Numbers, Prefix, Readable, Scope, given_sign,
    is_unsized, push, push_choice, push_concat, push_literal, push_prefixed, push_text, sequence,
    with_number,
};
use vh_bind_least::lesser;
use vh_design_nodes::{ExprKind, Range, Select, is_variable_at};

/// Adds the nodes of an expression over the objects of a design to the design's expressions, and
/// answers the number of the last one (IEEE 1364-2005, clause 5). None where it needs a parameter
/// that has no value. An error is the first fault of the expression, or want of memory; after it
/// what was added is not used. The expressions of the scope are not read: parameters have their
/// values in `exprs`.
pub fn bind_expr(alloc: Global, exprs: &mut Nodes, scope: &Scope, e: &Expr) -> Numbered
    requires sound { IsSound mode.Value (scope_seen scope.now) exprs.old.items }
    requires unit { is_unit (scope_seen scope.now).precision (scope_seen scope.now).unit ≡ true }
    ensures step { Steps
        (bound mode.Value (scope_seen scope.now) (expr_tree e.now) exprs.old.items)
        result exprs.new.items }
    ensures sound { OnOk result (IsSound mode.Value (scope_seen scope.now) exprs.new.items) }
    ensures below { IfOk result (λ o. IfSome o (λ n. n < length exprs.new.items)) }
    ensures grows { OnOk result (length exprs.old.items ≤ length exprs.new.items) }
{
    bind(alloc, scope, exprs, e)
}

// What may stand behind a name.
type Brackets = Option<Boxed<Sel<Expr>>>;

// Where a name stands, and the object that it stands for, with its range.
type Found = (Place, ObjId, Range);

// The nodes of an expression, a row for each form.
#[cycle(bind)]
fn bind(alloc: Global, scope: &Scope, nodes: &mut Nodes, e: &Expr) -> Numbered
    requires sound { IsSound mode.Value (scope_seen scope.now) nodes.old.items }
    requires unit { is_unit (scope_seen scope.now).precision (scope_seen scope.now).unit ≡ true }
    ensures step { Steps
        (bound mode.Value (scope_seen scope.now) (expr_tree e.now) nodes.old.items)
        result nodes.new.items }
    ensures sound { OnOk result (IsSound mode.Value (scope_seen scope.now) nodes.new.items) }
    ensures below { IfOk result (λ o. IfSome o (λ n. n < length nodes.new.items)) }
    ensures grows { OnOk result (length nodes.old.items ≤ length nodes.new.items) }
{
    let place = e.place;
    match &e.form {
        ExprForm::Primary(primary) => match primary {
            Primary::Number(n) => {
                push(scope, Mode::Value, nodes, place, ExprKind::Literal(n.value))
            }
            Primary::Text(bytes) => push_text(scope, Mode::Value, nodes, place, bytes.as_slice()),
            Primary::Name(name, sel) => bind_name(alloc, scope, nodes, place, sel, name.get()),
            Primary::Call(name, arguments) => {
                let called = function_called(alloc, scope, place, name.get(), arguments)?;
                let Some(function) = called else {
                    return Ok(None);
                };
                bind_call(alloc, scope, nodes, place, &function, arguments.as_slice())
            }
            Primary::System(id, arguments) => {
                bind_system(alloc, scope, nodes, id.get(), arguments)
            }
            Primary::Paren(inner) => bind(alloc, scope, nodes, inner.get()),
            Primary::Concat(parts) => {
                let parts = bind_entries(alloc, scope, nodes, parts)?;
                push_concat(alloc, scope, Mode::Value, nodes, place, parts)
            }
            Primary::Repeat(count, parts) => {
                let count = count_at(alloc, scope, scope.exprs, place, count.get())?;
                let parts = bind_entries(alloc, scope, nodes, parts)?;
                push_repeated(alloc, scope, nodes, place, count, parts)
            }
        },
        ExprForm::Unary(sign, operand) => {
            let part = bind(alloc, scope, nodes, operand.get())?;
            push_prefixed(
                scope,
                Mode::Value,
                nodes,
                place,
                Prefix::UnaryOperator(*sign),
                part,
            )
        }
        ExprForm::Chain(first, links) => {
            let first = bind(alloc, scope, nodes, first.get())?;
            let rest = bind_links(alloc, scope, nodes, links)?;
            push_chained(alloc, scope, nodes, place, links, first, rest)
        }
        ExprForm::Choice { test, holds, fails } => {
            let condition = bind(alloc, scope, nodes, test.get())?;
            let yes = bind(alloc, scope, nodes, holds.get())?;
            let no = bind(alloc, scope, nodes, fails.get())?;
            push_choice(scope, Mode::Value, nodes, place, condition, yes, no)
        }
    }
}

// A name with its select.
#[cycle(bind)]
fn bind_name(
    alloc: Global,
    scope: &Scope,
    nodes: &mut Nodes,
    place: Place,
    sel: &Brackets,
    name: &Name<Expr>,
) -> Numbered
    requires sound { IsSound mode.Value (scope_seen scope.now) nodes.old.items }
    requires unit { is_unit (scope_seen scope.now).precision (scope_seen scope.now).unit ≡ true }
    ensures step { Steps
        (form_bound mode.Value (scope_seen scope.now) place
        (Expressions.named (name_tree name.now) (sel_tree sel.now)) nodes.old.items)
        result nodes.new.items }
    ensures sound { OnOk result (IsSound mode.Value (scope_seen scope.now) nodes.new.items) }
    ensures below { IfOk result (λ o. IfSome o (λ n. n < length nodes.new.items)) }
    ensures grows { OnOk result (length nodes.old.items ≤ length nodes.new.items) }
{
    match name_read(alloc, scope, scope.exprs, name)? {
        Readable::Wrong => Err(ElabFault::Refused(DesignFault::N1, place)),
        Readable::Unknown => Ok(None),
        Readable::Genvar(value) => { push_genvar(alloc, scope, nodes, place, value, sel) }
        Readable::Parameter(object, range, value) => {
            if sel.is_none() {
                return push_literal(scope, Mode::Value, nodes, place, Some(value));
            }
            bind_bits(alloc, scope, nodes, (place, object, range), sel)
        }
        Readable::Vector(object, range) => {
            bind_bits(alloc, scope, nodes, (place, object, range), sel)
        }
        Readable::Memory(object, range) => {
            bind_word(alloc, scope, nodes, (place, object, range), sel)
        }
    }
}

// Digits of a net, a variable or a parameter.
#[cycle(bind)]
fn bind_bits(alloc: Global, scope: &Scope, nodes: &mut Nodes, of: Found, sel: &Brackets) -> Numbered
    requires sound { IsSound mode.Value (scope_seen scope.now) nodes.old.items }
    requires unit { is_unit (scope_seen scope.now).precision (scope_seen scope.now).unit ≡ true }
    requires object { has_kind is_vector (scope_seen scope.now).objects of.1 ≡ true }
    ensures step { Steps
        (vector_bound (scope_seen scope.now) of.0 of.1 of.2 (sel_tree sel.now)
        nodes.old.items) result nodes.new.items }
    ensures sound { OnOk result (IsSound mode.Value (scope_seen scope.now) nodes.new.items) }
    ensures below { IfOk result (λ o. IfSome o (λ n. n < length nodes.new.items)) }
    ensures grows { OnOk result (length nodes.old.items ≤ length nodes.new.items) }
{
    let (place, object, range) = of;
    let of = whole_of(object);
    let Some(sel) = sel else {
        return push_selected(scope, nodes, place, of, Some(Select::Whole));
    };
    match sel.get() {
        Sel::Index(_, index) => {
            let index = bind(alloc, scope, nodes, index.get())?;
            push_selected(scope, nodes, place, of, bit_select(range, index))
        }
        Sel::Both { .. } => Err(ElabFault::Refused(DesignFault::N1, place)),
        Sel::Part(last) => {
            let select = bind_part(alloc, scope, nodes, range, last)?;
            push_selected(scope, nodes, place, of, select)
        }
    }
}

// A word of a memory, or digits of one.
#[cycle(bind)]
fn bind_word(alloc: Global, scope: &Scope, nodes: &mut Nodes, of: Found, sel: &Brackets) -> Numbered
    requires sound { IsSound mode.Value (scope_seen scope.now) nodes.old.items }
    requires unit { is_unit (scope_seen scope.now).precision (scope_seen scope.now).unit ≡ true }
    requires object { has_kind is_memory (scope_seen scope.now).objects of.1 ≡ true }
    ensures step { Steps
        (memory_bound (scope_seen scope.now) of.0 of.1 of.2 (sel_tree sel.now)
        nodes.old.items) result nodes.new.items }
    ensures sound { OnOk result (IsSound mode.Value (scope_seen scope.now) nodes.new.items) }
    ensures below { IfOk result (λ o. IfSome o (λ n. n < length nodes.new.items)) }
    ensures grows { OnOk result (length nodes.old.items ≤ length nodes.new.items) }
{
    let (place, object, range) = of;
    let Some(sel) = sel else {
        return Err(ElabFault::Refused(DesignFault::N1, place));
    };
    match sel.get() {
        Sel::Part(_) => Err(ElabFault::Refused(DesignFault::N1, place)),
        Sel::Index(_, index) => {
            let index = bind(alloc, scope, nodes, index.get())?;
            push_selected(
                scope,
                nodes,
                place,
                word_of(object, index),
                Some(Select::Whole),
            )
        }
        Sel::Both { index, last, .. } => {
            let index = bind(alloc, scope, nodes, index.get())?;
            let select = bind_part(alloc, scope, nodes, range, last)?;
            push_selected(scope, nodes, place, word_of(object, index), select)
        }
    }
}

/// Which digits the last bracket of a select names (IEEE 1364-2005, 5.2.1), with the nodes of an
/// index or a base; none where it needs a parameter that has no value; or its first fault.
#[cycle(bind)]
pub fn bind_part(
    alloc: Global,
    scope: &Scope,
    nodes: &mut Nodes,
    range: Range,
    last: &Esel<Expr>,
) -> Result<Option<Select>, ElabFault>
    requires sound { IsSound mode.Value (scope_seen scope.now) nodes.old.items }
    requires unit { is_unit (scope_seen scope.now).precision (scope_seen scope.now).unit ≡ true }
    ensures step { Steps
        (part_bound (scope_seen scope.now) last.now.place range
        (part_by expr_tree last.now.part) nodes.old.items)
        result nodes.new.items }
    ensures sound { OnOk result (IsSound mode.Value (scope_seen scope.now) nodes.new.items) }
    ensures below { IfOk result
        (λ o. IfSome o (λ x. fits_select (length nodes.new.items) x ≡ true)) }
    ensures grows { OnOk result (length nodes.old.items ≤ length nodes.new.items) }
{
    let bracket = last.place;
    match &last.part {
        Part::Index(index) => {
            let index = bind(alloc, scope, nodes, index.get())?;
            Ok(bit_select(range, index))
        }
        Part::Range(left, right) => {
            range_at(
                alloc,
                scope,
                scope.exprs,
                bracket,
                range,
                left.get(),
                right.get(),
            )
        }
        Part::Up(base, width) => {
            let base = bind(alloc, scope, nodes, base.get())?;
            let width = width_at(alloc, scope, scope.exprs, bracket, width.get())?;
            Ok(indexed_select(true, range, base, width))
        }
        Part::Down(base, width) => {
            let base = bind(alloc, scope, nodes, base.get())?;
            let width = width_at(alloc, scope, scope.exprs, bracket, width.get())?;
            Ok(indexed_select(false, range, base, width))
        }
    }
}

// A system call: `$signed` and `$unsigned` give their one argument a sign.
#[cycle(bind)]
fn bind_system(
    alloc: Global,
    scope: &Scope,
    nodes: &mut Nodes,
    id: &Id,
    arguments: &Items<Expr>,
) -> Numbered
    requires sound { IsSound mode.Value (scope_seen scope.now) nodes.old.items }
    requires unit { is_unit (scope_seen scope.now).precision (scope_seen scope.now).unit ≡ true }
    ensures step { Steps
        (system_row mode.Value (scope_seen scope.now) id.now
        (exprs (map expr_tree arguments.now)) (given_sign id.now.name)
        (sole_bound mode.Value (scope_seen scope.now) (exprs (map expr_tree arguments.now)))
        nodes.old.items) result nodes.new.items }
    ensures sound { OnOk result (IsSound mode.Value (scope_seen scope.now) nodes.new.items) }
    ensures below { IfOk result (λ o. IfSome o (λ n. n < length nodes.new.items)) }
    ensures grows { OnOk result (length nodes.old.items ≤ length nodes.new.items) }
{
    let Some(signed) = given_sign(id.name.as_slice()) else {
        return push_system(scope, nodes, id, arguments);
    };
    let arguments = arguments.as_slice();
    if arguments.len() != 1 {
        return Err(ElabFault::Refused(DesignFault::N10, id.place));
    }
    let part = bind(alloc, scope, nodes, &arguments[0])?;
    let with_sign = Prefix::WithSign { signed };
    push_prefixed(scope, Mode::Value, nodes, id.place, with_sign, part)
}

// An entry of a concatenation.
#[cycle(bind)]
fn bind_entry(alloc: Global, scope: &Scope, nodes: &mut Nodes, e: &Expr) -> Numbered
    requires sound { IsSound mode.Value (scope_seen scope.now) nodes.old.items }
    requires unit { is_unit (scope_seen scope.now).precision (scope_seen scope.now).unit ≡ true }
    ensures step { Steps
        (entry (expr_tree e.now) (bound mode.Value (scope_seen scope.now) (expr_tree e.now))
        nodes.old.items) result nodes.new.items }
    ensures sound { OnOk result (IsSound mode.Value (scope_seen scope.now) nodes.new.items) }
    ensures below { IfOk result (λ o. IfSome o (λ n. n < length nodes.new.items)) }
    ensures grows { OnOk result (length nodes.old.items ≤ length nodes.new.items) }
{
    if is_unsized(e) {
        return Err(ElabFault::Refused(DesignFault::N3, e.place));
    }
    bind(alloc, scope, nodes, e)
}

// The entries of a concatenation, from the left.
#[cycle(bind)]
fn bind_entries(alloc: Global, scope: &Scope, nodes: &mut Nodes, parts: &Items<Expr>) -> Numbers
    requires sound { IsSound mode.Value (scope_seen scope.now) nodes.old.items }
    requires unit { is_unit (scope_seen scope.now).precision (scope_seen scope.now).unit ≡ true }
    ensures step { Steps
        (entries_bound mode.Value (scope_seen scope.now) (Some [])
        (exprs (map expr_tree parts.now)) nodes.old.items) result nodes.new.items }
    ensures sound { OnOk result (IsSound mode.Value (scope_seen scope.now) nodes.new.items) }
    ensures below { IfOk result
        (λ o. IfSome o (λ ns. all_before (length nodes.new.items) ns ≡ true)) }
    ensures grows { OnOk result (length nodes.old.items ≤ length nodes.new.items) }
{
    let mut numbers = Some(Vec::new(alloc));
    for part in parts.as_slice() {
        let number = bind_entry(alloc, scope, nodes, part)?;
        numbers = with_number(numbers, number)?;
    }
    Ok(sequence(numbers))
}

// The call of a function: one expression, or its begin and its end where it assigns some of its
// arguments.
#[cycle(bind)]
fn bind_call(
    alloc: Global,
    scope: &Scope,
    nodes: &mut Nodes,
    place: Place,
    function: &Function,
    values: &[Expr],
) -> Numbered
    requires sound { IsSound mode.Value (scope_seen scope.now) nodes.old.items }
    requires unit { is_unit (scope_seen scope.now).precision (scope_seen scope.now).unit ≡ true }
    requires function { IsFunction (scope_seen scope.now).objects function.now }
    ensures step { let s = scope_seen scope.now in let ds = directions_of s function.now.id in
        let es = exprs (map expr_tree values.now) in Steps
        (call_row s place function.now (list_any is_taken ds) (given_bound s ds 0 (Some []) es)
        (taken_bound s ds 0 (Some []) es) nodes.old.items) result nodes.new.items }
    ensures sound { OnOk result (IsSound mode.Value (scope_seen scope.now) nodes.new.items) }
    ensures below { IfOk result (λ o. IfSome o (λ n. n < length nodes.new.items)) }
    ensures grows { OnOk result (length nodes.old.items ≤ length nodes.new.items) }
{
    let directions = directions_of(scope, function.id);
    if !any_taken(directions) {
        let given = bind_side(alloc, scope, nodes, Side::Given, directions, values)?;
        return push_call(alloc, scope, nodes, place, function, given);
    }
    let given = bind_beside(alloc, scope, nodes, directions, values)?;
    let given = push_begin(alloc, scope, nodes, place, function, given)?;
    let taken = bind_side(alloc, scope, nodes, Side::Taken, directions, values)?;
    let all = with_numbers(given, taken)?;
    push_call(alloc, scope, nodes, place, function, all)
}

// The arguments that are given a value; where one of them is wrong and an argument that is
// assigned too, the fault that stands first.
#[cycle(bind)]
fn bind_beside(
    alloc: Global,
    scope: &Scope,
    nodes: &mut Nodes,
    directions: &[TaskDirection],
    values: &[Expr],
) -> Numbers
    requires sound { IsSound mode.Value (scope_seen scope.now) nodes.old.items }
    requires unit { is_unit (scope_seen scope.now).precision (scope_seen scope.now).unit ≡ true }
    ensures step { let s = scope_seen scope.now in let es = exprs (map expr_tree values.now) in
        Steps
        (beside (given_bound s directions.now 0 (Some []) es)
        (taken_bound s directions.now 0 (Some []) es) nodes.old.items) result nodes.new.items }
    ensures sound { OnOk result (IsSound mode.Value (scope_seen scope.now) nodes.new.items) }
    ensures below { IfOk result
        (λ o. IfSome o (λ ns. all_before (length nodes.new.items) ns ≡ true)) }
    ensures grows { OnOk result (length nodes.old.items ≤ length nodes.new.items) }
{
    match bind_side(alloc, scope, nodes, Side::Given, directions, values) {
        Ok(given) => Ok(given),
        Err(ElabFault::NoMemory) => Err(ElabFault::NoMemory),
        Err(ElabFault::Refused(fault, at)) => {
            let mut apart = Vec::new(alloc);
            match bind_side(alloc, scope, &mut apart, Side::Taken, directions, values) {
                Ok(_) => Err(ElabFault::Refused(fault, at)),
                Err(ElabFault::NoMemory) => Err(ElabFault::NoMemory),
                Err(ElabFault::Refused(other, there)) => {
                    let (first, place) = lesser((fault, at), (other, there));
                    Err(ElabFault::Refused(first, place))
                }
            }
        }
    }
}

// The arguments of one side, in their order.
#[cycle(bind)]
fn bind_side(
    alloc: Global,
    scope: &Scope,
    nodes: &mut Nodes,
    side: Side,
    directions: &[TaskDirection],
    values: &[Expr],
) -> Numbers
    requires sound { IsSound mode.Value (scope_seen scope.now) nodes.old.items }
    requires unit { is_unit (scope_seen scope.now).precision (scope_seen scope.now).unit ≡ true }
    ensures step { Steps
        (side_bound (scope_seen scope.now) side directions.now 0 (Some [])
        (exprs (map expr_tree values.now)) nodes.old.items)
        result nodes.new.items }
    ensures sound { OnOk result (IsSound mode.Value (scope_seen scope.now) nodes.new.items) }
    ensures below { IfOk result
        (λ o. IfSome o (λ ns. all_before (length nodes.new.items) ns ≡ true)) }
    ensures grows { OnOk result (length nodes.old.items ≤ length nodes.new.items) }
{
    let mut numbers = Some(Vec::new(alloc));
    for (k, value) in values.iter().enumerate() {
        if is_at(side, directions, k) {
            let number = bind_argument(alloc, scope, nodes, side, value)?;
            numbers = with_number(numbers, number)?;
        }
    }
    Ok(sequence(numbers))
}

// An argument: its value, or what it is assigned to.
#[cycle(bind)]
fn bind_argument(alloc: Global, scope: &Scope, nodes: &mut Nodes, side: Side, e: &Expr) -> Numbered
    requires sound { IsSound mode.Value (scope_seen scope.now) nodes.old.items }
    requires unit { is_unit (scope_seen scope.now).precision (scope_seen scope.now).unit ≡ true }
    ensures step { Steps
        (argument_bound (scope_seen scope.now) side (expr_tree e.now) nodes.old.items)
        result nodes.new.items }
    ensures sound { OnOk result (IsSound mode.Value (scope_seen scope.now) nodes.new.items) }
    ensures below { IfOk result (λ o. IfSome o (λ n. n < length nodes.new.items)) }
    ensures grows { OnOk result (length nodes.old.items ≤ length nodes.new.items) }
{
    match side {
        Side::Given => bind(alloc, scope, nodes, e),
        Side::Taken => bind_output(alloc, scope, nodes, e),
    }
}

// An output: a concatenation of what it is assigned to.
#[cycle(bind)]
fn bind_output(alloc: Global, scope: &Scope, nodes: &mut Nodes, e: &Expr) -> Numbered
    requires sound { IsSound mode.Value (scope_seen scope.now) nodes.old.items }
    requires unit { is_unit (scope_seen scope.now).precision (scope_seen scope.now).unit ≡ true }
    ensures step { Steps
        (output_bound (scope_seen scope.now) (expr_tree e.now) nodes.old.items)
        result nodes.new.items }
    ensures sound { OnOk result (IsSound mode.Value (scope_seen scope.now) nodes.new.items) }
    ensures below { IfOk result (λ o. IfSome o (λ n. n < length nodes.new.items)) }
    ensures grows { OnOk result (length nodes.old.items ≤ length nodes.new.items) }
{
    let mut parts = Vec::new(alloc);
    if !bind_target(alloc, scope, nodes, &mut parts, e)? {
        return Ok(None);
    }
    let parts = Some(Sequence::new(parts));
    push_concat(alloc, scope, Mode::Value, nodes, e.place, parts)
}

// The variables of an output, behind others; whether none is passed over.
#[cycle(bind)]
fn bind_target(
    alloc: Global,
    scope: &Scope,
    nodes: &mut Nodes,
    parts: &mut Vec<ExprId>,
    e: &Expr,
) -> Result<bool, ElabFault>
    requires sound { IsSound mode.Value (scope_seen scope.now) nodes.old.items }
    requires unit { is_unit (scope_seen scope.now).precision (scope_seen scope.now).unit ≡ true }
    requires parts { all_before (length nodes.old.items) parts.old.items ≡ true }
    ensures step { StepsOn
        (target_pieces (scope_seen scope.now) parts.old.items (expr_tree e.now) nodes.old.items)
        result parts.new.items nodes.new.items }
    ensures sound { OnOk result (IsSound mode.Value (scope_seen scope.now) nodes.new.items) }
    ensures below { OnOk result (all_before (length nodes.new.items) parts.new.items ≡ true) }
    ensures grows { OnOk result (length nodes.old.items ≤ length nodes.new.items) }
{
    let place = e.place;
    match &e.form {
        ExprForm::Primary(primary) => match primary {
            Primary::Name(name, sel) => {
                let name = name.get();
                let Some(number) = bind_variable(alloc, scope, nodes, place, sel, name)? else {
                    return Ok(false);
                };
                add_number(parts, number)?;
                Ok(true)
            }
            Primary::Concat(entries) => bind_targets(alloc, scope, nodes, parts, entries),
            Primary::Number(_)
            | Primary::Text(_)
            | Primary::Call(_, _)
            | Primary::System(_, _)
            | Primary::Paren(_)
            | Primary::Repeat(_, _) => Err(ElabFault::Refused(DesignFault::N5, place)),
        },
        ExprForm::Unary(_, _) | ExprForm::Chain(_, _) | ExprForm::Choice { .. } => {
            Err(ElabFault::Refused(DesignFault::N5, place))
        }
    }
}

// Those of a concatenation.
#[cycle(bind)]
fn bind_targets(
    alloc: Global,
    scope: &Scope,
    nodes: &mut Nodes,
    parts: &mut Vec<ExprId>,
    entries: &Items<Expr>,
) -> Result<bool, ElabFault>
    requires sound { IsSound mode.Value (scope_seen scope.now) nodes.old.items }
    requires unit { is_unit (scope_seen scope.now).precision (scope_seen scope.now).unit ≡ true }
    requires parts { all_before (length nodes.old.items) parts.old.items ≡ true }
    ensures step { StepsOn
        (targets_pieces (scope_seen scope.now) parts.old.items (exprs (map expr_tree entries.now))
        nodes.old.items)
        result parts.new.items nodes.new.items }
    ensures sound { OnOk result (IsSound mode.Value (scope_seen scope.now) nodes.new.items) }
    ensures below { OnOk result (all_before (length nodes.new.items) parts.new.items ≡ true) }
    ensures grows { OnOk result (length nodes.old.items ≤ length nodes.new.items) }
{
    for entry in entries.as_slice() {
        if !bind_target(alloc, scope, nodes, parts, entry)? {
            return Ok(false);
        }
    }
    Ok(true)
}

// A variable, a word of a memory, or digits of one.
#[cycle(bind)]
fn bind_variable(
    alloc: Global,
    scope: &Scope,
    nodes: &mut Nodes,
    place: Place,
    sel: &Brackets,
    name: &Name<Expr>,
) -> Numbered
    requires sound { IsSound mode.Value (scope_seen scope.now) nodes.old.items }
    requires unit { is_unit (scope_seen scope.now).precision (scope_seen scope.now).unit ≡ true }
    ensures step { Steps
        (variable_bound (scope_seen scope.now) place (name_tree name.now) (sel_tree sel.now)
        nodes.old.items)
        result nodes.new.items }
    ensures sound { OnOk result (IsSound mode.Value (scope_seen scope.now) nodes.new.items) }
    ensures below { IfOk result (λ o. IfSome o (λ n. n < length nodes.new.items)) }
    ensures grows { OnOk result (length nodes.old.items ≤ length nodes.new.items) }
{
    match name_read(alloc, scope, scope.exprs, name)? {
        Readable::Wrong | Readable::Genvar(_) => Err(ElabFault::Refused(DesignFault::N1, place)),
        Readable::Unknown => Ok(None),
        Readable::Parameter(_, _, _) => Err(ElabFault::Refused(DesignFault::N5, place)),
        Readable::Vector(object, range) => {
            if !is_variable_at(scope.objects, object) {
                return Err(ElabFault::Refused(DesignFault::N5, place));
            }
            bind_bits(alloc, scope, nodes, (place, object, range), sel)
        }
        Readable::Memory(object, range) => {
            bind_word(alloc, scope, nodes, (place, object, range), sel)
        }
    }
}

// The operands of a chain behind the first, from the left.
#[cycle(bind)]
fn bind_links(alloc: Global, scope: &Scope, nodes: &mut Nodes, links: &Items<Link<Expr>>) -> Numbers
    requires sound { IsSound mode.Value (scope_seen scope.now) nodes.old.items }
    requires unit { is_unit (scope_seen scope.now).precision (scope_seen scope.now).unit ≡ true }
    ensures step { Steps
        (links_bound mode.Value (scope_seen scope.now) (Some [])
        (Expressions.links (map link_tree links.now)) nodes.old.items) result nodes.new.items }
    ensures sound { OnOk result (IsSound mode.Value (scope_seen scope.now) nodes.new.items) }
    ensures below { IfOk result
        (λ o. IfSome o (λ ns. all_before (length nodes.new.items) ns ≡ true)) }
    ensures grows { OnOk result (length nodes.old.items ≤ length nodes.new.items) }
{
    let mut numbers = Some(Vec::new(alloc));
    for link in links.as_slice() {
        let number = bind(alloc, scope, nodes, &link.operand)?;
        numbers = with_number(numbers, number)?;
    }
    Ok(sequence(numbers))
}

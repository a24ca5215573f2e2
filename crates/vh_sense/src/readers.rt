ghost use Rattle.std.specs.Prelude.{◌≡◌, ◌<◌, ◌==◌, ℕ, List, [], ◌∷◌, true, length, OnOk, IfOk, slice_get};
ghost use Rattle.std.specs.List.{flat_map, range_with_len};
ghost use Rattle.vh_design_nodes.specs.Widths.{operands};
ghost use Rattle.vh_design.specs.Validity.{CodeFits, body_at};
ghost use Rattle.vh_design.specs.Laws.{select_exprs, selected_exprs, parts_of};
ghost use Rattle.vh_sense.specs.Reads.{object_in, is_the, reads_below, reads};
ghost use Rattle.vh_sense.specs.Follows.{statements_in, statements_of_body, followers};
ghost use Rattle.vh_sense.specs.Views.{one_of, follow_at, noted, follows_at, Gathers};

use crate::follow::{Key, follow_of};
use crate::sets::empty_sets;
use std::alloc::Global;
use std::collections::BTreeSet;
use vh_base::{ExprId, NoMemory, ObjId, ProcId};
use vh_design::{Code, Design, ExprKind, Link, Select, Selected};

// The force and assign statements that read an object.
pub(crate) type Readers = BTreeSet<Key, Global>;

// The object that an expression itself reads.
fn object_in(kind: &ExprKind) -> Option<ObjId>
    ensures { result ≡ object_in kind.now }
{
    match kind {
        ExprKind::Selected(selected) => Some(selected.of.object),
        _ => None,
    }
}

// The index of a select, where it has one.
fn index_of(select: &Select) -> Option<ExprId>
    ensures { select_exprs select.now ≡ one_of result }
{
    match select {
        Select::Bit { index, .. } => Some(*index),
        Select::Indexed { base, .. } => Some(*base),
        Select::Whole | Select::Slice { .. } => None,
    }
}

// How many parts a select has.
fn count_selected(selected: &Selected) -> usize
    ensures { result ≡ length (selected_exprs selected.now) }
{
    let index = index_of(&selected.select);
    match (selected.of.word, index) {
        (None, None) => 0,
        (Some(_), None) | (None, Some(_)) => 1,
        (Some(_), Some(_)) => 2,
    }
}

/// How many parts an expression has.
pub fn count_parts(kind: &ExprKind) -> usize
    ensures { result ≡ length (parts_of kind.now) }
{
    match kind {
        ExprKind::Literal(_) | ExprKind::Time { .. } | ExprKind::SysCall(_) => 0,
        ExprKind::Selected(selected) => count_selected(selected),
        ExprKind::Unary { .. } | ExprKind::Repeat { .. } | ExprKind::WithSign { .. } => 1,
        ExprKind::Arithmetic { rest, .. } => rest.as_slice().len() + 1,
        ExprKind::Shift { rest, .. } => rest.as_slice().len() + 1,
        ExprKind::Comparison { rest, .. } => rest.as_slice().len() + 1,
        ExprKind::Logic { rest, .. } => rest.as_slice().len() + 1,
        ExprKind::Choice { .. } => 3,
        ExprKind::Join { rest, .. } => rest.as_slice().len() + 1,
        ExprKind::Call { arguments, .. } => arguments.get().as_slice().len(),
    }
}

// A part of a select.
fn selected_at(selected: &Selected, k: usize) -> Option<ExprId>
    ensures { result ≡ slice_get (selected_exprs selected.now) k }
{
    let index = index_of(&selected.select);
    match selected.of.word {
        Some(at) => one_at(at, index, k),
        None => first_at(index, k),
    }
}

/// The part of an expression at a position; none behind its last.
pub fn part_at(kind: &ExprKind, k: usize) -> Option<ExprId>
    ensures { result ≡ slice_get (parts_of kind.now) k }
{
    match kind {
        ExprKind::Literal(_) | ExprKind::Time { .. } | ExprKind::SysCall(_) => None,
        ExprKind::Selected(selected) => selected_at(selected, k),
        ExprKind::Unary { part, .. }
        | ExprKind::Repeat { part, .. }
        | ExprKind::WithSign { part, .. } => one_at(*part, None, k),
        ExprKind::Arithmetic { first, rest } => linked_at(*first, rest.as_slice(), k),
        ExprKind::Shift { first, rest } => linked_at(*first, rest.as_slice(), k),
        ExprKind::Comparison { first, rest } => linked_at(*first, rest.as_slice(), k),
        ExprKind::Logic { first, rest } => linked_at(*first, rest.as_slice(), k),
        ExprKind::Choice { condition, yes, no } => {
            if k == 0 {
                Some(*condition)
            } else {
                one_at(*yes, Some(*no), k - 1)
            }
        }
        ExprKind::Join { first, rest } => {
            if k == 0 {
                Some(*first)
            } else {
                rest.as_slice().get(k - 1).copied()
            }
        }
        ExprKind::Call { arguments, .. } => arguments.get().as_slice().get(k).copied(),
    }
}

// The only one of a part that may be missing.
fn first_at(part: Option<ExprId>, k: usize) -> Option<ExprId>
    ensures { result ≡ slice_get (one_of part) k }
{
    if k == 0 { part } else { None }
}

// One of two parts, of which the second may be missing.
fn one_at(first: ExprId, second: Option<ExprId>, k: usize) -> Option<ExprId>
    ensures { result ≡ slice_get (first ∷ one_of second) k }
{
    if k == 0 {
        Some(first)
    } else {
        first_at(second, k - 1)
    }
}

// An operand of a chain.
fn linked_at<Op: Copy>(first: ExprId, rest: &[Link<Op>], k: usize) -> Option<ExprId>
    ensures { result ≡ slice_get (first ∷ operands rest.now) k }
{
    if k == 0 {
        Some(first)
    } else {
        operand_at(rest, k - 1)
    }
}

// One behind the first.
fn operand_at<Op: Copy>(rest: &[Link<Op>], k: usize) -> Option<ExprId>
    ensures { result ≡ slice_get (operands rest.now) k }
{
    match rest.get(k) {
        Some(link) => Some(part_of(link)),
        None => None,
    }
}

// The operand behind an operator.
fn part_of<Op: Copy>(link: &Link<Op>) -> ExprId
    ensures { result ≡ link.now.part }
{
    link.part
}

// Is the object this one?
fn is_the(o: ObjId, object: Option<ObjId>) -> bool
    ensures { result ≡ is_the o object }
{
    match object {
        None => false,
        Some(object) => object.number() == o.number(),
    }
}

/// Whether an expression reads an object, or a word of it (IEEE 1364-2005, 5.2). It goes once over the
/// expression, and is as deep as the expression.
pub fn reads(d: &Design, e: ExprId, o: ObjId) -> bool
    requires { e < length d.now.exprs }
    ensures { result ≡ reads d.now.exprs o e }
{
    reads_in(d, e, o)
}

// The same, by the expressions below any number that is greater.
fn reads_in(d: &Design, e: ExprId, o: ObjId) -> bool
    requires { e < length d.now.exprs }
    ensures { (k : ℕ) → e < k → result ≡ reads_below k d.now.exprs o e }
{
    let kind = &d.expr(e).kind;
    let mut found = is_the(o, object_in(kind));
    for k in 0..count_parts(kind) {
        if let Some(part) = part_at(kind, k) {
            found |= reads_in(d, part, o);
        }
    }
    found
}

// Puts a statement into the set of an object.
fn put(readers: &mut [Readers], object: ObjId, key: Key) -> Result<(), NoMemory>
    ensures { OnOk result ((o : ℕ) → o < length readers.old →
        follows_at readers.new o ≡ noted (object == o) (follow_at key) (follows_at readers.old o)) }
{
    let number = object.number() as usize;
    if number < readers.len() {
        readers[number].insert(key)?;
    }
    Ok(())
}

// Puts a statement into the sets of the objects that an expression reads. It is as deep as the expression.
fn note(d: &Design, e: ExprId, key: Key, readers: &mut [Readers]) -> Result<(), NoMemory>
    requires { e < length d.now.exprs }
    ensures { OnOk result ((k o : ℕ) → e < k → o < length readers.old →
        follows_at readers.new o
        ≡ noted (reads_below k d.now.exprs o e) (follow_at key) (follows_at readers.old o)) }
{
    let kind = &d.expr(e).kind;
    if let Some(object) = object_in(kind) {
        put(readers, object, key)?;
    }
    for k in 0..count_parts(kind) {
        if let Some(part) = part_at(kind, k) {
            note(d, part, key, readers)?;
        }
    }
    Ok(())
}

// Puts the statements of a code into the sets of the objects that they read.
fn note_code(d: &Design, code: &Code, readers: &mut [Readers]) -> Result<(), NoMemory>
    requires { CodeFits d.now code.now }
    ensures { OnOk result (Gathers d.now.exprs (statements_in code.now) readers.old readers.new) }
{
    for instruction in code.instructions.as_slice() {
        if let Some(follow) = follow_of(&instruction.operation) {
            note(d, follow.expr, Key::new(follow), readers)?;
        }
    }
    Ok(())
}

// Those of the body of an object, where it is a task or function with one.
fn note_body(d: &Design, o: ObjId, readers: &mut [Readers]) -> Result<(), NoMemory>
    requires { o < length d.now.objects }
    ensures { OnOk result
        (Gathers d.now.exprs (statements_of_body (body_at d.now o)) readers.old readers.new) }
{
    if d.object(o).detail.body().is_some() {
        note_code(d, d.body(o), readers)?;
    }
    Ok(())
}

// Those of all processes.
fn note_processes(d: &Design, readers: &mut [Readers]) -> Result<(), NoMemory>
    ensures { OnOk result
        (Gathers d.now.exprs (flat_map statements_in d.now.codes) readers.old readers.new) }
{
    for p in 0..d.counts().processes {
        note_code(d, d.code(ProcId::new(p as u64)), readers)?;
    }
    Ok(())
}

// Those of all tasks and functions.
fn note_bodies(d: &Design, readers: &mut [Readers]) -> Result<(), NoMemory>
    ensures { OnOk result (Gathers d.now.exprs
        (flat_map (λ o. statements_of_body (body_at d.now o))
        (range_with_len 0 (length d.now.objects)))
        readers.old readers.new) }
{
    for o in 0..d.counts().objects {
        note_body(d, ObjId::new(o), readers)?;
    }
    Ok(())
}

// For each object the force and assign statements that read it. It goes once over the design.
pub(crate) fn readers_of(alloc: Global, d: &Design) -> Result<Vec<Readers>, NoMemory>
    ensures { IfOk result (λ rs. (o : ℕ) → o < length d.now.objects →
        follows_at rs.items o ≡ followers d.now o) }
{
    let mut readers = empty_sets(alloc, d.counts().objects)?;
    note_processes(d, &mut readers)?;
    note_bodies(d, &mut readers)?;
    Ok(readers)
}

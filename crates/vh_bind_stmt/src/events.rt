ghost use Rattle.std.specs.Prelude.{◌≡◌, ◌≤◌, ◌∷◌, ◌++◌, ◌^◌, ◌<ℤ◌, neg_ℤ, pos, true, false, [], Some, map, is_some, IfOk, IfSome, OnOk};
ghost use Rattle.vh_base.specs.declared.faults.DesignFault.TheVariants.{N6};
ghost use Rattle.vh_logic.specs.Number.{integer_of};
ghost use Rattle.vh_eval.specs.Selects.{position_of, lowest_index};
ghost use Rattle.vh_ast.specs.Views.{ev_tree, expr_tree, name_tree, part_by, sel_tree};
ghost use Rattle.vh_bind.specs.Steps.{Gives};
ghost use Rattle.vh_bind.specs.Views.{scope_seen};
ghost use Rattle.vh_bind_stmt.specs.Events.{edge_of, digits_term, below_term, select_term, index_term, indexed_term, slice_term, by_index, by_base, part_terms, sel_terms, never, width_at, read_terms, event_terms, event_at, event_of, name_terms, expr_terms, all_terms};

use crate::meant::object_of;
use sqlite_items::Boxed;
use std::alloc::Global;
use vh_ast::{Edge as Word, Esel, Ev, Expr, ExprForm, Name, Part, Primary, Sel};
use vh_base::{DesignFault, NoMemory, ObjId, Place, Sequence};
use vh_bind::{ElabFault, Readable, Scope, constant, meaning, number_in, part_select};
use vh_bind_expr::name_read;
use vh_bind_scope::Meaning;
use vh_design_code::{Edge, Term, Terms};
use vh_design_nodes::{Range, Select, is_event_at};
use vh_eval::{integer, lowest_index, position_of};
use vh_logic::{MAX_WIDTH, Vec4};

// Which change counts.
fn edge_of(word: Option<Word>) -> Edge
    ensures { result ≡ edge_of word }
{
    match word {
        None => Edge::Any,
        Some(Word::Positive) => Edge::Rising,
        Some(Word::Negative) => Edge::Falling,
    }
}

// An object with its width, and which change of it counts.
#[derive(Clone, Copy)]
struct Watched {
    object: ObjId,
    width: u32,
    edge: Edge,
}

// No term.
fn none(alloc: Global) -> Terms
    ensures { result ≡ [] }
{
    Sequence::new(Vec::new(alloc))
}

// One term.
fn one(alloc: Global, term: Term) -> Result<Terms, NoMemory>
    ensures { IfOk result (λ ts. ts ≡ term ∷ []) }
{
    let mut terms = Vec::new(alloc);
    terms.push(term)?;
    Ok(Sequence::new(terms))
}

// A change of some digits of an object.
fn digits_term(alloc: Global, of: Watched, low: u32, count: u32) -> Result<Terms, NoMemory>
    ensures { IfOk result (λ ts. ts ≡ digits_term of.object of.edge low count) }
{
    if count == 0 {
        return Ok(none(alloc));
    }
    let term = Term::Digits {
        object: of.object,
        low,
        width: count,
        edge: of.edge,
    };
    one(alloc, term)
}

// Where the lowest digit is outside.
fn below_term(alloc: Global, of: Watched, count: u32) -> Result<Terms, NoMemory>
    ensures { IfOk result (λ ts. ts ≡ below_term of.object of.edge count) }
{
    match of.edge {
        Edge::Any => digits_term(alloc, of, 0, count),
        Edge::Rising | Edge::Falling => Ok(none(alloc)),
    }
}

// A change of so many digits from a place on: of those that it has.
fn select_term(alloc: Global, of: Watched, count: u32, low: i128) -> Result<Terms, NoMemory>
    requires below { low <ℤ pos (2 ^ 66) }
    requires above { neg_ℤ (pos (2 ^ 66)) <ℤ low }
    ensures { IfOk result (λ ts. ts ≡ select_term of.object of.width of.edge count low) }
{
    let last = (low + i128::from(count)).min(i128::from(of.width));
    if low < 0 {
        let inside = if last < 0 { 0 } else { last as u32 };
        return below_term(alloc, of, inside);
    }
    if last <= low {
        return digits_term(alloc, of, 0, 0);
    }
    digits_term(alloc, of, low as u32, (last - low) as u32)
}

// By an index: one that isn't known names no digit.
fn index_term(alloc: Global, of: Watched, range: Range, index: &Vec4) -> Result<Terms, NoMemory>
    ensures { IfOk result
        (λ ts. ts ≡ index_term of.object of.width of.edge range (integer_of index.now)) }
{
    match integer(index) {
        None => Ok(none(alloc)),
        Some(index) => select_term(alloc, of, 1, position_of(range, index)),
    }
}

// By an index of so many.
fn indexed_term(
    alloc: Global,
    of: Watched,
    range: Range,
    up: bool,
    count: u32,
    base: &Vec4,
) -> Result<Terms, NoMemory>
    requires { 1 ≤ count }
    ensures { IfOk result
        (λ ts. ts ≡ indexed_term of.object of.width of.edge range up count (integer_of base.now)) }
{
    match integer(base) {
        None => Ok(none(alloc)),
        Some(base) => {
            let lowest = lowest_index(range, up, base, count);
            select_term(alloc, of, count, position_of(range, lowest))
        }
    }
}

// The digits between two bounds.
fn slice_term(alloc: Global, of: Watched, select: Select) -> Result<Terms, NoMemory>
    ensures { IfOk result (λ ts. ts ≡ slice_term of.object of.width of.edge select) }
{
    match select {
        Select::Whole | Select::Bit { .. } | Select::Indexed { .. } => Ok(none(alloc)),
        Select::Slice {
            range,
            lowest,
            width,
        } => select_term(alloc, of, width, position_of(range, i128::from(lowest))),
    }
}

// By a constant index, where it has a value.
fn by_index(
    alloc: Global,
    of: Watched,
    range: Range,
    index: Option<Vec4>,
) -> Result<Option<Terms>, ElabFault>
    ensures { Gives (by_index of.object of.width of.edge range index) result }
{
    match index {
        None => Ok(None),
        Some(index) => Ok(Some(index_term(alloc, of, range, &index)?)),
    }
}

// By a constant base and a width, where both have values.
fn by_base(
    alloc: Global,
    of: Watched,
    range: Range,
    up: bool,
    base: Option<Vec4>,
    count: Option<u64>,
) -> Result<Option<Terms>, ElabFault>
    requires least { IfSome count (λ n. 1 ≤ n) }
    requires most { IfSome count (λ n. n ≤ MAX_WIDTH) }
    ensures { Gives (by_base of.object of.width of.edge range up base count) result }
{
    let Some(base) = base else {
        return Ok(None);
    };
    let Some(count) = count else {
        return Ok(None);
    };
    Ok(Some(indexed_term(alloc, of, range, up, count as u32, &base)?))
}

// The digits of the last bracket.
fn part_terms(
    alloc: Global,
    here: &Scope,
    of: Watched,
    range: Range,
    last: &Esel<Expr>,
) -> Result<Option<Terms>, ElabFault>
    ensures { Gives
        (part_terms (scope_seen here.now) last.now.place of.object of.width of.edge range
        (part_by expr_tree last.now.part)) result }
{
    let bracket = last.place;
    match &last.part {
        Part::Index(index) => {
            let index = constant(alloc, here, index.get(), 0)?;
            by_index(alloc, of, range, index)
        }
        Part::Range(left, right) => {
            let left = constant(alloc, here, left.get(), 0)?;
            let right = constant(alloc, here, right.get(), 0)?;
            match part_select(bracket, range, left, right)? {
                None => Ok(None),
                Some(select) => Ok(Some(slice_term(alloc, of, select)?)),
            }
        }
        Part::Up(base, width) => {
            let base = constant(alloc, here, base.get(), 0)?;
            let width = constant(alloc, here, width.get(), 0)?;
            let width = number_in(bracket, 1, u64::from(MAX_WIDTH), width)?;
            by_base(alloc, of, range, true, base, width)
        }
        Part::Down(base, width) => {
            let base = constant(alloc, here, base.get(), 0)?;
            let width = constant(alloc, here, width.get(), 0)?;
            let width = number_in(bracket, 1, u64::from(MAX_WIDTH), width)?;
            by_base(alloc, of, range, false, base, width)
        }
    }
}

// Digits of a vector.
fn sel_terms(
    alloc: Global,
    here: &Scope,
    place: Place,
    of: Watched,
    range: Range,
    sel: &Option<Boxed<Sel<Expr>>>,
) -> Result<Option<Terms>, ElabFault>
    ensures { Gives
        (sel_terms (scope_seen here.now) place of.object of.width of.edge range (sel_tree sel.now))
        result }
{
    let Some(sel) = sel else {
        return Ok(Some(digits_term(alloc, of, 0, of.width)?));
    };
    match sel.get() {
        Sel::Index(_, index) => {
            let index = match constant(alloc, here, index.get(), 0) {
                Err(ElabFault::Refused(DesignFault::N4, _)) => {
                    return Err(ElabFault::Refused(DesignFault::N6, place));
                }
                Err(fault) => return Err(fault),
                Ok(index) => index,
            };
            by_index(alloc, of, range, index)
        }
        Sel::Both { .. } => Err(ElabFault::Refused(DesignFault::N6, place)),
        Sel::Part(last) => match part_terms(alloc, here, of, range, last) {
            Err(ElabFault::Refused(DesignFault::N4, _)) => {
                Err(ElabFault::Refused(DesignFault::N6, place))
            }
            Err(fault) => Err(fault),
            Ok(terms) => Ok(terms),
        },
    }
}

// What never changes: its select may have a fault.
fn never(
    alloc: Global,
    here: &Scope,
    place: Place,
    of: Watched,
    range: Range,
    sel: &Option<Boxed<Sel<Expr>>>,
) -> Result<Option<Terms>, ElabFault>
    ensures { Gives
        (never (sel_terms (scope_seen here.now) place of.object of.width of.edge range
        (sel_tree sel.now)))
        result }
{
    match sel_terms(alloc, here, place, of, range, sel)? {
        None => Ok(None),
        Some(_) => Ok(Some(none(alloc))),
    }
}

// The width of an object.
fn width_at(here: &Scope, object: ObjId) -> u32
    ensures { result ≡ width_at (scope_seen here.now) object }
{
    match here.objects.get(object.number() as usize) {
        None => 1,
        Some(info) => info.width,
    }
}

// By what a name stands for.
fn read_terms(
    alloc: Global,
    here: &Scope,
    place: Place,
    start: Place,
    edge: Edge,
    sel: &Option<Boxed<Sel<Expr>>>,
    readable: Readable,
) -> Result<Option<Terms>, ElabFault>
    ensures { Gives
        (read_terms (scope_seen here.now) place start edge (sel_tree sel.now) readable) result }
{
    match readable {
        Readable::Wrong => Err(ElabFault::Refused(DesignFault::N1, start)),
        Readable::Unknown => Ok(None),
        Readable::Genvar(_) => {
            let of = Watched {
                object: ObjId::new(0),
                width: 32,
                edge,
            };
            never(alloc, here, place, of, Range { left: 31, right: 0 }, sel)
        }
        Readable::Parameter(object, range, _) => {
            let of = Watched {
                object,
                width: width_at(here, object),
                edge,
            };
            never(alloc, here, place, of, range, sel)
        }
        Readable::Vector(object, range) => {
            let of = Watched {
                object,
                width: width_at(here, object),
                edge,
            };
            sel_terms(alloc, here, place, of, range, sel)
        }
        Readable::Memory(_, _) => Err(ElabFault::Refused(DesignFault::N6, place)),
    }
}

// A named event, which has no edge and no digits.
fn event_terms(
    alloc: Global,
    place: Place,
    word: Option<Word>,
    sel: &Option<Boxed<Sel<Expr>>>,
    object: ObjId,
) -> Result<Option<Terms>, ElabFault>
    ensures { Gives (event_terms place word (sel_tree sel.now) object) result }
{
    if word.is_some() || sel.is_some() {
        return Err(ElabFault::Refused(DesignFault::N6, place));
    }
    Ok(Some(one(alloc, Term::Event(object))?))
}

// It, where it is an event.
fn event_at(here: &Scope, object: Option<ObjId>) -> Option<ObjId>
    ensures { result ≡ event_at (scope_seen here.now) object }
{
    match object {
        None => None,
        Some(object) => {
            if is_event_at(here.objects, object) {
                Some(object)
            } else {
                None
            }
        }
    }
}

// The event that is meant.
fn event_of(here: &Scope, meaning: Option<Meaning>) -> Option<ObjId>
    ensures { result ≡ event_of (scope_seen here.now) meaning }
{
    event_at(here, object_of(meaning))
}

/// What a name with its select is waited for (IEEE 1364-2005, 9.7.2 and 9.7.3), parameters having
/// their values in the expressions of the scope.
pub fn name_terms(
    alloc: Global,
    here: &Scope,
    place: Place,
    word: Option<Word>,
    name: &Name<Expr>,
    sel: &Option<Boxed<Sel<Expr>>>,
) -> Result<Option<Terms>, ElabFault>
    ensures { Gives
        (name_terms (scope_seen here.now) place word (name_tree name.now) (sel_tree sel.now))
        result }
{
    let start = name.first.id.place;
    let meaning = meaning(alloc, here, name, false)?;
    if let Some(object) = event_of(here, meaning) {
        return event_terms(alloc, place, word, sel, object);
    }
    let readable = name_read(alloc, here, here.exprs, name)?;
    read_terms(alloc, here, place, start, edge_of(word), sel, readable)
}

// What an event expression waits for.
fn expr_terms(alloc: Global, here: &Scope, ev: &Ev) -> Result<Option<Terms>, ElabFault>
    ensures { Gives
        (expr_terms (scope_seen here.now) ev.now.edge (expr_tree ev.now.expr)) result }
{
    let place = ev.expr.place;
    match &ev.expr.form {
        ExprForm::Primary(primary) => match primary {
            Primary::Name(name, sel) => { name_terms(alloc, here, place, ev.edge, name.get(), sel) }
            Primary::Number(_)
            | Primary::Text(_)
            | Primary::Call(_, _)
            | Primary::System(_, _)
            | Primary::Paren(_)
            | Primary::Concat(_)
            | Primary::Repeat(_, _) => Err(ElabFault::Refused(DesignFault::N6, place)),
        },
        ExprForm::Unary(_, _) | ExprForm::Chain(_, _) | ExprForm::Choice { .. } => {
            Err(ElabFault::Refused(DesignFault::N6, place))
        }
    }
}

/// What a list of event expressions waits for (IEEE 1364-2005, 9.7.4).
pub fn all_terms(alloc: Global, here: &Scope, evs: &[Ev]) -> Result<Option<Terms>, ElabFault>
    ensures { Gives (all_terms (scope_seen here.now) [] (map ev_tree evs.now)) result }
{
    let mut all = Vec::new(alloc);
    for ev in evs {
        let Some(terms) = expr_terms(alloc, here, ev)? else {
            return Ok(None);
        };
        add_terms(&mut all, terms.as_slice())?;
    }
    Ok(Some(Sequence::new(all)))
}

// Terms behind others.
fn add_terms(all: &mut Vec<Term>, terms: &[Term]) -> Result<(), NoMemory>
    ensures { OnOk result (all.new.items ≡ all.old.items ++ terms.now) }
{
    all.extend_from_slice(terms)?;
    Ok(())
}

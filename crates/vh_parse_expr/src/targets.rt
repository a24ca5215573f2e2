//! The targets of assignments. Braces of any depth are one row: they take no level and no stack.

ghost use Rattle.std.specs.Prelude.{◌≡◌, ◌-◌, ◌<◌, MatchResult};
ghost use Rattle.vh_ast.specs.Views.{lv_tree};
ghost use Rattle.vh_parse_grammar.specs.declared.stop.Stop.TheVariants.{Memory};
ghost use Rattle.vh_parse_grammar.specs.Reading.{next_is};
ghost use Rattle.vh_parse_grammar.specs.Says.{Passes};
ghost use Rattle.vh_parse_syntax.specs.Tokens.{token_seen};
ghost use Rattle.vh_parse_syntax.specs.Expressions.{expression};
ghost use Rattle.vh_parse_syntax.specs.Names as names;
ghost use Rattle.vh_parse_expr.specs.Pieces.{wanted_turn, behind_turn, rows_of};
ghost use Rattle.vh_parse_expr.specs.Views.{Reads, read_from, tokens_seen, path_tree, row_tree, pieces_seen};

use crate::expr::{Enclosure, path};
use crate::name::Path;
use crate::word::{At, Read, lexeme};
use sqlite_items::Items;
use std::alloc::Global;
use vh_ast::{Lv, LvPart, only};
use vh_base::Place;
use vh_parse_grammar::Stop;
use vh_parse_syntax::{Class, Lexeme};

// How far a row of targets has come: how many braces are open, whether a target has to come, and
// what stands in it.
#[derive(Drop)]
pub(crate) struct Row {
    pub open: usize,
    pub wants: bool,
    pub parts: Items<LvPart>,
}

// A target, or an opening brace. There are never more braces open than tokens, so that the count
// doesn't overflow.
#[tactic(auto, unfolding(vh_parse_syntax::specs::Names::row_turn))]
fn wanted<'t>(
    alloc: Global,
    depth: usize,
    calls: bool,
    row: &mut Row,
    at: At<'t>,
) -> Result<At<'t>, Stop>
    ensures { let part = wanted_turn calls (row_tree row.old) in
        Passes token_seen (row_tree row.new) (read_from depth part at.entry) result }
{
    if at.next_is(Class::Is(Lexeme::LeftBrace)) {
        let rest = at.take(Class::Is(Lexeme::LeftBrace))?;
        let Some(open) = row.open.checked_add(1) else {
            return Err(Stop::Memory);
        };
        row.parts.push(LvPart::Open)?;
        row.open = open;
        row.wants = true;
        return Ok(rest);
    }
    let (path, rest) = path(alloc, depth, Enclosure::Outermost, calls, true, at)?;
    let (name, sel) = path.into_selected(alloc)?;
    row.parts.push(LvPart::Name(name, sel))?;
    row.wants = false;
    Ok(rest)
}

// A comma, or a closing brace.
fn behind<'t>(depth: usize, row: &mut Row, at: At<'t>) -> Result<At<'t>, Stop>
    requires { 0 < row.old.open }
    ensures { let part = behind_turn (row.old.open - 1) (row_tree row.old) in
        Passes token_seen (row_tree row.new) (read_from depth part at.entry) result }
{
    if at.next_is(Class::Is(Lexeme::Comma)) {
        let rest = at.take(Class::Is(Lexeme::Comma))?;
        row.wants = true;
        return Ok(rest);
    }
    let rest = at.take(Class::Is(Lexeme::RightBrace))?;
    row.parts.push(LvPart::Close)?;
    row.open -= 1;
    row.wants = false;
    Ok(rest)
}

// What comes next in a row of targets.
#[tactic(auto, unfolding(vh_parse_syntax::specs::Names::row_turn))]
fn row_turn<'t>(
    alloc: Global,
    depth: usize,
    calls: bool,
    row: &mut Row,
    at: At<'t>,
) -> Result<At<'t>, Stop>
    ensures { let r = row.old in
        let part = names.row_turn (expression calls) r.wants r.open (row_tree r) in
        Passes token_seen (row_tree row.new) (read_from depth part at.entry) result }
{
    if row.wants {
        return wanted(alloc, depth, calls, row, at);
    }
    if row.open == 0 {
        return Err(at.lost());
    }
    behind(depth, row, at)
}

// Whether a row of targets goes on.
fn row_goes(wants: bool, braces: usize, at: At<'_>) -> bool
    ensures { result ≡ next_is (names.row_goes wants braces) (tokens_seen at.entry.tokens.now) }
{
    if wants {
        return at.next_is(Class::Is(Lexeme::LeftBrace)) || at.next_is(Class::Name);
    }
    braces > 0
        && (at.next_is(Class::Is(Lexeme::Comma)) || at.next_is(Class::Is(Lexeme::RightBrace)))
}

// The rest of a row of targets.
fn row_rest<'t>(alloc: Global, depth: usize, calls: bool, first: Row, at: At<'t>) -> Read<'t, Row>
    ensures { Reads row_tree depth (rows_of calls (row_tree first)) at.entry result }
{
    let mut row = first;
    let mut rest = at;
    'row: while row_goes(row.wants, row.open, rest) {
        rest = row_turn(alloc, depth, calls, &mut row, rest)?;
    }
    Ok((row, rest))
}

// What stands in a row of targets, behind its first brace.
#[tactic(auto, unfolding(vh_parse_syntax::specs::Names::braced_rest))]
fn braced_rest<'t>(alloc: Global, depth: usize, calls: bool, at: At<'t>) -> Read<'t, Items<LvPart>>
    ensures { Reads pieces_seen depth (names.braced_rest (expression calls)) at.entry result }
{
    let first = Row {
        open: 1,
        wants: true,
        parts: only(alloc, LvPart::Open)?,
    };
    let (row, rest) = row_rest(alloc, depth, calls, first, at)?;
    if row.wants || row.open > 0 {
        return Err(rest.lost());
    }
    Ok((row.parts, rest))
}

// A target of what stands in its row.
fn row_of(place: Place, parts: Items<LvPart>) -> Lv
    ensures { lv_tree result ≡ names.lv_of place (pieces_seen parts) }
{
    Lv { place, parts }
}

/// `"{" lv { "," lv } "}"`, of any depth: the expressions in its brackets have so many levels left.
#[tactic(auto, unfolding(vh_parse_syntax::specs::Names::braced))]
pub fn braced<'t>(alloc: Global, depth: usize, calls: bool, at: At<'t>) -> Read<'t, Lv>
    ensures { Reads lv_tree depth (names.braced (expression calls)) at.entry result }
{
    let (place, opened) = lexeme(Lexeme::LeftBrace, at)?;
    let (parts, rest) = braced_rest(alloc, depth, calls, opened)?;
    Ok((row_of(place, parts), rest))
}

/// A single target: the path with what could be its select.
pub fn single(alloc: Global, path: Path) -> Result<Lv, Stop>
    ensures { MatchResult result (λ l. lv_tree l ≡ names.single (path_tree path))
        (λ stop. stop ≡ Memory) }
{
    let (name, sel) = path.into_selected(alloc)?;
    let place = name.get().first.id.place;
    let parts = only(alloc, LvPart::Name(name, sel))?;
    Ok(Lv { place, parts })
}

/// `lv = name [ sel ] | "{" lv { "," lv } "}"`: the expressions in its brackets have so many levels
/// left, and calls may stand in them or not.
#[tactic(auto, unfolding(vh_parse_syntax::specs::Names::lv))]
pub fn target<'t>(alloc: Global, depth: usize, calls: bool, at: At<'t>) -> Read<'t, Lv>
    ensures { Reads lv_tree depth (names.lv (expression calls)) at.entry result }
{
    if at.next_is(Class::Is(Lexeme::LeftBrace)) {
        return braced(alloc, depth, calls, at);
    }
    let (path, rest) = path(alloc, depth, Enclosure::Outermost, calls, true, at)?;
    Ok((single(alloc, path)?, rest))
}

//! Expressions: a function for each production, which ensures one equation with the reading of its
//! part. They call each other, a level deeper where the grammar nests them; chains, lists and paths
//! are loops.

ghost use Rattle.std.specs.Prelude.{◌≡◌};
ghost use Rattle.vh_parse_grammar.specs.Part.{after};
ghost use Rattle.vh_parse_grammar.specs.Reading.{next_is};
ghost use Rattle.vh_parse_grammar.specs.Omissions.{omission_at, joined_noted};
ghost use Rattle.vh_parse_grammar.specs.Says.{Says};
ghost use Rattle.vh_ast.specs.Views.{expr_tree, index_by};
ghost use Rattle.vh_parse_syntax.specs.Tokens.{token_seen};
ghost use Rattle.vh_parse_syntax.specs.Tokens.{shows_call, calls_in, named_in, open_systems};
ghost use Rattle.vh_parse_syntax.specs.Parts.{inner_expr, inner_operand, the, comma_list, comma_more};
ghost use Rattle.vh_parse_syntax.specs.Names as names;
ghost use Rattle.vh_parse_syntax.specs.Names.{path_goes};
ghost use Rattle.vh_parse_syntax.specs.Expressions as parts;
ghost use Rattle.vh_parse_expr.specs.Pieces.{expr_at, bracket, barred_path, link_part, repeated_part, branches_part};
ghost use Rattle.vh_parse_expr.specs.Views.{Reads, tokens_seen, read_from, exprs_seen, link_pair, two_exprs, placed_expr, placed_part, part_tree, last_tree, path_tree, stem_tree};

use crate::made;
use crate::made::then_lexeme;
use crate::name::{Last, Path, Stem};
use crate::word::{At, Read, id, lexeme, number, operator, system_name, text, unary_lexeme};
use sqlite_items::{Boxed, Items};
use std::alloc::Global;
use vh_ast::{Binary, Expr, Id, Part};
use vh_base::Place;
use vh_parse_syntax::{Class, Lexeme, Rows};

/// How an expression stands in a construct.
#[derive(Clone, Copy, Debug, PartialEq, Eq)]
pub enum Enclosure {
    /// In another expression: a level deeper.
    Inner,
    /// Anywhere else: on the level of what it stands in.
    Outermost,
}

// Whether calls may stand in the arguments of this system name, where they may stand around it.
fn takes_calls(name: &[u8]) -> bool
    ensures { result ≡ named_in open_systems name.now }
{
    name == b"$display".as_slice()
        || name == b"$write".as_slice()
        || name == b"$finish".as_slice()
        || name == b"$stop".as_slice()
        || name == b"$time".as_slice()
        || name == b"$signed".as_slice()
        || name == b"$unsigned".as_slice()
}

/// Whether calls may stand in the arguments of a system name: not in those of `$strobe`, `$monitor`
/// and the names that users give.
pub fn calls_in(calls: bool, name: &Id) -> bool
    ensures { result ≡ calls_in calls name.now }
{
    calls && takes_calls(name.name.as_slice())
}

// The cursor, where a system name may be next that is a call: where calls are left out, so is it.
fn no_call<'t>(calls: bool, at: At<'t>) -> At<'t>
    ensures tokens { result.tokens.now ≡ at.entry.tokens.now }
    ensures omission { let seen = tokens_seen at.entry.tokens.now in
        result.omission ≡ omission_at seen (next_is (shows_call calls) seen) at.entry.omission }
{
    at.noting(at.tokens, !calls && at.next_is(Class::Call))
}

// An expression inside another one.
#[cycle(expression)]
fn inner<'t>(alloc: Global, depth: usize, calls: bool, at: At<'t>) -> Read<'t, Boxed<Expr>>
    ensures { Reads expr_tree depth (inner_expr calls) at.entry result }
{
    let at = no_call(calls, at);
    if depth == 0 {
        return Err(at.past());
    }
    outermost(alloc, depth - 1, calls, at)
}

// The operand of a unary operator.
#[cycle(expression)]
fn inner_operand<'t>(alloc: Global, depth: usize, calls: bool, at: At<'t>) -> Read<'t, Boxed<Expr>>
    ensures { Reads expr_tree depth (inner_operand calls) at.entry result }
{
    let at = no_call(calls, at);
    if depth == 0 {
        return Err(at.past());
    }
    operand(alloc, depth - 1, calls, at)
}

// An expression that stands so.
#[cycle(expression)]
fn expression_at<'t>(
    alloc: Global,
    depth: usize,
    enclosure: Enclosure,
    calls: bool,
    at: At<'t>,
) -> Read<'t, Boxed<Expr>>
    ensures { Reads expr_tree depth (expr_at enclosure calls) at.entry result }
{
    match enclosure {
        Enclosure::Inner => inner(alloc, depth, calls, at),
        Enclosure::Outermost => outermost(alloc, depth, calls, at),
    }
}

// An expression behind a sign.
#[cycle(expression)]
fn behind<'t>(
    alloc: Global,
    depth: usize,
    enclosure: Enclosure,
    calls: bool,
    lexeme: Lexeme,
    at: At<'t>,
) -> Read<'t, Boxed<Expr>>
    ensures { Reads expr_tree depth (after (the lexeme) (expr_at enclosure calls)) at.entry result }
{
    let next = at.take(Class::Is(lexeme))?;
    expression_at(alloc, depth, enclosure, calls, next)
}

// `[ ":" expr | "+:" expr | "-:" expr ]`, behind the first expression of an `esel`.
#[cycle(expression)]
#[tactic(auto, unfolding(vh_parse_syntax::specs::Names::esel_end))]
fn esel_end<'t>(
    alloc: Global,
    depth: usize,
    enclosure: Enclosure,
    calls: bool,
    first: Boxed<Expr>,
    at: At<'t>,
) -> Read<'t, Part<Expr>>
    ensures { let part = names.esel_end (expr_at enclosure calls) (expr_tree first) in
        Reads part_tree depth part at.entry result }
{
    if at.next_is(Class::Is(Lexeme::Colon)) {
        let (right, rest) = behind(alloc, depth, enclosure, calls, Lexeme::Colon, at)?;
        return Ok((Part::Range(first, right), rest));
    }
    if at.next_is(Class::Is(Lexeme::PlusColon)) {
        let (width, rest) = behind(alloc, depth, enclosure, calls, Lexeme::PlusColon, at)?;
        return Ok((Part::Up(first, width), rest));
    }
    if at.next_is(Class::Is(Lexeme::MinusColon)) {
        let (width, rest) = behind(alloc, depth, enclosure, calls, Lexeme::MinusColon, at)?;
        return Ok((Part::Down(first, width), rest));
    }
    Ok((Part::Index(first), at))
}

// `esel`
#[cycle(expression)]
#[tactic(auto, unfolding(vh_parse_syntax::specs::Names::esel))]
fn esel<'t>(
    alloc: Global,
    depth: usize,
    enclosure: Enclosure,
    calls: bool,
    at: At<'t>,
) -> Read<'t, Part<Expr>>
    ensures { Reads part_tree depth (names.esel (expr_at enclosure calls)) at.entry result }
{
    let (first, more) = expression_at(alloc, depth, enclosure, calls, at)?;
    esel_end(alloc, depth, enclosure, calls, first, more)
}

// `"." ID`
#[tactic(auto, unfolding(vh_parse_syntax::specs::Names::dotted))]
fn dotted<'t>(
    depth: usize,
    enclosure: Enclosure,
    calls: bool,
    stem: Stem,
    index: Option<Boxed<Expr>>,
    at: At<'t>,
) -> Read<'t, Path>
    ensures { let part = names.dotted (expr_at enclosure calls) (index_by expr_tree index)
        (stem_tree stem) in
        Reads path_tree depth part at.entry result }
{
    let behind = at.take(Class::Is(Lexeme::Dot))?;
    let (id, rest) = id(behind)?;
    let stem = stem.then(index, id)?;
    let last = Last::Plain;
    Ok((Path { stem, last }, rest))
}

// `"[" expr "]"`
#[cycle(expression)]
fn index_bracket<'t>(
    alloc: Global,
    depth: usize,
    enclosure: Enclosure,
    calls: bool,
    at: At<'t>,
) -> Read<'t, (Place, Boxed<Expr>)>
    ensures { Reads placed_expr depth (bracket (expr_at enclosure calls)) at.entry result }
{
    let (place, opened) = lexeme(Lexeme::LeftBracket, at)?;
    let (index, closing) = expression_at(alloc, depth, enclosure, calls, opened)?;
    let (index, rest) = then_lexeme(index, Lexeme::RightBracket, closing)?;
    Ok(((place, index), rest))
}

// `"[" esel "]"`
#[cycle(expression)]
fn esel_bracket<'t>(
    alloc: Global,
    depth: usize,
    enclosure: Enclosure,
    calls: bool,
    at: At<'t>,
) -> Read<'t, (Place, Part<Expr>)>
    ensures { Reads placed_part depth (bracket (names.esel (expr_at enclosure calls))) at.entry
        result }
{
    let (place, opened) = lexeme(Lexeme::LeftBracket, at)?;
    let (part, closing) = esel(alloc, depth, enclosure, calls, opened)?;
    let (part, rest) = then_lexeme(part, Lexeme::RightBracket, closing)?;
    Ok(((place, part), rest))
}

// Whether a path goes on.
fn path_goes(sel: bool, last: &Last, at: At<'_>) -> bool
    ensures { result ≡ next_is (path_goes sel (last_tree last.now))
        (tokens_seen at.entry.tokens.now) }
{
    match last {
        Last::Plain => {
            at.next_is(Class::Is(Lexeme::Dot)) || at.next_is(Class::Is(Lexeme::LeftBracket))
        }
        Last::Indexed(..) => {
            at.next_is(Class::Is(Lexeme::Dot))
                || (sel && at.next_is(Class::Is(Lexeme::LeftBracket)))
        }
        Last::Closed(_) => false,
    }
}

// What comes next in a path whose last `ID` stands alone.
#[cycle(expression)]
#[tactic(auto, unfolding(vh_parse_syntax::specs::Names::path_turn, vh_parse_syntax::specs::Names::bracketed, vh_parse_syntax::specs::Names::selected))]
fn plain_turn<'t>(
    alloc: Global,
    depth: usize,
    enclosure: Enclosure,
    calls: bool,
    sel: bool,
    stem: Stem,
    at: At<'t>,
) -> Read<'t, Path>
    ensures { let part = names.path_turn (expr_at enclosure calls) sel names.plain (stem_tree stem)
        in
        Reads path_tree depth part at.entry result }
{
    if at.next_is(Class::Is(Lexeme::Dot)) {
        return dotted(depth, enclosure, calls, stem, None, at);
    }
    if sel {
        let ((place, part), rest) = esel_bracket(alloc, depth, enclosure, calls, at)?;
        return Ok((made::selected(stem, place, part), rest));
    }
    let ((place, index), rest) = index_bracket(alloc, depth, enclosure, calls, at)?;
    Ok((made::indexed(stem, place, index), rest))
}

// What comes next in a path whose last `ID` has an index.
#[cycle(expression)]
#[tactic(auto, unfolding(vh_parse_syntax::specs::Names::path_turn, vh_parse_syntax::specs::Names::reselected))]
fn indexed_turn<'t>(
    alloc: Global,
    depth: usize,
    enclosure: Enclosure,
    calls: bool,
    sel: bool,
    stem: Stem,
    place: Place,
    index: Boxed<Expr>,
    at: At<'t>,
) -> Read<'t, Path>
    ensures { let last = names.indexed place (expr_tree index) in
        let part = names.path_turn (expr_at enclosure calls) sel last (stem_tree stem) in
        Reads path_tree depth part at.entry result }
{
    if !sel || at.next_is(Class::Is(Lexeme::Dot)) {
        return dotted(depth, enclosure, calls, stem, Some(index), at);
    }
    let ((second, part), rest) = esel_bracket(alloc, depth, enclosure, calls, at)?;
    let path = made::reselected(stem, place, index, second, part);
    Ok((path, rest))
}

// What comes next in a path.
#[cycle(expression)]
#[tactic(auto, unfolding(vh_parse_syntax::specs::Names::path_turn, vh_parse_syntax::specs::Names::dotted, vh_parse_syntax::specs::Names::bracketed, vh_parse_syntax::specs::Names::selected, vh_parse_syntax::specs::Names::reselected))]
fn path_turn<'t>(
    alloc: Global,
    depth: usize,
    enclosure: Enclosure,
    calls: bool,
    sel: bool,
    path: Path,
    at: At<'t>,
) -> Read<'t, Path>
    ensures { let part = names.path_turn (expr_at enclosure calls) sel (last_tree path.last)
        (path_tree path) in
        Reads path_tree depth part at.entry result }
{
    let Path { stem, last } = path;
    match last {
        Last::Plain => plain_turn(alloc, depth, enclosure, calls, sel, stem, at),
        Last::Indexed(place, index) => {
            indexed_turn(alloc, depth, enclosure, calls, sel, stem, place, index, at)
        }
        Last::Closed(_) => Err(at.lost()),
    }
}

// The rest of a path.
#[cycle(expression)]
#[tactic(auto, unfolding(vh_parse_syntax::specs::Names::path_rest))]
fn path_rest<'t>(
    alloc: Global,
    depth: usize,
    enclosure: Enclosure,
    calls: bool,
    sel: bool,
    first: Path,
    at: At<'t>,
) -> Read<'t, Path>
    ensures { let part = names.path_rest (expr_at enclosure calls) sel (path_tree first) in
        Reads path_tree depth part at.entry result }
{
    let mut path = first;
    let mut rest = at;
    'path: while path_goes(sel, &path.last, rest) {
        let (longer, behind) = path_turn(alloc, depth, enclosure, calls, sel, path, rest)?;
        path = longer;
        rest = behind;
    }
    Ok((path, rest))
}

/// `name [ sel ]`, or `name` alone: what could be its select is read where `sel` is true. The
/// expressions in its brackets stand so.
#[cycle(expression)]
#[tactic(auto, unfolding(vh_parse_syntax::specs::Names::path))]
pub fn path<'t>(
    alloc: Global,
    depth: usize,
    enclosure: Enclosure,
    calls: bool,
    sel: bool,
    at: At<'t>,
) -> Read<'t, Path>
    ensures { Reads path_tree depth (names.path (expr_at enclosure calls) sel) at.entry result }
{
    let (id, more) = id(at)?;
    path_rest(
        alloc,
        depth,
        enclosure,
        calls,
        sel,
        Path::new(alloc, id),
        more,
    )
}

// Further expressions behind commas.
#[cycle(expression)]
fn more<'t>(
    alloc: Global,
    depth: usize,
    enclosure: Enclosure,
    calls: bool,
    first: Items<Expr>,
    at: At<'t>,
) -> Read<'t, Items<Expr>>
    ensures { let read = read_from depth (comma_more (expr_at enclosure calls)) at.entry in
        Says token_seen exprs_seen (joined_noted (exprs_seen first) read) result }
{
    let mut all = first;
    let mut rest = at;
    'all: while rest.next_is(Class::Is(Lexeme::Comma)) {
        let (next, end) = behind(alloc, depth, enclosure, calls, Lexeme::Comma, rest)?;
        all.push(next.into_inner())?;
        rest = end;
    }
    Ok((all, rest))
}

/// `expr { "," expr }`, each of which stands so.
#[cycle(expression)]
pub fn list<'t>(
    alloc: Global,
    depth: usize,
    enclosure: Enclosure,
    calls: bool,
    at: At<'t>,
) -> Read<'t, Items<Expr>>
    ensures { Reads exprs_seen depth (comma_list (expr_at enclosure calls)) at.entry result }
{
    let (first, rest) = expression_at(alloc, depth, enclosure, calls, at)?;
    more(
        alloc,
        depth,
        enclosure,
        calls,
        made::one(alloc, first)?,
        rest,
    )
}

// `expr { "," expr } ")"`
#[cycle(expression)]
#[tactic(auto, unfolding(vh_parse_syntax::specs::Expressions::arguments))]
fn arguments<'t>(alloc: Global, depth: usize, calls: bool, at: At<'t>) -> Read<'t, Items<Expr>>
    ensures { Reads exprs_seen depth (parts.arguments calls) at.entry result }
{
    let (all, closing) = list(alloc, depth, Enclosure::Inner, calls, at)?;
    let (all, rest) = then_lexeme(all, Lexeme::RightParen, closing)?;
    Ok((all, rest))
}

// A name in an expression: a "(" behind it shows a call, which is left out where calls are.
#[cycle(expression)]
fn name_in<'t>(alloc: Global, depth: usize, calls: bool, at: At<'t>) -> Read<'t, Path>
    ensures { Reads path_tree depth (barred_path calls) at.entry result }
{
    let (path, rest) = path(alloc, depth, Enclosure::Inner, calls, true, at)?;
    let shown = !calls && !path.is_closed() && rest.next_is(Class::Is(Lexeme::LeftParen));
    Ok((path, rest.noting(at.tokens, shown)))
}

// What follows a name: the arguments of a call, where it has no select.
#[cycle(expression)]
#[tactic(auto, unfolding(vh_parse_syntax::specs::Expressions::name_end))]
fn name_end<'t>(
    alloc: Global,
    depth: usize,
    calls: bool,
    path: Path,
    at: At<'t>,
) -> Read<'t, Boxed<Expr>>
    ensures { let p = path_tree path in
        Reads expr_tree depth (parts.name_end (names.is_closed p.last) calls p) at.entry result }
{
    if path.is_closed() || !at.next_is(Class::Is(Lexeme::LeftParen)) {
        return Ok((made::named(alloc, path)?, at));
    }
    let (path, opened) = then_lexeme(path, Lexeme::LeftParen, at)?;
    let name = path.into_name(alloc)?;
    let (arguments, rest) = arguments(alloc, depth, calls, opened)?;
    Ok((made::called(alloc, name, arguments)?, rest))
}

// `name [ sel ] | name "(" expr { "," expr } ")"`
#[cycle(expression)]
#[tactic(auto, unfolding(vh_parse_syntax::specs::Expressions::by_name))]
fn by_name<'t>(alloc: Global, depth: usize, calls: bool, at: At<'t>) -> Read<'t, Boxed<Expr>>
    ensures { Reads expr_tree depth (parts.by_name calls) at.entry result }
{
    let (path, more) = name_in(alloc, depth, calls, at)?;
    name_end(alloc, depth, calls, path, more)
}

// What follows a system name: its arguments, if there are any.
#[cycle(expression)]
#[tactic(auto, unfolding(vh_parse_syntax::specs::Expressions::system_end))]
fn system_end<'t>(
    alloc: Global,
    depth: usize,
    calls: bool,
    id: Id,
    at: At<'t>,
) -> Read<'t, Boxed<Expr>>
    ensures { Reads expr_tree depth (parts.system_end calls id) at.entry result }
{
    if !at.next_is(Class::Is(Lexeme::LeftParen)) {
        return Ok((made::system(alloc, id, Items::new(alloc))?, at));
    }
    let (id, opened) = then_lexeme(id, Lexeme::LeftParen, at)?;
    let calls = calls_in(calls, &id);
    let (arguments, rest) = arguments(alloc, depth, calls, opened)?;
    Ok((made::system(alloc, id, arguments)?, rest))
}

// `SYS [ "(" expr { "," expr } ")" ]`
#[cycle(expression)]
#[tactic(auto, unfolding(vh_parse_syntax::specs::Expressions::by_system))]
fn by_system<'t>(alloc: Global, depth: usize, calls: bool, at: At<'t>) -> Read<'t, Boxed<Expr>>
    ensures { Reads expr_tree depth (parts.by_system calls) at.entry result }
{
    let (id, more) = system_name(no_call(calls, at))?;
    system_end(alloc, depth, calls, id, more)
}

// `"(" expr ")"`
#[cycle(expression)]
#[tactic(auto, unfolding(vh_parse_syntax::specs::Expressions::parens))]
fn parens<'t>(alloc: Global, depth: usize, calls: bool, at: At<'t>) -> Read<'t, Boxed<Expr>>
    ensures { Reads expr_tree depth (parts.parens calls) at.entry result }
{
    let (place, opened) = lexeme(Lexeme::LeftParen, at)?;
    let (expr, closing) = inner(alloc, depth, calls, opened)?;
    let (expr, rest) = then_lexeme(expr, Lexeme::RightParen, closing)?;
    Ok((made::paren(alloc, place, expr)?, rest))
}

// `"{" expr { "," expr } "}" "}"`, behind the count of a replication.
#[cycle(expression)]
fn repeated<'t>(alloc: Global, depth: usize, calls: bool, at: At<'t>) -> Read<'t, Items<Expr>>
    ensures { Reads exprs_seen depth (repeated_part calls) at.entry result }
{
    let opened = at.take(Class::Is(Lexeme::LeftBrace))?;
    let (all, closing) = list(alloc, depth, Enclosure::Inner, calls, opened)?;
    let (all, closed) = then_lexeme(all, Lexeme::RightBrace, closing)?;
    let (all, rest) = then_lexeme(all, Lexeme::RightBrace, closed)?;
    Ok((all, rest))
}

// What follows the first expression in braces.
#[cycle(expression)]
#[tactic(auto, unfolding(vh_parse_syntax::specs::Expressions::braces_end))]
fn braces_end<'t>(
    alloc: Global,
    depth: usize,
    calls: bool,
    place: Place,
    first: Boxed<Expr>,
    at: At<'t>,
) -> Read<'t, Boxed<Expr>>
    ensures { Reads expr_tree depth (parts.braces_end calls place (expr_tree first)) at.entry
        result }
{
    if at.next_is(Class::Is(Lexeme::LeftBrace)) {
        let (parts, rest) = repeated(alloc, depth, calls, at)?;
        return Ok((made::repeat(alloc, place, first, parts)?, rest));
    }
    let all = made::one(alloc, first)?;
    let (all, closing) = more(alloc, depth, Enclosure::Inner, calls, all, at)?;
    let (all, rest) = then_lexeme(all, Lexeme::RightBrace, closing)?;
    Ok((made::concat(alloc, place, all)?, rest))
}

// `"{" expr { "," expr } "}" | "{" expr "{" expr { "," expr } "}" "}"`
#[cycle(expression)]
#[tactic(auto, unfolding(vh_parse_syntax::specs::Expressions::braces))]
fn braces<'t>(alloc: Global, depth: usize, calls: bool, at: At<'t>) -> Read<'t, Boxed<Expr>>
    ensures { Reads expr_tree depth (parts.braces calls) at.entry result }
{
    let (place, opened) = lexeme(Lexeme::LeftBrace, at)?;
    let (first, more) = inner(alloc, depth, calls, opened)?;
    braces_end(alloc, depth, calls, place, first, more)
}

// `prim`
#[cycle(expression)]
#[tactic(auto, unfolding(vh_parse_syntax::specs::Expressions::prim))]
fn prim<'t>(alloc: Global, depth: usize, calls: bool, at: At<'t>) -> Read<'t, Boxed<Expr>>
    ensures { Reads expr_tree depth (parts.prim calls) at.entry result }
{
    if at.next_is(Class::Number) {
        return number(alloc, at);
    }
    if at.next_is(Class::Text) {
        return text(alloc, at);
    }
    if at.next_is(Class::Name) {
        return by_name(alloc, depth, calls, at);
    }
    if at.next_is(Class::System) {
        return by_system(alloc, depth, calls, at);
    }
    if at.next_is(Class::Is(Lexeme::LeftParen)) {
        return parens(alloc, depth, calls, at);
    }
    braces(alloc, depth, calls, at)
}

// A unary operator and its operand.
#[cycle(expression)]
#[tactic(auto, unfolding(vh_parse_syntax::specs::Expressions::unary_operand))]
fn unary<'t>(alloc: Global, depth: usize, calls: bool, at: At<'t>) -> Read<'t, Boxed<Expr>>
    ensures { Reads expr_tree depth (parts.unary_operand calls) at.entry result }
{
    let ((place, operator), behind) = unary_lexeme(at)?;
    let (operand, rest) = inner_operand(alloc, depth, calls, behind)?;
    Ok((made::unary(alloc, place, operator, operand)?, rest))
}

// An operand: a `prim`, or a unary operator and its operand.
#[cycle(expression)]
#[tactic(auto, unfolding(vh_parse_syntax::specs::Expressions::any_operand))]
fn operand<'t>(alloc: Global, depth: usize, calls: bool, at: At<'t>) -> Read<'t, Boxed<Expr>>
    ensures { Reads expr_tree depth (parts.any_operand calls) at.entry result }
{
    if at.next_is(Class::Row(Rows::Unary)) {
        return unary(alloc, depth, calls, at);
    }
    prim(alloc, depth, calls, at)
}

// An operator of the level, and the chain of the level below that stands behind it.
#[cycle(expression)]
fn link<'t>(
    alloc: Global,
    depth: usize,
    level: usize,
    calls: bool,
    at: At<'t>,
) -> Read<'t, (Binary, Boxed<Expr>)>
    ensures { Reads link_pair depth (link_part level calls) at.entry result }
{
    let (operator, behind) = operator(level, at)?;
    let (first, more) = operand(alloc, depth, calls, behind)?;
    let (operand, rest) = chain(alloc, depth, level, calls, first, more)?;
    Ok(((operator, operand), rest))
}

// The rest of a chain of the level, behind its first operand: level by level, beginning with the one
// that binds closest. The level of 11 has all binary operators. Both loops stand in this one function
// since it calls itself through `link`, once for each level that is in use: the stack goes by that.
#[cycle(expression)]
#[tactic(auto, unfolding(vh_parse_syntax::specs::Expressions::chain_tail))]
fn chain<'t>(
    alloc: Global,
    depth: usize,
    level: usize,
    calls: bool,
    first: Boxed<Expr>,
    at: At<'t>,
) -> Read<'t, Boxed<Expr>>
    ensures { Reads expr_tree depth (parts.chain_tail level calls (expr_tree first)) at.entry
        result }
{
    let mut head = first;
    let mut rest = at;
    'levels: for below in 0..level {
        let mut links = Items::new(alloc);
        'links: while rest.next_is(Class::Operator(below)) {
            let ((operator, operand), behind) = link(alloc, depth, below, calls, rest)?;
            made::with_link(alloc, &mut links, made::linked(operator, operand))?;
            rest = behind;
        }
        head = made::chained(alloc, head, links)?;
    }
    Ok((head, rest))
}

// `"?" expr ":" expr`
#[cycle(expression)]
fn branches<'t>(
    alloc: Global,
    depth: usize,
    calls: bool,
    at: At<'t>,
) -> Read<'t, (Boxed<Expr>, Boxed<Expr>)>
    ensures { Reads two_exprs depth (branches_part calls) at.entry result }
{
    let asked = at.take(Class::Is(Lexeme::Question))?;
    let (holds, more) = inner(alloc, depth, calls, asked)?;
    let (fails, rest) = behind(alloc, depth, Enclosure::Inner, calls, Lexeme::Colon, more)?;
    Ok(((holds, fails), rest))
}

// `[ "?" expr ":" expr ]`, behind the test.
#[cycle(expression)]
#[tactic(auto, unfolding(vh_parse_syntax::specs::Expressions::choice_tail))]
fn choice<'t>(
    alloc: Global,
    depth: usize,
    calls: bool,
    test: Boxed<Expr>,
    at: At<'t>,
) -> Read<'t, Boxed<Expr>>
    ensures { Reads expr_tree depth (parts.choice_tail calls (expr_tree test)) at.entry result }
{
    if !at.next_is(Class::Is(Lexeme::Question)) {
        return Ok((test, at));
    }
    let ((holds, fails), rest) = branches(alloc, depth, calls, at)?;
    Ok((made::choice(alloc, test, holds, fails)?, rest))
}

// An expression that stands in no other one.
#[cycle(expression)]
#[tactic(auto, unfolding(vh_parse_syntax::specs::Expressions::expression, vh_parse_syntax::specs::Expressions::expression_tail))]
pub(crate) fn outermost<'t>(
    alloc: Global,
    depth: usize,
    calls: bool,
    at: At<'t>,
) -> Read<'t, Boxed<Expr>>
    ensures { Reads expr_tree depth (parts.expression calls) at.entry result }
{
    let (first, more) = operand(alloc, depth, calls, at)?;
    let (test, more) = chain(alloc, depth, 11, calls, first, more)?;
    choice(alloc, depth, calls, test, more)
}

/// An expression that stands in no other one, with so many levels left below it. It takes stack in
/// the levels, and not in the number of tokens.
pub fn expression<'t>(alloc: Global, depth: usize, calls: bool, at: At<'t>) -> Read<'t, Expr>
    ensures { Reads expr_tree depth (parts.expression calls) at.entry result }
{
    let (expr, rest) = outermost(alloc, depth, calls, at)?;
    Ok((expr.into_inner(), rest))
}

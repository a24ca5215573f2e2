//! Delays and events.

ghost use Rattle.std.specs.Prelude.{◌≡◌, ◌&&◌, Bool, Option, option_map, map};
ghost use Rattle.vh_parse_grammar.specs.Part.{only, after, listed};
ghost use Rattle.vh_parse_grammar.specs.Reading.{next_is};
ghost use Rattle.vh_parse_grammar.specs.Omissions.{joined_noted};
ghost use Rattle.vh_parse_grammar.specs.Says.{Says};
ghost use Rattle.vh_ast.specs.Views.{delay_value_tree, delay_tree, ev_tree, event_tree};
ghost use Rattle.vh_parse_syntax.specs.declared.lexeme.Lexeme.TheVariants as lexemes;
ghost use Rattle.vh_parse_syntax.specs.Tokens.{token_seen, is};
ghost use Rattle.vh_parse_syntax.specs.Statements as parts;
ghost use Rattle.vh_parse_syntax.specs.Statements.{is_expr, is_or, ev};
ghost use Rattle.vh_parse_expr.specs.Views.{Reads, read_from, tokens_seen};
ghost use Rattle.vh_parse_decl.specs.Pieces.{delay_front, delay_behind, more_evs, ev_list};

use crate::rows::{delay_number, edge};
use crate::values::behind;
use sqlite_items::{Boxed, Items};
use std::alloc::Global;
use vh_ast::{Delay, DelayValue, Ev, Event, only};
use vh_parse_expr::{At, Enclosure, Read, expression, id, lexeme, path, then_lexeme};
use vh_parse_syntax::{Class, Group, Lexeme, Rows};

// What follows the sign of a delay, up to the bracket that ends it.
#[tactic(auto, unfolding(vh_parse_syntax::specs::Statements::delay_value))]
fn delay_value<'t>(alloc: Global, depth: usize, at: At<'t>) -> Read<'t, DelayValue>
    ensures { Reads delay_value_tree depth parts.delay_value at.entry result }
{
    if at.next_is(Class::Number) {
        return delay_number(at);
    }
    if at.next_is(Class::Name) {
        let (id, rest) = id(at)?;
        return Ok((DelayValue::Id(id), rest));
    }
    let (value, rest) = behind(alloc, depth, true, Lexeme::LeftParen, at)?;
    Ok((DelayValue::Expr(value), rest))
}

// Whether a bracket is open.
fn is_expr(value: &DelayValue) -> bool
    ensures { result ≡ is_expr (delay_value_tree value.now) }
{
    match value {
        DelayValue::Number(_) => false,
        DelayValue::Id(_) => false,
        DelayValue::Expr(_) => true,
    }
}

// The bracket, where it was opened.
#[tactic(auto, unfolding(vh_parse_syntax::specs::Statements::delay_end))]
fn delay_end<'t>(depth: usize, delay: Delay, at: At<'t>) -> Read<'t, Delay>
    ensures { let d = delay_tree delay in
        Reads delay_tree depth (parts.delay_end (is_expr d.value) d) at.entry result }
{
    if !is_expr(&delay.value) {
        return Ok((delay, at));
    }
    let (delay, rest) = then_lexeme(delay, Lexeme::RightParen, at)?;
    Ok((delay, rest))
}

// Does what stands behind the value show a delay with more expressions?
fn shows_more<'t>(value: &DelayValue, behind: At<'t>) -> bool
    ensures { result ≡ (is_expr (delay_value_tree value.now)
        && next_is (is lexemes.Comma) (tokens_seen behind.entry.tokens.now)) }
{
    is_expr(value) && behind.next_is(Class::Is(Lexeme::Comma))
}

// A delay up to the bracket that ends it: a comma there shows one with more expressions.
fn delay_front<'t>(alloc: Global, depth: usize, at: At<'t>) -> Read<'t, Delay>
    ensures { Reads delay_tree depth delay_front at.entry result }
{
    let (place, more) = lexeme(Lexeme::Hash, at)?;
    let (value, rest) = delay_value(alloc, depth, more)?;
    let shown = shows_more(&value, rest);
    let delay = Delay { place, value };
    Ok((delay, rest.noting(at.tokens, shown)))
}

/// `delay = "#" ( NUMBER | ID | "(" expr ")" )` (IEEE 1364-2005, A.2.2.3)
#[tactic(auto, unfolding(vh_parse_syntax::specs::Statements::delay))]
pub fn delay<'t>(alloc: Global, depth: usize, at: At<'t>) -> Read<'t, Delay>
    ensures { Reads delay_tree depth parts.delay at.entry result }
{
    let (front, more) = delay_front(alloc, depth, at)?;
    delay_end(depth, front, more)
}

/// `delay`, in a box.
pub fn boxed_delay<'t>(alloc: Global, depth: usize, at: At<'t>) -> Read<'t, Boxed<Delay>>
    ensures { Reads delay_tree depth parts.delay at.entry result }
{
    let (delay, rest) = delay(alloc, depth, at)?;
    Ok((Boxed::new(alloc, delay)?, rest))
}

/// `[ delay ]`
pub fn written_delay<'t>(alloc: Global, depth: usize, at: At<'t>) -> Read<'t, Option<Boxed<Delay>>>
    ensures { Reads (option_map delay_tree) depth delay_behind at.entry result }
{
    if !at.next_is(Class::Is(Lexeme::Hash)) {
        return Ok((None, at));
    }
    let (delay, rest) = boxed_delay(alloc, depth, at)?;
    Ok((Some(delay), rest))
}

// `ev`
#[tactic(auto, unfolding(vh_parse_syntax::specs::Statements::ev))]
fn ev<'t>(alloc: Global, depth: usize, at: At<'t>) -> Read<'t, Ev>
    ensures { Reads ev_tree depth ev at.entry result }
{
    if at.next_is(Class::Row(Rows::Edge)) {
        let ((place, edge), more) = edge(at)?;
        let (expr, rest) = expression(alloc, depth, false, more)?;
        let edge = Some(edge);
        return Ok((Ev { place, edge, expr }, rest));
    }
    let (expr, rest) = expression(alloc, depth, false, at)?;
    let place = expr.place;
    let edge = None;
    Ok((Ev { place, edge, expr }, rest))
}

// `( "or" | "," ) ev`
fn next_ev<'t>(alloc: Global, depth: usize, at: At<'t>) -> Read<'t, Ev>
    ensures { Reads ev_tree depth (after (only is_or) ev) at.entry result }
{
    let next = at.take(Class::Among(Group::Or))?;
    ev(alloc, depth, next)
}

// `{ ( "or" | "," ) ev }`
fn further_evs<'t>(alloc: Global, depth: usize, first: Items<Ev>, at: At<'t>) -> Read<'t, Items<Ev>>
    ensures { let read = read_from depth more_evs at.entry in
        Says token_seen (map ev_tree) (joined_noted (map ev_tree first) read) result }
{
    let mut all = first;
    let mut rest = at;
    'all: while rest.next_is(Class::Among(Group::Or)) {
        let (next, end) = next_ev(alloc, depth, rest)?;
        all.push(next)?;
        rest = end;
    }
    Ok((all, rest))
}

// `ev { ( "or" | "," ) ev }`
fn evs<'t>(alloc: Global, depth: usize, at: At<'t>) -> Read<'t, Items<Ev>>
    ensures { Reads (map ev_tree) depth ev_list at.entry result }
{
    let (first, rest) = ev(alloc, depth, at)?;
    let all = only(alloc, first)?;
    further_evs(alloc, depth, all, rest)
}

// `"*" ")" | ev { ( "or" | "," ) ev } ")"`
#[tactic(auto, unfolding(vh_parse_syntax::specs::Statements::event_list))]
fn event_list<'t>(alloc: Global, depth: usize, at: At<'t>) -> Read<'t, Event>
    ensures { Reads event_tree depth parts.event_list at.entry result }
{
    if at.next_is(Class::Is(Lexeme::Star)) {
        let closing = at.take(Class::Is(Lexeme::Star))?;
        let rest = closing.take(Class::Is(Lexeme::RightParen))?;
        return Ok((Event::Any, rest));
    }
    let (all, closing) = evs(alloc, depth, at)?;
    let (all, rest) = then_lexeme(all, Lexeme::RightParen, closing)?;
    Ok((Event::List(all), rest))
}

/// What stands behind an `@`: `"*" | "(" "*" ")" | name | "(" ev { ( "or" | "," ) ev } ")"` (IEEE
/// 1364-2005, A.6.5)
#[tactic(auto, unfolding(vh_parse_syntax::specs::Statements::event))]
pub fn event<'t>(alloc: Global, depth: usize, at: At<'t>) -> Read<'t, Event>
    ensures { Reads event_tree depth parts.event at.entry result }
{
    if at.next_is(Class::Is(Lexeme::Star)) {
        let rest = at.take(Class::Is(Lexeme::Star))?;
        return Ok((Event::Any, rest));
    }
    if at.next_is(Class::Name) {
        let (path, rest) = path(alloc, depth, Enclosure::Outermost, false, false, at)?;
        return Ok((Event::Name(path.into_name(alloc)?), rest));
    }
    let opened = at.take(Class::Is(Lexeme::LeftParen))?;
    event_list(alloc, depth, opened)
}

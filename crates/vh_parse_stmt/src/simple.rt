//! Statements in which none stands.

ghost use Rattle.std.specs.Prelude.{◌≡◌, option_map, IfOk};
ghost use Rattle.vh_parse_grammar.specs.Reading.{next_is};
ghost use Rattle.vh_parse_grammar.specs.Omissions.{omission_at};
ghost use Rattle.vh_parse_grammar.specs.Says.{Says};
ghost use Rattle.vh_ast.specs.Views.{delay_tree, lv_tree, stmt_tree};
ghost use Rattle.vh_parse_syntax.specs.Tokens.{token_seen};
ghost use Rattle.vh_parse_syntax.specs.Names as names;
ghost use Rattle.vh_parse_syntax.specs.Statements as parts;
ghost use Rattle.vh_parse_expr.specs.Views.{Reads, read_from, tokens_seen, path_tree, exprs_seen};
ghost use Rattle.vh_parse_stmt.specs.Pieces.{lexeme_of_assignment, assigned_part, written_arguments, barred_name, last_branches};
ghost use Rattle.vh_parse_stmt.specs.Views.{value_pair};

use crate::made;
use crate::rows::{assign_word, force_word, release_word};
use crate::system::system;
use sqlite_items::{Boxed, Items};
use std::alloc::Global;
use vh_ast::{AssignWord, Delay, Expr, Lv, Simple, Stmt};
use vh_parse_decl::{ended, list_in_parens, set, written_delay};
use vh_parse_expr::{At, Enclosure, Path, Read, braced, lexeme, path, single, target, then_lexeme};
use vh_parse_syntax::{Class, Group, Lexeme, Rows};

// `( "=" | "<=" )`: a nonblocking one is left out in a function.
fn assignment_lexeme<'t>(inside: bool, at: At<'t>) -> Read<'t, AssignWord>
    ensures { Reads (λ w. w) 0 (lexeme_of_assignment inside) at.entry result }
{
    let shown = inside && at.next_is(Class::Is(Lexeme::LessEqual));
    assign_word(at.noting(at.tokens, shown))
}

// The cursor, where a delay may be next that is left out: an `@`, and any delay in a function.
fn no_delay<'t>(inside: bool, at: At<'t>) -> At<'t>
    ensures tokens { result.tokens.now ≡ at.entry.tokens.now }
    ensures omission { let seen = tokens_seen at.entry.tokens.now in
        result.omission ≡ omission_at seen (next_is (parts.shows_delay inside) seen) at.entry.omission }
{
    let shown = at.next_is(Class::Is(Lexeme::At))
        || (inside && at.next_is(Class::Is(Lexeme::Hash)));
    at.noting(at.tokens, shown)
}

// `[ delay ] expr ";"`
fn assigned<'t>(
    alloc: Global,
    depth: usize,
    inside: bool,
    at: At<'t>,
) -> Read<'t, (Option<Boxed<Delay>>, Expr)>
    ensures { Reads value_pair depth (assigned_part inside) at.entry result }
{
    let (delay, more) = written_delay(alloc, depth, no_delay(inside, at))?;
    let (value, rest) = ended(alloc, depth, more)?;
    Ok(((delay, value), rest))
}

// `( "=" | "<=" ) [ delay ] expr ";"`, behind a target.
#[tactic(auto, unfolding(vh_parse_syntax::specs::Statements::assignment))]
fn assignment<'t>(
    alloc: Global,
    depth: usize,
    inside: bool,
    target: Lv,
    at: At<'t>,
) -> Read<'t, Boxed<Stmt>>
    ensures { Reads stmt_tree depth (parts.assignment inside (lv_tree target)) at.entry result }
{
    let (word, more) = assignment_lexeme(inside, at)?;
    let ((delay, value), rest) = assigned(alloc, depth, inside, more)?;
    Ok((made::assign(alloc, target, word, delay, value)?, rest))
}

// `[ "(" expr { "," expr } ")" ]`
fn arguments<'t>(alloc: Global, depth: usize, at: At<'t>) -> Read<'t, Option<Items<Expr>>>
    ensures { Reads (option_map exprs_seen) depth written_arguments at.entry result }
{
    if !at.next_is(Class::Is(Lexeme::LeftParen)) {
        return Ok((None, at));
    }
    let (all, rest) = list_in_parens(alloc, depth, at)?;
    Ok((Some(all), rest))
}

// What was read, and `[ "(" expr { "," expr } ")" ]` behind it. What is held is let go in this one
// function where there are no such arguments, whatever it is.
fn then_arguments<'t, T: Drop>(
    alloc: Global,
    depth: usize,
    tree: T,
    at: At<'t>,
) -> Read<'t, (T, Option<Items<Expr>>)>
    ensures tree { IfOk result (λ read. read.0.0 ≡ tree) }
    ensures arguments { let read = read_from depth written_arguments at.entry in
        Says token_seen (λ pair. option_map exprs_seen pair.1) read result }
{
    let (arguments, rest) = arguments(alloc, depth, at)?;
    Ok(((tree, arguments), rest))
}

// `[ "(" expr { "," expr } ")" ] ";"`, behind a name.
#[tactic(auto, unfolding(vh_parse_syntax::specs::Statements::task_call))]
fn task_call<'t>(alloc: Global, depth: usize, path: Path, at: At<'t>) -> Read<'t, Boxed<Stmt>>
    ensures { Reads stmt_tree depth (parts.task_call (path_tree path)) at.entry result }
{
    let (both, more) = then_arguments(alloc, depth, path, at)?;
    let ((path, arguments), rest) = then_lexeme(both, Lexeme::Semicolon, more)?;
    Ok((made::task_call(alloc, path, arguments)?, rest))
}

// What follows a name with which a statement begins.
#[tactic(auto, unfolding(vh_parse_syntax::specs::Statements::name_stmt))]
fn name_stmt<'t>(
    alloc: Global,
    depth: usize,
    inside: bool,
    path: Path,
    at: At<'t>,
) -> Read<'t, Boxed<Stmt>>
    ensures { let p = path_tree path in
        Reads stmt_tree depth (parts.name_stmt inside (names.is_closed p.last) p) at.entry result }
{
    if path.is_closed() || at.next_is(Class::Row(Rows::Assign)) {
        let target = single(alloc, path)?;
        return assignment(alloc, depth, inside, target, at);
    }
    task_call(alloc, depth, path, at)
}

// A name with which a statement begins: what is behind it shows a task call, which is left out in a
// function.
fn first_name<'t>(alloc: Global, depth: usize, inside: bool, at: At<'t>) -> Read<'t, Path>
    ensures { Reads path_tree depth (barred_name inside) at.entry result }
{
    let (path, rest) = path(alloc, depth, Enclosure::Outermost, true, true, at)?;
    let shown = inside && !path.is_closed() && rest.next_is(Class::Among(Group::Task));
    Ok((path, rest.noting(at.tokens, shown)))
}

// `lv ( "=" | "<=" ) .. | name [ "(" .. ")" ] ";"`, where a name is first.
#[tactic(auto, unfolding(vh_parse_syntax::specs::Statements::by_name_stmt))]
pub(crate) fn by_name<'t>(
    alloc: Global,
    depth: usize,
    inside: bool,
    at: At<'t>,
) -> Read<'t, Boxed<Stmt>>
    ensures { Reads stmt_tree depth (parts.by_name_stmt inside) at.entry result }
{
    let (path, more) = first_name(alloc, depth, inside, at)?;
    name_stmt(alloc, depth, inside, path, more)
}

// `lv ( "=" | "<=" ) ..`, where a brace is first.
#[tactic(auto, unfolding(vh_parse_syntax::specs::Statements::by_brace_stmt))]
pub(crate) fn by_brace<'t>(
    alloc: Global,
    depth: usize,
    inside: bool,
    at: At<'t>,
) -> Read<'t, Boxed<Stmt>>
    ensures { Reads stmt_tree depth (parts.by_brace_stmt inside) at.entry result }
{
    let (target, more) = braced(alloc, depth, true, at)?;
    assignment(alloc, depth, inside, target, more)
}

// `";"`
#[tactic(auto, unfolding(vh_parse_syntax::specs::Statements::empty_stmt))]
pub(crate) fn empty<'t>(alloc: Global, depth: usize, at: At<'t>) -> Read<'t, Boxed<Stmt>>
    ensures { Reads stmt_tree depth parts.empty_stmt at.entry result }
{
    let (place, rest) = lexeme(Lexeme::Semicolon, at)?;
    Ok((made::simple(alloc, place, Simple::Empty)?, rest))
}

// `"->" name ";"`
#[tactic(auto, unfolding(vh_parse_syntax::specs::Statements::trigger_stmt))]
fn trigger<'t>(alloc: Global, depth: usize, at: At<'t>) -> Read<'t, Boxed<Stmt>>
    ensures { Reads stmt_tree depth parts.trigger_stmt at.entry result }
{
    let (place, more) = lexeme(Lexeme::Arrow, at)?;
    let (path, more) = path(alloc, depth, Enclosure::Outermost, true, false, more)?;
    let (path, rest) = then_lexeme(path, Lexeme::Semicolon, more)?;
    let form = Simple::Trigger(path.into_name(alloc)?);
    Ok((made::simple(alloc, place, form)?, rest))
}

// `"disable" name ";"`
#[tactic(auto, unfolding(vh_parse_syntax::specs::Statements::disable_stmt))]
fn disable<'t>(alloc: Global, depth: usize, at: At<'t>) -> Read<'t, Boxed<Stmt>>
    ensures { Reads stmt_tree depth parts.disable_stmt at.entry result }
{
    let (place, more) = lexeme(Lexeme::Disable, at)?;
    let (path, more) = path(alloc, depth, Enclosure::Outermost, true, false, more)?;
    let (path, rest) = then_lexeme(path, Lexeme::Semicolon, more)?;
    let form = Simple::Disable(path.into_name(alloc)?);
    Ok((made::simple(alloc, place, form)?, rest))
}

// `( "force" | "assign" ) lv "=" expr ";"`
#[tactic(auto, unfolding(vh_parse_syntax::specs::Statements::force_stmt))]
fn force<'t>(alloc: Global, depth: usize, at: At<'t>) -> Read<'t, Boxed<Stmt>>
    ensures { Reads stmt_tree depth parts.force_stmt at.entry result }
{
    let ((place, word), more) = force_word(at)?;
    let (set, more) = set(alloc, depth, false, more)?;
    let (set, rest) = then_lexeme(set, Lexeme::Semicolon, more)?;
    Ok((made::force(alloc, place, word, set)?, rest))
}

// `( "release" | "deassign" ) lv ";"`
#[tactic(auto, unfolding(vh_parse_syntax::specs::Statements::release_stmt))]
fn release<'t>(alloc: Global, depth: usize, at: At<'t>) -> Read<'t, Boxed<Stmt>>
    ensures { Reads stmt_tree depth parts.release_stmt at.entry result }
{
    let ((place, word), more) = release_word(at)?;
    let (target, more) = target(alloc, depth, true, more)?;
    let (target, rest) = then_lexeme(target, Lexeme::Semicolon, more)?;
    Ok((
        made::simple(alloc, place, Simple::Release(word, target))?,
        rest,
    ))
}

// The statements in which none stands and which begin with a word, an arrow or a system name.
pub(crate) fn last_branches<'t>(alloc: Global, depth: usize, at: At<'t>) -> Read<'t, Boxed<Stmt>>
    ensures { Reads stmt_tree depth last_branches at.entry result }
{
    if at.next_is(Class::Is(Lexeme::Arrow)) {
        return trigger(alloc, depth, at);
    }
    if at.next_is(Class::Is(Lexeme::Disable)) {
        return disable(alloc, depth, at);
    }
    if at.next_is(Class::Row(Rows::Force)) {
        return force(alloc, depth, at);
    }
    if at.next_is(Class::Row(Rows::Release)) {
        return release(alloc, depth, at);
    }
    system(alloc, depth, at)
}

//! Calls of system tasks.

ghost use Rattle.std.specs.Prelude.{Bool, Option, option_map, map};
ghost use Rattle.vh_ast.specs.Expressions as trees;
ghost use Rattle.vh_ast.specs.Views.{expr_tree, stmt_tree};
ghost use Rattle.vh_parse_syntax.specs.Statements as parts;
ghost use Rattle.vh_parse_syntax.specs.Statements.{slot, slots};
ghost use Rattle.vh_parse_expr.specs.Views.{Reads};
ghost use Rattle.vh_parse_stmt.specs.Pieces.{any_slots, bracketed_slots};
ghost use Rattle.vh_parse_stmt.specs.Views.{slots_seen};
ghost use Rattle.vh_parse_stmt.specs.Conditions.{slot_advances};

use crate::made;
use sqlite_items::{Boxed, Items};
use std::alloc::Global;
use vh_ast::{Expr, Id, Simple, Stmt};
use vh_parse_decl::{Listed, list};
use vh_parse_expr::{At, Read, calls_in, expression, system_name, then_lexeme};
use vh_parse_syntax::{Class, Lexeme, Start};

// `[ expr ]`
#[tactic(auto, unfolding(vh_parse_syntax::specs::Statements::slot))]
fn slot<'t>(alloc: Global, depth: usize, calls: bool, at: At<'t>) -> Read<'t, Option<Expr>>
    ensures { Reads (option_map expr_tree) depth (slot calls) at.entry result }
{
    if !at.next_is(Class::Begins(Start::Expression)) {
        return Ok((None, at));
    }
    let (expr, rest) = expression(alloc, depth, calls, at)?;
    Ok((Some(expr), rest))
}

// Arguments of a system task, in which calls may stand or not.
struct Arguments;

impl Listed for Arguments {
    type Item = Option<Expr>;

    ghost Tree = { Option trees.ExprTree };

    ghost view = { option_map expr_tree };

    ghost part = { slot };

    ghost advances = { slot_advances };

    fn read<'t>(alloc: Global, depth: usize, form: bool, at: At<'t>) -> Read<'t, Option<Expr>> {
        slot(alloc, depth, form, at)
    }
}

// `[ [ expr ] { "," [ expr ] } ]`: nothing is no argument.
fn any_slots<'t>(
    alloc: Global,
    depth: usize,
    calls: bool,
    at: At<'t>,
) -> Read<'t, Items<Option<Expr>>>
    ensures { Reads slots_seen depth (any_slots calls) at.entry result }
{
    if !at.next_is(Class::Begins(Start::Slots)) {
        return Ok((Items::new(alloc), at));
    }
    list::<Arguments>(alloc, depth, calls, at)
}

// `"(" [ expr ] { "," [ expr ] } ")"`
fn bracketed_slots<'t>(
    alloc: Global,
    depth: usize,
    calls: bool,
    at: At<'t>,
) -> Read<'t, Items<Option<Expr>>>
    ensures { Reads slots_seen depth (bracketed_slots calls) at.entry result }
{
    let opened = at.take(Class::Is(Lexeme::LeftParen))?;
    let (all, closing) = any_slots(alloc, depth, calls, opened)?;
    let (all, rest) = then_lexeme(all, Lexeme::RightParen, closing)?;
    Ok((all, rest))
}

// `[ "(" [ expr ] { "," [ expr ] } ")" ]`
#[tactic(auto, unfolding(vh_parse_syntax::specs::Statements::slots))]
fn slots<'t>(alloc: Global, depth: usize, calls: bool, at: At<'t>) -> Read<'t, Items<Option<Expr>>>
    ensures { Reads slots_seen depth (slots calls) at.entry result }
{
    if !at.next_is(Class::Is(Lexeme::LeftParen)) {
        return Ok((Items::new(alloc), at));
    }
    bracketed_slots(alloc, depth, calls, at)
}

// `[ "(" [ expr ] { "," [ expr ] } ")" ] ";"`, behind a system name.
#[tactic(auto, unfolding(vh_parse_syntax::specs::Statements::system_task))]
fn system_task<'t>(alloc: Global, depth: usize, id: Id, at: At<'t>) -> Read<'t, Boxed<Stmt>>
    ensures { Reads stmt_tree depth (parts.system_task id) at.entry result }
{
    let calls = calls_in(true, &id);
    let (all, more) = slots(alloc, depth, calls, at)?;
    let (all, rest) = then_lexeme(all, Lexeme::Semicolon, more)?;
    let place = id.place;
    Ok((made::simple(alloc, place, Simple::System(id, all))?, rest))
}

// `SYS [ "(" [ expr ] { "," [ expr ] } ")" ] ";"`
#[tactic(auto, unfolding(vh_parse_syntax::specs::Statements::system_stmt))]
pub(crate) fn system<'t>(alloc: Global, depth: usize, at: At<'t>) -> Read<'t, Boxed<Stmt>>
    ensures { Reads stmt_tree depth parts.system_stmt at.entry result }
{
    let (id, more) = system_name(at)?;
    system_task(alloc, depth, id, more)
}

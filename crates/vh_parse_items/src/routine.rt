//! Tasks and functions, and processes.

ghost use Rattle.std.specs.Prelude.{Option, option_map};
ghost use Rattle.vh_ast.specs.Views.{result_tree, item_tree};
ghost use Rattle.vh_parse_syntax.specs.Items as parts;
ghost use Rattle.vh_parse_syntax.specs.Items.{process_rows};
ghost use Rattle.vh_parse_syntax.specs.Parts;
ghost use Rattle.vh_parse_expr.specs.Views.{Reads};
ghost use Rattle.vh_parse_items.specs.Views.{routine_tree};

use crate::made;
use sqlite_items::{Boxed, Items};
use std::alloc::Global;
use vh_ast::{Id, Item, Local, ProcessWord, ResultType, Stmt, Targ};
use vh_base::Place;
use vh_parse_decl::data_type;
use vh_parse_expr::{At, Read, id, lexeme, placed_row, then_lexeme};
use vh_parse_parts::{locals, maybe_targs};
use vh_parse_stmt::inner_statement;
use vh_parse_syntax::tables::PROCESS;
use vh_parse_syntax::{Class, Group, Lexeme};

// A task or function, but for the words around it.
#[derive(Drop)]
pub(crate) struct RoutineParts {
    pub id: Id,
    pub targs: Items<Targ>,
    pub locals: Items<Local>,
    pub body: Boxed<Stmt>,
}

// `ID [ "(" targs ")" ] ";" { targ ";" | decl } stmt`: a statement in a function, or in a task.
#[tactic(auto, unfolding(vh_parse_syntax::specs::Items::routine))]
fn routine<'t>(
    alloc: Global,
    depth: usize,
    inside: bool,
    at: At<'t>,
) -> Read<'t, Boxed<RoutineParts>>
    ensures { Reads routine_tree depth (parts.routine inside) at.entry result }
{
    let (id, more) = id(at)?;
    let (targs, more) = maybe_targs(alloc, depth, more)?;
    let (targs, more) = then_lexeme(targs, Lexeme::Semicolon, more)?;
    let (locals, more) = locals(alloc, depth, more)?;
    let (body, rest) = inner_statement(alloc, depth, inside, more)?;
    let routine = RoutineParts {
        id,
        targs,
        locals,
        body,
    };
    Ok((Boxed::new(alloc, routine)?, rest))
}

// `"task" .. "endtask"`
#[tactic(auto, unfolding(vh_parse_syntax::specs::Items::task_item))]
pub(crate) fn task_item<'t>(alloc: Global, depth: usize, at: At<'t>) -> Read<'t, Boxed<Item>>
    ensures { Reads item_tree depth parts.task_item at.entry result }
{
    let (place, more) = lexeme(Lexeme::Task, at)?;
    let (routine, more) = routine(alloc, depth, false, more)?;
    let (routine, rest) = then_lexeme(routine, Lexeme::Endtask, more)?;
    Ok((made::task(alloc, place, routine)?, rest))
}

// `[ "integer" | "time" | type ]`, where no type is a type that is written.
#[tactic(auto, unfolding(vh_parse_syntax::specs::Items::result_type))]
fn result_type<'t>(alloc: Global, depth: usize, at: At<'t>) -> Read<'t, Option<Boxed<ResultType>>>
    ensures { Reads (option_map result_tree) depth parts.result_type at.entry result }
{
    if at.next_is(Class::Is(Lexeme::Integer)) {
        let rest = at.take(Class::Is(Lexeme::Integer))?;
        return Ok((Some(Boxed::new(alloc, ResultType::Integer)?), rest));
    }
    if at.next_is(Class::Is(Lexeme::Time)) {
        let rest = at.take(Class::Is(Lexeme::Time))?;
        return Ok((Some(Boxed::new(alloc, ResultType::Time)?), rest));
    }
    if at.next_is(Class::Among(Group::Type)) {
        let (data_type, rest) = data_type(alloc, depth, at)?;
        return Ok((Some(Boxed::new(alloc, ResultType::Data(data_type))?), rest));
    }
    Ok((None, at))
}

// `"function" .. "endfunction"`
#[tactic(auto, unfolding(vh_parse_syntax::specs::Items::function_item))]
pub(crate) fn function_item<'t>(alloc: Global, depth: usize, at: At<'t>) -> Read<'t, Boxed<Item>>
    ensures { Reads item_tree depth parts.function_item at.entry result }
{
    let (place, more) = lexeme(Lexeme::Function, at)?;
    let (result_type, more) = result_type(alloc, depth, more)?;
    let (routine, more) = routine(alloc, depth, true, more)?;
    let (routine, rest) = then_lexeme(routine, Lexeme::Endfunction, more)?;
    Ok((made::function(alloc, place, result_type, routine)?, rest))
}

// `"initial" | "always"`
fn process_word<'t>(at: At<'t>) -> Read<'t, (Place, ProcessWord)>
    ensures { Reads (λ w. w) 0 (Parts.placed_row process_rows) at.entry result }
{
    placed_row(&PROCESS, at)
}

// `( "initial" | "always" ) stmt`
#[tactic(auto, unfolding(vh_parse_syntax::specs::Items::process_item))]
pub(crate) fn process_item<'t>(alloc: Global, depth: usize, at: At<'t>) -> Read<'t, Boxed<Item>>
    ensures { Reads item_tree depth parts.process_item at.entry result }
{
    let (word, more) = process_word(at)?;
    let (body, rest) = inner_statement(alloc, depth, false, more)?;
    Ok((made::process(alloc, word, body)?, rest))
}

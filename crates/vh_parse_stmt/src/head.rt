//! What stands in front of the statement inside another one.

ghost use Rattle.std.specs.Prelude.{Bool, Option, option_map, map};
ghost use Rattle.vh_parse_grammar.specs.Omissions.{joined_noted};
ghost use Rattle.vh_parse_grammar.specs.Says.{Says};
ghost use Rattle.vh_ast.specs.Views.{decl_tree, event_tree};
ghost use Rattle.vh_parse_syntax.specs.Parts.{in_parens};
ghost use Rattle.vh_parse_syntax.specs.Statements as parts;
ghost use Rattle.vh_parse_syntax.specs.Statements.{for_head, naming};
ghost use Rattle.vh_parse_expr.specs.Views.{Reads};
ghost use Rattle.vh_parse_stmt.specs.Pieces.{decls, named_decls, values_part};
ghost use Rattle.vh_parse_stmt.specs.Views.{head_tree, naming_tree, values_tree};

use sqlite_items::{Boxed, Items};
use std::alloc::Global;
use vh_ast::{Decl, Event, Expr, Id, Set, only};
use vh_base::Place;
use vh_parse_decl::{Exprs, declaration, event, further, set};
use vh_parse_expr::{At, Read, expression, id, then_lexeme};
use vh_parse_syntax::{Class, Group, Lexeme};

// What stands in the brackets of a `for`.
#[derive(Drop)]
pub(crate) struct ForHead {
    pub start: Boxed<Set>,
    pub test: Boxed<Expr>,
    pub step: Boxed<Set>,
}

// The name of a block, with what is declared in it.
#[derive(Drop)]
pub(crate) struct Naming {
    pub id: Id,
    pub decls: Items<Decl>,
}

// For which values a statement of a case stands, and where the first one does.
#[derive(Drop)]
pub(crate) struct Values {
    pub place: Place,
    pub all: Items<Expr>,
}

// What stands behind an `@`, in a box.
pub(crate) fn boxed_event<'t>(alloc: Global, depth: usize, at: At<'t>) -> Read<'t, Boxed<Event>>
    ensures { Reads event_tree depth parts.event at.entry result }
{
    let (event, rest) = event(alloc, depth, at)?;
    Ok((Boxed::new(alloc, event)?, rest))
}

// `lv "=" expr ";" expr ";" lv "=" expr`
#[tactic(auto, unfolding(vh_parse_syntax::specs::Statements::for_head))]
fn turns<'t>(alloc: Global, depth: usize, at: At<'t>) -> Read<'t, ForHead>
    ensures { Reads head_tree depth for_head at.entry result }
{
    let (start, more) = set(alloc, depth, true, at)?;
    let (start, more) = then_lexeme(start, Lexeme::Semicolon, more)?;
    let start = Boxed::new(alloc, start)?;
    let (test, more) = expression(alloc, depth, true, more)?;
    let (test, more) = then_lexeme(test, Lexeme::Semicolon, more)?;
    let test = Boxed::new(alloc, test)?;
    let (step, rest) = set(alloc, depth, true, more)?;
    let step = Boxed::new(alloc, step)?;
    Ok((ForHead { start, test, step }, rest))
}

// `"(" lv "=" expr ";" expr ";" lv "=" expr ")"`
pub(crate) fn turns_in_parens<'t>(
    alloc: Global,
    depth: usize,
    at: At<'t>,
) -> Read<'t, Boxed<ForHead>>
    ensures { Reads head_tree depth (in_parens for_head) at.entry result }
{
    let opened = at.take(Class::Is(Lexeme::LeftParen))?;
    let (head, closing) = turns(alloc, depth, opened)?;
    let (head, rest) = then_lexeme(head, Lexeme::RightParen, closing)?;
    Ok((Boxed::new(alloc, head)?, rest))
}

// `{ decl }`
fn decls<'t>(alloc: Global, depth: usize, at: At<'t>) -> Read<'t, Items<Decl>>
    ensures { Reads (map decl_tree) depth decls at.entry result }
{
    let mut all = Items::new(alloc);
    let mut rest = at;
    'all: while rest.next_is(Class::Among(Group::Decl)) {
        let (next, end) = declaration(alloc, depth, rest)?;
        all.push(next)?;
        rest = end;
    }
    Ok((all, rest))
}

// `":" ID { decl }`
fn named_decls<'t>(alloc: Global, depth: usize, at: At<'t>) -> Read<'t, Naming>
    ensures { Reads naming_tree depth named_decls at.entry result }
{
    let named = at.take(Class::Is(Lexeme::Colon))?;
    let (id, more) = id(named)?;
    let (decls, rest) = decls(alloc, depth, more)?;
    Ok((Naming { id, decls }, rest))
}

// `[ ":" ID { decl } ]`
#[tactic(auto, unfolding(vh_parse_syntax::specs::Statements::naming))]
pub(crate) fn written_naming<'t>(
    alloc: Global,
    depth: usize,
    at: At<'t>,
) -> Read<'t, Option<Boxed<Naming>>>
    ensures { Reads (option_map naming_tree) depth naming at.entry result }
{
    if !at.next_is(Class::Is(Lexeme::Colon)) {
        return Ok((None, at));
    }
    let (naming, rest) = named_decls(alloc, depth, at)?;
    Ok((Some(Boxed::new(alloc, naming)?), rest))
}

// `expr { "," expr }`
pub(crate) fn case_values<'t>(alloc: Global, depth: usize, at: At<'t>) -> Read<'t, Boxed<Values>>
    ensures { Reads values_tree depth values_part at.entry result }
{
    let (first, more) = expression(alloc, depth, true, at)?;
    let place = first.place;
    let all = only(alloc, first)?;
    let (all, rest) = further::<Exprs>(alloc, depth, true, all, more)?;
    Ok((Boxed::new(alloc, Values { place, all })?, rest))
}

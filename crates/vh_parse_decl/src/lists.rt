//! What stands in lists behind commas.

ghost use Rattle.std.specs.Prelude.{Bool, map};
ghost use Rattle.vh_parse_grammar.specs.Part.{after};
ghost use Rattle.vh_parse_grammar.specs.Conditions.{Advances};
ghost use Rattle.vh_parse_grammar.specs.Omissions.{joined_noted};
ghost use Rattle.vh_parse_grammar.specs.Says.{Says};
ghost use Rattle.vh_parse_syntax.specs.Tokens.{token_seen};
ghost use Rattle.vh_parse_syntax.specs.declared.lexeme.Lexeme.TheVariants as lexeme;
ghost use Rattle.vh_parse_syntax.specs.Parts.{G, the, comma_list, comma_more};
ghost use Rattle.vh_parse_expr.specs.Views.{Reads, read_from};

use sqlite_items::Items;
use std::alloc::Global;
use vh_ast::only;
use vh_parse_expr::{At, Read};
use vh_parse_syntax::{Class, Lexeme};

/// What stands in lists: a production with what is read by it. Most have two forms, by whether calls may
/// stand in them or whether a range is left out behind them; where there is one alone, `form` says
/// nothing.
pub trait Listed {
    /// What is read.
    type Item: Drop;

    /// The trees of the table.
    ghost Tree: { Type 0 };
    /// What is read, as the table has it.
    ghost view: { Self.Item → Tree };
    /// The production.
    ghost part: { Bool → G Tree };

    /// Reads one, with so many levels left below it.
    fn read<'t>(alloc: Global, depth: usize, form: bool, at: At<'t>) -> Read<'t, Self::Item>
        ensures { Reads view depth (part form) at.entry result };

    /// Each turn of a repetition in it takes a token.
    ghost advances: { (form : Bool) → Advances (part form) };
}

// One behind a comma.
fn next<'t, T: Listed>(alloc: Global, depth: usize, form: bool, at: At<'t>) -> Read<'t, T::Item>
    ensures { Reads T.view depth (after (the lexeme.Comma) (T.part form)) at.entry result }
{
    let behind = at.take(Class::Is(Lexeme::Comma))?;
    T::read(alloc, depth, form, behind)
}

/// Further ones behind commas.
pub fn further<'t, T: Listed>(
    alloc: Global,
    depth: usize,
    form: bool,
    first: Items<T::Item>,
    at: At<'t>,
) -> Read<'t, Items<T::Item>>
    ensures { let read = read_from depth (comma_more (T.part form)) at.entry in
        Says token_seen (map T.view) (joined_noted (map T.view first) read) result }
{
    let mut all = first;
    let mut rest = at;
    'all: while rest.next_is(Class::Is(Lexeme::Comma)) {
        let (item, end) = next::<T>(alloc, depth, form, rest)?;
        all.push(item)?;
        rest = end;
    }
    Ok((all, rest))
}

/// One, and further ones behind commas.
pub fn list<'t, T: Listed>(
    alloc: Global,
    depth: usize,
    form: bool,
    at: At<'t>,
) -> Read<'t, Items<T::Item>>
    ensures { Reads (map T.view) depth (comma_list (T.part form)) at.entry result }
{
    let (first, rest) = T::read(alloc, depth, form, at)?;
    let all = only(alloc, first)?;
    further::<T>(alloc, depth, form, all, rest)
}

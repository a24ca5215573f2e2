//! Items in a row, with the words of `generate` regions among them: how far a row has come.

ghost use Rattle.std.specs.Prelude.{◌-◌, ◌<◌, ◌≡◌};
ghost use Rattle.vh_parse_grammar.specs.Part.{act};
ghost use Rattle.vh_parse_grammar.specs.Reading.{next_is};
ghost use Rattle.vh_parse_grammar.specs.Omissions.{omission_at};
ghost use Rattle.vh_parse_syntax.specs.declared.lexeme.Lexeme.TheVariants as lexemes;
ghost use Rattle.vh_parse_syntax.specs.Parts.{at_the};
ghost use Rattle.vh_parse_syntax.specs.Items as parts;
ghost use Rattle.vh_parse_syntax.specs.Items.{shows_item, region_goes, with_generate, with_endgenerate};
ghost use Rattle.vh_parse_expr.specs.Views.{Reads, tokens_seen};
ghost use Rattle.vh_parse_items.specs.Pieces.{written_name};
ghost use Rattle.vh_parse_items.specs.Views.{region_tree, items_seen};

use crate::made;
use sqlite_items::Items;
use vh_ast::{Id, Item};
use vh_parse_expr::{At, Read, id, lexeme};
use vh_parse_grammar::Stop;
use vh_parse_syntax::{Class, Group, Lexeme, Start};

// How many regions are open, and the items so far.
#[derive(Drop)]
pub(crate) struct Region {
    pub open: usize,
    pub items: Items<Item>,
}

// The cursor, where an item may be next that is left out.
pub(crate) fn no_hidden<'t>(at: At<'t>) -> At<'t>
    ensures tokens { result.tokens.now ≡ at.entry.tokens.now }
    ensures omission { let seen = tokens_seen at.entry.tokens.now in
        result.omission ≡ omission_at seen (next_is shows_item seen) at.entry.omission }
{
    at.noting(at.tokens, at.next_is(Class::Among(Group::Hidden)))
}

// An item could begin here.
pub(crate) fn item_here<'t>(at: At<'t>) -> Read<'t, ()>
    ensures { Reads (λ u. u) 0 parts.item_here at.entry result }
{
    Ok(((), no_hidden(at)))
}

// `"generate"`. There are never more regions open than tokens, so that the count doesn't overflow.
pub(crate) fn opened<'t>(region: Region, at: At<'t>) -> Read<'t, Region>
    ensures { let part = act (with_generate (region_tree region)) (at_the (lexemes.Generate)) in
        Reads region_tree 0 part at.entry result }
{
    let (place, rest) = lexeme(Lexeme::Generate, at)?;
    let Some(open) = region.open.checked_add(1) else {
        return Err(Stop::Memory);
    };
    let mut region = region;
    made::with_generate(&mut region.items, place)?;
    region.open = open;
    Ok((region, rest))
}

// `"endgenerate"`, where a region is open.
pub(crate) fn closed<'t>(region: Region, at: At<'t>) -> Read<'t, Region>
    requires { 0 < region.open }
    ensures { let made = with_endgenerate (region.open - 1) (region_tree region) in
        let part = act made (at_the (lexemes.Endgenerate)) in
        Reads region_tree 0 part at.entry result }
{
    let (place, rest) = lexeme(Lexeme::Endgenerate, at)?;
    let mut region = region;
    made::with_endgenerate(&mut region.items, place)?;
    region.open -= 1;
    Ok((region, rest))
}

// Whether items go on, with so many regions open.
pub(crate) fn region_goes(regions: usize, at: At<'_>) -> bool
    ensures { result ≡ next_is (region_goes regions) (tokens_seen at.entry.tokens.now) }
{
    if at.next_is(Class::Is(Lexeme::Generate)) {
        return true;
    }
    if regions > 0 && at.next_is(Class::Is(Lexeme::Endgenerate)) {
        return true;
    }
    at.next_is(Class::Begins(Start::Item))
}

// Whether the items of a block go on, with so many regions open: up to the end of the last one.
pub(crate) fn within_goes(regions: usize, at: At<'_>) -> bool
    ensures { result ≡ next_is (parts.within_goes regions) (tokens_seen at.entry.tokens.now) }
{
    regions > 0 && region_goes(regions, at)
}

// The end of items: each region is closed.
#[tactic(auto, unfolding(vh_parse_syntax::specs::Items::region_end))]
pub(crate) fn region_end<'t>(depth: usize, region: Region, at: At<'t>) -> Read<'t, Items<Item>>
    ensures { let part = parts.region_end region.open (region_tree region) in
        Reads items_seen depth part at.entry result }
{
    if region.open > 0 {
        return Err(at.lost());
    }
    Ok((region.items, at))
}

// `[ ":" ID ]`
pub(crate) fn written_name<'t>(at: At<'t>) -> Read<'t, Option<Id>>
    ensures { Reads (λ name. name) 0 written_name at.entry result }
{
    if !at.next_is(Class::Is(Lexeme::Colon)) {
        return Ok((None, at));
    }
    let named = at.take(Class::Is(Lexeme::Colon))?;
    let (id, rest) = id(named)?;
    Ok((Some(id), rest))
}

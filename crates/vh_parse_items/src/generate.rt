//! Items, and the blocks of items in some: a function for each production in which items stand.
//! They call each other, a level deeper where the grammar nests them; rows of items are loops.

ghost use Rattle.std.specs.Prelude.{◌≡◌, ◌-◌, ◌<◌, true, option_map, map};
ghost use Rattle.vh_parse_grammar.specs.Part.{act, bind};
ghost use Rattle.vh_ast.specs.Views.{expr_tree, assigned_tree, item_tree, gblock_tree};
ghost use Rattle.vh_parse_syntax.specs.Expressions.{expression};
ghost use Rattle.vh_parse_syntax.specs.Declarations as declared;
ghost use Rattle.vh_parse_syntax.specs.Parts.{in_parens};
ghost use Rattle.vh_parse_syntax.specs.Items as parts;
ghost use Rattle.vh_parse_expr.specs.Views.{Reads};
ghost use Rattle.vh_parse_items.specs.Pieces.{last_items, item_part, outer_word, inner_word, all_items, within};
ghost use Rattle.vh_parse_items.specs.Views.{generate_tree, region_tree, items_seen, word_pair};

use crate::made;
use crate::region::{
    Region, closed, item_here, no_hidden, opened, region_end, region_goes, within_goes,
    written_name,
};
use crate::routine::{function_item, process_item, task_item};
use sqlite_items::{Boxed, Items};
use std::alloc::Global;
use vh_ast::{Assigned, Expr, Gblock, Item, only};
use vh_parse_decl::in_parens;
use vh_parse_expr::{At, Read, expression, lexeme, then_lexeme};
use vh_parse_parts::{
    assign_item, assigned, decl_item, event_item, gate_item, genvar_item, instance_item, net_item,
    parameter_item, port_item,
};
use vh_parse_syntax::{Class, Group, Lexeme, Rows};

// What stands in the brackets of a loop of items.
#[derive(Drop)]
pub(crate) struct GenerateHead {
    pub start: Boxed<Assigned>,
    pub test: Boxed<Expr>,
    pub step: Boxed<Assigned>,
}

// `ID "=" expr`, in a box.
fn boxed_assigned<'t>(alloc: Global, depth: usize, at: At<'t>) -> Read<'t, Boxed<Assigned>>
    ensures { Reads assigned_tree depth declared.assigned at.entry result }
{
    let (assigned, rest) = assigned(alloc, depth, at)?;
    Ok((Boxed::new(alloc, assigned)?, rest))
}

// `expr`, in a box.
fn boxed_expression<'t>(alloc: Global, depth: usize, at: At<'t>) -> Read<'t, Boxed<Expr>>
    ensures { Reads expr_tree depth (expression true) at.entry result }
{
    let (expr, rest) = expression(alloc, depth, true, at)?;
    Ok((Boxed::new(alloc, expr)?, rest))
}

// `ID "=" expr ";" expr ";" ID "=" expr`
#[tactic(auto, unfolding(vh_parse_syntax::specs::Items::generate_head))]
fn generate_head<'t>(alloc: Global, depth: usize, at: At<'t>) -> Read<'t, GenerateHead>
    ensures { Reads generate_tree depth parts.generate_head at.entry result }
{
    let (start, more) = boxed_assigned(alloc, depth, at)?;
    let more = more.take(Class::Is(Lexeme::Semicolon))?;
    let (test, more) = boxed_expression(alloc, depth, more)?;
    let more = more.take(Class::Is(Lexeme::Semicolon))?;
    let (step, rest) = boxed_assigned(alloc, depth, more)?;
    Ok((GenerateHead { start, test, step }, rest))
}

// The same in parentheses, in a box.
fn head_in_parens<'t>(alloc: Global, depth: usize, at: At<'t>) -> Read<'t, Boxed<GenerateHead>>
    ensures { Reads generate_tree depth (in_parens parts.generate_head) at.entry result }
{
    let opened = at.take(Class::Is(Lexeme::LeftParen))?;
    let (head, closing) = generate_head(alloc, depth, opened)?;
    let (head, rest) = then_lexeme(head, Lexeme::RightParen, closing)?;
    Ok((Boxed::new(alloc, head)?, rest))
}

// A block of items in another item: a level deeper.
#[cycle(gblock)]
fn inner_gblock<'t>(alloc: Global, depth: usize, at: At<'t>) -> Read<'t, Boxed<Gblock<Item>>>
    ensures { Reads gblock_tree depth parts.inner_gblock at.entry result }
{
    let at = no_hidden(at);
    if depth == 0 {
        return Err(at.past());
    }
    gblock(alloc, depth - 1, at)
}

// `"for" "(" ID "=" expr ";" expr ";" ID "=" expr ")" gblock`
#[cycle(gblock)]
#[tactic(auto, unfolding(vh_parse_syntax::specs::Items::for_item))]
fn for_item<'t>(alloc: Global, depth: usize, at: At<'t>) -> Read<'t, Boxed<Item>>
    ensures { Reads item_tree depth parts.for_item at.entry result }
{
    let (place, more) = lexeme(Lexeme::For, at)?;
    let (head, more) = head_in_parens(alloc, depth, more)?;
    let (body, rest) = inner_gblock(alloc, depth, more)?;
    Ok((made::for_item(alloc, place, head, body)?, rest))
}

// `[ "else" gblock ]`
#[cycle(gblock)]
#[tactic(auto, unfolding(vh_parse_syntax::specs::Items::other_gblock))]
fn other_gblock<'t>(
    alloc: Global,
    depth: usize,
    at: At<'t>,
) -> Read<'t, Option<Boxed<Gblock<Item>>>>
    ensures { Reads (option_map gblock_tree) depth parts.other_gblock at.entry result }
{
    if !at.next_is(Class::Is(Lexeme::Else)) {
        return Ok((None, at));
    }
    let next = at.take(Class::Is(Lexeme::Else))?;
    let (other, rest) = inner_gblock(alloc, depth, next)?;
    Ok((Some(other), rest))
}

// `"if" "(" expr ")" gblock [ "else" gblock ]`
#[cycle(gblock)]
#[tactic(auto, unfolding(vh_parse_syntax::specs::Items::if_item))]
fn if_item<'t>(alloc: Global, depth: usize, at: At<'t>) -> Read<'t, Boxed<Item>>
    ensures { Reads item_tree depth parts.if_item at.entry result }
{
    let (place, more) = lexeme(Lexeme::If, at)?;
    let (test, more) = in_parens(alloc, depth, true, more)?;
    let (holds, more) = inner_gblock(alloc, depth, more)?;
    let (fails, rest) = other_gblock(alloc, depth, more)?;
    Ok((made::if_item(alloc, place, test, holds, fails)?, rest))
}

// The branches of an item from an instance on.
#[cycle(gblock)]
fn last_items<'t>(alloc: Global, depth: usize, at: At<'t>) -> Read<'t, Boxed<Item>>
    ensures { Reads item_tree depth last_items at.entry result }
{
    if at.next_is(Class::Name) {
        return instance_item(alloc, depth, at);
    }
    if at.next_is(Class::Row(Rows::Process)) {
        return process_item(alloc, depth, at);
    }
    if at.next_is(Class::Is(Lexeme::Task)) {
        return task_item(alloc, depth, at);
    }
    if at.next_is(Class::Is(Lexeme::Function)) {
        return function_item(alloc, depth, at);
    }
    if at.next_is(Class::Is(Lexeme::For)) {
        return for_item(alloc, depth, at);
    }
    if_item(alloc, depth, at)
}

// `item`, but for `generate` regions.
#[cycle(gblock)]
#[tactic(auto, unfolding(vh_parse_syntax::specs::Items::item))]
fn item<'t>(alloc: Global, depth: usize, at: At<'t>) -> Read<'t, Boxed<Item>>
    ensures { Reads item_tree depth parts.item at.entry result }
{
    if at.next_is(Class::Row(Rows::Direction)) {
        return port_item(alloc, depth, at);
    }
    if at.next_is(Class::Row(Rows::Net)) {
        return net_item(alloc, depth, at);
    }
    if at.next_is(Class::Among(Group::Decl)) {
        return decl_item(alloc, depth, at);
    }
    if at.next_is(Class::Is(Lexeme::Event)) {
        return event_item(alloc, depth, at);
    }
    if at.next_is(Class::Is(Lexeme::Genvar)) {
        return genvar_item(alloc, depth, at);
    }
    if at.next_is(Class::Row(Rows::Parameter)) {
        return parameter_item(alloc, depth, at);
    }
    if at.next_is(Class::Is(Lexeme::Assign)) {
        return assign_item(alloc, depth, at);
    }
    if at.next_is(Class::Row(Rows::Gate)) {
        return gate_item(alloc, depth, at);
    }
    last_items(alloc, depth, at)
}

// An item in a row.
#[cycle(gblock)]
fn next_item<'t>(alloc: Global, depth: usize, region: Region, at: At<'t>) -> Read<'t, Region>
    ensures { Reads region_tree depth (item_part (region_tree region)) at.entry result }
{
    let (item, rest) = item(alloc, depth, at)?;
    let mut region = region;
    made::with_item(&mut region.items, item)?;
    Ok((region, rest))
}

// `"generate"`, or an item, where no region is open.
#[cycle(gblock)]
fn outer_word<'t>(alloc: Global, depth: usize, region: Region, at: At<'t>) -> Read<'t, Region>
    ensures { Reads region_tree depth (outer_word (region_tree region)) at.entry result }
{
    if at.next_is(Class::Is(Lexeme::Generate)) {
        return opened(region, at);
    }
    next_item(alloc, depth, region, at)
}

// `"generate"`, `"endgenerate"` or an item, where a region is open.
#[cycle(gblock)]
fn inner_word<'t>(alloc: Global, depth: usize, region: Region, at: At<'t>) -> Read<'t, Region>
    requires { 0 < region.open }
    ensures { let part = inner_word (region.open - 1) (region_tree region) in
        Reads region_tree depth part at.entry result }
{
    if at.next_is(Class::Is(Lexeme::Generate)) {
        return opened(region, at);
    }
    if at.next_is(Class::Is(Lexeme::Endgenerate)) {
        return closed(region, at);
    }
    next_item(alloc, depth, region, at)
}

// `"generate"`, an item, or where a region is open `"endgenerate"`.
#[cycle(gblock)]
#[tactic(auto, unfolding(vh_parse_syntax::specs::Items::region_word))]
fn region_word<'t>(alloc: Global, depth: usize, region: Region, at: At<'t>) -> Read<'t, Region>
    ensures { let part = parts.region_word region.open (region_tree region) in
        Reads region_tree depth part at.entry result }
{
    if region.open == 0 {
        return outer_word(alloc, depth, region, at);
    }
    inner_word(alloc, depth, region, at)
}

// The same, behind which an item could stand.
#[cycle(gblock)]
fn region_turn<'t>(alloc: Global, depth: usize, region: Region, at: At<'t>) -> Read<'t, Region>
    ensures { let part = parts.region_turn region.open (region_tree region) in
        Reads region_tree depth part at.entry result }
{
    let (region, more) = region_word(alloc, depth, region, at)?;
    let ((), rest) = item_here(more)?;
    Ok((region, rest))
}

// Items, as far as they go.
#[cycle(gblock)]
fn all_items<'t>(alloc: Global, depth: usize, first: Region, at: At<'t>) -> Read<'t, Region>
    ensures { Reads region_tree depth (all_items (region_tree first)) at.entry result }
{
    let mut region = first;
    let mut rest = at;
    'items: while region_goes(region.open, rest) {
        let (longer, end) = region_turn(alloc, depth, region, rest)?;
        region = longer;
        rest = end;
    }
    Ok((region, rest))
}

// `{ item }`
#[cycle(gblock)]
#[tactic(auto, unfolding(vh_parse_syntax::specs::Items::items))]
pub(crate) fn items<'t>(alloc: Global, depth: usize, at: At<'t>) -> Read<'t, Items<Item>>
    ensures { Reads items_seen depth parts.items at.entry result }
{
    let at = no_hidden(at);
    let none = Region {
        open: 0,
        items: Items::new(alloc),
    };
    let (region, rest) = all_items(alloc, depth, none, at)?;
    region_end(depth, region, rest)
}

// What comes next in a region.
#[cycle(gblock)]
#[tactic(auto, unfolding(vh_parse_syntax::specs::Items::within_turn))]
fn within_turn<'t>(alloc: Global, depth: usize, region: Region, at: At<'t>) -> Read<'t, Region>
    ensures { let part = parts.within_turn region.open (region_tree region) in
        Reads region_tree depth part at.entry result }
{
    if region.open == 0 {
        return Err(at.lost());
    }
    region_turn(alloc, depth, region, at)
}

// Items up to the end of the region that is open, if one is.
#[cycle(gblock)]
fn within<'t>(alloc: Global, depth: usize, first: Region, at: At<'t>) -> Read<'t, Region>
    ensures { Reads region_tree depth (within (region_tree first)) at.entry result }
{
    let mut region = first;
    let mut rest = at;
    'items: while within_goes(region.open, rest) {
        let (longer, end) = within_turn(alloc, depth, region, rest)?;
        region = longer;
        rest = end;
    }
    Ok((region, rest))
}

// The same, and then each region is closed.
#[cycle(gblock)]
#[tactic(auto, unfolding(vh_parse_syntax::specs::Items::region_rest))]
fn region_rest<'t>(alloc: Global, depth: usize, region: Region, at: At<'t>) -> Read<'t, Items<Item>>
    ensures { Reads items_seen depth (parts.region_rest (region_tree region)) at.entry result }
{
    let (region, rest) = within(alloc, depth, region, at)?;
    region_end(depth, region, rest)
}

// `"generate"` or an item, with how many regions are open behind it.
#[cycle(gblock)]
#[tactic(auto, unfolding(vh_parse_syntax::specs::Items::first_word))]
fn first_word<'t>(alloc: Global, depth: usize, at: At<'t>) -> Read<'t, (usize, Boxed<Item>)>
    ensures { Reads word_pair depth parts.first_word at.entry result }
{
    if at.next_is(Class::Is(Lexeme::Generate)) {
        let (place, rest) = lexeme(Lexeme::Generate, at)?;
        return Ok(((1, made::generate(alloc, place)?), rest));
    }
    let (item, rest) = item(alloc, depth, at)?;
    Ok(((0, item), rest))
}

// The rest of a block of one item.
#[cycle(gblock)]
#[tactic(auto, unfolding(vh_parse_syntax::specs::Items::one_item_rest))]
fn one_item_rest<'t>(
    alloc: Global,
    depth: usize,
    word: (usize, Boxed<Item>),
    at: At<'t>,
) -> Read<'t, Boxed<Gblock<Item>>>
    ensures { Reads gblock_tree depth (parts.one_item_rest (word_pair word)) at.entry result }
{
    let place = made::place_of(word.1.get());
    let items = only(alloc, word.1.into_inner())?;
    let open = word.0;
    let (items, rest) = region_rest(alloc, depth, Region { open, items }, at)?;
    Ok((made::one_item(alloc, place, items)?, rest))
}

// One item, which may be a `generate` region.
#[cycle(gblock)]
#[tactic(auto, unfolding(vh_parse_syntax::specs::Items::one_item))]
fn one_item<'t>(alloc: Global, depth: usize, at: At<'t>) -> Read<'t, Boxed<Gblock<Item>>>
    ensures { Reads gblock_tree depth parts.one_item at.entry result }
{
    let (word, more) = first_word(alloc, depth, at)?;
    let ((), rest) = item_here(more)?;
    one_item_rest(alloc, depth, word, rest)
}

// `"begin" [ ":" ID ] { item } "end"`
#[cycle(gblock)]
#[tactic(auto, unfolding(vh_parse_syntax::specs::Items::item_block))]
fn item_block<'t>(alloc: Global, depth: usize, at: At<'t>) -> Read<'t, Boxed<Gblock<Item>>>
    ensures { Reads gblock_tree depth parts.item_block at.entry result }
{
    let (place, more) = lexeme(Lexeme::Begin, at)?;
    let (name, more) = written_name(more)?;
    let (items, more) = items(alloc, depth, more)?;
    let (items, rest) = then_lexeme(items, Lexeme::End, more)?;
    Ok((made::item_block(alloc, place, name, items)?, rest))
}

// `gblock`
#[cycle(gblock)]
#[tactic(auto, unfolding(vh_parse_syntax::specs::Items::a_gblock))]
fn gblock<'t>(alloc: Global, depth: usize, at: At<'t>) -> Read<'t, Boxed<Gblock<Item>>>
    ensures { Reads gblock_tree depth parts.a_gblock at.entry result }
{
    if at.next_is(Class::Is(Lexeme::Begin)) {
        return item_block(alloc, depth, at);
    }
    one_item(alloc, depth, at)
}

//! Items that are made of their parts. A function that reads leaves to these what it holds, so that
//! little is held where it stops.

ghost use Rattle.std.specs.Prelude.{◌≡◌, ◌++◌, [], ◌∷◌, Option, option_map, map, MatchResult};
ghost use Rattle.vh_parse_grammar.specs.declared.stop.Stop.TheVariants.{Memory};
ghost use Rattle.vh_ast.specs.Items as trees;
ghost use Rattle.vh_ast.specs.Views.{expr_tree, par_tree, ports_tree, result_tree, stmt_tree, item_tree, gblock_tree, module_tree};
ghost use Rattle.vh_parse_syntax.specs.Items as parts;
ghost use Rattle.vh_parse_syntax.specs.Items.{module_of};
ghost use Rattle.vh_parse_items.specs.Views.{routine_tree, generate_tree, items_seen};

use crate::generate::GenerateHead;
use crate::routine::RoutineParts;
use sqlite_items::{Boxed, Items};
use std::alloc::Global;
use vh_ast::{
    Expr, Function, Gblock, Id, Item, ItemForm, Module, Par, Plain, Ports, ProcessWord, ResultType,
    Stmt, Task,
};
use vh_base::Place;
use vh_lex::Setting;
use vh_parse_grammar::Stop;
use vh_parse_parts::plain;

// A task.
pub(crate) fn task(
    alloc: Global,
    place: Place,
    routine: Boxed<RoutineParts>,
) -> Result<Boxed<Item>, Stop>
    ensures { let made = parts.task_item_of place (routine_tree routine) in
        MatchResult result (λ i. item_tree i ≡ made) (λ stop. stop ≡ Memory) }
{
    let RoutineParts {
        id,
        targs,
        locals,
        body,
    } = routine.into_inner();
    let task = Task {
        id,
        targs,
        locals,
        body: body.into_inner(),
    };
    plain(alloc, place, Plain::Task(Boxed::new(alloc, task)?))
}

// A type out of its box.
fn unboxed_type(result_type: Option<Boxed<ResultType>>) -> Option<ResultType>
    ensures { option_map result_tree result ≡ option_map result_tree result_type }
{
    match result_type {
        Some(result_type) => Some(result_type.into_inner()),
        None => None,
    }
}

// A function.
pub(crate) fn function(
    alloc: Global,
    place: Place,
    result_type: Option<Boxed<ResultType>>,
    routine: Boxed<RoutineParts>,
) -> Result<Boxed<Item>, Stop>
    ensures { let of = option_map result_tree result_type in
        let made = parts.function_of place (of, routine_tree routine) in
        MatchResult result (λ i. item_tree i ≡ made) (λ stop. stop ≡ Memory) }
{
    let RoutineParts {
        id,
        targs,
        locals,
        body,
    } = routine.into_inner();
    let function = Function {
        result_type: unboxed_type(result_type),
        id,
        targs,
        locals,
        body: body.into_inner(),
    };
    plain(alloc, place, Plain::Function(Boxed::new(alloc, function)?))
}

// A loop of items.
pub(crate) fn for_item(
    alloc: Global,
    place: Place,
    head: Boxed<GenerateHead>,
    body: Boxed<Gblock<Item>>,
) -> Result<Boxed<Item>, Stop>
    ensures { let made = parts.for_item_of place (generate_tree head, gblock_tree body) in
        MatchResult result (λ i. item_tree i ≡ made) (λ stop. stop ≡ Memory) }
{
    let GenerateHead { start, test, step } = head.into_inner();
    let form = ItemForm::For {
        start,
        test,
        step,
        body,
    };
    Ok(Boxed::new(alloc, Item { place, form })?)
}

// One block of items or another by a test.
pub(crate) fn if_item(
    alloc: Global,
    place: Place,
    test: Boxed<Expr>,
    holds: Boxed<Gblock<Item>>,
    fails: Option<Boxed<Gblock<Item>>>,
) -> Result<Boxed<Item>, Stop>
    ensures { let others = option_map gblock_tree fails in
        let made = parts.if_item_of place (expr_tree test, (gblock_tree holds, others)) in
        MatchResult result (λ i. item_tree i ≡ made) (λ stop. stop ≡ Memory) }
{
    let form = ItemForm::If { test, holds, fails };
    Ok(Boxed::new(alloc, Item { place, form })?)
}

// A process.
pub(crate) fn process(
    alloc: Global,
    word: (Place, ProcessWord),
    body: Boxed<Stmt>,
) -> Result<Boxed<Item>, Stop>
    ensures { let made = parts.process_of word (stmt_tree body) in
        MatchResult result (λ i. item_tree i ≡ made) (λ stop. stop ≡ Memory) }
{
    plain(alloc, word.0, Plain::Process(word.1, body))
}

// Ports out of their box.
fn unboxed_ports(ports: Option<Boxed<Ports>>) -> Option<Ports>
    ensures { option_map ports_tree result ≡ option_map ports_tree ports }
{
    match ports {
        Some(ports) => Some(ports.into_inner()),
        None => None,
    }
}

// A module of its parts.
pub(crate) fn module(
    word: (Place, Setting),
    id: Id,
    pars: Items<Par>,
    ports: Option<Boxed<Ports>>,
    items: Items<Item>,
) -> Module
    ensures { let ports = option_map ports_tree ports in
        module_tree result ≡ module_of word (id, (map par_tree pars, (ports, items_seen items))) }
{
    Module {
        place: word.0,
        setting: word.1,
        id,
        pars,
        ports: unboxed_ports(ports),
        items,
    }
}

// The items so far, with one more.
pub(crate) fn with_item(all: &mut Items<Item>, item: Boxed<Item>) -> Result<(), Stop>
    ensures { MatchResult result (λ u. all.new ≡ all.old ++ item ∷ []) (λ stop. stop ≡ Memory) }
{
    all.push(item.into_inner())?;
    Ok(())
}

// The items so far, with the word that opens a region.
pub(crate) fn with_generate(all: &mut Items<Item>, place: Place) -> Result<(), Stop>
    ensures { let longer = items_seen all.old ++ trees.item place trees.generate_word ∷ [] in
        MatchResult result (λ u. items_seen all.new ≡ longer) (λ stop. stop ≡ Memory) }
{
    let form = ItemForm::Generate;
    all.push(Item { place, form })?;
    Ok(())
}

// The items so far, with the word that closes a region.
pub(crate) fn with_endgenerate(all: &mut Items<Item>, place: Place) -> Result<(), Stop>
    ensures { let longer = items_seen all.old ++ trees.item place trees.endgenerate_word ∷ [] in
        MatchResult result (λ u. items_seen all.new ≡ longer) (λ stop. stop ≡ Memory) }
{
    let form = ItemForm::Endgenerate;
    all.push(Item { place, form })?;
    Ok(())
}

// Where an item stands.
pub(crate) fn place_of(item: &Item) -> Place
    ensures { result ≡ parts.place_of_item (item_tree item.now) }
{
    item.place
}

// A block of one item, which may be a region.
pub(crate) fn one_item(
    alloc: Global,
    place: Place,
    items: Items<Item>,
) -> Result<Boxed<Gblock<Item>>, Stop>
    ensures { let made = trees.one_item place (trees.items (items_seen items)) in
        MatchResult result (λ g. gblock_tree g ≡ made) (λ stop. stop ≡ Memory) }
{
    Ok(Boxed::new(alloc, Gblock::Item(place, items))?)
}

// A block of items between its words.
pub(crate) fn item_block(
    alloc: Global,
    place: Place,
    id: Option<Id>,
    items: Items<Item>,
) -> Result<Boxed<Gblock<Item>>, Stop>
    ensures { let made = parts.item_block_of place (id, items_seen items) in
        MatchResult result (λ g. gblock_tree g ≡ made) (λ stop. stop ≡ Memory) }
{
    Ok(Boxed::new(alloc, Gblock::Block { place, id, items })?)
}

// The word that opens a region, as an item.
pub(crate) fn generate(alloc: Global, place: Place) -> Result<Boxed<Item>, Stop>
    ensures { let made = trees.item place trees.generate_word in
        MatchResult result (λ i. item_tree i ≡ made) (λ stop. stop ≡ Memory) }
{
    let form = ItemForm::Generate;
    Ok(Boxed::new(alloc, Item { place, form })?)
}

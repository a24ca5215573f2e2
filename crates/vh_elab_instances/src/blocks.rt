ghost use Rattle.std.specs.Prelude.{◌≡◌, ◌∷◌, map, IfOk, OnOk};
ghost use Rattle.std.specs.Option.{option_map};
ghost use Rattle.vh_ast.specs.Items as tree;
ghost use Rattle.vh_ast.specs.Views.{gblock_tree, gelse_tree, item_tree};
ghost use Rattle.vh_elab_ports.specs.Views.{ids_seen};
ghost use Rattle.vh_elab_sites.specs.Blocks.{block_place};
ghost use Rattle.vh_elab_instances.specs.Instances;
ghost use Rattle.vh_elab_instances.specs.Views.{making_seen, turn_seen};
ghost use Rattle.vh_elab_sites.specs.Views.{block_name_seen, block_text_seen, choice_seen, genvar_at_seen, sites_seen, around_seen};

use crate::names::declared_ids;
use sqlite_items::Boxed;
use std::alloc::Global;
use vh_ast::{Gblock, Id, Item, ItemForm};
use vh_base::{NoMemory, ObjId, Place};
use vh_bind_scope::{Meaning, Names, found};
use vh_elab_sites::{
    Around, BlockName, BlockText, Choice, Declared, GenvarAt, Listing, add_plain, add_site,
    block_place, is_lone, name_place,
};

// Above this number nothing is looked for.
const MOST_NUMBERS: u32 = 100_001;

// The turns that are looked at.
const MOST_TURNS: u32 = 100_001;

// The genvar of a loop's block, with its value there.
#[derive(Clone, Copy)]
pub(crate) struct Turn<'a> {
    pub(crate) id: &'a Id,
    pub(crate) value: i32,
}

// What constructs come to that aren't reached yet.
#[derive(Drop)]
pub(crate) struct Left<'a, 'b> {
    pub(crate) all: &'b [Choice<'a>],
}

// The next of them, which is taken.
fn take<'a>(left: &mut Left<'a, '_>) -> Choice<'a>
    ensures first { choice_seen result ≡ Instances.first_choice (map choice_seen left.old.all.now) }
    ensures others { map choice_seen left.new.all.now
        ≡ Instances.other_choices (map choice_seen left.old.all.now) }
{
    match left.all {
        [] => Choice::End,
        [first, others @ ..] => {
            left.all = others;
            *first
        }
    }
}

// The scope that declares a genvar.
fn declaring(names: &Names, around_it: Around, name: &[u8]) -> u32
    ensures { result ≡ Instances.declaring (around_seen around_it.entry) names.now name.now }
{
    if names.meaning(ObjId::new(around_it.scope), name).is_some() {
        return around_it.scope;
    }
    match found(names, around_it.around, name) {
        None => around_it.scope,
        Some(declaration) => declaration.scope.number(),
    }
}

fn genvar_at<'a>(names: &Names, around_it: Around, turn: Option<Turn<'a>>) -> Option<GenvarAt<'a>>
    ensures { option_map genvar_at_seen result
        ≡ Instances.genvar_at (around_seen around_it.entry) names.now
        (option_map turn_seen turn.entry) }
{
    match turn {
        None => None,
        Some(turn) => Some(GenvarAt {
            scope: declaring(names, around_it, turn.id.name.as_slice()),
            name: turn.id.name.as_slice(),
            value: turn.value,
        }),
    }
}

// Names that are declared in a scope.
pub(crate) fn declare_ids(
    alloc: Global,
    scope: u32,
    ids: &[&Id],
    names: &mut Names,
) -> Result<(), NoMemory>
    ensures { OnOk result (names.new ≡ Instances.seen_of scope (ids_seen ids.now) names.old) }
{
    for id in ids {
        names.declare(alloc, ObjId::new(scope), id.name.as_slice(), Meaning::Gate)?;
    }
    Ok(())
}

// A generate block in a scope, which opens one of its own.
fn enter<'a>(
    alloc: Global,
    around_it: Around<'a, '_>,
    place: Place,
    name: BlockName<'a>,
    turn: Option<Turn<'a>>,
    items: &'a [Item],
    sites: &mut Listing<'a>,
) -> Result<(), NoMemory>
    ensures { OnOk result (sites_seen sites.new ≡ Instances.block_site
        (around_seen around_it.entry) place (block_name_seen name.entry)
        (option_map turn_seen turn.entry)
        (Instances.items_ids (tree.items (map item_tree items.now))) (sites_seen sites.old)) }
{
    let number = sites.next;
    let genvar = genvar_at(&sites.seen, around_it, turn);
    let declared = Declared::GenBlock(name, genvar);
    add_site(around_it.scope, &[], place, declared, sites)?;
    let ids = declared_ids(alloc, items)?;
    declare_ids(alloc, number, &ids, &mut sites.seen)
}

// The scopes around the items of a block.
fn around_inside(alloc: Global, around_it: Around) -> Result<Vec<ObjId>, NoMemory>
    ensures { IfOk result (λ v. v.items ≡ around_it.entry.scope ∷ around_it.entry.around.now) }
{
    let mut around = Vec::new(alloc);
    around.push(ObjId::new(around_it.scope))?;
    around.extend_from_slice(around_it.around)?;
    Ok(around)
}

// The items of a block that is made.
#[cycle(blocks)]
fn add_inside<'a>(
    alloc: Global,
    around_it: Around<'a, '_>,
    place: Place,
    name: BlockName<'a>,
    turn: Option<Turn<'a>>,
    items: &'a [Item],
    left: &mut Left<'a, '_>,
    sites: &mut Listing<'a>,
) -> Result<(), NoMemory>
    ensures { OnOk result (making_seen left.new sites.new ≡ Instances.items_made
        (Instances.inside sites.old.next (around_seen around_it.entry))
        (tree.items (map item_tree items.now))
        (Instances.entered (around_seen around_it.entry) place (block_name_seen name.entry)
        (option_map turn_seen turn.entry) (tree.items (map item_tree items.now))
        (making_seen left.old sites.old))) }
{
    let number = sites.next;
    enter(alloc, around_it, place, name, turn, items, sites)?;
    let around = around_inside(alloc, around_it)?;
    let inside = Around {
        ports: around_it.ports,
        scope: number,
        wires: around_it.wires,
        around: &around,
    };
    add_all(alloc, inside, items, left, sites)
}

// A branch that is taken.
#[cycle(blocks)]
fn add_branch<'a>(
    alloc: Global,
    around_it: Around<'a, '_>,
    block: &'a Gblock<Item>,
    word: BlockText<'a>,
    left: &mut Left<'a, '_>,
    sites: &mut Listing<'a>,
) -> Result<(), NoMemory>
    ensures { OnOk result (making_seen left.new sites.new ≡ Instances.branch_made
        (around_seen around_it.entry) (gblock_tree block.now) (block_text_seen word.entry)
        (making_seen left.old sites.old)) }
{
    let name = BlockName { word, index: None };
    match block {
        Gblock::Item(place, items) => {
            let items = items.as_slice();
            if is_lone(items) {
                return add_all(alloc, around_it, items, left, sites);
            }
            add_inside(alloc, around_it, *place, name, None, items, left, sites)
        }
        Gblock::Block { place, id, items } => {
            let (place, items) = (name_place(*place, id), items.as_slice());
            add_inside(alloc, around_it, place, name, None, items, left, sites)
        }
    }
}

// The branch behind `else`, if there is one.
#[cycle(blocks)]
fn add_other<'a>(
    alloc: Global,
    around_it: Around<'a, '_>,
    block: &'a Option<Boxed<Gblock<Item>>>,
    word: BlockText<'a>,
    left: &mut Left<'a, '_>,
    sites: &mut Listing<'a>,
) -> Result<(), NoMemory>
    ensures { OnOk result (making_seen left.new sites.new ≡ Instances.else_made
        (around_seen around_it.entry) (gelse_tree block.now) (block_text_seen word.entry)
        (making_seen left.old sites.old)) }
{
    match block {
        None => Ok(()),
        Some(block) => add_branch(alloc, around_it, block.get(), word, left, sites),
    }
}

// A block of a loop.
#[cycle(blocks)]
fn add_block<'a>(
    alloc: Global,
    around_it: Around<'a, '_>,
    word: BlockText<'a>,
    id: &'a Id,
    block: &'a Gblock<Item>,
    value: i32,
    left: &mut Left<'a, '_>,
    sites: &mut Listing<'a>,
) -> Result<(), NoMemory>
    ensures { OnOk result (making_seen left.new sites.new ≡ Instances.turn_made
        (around_seen around_it.entry) id.now (gblock_tree block.now)
        (block_text_seen word.entry) value (making_seen left.old sites.old)) }
{
    let name = BlockName {
        word,
        index: Some(value),
    };
    let turn = Some(Turn { id, value });
    match block {
        Gblock::Item(place, items) => {
            let items = items.as_slice();
            add_inside(alloc, around_it, *place, name, turn, items, left, sites)
        }
        Gblock::Block { place, id, items } => {
            let (place, items) = (name_place(*place, id), items.as_slice());
            add_inside(alloc, around_it, place, name, turn, items, left, sites)
        }
    }
}

// A turn of a loop, and whether there is one.
#[cycle(blocks)]
fn add_turn<'a>(
    alloc: Global,
    around_it: Around<'a, '_>,
    word: BlockText<'a>,
    id: &'a Id,
    block: &'a Gblock<Item>,
    choice: Choice<'a>,
    left: &mut Left<'a, '_>,
    sites: &mut Listing<'a>,
) -> Result<bool, NoMemory>
    ensures { IfOk result (λ more. (more, making_seen left.new sites.new) ≡ Instances.one_turn
        (Instances.turn_made (around_seen around_it.entry) id.now (gblock_tree block.now)
        (block_text_seen word.entry)) (choice_seen choice.entry) (making_seen left.old sites.old)) }
{
    match choice {
        Choice::Turn(value) => {
            if sites.next > MOST_NUMBERS {
                return Ok(false);
            }
            add_block(alloc, around_it, word, id, block, value, left, sites)?;
            Ok(true)
        }
        Choice::Neither | Choice::Holds(_) | Choice::Fails(_) | Choice::Loop(_) | Choice::End => Ok(
            false,
        ),
    }
}

// The blocks of a loop.
#[cycle(blocks)]
fn add_turns<'a>(
    alloc: Global,
    around_it: Around<'a, '_>,
    word: BlockText<'a>,
    id: &'a Id,
    block: &'a Gblock<Item>,
    left: &mut Left<'a, '_>,
    sites: &mut Listing<'a>,
) -> Result<(), NoMemory>
    ensures { OnOk result (making_seen left.new sites.new ≡ Instances.turns_made
        MOST_TURNS (Instances.turn_made (around_seen around_it.entry) id.now
        (gblock_tree block.now) (block_text_seen word.entry))
        (making_seen left.old sites.old)) }
{
    for _turn in 0..MOST_TURNS {
        let choice = take(left);
        if !add_turn(alloc, around_it, word, id, block, choice, left, sites)? {
            return Ok(());
        }
    }
    Ok(())
}

// A loop, as a construct comes to it.
#[cycle(blocks)]
fn add_loop<'a>(
    alloc: Global,
    around_it: Around<'a, '_>,
    id: &'a Id,
    block: &'a Gblock<Item>,
    choice: Choice<'a>,
    left: &mut Left<'a, '_>,
    sites: &mut Listing<'a>,
) -> Result<(), NoMemory>
    ensures { OnOk result (making_seen left.new sites.new ≡ Instances.by_loop
        (Instances.in_loop (around_seen around_it.entry) (block_place (gblock_tree block.now))
        (Instances.turn_made (around_seen around_it.entry) id.now (gblock_tree block.now)))
        (choice_seen choice.entry) (making_seen left.old sites.old)) }
{
    match choice {
        Choice::Loop(word) => {
            let place = block_place(block);
            add_site(around_it.scope, &[], place, Declared::Loop(word), sites)?;
            add_turns(alloc, around_it, word, id, block, left, sites)
        }
        Choice::Neither | Choice::Holds(_) | Choice::Fails(_) | Choice::Turn(_) | Choice::End => Ok(
            (),
        ),
    }
}

// An item, or what a generate construct comes to.
#[cycle(blocks)]
fn add_one<'a>(
    alloc: Global,
    around_it: Around<'a, '_>,
    item: &'a Item,
    left: &mut Left<'a, '_>,
    sites: &mut Listing<'a>,
) -> Result<(), NoMemory>
    ensures { OnOk result (making_seen left.new sites.new ≡ Instances.item_made
        (around_seen around_it.entry) (item_tree item.now) (making_seen left.old sites.old)) }
{
    match &item.form {
        ItemForm::Plain(plain) => add_plain(alloc, around_it, item.place, plain, sites),
        ItemForm::Generate | ItemForm::Endgenerate => Ok(()),
        ItemForm::For { start, body, .. } => {
            let choice = take(left);
            add_loop(
                alloc,
                around_it,
                &start.get().id,
                body.get(),
                choice,
                left,
                sites,
            )
        }
        ItemForm::If { holds, fails, .. } => {
            match take(left) {
                Choice::Holds(word) => {
                    add_branch(alloc, around_it, holds.get(), word, left, sites)
                }
                Choice::Fails(word) => add_other(alloc, around_it, fails, word, left, sites),
                Choice::Neither | Choice::Loop(_) | Choice::Turn(_) | Choice::End => Ok(()),
            }
        }
    }
}

// An item, where there is room.
#[cycle(blocks)]
fn add_next<'a>(
    alloc: Global,
    around_it: Around<'a, '_>,
    item: &'a Item,
    left: &mut Left<'a, '_>,
    sites: &mut Listing<'a>,
) -> Result<(), NoMemory>
    ensures { OnOk result (making_seen left.new sites.new ≡ Instances.next_made
        (around_seen around_it.entry) (item_tree item.now) (making_seen left.old sites.old)) }
{
    if sites.next > MOST_NUMBERS {
        return Ok(());
    }
    add_one(alloc, around_it, item, left, sites)
}

// Items in a row.
#[cycle(blocks)]
pub(crate) fn add_all<'a>(
    alloc: Global,
    around_it: Around<'a, '_>,
    items: &'a [Item],
    left: &mut Left<'a, '_>,
    sites: &mut Listing<'a>,
) -> Result<(), NoMemory>
    ensures { OnOk result (making_seen left.new sites.new ≡ Instances.items_made
        (around_seen around_it.entry) (tree.items (map item_tree items.now))
        (making_seen left.old sites.old)) }
{
    for item in items {
        add_next(alloc, around_it, item, left, sites)?;
    }
    Ok(())
}

ghost use Rattle.std.specs.Prelude.{◌≡◌, length, map, is_none, IfOk, OnOk};
ghost use Rattle.vh_ast.specs.Items;
ghost use Rattle.vh_ast.specs.Views.{item_tree};
ghost use Rattle.vh_elab_declare.specs.Constants.{nothing_known};
ghost use Rattle.vh_elab_declare.specs.FirstPass.{settled_known};
ghost use Rattle.vh_elab_declare.specs.Views.{known_seen};
ghost use Rattle.vh_elab_ports.specs.Views.{ids_seen};
ghost use Rattle.vh_bind_scope.specs.Names.{meaning_in};
ghost use Rattle.vh_elab_sites.specs.Blocks.{text_bytes};
ghost use Rattle.vh_elab_instances.specs.Instances.{items_ids, scope_sites, seen_of};
ghost use Rattle.vh_elab_sites.specs.Views.{block_name_seen, block_text_seen};
ghost use Rattle.vh_elab_unroll.specs.Constructs;
ghost use Rattle.vh_elab_unroll.specs.Views.{home_of, tree_of, turn_seen, unrolling_seen};

use crate::state::{Instance, Unrolling, home_in};
use std::alloc::Global;
use vh_ast::{Id, Item};
use vh_base::{NoMemory, ObjId, Place};
use vh_bind::Genvar;
use vh_bind_scope::{Meaning, Names};
use vh_design_nodes::{Detail, Kind, Name, ObjectInfo};
use vh_elab_declare::{Genvars, Known, around, declare, instance_object};
use vh_elab_instances::{declared_ids, scope_sites};
use vh_elab_sites::{BlockName, BlockText, block_bytes};

// Names that are declared in a scope.
fn declare_ids(alloc: Global, scope: u32, ids: &[&Id], names: &mut Names) -> Result<(), NoMemory>
    ensures { OnOk result (names.new ≡ seen_of scope (ids_seen ids.now) names.old) }
{
    for id in ids {
        names.declare(alloc, ObjId::new(scope), id.name.as_slice(), Meaning::Gate)?;
    }
    Ok(())
}

// The names that items declare in a scope count there.
fn see_ids(alloc: Global, scope: u32, items: &[Item], names: &mut Names) -> Result<(), NoMemory>
    ensures { OnOk result (names.new ≡ seen_of scope
        (items_ids (Items.items (map item_tree items.now))) names.old) }
{
    let ids = declared_ids(alloc, items)?;
    declare_ids(alloc, scope, &ids, names)
}

// An object is known, with its own items.
fn open_object(
    alloc: Global,
    instance: Instance,
    number: u32,
    object: ObjectInfo,
    around: &[ObjId],
    items: &[Item],
    known: &mut Known,
) -> Result<(), NoMemory>
    ensures { OnOk result (known_seen known.new
        ≡ Constructs.with_ids number (items_ids (Items.items (map item_tree items.now)))
        (settled_known (home_of instance.entry) object (scope_sites (tree_of instance.entry)
        number around.now (Items.items (map item_tree items.now))).all
        (known_seen known.old))) }
{
    let sites = scope_sites(alloc, instance.ports, number, around, items)?;
    declare(alloc, home_in(instance), object, &sites.all, known)?;
    see_ids(alloc, number, items, &mut known.names)
}

// The module itself.
pub(crate) fn open_module(
    alloc: Global,
    instance: Instance,
    known: &mut Known,
) -> Result<(), NoMemory>
    ensures { known_seen known.old ≡ nothing_known → OnOk result (known_seen known.new
        ≡ Constructs.module_known (home_of instance.entry) (tree_of instance.entry)) }
{
    let module = instance.ports.module();
    let name = module.id.name.as_slice();
    let object = instance_object(alloc, module, name, module.id.place, None)?;
    open_object(
        alloc,
        instance,
        0,
        object,
        &[],
        module.items.as_slice(),
        known,
    )
}

// A generate block as an object.
fn block_object(
    alloc: Global,
    scope: u32,
    name: BlockName,
    place: Place,
) -> Result<ObjectInfo, NoMemory>
    ensures { IfOk result (λ o. o
        ≡ Constructs.block_object scope (block_name_seen name.entry) place) }
{
    Ok(ObjectInfo {
        kind: Kind::GenScope,
        name: Name::from_slice(alloc, &block_bytes(alloc, name)?)?,
        parent: Some(ObjId::new(scope)),
        width: 1,
        signed: false,
        words: 0,
        line: place.line,
        detail: Detail::Plain,
    })
}

// The genvar of a loop's block.
fn keep_turn(
    alloc: Global,
    number: u32,
    turn: Option<&Genvar>,
    genvars: &mut Genvars,
) -> Result<(), NoMemory>
    ensures { OnOk result (genvars.new
        ≡ Constructs.genvars_kept number (turn_seen turn.entry) genvars.old) }
{
    let Some(turn) = turn else {
        return Ok(());
    };
    let genvar = Genvar {
        scope: turn.scope,
        name: Name::from_slice(alloc, turn.name.as_slice())?,
        value: turn.value,
    };
    genvars.keep(number, genvar)
}

// A block in a scope; answers its number.
pub(crate) fn open_block(
    alloc: Global,
    instance: Instance,
    scope: u32,
    place: Place,
    name: BlockName,
    turn: Option<&Genvar>,
    items: &[Item],
    state: &mut Unrolling,
) -> Result<u32, NoMemory>
    ensures number { IfOk result (λ n. n ≡ length (unrolling_seen state.old).known.objects) }
    ensures opened { OnOk result (unrolling_seen state.new
        ≡ Constructs.opened (home_of instance.entry) (tree_of instance.entry) scope place
        (block_name_seen name.entry) (turn_seen turn.entry)
        (Items.items (map item_tree items.now)) (unrolling_seen state.old)) }
{
    let Ok(number) = u32::try_from(state.known.objects.len()) else {
        return Err(NoMemory);
    };
    let Some(blocks) = state.blocks.checked_add(1) else {
        return Err(NoMemory);
    };
    let around = around(alloc, &state.known.objects, ObjId::new(scope))?;
    let object = block_object(alloc, scope, name, place)?;
    keep_turn(alloc, number, turn, &mut state.known.genvars)?;
    open_object(
        alloc,
        instance,
        number,
        object,
        &around,
        items,
        &mut state.known,
    )?;
    state.blocks = blocks;
    Ok(number)
}

// Whether a scope declares no such name.
fn is_free(alloc: Global, names: &Names, scope: u32, word: BlockText) -> Result<bool, NoMemory>
    ensures { IfOk result (λ b. b
        ≡ is_none (meaning_in names.now scope (text_bytes (block_text_seen word.entry)))) }
{
    let bytes = block_bytes(alloc, BlockName { word, index: None })?;
    Ok(names.meaning(ObjId::new(scope), &bytes).is_none())
}

// What a construct's block is called where no name is written: with so many zeros that the scope
// doesn't declare it.
pub(crate) fn counted_name<'a>(
    alloc: Global,
    names: &Names,
    scope: u32,
    count: u32,
) -> Result<BlockText<'a>, NoMemory>
    ensures { IfOk result (λ t. block_text_seen t
        ≡ Constructs.free_text Constructs.most_zeros names.now scope 0 count) }
{
    for zeros in 0..1025_u32 {
        let word = BlockText::Counted { zeros, count };
        if is_free(alloc, names, scope, word)? {
            return Ok(word);
        }
    }
    Ok(BlockText::Counted { zeros: 1025, count })
}

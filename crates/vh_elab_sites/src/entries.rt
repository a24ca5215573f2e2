ghost use Rattle.std.specs.Prelude.{◌≡◌, ◌++◌, map, IfOk, OnOk};
ghost use Rattle.vh_ast.specs.Items as tree;
ghost use Rattle.vh_ast.specs.Views.{gblock_tree, item_tree};
ghost use Rattle.vh_elab_sites.specs.Blocks;
ghost use Rattle.vh_elab_sites.specs.Views.{block_name_seen, block_text_seen};

use std::alloc::Global;
use vh_ast::{Gblock, Id, Item, ItemForm};
use vh_base::{NoMemory, Place};

/// What a generate block is called: as it is written, or by its construct's number in its scope,
/// with so many zeros before it (IEEE 1364-2005, 12.4.3).
#[derive(Clone, Copy)]
pub enum BlockText<'a> {
    Written(&'a [u8]),
    Counted { zeros: u32, count: u32 },
}

/// The name of a generate block: that of a loop's has the value of its genvar behind it.
#[derive(Clone, Copy)]
pub struct BlockName<'a> {
    pub word: BlockText<'a>,
    pub index: Option<i32>,
}

// The number of a construct, behind some bytes.
fn add_counted(alloc: Global, bytes: &mut Vec<u8>, zeros: u32, count: u32) -> Result<(), NoMemory>
    ensures { OnOk result (bytes.new.items
        ≡ bytes.old.items ++ Blocks.counted_bytes zeros count) }
{
    bytes.extend_from_slice(b"genblk")?;
    let zeros = vec![in alloc; b'0'; zeros as usize]?;
    bytes.extend_from_slice(&zeros)?;
    let digits = format!(in alloc; "{count}")?;
    bytes.extend_from_slice(digits.as_bytes())?;
    Ok(())
}

fn add_word(alloc: Global, bytes: &mut Vec<u8>, word: BlockText) -> Result<(), NoMemory>
    ensures { OnOk result (bytes.new.items
        ≡ bytes.old.items ++ Blocks.text_bytes (block_text_seen word.entry)) }
{
    match word {
        BlockText::Written(text) => {
            bytes.extend_from_slice(text)?;
            Ok(())
        }
        BlockText::Counted { zeros, count } => add_counted(alloc, bytes, zeros, count),
    }
}

fn add_index(alloc: Global, bytes: &mut Vec<u8>, index: Option<i32>) -> Result<(), NoMemory>
    ensures { OnOk result (bytes.new.items ≡ Blocks.indexed_bytes bytes.old.items index) }
{
    match index {
        None => Ok(()),
        Some(index) => {
            let digits = format!(in alloc; "[{index}]")?;
            bytes.extend_from_slice(digits.as_bytes())?;
            Ok(())
        }
    }
}

/// The bytes of such a name.
pub fn block_bytes(alloc: Global, name: BlockName) -> Result<Vec<u8>, NoMemory>
    ensures { IfOk result (λ v. v.items ≡ Blocks.name_bytes (block_name_seen name.entry)) }
{
    let mut bytes = Vec::new(alloc);
    add_word(alloc, &mut bytes, name.word)?;
    add_index(alloc, &mut bytes, name.index)?;
    Ok(bytes)
}

/// What a generate construct comes to, in the order in which blocks are made: the constructs in a
/// block come behind it.
#[derive(Clone, Copy)]
pub enum Choice<'a> {
    /// No branch.
    Neither,
    /// The first branch, whose block is called so.
    Holds(BlockText<'a>),
    /// The branch behind `else`.
    Fails(BlockText<'a>),
    /// A loop, whose blocks are called so.
    Loop(BlockText<'a>),
    /// A block of it, with the value of its genvar.
    Turn(i32),
    /// No further block.
    End,
}

/// A place at the name that is written, or else at the first token.
pub fn name_place(place: Place, id: &Option<Id>) -> Place
    ensures { result ≡ Blocks.name_place place id.now }
{
    match id {
        None => place,
        Some(id) => id.place,
    }
}

/// Where a generate block stands: at its name, or else at its first token.
pub fn block_place(block: &Gblock<Item>) -> Place
    ensures { result ≡ Blocks.block_place (gblock_tree block.now) }
{
    match block {
        Gblock::Item(place, _) => *place,
        Gblock::Block { place, id, .. } => name_place(*place, id),
    }
}

/// The items of a block.
pub fn block_items(block: &Gblock<Item>) -> &[Item]
    ensures { tree.items (map item_tree result.now) ≡ Blocks.block_items (gblock_tree block.now) }
{
    match block {
        Gblock::Item(_, items) => items.as_slice(),
        Gblock::Block { items, .. } => items.as_slice(),
    }
}

fn is_if(item: &Item) -> bool
    ensures { result ≡ Blocks.is_if (item_tree item.now) }
{
    match item.form {
        ItemForm::If { .. } => true,
        ItemForm::Plain(_) | ItemForm::Generate | ItemForm::Endgenerate | ItemForm::For { .. } =>
            false,
    }
}

fn are_none(items: &[Item]) -> bool
    ensures { result ≡ Blocks.are_none (tree.items (map item_tree items.now)) }
{
    match items {
        [] => true,
        [_, ..] => false,
    }
}

/// Whether items are one `if` alone.
pub fn is_lone(items: &[Item]) -> bool
    ensures { result ≡ Blocks.is_lone (tree.items (map item_tree items.now)) }
{
    match items {
        [] => false,
        [item, more @ ..] => is_if(item) && are_none(more),
    }
}

/// Whether a branch is an `if` that stands there without `begin`: it belongs to the same construct.
pub fn is_lone_if(block: &Gblock<Item>) -> bool
    ensures { result ≡ Blocks.is_lone_if (gblock_tree block.now) }
{
    match block {
        Gblock::Item(_, items) => is_lone(items.as_slice()),
        Gblock::Block { .. } => false,
    }
}

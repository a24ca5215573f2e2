ghost use Rattle.std.specs.Prelude.{◌≡◌, map, IfOk, OnOk};
ghost use Rattle.vh_ast.specs.Items;
ghost use Rattle.vh_ast.specs.Views.{gblock_tree, gelse_tree, item_tree, module_tree, plain_tree};
ghost use Rattle.vh_elab_mentions.specs.Mentions;
ghost use Rattle.vh_elab_mentions.specs.Views.{ids_seen};

use sqlite_items::Boxed;
use std::alloc::Global;
use vh_ast::{Gblock, Id, Item, ItemForm, Module, Plain};
use vh_base::NoMemory;

// That of an item in which none stands.
fn plain_modules<'a>(plain: &'a Plain, ids: &mut Vec<&'a Id>) -> Result<(), NoMemory>
    ensures { OnOk result (ids_seen ids.new.items
        ≡ Mentions.plain_modules (plain_tree plain.now) (ids_seen ids.old.items)) }
{
    match plain {
        Plain::Inst { module, .. } => {
            ids.push(module)?;
        }
        Plain::Port { .. }
        | Plain::Net { .. }
        | Plain::Decl(_)
        | Plain::Event(_)
        | Plain::Genvar(_)
        | Plain::Parameter { .. }
        | Plain::Assign(_, _)
        | Plain::Gate { .. }
        | Plain::Process(_, _)
        | Plain::Task(_)
        | Plain::Function(_) => {}
    }
    Ok(())
}

// Those of an item.
#[cycle(items)]
fn item_modules<'a>(item: &'a Item, ids: &mut Vec<&'a Id>) -> Result<(), NoMemory>
    ensures { OnOk result (ids_seen ids.new.items
        ≡ Mentions.item_modules (item_tree item.now) (ids_seen ids.old.items)) }
{
    match &item.form {
        ItemForm::Plain(plain) => plain_modules(plain, ids),
        ItemForm::Generate | ItemForm::Endgenerate => Ok(()),
        ItemForm::For { body, .. } => gblock_modules(body.get(), ids),
        ItemForm::If { holds, fails, .. } => {
            gblock_modules(holds.get(), ids)?;
            else_modules(fails, ids)
        }
    }
}

#[cycle(items)]
fn gblock_modules<'a>(block: &'a Gblock<Item>, ids: &mut Vec<&'a Id>) -> Result<(), NoMemory>
    ensures { OnOk result (ids_seen ids.new.items
        ≡ Mentions.gblock_modules (gblock_tree block.now) (ids_seen ids.old.items)) }
{
    match block {
        Gblock::Item(_, items) => items_modules(items.as_slice(), ids),
        Gblock::Block { items, .. } => items_modules(items.as_slice(), ids),
    }
}

#[cycle(items)]
fn else_modules<'a>(
    fails: &'a Option<Boxed<Gblock<Item>>>,
    ids: &mut Vec<&'a Id>,
) -> Result<(), NoMemory>
    ensures { OnOk result (ids_seen ids.new.items
        ≡ Mentions.else_modules (gelse_tree fails.now) (ids_seen ids.old.items)) }
{
    match fails {
        None => Ok(()),
        Some(block) => gblock_modules(block.get(), ids),
    }
}

#[cycle(items)]
fn items_modules<'a>(items: &'a [Item], ids: &mut Vec<&'a Id>) -> Result<(), NoMemory>
    ensures { OnOk result (ids_seen ids.new.items ≡
        Mentions.items_modules (Items.items (map item_tree items.now)) (ids_seen ids.old.items)) }
{
    for item in items {
        item_modules(item, ids)?;
    }
    Ok(())
}

/// The modules of which a module has instances, also in generate constructs that aren't taken: one
/// for each item.
pub fn instantiated(alloc: Global, module: &Module) -> Result<Vec<&'_ Id>, NoMemory>
    ensures { IfOk result (λ v. ids_seen v.items ≡ Mentions.instantiated (module_tree module.now)) }
{
    let mut ids = Vec::new(alloc);
    items_modules(module.items.as_slice(), &mut ids)?;
    Ok(ids)
}

ghost use Rattle.std.specs.Prelude.{◌≡◌, ◌++◌, ◌∷◌, [], map, IfOk, OnOk};
ghost use Rattle.vh_ast.specs.Items as tree;
ghost use Rattle.vh_ast.specs.Views.{assigned_tree, decl_tree, gate_tree, gblock_tree, gelse_tree, init_tree, inst_tree, item_tree, net_tree, par_tree, plain_tree, var_tree};
ghost use Rattle.vh_elab_ports.specs.Views.{directed_seen, ids_seen};
ghost use Rattle.vh_elab_instances.specs.Instances;
ghost use Rattle.vh_elab_instances.specs.Views.{AddsIds};

use sqlite_items::Boxed;
use std::alloc::Global;
use vh_ast::{Assigned, Decl, Gate, Gblock, Id, Init, Inst, Item, ItemForm, Net, Par, Plain, Var};
use vh_base::NoMemory;
use vh_elab_ports::Directed;

fn see<'a>(id: &'a Id, ids: &mut Vec<&'a Id>) -> Result<(), NoMemory>
    ensures { OnOk result (AddsIds (id.now ∷ []) ids.old ids.new) }
{
    ids.push(id)?;
    Ok(())
}

fn see_ids<'a>(all: &'a [Id], ids: &mut Vec<&'a Id>) -> Result<(), NoMemory>
    ensures { OnOk result (AddsIds all.now ids.old ids.new) }
{
    for id in all {
        see(id, ids)?;
    }
    Ok(())
}

fn see_vars<'a>(vars: &'a [Var], ids: &mut Vec<&'a Id>) -> Result<(), NoMemory>
    ensures { OnOk result (AddsIds (map (λ v. v.id) (map var_tree vars.now)) ids.old ids.new) }
{
    for var in vars {
        see(&var.id, ids)?;
    }
    Ok(())
}

fn see_inits<'a>(inits: &'a [Init], ids: &mut Vec<&'a Id>) -> Result<(), NoMemory>
    ensures { OnOk result (AddsIds (map (λ i. i.id) (map init_tree inits.now)) ids.old ids.new) }
{
    for init in inits {
        see(&init.id, ids)?;
    }
    Ok(())
}

fn see_decl<'a>(decl: &'a Decl, ids: &mut Vec<&'a Id>) -> Result<(), NoMemory>
    ensures { OnOk result (AddsIds (Instances.decl_ids (decl_tree decl.now)) ids.old ids.new) }
{
    match decl {
        Decl::Reg { vars, .. } => see_vars(vars.as_slice(), ids),
        Decl::Integer(_, inits) | Decl::Time(_, inits) => see_inits(inits.as_slice(), ids),
    }
}

fn see_nets<'a>(nets: &'a [Net], ids: &mut Vec<&'a Id>) -> Result<(), NoMemory>
    ensures { OnOk result (AddsIds (map (λ n. n.id) (map net_tree nets.now)) ids.old ids.new) }
{
    for net in nets {
        see(&net.id, ids)?;
    }
    Ok(())
}

fn see_constants<'a>(all: &'a [Assigned], ids: &mut Vec<&'a Id>) -> Result<(), NoMemory>
    ensures { OnOk result (AddsIds (map (λ a. a.id) (map assigned_tree all.now)) ids.old ids.new) }
{
    for assigned in all {
        see(&assigned.id, ids)?;
    }
    Ok(())
}

fn see_written<'a>(id: &'a Option<Id>, ids: &mut Vec<&'a Id>) -> Result<(), NoMemory>
    ensures { OnOk result (AddsIds (Instances.written_id id.now) ids.old ids.new) }
{
    match id {
        None => Ok(()),
        Some(id) => see(id, ids),
    }
}

fn see_gates<'a>(gates: &'a [Gate], ids: &mut Vec<&'a Id>) -> Result<(), NoMemory>
    ensures { OnOk result (AddsIds (Instances.gate_ids (map gate_tree gates.now)) ids.old ids.new) }
{
    for gate in gates {
        see_written(&gate.id, ids)?;
    }
    Ok(())
}

fn see_insts<'a>(insts: &'a [Inst], ids: &mut Vec<&'a Id>) -> Result<(), NoMemory>
    ensures { OnOk result (AddsIds (map (λ i. i.id) (map inst_tree insts.now)) ids.old ids.new) }
{
    for inst in insts {
        see(&inst.id, ids)?;
    }
    Ok(())
}

// The names that an item declares.
fn see_plain<'a>(plain: &'a Plain, ids: &mut Vec<&'a Id>) -> Result<(), NoMemory>
    ensures { OnOk result (AddsIds (Instances.plain_ids (plain_tree plain.now)) ids.old ids.new) }
{
    match plain {
        Plain::Port { ids: all, .. } => see_ids(all.as_slice(), ids),
        Plain::Net { nets, .. } => see_nets(nets.as_slice(), ids),
        Plain::Decl(decl) => see_decl(decl, ids),
        Plain::Event(all) | Plain::Genvar(all) => see_ids(all.as_slice(), ids),
        Plain::Parameter { values, .. } => see_constants(values.as_slice(), ids),
        Plain::Gate { gates, .. } => see_gates(gates.as_slice(), ids),
        Plain::Inst { insts, .. } => see_insts(insts.as_slice(), ids),
        Plain::Task(task) => see(&task.get().id, ids),
        Plain::Function(function) => see(&function.get().id, ids),
        Plain::Assign(_, _) | Plain::Process(_, _) => Ok(()),
    }
}

// The name that is written of a generate block counts, taken or not.
fn see_block<'a>(block: &'a Gblock<Item>, ids: &mut Vec<&'a Id>) -> Result<(), NoMemory>
    ensures { OnOk result (AddsIds (Instances.gblock_ids (gblock_tree block.now)) ids.old ids.new) }
{
    match block {
        Gblock::Block { id, .. } => see_written(id, ids),
        Gblock::Item(_, _) => Ok(()),
    }
}

fn see_else<'a>(
    block: &'a Option<Boxed<Gblock<Item>>>,
    ids: &mut Vec<&'a Id>,
) -> Result<(), NoMemory>
    ensures { OnOk result (AddsIds (Instances.else_ids (gelse_tree block.now)) ids.old ids.new) }
{
    match block {
        None => Ok(()),
        Some(block) => see_block(block.get(), ids),
    }
}

fn see_item<'a>(item: &'a Item, ids: &mut Vec<&'a Id>) -> Result<(), NoMemory>
    ensures { OnOk result (AddsIds (Instances.item_ids (item_tree item.now)) ids.old ids.new) }
{
    match &item.form {
        ItemForm::Plain(plain) => see_plain(plain, ids),
        ItemForm::Generate | ItemForm::Endgenerate => Ok(()),
        ItemForm::For { body, .. } => see_block(body.get(), ids),
        ItemForm::If { holds, fails, .. } => {
            see_block(holds.get(), ids)?;
            see_else(fails, ids)
        }
    }
}

// The names that items declare in their scope, behind some others.
pub(crate) fn see_items<'a>(items: &'a [Item], ids: &mut Vec<&'a Id>) -> Result<(), NoMemory>
    ensures { let all = Instances.items_ids (tree.items (map item_tree items.now)) in
        OnOk result (AddsIds all ids.old ids.new) }
{
    for item in items {
        see_item(item, ids)?;
    }
    Ok(())
}

fn see_pars<'a>(pars: &'a [Par], ids: &mut Vec<&'a Id>) -> Result<(), NoMemory>
    ensures { OnOk result (AddsIds (map (λ p. p.id) (map par_tree pars.now)) ids.old ids.new) }
{
    for par in pars {
        see(&par.id, ids)?;
    }
    Ok(())
}

fn see_directed<'a>(all: &[Directed<'a>], ids: &mut Vec<&'a Id>) -> Result<(), NoMemory>
    ensures { OnOk result (AddsIds (map (λ d. d.id) (map directed_seen all.now)) ids.old ids.new) }
{
    for directed in all {
        see(directed.id, ids)?;
    }
    Ok(())
}

/// The names that items declare in their scope: of generate blocks those that are written.
pub fn declared_ids<'a>(alloc: Global, items: &'a [Item]) -> Result<Vec<&'a Id>, NoMemory>
    ensures { IfOk result (λ v. ids_seen v.items
        ≡ Instances.items_ids (tree.items (map item_tree items.now))) }
{
    let mut ids = Vec::new(alloc);
    see_items(items, &mut ids)?;
    Ok(ids)
}

// The names that a module declares: in its header, and by its own items.
pub(crate) fn module_ids<'a>(
    alloc: Global,
    pars: &'a [Par],
    header: &[Directed<'a>],
    items: &'a [Item],
) -> Result<Vec<&'a Id>, NoMemory>
    ensures { IfOk result (λ v. ids_seen v.items
        ≡ map (λ p. p.id) (map par_tree pars.now) ++ (map (λ d. d.id) (map directed_seen header.now)
        ++ Instances.items_ids (tree.items (map item_tree items.now)))) }
{
    let mut ids = Vec::new(alloc);
    see_pars(pars, &mut ids)?;
    see_directed(header, &mut ids)?;
    see_items(items, &mut ids)?;
    Ok(ids)
}

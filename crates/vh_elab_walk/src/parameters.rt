ghost use Rattle.std.specs.Prelude.{◌≡◌, ◌++◌, map, IfOk, OnOk};
ghost use Rattle.vh_ast.specs.Views.{assigned_tree, item_tree, module_tree, par_tree, plain_tree};
ghost use Rattle.vh_elab_walk.specs.Overrides;
ghost use Rattle.vh_elab_walk.specs.Views.{names_seen};

use std::alloc::Global;
use vh_ast::{Assigned, Item, ItemForm, Module, Par, ParameterWord, Plain};
use vh_base::NoMemory;

fn add_values<'a>(all: &'a [Assigned], names: &mut Vec<&'a [u8]>) -> Result<(), NoMemory>
    ensures { OnOk result (names_seen names.new.items ≡
        names_seen names.old.items ++ map (λ a. a.id.name) (map assigned_tree all.now)) }
{
    for assigned in all {
        names.push(assigned.id.name.as_slice())?;
    }
    Ok(())
}

fn add_plain<'a>(plain: &'a Plain, names: &mut Vec<&'a [u8]>) -> Result<(), NoMemory>
    ensures { OnOk result (names_seen names.new.items ≡
        names_seen names.old.items ++ Overrides.plain_parameters (plain_tree plain.now)) }
{
    match plain {
        Plain::Parameter {
            word: ParameterWord::Parameter,
            values,
            ..
        } => add_values(values.as_slice(), names),
        Plain::Parameter { .. }
        | Plain::Port { .. }
        | Plain::Net { .. }
        | Plain::Decl(_)
        | Plain::Event(_)
        | Plain::Genvar(_)
        | Plain::Assign(_, _)
        | Plain::Gate { .. }
        | Plain::Inst { .. }
        | Plain::Process(_, _)
        | Plain::Task(_)
        | Plain::Function(_) => Ok(()),
    }
}

fn add_item<'a>(item: &'a Item, names: &mut Vec<&'a [u8]>) -> Result<(), NoMemory>
    ensures { OnOk result (names_seen names.new.items ≡
        names_seen names.old.items ++ Overrides.item_parameters (item_tree item.now)) }
{
    match &item.form {
        ItemForm::Plain(plain) => add_plain(plain, names),
        ItemForm::Generate | ItemForm::Endgenerate | ItemForm::For { .. } | ItemForm::If { .. } =>
            Ok(()),
    }
}

// Those of a header.
fn add_header<'a>(pars: &'a [Par], names: &mut Vec<&'a [u8]>) -> Result<(), NoMemory>
    ensures { OnOk result (names_seen names.new.items ≡
        names_seen names.old.items ++ map (λ p. p.id.name) (map par_tree pars.now)) }
{
    for par in pars {
        names.push(par.id.name.as_slice())?;
    }
    Ok(())
}

fn add_items<'a>(items: &'a [Item], names: &mut Vec<&'a [u8]>) -> Result<(), NoMemory>
    ensures { OnOk result (names_seen names.new.items ≡
        names_seen names.old.items ++ Overrides.items_parameters (map item_tree items.now)) }
{
    for item in items {
        add_item(item, names)?;
    }
    Ok(())
}

// The parameters of a module, by name.
pub(crate) fn parameters_of(alloc: Global, module: &Module) -> Result<Vec<&[u8]>, NoMemory>
    ensures { IfOk result (λ v. names_seen v.items
        ≡ Overrides.parameters_of (module_tree module.now)) }
{
    let mut names = Vec::new(alloc);
    add_header(module.pars.as_slice(), &mut names)?;
    add_items(module.items.as_slice(), &mut names)?;
    Ok(names)
}

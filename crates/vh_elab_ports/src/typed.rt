ghost use Rattle.std.specs.Prelude.{◌≡◌, ◌++◌, map, IfOk, OnOk};
ghost use Rattle.vh_ast.specs.Views.{decl_tree, item_tree, net_tree, plain_tree, type_tree, var_part_tree, var_tree};
ghost use Rattle.vh_elab_ports.specs.Ports as spec;
ghost use Rattle.vh_elab_ports.specs.Views.{typed_seen};

use std::alloc::Global;
use vh_ast::{DataType, Decl, Item, ItemForm, Net, Plain, Var, VarPart};
use vh_base::NoMemory;

// A register or net that a module's items declare, with its type.
#[derive(Clone, Copy)]
pub(crate) struct Typed<'a> {
    pub(crate) name: &'a [u8],
    pub(crate) data_type: &'a DataType,
}

fn is_register(part: &VarPart) -> bool
    ensures { result ≡ spec.is_register (var_part_tree part.now) }
{
    match part {
        VarPart::Plain | VarPart::Value(_) => true,
        VarPart::Range(_) => false,
    }
}

fn add_var<'a>(
    data_type: &'a DataType,
    var: &'a Var,
    typed: &mut Vec<Typed<'a>>,
) -> Result<(), NoMemory>
    ensures { OnOk result (map typed_seen typed.new.items ≡ map typed_seen typed.old.items
        ++ spec.var_typed (type_tree data_type.now) (var_tree var.now)) }
{
    if is_register(&var.part) {
        typed.push(Typed {
            name: var.id.name.as_slice(),
            data_type,
        })?;
    }
    Ok(())
}

fn add_vars<'a>(
    data_type: &'a DataType,
    vars: &'a [Var],
    typed: &mut Vec<Typed<'a>>,
) -> Result<(), NoMemory>
    ensures { OnOk result (map typed_seen typed.new.items ≡ map typed_seen typed.old.items
        ++ spec.vars_typed (type_tree data_type.now) (map var_tree vars.now)) }
{
    for var in vars {
        add_var(data_type, var, typed)?;
    }
    Ok(())
}

fn add_nets<'a>(
    data_type: &'a DataType,
    nets: &'a [Net],
    typed: &mut Vec<Typed<'a>>,
) -> Result<(), NoMemory>
    ensures { OnOk result (map typed_seen typed.new.items ≡ map typed_seen typed.old.items
        ++ map (spec.net_typed (type_tree data_type.now)) (map net_tree nets.now)) }
{
    for net in nets {
        typed.push(Typed {
            name: net.id.name.as_slice(),
            data_type,
        })?;
    }
    Ok(())
}

fn add_decl<'a>(decl: &'a Decl, typed: &mut Vec<Typed<'a>>) -> Result<(), NoMemory>
    ensures { OnOk result (map typed_seen typed.new.items ≡ map typed_seen typed.old.items
        ++ spec.decl_typed (decl_tree decl.now)) }
{
    match decl {
        Decl::Reg {
            data_type,
            vars,
            ..
        } => add_vars(data_type, vars.as_slice(), typed),
        Decl::Integer(_, _) | Decl::Time(_, _) => Ok(()),
    }
}

fn add_plain<'a>(plain: &'a Plain, typed: &mut Vec<Typed<'a>>) -> Result<(), NoMemory>
    ensures { OnOk result (map typed_seen typed.new.items ≡ map typed_seen typed.old.items
        ++ spec.plain_typed (plain_tree plain.now)) }
{
    match plain {
        Plain::Net {
            data_type,
            nets,
            ..
        } => add_nets(data_type, nets.as_slice(), typed),
        Plain::Decl(decl) => add_decl(decl, typed),
        Plain::Port { .. }
        | Plain::Event(_)
        | Plain::Genvar(_)
        | Plain::Parameter { .. }
        | Plain::Assign(_, _)
        | Plain::Gate { .. }
        | Plain::Inst { .. }
        | Plain::Process(_, _)
        | Plain::Task(_)
        | Plain::Function(_) => Ok(()),
    }
}

fn add_item<'a>(item: &'a Item, typed: &mut Vec<Typed<'a>>) -> Result<(), NoMemory>
    ensures { OnOk result (map typed_seen typed.new.items ≡ map typed_seen typed.old.items
        ++ spec.item_gathered spec.plain_typed (item_tree item.now)) }
{
    match &item.form {
        ItemForm::Plain(plain) => add_plain(plain, typed),
        ItemForm::Generate | ItemForm::Endgenerate | ItemForm::For { .. } | ItemForm::If { .. } =>
            Ok(()),
    }
}

fn add_items<'a>(items: &'a [Item], typed: &mut Vec<Typed<'a>>) -> Result<(), NoMemory>
    ensures { OnOk result (map typed_seen typed.new.items ≡ map typed_seen typed.old.items
        ++ spec.items_typed (map item_tree items.now)) }
{
    for item in items {
        add_item(item, typed)?;
    }
    Ok(())
}

// The registers and nets that items declare.
pub(crate) fn items_typed<'a>(alloc: Global, items: &'a [Item]) -> Result<Vec<Typed<'a>>, NoMemory>
    ensures { IfOk result (λ v. map typed_seen v.items
        ≡ spec.items_typed (map item_tree items.now)) }
{
    let mut typed = Vec::new(alloc);
    add_items(items, &mut typed)?;
    Ok(typed)
}

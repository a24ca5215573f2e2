ghost use Rattle.std.specs.Prelude.{◌≡◌, ◌++◌, ◌∷◌, [], map, IfOk, OnOk};
ghost use Rattle.std.specs.Option.{option_map};
ghost use Rattle.vh_ast.specs.Views.{item_tree, module_tree, pdecl_tree, plain_tree, port_tree, ports_tree, type_tree};
ghost use Rattle.vh_elab_ports.specs.Ports as spec;
ghost use Rattle.vh_elab_ports.specs.Views.{directed_seen};

use crate::header::port_id;
use std::alloc::Global;
use vh_ast::{
    DataType, Direction, Id, Item, ItemForm, Module, Pdecl, Plain, Port, PortType, Ports,
};
use vh_base::NoMemory;

/// A direction that is given to a port (IEEE 1364-2005, 12.3.3).
#[derive(Clone, Copy)]
pub struct Directed<'a> {
    pub id: &'a Id,
    pub direction: Direction,
    pub port_type: Option<PortType>,
    pub data_type: &'a DataType,
}

fn direction_of<'a>(pdecl: &'a Pdecl, id: &'a Id) -> Directed<'a>
    ensures { directed_seen result ≡ spec.direction_of (pdecl_tree pdecl.now) id.now }
{
    Directed {
        id,
        direction: pdecl.direction,
        port_type: pdecl.port_type,
        data_type: &pdecl.data_type,
    }
}

// What a name in a header goes by: alone, the way of the port before it.
fn pdecl_of<'a>(before: &'a Pdecl, port: &'a Port) -> &'a Pdecl
    ensures { pdecl_tree result.now ≡ spec.pdecl_of (pdecl_tree before.now) (port_tree port.now) }
{
    match port {
        Port::Pdecl(pdecl) => pdecl,
        Port::Id(_) => before,
    }
}

// Those behind one in a header.
fn add_more<'a>(
    first: &'a Pdecl,
    ports: &'a [Port],
    all: &mut Vec<Directed<'a>>,
) -> Result<(), NoMemory>
    ensures { OnOk result (map directed_seen all.new.items ≡
        map directed_seen all.old.items
        ++ spec.directed_more (pdecl_tree first.now) (map port_tree ports.now)) }
{
    let mut last = first;
    for port in ports {
        last = pdecl_of(last, port);
        all.push(direction_of(last, port_id(port)))?;
    }
    Ok(())
}

/// The directions in a header.
pub fn add_header<'a>(ports: &'a Option<Ports>, all: &mut Vec<Directed<'a>>) -> Result<(), NoMemory>
    ensures { OnOk result (map directed_seen all.new.items ≡
        map directed_seen all.old.items ++ spec.header_directed (option_map ports_tree ports.now)) }
{
    if let Some(Ports::Declared(first, more)) = ports {
        all.push(direction_of(first, &first.id))?;
        add_more(first, more.as_slice(), all)?;
    }
    Ok(())
}

// The directions of names in a row.
fn add_ids<'a>(
    direction: Direction,
    port_type: Option<PortType>,
    data_type: &'a DataType,
    ids: &'a [Id],
    all: &mut Vec<Directed<'a>>,
) -> Result<(), NoMemory>
    ensures { OnOk result (map directed_seen all.new.items ≡
        map directed_seen all.old.items
        ++ map (spec.named_directed direction port_type (type_tree data_type.now)) ids.now) }
{
    for id in ids {
        all.push(Directed {
            id,
            direction,
            port_type,
            data_type,
        })?;
    }
    Ok(())
}

fn add_plain<'a>(plain: &'a Plain, all: &mut Vec<Directed<'a>>) -> Result<(), NoMemory>
    ensures { OnOk result (map directed_seen all.new.items ≡
        map directed_seen all.old.items ++ spec.plain_directed (plain_tree plain.now)) }
{
    match plain {
        Plain::Port {
            direction,
            port_type,
            data_type,
            ids,
        } => add_ids(*direction, *port_type, data_type, ids.as_slice(), all),
        Plain::Net { .. }
        | Plain::Decl(_)
        | Plain::Event(_)
        | Plain::Genvar(_)
        | Plain::Parameter { .. }
        | Plain::Assign(_, _)
        | Plain::Gate { .. }
        | Plain::Inst { .. }
        | Plain::Process(_, _)
        | Plain::Task(_)
        | Plain::Function(_) => Ok(()),
    }
}

fn add_item<'a>(item: &'a Item, all: &mut Vec<Directed<'a>>) -> Result<(), NoMemory>
    ensures { OnOk result (map directed_seen all.new.items ≡
        map directed_seen all.old.items
        ++ spec.item_gathered spec.plain_directed (item_tree item.now)) }
{
    match &item.form {
        ItemForm::Plain(plain) => add_plain(plain, all),
        ItemForm::Generate | ItemForm::Endgenerate | ItemForm::For { .. } | ItemForm::If { .. } =>
            Ok(()),
    }
}

fn add_items<'a>(items: &'a [Item], all: &mut Vec<Directed<'a>>) -> Result<(), NoMemory>
    ensures { OnOk result (map directed_seen all.new.items ≡
        map directed_seen all.old.items
        ++ spec.items_gathered spec.plain_directed (map item_tree items.now)) }
{
    for item in items {
        add_item(item, all)?;
    }
    Ok(())
}

// The directions of a module's ports: those in its header, and those among its own items.
pub(crate) fn directed_in(alloc: Global, module: &Module) -> Result<Vec<Directed<'_>>, NoMemory>
    ensures { IfOk result (λ v. map directed_seen v.items
        ≡ spec.directed_in (module_tree module.now)) }
{
    let mut all = Vec::new(alloc);
    add_header(&module.ports, &mut all)?;
    add_items(module.items.as_slice(), &mut all)?;
    Ok(all)
}

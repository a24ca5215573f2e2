ghost use Rattle.std.specs.Prelude.{◌≡◌, ◌++◌, map, IfOk, OnOk};
ghost use Rattle.std.specs.Option.{option_map};
ghost use Rattle.vh_ast.specs.Views.{port_tree, ports_tree};
ghost use Rattle.vh_elab_ports.specs.Ports as spec;
ghost use Rattle.vh_elab_ports.specs.Views.{ids_seen};

use std::alloc::Global;
use vh_ast::{Id, Port, Ports};
use vh_base::NoMemory;

pub(crate) fn port_id(port: &Port) -> &Id
    ensures { result.now ≡ spec.port_id (port_tree port.now) }
{
    match port {
        Port::Pdecl(pdecl) => &pdecl.id,
        Port::Id(id) => id,
    }
}

fn add_ids<'a>(all: &'a [Id], ids: &mut Vec<&'a Id>) -> Result<(), NoMemory>
    ensures { OnOk result (ids_seen ids.new.items ≡ ids_seen ids.old.items ++ all.now) }
{
    for id in all {
        ids.push(id)?;
    }
    Ok(())
}

fn add_ports<'a>(ports: &'a [Port], ids: &mut Vec<&'a Id>) -> Result<(), NoMemory>
    ensures { OnOk result (ids_seen ids.new.items
        ≡ ids_seen ids.old.items ++ map spec.port_id (map port_tree ports.now)) }
{
    for port in ports {
        ids.push(port_id(port))?;
    }
    Ok(())
}

fn add_header<'a>(ports: &'a Ports, ids: &mut Vec<&'a Id>) -> Result<(), NoMemory>
    ensures { OnOk result (ids_seen ids.new.items
        ≡ ids_seen ids.old.items ++ spec.written_ids (ports_tree ports.now)) }
{
    match ports {
        Ports::Plain(all) => add_ids(all.as_slice(), ids),
        Ports::Declared(first, more) => {
            ids.push(&first.id)?;
            add_ports(more.as_slice(), ids)
        }
    }
}

// The names of a header.
pub(crate) fn header_ids<'a>(
    alloc: Global,
    ports: &'a Option<Ports>,
) -> Result<Vec<&'a Id>, NoMemory>
    ensures { IfOk result (λ v. ids_seen v.items
        ≡ spec.header_ids (option_map ports_tree ports.now)) }
{
    let mut ids = Vec::new(alloc);
    if let Some(ports) = ports {
        add_header(ports, &mut ids)?;
    }
    Ok(ids)
}

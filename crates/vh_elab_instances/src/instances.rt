ghost use Rattle.std.specs.Prelude.{◌≡◌, map, IfOk, OnOk};
ghost use Rattle.vh_ast.specs.Items as tree;
ghost use Rattle.vh_ast.specs.Views.{item_tree, module_tree};
ghost use Rattle.vh_elab_ports.specs.Ports.{header_directed};
ghost use Rattle.vh_elab_ports.specs.Views.{directed_seen};
ghost use Rattle.vh_elab_instances.specs.Instances;
ghost use Rattle.vh_elab_sites.specs.Views.{choice_seen, sites_seen, around_seen};

use crate::blocks::{Left, add_all, declare_ids};
use crate::names::module_ids;
use std::alloc::Global;
use vh_ast::{Item, Module};
use vh_base::{NoMemory, ObjId};
use vh_bind_scope::Names;
use vh_elab_ports::{Directed, Ports, add_header};
use vh_elab_sites::{Around, Choice, Listing, add_item, add_pars, add_ports};
use vh_lex::DefaultNet;

fn header_of(alloc: Global, module: &Module) -> Result<Vec<Directed<'_>>, NoMemory>
    ensures { IfOk result (λ v. map directed_seen v.items
        ≡ header_directed (module_tree module.now).ports) }
{
    let mut header = Vec::new(alloc);
    add_header(&module.ports, &mut header)?;
    Ok(header)
}

// No sites of a module yet, but the names that are declared in it.
fn begun<'a>(
    alloc: Global,
    base: u32,
    module: &'a Module,
    header: &[Directed<'a>],
) -> Result<Listing<'a>, NoMemory>
    requires { map directed_seen header.now ≡ header_directed (module_tree module.now).ports }
    ensures { IfOk result (λ so. sites_seen so ≡ Instances.no_sites base (module_tree module.now)) }
{
    let pars = module.pars.as_slice();
    let ids = module_ids(alloc, pars, header, module.items.as_slice())?;
    let mut seen = Names::new(alloc);
    declare_ids(alloc, base, &ids, &mut seen)?;
    Ok(Listing {
        all: Vec::new(alloc),
        next: base.checked_add(1).ok_or(NoMemory)?,
        seen,
    })
}

// Those of a module's header.
fn header_sites<'a>(alloc: Global, base: u32, ports: &Ports<'a>) -> Result<Listing<'a>, NoMemory>
    ensures { IfOk result (λ so. sites_seen so
        ≡ Instances.header_sites base (module_tree ports.now)) }
{
    let module = ports.module;
    let header = header_of(alloc, module)?;
    let mut sites = begun(alloc, base, module, &header)?;
    add_pars(base, module.pars.as_slice(), &mut sites)?;
    add_ports(ports, base, &header, &mut sites)?;
    Ok(sites)
}

fn makes_wires(net: DefaultNet) -> bool
    ensures { result ≡ Instances.makes_wires net }
{
    match net {
        DefaultNet::Wire => true,
        DefaultNet::Nothing => false,
    }
}

/// The sites of a module whose object has this number, and of the generate blocks that are made in
/// it.
pub fn module_sites<'a>(
    alloc: Global,
    base: u32,
    ports: &Ports<'a>,
    choices: &[Choice<'a>],
) -> Result<Listing<'a>, NoMemory>
    ensures { IfOk result (λ so. sites_seen so ≡ Instances.module_sites base
        (module_tree ports.now) (map choice_seen choices.now)) }
{
    let module = ports.module;
    let mut sites = header_sites(alloc, base, ports)?;
    let around_it = Around {
        ports,
        scope: base,
        wires: makes_wires(module.setting.default_net),
        around: &[],
    };
    let mut left = Left { all: choices };
    add_all(
        alloc,
        around_it,
        module.items.as_slice(),
        &mut left,
        &mut sites,
    )?;
    Ok(sites)
}

// The header of a module, around which no scope is.
fn add_own_header<'a>(
    alloc: Global,
    ports: &Ports<'a>,
    number: u32,
    around: &[ObjId],
    sites: &mut Listing<'a>,
) -> Result<(), NoMemory>
    ensures { OnOk result (sites_seen sites.new ≡ Instances.own_header (module_tree ports.now)
        number around.now (sites_seen sites.old)) }
{
    match around {
        [] => {
            let module = ports.module;
            let header = header_of(alloc, module)?;
            add_pars(number, module.pars.as_slice(), sites)?;
            add_ports(ports, number, &header, sites)
        }
        [_, ..] => Ok(()),
    }
}

fn add_items<'a>(
    alloc: Global,
    around_it: Around<'a, '_>,
    items: &'a [Item],
    sites: &mut Listing<'a>,
) -> Result<(), NoMemory>
    ensures { OnOk result (sites_seen sites.new ≡ Instances.own_items
        (around_seen around_it.entry) (tree.items (map item_tree items.now))
        (sites_seen sites.old)) }
{
    for item in items {
        add_item(alloc, around_it, item, sites)?;
    }
    Ok(())
}

/// The sites of a scope's own items alone, without wires: of a module those of its header too.
pub fn scope_sites<'a>(
    alloc: Global,
    ports: &Ports<'a>,
    number: u32,
    around: &[ObjId],
    items: &'a [Item],
) -> Result<Listing<'a>, NoMemory>
    ensures { IfOk result (λ so. sites_seen so ≡ Instances.scope_sites (module_tree ports.now)
        number around.now (tree.items (map item_tree items.now))) }
{
    let mut sites = Listing {
        all: Vec::new(alloc),
        next: number.checked_add(1).ok_or(NoMemory)?,
        seen: Names::new(alloc),
    };
    add_own_header(alloc, ports, number, around, &mut sites)?;
    let around_it = Around {
        ports,
        scope: number,
        wires: false,
        around,
    };
    add_items(alloc, around_it, items, &mut sites)?;
    Ok(sites)
}

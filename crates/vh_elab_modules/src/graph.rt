ghost use Rattle.std.specs.Prelude.{◌≡◌, ◌++◌, map, length, IfOk, OnOk};
ghost use Rattle.vh_ast.specs.Views.{module_tree};
ghost use Rattle.vh_elab_mentions.specs.Views.{ids_seen};
ghost use Rattle.vh_elab_modules.specs.Modules;
ghost use Rattle.vh_elab_modules.specs.Numbers;
ghost use Rattle.vh_elab_modules.specs.Views.{holdings_seen};

use std::alloc::Global;
use vh_ast::{Id, Module};
use vh_base::{NoMemory, Place};
use vh_elab_cycles::Edge;
use vh_elab_index::Index;
use vh_elab_mentions::instantiated;

/// An item with instances of a module: the modules stand for the first of their name, whose places
/// these are.
#[derive(Clone, Copy)]
pub struct Holding {
    pub edge: Edge,
    pub place: Place,
}

/// The names of the modules, by which each is found.
pub fn named<'a>(alloc: Global, modules: &'a [Module]) -> Result<Index<'a>, NoMemory>
    ensures { IfOk result (λ index. index ≡ Modules.names (map module_tree modules.now)) }
{
    let mut index = Index::new(alloc);
    for module in modules {
        index = index.with(alloc, module.id.name.as_slice())?;
    }
    Ok(index)
}

// The number of a name: the place of the first module that has it, or the number of modules.
pub(crate) fn number_of(index: &Index, count: u32, name: &[u8]) -> u32
    requires { count ≡ length index.now }
    ensures { result ≡ Numbers.number_of index.now name.now }
{
    index.position(name).unwrap_or(count)
}

// Those of the items in one module.
fn add_holdings(
    index: &Index,
    count: u32,
    from: u32,
    ids: &[&Id],
    holdings: &mut Vec<Holding>,
) -> Result<(), NoMemory>
    requires { count ≡ length index.now }
    ensures { OnOk result (holdings_seen holdings.new.items ≡ holdings_seen holdings.old.items
        ++ map (Numbers.numbered_in index.now from) (ids_seen ids.now)) }
{
    for id in ids {
        let to = number_of(index, count, id.name.as_slice());
        holdings.push(Holding {
            edge: Edge { from, to },
            place: id.place,
        })?;
    }
    Ok(())
}

fn add_module(
    alloc: Global,
    index: &Index,
    count: u32,
    module: &Module,
    holdings: &mut Vec<Holding>,
) -> Result<(), NoMemory>
    requires { count ≡ length index.now }
    ensures { OnOk result (holdings_seen holdings.new.items ≡ holdings_seen holdings.old.items
        ++ map (Numbers.numbered index.now) (Modules.holdings_in (module_tree module.now))) }
{
    let from = number_of(index, count, module.id.name.as_slice());
    let ids = instantiated(alloc, module)?;
    add_holdings(index, count, from, &ids, holdings)
}

// The items of all modules, in the order of the source.
pub(crate) fn graph_of(
    alloc: Global,
    index: &Index,
    count: u32,
    modules: &[Module],
) -> Result<Vec<Holding>, NoMemory>
    requires { count ≡ length index.now }
    ensures { IfOk result (λ graph. holdings_seen graph.items
        ≡ map (Numbers.numbered index.now) (Modules.holdings (map module_tree modules.now))) }
{
    let mut graph = Vec::new(alloc);
    for module in modules {
        add_module(alloc, index, count, module, &mut graph)?;
    }
    Ok(graph)
}

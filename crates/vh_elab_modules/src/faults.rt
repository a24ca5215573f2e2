ghost use Rattle.std.specs.Prelude.{◌≡◌, map, nat_eq, length, None, IfOk};
ghost use Rattle.vh_ast.specs.Views.{module_tree};
ghost use Rattle.vh_elab_cycles.specs.Cycles;
ghost use Rattle.vh_elab_cycles.specs.Views.{edges_seen};
ghost use Rattle.vh_elab_modules.specs.Modules;
ghost use Rattle.vh_elab_modules.specs.Numbers;
ghost use Rattle.vh_elab_modules.specs.Views.{holdings_seen};

use crate::graph::Holding;
use std::alloc::Global;
use vh_ast::Module;
use vh_base::{DesignFault, NoMemory};
use vh_bind_least::{Fault, fault_if, least};
use vh_elab_cycles::{Edge, on_cycles};
use vh_elab_index::Index;

fn edges_of(alloc: Global, graph: &[Holding]) -> Result<Vec<Edge>, NoMemory>
    ensures { IfOk result (λ edges. edges_seen edges.items
        ≡ map (λ h. h.0) (holdings_seen graph.now)) }
{
    let mut edges = Vec::new(alloc);
    for holding in graph {
        edges.push(holding.edge)?;
    }
    Ok(edges)
}

// The least fault of the items that stand on cycles.
fn least_on(on: &[bool], graph: &[Holding]) -> Option<Fault>
    requires { length on.now ≡ length graph.now }
    ensures { result ≡ Numbers.least_on on.now (holdings_seen graph.now) None }
{
    let mut fault = None;
    for (number, holding) in graph.iter().enumerate() {
        fault = least(fault, fault_if(on[number], DesignFault::N8, holding.place));
    }
    fault
}

// The least item that stands on a cycle.
pub(crate) fn cycle_fault(alloc: Global, graph: &[Holding]) -> Result<Option<Fault>, NoMemory>
    ensures { IfOk result (λ fault. let edges = map (λ h. h.0) (holdings_seen graph.now) in
        fault ≡ Numbers.least_on (map (Cycles.is_on_cycle nat_eq edges) edges)
        (holdings_seen graph.now) None) }
{
    let edges = edges_of(alloc, graph)?;
    let on = on_cycles(alloc, &edges)?;
    Ok(least_on(&on, graph))
}

// Whether a module is the first of its name.
fn is_first(index: &Index, number: usize, name: &[u8]) -> bool
    ensures { result ≡ Modules.is_first index.now number name.now }
{
    match index.position(name) {
        None => false,
        Some(place) => place as usize == number,
    }
}

// The least fault of names that earlier modules have.
pub(crate) fn twice_fault(index: &Index, modules: &[Module]) -> Option<Fault>
    ensures { result ≡ Modules.twice_from index.now 0 (map module_tree modules.now) None }
{
    let mut fault = None;
    for (number, module) in modules.iter().enumerate() {
        let is_one = !is_first(index, number, module.id.name.as_slice());
        fault = least(fault, fault_if(is_one, DesignFault::N2, module.id.place));
    }
    fault
}

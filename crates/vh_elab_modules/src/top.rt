ghost use Rattle.std.specs.Prelude.{◌≡◌, ◌<◌, ◌^◌, map, not, length, false, true, replicate, slice_index_or, slice_set, None, IfOk};
ghost use Rattle.vh_ast.specs.Views.{module_tree};
ghost use Rattle.vh_elab_modules.specs.Modules;
ghost use Rattle.vh_elab_modules.specs.Numbers;
ghost use Rattle.vh_elab_modules.specs.Views.{IsOnlyTop, IsTop, holdings_seen};

use crate::faults::{cycle_fault, twice_fault};
use crate::graph::{Holding, graph_of, number_of};
use std::alloc::Global;
use vh_ast::Module;
use vh_base::{DesignFault, NoMemory, Place};
use vh_bind_least::Fault;
use vh_elab_index::Index;

fn hold(held: &mut Vec<bool>, number: u32)
    ensures { held.new.items ≡ slice_set held.old.items number true }
{
    let place = number as usize;
    if place >= held.len() {
        return;
    }
    held[place] = true;
}

// Which modules some module has instances of, by the first of each name.
fn held_by(alloc: Global, count: usize, graph: &[Holding]) -> Result<Vec<bool>, NoMemory>
    ensures { IfOk result (λ held. held.items
        ≡ Numbers.held_by (replicate count false) (holdings_seen graph.now)) }
{
    let mut held = vec![in alloc; false; count]?;
    for holding in graph {
        hold(&mut held, holding.edge.to);
    }
    Ok(held)
}

fn is_held(held: &[bool], number: u32) -> bool
    ensures { result ≡ slice_index_or held.now number false }
{
    held.get(number as usize).copied().unwrap_or(false)
}

// Which modules none instantiates.
fn tops_of(
    alloc: Global,
    index: &Index,
    count: u32,
    held: &[bool],
    modules: &[Module],
) -> Result<Vec<bool>, NoMemory>
    requires { count ≡ length index.now }
    ensures { IfOk result (λ tops. tops.items ≡ map (λ m. not (slice_index_or held.now
        (Numbers.number_of index.now m.id.name) false)) (map module_tree modules.now)) }
{
    let mut tops = Vec::new(alloc);
    for module in modules {
        let number = number_of(index, count, module.id.name.as_slice());
        tops.push(!is_held(held, number))?;
    }
    Ok(tops)
}

// The place of the one that is set.
fn only_one(flags: &[bool]) -> Option<u32>
    requires { length flags.now < 2 ^ 32 }
    ensures { result ≡ Numbers.only_from 0 flags.now None }
{
    let mut found = None;
    for (place, flag) in flags.iter().enumerate() {
        if *flag {
            if found.is_some() {
                return None;
            }
            found = Some(place as u32);
        }
    }
    found
}

// The place of the one module that none instantiates.
fn only_top(
    alloc: Global,
    index: &Index,
    count: u32,
    graph: &[Holding],
    modules: &[Module],
) -> Result<Option<u32>, NoMemory>
    requires counted { count ≡ length modules.now }
    requires named { index.now ≡ Modules.names (map module_tree modules.now) }
    requires numbered { holdings_seen graph.now
        ≡ map (Numbers.numbered index.now) (Modules.holdings (map module_tree modules.now)) }
    ensures { IfOk result (λ top. IsOnlyTop (map module_tree modules.now) top) }
{
    let held = held_by(alloc, modules.len(), graph)?;
    let tops = tops_of(alloc, index, count, &held, modules)?;
    Ok(only_one(&tops))
}

// The least fault behind that of the top.
fn later_fault(
    alloc: Global,
    index: &Index,
    graph: &[Holding],
    modules: &[Module],
) -> Result<Option<Fault>, NoMemory>
    requires named { index.now ≡ Modules.names (map module_tree modules.now) }
    requires numbered { holdings_seen graph.now
        ≡ map (Numbers.numbered index.now) (Modules.holdings (map module_tree modules.now)) }
    ensures { IfOk result (λ fault. fault ≡ Modules.later_fault (map module_tree modules.now)) }
{
    if let Some(fault) = cycle_fault(alloc, graph)? {
        return Ok(Some(fault));
    }
    Ok(twice_fault(index, modules))
}

/// The place of the top among the modules, or their least fault; `first` is where the source
/// begins.
pub fn top_of(
    alloc: Global,
    first: Place,
    index: &Index,
    modules: &[Module],
) -> Result<Result<u32, Fault>, NoMemory>
    requires { index.now ≡ Modules.names (map module_tree modules.now) }
    ensures { IsTop first (map module_tree modules.now) result }
{
    let Ok(count) = u32::try_from(modules.len()) else {
        return Err(NoMemory);
    };
    let graph = graph_of(alloc, index, count, modules)?;
    let Some(top) = only_top(alloc, index, count, &graph, modules)? else {
        return Ok(Err((DesignFault::N9, first)));
    };
    match later_fault(alloc, index, &graph, modules)? {
        Some(fault) => Ok(Err(fault)),
        None => Ok(Ok(top)),
    }
}

ghost use Rattle.std.specs.Prelude.{◌≡◌, true, IfOk};
ghost use Rattle.std.specs.List.{list_all};
ghost use Rattle.vh_elab_cycles.specs.Laid;
ghost use Rattle.vh_elab_cycles.specs.Views.{edge_seen, edges_seen};

use crate::edge::Edge;
use crate::rows::row_of;
use std::alloc::Global;
use vh_base::NoMemory;

// What a node has that isn't known to be on no cycle.
pub const NO_RANK: u32 = 4294967295;

fn rank_of(ranks: &[u32], node: u32) -> u32
    ensures { result ≡ Laid.rank_of ranks.now node }
{
    ranks.get(node as usize).copied().unwrap_or(NO_RANK)
}

// An edge that leads down is on no cycle.
pub(crate) fn is_falling(ranks: &[u32], edge: Edge) -> bool
    ensures { result ≡ Laid.is_falling ranks.now (edge_seen edge) }
{
    rank_of(ranks, edge.to) < rank_of(ranks, edge.from)
}

fn may_fall(ranks: &[u32], edge: Edge) -> bool
    ensures { result ≡ Laid.may_fall ranks.now (edge_seen edge) }
{
    rank_of(ranks, edge.from) == NO_RANK || is_falling(ranks, edge)
}

// How many edges each node has.
fn count_out(alloc: Global, nodes: usize, edges: &[Edge]) -> Result<Vec<u32>, NoMemory> {
    let mut counts = vec![in alloc; 0u32; nodes]?;
    for edge in edges {
        if let Some(count) = counts.get_mut(edge.from as usize) {
            *count = count.saturating_add(1);
        }
    }
    Ok(counts)
}

// The nodes from which edges lead to each.
fn begins_of(alloc: Global, nodes: usize, edges: &[Edge]) -> Result<Vec<Vec<u32>>, NoMemory> {
    let mut begins = Vec::new(alloc);
    for _node in 0..nodes {
        begins.push(Vec::new(alloc))?;
    }
    for edge in edges {
        if let Some(row) = begins.get_mut(edge.to as usize) {
            row.push(edge.from)?;
        }
    }
    Ok(begins)
}

// One edge less; answers whether it was the last.
fn count_down(counts: &mut [u32], node: u32) -> bool {
    match counts.get_mut(node as usize) {
        None => false,
        Some(count) => {
            *count = count.saturating_sub(1);
            *count == 0
        }
    }
}

// A node has a rank: those that lead to it may get one too.
fn count_all_down(
    begins: &[u32],
    counts: &mut [u32],
    ranked: &mut Vec<u32>,
) -> Result<(), NoMemory> {
    for node in begins {
        if count_down(counts, *node) {
            ranked.push(*node)?;
        }
    }
    Ok(())
}

// The nodes without an edge.
fn add_ends(counts: &[u32], ranked: &mut Vec<u32>) -> Result<(), NoMemory> {
    let mut node = 0u32;
    for count in counts {
        if *count == 0 {
            ranked.push(node)?;
        }
        node = node.saturating_add(1);
    }
    Ok(())
}

// The nodes from which no way leads to a cycle, each behind those to which its edges lead.
pub(crate) fn ranked_nodes(
    alloc: Global,
    nodes: usize,
    edges: &[Edge],
) -> Result<Vec<u32>, NoMemory> {
    let mut counts = count_out(alloc, nodes, edges)?;
    let begins = begins_of(alloc, nodes, edges)?;
    let mut ranked = Vec::new(alloc);
    add_ends(&counts, &mut ranked)?;
    for turn in 0..nodes {
        let Some(node) = ranked.get(turn).copied() else {
            return Ok(ranked);
        };
        count_all_down(row_of(&begins, node), &mut counts, &mut ranked)?;
    }
    Ok(ranked)
}

// The rank of each node, without a look at what was found before.
fn supposed_ranks(alloc: Global, nodes: usize, edges: &[Edge]) -> Result<Vec<u32>, NoMemory> {
    let mut ranks = vec![in alloc; NO_RANK; nodes]?;
    let mut rank = 0u32;
    for node in ranked_nodes(alloc, nodes, edges)? {
        if let Some(place) = ranks.get_mut(node as usize) {
            *place = rank;
        }
        rank = rank.saturating_add(1);
    }
    Ok(ranks)
}

fn all_may_fall(ranks: &[u32], edges: &[Edge]) -> bool
    ensures { result ≡ list_all (λ e. Laid.may_fall ranks.now (edge_seen e)) edges.now }
{
    edges.iter().all(|edge| may_fall(ranks, *edge))
}

// Ranks of nodes, so that each edge from one leads down. They are computed by any means, and then
// looked at; where one edge doesn't fall no node has a rank.
pub(crate) fn ranks_of(alloc: Global, nodes: usize, edges: &[Edge]) -> Result<Vec<u32>, NoMemory>
    ensures { IfOk result (λ ranks.
        list_all (Laid.may_fall ranks.items) (edges_seen edges.now) ≡ true) }
{
    let ranks = supposed_ranks(alloc, nodes, edges)?;
    if all_may_fall(&ranks, edges) {
        return Ok(ranks);
    }
    Ok(Vec::new(alloc))
}

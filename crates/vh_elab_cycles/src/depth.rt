ghost use Rattle.std.specs.Prelude.{◌≡◌, ◌≤◌, ℕ, length, map, slice_index_or, true, IfOk, IfSome, OnOk};
ghost use Rattle.vh_elab_cycles.specs.Depths;
ghost use Rattle.vh_elab_cycles.specs.Laid;
ghost use Rattle.vh_elab_cycles.specs.Views.{depths_seen, edge_seen, edges_seen};

use crate::cycles::first_on_cycle;
use crate::edge::Edge;
use crate::low::{least_node, lowered};
use crate::ranks::ranked_nodes;
use crate::rows::{node_count, row_of, rows_of};
use std::alloc::Global;
use vh_base::NoMemory;

fn depth_in(depths: &[u32], node: u32) -> u32
    ensures { result ≡ Laid.depth_in depths.now node }
{
    depths.get(node as usize).copied().unwrap_or(0)
}

// The depth of a node by a table that begins with another one.
fn depth_behind(base: u32, depths: &[u32], node: u32) -> u32
    ensures { result ≡ Laid.depth_behind base depths.now node }
{
    if node < base {
        return 0;
    }
    depth_in(depths, node - base)
}

// One more than the greatest depth of some nodes.
fn over_ends(depths: &[u32], ends: &[u32]) -> u32 {
    let mut depth = 0u32;
    for end in ends {
        depth = depth.max(depth_in(depths, *end).saturating_add(1));
    }
    depth
}

// Depths, without a look at what was found before: each node stands behind the ends of its edges.
fn supposed_depths(alloc: Global, edges: &[Edge]) -> Result<Vec<u32>, NoMemory> {
    let rows = rows_of(alloc, edges)?;
    let mut depths = vec![in alloc; 0u32; rows.len()]?;
    for node in ranked_nodes(alloc, rows.len(), edges)? {
        let depth = over_ends(&depths, row_of(&rows, node));
        if let Some(place) = depths.get_mut(node as usize) {
            *place = depth;
        }
    }
    Ok(depths)
}

// The beginning of an edge is deeper than its end.
fn deepen(depths: &[u32], edge: Edge, next: &mut Vec<u32>) -> Result<(), NoMemory>
    ensures { OnOk result (next.new.items
        ≡ Laid.deepened depths.now next.old.items (edge_seen edge)) }
{
    let Some(depth) = depth_in(depths, edge.to).checked_add(1) else {
        return Err(NoMemory);
    };
    if let Some(place) = next.get_mut(edge.from as usize) {
        *place = (*place).max(depth);
    }
    Ok(())
}

// The depths that follow from some for the ends of edges.
fn next_depths(alloc: Global, edges: &[Edge], depths: &[u32]) -> Result<Vec<u32>, NoMemory>
    ensures { IfOk result (λ next. (x : ℕ) → slice_index_or next.items x 0
        ≡ Depths.over_ends (Laid.depth_in depths.now) (edges_seen edges.now) x) }
{
    let mut next = vec![in alloc; 0u32; node_count(edges)]?;
    for edge in edges {
        deepen(depths, *edge, &mut next)?;
    }
    Ok(next)
}

fn all_within(depths: &[u32], most: usize) -> bool
    ensures { result ≡ true → (x : ℕ) → slice_index_or depths.now x 0 ≤ most }
{
    for depth in depths {
        if *depth as usize > most {
            return false;
        }
    }
    true
}

fn is_same(left: &[u32], right: &[u32]) -> bool
    ensures { result ≡ true → left.now ≡ right.now }
{
    left == right
}

// Whether depths follow from themselves: no others do.
fn are_depths(alloc: Global, edges: &[Edge], depths: &[u32]) -> Result<bool, NoMemory>
    ensures { IfOk result (λ b. b ≡ true → (x : ℕ) → slice_index_or depths.now x 0
        ≡ Depths.depth_of (length edges.now) (edges_seen edges.now) x) }
{
    let next = next_depths(alloc, edges, depths)?;
    if !is_same(&next, depths) {
        return Ok(false);
    }
    Ok(all_within(depths, edges.len()))
}

// Depths from the bottom, a walk over all edges for each edge.
fn slow_depths(alloc: Global, edges: &[Edge]) -> Result<Vec<u32>, NoMemory>
    ensures { IfOk result (λ depths. (x : ℕ) → slice_index_or depths.items x 0
        ≡ Depths.depth_of (length edges.now) (edges_seen edges.now) x) }
{
    let mut depths = Vec::new(alloc);
    for _turn in edges {
        depths = next_depths(alloc, edges, &depths)?;
    }
    Ok(depths)
}

// Depths are computed by any means, and then looked at.
fn all_depths(alloc: Global, edges: &[Edge]) -> Result<Vec<u32>, NoMemory>
    ensures { IfOk result (λ depths. (x : ℕ) → slice_index_or depths.items x 0
        ≡ Depths.depth_of (length edges.now) (edges_seen edges.now) x) }
{
    let depths = supposed_depths(alloc, edges)?;
    if are_depths(alloc, edges, &depths)? {
        return Ok(depths);
    }
    slow_depths(alloc, edges)
}

// Those of some nodes, by a table that begins with a node.
fn depths_behind(
    alloc: Global,
    base: u32,
    depths: &[u32],
    nodes: &[u32],
) -> Result<Vec<u32>, NoMemory>
    ensures { IfOk result (λ found. found.items
        ≡ map (Laid.depth_behind base depths.now) nodes.now) }
{
    let mut found = Vec::new(alloc);
    for node in nodes {
        found.push(depth_behind(base, depths, *node))?;
    }
    Ok(found)
}

/// How deep some nodes stand; none where an edge stands on a cycle. Its time is that of a few walks
/// over the edges and the numbers between the least and the highest of a node, and where there is a
/// cycle that of [`first_on_cycle`].
pub fn depths(alloc: Global, edges: &[Edge], nodes: &[u32]) -> Result<Option<Vec<u32>>, NoMemory>
    ensures depths { IfOk result (λ found. depths_seen found
        ≡ Depths.depths_of (edges_seen edges.now) nodes.now) }
    ensures within { IfOk result (λ found. IfSome found (λ v. (k : ℕ)
        → slice_index_or v.items k 0 ≤ length edges.now)) }
{
    let base = least_node(edges);
    let low = lowered(alloc, base, edges)?;
    if first_on_cycle(alloc, &low)?.is_some() {
        return Ok(None);
    }
    let depths = all_depths(alloc, &low)?;
    Ok(Some(depths_behind(alloc, base, &depths, nodes)?))
}

ghost use Rattle.std.specs.Prelude.{◌≡◌, ◌<◌, length, map, nat_eq, true, IfOk};
ghost use Rattle.std.specs.List.{list_all};
ghost use Rattle.vh_elab_cycles.specs.Cycles;
ghost use Rattle.vh_elab_cycles.specs.Laid;
ghost use Rattle.vh_elab_cycles.specs.Views.{edge_seen, edges_seen, rows_seen};

use crate::edge::Edge;
use crate::ranks::{is_falling, ranks_of};
use crate::rows::rows_of;
use crate::walk::reaches;
use std::alloc::Global;
use vh_base::NoMemory;

// Whether from an edge's end a way leads back to its beginning.
fn is_on_cycle(
    alloc: Global,
    edges: &[Edge],
    rows: &[Vec<u32>],
    ranks: &[u32],
    edge: Edge,
) -> Result<bool, NoMemory>
    requires laid { Laid.IsLaid (edges_seen edges.now) (rows_seen rows.now) }
    requires ranked { list_all (Laid.may_fall ranks.now) (edges_seen edges.now) ≡ true }
    requires begins { edge.from < length rows.now }
    requires ends { edge.to < length rows.now }
    ensures { IfOk result (λ b. b
        ≡ Cycles.is_on_cycle nat_eq (edges_seen edges.now) (edge_seen edge)) }
{
    if is_falling(ranks, edge) {
        return Ok(false);
    }
    reaches(alloc, edges, rows, edge.to, edge.from)
}

/// The place of the first edge that stands on a cycle, if there is one. Its time is that of a few
/// walks over all edges, and where there is a cycle of one walk more for each edge up to there
/// from a node that leads to one.
pub fn first_on_cycle(alloc: Global, edges: &[Edge]) -> Result<Option<usize>, NoMemory>
    ensures { IfOk result (λ found. found ≡ Cycles.first_on_cycle (edges_seen edges.now)) }
{
    let rows = rows_of(alloc, edges)?;
    let ranks = ranks_of(alloc, rows.len(), edges)?;
    for (place, edge) in edges.iter().enumerate() {
        if is_on_cycle(alloc, edges, &rows, &ranks, *edge)? {
            return Ok(Some(place));
        }
    }
    Ok(None)
}

/// Which edges stand on a cycle. Its time is that of a few walks over all edges, and of one more
/// for each edge from a node that leads to a cycle.
pub fn on_cycles(alloc: Global, edges: &[Edge]) -> Result<Vec<bool>, NoMemory>
    ensures { IfOk result (λ on. on.items
        ≡ map (Cycles.is_on_cycle nat_eq (edges_seen edges.now)) (edges_seen edges.now)) }
{
    let rows = rows_of(alloc, edges)?;
    let ranks = ranks_of(alloc, rows.len(), edges)?;
    let mut on = Vec::new(alloc);
    for edge in edges {
        on.push(is_on_cycle(alloc, edges, &rows, &ranks, *edge)?)?;
    }
    Ok(on)
}

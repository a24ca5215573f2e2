ghost use Rattle.std.specs.Prelude.{◌≡◌, ◌<◌, length, replicate, slice_index_or, [], IfOk, OnOk};
ghost use Rattle.vh_elab_cycles.specs.Laid;
ghost use Rattle.vh_elab_cycles.specs.Views.{edge_seen, edges_seen, rows_seen};

use crate::edge::Edge;
use std::alloc::Global;
use vh_base::NoMemory;

// More than the number of each node.
pub(crate) fn node_count(edges: &[Edge]) -> usize
    ensures { result ≡ Laid.nodes_from 0 (edges_seen edges.now) }
{
    let mut count = 0;
    for edge in edges {
        count = count.max(edge.from as usize + 1).max(edge.to as usize + 1);
    }
    count
}

fn add_edge(rows: &mut Vec<Vec<u32>>, edge: Edge) -> Result<(), NoMemory>
    requires { edge.from < length rows.old.items }
    ensures { OnOk result (rows_seen rows.new.items
        ≡ Laid.with_edge (rows_seen rows.old.items) (edge_seen edge)) }
{
    rows[edge.from as usize].push(edge.to)?;
    Ok(())
}

fn empty_rows(alloc: Global, count: usize) -> Result<Vec<Vec<u32>>, NoMemory>
    ensures { IfOk result (λ rows. rows_seen rows.items ≡ replicate count []) }
{
    let mut rows = Vec::new(alloc);
    for _node in 0..count {
        rows.push(Vec::new(alloc))?;
    }
    Ok(rows)
}

// The nodes to which edges lead from each.
pub(crate) fn rows_of(alloc: Global, edges: &[Edge]) -> Result<Vec<Vec<u32>>, NoMemory>
    ensures { IfOk result (λ rows. Laid.IsLaid (edges_seen edges.now) (rows_seen rows.items)) }
{
    let mut rows = empty_rows(alloc, node_count(edges))?;
    for edge in edges {
        add_edge(&mut rows, *edge)?;
    }
    Ok(rows)
}

// Those of one node.
pub(crate) fn row_of(rows: &[Vec<u32>], node: u32) -> &[u32]
    ensures { result.now ≡ slice_index_or (rows_seen rows.now) node [] }
{
    match rows.get(node as usize) {
        None => &[],
        Some(row) => row.as_slice(),
    }
}

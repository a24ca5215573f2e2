ghost use Rattle.std.specs.Prelude.{◌≡◌, IfOk};
ghost use Rattle.vh_elab_cycles.specs.Laid;
ghost use Rattle.vh_elab_cycles.specs.Views.{edges_seen};

use crate::edge::Edge;
use std::alloc::Global;
use vh_base::NoMemory;

// The least number of a node.
pub(crate) fn least_node(edges: &[Edge]) -> u32
    ensures { result ≡ Laid.least_from 4294967295 (edges_seen edges.now) }
{
    let mut least = u32::MAX;
    for edge in edges {
        least = least.min(edge.from).min(edge.to);
    }
    least
}

// The edges with numbers by so much lower: tables of their nodes are short.
pub(crate) fn lowered(alloc: Global, base: u32, edges: &[Edge]) -> Result<Vec<Edge>, NoMemory>
    requires { Laid.NotBelow base (edges_seen edges.now) }
    ensures { IfOk result (λ low. Laid.raised base (edges_seen low.items)
        ≡ edges_seen edges.now) }
{
    let mut low = Vec::new(alloc);
    for edge in edges {
        low.push(Edge {
            from: edge.from - base,
            to: edge.to - base,
        })?;
    }
    Ok(low)
}

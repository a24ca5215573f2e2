ghost use Rattle.std.specs.Prelude.{◌≡◌, ◌<◌, length, nat_eq, replicate, [], false, IfOk, OnOk};
ghost use Rattle.vh_elab_cycles.specs.Cycles;
ghost use Rattle.vh_elab_cycles.specs.Laid;
ghost use Rattle.vh_elab_cycles.specs.Views.{edges_seen, rows_seen, walk_seen};

use crate::edge::Edge;
use crate::rows::row_of;
use std::alloc::Global;
use vh_base::NoMemory;

// Which nodes are seen, and which of them wait.
#[derive(Drop)]
pub(crate) struct Walk {
    seen: Vec<bool>,
    waiting: Vec<u32>,
}

impl Walk {
    // Of so many nodes, none of which is seen.
    fn new(alloc: Global, count: usize) -> Result<Walk, NoMemory>
        ensures { IfOk result (λ w. walk_seen w ≡ (replicate count false, [])) }
    {
        let seen = vec![in alloc; false; count]?;
        Ok(Walk {
            seen,
            waiting: Vec::new(alloc),
        })
    }

    // A node is seen; if it wasn't before, it waits.
    fn see(&mut self, node: u32) -> Result<(), NoMemory>
        ensures { OnOk result (walk_seen self.new ≡ Laid.see (walk_seen self.old) node) }
    {
        let place = node as usize;
        if place >= self.seen.len() || self.seen[place] {
            return Ok(());
        }
        self.waiting.push(node)?;
        self.seen[place] = true;
        Ok(())
    }

    fn see_all(&mut self, nodes: &[u32]) -> Result<(), NoMemory>
        ensures { OnOk result (walk_seen self.new
            ≡ Laid.see_all (walk_seen self.old) nodes.now) }
    {
        for node in nodes {
            self.see(*node)?;
        }
        Ok(())
    }
}

// Whether a way leads from a node to another one.
pub(crate) fn reaches(
    alloc: Global,
    edges: &[Edge],
    rows: &[Vec<u32>],
    from: u32,
    to: u32,
) -> Result<bool, NoMemory>
    requires laid { Laid.IsLaid (edges_seen edges.now) (rows_seen rows.now) }
    requires begins { from < length rows.now }
    requires ends { to < length rows.now }
    ensures { IfOk result (λ b. b ≡ Cycles.leads nat_eq (edges_seen edges.now) from to) }
{
    let mut walk = Walk::new(alloc, rows.len())?;
    walk.see(from)?;
    while let Some(node) = walk.waiting.pop() {
        walk.see_all(row_of(rows, node))?;
    }
    Ok(walk.seen[to as usize])
}

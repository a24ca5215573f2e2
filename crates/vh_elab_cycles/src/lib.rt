//! Which edges of a graph stand on a cycle, and how deep the nodes of one without a cycle stand.
//!
//! The contracts that the layers above use: [`first_on_cycle`] answers the place of the first edge
//! from whose end a way leads back to its beginning, and [`on_cycles`] tells of each edge whether
//! it is such a one, as `specs/Cycles.antt` says; [`depths`] answers how many edges the longest way
//! from each node has, as `specs/Depths.antt` says.
#![tactic(auto)]

mod cycles;
mod depth;
mod edge;
mod low;
mod ranks;
mod rows;
mod walk;

pub use cycles::{first_on_cycle, on_cycles};
pub use depth::depths;
pub use edge::Edge;

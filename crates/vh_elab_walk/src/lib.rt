//! The instances of a source in walk order, with all that the first pass finds in them (IEEE
//! 1364-2005, 12.1 and 12.2.2).
//!
//! The contract that the layer above uses: [`instances_of`] answers the instances that `specs/Walks.antt`
//! gives a source with its top: each
//! with its sites and what its parameters are given, and all that is known of their objects; or
//! the least fault of the first pass.
//!
//! It stands on `vh_elab_declare` for the first pass over one instance.
#![tactic(auto)]

mod entries;
mod overrides;
mod parameters;
mod walk;

pub use walk::{Modules, Placed, Walk, Walked, instances_of};

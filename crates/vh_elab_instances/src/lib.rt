//! What an instance of a module declares, and what is to be made of it, in the order of the source
//! (IEEE 1364-2005, 12.1 and 12.7).
//!
//! The contract that the layers above use: [`module_sites`] answers the sites that
//! `specs/Instances.antt` gives a module whose generate constructs come to this, and
//! [`scope_sites`] those of a scope's own items; [`declared_ids`] the names that items declare.
//!
//! It stands on `vh_elab_sites` for the sites of an item.
#![tactic(auto)]

mod blocks;
mod instances;
mod names;

pub use instances::{module_sites, scope_sites};
pub use names::declared_ids;

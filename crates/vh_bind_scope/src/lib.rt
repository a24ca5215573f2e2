//! What the names of a design stand for, and where they are looked up (IEEE 1364-2005, 12.4 to
//! 12.7).
//!
//! The contract that the layers above use: contracts see [`Names`] as the names of each scope, in the
//! order in which they were declared. [`found`], [`found_scope`], [`found_first`] and [`found_inside`]
//! answer the declarations of a name, of a name in a call and of the parts of a path, as
//! `specs/LookUp.antt` says.
//!
//! It stands on `vh_design_nodes` for the bounds of a vector.
#![tactic(auto)]

mod look_up;
mod names;
mod table;

pub use look_up::{Declaration, Top, found, found_first, found_inside, found_scope, indexed};
pub use names::{Meaning, Names};

//! The first of a name among some, found in a time that doesn't depend on their number.
//!
//! The contract that the layers above use: [`Index::position`] answers the position of the first of a
//! name, as `specs/First.antt` says.
#![tactic(auto)]

mod index;

pub use index::Index;

//! Full names of the objects of a design (IEEE 1364-2005, 12.4).
//!
//! The contract that the layers above use: [`full_name`] answers the names of the scopes around an
//! object and its own, the outermost first, with dots between them (`specs/Names.antt`). Want of
//! memory is the one free answer.
//!
//! It stands on `vh_design`, whose scopes have lesser numbers than what stands in them.
#![tactic(auto)]

mod names;

pub use names::full_name;

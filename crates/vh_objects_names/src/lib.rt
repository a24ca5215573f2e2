//! The objects of a design by their names and paths (IEEE 1364-2005, 12.4, 12.5 and 27.20).
//!
//! The contract that the layers above use: [`by_name`] answers the object whose path below a scope, or
//! whose full name, a text is, the least of several (`specs/Paths.antt`), and that law says so once more
//! by what leads from an object to the scope (`specs/NameLaw.antt`). Want of memory is the one free answer.
//!
//! It stands on `vh_design` and on `vh_objects` for the kinds that have paths.
#![tactic(auto)]

mod addresses;
mod finds;
mod paths;

pub use finds::by_name;

//! Faults of a design, and the least of some.
//!
//! The contract that the layers above use: [`lesser`] and [`least`] answer the fault with the
//! lesser place, and at one place the one with the lesser number, as `specs/Least.antt` says.
#![tactic(auto)]

mod earlier;

pub use earlier::{Fault, fault_if, least, lesser};

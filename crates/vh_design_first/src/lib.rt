//! The design that the registers and initial constructs of the first subset are.
//!
//! The contract that the layer above uses: [`design_of`] makes of them the design that
//! `first_design` of specs/Designs.antt says, with an instruction for each step. Want of memory is
//! the one free answer.
//!
//! It stands on vh_base, which has the first subset, and on vh_design, which has designs.
#![tactic(auto)]

mod codes;
mod design;
mod nodes;

pub use design::design_of;

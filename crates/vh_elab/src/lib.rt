//! The design of a source, or its least fault (IEEE 1364-2005, clause 12).
//!
//! The contract that the layers above use: [`elaborate`] answers what `specs/Elaborated.antt` gives
//! the source's tree: the design, whose parts the rules of `vh_design` hold for; or the least
//! fault; or that the source has what comes later.
//!
//! It stands on `vh_elab_modules` for the top, on `vh_elab_walk` for the instances and the first pass, on
//! `vh_elab_drives` for continuous assignments, gates and ports, and on `vh_lower` for the codes of
//! statements.
#![tactic(auto)]

mod coding;
mod connected;
mod counts;
mod design;
mod gates;
mod routines;
mod second_pass;

pub use design::{Elaboration, elaborate};

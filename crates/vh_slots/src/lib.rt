//! Slots that are used again under a new generation, so that a key once taken never answers again.
//!
//! [`Slots`] holds values under keys. A key is a slot and the generation that the slot had when the
//! value was given; taking the value raises the generation, and a slot past its last generation is
//! retired. All calls take constant time, and none but [`Slots::give`] takes memory.
//!
//! The contract that the layers above use: contracts see [`Slots`] as a `Table` of `specs/`, a cell
//! for each slot with its generation and its value, and each call is an equation or a relation over
//! it: which of several free slots is used again is the one choice. Want of memory is the one free
//! answer.
//!
//! It stands on `slab`, which holds the values.
#![tactic(auto)]

mod laws;
mod slots;

pub use laws::slots_laws;
pub use slots::{GENERATIONS, GiveFault, Key, Slots};

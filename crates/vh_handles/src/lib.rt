//! The handles of applications: numbers that name things, each given once and never again.
//!
//! [`Handles`] gives numbers to things (an object of the design, an iterator, a callback, an event
//! that stands in the queue), says what a live number names, and frees it. An iterator goes on to
//! its next object under the same number. (IEEE 1364-2005, clause 26)
//!
//! The contract that the layers above use: contracts see [`Handles`] through `handles_of` of
//! `specs/` as a finite map from live numbers to things, and of all numbers ever given only the test
//! whether a number is among them and how many they are; each call is one equation over it, and a
//! number that is given was never given before. Want of memory is the one free answer.
//! [`handles_laws`] says what these equations mean for a number.
//!
//! It stands on `vh_base` for the types of applications.
#![tactic(auto)]

mod handles;
mod laws;

pub use handles::{Handles, OpenFault, Thing};
pub use laws::handles_laws;

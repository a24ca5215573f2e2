//! The laws of every run of the machine and of every prefix of one, in the terms of an
//! application's author: which callback fires for an occurrence, and what a handle names.
//!
//! The one contract used above: [`laws`], over every design, script and path of the machine.
//! It does nothing. Stands on vh_kernel, whose step it speaks of.
#![tactic(auto)]

mod theorem;

pub use theorem::laws;

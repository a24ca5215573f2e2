//! What one thread of the simulation has still to do (IEEE 1364-2005, 9.6, 9.8, 10.2 to 10.4).
//!
//! A thread is a process, or a branch of a `fork`. It is in calls of tasks and functions, stands at an
//! instruction of each, and is inside `repeat`s that have turns left.
//!
//! The contract that the layers above use: contracts see a [`Thread`] as its `Control`
//! (`specs/Control.antt`), the calls and repeats from the inside out, and each call says what becomes of
//! it: it goes on, calls, begins a repeat or takes a turn of one, or leaves a block or task that is
//! disabled. A call deeper than [`MOST_CALLS`] is refused; want of memory is the one free answer.
//!
//! It stands on `vh_design` for codes and their blocks. Nothing here reads or writes a value.
#![tactic(auto)]

mod block;
mod call;
mod position;
mod thread;

pub use call::{Call, CallFault, MOST_CALLS, Repeat};
pub use thread::Thread;

//! The processes of a simulation, and what each label of one does (IEEE 1364-2005, clauses 9 and
//! 10).
//!
//! The contract that the layer above uses: contracts see [`Threads`] as `Processes`, a finite map
//! from the numbers of processes to what each has still to do and waits for. [`Threads::step`]
//! performs the next label of one, by `step_of` of `specs/Steps.antt`, which has a row for each
//! kind of label; a fault comes in its position exactly where the row says so, and want of memory is
//! the one free answer.
//!
//! It stands on `vh_proc_turn` for labels that touch no other process, on `vh_proc_thread` for where a
//! process goes on, and on `vh_sense` and `vh_queue` for what it waits for.
#![tactic(auto)]

mod disable;
mod families;
mod fork;
mod idle;
mod layout;
mod stepped;
mod threads;

pub use layout::Layout;
pub use stepped::{MadeList, Stepped};
pub use threads::Threads;
pub use vh_proc_turn::{Next, StepFault};

//! What a label of one process does that touches no other process (IEEE 1364-2005, clauses 9 and
//! 10).
//!
//! The contract that the layer above uses: [`turn`] performs an instruction on a [`Process`] with
//! the store, the waits and the queue, and comes to `turn_of` of `specs/Turns.antt`, which has a
//! row for each kind of instruction: what the label changes in order, what the process waits for or
//! which entries it adds, where it goes on, and what it does next. A fault is a row's own; want of
//! memory is the one free answer.
//!
//! It stands on `vh_proc_assign` for what statements assign, on `vh_proc_thread` for where a process goes on,
//! and on `vh_sense` and `vh_queue` for what it waits for.
#![tactic(auto)]

mod assigns;
mod choices;
mod drives;
mod fault;
mod laws;
mod next;
mod process;
mod rows;
mod updates;
mod waits;

pub use fault::StepFault;
pub use laws::turn_laws;
pub use next::Next;
pub use process::{Process, Room};
pub use rows::turn;
pub use updates::Updates;
pub use waits::add_entry;

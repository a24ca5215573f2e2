//! A design as it is simulated: its processes, the values of its objects, who waits on what, the
//! event queue and the monitor (IEEE 1364-2005, clause 11).
//!
//! The contract that the layer above uses: contracts see a [`Simulation`] as its `Activity`.
//! [`Simulation::perform`] performs the next label of a process and [`Simulation::work`] what an
//! entry that was picked does, by `performed` and `worked` of `specs/Labels.antt`: what is changed
//! in order, the entries that these changes add, and the text that is shown. A fault comes in place
//! of a label exactly where these say so, and want of memory is the one free answer.
//!
//! It stands on `vh_proc` for the labels of processes, on `vh_display` for texts, and on `vh_sense`
//! and `vh_queue` for what changes bring about.
#![tactic(auto)]

mod clock;
mod entries;
mod follows;
mod labels;
mod monitor;
mod simulation;

pub use follows::Follows;
pub use labels::{Came, Performed};
pub use monitor::Monitor;
pub use simulation::Simulation;
pub use vh_proc::{MadeList, Next, StepFault};

//! The laws of the processes of a simulation: whom a `disable` stops and what becomes of everybody,
//! that no number of a process is given twice, and what an assignment makes of each digit (IEEE
//! 1364-2005, 5.2.1, 9.2, 9.8.2 and 10.3).
//!
//! The one contract used above: [`processes_laws`], over all designs, processes and labels. It does
//! nothing. Stands on vh_proc, whose definitions it speaks of.
#![tactic(auto)]

mod theorem;

pub use theorem::processes_laws;

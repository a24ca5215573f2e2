//! Orders of choice: which of the choices of a label is taken (IEEE 1364-2005, 11.4.2 leaves it
//! open).
//!
//! The one contract used above: [`Chooser::chosen`] is the number of the choice that the order takes
//! among so many, and [`Chooser::after`] the order for the labels after that one.
#![tactic(auto)]

mod chooser;

pub use chooser::Chooser;

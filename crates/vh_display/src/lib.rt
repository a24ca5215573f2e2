//! The texts of display tasks (IEEE 1364-2005, 17.1).
//!
//! The contract that the layers above use: [`show`] answers the text of a display call by the values
//! that a store holds (`call_text` of `specs/Calls.antt`): its formats with the arguments behind
//! them, other arguments as `%d`, and the end of the line. [`reads`] tells whether an argument reads
//! an object; [`display_laws`] says what the reading of formats means. Want of memory is the one free answer.
//!
//! It stands on `vh_eval` for values, on `vh_text` for numbers, on `vh_design_names` for `%m`,
//! and on `vh_sense` for what an expression reads.
#![tactic(auto)]

mod call;
mod conversion;
mod format;
mod laws;
mod texts;

pub use call::{reads, show};
pub use laws::display_laws;

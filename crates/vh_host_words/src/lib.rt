//! The words of the command line: which mode they ask for, with which options, over which files.
//!
//! The one contract used above: [`read_words`] answers the reading that the words have, or none.
#![tactic(auto)]

mod file_words;
mod reading;
mod said;
mod values;

pub use file_words::{is_design_word, is_script_word};
pub use reading::{Asked, read_words};

//! The outside of the program: a piece written whole to any sink, a sink that holds what it is given, and the real file
//! system and standard output as a source and a sink.
//!
//! The call used above is [`write_whole`]; `Kept` says what `Holding` has written of what it was given, and what it holds. `Source`
//! and `Output` are trusted for what a real file holds and what standard output shows: they tell nothing of it.
#![tactic(auto)]

mod holding;
mod output;
mod source;
#[cfg(test)]
mod tests;
mod write;

pub use holding::Holding;
pub use output::{Output, is_file_or_pipe};
pub use source::Source;
pub use write::write_whole;

//! The edge of `vhost`: the words that a program was started with, and what is told of the status.
//!
//! The one call used above: [`run_program`] is the whole of `main`. Everything that is proved of
//! the transcript stands in vh_host, and the real file system and standard output in vh_base_outside.
#![tactic(auto)]

mod program;

pub use program::run_program;

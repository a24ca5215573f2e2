//! The call that runs a design with a script: words and files to the transcript's bytes.
//!
//! The one contract used above: [`run`] writes exactly the text of a run of the machine
//! for accepted words, texts and scripts, which keeps the firing law and the handle law, and
//! its status says how the run ended, or which input was refused; [`status_line`] and
//! [`exit_number`] are the table of statuses. Stands on vh_lex and
//! vh_parse_items for the tree of the Verilog files, on vh_elab for its design, on vh_host_words for the
//! words, on vh_app for the scripts, on vh_kernel for the machine, and on vh_kernel_laws for what its runs
//! keep.
#![tactic(auto)]

mod design;
mod file;
mod host;
mod judging;
mod plain;
mod reading;
mod report;
mod status;
mod transcript;

pub use host::run;
pub use plain::plain_text;
pub use report::{exit_number, status_line};
pub use status::Status;

//! The table of user system tasks and functions.
//!
//! The contract that the layers above use: contracts see a [`SystfTable`] as the list of its
//! entries, the first registration of each name that is not built in (`specs/Table.antt`).
//!
//! It stands on `vh_base` for the registrations, and on `indexmap`, which numbers the names.
#![tactic(auto)]

mod built_in;
mod table;

pub use built_in::is_built_in;
pub use table::SystfTable;

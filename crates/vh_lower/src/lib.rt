//! Statements to flat code, or their first fault (IEEE 1364-2005, clauses 9, 10 and 17).
//!
//! The contract that the layer above uses: [`lower`] answers the code of a statement that
//! `specs/Statements.antt` gives, a row for each statement, and adds to a design what it needs
//! ([`Added`], which a [`Maker`] lends with what the statement stands in); or it answers the first
//! fault in the order of the text. [`initial_code`] and [`drive_code`] do so for declared initial
//! values and continuous assignments (`specs/Processes.antt`). Processes that no text makes, as
//! those of gates, are made by [`value_of`], [`delay_of`], [`with_calls`], [`reading_from`] and
//! [`driving_code`].
//!
//! It stands on `vh_bind_stmt` for the parts of statements, and on `vh_lower_flow` for the code of a bound
//! statement.
#![tactic(auto)]

mod added;
mod assignments;
mod blocks;
mod cases;
mod events;
mod fault;
mod heads;
mod instructions;
mod loops;
mod making;
mod objects;
mod processes;
mod simple;
mod stmt;
mod systems;
mod tasks;
mod timing;

pub use added::{Added, Maker};
pub use fault::{LowerFault, Lowered};
pub use making::{delay_of, reading_from, value_of, with_calls};
pub use processes::{drive_code, driving_code, initial_code};
pub use stmt::lower;

//! The parts of statements, bound: what they assign to, delays, event controls, the calls of functions
//! that they make and what they read, and display calls (IEEE 1364-2005, clauses 9, 10 and 17).
//!
//! The contracts that the layer above uses: [`bind_targets`], [`bind_delay`] and their like add what
//! `specs/Targets.antt` and its neighbours say to a design's expressions, or answer the first fault;
//! [`add_calls`] gives the labels of the calls in expressions, and [`reads_of`] what they read.
//!
//! It stands on `vh_bind_expr` for expressions and names, and on `vh_design_code` for operations and waits.
#![tactic(auto)]

mod calls;
mod delays;
mod events;
mod meant;
mod shows;
mod surroundings;
mod targets;

pub use calls::{add_calls, arguments_of, reads_of};
pub use delays::bind_delay;
pub use events::{all_terms, name_terms};
pub use meant::{object_meant, object_of};
pub use shows::{arguments_fit, bind_arguments, show_task, takes_number};
pub use surroundings::{Argument, Arguments, Surroundings};
pub use targets::{bind_output, bind_targets, targets_width};

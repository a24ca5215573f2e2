//! Expressions over objects: the nodes that they are bound to, or their first fault (IEEE
//! 1364-2005, clause 5 and 10.4).
//!
//! The contract that the layer above uses: [`bind_expr`] adds the nodes that `bound` of
//! `vh_bind/specs/Constants.antt` gives an expression where a value is wanted. Constants are the
//! same definition where a constant is needed. What else is public are pieces of it, for what is written
//! like an expression and is none: targets, delays and event controls.
//!
//! It stands on `vh_bind` for names, constants and nodes.
#![tactic(auto)]

mod expr;
mod functions;
mod names;
mod reads;
mod rows;

pub use expr::{bind_expr, bind_part};
pub use functions::{is_given, is_taken};
pub use names::{constant_at, name_read};
pub use reads::{bit_select, indexed_select, push_selected, whole_of, word_of};
pub use rows::{range_at, width_at};

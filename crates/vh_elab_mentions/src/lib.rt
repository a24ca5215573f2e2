//! The names in expressions and targets, and the modules that a module has instances of.
//!
//! The contracts that the layers above use: what the functions of this crate put behind some names
//! is what `specs/Mentions.antt` lists, in the order of the text.
#![tactic(auto)]

mod exprs;
mod modules;

pub use exprs::{conns_ids, expr_ids, target_ids, terminals_ids};
pub use modules::instantiated;

//! The generate blocks of an instance: its items in a row, with the blocks that are made standing
//! open in them (IEEE 1364-2005, 12.4).
//!
//! The contract that the layer above uses: [`unroll_module`] works out the conditions and bounds of
//! generate constructs, scope by scope from
//! the outside in, and answers the entries and the least fault of what it worked out.
//!
//! It stands on `vh_elab_declare` for the values of parameters in each scope.
#![tactic(auto)]

mod scope;
mod state;
mod unroll;

pub use unroll::{Unrolled, unroll_module};

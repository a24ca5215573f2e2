//! The value of every expression of a design.
//!
//! The one contract used above: [`eval`] is `value_of` of `specs/Value.antt`, a function of the design,
//! the store, the expression and the context's width and sign, by recursion on the expression, with a row
//! for each kind (IEEE 1364-2005, clause 5); [`eval_laws`] says what that means. It takes no memory, goes over a chain of operators in a loop,
//! and recurs as deep as expressions nest.
//!
//! It stands on `vh_design` for expressions with their widths and signs, on `vh_store` for values of
//! objects, and on `vh_logic` for the operators.
#![tactic(auto)]

mod evaluation;
mod laws;
mod operators;
mod selects;

pub use evaluation::eval;
pub use laws::eval_laws;
pub use selects::{integer, lowest_index, position_of, selected, sliced};

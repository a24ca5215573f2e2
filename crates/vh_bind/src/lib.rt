//! Constant expressions: their names, their faults and their values (IEEE 1364-2005, 4.10 and clause
//! 5); and what names and paths stand for (12.5 to 12.7).
//!
//! The contract that the layers above use: [`constant`] answers the value that `specs/Constants.antt`
//! gives an expression in a [`Scope`], or the first fault, with its place. It binds the expression to
//! nodes, literals standing for parameters and genvars, and has `vh_eval` work them out. [`meaning`]
//! answers what a name or a path stands for, as `specs/Paths.antt` says.
//!
//! It stands on `vh_ast` for the trees, on `vh_bind_scope` for names, and on `vh_design`, `vh_store` and
//! `vh_eval` for nodes and their values.
#![tactic(auto)]

mod binding;
mod fault;
mod named;
mod nodes;
mod operators;
mod parts;
mod paths;
mod readable;
mod scope;
mod selects;
mod value;

pub use binding::{constant, sel_value};
pub use fault::ElabFault;
pub use nodes::{MOST_EXPRS, Nodes, Numbered, Numbers, push, push_text};
pub use operators::Operator;
pub use parts::{
    Prefix, chain_operators, given_sign, is_unsized, push_choice, push_concat, push_links,
    push_literal, push_prefixed, push_times, sequence, with_number,
};
pub use paths::meaning;
pub use readable::{Function, Readable, alone_read, path_read};
pub use scope::{Directions, Genvar, Mode, Routine, Scope};
pub use selects::{Bounded, number_in, part_select};

//! Bound statements as trees, and their flat code (IEEE 1364-2005, clauses 9 and 10).
//!
//! A [`Flow`] is what a statement does, with the numbers of its expressions, objects, waits and
//! display calls: instructions in a row, an instruction that goes on in one of two ways, the turns of a loop, a
//! `case`, a named block, a `fork`. It knows how many instructions it has, so that its code is laid out in
//! one walk.
//!
//! The contract that the layers above use: [`code_of`] answers the code that `specs/Laid.antt` gives
//! a tree.
//!
//! It stands on `vh_design_code` for codes, and on `sqlite_items` for lists and boxes that a type may hold
//! itself in.
#![tactic(auto)]

mod code_kind;
mod copies;
mod flow;
mod laying;
mod positions;
mod sizes;

pub use code_kind::CodeKind;
pub use copies::copied;
pub use flow::{CaseHead, CaseItem, Flow, FlowForm, Gate, Origin, Step};
pub use laying::code_of;

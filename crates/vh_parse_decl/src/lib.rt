//! The parser of declarations, and of what stands in items and statements alike: ranges and types,
//! delays, events, targets with their values, and lists behind commas.
//!
//! The contract that the layers above use: each function ensures one equation with the reading of its
//! part of the grammar's table (`Reads` of `vh_parse_expr`). What stands in a list is [`Listed`]; then
//! [`list`] and [`further`] read lists of it.
//!
//! It stands on `vh_parse_expr` for names and expressions.
#![tactic(auto)]

mod declared;
mod lists;
mod rows;
mod timing;
mod values;

pub use declared::{bare_id, data_type, declaration, range};
pub use lists::{Listed, further, list};
pub use timing::{boxed_delay, delay, event, written_delay};
pub use values::{Exprs, behind, ended, in_parens, list_in_parens, set, value};

//! The parser of statements: from the lexer's tokens to the trees of `vh_ast`, exact against the
//! grammar's table.
//!
//! The contract that the layer above uses: [`inner_statement`] ensures one equation with the reading of
//! a statement in an item. [`parse_stmt`] answers what the table does for the tokens of one.
//!
//! It stands on `vh_parse_decl` for declarations, delays, events and lists, and on `vh_parse_expr` for
//! expressions.
#![tactic(auto)]

mod head;
mod made;
mod parse;
mod rows;
mod simple;
mod stmt;
mod system;

pub use parse::parse_stmt;
pub use stmt::inner_statement;

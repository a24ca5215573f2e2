//! The parser of items, modules and whole sources: from the lexer's tokens to the trees of `vh_ast`,
//! exact against the grammar's table.
//!
//! The contract that the layer above uses: [`parse`] answers what the table does for the tokens, both
//! ways, as a tree, or as `S1`, `S2` or `S3` at its place. So it has the laws of
//! `vh_parse_syntax::syntax_laws`. Want of memory is the one free answer.
//!
//! It stands on `vh_parse_parts` for ports, parameters and most items, on `vh_parse_stmt` for
//! statements, and on the parsers below these.
#![tactic(auto)]

mod generate;
mod made;
mod module;
mod region;
mod routine;
mod whole;

pub use whole::parse;

//! The parser of names and expressions: from the lexer's tokens to the trees of `vh_ast`, exact
//! against the grammar's table.
//!
//! The contract that the layer above uses: [`parse_expr`] answers what the table does for the tokens
//! from one on, both ways, as a tree with the number of the token behind it, or as `S1`, `S2` or `S3`
//! at its place. So it has the laws of `vh_parse_syntax::syntax_laws`. Want of memory is the one free
//! answer. A parser of statements reads by the functions beside it, over a `Cursor` of tokens: each
//! ensures one equation with the reading of its part (`Reads` of specs/Views.antt).
//!
//! It stands on `vh_lex` for its tokens, on `vh_ast` for the trees and on `vh_parse_syntax` and `vh_parse_grammar`
//! for the table and the laws.
#![tactic(auto)]

mod expr;
mod fault;
mod made;
mod name;
mod parse;
mod targets;
mod word;

pub use expr::{Enclosure, calls_in, expression, list, path};
pub use fault::{ParseFault, fault_at};
pub use made::then_lexeme;
pub use name::{Last, Path, Stem};
pub use parse::{MOST_LEVELS, parse_expr};
pub use targets::{braced, single, target};
pub use word::{At, Read, id, kept, lexeme, placed_row, row_if_next, system_name};

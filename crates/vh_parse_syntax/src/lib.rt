//! The whole grammar as a table: every production of the language as a part of the grammar kit, over
//! the plain trees of `vh_ast`.
//!
//! The contract that the layer above uses: [`syntax_laws`] says of this table what the kit says of
//! each. What a parser answers for tokens is what they are, both ways; refused tokens are refused at
//! the first one with which they don't begin a source; and what is left out is answered where it is
//! shown before. A parser reads by a `vh_parse_grammar::Cursor` over [`Word`]s and the classes of [`Class`].
//!
//! It stands on `vh_lex` for its tokens, on `vh_ast` for the trees and on `vh_parse_grammar` for the laws.
#![tactic(auto)]

mod laws;
mod lexeme;
pub mod tables;
mod token;

pub use laws::{Syntax, syntax_laws};
pub use lexeme::Lexeme;
pub use token::{Class, Group, Rows, Start, Word};

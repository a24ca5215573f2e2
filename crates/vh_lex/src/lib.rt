//! The tokens of whole Verilog texts: bytes of several files to tokens with places, with directives
//! and macros, or the first lexical fault.
//!
//! The contract that the layer above uses: after [`Lexer::file`] a [`Lexer`] holds what
//! `files_read` of specs/Lexed.antt gives for the files so far, and the answer is Ok, or the fault
//! and its place; [`Lexer::end`] is Ok exactly where no conditional is open and no fault was
//! answered, and then the tokens are those of the files' text, a tree of pieces and conditionals
//! (specs/SourceText.antt). Want of memory is the one free answer. [`lex_laws`] and [`text_laws`] say
//! that files spell at most one list of tokens, and what a text is.
//!
//! It stands on `vh_base`, on `vh_logic` and `vh_text` for the values of numbers, on `vh_base_shared` for
//! names that many share, and on `indexmap`, in which macros are looked up.
#![tactic(auto)]

mod beginning;
mod bytes;
mod conditional;
mod directed;
mod directive;
mod expand;
mod fault;
mod gap;
mod keyword;
mod laws;
mod lexer;
mod macro_text;
mod macros;
mod made;
mod name;
mod names;
mod number;
mod piece;
mod place;
mod reader;
mod scale;
mod setting;
mod symbol;
mod table;
mod text;
mod token;

pub use fault::LexFault;
pub use keyword::Keyword;
pub use laws::{lex_laws, text_laws};
pub use lexer::Lexer;
pub use setting::{DefaultNet, Setting};
pub use symbol::Symbol;
pub use token::{Kind, Number, Token};

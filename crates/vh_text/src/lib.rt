//! Numbers and value texts, as sources, displays and applications write them.
//!
//! [`read_literal`] gives a number of a source its value, [`text_of`] gives a value its text in a
//! base, and [`read_value`] reads the text that an application puts, by its format.
//!
//! The contract that the layers above use: each is one equation with a function on lists of bytes
//! and of digits in `specs/` (`literal` of `Literals`, `text` of `Texts`, `value_of_text` of
//! `Values`), so that a literal is malformed or too wide, and a value's text refused, exactly where
//! the function says so. Want of memory is the one free answer. [`text_laws`] says that the binary
//! text, and the text of the two planes, of a value give its digits again.
//!
//! It stands on `vh_logic` for vectors, and on `vh_base` for the formats.
#![tactic(auto)]

mod digits;
mod laws;
mod literal;
mod number;
mod pattern;
mod radix;
mod scan;
mod text;
mod value;

pub use laws::text_laws;
pub use literal::{LiteralFault, read_literal};
pub use radix::Radix;
pub use text::{text_of, vector_text_of, write_binary};
pub use value::read_value;

use crate::keyword::Keyword;
use crate::setting::Setting;
use crate::symbol::Symbol;
use vh_base::{Boxed, Place};
use vh_base_shared::SharedBytes;
use vh_logic::Vec4;

/// A number (IEEE 1364-2005, 3.5.1).
#[derive(Clone, Copy)]
pub struct Number {
    pub value: Vec4,
    /// Whether a size was written.
    pub sized: bool,
}

/// What a token is (IEEE 1364-2005, 3.1).
#[derive(Drop)]
pub enum Kind {
    /// The reserved word `module`, with what the directives before it set.
    Module(Setting),
    /// Another reserved word.
    Word(Keyword),
    /// An operator or a symbol.
    Symbol(Symbol),
    /// A name that is not reserved, without the backslash of an escaped one.
    Name(SharedBytes),
    /// A system name, with its dollar sign.
    SysName(SharedBytes),
    /// A string, after its escapes.
    Text(SharedBytes),
    /// A number, in a box, so that tokens are small.
    Number(Boxed<Number>),
}

/// A token and where it stands. One that a macro gives stands where the outermost use does.
#[derive(Drop)]
pub struct Token {
    pub kind: Kind,
    pub place: Place,
}

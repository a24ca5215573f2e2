use crate::token::Kind;
use vh_base::{Bytes, DesignFault};

/// A part of a text that is not dropped.
#[derive(Drop)]
pub enum Part {
    /// A token other than the reserved word `module`.
    Token(Kind),
    /// The reserved word `module`.
    Module,
    /// A backquote and the name behind it: a directive or the use of a macro.
    Use(Bytes),
    /// A fault: no token and no use stands there.
    Wrong(DesignFault),
}

/// What bytes begin with, and how many bytes that is.
#[derive(Drop)]
pub enum Piece {
    /// White space, a comment or an attribute.
    Blank(usize),
    /// A part.
    Kept(Part, usize),
    /// A fault, so many bytes behind the first.
    Fault(DesignFault, usize),
}

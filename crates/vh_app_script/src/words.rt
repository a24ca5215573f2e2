//! What words mean where they stand.

use vh_app_lines::Routine;

/// What a command begins with.
#[derive(Clone, Copy)]
pub enum Opening {
    /// A variable, by its number, and a `=` behind it.
    Target(usize),
    Set,
    Return,
    If,
    While,
    /// The word of an order.
    Ask(Routine),
    /// What can't be gone on with.
    Nothing,
}

/// What a callback is to call.
#[derive(Clone, Copy, Debug, PartialEq, Eq)]
pub enum BodyWord {
    Proc,
    Native,
}

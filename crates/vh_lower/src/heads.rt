use crate::instructions::Operations;
use vh_base::ExprId;

/// What an `if`, a `case`, a `while` or a `repeat` has before its statements: its number, the calls that
/// its test makes, and the test, or the count.
#[derive(Drop)]
pub struct Head {
    pub number: u32,
    pub calls: Operations,
    pub test: ExprId,
}

/// The instructions that stand before the statement in a statement, and the number of this one.
#[derive(Drop)]
pub struct Timing {
    pub number: u32,
    pub instructions: Operations,
}

/// What a `for` has before its body.
#[derive(Drop)]
pub struct ForHead {
    pub number: u32,
    pub start: Operations,
    pub calls: Operations,
    pub test: ExprId,
    pub step: Operations,
}

use crate::operation::Operation;
use vh_base::{ObjId, Sequence};

/// Where a code goes on: at an instruction, or from a task's or function's body behind the call.
#[derive(Clone, Copy, Debug, PartialEq, Eq)]
pub enum Goes {
    To(u32),
    Back,
}

/// One instruction of a code.
#[derive(Drop)]
pub struct Instruction {
    pub operation: Operation,
    /// Where it goes on, where the operation does not say otherwise.
    pub next: Goes,
    /// The statement that it belongs to.
    pub stmt: Option<u32>,
    /// The innermost block of the code that it stands in.
    pub block: Option<u32>,
    /// Whether it is the first of an execution of its statement.
    pub first: bool,
}

/// Instructions by place, which contracts see as a list.
pub type Instructions = Sequence<Instruction>;

/// A named `begin` or `fork` of a code.
#[derive(Clone, Copy)]
pub struct Block {
    pub object: ObjId,
    /// The block that it stands in, which has a lesser number.
    pub around: Option<u32>,
    /// Where the code goes on behind it.
    pub after: Goes,
}

/// The blocks of a code by number, which contracts see as a list.
pub type Blocks = Sequence<Block>;

/// The code of a process, or the body of a task or function.
#[derive(Drop)]
pub struct Code {
    pub start: Goes,
    pub instructions: Instructions,
    pub blocks: Blocks,
}

use vh_base::{Bytes, ExprId, ObjId, Sequence};

/// A system task that shows a text (IEEE 1364-2005, 17.1).
#[derive(Clone, Copy, Debug, PartialEq, Eq)]
pub enum ShowTask {
    Display,
    Write,
    Strobe,
    Monitor,
}

/// An argument of a display call: none, a string, or a value.
#[derive(Drop)]
pub enum ShowArg {
    Empty,
    Format(Bytes),
    Value(ExprId),
}

/// The arguments of a display call in order, which contracts see as a list.
pub type ShowArgs = Sequence<ShowArg>;

/// A display call, with its scope and the time unit of its module, from 0 for 1 fs to 17 for 100 s.
#[derive(Drop)]
pub struct ShowCall {
    pub task: ShowTask,
    pub scope: ObjId,
    pub unit: u8,
    pub args: ShowArgs,
}

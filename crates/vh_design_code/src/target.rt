use vh_base::{ExprId, ObjId, Sequence};
use vh_design_nodes::Selected;

/// What an assignment changes, the highest part first, which contracts see as a list. Indexes are read
/// when an object is changed.
pub type Targets = Sequence<Selected>;

/// A delay, in units of a module, from 0 for 1 fs to 17 for 100 s.
#[derive(Clone, Copy)]
pub struct Delay {
    pub amount: ExprId,
    pub unit: u8,
}

/// A value that a call gives to a variable of its task or function.
#[derive(Clone, Copy)]
pub struct Input {
    pub variable: ObjId,
    pub value: ExprId,
}

/// The inputs of a call in order, which contracts see as a list.
pub type Inputs = Sequence<Input>;

/// What the end of a call assigns from a variable of its task or function.
#[derive(Drop)]
pub struct Output {
    pub targets: Targets,
    pub variable: ObjId,
}

/// The outputs of a call in order, which contracts see as a list.
pub type Outputs = Sequence<Output>;

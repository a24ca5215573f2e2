use vh_ast::TaskDirection;
use vh_base::{ObjId, Sequence};
use vh_bind::Scope;

/// An argument of a task or function (IEEE 1364-2005, 10.2 and 10.4).
#[derive(Clone, Copy)]
pub struct Argument {
    pub variable: ObjId,
    pub direction: TaskDirection,
}

/// The arguments of a task or function in order, which contracts see as a list.
pub type Arguments = Sequence<Argument>;

/// Where a statement stands: what an expression sees there, and the arguments of the tasks and
/// functions, by the numbers of their bodies.
#[derive(Clone, Copy)]
pub struct Surroundings<'s, 'a, 'b> {
    pub scope: &'s Scope<'a, 'b>,
    pub arguments: &'s [Arguments],
}

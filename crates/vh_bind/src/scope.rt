use vh_ast::TaskDirection;
use vh_base::{ObjId, Sequence};
use vh_bind_scope::{Names, Top};
use vh_design::{ExprNode, Name, ObjectInfo};
use vh_logic::Vec4;

/// A genvar that has a value: the scope that declares it, and its name.
#[derive(Drop)]
pub struct Genvar {
    pub scope: ObjId,
    pub name: Name,
    /// 32 digits, signed.
    pub value: Vec4,
}

/// Where the arguments of a task or function go, in order, which contracts see as a list.
pub type Directions = Sequence<TaskDirection>;

/// What is known of a task or function: where its arguments go, and a function's result, the variable
/// of its name (IEEE 1364-2005, 10.2 and 10.4).
#[derive(Drop)]
pub struct Routine {
    pub result: Option<ObjId>,
    pub arguments: Directions,
}

/// What an expression is bound for: a constant, or a value that may read objects (IEEE 1364-2005, 4.10
/// and 5.2).
#[derive(Clone, Copy)]
pub enum Mode {
    Constant,
    Value,
}

/// Where an expression stands: what is declared, the scopes around it from the inside out up to its
/// module, the top of the design, the genvars that have a value there, the objects of the design so far,
/// and the expressions in which its parameters have their values.
#[derive(Clone, Copy)]
pub struct Scope<'a, 'b> {
    pub names: &'a Names,
    pub around: &'a [ObjId],
    pub top: Top<'a>,
    pub genvars: &'a [Genvar],
    pub objects: &'a [ObjectInfo],
    pub exprs: &'b [ExprNode],
    /// The tasks and functions, by the numbers of their bodies.
    pub routines: &'a [Routine],
    /// The module's time unit, and the precision of the design, from 0 for 1 fs to 17 for 100 s.
    pub unit: u8,
    pub precision: u8,
}

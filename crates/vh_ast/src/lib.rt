//! Trees of the whole grammar: a struct or an enum for each production, by its name, with its parts
//! in order and its place. README.md lays each type beside its production.
//!
//! The contract that the layers above use: contracts see each tree as plain data (specs/Views.antt).
//! The six functions of [`Expr`] and [`Stmt`] make trees whose parts may be absent or stand in lists;
//! all others are made as they are written. [`only`] begins a list with no more room than it needs, and
//! [`held`] looks into a box that may be absent. A chain of operators, a target's braces and `generate`
//! regions are flat: a tree is as deep as what the depth limit counts.
//!
//! It stands on `vh_base` for places, on `vh_base_shared` for names and texts, on `vh_lex` for numbers and for
//! what the directives before a module set, and on `sqlite_items` for lists and boxes that a type may
//! hold itself in.
#![tactic(auto)]

mod boxed;
mod data_type;
mod declared;
mod expr;
mod instance;
mod item;
mod list;
mod module;
mod name;
mod operator;
mod port;
mod routine;
mod stmt;
mod target;
mod timing;
mod token;

pub use boxed::held;
pub use data_type::{DataType, NetType, Range, Variable};
pub use declared::{Assigned, Decl, Init, Net, Var, VarPart};
pub use expr::{Expr, ExprForm, Link, Primary};
pub use instance::{Conn, Conns, Gate, GateType, Inst};
pub use item::{Gblock, Item, ItemForm, ParameterWord, Plain, ProcessWord};
pub use list::only;
pub use module::{Module, Source};
pub use name::{Esel, Name, Part, Sel, Step};
pub use operator::{Binary, Unary};
pub use port::{Direction, Par, Pdecl, Port, PortType, Ports};
pub use routine::{Function, Local, ResultType, Targ, Task, TaskDirection};
pub use stmt::{
    AssignWord, BlockWord, CaseWord, Citem, ForceWord, LoopWord, Matched, ReleaseWord, Simple,
    Stmt, StmtForm,
};
pub use target::{Lv, LvPart, Set};
pub use timing::{Delay, DelayValue, Edge, Ev, Event};
pub use token::{Id, Ids};
pub use vh_lex::Number;

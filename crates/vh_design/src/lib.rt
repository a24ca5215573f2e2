//! Designs that are valid by their type.
//!
//! A [`Design`] has objects, expressions and drivers, the codes of processes, the bodies of tasks
//! and functions, waits, display calls and statements, each at its number, and the precision of the
//! simulation. [`Design::build`] makes one of [`Parts`], and of no parts that break a rule: that
//! numbers and positions point at what is there and may stand there, that the parts of an expression
//! and the scope of an object come before it, and that widths and signs are those that IEEE
//! 1364-2005, 5.4.1 and 5.5.1, give.
//!
//! The contract that the layers above use: contracts see a design as the lists of its parts;
//! `build` answers exactly where the rules of `specs/Validity.antt` hold, and each look-up says
//! which of them its answer keeps, so that nothing above checks them again. [`design_laws`] says
//! what the rules mean.
//!
//! It stands on `vh_base` for the numbers of things, and on `vh_design_nodes` and `vh_design_code` for the parts,
//! which it hands on.
#![tactic(auto)]

mod design;
mod fitting;
mod laws;
mod parts;

pub use design::{Counts, Design};
pub use laws::design_laws;
pub use parts::Parts;
pub use vh_design_code::{
    Arm, Arms, Block, Blocks, CaseKind, CaseTest, Change, Code, Delay, Drive, DriverIds, Edge,
    Goes, Input, Inputs, Instruction, Instructions, Layer, Leave, Loop, Made, Operation, Output,
    Outputs, Pause, Positions, Returned, Schedule, ShowArg, ShowArgs, ShowCall, ShowTask, Single,
    StmtInfo, StmtKind, Targets, Term, Terms, WaitInfo,
};
pub use vh_design_nodes::{
    Access, Args, Arithmetic, Chosen, Comparison, Detail, DriverInfo, ExprIds, ExprKind, ExprNode,
    Kind, Link, Links, Logic, MOST_UNIT, Name, NetType, ObjectInfo, Range, Select, Selected, Shift,
    Unary, lowest_of,
};

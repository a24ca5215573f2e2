//! The flat code of processes, tasks and functions, and what its instructions name.
//!
//! A [`Code`] is a list of instructions, one for each row of the statements' table, with the place
//! where each goes on. Waits, display calls and statements stand in lists of their own, by number.
//!
//! The contract that the layers above use: [`fits_code`], [`fits_wait`], [`fits_show`] and
//! [`fits_statement`] answer whether one of these may stand in a design (`specs/Codes.antt`): that
//! each number and each place in it is there, and each object of a kind that may stand there.
//!
//! It stands on `vh_design_nodes` for objects, expressions and drivers and the tests of their kinds, on
//! `vh_base` for the numbers of things and on `vh_logic` for vectors.
#![tactic(auto)]

mod change;
mod code;
mod codes;
mod operation;
mod operations;
mod show;
mod statement;
mod target;
mod targets;
mod wait;

pub use change::{Change, Layer, Made};
pub use code::{Block, Blocks, Code, Goes, Instruction, Instructions};
pub use codes::{Limits, fits_code, fits_show, fits_statement, fits_wait};
pub use operation::{
    Arm, Arms, CaseKind, CaseTest, Drive, DriverIds, Leave, Loop, Operation, Pause, Positions,
    Returned, Schedule, Single,
};
pub use show::{ShowArg, ShowArgs, ShowCall, ShowTask};
pub use statement::{StmtInfo, StmtKind};
pub use target::{Delay, Input, Inputs, Output, Outputs, Targets};
pub use wait::{Edge, Term, Terms, WaitInfo};

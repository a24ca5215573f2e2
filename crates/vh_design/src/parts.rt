use vh_design_code::{Code, ShowCall, StmtInfo, WaitInfo};
use vh_design_nodes::{DriverInfo, ExprNode, ObjectInfo};

/// What a design is made of, each at its number: objects, expressions and drivers; the codes of
/// its processes and the bodies of its tasks and functions; waits, display calls and statements;
/// and the simulation's precision, from 0 for 1 fs to 17 for 100 s.
#[derive(Drop)]
pub struct Parts {
    pub objects: Vec<ObjectInfo>,
    pub exprs: Vec<ExprNode>,
    pub drivers: Vec<DriverInfo>,
    pub codes: Vec<Code>,
    pub bodies: Vec<Code>,
    pub waits: Vec<WaitInfo>,
    pub shows: Vec<ShowCall>,
    pub stmts: Vec<StmtInfo>,
    pub precision: u8,
}

use std::alloc::Global;
use vh_bind_stmt::Surroundings;
use vh_design_code::{ShowCall, StmtInfo, WaitInfo};
use vh_design_nodes::ExprNode;

/// What statements add to a design, each at its number.
#[derive(Drop)]
pub struct Added {
    pub exprs: Vec<ExprNode>,
    pub waits: Vec<WaitInfo>,
    pub shows: Vec<ShowCall>,
    pub stmts: Vec<StmtInfo>,
}

/// Where code is made: what its statements stand in, and what they have added to a design.
#[derive(Drop)]
pub struct Maker<'m, 's, 'a, 'b> {
    pub alloc: Global,
    pub around: &'m Surroundings<'s, 'a, 'b>,
    pub added: &'m mut Added,
}

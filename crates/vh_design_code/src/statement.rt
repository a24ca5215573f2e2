use vh_base::{ObjId, Place};

/// What a statement is (IEEE 1364-2005, 26.6.27 to 26.6.38).
#[derive(Clone, Copy, Debug, PartialEq, Eq)]
pub enum StmtKind {
    Assignment,
    DelayControl,
    EventControl,
    Wait,
    If,
    IfElse,
    Case,
    For,
    While,
    Repeat,
    Forever,
    Fork,
    TaskCall,
    SysTaskCall,
    EventStmt,
    Disable,
    Force,
    Release,
    AssignStmt,
    Deassign,
}

/// A statement, the scope that it stands in, and where it begins.
#[derive(Clone, Copy)]
pub struct StmtInfo {
    pub kind: StmtKind,
    pub scope: ObjId,
    pub place: Place,
}

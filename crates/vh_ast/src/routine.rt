use crate::data_type::{DataType, Variable};
use crate::declared::Decl;
use crate::stmt::Stmt;
use crate::token::{Id, Ids};
use sqlite_items::Items;
use vh_base::Place;

/// `"input" | "output" | "inout"` (IEEE 1364-2005, 10.2).
#[derive(Clone, Copy, Debug, PartialEq, Eq)]
pub enum TaskDirection {
    Input,
    Output,
    Inout,
}

/// `targ = ( "input" | "output" | "inout" ) [ "reg" | "integer" | "time" ] type ids`
#[derive(Drop)]
pub struct Targ {
    pub place: Place,
    pub direction: TaskDirection,
    pub variable: Option<Variable>,
    pub data_type: DataType,
    pub ids: Ids,
}

/// `targ ";" | decl`
#[derive(Drop)]
pub enum Local {
    Targ(Targ),
    Decl(Decl),
}

/// `"task" ID [ "(" targs ")" ] ";" { targ ";" | decl } stmt "endtask"` (IEEE 1364-2005, 10.2). By
/// the longest reading each `ID` in `targs` belongs to a `targ`, so they are a list of these; it is
/// empty where no parenthesis is written.
#[derive(Drop)]
pub struct Task {
    pub id: Id,
    pub targs: Items<Targ>,
    pub locals: Items<Local>,
    pub body: Stmt,
}

/// `"integer" | "time" | type`
#[derive(Drop)]
pub enum ResultType {
    Integer,
    Time,
    Data(DataType),
}

/// `"function" [ "integer" | "time" | type ] ID [ "(" targs ")" ] ";" { targ ";" | decl } stmt
/// "endfunction"` (IEEE 1364-2005, 10.4).
#[derive(Drop)]
pub struct Function {
    pub result_type: Option<ResultType>,
    pub id: Id,
    pub targs: Items<Targ>,
    pub locals: Items<Local>,
    pub body: Stmt,
}

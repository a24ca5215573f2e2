use crate::data_type::{DataType, NetType, Variable};
use crate::expr::Expr;
use crate::token::{Id, Ids};
use sqlite_items::Items;
use vh_base::Place;

/// `par = [ "parameter" type ] ID "=" expr` (IEEE 1364-2005, 12.2).
#[derive(Drop)]
pub struct Par {
    pub place: Place,
    pub data_type: Option<DataType>,
    pub id: Id,
    pub value: Expr,
}

/// `"input" | "output"` (IEEE 1364-2005, 12.3).
#[derive(Clone, Copy, Debug, PartialEq, Eq)]
pub enum Direction {
    Input,
    Output,
}

/// `NET | "reg" | "integer" | "time"`
#[derive(Clone, Copy, Debug, PartialEq, Eq)]
pub enum PortType {
    Net(NetType),
    Variable(Variable),
}

/// `pdecl = ( "input" | "output" ) [ NET | "reg" | "integer" | "time" ] type ID`
#[derive(Drop)]
pub struct Pdecl {
    pub place: Place,
    pub direction: Direction,
    pub port_type: Option<PortType>,
    pub data_type: DataType,
    pub id: Id,
}

/// `pdecl | ID`
#[derive(Drop)]
pub enum Port {
    Pdecl(Pdecl),
    Id(Id),
}

/// `ports = ID { "," ID } | pdecl { "," ( pdecl | ID ) }`
#[derive(Drop)]
pub enum Ports {
    Plain(Ids),
    Declared(Pdecl, Items<Port>),
}

use crate::expr::Expr;
use crate::token::Id;
use sqlite_items::Items;
use vh_base::Place;

/// `GATE` (IEEE 1364-2005, 7.2 and 7.3).
#[derive(Clone, Copy, Debug, PartialEq, Eq)]
pub enum GateType {
    And,
    Nand,
    Or,
    Nor,
    Xor,
    Xnor,
    Buf,
    Not,
}

/// `gate = [ ID ] "(" expr { "," expr } ")"`
#[derive(Drop)]
pub struct Gate {
    pub place: Place,
    pub id: Option<Id>,
    pub terminals: Items<Expr>,
}

/// `conn = [ expr ] | "." ID "(" [ expr ] ")"` (IEEE 1364-2005, 12.3.5 and 12.3.6).
#[derive(Drop)]
pub enum Conn {
    /// `[ expr ]`. An empty one has no place.
    Ordered(Option<Expr>),
    /// `"." ID "(" [ expr ] ")"`
    Named {
        place: Place,
        id: Id,
        expr: Option<Expr>,
    },
}

/// `conns = conn { "," conn }`. The empty list is that of no `conns`.
pub type Conns = Items<Conn>;

/// `inst = ID "(" [ conns ] ")"`. Its place is that of the `ID`.
#[derive(Drop)]
pub struct Inst {
    pub id: Id,
    pub conns: Conns,
}

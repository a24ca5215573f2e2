use crate::data_type::{DataType, Range};
use crate::expr::Expr;
use crate::token::Id;
use sqlite_items::{Boxed, Items};
use vh_base::Place;

/// `ID "=" expr`
#[derive(Drop)]
pub struct Assigned {
    pub id: Id,
    pub value: Expr,
}

/// `net = ID [ "=" expr ]`
#[derive(Drop)]
pub struct Net {
    pub id: Id,
    pub value: Option<Boxed<Expr>>,
}

/// `init = ID [ "=" expr ]`
#[derive(Drop)]
pub struct Init {
    pub id: Id,
    pub value: Option<Boxed<Expr>>,
}

/// What stands behind the name of a register. It stands in a box: most registers have nothing there.
#[derive(Drop)]
pub enum VarPart {
    /// Nothing.
    Plain,
    /// `range`: the register is a memory with these addresses.
    Range(Boxed<Range>),
    /// `"=" expr`
    Value(Boxed<Expr>),
}

/// `var = ID [ range | "=" expr ]`
#[derive(Drop)]
pub struct Var {
    pub id: Id,
    pub part: VarPart,
}

/// `decl = "reg" type var { "," var } ";" | ( "integer" | "time" ) init { "," init } ";"`
/// (IEEE 1364-2005, Annex A.2.1.3).
#[derive(Drop)]
pub enum Decl {
    Reg {
        place: Place,
        data_type: DataType,
        vars: Items<Var>,
    },
    Integer(Place, Items<Init>),
    Time(Place, Items<Init>),
}

use crate::expr::Expr;
use crate::name::Name;
use crate::token::Id;
use sqlite_items::Items;
use vh_base::Place;
use vh_lex::Number;

/// What stands behind the `#` of a delay.
#[derive(Drop)]
pub enum DelayValue {
    /// `NUMBER`
    Number(Number),
    /// `ID`
    Id(Id),
    /// `"(" expr ")"`
    Expr(Expr),
}

/// `delay = "#" ( NUMBER | ID | "(" expr ")" )` (IEEE 1364-2005, 9.7.1).
#[derive(Drop)]
pub struct Delay {
    pub place: Place,
    pub value: DelayValue,
}

/// Which change of a value counts.
#[derive(Clone, Copy, Debug, PartialEq, Eq)]
pub enum Edge {
    /// `posedge`
    Positive,
    /// `negedge`
    Negative,
}

/// `ev = [ "posedge" | "negedge" ] expr` (IEEE 1364-2005, 9.7.2).
#[derive(Drop)]
pub struct Ev {
    pub place: Place,
    pub edge: Option<Edge>,
    pub expr: Expr,
}

/// What stands behind an `@` (IEEE 1364-2005, 9.7.3 to 9.7.5).
#[derive(Drop)]
pub enum Event {
    /// `"*" | "(" "*" ")"`
    Any,
    /// `name`
    Name(Name<Expr>),
    /// `"(" ev { ( "or" | "," ) ev } ")"`
    List(Items<Ev>),
}

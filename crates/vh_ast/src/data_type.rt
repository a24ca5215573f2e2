use crate::expr::Expr;
use sqlite_items::Boxed;
use vh_base::Place;

/// `NET` (IEEE 1364-2005, 4.2.1).
#[derive(Clone, Copy, Debug, PartialEq, Eq)]
pub enum NetType {
    Wire,
    Tri,
    Wand,
    Triand,
    Wor,
    Trior,
}

/// `"reg" | "integer" | "time"` (IEEE 1364-2005, 4.2.2).
#[derive(Clone, Copy, Debug, PartialEq, Eq)]
pub enum Variable {
    Reg,
    Integer,
    Time,
}

/// `range = "[" expr ":" expr "]"` (IEEE 1364-2005, 4.3.1).
#[derive(Drop)]
pub struct Range {
    pub place: Place,
    pub left: Expr,
    pub right: Expr,
}

/// `type = [ "signed" ] [ range ]`. The range stands in a box, so that a type without one takes
/// little.
#[derive(Drop)]
pub struct DataType {
    pub signed: bool,
    pub range: Option<Boxed<Range>>,
}

use crate::expr::Expr;
use crate::name::{Name, Sel};
use sqlite_items::{Boxed, Items};
use vh_base::Place;

/// What stands in a row of targets. A name and a select stand in boxes, so that a brace takes little.
#[derive(Drop)]
pub enum LvPart {
    /// `"{"`
    Open,
    /// `name [ sel ]`
    Name(Boxed<Name<Expr>>, Option<Boxed<Sel<Expr>>>),
    /// `"}"`
    Close,
}

/// `lv = name [ sel ] | "{" lv { "," lv } "}"` as a row, so that braces of any depth are flat. Each
/// opening brace has its closing one.
#[derive(Drop)]
pub struct Lv {
    pub place: Place,
    pub parts: Items<LvPart>,
}

/// `lv "=" expr`
#[derive(Drop)]
pub struct Set {
    pub target: Lv,
    pub value: Expr,
}

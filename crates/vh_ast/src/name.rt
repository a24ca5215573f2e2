use crate::token::Id;
use sqlite_items::{Boxed, Items};
use vh_base::Place;

/// `ID [ "[" expr "]" ]`: a part of a name. The index is that of a generate block.
#[derive(Drop)]
pub struct Step<E> {
    pub id: Id,
    pub index: Option<Boxed<E>>,
}

/// `name = ID [ "[" expr "]" ] { "." ID [ "[" expr "]" ] }` over expressions `E`. Its place is that
/// of the first `ID`.
#[derive(Drop)]
pub struct Name<E> {
    pub first: Step<E>,
    pub more: Items<Step<E>>,
}

/// What stands in the bracket of an `esel`.
#[derive(Drop)]
pub enum Part<E> {
    /// `expr`
    Index(Boxed<E>),
    /// `expr ":" expr`
    Range(Boxed<E>, Boxed<E>),
    /// `expr "+:" expr`
    Up(Boxed<E>, Boxed<E>),
    /// `expr "-:" expr`
    Down(Boxed<E>, Boxed<E>),
}

/// `esel = expr | expr ":" expr | expr "+:" expr | expr "-:" expr`, with the place of the bracket
/// around it.
#[derive(Drop)]
pub struct Esel<E> {
    pub place: Place,
    pub part: Part<E>,
}

/// `sel = "[" expr "]" [ "[" esel "]" ] | "[" esel "]"`
#[derive(Drop)]
pub enum Sel<E> {
    /// The first form with one bracket: an expression alone has it.
    Index(Place, Boxed<E>),
    /// The first form with two brackets.
    Both {
        place: Place,
        index: Boxed<E>,
        last: Esel<E>,
    },
    /// The second form, with no expression alone. Its place is that of the bracket.
    Part(Esel<E>),
}

use vh_base::{ObjId, Sequence};

/// Which change of the lowest digit ends a wait (IEEE 1364-2005, 9.7.2).
#[derive(Clone, Copy, Debug, PartialEq, Eq)]
pub enum Edge {
    Any,
    Rising,
    Falling,
}

/// What a wait waits for.
#[derive(Clone, Copy)]
pub enum Term {
    /// A change of so many digits of a vector, from this place on, 0 being the lowest.
    Digits {
        object: ObjId,
        low: u32,
        width: u32,
        edge: Edge,
    },
    /// A named event.
    Event(ObjId),
    /// A change of an object that is read; of a memory, one of any word.
    Reads(ObjId),
}

/// What a wait waits for, which contracts see as a list.
pub type Terms = Sequence<Term>;

/// A wait, which ends with the first of its terms.
#[derive(Drop)]
pub struct WaitInfo {
    pub terms: Terms,
}

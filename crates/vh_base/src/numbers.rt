ghost use Rattle.std.specs.Prelude.{◌≡◌};

use std::marker::{Model, PhantomData};

/// A number `N` by which one of the things of kind `K` is named, which contracts see as the number. A
/// number of one kind is none of another.
#[derive_where(Clone, Copy, Debug, PartialEq, Eq, PartialOrd, Ord; N)]
pub struct Id<N, K> {
    kind: PhantomData<K>,
    number: N,
}

impl<N, K> Model for Id<N, K> {
    ghost Value = { N };

    ghost view = { λ n. n.number };

    ghost inverse = { λ n. record { kind = _; number = n } };
}

impl<N, K> Id<N, K> {
    /// The one of this number.
    pub fn new(number: N) -> Id<N, K>
        ensures { result ≡ number }
    {
        Id {
            kind: PhantomData,
            number,
        }
    }
}

impl<N: Copy, K> Id<N, K> {
    /// Its number.
    pub fn number(&self) -> N
        ensures { result ≡ self.now }
    {
        self.number
    }
}

/// An entry's serial, which contracts see as its number: from 1, in the order in which the entries
/// were added, and never given again.
pub type Serial = Id<u64, Entries>;

/// A process, which contracts see as its number: from 0, in source order.
pub type ProcId = Id<u64, Processes>;

/// A callback, in the order of registration from 1, which contracts see as its number.
pub type CbNumber = Id<u64, Callbacks>;

/// A handle of an application; a number is never given twice, which contracts see as its number.
pub type HandleNo = Id<u64, Handles>;

/// A design object, which contracts see as its number.
pub type ObjId = Id<u32, Objects>;

/// A driver of a net, which contracts see as its number.
pub type DriverId = Id<u32, Drivers>;

/// An expression, which contracts see as its number.
pub type ExprId = Id<u32, Expressions>;

/// A set of objects that a process waits on, which contracts see as its number.
pub type WaitId = Id<u32, Waits>;

/// A call of a display task, which contracts see as its number.
pub type ShowId = Id<u32, Shows>;

/// The kind of entries of the event queue.
pub struct Entries;

/// The kind of processes.
pub struct Processes;

/// The kind of callbacks.
pub struct Callbacks;

/// The kind of handles.
pub struct Handles;

/// The kind of design objects.
pub struct Objects;

/// The kind of drivers of nets.
pub struct Drivers;

/// The kind of expressions.
pub struct Expressions;

/// The kind of sets of objects that processes wait on.
pub struct Waits;

/// The kind of calls of display tasks.
pub struct Shows;

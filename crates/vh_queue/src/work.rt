ghost use Rattle.std.specs.Prelude.{◌≡◌};
ghost use Rattle.vh_queue.specs.Entries.{is_update};

use vh_base::{CbNumber, DriverId, ObjId, Object, ProcId, ShowId};
use vh_logic::Vec4;

/// What an entry of the queue does when it is performed.
#[derive(Clone, Copy)]
pub enum Work {
    /// A process goes on.
    Evaluate(ProcId),
    /// A driver of a net gets a value.
    Drive(DriverId, Vec4),
    /// A nonblocking update (IEEE 1364-2005, 9.2.2): the digits of a variable or of a memory word from
    /// the one of number `low` on.
    Assign {
        object: Object,
        low: u32,
        value: Vec4,
    },
    /// A force of an object, or else its procedural assign, is evaluated once more (9.3).
    Follow {
        object: ObjId,
        force: bool,
    },
    /// An application's put with a delay (27.32).
    Put(Object, Vec4),
    /// A `$strobe` shows (17.1.2).
    Strobe(ShowId),
    /// The `$monitor` that is on shows (17.1.3).
    MonitorShow,
    /// A callback for a time or a synchronization reason (27.33.2).
    Call(CbNumber),
}

impl Work {
    /// Is it a nonblocking update?
    pub fn is_update(&self) -> bool
        ensures { result ≡ is_update self.now }
    {
        match self {
            Work::Assign { .. } => true,
            Work::Evaluate(_)
            | Work::Drive(..)
            | Work::Follow { .. }
            | Work::Put(..)
            | Work::Strobe(_)
            | Work::MonitorShow
            | Work::Call(_) => false,
        }
    }
}

ghost use Rattle.std.specs.Prelude.{◌≡◌};

use crate::ordered::Ordered;
use vh_base::{Answer, Bytes, Cause, CbNumber, Object, ProcId, Reason, Serial};
use vh_orders::{Ending, Who};
use vh_queue::Region;

/// One step of the machine, as it is told.
#[derive(Drop)]
pub enum Label {
    /// The startup of a script begins, by its number from 1.
    Startup(u32),
    /// An order, and what it was answered.
    Do(Who, Ordered, Answer),
    /// An activation goes on by a test of a `while`.
    Pass(Who),
    /// An activation returns.
    Ret(Who),
    /// An occurrence is told under its number: its callbacks fire next.
    Occ(u64, Reason, Option<Object>),
    /// A callback fires for the occurrence of this number.
    Fire(u64, CbNumber),
    /// All callbacks of the occurrence have fired or were removed.
    Done(u64),
    /// All entries of the region at the present time become active.
    Activate(Region),
    /// Time advances to this time, in units of the simulation's precision.
    Advance(u64),
    /// An entry is taken out of the queue and performed; the text that was shown with it.
    Pick(Serial, Option<Bytes>),
    /// A process performs a statement, or ends; the text that was shown.
    Stmt(ProcId, Option<Bytes>),
    /// The run's finish: control, the agenda and the queue are emptied.
    Finish(Cause),
    /// The run is over.
    End(Ending),
}

impl Label {
    ghost use Rattle.vh_kernel.specs.Step.{is_end};

    /// Is the run over after it?
    pub fn is_end(&self) -> bool
        ensures { result ≡ is_end self.now }
    {
        matches!(self, Label::End(_))
    }
}

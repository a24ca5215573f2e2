ghost use Rattle.std.specs.Prelude.{◌≡◌};

use thiserror::Error;
use vh_base::{NoMemory, ObjId};

/// How many calls of tasks and functions a thread may be in, one in the other.
pub const MOST_CALLS: u32 = 256;

/// A call of a task or function, or the code in which a thread began.
#[derive(Clone, Copy, Debug, PartialEq, Eq)]
pub struct Call {
    /// The task or function; none for the code of a process.
    pub routine: Option<ObjId>,
    /// The instruction that was performed last.
    pub position: u32,
    /// The innermost block of its code that it is in: that of the last label.
    pub block: Option<u32>,
}

/// A `repeat` that a thread is inside.
#[derive(Clone, Copy, Debug, PartialEq, Eq)]
pub struct Repeat {
    /// How many calls there are up to the one that it stands in.
    pub depth: u32,
    /// The innermost block of the code that it stands in.
    pub block: Option<u32>,
    /// How many turns are left.
    pub left: u64,
}

/// Why a call isn't begun.
#[derive(Clone, Copy, Debug, PartialEq, Eq, Error)]
pub enum CallFault {
    /// The thread is in [`MOST_CALLS`] calls.
    #[error("too many nested calls")]
    TooDeep,
    /// Memory ran out.
    #[error("no memory")]
    NoMemory,
}

impl From<NoMemory> for CallFault {
    ghost use Rattle.vh_proc_thread.specs.declared.call.CallFault.TheVariants.{NoMemory};

    ghost from_gives = { λ _ fault. fault ≡ NoMemory };

    fn from(_refused: NoMemory) -> CallFault {
        CallFault::NoMemory
    }
}

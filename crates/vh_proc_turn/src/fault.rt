ghost use Rattle.std.specs.Prelude.{◌≡◌};

use thiserror::Error;
use vh_base::{Fault, NoMemory};
use vh_queue::AddFault;

/// Why a label isn't performed. The run ends there, and nothing that the label was to change is
/// read any more.
#[derive(Clone, Copy, Debug, PartialEq, Eq, Error)]
pub enum StepFault {
    /// The run ends with this fault.
    #[error("{0}")]
    Run(Fault),
    /// Memory ran out.
    #[error("no memory")]
    NoMemory,
}

impl From<NoMemory> for StepFault {
    ghost use Rattle.vh_proc_turn.specs.declared.fault.StepFault.TheVariants.{NoMemory};

    ghost from_gives = { λ _ fault. fault ≡ NoMemory };

    fn from(_refused: NoMemory) -> StepFault {
        StepFault::NoMemory
    }
}

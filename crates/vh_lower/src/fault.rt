ghost use Rattle.std.specs.Prelude.{◌≡◌};

use thiserror::Error;
use vh_base::{DesignFault, NoMemory, Place};
use vh_bind::ElabFault;

/// Why the code of a statement could not be made.
#[derive(Clone, Copy, Debug, PartialEq, Eq, Error)]
pub enum LowerFault {
    /// A fault of the design, and where it stands.
    #[error("{0}, in file {file}, line {line}, column {column}", file = .1.file, line = .1.line, column = .1.column)]
    Refused(DesignFault, Place),
    /// It needs a parameter that has no value: the design has a fault there.
    #[error("a parameter has no value")]
    PassedOver,
    #[error("out of memory")]
    NoMemory,
}

/// What is made of a part of a statement, or why it could not be made.
pub type Lowered<T> = Result<T, LowerFault>;

impl From<NoMemory> for LowerFault {
    ghost use Rattle.vh_lower.specs.declared.fault.LowerFault.TheVariants.{NoMemory};

    ghost from_gives = { λ _ fault. fault ≡ NoMemory };

    fn from(_refused: NoMemory) -> LowerFault {
        LowerFault::NoMemory
    }
}

impl From<ElabFault> for LowerFault {
    ghost use Rattle.vh_lower.specs.Faults.{fault_of};

    ghost from_gives = { λ refused fault. fault ≡ fault_of refused };

    fn from(refused: ElabFault) -> LowerFault {
        match refused {
            ElabFault::Refused(fault, place) => LowerFault::Refused(fault, place),
            ElabFault::NoMemory => LowerFault::NoMemory,
        }
    }
}

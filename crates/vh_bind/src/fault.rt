ghost use Rattle.std.specs.Prelude.{◌≡◌};

use thiserror::Error;
use vh_base::{DesignFault, NoMemory, Place};

/// Why a part of a design could not be made.
#[derive(Clone, Copy, Debug, PartialEq, Eq, Error)]
pub enum ElabFault {
    /// A fault of the design, and where it stands.
    #[error("{0}, in file {file}, line {line}, column {column}", file = .1.file, line = .1.line, column = .1.column)]
    Refused(DesignFault, Place),
    #[error("out of memory")]
    NoMemory,
}

impl From<NoMemory> for ElabFault {
    ghost use Rattle.vh_bind.specs.declared.fault.ElabFault.TheVariants.{NoMemory};

    ghost from_gives = { λ _ fault. fault ≡ NoMemory };

    fn from(_refused: NoMemory) -> ElabFault {
        ElabFault::NoMemory
    }
}

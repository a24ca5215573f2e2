//! Why a text has no script.

ghost use Rattle.std.specs.Prelude.{◌≡◌};

use thiserror::Error;
use vh_base::{AppFault, NoMemory, Place};

/// Why a text has no script.
#[derive(Clone, Copy, Debug, PartialEq, Eq, Error)]
pub enum ScriptFault {
    /// What is wrong, and where it stands.
    #[error("no script: {0}, at line {line}, column {column}", line = .1.line, column = .1.column)]
    Refused(AppFault, Place),
    #[error("out of memory")]
    NoMemory,
}

impl From<NoMemory> for ScriptFault {
    ghost use Rattle.vh_app_script.specs.declared.fault.ScriptFault.TheVariants.{NoMemory};

    ghost from_gives = { λ _ fault. fault ≡ NoMemory };

    fn from(_refused: NoMemory) -> ScriptFault {
        ScriptFault::NoMemory
    }
}

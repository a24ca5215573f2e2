ghost use Rattle.std.specs.Prelude.{◌≡◌};

use std::alloc::AllocFailed;
use thiserror::Error;
use vh_base::{DesignFault, NoMemory, Place};

/// Why the bytes of the files have no tokens.
#[derive(Clone, Copy, Debug, PartialEq, Eq, Error)]
pub enum LexFault {
    /// A lexical fault, `L1` to `L6`, and where it stands.
    #[error("{0}, in file {file}, line {line}, column {column}", file = .1.file, line = .1.line, column = .1.column)]
    Refused(DesignFault, Place),
    #[error("out of memory")]
    NoMemory,
}

// Why a piece is not read: a fault, so many bytes behind its first one.
#[derive(Clone, Copy)]
pub(crate) enum Stop {
    Fault(DesignFault, usize),
    NoMemory,
}

// Why the text of a macro is not read.
#[derive(Clone, Copy)]
pub(crate) enum Halt {
    Fault(DesignFault),
    NoMemory,
}

impl From<NoMemory> for Stop {
    ghost use Rattle.vh_lex.specs.declared.fault.Stop.TheVariants.{NoMemory};

    ghost from_gives = { λ _ stop. stop ≡ NoMemory };

    fn from(_refused: NoMemory) -> Stop {
        Stop::NoMemory
    }
}

impl From<NoMemory> for Halt {
    ghost use Rattle.vh_lex.specs.declared.fault.Halt.TheVariants.{NoMemory};

    ghost from_gives = { λ _ halt. halt ≡ NoMemory };

    fn from(_refused: NoMemory) -> Halt {
        Halt::NoMemory
    }
}

impl<T: Drop> From<AllocFailed<T>> for Halt {
    ghost use Rattle.vh_lex.specs.declared.fault.Halt.TheVariants.{NoMemory};

    ghost from_gives = { λ _ halt. halt ≡ NoMemory };

    fn from(_refused: AllocFailed<T>) -> Halt {
        Halt::NoMemory
    }
}

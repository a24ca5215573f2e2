//! Why a parser stops.

ghost use Rattle.std.specs.Prelude.{◌≡◌};
ghost use Rattle.vh_parse_grammar.specs.declared.stop.Stop.TheVariants.{Memory};

use std::alloc::{AllocError, AllocFailed};

/// Why a parser stops. Each place is how many tokens are left there, its own token being one of them, so
/// 0 is the place after the last token.
#[derive(Clone, Copy, Debug, PartialEq, Eq)]
pub enum Stop {
    /// No token that could stand here.
    Lost(usize),
    /// A token past the last level of nesting.
    Deep(usize),
    /// The first token of a construct that is left out.
    LeftOut(usize),
    /// No memory was left: this says nothing of the tokens.
    Memory,
}

impl From<AllocError> for Stop {
    ghost from_gives = { λ _ stop. stop ≡ Memory };

    fn from(_failed: AllocError) -> Stop {
        Stop::Memory
    }
}

impl<T: Drop> From<AllocFailed<T>> for Stop {
    ghost from_gives = { λ _ stop. stop ≡ Memory };

    fn from(_failed: AllocFailed<T>) -> Stop {
        Stop::Memory
    }
}

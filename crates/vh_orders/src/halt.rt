ghost use Rattle.std.specs.Prelude.{◌≡◌};

use std::alloc::AllocError;
use vh_base::{Code, NoMemory};

/// Why an order is not performed: it is refused with an error, or memory was refused.
#[derive(Clone, Copy)]
pub enum Halt {
    Refused(Code),
    NoMemory,
}

impl From<NoMemory> for Halt {
    ghost use Rattle.std.specs.Prelude.{◌≡◌};
    ghost use Rattle.vh_orders.specs.declared.halt.Halt.TheVariants.{NoMemory};

    ghost from_gives = { λ _ halt. halt ≡ NoMemory };

    fn from(_refused: NoMemory) -> Halt {
        Halt::NoMemory
    }
}

//! What the program performs today. What is built later gets a row here, and stands in no other
//! place.

ghost use Rattle.std.specs.Prelude.{◌≡◌};
ghost use Rattle.vh_app_script.specs.Built as spec;

use vh_app_lines::Routine;
use vh_base::Reason;

static ROUTINES: [Routine; 13] = [
    Routine::ByName,
    Routine::ByIndex,
    Routine::Handle,
    Routine::Free,
    Routine::Compare,
    Routine::Get,
    Routine::GetStr,
    Routine::GetTime,
    Routine::Register,
    Routine::Remove,
    Routine::CbInfo,
    Routine::ChkError,
    Routine::Print,
];

static REASONS: [Reason; 4] = [
    Reason::CbValueChange,
    Reason::CbEndOfCompile,
    Reason::CbStartOfSimulation,
    Reason::CbEndOfSimulation,
];

/// The routines that are built.
pub fn routines() -> &'static [Routine]
    ensures { result.now ≡ spec.built_routines }
{
    &ROUTINES
}

/// The reasons that are built.
pub fn reasons() -> &'static [Reason]
    ensures { result.now ≡ spec.built_reasons }
{
    &REASONS
}

/// Whether a callback may call a native.
pub fn natives() -> bool
    ensures { result ≡ spec.natives_are_built }
{
    false
}

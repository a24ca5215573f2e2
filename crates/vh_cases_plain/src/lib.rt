//! Plain bodies of the time wheel and of slots: an ordered map each, under the same contract.
//!
//! [`PlainWheel`] and [`PlainSlots`] answer as `vh_wheel::Wheel` and `vh_slots::Slots` do, by a walk
//! over all numbers where those have a list. They are slow and short, and stand on no path of the
//! program: the tests run both bodies of each on the same calls and compare the answers.
//!
//! The contracts are those of the two crates: [`PlainWheel`] is seen as the `Schedule` of
//! `vh_wheel`, without its steps and moves, and [`PlainSlots`] as the `Table` of `vh_slots`.
#![tactic(auto)]

mod slots;
mod wheel;

pub use slots::PlainSlots;
pub use wheel::PlainWheel;

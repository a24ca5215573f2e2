//! Frames: for each occurrence that was told, the set of callbacks that are still to fire
//! (IEEE 1364-2005, 27.33).
//!
//! The one contract used above: [`Dispatch`] is a stack of at most 64 frames' numbers, and
//! `stack_of` its frames' sets over a registry, which keeps them by depth: `begin` puts the
//! set of an occurrence on top, `next` takes a number out of the top set, `finish` drops it.
//! [`dispatch_laws`] says what a removal and a registration leave. Stands on vh_callbacks.
#![tactic(auto)]

mod dispatch;
mod laws;

pub use dispatch::{Begun, Dispatch};
pub use laws::dispatch_laws;

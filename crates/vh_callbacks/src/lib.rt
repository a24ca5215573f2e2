//! The callbacks that applications have registered (IEEE 1364-2005, 27.33 and 27.34).
//!
//! The one contract used above: [`Registry`] is a finite map from callback numbers to
//! registrations and bodies, with the next number; no number is given twice. Who has a
//! reason and an object is found without a walk over the others. [`callbacks_laws`] says
//! what is left after a registration and a removal. Stands on vh_base alone.
#![tactic(auto)]

mod entries;
mod index;
mod laws;
mod live;
mod numbers;
mod registration;
mod registry;
mod sets;

pub use laws::callbacks_laws;
pub use live::Live;
pub use registration::{RegisterFault, Registration, Removed};
pub use registry::Registry;

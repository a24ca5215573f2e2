//! The event queue (IEEE 1364-2005, 11.3 and 11.4).
//!
//! The one contract used above: contracts see [`Queue`] as `Events`, a finite map from serials
//! to entries with the next serial and the present time; each call is one equation over it, and
//! the entries that may be picked are those that `eligible` of `specs/Events.antt` gives. Want of
//! memory is the one free answer. It stands on `vh_base` and on `vh_logic`, whose vectors entries hold.
#![tactic(auto)]

mod entry;
mod fault;
mod horizons;
mod index;
mod key;
mod laws;
mod queue;
mod region;
mod work;

pub use entry::Entry;
pub use fault::AddFault;
pub use laws::queue_laws;
pub use queue::Queue;
pub use region::Region;
pub use work::Work;

//! The machine: processes, the event queue and control, one label at a time
//! (IEEE 1364-2005, clause 11).
//!
//! The one contract used above: [`Kernel::step`] makes one step of the machine from the
//! state that the kernel shows to the next, by the k-th of [`Kernel::choices`], and
//! [`push_line`] adds the label's line in the transcript. It stands on `vh_app`, whose scripts say what
//! they order next, on `vh_orders`, which performs it on the world, on `vh_queue`, which has the
//! entries, on `vh_dispatch` and `vh_callbacks`, which have the frames' sets and what was
//! registered,
//! and on `vh_app_lines`, which has the texts of orders.
#![tactic(auto)]

mod activation;
mod control;
mod kernel;
mod label;
mod laws;
mod line;
mod occurrence;
mod ordered;
mod texts;

pub use kernel::Kernel;
pub use label::Label;
pub use laws::step_laws;
pub use line::push_line;
pub use ordered::Ordered;
pub use vh_orders::{Ending, Who};

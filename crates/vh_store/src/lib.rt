//! The values of a design's objects: what each variable, net and word of a memory holds, in which
//! layers, what the calls in expressions answered last, and the present time.
//!
//! The contract that the layers above use: contracts see a [`Store`] as its `Contents`
//! (`specs/Contents.antt`), a record for each object with what it was assigned, a put's override, its
//! procedural assign and its force. Each call is a function of `specs/` on it, and answers a `Change`
//! exactly where the shown value is another than before. What a net's drivers make of it
//! (`specs/Resolution.antt`) is kept up to date inside. No call but [`Store::new`] takes memory.
//!
//! It stands on `vh_design` for the objects, and on `vh_logic` for values.
#![tactic(auto)]

mod join;
mod laws;
mod net;
mod opening;
mod record;
mod same;
mod store;

pub use laws::store_laws;
pub use same::is_same_value;
pub use store::Store;

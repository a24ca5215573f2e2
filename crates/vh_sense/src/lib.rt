//! Who waits on what: which processes a change wakes, and which force and assign statements follow it.
//!
//! The contract that the layers above use: contracts see a [`Sense`] as its `Sensitivity`
//! (`specs/Sensitivity.antt`), the map from each process that waits to its wait, beside what the design
//! fixes. [`Sense::next_woken`] answers the least process of the definition `woken`, which tests every one,
//! and takes its wait away; [`Sense::next_follow`] answers the next of `followers`. Nothing above names the
//! sets by object that are kept inside.
//!
//! It stands on `vh_design` for waits, codes and expressions, and on `vh_logic` for digits.
#![tactic(auto)]

mod edges;
mod follow;
mod laws;
mod readers;
mod sense;
mod sets;
mod watchers;

pub use follow::Follow;
pub use laws::sense_laws;
pub use readers::{count_parts, part_at, reads};
pub use sense::Sense;

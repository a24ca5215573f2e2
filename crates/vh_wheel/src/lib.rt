//! A time wheel: payloads that are held until their times, under node numbers.
//!
//! [`Wheel`] holds nodes in eight levels of 256 buckets. The level of a node is the highest byte in
//! which its time differs from the present time, and its bucket that byte of its time. So the first
//! bucket with a node has the least time, and a node goes to a lower level each time it is moved.
//!
//! The contract that the layers above use: contracts see [`Wheel`] as `Schedule` of `specs/`, the
//! time and payload of each held node and the present time, and each call is one equation with a
//! function on it; which node a call of `schedule` gives and which of the due ones a call of
//! `take_due` takes is free. Steps are counted by `Steps`: a step is a look at one bucket, a look at
//! one of the words that say of 64 buckets each which have nodes, or a move of one node. Want of
//! memory is the one free answer.
//!
//! It stands on `vh_links` for the lists of the buckets, and on `vh_base` for the count of steps.
#![tactic(auto)]

mod bucket;
mod buckets;
mod node;
mod occupied;
mod wheel;

pub use wheel::Wheel;

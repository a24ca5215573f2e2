//! Bytes that many share: the names and texts of tokens, and of the trees that are made of them.
//!
//! The one contract that the layers above use: contracts see [`SharedBytes`] as the list of its
//! bytes, and [`SharedBytes::share`] answers the same bytes once more without copying them. Want of
//! memory is the one free answer.
#![tactic(auto)]

mod bytes;

pub use bytes::SharedBytes;

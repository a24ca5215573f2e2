//! A set and a map in their order that cost little where they are small: some keys in a row, the others in a tree.
//!
//! The contracts that the layer above uses: contracts see a [`Near`] as the set of its keys, as they see one of the
//! standard library, and a [`Recent`] as its entries by rising numbers. Want of memory is the one free answer.
#![tactic(auto)]

mod near;
mod recent;

pub use near::Near;
pub use recent::Recent;

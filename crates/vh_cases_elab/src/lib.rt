//! Cases of `vh_elab`: sources with what comes of them.
//!
//! Nothing stands on it. It is a crate of its own so that a new case proves no other crate again.
#![tactic(auto)]

#[cfg(test)]
mod tests;

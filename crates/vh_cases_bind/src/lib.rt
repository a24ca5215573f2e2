//! Cases of `vh_bind` and `vh_bind_expr`: constant expressions, and expressions over objects, with their values or their faults and places.
//!
//! Nothing stands on it. It is a crate of its own so that a new case proves no other crate again.
#![tactic(auto)]

#[cfg(test)]
mod constants;
#[cfg(test)]
mod expressions;
#[cfg(test)]
mod genvar;

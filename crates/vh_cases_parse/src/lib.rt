//! Trees, and texts with what the parsers answer for their tokens: tests of the crates below, which have none of
//! their own, so that a change of a test proves nothing again.
#![tactic(auto)]

#[cfg(test)]
mod expressions;
#[cfg(test)]
mod statements;
#[cfg(test)]
mod trees;

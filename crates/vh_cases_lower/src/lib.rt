//! Statements of a module, with their instructions or their faults and places, worked out by hand.
#![tactic(auto)]

#[cfg(test)]
mod codes;
#[cfg(test)]
mod tests;
#[cfg(test)]
mod texts;

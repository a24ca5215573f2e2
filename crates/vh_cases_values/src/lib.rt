//! Values and texts that are worked out by hand, or that an independent implementation gives: tests of
//! `vh_logic`, `vh_text`, `vh_eval` and `vh_display`, which have none of their own, so that each is proved
//! once.
#![tactic(auto)]

#[cfg(test)]
mod display;
#[cfg(test)]
mod eval;
#[cfg(test)]
mod logic;
#[cfg(test)]
mod text;

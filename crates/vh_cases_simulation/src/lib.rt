//! Small designs with the labels and the texts of their runs, worked out by hand: tests of
//! `vh_proc_simulation`, which has none of its own, so that it is proved once.
#![tactic(auto)]

#[cfg(test)]
mod forces;
#[cfg(test)]
mod statements;

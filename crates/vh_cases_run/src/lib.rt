//! Runs that no list of cases can hold: failing reads and writes, texts of the greatest length, limits of the machine, and
//! the plain program beside `run`. The cases of `vh_cases_stored` are texts.
#![tactic(auto)]

#[cfg(test)]
mod runs;
#[cfg(test)]
mod scripts;

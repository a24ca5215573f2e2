//! Scripts with their faults and places, and with the orders of their procedures, worked out by hand: tests of `vh_app_script`
//! and `vh_app`, which have none of their own, so that each is proved once.
#![tactic(auto)]

#[cfg(test)]
mod orders;
#[cfg(test)]
mod scripts;

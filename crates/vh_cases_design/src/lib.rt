//! Small designs, with what their crates say of them: tests of crates which have none of their own, so
//! that each is proved once.
#![tactic(auto)]

#[cfg(test)]
mod code;
#[cfg(test)]
mod design;
#[cfg(test)]
mod names;
#[cfg(test)]
mod scope;
#[cfg(test)]
mod sense;
#[cfg(test)]
mod store;
#[cfg(test)]
mod syntax;
#[cfg(test)]
mod systf;
#[cfg(test)]
mod thread;

//! Callbacks, handles, lines, queues and what these stand on, called in orders that are worked out by
//! hand: tests of crates which have none of their own, so that each is proved once.
#![tactic(auto)]

#[cfg(test)]
mod base;
#[cfg(test)]
mod callbacks;
#[cfg(test)]
mod dispatch;
#[cfg(test)]
mod handles;
#[cfg(test)]
mod lines;
#[cfg(test)]
mod links;
#[cfg(test)]
mod plain;
#[cfg(test)]
mod queue;
#[cfg(test)]
mod slots;
#[cfg(test)]
mod wheel;

//! Lists of nodes that are linked by index, one for each anchor.
//!
//! A node is in one list at most. [`Links`] appends a node to a list, takes a node out of the list
//! that has it, and appends one list to another, each in constant time and without memory; memory
//! is taken when the anchors are made and when a node is added.
//!
//! The contract that the layers above use: contracts see [`Links`] as `Lists` of `specs/`, the list
//! of node numbers of each anchor and the number of nodes, and each call is one equation with a
//! function on them. That anchors and nodes are in range, and whether a node is in a list, is the
//! caller's condition. Want of memory is the one free answer.
//!
//! It stands on `vh_base` for the want of memory.
#![tactic(auto)]

mod links;

pub use links::Links;

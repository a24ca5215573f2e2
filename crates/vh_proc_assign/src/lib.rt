//! What assignments and the calls of tasks and functions change (IEEE 1364-2005, 5.2, 9.2 and
//! 10.2).
//!
//! The contract that the layers above use: the targets of a statement take [`Piece`]s of a value,
//! each some digits of an object (`specs/Pieces.antt`), whose indexes are read before anything is
//! changed. [`take_piece`] gives one to its object and answers the change, and [`take_pieces`]
//! gives them in order and notes what was changed (`specs/Assigned.antt`). [`take_driver`] does the
//! same of a driver, and [`take_put`] of a put. [`force_object`] and its like are what force, release and procedural assigns
//! do to an object, and [`follow_object`] what a change of an operand does (`specs/Layers.antt`).
//! [`right_side`] and [`time_after`] are the values that a statement reads (`specs/Values.antt`).
//! Want of memory is the one free answer.
//!
//! It stands on `vh_eval` for values of expressions and on `vh_store` for those of objects.
#![tactic(auto)]

mod assigned;
mod layers;
mod piece;
mod targets;
mod values;

pub use assigned::{take_driver, take_piece, take_pieces, take_put};
pub use layers::{
    assign_object, deassign_object, expr_of, follow_object, force_object, release_object, value_for,
};
pub use piece::Piece;
pub use targets::{digits_of, pieces_in, pieces_of, pieces_out};
pub use values::{integer_alone, right_side, time_after, value_alone};

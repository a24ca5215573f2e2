//! Four-state vectors, and every operator of Verilog on them.
//!
//! A [`Vec4`] holds 1 to [`MAX_WIDTH`] digits out of 0, 1, x and z with a sign mark. Contracts see
//! it as the list of its digits, lowest first, and the mark. Inside it is two planes of bits, and
//! each operator is a handful of word operations on whole planes.
//!
//! The contract that the layers above use: each call answers the function of its operator in
//! `specs/`, which works digit by digit or on the integers that the digits stand for, at every
//! width. That widths agree, or that a part is inside, is the caller's condition. Nothing here
//! takes memory or refuses.
//!
//! The greatest width is written in one position, as [`MAX_WIDTH`], [`Plane`] and [`NATURAL_WIDTHS`].
//! All else here and in the crates above is over these three.
//!
//! It stands on std alone.
#![tactic(auto)]

mod arithmetic;
mod bitwise;
mod compare;
mod digits;
mod parts;
mod reduce;
mod shift;
mod vector;

pub use arithmetic::{add, div, mul, negate, pow, rem, sub};
pub use bitwise::{and, invert, merge, or, xnor, xor};
pub use compare::{case_equal, casex_equal, casez_equal, equal, less};
pub use digits::Digit;
pub use parts::{concat, replace, resize, select};
pub use reduce::{reduce_and, reduce_or, reduce_xor, truth};
pub use shift::{shl, shr, sshr};
pub use vector::{MAX_WIDTH, NATURAL_WIDTHS, Plane, Vec4, mask};

//! The objects, expressions and drivers of designs, and the tests of what may stand there.
//!
//! An object, an expression or a driver is plain data. Whether one may stand at a number of a
//! design's lists is a test of one element against these lists: [`fits_object`], [`fits_node`] and
//! [`fits_driver`].
//!
//! The contract that the layers above use: each test answers what its row of `specs/Fits.antt` says,
//! and [`kind_width`] and [`kind_signed`] the width and the sign that IEEE 1364-2005, 5.4.1 and
//! 5.5.1, give (`specs/Widths.antt`).
//!
//! It stands on `vh_base` for the numbers of things and on `vh_logic` for literals and the greatest
//! width.
#![tactic(auto)]

mod driver;
mod expr;
mod fits;
mod object;
mod widths;

pub use driver::DriverInfo;
pub use expr::{
    Access, Arithmetic, Chosen, Comparison, ExprIds, ExprKind, ExprNode, Link, Links, Logic, Range,
    Select, Selected, Shift, Unary,
};
pub use fits::{
    MOST_UNIT, body_number, fits_driver, fits_node, fits_object, fits_selected, has_body,
    is_before, is_disable_target_at, is_event_at, is_forcible_at, is_memory_at, is_named_block_at,
    is_routine_at, is_scope_at, is_system_function_at, is_system_task_at, is_unit, is_variable_at,
    is_vector_at, is_width, lowest_of, same_sign,
};
pub use object::{Args, Detail, Kind, Name, NetType, ObjectInfo};
pub use widths::{
    driver_width, kind_signed, kind_width, object_width, selected_width, side_by_side, signed_of,
    width_of,
};

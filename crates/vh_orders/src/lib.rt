//! The routines that applications call, over the world that they read and change (IEEE
//! 1364-2005, clause 27).
//!
//! The one contract used above: [`perform`] answers an order and changes the [`World`] as the
//! order's row of `specs/Orders.antt` says; a new handle has the next number of the world's.
//! Want of memory is the one free answer. It wakes nobody and knows neither control nor the
//! event queue: a removal reaches every frame through the registry's sets. It stands on
//! `vh_app`, whose scripts have procedures, `vh_callbacks` and `vh_dispatch`, which keep the
//! callbacks and the frames' sets, `vh_handles`, and `vh_objects`, which walks the design.
#![tactic(auto)]

mod addresses;
mod asking;
mod by_name;
mod halt;
mod look_up;
mod names;
mod performing;
mod phase;
mod reads;
mod register;
mod remove;
mod tables;
mod walking;
mod who;
mod world;

pub use look_up::Names;
pub use names::{Named, joined};
pub use performing::perform;
pub use phase::{Ending, Phase};
pub use tables::{is_pass, is_return};
pub use who::{Body, Who};
pub use world::World;

//! The scripts of applications: a script's bytes, and what its activations order next
//! (IEEE 1364-2005, clauses 26 and 27, in this project's profile).
//!
//! The contracts that the layers above use: [`read_app`] answers the script that the bytes are, or
//! its first fault and where that stands, as `app_of` of `specs/Reading.antt` says, and
//! [`Script::next`] the next order, the point behind it and the variables, as `next_of` of
//! `specs/Next.antt` says. It stands on
//! `vh_app_script` for the trees of scripts.
#![tactic(auto)]

mod form;
mod forms;
mod laws;
mod laying;
mod numbers;
mod orders;
mod point;
mod read;
mod script;
mod sizes;
mod turned;
mod value;
mod vars;

pub use laws::point_law;
pub use point::Point;
pub use read::read_app;
pub use script::Script;
pub use vars::Vars;
pub use vh_app_script::ScriptFault;

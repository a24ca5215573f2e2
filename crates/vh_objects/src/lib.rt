//! The objects of a design as applications walk them: kinds, relations and properties (IEEE
//! 1364-2005, 26.6).
//!
//! The contracts that the layers above use: [`one`] answers the object that a relation leads to, and
//! [`Lister::of`] the list of objects, each by its row of `specs/Relations.antt`; a [`Lister`]
//! answers its object at a position at once. [`property`] answers by its row of
//! `specs/Properties.antt`, and [`kind_of`] what an object is. Want of memory is the one free answer.
//!
//! It stands on `vh_design`, whose scopes have lesser numbers than what stands in them, and on
//! `vh_design_names` for full names.
#![tactic(auto)]

mod children;
mod found;
mod kind;
mod kinds;
mod lister;
mod order;
mod properties;
mod relation;
mod tables;

pub use children::Children;
pub use found::Found;
pub use kind::ObjectKind;
pub use kinds::{has_name, has_path};
pub use lister::{Lister, count_from};
pub use properties::{is_by_get_str, property, push_address, text_answer};
pub use relation::{info_at, kind_of, one};

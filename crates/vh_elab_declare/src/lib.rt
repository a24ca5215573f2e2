//! What an instance of a module declares, with all its constants (IEEE 1364-2005, 4.3, 4.9, 4.10
//! and 12.7).
//!
//! The contract that the layer above uses: [`first_pass`] answers what `specs/FirstPass.antt`
//! gives an
//! instance and the sites in it, behind what is known of the instances before it: its objects and
//! their names, the values of
//! parameters and the ranges of variables, nets and memories, and the least fault of these.
//!
//! It stands on `vh_elab_sites` for what is declared, and on `vh_bind` for the values of constants.
#![tactic(auto)]

mod checked;
mod genvars;
mod given;
mod known;
mod needs;
mod objects;
mod parameters;
mod ranges;
mod settling;
mod standing;

pub use checked::{Checked, declare, first_pass};
pub use genvars::{Genvars, genvars_in};
pub use given::Given;
pub use known::{Home, Known};
pub use objects::{around, instance_object, is_routine, name_wires};
pub use standing::in_scope;

//! The modules of a source: which of them is the top, and the faults that come before all others
//! (IEEE 1364-2005, 12.1.1).
//!
//! The contract that the layers above use: [`top_of`] answers the one module that no module
//! instantiates, or the least fault that `specs/Modules.antt` gives the source: `N9`, `N8` and `N2`
//! of modules.
//!
//! It stands on `vh_elab_mentions` for the modules that a module names, on `vh_elab_index` for the first of a
//! name, and on `vh_elab_cycles` for modules that hold themselves.
#![tactic(auto)]

mod faults;
mod graph;
mod top;

pub use graph::named;
pub use top::top_of;

//! The ports of a module: their places in its header, and what declares each
//! (IEEE 1364-2005, 12.3).
//!
//! The contract that the layers above use: [`ports_of`] answers what [`Ports`] tell of a module, as
//! `specs/Ports.antt` says: [`Ports::index`] the place of a name in the header, [`Ports::port_at`]
//! what it is as a port; and [`ports_fault`] the least fault of all.
//!
//! It stands on `vh_ast` for the trees, from which ports borrow, and on `vh_elab_index` for names.
#![tactic(auto)]

mod directed;
mod faults;
mod header;
mod ports;
mod typed;

pub use directed::{Directed, add_header};
pub use ports::{Ports, ports_fault, ports_of};

//! The parser of what modules are made of, up to items in which neither an item nor a statement
//! stands: ports, parameters, nets, gates, instances, and the arguments of tasks and functions.
//!
//! The contract that the layer above uses: each function ensures one equation with the reading of
//! its part of the grammar's table (`Reads` of `vh_parse_expr`).
//!
//! It stands on `vh_parse_decl` for declarations, delays and lists, and on `vh_parse_expr` for
//! names and expressions.
#![tactic(auto)]

mod boxed;
mod head;
mod ids;
mod instance;
mod item;
mod made;
mod nets;
mod parameters;
mod port;
mod rows;
mod targs;

pub use item::{
    assign_item, decl_item, event_item, gate_item, genvar_item, instance_item, net_item,
    parameter_item, port_item,
};
pub use made::plain;
pub use parameters::{assigned, pars};
pub use port::ports;
pub use targs::{locals, maybe_targs};

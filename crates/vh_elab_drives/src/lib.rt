//! What continuous assignments drive, and the codes of gates and output ports (IEEE 1364-2005,
//! 6.1, 7 and 12.3.9).
//!
//! The contracts that the layer above uses: [`target_drivers`] and [`output_drivers`] answer the
//! nets that a target names, as `specs/Nets.antt` says; [`gate_delay`], [`gate_input`],
//! [`gate_code`] and [`port_code`] make the processes that `specs/Gates.antt` gives gates and
//! output ports.
//!
//! It stands on `vh_bind_expr` for names and expressions, and on `vh_lower` for what a design gets.
#![tactic(auto)]

mod gates;
mod nets;
mod targets;

pub use gates::{gate_code, gate_delay, gate_input, has_terminals, port_code};
pub use nets::{is_net_at, object_width};
pub use targets::{Drivers, Driving, drivers_sum, output_drivers, target_drivers};

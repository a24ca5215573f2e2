//! The program `vhost`. All that it does is the one call of vh_sim_edge.
#![tactic(auto)]

use std::process::ExitCode;
use vh_sim_edge::run_program;

fn main(rt: HostRuntime) -> ExitCode {
    run_program(&rt)
}

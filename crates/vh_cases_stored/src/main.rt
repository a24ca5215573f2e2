//! The call `run` over lists of cases: each case is some texts and calls over them, and each call has the transcript that it
//! is to write, how it is to exit and what it is to tell. A program, so that one proof and one build serve all cases.
//!
//! It writes for each list how many cases and calls it has, and every call that differs. The cases are the files of
//! `data/`; this crate's README says how they are written.
#![tactic(auto)]

mod call;
mod list;

use anyhow::Result;
use list::List;
use std::fs;

// The lists, files of the folder in which the program runs.
const NAMES: [&str; 14] = [
    "words",
    "statements",
    "waits",
    "calls",
    "disables",
    "forks",
    "shows",
    "hierarchy",
    "orders",
    "sources",
    "scripts",
    "objects",
    "expressions",
    "examples",
];

fn main(rt: HostRuntime) -> Result<()> {
    for name in NAMES {
        check_list(&rt, name)?;
    }
    Ok(())
}

// Checks the cases of a list.
fn check_list(rt: &HostRuntime, name: &str) -> Result<()> {
    let text = fs::read(rt, name)?;
    let mut list = List::new(rt.alloc());
    for line in text.split(|byte| *byte == b'\n') {
        list.take(rt, line)?;
    }
    println!(rt;
        "{name}: {} cases, {} calls, {} differ",
        list.cases(),
        list.calls(),
        list.differ()
    )?;
    Ok(())
}

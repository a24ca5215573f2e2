use vh_base::{Cause, Fault};

/// How a run ends.
#[derive(Clone, Copy, Debug, PartialEq, Eq)]
pub enum Ending {
    /// By a finish, or because no event was left.
    Cause(Cause),
    /// In place of a label that would have exceeded a number of the machine.
    Fault(Fault),
}

/// Where a run stands: before its finish, between the finish and the end, or over.
#[derive(Clone, Copy)]
pub enum Phase {
    Running,
    Finished(Cause),
    Ended(Ending),
}

use vh_base::{AppFault, Cause, DesignFault, Fault, Place};

/// How a call of `run` ended. A file is named by its number among the file words, from 1.
#[derive(Clone, Copy, Debug, PartialEq, Eq)]
pub enum Status {
    /// The run came to its end, and its whole text was written.
    Done(Cause),
    /// The words have no reading.
    Usage,
    /// The source of files failed at this file.
    ReadFault(u32),
    /// This file has more bytes than are read.
    TooLong(u32),
    /// The Verilog text is refused, with the first fault and its place.
    DesignRefused(DesignFault, Place),
    /// This script is refused, with the first fault and its place.
    AppRefused(u32, AppFault, Place),
    /// The run ended with this fault, and its whole text was written.
    RunFault(Fault),
    /// The run has as many labels as the budget, and its whole text was written.
    BudgetSpent,
    /// The sink failed; a front of the text was written.
    WriteFault,
    /// Memory was refused; a front of the text was written.
    NoMemory,
}

ghost use Rattle.std.specs.Prelude.{◌≡◌};
ghost use Rattle.vh_base.specs.Faults.{cause_name, fault_name, design_fault_name, app_fault_name};

use std::alloc::{AllocError, AllocFailed};
use std::fmt;
use thiserror::Error;

/// Memory was refused. The one free answer: it comes from any call that takes an
/// allocator, and is merged with no other.
#[derive(Clone, Copy, Debug, PartialEq, Eq, Error)]
#[error("out of memory")]
pub struct NoMemory;

impl From<AllocError> for NoMemory {
    fn from(_refused: AllocError) -> NoMemory {
        NoMemory
    }
}

impl<T: Drop> From<AllocFailed<T>> for NoMemory {
    fn from(_refused: AllocFailed<T>) -> NoMemory {
        NoMemory
    }
}

/// Why a run came to its end without a fault: `$finish`, `$stop`, or no event left
/// (IEEE 1364-2005, 17.4 and 11.4).
#[derive(Clone, Copy, Debug, PartialEq, Eq)]
pub enum Cause {
    /// By `$finish`.
    Finish,
    /// By `$stop`, which ends the run here as a finish does, under its own name.
    Stop,
    /// No event is left.
    Nothing,
}

impl Cause {
    /// The word that a transcript has for it.
    pub fn name(self) -> &'static str
        ensures { result.now ≡ cause_name self }
    {
        match self {
            Cause::Finish => "finish",
            Cause::Stop => "stop",
            Cause::Nothing => "none",
        }
    }
}

/// A number of the machine that a run would exceed; the run ends there. (own)
#[derive(Clone, Copy, Debug, PartialEq, Eq, Error)]
pub enum Fault {
    /// An occurrence within an activation within an occurrence, and so on. (own)
    #[error("a 65th frame of callbacks would stand")]
    F1,
    /// The present time and the delay together. (own)
    #[error("a delay of the design leads to a time above 2^63-1")]
    F2,
    /// 1,048,576 entries stand and the design adds one; or 2^63 serials, or occurrence or process
    /// numbers, were given.
    #[error("the event queue is full, or a number is used up")]
    F3,
    /// A branch of a fork inherits its parent's number. (own)
    #[error("a 257th nested call of functions or tasks in one thread")]
    F4,
}

impl Fault {
    /// Its short name, which lines and statuses show.
    pub fn name(self) -> &'static str
        ensures { result.now ≡ fault_name self }
    {
        match self {
            Fault::F1 => "F1",
            Fault::F2 => "F2",
            Fault::F3 => "F3",
            Fault::F4 => "F4",
        }
    }
}

/// Why a Verilog text is refused: `L` lexical, `S` of the grammar, `N` of names,
/// sizes and hierarchy. Of two faults that with the first place is answered.
#[derive(Clone, Copy, Debug, PartialEq, Eq, Error)]
pub enum DesignFault {
    /// A byte that begins no token.
    /// Outside strings and comments (IEEE 1364-2005, 3.1).
    L1,
    /// A directive that is unknown here, malformed or unbalanced.
    /// An unbalanced one is a conditional without its end, or an end without its conditional
    /// (IEEE 1364-2005, 19).
    L2,
    /// A macro that is undefined, takes arguments, holds a directive or is nested above 64.
    /// At its use (IEEE 1364-2005, 19.3).
    L3,
    /// A malformed number, or an escape that no string has.
    /// Also a size outside 1 to 64, and a number that its 64 digits don't hold (IEEE 1364-2005, 3.5
    /// and 3.6).
    L4,
    /// A comment, an attribute or a string without its end.
    /// At its start (IEEE 1364-2005, 3.3, 3.6 and 3.8).
    L5,
    /// A name, a string, the tokens or the uses of macros above their limit.
    /// A name above 1,024 bytes, a string above 4,096, a token past the 4,194,304th, or a use of a
    /// macro past the 1,048,576th. (own)
    L6,
    /// A token with which no source goes on.
    /// The first with which the tokens so far begin no source, or the end of an unfinished one
    /// (IEEE 1364-2005, Annex A).
    S1,
    /// Statements, blocks and expressions nested above 200.
    /// At the first token that is nested so. (own)
    S2,
    /// A construct of the standard that is left out.
    /// At the construct's first token. (own)
    S3,
    /// A name, a module, a port or a parameter that isn't declared.
    /// Also a use of one of another kind, as of a module's name in an expression.
    N1,
    /// A name declared twice in one scope, or two modules of one name.
    /// At the second declaration's name (IEEE 1364-2005, 12.7).
    N2,
    /// A width, a bound, a size or a count outside its range.
    /// A width outside 1 to 64, a bound outside 0 to 2^31-1, above 65,536 words, a replication below
    /// 1, a number without size in a concatenation, or a string operand above 8 bytes. (own)
    N3,
    /// A value that isn't constant where a constant is needed.
    /// Also a parameter whose value needs itself.
    N4,
    /// A target that can't take this assignment.
    /// As a net in a procedural assignment, or a variable in a continuous one (IEEE 1364-2005, 6 and
    /// 9).
    N5,
    /// An event control of something that can't be waited on.
    /// Other than a name, a constant select of one or a named event; or of a memory. (own)
    N6,
    /// Connections, parameter entries or gate terminals that don't fit.
    /// In another number than is declared, by order and by name in one list, one named twice, or a
    /// terminal of another width than 1 (IEEE 1364-2005, 12.2 and 12.3).
    N7,
    /// A module that instantiates itself, directly or through others.
    /// At the module's name in the item that stands on the circle (IEEE 1364-2005, 12.1).
    N8,
    /// No top module, or more than one.
    /// At the first byte of the first file (IEEE 1364-2005, 12.1.1).
    N9,
    /// A system task or function that is unknown, of the other kind, or called wrongly.
    /// Wrong are the arguments or a format (IEEE 1364-2005, 17).
    N10,
    /// More objects, statements, words, expressions, drivers or processes than fit.
    /// 100,000 objects, 4,194,304 statements and operators, 1,048,576 words of memories, and 2^31 of
    /// each other. (own)
    N11,
}

impl DesignFault {
    /// Its short name, which lines and statuses show.
    pub fn name(self) -> &'static str
        ensures { result.now ≡ design_fault_name self }
    {
        match self {
            DesignFault::L1 => "L1",
            DesignFault::L2 => "L2",
            DesignFault::L3 => "L3",
            DesignFault::L4 => "L4",
            DesignFault::L5 => "L5",
            DesignFault::L6 => "L6",
            DesignFault::S1 => "S1",
            DesignFault::S2 => "S2",
            DesignFault::S3 => "S3",
            DesignFault::N1 => "N1",
            DesignFault::N2 => "N2",
            DesignFault::N3 => "N3",
            DesignFault::N4 => "N4",
            DesignFault::N5 => "N5",
            DesignFault::N6 => "N6",
            DesignFault::N7 => "N7",
            DesignFault::N8 => "N8",
            DesignFault::N9 => "N9",
            DesignFault::N10 => "N10",
            DesignFault::N11 => "N11",
        }
    }
}

impl fmt::Display for DesignFault {
    fn fmt<W: fmt::Write>(&self, f: &mut fmt::Formatter<W>) -> fmt::Result {
        f.write_str(self.name())
    }
}

/// Why an application's script is refused. (own)
#[derive(Clone, Copy, Debug, PartialEq, Eq, Error)]
pub enum AppFault {
    /// At its first byte. (own)
    #[error("bytes that are no token, or a number above 2^64-1")]
    A1,
    /// Also a `calltf` or `compiletf` that is no procedure of the script, a function's size outside 1
    /// to 64, or a malformed system name.
    #[error("a token that no script has here, or an unknown variable")]
    A2,
    /// At the word. (own)
    #[error("an unknown routine, reason, relation, property, format or mode")]
    A3,
    /// At the name where it stands again. (own)
    #[error("a variable, a procedure or a script's name declared twice")]
    A4,
    /// A name above 100 bytes, a text above 255, nesting above 64, or more than 65,536 commands.
    #[error("a name, a text, the nesting or the commands above their limit")]
    A5,
}

impl AppFault {
    /// Its short name, which lines and statuses show.
    pub fn name(self) -> &'static str
        ensures { result.now ≡ app_fault_name self }
    {
        match self {
            AppFault::A1 => "A1",
            AppFault::A2 => "A2",
            AppFault::A3 => "A3",
            AppFault::A4 => "A4",
            AppFault::A5 => "A5",
        }
    }
}

ghost use Rattle.std.specs.Prelude.{◌≡◌};
ghost use Rattle.vh_base.specs.Words.{reason_text, code_name};

use std::fmt;
use thiserror::Error;

/// Why a callback is called (IEEE 1364-2005, 27.33.2 to 27.33.4).
#[derive(Clone, Copy, Debug, PartialEq, Eq)]
pub enum Reason {
    CbValueChange,
    CbForce,
    CbRelease,
    CbAtStartOfSimTime,
    CbAfterDelay,
    CbNextSimTime,
    CbReadWriteSynch,
    CbReadOnlySynch,
    CbEndOfCompile,
    CbStartOfSimulation,
    CbEndOfSimulation,
}

impl Reason {
    /// Its word in scripts and in the transcript.
    pub fn name(self) -> &'static str
        ensures { result.now ≡ reason_text self }
    {
        match self {
            Reason::CbValueChange => "cbValueChange",
            Reason::CbForce => "cbForce",
            Reason::CbRelease => "cbRelease",
            Reason::CbAtStartOfSimTime => "cbAtStartOfSimTime",
            Reason::CbAfterDelay => "cbAfterDelay",
            Reason::CbNextSimTime => "cbNextSimTime",
            Reason::CbReadWriteSynch => "cbReadWriteSynch",
            Reason::CbReadOnlySynch => "cbReadOnlySynch",
            Reason::CbEndOfCompile => "cbEndOfCompile",
            Reason::CbStartOfSimulation => "cbStartOfSimulation",
            Reason::CbEndOfSimulation => "cbEndOfSimulation",
        }
    }
}

/// What is wrong with an order that is refused. (own)
#[derive(Clone, Copy, Debug, PartialEq, Eq, Error)]
pub enum Code {
    /// A handle that isn't live, or null where one is needed.
    /// It was freed, or never given. (own)
    E1,
    /// A handle of the wrong kind.
    /// Also an order that only a callback's activation may give.
    E2,
    /// No such property or relation for this kind.
    /// As asked for by `get`, `get_str`, `handle` or `iterate` (IEEE 1364-2005, 26.6).
    E3,
    /// A text that is no value in this format.
    /// As given to `put_value`. (own)
    E4,
    /// An object that can't be put.
    /// A parameter, a constant, an operation; a system function call other than the running one,
    /// or with a mode other than `vpiNoDelay`; a word of a memory with force or release.
    E5,
    /// A time that can't be waited for.
    /// `cbAtStartOfSimTime` with a time not above now, `cbAfterDelay` with delay 0, or a time above
    /// 2^63-1.
    E6,
    /// A change at the present time in a read-only synch.
    /// Within a `cbReadOnlySynch` activation, a put other than with a delay of 1 or more, or a synch
    /// registration with delay 0.
    E7,
    /// The run has passed its finish.
    /// Nothing is put, scheduled, cancelled or ended then. (own)
    E8,
    /// An order that this phase doesn't allow.
    /// A startup registers no reason that needs an object, and only a startup registers system tasks.
    E9,
    /// As many handles are live as may be.
    /// 65,536, or 2^63 were given.
    E10,
    /// As many callbacks are live as may be.
    /// 65,536, or 2^63 were given.
    E11,
    /// No native of this name is in stock.
    /// As named in a registration. (own)
    E12,
    /// No script has this procedure.
    /// As named in a registration. (own)
    E13,
    /// A system name that is built in or registered.
    /// As named in a registration. (own)
    E14,
    /// The event queue is full.
    /// 1,048,576 entries stand, or 2^63 serials were given.
    E15,
    /// A value or a text that doesn't fit the format.
    /// Of `get_value` and `put_value`, and of a text of more than 255 bytes that is asked for. (own)
    E16,
}

impl Code {
    /// Its short name, which lines show.
    pub fn name(self) -> &'static str
        ensures { result.now ≡ code_name self }
    {
        match self {
            Code::E1 => "E1",
            Code::E2 => "E2",
            Code::E3 => "E3",
            Code::E4 => "E4",
            Code::E5 => "E5",
            Code::E6 => "E6",
            Code::E7 => "E7",
            Code::E8 => "E8",
            Code::E9 => "E9",
            Code::E10 => "E10",
            Code::E11 => "E11",
            Code::E12 => "E12",
            Code::E13 => "E13",
            Code::E14 => "E14",
            Code::E15 => "E15",
            Code::E16 => "E16",
        }
    }
}

impl fmt::Display for Code {
    fn fmt<W: fmt::Write>(&self, f: &mut fmt::Formatter<W>) -> fmt::Result {
        f.write_str(self.name())
    }
}

/// How a value is put (IEEE 1364-2005, 27.32).
#[derive(Clone, Copy, Debug, PartialEq, Eq)]
pub enum Mode {
    VpiNoDelay,
    VpiInertialDelay,
    VpiTransportDelay,
    VpiPureTransportDelay,
    VpiForceFlag,
    VpiReleaseFlag,
}

/// A relation from an object to others (IEEE 1364-2005, 26.6).
#[derive(Clone, Copy, Debug, PartialEq, Eq)]
pub enum Relation {
    VpiModule,
    VpiScope,
    VpiParent,
    VpiSysTfCall,
    VpiInternalScope,
    VpiNet,
    VpiPort,
    VpiContAssign,
    VpiProcess,
    VpiReg,
    VpiVariables,
    VpiMemory,
    VpiParameter,
    VpiNamedEvent,
    VpiMemoryWord,
    VpiArgument,
}

/// A property of an object (IEEE 1364-2005, 26.6).
#[derive(Clone, Copy, Debug, PartialEq, Eq)]
pub enum Property {
    VpiType,
    VpiSize,
    VpiSigned,
    VpiTopModule,
    VpiDirection,
    VpiNetType,
    VpiPortIndex,
    VpiLineNo,
    VpiName,
    VpiFullName,
    VpiDefName,
}

/// Whether a user system name is a task or a function (IEEE 1364-2005, 27.34).
#[derive(Clone, Copy, Debug, PartialEq, Eq)]
pub enum SystfKind {
    Task,
    Func,
}

/// Which orders a native may answer: any, or those of one of the natives that come with the program.
#[derive(Clone, Copy, Debug, PartialEq, Eq)]
pub enum Promise {
    Free,
    Once,
    Flip,
    Count,
    Stop,
}

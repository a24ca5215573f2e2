ghost use Rattle.std.specs.Prelude.{◌≡◌, IfOk};

use crate::faults::NoMemory;
use crate::format::Format;
use crate::numbers::{HandleNo, ObjId};
use crate::short::Short;
use crate::words::{Code, Mode, Property, Reason, Relation, SystfKind};

/// A design object, or a word of a memory by its address.
#[derive(Clone, Copy, Debug, PartialEq, Eq)]
pub struct Object {
    pub id: ObjId,
    pub word: Option<u32>,
}

/// A procedure of a script.
#[derive(Drop)]
pub struct ProcName {
    pub app: Short,
    pub name: Short,
}

/// What a callback calls: a procedure of a script, or a native.
#[derive(Drop)]
pub enum BodyName {
    Proc(ProcName),
    Native(Short),
}

/// A user system task or function, as it was registered.
#[derive(Drop)]
pub struct SystfEntry {
    pub kind: SystfKind,
    /// The name with its `$`.
    pub name: Short,
    /// How many digits a function's value has.
    pub size: u32,
    /// The script's procedure that an execution calls.
    pub calltf: Short,
    /// The one that is called before the run, for each call in the design.
    pub compiletf: Option<Short>,
}

/// One call of a VPI routine by an application. A handle that is `None` is null.
#[derive(Drop)]
pub enum Order {
    ByName {
        text: Short,
        scope: Option<HandleNo>,
    },
    ByIndex {
        h: Option<HandleNo>,
        n: u64,
    },
    Handle {
        relation: Relation,
        h: Option<HandleNo>,
    },
    Iterate {
        relation: Relation,
        h: Option<HandleNo>,
    },
    Scan {
        h: Option<HandleNo>,
    },
    Free {
        h: Option<HandleNo>,
    },
    Compare {
        a: Option<HandleNo>,
        b: Option<HandleNo>,
    },
    Get {
        property: Property,
        h: Option<HandleNo>,
    },
    GetStr {
        property: Property,
        h: Option<HandleNo>,
    },
    GetValue {
        h: Option<HandleNo>,
        format: Format,
    },
    PutValue {
        h: Option<HandleNo>,
        format: Format,
        text: Short,
        mode: Mode,
        time: u64,
        event: bool,
    },
    Cancel {
        h: Option<HandleNo>,
    },
    GetTime,
    Register {
        reason: Reason,
        h: Option<HandleNo>,
        time: u64,
        body: BodyName,
        n: u64,
    },
    Remove {
        h: Option<HandleNo>,
    },
    CbInfo {
        h: Option<HandleNo>,
    },
    RegisterSystf {
        kind: SystfKind,
        text: Short,
        n: u64,
        calltf: ProcName,
        compiletf: Option<ProcName>,
    },
    ChkError,
    Control {
        stop: bool,
    },
    Print {
        text: Short,
    },
    SetData {
        n: u64,
    },
    Pass,
    Return,
}

/// What an order is answered.
#[derive(Drop)]
pub enum Answer {
    Done,
    Null,
    Handle(HandleNo),
    Number(u64),
    Text(Short),
    Refused(Code),
}

impl Answer {
    /// The same answer once more, which shares its text; takes no memory.
    pub fn copy(&self) -> Result<Answer, NoMemory>
        ensures { IfOk result (λ answer. answer ≡ self.now) }
    {
        Ok(match self {
            Answer::Done => Answer::Done,
            Answer::Null => Answer::Null,
            Answer::Handle(handle) => Answer::Handle(*handle),
            Answer::Number(number) => Answer::Number(*number),
            Answer::Text(text) => Answer::Text(text.copy()?),
            Answer::Refused(code) => Answer::Refused(*code),
        })
    }
}

/// What an activation sees at its next order.
#[derive(Drop)]
pub struct Seen {
    pub reason: Reason,
    /// In units of the simulation's precision.
    pub time: u64,
    /// The handle with which the callback was registered.
    pub object: Option<HandleNo>,
    /// The callback's own handle.
    pub me: Option<HandleNo>,
    /// The new value in binary, highest digit first.
    pub value: Option<Short>,
    /// The word's address where the object is a memory.
    pub index: Option<u64>,
    pub user_data: u64,
    /// How many orders the activation has made; it stays at 2^32-1.
    pub step: u32,
    /// The answer of the last order other than a pass, null at first.
    pub last: Answer,
}

use vh_base::{Format, Mode, Property, Reason, Relation, Short, SystfKind};

/// What stands where an order wants a value.
#[derive(Drop)]
pub enum Atom {
    Number(u64),
    Text(Short),
    Null,
    /// A variable, by its number.
    Variable(usize),
    /// The handle with which the callback was registered.
    Obj,
    /// The callback's own handle.
    Me,
    /// The new value of the object.
    Value,
    /// The address of the memory's word.
    Index,
    /// The callback's user data.
    Data,
    Time,
    /// The answer of the activation's last order.
    Last,
}

/// What a callback is to call.
#[derive(Drop)]
pub enum Body {
    Proc(Short),
    Native(Short),
}

/// An order whose values are taken when it is given.
#[derive(Drop)]
pub enum Form {
    ByName {
        text: Atom,
        scope: Atom,
    },
    ByIndex {
        memory: Atom,
        index: Atom,
    },
    Handle {
        relation: Relation,
        object: Atom,
    },
    Iterate {
        relation: Relation,
        object: Atom,
    },
    Scan(Atom),
    Free(Atom),
    Compare(Atom, Atom),
    Get {
        property: Property,
        object: Atom,
    },
    GetStr {
        property: Property,
        object: Atom,
    },
    GetValue {
        object: Atom,
        format: Format,
    },
    PutValue {
        object: Atom,
        format: Format,
        text: Atom,
        mode: Mode,
        time: Atom,
        event: bool,
    },
    Cancel(Atom),
    GetTime,
    Register {
        reason: Reason,
        object: Atom,
        time: Atom,
        body: Body,
        data: Atom,
    },
    Remove(Atom),
    CbInfo(Atom),
    RegisterSystf {
        kind: SystfKind,
        name: Atom,
        size: Atom,
        calltf: Short,
        compiletf: Option<Short>,
    },
    ChkError,
    Control {
        stop: bool,
    },
    Print(Atom),
    SetData(Atom),
}

/// Whether two values are the same, or whether they aren't.
#[derive(Drop)]
pub struct Test {
    pub left: Atom,
    pub same: bool,
    pub right: Atom,
}

/// A step of a script. Where none is named, the next one is the one behind it.
#[derive(Drop)]
pub enum Node {
    /// An order, and the variable that its answer goes to.
    Ask {
        target: Option<usize>,
        form: Form,
    },
    /// A variable gets a value, or a sum.
    Set {
        target: usize,
        value: Atom,
        added: Option<Atom>,
    },
    /// The test of an `if`, and where to go on where it fails.
    Choose {
        test: Test,
        fails: usize,
    },
    /// The test of a `while`, which is an order, and where to go on.
    Turn {
        test: Test,
        holds: usize,
        fails: usize,
    },
    Go(usize),
    Return,
}

/// A procedure, and its first step.
#[derive(Drop)]
pub struct Procedure {
    pub name: Short,
    pub start: usize,
}

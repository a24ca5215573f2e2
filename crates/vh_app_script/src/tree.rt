//! The tree of a script. Names and texts lie in the script's bytes, texts with their escapes;
//! variables have their numbers.

use sqlite_items::{Boxed, Items};
use vh_base::{Format, Mode, Property, Reason, Relation, SystfKind};

/// `atom = NUMBER | TEXT | "null" | NAME | "obj" | "me" | "value" | "index" | "data" | "time" |
/// "last"`
#[derive(Clone, Copy)]
pub enum Atom<'a> {
    Number(u64),
    /// What stands between the quotes, with its escapes.
    Text(&'a [u8]),
    Null,
    /// A variable, by its number: the first that is declared has 0.
    Variable(usize),
    Obj,
    Me,
    Value,
    Index,
    Data,
    Time,
    Last,
}

/// `"proc" NAME | "native" NAME`: what a callback is to call.
#[derive(Clone, Copy)]
pub enum Body<'a> {
    Proc(&'a [u8]),
    Native(&'a [u8]),
}

/// An order, as it is written.
#[derive(Clone, Copy)]
pub enum Order<'a> {
    ByName {
        text: Atom<'a>,
        scope: Atom<'a>,
    },
    ByIndex {
        memory: Atom<'a>,
        index: Atom<'a>,
    },
    Handle {
        relation: Relation,
        object: Atom<'a>,
    },
    Iterate {
        relation: Relation,
        object: Atom<'a>,
    },
    Scan(Atom<'a>),
    Free(Atom<'a>),
    Compare(Atom<'a>, Atom<'a>),
    Get {
        property: Property,
        object: Atom<'a>,
    },
    GetStr {
        property: Property,
        object: Atom<'a>,
    },
    GetValue {
        object: Atom<'a>,
        format: Format,
    },
    PutValue {
        object: Atom<'a>,
        format: Format,
        text: Atom<'a>,
        mode: Mode,
        time: Atom<'a>,
        event: bool,
    },
    Cancel(Atom<'a>),
    GetTime,
    Register {
        reason: Reason,
        object: Atom<'a>,
        time: Atom<'a>,
        body: Body<'a>,
        data: Atom<'a>,
    },
    Remove(Atom<'a>),
    CbInfo(Atom<'a>),
    RegisterSystf {
        kind: SystfKind,
        /// With its `$`.
        name: Atom<'a>,
        size: Atom<'a>,
        calltf: &'a [u8],
        compiletf: Option<&'a [u8]>,
    },
    ChkError,
    Control {
        stop: bool,
    },
    Print(Atom<'a>),
    SetData(Atom<'a>),
}

/// `test = atom ( "==" | "!=" ) atom`
#[derive(Clone, Copy)]
pub struct Test<'a> {
    pub left: Atom<'a>,
    /// `==`, else `!=`.
    pub same: bool,
    pub right: Atom<'a>,
}

/// A command. Blocks nest at most 64 deep.
#[derive(Drop)]
pub enum Command<'a> {
    /// `[ NAME "=" ] order ";"`, with the variable that the answer goes to, if there is one.
    Ask(Option<usize>, Boxed<Order<'a>>),
    /// `"set" NAME "=" atom [ "+" atom ] ";"`
    Set(usize, Atom<'a>, Option<Atom<'a>>),
    /// `"return" ";"`
    Return,
    /// `"if" "(" test ")" block [ "else" block ]`: no command where nothing is written.
    If {
        test: Test<'a>,
        holds: Items<Command<'a>>,
        fails: Items<Command<'a>>,
    },
    /// `"while" "(" test ")" block`
    While {
        test: Test<'a>,
        body: Items<Command<'a>>,
    },
}

/// `"proc" NAME block`
#[derive(Drop)]
pub struct Procedure<'a> {
    pub name: &'a [u8],
    pub commands: Items<Command<'a>>,
}

/// `app`
#[derive(Drop)]
pub struct App<'a> {
    pub name: &'a [u8],
    /// The names of the variables, by their numbers.
    pub variables: Items<&'a [u8]>,
    pub startup: Items<Order<'a>>,
    /// Each with another name.
    pub procedures: Items<Procedure<'a>>,
}

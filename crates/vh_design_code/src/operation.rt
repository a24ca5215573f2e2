use crate::code::Goes;
use crate::target::{Delay, Inputs, Outputs, Targets};
use vh_base::{Boxed, DriverId, ExprId, ObjId, Sequence, ShowId, WaitId};

/// A nonblocking assignment: it reads its value and indexes, and the update comes after a delay.
#[derive(Drop)]
pub struct Schedule {
    pub targets: Targets,
    pub value: ExprId,
    pub delay: Option<Delay>,
}

/// What a value of an item of a `case` is compared with (IEEE 1364-2005, 9.5).
#[derive(Clone, Copy, Debug, PartialEq, Eq)]
pub enum CaseKind {
    Plain,
    Z,
    X,
}

/// A value of an item of a `case`, and where it goes on.
#[derive(Clone, Copy)]
pub struct Arm {
    pub value: ExprId,
    pub to: Goes,
}

/// The values of a `case`'s items in source order, which contracts see as a list.
pub type Arms = Sequence<Arm>;

/// A `case`: the subject and the values are compared in one width, signed where all of them are.
/// Where no value fits it goes on behind the instruction.
#[derive(Drop)]
pub struct CaseTest {
    pub kind: CaseKind,
    pub subject: ExprId,
    pub arms: Arms,
    pub width: u32,
    pub signed: bool,
}

/// Where a function's result goes: the call in the expression, and the variable that holds it.
#[derive(Clone, Copy)]
pub struct Returned {
    pub call: ExprId,
    pub variable: ObjId,
}

/// The end of a call: it writes the outputs in order, and of a function the result.
#[derive(Drop)]
pub struct Leave {
    pub outputs: Outputs,
    pub result: Option<Returned>,
}

/// The drivers of an assignment's left side, the highest first, which contracts see as the list of
/// their numbers.
pub type DriverIds = Sequence<DriverId>;

/// A continuous assignment: it reads its value, changes or schedules its drivers, and waits.
#[derive(Drop)]
pub struct Drive {
    pub drivers: DriverIds,
    pub value: ExprId,
    pub delay: Option<Delay>,
    pub wait: WaitId,
}

/// A statement that waits.
#[derive(Clone, Copy)]
pub enum Pause {
    /// `#d`.
    Wait(Delay),
    /// `@`.
    Await(WaitId),
    /// `wait`: goes on where the condition is true, and else waits and tests again.
    WaitFor { condition: ExprId, wait: WaitId },
}

/// A turn of a loop.
#[derive(Clone, Copy)]
pub enum Loop {
    /// The first turn of a `repeat`, which reads the count; without a turn it is done.
    Repeat { count: ExprId, done: Goes },
    /// Each further one.
    Again { done: Goes },
    /// A turn of a `forever` or an `always`.
    Turn,
}

/// A statement with one instruction that goes on at once.
#[derive(Clone, Copy)]
pub enum Single {
    /// `$display` and its like.
    Show(ShowId),
    Finish,
    Stop,
    /// `->`, of a named event.
    Trigger(ObjId),
    /// `disable`, of a named block or a task.
    Disable(ObjId),
    Force { object: ObjId, value: ExprId },
    Release(ObjId),
    /// A procedural `assign`.
    Procedural { object: ObjId, value: ExprId },
    Deassign(ObjId),
}

/// Where branches begin, which contracts see as a list.
pub type Positions = Sequence<u32>;

/// What an instruction does, in the order of the statements' table.
#[derive(Drop)]
pub enum Operation {
    /// A blocking assignment without a delay.
    Assign {
        value: ExprId,
        targets: Targets,
    },
    /// The first instruction of one with a delay: it reads the value in a context of so many digits, and
    /// waits.
    Hold {
        value: ExprId,
        width: u32,
        delay: Delay,
    },
    /// Its second instruction: it assigns what was held.
    Store(Targets),
    Schedule(Boxed<Schedule>),
    Pause(Pause),
    /// The test of an `if`, a `for` or a `while`: it goes on behind the instruction where the
    /// condition is true.
    Test {
        condition: ExprId,
        otherwise: Goes,
    },
    Case(Boxed<CaseTest>),
    Loop(Loop),
    /// It begins the branches, and goes on behind the join.
    Fork(Positions),
    /// The end of an `initial` or of a branch.
    End,
    /// A call of a task or function: it writes the inputs, and goes on behind the body.
    Enter {
        routine: ObjId,
        inputs: Inputs,
    },
    Leave(Boxed<Leave>),
    /// A call of a user system task.
    SysCall(ObjId),
    /// A call of a user system function in an expression.
    SysFunc(ObjId),
    Single(Single),
    Drive(Boxed<Drive>),
    /// A declared initial value: it assigns and ends its process.
    Initial {
        object: ObjId,
        value: ExprId,
    },
}

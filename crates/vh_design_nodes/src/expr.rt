use vh_base::{Boxed, ExprId, ObjId, Sequence};
use vh_logic::Vec4;

/// An operator on one operand (IEEE 1364-2005, 5.1).
#[derive(Clone, Copy, Debug, PartialEq, Eq)]
pub enum Unary {
    Plus,
    Negate,
    Invert,
    Not,
    And,
    Nand,
    Or,
    Nor,
    Xor,
    Xnor,
}

/// An arithmetic or bitwise operator on operands of one width.
#[derive(Clone, Copy, Debug, PartialEq, Eq)]
pub enum Arithmetic {
    Add,
    Subtract,
    Multiply,
    Divide,
    Remainder,
    And,
    Or,
    Xor,
    Xnor,
}

/// A shift or a power: the right operand stands alone.
#[derive(Clone, Copy, Debug, PartialEq, Eq)]
pub enum Shift {
    Left,
    Right,
    SignedLeft,
    SignedRight,
    Power,
}

/// A comparison: its result is one digit.
#[derive(Clone, Copy, Debug, PartialEq, Eq)]
pub enum Comparison {
    Less,
    LessOrEqual,
    Greater,
    GreaterOrEqual,
    Equal,
    NotEqual,
    CaseEqual,
    CaseNotEqual,
}

/// A logical operator: its result is one digit.
#[derive(Clone, Copy, Debug, PartialEq, Eq)]
pub enum Logic {
    And,
    Or,
}

/// An operator with the operand behind it.
#[derive(Clone, Copy, Debug, PartialEq, Eq)]
pub struct Link<Op> {
    pub op: Op,
    pub part: ExprId,
}

/// Operands of a chain behind the first, which contracts see as a list: `a + b - c` is a chain
/// of `a` with two links.
pub type Links<Op> = Sequence<Link<Op>>;

/// Some expressions, which contracts see as the list of their numbers.
pub type ExprIds = Sequence<ExprId>;

/// What is selected from: an object, or a word of a memory by its address (IEEE 1364-2005, 5.2.2).
#[derive(Clone, Copy, Debug, PartialEq, Eq)]
pub struct Chosen {
    pub object: ObjId,
    pub word: Option<ExprId>,
}

/// The bounds with which a vector was declared: `[left:right]`, the right one that of the lowest
/// digit.
#[derive(Clone, Copy, Debug, PartialEq, Eq)]
pub struct Range {
    pub left: u32,
    pub right: u32,
}

/// Which digits of it (IEEE 1364-2005, 5.2.1).
#[derive(Clone, Copy, Debug, PartialEq, Eq)]
pub enum Select {
    /// All of them.
    Whole,
    /// One, by an index.
    Bit {
        range: Range,
        index: ExprId,
    },
    /// So many from the one of this index up.
    Slice {
        range: Range,
        lowest: u32,
        width: u32,
    },
    /// So many from an index on, upwards (`+:`) or downwards (`-:`) by index.
    Indexed {
        up: bool,
        range: Range,
        base: ExprId,
        width: u32,
    },
}

/// What an expression reads of one object, or an assignment changes of it.
#[derive(Clone, Copy, Debug, PartialEq, Eq)]
pub struct Selected {
    pub of: Chosen,
    pub select: Select,
}

/// What is done to what is selected: a net or a parameter may be read, and not be assigned to.
#[derive(Clone, Copy, Debug, PartialEq, Eq)]
pub enum Access {
    Read,
    Assigned,
}

/// An expression, whose parts are expressions with lesser numbers.
#[derive(Drop)]
pub enum ExprKind {
    /// A number, or a string of at most 8 bytes.
    Literal(Vec4),
    /// A net, a variable, a parameter or a word of a memory, or digits of one.
    Selected(Selected),
    Unary {
        op: Unary,
        part: ExprId,
    },
    Arithmetic {
        first: ExprId,
        rest: Links<Arithmetic>,
    },
    Shift {
        first: ExprId,
        rest: Links<Shift>,
    },
    Comparison {
        first: ExprId,
        rest: Links<Comparison>,
    },
    Logic {
        first: ExprId,
        rest: Links<Logic>,
    },
    Choice {
        condition: ExprId,
        yes: ExprId,
        no: ExprId,
    },
    /// A concatenation, the highest part first.
    Join {
        first: ExprId,
        rest: ExprIds,
    },
    Repeat {
        count: u32,
        part: ExprId,
    },
    /// `$signed` or `$unsigned`.
    WithSign {
        part: ExprId,
        signed: bool,
    },
    /// `$time`, in units of a module, from 0 for 1 fs to 17 for 100 s.
    Time {
        unit: u8,
    },
    /// A call of a function of the design, with its arguments and its result's variable.
    Call {
        function: ObjId,
        result: ObjId,
        arguments: Boxed<ExprIds>,
    },
    /// A call of a user system function.
    SysCall(ObjId),
}

/// An expression with its width and sign where nothing around it asks for more.
#[derive(Drop)]
pub struct ExprNode {
    pub kind: ExprKind,
    pub width: u32,
    pub signed: bool,
}

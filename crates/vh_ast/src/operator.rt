/// A unary operator (IEEE 1364-2005, Table 5-1). `^~` and `~^` are one.
#[derive(Clone, Copy, Debug, PartialEq, Eq)]
pub enum Unary {
    /// `+`
    Plus,
    /// `-`
    Minus,
    /// `!`
    Not,
    /// `~`
    Invert,
    /// `&`
    ReduceAnd,
    /// `~&`
    ReduceNand,
    /// `|`
    ReduceOr,
    /// `~|`
    ReduceNor,
    /// `^`
    ReduceXor,
    /// `~^`
    ReduceXnor,
}

/// A binary operator, by falling precedence (IEEE 1364-2005, Table 5-4). `^~` and `~^` are one.
#[derive(Clone, Copy, Debug, PartialEq, Eq)]
pub enum Binary {
    /// `**`
    Power,
    /// `*`
    Times,
    /// `/`
    Divide,
    /// `%`
    Modulus,
    /// `+`
    Plus,
    /// `-`
    Minus,
    /// `<<`
    ShiftLeft,
    /// `>>`
    ShiftRight,
    /// `<<<`
    ArithmeticShiftLeft,
    /// `>>>`
    ArithmeticShiftRight,
    /// `<`
    Less,
    /// `<=`
    LessEqual,
    /// `>`
    Greater,
    /// `>=`
    GreaterEqual,
    /// `==`
    LogicalEqual,
    /// `!=`
    LogicalUnequal,
    /// `===`
    CaseEqual,
    /// `!==`
    CaseUnequal,
    /// `&`
    And,
    /// `^`
    Xor,
    /// `~^`
    Xnor,
    /// `|`
    Or,
    /// `&&`
    AndAnd,
    /// `||`
    OrOr,
}

/// What a code is of, which says what stands around its statement.
#[derive(Clone, Copy, Debug, PartialEq, Eq)]
pub enum CodeKind {
    /// An `initial`: its process ends behind the statement (IEEE 1364-2005, 9.9.1).
    Initial,
    /// An `always`: a turn before each execution of the statement (9.9.2).
    Always,
    /// A task or function: it goes back to its call (10.2 and 10.4).
    Body,
    /// A declared initial value: its last instruction ends its process (6.2.1).
    Value,
    /// A continuous assignment: it goes on at its first instruction again (6.1).
    Assign,
}

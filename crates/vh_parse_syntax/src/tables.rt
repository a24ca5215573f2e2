//! Lexemes that each mean something, by what they mean.

use crate::Lexeme;
use vh_ast::{
    AssignWord, CaseWord, Direction, Edge, ForceWord, GateType, LoopWord, NetType, ParameterWord,
    PortType, ProcessWord, ReleaseWord, TaskDirection, Unary, Variable,
};

/// The unary operators (IEEE 1364-2005, 5.1).
pub static UNARY: [(Lexeme, Unary); 11] = [
    (Lexeme::Plus, Unary::Plus),
    (Lexeme::Minus, Unary::Minus),
    (Lexeme::Bang, Unary::Not),
    (Lexeme::Tilde, Unary::Invert),
    (Lexeme::Ampersand, Unary::ReduceAnd),
    (Lexeme::TildeAnd, Unary::ReduceNand),
    (Lexeme::Bar, Unary::ReduceOr),
    (Lexeme::TildeOr, Unary::ReduceNor),
    (Lexeme::Caret, Unary::ReduceXor),
    (Lexeme::TildeCaret, Unary::ReduceXnor),
    (Lexeme::CaretTilde, Unary::ReduceXnor),
];

/// The signs of assignments.
pub static ASSIGN: [(Lexeme, AssignWord); 2] = [
    (Lexeme::Equal, AssignWord::Blocking),
    (Lexeme::LessEqual, AssignWord::Nonblocking),
];

/// Edges.
pub static EDGE: [(Lexeme, Edge); 2] = [
    (Lexeme::Posedge, Edge::Positive),
    (Lexeme::Negedge, Edge::Negative),
];

/// The words of a `case`.
pub static CASE: [(Lexeme, CaseWord); 3] = [
    (Lexeme::Case, CaseWord::Case),
    (Lexeme::Casez, CaseWord::Casez),
    (Lexeme::Casex, CaseWord::Casex),
];

/// The words of a loop.
pub static LOOP: [(Lexeme, LoopWord); 2] = [
    (Lexeme::While, LoopWord::While),
    (Lexeme::Repeat, LoopWord::Repeat),
];

/// `force` and the `assign` of a statement.
pub static FORCE: [(Lexeme, ForceWord); 2] = [
    (Lexeme::Force, ForceWord::Force),
    (Lexeme::Assign, ForceWord::Assign),
];

/// `release` and `deassign`.
pub static RELEASE: [(Lexeme, ReleaseWord); 2] = [
    (Lexeme::Release, ReleaseWord::Release),
    (Lexeme::Deassign, ReleaseWord::Deassign),
];

/// The types of variables.
pub static VARIABLE: [(Lexeme, Variable); 3] = [
    (Lexeme::Reg, Variable::Reg),
    (Lexeme::Integer, Variable::Integer),
    (Lexeme::Time, Variable::Time),
];

/// The directions of ports.
pub static DIRECTION: [(Lexeme, Direction); 2] = [
    (Lexeme::Input, Direction::Input),
    (Lexeme::Output, Direction::Output),
];

/// The net types.
pub static NET: [(Lexeme, NetType); 6] = [
    (Lexeme::Wire, NetType::Wire),
    (Lexeme::Tri, NetType::Tri),
    (Lexeme::Wand, NetType::Wand),
    (Lexeme::Triand, NetType::Triand),
    (Lexeme::Wor, NetType::Wor),
    (Lexeme::Trior, NetType::Trior),
];

/// The types of ports.
pub static PORT_TYPE: [(Lexeme, PortType); 9] = [
    (Lexeme::Wire, PortType::Net(NetType::Wire)),
    (Lexeme::Tri, PortType::Net(NetType::Tri)),
    (Lexeme::Wand, PortType::Net(NetType::Wand)),
    (Lexeme::Triand, PortType::Net(NetType::Triand)),
    (Lexeme::Wor, PortType::Net(NetType::Wor)),
    (Lexeme::Trior, PortType::Net(NetType::Trior)),
    (Lexeme::Reg, PortType::Variable(Variable::Reg)),
    (Lexeme::Integer, PortType::Variable(Variable::Integer)),
    (Lexeme::Time, PortType::Variable(Variable::Time)),
];

/// The directions of the arguments of tasks.
pub static TARG: [(Lexeme, TaskDirection); 3] = [
    (Lexeme::Input, TaskDirection::Input),
    (Lexeme::Output, TaskDirection::Output),
    (Lexeme::Inout, TaskDirection::Inout),
];

/// The gates.
pub static GATE: [(Lexeme, GateType); 8] = [
    (Lexeme::And, GateType::And),
    (Lexeme::Nand, GateType::Nand),
    (Lexeme::Or, GateType::Or),
    (Lexeme::Nor, GateType::Nor),
    (Lexeme::Xor, GateType::Xor),
    (Lexeme::Xnor, GateType::Xnor),
    (Lexeme::Buf, GateType::Buf),
    (Lexeme::Not, GateType::Not),
];

/// `parameter` and `localparam`.
pub static PARAMETER: [(Lexeme, ParameterWord); 2] = [
    (Lexeme::Parameter, ParameterWord::Parameter),
    (Lexeme::Localparam, ParameterWord::Localparam),
];

/// `initial` and `always`.
pub static PROCESS: [(Lexeme, ProcessWord); 2] = [
    (Lexeme::Initial, ProcessWord::Initial),
    (Lexeme::Always, ProcessWord::Always),
];

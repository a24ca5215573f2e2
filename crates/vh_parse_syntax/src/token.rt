//! The tokens of the lexer as the grammar sees them, and the classes by which it makes its choices.

ghost use Rattle.std.specs.Prelude.{◌≡◌};
ghost use Rattle.vh_parse_syntax.specs.Lexemes;
ghost use Rattle.vh_parse_syntax.specs.Lexemes.{one_of};
ghost use Rattle.vh_parse_syntax.specs.Tokens;
ghost use Rattle.vh_parse_syntax.specs.Tokens.{token_seen, lexeme_of, row_at, operator_at, is, is_any, is_name, is_system, is_text, is_number, is_call, is_unused, named_in, plain_systems, begins_expression};
ghost use Rattle.vh_parse_syntax.specs.Classes.{word_seen, is_in, group_lexemes, starts, has};

use crate::Lexeme;
use crate::lexeme::{code, symbol_lexeme, word_lexeme};
use crate::tables::{
    ASSIGN, CASE, DIRECTION, EDGE, FORCE, GATE, LOOP, NET, PARAMETER, PORT_TYPE, PROCESS, RELEASE,
    TARG, UNARY, VARIABLE,
};
use vh_ast::Binary;
use vh_lex::{Kind, Token};

/// Lexemes that each mean something, by what they mean.
#[derive(Clone, Copy, Debug, PartialEq, Eq)]
pub enum Rows {
    Unary,
    Assign,
    Edge,
    Case,
    Loop,
    Force,
    Release,
    Variable,
    Direction,
    Net,
    PortType,
    Targ,
    Gate,
    Parameter,
    Process,
}

/// Other signs among which a choice is made.
#[derive(Clone, Copy, Debug, PartialEq, Eq)]
pub enum Group {
    /// The signs with which a declaration of variables begins.
    Decl,
    /// The signs with which a type that is written begins.
    Type,
    /// The signs with which a declaration in a task or a function begins.
    Local,
    /// `or` and `,`.
    Or,
    /// The signs of statements that are left out in a function.
    Timing,
    /// The signs that show a task call.
    Task,
    /// The signs behind a net.
    NetEnd,
    /// The signs of items that are left out.
    Hidden,
}

/// What begins with signs and other tokens.
#[derive(Clone, Copy, Debug, PartialEq, Eq)]
pub enum Start {
    Expression,
    Statement,
    /// A branch of a `case`.
    Citem,
    /// The arguments of a system task.
    Slots,
    Item,
    Ports,
    /// The connections of an instance.
    Conns,
}

/// The classes of tokens by which the grammar makes its choices.
#[derive(Clone, Copy, Debug, PartialEq, Eq)]
pub enum Class {
    Is(Lexeme),
    Row(Rows),
    Among(Group),
    Begins(Start),
    /// The binary operators of a level, the one that binds closest being 0.
    Operator(usize),
    Name,
    System,
    Text,
    Number,
    Module,
    /// A system name that is a call where calls are left out.
    Call,
}

/// A token of the lexer, as a parser asks what it means.
#[derive(Clone, Copy)]
pub struct Word<'t> {
    pub token: &'t Token,
}

// The binary operators, each with its level.
static BINARY: [(Lexeme, (usize, Binary)); 25] = [
    (Lexeme::StarStar, (0, Binary::Power)),
    (Lexeme::Star, (1, Binary::Times)),
    (Lexeme::Slash, (1, Binary::Divide)),
    (Lexeme::Percent, (1, Binary::Modulus)),
    (Lexeme::Plus, (2, Binary::Plus)),
    (Lexeme::Minus, (2, Binary::Minus)),
    (Lexeme::ShiftLeft, (3, Binary::ShiftLeft)),
    (Lexeme::ShiftRight, (3, Binary::ShiftRight)),
    (
        Lexeme::ArithmeticShiftLeft,
        (3, Binary::ArithmeticShiftLeft),
    ),
    (
        Lexeme::ArithmeticShiftRight,
        (3, Binary::ArithmeticShiftRight),
    ),
    (Lexeme::Less, (4, Binary::Less)),
    (Lexeme::LessEqual, (4, Binary::LessEqual)),
    (Lexeme::Greater, (4, Binary::Greater)),
    (Lexeme::GreaterEqual, (4, Binary::GreaterEqual)),
    (Lexeme::LogicalEqual, (5, Binary::LogicalEqual)),
    (Lexeme::LogicalUnequal, (5, Binary::LogicalUnequal)),
    (Lexeme::CaseEqual, (5, Binary::CaseEqual)),
    (Lexeme::CaseUnequal, (5, Binary::CaseUnequal)),
    (Lexeme::Ampersand, (6, Binary::And)),
    (Lexeme::Caret, (7, Binary::Xor)),
    (Lexeme::CaretTilde, (7, Binary::Xnor)),
    (Lexeme::TildeCaret, (7, Binary::Xnor)),
    (Lexeme::Bar, (8, Binary::Or)),
    (Lexeme::AndAnd, (9, Binary::AndAnd)),
    (Lexeme::OrOr, (10, Binary::OrOr)),
];

// The signs of each group, and those with which expressions, statements, items and connections begin.
static DECL: [Lexeme; 3] = [Lexeme::Reg, Lexeme::Integer, Lexeme::Time];

static TYPE: [Lexeme; 2] = [Lexeme::Signed, Lexeme::LeftBracket];

static LOCAL: [Lexeme; 6] = [
    Lexeme::Input,
    Lexeme::Output,
    Lexeme::Inout,
    Lexeme::Reg,
    Lexeme::Integer,
    Lexeme::Time,
];

static OR: [Lexeme; 2] = [Lexeme::Or, Lexeme::Comma];

static TIMING: [Lexeme; 4] = [Lexeme::Hash, Lexeme::At, Lexeme::Wait, Lexeme::Fork];

static TASK: [Lexeme; 2] = [Lexeme::LeftParen, Lexeme::Semicolon];

static NET_END: [Lexeme; 2] = [Lexeme::Comma, Lexeme::Semicolon];

static HIDDEN: [Lexeme; 2] = [Lexeme::Inout, Lexeme::Case];

static EXPRESSION: [Lexeme; 13] = [
    Lexeme::LeftParen,
    Lexeme::LeftBrace,
    Lexeme::Plus,
    Lexeme::Minus,
    Lexeme::Bang,
    Lexeme::Tilde,
    Lexeme::Ampersand,
    Lexeme::TildeAnd,
    Lexeme::Bar,
    Lexeme::TildeOr,
    Lexeme::Caret,
    Lexeme::TildeCaret,
    Lexeme::CaretTilde,
];

static STATEMENT: [Lexeme; 21] = [
    Lexeme::Semicolon,
    Lexeme::LeftBrace,
    Lexeme::Hash,
    Lexeme::At,
    Lexeme::Wait,
    Lexeme::If,
    Lexeme::Case,
    Lexeme::Casez,
    Lexeme::Casex,
    Lexeme::For,
    Lexeme::While,
    Lexeme::Repeat,
    Lexeme::Forever,
    Lexeme::Begin,
    Lexeme::Fork,
    Lexeme::Arrow,
    Lexeme::Disable,
    Lexeme::Force,
    Lexeme::Assign,
    Lexeme::Release,
    Lexeme::Deassign,
];

static ITEM: [Lexeme; 30] = [
    Lexeme::Input,
    Lexeme::Output,
    Lexeme::Wire,
    Lexeme::Tri,
    Lexeme::Wand,
    Lexeme::Triand,
    Lexeme::Wor,
    Lexeme::Trior,
    Lexeme::Reg,
    Lexeme::Integer,
    Lexeme::Time,
    Lexeme::Event,
    Lexeme::Genvar,
    Lexeme::Parameter,
    Lexeme::Localparam,
    Lexeme::Assign,
    Lexeme::And,
    Lexeme::Nand,
    Lexeme::Or,
    Lexeme::Nor,
    Lexeme::Xor,
    Lexeme::Xnor,
    Lexeme::Buf,
    Lexeme::Not,
    Lexeme::Initial,
    Lexeme::Always,
    Lexeme::Task,
    Lexeme::Function,
    Lexeme::For,
    Lexeme::If,
];

static CONNS: [Lexeme; 2] = [Lexeme::Dot, Lexeme::Comma];

// Whether the sign is one of these. It takes time in their number.
fn is_one_of(lexemes: &[Lexeme], lexeme: Lexeme) -> bool
    ensures { result ≡ one_of lexemes.now lexeme }
{
    lexemes.iter().any(|one| code(*one) == code(lexeme))
}

// What the first row of the sign says. It takes time in the number of rows.
fn row_of<T: Copy>(rows: &[(Lexeme, T)], lexeme: Lexeme) -> Option<T>
    ensures { result ≡ Lexemes.row_of rows.now lexeme }
{
    for (own, meaning) in rows {
        if code(*own) == code(lexeme) {
            return Some(*meaning);
        }
    }
    None
}

// Whether the system name is no call.
fn is_plain(name: &[u8]) -> bool
    ensures { result ≡ named_in plain_systems name.now }
{
    name == b"$time".as_slice() || name == b"$signed".as_slice() || name == b"$unsigned".as_slice()
}

// The signs of a group.
fn lexemes_of(group: Group) -> &'static [Lexeme]
    ensures { result.now ≡ group_lexemes group }
{
    match group {
        Group::Decl => &DECL,
        Group::Type => &TYPE,
        Group::Local => &LOCAL,
        Group::Or => &OR,
        Group::Timing => &TIMING,
        Group::Task => &TASK,
        Group::NetEnd => &NET_END,
        Group::Hidden => &HIDDEN,
    }
}

impl<'t> Word<'t> {
    /// The sign that the token is, if it is one.
    pub fn lexeme(self) -> Option<Lexeme>
        ensures { result ≡ lexeme_of (word_seen self.entry).kind }
    {
        match self.token.kind {
            Kind::Word(word) => Some(word_lexeme(word)),
            Kind::Symbol(symbol) => Some(symbol_lexeme(symbol)),
            _ => None,
        }
    }

    // Whether the token is a sign of these.
    fn is_any(self, lexemes: &[Lexeme]) -> bool
        ensures { result ≡ is_any lexemes.now (word_seen self.entry) }
    {
        match self.lexeme() {
            Some(lexeme) => is_one_of(lexemes, lexeme),
            None => false,
        }
    }

    // Whether the token is a name.
    fn is_name(self) -> bool
        ensures { result ≡ is_name (word_seen self.entry) }
    {
        matches!(self.token.kind, Kind::Name(_))
    }

    // Whether the token is a system name.
    fn is_system(self) -> bool
        ensures { result ≡ is_system (word_seen self.entry) }
    {
        matches!(self.token.kind, Kind::SysName(_))
    }

    // Whether the token is a string.
    fn is_text(self) -> bool
        ensures { result ≡ is_text (word_seen self.entry) }
    {
        matches!(self.token.kind, Kind::Text(_))
    }

    // Whether the token is a number.
    fn is_number(self) -> bool
        ensures { result ≡ is_number (word_seen self.entry) }
    {
        matches!(self.token.kind, Kind::Number(..))
    }

    // Whether the token is a system name that is a call.
    fn is_call(self) -> bool
        ensures { result ≡ is_call (word_seen self.entry).kind }
    {
        match &self.token.kind {
            Kind::SysName(name) => !is_plain(name.as_slice()),
            _ => false,
        }
    }

    /// What the first row of the token's sign says. It takes time in the number of rows.
    pub fn row<T: Copy>(self, rows: &[(Lexeme, T)]) -> Option<T>
        ensures { result ≡ row_at rows.now (word_seen self.entry) }
    {
        match self.lexeme() {
            Some(lexeme) => row_of(rows, lexeme),
            None => None,
        }
    }

    // Whether the token is in one of these rows.
    fn is_in(self, rows: Rows) -> bool
        ensures { result ≡ is_in rows (word_seen self.entry) }
    {
        match rows {
            Rows::Unary => self.row(&UNARY).is_some(),
            Rows::Assign => self.row(&ASSIGN).is_some(),
            Rows::Edge => self.row(&EDGE).is_some(),
            Rows::Case => self.row(&CASE).is_some(),
            Rows::Loop => self.row(&LOOP).is_some(),
            Rows::Force => self.row(&FORCE).is_some(),
            Rows::Release => self.row(&RELEASE).is_some(),
            Rows::Variable => self.row(&VARIABLE).is_some(),
            Rows::Direction => self.row(&DIRECTION).is_some(),
            Rows::Net => self.row(&NET).is_some(),
            Rows::PortType => self.row(&PORT_TYPE).is_some(),
            Rows::Targ => self.row(&TARG).is_some(),
            Rows::Gate => self.row(&GATE).is_some(),
            Rows::Parameter => self.row(&PARAMETER).is_some(),
            Rows::Process => self.row(&PROCESS).is_some(),
        }
    }

    /// The binary operator of the level that the token is.
    pub fn operator(self, level: usize) -> Option<Binary>
        ensures { result ≡ operator_at level (word_seen self.entry) }
    {
        match self.row(&BINARY) {
            Some((own, operator)) if own == level => Some(operator),
            _ => None,
        }
    }

    // Whether an expression begins with the token.
    fn begins_expression(self) -> bool
        ensures { result ≡ begins_expression (word_seen self.entry) }
    {
        self.is_number()
            || self.is_text()
            || self.is_name()
            || self.is_system()
            || self.is_any(&EXPRESSION)
    }

    // Whether this begins with the token.
    fn begins(self, start: Start) -> bool
        ensures { result ≡ starts start (word_seen self.entry) }
    {
        match start {
            Start::Expression => self.begins_expression(),
            Start::Statement => self.is_name() || self.is_system() || self.is_any(&STATEMENT),
            Start::Citem => self.is_lexeme(Lexeme::Default) || self.begins_expression(),
            Start::Slots => self.begins_expression() || self.is_lexeme(Lexeme::Comma),
            Start::Item => self.is_name() || self.is_any(&ITEM),
            Start::Ports => self.is_name() || self.is_in(Rows::Direction),
            Start::Conns => self.begins_expression() || self.is_any(&CONNS),
        }
    }

    // Whether the token is the sign.
    fn is_lexeme(self, lexeme: Lexeme) -> bool
        ensures { result ≡ is lexeme (word_seen self.entry) }
    {
        match self.lexeme() {
            Some(own) => code(lexeme) == code(own),
            None => false,
        }
    }
}

impl vh_parse_grammar::Token<Class> for Token {
    ghost Seen = { Tokens.Token };

    ghost seen = { token_seen };

    ghost word = { is_unused };

    ghost has = { has };

    fn is(&self, class: Class) -> bool {
        let word = Word { token: self };
        match class {
            Class::Is(lexeme) => word.is_lexeme(lexeme),
            Class::Row(rows) => word.is_in(rows),
            Class::Among(group) => word.is_any(lexemes_of(group)),
            Class::Begins(start) => word.begins(start),
            Class::Operator(level) => word.operator(level).is_some(),
            Class::Name => word.is_name(),
            Class::System => word.is_system(),
            Class::Text => word.is_text(),
            Class::Number => word.is_number(),
            Class::Module => matches!(self.kind, Kind::Module(_)),
            Class::Call => word.is_call(),
        }
    }

    fn is_left_out(&self) -> bool {
        Word { token: self }.is_lexeme(Lexeme::Unused)
    }
}

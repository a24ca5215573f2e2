//! The tokens that are always spelled the same, as the grammar tells them apart.

ghost use Rattle.std.specs.Prelude.{◌≡◌};
ghost use Rattle.vh_parse_syntax.specs.Lexemes;

use vh_lex::{Keyword, Symbol};

/// A reserved word or a symbol. The words that stand in no production are one.
#[derive(Clone, Copy, Debug, PartialEq, Eq)]
pub enum Lexeme {
    Always,
    And,
    Assign,
    Begin,
    Buf,
    Case,
    Casex,
    Casez,
    Deassign,
    Default,
    Disable,
    Else,
    End,
    Endcase,
    Endfunction,
    Endgenerate,
    Endmodule,
    Endtask,
    Event,
    For,
    Force,
    Forever,
    Fork,
    Function,
    Generate,
    Genvar,
    If,
    Initial,
    Inout,
    Input,
    Integer,
    Join,
    Localparam,
    Nand,
    Negedge,
    Nor,
    Not,
    Or,
    Output,
    Parameter,
    Posedge,
    Reg,
    Release,
    Repeat,
    Signed,
    Task,
    Time,
    Tri,
    Triand,
    Trior,
    Wait,
    Wand,
    While,
    Wire,
    Wor,
    Xnor,
    Xor,
    /// `<<<`
    ArithmeticShiftLeft,
    /// `>>>`
    ArithmeticShiftRight,
    /// `===`
    CaseEqual,
    /// `!==`
    CaseUnequal,
    /// `==`
    LogicalEqual,
    /// `!=`
    LogicalUnequal,
    /// `&&`
    AndAnd,
    /// `||`
    OrOr,
    /// `~&`
    TildeAnd,
    /// `~|`
    TildeOr,
    /// `~^`
    TildeCaret,
    /// `^~`
    CaretTilde,
    /// `**`
    StarStar,
    /// `<<`
    ShiftLeft,
    /// `>>`
    ShiftRight,
    /// `<=`
    LessEqual,
    /// `>=`
    GreaterEqual,
    /// `->`
    Arrow,
    /// `+:`
    PlusColon,
    /// `-:`
    MinusColon,
    /// `(`
    LeftParen,
    /// `)`
    RightParen,
    /// `[`
    LeftBracket,
    /// `]`
    RightBracket,
    /// `{`
    LeftBrace,
    /// `}`
    RightBrace,
    /// `;`
    Semicolon,
    /// `,`
    Comma,
    /// `.`
    Dot,
    /// `:`
    Colon,
    /// `#`
    Hash,
    /// `@`
    At,
    /// `=`
    Equal,
    /// `+`
    Plus,
    /// `-`
    Minus,
    /// `*`
    Star,
    /// `/`
    Slash,
    /// `%`
    Percent,
    /// `!`
    Bang,
    /// `~`
    Tilde,
    /// `&`
    Ampersand,
    /// `|`
    Bar,
    /// `^`
    Caret,
    /// `<`
    Less,
    /// `>`
    Greater,
    /// `?`
    Question,
    /// A reserved word that stands in no production.
    Unused,
}

// The number of a sign, in the order above.
pub(crate) fn code(lexeme: Lexeme) -> u8
    ensures { result ≡ Lexemes.number lexeme }
{
    lexeme as u8
}

// The sign that a reserved word is.
pub(crate) fn word_lexeme(word: Keyword) -> Lexeme
    ensures { result ≡ Lexemes.word_lexeme word }
{
    match word {
        Keyword::Always => Lexeme::Always,
        Keyword::And => Lexeme::And,
        Keyword::Assign => Lexeme::Assign,
        Keyword::Begin => Lexeme::Begin,
        Keyword::Buf => Lexeme::Buf,
        Keyword::Case => Lexeme::Case,
        Keyword::Casex => Lexeme::Casex,
        Keyword::Casez => Lexeme::Casez,
        Keyword::Deassign => Lexeme::Deassign,
        Keyword::Default => Lexeme::Default,
        Keyword::Disable => Lexeme::Disable,
        Keyword::Else => Lexeme::Else,
        Keyword::End => Lexeme::End,
        Keyword::Endcase => Lexeme::Endcase,
        Keyword::Endfunction => Lexeme::Endfunction,
        Keyword::Endgenerate => Lexeme::Endgenerate,
        Keyword::Endmodule => Lexeme::Endmodule,
        Keyword::Endtask => Lexeme::Endtask,
        Keyword::Event => Lexeme::Event,
        Keyword::For => Lexeme::For,
        Keyword::Force => Lexeme::Force,
        Keyword::Forever => Lexeme::Forever,
        Keyword::Fork => Lexeme::Fork,
        Keyword::Function => Lexeme::Function,
        Keyword::Generate => Lexeme::Generate,
        Keyword::Genvar => Lexeme::Genvar,
        Keyword::If => Lexeme::If,
        Keyword::Initial => Lexeme::Initial,
        Keyword::Inout => Lexeme::Inout,
        Keyword::Input => Lexeme::Input,
        Keyword::Integer => Lexeme::Integer,
        Keyword::Join => Lexeme::Join,
        Keyword::Localparam => Lexeme::Localparam,
        Keyword::Nand => Lexeme::Nand,
        Keyword::Negedge => Lexeme::Negedge,
        Keyword::Nor => Lexeme::Nor,
        Keyword::Not => Lexeme::Not,
        Keyword::Or => Lexeme::Or,
        Keyword::Output => Lexeme::Output,
        Keyword::Parameter => Lexeme::Parameter,
        Keyword::Posedge => Lexeme::Posedge,
        Keyword::Reg => Lexeme::Reg,
        Keyword::Release => Lexeme::Release,
        Keyword::Repeat => Lexeme::Repeat,
        Keyword::Signed => Lexeme::Signed,
        Keyword::Task => Lexeme::Task,
        Keyword::Time => Lexeme::Time,
        Keyword::Tri => Lexeme::Tri,
        Keyword::Triand => Lexeme::Triand,
        Keyword::Trior => Lexeme::Trior,
        Keyword::Wait => Lexeme::Wait,
        Keyword::Wand => Lexeme::Wand,
        Keyword::While => Lexeme::While,
        Keyword::Wire => Lexeme::Wire,
        Keyword::Wor => Lexeme::Wor,
        Keyword::Xnor => Lexeme::Xnor,
        Keyword::Xor => Lexeme::Xor,
        Keyword::Automatic
        | Keyword::Bufif0
        | Keyword::Bufif1
        | Keyword::Cell
        | Keyword::Cmos
        | Keyword::Config
        | Keyword::Defparam
        | Keyword::Design
        | Keyword::Edge
        | Keyword::Endconfig
        | Keyword::Endprimitive
        | Keyword::Endspecify
        | Keyword::Endtable
        | Keyword::Highz0
        | Keyword::Highz1
        | Keyword::Ifnone
        | Keyword::Incdir
        | Keyword::Include
        | Keyword::Instance
        | Keyword::Large
        | Keyword::Liblist
        | Keyword::Library
        | Keyword::Macromodule
        | Keyword::Medium
        | Keyword::Nmos
        | Keyword::Noshowcancelled
        | Keyword::Notif0
        | Keyword::Notif1
        | Keyword::Pmos
        | Keyword::Primitive
        | Keyword::Pull0
        | Keyword::Pull1
        | Keyword::Pulldown
        | Keyword::Pullup
        | Keyword::PulsestyleOndetect
        | Keyword::PulsestyleOnevent
        | Keyword::Rcmos
        | Keyword::Real
        | Keyword::Realtime
        | Keyword::Rnmos
        | Keyword::Rpmos
        | Keyword::Rtran
        | Keyword::Rtranif0
        | Keyword::Rtranif1
        | Keyword::Scalared
        | Keyword::Showcancelled
        | Keyword::Small
        | Keyword::Specify
        | Keyword::Specparam
        | Keyword::Strong0
        | Keyword::Strong1
        | Keyword::Supply0
        | Keyword::Supply1
        | Keyword::Table
        | Keyword::Tran
        | Keyword::Tranif0
        | Keyword::Tranif1
        | Keyword::Tri0
        | Keyword::Tri1
        | Keyword::Trireg
        | Keyword::Unsigned
        | Keyword::Use
        | Keyword::Uwire
        | Keyword::Vectored
        | Keyword::Weak0
        | Keyword::Weak1 => Lexeme::Unused,
    }
}

// The sign that an operator or a symbol is.
pub(crate) fn symbol_lexeme(symbol: Symbol) -> Lexeme
    ensures { result ≡ Lexemes.symbol_lexeme symbol }
{
    match symbol {
        Symbol::ArithmeticShiftLeft => Lexeme::ArithmeticShiftLeft,
        Symbol::ArithmeticShiftRight => Lexeme::ArithmeticShiftRight,
        Symbol::CaseEqual => Lexeme::CaseEqual,
        Symbol::CaseUnequal => Lexeme::CaseUnequal,
        Symbol::LogicalEqual => Lexeme::LogicalEqual,
        Symbol::LogicalUnequal => Lexeme::LogicalUnequal,
        Symbol::AndAnd => Lexeme::AndAnd,
        Symbol::OrOr => Lexeme::OrOr,
        Symbol::TildeAnd => Lexeme::TildeAnd,
        Symbol::TildeOr => Lexeme::TildeOr,
        Symbol::TildeCaret => Lexeme::TildeCaret,
        Symbol::CaretTilde => Lexeme::CaretTilde,
        Symbol::StarStar => Lexeme::StarStar,
        Symbol::ShiftLeft => Lexeme::ShiftLeft,
        Symbol::ShiftRight => Lexeme::ShiftRight,
        Symbol::LessEqual => Lexeme::LessEqual,
        Symbol::GreaterEqual => Lexeme::GreaterEqual,
        Symbol::Arrow => Lexeme::Arrow,
        Symbol::PlusColon => Lexeme::PlusColon,
        Symbol::MinusColon => Lexeme::MinusColon,
        Symbol::LeftParen => Lexeme::LeftParen,
        Symbol::RightParen => Lexeme::RightParen,
        Symbol::LeftBracket => Lexeme::LeftBracket,
        Symbol::RightBracket => Lexeme::RightBracket,
        Symbol::LeftBrace => Lexeme::LeftBrace,
        Symbol::RightBrace => Lexeme::RightBrace,
        Symbol::Semicolon => Lexeme::Semicolon,
        Symbol::Comma => Lexeme::Comma,
        Symbol::Dot => Lexeme::Dot,
        Symbol::Colon => Lexeme::Colon,
        Symbol::Hash => Lexeme::Hash,
        Symbol::At => Lexeme::At,
        Symbol::Equal => Lexeme::Equal,
        Symbol::Plus => Lexeme::Plus,
        Symbol::Minus => Lexeme::Minus,
        Symbol::Star => Lexeme::Star,
        Symbol::Slash => Lexeme::Slash,
        Symbol::Percent => Lexeme::Percent,
        Symbol::Bang => Lexeme::Bang,
        Symbol::Tilde => Lexeme::Tilde,
        Symbol::Ampersand => Lexeme::Ampersand,
        Symbol::Bar => Lexeme::Bar,
        Symbol::Caret => Lexeme::Caret,
        Symbol::Less => Lexeme::Less,
        Symbol::Greater => Lexeme::Greater,
        Symbol::Question => Lexeme::Question,
    }
}

ghost use Rattle.std.specs.Prelude.{◌≡◌, ◌≤◌, length, map, IfSome};
ghost use Rattle.vh_lex.specs.Symbols;
ghost use Rattle.vh_lex.specs.Views.{row_seen, rows_from};
ghost use Rattle.std.specs.Option.{option_map};

use crate::table::begun;

/// An operator or a symbol (IEEE 1364-2005, 3.4, Table 5-1 and Annex A).
#[derive(Clone, Copy, Debug, PartialEq, Eq)]
pub enum Symbol {
    /// `<<<`
    ArithmeticShiftLeft,
    /// `>>>`
    ArithmeticShiftRight,
    /// `===`
    CaseEqual,
    /// `!==`
    CaseUnequal,
    /// `==`
    LogicalEqual,
    /// `!=`
    LogicalUnequal,
    /// `&&`
    AndAnd,
    /// `||`
    OrOr,
    /// `~&`
    TildeAnd,
    /// `~|`
    TildeOr,
    /// `~^`
    TildeCaret,
    /// `^~`
    CaretTilde,
    /// `**`
    StarStar,
    /// `<<`
    ShiftLeft,
    /// `>>`
    ShiftRight,
    /// `<=`
    LessEqual,
    /// `>=`
    GreaterEqual,
    /// `->`
    Arrow,
    /// `+:`
    PlusColon,
    /// `-:`
    MinusColon,
    /// `(`
    LeftParen,
    /// `)`
    RightParen,
    /// `[`
    LeftBracket,
    /// `]`
    RightBracket,
    /// `{`
    LeftBrace,
    /// `}`
    RightBrace,
    /// `;`
    Semicolon,
    /// `,`
    Comma,
    /// `.`
    Dot,
    /// `:`
    Colon,
    /// `#`
    Hash,
    /// `@`
    At,
    /// `=`
    Equal,
    /// `+`
    Plus,
    /// `-`
    Minus,
    /// `*`
    Star,
    /// `/`
    Slash,
    /// `%`
    Percent,
    /// `!`
    Bang,
    /// `~`
    Tilde,
    /// `&`
    Ampersand,
    /// `|`
    Bar,
    /// `^`
    Caret,
    /// `<`
    Less,
    /// `>`
    Greater,
    /// `?`
    Question,
}

// The operators and symbols with this first byte, the longest first (IEEE 1364-2005, 3.4, Table 5-1
// and Annex A).
fn symbols_from(first: u8) -> &'static [(&'static [u8], Symbol)]
    ensures { map row_seen result.now ≡ rows_from first Symbols.symbol_rows }
{
    match first {
        b'!' => &[
            (b"!==", Symbol::CaseUnequal),
            (b"!=", Symbol::LogicalUnequal),
            (b"!", Symbol::Bang),
        ],
        b'#' => &[(b"#", Symbol::Hash)],
        b'%' => &[(b"%", Symbol::Percent)],
        b'&' => &[(b"&&", Symbol::AndAnd), (b"&", Symbol::Ampersand)],
        b'(' => &[(b"(", Symbol::LeftParen)],
        b')' => &[(b")", Symbol::RightParen)],
        b'*' => &[(b"**", Symbol::StarStar), (b"*", Symbol::Star)],
        b'+' => &[(b"+:", Symbol::PlusColon), (b"+", Symbol::Plus)],
        b',' => &[(b",", Symbol::Comma)],
        b'-' => &[
            (b"->", Symbol::Arrow),
            (b"-:", Symbol::MinusColon),
            (b"-", Symbol::Minus),
        ],
        b'.' => &[(b".", Symbol::Dot)],
        b'/' => &[(b"/", Symbol::Slash)],
        b':' => &[(b":", Symbol::Colon)],
        b';' => &[(b";", Symbol::Semicolon)],
        b'<' => &[
            (b"<<<", Symbol::ArithmeticShiftLeft),
            (b"<<", Symbol::ShiftLeft),
            (b"<=", Symbol::LessEqual),
            (b"<", Symbol::Less),
        ],
        b'=' => &[
            (b"===", Symbol::CaseEqual),
            (b"==", Symbol::LogicalEqual),
            (b"=", Symbol::Equal),
        ],
        b'>' => &[
            (b">>>", Symbol::ArithmeticShiftRight),
            (b">>", Symbol::ShiftRight),
            (b">=", Symbol::GreaterEqual),
            (b">", Symbol::Greater),
        ],
        b'?' => &[(b"?", Symbol::Question)],
        b'@' => &[(b"@", Symbol::At)],
        b'[' => &[(b"[", Symbol::LeftBracket)],
        b']' => &[(b"]", Symbol::RightBracket)],
        b'^' => &[(b"^~", Symbol::CaretTilde), (b"^", Symbol::Caret)],
        b'{' => &[(b"{", Symbol::LeftBrace)],
        b'|' => &[(b"||", Symbol::OrOr), (b"|", Symbol::Bar)],
        b'}' => &[(b"}", Symbol::RightBrace)],
        b'~' => &[
            (b"~&", Symbol::TildeAnd),
            (b"~|", Symbol::TildeOr),
            (b"~^", Symbol::TildeCaret),
            (b"~", Symbol::Tilde),
        ],
        _ => &[],
    }
}

// The longest symbol with which the bytes begin, and its bytes. It compares with the symbols that have
// the same first byte alone.
pub(crate) fn symbol_at(bytes: &[u8]) -> Option<(&'static [u8], Symbol)>
    ensures value { option_map row_seen result ≡ Symbols.symbol_at bytes.now }
    ensures inside { IfSome result (λ row. length row.0.now ≤ length bytes.now) }
{
    let Some((first, _)) = bytes.split_first() else {
        return None;
    };
    begun(symbols_from(*first), bytes)
}

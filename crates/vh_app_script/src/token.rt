//! Tokens, as the grammar reads them.

ghost use Rattle.std.specs.Prelude.{◌≡◌};
ghost use Rattle.vh_app_script.specs.Token as spec;

/// A token that is always spelled the same, other than a word.
#[derive(Clone, Copy, Debug, PartialEq, Eq)]
pub enum Symbol {
    /// `,`
    Comma,
    /// `;`
    Semicolon,
    /// `=`
    Becomes,
    /// `==`
    Equals,
    /// `!=`
    Differs,
    /// `+`
    Plus,
    /// `(`
    OpenParen,
    /// `)`
    CloseParen,
    /// `{`
    OpenBrace,
    /// `}`
    CloseBrace,
}

/// A word of the grammar's rows.
#[derive(Clone, Copy, Debug, PartialEq, Eq)]
pub enum Keyword {
    App,
    Var,
    Startup,
    Proc,
    Else,
    Event,
    Calltf,
    Compiletf,
}

/// What a token is.
#[derive(Clone, Copy)]
pub enum Kind<'a> {
    /// A name, or a word; and whether the next token is a `=`.
    Word(bool, &'a [u8]),
    /// A number below 2^64.
    Number(u64),
    /// What stands between the quotes of a text, with its escapes.
    Text(&'a [u8]),
    Symbol(Symbol),
    /// No token begins here, or a number that is too large.
    Wrong,
}

/// A token, and how many bytes are left at its place, its own among them.
#[derive(Clone, Copy)]
pub struct Token<'a> {
    pub kind: Kind<'a>,
    pub left: usize,
}

impl Symbol {
    /// Its number, by which symbols are told apart.
    pub fn number(self) -> u8
        ensures { result ≡ spec.symbol_number self }
    {
        self as u8
    }
}

impl Keyword {
    /// How it is spelled.
    pub fn text(self) -> &'static [u8]
        ensures { result.now ≡ spec.keyword_text self }
    {
        match self {
            Keyword::App => b"app",
            Keyword::Var => b"var",
            Keyword::Startup => b"startup",
            Keyword::Proc => b"proc",
            Keyword::Else => b"else",
            Keyword::Event => b"event",
            Keyword::Calltf => b"calltf",
            Keyword::Compiletf => b"compiletf",
        }
    }
}

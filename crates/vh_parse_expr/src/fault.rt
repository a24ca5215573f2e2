//! Why tokens are refused, with places.

ghost use Rattle.std.specs.Prelude.{◌≡◌};
ghost use Rattle.vh_parse_expr.specs.Answers.{fault_at, place_at};

use thiserror::Error;
use vh_base::{DesignFault, NoMemory, Place};
use vh_lex::Token;
use vh_parse_grammar::Stop;

/// Why tokens have no tree.
#[derive(Clone, Copy, Debug, PartialEq, Eq, Error)]
pub enum ParseFault {
    /// A fault of the grammar, `S1`, `S2` or `S3`, and where it stands.
    #[error("{0}, in file {file}, line {line}, column {column}", file = .1.file, line = .1.line, column = .1.column)]
    Refused(DesignFault, Place),
    #[error("out of memory")]
    NoMemory,
}

impl From<NoMemory> for ParseFault {
    ghost use Rattle.vh_parse_expr.specs.declared.fault.ParseFault.TheVariants.{NoMemory};

    ghost from_gives = { λ _ fault. fault ≡ NoMemory };

    fn from(_refused: NoMemory) -> ParseFault {
        ParseFault::NoMemory
    }
}

// The place of the token with so many tokens left, itself being one of them; the place after the
// last one where none is left.
fn place_at(tokens: &[Token], left: usize, after: Place) -> Place
    ensures { result ≡ place_at tokens.now left after }
{
    match tokens.get(tokens.len().saturating_sub(left)) {
        Some(token) => token.place,
        None => after,
    }
}

/// Why a parser of the tokens stopped, with its place: `after` is the place after the last token.
pub fn fault_at(tokens: &[Token], stop: Stop, after: Place) -> ParseFault
    ensures { result ≡ fault_at tokens.now stop after }
{
    match stop {
        Stop::Lost(left) => ParseFault::Refused(DesignFault::S1, place_at(tokens, left, after)),
        Stop::Deep(left) => ParseFault::Refused(DesignFault::S2, place_at(tokens, left, after)),
        Stop::LeftOut(left) => ParseFault::Refused(DesignFault::S3, place_at(tokens, left, after)),
        Stop::Memory => ParseFault::NoMemory,
    }
}

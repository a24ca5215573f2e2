//! The tokens that a parser reads, one at a time.

ghost use Rattle.std.specs.Prelude.{◌≡◌, MatchResult};
ghost use Rattle.vh_base.specs.declared.place.Place.{Place};
ghost use Rattle.vh_parse_grammar.specs.declared.stop.Stop.TheVariants.{Memory};
ghost use Rattle.vh_parse_grammar.specs.Part.{act, tok, opt};
ghost use Rattle.vh_parse_syntax.specs.Tokens.{operator_at, in_rows, unary_rows};
ghost use Rattle.vh_parse_syntax.specs.Parts;
ghost use Rattle.vh_parse_syntax.specs.Parts.{an_id, a_system, a_text, a_number, at_the};
ghost use Rattle.vh_ast.specs.Views.{expr_tree};
ghost use Rattle.vh_parse_syntax.specs.Expressions.{number_expr, text_expr};
ghost use Rattle.vh_parse_expr.specs.Views.{Reads, IsId};

use crate::made;
use sqlite_items::Boxed;
use std::alloc::Global;
use vh_ast::{Binary, Expr, Id, Unary};
use vh_base::{NoMemory, Place};
use vh_base_shared::SharedBytes;
use vh_lex::{Kind, Token};
use vh_parse_grammar::{Cursor, Stop};
use vh_parse_syntax::tables::UNARY;
use vh_parse_syntax::{Class, Lexeme, Word};

/// The tokens before a parser, and what was shown to be left out.
pub type At<'t> = Cursor<'t, Token, Class>;

/// What a parser reads, and where it goes on.
pub type Read<'t, T> = Result<(T, At<'t>), Stop>;

/// What was made, where memory was had for it.
pub fn kept<T>(made: Result<T, NoMemory>) -> Result<T, Stop>
    ensures { MatchResult result (λ t. made ≡ Ok t) (λ stop. stop ≡ Memory) }
{
    match made {
        Ok(t) => Ok(t),
        Err(NoMemory) => Err(Stop::Memory),
    }
}

// A name with its place. It shares the token's bytes.
fn named(place: Place, name: &SharedBytes) -> Result<Id, Stop>
    ensures { MatchResult result (λ id. IsId id place name.now) (λ stop. stop ≡ Memory) }
{
    let name = kept(name.share())?;
    Ok(Id { place, name })
}

/// `ID`
pub fn id<'t>(at: At<'t>) -> Read<'t, Id>
    ensures { Reads (λ i. i) 0 an_id at.entry result }
{
    let [first, rest @ ..] = at.tokens else {
        return Err(at.lost());
    };
    match &first.kind {
        Kind::Name(name) => Ok((named(first.place, name)?, at.before(rest))),
        _ => Err(at.lost()),
    }
}

/// `SYS`
pub fn system_name<'t>(at: At<'t>) -> Read<'t, Id>
    ensures { Reads (λ i. i) 0 a_system at.entry result }
{
    let [first, rest @ ..] = at.tokens else {
        return Err(at.lost());
    };
    match &first.kind {
        Kind::SysName(name) => Ok((named(first.place, name)?, at.before(rest))),
        _ => Err(at.lost()),
    }
}

// `STRING`, as an expression.
pub(crate) fn text<'t>(alloc: Global, at: At<'t>) -> Read<'t, Boxed<Expr>>
    ensures { Reads expr_tree 0 (act text_expr a_text) at.entry result }
{
    let [first, rest @ ..] = at.tokens else {
        return Err(at.lost());
    };
    match &first.kind {
        Kind::Text(text) => {
            let text = kept(text.share())?;
            Ok((made::text(alloc, first.place, text)?, at.before(rest)))
        }
        _ => Err(at.lost()),
    }
}

// `NUMBER`, as an expression.
pub(crate) fn number<'t>(alloc: Global, at: At<'t>) -> Read<'t, Boxed<Expr>>
    ensures { Reads expr_tree 0 (act number_expr a_number) at.entry result }
{
    let [first, rest @ ..] = at.tokens else {
        return Err(at.lost());
    };
    match &first.kind {
        Kind::Number(number) => {
            let number = made::number(alloc, first.place, *number.get())?;
            Ok((number, at.before(rest)))
        }
        _ => Err(at.lost()),
    }
}

/// The sign, and where it stands.
pub fn lexeme<'t>(lexeme: Lexeme, at: At<'t>) -> Read<'t, Place>
    ensures { Reads (λ p. p) 0 (at_the lexeme) at.entry result }
{
    let [first, ..] = at.tokens else {
        return Err(at.lost());
    };
    Ok((first.place, at.take(Class::Is(lexeme))?))
}

/// A sign of the rows, where it stands, as what its row says.
pub fn placed_row<'t, T: Copy>(rows: &[(Lexeme, T)], at: At<'t>) -> Read<'t, (Place, T)>
    ensures { Reads (λ w. w) 0 (Parts.placed_row rows.now) at.entry result }
{
    let [first, rest @ ..] = at.tokens else {
        return Err(at.lost());
    };
    match (Word { token: first }).row(rows) {
        Some(meaning) => Ok(((first.place, meaning), at.before(rest))),
        None => Err(at.lost()),
    }
}

/// A sign of the rows, as what its row says, if one is next.
pub fn row_if_next<'t, T: Copy>(rows: &[(Lexeme, T)], at: At<'t>) -> Read<'t, Option<T>>
    ensures { let part = opt (in_rows rows.now) (Parts.row_in rows.now) in
        Reads (λ w. w) 0 part at.entry result }
{
    let [first, rest @ ..] = at.tokens else {
        return Ok((None, at));
    };
    match (Word { token: first }).row(rows) {
        Some(meaning) => Ok((Some(meaning), at.before(rest))),
        None => Ok((None, at)),
    }
}

// A unary operator, and where it stands.
pub(crate) fn unary_lexeme<'t>(at: At<'t>) -> Read<'t, (Place, Unary)>
    ensures { Reads (λ o. o) 0 (Parts.placed_row unary_rows) at.entry result }
{
    placed_row(&UNARY, at)
}

// A binary operator of the level.
pub(crate) fn operator<'t>(level: usize, at: At<'t>) -> Read<'t, Binary>
    ensures { Reads (λ o. o) 0 (tok (operator_at level)) at.entry result }
{
    let [first, rest @ ..] = at.tokens else {
        return Err(at.lost());
    };
    match (Word { token: first }).operator(level) {
        Some(operator) => Ok((operator, at.before(rest))),
        None => Err(at.lost()),
    }
}

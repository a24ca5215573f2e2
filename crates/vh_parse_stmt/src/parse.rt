//! A statement of the lexer's tokens.

ghost use Rattle.std.specs.Prelude.{◌-◌, ◌≤◌, map};
ghost use Rattle.vh_parse_syntax.specs.Tokens.{token_seen};
ghost use Rattle.vh_parse_expr.specs.Views.{tokens_seen};
ghost use Rattle.vh_parse_stmt.specs.Answers.{statement_answer, Answered, IsParsed};

use crate::stmt::inner_statement;
use sqlite_items::Boxed;
use std::alloc::Global;
use vh_ast::Stmt;
use vh_base::Place;
use vh_lex::Token;
use vh_parse_expr::{MOST_LEVELS, ParseFault, fault_at};
use vh_parse_grammar::{Cursor, Stop};

// A statement of a front of the tokens, unless a construct is left out in it; and how many tokens are
// left.
fn read(
    alloc: Global,
    levels: usize,
    inside: bool,
    tokens: &[Token],
) -> Result<(Boxed<Stmt>, usize), Stop>
    ensures { Answered (statement_answer levels inside (tokens_seen tokens.now)) result }
{
    let (stmt, rest) = inner_statement(alloc, levels, inside, Cursor::new(tokens))?;
    if rest.omission > 0 {
        return Err(Stop::LeftOut(rest.omission));
    }
    Ok((stmt, rest.tokens.len()))
}

/// The statement that begins with the first token, and how many tokens are left behind it; or why there
/// is none, and where. `depth` is the nesting that is open before it, `inside` says whether it stands in
/// a function, and `after` is the place after the last token. It takes time and memory in the number of
/// tokens, and stack in the levels alone.
pub fn parse_stmt(
    alloc: Global,
    tokens: &[Token],
    depth: u32,
    inside: bool,
    after: Place,
) -> Result<(Boxed<Stmt>, usize), ParseFault>
    requires levels { depth ≤ MOST_LEVELS }
    // The answer is the table's for the tokens, with the levels that are left.
    ensures answer { let answer = statement_answer (MOST_LEVELS - depth) inside
        (map token_seen tokens.now) in
        IsParsed tokens.now after answer result }
{
    let levels = (MOST_LEVELS - depth) as usize;
    match read(alloc, levels, inside, tokens) {
        Ok(read) => Ok(read),
        Err(stop) => Err(fault_at(tokens, stop, after)),
    }
}

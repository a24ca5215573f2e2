//! An expression of the lexer's tokens.

ghost use Rattle.std.specs.Prelude.{◌≡◌, ◌-◌, ◌≤◌, ◌<◌, suc, length, drop, map, IfOk};
ghost use Rattle.vh_parse_syntax.specs.Tokens.{token_seen};
ghost use Rattle.vh_parse_syntax.specs.Parts.{expr};
ghost use Rattle.vh_parse_grammar.specs.Sentences.{ReadsAt};
ghost use Rattle.vh_parse_syntax.specs.Grammar.{grammar};
ghost use Rattle.vh_ast.specs.Views.{expr_tree};
ghost use Rattle.vh_parse_expr.specs.Answers.{expression_answer, Answered, IsParsed};
ghost use Rattle.vh_parse_expr.specs.Views.{tokens_seen};

use crate::expr::outermost;
use crate::fault::{ParseFault, fault_at};
use std::alloc::Global;
use vh_ast::Expr;
use vh_base::Place;
use vh_lex::Token;
use vh_parse_grammar::{Cursor, Stop};
use vh_parse_syntax::syntax_laws;

/// How many levels statements, blocks and expressions nest at most (own).
pub const MOST_LEVELS: u32 = 200;

// An expression of a front of the tokens, unless a construct is left out in it; and how many tokens
// are left.
fn read(alloc: Global, levels: usize, calls: bool, tokens: &[Token]) -> Result<(Expr, usize), Stop>
    ensures { Answered (expression_answer levels calls (tokens_seen tokens.now)) result }
{
    let (expr, rest) = outermost(alloc, levels, calls, Cursor::new(tokens))?;
    if rest.omission > 0 {
        return Err(Stop::LeftOut(rest.omission));
    }
    Ok((expr.into_inner(), rest.tokens.len()))
}

/// The expression that begins with the token `from`, and the number of the token behind it, counted
/// from 0; or why there is none, and where. `depth` is the nesting that is open before the token,
/// `calls` says whether calls may stand in the expression, and `after` is the place after the last
/// token. It takes time and memory in the number of tokens from that one on, and stack in the levels
/// alone.
pub fn parse_expr(
    alloc: Global,
    tokens: &Vec<Token>,
    from: usize,
    depth: u32,
    calls: bool,
    after: Place,
) -> Result<(Expr, usize), ParseFault>
    requires within { from ≤ length tokens.now.items }
    requires levels { depth ≤ MOST_LEVELS }
    // The answer is the table's for the tokens from this one on, with the levels that are left,
    ensures answer { let ts = drop from tokens.now.items in
        let answer = expression_answer (MOST_LEVELS - depth) calls (map token_seen ts) in
        IsParsed tokens.now.items from after answer result }
    // and it is an expression of them exactly by the grammar's cases.
    ensures spelled { let levels = suc (MOST_LEVELS - depth) in
        let ts = map token_seen (drop from tokens.now.items) in
        IfOk result
        (λ e. ReadsAt grammar levels (expr calls) (expr_tree e.0) ts
        (map token_seen (drop e.1 tokens.now.items))) }
{
    syntax_laws();
    let all = tokens.as_slice();
    let rest = &all[from..];
    let levels = (MOST_LEVELS - depth) as usize;
    match read(alloc, levels, calls, rest) {
        Ok((expr, left)) => Ok((expr, all.len() - left)),
        Err(stop) => Err(fault_at(rest, stop, after)),
    }
}

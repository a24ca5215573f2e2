//! A whole source of the lexer's tokens.

ghost use Rattle.std.specs.Prelude.{◌≡◌, map, IfOk};
ghost use Rattle.vh_parse_grammar.specs.Says.{Accepts};
ghost use Rattle.vh_parse_grammar.specs.Table.{IsSource};
ghost use Rattle.vh_ast.specs.Views.{source_tree};
ghost use Rattle.vh_parse_syntax.specs.Table.{syntax_table};
ghost use Rattle.vh_parse_syntax.specs.Tokens.{token_seen};
ghost use Rattle.vh_parse_expr.specs.Views.{tokens_seen};
ghost use Rattle.vh_parse_items.specs.Answers.{source_answer, IsParsed};

use crate::module::modules;
use std::alloc::Global;
use vh_ast::Source;
use vh_base::Place;
use vh_lex::Token;
use vh_parse_expr::{MOST_LEVELS, ParseFault, fault_at};
use vh_parse_grammar::{Cursor, Stop};
use vh_parse_syntax::syntax_laws;

// The source that the tokens are, unless a construct is left out in it or they go on behind it.
fn read(alloc: Global, tokens: &[Token]) -> Result<Source, Stop>
    ensures { Accepts source_tree (source_answer (tokens_seen tokens.now)) result }
{
    let (modules, rest) = modules(alloc, MOST_LEVELS as usize, Cursor::new(tokens))?;
    let [] = rest.tokens else {
        return Err(rest.lost());
    };
    if rest.omission > 0 {
        return Err(Stop::LeftOut(rest.omission));
    }
    Ok(Source { modules })
}

/// The source that the tokens are, or why they are none, and where. `after` is the place after the last
/// byte. It takes time and memory in the number of tokens, and stack in the levels alone.
pub fn parse(alloc: Global, tokens: &[Token], after: Place) -> Result<Source, ParseFault>
    // The answer is the table's for the tokens: a tree, or a fault and its place,
    ensures answer { let answer = source_answer (map token_seen tokens.now) in
        IsParsed tokens.now after answer result }
    // and the tokens are a source with this tree exactly by the grammar's cases.
    ensures spelled { let ts = map token_seen tokens.now in
        IfOk result (λ s. IsSource syntax_table MOST_LEVELS (source_tree s) ts) }
{
    syntax_laws();
    match read(alloc, tokens) {
        Ok(source) => Ok(source),
        Err(stop) => Err(fault_at(tokens, stop, after)),
    }
}

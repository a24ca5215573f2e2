//! Numbers of delays, and edges, where they stand.

ghost use Rattle.vh_parse_grammar.specs.Part.{act};
ghost use Rattle.vh_ast.specs.Statements.{delay_number};
ghost use Rattle.vh_ast.specs.Views.{delay_value_tree};
ghost use Rattle.vh_parse_syntax.specs.Parts;
ghost use Rattle.vh_parse_syntax.specs.Parts.{a_number};
ghost use Rattle.vh_parse_syntax.specs.Statements.{edge_rows};
ghost use Rattle.vh_parse_expr.specs.Views.{Reads};

use vh_ast::{DelayValue, Edge};
use vh_base::Place;
use vh_lex::Kind;
use vh_parse_expr::{At, Read, placed_row};
use vh_parse_syntax::tables::EDGE;

// `NUMBER`, as that of a delay.
pub(crate) fn delay_number<'t>(at: At<'t>) -> Read<'t, DelayValue>
    ensures { Reads delay_value_tree 0 (act (λ n. delay_number n.1) a_number) at.entry result }
{
    let [first, rest @ ..] = at.tokens else {
        return Err(at.lost());
    };
    match &first.kind {
        Kind::Number(number) => Ok((DelayValue::Number(*number.get()), at.before(rest))),
        _ => Err(at.lost()),
    }
}

// `"posedge" | "negedge"`
pub(crate) fn edge<'t>(at: At<'t>) -> Read<'t, (Place, Edge)>
    ensures { Reads (λ w. w) 0 (Parts.placed_row edge_rows) at.entry result }
{
    placed_row(&EDGE, at)
}

//! Lexemes that each mean something, where they stand.

ghost use Rattle.vh_parse_syntax.specs.Parts;
ghost use Rattle.vh_parse_syntax.specs.Statements.{assign_rows, case_rows, loop_rows, force_rows, release_rows};
ghost use Rattle.vh_parse_expr.specs.Views.{Reads};

use vh_ast::{AssignWord, CaseWord, ForceWord, LoopWord, ReleaseWord};
use vh_base::Place;
use vh_parse_expr::{At, Read, placed_row};
use vh_parse_syntax::Word;
use vh_parse_syntax::tables::{ASSIGN, CASE, FORCE, LOOP, RELEASE};

// `"=" | "<="`
pub(crate) fn assign_word<'t>(at: At<'t>) -> Read<'t, AssignWord>
    ensures { Reads (λ w. w) 0 (Parts.row_in assign_rows) at.entry result }
{
    let [first, rest @ ..] = at.tokens else {
        return Err(at.lost());
    };
    match (Word { token: first }).row(&ASSIGN) {
        Some(word) => Ok((word, at.before(rest))),
        None => Err(at.lost()),
    }
}

// `"case" | "casez" | "casex"`
pub(crate) fn case_word<'t>(at: At<'t>) -> Read<'t, (Place, CaseWord)>
    ensures { Reads (λ w. w) 0 (Parts.placed_row case_rows) at.entry result }
{
    placed_row(&CASE, at)
}

// `"while" | "repeat"`
pub(crate) fn loop_word<'t>(at: At<'t>) -> Read<'t, (Place, LoopWord)>
    ensures { Reads (λ w. w) 0 (Parts.placed_row loop_rows) at.entry result }
{
    placed_row(&LOOP, at)
}

// `"force" | "assign"`
pub(crate) fn force_word<'t>(at: At<'t>) -> Read<'t, (Place, ForceWord)>
    ensures { Reads (λ w. w) 0 (Parts.placed_row force_rows) at.entry result }
{
    placed_row(&FORCE, at)
}

// `"release" | "deassign"`
pub(crate) fn release_word<'t>(at: At<'t>) -> Read<'t, (Place, ReleaseWord)>
    ensures { Reads (λ w. w) 0 (Parts.placed_row release_rows) at.entry result }
{
    placed_row(&RELEASE, at)
}

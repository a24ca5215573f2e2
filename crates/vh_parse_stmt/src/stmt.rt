//! Statements: a function for each production in which statements stand. They call each other, a level
//! deeper where the grammar nests them; blocks and cases are loops.

ghost use Rattle.std.specs.Prelude.{◌≡◌, Bool, Option, option_map};
ghost use Rattle.vh_parse_grammar.specs.Reading.{next_is};
ghost use Rattle.vh_parse_grammar.specs.Omissions.{omission_at, joined_noted};
ghost use Rattle.vh_parse_grammar.specs.Says.{Says};
ghost use Rattle.vh_ast.specs.Views.{stmt_tree, citem_tree};
ghost use Rattle.vh_parse_syntax.specs.Tokens.{token_seen};
ghost use Rattle.vh_parse_syntax.specs.Statements as parts;
ghost use Rattle.vh_parse_syntax.specs.Statements.{shows_timing, inner_stmt, statement};
ghost use Rattle.vh_parse_expr.specs.Views.{Reads, read_from, tokens_seen};
ghost use Rattle.vh_parse_stmt.specs.Pieces.{control, colon_part, block_part, case_part, all_citems, more_citems, values_item_part};
ghost use Rattle.vh_parse_stmt.specs.Views.{stmts_seen, citems_seen};

use crate::head::{boxed_event, case_values, turns_in_parens, written_naming};
use crate::made;
use crate::rows::{case_word, loop_word};
use crate::simple::{by_brace, by_name, empty, last_branches};
use sqlite_items::{Boxed, Items};
use std::alloc::Global;
use vh_ast::{BlockWord, Citem, Stmt};
use vh_parse_decl::{boxed_delay, in_parens};
use vh_parse_expr::{At, Read, lexeme, then_lexeme};
use vh_parse_syntax::{Class, Group, Lexeme, Rows, Start};

// The cursor, where a statement may be next that is left out in a function.
fn no_timing<'t>(inside: bool, at: At<'t>) -> At<'t>
    ensures tokens { result.tokens.now ≡ at.entry.tokens.now }
    ensures omission { let seen = tokens_seen at.entry.tokens.now in
        result.omission ≡ omission_at seen (next_is (shows_timing inside) seen) at.entry.omission }
{
    at.noting(at.tokens, inside && at.next_is(Class::Among(Group::Timing)))
}

/// A statement inside another one, or in an item: a level deeper, with so many levels left for it and
/// what stands in it. `inside` says that it stands in a function. It takes stack in the levels, and not
/// in the number of tokens.
#[cycle(statement)]
pub fn inner_statement<'t>(
    alloc: Global,
    depth: usize,
    inside: bool,
    at: At<'t>,
) -> Read<'t, Boxed<Stmt>>
    ensures { Reads stmt_tree depth (inner_stmt inside) at.entry result }
{
    let at = no_timing(inside, at);
    if depth == 0 {
        return Err(at.past());
    }
    statement(alloc, depth - 1, inside, at)
}

// `delay stmt`
#[cycle(statement)]
#[tactic(auto, unfolding(vh_parse_syntax::specs::Statements::delay_stmt))]
fn delay_stmt<'t>(alloc: Global, depth: usize, inside: bool, at: At<'t>) -> Read<'t, Boxed<Stmt>>
    ensures { Reads stmt_tree depth (parts.delay_stmt inside) at.entry result }
{
    let (delay, more) = boxed_delay(alloc, depth, at)?;
    let (body, rest) = inner_statement(alloc, depth, inside, more)?;
    Ok((made::delayed(alloc, delay, body)?, rest))
}

// `"@" .. stmt`
#[cycle(statement)]
#[tactic(auto, unfolding(vh_parse_syntax::specs::Statements::event_stmt))]
fn event_stmt<'t>(alloc: Global, depth: usize, inside: bool, at: At<'t>) -> Read<'t, Boxed<Stmt>>
    ensures { Reads stmt_tree depth (parts.event_stmt inside) at.entry result }
{
    let (place, more) = lexeme(Lexeme::At, at)?;
    let (event, more) = boxed_event(alloc, depth, more)?;
    let (body, rest) = inner_statement(alloc, depth, inside, more)?;
    Ok((made::awaited(alloc, place, event, body)?, rest))
}

// `"wait" "(" expr ")" stmt`
#[cycle(statement)]
#[tactic(auto, unfolding(vh_parse_syntax::specs::Statements::wait_stmt))]
fn wait_stmt<'t>(alloc: Global, depth: usize, inside: bool, at: At<'t>) -> Read<'t, Boxed<Stmt>>
    ensures { Reads stmt_tree depth (parts.wait_stmt inside) at.entry result }
{
    let (place, more) = lexeme(Lexeme::Wait, at)?;
    let (test, more) = in_parens(alloc, depth, false, more)?;
    let (body, rest) = inner_statement(alloc, depth, inside, more)?;
    Ok((made::waited(alloc, place, test, body)?, rest))
}

// `[ "else" stmt ]`
#[cycle(statement)]
#[tactic(auto, unfolding(vh_parse_syntax::specs::Statements::otherwise))]
fn otherwise<'t>(
    alloc: Global,
    depth: usize,
    inside: bool,
    at: At<'t>,
) -> Read<'t, Option<Boxed<Stmt>>>
    ensures { Reads (option_map stmt_tree) depth (parts.otherwise inside) at.entry result }
{
    if !at.next_is(Class::Is(Lexeme::Else)) {
        return Ok((None, at));
    }
    let next = at.take(Class::Is(Lexeme::Else))?;
    let (body, rest) = inner_statement(alloc, depth, inside, next)?;
    Ok((Some(body), rest))
}

// `"if" "(" expr ")" stmt [ "else" stmt ]`
#[cycle(statement)]
#[tactic(auto, unfolding(vh_parse_syntax::specs::Statements::if_stmt))]
fn if_stmt<'t>(alloc: Global, depth: usize, inside: bool, at: At<'t>) -> Read<'t, Boxed<Stmt>>
    ensures { Reads stmt_tree depth (parts.if_stmt inside) at.entry result }
{
    let (place, more) = lexeme(Lexeme::If, at)?;
    let (test, more) = in_parens(alloc, depth, true, more)?;
    let (holds, more) = inner_statement(alloc, depth, inside, more)?;
    let (fails, rest) = otherwise(alloc, depth, inside, more)?;
    Ok((made::chosen(alloc, place, test, holds, fails)?, rest))
}

// `[ ":" ]`
fn written_colon<'t>(at: At<'t>) -> Read<'t, Option<()>>
    ensures { Reads (λ c. c) 0 colon_part at.entry result }
{
    if !at.next_is(Class::Is(Lexeme::Colon)) {
        return Ok((None, at));
    }
    Ok((Some(()), at.take(Class::Is(Lexeme::Colon))?))
}

// `"default" [ ":" ] stmt`
#[cycle(statement)]
#[tactic(auto, unfolding(vh_parse_syntax::specs::Statements::default_item))]
fn default_item<'t>(
    alloc: Global,
    depth: usize,
    inside: bool,
    at: At<'t>,
) -> Read<'t, Boxed<Citem<Stmt>>>
    ensures { Reads citem_tree depth (parts.default_item inside) at.entry result }
{
    let (place, more) = lexeme(Lexeme::Default, at)?;
    let (_, more) = written_colon(more)?;
    let (body, rest) = inner_statement(alloc, depth, inside, more)?;
    Ok((made::default_item(alloc, place, body)?, rest))
}

// `expr { "," expr } ":" stmt`, as it is held: the values in one list.
#[cycle(statement)]
fn listed_item<'t>(
    alloc: Global,
    depth: usize,
    inside: bool,
    at: At<'t>,
) -> Read<'t, Boxed<Citem<Stmt>>>
    ensures { Reads citem_tree depth (values_item_part inside) at.entry result }
{
    let (values, colon) = case_values(alloc, depth, at)?;
    let (values, more) = then_lexeme(values, Lexeme::Colon, colon)?;
    let (body, rest) = inner_statement(alloc, depth, inside, more)?;
    Ok((made::values_item(alloc, values, body)?, rest))
}

// `expr { "," expr } ":" stmt`
#[cycle(statement)]
fn values_item<'t>(
    alloc: Global,
    depth: usize,
    inside: bool,
    at: At<'t>,
) -> Read<'t, Boxed<Citem<Stmt>>>
    ensures { Reads citem_tree depth (parts.values_item inside) at.entry result }
{
    listed_item(alloc, depth, inside, at)
}

// `citem`
#[cycle(statement)]
#[tactic(auto, unfolding(vh_parse_syntax::specs::Statements::citem))]
fn citem<'t>(alloc: Global, depth: usize, inside: bool, at: At<'t>) -> Read<'t, Boxed<Citem<Stmt>>>
    ensures { Reads citem_tree depth (parts.citem inside) at.entry result }
{
    if at.next_is(Class::Is(Lexeme::Default)) {
        return default_item(alloc, depth, inside, at);
    }
    values_item(alloc, depth, inside, at)
}

// `citem { citem }`
#[cycle(statement)]
fn citems<'t>(alloc: Global, depth: usize, inside: bool, at: At<'t>) -> Read<'t, Items<Citem<Stmt>>>
    ensures { Reads citems_seen depth (all_citems inside) at.entry result }
{
    let (first, more) = citem(alloc, depth, inside, at)?;
    let mut all = Items::new(alloc);
    made::with_item(&mut all, first)?;
    let mut rest = more;
    'all: while rest.next_is(Class::Begins(Start::Citem)) {
        let (next, end) = citem(alloc, depth, inside, rest)?;
        made::with_item(&mut all, next)?;
        rest = end;
    }
    Ok((all, rest))
}

// A case, as it is held: its statements in one list.
#[cycle(statement)]
fn listed_case<'t>(alloc: Global, depth: usize, inside: bool, at: At<'t>) -> Read<'t, Boxed<Stmt>>
    ensures { Reads stmt_tree depth (case_part inside) at.entry result }
{
    let ((place, word), more) = case_word(at)?;
    let (value, more) = in_parens(alloc, depth, true, more)?;
    let (all, more) = citems(alloc, depth, inside, more)?;
    let (all, rest) = then_lexeme(all, Lexeme::Endcase, more)?;
    Ok((made::case(alloc, place, word, value, all)?, rest))
}

// `( "case" | "casez" | "casex" ) "(" expr ")" citem { citem } "endcase"`
#[cycle(statement)]
fn case_stmt<'t>(alloc: Global, depth: usize, inside: bool, at: At<'t>) -> Read<'t, Boxed<Stmt>>
    ensures { Reads stmt_tree depth (parts.case_stmt inside) at.entry result }
{
    listed_case(alloc, depth, inside, at)
}

// `"for" "(" lv "=" expr ";" expr ";" lv "=" expr ")" stmt`
#[cycle(statement)]
#[tactic(auto, unfolding(vh_parse_syntax::specs::Statements::for_stmt))]
fn for_stmt<'t>(alloc: Global, depth: usize, inside: bool, at: At<'t>) -> Read<'t, Boxed<Stmt>>
    ensures { Reads stmt_tree depth (parts.for_stmt inside) at.entry result }
{
    let (place, more) = lexeme(Lexeme::For, at)?;
    let (head, more) = turns_in_parens(alloc, depth, more)?;
    let (body, rest) = inner_statement(alloc, depth, inside, more)?;
    Ok((made::for_loop(alloc, place, head, body)?, rest))
}

// `( "while" | "repeat" ) "(" expr ")" stmt`
#[cycle(statement)]
#[tactic(auto, unfolding(vh_parse_syntax::specs::Statements::loop_stmt))]
fn loop_stmt<'t>(alloc: Global, depth: usize, inside: bool, at: At<'t>) -> Read<'t, Boxed<Stmt>>
    ensures { Reads stmt_tree depth (parts.loop_stmt inside) at.entry result }
{
    let ((place, word), more) = loop_word(at)?;
    let (test, more) = in_parens(alloc, depth, true, more)?;
    let (body, rest) = inner_statement(alloc, depth, inside, more)?;
    Ok((made::looped(alloc, place, word, test, body)?, rest))
}

// `"forever" stmt`
#[cycle(statement)]
#[tactic(auto, unfolding(vh_parse_syntax::specs::Statements::forever_stmt))]
fn forever_stmt<'t>(alloc: Global, depth: usize, inside: bool, at: At<'t>) -> Read<'t, Boxed<Stmt>>
    ensures { Reads stmt_tree depth (parts.forever_stmt inside) at.entry result }
{
    let (place, more) = lexeme(Lexeme::Forever, at)?;
    let (body, rest) = inner_statement(alloc, depth, inside, more)?;
    Ok((made::forever(alloc, place, body)?, rest))
}

// `{ stmt }`
#[cycle(statement)]
#[tactic(auto, unfolding(vh_parse_syntax::specs::Statements::stmts))]
fn stmts<'t>(alloc: Global, depth: usize, inside: bool, at: At<'t>) -> Read<'t, Items<Stmt>>
    ensures { Reads stmts_seen depth (parts.stmts inside) at.entry result }
{
    let mut all = Items::new(alloc);
    let mut rest = at;
    'all: while rest.next_is(Class::Begins(Start::Statement)) {
        let (next, end) = inner_statement(alloc, depth, inside, rest)?;
        made::with_stmt(&mut all, next)?;
        rest = end;
    }
    Ok((all, rest))
}

// `"begin" .. "end"` or `"fork" .. "join"`, by the words around it.
#[cycle(statement)]
fn block<'t>(
    alloc: Global,
    depth: usize,
    inside: bool,
    word: BlockWord,
    words: (Lexeme, Lexeme),
    at: At<'t>,
) -> Read<'t, Boxed<Stmt>>
    ensures { Reads stmt_tree depth (block_part word words inside) at.entry result }
{
    let (place, more) = lexeme(words.0, at)?;
    let (naming, more) = written_naming(alloc, depth, more)?;
    let (all, more) = stmts(alloc, depth, inside, more)?;
    let (all, rest) = then_lexeme(all, words.1, more)?;
    Ok((made::block(alloc, word, place, naming, all)?, rest))
}

// The statements that begin with a word behind which one stands, or none.
#[cycle(statement)]
#[tactic(auto, unfolding(vh_parse_syntax::specs::Statements::begin_stmt, vh_parse_syntax::specs::Statements::fork_stmt))]
fn control<'t>(alloc: Global, depth: usize, inside: bool, at: At<'t>) -> Read<'t, Boxed<Stmt>>
    ensures { Reads stmt_tree depth (control inside) at.entry result }
{
    if at.next_is(Class::Is(Lexeme::For)) {
        return for_stmt(alloc, depth, inside, at);
    }
    if at.next_is(Class::Row(Rows::Loop)) {
        return loop_stmt(alloc, depth, inside, at);
    }
    if at.next_is(Class::Is(Lexeme::Forever)) {
        return forever_stmt(alloc, depth, inside, at);
    }
    if at.next_is(Class::Is(Lexeme::Begin)) {
        let words = (Lexeme::Begin, Lexeme::End);
        return block(alloc, depth, inside, BlockWord::Begin, words, at);
    }
    if at.next_is(Class::Is(Lexeme::Fork)) {
        let words = (Lexeme::Fork, Lexeme::Join);
        return block(alloc, depth, inside, BlockWord::Fork, words, at);
    }
    last_branches(alloc, depth, at)
}

// `stmt`
#[cycle(statement)]
#[tactic(auto, unfolding(vh_parse_syntax::specs::Statements::statement))]
fn statement<'t>(alloc: Global, depth: usize, inside: bool, at: At<'t>) -> Read<'t, Boxed<Stmt>>
    ensures { Reads stmt_tree depth (statement inside) at.entry result }
{
    if at.next_is(Class::Is(Lexeme::Semicolon)) {
        return empty(alloc, depth, at);
    }
    if at.next_is(Class::Name) {
        return by_name(alloc, depth, inside, at);
    }
    if at.next_is(Class::Is(Lexeme::LeftBrace)) {
        return by_brace(alloc, depth, inside, at);
    }
    if at.next_is(Class::Is(Lexeme::Hash)) {
        return delay_stmt(alloc, depth, inside, at);
    }
    if at.next_is(Class::Is(Lexeme::At)) {
        return event_stmt(alloc, depth, inside, at);
    }
    if at.next_is(Class::Is(Lexeme::Wait)) {
        return wait_stmt(alloc, depth, inside, at);
    }
    if at.next_is(Class::Is(Lexeme::If)) {
        return if_stmt(alloc, depth, inside, at);
    }
    if at.next_is(Class::Row(Rows::Case)) {
        return case_stmt(alloc, depth, inside, at);
    }
    control(alloc, depth, inside, at)
}

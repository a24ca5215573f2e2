//! Gates, and instances of modules with their connections.

ghost use Rattle.std.specs.Prelude.{◌≡◌, Bool, Option, option_map, map};
ghost use Rattle.vh_parse_grammar.specs.Part.{act, opt, after};
ghost use Rattle.vh_ast.specs.Items as trees;
ghost use Rattle.vh_ast.specs.Views.{expr_tree, gate_tree, conn_tree, inst_tree};
ghost use Rattle.vh_parse_syntax.specs.declared.lexeme.Lexeme.TheVariants as lexemes;
ghost use Rattle.vh_parse_syntax.specs.Tokens.{is};
ghost use Rattle.vh_parse_syntax.specs.Parts.{the, in_parens};
ghost use Rattle.vh_parse_syntax.specs.Statements.{all_of};
ghost use Rattle.vh_parse_syntax.specs.Items as parts;
ghost use Rattle.vh_parse_syntax.specs.Items.{begins_conns};
ghost use Rattle.vh_parse_expr.specs.Views.{Reads, exprs_seen};
ghost use Rattle.vh_parse_parts.specs.Pieces.{bare_gate, named_gate, written_conns, overrides};
ghost use Rattle.vh_parse_parts.specs.Views.{conns_seen};
ghost use Rattle.vh_parse_parts.specs.Conditions.{gate_advances, conn_advances, inst_advances};

use sqlite_items::Items;
use std::alloc::Global;
use vh_ast::{Conn, Conns, Expr, Gate, Inst};
use vh_parse_decl::{Exprs, Listed, list, list_in_parens};
use vh_parse_expr::{At, Read, expression, id, lexeme, then_lexeme};
use vh_parse_syntax::{Class, Lexeme, Start};

// `ID "(" expr { "," expr } ")"`
fn named_gate<'t>(alloc: Global, depth: usize, at: At<'t>) -> Read<'t, Gate>
    ensures { Reads gate_tree depth named_gate at.entry result }
{
    let (id, more) = id(at)?;
    let (terminals, rest) = list_in_parens(alloc, depth, more)?;
    let place = id.place;
    let id = Some(id);
    Ok((
        Gate {
            place,
            id,
            terminals,
        },
        rest,
    ))
}

// `"(" expr { "," expr } ")"`
fn bare_gate<'t>(alloc: Global, depth: usize, at: At<'t>) -> Read<'t, Gate>
    ensures { Reads gate_tree depth bare_gate at.entry result }
{
    let (place, opened) = lexeme(Lexeme::LeftParen, at)?;
    let (terminals, closing) = list::<Exprs>(alloc, depth, true, opened)?;
    let (terminals, rest) = then_lexeme(terminals, Lexeme::RightParen, closing)?;
    let id = None;
    Ok((
        Gate {
            place,
            id,
            terminals,
        },
        rest,
    ))
}

// `gate`
#[tactic(auto, unfolding(vh_parse_syntax::specs::Items::gate))]
fn gate<'t>(alloc: Global, depth: usize, at: At<'t>) -> Read<'t, Gate>
    ensures { Reads gate_tree depth parts.gate at.entry result }
{
    if at.next_is(Class::Name) {
        return named_gate(alloc, depth, at);
    }
    bare_gate(alloc, depth, at)
}

// Gates.
pub(crate) struct Gates;

impl Listed for Gates {
    type Item = Gate;

    ghost Tree = { trees.GateTree };

    ghost view = { gate_tree };

    ghost part = { λ form. parts.gate };

    ghost advances = { λ form. gate_advances };

    fn read<'t>(alloc: Global, depth: usize, _form: bool, at: At<'t>) -> Read<'t, Gate> {
        gate(alloc, depth, at)
    }
}

// `[ expr ]`
fn maybe_expr<'t>(alloc: Global, depth: usize, at: At<'t>) -> Read<'t, Option<Expr>>
    ensures { Reads (option_map expr_tree) depth parts.maybe_expr at.entry result }
{
    if !at.next_is(Class::Begins(Start::Expression)) {
        return Ok((None, at));
    }
    let (expr, rest) = expression(alloc, depth, true, at)?;
    Ok((Some(expr), rest))
}

// `"(" [ expr ] ")"`
fn maybe_in_parens<'t>(alloc: Global, depth: usize, at: At<'t>) -> Read<'t, Option<Expr>>
    ensures { Reads (option_map expr_tree) depth (in_parens parts.maybe_expr) at.entry result }
{
    let opened = at.take(Class::Is(Lexeme::LeftParen))?;
    let (expr, closing) = maybe_expr(alloc, depth, opened)?;
    let (expr, rest) = then_lexeme(expr, Lexeme::RightParen, closing)?;
    Ok((expr, rest))
}

// `"." ID "(" [ expr ] ")"`
#[tactic(auto, unfolding(vh_parse_syntax::specs::Items::conn_by_name))]
fn named_conn<'t>(alloc: Global, depth: usize, at: At<'t>) -> Read<'t, Conn>
    ensures { Reads conn_tree depth parts.conn_by_name at.entry result }
{
    let (place, more) = lexeme(Lexeme::Dot, at)?;
    let (id, more) = id(more)?;
    let (expr, rest) = maybe_in_parens(alloc, depth, more)?;
    Ok((Conn::Named { place, id, expr }, rest))
}

// `conn`
#[tactic(auto, unfolding(vh_parse_syntax::specs::Items::conn))]
fn conn<'t>(alloc: Global, depth: usize, at: At<'t>) -> Read<'t, Conn>
    ensures { Reads conn_tree depth parts.conn at.entry result }
{
    if at.next_is(Class::Is(Lexeme::Dot)) {
        return named_conn(alloc, depth, at);
    }
    let (expr, rest) = maybe_expr(alloc, depth, at)?;
    Ok((Conn::Ordered(expr), rest))
}

// Connections.
struct Connections;

impl Listed for Connections {
    type Item = Conn;

    ghost Tree = { trees.ConnTree };

    ghost view = { conn_tree };

    ghost part = { λ form. parts.conn };

    ghost advances = { λ form. conn_advances };

    fn read<'t>(alloc: Global, depth: usize, _form: bool, at: At<'t>) -> Read<'t, Conn> {
        conn(alloc, depth, at)
    }
}

// `conns`
#[tactic(auto, unfolding(vh_parse_syntax::specs::Items::conns))]
fn conns<'t>(alloc: Global, depth: usize, at: At<'t>) -> Read<'t, Conns>
    ensures { Reads conns_seen depth parts.conns at.entry result }
{
    list::<Connections>(alloc, depth, true, at)
}

// `[ conns ]`: nothing is no `conns`.
fn written_conns<'t>(alloc: Global, depth: usize, at: At<'t>) -> Read<'t, Conns>
    ensures { Reads conns_seen depth written_conns at.entry result }
{
    if !at.next_is(Class::Begins(Start::Conns)) {
        return Ok((Items::new(alloc), at));
    }
    conns(alloc, depth, at)
}

// `"(" [ conns ] ")"`
fn conns_in_parens<'t>(alloc: Global, depth: usize, at: At<'t>) -> Read<'t, Conns>
    ensures { Reads conns_seen depth (in_parens written_conns) at.entry result }
{
    let opened = at.take(Class::Is(Lexeme::LeftParen))?;
    let (all, closing) = written_conns(alloc, depth, opened)?;
    let (all, rest) = then_lexeme(all, Lexeme::RightParen, closing)?;
    Ok((all, rest))
}

// `inst`
#[tactic(auto, unfolding(vh_parse_syntax::specs::Items::inst))]
fn inst<'t>(alloc: Global, depth: usize, at: At<'t>) -> Read<'t, Inst>
    ensures { Reads inst_tree depth parts.inst at.entry result }
{
    let (id, more) = id(at)?;
    let (conns, rest) = conns_in_parens(alloc, depth, more)?;
    Ok((Inst { id, conns }, rest))
}

// Instances.
pub(crate) struct Instances;

impl Listed for Instances {
    type Item = Inst;

    ghost Tree = { trees.InstTree };

    ghost view = { inst_tree };

    ghost part = { λ form. parts.inst };

    ghost advances = { λ form. inst_advances };

    fn read<'t>(alloc: Global, depth: usize, _form: bool, at: At<'t>) -> Read<'t, Inst> {
        inst(alloc, depth, at)
    }
}

// `"#" "(" conns ")"`
fn overrides<'t>(alloc: Global, depth: usize, at: At<'t>) -> Read<'t, Conns>
    ensures { let part = after (the (lexemes.Hash)) (in_parens parts.conns) in
        Reads conns_seen depth part at.entry result }
{
    let next = at.take(Class::Is(Lexeme::Hash))?;
    let opened = next.take(Class::Is(Lexeme::LeftParen))?;
    let (all, closing) = conns(alloc, depth, opened)?;
    let (all, rest) = then_lexeme(all, Lexeme::RightParen, closing)?;
    Ok((all, rest))
}

// `[ "#" "(" conns ")" ]`
pub(crate) fn written_overrides<'t>(
    alloc: Global,
    depth: usize,
    at: At<'t>,
) -> Read<'t, Option<Conns>>
    ensures { Reads (option_map conns_seen) depth overrides at.entry result }
{
    if !at.next_is(Class::Is(Lexeme::Hash)) {
        return Ok((None, at));
    }
    let (all, rest) = overrides(alloc, depth, at)?;
    Ok((Some(all), rest))
}

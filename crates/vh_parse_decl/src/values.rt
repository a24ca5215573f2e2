//! Expressions behind a sign and in parentheses, and targets with their values.

ghost use Rattle.std.specs.Prelude.{◌≡◌, Bool, true, Option, option_map, IfOk};
ghost use Rattle.vh_parse_grammar.specs.Part.{after};
ghost use Rattle.vh_parse_grammar.specs.Says.{Says};
ghost use Rattle.vh_ast.specs.Expressions as trees;
ghost use Rattle.vh_ast.specs.Views.{expr_tree, set_tree};
ghost use Rattle.vh_parse_syntax.specs.Parts.{the, in_parens, comma_list, ended};
ghost use Rattle.vh_parse_syntax.specs.Expressions as parts;
ghost use Rattle.vh_parse_syntax.specs.ExpressionConditions.{expression_advances};
ghost use Rattle.vh_parse_syntax.specs.Declarations.{a_value};
ghost use Rattle.vh_parse_syntax.specs.Statements as statements;
ghost use Rattle.vh_parse_syntax.specs.Tokens.{token_seen};
ghost use Rattle.vh_parse_expr.specs.Views.{Reads, read_from, exprs_seen};

use crate::lists::{Listed, list};
use sqlite_items::{Boxed, Items};
use std::alloc::Global;
use vh_ast::{Expr, Set};
use vh_parse_expr::{At, Read, expression, target, then_lexeme};
use vh_parse_syntax::{Class, Lexeme};

/// An expression behind a sign.
pub fn behind<'t>(
    alloc: Global,
    depth: usize,
    calls: bool,
    lexeme: Lexeme,
    at: At<'t>,
) -> Read<'t, Expr>
    ensures { Reads expr_tree depth (after (the lexeme) (parts.expression calls)) at.entry result }
{
    let next = at.take(Class::Is(lexeme))?;
    expression(alloc, depth, calls, next)
}

// What was read, and an expression behind a sign. What is held is let go in this one function where
// there is no expression, whatever it is.
pub(crate) fn then_behind<'t, T: Drop>(
    alloc: Global,
    depth: usize,
    tree: T,
    lexeme: Lexeme,
    at: At<'t>,
) -> Read<'t, (T, Expr)>
    ensures tree { IfOk result (λ read. read.0.0 ≡ tree) }
    ensures expr { let part = after (the lexeme) (parts.expression true) in
        Says token_seen (λ pair. expr_tree pair.1) (read_from depth part at.entry) result }
{
    let (expr, rest) = behind(alloc, depth, true, lexeme, at)?;
    Ok(((tree, expr), rest))
}

/// `expr ";"`
pub fn ended<'t>(alloc: Global, depth: usize, at: At<'t>) -> Read<'t, Expr>
    ensures { Reads expr_tree depth (ended (parts.expression true)) at.entry result }
{
    let (expr, more) = expression(alloc, depth, true, at)?;
    let (expr, rest) = then_lexeme(expr, Lexeme::Semicolon, more)?;
    Ok((expr, rest))
}

/// `[ "=" expr ]`, in a box.
#[tactic(auto, unfolding(vh_parse_syntax::specs::Declarations::a_value))]
pub fn value<'t>(alloc: Global, depth: usize, at: At<'t>) -> Read<'t, Option<Boxed<Expr>>>
    ensures { Reads (option_map expr_tree) depth a_value at.entry result }
{
    if !at.next_is(Class::Is(Lexeme::Equal)) {
        return Ok((None, at));
    }
    let (value, rest) = behind(alloc, depth, true, Lexeme::Equal, at)?;
    Ok((Some(Boxed::new(alloc, value)?), rest))
}

/// `"(" expr ")"`, in a box.
pub fn in_parens<'t>(alloc: Global, depth: usize, calls: bool, at: At<'t>) -> Read<'t, Boxed<Expr>>
    ensures { Reads expr_tree depth (in_parens (parts.expression calls)) at.entry result }
{
    let opened = at.take(Class::Is(Lexeme::LeftParen))?;
    let (expr, closing) = expression(alloc, depth, calls, opened)?;
    let (expr, rest) = then_lexeme(expr, Lexeme::RightParen, closing)?;
    Ok((Boxed::new(alloc, expr)?, rest))
}

/// Expressions, where calls may stand or not.
pub struct Exprs;

impl Listed for Exprs {
    type Item = Expr;

    ghost Tree = { trees.ExprTree };

    ghost view = { expr_tree };

    ghost part = { parts.expression };

    ghost advances = { expression_advances };

    fn read<'t>(alloc: Global, depth: usize, form: bool, at: At<'t>) -> Read<'t, Expr> {
        expression(alloc, depth, form, at)
    }
}

/// `"(" expr { "," expr } ")"`
pub fn list_in_parens<'t>(alloc: Global, depth: usize, at: At<'t>) -> Read<'t, Items<Expr>>
    ensures { let part = in_parens (comma_list (parts.expression true)) in
        Reads exprs_seen depth part at.entry result }
{
    let opened = at.take(Class::Is(Lexeme::LeftParen))?;
    let (all, closing) = list::<Exprs>(alloc, depth, true, opened)?;
    let (all, rest) = then_lexeme(all, Lexeme::RightParen, closing)?;
    Ok((all, rest))
}

/// `lv "=" expr`
#[tactic(auto, unfolding(vh_parse_syntax::specs::Statements::set))]
pub fn set<'t>(alloc: Global, depth: usize, calls: bool, at: At<'t>) -> Read<'t, Set>
    ensures { Reads set_tree depth (statements.set calls) at.entry result }
{
    let (target, more) = target(alloc, depth, calls, at)?;
    let (value, rest) = behind(alloc, depth, calls, Lexeme::Equal, more)?;
    Ok((Set { target, value }, rest))
}

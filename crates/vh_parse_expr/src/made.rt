//! Trees that are made of their parts, and signs behind a part. A function that reads leaves to these
//! what it holds, so that little is held where it stops.

ghost use Rattle.std.specs.Prelude.{◌≡◌, ◌++◌, IfOk, MatchResult, [], ◌∷◌};
ghost use Rattle.vh_parse_grammar.specs.declared.stop.Stop.TheVariants.{Memory};
ghost use Rattle.vh_parse_grammar.specs.Says.{Says};
ghost use Rattle.vh_ast.specs.Views.{expr_tree, link_tree, name_tree};
ghost use Rattle.vh_ast.specs.Expressions as trees;
ghost use Rattle.vh_ast.specs.Expressions.{chosen, unary_at};
ghost use Rattle.vh_parse_syntax.specs.Tokens.{token_seen};
ghost use Rattle.vh_parse_syntax.specs.Expressions.{number_expr, text_expr, paren_expr, repeat_expr, system_expr, named_expr};
ghost use Rattle.vh_parse_syntax.specs.Names as names;
ghost use Rattle.vh_parse_syntax.specs.Parts.{the};
ghost use Rattle.vh_parse_expr.specs.Views.{read_from, exprs_seen, links_seen, part_tree, path_tree, stem_tree};

use crate::name::{Last, Path, Stem};
use crate::word::{At, Read};
use sqlite_items::{Boxed, Items};
use std::alloc::Global;
use vh_ast::{
    Binary, Esel, Expr, ExprForm, Id, Link, Name, Number, Part, Primary, Sel, Unary, only,
};
use vh_base::Place;
use vh_base_shared::SharedBytes;
use vh_parse_grammar::Stop;
use vh_parse_syntax::{Class, Lexeme};

/// What was read, where the sign stands behind it.
pub fn then_lexeme<'t, T: Drop>(tree: T, lexeme: Lexeme, at: At<'t>) -> Read<'t, T>
    ensures tree { IfOk result (λ read. read.0 ≡ tree) }
    ensures lexeme { Says token_seen (λ _. tt) (read_from 0 (the lexeme) at.entry) result }
{
    let rest = at.take(Class::Is(lexeme))?;
    Ok((tree, rest))
}

// The path with an index behind its last `ID`.
pub(crate) fn indexed(stem: Stem, place: Place, index: Boxed<Expr>) -> Path
    ensures { path_tree result ≡ names.with_bracket (stem_tree stem) place
        (trees.at (expr_tree index)) }
{
    let last = Last::Indexed(place, index);
    Path { stem, last }
}

// The path with a first bracket behind its last `ID`.
pub(crate) fn selected(stem: Stem, place: Place, part: Part<Expr>) -> Path
    ensures { path_tree result ≡ names.with_bracket (stem_tree stem) place (part_tree part) }
{
    let last = Last::new(place, part);
    Path { stem, last }
}

// The path with a second bracket.
pub(crate) fn reselected(
    stem: Stem,
    place: Place,
    index: Boxed<Expr>,
    second: Place,
    part: Part<Expr>,
) -> Path
    ensures { path_tree result ≡ names.with_second (stem_tree stem) place (expr_tree index) second
        (part_tree part) }
{
    let last = Esel {
        place: second,
        part,
    };
    let last = Last::Closed(Sel::Both { place, index, last });
    Path { stem, last }
}

// A list of one.
pub(crate) fn one(alloc: Global, expr: Boxed<Expr>) -> Result<Items<Expr>, Stop>
    ensures { MatchResult result (λ all. all ≡ expr ∷ []) (λ stop. stop ≡ Memory) }
{
    Ok(only(alloc, expr.into_inner())?)
}

// A string.
pub(crate) fn text(alloc: Global, place: Place, text: SharedBytes) -> Result<Boxed<Expr>, Stop>
    ensures { let made = text_expr (place, text) in
        MatchResult result (λ e. expr_tree e ≡ made) (λ stop. stop ≡ Memory) }
{
    let form = ExprForm::Primary(Primary::Text(text));
    Ok(Boxed::new(alloc, Expr { place, form })?)
}

// A number.
pub(crate) fn number(alloc: Global, place: Place, number: Number) -> Result<Boxed<Expr>, Stop>
    ensures { let made = number_expr (place, number) in
        MatchResult result (λ e. expr_tree e ≡ made) (λ stop. stop ≡ Memory) }
{
    let form = ExprForm::Primary(Primary::Number(number));
    Ok(Boxed::new(alloc, Expr { place, form })?)
}

// A name with its select.
pub(crate) fn named(alloc: Global, path: Path) -> Result<Boxed<Expr>, Stop>
    ensures { let made = named_expr (path_tree path) in
        MatchResult result (λ e. expr_tree e ≡ made) (λ stop. stop ≡ Memory) }
{
    let (name, sel) = path.into_selected(alloc)?;
    Ok(Boxed::new(alloc, Expr::named(name, sel))?)
}

// A call of a name.
pub(crate) fn called(
    alloc: Global,
    name: Name<Expr>,
    arguments: Items<Expr>,
) -> Result<Boxed<Expr>, Stop>
    ensures { let made = trees.called (name_tree name) (exprs_seen arguments) in
        MatchResult result (λ e. expr_tree e ≡ made) (λ stop. stop ≡ Memory) }
{
    let name = Boxed::new(alloc, name)?;
    Ok(Boxed::new(alloc, Expr::called(name, arguments))?)
}

// A system function with its arguments.
pub(crate) fn system(alloc: Global, id: Id, arguments: Items<Expr>) -> Result<Boxed<Expr>, Stop>
    ensures { let made = system_expr id (Some (exprs_seen arguments)) in
        MatchResult result (λ e. expr_tree e ≡ made) (λ stop. stop ≡ Memory) }
{
    let place = id.place;
    let form = ExprForm::Primary(Primary::System(Boxed::new(alloc, id)?, arguments));
    Ok(Boxed::new(alloc, Expr { place, form })?)
}

// An expression in parentheses.
pub(crate) fn paren(alloc: Global, place: Place, inner: Boxed<Expr>) -> Result<Boxed<Expr>, Stop>
    ensures { let made = paren_expr place (expr_tree inner) in
        MatchResult result (λ e. expr_tree e ≡ made) (λ stop. stop ≡ Memory) }
{
    let form = ExprForm::Primary(Primary::Paren(inner));
    Ok(Boxed::new(alloc, Expr { place, form })?)
}

// A concatenation.
pub(crate) fn concat(alloc: Global, place: Place, parts: Items<Expr>) -> Result<Boxed<Expr>, Stop>
    ensures { let made = trees.expr place (trees.concat (trees.exprs (exprs_seen parts))) in
        MatchResult result (λ e. expr_tree e ≡ made) (λ stop. stop ≡ Memory) }
{
    let form = ExprForm::Primary(Primary::Concat(parts));
    Ok(Boxed::new(alloc, Expr { place, form })?)
}

// A replication.
pub(crate) fn repeat(
    alloc: Global,
    place: Place,
    count: Boxed<Expr>,
    parts: Items<Expr>,
) -> Result<Boxed<Expr>, Stop>
    ensures { let made = repeat_expr place (expr_tree count) (exprs_seen parts) in
        MatchResult result (λ e. expr_tree e ≡ made) (λ stop. stop ≡ Memory) }
{
    let form = ExprForm::Primary(Primary::Repeat(count, parts));
    Ok(Boxed::new(alloc, Expr { place, form })?)
}

// A unary operator and its operand.
pub(crate) fn unary(
    alloc: Global,
    place: Place,
    operator: Unary,
    operand: Boxed<Expr>,
) -> Result<Boxed<Expr>, Stop>
    ensures { let made = unary_at place operator (expr_tree operand) in
        MatchResult result (λ e. expr_tree e ≡ made) (λ stop. stop ≡ Memory) }
{
    let form = ExprForm::Unary(operator, operand);
    Ok(Boxed::new(alloc, Expr { place, form })?)
}

// A binary operator, and the operand behind it.
pub(crate) fn linked(operator: Binary, operand: Boxed<Expr>) -> Link<Expr>
    ensures { link_tree result ≡ (operator, expr_tree operand) }
{
    let operand = operand.into_inner();
    Link { operator, operand }
}

// The operators so far, with one more. Most chains have one alone: its list takes room for one.
pub(crate) fn with_link(
    alloc: Global,
    all: &mut Items<Link<Expr>>,
    link: Link<Expr>,
) -> Result<(), Stop>
    ensures { MatchResult result (λ u. all.new ≡ all.old ++ link ∷ []) (λ stop. stop ≡ Memory) }
{
    if all.is_empty() {
        *all = only(alloc, link)?;
        return Ok(());
    }
    all.push(link)?;
    Ok(())
}

// An operand, and operators of one precedence with what stands behind each.
pub(crate) fn chained(
    alloc: Global,
    first: Boxed<Expr>,
    links: Items<Link<Expr>>,
) -> Result<Boxed<Expr>, Stop>
    ensures { let made = trees.chained (expr_tree first) (links_seen links) in
        MatchResult result (λ e. expr_tree e ≡ made) (λ stop. stop ≡ Memory) }
{
    if links.is_empty() {
        return Ok(first);
    }
    let place = first.get().place;
    let form = ExprForm::Chain(first, links);
    Ok(Boxed::new(alloc, Expr { place, form })?)
}

// One of two expressions, by a test.
pub(crate) fn choice(
    alloc: Global,
    test: Boxed<Expr>,
    holds: Boxed<Expr>,
    fails: Boxed<Expr>,
) -> Result<Boxed<Expr>, Stop>
    ensures { let made = chosen (expr_tree test) (expr_tree holds) (expr_tree fails) in
        MatchResult result (λ e. expr_tree e ≡ made) (λ stop. stop ≡ Memory) }
{
    let place = test.get().place;
    let form = ExprForm::Choice { test, holds, fails };
    Ok(Boxed::new(alloc, Expr { place, form })?)
}

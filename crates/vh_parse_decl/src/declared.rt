//! Types, ranges and declarations.

ghost use Rattle.std.specs.Prelude.{◌≡◌, Option, option_map, map, IfOk};
ghost use Rattle.vh_parse_grammar.specs.Part.{opt};
ghost use Rattle.vh_parse_grammar.specs.Says.{Says};
ghost use Rattle.vh_ast.specs.Declarations as trees;
ghost use Rattle.vh_ast.specs.Views.{range_tree, type_tree, var_part_tree, var_tree, init_tree, decl_tree};
ghost use Rattle.vh_parse_syntax.specs.declared.lexeme.Lexeme.TheVariants as lexemes;
ghost use Rattle.vh_parse_syntax.specs.Tokens.{is, token_seen};
ghost use Rattle.vh_parse_syntax.specs.Declarations as parts;
ghost use Rattle.vh_parse_syntax.specs.Declarations.{a_range, a_type, an_init, a_var, decl};
ghost use Rattle.vh_parse_expr.specs.Views.{Reads, read_from};
ghost use Rattle.vh_parse_decl.specs.Conditions.{var_advances, init_advances};

use crate::lists::{Listed, list};
use crate::values::{behind, then_behind, value};
use sqlite_items::{Boxed, Items};
use std::alloc::Global;
use vh_ast::{DataType, Decl, Id, Init, Range, Var, VarPart};
use vh_parse_expr::{At, Read, expression, id, lexeme, then_lexeme};
use vh_parse_syntax::{Class, Lexeme};

/// `range`
#[tactic(auto, unfolding(vh_parse_syntax::specs::Declarations::a_range))]
pub fn range<'t>(alloc: Global, depth: usize, at: At<'t>) -> Read<'t, Range>
    ensures { Reads range_tree depth a_range at.entry result }
{
    let (place, opened) = lexeme(Lexeme::LeftBracket, at)?;
    let (left, colon) = expression(alloc, depth, true, opened)?;
    let (both, closing) = then_behind(alloc, depth, left, Lexeme::Colon, colon)?;
    let ((left, right), rest) = then_lexeme(both, Lexeme::RightBracket, closing)?;
    Ok((Range { place, left, right }, rest))
}

// `[ "signed" ]`
fn signed_word<'t>(at: At<'t>) -> Read<'t, bool>
    ensures { Reads (λ s. s) 0 parts.signed_word at.entry result }
{
    if !at.next_is(Class::Is(Lexeme::Signed)) {
        return Ok((false, at));
    }
    Ok((true, at.take(Class::Is(Lexeme::Signed))?))
}

// `[ range ]`, in a box.
fn written_range<'t>(alloc: Global, depth: usize, at: At<'t>) -> Read<'t, Option<Boxed<Range>>>
    ensures { let part = opt (is lexemes.LeftBracket) a_range in
        Reads (option_map range_tree) depth part at.entry result }
{
    if !at.next_is(Class::Is(Lexeme::LeftBracket)) {
        return Ok((None, at));
    }
    let (range, rest) = range(alloc, depth, at)?;
    Ok((Some(Boxed::new(alloc, range)?), rest))
}

/// `type`
#[tactic(auto, unfolding(vh_parse_syntax::specs::Declarations::a_type))]
pub fn data_type<'t>(alloc: Global, depth: usize, at: At<'t>) -> Read<'t, DataType>
    ensures { Reads type_tree depth a_type at.entry result }
{
    let (signed, more) = signed_word(at)?;
    let (range, rest) = written_range(alloc, depth, more)?;
    Ok((DataType { signed, range }, rest))
}

// What was read, where a range may be next that is left out.
fn no_range<'t, T: Drop>(tree: T, barred: bool, at: At<'t>) -> Read<'t, T>
    ensures tree { IfOk result (λ read. read.0 ≡ tree) }
    ensures noting { Says token_seen (λ _. tt) (read_from 0 (parts.no_range barred) at.entry)
        result }
{
    let shown = barred && at.next_is(Class::Is(Lexeme::LeftBracket));
    Ok((tree, at.noting(at.tokens, shown)))
}

/// `ID`, behind which a range is left out where it is so.
pub fn bare_id<'t>(barred: bool, at: At<'t>) -> Read<'t, Id>
    ensures { Reads (λ i. i) 0 (parts.bare_id barred) at.entry result }
{
    let (id, more) = id(at)?;
    let (id, rest) = no_range(id, barred, more)?;
    Ok((id, rest))
}

// `[ range | "=" expr ]`, behind the name of a register.
#[tactic(auto, unfolding(vh_parse_syntax::specs::Declarations::var_part))]
fn var_part<'t>(alloc: Global, depth: usize, at: At<'t>) -> Read<'t, VarPart>
    ensures { Reads var_part_tree depth parts.var_part at.entry result }
{
    if at.next_is(Class::Is(Lexeme::LeftBracket)) {
        let (range, more) = range(alloc, depth, at)?;
        let (range, rest) = no_range(range, true, more)?;
        return Ok((VarPart::Range(Boxed::new(alloc, range)?), rest));
    }
    if at.next_is(Class::Is(Lexeme::Equal)) {
        let (value, rest) = behind(alloc, depth, true, Lexeme::Equal, at)?;
        return Ok((VarPart::Value(Boxed::new(alloc, value)?), rest));
    }
    Ok((VarPart::Plain, at))
}

// `var`
#[tactic(auto, unfolding(vh_parse_syntax::specs::Declarations::a_var))]
fn var<'t>(alloc: Global, depth: usize, at: At<'t>) -> Read<'t, Var>
    ensures { Reads var_tree depth a_var at.entry result }
{
    let (id, more) = id(at)?;
    let (part, rest) = var_part(alloc, depth, more)?;
    Ok((Var { id, part }, rest))
}

// `init`
#[tactic(auto, unfolding(vh_parse_syntax::specs::Declarations::an_init))]
fn init<'t>(alloc: Global, depth: usize, at: At<'t>) -> Read<'t, Init>
    ensures { Reads init_tree depth an_init at.entry result }
{
    let (id, more) = bare_id(true, at)?;
    let (value, rest) = value(alloc, depth, more)?;
    Ok((Init { id, value }, rest))
}

// Registers.
struct Vars;

impl Listed for Vars {
    type Item = Var;

    ghost Tree = { trees.VarTree };

    ghost view = { var_tree };

    ghost part = { λ form. a_var };

    ghost advances = { λ form. var_advances };

    fn read<'t>(alloc: Global, depth: usize, _form: bool, at: At<'t>) -> Read<'t, Var> {
        var(alloc, depth, at)
    }
}

// Integer and time variables.
struct Inits;

impl Listed for Inits {
    type Item = Init;

    ghost Tree = { trees.InitTree };

    ghost view = { init_tree };

    ghost part = { λ form. an_init };

    ghost advances = { λ form. init_advances };

    fn read<'t>(alloc: Global, depth: usize, _form: bool, at: At<'t>) -> Read<'t, Init> {
        init(alloc, depth, at)
    }
}

// `"reg" type var { "," var } ";"`
#[tactic(auto, unfolding(vh_parse_syntax::specs::Declarations::reg_decl))]
fn reg_decl<'t>(alloc: Global, depth: usize, at: At<'t>) -> Read<'t, Decl>
    ensures { Reads decl_tree depth parts.reg_decl at.entry result }
{
    let (place, more) = lexeme(Lexeme::Reg, at)?;
    let (data_type, more) = data_type(alloc, depth, more)?;
    let (vars, more) = list::<Vars>(alloc, depth, true, more)?;
    let (vars, rest) = then_lexeme(vars, Lexeme::Semicolon, more)?;
    let decl = Decl::Reg {
        place,
        data_type,
        vars,
    };
    Ok((decl, rest))
}

// `"integer" init { "," init } ";"`
#[tactic(auto, unfolding(vh_parse_syntax::specs::Declarations::integer_decl))]
fn integer_decl<'t>(alloc: Global, depth: usize, at: At<'t>) -> Read<'t, Decl>
    ensures { Reads decl_tree depth parts.integer_decl at.entry result }
{
    let (place, more) = lexeme(Lexeme::Integer, at)?;
    let (inits, more) = list::<Inits>(alloc, depth, true, more)?;
    let (inits, rest) = then_lexeme(inits, Lexeme::Semicolon, more)?;
    Ok((Decl::Integer(place, inits), rest))
}

// `"time" init { "," init } ";"`
#[tactic(auto, unfolding(vh_parse_syntax::specs::Declarations::time_decl))]
fn time_decl<'t>(alloc: Global, depth: usize, at: At<'t>) -> Read<'t, Decl>
    ensures { Reads decl_tree depth parts.time_decl at.entry result }
{
    let (place, more) = lexeme(Lexeme::Time, at)?;
    let (inits, more) = list::<Inits>(alloc, depth, true, more)?;
    let (inits, rest) = then_lexeme(inits, Lexeme::Semicolon, more)?;
    Ok((Decl::Time(place, inits), rest))
}

/// `decl`
#[tactic(auto, unfolding(vh_parse_syntax::specs::Declarations::decl))]
pub fn declaration<'t>(alloc: Global, depth: usize, at: At<'t>) -> Read<'t, Decl>
    ensures { Reads decl_tree depth decl at.entry result }
{
    if at.next_is(Class::Is(Lexeme::Reg)) {
        return reg_decl(alloc, depth, at);
    }
    if at.next_is(Class::Is(Lexeme::Integer)) {
        return integer_decl(alloc, depth, at);
    }
    time_decl(alloc, depth, at)
}

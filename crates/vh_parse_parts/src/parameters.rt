//! Names with their values, and parameters of a module's header.

ghost use Rattle.std.specs.Prelude.{Bool, true, map};
ghost use Rattle.vh_parse_grammar.specs.Part.{act, two};
ghost use Rattle.vh_ast.specs.Declarations as trees;
ghost use Rattle.vh_ast.specs.Views.{assigned_tree, par_tree};
ghost use Rattle.vh_parse_syntax.specs.Declarations as declared;
ghost use Rattle.vh_parse_syntax.specs.DeclarationConditions.{assigned_advances};
ghost use Rattle.vh_parse_syntax.specs.Items as parts;
ghost use Rattle.vh_parse_syntax.specs.Parts.{in_parens, comma_list};
ghost use Rattle.vh_parse_expr.specs.Views.{Reads};
ghost use Rattle.vh_parse_parts.specs.Pieces.{written_par};
ghost use Rattle.vh_parse_parts.specs.Conditions.{par_advances};

use crate::boxed::boxed_type;
use sqlite_items::Items;
use std::alloc::Global;
use vh_ast::{Assigned, Par};
use vh_parse_decl::{Listed, behind, list};
use vh_parse_expr::{At, Read, id, lexeme, then_lexeme};
use vh_parse_syntax::{Class, Lexeme};

/// `ID "=" expr` (IEEE 1364-2005, A.2.4)
#[tactic(auto, unfolding(vh_parse_syntax::specs::Declarations::assigned))]
pub fn assigned<'t>(alloc: Global, depth: usize, at: At<'t>) -> Read<'t, Assigned>
    ensures { Reads assigned_tree depth declared.assigned at.entry result }
{
    let (id, more) = id(at)?;
    let (value, rest) = behind(alloc, depth, true, Lexeme::Equal, more)?;
    Ok((Assigned { id, value }, rest))
}

// Names with their values.
pub(crate) struct Values;

impl Listed for Values {
    type Item = Assigned;

    ghost Tree = { trees.AssignedTree };

    ghost view = { assigned_tree };

    ghost part = { λ form. declared.assigned };

    ghost advances = { λ form. assigned_advances };

    fn read<'t>(alloc: Global, depth: usize, _form: bool, at: At<'t>) -> Read<'t, Assigned> {
        assigned(alloc, depth, at)
    }
}

// `"parameter" type ID "=" expr`
fn written_par<'t>(alloc: Global, depth: usize, at: At<'t>) -> Read<'t, Par>
    ensures { Reads par_tree depth written_par at.entry result }
{
    let (place, more) = lexeme(Lexeme::Parameter, at)?;
    let (data_type, more) = boxed_type(alloc, depth, more)?;
    let (assigned, rest) = assigned(alloc, depth, more)?;
    let par = Par {
        place,
        data_type: Some(data_type.into_inner()),
        id: assigned.id,
        value: assigned.value,
    };
    Ok((par, rest))
}

// `par`
#[tactic(auto, unfolding(vh_parse_syntax::specs::Items::par))]
fn par<'t>(alloc: Global, depth: usize, at: At<'t>) -> Read<'t, Par>
    ensures { Reads par_tree depth parts.par at.entry result }
{
    if at.next_is(Class::Is(Lexeme::Parameter)) {
        return written_par(alloc, depth, at);
    }
    let (assigned, rest) = assigned(alloc, depth, at)?;
    let par = Par {
        place: assigned.id.place,
        data_type: None,
        id: assigned.id,
        value: assigned.value,
    };
    Ok((par, rest))
}

// Parameters of a header.
struct Parameters;

impl Listed for Parameters {
    type Item = Par;

    ghost Tree = { trees.ParTree };

    ghost view = { par_tree };

    ghost part = { λ form. parts.par };

    ghost advances = { λ form. par_advances };

    fn read<'t>(alloc: Global, depth: usize, _form: bool, at: At<'t>) -> Read<'t, Par> {
        par(alloc, depth, at)
    }
}

// `"(" par { "," par } ")"`
fn pars_in_parens<'t>(alloc: Global, depth: usize, at: At<'t>) -> Read<'t, Items<Par>>
    ensures { Reads (map par_tree) depth (in_parens (comma_list parts.par)) at.entry result }
{
    let opened = at.take(Class::Is(Lexeme::LeftParen))?;
    let (all, closing) = list::<Parameters>(alloc, depth, true, opened)?;
    let (all, rest) = then_lexeme(all, Lexeme::RightParen, closing)?;
    Ok((all, rest))
}

/// `[ "#" "(" par { "," par } ")" ]` (IEEE 1364-2005, A.1.3)
#[tactic(auto, unfolding(vh_parse_syntax::specs::Items::pars))]
pub fn pars<'t>(alloc: Global, depth: usize, at: At<'t>) -> Read<'t, Items<Par>>
    ensures { Reads (map par_tree) depth parts.pars at.entry result }
{
    if !at.next_is(Class::Is(Lexeme::Hash)) {
        return Ok((Items::new(alloc), at));
    }
    let next = at.take(Class::Is(Lexeme::Hash))?;
    pars_in_parens(alloc, depth, next)
}

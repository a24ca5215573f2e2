//! Arguments of tasks and functions, and what is declared in these.

ghost use Rattle.std.specs.Prelude.{◌≡◌, [], ◌∷◌, map, MatchResult};
ghost use Rattle.vh_parse_grammar.specs.declared.stop.Stop.TheVariants.{Memory};
ghost use Rattle.vh_parse_grammar.specs.Part.{act};
ghost use Rattle.vh_ast.specs.Views.{targ_tree, local_tree};
ghost use Rattle.vh_parse_syntax.specs.Parts.{comma_list, in_parens, ended};
ghost use Rattle.vh_parse_syntax.specs.Declarations.{bare_id};
ghost use Rattle.vh_parse_syntax.specs.Items as parts;
ghost use Rattle.vh_parse_syntax.specs.Items.{targ_bare, with_targ, with_id};
ghost use Rattle.vh_parse_expr.specs.Views.{Reads};
ghost use Rattle.vh_parse_parts.specs.Pieces.{more_targs, locals};
ghost use Rattle.vh_parse_parts.specs.Views.{head_tree, argument_tree, targs_tree};

use crate::head::{TargHead, targ_head};
use crate::ids::bare_ids;
use sqlite_items::Items;
use std::alloc::Global;
use vh_ast::{Id, Ids, Local, Targ, Variable, only};
use vh_parse_decl::{bare_id, declaration};
use vh_parse_expr::{At, Read, then_lexeme};
use vh_parse_grammar::Stop;
use vh_parse_syntax::{Class, Group, Lexeme, Rows};

// An argument that may go on.
#[derive(Drop)]
pub(crate) struct Argument {
    pub head: TargHead,
    pub ids: Ids,
}

// Arguments so far: those that are whole, and the last one.
#[derive(Drop)]
pub(crate) struct Arguments {
    pub earlier: Items<Targ>,
    pub last: Argument,
}

// Whether a range is left out behind the name of such an argument.
fn targ_bare(variable: Option<Variable>) -> bool
    ensures { result ≡ targ_bare variable }
{
    match variable {
        None => false,
        Some(Variable::Reg) => false,
        Some(Variable::Integer) => true,
        Some(Variable::Time) => true,
    }
}

// `ID`, behind which a range is left out where it is so behind such an argument.
fn targ_id<'t>(variable: Option<Variable>, at: At<'t>) -> Read<'t, Id>
    ensures { Reads (λ i. i) 0 (bare_id (targ_bare variable)) at.entry result }
{
    bare_id(targ_bare(variable), at)
}

// `ID { "," ID }`, behind each of which a range is left out in the same way.
fn targ_names<'t>(
    alloc: Global,
    depth: usize,
    variable: Option<Variable>,
    at: At<'t>,
) -> Read<'t, Ids>
    ensures { let part = comma_list (bare_id (targ_bare variable)) in
        Reads (λ all. all) depth part at.entry result }
{
    bare_ids(alloc, depth, targ_bare(variable), at)
}

// Arguments of their parts.
fn targ_of(head: TargHead, ids: Ids) -> Targ
    ensures { targ_tree result ≡ parts.targ_of (head_tree head) ids }
{
    Targ {
        place: head.place,
        direction: head.direction,
        variable: head.kind,
        data_type: head.data_type.into_inner(),
        ids,
    }
}

// `targ`
#[tactic(auto, unfolding(vh_parse_syntax::specs::Items::targ, vh_parse_syntax::specs::Items::targ_ids))]
fn targ<'t>(alloc: Global, depth: usize, at: At<'t>) -> Read<'t, Targ>
    ensures { Reads targ_tree depth parts.targ at.entry result }
{
    let (head, more) = targ_head(alloc, depth, at)?;
    let (ids, rest) = targ_names(alloc, depth, head.kind, more)?;
    Ok((targ_of(head, ids), rest))
}

// A list of one identifier.
fn one_id(alloc: Global, id: Id) -> Result<Ids, Stop>
    ensures { MatchResult result (λ ids. ids ≡ id ∷ []) (λ stop. stop ≡ Memory) }
{
    Ok(only(alloc, id)?)
}

// `targ`, up to its first `ID`.
#[tactic(auto, unfolding(vh_parse_syntax::specs::Items::targ_one, vh_parse_syntax::specs::Items::targ_id))]
fn targ_one<'t>(alloc: Global, depth: usize, at: At<'t>) -> Read<'t, Argument>
    ensures { Reads argument_tree depth parts.targ_one at.entry result }
{
    let (head, more) = targ_head(alloc, depth, at)?;
    let (id, rest) = targ_id(head.kind, more)?;
    let ids = one_id(alloc, id)?;
    Ok((Argument { head, ids }, rest))
}

// A `targ` behind a comma, up to its first `ID`.
fn next_head<'t>(alloc: Global, depth: usize, all: Arguments, at: At<'t>) -> Read<'t, Arguments>
    ensures { let part = act (with_targ (targs_tree all)) parts.targ_one in
        Reads targs_tree depth part at.entry result }
{
    let (next, rest) = targ_one(alloc, depth, at)?;
    let Arguments { mut earlier, last } = all;
    earlier.push(targ_of(last.head, last.ids))?;
    Ok((
        Arguments {
            earlier,
            last: next,
        },
        rest,
    ))
}

// An `ID` behind a comma, which goes on with the `targ` before it.
fn next_name<'t>(all: Arguments, at: At<'t>) -> Read<'t, Arguments>
    ensures { let s = targs_tree all in
        let part = act (with_id s) (bare_id (targ_bare (s.last).variable)) in
        Reads targs_tree 0 part at.entry result }
{
    let (id, rest) = targ_id(all.last.head.kind, at)?;
    let mut all = all;
    all.last.ids.push(id)?;
    Ok((all, rest))
}

// `"," ( targ | ID )`
#[tactic(auto, unfolding(vh_parse_syntax::specs::Items::next_targ))]
fn next_targ<'t>(alloc: Global, depth: usize, all: Arguments, at: At<'t>) -> Read<'t, Arguments>
    ensures { Reads targs_tree depth (parts.next_targ (targs_tree all)) at.entry result }
{
    let next = at.take(Class::Is(Lexeme::Comma))?;
    if next.next_is(Class::Row(Rows::Targ)) {
        return next_head(alloc, depth, all, next);
    }
    next_name(all, next)
}

// `{ "," ( targ | ID ) }`
fn more_targs<'t>(alloc: Global, depth: usize, first: Arguments, at: At<'t>) -> Read<'t, Arguments>
    ensures { Reads targs_tree depth (more_targs (targs_tree first)) at.entry result }
{
    let mut all = first;
    let mut rest = at;
    'targs: while rest.next_is(Class::Is(Lexeme::Comma)) {
        let (longer, end) = next_targ(alloc, depth, all, rest)?;
        all = longer;
        rest = end;
    }
    Ok((all, rest))
}

// `targs`
#[tactic(auto, unfolding(vh_parse_syntax::specs::Items::targs, vh_parse_syntax::specs::Items::next_targs))]
fn targs<'t>(alloc: Global, depth: usize, at: At<'t>) -> Read<'t, Items<Targ>>
    ensures { Reads (map targ_tree) depth parts.targs at.entry result }
{
    let (last, more) = targ_one(alloc, depth, at)?;
    let earlier = Items::new(alloc);
    let (all, rest) = more_targs(alloc, depth, Arguments { earlier, last }, more)?;
    let Arguments { mut earlier, last } = all;
    earlier.push(targ_of(last.head, last.ids))?;
    Ok((earlier, rest))
}

// `"(" targs ")"`
fn targs_in_parens<'t>(alloc: Global, depth: usize, at: At<'t>) -> Read<'t, Items<Targ>>
    ensures { Reads (map targ_tree) depth (in_parens parts.targs) at.entry result }
{
    let opened = at.take(Class::Is(Lexeme::LeftParen))?;
    let (all, closing) = targs(alloc, depth, opened)?;
    let (all, rest) = then_lexeme(all, Lexeme::RightParen, closing)?;
    Ok((all, rest))
}

/// `[ "(" targs ")" ]`: nothing is no arguments (IEEE 1364-2005, A.2.6 and A.2.7).
pub fn maybe_targs<'t>(alloc: Global, depth: usize, at: At<'t>) -> Read<'t, Items<Targ>>
    ensures { Reads (map targ_tree) depth parts.maybe_targs at.entry result }
{
    if !at.next_is(Class::Is(Lexeme::LeftParen)) {
        return Ok((Items::new(alloc), at));
    }
    targs_in_parens(alloc, depth, at)
}

// `targ ";"`
fn ended_targ<'t>(alloc: Global, depth: usize, at: At<'t>) -> Read<'t, Targ>
    ensures { Reads targ_tree depth (ended parts.targ) at.entry result }
{
    let (targ, more) = targ(alloc, depth, at)?;
    let (targ, rest) = then_lexeme(targ, Lexeme::Semicolon, more)?;
    Ok((targ, rest))
}

// `targ ";" | decl`
#[tactic(auto, unfolding(vh_parse_syntax::specs::Items::local))]
fn local<'t>(alloc: Global, depth: usize, at: At<'t>) -> Read<'t, Local>
    ensures { Reads local_tree depth parts.local at.entry result }
{
    if at.next_is(Class::Row(Rows::Targ)) {
        let (targ, rest) = ended_targ(alloc, depth, at)?;
        return Ok((Local::Targ(targ), rest));
    }
    let (decl, rest) = declaration(alloc, depth, at)?;
    Ok((Local::Decl(decl), rest))
}

/// `{ targ ";" | decl }` (IEEE 1364-2005, A.2.6 and A.2.7)
pub fn locals<'t>(alloc: Global, depth: usize, at: At<'t>) -> Read<'t, Items<Local>>
    ensures { Reads (map local_tree) depth locals at.entry result }
{
    let mut all = Items::new(alloc);
    let mut rest = at;
    'all: while rest.next_is(Class::Among(Group::Local)) {
        let (next, end) = local(alloc, depth, rest)?;
        all.push(next)?;
        rest = end;
    }
    Ok((all, rest))
}

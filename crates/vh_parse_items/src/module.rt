//! Modules and sources.

ghost use Rattle.std.specs.Prelude.{Option, option_map, map};
ghost use Rattle.vh_ast.specs.Views.{ports_tree, module_tree};
ghost use Rattle.vh_parse_syntax.specs.Items as parts;
ghost use Rattle.vh_parse_syntax.specs.Parts.{in_parens, ended};
ghost use Rattle.vh_parse_expr.specs.Views.{Reads};
ghost use Rattle.vh_parse_items.specs.Pieces.{maybe_ports};
ghost use Rattle.vh_parse_items.specs.Views.{modules_seen};

use crate::generate::items;
use crate::made;
use sqlite_items::{Boxed, Items};
use std::alloc::Global;
use vh_ast::{Module, Ports};
use vh_base::Place;
use vh_lex::{Kind, Setting};
use vh_parse_expr::{At, Read, id, then_lexeme};
use vh_parse_parts::{pars, ports};
use vh_parse_syntax::{Class, Lexeme, Start};

// `"module"`, with what the directives before it set.
fn module_word<'t>(at: At<'t>) -> Read<'t, (Place, Setting)>
    ensures { Reads (λ w. w) 0 parts.a_module_word at.entry result }
{
    let [first, rest @ ..] = at.tokens else {
        return Err(at.lost());
    };
    match first.kind {
        Kind::Module(setting) => Ok(((first.place, setting), at.before(rest))),
        _ => Err(at.lost()),
    }
}

// `[ ports ]`: an `inout` is left out.
fn maybe_ports<'t>(alloc: Global, depth: usize, at: At<'t>) -> Read<'t, Option<Boxed<Ports>>>
    ensures { Reads (option_map ports_tree) depth maybe_ports at.entry result }
{
    let at = at.noting(at.tokens, at.next_is(Class::Is(Lexeme::Inout)));
    if !at.next_is(Class::Begins(Start::Ports)) {
        return Ok((None, at));
    }
    let (ports, rest) = ports(alloc, depth, at)?;
    Ok((Some(ports), rest))
}

// `"(" [ ports ] ")"`
fn bracketed_ports<'t>(alloc: Global, depth: usize, at: At<'t>) -> Read<'t, Option<Boxed<Ports>>>
    ensures { Reads (option_map ports_tree) depth (in_parens maybe_ports) at.entry result }
{
    let opened = at.take(Class::Is(Lexeme::LeftParen))?;
    let (ports, closing) = maybe_ports(alloc, depth, opened)?;
    let (ports, rest) = then_lexeme(ports, Lexeme::RightParen, closing)?;
    Ok((ports, rest))
}

// `[ "(" [ ports ] ")" ]`
#[tactic(auto, unfolding(vh_parse_syntax::specs::Items::port_list))]
fn port_list<'t>(alloc: Global, depth: usize, at: At<'t>) -> Read<'t, Option<Boxed<Ports>>>
    ensures { Reads (option_map ports_tree) depth parts.port_list at.entry result }
{
    if !at.next_is(Class::Is(Lexeme::LeftParen)) {
        return Ok((None, at));
    }
    bracketed_ports(alloc, depth, at)
}

// `module`
#[tactic(auto, unfolding(vh_parse_syntax::specs::Items::a_module))]
fn module<'t>(alloc: Global, depth: usize, at: At<'t>) -> Read<'t, Module>
    ensures { Reads module_tree depth parts.a_module at.entry result }
{
    let (word, more) = module_word(at)?;
    let (id, more) = id(more)?;
    let (pars, more) = pars(alloc, depth, more)?;
    let (ports, more) = port_list(alloc, depth, more)?;
    let (ports, more) = then_lexeme(ports, Lexeme::Semicolon, more)?;
    let (items, more) = items(alloc, depth, more)?;
    let (items, rest) = then_lexeme(items, Lexeme::Endmodule, more)?;
    Ok((made::module(word, id, pars, ports, items), rest))
}

// `source`
#[tactic(auto, unfolding(vh_parse_syntax::specs::Items::source))]
pub(crate) fn modules<'t>(alloc: Global, depth: usize, at: At<'t>) -> Read<'t, Items<Module>>
    ensures { Reads modules_seen depth parts.source at.entry result }
{
    let mut all = Items::new(alloc);
    let mut rest = at;
    'all: while rest.next_is(Class::Module) {
        let (next, end) = module(alloc, depth, rest)?;
        all.push(next)?;
        rest = end;
    }
    Ok((all, rest))
}

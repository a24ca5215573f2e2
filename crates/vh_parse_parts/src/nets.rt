//! Nets, with a delay or without one.

ghost use Rattle.std.specs.Prelude.{◌≡◌, Bool, is_some, map};
ghost use Rattle.vh_parse_grammar.specs.Part.{act, two};
ghost use Rattle.vh_parse_grammar.specs.Reading.{next_is};
ghost use Rattle.vh_ast.specs.Declarations as trees;
ghost use Rattle.vh_ast.specs.Views.{net_tree};
ghost use Rattle.vh_parse_syntax.specs.Declarations as declared;
ghost use Rattle.vh_parse_syntax.specs.DeclarationConditions.{net_advances};
ghost use Rattle.vh_parse_syntax.specs.Items as parts;
ghost use Rattle.vh_parse_syntax.specs.Items.{delayed_goes};
ghost use Rattle.vh_parse_expr.specs.Views.{Reads, tokens_seen};
ghost use Rattle.vh_parse_parts.specs.Pieces.{delayed_row, behind_delay};
ghost use Rattle.vh_parse_parts.specs.Views.{delayed_tree, nets_pair};

use sqlite_items::{Boxed, Items};
use std::alloc::Global;
use vh_ast::{Delay, Net, only};
use vh_parse_decl::{Listed, bare_id, boxed_delay, further, list, value};
use vh_parse_expr::{At, Read};
use vh_parse_syntax::{Class, Group, Lexeme};

// `net`
#[tactic(auto, unfolding(vh_parse_syntax::specs::Declarations::a_net))]
fn net<'t>(alloc: Global, depth: usize, at: At<'t>) -> Read<'t, Net>
    ensures { Reads net_tree depth declared.a_net at.entry result }
{
    let (id, more) = bare_id(true, at)?;
    let (value, rest) = value(alloc, depth, more)?;
    Ok((Net { id, value }, rest))
}

// Whether the net has a value.
fn is_valued(net: &Net) -> bool
    ensures { result ≡ is_some (net_tree net.now).value }
{
    match &net.value {
        Some(_) => true,
        None => false,
    }
}

// Nets.
struct Nets;

impl Listed for Nets {
    type Item = Net;

    ghost Tree = { trees.NetTree };

    ghost view = { net_tree };

    ghost part = { λ form. declared.a_net };

    ghost advances = { λ form. net_advances };

    fn read<'t>(alloc: Global, depth: usize, _form: bool, at: At<'t>) -> Read<'t, Net> {
        net(alloc, depth, at)
    }
}

// A delay, and nets so far, of which all but the last have a value.
#[derive(Drop)]
pub(crate) struct Delayed {
    pub delay: Boxed<Delay>,
    pub nets: Items<Net>,
    pub valued: bool,
}

// Whether nets with a delay go on: behind one with a value.
fn delayed_goes(valued: bool, at: At<'_>) -> bool
    ensures { result ≡ next_is (delayed_goes valued) (tokens_seen at.entry.tokens.now) }
{
    valued && at.next_is(Class::Is(Lexeme::Comma))
}

// `"," net`, behind a net with a value.
#[tactic(auto, unfolding(vh_parse_syntax::specs::Items::next_delayed))]
fn next_delayed<'t>(alloc: Global, depth: usize, all: Delayed, at: At<'t>) -> Read<'t, Delayed>
    ensures { let part = parts.next_delayed all.valued (delayed_tree all) in
        Reads delayed_tree depth part at.entry result }
{
    if !all.valued {
        return Err(at.lost());
    }
    let next = at.take(Class::Is(Lexeme::Comma))?;
    let (net, rest) = net(alloc, depth, next)?;
    let mut all = all;
    all.valued = is_valued(&net);
    all.nets.push(net)?;
    Ok((all, rest))
}

// `{ "," net }`, up to the first net without a value.
#[tactic(auto, unfolding(vh_parse_syntax::specs::Items::more_delayed))]
fn more_delayed<'t>(alloc: Global, depth: usize, first: Delayed, at: At<'t>) -> Read<'t, Delayed>
    ensures { Reads delayed_tree depth (parts.more_delayed (delayed_tree first)) at.entry result }
{
    let mut all = first;
    let mut rest = at;
    'nets: while delayed_goes(all.valued, rest) {
        let (longer, end) = next_delayed(alloc, depth, all, rest)?;
        all = longer;
        rest = end;
    }
    Ok((all, rest))
}

// `delay net { "," net }`, up to the first net without a value.
fn delayed_row<'t>(alloc: Global, depth: usize, at: At<'t>) -> Read<'t, Delayed>
    ensures { Reads delayed_tree depth delayed_row at.entry result }
{
    let (delay, more) = boxed_delay(alloc, depth, at)?;
    let (net, more) = net(alloc, depth, more)?;
    let valued = is_valued(&net);
    let first = Delayed {
        delay,
        nets: only(alloc, net)?,
        valued,
    };
    more_delayed(alloc, depth, first, more)
}

// The same: what is behind a net without a value shows a declaration that is left out.
#[tactic(auto, unfolding(vh_parse_syntax::specs::Items::delayed_nets))]
fn delayed_nets<'t>(alloc: Global, depth: usize, at: At<'t>) -> Read<'t, Delayed>
    ensures { Reads delayed_tree depth parts.delayed_nets at.entry result }
{
    let (all, rest) = delayed_row(alloc, depth, at)?;
    let shown = !all.valued && rest.next_is(Class::Among(Group::NetEnd));
    Ok((all, rest.noting(at.tokens, shown)))
}

// `delay net { "," net }`
fn behind_delay<'t>(
    alloc: Global,
    depth: usize,
    at: At<'t>,
) -> Read<'t, (Option<Boxed<Delay>>, Items<Net>)>
    ensures { Reads nets_pair depth behind_delay at.entry result }
{
    let (earlier, more) = delayed_nets(alloc, depth, at)?;
    let delay = Some(earlier.delay);
    let (nets, rest) = further::<Nets>(alloc, depth, true, earlier.nets, more)?;
    Ok(((delay, nets), rest))
}

// `[ delay ] net { "," net }`
#[tactic(auto, unfolding(vh_parse_syntax::specs::Items::all_nets))]
pub(crate) fn all_nets<'t>(
    alloc: Global,
    depth: usize,
    at: At<'t>,
) -> Read<'t, (Option<Boxed<Delay>>, Items<Net>)>
    ensures { Reads nets_pair depth parts.all_nets at.entry result }
{
    if at.next_is(Class::Is(Lexeme::Hash)) {
        return behind_delay(alloc, depth, at);
    }
    let (nets, rest) = list::<Nets>(alloc, depth, true, at)?;
    Ok(((None, nets), rest))
}

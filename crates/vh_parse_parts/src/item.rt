//! Items in which neither an item nor a statement stands.

ghost use Rattle.std.specs.Prelude.{map};
ghost use Rattle.vh_ast.specs.Statements as trees;
ghost use Rattle.vh_ast.specs.Views.{item_tree, set_tree};
ghost use Rattle.vh_parse_syntax.specs.Statements.{set};
ghost use Rattle.vh_parse_syntax.specs.StatementConditions.{set_advances};
ghost use Rattle.vh_parse_syntax.specs.Items as parts;
ghost use Rattle.vh_parse_expr.specs.Views.{Reads};
ghost use Rattle.vh_parse_parts.specs.Views.{head_tree};

use crate::boxed::boxed_type;
use crate::head::{PortHead, port_head};
use crate::ids::ids;
use crate::instance::{Gates, Instances, written_overrides};
use crate::made;
use crate::nets::all_nets;
use crate::parameters::Values;
use crate::port::port_names;
use crate::rows::{gate_type, net_type, parameter_word};
use sqlite_items::Boxed;
use std::alloc::Global;
use vh_ast::{Item, Plain, Set};
use vh_parse_decl::{Listed, declaration, list, set, written_delay};
use vh_parse_expr::{At, Read, id, lexeme, then_lexeme};
use vh_parse_syntax::Lexeme;

// The names of ports and their end.
#[tactic(auto, unfolding(vh_parse_syntax::specs::Items::port_ids))]
fn port_ids<'t>(alloc: Global, depth: usize, head: PortHead, at: At<'t>) -> Read<'t, Boxed<Item>>
    ensures { Reads item_tree depth (parts.port_ids (head_tree head)) at.entry result }
{
    let (ids, more) = port_names(alloc, depth, head.kind, at)?;
    let (ids, rest) = then_lexeme(ids, Lexeme::Semicolon, more)?;
    Ok((made::ports(alloc, head, ids)?, rest))
}

/// `( "input" | "output" ) [ NET | "reg" | "integer" | "time" ] type ID { "," ID } ";"` (IEEE
/// 1364-2005, A.2.1.2)
#[tactic(auto, unfolding(vh_parse_syntax::specs::Items::port_item))]
pub fn port_item<'t>(alloc: Global, depth: usize, at: At<'t>) -> Read<'t, Boxed<Item>>
    ensures { Reads item_tree depth parts.port_item at.entry result }
{
    let (head, more) = port_head(alloc, depth, at)?;
    port_ids(alloc, depth, head, more)
}

/// `NET type [ delay ] net { "," net } ";"` (IEEE 1364-2005, A.2.1.3)
#[tactic(auto, unfolding(vh_parse_syntax::specs::Items::net_item))]
pub fn net_item<'t>(alloc: Global, depth: usize, at: At<'t>) -> Read<'t, Boxed<Item>>
    ensures { Reads item_tree depth parts.net_item at.entry result }
{
    let (word, more) = net_type(at)?;
    let (data_type, more) = boxed_type(alloc, depth, more)?;
    let (all, more) = all_nets(alloc, depth, more)?;
    let (all, rest) = then_lexeme(all, Lexeme::Semicolon, more)?;
    Ok((made::nets(alloc, word, data_type, all)?, rest))
}

/// `decl`, as an item (IEEE 1364-2005, A.2.1.3)
#[tactic(auto, unfolding(vh_parse_syntax::specs::Items::decl_item))]
pub fn decl_item<'t>(alloc: Global, depth: usize, at: At<'t>) -> Read<'t, Boxed<Item>>
    ensures { Reads item_tree depth parts.decl_item at.entry result }
{
    let (decl, rest) = declaration(alloc, depth, at)?;
    Ok((made::declared(alloc, decl)?, rest))
}

/// `"event" ids ";"` (IEEE 1364-2005, A.2.1.3)
#[tactic(auto, unfolding(vh_parse_syntax::specs::Items::event_item))]
pub fn event_item<'t>(alloc: Global, depth: usize, at: At<'t>) -> Read<'t, Boxed<Item>>
    ensures { Reads item_tree depth parts.event_item at.entry result }
{
    let (place, more) = lexeme(Lexeme::Event, at)?;
    let (ids, more) = ids(alloc, depth, more)?;
    let (ids, rest) = then_lexeme(ids, Lexeme::Semicolon, more)?;
    Ok((made::plain(alloc, place, Plain::Event(ids))?, rest))
}

/// `"genvar" ids ";"` (IEEE 1364-2005, A.4.2)
#[tactic(auto, unfolding(vh_parse_syntax::specs::Items::genvar_item))]
pub fn genvar_item<'t>(alloc: Global, depth: usize, at: At<'t>) -> Read<'t, Boxed<Item>>
    ensures { Reads item_tree depth parts.genvar_item at.entry result }
{
    let (place, more) = lexeme(Lexeme::Genvar, at)?;
    let (ids, more) = ids(alloc, depth, more)?;
    let (ids, rest) = then_lexeme(ids, Lexeme::Semicolon, more)?;
    Ok((made::plain(alloc, place, Plain::Genvar(ids))?, rest))
}

/// `( "parameter" | "localparam" ) type ID "=" expr { "," ID "=" expr } ";"` (IEEE 1364-2005,
/// A.2.1.1)
#[tactic(auto, unfolding(vh_parse_syntax::specs::Items::parameter_item))]
pub fn parameter_item<'t>(alloc: Global, depth: usize, at: At<'t>) -> Read<'t, Boxed<Item>>
    ensures { Reads item_tree depth parts.parameter_item at.entry result }
{
    let (word, more) = parameter_word(at)?;
    let (data_type, more) = boxed_type(alloc, depth, more)?;
    let (values, more) = list::<Values>(alloc, depth, true, more)?;
    let (values, rest) = then_lexeme(values, Lexeme::Semicolon, more)?;
    Ok((made::parameters(alloc, word, data_type, values)?, rest))
}

// Targets with their values, in which calls may stand or not.
struct Sets;

impl Listed for Sets {
    type Item = Set;

    ghost Tree = { trees.SetTree };

    ghost view = { set_tree };

    ghost part = { set };

    ghost advances = { set_advances };

    fn read<'t>(alloc: Global, depth: usize, form: bool, at: At<'t>) -> Read<'t, Set> {
        set(alloc, depth, form, at)
    }
}

/// `"assign" [ delay ] lv "=" expr { "," lv "=" expr } ";"` (IEEE 1364-2005, A.6.1)
#[tactic(auto, unfolding(vh_parse_syntax::specs::Items::assign_item))]
pub fn assign_item<'t>(alloc: Global, depth: usize, at: At<'t>) -> Read<'t, Boxed<Item>>
    ensures { Reads item_tree depth parts.assign_item at.entry result }
{
    let (place, more) = lexeme(Lexeme::Assign, at)?;
    let (delay, more) = written_delay(alloc, depth, more)?;
    let (sets, more) = list::<Sets>(alloc, depth, true, more)?;
    let (sets, rest) = then_lexeme(sets, Lexeme::Semicolon, more)?;
    Ok((made::assigns(alloc, place, delay, sets)?, rest))
}

/// `GATE [ delay ] gate { "," gate } ";"` (IEEE 1364-2005, A.3.1)
#[tactic(auto, unfolding(vh_parse_syntax::specs::Items::gate_item))]
pub fn gate_item<'t>(alloc: Global, depth: usize, at: At<'t>) -> Read<'t, Boxed<Item>>
    ensures { Reads item_tree depth parts.gate_item at.entry result }
{
    let (word, more) = gate_type(at)?;
    let (delay, more) = written_delay(alloc, depth, more)?;
    let (gates, more) = list::<Gates>(alloc, depth, true, more)?;
    let (gates, rest) = then_lexeme(gates, Lexeme::Semicolon, more)?;
    Ok((made::gates(alloc, word, delay, gates)?, rest))
}

/// `ID [ "#" "(" conns ")" ] inst { "," inst } ";"` (IEEE 1364-2005, A.4.1)
#[tactic(auto, unfolding(vh_parse_syntax::specs::Items::instance_item))]
pub fn instance_item<'t>(alloc: Global, depth: usize, at: At<'t>) -> Read<'t, Boxed<Item>>
    ensures { Reads item_tree depth parts.instance_item at.entry result }
{
    let (name, more) = id(at)?;
    let (overrides, more) = written_overrides(alloc, depth, more)?;
    let (insts, more) = list::<Instances>(alloc, depth, true, more)?;
    let (insts, rest) = then_lexeme(insts, Lexeme::Semicolon, more)?;
    Ok((made::instances(alloc, name, overrides, insts)?, rest))
}

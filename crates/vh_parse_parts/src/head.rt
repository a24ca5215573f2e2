//! What stands in front of names that are given a direction.

ghost use Rattle.vh_parse_syntax.specs.Items as parts;
ghost use Rattle.vh_parse_expr.specs.Views.{Reads};
ghost use Rattle.vh_parse_parts.specs.Pieces.{any_head};
ghost use Rattle.vh_parse_parts.specs.Views.{head_tree};

use crate::boxed::boxed_type;
use sqlite_items::Boxed;
use std::alloc::Global;
use vh_ast::{DataType, Direction, PortType, TaskDirection, Variable};
use vh_base::Place;
use vh_parse_expr::{At, Read, placed_row, row_if_next};
use vh_parse_syntax::Lexeme;
use vh_parse_syntax::tables::{DIRECTION, PORT_TYPE, TARG, VARIABLE};

// A direction, what the names are where it is said, and their type.
#[derive(Drop)]
pub(crate) struct Head<D, K> {
    pub place: Place,
    pub direction: D,
    pub kind: Option<K>,
    pub data_type: Boxed<DataType>,
}

// What stands in front of the names of ports.
pub(crate) type PortHead = Head<Direction, PortType>;

// What stands in front of the names of arguments.
pub(crate) type TargHead = Head<TaskDirection, Variable>;

// A direction, a kind if one is next, and a type, where these are the words of the first two.
fn any_head<'t, D: Copy, K: Copy>(
    alloc: Global,
    depth: usize,
    directions: &[(Lexeme, D)],
    kinds: &[(Lexeme, K)],
    at: At<'t>,
) -> Read<'t, Head<D, K>>
    ensures { Reads head_tree depth (any_head directions.now kinds.now) at.entry result }
{
    let ((place, direction), more) = placed_row(directions, at)?;
    let (kind, more) = row_if_next(kinds, more)?;
    let (data_type, rest) = boxed_type(alloc, depth, more)?;
    let head = Head {
        place,
        direction,
        kind,
        data_type,
    };
    Ok((head, rest))
}

// `( "input" | "output" ) [ NET | "reg" | "integer" | "time" ] type`
#[tactic(auto, unfolding(vh_parse_syntax::specs::Items::port_head))]
pub(crate) fn port_head<'t>(alloc: Global, depth: usize, at: At<'t>) -> Read<'t, PortHead>
    ensures { Reads head_tree depth parts.port_head at.entry result }
{
    any_head(alloc, depth, &DIRECTION, &PORT_TYPE, at)
}

// `( "input" | "output" | "inout" ) [ "reg" | "integer" | "time" ] type`
#[tactic(auto, unfolding(vh_parse_syntax::specs::Items::targ_head))]
pub(crate) fn targ_head<'t>(alloc: Global, depth: usize, at: At<'t>) -> Read<'t, TargHead>
    ensures { Reads head_tree depth parts.targ_head at.entry result }
{
    any_head(alloc, depth, &TARG, &VARIABLE, at)
}

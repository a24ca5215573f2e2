//! Words that each mean something, where they stand.

ghost use Rattle.vh_parse_syntax.specs.Parts;
ghost use Rattle.vh_parse_syntax.specs.Items.{net_rows, gate_rows, parameter_rows};
ghost use Rattle.vh_parse_expr.specs.Views.{Reads};

use vh_ast::{GateType, NetType, ParameterWord};
use vh_base::Place;
use vh_parse_expr::{At, Read, placed_row};
use vh_parse_syntax::tables::{GATE, NET, PARAMETER};

// `NET`
pub(crate) fn net_type<'t>(at: At<'t>) -> Read<'t, (Place, NetType)>
    ensures { Reads (λ w. w) 0 (Parts.placed_row net_rows) at.entry result }
{
    placed_row(&NET, at)
}

// `GATE`
pub(crate) fn gate_type<'t>(at: At<'t>) -> Read<'t, (Place, GateType)>
    ensures { Reads (λ w. w) 0 (Parts.placed_row gate_rows) at.entry result }
{
    placed_row(&GATE, at)
}

// `"parameter" | "localparam"`
pub(crate) fn parameter_word<'t>(at: At<'t>) -> Read<'t, (Place, ParameterWord)>
    ensures { Reads (λ w. w) 0 (Parts.placed_row parameter_rows) at.entry result }
{
    placed_row(&PARAMETER, at)
}

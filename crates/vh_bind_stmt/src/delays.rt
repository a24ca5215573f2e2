ghost use Rattle.std.specs.Prelude.{◌≡◌, true, OnOk};
ghost use Rattle.vh_design_nodes.specs.Fits.{is_unit};
ghost use Rattle.vh_ast.specs.Expressions;
ghost use Rattle.vh_ast.specs.Expressions.{no_index, no_sel, no_step};
ghost use Rattle.vh_ast.specs.Views.{delay_tree, delay_value_tree};
ghost use Rattle.vh_bind.specs.declared.scope.Mode.TheVariants as mode;
ghost use Rattle.vh_bind.specs.Steps.{Steps};
ghost use Rattle.vh_bind.specs.Nodes.{IsSound};
ghost use Rattle.vh_bind.specs.Objects.{alone_read};
ghost use Rattle.vh_bind.specs.Constants.{form_bound};
ghost use Rattle.vh_bind_expr.specs.Kinds.{IsReadable};
ghost use Rattle.vh_bind.specs.Views.{scope_seen};
ghost use Rattle.vh_bind_stmt.specs.Delays.{amount_bound, delay_in, delay_bound};

use std::alloc::Global;
use vh_ast::{Delay, DelayValue, Id};
use vh_base::{DesignFault, ExprId, Place};
use vh_bind::{ElabFault, Mode, Readable, Scope, alone_read, push, push_literal};
use vh_bind_expr::{bind_expr, push_selected, whole_of};
use vh_design_code::Delay as Wait;
use vh_design_nodes::{ExprKind, ExprNode, Select};

// What a name stands for.
fn name_alone(scope: &Scope, id: &Id) -> Readable
    ensures readable { result ≡ alone_read (scope_seen scope.now) id.now.name }
    ensures kind { IsReadable (scope_seen scope.now).objects result }
{
    alone_read(scope, id.name.as_slice())
}

// The value of a name alone.
fn bind_id(scope: &Scope, nodes: &mut Vec<ExprNode>, id: &Id) -> Result<Option<ExprId>, ElabFault>
    requires sound { IsSound mode.Value (scope_seen scope.now) nodes.old.items }
    ensures step { Steps
        (form_bound mode.Value (scope_seen scope.now) id.now.place
        (Expressions.named (Expressions.name id.now no_index no_step) no_sel) nodes.old.items)
        result nodes.new.items }
    ensures sound { OnOk result (IsSound mode.Value (scope_seen scope.now) nodes.new.items) }
{
    let place = id.place;
    match name_alone(scope, id) {
        Readable::Wrong | Readable::Memory(_, _) => {
            Err(ElabFault::Refused(DesignFault::N1, place))
        }
        Readable::Unknown => Ok(None),
        Readable::Genvar(value) | Readable::Parameter(_, _, value) => {
            push_literal(scope, Mode::Value, nodes, place, Some(value))
        }
        Readable::Vector(object, _) => {
            push_selected(scope, nodes, place, whole_of(object), Some(Select::Whole))
        }
    }
}

// How long.
fn bind_amount(
    alloc: Global,
    scope: &Scope,
    nodes: &mut Vec<ExprNode>,
    place: Place,
    value: &DelayValue,
) -> Result<Option<ExprId>, ElabFault>
    requires sound { IsSound mode.Value (scope_seen scope.now) nodes.old.items }
    requires unit { is_unit (scope_seen scope.now).precision (scope_seen scope.now).unit ≡ true }
    ensures step { Steps
        (amount_bound (scope_seen scope.now) place (delay_value_tree value.now) nodes.old.items)
        result nodes.new.items }
    ensures sound { OnOk result (IsSound mode.Value (scope_seen scope.now) nodes.new.items) }
{
    match value {
        DelayValue::Number(n) => {
            push(scope, Mode::Value, nodes, place, ExprKind::Literal(n.value))
        }
        DelayValue::Id(id) => bind_id(scope, nodes, id),
        DelayValue::Expr(e) => bind_expr(alloc, nodes, scope, e),
    }
}

// In units of the module.
fn delay_in(scope: &Scope, amount: Option<ExprId>) -> Option<Wait>
    ensures { result ≡ delay_in (scope_seen scope.now) amount }
{
    match amount {
        None => None,
        Some(amount) => Some(Wait {
            amount,
            unit: scope.unit,
        }),
    }
}

/// A delay (IEEE 1364-2005, 9.7.1). None where it needs a parameter that has no value. An error is
/// the first fault, or want of memory.
pub fn bind_delay(
    alloc: Global,
    scope: &Scope,
    nodes: &mut Vec<ExprNode>,
    delay: &Delay,
) -> Result<Option<Wait>, ElabFault>
    requires sound { IsSound mode.Value (scope_seen scope.now) nodes.old.items }
    requires unit { is_unit (scope_seen scope.now).precision (scope_seen scope.now).unit ≡ true }
    ensures step { Steps
        (delay_bound (scope_seen scope.now) (delay_tree delay.now) nodes.old.items)
        result nodes.new.items }
    ensures sound { OnOk result (IsSound mode.Value (scope_seen scope.now) nodes.new.items) }
{
    let amount = bind_amount(alloc, scope, nodes, delay.place, &delay.value)?;
    Ok(delay_in(scope, amount))
}

ghost use Rattle.std.specs.Prelude.{◌≡◌};
ghost use Rattle.std.specs.List.{list_any};
ghost use Rattle.std.specs.Option.{option_copied};
ghost use Rattle.vh_design_nodes.specs.Kinds.{is_function};
ghost use Rattle.vh_design_nodes.specs.Fits.{has_kind};
ghost use Rattle.vh_bind.specs.Objects.{with_result, routine_of, directions_of, is_given, is_taken, goes_so, function_at, function_meant};
ghost use Rattle.vh_bind.specs.Views.{scope_seen};
ghost use Rattle.vh_bind_expr.specs.Rows.{is_on};

use vh_ast::TaskDirection;
use vh_base::ObjId;
use vh_bind::{Function, Routine, Scope};
use vh_bind_scope::Meaning;
use vh_design_nodes::{body_number, is_variable_at};

// A function with its result, which is a variable.
fn with_result(scope: &Scope, id: ObjId, variable: Option<ObjId>) -> Option<Function>
    ensures { result ≡ with_result (scope_seen scope.now) id variable }
{
    let result = variable?;
    if !is_variable_at(scope.objects, result) {
        return None;
    }
    Some(Function { id, result })
}

// What is known of a task or function.
fn routine_of<'a>(scope: &Scope<'a, '_>, id: ObjId) -> Option<&'a Routine>
    ensures { option_copied result ≡ routine_of (scope_seen scope.now) id }
{
    let body = body_number(scope.objects, id)?;
    scope.routines.get(body as usize)
}

// Where the arguments of a task or function go, in order.
pub(crate) fn directions_of<'a>(scope: &Scope<'a, '_>, id: ObjId) -> &'a [TaskDirection]
    ensures { result.now ≡ directions_of (scope_seen scope.now) id }
{
    match routine_of(scope, id) {
        None => &[],
        Some(routine) => routine.arguments.as_slice(),
    }
}

/// Whether an argument is given a value at the begin of a call (IEEE 1364-2005, 10.2.2).
pub fn is_given(direction: TaskDirection) -> bool
    ensures { result ≡ is_given direction }
{
    match direction {
        TaskDirection::Input | TaskDirection::Inout => true,
        TaskDirection::Output => false,
    }
}

/// Whether it is assigned at its end.
pub fn is_taken(direction: TaskDirection) -> bool
    ensures { result ≡ is_taken direction }
{
    match direction {
        TaskDirection::Output | TaskDirection::Inout => true,
        TaskDirection::Input => false,
    }
}

// The arguments of a call that are given a value at its begin, or those that are assigned at its end.
#[derive(Clone, Copy)]
pub(crate) enum Side {
    Given,
    Taken,
}

// Whether an argument stands there.
fn is_on(side: Side, direction: TaskDirection) -> bool
    ensures { result ≡ is_on side direction }
{
    match side {
        Side::Given => is_given(direction),
        Side::Taken => is_taken(direction),
    }
}

// Whether the argument of this number stands there.
pub(crate) fn is_at(side: Side, directions: &[TaskDirection], number: usize) -> bool
    ensures { result ≡ goes_so (is_on side) directions.now number }
{
    match directions.get(number) {
        None => false,
        Some(direction) => is_on(side, *direction),
    }
}

// Whether some argument is assigned.
pub(crate) fn any_taken(directions: &[TaskDirection]) -> bool
    ensures { result ≡ list_any is_taken directions.now }
{
    directions.iter().any(|direction| is_taken(*direction))
}

// Whether it is a function of the design.
fn is_function_at(scope: &Scope, id: ObjId) -> bool
    ensures { result ≡ has_kind is_function (scope_seen scope.now).objects id }
{
    scope
        .objects
        .get(id.number() as usize)
        .map_or(false, |object| object.kind.is_function())
}

fn function_at(scope: &Scope, id: ObjId) -> Option<Function>
    ensures { result ≡ function_at (scope_seen scope.now) id }
{
    if !is_function_at(scope, id) {
        return None;
    }
    let routine = routine_of(scope, id)?;
    with_result(scope, id, routine.result)
}

// The function that is meant, with its result (IEEE 1364-2005, 10.4).
pub(crate) fn function_meant(scope: &Scope, meaning: Meaning) -> Option<Function>
    ensures { result ≡ function_meant (scope_seen scope.now) meaning }
{
    match meaning {
        Meaning::Object { id, .. } => function_at(scope, id),
        Meaning::Result { .. } | Meaning::Genvar | Meaning::Blocks | Meaning::Gate => None,
    }
}

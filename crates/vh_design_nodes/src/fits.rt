ghost use Rattle.std.specs.Prelude.{◌≡◌, nat_lt, length};
ghost use Rattle.std.specs.List.{list_all};
ghost use Rattle.vh_design_nodes.specs.Kinds.{is_vector, is_variable, is_memory, is_function, is_system_function, is_net, is_forcible, is_event, is_named_block, is_disable_target, is_routine, is_system_task, is_scope};
ghost use Rattle.vh_design_nodes.specs.Widths.{operands};
ghost use Rattle.vh_design_nodes.specs.Fits.{has_kind, is_width, is_unit, all_before, before, same_sign, may_be, fits_word, fits_select, fits_selected, fits_kind, fits_node, has_word, body_number, has_body, fits_detail, fits_object, fits_driver, lowest_of, is_address};

use crate::driver::DriverInfo;
use crate::expr::{Access, Chosen, ExprKind, ExprNode, Link, Select, Selected};
use crate::object::{Detail, ObjectInfo};
use crate::widths::{kind_signed, kind_width};
use vh_base::{ExprId, ObjId, Object};
use vh_logic::MAX_WIDTH;

/// The greatest number of a time unit or a precision: 100 s (IEEE 1364-2005, 19.8).
pub const MOST_UNIT: u8 = 17;

/// Whether an object may be read or selected from as a whole vector.
pub fn is_vector_at(objects: &[ObjectInfo], o: ObjId) -> bool
    ensures { result ≡ has_kind is_vector objects.now o }
{
    objects
        .get(o.number() as usize)
        .map_or(false, |object| object.kind.is_vector())
}

/// Whether it may hold a function's result.
pub fn is_variable_at(objects: &[ObjectInfo], o: ObjId) -> bool
    ensures { result ≡ has_kind is_variable objects.now o }
{
    objects
        .get(o.number() as usize)
        .map_or(false, |object| object.kind.is_variable())
}

/// Whether it is a memory.
pub fn is_memory_at(objects: &[ObjectInfo], o: ObjId) -> bool
    ensures { result ≡ has_kind is_memory objects.now o }
{
    objects
        .get(o.number() as usize)
        .map_or(false, |object| object.kind.is_memory())
}

// Whether it is a function of the design.
fn is_function_at(objects: &[ObjectInfo], o: ObjId) -> bool
    ensures { result ≡ has_kind is_function objects.now o }
{
    objects
        .get(o.number() as usize)
        .map_or(false, |object| object.kind.is_function())
}

/// Whether it is a call of a user system function.
pub fn is_system_function_at(objects: &[ObjectInfo], o: ObjId) -> bool
    ensures { result ≡ has_kind is_system_function objects.now o }
{
    objects
        .get(o.number() as usize)
        .map_or(false, |object| object.kind.is_system_function())
}

// Whether it is a net.
fn is_net_at(objects: &[ObjectInfo], o: ObjId) -> bool
    ensures { result ≡ has_kind is_net objects.now o }
{
    objects
        .get(o.number() as usize)
        .map_or(false, |object| object.kind.is_net())
}

/// Whether it may be forced.
pub fn is_forcible_at(objects: &[ObjectInfo], o: ObjId) -> bool
    ensures { result ≡ has_kind is_forcible objects.now o }
{
    objects
        .get(o.number() as usize)
        .map_or(false, |object| object.kind.is_forcible())
}

/// Whether it is a named event.
pub fn is_event_at(objects: &[ObjectInfo], o: ObjId) -> bool
    ensures { result ≡ has_kind is_event objects.now o }
{
    objects
        .get(o.number() as usize)
        .map_or(false, |object| object.kind.is_event())
}

/// Whether it is a named `begin` or `fork`.
pub fn is_named_block_at(objects: &[ObjectInfo], o: ObjId) -> bool
    ensures { result ≡ has_kind is_named_block objects.now o }
{
    objects
        .get(o.number() as usize)
        .map_or(false, |object| object.kind.is_named_block())
}

/// Whether a `disable` may end it.
pub fn is_disable_target_at(objects: &[ObjectInfo], o: ObjId) -> bool
    ensures { result ≡ has_kind is_disable_target objects.now o }
{
    objects
        .get(o.number() as usize)
        .map_or(false, |object| object.kind.is_disable_target())
}

/// Whether it is a task or a function of the design.
pub fn is_routine_at(objects: &[ObjectInfo], o: ObjId) -> bool
    ensures { result ≡ has_kind is_routine objects.now o }
{
    objects
        .get(o.number() as usize)
        .map_or(false, |object| object.kind.is_routine())
}

/// Whether it is a call of a user system task.
pub fn is_system_task_at(objects: &[ObjectInfo], o: ObjId) -> bool
    ensures { result ≡ has_kind is_system_task objects.now o }
{
    objects
        .get(o.number() as usize)
        .map_or(false, |object| object.kind.is_system_task())
}

/// Whether it holds other objects by their names.
pub fn is_scope_at(objects: &[ObjectInfo], o: ObjId) -> bool
    ensures { result ≡ has_kind is_scope objects.now o }
{
    objects
        .get(o.number() as usize)
        .map_or(false, |object| object.kind.is_scope())
}

/// The number of a task's or function's body.
pub fn body_number(objects: &[ObjectInfo], o: ObjId) -> Option<u32>
    ensures { result ≡ body_number objects.now o }
{
    objects
        .get(o.number() as usize)
        .and_then(|object| object.detail.body())
}

/// Whether it has one.
pub fn has_body(objects: &[ObjectInfo], o: ObjId) -> bool
    ensures { result ≡ has_body objects.now o }
{
    body_number(objects, o).is_some()
}

/// Whether a vector may have this width.
pub fn is_width(width: u32) -> bool
    ensures { result ≡ is_width width }
{
    1 <= width && width <= MAX_WIDTH
}

/// Whether a module may have this time unit.
pub fn is_unit(precision: u8, unit: u8) -> bool
    ensures { result ≡ is_unit precision unit }
{
    unit <= MOST_UNIT && precision <= unit
}

/// Whether an expression's number is below this one.
pub fn is_before(e: usize, part: ExprId) -> bool
    ensures { result ≡ nat_lt part e }
{
    (part.number() as usize) < e
}

// Whether it is, where there is an expression.
fn is_none_or_before(e: usize, part: Option<ExprId>) -> bool
    ensures { result ≡ before e part }
{
    match part {
        None => true,
        Some(part) => is_before(e, part),
    }
}

// Whether an object's number is below this one, where there is an object.
fn is_scope_before(o: usize, scope: Option<ObjId>) -> bool
    ensures { result ≡ before o scope }
{
    match scope {
        None => true,
        Some(scope) => (scope.number() as usize) < o,
    }
}

// Whether all these expressions' numbers are below this one.
fn all_before(e: usize, parts: &[ExprId]) -> bool
    ensures { result ≡ all_before e parts.now }
{
    parts.iter().all(|part| is_before(e, *part))
}

// Whether those of a chain's operands behind the first are.
fn all_linked_before<Op: Copy>(e: usize, rest: &[Link<Op>]) -> bool
    ensures { result ≡ all_before e (operands rest.now) }
{
    rest.iter()
        .map(|link| link.part)
        .all(|part| is_before(e, part))
}

/// Whether both are signed, or neither.
pub fn same_sign(a: bool, b: bool) -> bool
    ensures { result ≡ same_sign a b }
{
    if a { b } else { !b }
}

// Whether an object may be read, or assigned to.
fn may_be(objects: &[ObjectInfo], access: Access, object: ObjId) -> bool
    ensures { result ≡ has_kind (may_be access) objects.now object }
{
    match access {
        Access::Read => is_vector_at(objects, object),
        Access::Assigned => is_variable_at(objects, object),
    }
}

// Whether digits may be selected from this.
fn fits_chosen(objects: &[ObjectInfo], e: usize, access: Access, chosen: Chosen) -> bool
    ensures { result ≡ fits_word objects.now e access chosen.object chosen.word }
{
    match chosen.word {
        None => may_be(objects, access, chosen.object),
        Some(at) => is_memory_at(objects, chosen.object) && is_before(e, at),
    }
}

// Whether the index of a select is an expression before this one.
fn fits_select(e: usize, select: Select) -> bool
    ensures { result ≡ fits_select e select }
{
    match select {
        Select::Whole | Select::Slice { .. } => true,
        Select::Bit { index, .. } => is_before(e, index),
        Select::Indexed { base, .. } => is_before(e, base),
    }
}

/// Whether this may be read or assigned to, by expressions whose numbers are below `e`.
pub fn fits_selected(objects: &[ObjectInfo], e: usize, access: Access, selected: &Selected) -> bool
    ensures { result ≡ fits_selected objects.now e access selected.now }
{
    fits_chosen(objects, e, access, selected.of) && fits_select(e, selected.select)
}

// Whether the parts of the expression `e` and what it reads may stand there.
fn fits_kind(objects: &[ObjectInfo], precision: u8, e: usize, kind: &ExprKind) -> bool
    ensures { result ≡ fits_kind objects.now precision e kind.now }
{
    match kind {
        ExprKind::Literal(_) => true,
        ExprKind::Selected(selected) => fits_selected(objects, e, Access::Read, selected),
        ExprKind::Unary { part, .. } => is_before(e, *part),
        ExprKind::Arithmetic { first, rest } => {
            is_before(e, *first) && all_linked_before(e, rest.as_slice())
        }
        ExprKind::Shift { first, rest } => {
            is_before(e, *first) && all_linked_before(e, rest.as_slice())
        }
        ExprKind::Comparison { first, rest } => {
            is_before(e, *first) && all_linked_before(e, rest.as_slice())
        }
        ExprKind::Logic { first, rest } => {
            is_before(e, *first) && all_linked_before(e, rest.as_slice())
        }
        ExprKind::Choice { condition, yes, no } => {
            is_before(e, *condition) && is_before(e, *yes) && is_before(e, *no)
        }
        ExprKind::Join { first, rest } => is_before(e, *first) && all_before(e, rest.as_slice()),
        ExprKind::Repeat { part, .. } => is_before(e, *part),
        ExprKind::WithSign { part, .. } => is_before(e, *part),
        ExprKind::Time { unit } => is_unit(precision, *unit),
        ExprKind::Call {
            function,
            result,
            arguments,
        } => {
            is_function_at(objects, *function)
                && is_variable_at(objects, *result)
                && all_before(e, arguments.get().as_slice())
        }
        ExprKind::SysCall(call) => is_system_function_at(objects, *call),
    }
}

/// Whether an expression may have the number `e`.
pub fn fits_node(
    exprs: &[ExprNode],
    objects: &[ObjectInfo],
    precision: u8,
    e: usize,
    node: &ExprNode,
) -> bool
    ensures { result ≡ fits_node exprs.now objects.now precision e node.now }
{
    fits_kind(objects, precision, e, &node.kind)
        && node.width == kind_width(exprs, objects, &node.kind)
        && is_width(node.width)
        && same_sign(node.signed, kind_signed(exprs, objects, &node.kind))
}

/// The lowest address of a memory; 0 of what is none.
pub fn lowest_of(detail: &Detail) -> u32
    ensures { result ≡ lowest_of detail.now }
{
    match detail {
        Detail::Memory(lowest) => *lowest,
        Detail::Plain
        | Detail::Net(_)
        | Detail::Port { .. }
        | Detail::Module(_)
        | Detail::Value(_)
        | Detail::Call { .. }
        | Detail::Routine(_) => 0,
    }
}

// Whether a memory has a word at this address.
fn is_address(memory: &ObjectInfo, at: u32) -> bool
    ensures { result ≡ is_address memory.now at }
{
    let lowest = lowest_of(&memory.detail);
    lowest <= at && at - lowest < memory.words
}

// Whether this object is there.
fn has_word(objects: &[ObjectInfo], object: Object) -> bool
    ensures { result ≡ has_word objects.now object.id object.word }
{
    match object.word {
        None => (object.id.number() as usize) < objects.len(),
        Some(at) => objects.get(object.id.number() as usize).map_or(
            false,
            |memory| memory.kind.is_memory() && is_address(memory, at),
        ),
    }
}

// Whether all these objects are there.
fn all_there(objects: &[ObjectInfo], args: &[Object]) -> bool
    ensures { result ≡ list_all (λ (o : Object). has_word objects.now o.id o.word) args.now }
{
    args.iter().all(|object| has_word(objects, *object))
}

// Whether what a detail names is there.
fn fits_detail(exprs: usize, bodies: usize, objects: &[ObjectInfo], detail: &Detail) -> bool
    ensures { result ≡ fits_detail exprs bodies objects.now detail.now }
{
    match detail {
        Detail::Plain => true,
        Detail::Net(_) => true,
        Detail::Port { .. } => true,
        Detail::Module(_) => true,
        Detail::Memory(_) => true,
        Detail::Value(e) => is_before(exprs, *e),
        Detail::Call { result, args, .. } => {
            is_none_or_before(exprs, *result) && all_there(objects, args.as_slice())
        }
        Detail::Routine(body) => (*body as usize) < bodies,
    }
}

/// Whether an object may have the number `o` beside so many expressions and bodies.
pub fn fits_object(
    exprs: usize,
    bodies: usize,
    objects: &[ObjectInfo],
    o: usize,
    object: &ObjectInfo,
) -> bool
    ensures { result ≡ fits_object exprs bodies objects.now o object.now }
{
    is_scope_before(o, object.parent)
        && is_width(object.width)
        && fits_detail(exprs, bodies, objects, &object.detail)
}

/// Whether a driver may stand there.
pub fn fits_driver(objects: &[ObjectInfo], driver: &DriverInfo) -> bool
    ensures { result ≡ fits_driver objects.now driver.now }
{
    is_net_at(objects, driver.object) && is_width(driver.width)
}

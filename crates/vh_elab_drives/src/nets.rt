ghost use Rattle.std.specs.Prelude.{◌≡◌, ◌^◌, ◌<ℤ◌, neg_ℤ, pos, Some, IfSome};
ghost use Rattle.vh_design_nodes.specs.Fits.{has_kind};
ghost use Rattle.vh_design_nodes.specs.Kinds;
ghost use Rattle.vh_eval.specs.Selects.{address_of, lowest_index, position_of};
ghost use Rattle.vh_ast.specs.Views.{expr_tree, name_tree, part_by, sel_tree};
ghost use Rattle.vh_bind.specs.Scopes.{here};
ghost use Rattle.vh_bind.specs.Steps.{Gives};
ghost use Rattle.vh_bind.specs.Views.{scope_seen};
ghost use Rattle.vh_elab_drives.specs.Nets;

use sqlite_items::Boxed;
use std::alloc::Global;
use vh_ast::{Esel, Expr, Name, Part, Sel};
use vh_base::{DesignFault, ObjId, Place};
use vh_bind::{ElabFault, Readable, Scope};
use vh_bind_expr::{constant_at, name_read, range_at, width_at};
use vh_design_nodes::{DriverInfo, ExprNode, Kind, ObjectInfo, Range, Select};
use vh_eval::integer;

/// How many digits an object has.
pub fn object_width(objects: &[ObjectInfo], object: ObjId) -> u32
    ensures { result ≡ Nets.width_at objects.now object }
{
    match objects.get(object.number() as usize) {
        None => 1,
        Some(info) => info.width,
    }
}

// A driver of no digit of a net.
fn past(objects: &[ObjectInfo], object: ObjId, width: u32) -> DriverInfo
    ensures { result ≡ Nets.past objects.now object width }
{
    driver(object, object_width(objects, object), width)
}

fn driver(object: ObjId, low: u32, width: u32) -> DriverInfo
    ensures { result ≡ Nets.driver object low width }
{
    DriverInfo {
        object,
        low,
        below: 0,
        width,
    }
}

fn address_of(place: i128) -> Option<u32>
    ensures { result ≡ address_of (Some place) }
{
    u32::try_from(place).ok()
}

fn from_place(objects: &[ObjectInfo], object: ObjId, width: u32, low: Option<u32>) -> DriverInfo
    ensures { result ≡ Nets.from_place objects.now object width low }
{
    match low {
        None => past(objects, object, width),
        Some(low) => driver(object, low, width),
    }
}

// So many digits from a place on, which may lie below the net's lowest digit.
fn placed(objects: &[ObjectInfo], object: ObjId, width: u32, place: i128) -> DriverInfo
    ensures { result ≡ Nets.placed objects.now object width place }
{
    if place >= 0 || place <= -i128::from(width) {
        return from_place(objects, object, width, address_of(place));
    }
    DriverInfo {
        object,
        low: 0,
        below: place.unsigned_abs() as u32,
        width,
    }
}

// The place of an index in a net that was declared so.
fn position_of(range: Range, index: i128) -> i128
    requires below { index <ℤ pos (2 ^ 65) }
    requires above { neg_ℤ (pos (2 ^ 65)) <ℤ index }
    ensures value { result ≡ position_of range index }
{
    let right = i128::from(range.right);
    if range.left >= range.right {
        index - right
    } else {
        right - index
    }
}

// The index of the lowest digit of so many.
fn lowest_index(range: Range, up: bool, index: i128, width: u32) -> i128
    requires below { index <ℤ pos (2 ^ 64) }
    requires above { neg_ℤ (pos (2 ^ 64)) <ℤ index }
    ensures value { result ≡ lowest_index range up index width }
    ensures below { result <ℤ pos (2 ^ 65) }
    ensures above { neg_ℤ (pos (2 ^ 65)) <ℤ result }
{
    let further = i128::from(width.saturating_sub(1));
    match (range.left >= range.right, up) {
        (true, true) | (false, false) => index,
        (true, false) => index - further,
        (false, true) => index + further,
    }
}

fn indexed(
    objects: &[ObjectInfo],
    object: ObjId,
    range: Range,
    up: bool,
    width: u32,
    index: Option<i128>,
) -> DriverInfo
    requires below { IfSome index (λ z. z <ℤ pos (2 ^ 64)) }
    requires above { IfSome index (λ z. neg_ℤ (pos (2 ^ 64)) <ℤ z) }
    ensures { result ≡ Nets.indexed objects.now object range up width index }
{
    match index {
        None => past(objects, object, width),
        Some(index) => {
            let place = position_of(range, lowest_index(range, up, index, width));
            placed(objects, object, width, place)
        }
    }
}

// One digit, by a constant.
fn bit_driver(
    alloc: Global,
    scope: &Scope,
    nodes: &[ExprNode],
    object: ObjId,
    range: Range,
    index: &Expr,
) -> Result<Option<DriverInfo>, ElabFault>
    ensures { Gives (Nets.bit_driver (here (scope_seen scope.now) nodes.now) object range
        (expr_tree index.now)) result }
{
    let Some(index) = constant_at(alloc, scope, nodes, index)? else {
        return Ok(None);
    };
    let index = integer(&index);
    Ok(Some(indexed(scope.objects, object, range, true, 1, index)))
}

fn slice_driver(objects: &[ObjectInfo], object: ObjId, select: Select) -> Option<DriverInfo>
    ensures { result ≡ Nets.slice_driver objects.now object select }
{
    match select {
        Select::Slice {
            range,
            lowest,
            width,
        } => {
            let place = position_of(range, i128::from(lowest));
            Some(placed(objects, object, width, place))
        }
        Select::Whole | Select::Bit { .. } | Select::Indexed { .. } => None,
    }
}

// The digits between two constants.
fn range_driver(
    alloc: Global,
    scope: &Scope,
    nodes: &[ExprNode],
    bracket: Place,
    object: ObjId,
    range: Range,
    left: &Expr,
    right: &Expr,
) -> Result<Option<DriverInfo>, ElabFault>
    ensures { Gives (Nets.range_driver (here
        (scope_seen scope.now) nodes.now) bracket object range (expr_tree left.now)
        (expr_tree right.now)) result }
{
    let Some(select) = range_at(alloc, scope, nodes, bracket, range, left, right)? else {
        return Ok(None);
    };
    Ok(slice_driver(scope.objects, object, select))
}

// So many digits from an index on.
fn indexed_driver(
    alloc: Global,
    scope: &Scope,
    nodes: &[ExprNode],
    bracket: Place,
    object: ObjId,
    range: Range,
    up: bool,
    base: &Expr,
    width: &Expr,
) -> Result<Option<DriverInfo>, ElabFault>
    ensures { Gives (Nets.indexed_driver (here
        (scope_seen scope.now) nodes.now) bracket object range up (expr_tree base.now)
        (expr_tree width.now)) result }
{
    let base = constant_at(alloc, scope, nodes, base)?;
    let width = width_at(alloc, scope, nodes, bracket, width)?;
    let Some(base) = base else {
        return Ok(None);
    };
    let Some(width) = width else {
        return Ok(None);
    };
    Ok(Some(indexed(
        scope.objects,
        object,
        range,
        up,
        width as u32,
        integer(&base),
    )))
}

// Some digits, by the last bracket of a select.
fn part_driver(
    alloc: Global,
    scope: &Scope,
    nodes: &[ExprNode],
    object: ObjId,
    range: Range,
    last: &Esel<Expr>,
) -> Result<Option<DriverInfo>, ElabFault>
    ensures { Gives (Nets.part_driver (here
        (scope_seen scope.now) nodes.now) object range last.now.place
        (part_by expr_tree last.now.part)) result }
{
    let bracket = last.place;
    match &last.part {
        Part::Index(index) => bit_driver(alloc, scope, nodes, object, range, index.get()),
        Part::Range(left, right) => range_driver(
            alloc,
            scope,
            nodes,
            bracket,
            object,
            range,
            left.get(),
            right.get(),
        ),
        Part::Up(base, width) => indexed_driver(
            alloc,
            scope,
            nodes,
            bracket,
            object,
            range,
            true,
            base.get(),
            width.get(),
        ),
        Part::Down(base, width) => indexed_driver(
            alloc,
            scope,
            nodes,
            bracket,
            object,
            range,
            false,
            base.get(),
            width.get(),
        ),
    }
}

// A net, or digits of one.
fn net_driver(
    alloc: Global,
    scope: &Scope,
    nodes: &[ExprNode],
    place: Place,
    object: ObjId,
    range: Range,
    sel: &Option<Boxed<Sel<Expr>>>,
) -> Result<Option<DriverInfo>, ElabFault>
    ensures { Gives (Nets.net_driver (here (scope_seen scope.now) nodes.now) place object range
        (sel_tree sel.now)) result }
{
    let Some(sel) = sel else {
        return Ok(Some(driver(object, 0, object_width(scope.objects, object))));
    };
    match sel.get() {
        Sel::Index(_, index) => bit_driver(alloc, scope, nodes, object, range, index.get()),
        Sel::Both { .. } => Err(ElabFault::Refused(DesignFault::N1, place)),
        Sel::Part(last) => part_driver(alloc, scope, nodes, object, range, last),
    }
}

// A memory takes none.
fn memory_fault(sel: &Option<Boxed<Sel<Expr>>>) -> DesignFault
    ensures { result ≡ Nets.memory_fault (sel_tree sel.now) }
{
    let Some(sel) = sel else {
        return DesignFault::N1;
    };
    match sel.get() {
        Sel::Part(_) => DesignFault::N1,
        Sel::Index(_, _) | Sel::Both { .. } => DesignFault::N5,
    }
}

/// Whether an object is a net.
pub fn is_net_at(objects: &[ObjectInfo], object: ObjId) -> bool
    ensures { result ≡ has_kind Kinds.is_net objects.now object }
{
    match objects.get(object.number() as usize) {
        None => false,
        Some(info) => info.kind == Kind::Net,
    }
}

// What a name with its select drives.
pub(crate) fn name_driver(
    alloc: Global,
    scope: &Scope,
    nodes: &[ExprNode],
    name: &Name<Expr>,
    sel: &Option<Boxed<Sel<Expr>>>,
) -> Result<Option<DriverInfo>, ElabFault>
    ensures { Gives (Nets.name_driver (here (scope_seen scope.now) nodes.now)
        (name_tree name.now) (sel_tree sel.now)) result }
{
    let place = name.first.id.place;
    match name_read(alloc, scope, nodes, name)? {
        Readable::Wrong | Readable::Genvar(_) => Err(ElabFault::Refused(DesignFault::N1, place)),
        Readable::Unknown => Ok(None),
        Readable::Parameter(_, _, _) => Err(ElabFault::Refused(DesignFault::N5, place)),
        Readable::Vector(object, range) => {
            if !is_net_at(scope.objects, object) {
                return Err(ElabFault::Refused(DesignFault::N5, place));
            }
            net_driver(alloc, scope, nodes, place, object, range, sel)
        }
        Readable::Memory(_, _) => Err(ElabFault::Refused(memory_fault(sel), place)),
    }
}

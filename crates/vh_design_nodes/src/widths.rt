ghost use Rattle.std.specs.Prelude.{◌≡◌, ◌+◌, ◌*◌, ◌&&◌, min, if◌then◌else◌};
ghost use Rattle.vh_logic.specs.declared.vector.TheConstants.{MAX_WIDTH};
ghost use Rattle.vh_design_nodes.specs.Widths.{width_of, signed_of, object_width, object_signed, driver_width, widest, summed, all_signed, operands, is_reduction, select_width, is_whole, selected_width, kind_width, kind_signed};

use crate::driver::DriverInfo;
use crate::expr::{Arithmetic, ExprKind, ExprNode, Link, Select, Selected, Unary};
use crate::object::ObjectInfo;
use vh_base::{DriverId, ExprId, ObjId};
use vh_logic::MAX_WIDTH;

/// The width of an expression.
pub fn width_of(exprs: &[ExprNode], e: ExprId) -> u32
    ensures { result ≡ width_of exprs.now e }
{
    exprs.get(e.number() as usize).map_or(1, |node| node.width)
}

/// Whether it is signed.
pub fn signed_of(exprs: &[ExprNode], e: ExprId) -> bool
    ensures { result ≡ signed_of exprs.now e }
{
    exprs
        .get(e.number() as usize)
        .map_or(false, |node| node.signed)
}

/// The width of an object.
pub fn object_width(objects: &[ObjectInfo], o: ObjId) -> u32
    ensures { result ≡ object_width objects.now o }
{
    objects
        .get(o.number() as usize)
        .map_or(1, |object| object.width)
}

// Whether it is signed.
fn object_signed(objects: &[ObjectInfo], o: ObjId) -> bool
    ensures { result ≡ object_signed objects.now o }
{
    objects
        .get(o.number() as usize)
        .map_or(false, |object| object.signed)
}

/// The width of a driver.
pub fn driver_width(drivers: &[DriverInfo], x: DriverId) -> u32
    ensures { result ≡ driver_width drivers.now x }
{
    drivers
        .get(x.number() as usize)
        .map_or(1, |driver| driver.width)
}

// The greatest width of a chain's operands.
fn widest(exprs: &[ExprNode], first: u32, rest: &[Link<Arithmetic>]) -> u32
    ensures { result ≡ widest exprs.now first (operands rest.now) }
{
    rest.iter()
        .map(|link| link.part)
        .fold(first, |best, e| best.max(width_of(exprs, e)))
}

// Whether all operands of a chain behind the first are signed.
fn all_signed(exprs: &[ExprNode], rest: &[Link<Arithmetic>]) -> bool
    ensures { result ≡ all_signed exprs.now (operands rest.now) }
{
    rest.iter()
        .map(|link| link.part)
        .all(|e| signed_of(exprs, e))
}

/// Two widths side by side, or one above the greatest width.
pub fn side_by_side(high: u32, low: u32) -> u32
    ensures { result ≡ min (high + low) (MAX_WIDTH + 1) }
{
    high.saturating_add(low).min(MAX_WIDTH + 1)
}

// A width so many times, or one above the greatest width.
fn repeated(count: u32, width: u32) -> u32
    ensures { result ≡ min (count * width) (MAX_WIDTH + 1) }
{
    count.saturating_mul(width).min(MAX_WIDTH + 1)
}

// The width of a concatenation.
fn summed(exprs: &[ExprNode], first: u32, rest: &[ExprId]) -> u32
    ensures { result ≡ summed exprs.now first rest.now }
{
    rest.iter()
        .fold(first, |sum, e| side_by_side(sum, width_of(exprs, *e)))
}

// Whether the operator gives one digit.
fn is_reduction(op: Unary) -> bool
    ensures { result ≡ is_reduction op }
{
    !matches!(op, Unary::Plus | Unary::Negate | Unary::Invert)
}

// The width of a unary operator's result.
fn unary_width(exprs: &[ExprNode], op: Unary, part: ExprId) -> u32
    ensures { result ≡ (if is_reduction op then 1 else width_of exprs.now part) }
{
    if is_reduction(op) {
        1
    } else {
        width_of(exprs, part)
    }
}

// How many digits a select names of so many.
fn select_width(all: u32, select: Select) -> u32
    ensures { result ≡ select_width all select }
{
    match select {
        Select::Whole => all,
        Select::Bit { .. } => 1,
        Select::Slice { width, .. } | Select::Indexed { width, .. } => width,
    }
}

/// The width of what is read or assigned to.
pub fn selected_width(objects: &[ObjectInfo], selected: &Selected) -> u32
    ensures { result ≡ selected_width objects.now selected.now }
{
    select_width(object_width(objects, selected.of.object), selected.select)
}

// Whether it is signed: a select of digits isn't.
fn selected_signed(objects: &[ObjectInfo], selected: &Selected) -> bool
    ensures { result ≡ (is_whole selected.now.select && object_signed objects.now
        selected.now.of.object) }
{
    matches!(selected.select, Select::Whole) && object_signed(objects, selected.of.object)
}

/// The width that the parts of an expression give, one above the greatest where it is more.
pub fn kind_width(exprs: &[ExprNode], objects: &[ObjectInfo], kind: &ExprKind) -> u32
    ensures { result ≡ kind_width exprs.now objects.now kind.now }
{
    match kind {
        ExprKind::Literal(value) => value.width(),
        ExprKind::Selected(selected) => selected_width(objects, selected),
        ExprKind::Unary { op, part } => unary_width(exprs, *op, *part),
        ExprKind::Arithmetic { first, rest } => {
            widest(exprs, width_of(exprs, *first), rest.as_slice())
        }
        ExprKind::Shift { first, .. } => width_of(exprs, *first),
        ExprKind::Comparison { .. } => 1,
        ExprKind::Logic { .. } => 1,
        ExprKind::Choice { yes, no, .. } => width_of(exprs, *yes).max(width_of(exprs, *no)),
        ExprKind::Join { first, rest } => summed(exprs, width_of(exprs, *first), rest.as_slice()),
        ExprKind::Repeat { count, part } => repeated(*count, width_of(exprs, *part)),
        ExprKind::WithSign { part, .. } => width_of(exprs, *part),
        ExprKind::Time { .. } => 64,
        ExprKind::Call { result, .. } => object_width(objects, *result),
        ExprKind::SysCall(call) => object_width(objects, *call),
    }
}

/// The sign that the parts of an expression give.
pub fn kind_signed(exprs: &[ExprNode], objects: &[ObjectInfo], kind: &ExprKind) -> bool
    ensures { result ≡ kind_signed exprs.now objects.now kind.now }
{
    match kind {
        ExprKind::Literal(value) => value.is_signed(),
        ExprKind::Selected(selected) => selected_signed(objects, selected),
        ExprKind::Unary { op, part } => !is_reduction(*op) && signed_of(exprs, *part),
        ExprKind::Arithmetic { first, rest } => {
            signed_of(exprs, *first) && all_signed(exprs, rest.as_slice())
        }
        ExprKind::Shift { first, .. } => signed_of(exprs, *first),
        ExprKind::Comparison { .. } => false,
        ExprKind::Logic { .. } => false,
        ExprKind::Choice { yes, no, .. } => signed_of(exprs, *yes) && signed_of(exprs, *no),
        ExprKind::Join { .. } => false,
        ExprKind::Repeat { .. } => false,
        ExprKind::WithSign { signed, .. } => *signed,
        ExprKind::Time { .. } => false,
        ExprKind::Call { result, .. } => object_signed(objects, *result),
        ExprKind::SysCall(_) => false,
    }
}

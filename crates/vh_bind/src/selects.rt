ghost use Rattle.std.specs.Prelude.{◌≡◌, ◌≤◌, ◌<◌, ◌^◌, IfOk, IfSome};
ghost use Rattle.vh_logic.specs.Number.{integer_of};
ghost use Rattle.vh_bind.specs.Steps.{Gives};
ghost use Rattle.vh_bind.specs.Selects.{integer_in, number_in, most_bound, bit_of, indexed_of, goes_with, span, slice_of, part_of, slice_select, part_select};

use crate::fault::ElabFault;
use vh_base::{DesignFault, Place};
use vh_design::{Range, Select};
use vh_eval::{integer, selected, sliced};
use vh_logic::{MAX_WIDTH, Vec4};

/// A value that has a name, with the bounds of its digits.
pub type Bounded = (Range, Vec4);

// The greatest bound.
const MOST_BOUND: u64 = 0x7fff_ffff;

/// A number of a range, at whose place anything else is a fault; none where there is no value.
pub fn number_in(
    place: Place,
    low: u64,
    high: u64,
    value: Option<Vec4>,
) -> Result<Option<u64>, ElabFault>
    ensures number { Gives (number_in place low high value) result }
    ensures least { IfOk result (λ o. IfSome o (λ n. low ≤ n)) }
    ensures most { IfOk result (λ o. IfSome o (λ n. n ≤ high)) }
{
    let Some(value) = value else {
        return Ok(None);
    };
    match integer(&value) {
        Some(n) if i128::from(low) <= n && n <= i128::from(high) => Ok(Some(n as u64)),
        _ => Err(ElabFault::Refused(DesignFault::N3, place)),
    }
}

// One digit of a value, by an index.
pub(crate) fn bit_of(value: Option<Bounded>, index: Option<Vec4>) -> Option<Vec4>
    ensures { bit_of value index ≡ Ok result }
{
    let (range, value) = value?;
    Some(selected(&value, range, true, &index?, 1))
}

// So many digits from an index on, upwards or downwards by index.
pub(crate) fn indexed_of(
    place: Place,
    up: bool,
    value: Option<Bounded>,
    base: Option<Vec4>,
    width: Option<Vec4>,
) -> Result<Option<Vec4>, ElabFault>
    ensures { Gives (indexed_of place up value base width) result }
{
    let width = number_in(place, 1, u64::from(MAX_WIDTH), width)?;
    let Some((range, value)) = value else {
        return Ok(None);
    };
    let Some(base) = base else {
        return Ok(None);
    };
    let Some(width) = width else {
        return Ok(None);
    };
    Ok(Some(selected(&value, range, up, &base, width as u32)))
}

// Whether the bounds of a part go the way of the declared ones.
fn goes_with(range: Range, left: u32, right: u32) -> bool
    ensures { result ≡ goes_with range left right }
{
    if range.left >= range.right {
        left >= right
    } else {
        left <= right
    }
}

// The digits between two bounds.
fn slice_of(place: Place, value: &Bounded, left: u32, right: u32) -> Result<Option<Vec4>, ElabFault>
    requires left { left < 2 ^ 31 }
    requires right { right < 2 ^ 31 }
    ensures { Gives (slice_of place value.now left right) result }
{
    let width = left.abs_diff(right) + 1;
    if !goes_with(value.0, left, right) || width > MAX_WIDTH {
        return Err(ElabFault::Refused(DesignFault::N3, place));
    }
    Ok(Some(sliced(&value.1, value.0, right, width)))
}

// The digits between two bounds, which go the way of the declared ones.
pub(crate) fn part_of(
    place: Place,
    value: Option<Bounded>,
    left: Option<Vec4>,
    right: Option<Vec4>,
) -> Result<Option<Vec4>, ElabFault>
    ensures { Gives (part_of place value left right) result }
{
    let left = number_in(place, 0, MOST_BOUND, left)?;
    let right = number_in(place, 0, MOST_BOUND, right)?;
    let Some(value) = value else {
        return Ok(None);
    };
    let Some(left) = left else {
        return Ok(None);
    };
    let Some(right) = right else {
        return Ok(None);
    };
    slice_of(place, &value, left as u32, right as u32)
}

// Which digits of an object, between two bounds.
fn slice_select(
    place: Place,
    range: Range,
    left: u32,
    right: u32,
) -> Result<Option<Select>, ElabFault>
    requires left { left < 2 ^ 31 }
    requires right { right < 2 ^ 31 }
    ensures { Gives (slice_select place range left right) result }
{
    let width = left.abs_diff(right) + 1;
    if !goes_with(range, left, right) || width > MAX_WIDTH {
        return Err(ElabFault::Refused(DesignFault::N3, place));
    }
    Ok(Some(Select::Slice {
        range,
        lowest: right,
        width,
    }))
}

/// Which digits of an object, between two bounds, which go the way of the declared ones.
pub fn part_select(
    place: Place,
    range: Range,
    left: Option<Vec4>,
    right: Option<Vec4>,
) -> Result<Option<Select>, ElabFault>
    ensures { Gives (part_select place range left right) result }
{
    let left = number_in(place, 0, MOST_BOUND, left)?;
    let right = number_in(place, 0, MOST_BOUND, right)?;
    let Some(left) = left else {
        return Ok(None);
    };
    let Some(right) = right else {
        return Ok(None);
    };
    slice_select(place, range, left as u32, right as u32)
}

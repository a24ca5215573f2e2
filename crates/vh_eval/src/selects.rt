ghost use Rattle.std.specs.Prelude.{◌≡◌, ◌≤◌, ◌<◌, ◌+◌, ◌^◌, ◌<ℤ◌, neg_ℤ, pos, false, IfSome};
ghost use Rattle.vh_logic.specs.Vector.{width_of, filled};
ghost use Rattle.vh_logic.specs.declared.digits.Digit.TheVariants.{X};
ghost use Rattle.vh_logic.specs.Number.{integer_at, integer_of};
ghost use Rattle.vh_logic.specs.declared.vector.TheConstants.{MAX_WIDTH};
ghost use Rattle.vh_eval.specs.Selects.{digits_above, digits_below, digits_from, position_of, lowest_index, selected, address_of};

use vh_design::Range;
use vh_logic::{Digit, Plane, Vec4, concat, mask, select};

// The integer that a number of so many digits stands for.
fn integer_at(number: Plane, width: u32, signed: bool) -> i128
    requires bound { number < 2 ^ width }
    requires least { 1 ≤ width }
    requires most { width ≤ MAX_WIDTH }
    ensures value { result ≡ integer_at width signed number }
    ensures below { result <ℤ pos (2 ^ 64) }
    ensures above { neg_ℤ (pos (2 ^ 64)) <ℤ result }
{
    let size = number as i128;
    let all = mask(width) as i128 + 1;
    if signed && 2 * size >= all {
        return size - all;
    }
    size
}

/// The integer that a value stands for, by its sign; none where a digit is x or z (IEEE 1364-2005, 4.3).
pub fn integer(v: &Vec4) -> Option<i128>
    ensures value { result ≡ integer_of v.now }
    ensures below { IfSome result (λ z. z <ℤ pos (2 ^ 64)) }
    ensures above { IfSome result (λ z. neg_ℤ (pos (2 ^ 64)) <ℤ z) }
{
    let number = v.number()?;
    Some(integer_at(number, v.width(), v.is_signed()))
}

// The address that an index names.
pub(crate) fn address_of(index: &Vec4) -> Option<u32>
    ensures { result ≡ address_of (integer_of index.now) }
{
    u32::try_from(integer(index)?).ok()
}

/// The position of an index in a range: 0 at the range's last index (IEEE 1364-2005, 4.3.1).
pub fn position_of(range: Range, index: i128) -> i128
    requires below { index <ℤ pos (2 ^ 65) }
    requires above { neg_ℤ (pos (2 ^ 65)) <ℤ index }
    ensures value { result ≡ position_of range index }
    ensures below { result <ℤ pos (2 ^ 66) }
    ensures above { neg_ℤ (pos (2 ^ 66)) <ℤ result }
{
    let right = i128::from(range.right);
    if range.left >= range.right {
        index - right
    } else {
        right - index
    }
}

/// The index of the lowest of so many digits of a select `[index +: width]`, where `up`, or
/// `[index -: width]` (IEEE 1364-2005, 5.2.1).
pub fn lowest_index(range: Range, up: bool, index: i128, width: u32) -> i128
    requires least { 1 ≤ width }
    requires below { index <ℤ pos (2 ^ 64) }
    requires above { neg_ℤ (pos (2 ^ 64)) <ℤ index }
    ensures value { result ≡ lowest_index range up index width }
    ensures below { result <ℤ pos (2 ^ 65) }
    ensures above { neg_ℤ (pos (2 ^ 65)) <ℤ result }
{
    let further = i128::from(width - 1);
    match (range.left >= range.right, up) {
        (true, true) | (false, false) => index,
        (true, false) => index - further,
        (false, true) => index + further,
    }
}

// x at so many positions.
fn unknown(width: u32) -> Vec4
    requires least { 1 ≤ width }
    requires most { width ≤ MAX_WIDTH }
    ensures value { result ≡ filled width X false }
    ensures width { width_of result ≡ width }
{
    Vec4::filled(width, Digit::X, false)
}

// So many digits from a position on.
fn digits_above(v: &Vec4, position: u128, width: u32) -> Vec4
    requires least { 1 ≤ width }
    requires most { width ≤ MAX_WIDTH }
    ensures value { result ≡ record {
      digits = digits_above (v.now).digits position width;
      signed = false;
    } }
    ensures width { width_of result ≡ width }
{
    if position >= u128::from(v.width()) {
        return unknown(width);
    }
    let position = position as u32;
    let there = v.width() - position;
    if width <= there {
        return select(v, position, width);
    }
    concat(&unknown(width - there), &select(v, position, there))
}

// So many digits from so many positions below the lowest on.
fn digits_below(v: &Vec4, distance: u128, width: u32) -> Vec4
    requires some { 1 ≤ distance }
    requires least { 1 ≤ width }
    requires most { width ≤ MAX_WIDTH }
    ensures value { result ≡ record {
      digits = digits_below (v.now).digits distance width;
      signed = false;
    } }
    ensures width { width_of result ≡ width }
{
    if distance >= u128::from(width) {
        return unknown(width);
    }
    let distance = distance as u32;
    concat(&digits_above(v, 0, width - distance), &unknown(distance))
}

// So many digits from a position on, of which 0 is the lowest.
fn digits_from(v: &Vec4, position: i128, width: u32) -> Vec4
    requires least { 1 ≤ width }
    requires most { width ≤ MAX_WIDTH }
    ensures value { result ≡ record {
      digits = digits_from (v.now).digits position width;
      signed = false;
    } }
    ensures width { width_of result ≡ width }
{
    let distance = position.unsigned_abs();
    if position < 0 {
        return digits_below(v, distance, width);
    }
    digits_above(v, distance, width)
}

/// The digits that an index selects, from it on upwards or downwards by index; x where the value has none (IEEE
/// 1364-2005, 5.2.1).
pub fn selected(v: &Vec4, range: Range, up: bool, index: &Vec4, width: u32) -> Vec4
    requires least { 1 ≤ width }
    requires most { width ≤ MAX_WIDTH }
    ensures value { result ≡ selected (v.now).digits range up (integer_of index.now) width }
    ensures width { width_of result ≡ width }
{
    let Some(index) = integer(index) else {
        return unknown(width);
    };
    let lowest = lowest_index(range, up, index, width);
    digits_from(v, position_of(range, lowest), width)
}

/// The digits from the one of a constant index on, upwards; x where the value has none (IEEE 1364-2005, 5.2.1).
pub fn sliced(v: &Vec4, range: Range, lowest: u32, width: u32) -> Vec4
    requires least { 1 ≤ width }
    requires most { width ≤ MAX_WIDTH }
    ensures value { result ≡ record {
      digits = digits_from (v.now).digits
          (position_of range (pos lowest)) width;
      signed = false;
    } }
    ensures width { width_of result ≡ width }
{
    digits_from(v, position_of(range, i128::from(lowest)), width)
}

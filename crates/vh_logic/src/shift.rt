ghost use Rattle.std.specs.Prelude.{◌≡◌, ◌≤◌, ◌<◌, ◌+◌, ◌-◌, ◌^◌, ℕ, min};
ghost use Rattle.std.specs.Int.{bit_at};
ghost use Rattle.vh_logic.specs.Vector.{width_of};
ghost use Rattle.vh_logic.specs.Shift.{shifted_left, shifted_right, shifted_right_signed};

use crate::vector::{MAX_WIDTH, Plane, Vec4, mask};

/// `a << b` and `a <<< b`, where `b` is read without a sign; all x where it has an x or z digit
/// (IEEE 1364-2005, 5.1.12).
pub fn shl(a: &Vec4, b: &Vec4) -> Vec4
    ensures value { result ≡ shifted_left a.now b.now }
    ensures width { width_of result ≡ width_of a.now }
{
    if b.bval != 0 {
        return a.unknown();
    }
    if b.aval >= a.width as Plane {
        return a.with_number(0);
    }
    let all = mask(a.width);
    let aval = (a.aval << b.aval) & all;
    let bval = (a.bval << b.aval) & all;
    Vec4 {
        aval,
        bval,
        width: a.width,
        signed: a.signed,
    }
}

/// `a >> b`, where `b` is read without a sign; all x where it has an x or z digit
/// (IEEE 1364-2005, 5.1.12).
pub fn shr(a: &Vec4, b: &Vec4) -> Vec4
    ensures value { result ≡ shifted_right a.now b.now }
    ensures width { width_of result ≡ width_of a.now }
{
    if b.bval != 0 {
        return a.unknown();
    }
    if b.aval >= a.width as Plane {
        return a.with_number(0);
    }
    Vec4 {
        aval: a.aval >> b.aval,
        bval: a.bval >> b.aval,
        width: a.width,
        signed: a.signed,
    }
}

/// `a >>> b`: a signed vector is filled with its highest digit, another with 0. `b` is read
/// without a sign; all x where it has an x or z digit (IEEE 1364-2005, 5.1.12).
pub fn sshr(a: &Vec4, b: &Vec4) -> Vec4
    ensures value { result ≡ shifted_right_signed a.now b.now }
    ensures width { width_of result ≡ width_of a.now }
{
    if b.bval != 0 {
        return a.unknown();
    }
    if !a.signed {
        return shr(a, b);
    }
    let positions = b.aval.min(a.width as Plane - 1);
    let aval = moved_down(a.aval, a.width, positions);
    let bval = moved_down(a.bval, a.width, positions);
    Vec4 {
        aval,
        bval,
        width: a.width,
        signed: a.signed,
    }
}

// A plane moved down by some positions, with its highest bit above.
fn moved_down(plane: Plane, width: u32, positions: Plane) -> Plane
    requires least { 1 ≤ width }
    requires most { width ≤ MAX_WIDTH }
    requires fits { plane < 2 ^ width }
    requires inside { positions < width }
    ensures fits { result < 2 ^ width }
    ensures bits { (i : ℕ) → i < width →
        bit_at result i ≡ bit_at plane (min (i + positions) (width - 1)) }
{
    let moved = plane >> positions;
    if plane >> (width - 1) == 1 {
        let all = mask(width);
        moved | (all ^ (all >> positions))
    } else {
        moved
    }
}

ghost use Rattle.std.specs.Prelude.{◌≡◌, ◌≤◌, ◌<◌, ◌+◌, ◌-◌, ◌^◌, ℕ, min};
ghost use Rattle.std.specs.Int.{bit_at};
ghost use Rattle.vh_logic.specs.Vector.{width_of};
ghost use Rattle.vh_logic.specs.Parts.{concatenation, part_of, replaced, resized};

use crate::vector::{MAX_WIDTH, Plane, Vec4, mask};

/// `{high, low}`, unsigned (IEEE 1364-2005, 5.1.14).
pub fn concat(high: &Vec4, low: &Vec4) -> Vec4
    requires { width_of high.now + width_of low.now ≤ MAX_WIDTH }
    ensures value { result ≡ concatenation high.now low.now }
    ensures width { width_of result ≡ width_of high.now + width_of low.now }
{
    Vec4 {
        aval: (high.aval << low.width) | low.aval,
        bval: (high.bval << low.width) | low.bval,
        width: high.width + low.width,
        signed: false,
    }
}

/// The `width` digits of `a` from position `low` on, unsigned (IEEE 1364-2005, 5.2.1).
pub fn select(a: &Vec4, low: u32, width: u32) -> Vec4
    requires least { 1 ≤ width }
    requires inside { low + width ≤ width_of a.now }
    ensures value { result ≡ part_of a.now low width }
    ensures width { width_of result ≡ width }
{
    Vec4::from_planes(width, a.aval >> low, a.bval >> low, false)
}

/// `a` with its digits from position `low` on replaced by those of `part` (IEEE 1364-2005, 5.2.1).
pub fn replace(a: &Vec4, low: u32, part: &Vec4) -> Vec4
    requires { low + width_of part.now ≤ width_of a.now }
    ensures value { result ≡ replaced a.now low part.now }
    ensures width { width_of result ≡ width_of a.now }
{
    let width = a.width;
    let hole = mask(part.width) << low;
    Vec4 {
        aval: ((a.aval | hole) ^ hole) | (part.aval << low),
        bval: ((a.bval | hole) ^ hole) | (part.bval << low),
        width,
        signed: a.signed,
    }
}

/// `a` cut at the left, or extended: by its highest digit if it is signed and the result is to be
/// signed, else by 0 (IEEE 1364-2005, 5.5.2).
pub fn resize(a: &Vec4, width: u32, signed: bool) -> Vec4
    requires least { 1 ≤ width }
    requires most { width ≤ MAX_WIDTH }
    ensures value { result ≡ resized a.now width signed }
    ensures width { width_of result ≡ width }
{
    if a.signed && signed {
        let aval = extended(a.aval, a.width, width);
        let bval = extended(a.bval, a.width, width);
        return Vec4::from_planes(width, aval, bval, true);
    }
    Vec4::from_planes(width, a.aval, a.bval, signed)
}

// A plane of `from` bits whose bits up to `to` are those of the plane, and its highest bit above.
fn extended(plane: Plane, from: u32, to: u32) -> Plane
    requires from_least { 1 ≤ from }
    requires from_most { from ≤ MAX_WIDTH }
    requires to_least { 1 ≤ to }
    requires to_most { to ≤ MAX_WIDTH }
    requires fits { plane < 2 ^ from }
    ensures { (i : ℕ) → i < to → bit_at result i ≡ bit_at plane (min i (from - 1)) }
{
    if plane >> (from - 1) == 1 {
        plane | (mask(to) ^ mask(from))
    } else {
        plane
    }
}

ghost use Rattle.std.specs.Prelude.{◌≡◌};
ghost use Rattle.vh_logic.specs.Vector.{width_of};
ghost use Rattle.vh_logic.specs.Bitwise.{bitwise_not, bitwise_and, bitwise_or, bitwise_xor, bitwise_xnor, merged};

use crate::vector::{Vec4, mask};

/// `~a`, digit by digit (IEEE 1364-2005, 5.1.10).
pub fn invert(a: &Vec4) -> Vec4
    ensures value { result ≡ bitwise_not a.now }
    ensures width { width_of result ≡ width_of a.now }
{
    Vec4 {
        aval: (a.aval ^ mask(a.width)) | a.bval,
        bval: a.bval,
        width: a.width,
        signed: a.signed,
    }
}

/// `a & b`, digit by digit (IEEE 1364-2005, 5.1.10).
pub fn and(a: &Vec4, b: &Vec4) -> Vec4
    requires widths { width_of a.now ≡ width_of b.now }
    requires signs { a.now.signed ≡ b.now.signed }
    ensures value { result ≡ bitwise_and a.now b.now }
    ensures width { width_of result ≡ width_of a.now }
{
    let aval = (a.aval | a.bval) & (b.aval | b.bval);
    let bval = aval & (a.bval | b.bval);
    Vec4 {
        aval,
        bval,
        width: a.width,
        signed: a.signed,
    }
}

/// `a | b`, digit by digit (IEEE 1364-2005, 5.1.10).
pub fn or(a: &Vec4, b: &Vec4) -> Vec4
    requires widths { width_of a.now ≡ width_of b.now }
    requires signs { a.now.signed ≡ b.now.signed }
    ensures value { result ≡ bitwise_or a.now b.now }
    ensures width { width_of result ≡ width_of a.now }
{
    let left = a.aval | a.bval;
    let right = b.aval | b.bval;
    let aval = left | right;
    let ones = (left ^ a.bval) | (right ^ b.bval);
    Vec4 {
        aval,
        bval: aval ^ ones,
        width: a.width,
        signed: a.signed,
    }
}

/// `a ^ b`, digit by digit (IEEE 1364-2005, 5.1.10).
pub fn xor(a: &Vec4, b: &Vec4) -> Vec4
    requires widths { width_of a.now ≡ width_of b.now }
    requires signs { a.now.signed ≡ b.now.signed }
    ensures value { result ≡ bitwise_xor a.now b.now }
    ensures width { width_of result ≡ width_of a.now }
{
    let bval = a.bval | b.bval;
    Vec4 {
        aval: (a.aval ^ b.aval) | bval,
        bval,
        width: a.width,
        signed: a.signed,
    }
}

/// `a ^~ b`, digit by digit (IEEE 1364-2005, 5.1.10).
pub fn xnor(a: &Vec4, b: &Vec4) -> Vec4
    requires widths { width_of a.now ≡ width_of b.now }
    requires signs { a.now.signed ≡ b.now.signed }
    ensures value { result ≡ bitwise_xnor a.now b.now }
    ensures width { width_of result ≡ width_of a.now }
{
    let bval = a.bval | b.bval;
    let aval = (a.aval ^ b.aval ^ mask(a.width)) | bval;
    Vec4 {
        aval,
        bval,
        width: a.width,
        signed: a.signed,
    }
}

/// The digits of `c ? a : b` where `c` is neither true nor false: equal known digits stay, all
/// others are x (IEEE 1364-2005, 5.1.13).
pub fn merge(a: &Vec4, b: &Vec4) -> Vec4
    requires widths { width_of a.now ≡ width_of b.now }
    requires signs { a.now.signed ≡ b.now.signed }
    ensures value { result ≡ merged a.now b.now }
    ensures width { width_of result ≡ width_of a.now }
{
    let bval = (a.aval ^ b.aval) | a.bval | b.bval;
    Vec4 {
        aval: a.aval | bval,
        bval,
        width: a.width,
        signed: a.signed,
    }
}

ghost use Rattle.std.specs.Prelude.{◌≡◌, ◌≤◌, ◌<◌, ◌*◌, ◌%◌, ◌^◌, pos, neg_ℤ, IsTrue, IfSome};
ghost use Rattle.vh_logic.specs.Vector.{width_of};
ghost use Rattle.vh_logic.specs.Number.{integer_at, integer_of, signed_integer, wrapped, vector_of};
ghost use Rattle.vh_logic.specs.Arithmetic.{sum_of, difference_of, product_of, quotient_of, remainder_of, power_of, negative_of, reciprocal_power};

use crate::vector::{MAX_WIDTH, Plane, Vec4, mask};

/// `a + b`, wrapped to the width; all x where a digit is x or z (IEEE 1364-2005, 5.1.5).
pub fn add(a: &Vec4, b: &Vec4) -> Vec4
    requires widths { width_of a.now ≡ width_of b.now }
    requires signs { a.now.signed ≡ b.now.signed }
    ensures value { result ≡ sum_of a.now b.now }
    ensures width { width_of result ≡ width_of a.now }
{
    if a.bval | b.bval != 0 {
        return a.unknown();
    }
    a.with_number(a.aval.wrapping_add(b.aval))
}

/// `a - b`, wrapped to the width; all x where a digit is x or z (IEEE 1364-2005, 5.1.5).
pub fn sub(a: &Vec4, b: &Vec4) -> Vec4
    requires widths { width_of a.now ≡ width_of b.now }
    requires signs { a.now.signed ≡ b.now.signed }
    ensures value { result ≡ difference_of a.now b.now }
    ensures width { width_of result ≡ width_of a.now }
{
    if a.bval | b.bval != 0 {
        return a.unknown();
    }
    a.with_number(a.aval.wrapping_sub(b.aval))
}

/// `a * b`, wrapped to the width; all x where a digit is x or z (IEEE 1364-2005, 5.1.5).
pub fn mul(a: &Vec4, b: &Vec4) -> Vec4
    requires widths { width_of a.now ≡ width_of b.now }
    requires signs { a.now.signed ≡ b.now.signed }
    ensures value { result ≡ product_of a.now b.now }
    ensures width { width_of result ≡ width_of a.now }
{
    if a.bval | b.bval != 0 {
        return a.unknown();
    }
    a.with_number(a.aval.wrapping_mul(b.aval))
}

/// `-a`, wrapped to the width; all x where a digit is x or z (IEEE 1364-2005, 5.1.5).
pub fn negate(a: &Vec4) -> Vec4
    ensures value { result ≡ negative_of a.now }
    ensures width { width_of result ≡ width_of a.now }
{
    if a.bval != 0 {
        return a.unknown();
    }
    a.with_number(a.aval.wrapping_neg())
}

/// `a / b` toward zero, wrapped to the width; all x where a digit is x or z, or `b` is zero
/// (IEEE 1364-2005, 5.1.5).
pub fn div(a: &Vec4, b: &Vec4) -> Vec4
    requires widths { width_of a.now ≡ width_of b.now }
    requires signs { a.now.signed ≡ b.now.signed }
    ensures value { result ≡ quotient_of a.now b.now }
    ensures width { width_of result ≡ width_of a.now }
{
    if a.bval | b.bval != 0 {
        return a.unknown();
    }
    let divisor = b.aval;
    if divisor == 0 {
        return a.unknown();
    }
    let left = magnitude_of(a.aval, a.width, a.signed);
    let right = magnitude_of(divisor, b.width, b.signed);
    a.with_number(signed_word(left.negative != right.negative, left.size / right.size))
}

/// `a % b`, with the sign of `a`; all x where a digit is x or z, or `b` is zero
/// (IEEE 1364-2005, 5.1.5).
pub fn rem(a: &Vec4, b: &Vec4) -> Vec4
    requires widths { width_of a.now ≡ width_of b.now }
    requires signs { a.now.signed ≡ b.now.signed }
    ensures value { result ≡ remainder_of a.now b.now }
    ensures width { width_of result ≡ width_of a.now }
{
    if a.bval | b.bval != 0 {
        return a.unknown();
    }
    let modulus = b.aval;
    if modulus == 0 {
        return a.unknown();
    }
    let left = magnitude_of(a.aval, a.width, a.signed);
    let right = magnitude_of(modulus, b.width, b.signed);
    a.with_number(signed_word(left.negative, left.size % right.size))
}

/// `a ** b`, wrapped to the width of `a`; all x where a digit is x or z, and for a negative power
/// of zero (IEEE 1364-2005, 5.1.5).
pub fn pow(a: &Vec4, b: &Vec4) -> Vec4
    ensures value { result ≡ power_of a.now b.now }
    ensures width { width_of result ≡ width_of a.now }
{
    if a.bval | b.bval != 0 {
        return a.unknown();
    }
    let exponent = magnitude_of(b.aval, b.width, b.signed);
    if exponent.negative {
        negative_power(a, exponent.size)
    } else {
        a.with_number(wrapping_power(a.aval, exponent.size))
    }
}

// A vector without x or z to the power of a negative exponent of this size.
fn negative_power(a: &Vec4, exponent: Plane) -> Vec4
    ensures value { IfSome (integer_of a.now)
        (λ z. result ≡ vector_of (width_of a.now) a.now.signed (reciprocal_power z exponent)) }
    ensures width { width_of result ≡ width_of a.now }
{
    let base = magnitude_of(a.aval, a.width, a.signed);
    if base.size == 0 {
        return a.unknown();
    }
    if base.size > 1 {
        return a.with_number(0);
    }
    a.with_number(signed_word(base.negative && exponent % 2 == 1, 1))
}

// `base ** exponent`, of which the bits of a plane are kept.
fn wrapping_power(base: Plane, exponent: Plane) -> Plane
    ensures { result ≡ base ^ exponent % 2 ^ MAX_WIDTH }
{
    let mut power: Plane = 1;
    let mut square = base;
    let mut left = exponent;
    while left != 0 {
        if left % 2 == 1 {
            power = power.wrapping_mul(square);
        }
        square = square.wrapping_mul(square);
        left /= 2;
    }
    power
}

// An integer as its sign and its size.
#[derive(Clone, Copy)]
struct Magnitude {
    negative: bool,
    size: Plane,
}

// The sign and the size of the integer of `number`, in two's complement where it is signed.
fn magnitude_of(number: Plane, width: u32, signed: bool) -> Magnitude
    requires least { 1 ≤ width }
    requires most { width ≤ MAX_WIDTH }
    requires fits { number < 2 ^ width }
    ensures value { integer_at width signed number ≡ signed_integer result.negative result.size }
    ensures negative { IsTrue result.negative → 0 < result.size }
    ensures zero { 0 < number → 0 < result.size }
{
    if signed && number >> (width - 1) == 1 {
        Magnitude {
            negative: true,
            size: mask(width) - number + 1,
        }
    } else {
        Magnitude {
            negative: false,
            size: number,
        }
    }
}

// The bits of a plane that an integer of this sign and size wraps to.
fn signed_word(negative: bool, size: Plane) -> Plane
    ensures { result ≡ wrapped MAX_WIDTH (signed_integer negative size) }
{
    if negative { size.wrapping_neg() } else { size }
}

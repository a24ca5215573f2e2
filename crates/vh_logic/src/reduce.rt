ghost use Rattle.std.specs.Prelude.{◌≡◌};
ghost use Rattle.vh_logic.specs.Reduce.{reduction_and, reduction_or, reduction_xor, truth_of};

use crate::digits::Digit;
use crate::vector::{Vec4, mask};

/// `&a` (IEEE 1364-2005, 5.1.11).
pub fn reduce_and(a: &Vec4) -> Digit
    ensures { result ≡ reduction_and a.now }
{
    if a.aval | a.bval != mask(a.width) {
        Digit::Zero
    } else if a.bval != 0 {
        Digit::X
    } else {
        Digit::One
    }
}

/// `|a` (IEEE 1364-2005, 5.1.11).
pub fn reduce_or(a: &Vec4) -> Digit
    ensures { result ≡ reduction_or a.now }
{
    if (a.aval | a.bval) ^ a.bval != 0 {
        Digit::One
    } else if a.bval != 0 {
        Digit::X
    } else {
        Digit::Zero
    }
}

/// `^a` (IEEE 1364-2005, 5.1.11).
pub fn reduce_xor(a: &Vec4) -> Digit
    ensures { result ≡ reduction_xor a.now }
{
    if a.bval != 0 {
        Digit::X
    } else if a.aval.count_ones() % 2 == 0 {
        Digit::Zero
    } else {
        Digit::One
    }
}

/// Whether `a` is true as a condition: 1 where some digit is 1, 0 where all are 0, else x
/// (IEEE 1364-2005, 5.1.9).
pub fn truth(a: &Vec4) -> Digit
    ensures { result ≡ truth_of a.now }
{
    if (a.aval | a.bval) ^ a.bval != 0 {
        Digit::One
    } else if a.bval != 0 {
        Digit::X
    } else {
        Digit::Zero
    }
}

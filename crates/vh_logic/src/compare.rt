ghost use Rattle.std.specs.Prelude.{◌≡◌};
ghost use Rattle.vh_logic.specs.Vector.{width_of};
ghost use Rattle.vh_logic.specs.Compare.{equality, case_equality, casez_equality, casex_equality, ordering};

use crate::digits::{Digit, from_test};
use crate::vector::Vec4;

/// `a == b`: 0 where some position has 0 against 1, else x where a digit is x or z, else 1
/// (IEEE 1364-2005, 5.1.8).
pub fn equal(a: &Vec4, b: &Vec4) -> Digit
    requires { width_of a.now ≡ width_of b.now }
    ensures { result ≡ equality a.now b.now }
{
    let unknown = a.bval | b.bval;
    if ((a.aval ^ b.aval) | unknown) ^ unknown != 0 {
        Digit::Zero
    } else if unknown != 0 {
        Digit::X
    } else {
        Digit::One
    }
}

/// `a === b`: 1 where each position has the same digit, else 0 (IEEE 1364-2005, 5.1.8).
pub fn case_equal(a: &Vec4, b: &Vec4) -> Digit
    requires { width_of a.now ≡ width_of b.now }
    ensures { result ≡ case_equality a.now b.now }
{
    let differing = (a.aval ^ b.aval) | (a.bval ^ b.bval);
    from_test(differing == 0)
}

/// Whether `casez` takes `b` for `a`: 1 where each position has the same digit, or a z on either
/// side, else 0 (IEEE 1364-2005, 9.5.1).
pub fn casez_equal(a: &Vec4, b: &Vec4) -> Digit
    requires { width_of a.now ≡ width_of b.now }
    ensures { result ≡ casez_equality a.now b.now }
{
    let differing = (a.aval ^ b.aval) | (a.bval ^ b.bval);
    let ignored = ((a.aval | a.bval) ^ a.aval) | ((b.aval | b.bval) ^ b.aval);
    from_test((differing | ignored) ^ ignored == 0)
}

/// Whether `casex` takes `b` for `a`: 1 where each position has the same digit, or an x or z on
/// either side, else 0 (IEEE 1364-2005, 9.5.1).
pub fn casex_equal(a: &Vec4, b: &Vec4) -> Digit
    requires { width_of a.now ≡ width_of b.now }
    ensures { result ≡ casex_equality a.now b.now }
{
    let ignored = a.bval | b.bval;
    from_test(((a.aval ^ b.aval) | ignored) ^ ignored == 0)
}

/// `a < b`, by sign where the vectors are signed; x where a digit is x or z
/// (IEEE 1364-2005, 5.1.7).
pub fn less(a: &Vec4, b: &Vec4) -> Digit
    requires widths { width_of a.now ≡ width_of b.now }
    requires signs { a.now.signed ≡ b.now.signed }
    ensures { result ≡ ordering a.now b.now }
{
    if a.bval | b.bval != 0 {
        return Digit::X;
    }
    let sign = if a.signed { 1 << (a.width - 1) } else { 0 };
    from_test(a.aval ^ sign < b.aval ^ sign)
}

ghost use Rattle.std.specs.Prelude.{◌≡◌};
ghost use Rattle.vh_logic.specs.Digit.{test_digit};

/// One position of a vector (IEEE 1364-2005, 4.1).
#[derive(Clone, Copy, Debug, PartialEq, Eq)]
pub enum Digit {
    /// 0, false.
    Zero,
    /// 1, true.
    One,
    /// An unknown value.
    X,
    /// High impedance, which no driver holds.
    Z,
}

// 1 for a test that holds, and 0 for one that does not.
pub(crate) fn from_test(holds: bool) -> Digit
    ensures { result ≡ test_digit holds }
{
    if holds { Digit::One } else { Digit::Zero }
}

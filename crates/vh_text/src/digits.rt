ghost use Rattle.std.specs.Prelude.{◌≡◌, ◌≤◌, ◌<◌, length};
ghost use Rattle.std.specs.List.{list_all, list_any};
ghost use Rattle.vh_logic.specs.Digit.{is_same};
ghost use Rattle.vh_logic.specs.Vector.{width_of};
ghost use Rattle.vh_text.specs.Digits.{fill_of, is_held, sized_digits};
ghost use Rattle.vh_text.specs.Literals.{of_digits};

use vh_logic::{Digit, MAX_WIDTH, Vec4, case_equal, concat, resize, select};

// Whether each digit is this one.
pub(crate) fn is_all(v: &Vec4, digit: Digit) -> bool
    ensures { result ≡ list_all (is_same digit) v.now.digits }
{
    case_equal(v, &Vec4::filled(v.width(), digit, false)) == Digit::One
}

// Whether some digit is this one.
pub(crate) fn has(v: &Vec4, digit: Digit) -> bool
    ensures { result ≡ list_any (is_same digit) v.now.digits }
{
    for i in 0..v.width() {
        if v.digit(i) == digit {
            return true;
        }
    }
    false
}

// The digit that fills the places above a highest digit.
fn fill_of(digit: Digit) -> Digit
    ensures { result ≡ fill_of digit }
{
    match digit {
        Digit::Zero | Digit::One => Digit::Zero,
        Digit::X => Digit::X,
        Digit::Z => Digit::Z,
    }
}

// Whether filling gives the digits back from the `width` lowest.
pub(crate) fn is_held(v: &Vec4, width: u32) -> bool
    ensures { result ≡ is_held width v.now.digits }
{
    if v.width() <= width {
        return true;
    }
    if width == 0 {
        return is_all(v, Digit::Zero);
    }
    let fill = fill_of(v.digit(width - 1));
    is_all(&select(v, width, v.width() - width), fill)
}

// The digits cut at the left, or filled, to a width, with a sign symbol.
pub(crate) fn sized_digits(v: &Vec4, width: u32, signed: bool) -> Vec4
    requires least { 1 ≤ width }
    requires most { width ≤ MAX_WIDTH }
    ensures { result ≡ of_digits signed v.now.digits width }
{
    if width <= v.width() {
        return resize(&select(v, 0, width), width, signed);
    }
    let highest = v.digit(v.width() - 1);
    let above = Vec4::filled(width - v.width(), fill_of(highest), false);
    resize(&concat(&above, v), width, signed)
}

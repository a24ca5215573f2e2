ghost use Rattle.std.specs.Prelude.{◌≡◌, length};
ghost use Rattle.vh_sense.specs.Edges.{is_rising, is_falling, digit_at, digits_from, differ, is_change};

use vh_design::Edge;
use vh_logic::{Digit, Vec4, case_equal, select};

// Is it a `posedge`?
fn is_rising(old: Digit, new: Digit) -> bool
    ensures { result ≡ is_rising old new }
{
    match old {
        Digit::Zero => !matches!(new, Digit::Zero),
        Digit::One => false,
        Digit::X | Digit::Z => matches!(new, Digit::One),
    }
}

// Is it a `negedge`?
fn is_falling(old: Digit, new: Digit) -> bool
    ensures { result ≡ is_falling old new }
{
    match old {
        Digit::Zero => false,
        Digit::One => !matches!(new, Digit::One),
        Digit::X | Digit::Z => matches!(new, Digit::Zero),
    }
}

// The digit at a position; x past the highest.
fn digit_at(v: &Vec4, position: u32) -> Digit
    ensures { result ≡ digit_at v.now position }
{
    if position < v.width() {
        v.digit(position)
    } else {
        Digit::X
    }
}

// How many digits of a select are there.
fn count_from(v: &Vec4, low: u32, width: u32) -> u32
    ensures { result ≡ length (digits_from v.now low width) }
{
    v.width().saturating_sub(low).min(width)
}

// Has a select other digits than before?
fn differ(old: &Vec4, new: &Vec4, low: u32, width: u32) -> bool
    ensures { result ≡ differ (digits_from old.now low width) (digits_from new.now low width) }
{
    let count = count_from(old, low, width);
    if count != count_from(new, low, width) {
        return true;
    }
    if count == 0 {
        return false;
    }
    let before = select(old, low, count);
    let after = select(new, low, count);
    !matches!(case_equal(&before, &after), Digit::One)
}

// Does the change of a select end a wait?
pub(crate) fn is_change(edge: Edge, low: u32, width: u32, old: &Vec4, new: &Vec4) -> bool
    ensures { result ≡ is_change edge low width old.now new.now }
{
    match edge {
        Edge::Any => differ(old, new, low, width),
        Edge::Rising => is_rising(digit_at(old, low), digit_at(new, low)),
        Edge::Falling => is_falling(digit_at(old, low), digit_at(new, low)),
    }
}

ghost use Rattle.std.specs.Prelude.{◌≡◌, ◌≤◌, ◌*◌, false};
ghost use Rattle.vh_logic.specs.Vector.{width_of};
ghost use Rattle.vh_logic.specs.declared.vector.TheConstants.{MAX_WIDTH};
ghost use Rattle.vh_logic.specs.Digit.{digit_not, digit_and, digit_or};
ghost use Rattle.vh_design_nodes.specs.Widths.{is_reduction};
ghost use Rattle.vh_eval.specs.Operators.{of_digit, reduction, signed_of, arithmetic_of, shift_of, comparison_of, logic_of, choice_of, times, time_in};

use vh_design::{Arithmetic, Comparison, Logic, Shift, Unary};
use vh_logic::{
    Digit, Vec4, add, and, case_equal, concat, div, equal, invert, less, merge, mul, negate, or,
    pow, reduce_and, reduce_or, reduce_xor, rem, resize, shl, shr, sshr, sub, truth, xnor, xor,
};

// A value of one digit.
pub(crate) fn of_digit(digit: Digit) -> Vec4
    ensures value { result ≡ of_digit digit }
    ensures width { width_of result ≡ 1 }
{
    Vec4::filled(1, digit, false)
}

// `~` of a digit.
fn not(digit: Digit) -> Digit
    ensures { result ≡ digit_not digit }
{
    match digit {
        Digit::Zero => Digit::One,
        Digit::One => Digit::Zero,
        Digit::X | Digit::Z => Digit::X,
    }
}

// Whether an operator is a reduction or `!`.
pub(crate) fn is_reduction(op: Unary) -> bool
    ensures { result ≡ is_reduction op }
{
    match op {
        Unary::Plus | Unary::Negate | Unary::Invert => false,
        Unary::Not | Unary::And | Unary::Nand | Unary::Or | Unary::Nor | Unary::Xor | Unary::Xnor =>
            true,
    }
}

// A value with another sign mark.
pub(crate) fn with_sign(v: &Vec4, signed: bool) -> Vec4
    ensures value { result ≡ record v.now { signed = signed } }
    ensures width { width_of result ≡ width_of v.now }
{
    resize(v, v.width(), signed)
}

// The digit that a reduction or `!` makes.
pub(crate) fn reduction(op: Unary, v: &Vec4) -> Digit
    ensures { result ≡ reduction op v.now }
{
    match op {
        Unary::Plus | Unary::Negate | Unary::Invert => Digit::X,
        Unary::Not => not(truth(v)),
        Unary::And => reduce_and(v),
        Unary::Nand => not(reduce_and(v)),
        Unary::Or => reduce_or(v),
        Unary::Nor => not(reduce_or(v)),
        Unary::Xor => reduce_xor(v),
        Unary::Xnor => not(reduce_xor(v)),
    }
}

// `+`, `-` and `~`.
pub(crate) fn sign_changed(op: Unary, v: &Vec4) -> Vec4
    ensures value { result ≡ signed_of op v.now }
    ensures width { width_of result ≡ width_of v.now }
    ensures signed { result.signed ≡ (v.now).signed }
{
    match op {
        Unary::Negate => negate(v),
        Unary::Invert => invert(v),
        Unary::Plus
        | Unary::Not
        | Unary::And
        | Unary::Nand
        | Unary::Or
        | Unary::Nor
        | Unary::Xor
        | Unary::Xnor => *v,
    }
}

// An arithmetic or bitwise operator.
pub(crate) fn arithmetic(op: Arithmetic, a: &Vec4, b: &Vec4) -> Vec4
    requires widths { width_of a.now ≡ width_of b.now }
    requires signs { (a.now).signed ≡ (b.now).signed }
    ensures value { result ≡ arithmetic_of op a.now b.now }
    ensures width { width_of result ≡ width_of a.now }
    ensures signed { result.signed ≡ (a.now).signed }
{
    match op {
        Arithmetic::Add => add(a, b),
        Arithmetic::Subtract => sub(a, b),
        Arithmetic::Multiply => mul(a, b),
        Arithmetic::Divide => div(a, b),
        Arithmetic::Remainder => rem(a, b),
        Arithmetic::And => and(a, b),
        Arithmetic::Or => or(a, b),
        Arithmetic::Xor => xor(a, b),
        Arithmetic::Xnor => xnor(a, b),
    }
}

// A shift or a power.
pub(crate) fn shift(op: Shift, a: &Vec4, b: &Vec4) -> Vec4
    ensures value { result ≡ shift_of op a.now b.now }
    ensures width { width_of result ≡ width_of a.now }
    ensures signed { result.signed ≡ (a.now).signed }
{
    match op {
        Shift::Left | Shift::SignedLeft => shl(a, b),
        Shift::Right => shr(a, b),
        Shift::SignedRight => sshr(a, b),
        Shift::Power => pow(a, b),
    }
}

// A comparison.
pub(crate) fn comparison(op: Comparison, a: &Vec4, b: &Vec4) -> Digit
    requires widths { width_of a.now ≡ width_of b.now }
    requires signs { (a.now).signed ≡ (b.now).signed }
    ensures { result ≡ comparison_of op a.now b.now }
{
    match op {
        Comparison::Less => less(a, b),
        Comparison::LessOrEqual => not(less(b, a)),
        Comparison::Greater => less(b, a),
        Comparison::GreaterOrEqual => not(less(a, b)),
        Comparison::Equal => equal(a, b),
        Comparison::NotEqual => not(equal(a, b)),
        Comparison::CaseEqual => case_equal(a, b),
        Comparison::CaseNotEqual => not(case_equal(a, b)),
    }
}

// `&&` and `||`.
pub(crate) fn logic(op: Logic, a: Digit, b: Digit) -> Digit
    ensures { result ≡ logic_of op a b }
{
    match op {
        Logic::And => both(a, b),
        Logic::Or => either(a, b),
    }
}

// `&` of two digits.
fn both(a: Digit, b: Digit) -> Digit
    ensures { result ≡ digit_and a b }
{
    match (a, b) {
        (Digit::Zero, _) | (_, Digit::Zero) => Digit::Zero,
        (Digit::One, Digit::One) => Digit::One,
        (Digit::One | Digit::X | Digit::Z, Digit::X | Digit::Z)
        | (Digit::X | Digit::Z, Digit::One) => Digit::X,
    }
}

// `|` of two digits.
fn either(a: Digit, b: Digit) -> Digit
    ensures { result ≡ digit_or a b }
{
    match (a, b) {
        (Digit::One, _) | (_, Digit::One) => Digit::One,
        (Digit::Zero, Digit::Zero) => Digit::Zero,
        (Digit::Zero | Digit::X | Digit::Z, Digit::X | Digit::Z)
        | (Digit::X | Digit::Z, Digit::Zero) => Digit::X,
    }
}

// `?:` by what its condition is.
pub(crate) fn choice(condition: Digit, a: Vec4, b: Vec4) -> Vec4
    requires widths { width_of a ≡ width_of b }
    requires signs { a.signed ≡ b.signed }
    ensures value { result ≡ choice_of condition a b }
    ensures width { width_of result ≡ width_of a }
    ensures signed { result.signed ≡ a.signed }
{
    match condition {
        Digit::Zero => b,
        Digit::One => a,
        Digit::X | Digit::Z => merge(&a, &b),
    }
}

// A value so many times, at least once.
pub(crate) fn repeated(v: &Vec4, count: u32) -> Vec4
    requires some { 1 ≤ count }
    requires fits { count * width_of v.now ≤ MAX_WIDTH }
    ensures value { result ≡ record { digits = times count (v.now).digits; signed = false } }
    ensures width { width_of result ≡ count * width_of v.now }
{
    let mut all = resize(v, v.width(), false);
    for _ in 1..count {
        all = concat(&all, v);
    }
    all
}

// `$time` in units of a module.
pub(crate) fn time_in(time: u64, unit: u8, precision: u8) -> Vec4
    requires most { unit ≤ 17 }
    requires least { precision ≤ unit }
    ensures value { result ≡ time_in time unit precision }
    ensures width { width_of result ≡ 64 }
{
    let ratio = 10u128.pow(u32::from(unit - precision));
    let rounded = (2 * u128::from(time) + ratio) / (2 * ratio);
    Vec4::from_planes(64, rounded as u64, 0, false)
}

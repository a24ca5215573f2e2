ghost use Rattle.std.specs.Prelude.{◌≡◌, ◌≤◌, ◌<◌, ◌*◌, ◌^◌, ◌<ℤ◌, neg_ℤ, pos, length, true, IfSome};
ghost use Rattle.vh_logic.specs.declared.vector.TheConstants.{MAX_WIDTH};
ghost use Rattle.vh_logic.specs.Vector.{width_of as digits_in};
ghost use Rattle.vh_design_code.specs.Targets.{fits_delay};
ghost use Rattle.vh_proc_assign.specs.Values as values;
ghost use Rattle.vh_proc_assign.specs.Values.{value_alone, integer_alone, right_side, units_in, delay_of};

use vh_base::{ExprId, MOST_TIME};
use vh_design::{Delay, Design};
use vh_eval::{eval, integer};
use vh_logic::{Vec4, select};
use vh_store::Store;

/// The value of an expression where nothing around it asks for more (IEEE 1364-2005, 5.4.1).
pub fn value_alone(d: &Design, s: &Store, e: ExprId) -> Vec4
    requires { e < length (d.now).exprs }
    ensures { result ≡ value_alone d.now s.now e }
{
    eval(d, s, e, d.width(e), d.is_signed(e))
}

/// The integer that it stands for, by its sign; none where a digit is x or z (IEEE 1364-2005, 4.3).
pub fn integer_alone(d: &Design, s: &Store, e: ExprId) -> Option<i128>
    requires { e < length (d.now).exprs }
    ensures value { result ≡ integer_alone d.now s.now e }
    ensures below { IfSome result (λ z. z <ℤ pos (2 ^ 64)) }
    ensures above { IfSome result (λ z. neg_ℤ (pos (2 ^ 64)) <ℤ z) }
{
    integer(&value_alone(d, s, e))
}

/// The value of the right side of an assignment to so many digits: it has the greater of its own
/// width and theirs, and is cut at the left (IEEE 1364-2005, 5.4.1 and 9.2).
pub fn right_side(d: &Design, s: &Store, e: ExprId, width: u32) -> Vec4
    requires known { e < length (d.now).exprs }
    requires least { 1 ≤ width }
    requires most { width ≤ MAX_WIDTH }
    ensures value { result ≡ right_side d.now s.now e width }
    ensures width { digits_in result ≡ width }
{
    let v = eval(d, s, e, d.width(e).max(width), d.is_signed(e));
    select(&v, 0, width)
}

// An amount in units: a negative one modulo 2^64, and none as 0.
fn units_in(amount: Option<i128>) -> u64
    requires below { IfSome amount (λ z. z <ℤ pos (2 ^ 64)) }
    requires above { IfSome amount (λ z. neg_ℤ (pos (2 ^ 64)) <ℤ z) }
    ensures { result ≡ units_in amount }
{
    match amount {
        None => 0,
        Some(amount) => amount.rem_euclid(1_i128 << 64).unsigned_abs() as u64,
    }
}

// A delay in units of the simulation's precision.
fn delay_of(d: &Design, s: &Store, delay: Delay) -> u128
    requires { fits_delay (length (d.now).exprs) (d.now).precision delay ≡ true }
    ensures value { result ≡ delay_of d.now s.now delay }
    ensures most { result < 2 ^ 64 * 10 ^ 17 }
{
    let units = units_in(integer_alone(d, s, delay.amount));
    u128::from(units) * 10_u128.pow(u32::from(delay.unit - d.precision()))
}

/// The time after a delay, in units of the simulation's precision (IEEE 1364-2005, 9.7.1); none
/// above [`MOST_TIME`].
pub fn time_after(d: &Design, s: &Store, delay: Delay) -> Option<u64>
    requires { fits_delay (length (d.now).exprs) (d.now).precision delay ≡ true }
    ensures time { result ≡ values.time_after d.now s.now delay }
    ensures later { IfSome result (λ time. (s.now).time ≤ time) }
{
    let time = u128::from(s.time()) + delay_of(d, s, delay);
    if time <= u128::from(MOST_TIME) {
        Some(time as u64)
    } else {
        None
    }
}

//! The operators as a plain program that goes digit by digit, or over machine integers: what the
//! kernels over whole planes are compared with.

use std::alloc::{AllocError, Global};
use vh_logic::{Digit, Vec4};

/// A vector as the list of its digits, lowest first.
pub fn digits(alloc: Global, v: &Vec4) -> Result<Vec<Digit>, AllocError> {
    let mut list = Vec::new(alloc);
    for i in 0..v.width() {
        list.push(v.digit(i))?;
    }
    Ok(list)
}

pub fn is_known(d: Digit) -> bool {
    d == Digit::Zero || d == Digit::One
}

pub fn is_all_known(list: &[Digit]) -> bool {
    for d in list {
        if !is_known(*d) {
            return false;
        }
    }
    true
}

pub fn of_test(holds: bool) -> Digit {
    if holds { Digit::One } else { Digit::Zero }
}

#[derive(Clone, Copy)]
pub enum Bitwise {
    And,
    Or,
    Xor,
    Xnor,
    Merge,
}

pub fn bit(op: Bitwise, x: Digit, y: Digit) -> Digit {
    let known = is_known(x) && is_known(y);
    match op {
        Bitwise::And => {
            if x == Digit::Zero || y == Digit::Zero {
                Digit::Zero
            } else if known {
                Digit::One
            } else {
                Digit::X
            }
        }
        Bitwise::Or => {
            if x == Digit::One || y == Digit::One {
                Digit::One
            } else if known {
                Digit::Zero
            } else {
                Digit::X
            }
        }
        Bitwise::Xor => if known { of_test(x != y) } else { Digit::X },
        Bitwise::Xnor => if known { of_test(x == y) } else { Digit::X },
        Bitwise::Merge => if known && x == y { x } else { Digit::X },
    }
}

pub fn each_place(
    alloc: Global,
    op: Bitwise,
    a: &[Digit],
    b: &[Digit],
) -> Result<Vec<Digit>, AllocError> {
    let mut list = Vec::new(alloc);
    for (x, y) in a.iter().zip(b) {
        list.push(bit(op, *x, *y))?;
    }
    Ok(list)
}

pub fn inverted(alloc: Global, a: &[Digit]) -> Result<Vec<Digit>, AllocError> {
    let mut list = Vec::new(alloc);
    for x in a {
        list.push(if is_known(*x) {
            of_test(*x == Digit::Zero)
        } else {
            Digit::X
        })?;
    }
    Ok(list)
}

/// An operator between all digits, first those of the two highest places.
pub fn reduced(op: Bitwise, unit: Digit, a: &[Digit]) -> Digit {
    let mut result = unit;
    for x in a.iter().rev() {
        result = bit(op, result, *x);
    }
    result
}

pub fn truth(a: &[Digit]) -> Digit {
    for x in a {
        if *x == Digit::One {
            return Digit::One;
        }
    }
    if is_all_known(a) {
        Digit::Zero
    } else {
        Digit::X
    }
}

pub fn equal(a: &[Digit], b: &[Digit]) -> Digit {
    for (x, y) in a.iter().zip(b) {
        if is_known(*x) && is_known(*y) && *x != *y {
            return Digit::Zero;
        }
    }
    if is_all_known(a) && is_all_known(b) {
        Digit::One
    } else {
        Digit::X
    }
}

pub fn case_equal(a: &[Digit], b: &[Digit]) -> Digit {
    for (x, y) in a.iter().zip(b) {
        if *x != *y {
            return Digit::Zero;
        }
    }
    Digit::One
}

pub fn casez_equal(a: &[Digit], b: &[Digit]) -> Digit {
    for (x, y) in a.iter().zip(b) {
        if *x != Digit::Z && *y != Digit::Z && *x != *y {
            return Digit::Zero;
        }
    }
    Digit::One
}

pub fn casex_equal(a: &[Digit], b: &[Digit]) -> Digit {
    for (x, y) in a.iter().zip(b) {
        if is_known(*x) && is_known(*y) && *x != *y {
            return Digit::Zero;
        }
    }
    Digit::One
}

/// The integer of known digits, in two's complement if they are signed.
pub fn integer(list: &[Digit], signed: bool) -> Option<i64> {
    let mut number: i64 = 0;
    let mut place: i64 = 1;
    let mut highest = Digit::Zero;
    for d in list {
        if !is_known(*d) {
            return None;
        }
        if *d == Digit::One {
            number = number.wrapping_add(place);
        }
        place = place.wrapping_mul(2);
        highest = *d;
    }
    if signed && highest == Digit::One {
        number = number.wrapping_sub(place);
    }
    Some(number)
}

/// The lowest digits of an integer, or all x.
pub fn wrapped(
    alloc: Global,
    integer: Option<i64>,
    width: usize,
) -> Result<Vec<Digit>, AllocError> {
    let mut list = Vec::new(alloc);
    let mut rest = integer.unwrap_or(0);
    for _ in 0..width {
        list.push(if integer.is_none() {
            Digit::X
        } else {
            of_test(rest & 1 == 1)
        })?;
        rest = rest >> 1;
    }
    Ok(list)
}

#[derive(Clone, Copy)]
pub enum Arithmetic {
    Add,
    Sub,
    Mul,
    Div,
    Rem,
    Pow,
}

/// The answer over machine integers, none where there is no number.
pub fn computed(op: Arithmetic, x: i64, y: i64) -> Option<i64> {
    match op {
        Arithmetic::Add => Some(x.wrapping_add(y)),
        Arithmetic::Sub => Some(x.wrapping_sub(y)),
        Arithmetic::Mul => Some(x.wrapping_mul(y)),
        Arithmetic::Div => x.checked_div(y),
        Arithmetic::Rem => x.checked_rem(y),
        Arithmetic::Pow => power(x, y),
    }
}

fn power(x: i64, y: i64) -> Option<i64> {
    if y < 0 {
        return match x {
            0 => None,
            1 => Some(1),
            -1 => Some(if y & 1 == 0 { 1 } else { -1 }),
            _ => Some(0),
        };
    }
    let mut product: i64 = 1;
    for _ in 0..y {
        product = product.wrapping_mul(x);
    }
    Some(product)
}

pub fn on_integers(
    alloc: Global,
    op: Arithmetic,
    a: &[Digit],
    a_signed: bool,
    b: &[Digit],
    b_signed: bool,
) -> Result<Vec<Digit>, AllocError> {
    let answer = match (integer(a, a_signed), integer(b, b_signed)) {
        (Some(x), Some(y)) => computed(op, x, y),
        _ => None,
    };
    wrapped(alloc, answer, a.len())
}

pub fn negated(alloc: Global, a: &[Digit], signed: bool) -> Result<Vec<Digit>, AllocError> {
    let answer = match integer(a, signed) {
        Some(x) => Some(x.wrapping_neg()),
        None => None,
    };
    wrapped(alloc, answer, a.len())
}

pub fn less(a: &[Digit], b: &[Digit], signed: bool) -> Digit {
    match (integer(a, signed), integer(b, signed)) {
        (Some(x), Some(y)) => of_test(x < y),
        _ => Digit::X,
    }
}

// The digits moved up by one place.
fn up(alloc: Global, a: &[Digit]) -> Result<Vec<Digit>, AllocError> {
    let mut list = Vec::new(alloc);
    let mut carried = Digit::Zero;
    for x in a {
        list.push(carried)?;
        carried = *x;
    }
    Ok(list)
}

// The digits moved down by one place, with `fill` above.
fn down(alloc: Global, a: &[Digit], fill: Digit) -> Result<Vec<Digit>, AllocError> {
    let mut list = Vec::new(alloc);
    let mut first = true;
    for x in a {
        if !first {
            list.push(*x)?;
        }
        first = false;
    }
    list.push(fill)?;
    Ok(list)
}

pub fn highest(a: &[Digit]) -> Digit {
    let mut last = Digit::Zero;
    for x in a {
        last = *x;
    }
    last
}

#[derive(Clone, Copy)]
pub enum Shift {
    Up,
    Down(Digit),
}

/// The digits moved place after place, as often as `b` says without a sign.
pub fn shifted(
    alloc: Global,
    shift: Shift,
    a: &[Digit],
    b: &[Digit],
) -> Result<Vec<Digit>, AllocError> {
    let Some(places) = integer(b, false) else {
        return wrapped(alloc, None, a.len());
    };
    let mut list = Vec::from_slice(alloc, a)?;
    for _ in 0..places {
        list = match shift {
            Shift::Up => up(alloc, &list)?,
            Shift::Down(fill) => down(alloc, &list, fill)?,
        };
    }
    Ok(list)
}

pub fn concatenated(
    alloc: Global,
    high: &[Digit],
    low: &[Digit],
) -> Result<Vec<Digit>, AllocError> {
    let mut list = Vec::from_slice(alloc, low)?;
    list.extend_from_slice(high)?;
    Ok(list)
}

/// The digits from place `low` on, `width` of them.
pub fn selected(
    alloc: Global,
    a: &[Digit],
    low: usize,
    width: usize,
) -> Result<Vec<Digit>, AllocError> {
    let mut list = Vec::new(alloc);
    for (i, x) in a.iter().enumerate() {
        if low <= i && i - low < width {
            list.push(*x)?;
        }
    }
    Ok(list)
}

pub fn replaced(
    alloc: Global,
    a: &[Digit],
    low: usize,
    part: &[Digit],
) -> Result<Vec<Digit>, AllocError> {
    let mut list = Vec::new(alloc);
    for (i, x) in a.iter().enumerate() {
        if low <= i && i - low < part.len() {
            list.push(part[i - low])?;
        } else {
            list.push(*x)?;
        }
    }
    Ok(list)
}

pub fn resized(
    alloc: Global,
    a: &[Digit],
    fill: Digit,
    width: usize,
) -> Result<Vec<Digit>, AllocError> {
    let mut list = Vec::new(alloc);
    for i in 0..width {
        list.push(if i < a.len() { a[i] } else { fill })?;
    }
    Ok(list)
}

ghost use Rattle.std.specs.Prelude.{◌≡◌, ◌≤◌, ◌<◌, ◌^◌, ◌∷◌, [], ◌++◌, false, length, IfOk, OnOk, IfSome, pos, neg_ℤ};
ghost use Rattle.std.specs.Option.{option_map_or};
ghost use Rattle.std.specs.Char.{digit_char};
ghost use Rattle.std.specs.Fmt.{signed_decimal, digits};
ghost use Rattle.std.specs.String.{string_bytes};
ghost use Rattle.vh_logic.specs.Vector.{width_of};
ghost use Rattle.vh_logic.specs.Number.{integer_of, known_number};
ghost use Rattle.vh_text.specs.Texts.{text, vector_text, group_count, digits_text, character_text, unknown_letter};

use crate::digits::{has, is_all};
use crate::radix::Radix;
use std::alloc::Global;
use vh_base::NoMemory;
use vh_logic::{Digit, MAX_WIDTH, Plane, Vec4, mask, select};

/// The text of a value in a base, as `%b`, `%o` and `%h` show it, and `%0d` for `Decimal`
/// (IEEE 1364-2005, 17.1.1). It takes memory once, and time in the number of digits.
pub fn text_of(alloc: Global, v: &Vec4, radix: Radix) -> Result<String, NoMemory>
    ensures { IfOk result (λ t. string_bytes t ≡ text radix v.now) }
{
    match radix {
        Radix::Binary => grouped(alloc, v, 1),
        Radix::Octal => grouped(alloc, v, 3),
        Radix::Hex => grouped(alloc, v, 4),
        Radix::Decimal => decimal(alloc, v),
    }
}

/// The two planes of a value in lower-case hexadecimal, `AVAL:BVAL`, without leading zeros
/// (IEEE 1364-2005, 27.14). It takes memory, and a constant time.
pub fn vector_text_of(alloc: Global, v: &Vec4) -> Result<String, NoMemory>
    ensures { IfOk result (λ t. string_bytes t ≡ vector_text v.now) }
{
    let mut text = String::new(alloc);
    push_plane(&mut text, v.aval())?;
    text.push(':')?;
    push_plane(&mut text, v.bval())?;
    Ok(text)
}

// Appends a plane in lower-case hexadecimal, without leading zeros.
fn push_plane(text: &mut String, plane: Plane) -> Result<(), NoMemory>
    ensures { OnOk result (string_bytes text.new ≡ string_bytes text.old ++ digits 16 false plane) }
{
    if plane >= 16 {
        push_plane(text, plane / 16)?;
    }
    text.push(digit_character(plane % 16))?;
    Ok(())
}

// How many groups of `group` digits hold a number of digits.
pub(crate) fn group_count(width: u32, group: u32) -> u32
    requires least { 1 ≤ group }
    requires most { group ≤ 4 }
    requires width { width ≤ MAX_WIDTH }
    ensures { result ≡ group_count group width }
{
    (width + (group - 1)) / group
}

/// The text of a value in base two, in place of what stood there: so it takes no memory where that
/// has room for a digit a bit.
pub fn write_binary(out: &mut String, v: &Vec4) -> Result<(), NoMemory>
    ensures { OnOk result (string_bytes out.new ≡ text Radix.Binary v.now) }
{
    write_grouped(out, v, 1)
}

// The digits in groups of `group`, one character each.
fn grouped(alloc: Global, v: &Vec4, group: u32) -> Result<String, NoMemory>
    requires least { 1 ≤ group }
    requires most { group ≤ 4 }
    ensures { IfOk result (λ t. string_bytes t ≡ digits_text group v.now) }
{
    let mut text = String::new(alloc);
    write_grouped(&mut text, v, group)?;
    Ok(text)
}

// The same in place of what stood there.
fn write_grouped(out: &mut String, v: &Vec4, group: u32) -> Result<(), NoMemory>
    requires least { 1 ≤ group }
    requires most { group ≤ 4 }
    ensures { OnOk result (string_bytes out.new ≡ digits_text group v.now) }
{
    let width = v.width();
    let mut left = group_count(width, group);
    out.clear();
    out.reserve(left as usize)?;
    while left > 0 {
        left -= 1;
        let low = left * group;
        let part = select(v, low, group.min(width - low));
        out.push(character(&part))?;
    }
    Ok(())
}

// The character of a group of digits.
fn character(v: &Vec4) -> char
    requires { width_of v.now ≤ 4 }
    ensures value { result ∷ [] ≡ character_text v.now.digits }
    ensures ascii { result < 128 }
{
    match v.number() {
        Some(n) => digit_character(n),
        None => unknown(v),
    }
}

// The character of a number below 16.
fn digit_character(n: Plane) -> char
    requires { n < 16 }
    ensures value { result ≡ digit_char n }
    ensures ascii { result < 128 }
{
    char::from_digit(n as u32, 16).unwrap()
}

// The letter of digits that have no number.
fn unknown(v: &Vec4) -> char
    ensures value { result ≡ unknown_letter v.now.digits }
    ensures ascii { result < 128 }
{
    if is_all(v, Digit::X) {
        return 'x';
    }
    if is_all(v, Digit::Z) {
        return 'z';
    }
    if has(v, Digit::X) { 'X' } else { 'Z' }
}

// All digits as one number, with a minus where it is negative.
fn decimal(alloc: Global, v: &Vec4) -> Result<String, NoMemory>
    ensures { IfOk result (λ t. string_bytes t ≡ text Radix.Decimal v.now) }
{
    let Some(n) = v.number() else {
        return letter(alloc, v);
    };
    match negative_size(v, n) {
        Some(size) => Ok(format!(in alloc; "-{size}")?),
        None => Ok(format!(in alloc; "{n}")?),
    }
}

// The letter of digits that have no number, as a text.
fn letter(alloc: Global, v: &Vec4) -> Result<String, NoMemory>
    ensures { IfOk result (λ t. string_bytes t ≡ unknown_letter v.now.digits ∷ []) }
{
    let mut text = String::with_capacity(alloc, 1)?;
    text.push(unknown(v))?;
    Ok(text)
}

// The size of a negative integer, whose digits are those of the number `n`; `None` where it is
// `n` itself.
fn negative_size(v: &Vec4, n: Plane) -> Option<Plane>
    requires { known_number v.now.digits ≡ Some n }
    ensures value { integer_of v.now ≡
        Some (option_map_or (λ size. neg_ℤ (pos size)) result (pos n)) }
    ensures positive { IfSome result (λ size. 0 < size) }
{
    let width = v.width();
    if v.is_signed() && n >> (width - 1) == 1 {
        return Some(mask(width) - n + 1);
    }
    None
}

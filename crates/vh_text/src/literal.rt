ghost use Rattle.std.specs.Prelude.{◌≡◌, ◌==◌, ℕ, List, Option, IsSome, IfOk, is_some};
ghost use Rattle.std.specs.List.{list_all};
ghost use Rattle.std.specs.Option.{option_map};
ghost use Rattle.vh_logic.specs.declared.digits.Digit.{Digit};
ghost use Rattle.vh_text.specs.Digits.{characters, spelled_characters};
ghost use Rattle.vh_text.specs.Literals.{literal, plain_value, size_of_number, natural_width, plain_digits, width_by, at_width, of_number, number_value, pattern_value, lone_letter, decimal_part, digits_part, base_part, signed_part, based_value};
ghost use Rattle.vh_text.specs.Symbols.{base_of};
ghost use Rattle.vh_text.specs.Views.{pattern_of, pattern_held, number_kept, number_held, IsWidthIfSome, HasWidth};

use crate::digits::{is_held, sized_digits};
use crate::number::{INTEGER_WIDTH, Number, read_number, unsigned_number};
use crate::pattern::{Pattern, read_pattern, z_of_question};
use crate::radix::Radix;
use crate::scan::{after_white, is_sign_byte, is_x_letter, is_z_letter, number_len};
use thiserror::Error;
use vh_logic::{Digit, MAX_WIDTH, NATURAL_WIDTHS, Plane, Vec4};

/// Why the bytes of a literal have no value.
#[derive(Clone, Copy, Debug, PartialEq, Eq, Error)]
pub enum LiteralFault {
    /// As IEEE 1364-2005, 3.5.1 has it.
    #[error("the bytes are no number")]
    Malformed,
    /// Its size is above the greatest width of a vector, or it has none and no width holds its
    /// value.
    #[error("a number that no vector holds")]
    TooWide,
}

// The size of a literal, in digits.
#[derive(Clone, Copy, Debug, PartialEq, Eq)]
pub(crate) enum Size {
    // No size is written.
    Absent,
    // A size that a vector may have.
    Given(u32),
    // A size above the greatest width.
    Beyond,
}

/// The value of a number as a source writes it, from its first byte to its last (IEEE 1364-2005,
/// 3.5.1). It takes time in the number of bytes.
pub fn read_literal(bytes: &[u8]) -> Result<Vec4, LiteralFault>
    ensures { result ≡ literal bytes.now }
{
    let (front, rest) = bytes.split_at(number_len(bytes));
    if front.is_empty() {
        return based_value(rest, Size::Absent);
    }
    let number = unsigned_number(front);
    if rest.is_empty() {
        return plain_value(number);
    }
    match size_of_number(number) {
        Ok(size) => based_value(after_white(rest), size),
        Err(fault) => Err(fault),
    }
}

// The size that a number gives.
fn size_of_number(number: Option<Number>) -> Result<Size, LiteralFault>
    ensures value { (n : Option ℕ) → number ≡ option_map number_kept n → result ≡ size_of_number n }
    ensures width { IfOk result HasWidth }
{
    let Some(number) = number else {
        return Err(LiteralFault::Malformed);
    };
    if !number.fits || number.low > Plane::from(MAX_WIDTH) {
        return Ok(Size::Beyond);
    }
    if number.low == 0 {
        return Err(LiteralFault::Malformed);
    }
    Ok(Size::Given(number.low as u32))
}

// A number without base.
fn plain_value(number: Option<Number>) -> Result<Vec4, LiteralFault>
    ensures { (n : Option ℕ) → number ≡ option_map number_kept n → result ≡ plain_value n }
{
    let Some(number) = number else {
        return Err(LiteralFault::Malformed);
    };
    of_number(&number, true, plain_width(&number))
}

// What stands behind the size: an apostrophe, the symbol of a sign, a base, digits.
fn based_value(bytes: &[u8], size: Size) -> Result<Vec4, LiteralFault>
    requires { HasWidth size }
    ensures { result ≡ based_value bytes.now size }
{
    let Some((first, rest)) = bytes.split_first() else {
        return Err(LiteralFault::Malformed);
    };
    if *first == b'\'' {
        signed_part(size, rest)
    } else {
        Err(LiteralFault::Malformed)
    }
}

// What stands behind the apostrophe.
fn signed_part(size: Size, bytes: &[u8]) -> Result<Vec4, LiteralFault>
    requires { HasWidth size }
    ensures { result ≡ signed_part size bytes.now }
{
    let Some((first, rest)) = bytes.split_first() else {
        return Err(LiteralFault::Malformed);
    };
    if is_sign_byte(*first) {
        base_part(size, true, rest)
    } else {
        base_part(size, false, bytes)
    }
}

// A base letter, white space and digits.
fn base_part(size: Size, signed: bool, bytes: &[u8]) -> Result<Vec4, LiteralFault>
    requires { HasWidth size }
    ensures { result ≡ base_part size signed bytes.now }
{
    let Some((first, rest)) = bytes.split_first() else {
        return Err(LiteralFault::Malformed);
    };
    let Some(base) = base_of(*first) else {
        return Err(LiteralFault::Malformed);
    };
    let digits = after_white(rest);
    if is_begun(digits) {
        digits_part(size, signed, base, digits)
    } else {
        Err(LiteralFault::Malformed)
    }
}

// The base that a letter names.
fn base_of(b: u8) -> Option<Radix>
    ensures { result ≡ base_of b }
{
    match b {
        b'b' | b'B' => Some(Radix::Binary),
        b'o' | b'O' => Some(Radix::Octal),
        b'd' | b'D' => Some(Radix::Decimal),
        b'h' | b'H' => Some(Radix::Hex),
        _ => None,
    }
}

// Whether there is a first byte, and it is no underscore.
fn is_begun(bytes: &[u8]) -> bool
    ensures { result ≡ is_some (spelled_characters bytes.now) }
{
    match bytes.first() {
        Some(first) => *first != b'_',
        None => false,
    }
}

// The digits behind a base letter.
fn digits_part(size: Size, signed: bool, base: Radix, bytes: &[u8]) -> Result<Vec4, LiteralFault>
    requires width { HasWidth size }
    requires begun { IsSome (spelled_characters bytes.now) }
    ensures { result ≡ digits_part size signed (Some base) (spelled_characters bytes.now) }
{
    match base {
        Radix::Binary => pattern_value(size, signed, read_pattern(bytes, 1)),
        Radix::Octal => pattern_value(size, signed, read_pattern(bytes, 3)),
        Radix::Hex => pattern_value(size, signed, read_pattern(bytes, 4)),
        Radix::Decimal => decimal_part(size, signed, bytes),
    }
}

// One x or z for all digits, or a number.
fn decimal_part(size: Size, signed: bool, bytes: &[u8]) -> Result<Vec4, LiteralFault>
    requires width { HasWidth size }
    requires begun { IsSome (spelled_characters bytes.now) }
    ensures { result
        ≡ decimal_part size signed (characters bytes.now) (lone_letter (characters bytes.now)) }
{
    if let Some(digit) = lone_letter(bytes) {
        let pattern = Pattern {
            value: Vec4::filled(1, digit, false),
            is_held: true,
        };
        return pattern_value(size, signed, Some(pattern));
    }
    number_value(size, signed, read_number(bytes))
}

// The one x or z that stands for all digits.
fn lone_letter(bytes: &[u8]) -> Option<Digit>
    requires { IsSome (spelled_characters bytes.now) }
    ensures { result ≡ lone_letter (characters bytes.now) }
{
    let (first, rest) = bytes.split_first()?;
    if !are_underscores(rest) {
        return None;
    }
    let letter = z_of_question(*first);
    if is_x_letter(letter) {
        return Some(Digit::X);
    }
    if is_z_letter(letter) {
        return Some(Digit::Z);
    }
    None
}

// Whether all bytes are underscores.
fn are_underscores(bytes: &[u8]) -> bool
    ensures { result ≡ list_all (λ b. b == 95) bytes.now }
{
    bytes.iter().all(|b| *b == b'_')
}

// A decimal number behind a base.
fn number_value(size: Size, signed: bool, number: Option<Number>) -> Result<Vec4, LiteralFault>
    requires { HasWidth size }
    ensures { (n : Option ℕ) → number ≡ option_map number_kept n →
        result ≡ number_value size signed n }
{
    let Some(number) = number else {
        return Err(LiteralFault::Malformed);
    };
    of_number(&number, signed, width_by(size, number_width(&number)))
}

// Digits behind a base.
fn pattern_value(size: Size, signed: bool, pattern: Option<Pattern>) -> Result<Vec4, LiteralFault>
    requires { HasWidth size }
    ensures { (ds : Option (List Digit)) → pattern ≡ option_map pattern_of ds
        → result ≡ pattern_value size signed ds }
{
    let Some(pattern) = pattern else {
        return Err(LiteralFault::Malformed);
    };
    match width_by(size, pattern_width(&pattern)) {
        Some(width) => Ok(sized_digits(&pattern.value, width, signed)),
        None => Err(LiteralFault::TooWide),
    }
}

// The lowest digits of a number, at the width that there is.
fn of_number(number: &Number, signed: bool, width: Option<u32>) -> Result<Vec4, LiteralFault>
    requires { IsWidthIfSome width }
    ensures { (n : ℕ) → number.now ≡ number_kept n → result ≡ at_width (of_number signed n) width }
{
    match width {
        Some(width) => Ok(Vec4::from_planes(width, number.low, 0, signed)),
        None => Err(LiteralFault::TooWide),
    }
}

// The natural width of a number without base.
fn plain_width(number: &Number) -> Option<u32>
    ensures value { result ≡ natural_width (λ w. number_held number.now (plain_digits w)) }
    ensures width { IsWidthIfSome result }
{
    NATURAL_WIDTHS
        .iter()
        .copied()
        .find(|w| number.is_held(plain_digits(*w)))
}

// How many digits of a width a number without base may take.
fn plain_digits(width: u32) -> u32
    ensures { result ≡ plain_digits width }
{
    if width == INTEGER_WIDTH {
        width - 1
    } else {
        width
    }
}

// The natural width of a number behind a base.
fn number_width(number: &Number) -> Option<u32>
    ensures value { result ≡ natural_width (λ w. number_held number.now w) }
    ensures width { IsWidthIfSome result }
{
    NATURAL_WIDTHS.iter().copied().find(|w| number.is_held(*w))
}

// The natural width of digits behind a base.
fn pattern_width(pattern: &Pattern) -> Option<u32>
    ensures value { result ≡ natural_width (λ w. pattern_held pattern.now w) }
    ensures width { IsWidthIfSome result }
{
    NATURAL_WIDTHS
        .iter()
        .copied()
        .find(|w| pattern.is_held && is_held(&pattern.value, *w))
}

// The width of a literal, by its size or its natural width.
fn width_by(size: Size, natural: Option<u32>) -> Option<u32>
    requires size { HasWidth size }
    requires natural { IsWidthIfSome natural }
    ensures value { result ≡ width_by size natural }
    ensures width { IsWidthIfSome result }
{
    match size {
        Size::Absent => natural,
        Size::Given(width) => Some(width),
        Size::Beyond => None,
    }
}

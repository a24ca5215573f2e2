ghost use Rattle.std.specs.Prelude.{◌≡◌, ◌≤◌, ◌<◌, ◌==◌, ◌||◌, ℕ, Option, length, IfSome, if◌then◌else◌, IsTrue};
ghost use Rattle.std.specs.Char.{digit_value};
ghost use Rattle.std.specs.List.{list_any, position};
ghost use Rattle.vh_text.specs.Symbols.{colon};
ghost use Rattle.std.specs.Option.{option_map};
ghost use Rattle.vh_text.specs.Digits.{spelled_digits};
ghost use Rattle.vh_text.specs.Views.{pattern_of, number_kept};
ghost use Rattle.vh_text.specs.Texts.{group_count};
ghost use Rattle.vh_text.specs.Values.{value_of_text, most_width, is_length, string_value, wide_value, numeral, integer_value, signed_value, scalar_digit, scalar, scalar_value, decimal_value, is_lower_hex, hex_number, has_plane_form, plane_value, parted_value};

use crate::number::{INTEGER_WIDTH, Number, read_number};
use crate::pattern::{Pattern, read_pattern};
use crate::text::group_count;
use vh_base::Format;
use vh_logic::{Digit, MAX_WIDTH, Plane, Vec4, resize};

// The size of the least integer.
const INTEGER_LIMIT: Plane = 1 << (INTEGER_WIDTH - 1);

/// The value that a text gives an object of a width, unsigned; `None` where the text is malformed
/// for the format (IEEE 1364-2005, 27.14 and 27.32). It takes time in the number of bytes.
pub fn read_value(bytes: &[u8], format: Format, width: u32) -> Option<Vec4>
    requires least { 1 ≤ width }
    requires most { width ≤ most_width format }
    ensures { result ≡ value_of_text format width bytes.now }
{
    match format {
        Format::VpiBinStrVal => string_value(bytes, 1, width),
        Format::VpiOctStrVal => string_value(bytes, 3, width),
        Format::VpiHexStrVal => string_value(bytes, 4, width),
        Format::VpiDecStrVal => decimal_value(bytes, width),
        Format::VpiIntVal => signed_value(bytes, INTEGER_LIMIT, INTEGER_LIMIT - 1, width),
        Format::VpiScalarVal => scalar_value(bytes, width),
        Format::VpiVectorVal => planes_value(bytes, width),
    }
}

// Whether a text has a character, and no more of `group` digits each than a vector takes.
fn is_length(bytes: &[u8], group: u32) -> bool
    requires group_least { 1 ≤ group }
    requires group_most { group ≤ 4 }
    ensures value { result ≡ is_length group bytes.now }
    ensures some { IsTrue result → 0 < length bytes.now }
    ensures short { IsTrue result → length bytes.now ≤ group_count group MAX_WIDTH }
{
    !bytes.is_empty() && bytes.len() <= group_count(MAX_WIDTH, group) as usize
}

// A text of characters of `group` digits each.
fn string_value(bytes: &[u8], group: u32, width: u32) -> Option<Vec4>
    requires group_least { 1 ≤ group }
    requires group_most { group ≤ 4 }
    requires least { 1 ≤ width }
    requires most { width ≤ MAX_WIDTH }
    ensures { result ≡ string_value group width bytes.now }
{
    if !is_length(bytes, group) {
        return None;
    }
    let pattern = plain_pattern(bytes, group)?;
    Some(resize(&pattern.value, width, false))
}

// The digits of a text that has nothing in it that literals alone may have.
fn plain_pattern(bytes: &[u8], group: u32) -> Option<Pattern>
    requires group_least { 1 ≤ group }
    requires group_most { group ≤ 4 }
    requires begun { 0 < length bytes.now }
    ensures { result ≡ option_map pattern_of (spelled_digits group bytes.now) }
{
    if has_literal_symbols(bytes) {
        return None;
    }
    read_pattern(bytes, group)
}

// Whether a byte is one that literals alone may have.
fn has_literal_symbols(bytes: &[u8]) -> bool
    ensures { result ≡ list_any (λ b. b == 95 || b == 63) bytes.now }
{
    bytes.iter().any(|b| *b == b'_' || *b == b'?')
}

// The number of one decimal digit or more.
fn numeral(bytes: &[u8]) -> Option<Number>
    ensures { result ≡ option_map number_kept (numeral bytes.now) }
{
    if bytes.is_empty() {
        return None;
    }
    if has_literal_symbols(bytes) {
        return None;
    }
    read_number(bytes)
}

// The integer of a sign and a number up to a greatest one.
fn integer_value(number: Option<Number>, negative: bool, most: Plane, width: u32) -> Option<Vec4>
    requires least { 1 ≤ width }
    requires most { width ≤ MAX_WIDTH }
    ensures { (n : Option ℕ) → number ≡ option_map number_kept n
        → result ≡ integer_value width negative most n }
{
    let number = number?;
    if !number.fits || number.low > most {
        return None;
    }
    let word = if negative {
        number.low.wrapping_neg()
    } else {
        number.low
    };
    Some(Vec4::from_planes(width, word, 0, false))
}

// A decimal integer, with a minus if it is negative.
fn signed_value(bytes: &[u8], most_negative: Plane, most: Plane, width: u32) -> Option<Vec4>
    requires least { 1 ≤ width }
    requires most { width ≤ MAX_WIDTH }
    ensures { result ≡ signed_value most_negative most width bytes.now }
{
    let (first, rest) = bytes.split_first()?;
    if *first == b'-' {
        integer_value(numeral(rest), true, most_negative, width)
    } else {
        integer_value(numeral(bytes), false, most, width)
    }
}

// One x or z for all digits, or a decimal integer.
fn decimal_value(bytes: &[u8], width: u32) -> Option<Vec4>
    requires least { 1 ≤ width }
    requires most { width ≤ MAX_WIDTH }
    ensures { result ≡ decimal_value width bytes.now }
{
    match scalar(bytes) {
        Some(Digit::X) => Some(Vec4::filled(width, Digit::X, false)),
        Some(Digit::Z) => Some(Vec4::filled(width, Digit::Z, false)),
        Some(Digit::Zero) | Some(Digit::One) | None => wide_value(bytes, width),
    }
}

// An integer whose size a plane holds.
fn wide_value(bytes: &[u8], width: u32) -> Option<Vec4>
    requires least { 1 ≤ width }
    requires most { width ≤ MAX_WIDTH }
    ensures { result ≡ wide_value width bytes.now }
{
    signed_value(bytes, Plane::MAX, Plane::MAX, width)
}

// One character for all digits.
fn scalar_value(bytes: &[u8], width: u32) -> Option<Vec4>
    requires least { 1 ≤ width }
    requires most { width ≤ MAX_WIDTH }
    ensures { result ≡ scalar_value width bytes.now }
{
    let digit = scalar(bytes)?;
    Some(Vec4::filled(width, digit, false))
}

// The digit of a text of one character.
fn scalar(bytes: &[u8]) -> Option<Digit>
    ensures { result ≡ scalar bytes.now }
{
    let (first, rest) = bytes.split_first()?;
    if rest.is_empty() {
        scalar_digit(*first)
    } else {
        None
    }
}

// The digit of a character.
fn scalar_digit(b: u8) -> Option<Digit>
    ensures { result ≡ scalar_digit b }
{
    match b {
        b'0' => Some(Digit::Zero),
        b'1' => Some(Digit::One),
        b'x' => Some(Digit::X),
        b'z' => Some(Digit::Z),
        _ => None,
    }
}

// Two planes, parted by a colon.
fn planes_value(bytes: &[u8], width: u32) -> Option<Vec4>
    requires least { 1 ≤ width }
    requires most { width ≤ MAX_WIDTH }
    ensures { result ≡ value_of_text Format.VpiVectorVal width bytes.now }
{
    let middle = colon_position(bytes)?;
    let aval = plane_value(&bytes[..middle])?;
    let bval = plane_value(&bytes[middle + 1..])?;
    Some(Vec4::from_planes(width, aval, bval, false))
}

// The place of the first colon.
fn colon_position(bytes: &[u8]) -> Option<usize>
    ensures value { result ≡ position (λ b. b == colon) bytes.now }
    ensures inside { IfSome result (λ i. i < length bytes.now) }
{
    bytes.iter().position(|b| *b == b':')
}

// The plane that a text writes.
fn plane_value(bytes: &[u8]) -> Option<Plane>
    ensures { result ≡ plane_value bytes.now }
{
    if has_plane_form(bytes) {
        hex_number(bytes)
    } else {
        None
    }
}

// A text as long as one of a plane may be, without a leading zero but for that of zero.
fn has_plane_form(bytes: &[u8]) -> bool
    ensures value { result ≡ has_plane_form bytes.now }
    ensures short { IsTrue result → length bytes.now ≤ group_count 4 MAX_WIDTH }
{
    is_length(bytes, 4) && (bytes[0] != b'0' || bytes.len() == 1)
}

// The number of a text of hexadecimal digits in lower case, as many as a plane has at most.
fn hex_number(bytes: &[u8]) -> Option<Plane>
    requires { length bytes.now ≤ group_count 4 MAX_WIDTH }
    ensures { result ≡ hex_number bytes.now }
{
    let mut number: Plane = 0;
    for b in bytes {
        number = number * 16 + hex_digit(*b)?;
    }
    Some(number)
}

// The value of a hexadecimal digit in lower case.
fn hex_digit(b: u8) -> Option<Plane>
    ensures value { result ≡ (if is_lower_hex b then Some (digit_value b) else None) }
    ensures below { IfSome result (λ d. d < 16) }
{
    match b {
        b'0'..=b'9' => Some(Plane::from(b - b'0')),
        b'a'..=b'f' => Some(Plane::from(b - b'a') + 10),
        _ => None,
    }
}

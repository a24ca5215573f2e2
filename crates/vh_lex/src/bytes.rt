ghost use Rattle.std.specs.Prelude.{◌≡◌, ◌≤◌, length, drop, take, IfOk, IfSome, nat_eq, false, true};
ghost use Rattle.std.specs.List.{prefix_len};
ghost use Rattle.vh_base.specs.Classes;
ghost use Rattle.vh_lex.specs.Bytes;
ghost use Rattle.vh_lex.specs.Classes.{of_class};

use vh_base::{is_digit, is_name_start, is_space};

// A class of bytes.
#[derive(Clone, Copy)]
pub(crate) enum Class {
    /// White space.
    Space,
    /// What does not end a line.
    Line,
    /// What tokens are made of.
    Graphic,
    /// What may stand outside strings and comments.
    Source,
    /// What a name goes on with.
    Name,
    /// A decimal digit.
    Digit,
    /// What a decimal number goes on with.
    Decimal,
    /// A digit behind a base but `?`.
    BasedLetter,
    /// A digit behind a base.
    Based,
    /// An octal digit.
    Octal,
}

// Whether the byte is one of the class.
pub(crate) fn is_in(class: Class, byte: u8) -> bool
    ensures { result ≡ of_class class byte }
{
    match class {
        Class::Space => is_space(byte),
        Class::Line => byte != b'\n',
        Class::Graphic => is_graphic(byte),
        Class::Source => is_space(byte) || is_graphic(byte),
        Class::Name => is_name_start(byte) || is_digit(byte) || byte == b'$',
        Class::Digit => is_digit(byte),
        Class::Decimal => is_digit(byte) || byte == b'_',
        Class::BasedLetter => is_based_letter(byte),
        Class::Based => is_based_letter(byte) || byte == b'?',
        Class::Octal => matches!(byte, b'0'..=b'7'),
    }
}

// How many bytes at the front are of the class.
pub(crate) fn run_len(class: Class, bytes: &[u8]) -> usize
    ensures value { result ≡ prefix_len (of_class class) bytes.now }
    ensures inside { result ≤ length bytes.now }
{
    for (i, b) in bytes.iter().enumerate() {
        if !is_in(class, *b) {
            return i;
        }
    }
    bytes.len()
}

// What tokens are made of.
pub(crate) fn is_graphic(byte: u8) -> bool
    ensures { result ≡ Bytes.is_graphic byte }
{
    matches!(byte, b'!'..=b'~')
}

// What a string is made of.
pub(crate) fn is_text(byte: u8) -> bool
    ensures { result ≡ Bytes.is_text byte }
{
    matches!(byte, b' '..=b'~')
}

// A digit behind a base but `?` (IEEE 1364-2005, 3.5.1).
fn is_based_letter(byte: u8) -> bool
    ensures { result ≡ Bytes.is_based_letter byte }
{
    is_digit(byte)
        || byte == b'_'
        || matches!(byte, b'a'..=b'f')
        || matches!(byte, b'A'..=b'F')
        || is_unknown(byte)
}

// The letter of an unknown digit or of a high impedance, in either case.
fn is_unknown(byte: u8) -> bool
    ensures { result ≡ Bytes.is_unknown byte }
{
    byte == b'x' || byte == b'X' || byte == b'z' || byte == b'Z'
}

// Whether the bytes begin with this one.
pub(crate) fn begins(byte: u8, bytes: &[u8]) -> bool
    ensures value { result ≡ Bytes.begins (λ b. nat_eq b byte) bytes.now }
    ensures inside { result ≡ true → 1 ≤ length bytes.now }
{
    match bytes.first() {
        Some(first) => *first == byte,
        None => false,
    }
}

// Whether the bytes begin with these two.
pub(crate) fn begins_with(first: u8, second: u8, bytes: &[u8]) -> bool
    ensures value { result ≡ Bytes.begins_with first second bytes.now }
    ensures inside { result ≡ true → 2 ≤ length bytes.now }
{
    match bytes.split_first() {
        Some((byte, after)) => *byte == first && begins(second, after),
        None => false,
    }
}

// Whether the bytes begin with a decimal digit.
pub(crate) fn begins_digit(bytes: &[u8]) -> bool
    ensures { result ≡ Bytes.begins Classes.is_digit bytes.now }
{
    match bytes.first() {
        Some(first) => is_digit(*first),
        None => false,
    }
}

// The bytes after the first `len`, or none where there are fewer.
pub(crate) fn after(len: usize, bytes: &[u8]) -> &[u8]
    ensures { result.now ≡ drop len bytes.now }
{
    if len < bytes.len() {
        &bytes[len..]
    } else {
        &[]
    }
}

// The first `len` bytes, or all where there are fewer.
pub(crate) fn upto(len: usize, bytes: &[u8]) -> &[u8]
    ensures { result.now ≡ take len bytes.now }
{
    if len < bytes.len() {
        &bytes[..len]
    } else {
        bytes
    }
}

// How many bytes there are through the first `first` with `second` behind it.
pub(crate) fn through(first: u8, second: u8, bytes: &[u8]) -> Option<usize>
    ensures value { result ≡ Bytes.through first second false bytes.now }
    ensures inside { IfSome result (λ len. len ≤ length bytes.now) }
{
    let mut half = false;
    for (i, b) in bytes.iter().enumerate() {
        if half && *b == second {
            return Some(i + 1);
        }
        half = *b == first;
    }
    None
}

ghost use Rattle.std.specs.Prelude.{◌≡◌, ◌≤◌, ◌<◌, ◌+◌, true, length, IfOk};
ghost use Rattle.std.specs.List.{prefix_len};
ghost use Rattle.vh_lex.specs.Bytes;
ghost use Rattle.vh_lex.specs.Inside.{IsInside};
ghost use Rattle.vh_lex.specs.Numbers;

use crate::bytes::{Class, after, begins, begins_digit, run_len};
use crate::piece::{Part, Piece};
use crate::token::{Kind, Number};
use std::alloc::Global;
use vh_base::{Boxed, DesignFault, NoMemory};
use vh_text::read_literal;

// The number with which the bytes begin, from a digit or an apostrophe on (IEEE 1364-2005, 3.5).
// It takes time in the number of its bytes and of the white space behind its first digits.
pub(crate) fn number_at(alloc: Global, bytes: &[u8]) -> Result<Piece, NoMemory>
    ensures value { IfOk result (λ piece. piece ≡ Numbers.number_at bytes.now) }
    ensures inside { IfOk result (λ piece. IsInside piece (length bytes.now)) }
{
    let digits = run_len(Class::Decimal, bytes);
    let behind = after(digits, bytes);
    let spaces = run_len(Class::Space, behind);
    let based = based_len(after(digits + spaces, bytes));
    if begins_real(behind) {
        Ok(Piece::Fault(DesignFault::L4, 0))
    } else if based > 0 {
        number_of(alloc, bytes, digits > 0, digits + spaces + based)
    } else if digits > 0 {
        number_of(alloc, bytes, false, digits)
    } else {
        Ok(Piece::Fault(DesignFault::L1, 0))
    }
}

// The number of so many bytes.
fn number_of(alloc: Global, bytes: &[u8], is_sized: bool, len: usize) -> Result<Piece, NoMemory>
    requires { len ≤ length bytes.now }
    ensures value { IfOk result (λ piece. piece ≡ Numbers.number_of bytes.now is_sized len) }
    ensures inside { IfOk result (λ piece. IsInside piece (length bytes.now)) }
{
    match read_literal(&bytes[..len]) {
        Ok(value) => {
            let sized = is_sized;
            let number = Boxed::new(alloc, Number { value, sized })?;
            Ok(Piece::Kept(Part::Token(Kind::Number(number)), len))
        }
        Err(_) => Ok(Piece::Fault(DesignFault::L4, 0)),
    }
}

// Whether digits go on so as a real number (IEEE 1364-2005, 3.5.2).
fn begins_real(bytes: &[u8]) -> bool
    ensures { result ≡ Numbers.begins_real bytes.now }
{
    begins_fraction(bytes) || begins_exponent(bytes)
}

fn begins_fraction(bytes: &[u8]) -> bool
    ensures { result ≡ Numbers.begins_fraction bytes.now }
{
    begins(b'.', bytes) && begins_digit(after(1, bytes))
}

fn begins_exponent(bytes: &[u8]) -> bool
    ensures { result ≡ Numbers.begins_exponent bytes.now }
{
    let behind = after(1, bytes);
    begins_exponent_letter(bytes)
        && (begins_digit(behind) || begins_sign(behind) && begins_digit(after(2, bytes)))
}

fn begins_exponent_letter(bytes: &[u8]) -> bool
    ensures { result ≡ Bytes.begins Bytes.is_exponent bytes.now }
{
    match bytes.first() {
        Some(first) => *first == b'e' || *first == b'E',
        None => false,
    }
}

fn begins_sign(bytes: &[u8]) -> bool
    ensures { result ≡ Bytes.begins Bytes.is_plus_or_minus bytes.now }
{
    match bytes.first() {
        Some(first) => *first == b'+' || *first == b'-',
        None => false,
    }
}

// How many bytes a base and its digits have, or 0 where no base stands.
fn based_len(bytes: &[u8]) -> usize
    ensures value { result ≡ Numbers.based_len bytes.now }
    ensures inside { result ≤ length bytes.now }
{
    let len = base_len(bytes);
    if len == 0 {
        return 0;
    }
    let is_ten = begins_base_ten(&bytes[len - 1..]);
    len + spaced_digits_len(is_ten, &bytes[len..])
}

// How many bytes a base has with its apostrophe, or 0 where no base stands.
fn base_len(bytes: &[u8]) -> usize
    ensures value { result ≡ Numbers.base_len bytes.now }
    ensures inside { result ≤ length bytes.now }
{
    let Some((first, behind)) = bytes.split_first() else {
        return 0;
    };
    if *first != b'\'' {
        return 0;
    }
    if begins_base(behind) {
        return 2;
    }
    let Some((sign, letters)) = behind.split_first() else {
        return 0;
    };
    if (*sign == b's' || *sign == b'S') && begins_base(letters) {
        3
    } else {
        0
    }
}

fn begins_base(bytes: &[u8]) -> bool
    ensures value { result ≡ Bytes.begins Bytes.is_base bytes.now }
    ensures inside { result ≡ true → 1 ≤ length bytes.now }
{
    match bytes.first() {
        Some(first) => is_base(*first),
        None => false,
    }
}

// The letter of a base, in either case.
fn is_base(byte: u8) -> bool
    ensures { result ≡ Bytes.is_base byte }
{
    byte == b'd'
        || byte == b'D'
        || byte == b'b'
        || byte == b'B'
        || byte == b'o'
        || byte == b'O'
        || byte == b'h'
        || byte == b'H'
}

fn begins_base_ten(bytes: &[u8]) -> bool
    ensures { result ≡ Bytes.begins Bytes.is_base_ten bytes.now }
{
    match bytes.first() {
        Some(first) => *first == b'd' || *first == b'D',
        None => false,
    }
}

// How many bytes the digits behind a base have, with the white space before them.
fn spaced_digits_len(is_ten: bool, bytes: &[u8]) -> usize
    ensures value { result ≡ Numbers.spaced_digits_len is_ten bytes.now }
    ensures inside { result ≤ length bytes.now }
{
    let spaces = run_len(Class::Space, bytes);
    spaces + digits_len(is_ten, &bytes[spaces..])
}

// How many bytes the digits behind a base have: in base ten a `?` is a digit only as the first one.
fn digits_len(is_ten: bool, bytes: &[u8]) -> usize
    ensures value { result ≡ Numbers.digits_len is_ten bytes.now }
    ensures inside { result ≤ length bytes.now }
{
    if !is_ten {
        return run_len(Class::Based, bytes);
    }
    let Some((first, behind)) = bytes.split_first() else {
        return 0;
    };
    if *first == b'?' {
        1 + run_len(Class::BasedLetter, behind)
    } else {
        run_len(Class::BasedLetter, bytes)
    }
}

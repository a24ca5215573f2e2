ghost use Rattle.std.specs.Prelude.{◌≡◌, ◌≤◌, ◌<◌, ◌+◌, length, false, IfOk, IfSome};
ghost use Rattle.vh_lex.specs.Inside.{IsInside};
ghost use Rattle.vh_lex.specs.Texts;

use crate::bytes::{Class, after, is_text, run_len};
use crate::piece::{Part, Piece};
use crate::token::Kind;
use std::alloc::Global;
use vh_base::{Bytes, DesignFault, NoMemory};
use vh_base_shared::SharedBytes;

// The greatest number of bytes of a string, after its escapes.
const TEXT_LIMIT: usize = 4096;

// What an escape stands for, and how many bytes it has behind its backslash.
#[derive(Clone, Copy)]
pub(crate) struct Escape {
    pub(crate) byte: u8,
    pub(crate) len: usize,
}

// The string whose bytes after its first quote these are (IEEE 1364-2005, 3.6). It takes time in
// the number of its bytes.
pub(crate) fn text_at(alloc: Global, bytes: &[u8]) -> Result<Piece, NoMemory>
    ensures value { IfOk result (λ piece. piece ≡ Texts.text_at bytes.now) }
    ensures inside { IfOk result (λ piece. IsInside piece (length bytes.now + 1)) }
{
    let Some(len) = text_len(bytes) else {
        return Ok(Piece::Fault(DesignFault::L5, 0));
    };
    let (text, wrong) = decoded(alloc, &bytes[..len])?;
    if text.as_slice().len() > TEXT_LIMIT {
        return Ok(Piece::Fault(DesignFault::L6, 0));
    }
    match wrong {
        Some(at) => Ok(Piece::Fault(DesignFault::L4, at + 1)),
        None => {
            let text = SharedBytes::from_vec(text.into_vec())?;
            Ok(Piece::Kept(Part::Token(Kind::Text(text)), len + 2))
        }
    }
}

// How many bytes stand before the quote that ends the string, if it has an end.
fn text_len(bytes: &[u8]) -> Option<usize>
    ensures value { result ≡ Texts.text_len false bytes.now }
    ensures inside { IfSome result (λ len. len < length bytes.now) }
{
    let mut escaped = false;
    for (i, b) in bytes.iter().enumerate() {
        if *b == b'"' && !escaped {
            return Some(i);
        }
        if !is_text(*b) {
            return None;
        }
        escaped = *b == b'\\' && !escaped;
    }
    None
}

// The bytes after the escapes, up to the first backslash that begins none, and where that stands.
fn decoded(alloc: Global, text: &[u8]) -> Result<(Bytes, Option<usize>), NoMemory>
    ensures value { IfOk result (λ found. record { bytes = found.0; wrong = found.1 } ≡
        Texts.decoded text.now) }
    ensures inside { IfOk result (λ found. IfSome found.1 (λ at. at < length text.now)) }
{
    let mut bytes = Vec::new(alloc);
    let mut rest = text;
    while let Some((first, behind)) = rest.split_first() {
        if *first == b'\\' {
            let Some(escape) = escape_at(behind) else {
                return Ok((Bytes::new(bytes), Some(text.len() - rest.len())));
            };
            bytes.push(escape.byte)?;
            rest = after(escape.len, behind);
        } else {
            bytes.push(*first)?;
            rest = behind;
        }
    }
    Ok((Bytes::new(bytes), None))
}

// The escape behind a backslash, if it is one.
fn escape_at(bytes: &[u8]) -> Option<Escape>
    ensures value { result ≡ Texts.escape_at bytes.now }
    ensures inside { IfSome result (λ escape. escape.len ≤ length bytes.now) }
{
    let first = bytes.first()?;
    match *first {
        b'n' => Some(Escape {
            byte: b'\n',
            len: 1,
        }),
        b't' => Some(Escape {
            byte: b'\t',
            len: 1,
        }),
        b'\\' | b'"' => Some(Escape {
            byte: *first,
            len: 1,
        }),
        _ => octal_at(bytes),
    }
}

// One to three octal digits up to 377.
fn octal_at(bytes: &[u8]) -> Option<Escape>
    ensures value { result ≡ Texts.octal_at bytes.now }
    ensures inside { IfSome result (λ escape. escape.len ≤ length bytes.now) }
{
    let len = run_len(Class::Octal, bytes).min(3);
    let value = octal_value(&bytes[..len]);
    if len > 0 && value <= 255 {
        Some(Escape {
            byte: value as u8,
            len,
        })
    } else {
        None
    }
}

// The number of one to three octal digits.
fn octal_value(digits: &[u8]) -> u32
    ensures { result ≡ Texts.octal_value digits.now }
{
    match digits {
        [one] => octal_digit(*one),
        [two, one] => octal_digit(*two) * 8 + octal_digit(*one),
        [three, two, one] => octal_digit(*three) * 64 + octal_digit(*two) * 8 + octal_digit(*one),
        _ => 0,
    }
}

fn octal_digit(byte: u8) -> u32
    ensures value { result ≡ Texts.octal_digit byte }
    ensures small { result < 256 }
{
    u32::from(byte.saturating_sub(b'0'))
}

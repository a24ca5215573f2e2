//! The tokens of the bytes.

ghost use Rattle.std.specs.Prelude.{◌≡◌, ◌<◌, ◌≤◌, length, map, IfOk, IfSome, false};
ghost use Rattle.std.specs.List.{prefix_len};
ghost use Rattle.vh_base.specs.Classes;
ghost use Rattle.vh_app_script.specs.Spelling;
ghost use Rattle.vh_app_script.specs.Views.{token_seen, piece_seen};

use crate::bytes::{is_comment_byte, is_escaped, is_name_byte, is_text_byte};
use crate::token::{Kind, Symbol, Token};
use std::alloc::Global;
use vh_base::{NoMemory, is_digit, is_name_start, is_space};

/// What bytes begin with, and how many bytes that is.
#[derive(Clone, Copy)]
pub enum Piece<'a> {
    /// White space, or a comment.
    Blank(usize),
    Token(Kind<'a>, usize),
    NoToken,
}

/// The tokens of the bytes, in one pass.
pub fn tokens<'a>(alloc: Global, bytes: &'a [u8]) -> Result<Vec<Token<'a>>, NoMemory>
    ensures { IfOk result (λ found. map token_seen found.items ≡ Spelling.tokens_of bytes.now) }
{
    let mut found = Vec::new(alloc);
    let mut rest = bytes;
    while !rest.is_empty() {
        match piece_at(rest) {
            Piece::Blank(length) => rest = rest.split_at(length).1,
            Piece::Token(kind, length) => {
                found.push(Token {
                    kind,
                    left: rest.len(),
                })?;
                rest = rest.split_at(length).1;
            }
            Piece::NoToken => {
                found.push(Token {
                    kind: Kind::Wrong,
                    left: rest.len(),
                })?;
                return Ok(found);
            }
        }
    }
    Ok(found)
}

// What the bytes begin with, of which there is one at least.
fn piece_at(bytes: &[u8]) -> Piece<'_>
    requires { 0 < length bytes.now }
    ensures { piece_seen result ≡ Spelling.piece_at bytes.now }
{
    let first = bytes[0];
    if is_space(first) {
        Piece::Blank(1)
    } else if first == b'#' {
        Piece::Blank(comment_length(bytes))
    } else if is_name_start(first) {
        name_at(bytes)
    } else if is_digit(first) {
        number_at(bytes)
    } else {
        other_at(first, &bytes[1..])
    }
}

// A text or a symbol that begins with the byte, in front of the bytes.
#[tactic(auto, unfolding(crate::specs::Spelling::other_at))]
fn other_at(byte: u8, bytes: &[u8]) -> Piece<'_>
    ensures { piece_seen result ≡ Spelling.other_at byte bytes.now }
{
    if byte == b'"' {
        text_at(bytes)
    } else {
        symbol_at(byte, bytes)
    }
}

// A name, read whole.
fn name_at(bytes: &[u8]) -> Piece<'_>
    ensures { piece_seen result ≡ Spelling.name_at bytes.now }
{
    let length = name_length(bytes);
    let aimed = aims(&bytes[length..]);
    Piece::Token(Kind::Word(aimed, &bytes[..length]), length)
}

// A number.
fn number_at(bytes: &[u8]) -> Piece<'_>
    ensures { piece_seen result ≡ Spelling.number_at bytes.now }
{
    let length = digit_length(bytes);
    match value_of(&bytes[..length]) {
        Some(number) => Piece::Token(Kind::Number(number), length),
        None => Piece::NoToken,
    }
}

// A text, whose bytes behind the first quote these are.
fn text_at(bytes: &[u8]) -> Piece<'_>
    ensures { piece_seen result ≡ Spelling.text_of (Spelling.text_len false bytes.now) bytes.now }
{
    match text_length(bytes) {
        Some(length) => Piece::Token(Kind::Text(&bytes[..length]), length + 2),
        None => Piece::NoToken,
    }
}

// A symbol that begins with the byte, in front of the bytes.
#[tactic(auto, unfolding(crate::specs::Spelling::symbol_at))]
fn symbol_at(byte: u8, bytes: &[u8]) -> Piece<'static>
    ensures { piece_seen result ≡ Spelling.symbol_at byte bytes.now }
{
    match byte {
        b',' => Piece::Token(Kind::Symbol(Symbol::Comma), 1),
        b';' => Piece::Token(Kind::Symbol(Symbol::Semicolon), 1),
        b'=' if begins_with_equals(bytes) => Piece::Token(Kind::Symbol(Symbol::Equals), 2),
        b'=' => Piece::Token(Kind::Symbol(Symbol::Becomes), 1),
        b'!' if begins_with_equals(bytes) => Piece::Token(Kind::Symbol(Symbol::Differs), 2),
        b'+' => Piece::Token(Kind::Symbol(Symbol::Plus), 1),
        b'(' => Piece::Token(Kind::Symbol(Symbol::OpenParen), 1),
        b')' => Piece::Token(Kind::Symbol(Symbol::CloseParen), 1),
        b'{' => Piece::Token(Kind::Symbol(Symbol::OpenBrace), 1),
        b'}' => Piece::Token(Kind::Symbol(Symbol::CloseBrace), 1),
        _ => Piece::NoToken,
    }
}

// Whether a `=` is next.
fn begins_with_equals(bytes: &[u8]) -> bool
    ensures { result ≡ Spelling.begins_with 61 bytes.now }
{
    matches!(bytes, [b'=', ..])
}

// Whether a `=` that is no `==` stands behind white space and comments.
fn aims(bytes: &[u8]) -> bool
    ensures { result ≡ Spelling.aims false bytes.now }
{
    let mut comment = false;
    let mut rest = bytes;
    'blank: while let [first, after @ ..] = rest {
        if comment {
            comment = is_comment_byte(*first);
        } else if *first == b'#' {
            comment = true;
        } else if !is_space(*first) {
            return *first == b'=' && !begins_with_equals(after);
        }
        rest = after;
    }
    false
}

// The number that the digits spell, if it is below 2^64.
fn value_of(spelling: &[u8]) -> Option<u64>
    ensures { result ≡ Spelling.below_limit (Spelling.value_of spelling.now) }
{
    let mut number: u64 = 0;
    let mut rest = spelling;
    'digits: while let [byte, after @ ..] = rest {
        let digit = byte.saturating_sub(b'0') as u64;
        number = number.checked_mul(10)?.checked_add(digit)?;
        rest = after;
    }
    Some(number)
}

fn comment_length(bytes: &[u8]) -> usize
    ensures length { result ≡ prefix_len Spelling.is_comment_byte bytes.now }
{
    let mut rest = bytes;
    while let [first, after @ ..] = rest
        && is_comment_byte(*first)
    {
        rest = after;
    }
    bytes.len() - rest.len()
}

fn name_length(bytes: &[u8]) -> usize
    ensures length { result ≡ prefix_len Spelling.is_name_byte bytes.now }
    ensures within { result ≤ length bytes.now }
{
    let mut rest = bytes;
    while let [first, after @ ..] = rest
        && is_name_byte(*first)
    {
        rest = after;
    }
    bytes.len() - rest.len()
}

fn digit_length(bytes: &[u8]) -> usize
    ensures length { result ≡ prefix_len Classes.is_digit bytes.now }
    ensures within { result ≤ length bytes.now }
{
    let mut rest = bytes;
    while let [first, after @ ..] = rest
        && is_digit(*first)
    {
        rest = after;
    }
    bytes.len() - rest.len()
}

// How many bytes stand before the quote that ends a text.
fn text_length(bytes: &[u8]) -> Option<usize>
    ensures length { result ≡ Spelling.text_len false bytes.now }
    ensures within { IfSome result (λ len. len < length bytes.now) }
{
    let mut escaped = false;
    let mut rest = bytes;
    'text: while let [first, after @ ..] = rest {
        if escaped {
            if !is_escaped(*first) {
                return None;
            }
            escaped = false;
        } else if *first == b'"' {
            return Some(bytes.len() - rest.len());
        } else if *first == b'\\' {
            escaped = true;
        } else if !is_text_byte(*first) {
            return None;
        }
        rest = after;
    }
    None
}

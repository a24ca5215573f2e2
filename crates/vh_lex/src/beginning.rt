ghost use Rattle.std.specs.Prelude.{◌≡◌, ◌≤◌, ◌<◌, ◌+◌, length, IfOk, IfSome};
ghost use Rattle.vh_lex.specs.Beginning;
ghost use Rattle.vh_lex.specs.Inside.{IsInside, IsLone};

use crate::bytes::{Class, after, begins, begins_with, run_len, through};
use crate::keyword::keyword_of;
use crate::made::Output;
use crate::name::{is_long, name_of};
use crate::number::number_at;
use crate::piece::{Part, Piece};
use crate::symbol::{Symbol, symbol_at};
use crate::text::text_at;
use crate::token::Kind;
use std::alloc::Global;
use vh_base::{Bytes, DesignFault, NoMemory, is_digit, is_name_start, is_space};

// What the bytes begin with (IEEE 1364-2005, clause 3). It takes time in the number of bytes of
// that piece, and of white space behind it.
pub(crate) fn beginning(alloc: Global, made: &mut Output, bytes: &[u8]) -> Result<Piece, NoMemory>
    ensures value { IfOk result (λ piece. piece ≡ Beginning.beginning bytes.now) }
    ensures inside { IfOk result (λ piece. IsInside piece (length bytes.now)) }
    ensures kept { made.new ≡ made.old }
{
    let Some((first, behind)) = bytes.split_first() else {
        return Ok(Piece::Blank(0));
    };
    if is_space(*first) {
        Ok(Piece::Blank(run_len(Class::Space, bytes)))
    } else if is_name_start(*first) {
        word_at(alloc, made, bytes)
    } else if is_digit(*first) || *first == b'\'' {
        number_at(alloc, bytes)
    } else {
        symbolic(alloc, made, *first, behind, bytes)
    }
}

// What the bytes begin with, by a first byte that is no white space and begins no word or number.
#[inline(never)]
fn symbolic(
    alloc: Global,
    made: &mut Output,
    first: u8,
    behind: &[u8],
    bytes: &[u8],
) -> Result<Piece, NoMemory>
    requires { length behind.now < length bytes.now }
    ensures value { IfOk result (λ piece. piece ≡ Beginning.symbolic first behind.now bytes.now) }
    ensures inside { IfOk result (λ piece. IsInside piece (length bytes.now)) }
    ensures kept { made.new ≡ made.old }
{
    match first {
        b'$' => system_at(alloc, made, bytes),
        b'"' => text_at(alloc, behind),
        b'\\' => escaped_at(alloc, made, bytes),
        b'`' => use_at(alloc, behind),
        b'/' => Ok(slash_at(bytes)),
        b'(' => Ok(bracket_at(bytes)),
        _ => Ok(symbol_piece(bytes)),
    }
}

// A keyword or a name.
fn word_at(alloc: Global, made: &mut Output, bytes: &[u8]) -> Result<Piece, NoMemory>
    ensures value { IfOk result (λ piece. piece ≡ Beginning.word_at bytes.now) }
    ensures inside { IfOk result (λ piece. IsInside piece (length bytes.now)) }
    ensures kept { made.new ≡ made.old }
{
    let word = &bytes[..run_len(Class::Name, bytes)];
    if word == b"module".as_slice() {
        return Ok(Piece::Kept(Part::Module, word.len()));
    }
    match keyword_of(word) {
        Some(keyword) => Ok(Piece::Kept(Part::Token(Kind::Word(keyword)), word.len())),
        None => name_piece(alloc, made, word, word.len()),
    }
}

// The token of a name whose spelling has so many bytes.
fn name_piece(alloc: Global, made: &mut Output, name: &[u8], len: usize) -> Result<Piece, NoMemory>
    ensures value { IfOk result (λ piece. piece ≡ Beginning.named Kind.Name name.now len) }
    ensures inside { IfOk result (λ piece. IsInside piece len) }
    ensures kept { made.new ≡ made.old }
{
    if is_long(name) {
        return Ok(Piece::Fault(DesignFault::L6, 0));
    }
    Ok(Piece::Kept(Part::Token(Kind::Name(made.shared(alloc, name)?)), len))
}

// A system name.
fn system_at(alloc: Global, made: &mut Output, bytes: &[u8]) -> Result<Piece, NoMemory>
    ensures value { IfOk result (λ piece. piece ≡ Beginning.system_at bytes.now) }
    ensures inside { IfOk result (λ piece. IsInside piece (length bytes.now)) }
    ensures kept { made.new ≡ made.old }
{
    let name = &bytes[..run_len(Class::Name, bytes)];
    if name.len() < 2 {
        return Ok(Piece::Fault(DesignFault::L1, 0));
    }
    if is_long(name) {
        return Ok(Piece::Fault(DesignFault::L6, 0));
    }
    Ok(Piece::Kept(
        Part::Token(Kind::SysName(made.shared(alloc, name)?)),
        name.len(),
    ))
}

// An escaped name.
fn escaped_at(alloc: Global, made: &mut Output, bytes: &[u8]) -> Result<Piece, NoMemory>
    ensures value { IfOk result (λ piece. piece ≡ Beginning.escaped_by (Beginning.name_of bytes.now)) }
    ensures inside { IfOk result (λ piece. IsInside piece (length bytes.now)) }
    ensures kept { made.new ≡ made.old }
{
    match name_of(bytes) {
        Some(named) => name_piece(alloc, made, named.name, named.len),
        None => Ok(Piece::Fault(DesignFault::L1, 0)),
    }
}

// A backquote, behind which the bytes stand, before a name.
fn use_at(alloc: Global, behind: &[u8]) -> Result<Piece, NoMemory>
    requires { length behind.now < usize.MAX }
    ensures value { IfOk result (λ piece. piece ≡ Beginning.use_by (Beginning.name_of behind.now)) }
    ensures inside { IfOk result (λ piece. IsInside piece (length behind.now + 1)) }
{
    match name_of(behind) {
        Some(named) => Ok(Piece::Kept(
            Part::Use(Bytes::from_slice(alloc, named.name)?),
            named.len + 1,
        )),
        None => Ok(Piece::Fault(DesignFault::L1, 0)),
    }
}

// The symbol of one byte with which the bytes begin, where at most one byte behind it is to be seen for
// that.
pub(crate) fn lone_symbol(bytes: &[u8]) -> Option<Symbol>
    ensures { IfSome result (λ symbol. IsLone symbol bytes.now) }
{
    let Some((first, behind)) = bytes.split_first() else {
        return None;
    };
    match *first {
        b';' => Some(Symbol::Semicolon),
        b',' => Some(Symbol::Comma),
        b'(' if !begins(b'*', behind) => Some(Symbol::LeftParen),
        b')' => Some(Symbol::RightParen),
        b'[' => Some(Symbol::LeftBracket),
        b']' => Some(Symbol::RightBracket),
        b'{' => Some(Symbol::LeftBrace),
        b'}' => Some(Symbol::RightBrace),
        b'.' => Some(Symbol::Dot),
        b':' => Some(Symbol::Colon),
        b'#' => Some(Symbol::Hash),
        b'@' => Some(Symbol::At),
        _ => None,
    }
}

// An operator or a symbol.
fn symbol_piece(bytes: &[u8]) -> Piece
    ensures value { result ≡ Beginning.symbol_piece bytes.now }
    ensures inside { IsInside result (length bytes.now) }
{
    match symbol_at(bytes) {
        Some((spelling, symbol)) => Piece::Kept(Part::Token(Kind::Symbol(symbol)), spelling.len()),
        None => Piece::Fault(DesignFault::L1, 0),
    }
}

// How many bytes the comment has with which the bytes begin, if they begin with one that has an
// end (IEEE 1364-2005, 3.3).
pub(crate) fn comment_len(bytes: &[u8]) -> Option<usize>
    ensures value { result ≡ Beginning.comment_len bytes.now }
    ensures inside { IfSome result (λ len. len ≤ length bytes.now) }
{
    if begins_with(b'/', b'/', bytes) {
        return Some(run_len(Class::Line, bytes));
    }
    if begins_with(b'/', b'*', bytes) {
        let len = through(b'*', b'/', after(2, bytes))?;
        return Some(len + 2);
    }
    None
}

// A comment, or an operator.
fn slash_at(bytes: &[u8]) -> Piece
    ensures value { result ≡ Beginning.slash_piece (Beginning.comment_len bytes.now) bytes.now }
    ensures inside { IsInside result (length bytes.now) }
{
    if let Some(len) = comment_len(bytes) {
        Piece::Blank(len)
    } else if begins_with(b'/', b'*', bytes) {
        Piece::Fault(DesignFault::L5, 0)
    } else {
        symbol_piece(bytes)
    }
}

// An attribute, or a symbol.
fn bracket_at(bytes: &[u8]) -> Piece
    ensures value { result ≡ Beginning.bracket_at bytes.now }
    ensures inside { IsInside result (length bytes.now) }
{
    if !begins_attribute(bytes) {
        return symbol_piece(bytes);
    }
    match through(b'*', b')', after(2, bytes)) {
        Some(len) => attribute_by(run_len(Class::Source, &bytes[..len + 2]), len + 2),
        None => Piece::Fault(DesignFault::L5, 0),
    }
}

fn begins_attribute(bytes: &[u8]) -> bool
    ensures { result ≡ Beginning.begins_attribute bytes.now }
{
    let inner = after(2, bytes);
    begins_with(b'(', b'*', bytes) && !begins(b')', after(run_len(Class::Space, inner), inner))
}

// An attribute of so many bytes, of which so many at the front may stand there.
fn attribute_by(clean: usize, len: usize) -> Piece
    ensures value { result ≡ Beginning.attribute_by clean len }
    ensures inside { IsInside result len }
{
    if clean < len {
        Piece::Fault(DesignFault::L1, clean)
    } else {
        Piece::Blank(len)
    }
}

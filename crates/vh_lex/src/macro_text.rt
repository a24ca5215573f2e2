ghost use Rattle.std.specs.Prelude.{◌≡◌, ◌≤◌, length, IfOk};
ghost use Rattle.std.specs.Option.{option_map};
ghost use Rattle.vh_lex.specs.MacroTexts;
ghost use Rattle.vh_lex.specs.Views.{turn_seen};

use crate::beginning::beginning;
use crate::bytes::{Class, after, begins, begins_with, run_len, upto};
use crate::made::Output;
use crate::piece::{Part, Piece};
use std::alloc::Global;
use vh_base::{NoMemory, Sequence, is_space};

/// Within what a byte of a macro's text stands.
#[derive(Clone, Copy, PartialEq, Eq)]
pub enum Mode {
    Plain,
    /// A string.
    Quoted,
    /// A comment from `/*` on.
    Comment,
}

// What the bytes behind one stand in, and whether the next of them belongs to this one.
#[derive(Clone, Copy)]
pub(crate) struct Next {
    pub(crate) passes: bool,
    pub(crate) mode: Mode,
}

// The parts of the text that stands behind a macro's name, and how many bytes it has with a
// comment that ends it (IEEE 1364-2005, 19.3.1). It takes time in the number of those bytes.
pub(crate) fn macro_text(
    alloc: Global,
    made: &mut Output,
    bytes: &[u8],
) -> Result<(Sequence<Part>, usize), NoMemory>
    ensures parts { IfOk result
        (λ found. found.0 ≡ MacroTexts.parts_of (MacroTexts.macro_text bytes.now)) }
    ensures len { IfOk result (λ found. found.1 ≡ MacroTexts.macro_len bytes.now) }
    ensures inside { IfOk result (λ found. found.1 ≤ length bytes.now) }
    ensures kept { made.new ≡ made.old }
{
    let (text, behind) = bytes.split_at(text_len(bytes));
    let joined = joined_lines(alloc, text)?;
    let parts = parts_of(alloc, made, &joined)?;
    Ok((parts, text.len() + run_len(Class::Line, behind)))
}

// How many bytes the text has without a comment that ends it.
fn text_len(bytes: &[u8]) -> usize
    ensures value { result ≡ MacroTexts.macro_text_len bytes.now }
    ensures inside { result ≤ length bytes.now }
{
    let mut passes = false;
    let mut mode = Mode::Plain;
    let mut rest = bytes;
    while let Some((first, behind)) = rest.split_first() {
        let Some(next) = turn(passes, mode, *first, behind) else {
            return bytes.len() - rest.len();
        };
        passes = next.passes;
        mode = next.mode;
        rest = behind;
    }
    bytes.len()
}

// What stands behind a byte of the text, or nothing where the text ends at it.
fn turn(passes: bool, mode: Mode, first: u8, behind: &[u8]) -> Option<Next>
    ensures { option_map turn_seen result ≡ MacroTexts.turn passes mode first behind.now }
{
    if passes {
        return goes_on(is_pair(b'\r', b'\n', first, behind), mode);
    }
    match mode {
        Mode::Plain => plain_turn(first, behind),
        Mode::Quoted => quoted_turn(first, behind),
        Mode::Comment => comment_turn(first, behind),
    }
}

fn goes_on(passes: bool, mode: Mode) -> Option<Next>
    ensures { option_map turn_seen result ≡ MacroTexts.goes_on passes mode }
{
    Some(Next { passes, mode })
}

fn plain_turn(first: u8, behind: &[u8]) -> Option<Next>
    ensures { option_map turn_seen result ≡ MacroTexts.plain_turn first behind.now }
{
    if first == b'\n' || is_pair(b'/', b'/', first, behind) {
        None
    } else if continues(first, behind) {
        goes_on(true, Mode::Plain)
    } else if is_pair(b'/', b'*', first, behind) {
        goes_on(true, Mode::Comment)
    } else if first == b'"' {
        goes_on(false, Mode::Quoted)
    } else {
        goes_on(false, Mode::Plain)
    }
}

fn quoted_turn(first: u8, behind: &[u8]) -> Option<Next>
    ensures { option_map turn_seen result ≡ MacroTexts.quoted_turn first behind.now }
{
    if first == b'\n' {
        None
    } else if continues(first, behind) {
        goes_on(true, Mode::Plain)
    } else if first == b'\\' {
        goes_on(!begins_continued(behind), Mode::Quoted)
    } else if first == b'"' {
        goes_on(false, Mode::Plain)
    } else {
        goes_on(false, Mode::Quoted)
    }
}

fn comment_turn(first: u8, behind: &[u8]) -> Option<Next>
    ensures { option_map turn_seen result ≡ MacroTexts.comment_turn first behind.now }
{
    if first == b'\n' {
        None
    } else if continues(first, behind) {
        goes_on(true, Mode::Comment)
    } else if is_pair(b'*', b'/', first, behind) {
        goes_on(true, Mode::Plain)
    } else {
        goes_on(false, Mode::Comment)
    }
}

fn is_pair(first: u8, second: u8, byte: u8, behind: &[u8]) -> bool
    ensures { result ≡ MacroTexts.is_pair first second byte behind.now }
{
    byte == first && begins(second, behind)
}

// Whether a byte is a backslash before a line end: a line feed, alone or behind a carriage return.
fn continues(first: u8, behind: &[u8]) -> bool
    ensures { result ≡ MacroTexts.continues first behind.now }
{
    first == b'\\' && (begins(b'\n', behind) || begins_with(b'\r', b'\n', behind))
}

// Whether the bytes begin with a backslash before a line end.
fn begins_continued(bytes: &[u8]) -> bool
    ensures { result ≡ MacroTexts.begins_continued bytes.now }
{
    match bytes.split_first() {
        Some((first, behind)) => continues(*first, behind),
        None => false,
    }
}

// The bytes without each backslash that stands before a line end.
fn joined_lines(alloc: Global, text: &[u8]) -> Result<Vec<u8>, NoMemory>
    ensures { IfOk result (λ joined. joined.items ≡ MacroTexts.joined_lines text.now) }
{
    let mut joined = Vec::new(alloc);
    let mut rest = text;
    while let Some((first, behind)) = rest.split_first() {
        if !continues(*first, behind) {
            joined.push(*first)?;
        }
        rest = behind;
    }
    Ok(joined)
}

// The parts of a text, up to its first fault.
fn parts_of(alloc: Global, made: &mut Output, text: &[u8]) -> Result<Sequence<Part>, NoMemory>
    ensures parts { IfOk result (λ parts. parts ≡ MacroTexts.parts_of text.now) }
    ensures kept { made.new ≡ made.old }
{
    let mut parts = Vec::new(alloc);
    let mut rest = text;
    while let Some((first, behind)) = rest.split_first() {
        if is_space(*first) {
            rest = after(run_len(Class::Space, rest).saturating_sub(1), behind);
            continue;
        }
        match beginning(alloc, made, rest)? {
            Piece::Blank(len) => rest = after(len.saturating_sub(1), behind),
            Piece::Kept(part, len) => {
                parts.push(part)?;
                rest = after(len.saturating_sub(1), behind);
            }
            Piece::Fault(fault, _) => {
                parts.push(Part::Wrong(fault))?;
                return Ok(Sequence::new(parts));
            }
        }
    }
    Ok(Sequence::new(parts))
}

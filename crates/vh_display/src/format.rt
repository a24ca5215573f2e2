ghost use Rattle.std.specs.Prelude.{◌≡◌, ◌++◌, IfOk, OnOk};
ghost use Rattle.std.specs.Option.{option_map};
ghost use Rattle.vh_display.specs.Texts.{at_right};
ghost use Rattle.vh_display.specs.Formats.{with_digit, in_columns, at_letter, step_of, front};

use crate::conversion::{Conversion, Letter, letter_of};
use crate::texts::push_at_right;
use vh_base::NoMemory;

/// The most columns that a conversion may ask for (own).
pub const MOST_PLACES: u32 = 999;

// Where a format stands: between conversions, or behind `%` and some digits.
#[derive(Clone, Copy)]
pub(crate) enum Mode {
    Plain,
    Open(Option<u32>),
}

// How a format goes on behind a byte.
#[derive(Clone, Copy)]
pub(crate) enum Next {
    On(Mode),
    Wants(Conversion),
}

// The columns with one more digit.
fn with_digit(columns: Option<u32>, byte: u8) -> u32
    ensures { result ≡ with_digit columns byte }
{
    let digit = u32::from(byte.saturating_sub(b'0'));
    columns
        .unwrap_or(0)
        .saturating_mul(10)
        .saturating_add(digit)
        .min(MOST_PLACES)
}

// A text in so many columns, or as it is.
fn push_in_columns(out: &mut Vec<u8>, columns: Option<u32>, text: &[u8]) -> Result<(), NoMemory>
    ensures { OnOk result (out.new.items ≡ out.old.items ++ in_columns columns text.now) }
{
    match columns {
        None => out.extend_from_slice(text)?,
        Some(columns) => push_at_right(out, columns, text)?,
    }
    Ok(())
}

// The letter behind `%` and its digits.
fn at_letter(
    out: &mut Vec<u8>,
    name: &[u8],
    columns: Option<u32>,
    letter: Option<Letter>,
) -> Result<Next, NoMemory>
    ensures text { IfOk result (λ n.
        out.new.items ≡ out.old.items ++ (at_letter name.now columns letter).text) }
    ensures next { IfOk result (λ n. n ≡ (at_letter name.now columns letter).next) }
{
    match letter {
        None => {}
        Some(Letter::Percent) => out.push(b'%')?,
        Some(Letter::Name) => push_in_columns(out, columns, name)?,
        Some(Letter::Value(form)) => return Ok(Next::Wants(Conversion { form, columns })),
    }
    Ok(Next::On(Mode::Plain))
}

// A byte, by what stands before it.
fn step(out: &mut Vec<u8>, name: &[u8], mode: Mode, byte: u8) -> Result<Next, NoMemory>
    ensures text { IfOk result (λ n.
        out.new.items ≡ out.old.items ++ (step_of name.now mode byte).text) }
    ensures next { IfOk result (λ n. n ≡ (step_of name.now mode byte).next) }
{
    match mode {
        Mode::Plain => {
            if byte == b'%' {
                return Ok(Next::On(Mode::Open(None)));
            }
            out.push(byte)?;
            Ok(Next::On(Mode::Plain))
        }
        Mode::Open(columns) => {
            if byte.is_ascii_digit() {
                return Ok(Next::On(Mode::Open(Some(with_digit(columns, byte)))));
            }
            at_letter(out, name, columns, letter_of(byte))
        }
    }
}

// Shows a format up to its first conversion that wants a value, and answers that conversion with
// what is behind it.
pub(crate) fn front<'a>(
    out: &mut Vec<u8>,
    name: &[u8],
    format: &'a [u8],
) -> Result<Option<(Conversion, &'a [u8])>, NoMemory>
    ensures text { IfOk result (λ w.
        out.new.items ≡ out.old.items ++ (front name.now Mode.Plain format.now).text) }
    ensures wants { IfOk result (λ w. option_map (λ p. (p.0, (p.1).now)) w
        ≡ (front name.now Mode.Plain format.now).wants) }
{
    let mut mode = Mode::Plain;
    for (i, byte) in format.iter().enumerate() {
        match step(out, name, mode, *byte)? {
            Next::On(next) => mode = next,
            Next::Wants(conversion) => return Ok(Some((conversion, &format[i + 1..]))),
        }
    }
    Ok(None)
}

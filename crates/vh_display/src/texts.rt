ghost use Rattle.std.specs.Prelude.{◌≡◌, ◌≤◌, ◌++◌, ◌^◌, ◌==◌, replicate, IfOk, OnOk};
ghost use Rattle.std.specs.List.{prefix_len};
ghost use Rattle.vh_logic.specs.Number.{number_of, digit_value};
ghost use Rattle.vh_display.specs.Texts.{at_right, trimmed, decimal_columns, time_text, string_text, plain_text, own_columns, is_trimmed, value_text};

use crate::conversion::{Conversion, Form};
use std::alloc::Global;
use vh_base::NoMemory;
use vh_eval::integer;
use vh_logic::{Digit, Plane, Vec4};
use vh_text::{Radix, text_of};

/// The columns of `%t` (IEEE 1364-2005, 17.1.1.5).
pub const TIME_PLACES: u32 = 20;

// Spaces.
fn push_spaces(out: &mut Vec<u8>, count: usize) -> Result<(), NoMemory>
    ensures { OnOk result (out.new.items ≡ out.old.items ++ replicate count 32) }
{
    for _ in 0..count {
        out.push(b' ')?;
    }
    Ok(())
}

// A text at the right of so many columns.
pub(crate) fn push_at_right(out: &mut Vec<u8>, columns: u32, text: &[u8]) -> Result<(), NoMemory>
    ensures { OnOk result (out.new.items ≡ out.old.items ++ at_right columns text.now) }
{
    push_spaces(out, (columns as usize).saturating_sub(text.len()))?;
    out.extend_from_slice(text)?;
    Ok(())
}

// How many bytes of a text are this one, from the front on.
fn leading(text: &[u8], byte: u8) -> usize
    ensures { result ≡ prefix_len (λ b. b == byte) text.now }
{
    text.iter().take_while(|b| **b == byte).count()
}

// Without leading zeros, of which one stays.
fn trimmed(text: &[u8]) -> &[u8]
    ensures { result.now ≡ trimmed text.now }
{
    let zeros = leading(text, b'0').min(text.len().saturating_sub(1));
    &text[zeros..]
}

// The columns of `%d`: of the greatest number of the width, and one for a sign.
fn decimal_columns(v: &Vec4) -> u32
    ensures { result ≡ decimal_columns v.now }
{
    // A digit of base 2 has 1,233 / 4,096 digits of base 10.
    let columns = v.width() * 1233 / 4096 + 1;
    if v.is_signed() { columns + 1 } else { columns }
}

// A digit's number; x and z count as 0.
fn digit_value(d: Digit) -> Plane
    ensures { result ≡ digit_value d }
{
    match d {
        Digit::One => 1,
        Digit::Zero | Digit::X | Digit::Z => 0,
    }
}

// The number of a value whose x and z count as 0.
fn known_part(v: &Vec4) -> Plane
    ensures { result ≡ number_of v.now.digits }
{
    let mut number = 0;
    for i in (0..v.width()).rev() {
        number = 2 * number + digit_value(v.digit(i));
    }
    number
}

// The bytes of a value from the first that isn't 0.
fn string_text(alloc: Global, v: &Vec4) -> Result<Vec<u8>, NoMemory>
    ensures { IfOk result (λ t. t.items ≡ string_text v.now) }
{
    let bytes = known_part(v).to_be_bytes();
    Ok(Vec::from_slice(alloc, &bytes[leading(&bytes, 0)..])?)
}

// A time in units that are so many times the precision.
fn time_text(alloc: Global, ratio: u64, v: &Vec4) -> Result<Vec<u8>, NoMemory>
    requires { ratio ≤ 10 ^ 17 }
    ensures { IfOk result (λ t. t.items ≡ time_text ratio v.now) }
{
    let Some(time) = integer(v) else {
        return Ok(text_of(alloc, v, Radix::Decimal)?.into_bytes());
    };
    let size = time.unsigned_abs() * u128::from(ratio);
    let text = if time < 0 {
        format!(in alloc; "-{size}")?
    } else {
        format!(in alloc; "{size}")?
    };
    Ok(text.into_bytes())
}

// What a conversion shows of a value.
fn plain_text(alloc: Global, ratio: u64, form: Form, v: &Vec4) -> Result<Vec<u8>, NoMemory>
    requires { ratio ≤ 10 ^ 17 }
    ensures { IfOk result (λ t. t.items ≡ plain_text ratio form v.now) }
{
    match form {
        Form::Number(radix) => Ok(text_of(alloc, v, radix)?.into_bytes()),
        Form::Time => time_text(alloc, ratio, v),
        Form::Text => string_text(alloc, v),
        Form::Character => Ok(vec![in alloc; (known_part(v) % 256) as u8]?),
    }
}

// In how many columns at least, where the conversion has no digits.
fn own_columns(form: Form, v: &Vec4) -> u32
    ensures { result ≡ own_columns form v.now }
{
    match form {
        Form::Number(Radix::Decimal) => decimal_columns(v),
        Form::Time => TIME_PLACES,
        Form::Number(Radix::Binary | Radix::Octal | Radix::Hex) | Form::Text | Form::Character => 0,
    }
}

// Has the shortest form no leading zeros?
fn is_trimmed(form: Form) -> bool
    ensures { result ≡ is_trimmed form }
{
    matches!(
        form,
        Form::Number(Radix::Binary | Radix::Octal | Radix::Hex)
    )
}

// A value as a conversion shows it.
pub(crate) fn push_value(
    alloc: Global,
    out: &mut Vec<u8>,
    ratio: u64,
    how: Conversion,
    v: &Vec4,
) -> Result<(), NoMemory>
    requires { ratio ≤ 10 ^ 17 }
    ensures { OnOk result (out.new.items
        ≡ out.old.items ++ value_text ratio how.form how.columns v.now) }
{
    let text = plain_text(alloc, ratio, how.form, v)?;
    match how.columns {
        None => push_at_right(out, own_columns(how.form, v), &text),
        Some(columns) if is_trimmed(how.form) => push_at_right(out, columns, trimmed(&text)),
        Some(columns) => push_at_right(out, columns, &text),
    }
}

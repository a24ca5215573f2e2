ghost use Rattle.std.specs.Prelude.{◌≡◌};
ghost use Rattle.vh_display.specs.Formats.{is_letter, letter_of};

use vh_text::Radix;

// What a conversion makes of a value.
#[derive(Clone, Copy)]
pub(crate) enum Form {
    Number(Radix),
    Time,
    Text,
    Character,
}

// A conversion, with its digits where it has some.
#[derive(Clone, Copy)]
pub(crate) struct Conversion {
    pub(crate) form: Form,
    pub(crate) columns: Option<u32>,
}

// What a letter behind `%` asks for: a value, the scope's name, or `%` itself.
#[derive(Clone, Copy)]
pub(crate) enum Letter {
    Value(Form),
    Name,
    Percent,
}

// Is the byte this letter, in either case?
fn is_letter(small: u8, byte: u8) -> bool
    ensures { result ≡ is_letter small byte }
{
    byte == small || u32::from(byte) + 32 == u32::from(small)
}

// What a letter behind `%` asks for; none where it is no conversion.
pub(crate) fn letter_of(byte: u8) -> Option<Letter>
    ensures { result ≡ letter_of byte }
{
    if is_letter(b'b', byte) {
        return Some(Letter::Value(Form::Number(Radix::Binary)));
    }
    if is_letter(b'o', byte) {
        return Some(Letter::Value(Form::Number(Radix::Octal)));
    }
    if is_letter(b'h', byte) {
        return Some(Letter::Value(Form::Number(Radix::Hex)));
    }
    if is_letter(b'd', byte) {
        return Some(Letter::Value(Form::Number(Radix::Decimal)));
    }
    if is_letter(b't', byte) {
        return Some(Letter::Value(Form::Time));
    }
    if is_letter(b's', byte) {
        return Some(Letter::Value(Form::Text));
    }
    if is_letter(b'c', byte) {
        return Some(Letter::Value(Form::Character));
    }
    if is_letter(b'm', byte) {
        return Some(Letter::Name);
    }
    if byte == b'%' {
        Some(Letter::Percent)
    } else {
        None
    }
}

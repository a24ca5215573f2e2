//! Classes of bytes.

ghost use Rattle.std.specs.Prelude.{◌≡◌};
ghost use Rattle.vh_base.specs.Classes;
ghost use Rattle.vh_app_script.specs.Spelling;

use vh_base::{is_digit, is_name_start};

/// What a name goes on with.
pub fn is_name_byte(byte: u8) -> bool
    ensures { result ≡ Spelling.is_name_byte byte }
{
    is_name_start(byte) || is_digit(byte)
}

/// What a comment goes on with.
pub fn is_comment_byte(byte: u8) -> bool
    ensures { result ≡ Spelling.is_comment_byte byte }
{
    byte != b'\n'
}

/// What may stand behind a backslash in a text.
pub fn is_escaped(byte: u8) -> bool
    ensures { result ≡ Spelling.is_escaped byte }
{
    matches!(byte, b'"' | b'\\')
}

/// What a text may hold.
pub fn is_text_byte(byte: u8) -> bool
    ensures { result ≡ Classes.is_between 32 126 byte }
{
    matches!(byte, b' '..=b'~')
}

ghost use Rattle.std.specs.Prelude.{◌≡◌, ◌≤◌, length};
ghost use Rattle.std.specs.List.{prefix_len};
ghost use Rattle.vh_base.specs.Classes;
ghost use Rattle.vh_text.specs.Symbols.{is_number_byte, is_x_letter, is_z_letter, is_sign_byte};
ghost use Rattle.vh_text.specs.Literals.{after_white};

use vh_base::is_space;

// How many bytes at the front are digits or underscores.
pub(crate) fn number_len(bytes: &[u8]) -> usize
    ensures value { result ≡ prefix_len is_number_byte bytes.now }
    ensures inside { result ≤ length bytes.now }
{
    bytes.iter().take_while(|b| is_number_byte(**b)).count()
}

// The bytes without the white space at their front.
pub(crate) fn after_white(bytes: &[u8]) -> &[u8]
    ensures { result.now ≡ after_white bytes.now }
{
    let white = white_len(bytes);
    &bytes[white..]
}

// How many bytes at the front are white space.
fn white_len(bytes: &[u8]) -> usize
    ensures value { result ≡ prefix_len Classes.is_space bytes.now }
    ensures inside { result ≤ length bytes.now }
{
    bytes.iter().take_while(|b| is_space(**b)).count()
}

// A byte of an unsigned number.
fn is_number_byte(b: u8) -> bool
    ensures { result ≡ is_number_byte b }
{
    b.is_ascii_digit() || b == b'_'
}

// An x in either case.
pub(crate) fn is_x_letter(b: u8) -> bool
    ensures { result ≡ is_x_letter b }
{
    b == b'x' || b == b'X'
}

// A z in either case.
pub(crate) fn is_z_letter(b: u8) -> bool
    ensures { result ≡ is_z_letter b }
{
    b == b'z' || b == b'Z'
}

// The symbol of a signed number, in either case.
pub(crate) fn is_sign_byte(b: u8) -> bool
    ensures { result ≡ is_sign_byte b }
{
    b == b's' || b == b'S'
}

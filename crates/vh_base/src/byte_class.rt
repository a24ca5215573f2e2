ghost use Rattle.std.specs.Prelude.{◌≡◌};
ghost use Rattle.vh_base.specs.Classes;

/// White space (IEEE 1364-2005, 3.2).
pub fn is_space(byte: u8) -> bool
    ensures { result ≡ Classes.is_space byte }
{
    matches!(byte, b'\t' | b'\n' | 0x0c | b'\r' | b' ')
}

/// What a name begins with: a letter or an underscore (IEEE 1364-2005, 3.7).
pub fn is_name_start(byte: u8) -> bool
    ensures { result ≡ Classes.is_name_start byte }
{
    matches!(byte, b'a'..=b'z' | b'A'..=b'Z' | b'_')
}

/// A decimal digit (IEEE 1364-2005, 3.5).
pub fn is_digit(byte: u8) -> bool
    ensures { result ≡ Classes.is_digit byte }
{
    matches!(byte, b'0'..=b'9')
}

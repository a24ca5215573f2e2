ghost use Rattle.std.specs.Prelude.{◌≡◌, ◌<◌, ◌++◌, ◌∷◌, ◌/◌, ◌%◌, [], true, string_bytes, OnOk, codes};
ghost use Rattle.std.specs.List.{flat_map};
ghost use Rattle.vh_app_lines.specs.Quoted.{hex_digit as hex_code, escaped, quoted, plain, plain_text};

use std::alloc::AllocError;

/// Adds a text in quotes.
pub fn push_quoted(line: &mut String, text: &[u8]) -> Result<(), AllocError>
    ensures { OnOk result (string_bytes line.new ≡ string_bytes line.old ++ quoted text.now) }
{
    line.push('"')?;
    push_all_escaped(line, text)?;
    line.push('"')
}

/// Adds a name as it stands.
pub fn push_plain(line: &mut String, name: &[u8]) -> Result<(), AllocError>
    ensures { OnOk result (string_bytes line.new ≡ string_bytes line.old ++ plain_text name.now) }
{
    if is_plain(name)
        && let Ok(name) = std::str::from_utf8(name)
    {
        return line.push_str(name);
    }
    push_each_plain(line, name)
}

// Does each byte of a name stand as it is?
fn is_plain(name: &[u8]) -> bool
    ensures { result ≡ true → plain_text name.now ≡ name.now }
{
    for byte in name {
        if *byte >= 128 {
            return false;
        }
    }
    true
}

// Adds each byte of a name.
fn push_each_plain(line: &mut String, name: &[u8]) -> Result<(), AllocError>
    ensures { OnOk result (string_bytes line.new ≡ string_bytes line.old ++ plain_text name.now) }
{
    for byte in name {
        push_plain_byte(line, *byte)?;
    }
    Ok(())
}

// Adds a byte of a name.
fn push_plain_byte(line: &mut String, byte: u8) -> Result<(), AllocError>
    ensures { OnOk result (string_bytes line.new ≡ string_bytes line.old ++ plain byte) }
{
    if byte < 128 {
        line.push(byte as char)
    } else {
        push_hex(line, byte)
    }
}

// Adds a text as it stands in quotes: at once where no byte is written otherwise.
fn push_all_escaped(line: &mut String, text: &[u8]) -> Result<(), AllocError>
    ensures { OnOk result
        (string_bytes line.new ≡ string_bytes line.old ++ flat_map escaped text.now) }
{
    if stands(text)
        && let Ok(text) = std::str::from_utf8(text)
    {
        return line.push_str(text);
    }
    push_each_escaped(line, text)
}

// Does each byte of a text stand in quotes as it is? It looks at all of them, so that the compiler can test several at once.
fn stands(text: &[u8]) -> bool
    ensures { result ≡ true → flat_map escaped text.now ≡ text.now }
{
    let mut all = true;
    for byte in text {
        all &= byte_stands(*byte);
    }
    all
}

// Does a byte stand in quotes as it is?
fn byte_stands(byte: u8) -> bool
    ensures { result ≡ true → escaped byte ≡ byte ∷ [] }
{
    (byte >= b' ') & (byte <= b'~') & (byte != b'"') & (byte != b'\\')
}

// Adds each byte of a text as it stands in quotes.
fn push_each_escaped(line: &mut String, text: &[u8]) -> Result<(), AllocError>
    ensures { OnOk result
        (string_bytes line.new ≡ string_bytes line.old ++ flat_map escaped text.now) }
{
    for byte in text {
        push_escaped(line, *byte)?;
    }
    Ok(())
}

// Adds a byte as it stands in quotes.
fn push_escaped(line: &mut String, byte: u8) -> Result<(), AllocError>
    ensures { OnOk result (string_bytes line.new ≡ string_bytes line.old ++ escaped byte) }
{
    match byte {
        b'\n' => line.push_str("\\n"),
        b'\t' => line.push_str("\\t"),
        b'"' => line.push_str("\\\""),
        b'\\' => line.push_str("\\\\"),
        32..=126 => line.push(byte as char),
        _ => push_hex(line, byte),
    }
}

// Adds \x and a byte's two hexadecimal digits.
fn push_hex(line: &mut String, byte: u8) -> Result<(), AllocError>
    ensures { OnOk result
        (string_bytes line.new ≡
        string_bytes line.old ++
        (codes "\\x" ++ hex_code (byte / 16) ∷ hex_code (byte % 16) ∷ [])) }
{
    line.push_str("\\x")?;
    line.push(hex_char(byte / 16))?;
    line.push(hex_char(byte % 16))
}

// A hexadecimal digit, lower case.
fn hex_char(n: u8) -> char
    requires { n < 16 }
    ensures { result ≡ hex_code n }
{
    if n < 10 {
        (b'0' + n) as char
    } else {
        (b'a' + (n - 10)) as char
    }
}

ghost use Rattle.std.specs.Prelude.{◌≡◌};
ghost use Rattle.vh_text.specs.Values.{most_width};

use std::alloc::Global;
use std::process::Abort;
use std::test::Fail;
use vh_base::Format;
use vh_logic::{MAX_WIDTH, Plane, Vec4};
use vh_text::{LiteralFault, Radix, read_literal, read_value, text_of, vector_text_of};

// A literal, whether it is signed, and its digits, highest first.
const LITERALS: [(&str, bool, &str); 46] = [
    ("8'hz", false, "zzzzzzzz"),
    ("4'b1_0x?", false, "10xz"),
    ("8 'h  fF", false, "11111111"),
    ("8'dx", false, "xxxxxxxx"),
    ("8'd?", false, "zzzzzzzz"),
    ("8'dZ_", false, "zzzzzzzz"),
    ("12'bxxxx00zx1111", false, "xxxx00zx1111"),
    ("4'b0", false, "0000"),
    ("1'b1", false, "1"),
    ("1'sb1", true, "1"),
    ("4'SD7", true, "0111"),
    ("4'd16", false, "0000"),
    ("4'd25", false, "1001"),
    ("8'd255", false, "11111111"),
    ("8'd256", false, "00000000"),
    ("3'o7", false, "111"),
    ("5'o17", false, "01111"),
    ("5'o77", false, "11111"),
    ("6'ox1", false, "xxx001"),
    ("8'ox1", false, "xxxxx001"),
    ("8'oz7", false, "zzzzz111"),
    ("9'o1x", false, "000001xxx"),
    ("8'hx", false, "xxxxxxxx"),
    ("8'h1x", false, "0001xxxx"),
    ("8'hx1", false, "xxxx0001"),
    ("12'hx1", false, "xxxxxxxx0001"),
    ("6'hx1", false, "xx0001"),
    ("12'hz_5", false, "zzzzzzzz0101"),
    ("4'h1f", false, "1111"),
    ("4'hf1", false, "0001"),
    ("8'b1", false, "00000001"),
    ("8'bx", false, "xxxxxxxx"),
    ("8'b?1", false, "zzzzzzz1"),
    ("8'B1010_1010", false, "10101010"),
    ("8'Hab", false, "10101011"),
    ("8'Oz", false, "zzzzzzzz"),
    ("08'hff", false, "11111111"),
    ("1_6'hbeef", false, "1011111011101111"),
    ("8\t'b\n11", false, "00000011"),
    ("2'b1x0", false, "x0"),
    ("8'd0_0_7", false, "00000111"),
    ("8'd18446744073709551616", false, "00000000"),
    ("8'd18446744073709551617", false, "00000001"),
    ("4'h10000000000000000f", false, "1111"),
    ("1'd3", false, "1"),
    ("8'sh80", true, "10000000"),
];

// A literal, its width, whether it is signed, and its text in hexadecimal.
const WIDE_LITERALS: [(&str, u32, bool, &str); 30] = [
    ("'sd5", 32, true, "00000005"),
    ("2147483647", 32, true, "7fffffff"),
    ("2147483648", 64, true, "0000000080000000"),
    ("0", 32, true, "00000000"),
    ("1_000", 32, true, "000003e8"),
    ("18446744073709551615", 64, true, "ffffffffffffffff"),
    ("'hx", 32, false, "xxxxxxxx"),
    ("'hxxxxxxxxx", 32, false, "xxxxxxxx"),
    ("'hx00000000", 64, false, "xxxxxxxx00000000"),
    ("'shffffffff", 32, true, "ffffffff"),
    ("'hffffffff", 32, false, "ffffffff"),
    ("'h100000000", 64, false, "0000000100000000"),
    ("'h00000000000000001", 32, false, "00000001"),
    ("'h0ffffffff", 32, false, "ffffffff"),
    ("'hzffffffff", 64, false, "zzzzzzzzffffffff"),
    ("'d4294967295", 32, false, "ffffffff"),
    ("'d4294967296", 64, false, "0000000100000000"),
    ("'sd4294967295", 32, true, "ffffffff"),
    ("'d18446744073709551615", 64, false, "ffffffffffffffff"),
    ("'dz", 32, false, "zzzzzzzz"),
    ("'o37777777777", 32, false, "ffffffff"),
    ("'o40000000000", 64, false, "0000000100000000"),
    ("64'hx", 64, false, "xxxxxxxxxxxxxxxx"),
    ("64'h1", 64, false, "0000000000000001"),
    ("64'h1ffffffffffffffff", 64, false, "ffffffffffffffff"),
    ("33'h1_0000_0000", 33, false, "100000000"),
    ("'b1", 32, false, "00000001"),
    ("'bx", 32, false, "xxxxxxxx"),
    ("'bz0", 32, false, "zzzzzzzZ"),
    ("'sbx", 32, true, "xxxxxxxx"),
];

// Bytes that are no number.
const MALFORMED: [&str; 31] = [
    "8'hg", "0'h1", "8'd1x", "1.5", "1e3", "", "'", "8'", "8'h", "8'h_1", "_1", "1x", "4'b2",
    "4'b1a", "8'o8", "8'da", " 'h1", "8'h1 ", "8 h1", "8''h1", "8'sh", "8's1", "8'dxx", "8'dx1",
    "-1", "65'hg", "00'h1", "8'q1", "'h", "8'h 1 2", "65'd1x",
];

// Numbers whose size, or whose value without a size, is beyond the greatest width.
const TOO_WIDE: [&str; 7] = [
    "65'h1",
    "18446744073709551616",
    "'h10000000000000000",
    "'d18446744073709551616",
    "99999999999999999999'h1",
    "'hx0000000000000000",
    "66'hx",
];

// In the place of digits, for a text that is refused.
const REFUSED: &str = "refused";

// A format, a text, the object's width, and the digits that it gets, highest first, or `REFUSED`.
const VALUES: [(Format, &str, u32, &str); 62] = [
    (Format::VpiBinStrVal, "1xz", 2, "xz"),
    (Format::VpiBinStrVal, "1", 4, "0001"),
    (Format::VpiBinStrVal, "XZ", 4, "00xz"),
    (Format::VpiBinStrVal, "", 8, REFUSED),
    (
        Format::VpiBinStrVal,
        "0000000000000000000000000000000000000000000000000000000000000101",
        4,
        "0101",
    ),
    (
        Format::VpiBinStrVal,
        "00000000000000000000000000000000000000000000000000000000000000101",
        4,
        REFUSED,
    ),
    (Format::VpiBinStrVal, "1_0", 2, REFUSED),
    (Format::VpiBinStrVal, "?", 2, REFUSED),
    (Format::VpiBinStrVal, "2", 2, REFUSED),
    (Format::VpiOctStrVal, "17", 4, "1111"),
    (Format::VpiOctStrVal, "x", 4, "0xxx"),
    (Format::VpiOctStrVal, "7777777777777777777777", 3, "111"),
    (Format::VpiOctStrVal, "00000000000000000000001", 3, REFUSED),
    (Format::VpiOctStrVal, "8", 4, REFUSED),
    (Format::VpiHexStrVal, "X", 6, "00xxxx"),
    (Format::VpiHexStrVal, "aB", 8, "10101011"),
    (Format::VpiHexStrVal, "z0", 8, "zzzz0000"),
    (Format::VpiHexStrVal, "00000000000000001", 8, REFUSED),
    (Format::VpiHexStrVal, "g", 8, REFUSED),
    (Format::VpiDecStrVal, "-1", 4, "1111"),
    (Format::VpiDecStrVal, "-0", 4, "0000"),
    (Format::VpiDecStrVal, "x", 3, "xxx"),
    (Format::VpiDecStrVal, "z", 3, "zzz"),
    (Format::VpiDecStrVal, "X", 3, REFUSED),
    (Format::VpiDecStrVal, "-", 4, REFUSED),
    (Format::VpiDecStrVal, "", 4, REFUSED),
    (Format::VpiDecStrVal, "18446744073709551615", 4, "1111"),
    (Format::VpiDecStrVal, "18446744073709551616", 4, REFUSED),
    (Format::VpiDecStrVal, "-18446744073709551615", 4, "0001"),
    (Format::VpiDecStrVal, "-18446744073709551616", 4, REFUSED),
    (Format::VpiDecStrVal, "007", 4, "0111"),
    (Format::VpiDecStrVal, "+1", 4, REFUSED),
    (Format::VpiDecStrVal, "1x", 4, REFUSED),
    (Format::VpiDecStrVal, "-x", 4, REFUSED),
    (Format::VpiDecStrVal, "1_0", 4, REFUSED),
    (
        Format::VpiIntVal,
        "-2147483648",
        32,
        "10000000000000000000000000000000",
    ),
    (Format::VpiIntVal, "-2147483649", 32, REFUSED),
    (Format::VpiIntVal, "2147483647", 4, "1111"),
    (Format::VpiIntVal, "2147483648", 32, REFUSED),
    (Format::VpiIntVal, "-1", 4, "1111"),
    (Format::VpiIntVal, "007", 4, "0111"),
    (Format::VpiIntVal, "-0", 4, "0000"),
    (Format::VpiIntVal, "x", 4, REFUSED),
    (Format::VpiScalarVal, "0", 1, "0"),
    (Format::VpiScalarVal, "1", 1, "1"),
    (Format::VpiScalarVal, "x", 1, "x"),
    (Format::VpiScalarVal, "z", 1, "z"),
    (Format::VpiScalarVal, "X", 1, REFUSED),
    (Format::VpiScalarVal, "00", 1, REFUSED),
    (Format::VpiScalarVal, "", 1, REFUSED),
    (Format::VpiVectorVal, "a:c", 5, "0xz10"),
    (Format::VpiVectorVal, "0:0", 2, "00"),
    (Format::VpiVectorVal, "f:0", 2, "11"),
    (
        Format::VpiVectorVal,
        "ffffffffffffffff:ffffffffffffffff",
        1,
        "x",
    ),
    (Format::VpiVectorVal, "10000000000000000:0", 1, REFUSED),
    (Format::VpiVectorVal, "0a:c", 5, REFUSED),
    (Format::VpiVectorVal, "A:0", 4, REFUSED),
    (Format::VpiVectorVal, ":0", 4, REFUSED),
    (Format::VpiVectorVal, "0:", 4, REFUSED),
    (Format::VpiVectorVal, "0", 4, REFUSED),
    (Format::VpiVectorVal, "0:0:0", 4, REFUSED),
    (Format::VpiVectorVal, "x:0", 4, REFUSED),
];

// A value by its width and two planes, whether it is signed, a base, and its text.
const TEXTS: [(u32, Plane, Plane, bool, Radix, &str); 24] = [
    (4, 12, 5, false, Radix::Binary, "1x0z"),
    (4, 12, 5, false, Radix::Octal, "1X"),
    (4, 12, 5, false, Radix::Hex, "X"),
    (4, 12, 5, false, Radix::Decimal, "X"),
    (4, 0, 15, false, Radix::Hex, "z"),
    (4, 0, 15, true, Radix::Decimal, "z"),
    (12, 0xf1f, 0xf30, false, Radix::Hex, "xXf"),
    (12, 0xf1f, 0xf30, false, Radix::Binary, "xxxx00zx1111"),
    (4, 15, 0, true, Radix::Decimal, "-1"),
    (4, 15, 0, false, Radix::Decimal, "15"),
    (
        64,
        Plane::MAX,
        0,
        false,
        Radix::Decimal,
        "18446744073709551615",
    ),
    (64, Plane::MAX, 0, true, Radix::Decimal, "-1"),
    (
        64,
        0x8000_0000_0000_0000,
        0,
        true,
        Radix::Decimal,
        "-9223372036854775808",
    ),
    (8, 0x80, 0, true, Radix::Decimal, "-128"),
    (8, 0x7f, 0, true, Radix::Decimal, "127"),
    (3, 4, 2, false, Radix::Decimal, "Z"),
    (5, 0x16, 0, false, Radix::Octal, "26"),
    (4, 6, 8, false, Radix::Octal, "z6"),
    (4, 14, 8, false, Radix::Octal, "x6"),
    (5, 0x0e, 0x10, false, Radix::Octal, "Z6"),
    (1, 0, 0, false, Radix::Decimal, "0"),
    (64, Plane::MAX, Plane::MAX, false, Radix::Decimal, "x"),
    (8, 0x0f, 0, false, Radix::Hex, "0f"),
    (
        64,
        0,
        Plane::MAX,
        false,
        Radix::Octal,
        "zzzzzzzzzzzzzzzzzzzzzz",
    ),
];

// Literals, and texts by each format and base, against values that are worked out from the rules.
#[test]
fn literals_and_texts(rt: HostRuntime) -> Result<(), Fail> {
    let alloc = rt.alloc();
    check_literals(&rt, alloc)?;
    check_faults(&rt);
    check_values(&rt, alloc)?;
    check_texts(&rt, alloc)
}

fn check_literals(rt: &impl Abort, alloc: Global) -> Result<(), Fail> {
    for (source, signed, digits) in LITERALS {
        let v = read_literal(source.as_bytes()).expect(rt, source);
        assert!(rt; v.is_signed() == signed, "{source}");
        check_text(rt, alloc, &v, Radix::Binary, digits)?;
    }
    for (source, width, signed, digits) in WIDE_LITERALS {
        let v = read_literal(source.as_bytes()).expect(rt, source);
        assert!(rt; v.width() == width && v.is_signed() == signed, "{source}");
        check_text(rt, alloc, &v, Radix::Hex, digits)?;
    }
    Ok(())
}

fn check_faults(rt: &impl Abort) {
    for source in MALFORMED {
        let fault = read_literal(source.as_bytes()).err();
        assert!(rt; fault == Some(LiteralFault::Malformed), "{source}");
    }
    for source in TOO_WIDE {
        let fault = read_literal(source.as_bytes()).err();
        assert!(rt; fault == Some(LiteralFault::TooWide), "{source}");
    }
}

fn check_values(rt: &impl Abort, alloc: Global) -> Result<(), Fail> {
    for (format, source, width, digits) in VALUES {
        match read(rt, source, format, width) {
            Some(v) => check_text(rt, alloc, &v, Radix::Binary, digits)?,
            None => assert!(rt; digits == REFUSED, "{source}"),
        }
    }
    Ok(())
}

fn check_texts(rt: &impl Abort, alloc: Global) -> Result<(), Fail> {
    for (width, aval, bval, signed, radix, text) in TEXTS {
        assert!(rt; width >= 1 && width <= MAX_WIDTH, "{text}");
        let v = Vec4::from_planes(width, aval, bval, signed);
        check_text(rt, alloc, &v, radix, text)?;
    }
    let planes = vector_text_of(alloc, &Vec4::from_planes(5, 10, 12, false))?;
    assert!(rt; planes.as_str() == "a:c", "{planes}");
    Ok(())
}

fn check_text(
    rt: &impl Abort,
    alloc: Global,
    v: &Vec4,
    radix: Radix,
    text: &str,
) -> Result<(), Fail> {
    let got = text_of(alloc, v, radix)?;
    assert!(rt; got.as_str() == text, "{got} in place of {text}");
    Ok(())
}

fn read(rt: &impl Abort, source: &str, format: Format, width: u32) -> Option<Vec4> {
    let limit = most(format);
    assert!(rt; width >= 1);
    assert!(rt; width <= limit);
    read_value(source.as_bytes(), format, width)
}

fn most(format: Format) -> u32
    ensures { result ≡ most_width format }
{
    match format {
        Format::VpiIntVal => 32,
        Format::VpiScalarVal => 1,
        Format::VpiBinStrVal
        | Format::VpiOctStrVal
        | Format::VpiHexStrVal
        | Format::VpiDecStrVal
        | Format::VpiVectorVal => MAX_WIDTH,
    }
}

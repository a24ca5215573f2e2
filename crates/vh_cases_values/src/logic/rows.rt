use vh_logic::{
    Digit, MAX_WIDTH, Plane, Vec4, add, and, case_equal, casex_equal, casez_equal, concat, div,
    equal, invert, less, merge, mul, negate, or, pow, reduce_and, reduce_or, reduce_xor, rem,
    replace, resize, select, shl, shr, sshr, sub, truth, xnor, xor,
};

const HALF: Plane = 1 << (MAX_WIDTH - 1);

// How a row writes a vector.
#[derive(Clone, Copy)]
enum Written {
    // Unsigned, its highest digit first, as `10xz`.
    Bits(&'static str),
    // An integer in this many digits, signed.
    Signed(u32, i64),
    // A number at the greatest width, unsigned.
    Wide(Plane),
    // This many x digits, signed.
    SignedX(u32),
}

use Written::{Bits, Signed, SignedX, Wide};

fn vector(written: Written) -> Option<Vec4> {
    match written {
        Bits(text) => bits(text.as_bytes()),
        Signed(width, integer) => {
            if width == 0 || width > MAX_WIDTH {
                return None;
            }
            let size = Plane::from(integer.unsigned_abs());
            let word = if integer < 0 {
                size.wrapping_neg()
            } else {
                size
            };
            Some(Vec4::from_planes(width, word, 0, true))
        }
        Wide(number) => Some(Vec4::from_planes(MAX_WIDTH, number, 0, false)),
        SignedX(width) => {
            if width == 0 || width > MAX_WIDTH {
                return None;
            }
            Some(Vec4::filled(width, Digit::X, true))
        }
    }
}

fn bits(text: &[u8]) -> Option<Vec4> {
    let mut aval: Plane = 0;
    let mut bval: Plane = 0;
    for byte in text {
        aval = aval << 1;
        bval = bval << 1;
        if *byte == b'1' || *byte == b'x' {
            aval = aval | 1;
        }
        if *byte == b'x' || *byte == b'z' {
            bval = bval | 1;
        }
    }
    let width = u32::try_from(text.len()).ok()?;
    if width == 0 || width > MAX_WIDTH {
        return None;
    }
    Some(Vec4::from_planes(width, aval, bval, false))
}

fn is_same(a: &Vec4, b: &Vec4) -> bool {
    a.width() == b.width()
        && a.is_signed() == b.is_signed()
        && a.aval() == b.aval()
        && a.bval() == b.bval()
}

#[derive(Clone, Copy)]
enum Operator {
    Add,
    Sub,
    Mul,
    Div,
    Rem,
    And,
    Or,
    Xor,
    Xnor,
    Merge,
    Pow,
    Shl,
    Shr,
    Sshr,
    Concat,
}

use Operator::{Add, And, Concat, Div, Merge, Mul, Or, Pow, Rem, Shl, Shr, Sshr, Sub, Xnor, Xor};

// The operator on two operands, none where they do not meet its conditions.
fn applied(operator: Operator, a: &Vec4, b: &Vec4) -> Option<Vec4> {
    match operator {
        Pow => return Some(pow(a, b)),
        Shl => return Some(shl(a, b)),
        Shr => return Some(shr(a, b)),
        Sshr => return Some(sshr(a, b)),
        _ => {}
    }
    if let Concat = operator {
        return if a.width() + b.width() <= MAX_WIDTH {
            Some(concat(a, b))
        } else {
            None
        };
    }
    if a.width() != b.width() || a.is_signed() != b.is_signed() {
        return None;
    }
    match operator {
        Add => Some(add(a, b)),
        Sub => Some(sub(a, b)),
        Mul => Some(mul(a, b)),
        Div => Some(div(a, b)),
        Rem => Some(rem(a, b)),
        And => Some(and(a, b)),
        Or => Some(or(a, b)),
        Xor => Some(xor(a, b)),
        Xnor => Some(xnor(a, b)),
        Merge => Some(merge(a, b)),
        _ => None,
    }
}

static ROWS: [(Operator, Written, Written, Written); 68] = [
    (Pow, Signed(8, -1), Signed(8, -3), Signed(8, -1)),
    (Pow, Signed(8, -1), Signed(8, -2), Signed(8, 1)),
    (Pow, Signed(8, 0), Signed(8, -1), SignedX(8)),
    (Pow, Signed(8, 2), Signed(8, -1), Signed(8, 0)),
    (Pow, Signed(8, 1), Signed(8, -1), Signed(8, 1)),
    (Pow, Signed(8, 0), Signed(8, 0), Signed(8, 1)),
    (Pow, Wide(3), Wide(41), Wide(18026252303461234787)),
    (Pow, Bits("1"), Bits("0"), Bits("1")),
    (Merge, Bits("10xz"), Bits("1100"), Bits("1xxx")),
    (And, Bits("10xz"), Bits("1100"), Bits("1000")),
    (Or, Bits("10xz"), Bits("1100"), Bits("11xx")),
    (Xor, Bits("10xz"), Bits("1100"), Bits("01xx")),
    (Xnor, Bits("10xz"), Bits("1100"), Bits("10xx")),
    (And, Wide(HALF), Wide(Plane::MAX), Wide(HALF)),
    (Or, Wide(HALF), Wide(1), Wide(0x8000_0000_0000_0001)),
    (
        Xor,
        Wide(HALF),
        Wide(Plane::MAX),
        Wide(0x7fff_ffff_ffff_ffff),
    ),
    (Xnor, Wide(HALF), Wide(Plane::MAX), Wide(HALF)),
    (Merge, Wide(Plane::MAX), Wide(Plane::MAX), Wide(Plane::MAX)),
    (And, Bits("z"), Bits("1"), Bits("x")),
    (Or, Bits("z"), Bits("0"), Bits("x")),
    (Xor, Bits("1"), Bits("0"), Bits("1")),
    (Xnor, Bits("1"), Bits("0"), Bits("0")),
    (Merge, Bits("1"), Bits("0"), Bits("x")),
    (Add, Bits("0001"), Bits("000x"), Bits("xxxx")),
    (Add, Wide(Plane::MAX), Wide(1), Wide(0)),
    (Sub, Wide(0), Wide(1), Wide(Plane::MAX)),
    (Add, Bits("1"), Bits("1"), Bits("0")),
    (Sub, Bits("0"), Bits("1"), Bits("1")),
    (Div, Signed(8, -7), Signed(8, 2), Signed(8, -3)),
    (Div, Signed(8, -128), Signed(8, -1), Signed(8, -128)),
    (Rem, Signed(8, -7), Signed(8, 2), Signed(8, -1)),
    (Rem, Signed(8, 7), Signed(8, -2), Signed(8, 1)),
    (Div, Bits("0110"), Bits("0000"), Bits("xxxx")),
    (Rem, Bits("0110"), Bits("0000"), Bits("xxxx")),
    (Mul, Wide(Plane::MAX), Wide(Plane::MAX), Wide(1)),
    (
        Div,
        Signed(64, i64::MIN),
        Signed(64, -1),
        Signed(64, i64::MIN),
    ),
    (
        Rem,
        Wide(Plane::MAX),
        Wide(HALF),
        Wide(0x7fff_ffff_ffff_ffff),
    ),
    (Mul, Bits("1"), Bits("1"), Bits("1")),
    (Div, Bits("1"), Bits("1"), Bits("1")),
    (Rem, Bits("1"), Bits("1"), Bits("0")),
    (Shl, Bits("10xz"), Bits("01"), Bits("0xz0")),
    (Shr, Bits("10xz"), Bits("01"), Bits("010x")),
    (Sshr, Bits("1000"), Bits("10"), Bits("0010")),
    (Sshr, Signed(8, -7), Bits("1"), Signed(8, -4)),
    (Shl, Bits("1111"), Bits("0x"), Bits("xxxx")),
    (Shr, Bits("1111"), Bits("z"), Bits("xxxx")),
    (Sshr, Bits("1111"), Bits("x"), Bits("xxxx")),
    (Shr, Bits("11"), Signed(2, -1), Bits("00")),
    (Shl, Wide(1), Wide(63), Wide(HALF)),
    (Shl, Wide(1), Wide(64), Wide(0)),
    (Shr, Wide(HALF), Wide(63), Wide(1)),
    (Shr, Wide(HALF), Wide(Plane::MAX), Wide(0)),
    (Sshr, Signed(64, i64::MIN), Wide(63), Signed(64, -1)),
    (Sshr, Signed(64, i64::MIN), Wide(64), Signed(64, -1)),
    (Sshr, Signed(64, i64::MIN), Wide(Plane::MAX), Signed(64, -1)),
    (Sshr, Wide(HALF), Wide(64), Wide(0)),
    (Shl, Bits("1"), Bits("1"), Bits("0")),
    (Shr, Bits("1"), Bits("1"), Bits("0")),
    (Sshr, Signed(1, -1), Bits("1"), Signed(1, -1)),
    (Concat, Bits("1x"), Bits("0z1"), Bits("1x0z1")),
    (Concat, Signed(2, -1), Signed(2, 0), Bits("1100")),
    (
        Concat,
        Bits("1"),
        Signed(63, 1),
        Wide(0x8000_0000_0000_0001),
    ),
    (Concat, Signed(63, 1), Bits("0"), Wide(2)),
    (Mul, Signed(4, -3), Signed(4, 3), Signed(4, 7)),
    (Pow, Signed(8, -3), Bits("11"), Signed(8, -27)),
    (Pow, Bits("0x"), Bits("0"), Bits("xx")),
    (Div, Bits("0x"), Bits("00"), Bits("xx")),
    (Sub, Signed(8, -128), Signed(8, 1), Signed(8, 127)),
];

#[test]
fn two_operands(rt: HostRuntime) {
    for &(operator, a, b, expected) in &ROWS {
        let (Some(a), Some(b), Some(expected)) = (vector(a), vector(b), vector(expected)) else {
            assert!(rt; false, "a row's vector is none");
            return;
        };
        let result = applied(operator, &a, &b);
        assert!(rt;
            matches!(&result, Some(v) if is_same(v, &expected)),
            "a row fails"
        );
    }
}

#[derive(Clone, Copy)]
enum Comparison {
    Equal,
    CaseEqual,
    CasezEqual,
    CasexEqual,
    Less,
}

use Comparison::{CaseEqual, CasexEqual, CasezEqual, Equal, Less};

// The comparison of two operands, none where they do not meet its conditions.
fn compared(comparison: Comparison, a: &Vec4, b: &Vec4) -> Option<Digit> {
    if a.width() != b.width() || a.is_signed() != b.is_signed() {
        return None;
    }
    Some(match comparison {
        Equal => equal(a, b),
        CaseEqual => case_equal(a, b),
        CasezEqual => casez_equal(a, b),
        CasexEqual => casex_equal(a, b),
        Less => less(a, b),
    })
}

static COMPARISONS: [(Comparison, Written, Written, Digit); 20] = [
    (Equal, Bits("1x0"), Bits("0x0"), Digit::Zero),
    (Equal, Bits("1x0"), Bits("1x0"), Digit::X),
    (Equal, Bits("1"), Bits("1"), Digit::One),
    (Equal, Wide(HALF), Wide(0), Digit::Zero),
    (CaseEqual, Bits("1xz"), Bits("1xz"), Digit::One),
    (CaseEqual, Bits("x"), Bits("z"), Digit::Zero),
    (CaseEqual, Wide(HALF), Wide(HALF), Digit::One),
    (CasezEqual, Bits("1z0"), Bits("1x0"), Digit::One),
    (CasezEqual, Bits("1x0"), Bits("110"), Digit::Zero),
    (CasezEqual, Wide(HALF), Wide(0), Digit::Zero),
    (CasezEqual, Bits("z"), Bits("1"), Digit::One),
    (CasexEqual, Bits("1x0"), Bits("11z"), Digit::One),
    (CasexEqual, Bits("1x0"), Bits("0x0"), Digit::Zero),
    (CasexEqual, Wide(HALF), Wide(0), Digit::Zero),
    (CasexEqual, Bits("x"), Bits("1"), Digit::One),
    (Less, Bits("1x"), Bits("00"), Digit::X),
    (Less, Signed(64, i64::MIN), Signed(64, 0), Digit::One),
    (Less, Wide(HALF), Wide(0), Digit::Zero),
    (Less, Signed(1, -1), Signed(1, 0), Digit::One),
    (Less, Bits("1"), Bits("0"), Digit::Zero),
];

#[test]
fn comparisons(rt: HostRuntime) {
    for &(comparison, a, b, expected) in &COMPARISONS {
        let (Some(a), Some(b)) = (vector(a), vector(b)) else {
            assert!(rt; false, "a row's vector is none");
            return;
        };
        assert!(rt;
            compared(comparison, &a, &b) == Some(expected),
            "a row fails"
        );
    }
}

// A vector, the digits that `&`, `|` and `^` make of it, and its truth.
static REDUCTIONS: [(Written, Digit, Digit, Digit, Digit); 9] = [
    (Bits("0xz"), Digit::Zero, Digit::X, Digit::X, Digit::X),
    (Bits("1xz"), Digit::X, Digit::One, Digit::X, Digit::One),
    (Bits("z"), Digit::X, Digit::X, Digit::X, Digit::X),
    (Bits("1"), Digit::One, Digit::One, Digit::One, Digit::One),
    (
        Bits("0"),
        Digit::Zero,
        Digit::Zero,
        Digit::Zero,
        Digit::Zero,
    ),
    (
        Bits("1101"),
        Digit::Zero,
        Digit::One,
        Digit::One,
        Digit::One,
    ),
    (
        Wide(Plane::MAX),
        Digit::One,
        Digit::One,
        Digit::Zero,
        Digit::One,
    ),
    (Wide(0), Digit::Zero, Digit::Zero, Digit::Zero, Digit::Zero),
    (Wide(HALF), Digit::Zero, Digit::One, Digit::One, Digit::One),
];

#[test]
fn reductions(rt: HostRuntime) {
    for &(a, all, any, parity, holds) in &REDUCTIONS {
        let Some(a) = vector(a) else {
            assert!(rt; false, "a row's vector is none");
            return;
        };
        assert_eq!(rt; reduce_and(&a), all);
        assert_eq!(rt; reduce_or(&a), any);
        assert_eq!(rt; reduce_xor(&a), parity);
        assert_eq!(rt; truth(&a), holds);
    }
}

// A vector, the width and mark that it is given, and the result.
static RESIZED: [(Written, u32, bool, Written); 9] = [
    (Signed(4, -3), 8, true, Signed(8, -3)),
    (Signed(4, -3), 8, false, Bits("00001101")),
    (Bits("1101"), 8, true, Signed(8, 13)),
    (Bits("10xz"), 2, false, Bits("xz")),
    (Bits("x0"), 4, false, Bits("00x0")),
    (SignedX(2), 4, true, SignedX(4)),
    (Signed(1, -1), 64, true, Signed(64, -1)),
    (Signed(8, -128), 4, true, Signed(4, 0)),
    (Wide(Plane::MAX), 1, false, Bits("1")),
];

#[test]
fn other_widths(rt: HostRuntime) {
    for &(a, width, mark, expected) in &RESIZED {
        let (Some(a), Some(expected)) = (vector(a), vector(expected)) else {
            assert!(rt; false, "a row's vector is none");
            return;
        };
        assert!(rt; 1 <= width && width <= MAX_WIDTH);
        assert!(rt; is_same(&resize(&a, width, mark), &expected), "a row fails");
    }
}

// A vector, a place, a part that is put there, and the result.
static REPLACED: [(Written, u32, Written, Written); 5] = [
    (Bits("10xz"), 1, Bits("11"), Bits("111z")),
    (Signed(4, 0), 3, Bits("1"), Signed(4, -8)),
    (Wide(0), 63, Bits("1"), Wide(HALF)),
    (Wide(1), 0, Wide(HALF), Wide(HALF)),
    (Bits("1"), 0, Bits("z"), Bits("z")),
];

#[test]
fn parts(rt: HostRuntime) {
    for &(a, low, part, expected) in &REPLACED {
        let (Some(a), Some(part), Some(expected)) = (vector(a), vector(part), vector(expected))
        else {
            assert!(rt; false, "a row's vector is none");
            return;
        };
        assert!(rt; low < MAX_WIDTH);
        assert!(rt; low + part.width() <= a.width());
        let result = replace(&a, low, &part);
        assert!(rt; is_same(&result, &expected), "a row fails");
        assert!(rt;
            is_same(
                &select(&result, low, part.width()),
                &resize(&part, part.width(), false)
            ),
            "a part is not read back"
        );
    }
}

// A vector, its `~` and its `-`.
static TURNED: [(Written, Written, Written); 6] = [
    (Bits("10xz"), Bits("01xx"), Bits("xxxx")),
    (Bits("z"), Bits("x"), Bits("x")),
    (Bits("1"), Bits("0"), Bits("1")),
    (Signed(8, -128), Signed(8, 127), Signed(8, -128)),
    (Wide(1), Wide(0xffff_ffff_ffff_fffe), Wide(Plane::MAX)),
    (Wide(0), Wide(Plane::MAX), Wide(0)),
];

#[test]
fn one_operand(rt: HostRuntime) {
    for &(a, inverted, negative) in &TURNED {
        let (Some(a), Some(inverted), Some(negative)) = (
            vector(a),
            vector(inverted),
            vector(negative),
        ) else {
            assert!(rt; false, "a row's vector is none");
            return;
        };
        assert!(rt; is_same(&invert(&a), &inverted), "a row fails");
        assert!(rt; is_same(&negate(&a), &negative), "a row fails");
    }
}

#[test]
fn planes(rt: HostRuntime) {
    let v = Vec4::from_planes(4, 0b1111_1010, 0b0011, true);
    assert_eq!(rt; v.aval(), 0b1010);
    assert_eq!(rt; v.bval(), 0b0011);
    assert_eq!(rt; v.width(), 4);
    assert!(rt; v.is_signed());
    assert_eq!(rt; v.digit(0), Digit::Z);
    assert_eq!(rt; v.digit(1), Digit::X);
    assert_eq!(rt; v.digit(2), Digit::Zero);
    assert_eq!(rt; v.digit(3), Digit::One);
    assert_eq!(rt; v.number(), None);
    assert_eq!(rt; Vec4::from_planes(64, HALF, 0, true).number(), Some(HALF));
}

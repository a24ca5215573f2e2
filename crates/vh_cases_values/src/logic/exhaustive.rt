ghost use Rattle.std.specs.Prelude.{◌≡◌};
ghost use Rattle.vh_logic.specs.Vector.{width_of};

use crate::logic::plain;
use crate::logic::plain::{Arithmetic, Bitwise, Shift, digits};
use std::alloc::Global;
use std::process::Abort;
use std::test::Fail;
use vh_logic::{
    Digit, Plane, Vec4, add, and, case_equal, casex_equal, casez_equal, concat, div, equal, invert,
    less, merge, mul, negate, or, pow, reduce_and, reduce_or, reduce_xor, rem, replace, resize,
    select, shl, shr, sshr, sub, truth, xnor, xor,
};

// Every operator on every two vectors of 1 to 4 digits, signed and not, is what the plain program
// makes of their digits.
#[test]
fn agrees_with_the_plain_program(rt: HostRuntime) -> Result<(), Fail> {
    let alloc = rt.alloc();
    for width in 1..5u32 {
        let count: Plane = 1 << width;
        for aval in 0..count {
            for bval in 0..count {
                for signed in [false, true] {
                    let a = Vec4::from_planes(width, aval, bval, signed);
                    check_one(&rt, alloc, &a)?;
                    check_parts(&rt, alloc, &a)?;
                    check_with_all(&rt, alloc, &a)?;
                }
            }
        }
    }
    Ok(())
}

fn check_with_all(rt: &impl Abort, alloc: Global, a: &Vec4) -> Result<(), Fail> {
    let count: Plane = if a.width() < 4 { 8 } else { 16 };
    for aval in 0..count {
        for bval in 0..count {
            let b = Vec4::from_planes(a.width(), aval, bval, a.is_signed());
            check_bitwise(rt, alloc, a, &b)?;
            check_arithmetic(rt, alloc, a, &b)?;
            check_comparisons(rt, alloc, a, &b)?;
            let free = Vec4::from_planes(4, aval, bval, !a.is_signed());
            check_free(rt, alloc, a, &b)?;
            check_free(rt, alloc, a, &free)?;
        }
    }
    Ok(())
}

fn check_one(rt: &impl Abort, alloc: Global, a: &Vec4) -> Result<(), Fail> {
    let list = digits(alloc, a)?;
    assert!(rt;
        digits(alloc, &invert(a))? == plain::inverted(alloc, &list)?,
        "invert"
    );
    assert!(rt;
        digits(alloc, &negate(a))? == plain::negated(alloc, &list, a.is_signed())?,
        "negate"
    );
    assert!(rt;
        reduce_and(a) == plain::reduced(Bitwise::And, Digit::One, &list),
        "reduce_and"
    );
    assert!(rt;
        reduce_or(a) == plain::reduced(Bitwise::Or, Digit::Zero, &list),
        "reduce_or"
    );
    assert!(rt;
        reduce_xor(a) == plain::reduced(Bitwise::Xor, Digit::Zero, &list),
        "reduce_xor"
    );
    assert!(rt; truth(a) == plain::truth(&list), "truth");
    Ok(())
}

fn check_bitwise(rt: &impl Abort, alloc: Global, a: &Vec4, b: &Vec4) -> Result<(), Fail>
    requires widths { width_of a.now ≡ width_of b.now }
    requires signs { a.now.signed ≡ b.now.signed }
{
    let left = digits(alloc, a)?;
    let right = digits(alloc, b)?;
    let results = [
        (and(a, b), Bitwise::And),
        (or(a, b), Bitwise::Or),
        (xor(a, b), Bitwise::Xor),
        (xnor(a, b), Bitwise::Xnor),
        (merge(a, b), Bitwise::Merge),
    ];
    for (result, op) in results {
        let expected = plain::each_place(alloc, op, &left, &right)?;
        assert!(rt; digits(alloc, &result)? == expected, "a bitwise operator");
    }
    Ok(())
}

fn check_arithmetic(rt: &impl Abort, alloc: Global, a: &Vec4, b: &Vec4) -> Result<(), Fail>
    requires widths { width_of a.now ≡ width_of b.now }
    requires signs { a.now.signed ≡ b.now.signed }
{
    let left = digits(alloc, a)?;
    let right = digits(alloc, b)?;
    let signed = a.is_signed();
    let results = [
        (add(a, b), Arithmetic::Add),
        (sub(a, b), Arithmetic::Sub),
        (mul(a, b), Arithmetic::Mul),
        (div(a, b), Arithmetic::Div),
        (rem(a, b), Arithmetic::Rem),
    ];
    for (result, op) in results {
        let expected = plain::on_integers(alloc, op, &left, signed, &right, signed)?;
        assert!(rt;
            digits(alloc, &result)? == expected,
            "an arithmetic operator"
        );
    }
    Ok(())
}

fn check_comparisons(rt: &impl Abort, alloc: Global, a: &Vec4, b: &Vec4) -> Result<(), Fail>
    requires widths { width_of a.now ≡ width_of b.now }
    requires signs { a.now.signed ≡ b.now.signed }
{
    let left = digits(alloc, a)?;
    let right = digits(alloc, b)?;
    assert!(rt; equal(a, b) == plain::equal(&left, &right), "equal");
    assert!(rt;
        case_equal(a, b) == plain::case_equal(&left, &right),
        "case_equal"
    );
    assert!(rt;
        casez_equal(a, b) == plain::casez_equal(&left, &right),
        "casez_equal"
    );
    assert!(rt;
        casex_equal(a, b) == plain::casex_equal(&left, &right),
        "casex_equal"
    );
    assert!(rt;
        less(a, b) == plain::less(&left, &right, a.is_signed()),
        "less"
    );
    Ok(())
}

// The operators whose right operand is free.
fn check_free(rt: &impl Abort, alloc: Global, a: &Vec4, b: &Vec4) -> Result<(), Fail> {
    let left = digits(alloc, a)?;
    let right = digits(alloc, b)?;
    let power = plain::on_integers(
        alloc,
        Arithmetic::Pow,
        &left,
        a.is_signed(),
        &right,
        b.is_signed(),
    )?;
    assert!(rt; digits(alloc, &pow(a, b))? == power, "pow");
    assert!(rt;
        digits(alloc, &shl(a, b))? == plain::shifted(alloc, Shift::Up, &left, &right)?,
        "shl"
    );
    let zeros = Shift::Down(Digit::Zero);
    assert!(rt;
        digits(alloc, &shr(a, b))? == plain::shifted(alloc, zeros, &left, &right)?,
        "shr"
    );
    let fill = if a.is_signed() {
        plain::highest(&left)
    } else {
        Digit::Zero
    };
    assert!(rt;
        digits(alloc, &sshr(a, b))? == plain::shifted(alloc, Shift::Down(fill), &left, &right)?,
        "sshr"
    );
    if a.width() + b.width() <= 8 {
        assert!(rt;
            digits(alloc, &concat(a, b))? == plain::concatenated(alloc, &left, &right)?,
            "concat"
        );
    }
    Ok(())
}

// Every part of a vector, every part replaced by the lowest digits turned round, and every width.
fn check_parts(rt: &impl Abort, alloc: Global, a: &Vec4) -> Result<(), Fail> {
    let list = digits(alloc, a)?;
    for low in 0..a.width() {
        for width in 1..a.width() - low + 1 {
            let part = select(a, low, width);
            let expected = plain::selected(alloc, &list, low as usize, width as usize)?;
            assert!(rt; digits(alloc, &part)? == expected, "select");
            let other = invert(&select(a, 0, width));
            let put = plain::replaced(alloc, &list, low as usize, &digits(alloc, &other)?)?;
            assert!(rt; digits(alloc, &replace(a, low, &other))? == put, "replace");
        }
    }
    for width in 1..9u32 {
        for signed in [false, true] {
            let fill = if a.is_signed() && signed {
                plain::highest(&list)
            } else {
                Digit::Zero
            };
            let expected = plain::resized(alloc, &list, fill, width as usize)?;
            assert!(rt;
                digits(alloc, &resize(a, width, signed))? == expected,
                "resize"
            );
        }
    }
    Ok(())
}

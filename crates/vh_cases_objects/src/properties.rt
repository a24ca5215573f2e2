use crate::designs::{walked, whole, word};
use std::alloc::Global;
use std::test::Fail;
use vh_base::{Answer, NoMemory, Object, Property};
use vh_design::Design;
use vh_objects::{is_by_get_str, property};

fn is_number(
    alloc: Global,
    d: &Design,
    p: Property,
    o: Object,
    number: u64,
) -> Result<bool, NoMemory> {
    match property(alloc, d, p, &o)? {
        Some(Answer::Number(n)) => Ok(n == number),
        _ => Ok(false),
    }
}

fn is_text(
    alloc: Global,
    d: &Design,
    p: Property,
    o: Object,
    text: &[u8],
) -> Result<bool, NoMemory> {
    match property(alloc, d, p, &o)? {
        Some(Answer::Text(t)) => Ok(t.bytes() == text),
        _ => Ok(false),
    }
}

fn is_none(alloc: Global, d: &Design, p: Property, o: Object) -> Result<bool, NoMemory> {
    Ok(property(alloc, d, p, &o)?.is_none())
}

#[test]
fn numbers_are_properties(rt: HostRuntime) -> Result<(), Fail> {
    let alloc = rt.alloc();
    let d = walked(alloc)?.expect(&rt, "every rule is kept");
    for (p, o, number) in [
        (Property::VpiSize, whole(1), 8),
        (Property::VpiSize, whole(5), 2),
        (Property::VpiSize, word(5, 1), 8),
        (Property::VpiSize, whole(17), 4),
        (Property::VpiSigned, whole(2), 1),
        (Property::VpiSigned, whole(1), 0),
        (Property::VpiSigned, word(5, 1), 0),
        (Property::VpiTopModule, whole(0), 1),
        (Property::VpiTopModule, whole(16), 0),
        (Property::VpiPortIndex, whole(17), 1),
        (Property::VpiPortIndex, whole(18), 0),
        (Property::VpiLineNo, whole(10), 8),
        (Property::VpiLineNo, word(5, 2), 4),
        (Property::VpiLineNo, whole(16), 11),
    ] {
        assert!(rt; is_number(alloc, &d, p, o, number)?);
    }
    Ok(())
}

#[test]
fn texts_are_properties(rt: HostRuntime) -> Result<(), Fail> {
    let alloc = rt.alloc();
    let d = walked(alloc)?.expect(&rt, "every rule is kept");
    for (p, o, text) in [
        (Property::VpiType, whole(8), b"vpiInitial".as_slice()),
        (Property::VpiType, word(5, 1), b"vpiMemoryWord"),
        (Property::VpiDirection, whole(17), b"vpiOutput"),
        (Property::VpiDirection, whole(18), b"vpiInput"),
        (Property::VpiNetType, whole(1), b"vpiWand"),
        (Property::VpiNetType, whole(14), b"vpiWire"),
        (Property::VpiName, whole(12), b"q"),
        (Property::VpiFullName, whole(12), b"top.blk.q"),
        (Property::VpiName, word(5, 2), b"m[2]"),
        (Property::VpiFullName, word(5, 2), b"top.m[2]"),
        (Property::VpiFullName, whole(17), b"top.u.b"),
        (Property::VpiFullName, whole(7), b"top.e"),
        (Property::VpiDefName, whole(16), b"leaf"),
    ] {
        assert!(rt; is_text(alloc, &d, p, o, text)?);
    }
    Ok(())
}

#[test]
fn kinds_lack_properties(rt: HostRuntime) -> Result<(), Fail> {
    let alloc = rt.alloc();
    let d = walked(alloc)?.expect(&rt, "every rule is kept");
    for (p, o) in [
        (Property::VpiSize, whole(0)),
        (Property::VpiSize, whole(7)),
        (Property::VpiSigned, whole(5)),
        (Property::VpiSigned, whole(17)),
        (Property::VpiTopModule, whole(13)),
        (Property::VpiDirection, whole(19)),
        (Property::VpiNetType, whole(2)),
        (Property::VpiPortIndex, whole(1)),
        (Property::VpiName, whole(8)),
        (Property::VpiFullName, whole(10)),
        (Property::VpiDefName, whole(13)),
        (Property::VpiType, whole(21)),
        (Property::VpiLineNo, word(5, 3)),
    ] {
        assert!(rt; is_none(alloc, &d, p, o)?);
    }
    assert!(rt; is_by_get_str(Property::VpiDefName));
    assert!(rt; !is_by_get_str(Property::VpiType));
    Ok(())
}

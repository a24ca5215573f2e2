use crate::designs::{bracketed, dotted, walked, whole, word};
use std::alloc::Global;
use std::test::Fail;
use vh_base::{NoMemory, ObjId, Object};
use vh_design::Design;
use vh_objects_names::by_name;

fn finds(
    alloc: Global,
    d: &Design,
    scope: Option<u32>,
    text: &[u8],
    object: Option<Object>,
) -> Result<bool, NoMemory> {
    Ok(by_name(alloc, d, scope.map(|s| ObjId::new(s)), text)? == object)
}

#[test]
fn full_names_are_found(rt: HostRuntime) -> Result<(), Fail> {
    let alloc = rt.alloc();
    let d = walked(alloc)?.expect(&rt, "every rule is kept");
    for (text, object) in [
        (b"top".as_slice(), Some(whole(0))),
        (b"top.m", Some(whole(5))),
        (b"top.m[2]", Some(word(5, 2))),
        (b"top.blk.q", Some(whole(12))),
        (b"top.gb.w", Some(whole(14))),
        // the net, and not the port, whose number is less
        (b"top.u.a", Some(whole(19))),
        (b"top.u.b", Some(whole(20))),
        (b"top.m[3]", None),
        (b"top.m[0]", None),
        (b"top.m[02]", None),
        (b"top.m[+2]", None),
        (b"top.m[]", None),
        (b"Top", None),
        (b"top.M", None),
        (b"top.", None),
        (b".top", None),
        (b"", None),
        (b"q", None),
    ] {
        assert!(rt; finds(alloc, &d, None, text, object)?);
    }
    Ok(())
}

#[test]
fn paths_below_a_scope_are_found(rt: HostRuntime) -> Result<(), Fail> {
    let alloc = rt.alloc();
    let d = walked(alloc)?.expect(&rt, "every rule is kept");
    for (scope, text, object) in [
        (0, b"blk".as_slice(), Some(whole(11))),
        (0, b"blk.q", Some(whole(12))),
        (11, b"q", Some(whole(12))),
        (0, b"m[1]", Some(word(5, 1))),
        (16, b"b", Some(whole(20))),
        (0, b"q", None),
        (0, b"top.blk", None),
        (0, b"top", None),
        (0, b"", None),
        (11, b"blk.q", None),
        (11, b"r", None),
        (16, b"w", None),
    ] {
        assert!(rt; finds(alloc, &d, Some(scope), text, object)?);
    }
    Ok(())
}

#[test]
fn a_name_with_a_dot_lies_where_it_is_declared(rt: HostRuntime) -> Result<(), Fail> {
    let alloc = rt.alloc();
    let both = dotted(alloc, true)?.expect(&rt, "every rule is kept");
    assert!(rt; finds(alloc, &both, None, b"top.u.b", Some(whole(1)))?);
    assert!(rt; finds(alloc, &both, Some(0), b"u.b", Some(whole(1)))?);
    assert!(rt; finds(alloc, &both, Some(2), b"b", Some(whole(3)))?);
    let alone = dotted(alloc, false)?.expect(&rt, "every rule is kept");
    assert!(rt; finds(alloc, &alone, None, b"top.u.b", Some(whole(1)))?);
    assert!(rt; finds(alloc, &alone, Some(2), b"b", None)?);
    Ok(())
}

#[test]
fn a_word_has_its_memorys_number(rt: HostRuntime) -> Result<(), Fail> {
    let alloc = rt.alloc();
    let d = bracketed(alloc)?.expect(&rt, "every rule is kept");
    assert!(rt; finds(alloc, &d, Some(0), b"m[0]", Some(whole(1)))?);
    assert!(rt; finds(alloc, &d, Some(0), b"n[1]", Some(word(2, 1)))?);
    assert!(rt; finds(alloc, &d, Some(0), b"m[1]", Some(word(4, 1)))?);
    Ok(())
}

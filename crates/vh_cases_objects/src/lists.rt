use crate::designs::{walked, whole, word};
use std::alloc::Global;
use std::test::Fail;
use vh_base::{NoMemory, Object, Relation};
use vh_design::Design;
use vh_objects::{Children, Lister};

// Is this the list of a relation from an object, or from null?
fn lists(
    alloc: Global,
    d: &Design,
    r: Relation,
    from: Option<Object>,
    objects: &[Object],
) -> Result<bool, NoMemory> {
    let children = Children::new(alloc, d)?;
    let Some(lister) = Lister::of(alloc, d, &children, r, from)? else {
        return Ok(false);
    };
    for at in 0..10 {
        if lister.get(at) != objects.get(at as usize).copied() {
            return Ok(false);
        }
    }
    Ok(true)
}

fn leads_nowhere(
    alloc: Global,
    d: &Design,
    r: Relation,
    from: Option<Object>,
) -> Result<bool, NoMemory> {
    let children = Children::new(alloc, d)?;
    Ok(Lister::of(alloc, d, &children, r, from)?.is_none())
}

#[test]
fn a_module_lists_what_stands_in_it(rt: HostRuntime) -> Result<(), Fail> {
    let alloc = rt.alloc();
    let d = walked(alloc)?.expect(&rt, "every rule is kept");
    let top = Some(whole(0));
    assert!(rt; lists(alloc, &d, Relation::VpiModule, None, &[whole(0)])?);
    assert!(rt; lists(alloc, &d, Relation::VpiModule, top, &[whole(16)])?);
    // the instance stands between the generate blocks
    let scopes = [whole(11), whole(13), whole(16), whole(15)];
    assert!(rt; lists(alloc, &d, Relation::VpiInternalScope, top, &scopes)?);
    assert!(rt; lists(alloc, &d, Relation::VpiNet, top, &[whole(1)])?);
    assert!(rt; lists(alloc, &d, Relation::VpiPort, top, &[])?);
    assert!(rt; lists(alloc, &d, Relation::VpiContAssign, top, &[whole(10)])?);
    assert!(rt; lists(alloc, &d, Relation::VpiProcess, top, &[whole(8), whole(9)])?);
    assert!(rt; lists(alloc, &d, Relation::VpiReg, top, &[whole(2)])?);
    assert!(rt;
        lists(
            alloc,
            &d,
            Relation::VpiVariables,
            top,
            &[whole(3), whole(4)]
        )?
    );
    assert!(rt; lists(alloc, &d, Relation::VpiMemory, top, &[whole(5)])?);
    assert!(rt; lists(alloc, &d, Relation::VpiParameter, top, &[whole(6)])?);
    assert!(rt; lists(alloc, &d, Relation::VpiNamedEvent, top, &[whole(7)])?);
    Ok(())
}

#[test]
fn other_scopes_list_what_they_hold(rt: HostRuntime) -> Result<(), Fail> {
    let alloc = rt.alloc();
    let d = walked(alloc)?.expect(&rt, "every rule is kept");
    let block = Some(whole(11));
    let made = Some(whole(13));
    assert!(rt; lists(alloc, &d, Relation::VpiReg, block, &[whole(12)])?);
    assert!(rt; leads_nowhere(alloc, &d, Relation::VpiNet, block)?);
    assert!(rt; leads_nowhere(alloc, &d, Relation::VpiModule, block)?);
    assert!(rt; lists(alloc, &d, Relation::VpiNet, made, &[whole(14)])?);
    assert!(rt; lists(alloc, &d, Relation::VpiNet, Some(whole(15)), &[])?);
    // ports by their places in the header
    let u = Some(whole(16));
    assert!(rt; lists(alloc, &d, Relation::VpiPort, u, &[whole(18), whole(17)])?);
    Ok(())
}

#[test]
fn words_come_by_address(rt: HostRuntime) -> Result<(), Fail> {
    let alloc = rt.alloc();
    let d = walked(alloc)?.expect(&rt, "every rule is kept");
    let words = [word(5, 1), word(5, 2)];
    assert!(rt; lists(alloc, &d, Relation::VpiMemoryWord, Some(whole(5)), &words)?);
    assert!(rt; leads_nowhere(alloc, &d, Relation::VpiMemoryWord, Some(whole(2)))?);
    assert!(rt; leads_nowhere(alloc, &d, Relation::VpiMemoryWord, Some(word(5, 1)))?);
    assert!(rt; leads_nowhere(alloc, &d, Relation::VpiArgument, Some(whole(0)))?);
    assert!(rt; leads_nowhere(alloc, &d, Relation::VpiNet, None)?);
    assert!(rt; leads_nowhere(alloc, &d, Relation::VpiReg, Some(whole(21)))?);
    assert!(rt; leads_nowhere(alloc, &d, Relation::VpiScope, Some(whole(0)))?);
    Ok(())
}

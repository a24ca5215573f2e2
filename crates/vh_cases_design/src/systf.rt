use std::alloc::Global;
use std::test::Fail;
use vh_base::{NoMemory, Short, SystfEntry, SystfKind};
use vh_design_systf::SystfTable;

fn entry(alloc: Global, name: &[u8], size: u32) -> Result<Option<SystfEntry>, NoMemory> {
    let Some(name) = Short::new(alloc, name)? else {
        return Ok(None);
    };
    let Some(calltf) = Short::new(alloc, b"app.call")? else {
        return Ok(None);
    };
    Ok(Some(SystfEntry {
        kind: SystfKind::Func,
        name,
        size,
        calltf,
        compiletf: None,
    }))
}

fn registrations(alloc: Global) -> Result<Vec<SystfEntry>, NoMemory> {
    let mut all = Vec::new(alloc);
    if let Some(it) = entry(alloc, b"$random", 8)? {
        all.push(it)?;
    }
    if let Some(it) = entry(alloc, b"$time", 8)? {
        all.push(it)?;
    }
    if let Some(it) = entry(alloc, b"$random", 16)? {
        all.push(it)?;
    }
    if let Some(it) = entry(alloc, b"$seed", 1)? {
        all.push(it)?;
    }
    Ok(all)
}

// The first registration of each name that is not built in, in order.
#[test]
fn the_first_registration_of_a_name_stands(rt: HostRuntime) -> Result<(), Fail> {
    let all = registrations(rt.alloc())?;
    assert_eq!(rt; all.len(), 4);
    let table = SystfTable::of(rt.alloc(), &all)?;
    assert_eq!(rt; table.len(), 2);
    assert!(rt; !table.is_empty());
    assert_eq!(rt; table.find(b"$random"), Some(0));
    assert_eq!(rt; table.find(b"$seed"), Some(1));
    assert_eq!(rt; table.find(b"$time"), None);
    assert_eq!(rt; table.find(b"$none"), None);
    assert_eq!(rt; table.entry(0).size, 8);
    assert_eq!(rt; table.entry(1).size, 1);
    Ok(())
}

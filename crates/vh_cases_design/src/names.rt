use std::alloc::Global;
use std::test::Fail;
use vh_base::{NoMemory, ObjId};
use vh_design::{Design, Detail, Kind, Name, ObjectInfo, Parts};
use vh_design_names::full_name;

fn object(
    alloc: Global,
    kind: Kind,
    name: &[u8],
    parent: Option<u32>,
) -> Result<ObjectInfo, NoMemory> {
    Ok(ObjectInfo {
        kind,
        name: Name::from_slice(alloc, name)?,
        parent: parent.map(|o| ObjId::new(o)),
        width: 1,
        signed: false,
        words: 0,
        line: 1,
        detail: Detail::Plain,
    })
}

// module top; reg q; begin : blk reg q; end endmodule
fn design(alloc: Global) -> Result<Option<Design>, NoMemory> {
    let mut objects = Vec::new(alloc);
    objects.push(object(alloc, Kind::Module, b"top", None)?)?;
    objects.push(object(alloc, Kind::Reg, b"q", Some(0))?)?;
    objects.push(object(alloc, Kind::NamedBegin, b"blk", Some(0))?)?;
    objects.push(object(alloc, Kind::Reg, b"q", Some(2))?)?;
    Ok(Design::build(Parts {
        objects,
        exprs: Vec::new(alloc),
        drivers: Vec::new(alloc),
        codes: Vec::new(alloc),
        bodies: Vec::new(alloc),
        waits: Vec::new(alloc),
        shows: Vec::new(alloc),
        stmts: Vec::new(alloc),
        precision: 0,
    }))
}

fn has_name(alloc: Global, d: &Design, o: u32, name: &[u8]) -> Result<bool, NoMemory> {
    if o >= d.counts().objects {
        return Ok(false);
    }
    Ok(full_name(alloc, d, ObjId::new(o))?.as_slice() == name)
}

#[test]
fn names_have_their_scopes_before_them(rt: HostRuntime) -> Result<(), Fail> {
    let alloc = rt.alloc();
    let d = design(alloc)?.expect(&rt, "every rule is kept");
    for (o, name) in [
        (0, b"top".as_slice()),
        (1, b"top.q"),
        (2, b"top.blk"),
        (3, b"top.blk.q"),
    ] {
        assert!(rt; has_name(alloc, &d, o, name)?);
    }
    Ok(())
}

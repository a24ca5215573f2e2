use std::alloc::Global;
use std::test::Fail;
use vh_base::{NoMemory, ObjId};
use vh_bind_scope::{
    Declaration, Meaning, Names, Top, found, found_first, found_inside, found_scope, indexed,
};
use vh_design::Range;

const TOP: u32 = 0;

const DATA: u32 = 1;

const SUM: u32 = 2;

const SUM_RESULT: u32 = 3;

const BLOCK: u32 = 4;

const INNER: u32 = 5;

fn object(id: u32) -> Meaning {
    Meaning::Object {
        id: ObjId::new(id),
        range: Range { left: 7, right: 0 },
    }
}

// module top; reg [7:0] data; function sum; .. endfunction genvar i;
//   for (i = -1; ..) begin : loop reg data; .. end
fn names(alloc: Global) -> Result<Names, NoMemory> {
    let mut names = Names::new(alloc);
    let top = ObjId::new(TOP);
    let result = Meaning::Result {
        id: ObjId::new(SUM_RESULT),
        range: Range { left: 0, right: 0 },
    };
    names.declare(alloc, top, b"data", object(DATA))?;
    names.declare(alloc, top, b"sum", object(SUM))?;
    names.declare(alloc, ObjId::new(SUM), b"sum", result)?;
    names.declare(alloc, top, b"i", Meaning::Genvar)?;
    names.declare(alloc, top, b"loop", Meaning::Blocks)?;
    names.declare(alloc, top, b"loop[-1]", object(BLOCK))?;
    names.declare(alloc, ObjId::new(BLOCK), b"data", object(INNER))?;
    Ok(names)
}

// The number of the object that is meant.
fn object_number(meaning: Meaning) -> Option<u32> {
    match meaning {
        Meaning::Object { id, .. } => Some(id.number()),
        Meaning::Result { id, .. } => Some(id.number()),
        Meaning::Genvar | Meaning::Blocks | Meaning::Gate => None,
    }
}

// The number of the object that is found.
fn number(found: Option<Declaration>) -> Option<u32> {
    object_number(found?.meaning)
}

// The number of what a path stands for: a block of the loop by an index, or the top, and a name in it.
fn path_number(
    alloc: Global,
    names: &Names,
    first: &[u8],
    index: Option<i128>,
    second: &[u8],
) -> Result<Option<u32>, NoMemory> {
    let around = [ObjId::new(BLOCK), ObjId::new(TOP)];
    let top = Top {
        id: ObjId::new(TOP),
        name: b"top",
    };
    let Some(declaration) = found_first(names, &around, &top, first) else {
        return Ok(None);
    };
    let Some(before) = indexed(alloc, names, declaration, first, index)? else {
        return Ok(None);
    };
    Ok(number(found_inside(names, before, second)))
}

#[test]
fn the_innermost_declaration_counts(rt: HostRuntime) -> Result<(), Fail> {
    let alloc = rt.alloc();
    let names = names(alloc)?;
    let inner = [ObjId::new(BLOCK), ObjId::new(TOP)];
    let function = [ObjId::new(SUM), ObjId::new(TOP)];
    assert!(rt; number(found(&names, &inner, b"data")) == Some(INNER));
    assert!(rt; number(found(&names, &function, b"data")) == Some(DATA));
    assert!(rt; number(found(&names, &function, b"sum")) == Some(SUM_RESULT));
    assert!(rt; number(found_scope(&names, &function, b"sum")) == Some(SUM));
    assert!(rt; found(&names, &inner, b"nothing").is_none());
    Ok(())
}

#[test]
fn the_first_declaration_stays(rt: HostRuntime) -> Result<(), Fail> {
    let alloc = rt.alloc();
    let mut names = names(alloc)?;
    assert!(rt; !names.declare(alloc, ObjId::new(TOP), b"data", Meaning::Gate)?);
    assert!(rt; names.meaning(ObjId::new(TOP), b"data") == Some(object(DATA)));
    assert!(rt; names.declare(alloc, ObjId::new(INNER), b"data", Meaning::Gate)?);
    Ok(())
}

#[test]
fn a_declaration_is_made_anew(rt: HostRuntime) -> Result<(), Fail> {
    let alloc = rt.alloc();
    let mut names = names(alloc)?;
    names.declare_anew(ObjId::new(TOP), b"data", object(INNER));
    names.declare_anew(ObjId::new(TOP), b"nothing", object(INNER));
    assert!(rt; names.meaning(ObjId::new(TOP), b"data") == Some(object(INNER)));
    assert!(rt; names.meaning(ObjId::new(TOP), b"i") == Some(Meaning::Genvar));
    assert!(rt; names.meaning(ObjId::new(TOP), b"nothing").is_none());
    Ok(())
}

#[test]
fn paths_go_through_scopes(rt: HostRuntime) -> Result<(), Fail> {
    let alloc = rt.alloc();
    let names = names(alloc)?;
    assert!(rt; path_number(alloc, &names, b"loop", Some(-1), b"data")? == Some(INNER));
    assert!(rt; path_number(alloc, &names, b"top", None, b"data")? == Some(DATA));
    assert!(rt; path_number(alloc, &names, b"top", None, b"loop[-1]")? == Some(BLOCK));
    assert!(rt; path_number(alloc, &names, b"loop", Some(0), b"data")?.is_none());
    assert!(rt; path_number(alloc, &names, b"top", Some(0), b"data")?.is_none());
    assert!(rt; path_number(alloc, &names, b"data", None, b"data")?.is_none());
    assert!(rt; path_number(alloc, &names, b"sum", None, b"sum")? == Some(SUM_RESULT));
    Ok(())
}

use std::alloc::Global;
use vh_base::{NoMemory, ObjId, Object};
use vh_design::{Design, Detail, Kind, Name, NetType, ObjectInfo, Parts};

pub(crate) fn whole(id: u32) -> Object {
    Object {
        id: ObjId::new(id),
        word: None,
    }
}

pub(crate) fn word(id: u32, at: u32) -> Object {
    Object {
        id: ObjId::new(id),
        word: Some(at),
    }
}

// An object of a kind, its name, its scope and its line; one digit wide, and nothing else.
fn plain(
    alloc: Global,
    kind: Kind,
    name: &[u8],
    parent: Option<u32>,
    line: u32,
) -> Result<ObjectInfo, NoMemory> {
    Ok(ObjectInfo {
        kind,
        name: Name::from_slice(alloc, name)?,
        parent: parent.map(|o| ObjId::new(o)),
        width: 1,
        signed: false,
        words: 0,
        line,
        detail: Detail::Plain,
    })
}

// The design of some objects, and of nothing else.
fn of_objects(alloc: Global, objects: Vec<ObjectInfo>) -> Result<Option<Design>, NoMemory> {
    if objects.len() > 100 {
        return Ok(None);
    }
    Ok(Design::build(Parts {
        objects,
        exprs: Vec::new(alloc),
        drivers: Vec::new(alloc),
        codes: Vec::new(alloc),
        bodies: Vec::new(alloc),
        waits: Vec::new(alloc),
        shows: Vec::new(alloc),
        stmts: Vec::new(alloc),
        precision: 0,
    }))
}

// module top; wand [7:0] w; reg signed [3:0] r; integer i; time t; reg [7:0] m [2:1]; parameter P = 1; event e; initial ..
//   always .. assign w = 1; begin : blk reg q; .. if (1) begin : gb wire w; end leaf u(r, ); if (1) begin : ge end endmodule
// module leaf(input a, output reg [3:0] b); endmodule
pub(crate) fn walked(alloc: Global) -> Result<Option<Design>, NoMemory> {
    let mut objects = Vec::new(alloc);
    let top = Some(0);
    add_top(alloc, &mut objects)?;
    objects.push(plain(alloc, Kind::NamedEvent, b"e", top, 5)?)?;
    objects.push(plain(alloc, Kind::Initial, b"", top, 6)?)?;
    objects.push(plain(alloc, Kind::Always, b"", top, 7)?)?;
    objects.push(plain(alloc, Kind::ContAssign, b"", top, 8)?)?;
    objects.push(plain(alloc, Kind::NamedBegin, b"blk", top, 9)?)?;
    objects.push(plain(alloc, Kind::Reg, b"q", Some(11), 9)?)?;
    objects.push(plain(alloc, Kind::GenScope, b"gb", top, 10)?)?;
    let mut inner = plain(alloc, Kind::Net, b"w", Some(13), 10)?;
    inner.detail = Detail::Net(NetType::Wire);
    objects.push(inner)?;
    objects.push(plain(alloc, Kind::GenScope, b"ge", top, 12)?)?;
    add_leaf(alloc, &mut objects)?;
    of_objects(alloc, objects)
}

// The top and what has digits in it: objects 0 to 6.
fn add_top(alloc: Global, objects: &mut Vec<ObjectInfo>) -> Result<(), NoMemory> {
    let top = Some(0);
    let mut module = plain(alloc, Kind::Module, b"top", None, 1)?;
    module.detail = Detail::Module(Name::from_slice(alloc, b"top")?);
    objects.push(module)?;
    let mut net = plain(alloc, Kind::Net, b"w", top, 2)?;
    net.width = 8;
    net.detail = Detail::Net(NetType::Wand);
    objects.push(net)?;
    let mut reg = plain(alloc, Kind::Reg, b"r", top, 3)?;
    reg.width = 4;
    reg.signed = true;
    objects.push(reg)?;
    let mut integer = plain(alloc, Kind::IntegerVar, b"i", top, 3)?;
    integer.width = 32;
    integer.signed = true;
    objects.push(integer)?;
    let mut time = plain(alloc, Kind::TimeVar, b"t", top, 3)?;
    time.width = 64;
    objects.push(time)?;
    let mut memory = plain(alloc, Kind::Memory, b"m", top, 4)?;
    memory.width = 8;
    memory.words = 2;
    memory.detail = Detail::Memory(1);
    objects.push(memory)?;
    objects.push(plain(alloc, Kind::Parameter, b"P", top, 4)?)?;
    Ok(())
}

// The instance, whose ports stand in another order than in its header: objects 16 to 20.
fn add_leaf(alloc: Global, objects: &mut Vec<ObjectInfo>) -> Result<(), NoMemory> {
    let u = Some(16);
    let mut module = plain(alloc, Kind::Module, b"u", Some(0), 11)?;
    module.detail = Detail::Module(Name::from_slice(alloc, b"leaf")?);
    objects.push(module)?;
    let mut b = plain(alloc, Kind::Port, b"b", u, 20)?;
    b.width = 4;
    b.detail = Detail::Port {
        output: true,
        index: 1,
    };
    objects.push(b)?;
    let mut a = plain(alloc, Kind::Port, b"a", u, 20)?;
    a.detail = Detail::Port {
        output: false,
        index: 0,
    };
    objects.push(a)?;
    let mut net = plain(alloc, Kind::Net, b"a", u, 20)?;
    net.detail = Detail::Net(NetType::Wire);
    objects.push(net)?;
    let mut reg = plain(alloc, Kind::Reg, b"b", u, 20)?;
    reg.width = 4;
    objects.push(reg)?;
    Ok(())
}

// module top; reg \u.b ; s u(); endmodule  module s; reg b; endmodule: with the `b`, or without.
pub(crate) fn dotted(alloc: Global, has_b: bool) -> Result<Option<Design>, NoMemory> {
    let mut objects = Vec::new(alloc);
    objects.push(plain(alloc, Kind::Module, b"top", None, 1)?)?;
    objects.push(plain(alloc, Kind::Reg, b"u.b", Some(0), 1)?)?;
    objects.push(plain(alloc, Kind::Module, b"u", Some(0), 1)?)?;
    if has_b {
        objects.push(plain(alloc, Kind::Reg, b"b", Some(2), 1)?)?;
    }
    of_objects(alloc, objects)
}

// module top; reg \m[0] ; reg n [1:0]; reg \n[1] ; endmodule, and reg m [1:0] behind: words beside registers of their names.
pub(crate) fn bracketed(alloc: Global) -> Result<Option<Design>, NoMemory> {
    let mut objects = Vec::new(alloc);
    objects.push(plain(alloc, Kind::Module, b"top", None, 1)?)?;
    objects.push(plain(alloc, Kind::Reg, b"m[0]", Some(0), 1)?)?;
    let mut n = plain(alloc, Kind::Memory, b"n", Some(0), 1)?;
    n.words = 2;
    n.detail = Detail::Memory(0);
    objects.push(n)?;
    objects.push(plain(alloc, Kind::Reg, b"n[1]", Some(0), 1)?)?;
    let mut m = plain(alloc, Kind::Memory, b"m", Some(0), 1)?;
    m.words = 2;
    m.detail = Detail::Memory(0);
    objects.push(m)?;
    of_objects(alloc, objects)
}

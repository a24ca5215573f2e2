use std::alloc::Global;
use std::test::Fail;
use vh_base::{DriverId, ExprId, NoMemory, ObjId, Object};
use vh_design::{Change, Design, Detail, DriverInfo, Kind, Name, NetType, ObjectInfo, Parts};
use vh_logic::{Digit, Vec4};
use vh_store::Store;

// The objects of the design below: reg [1:0] r; wire [1:0] w; wand [1:0] a; wor [1:0] o; wire [1:0]
// n;
const R: u32 = 1;

const W: u32 = 2;

const A: u32 = 3;

const O: u32 = 4;

const N: u32 = 5;

fn object(alloc: Global, kind: Kind, detail: Detail) -> Result<ObjectInfo, NoMemory> {
    Ok(ObjectInfo {
        kind,
        name: Name::from_slice(alloc, b"x")?,
        parent: None,
        width: 2,
        signed: false,
        words: 0,
        line: 1,
        detail,
    })
}

fn objects(alloc: Global) -> Result<Vec<ObjectInfo>, NoMemory> {
    let mut all = Vec::new(alloc);
    let nets = [NetType::Wire, NetType::Wand, NetType::Wor, NetType::Tri];
    for kind in [Kind::Module, Kind::Reg] {
        all.push(object(alloc, kind, Detail::Plain)?)?;
    }
    for net in nets {
        all.push(object(alloc, Kind::Net, Detail::Net(net))?)?;
    }
    Ok(all)
}

// Two drivers of each of three nets; of the fourth one whose lowest digit has the net's highest place, one whose highest digit has
// its lowest, and one of which no digit has a place.
const DRIVERS: [(u32, u32, u32); 9] = [
    (W, 0, 0),
    (W, 0, 0),
    (A, 0, 0),
    (A, 0, 0),
    (O, 0, 0),
    (O, 0, 0),
    (N, 1, 0),
    (N, 0, 1),
    (N, 0, 2),
];

fn drivers(alloc: Global) -> Result<Vec<DriverInfo>, NoMemory> {
    let mut all = Vec::new(alloc);
    for (net, low, below) in DRIVERS {
        all.push(DriverInfo {
            object: ObjId::new(net),
            low,
            below,
            width: 2,
        })?;
    }
    Ok(all)
}

fn built(parts: Parts) -> Option<Design> {
    if parts.objects.len() > 99 || parts.exprs.len() > 99 || parts.drivers.len() > 99 {
        return None;
    }
    if parts.codes.len() > 99 || parts.bodies.len() > 99 || parts.waits.len() > 99 {
        return None;
    }
    if parts.shows.len() > 99 || parts.stmts.len() > 99 {
        return None;
    }
    Design::build(parts)
}

fn design(alloc: Global) -> Result<Option<Design>, NoMemory> {
    Ok(built(Parts {
        objects: objects(alloc)?,
        exprs: Vec::new(alloc),
        drivers: drivers(alloc)?,
        codes: Vec::new(alloc),
        bodies: Vec::new(alloc),
        waits: Vec::new(alloc),
        shows: Vec::new(alloc),
        stmts: Vec::new(alloc),
        precision: 9,
    }))
}

// Two digits, the higher one first.
fn digit(byte: u8) -> Digit {
    match byte {
        b'0' => Digit::Zero,
        b'1' => Digit::One,
        b'z' => Digit::Z,
        _ => Digit::X,
    }
}

fn value(text: &[u8; 2]) -> Vec4 {
    let high = Vec4::filled(1, digit(text[0]), false);
    let low = Vec4::filled(1, digit(text[1]), false);
    Vec4::from_planes(
        2,
        ((high.aval() & 1) << 1) | low.aval(),
        ((high.bval() & 1) << 1) | low.bval(),
        false,
    )
}

fn whole(o: u32) -> Object {
    Object {
        id: ObjId::new(o),
        word: None,
    }
}

// What is done to an object, or to a driver by its number.
#[derive(Clone, Copy)]
enum Doing {
    Write(u32, &'static [u8; 2]),
    Put(u32, &'static [u8; 2]),
    Force(u32, &'static [u8; 2]),
    Release(u32),
    Assign(u32, &'static [u8; 2]),
    Deassign(u32),
    Drive(u32, &'static [u8; 2]),
}

fn perform(store: &mut Store, doing: Doing) -> Option<Change> {
    match doing {
        Doing::Write(o, text) => store.write(whole(o), &value(text)),
        Doing::Put(o, text) => store.put(whole(o), &value(text)),
        Doing::Force(o, text) => store.force(ObjId::new(o), &value(text), None),
        Doing::Release(o) => store.release(ObjId::new(o)),
        Doing::Assign(o, text) => store.assign(ObjId::new(o), &value(text), ExprId::new(0)),
        Doing::Deassign(o) => store.deassign(ObjId::new(o)),
        Doing::Drive(x, text) => store.drive(DriverId::new(x), &value(text)),
    }
}

// Each row does this, and then the object shows that.
const ROWS: &[(Doing, u32, &[u8; 2])] = &[
    (Doing::Write(R, b"01"), R, b"01"),
    (Doing::Force(R, b"10"), R, b"10"),
    (Doing::Write(R, b"11"), R, b"10"),
    (Doing::Put(R, b"11"), R, b"10"),
    (Doing::Release(R), R, b"10"),
    (Doing::Release(R), R, b"10"),
    (Doing::Write(R, b"0x"), R, b"0x"),
    (Doing::Assign(R, b"01"), R, b"01"),
    (Doing::Write(R, b"11"), R, b"01"),
    (Doing::Force(R, b"00"), R, b"00"),
    (Doing::Release(R), R, b"01"),
    (Doing::Force(R, b"11"), R, b"11"),
    (Doing::Deassign(R), R, b"11"),
    (Doing::Release(R), R, b"11"),
    (Doing::Put(R, b"00"), R, b"00"),
    (Doing::Drive(0, b"01"), W, b"01"),
    (Doing::Drive(1, b"z0"), W, b"0x"),
    (Doing::Drive(0, b"zz"), W, b"z0"),
    (Doing::Put(W, b"11"), W, b"11"),
    (Doing::Drive(1, b"z0"), W, b"11"),
    (Doing::Drive(1, b"1z"), W, b"1z"),
    (Doing::Force(W, b"00"), W, b"00"),
    (Doing::Drive(0, b"z1"), W, b"00"),
    (Doing::Release(W), W, b"11"),
    (Doing::Put(W, b"00"), W, b"00"),
    (Doing::Force(W, b"01"), W, b"01"),
    (Doing::Release(W), W, b"11"),
    (Doing::Drive(2, b"01"), A, b"01"),
    (Doing::Drive(3, b"1x"), A, b"0x"),
    (Doing::Drive(3, b"z1"), A, b"01"),
    (Doing::Drive(4, b"01"), O, b"01"),
    (Doing::Drive(5, b"1x"), O, b"11"),
    (Doing::Drive(5, b"z0"), O, b"01"),
    (Doing::Write(N, b"11"), N, b"zz"),
    (Doing::Drive(6, b"10"), N, b"0z"),
    (Doing::Drive(7, b"10"), N, b"01"),
    (Doing::Drive(7, b"1x"), N, b"01"),
    (Doing::Drive(7, b"0x"), N, b"00"),
    (Doing::Drive(8, b"11"), N, b"00"),
    (Doing::Drive(6, b"z1"), N, b"10"),
    (Doing::Drive(9, b"11"), N, b"10"),
];

fn shows(store: &Store, o: u32, text: &[u8; 2]) -> bool {
    vh_store::is_same_value(&store.shown(whole(o)), &value(text))
}

// The first row that shows something else, or whose change isn't told.
fn wrong_row(store: &mut Store, rows: &[(Doing, u32, &[u8; 2])]) -> Option<usize> {
    for (at, (doing, o, wanted)) in rows.iter().enumerate() {
        let old = store.shown(whole(*o));
        let change = perform(store, *doing);
        let is_told = change.is_some() != vh_store::is_same_value(&old, &value(wanted));
        if !is_told || !shows(store, *o, wanted) {
            return Some(at);
        }
    }
    None
}

#[test]
fn layers(rt: HostRuntime) -> Result<(), Fail> {
    let alloc = rt.alloc();
    let d = design(alloc)?.expect(&rt, "every rule is kept");
    let mut store = Store::new(alloc, &d)?;
    for (o, wanted) in [(R, b"xx"), (W, b"zz"), (A, b"zz"), (O, b"zz"), (N, b"zz")] {
        assert!(rt; shows(&store, o, wanted));
    }
    assert_eq!(rt; wrong_row(&mut store, ROWS), None);
    Ok(())
}

// Who holds an object, and which expressions are followed.
#[test]
fn holders(rt: HostRuntime) -> Result<(), Fail> {
    let alloc = rt.alloc();
    let d = design(alloc)?.expect(&rt, "every rule is kept");
    let mut store = Store::new(alloc, &d)?;
    let (o, e) = (ObjId::new(R), ExprId::new(7));
    store.assign(o, &value(b"01"), e);
    assert!(rt; !store.is_forced(o) && store.assign_of(o) == Some(e));
    store.force(o, &value(b"10"), None);
    assert!(rt; store.is_forced(o) && store.force_of(o).is_none());
    store.force(o, &value(b"10"), Some(e));
    assert!(rt; store.force_of(o) == Some(e) && store.assign_of(o) == Some(e));
    store.release(o);
    store.deassign(o);
    assert!(rt; !store.is_forced(o) && store.assign_of(o).is_none());
    assert!(rt; vh_store::is_same_value(&store.driven(DriverId::new(0)), &value(b"zz")));
    Ok(())
}

use std::alloc::Global;
use std::process::Abort;
use vh_base::{CbNumber, HandleNo, ObjId, Object, Relation, Serial};
use vh_handles::{Handles, OpenFault, Thing};

// Numbers are given from 0 on and never again; each names its thing until it is freed.
#[test]
fn numbers_name_things(rt: HostRuntime) {
    let alloc = rt.alloc();
    let mut handles = Handles::new(alloc);
    assert!(rt; opened(alloc, &mut handles, Thing::Object(object(7))) == Some(0));
    assert!(rt; opened(alloc, &mut handles, Thing::Callback(CbNumber::new(1))) == Some(1));
    assert!(rt; opened(alloc, &mut handles, Thing::Event(Serial::new(9))) == Some(2));
    assert!(rt; handles.live() == 3);
    assert!(rt; handles.thing(HandleNo::new(0)) == Some(Thing::Object(object(7))));
    assert!(rt; handles.thing(HandleNo::new(3)) == None);
    assert!(rt; handles.free(HandleNo::new(1)));
    assert!(rt; !handles.free(HandleNo::new(1)));
    assert!(rt; handles.thing(HandleNo::new(1)) == None);
    assert!(rt; handles.thing(HandleNo::new(2)) == Some(Thing::Event(Serial::new(9))));
    assert!(rt; opened(alloc, &mut handles, Thing::Object(object(7))) == Some(3));
    assert!(rt; handles.live() == 3);
}

// An iterator goes past each of its objects once; what is no iterator goes nowhere.
#[test]
fn iterators_go_on(rt: HostRuntime) {
    let alloc = rt.alloc();
    let mut handles = Handles::new(alloc);
    assert!(rt; opened(alloc, &mut handles, registers_past(0)) == Some(0));
    assert!(rt; opened(alloc, &mut handles, Thing::Object(object(0))) == Some(1));
    assert!(rt; handles.advance_iterator(HandleNo::new(0)));
    assert!(rt; handles.thing(HandleNo::new(0)) == Some(registers_past(1)));
    assert!(rt; handles.advance_iterator(HandleNo::new(0)));
    assert!(rt; !handles.advance_iterator(HandleNo::new(0)));
    assert!(rt; handles.thing(HandleNo::new(0)) == Some(registers_past(2)));
    assert!(rt; !handles.advance_iterator(HandleNo::new(1)));
    assert!(rt; !handles.advance_iterator(HandleNo::new(5)));
    assert!(rt; handles.thing(HandleNo::new(1)) == Some(Thing::Object(object(0))));
}

// So many are live at most; a freed one makes room.
#[test]
fn the_65537th_is_refused(rt: HostRuntime) {
    let alloc = rt.alloc();
    let mut handles = Handles::new(alloc);
    let thing = Thing::Object(object(0));
    for _ in 0..65_535 {
        assert!(rt; opened(alloc, &mut handles, thing).is_some());
    }
    assert!(rt; !handles.is_full());
    assert!(rt; opened(alloc, &mut handles, thing) == Some(65_535));
    assert!(rt; handles.is_full());
    assert!(rt; matches!(handles.open_handle(alloc, thing), Err(OpenFault::Full)));
    assert!(rt; handles.free(HandleNo::new(9)));
    assert!(rt; opened(alloc, &mut handles, thing) == Some(65_536));
}

fn object(number: u32) -> Object {
    Object {
        id: ObjId::new(number),
        word: None,
    }
}

// Two registers of the design's first object.
fn registers_past(at: u32) -> Thing {
    Thing::Iterator {
        relation: Relation::VpiReg,
        from: Some(object(0)),
        at,
        count: 2,
    }
}

fn opened(alloc: Global, handles: &mut Handles, thing: Thing) -> Option<u64> {
    let handle = handles.open_handle(alloc, thing).ok()?;
    Some(handle.number())
}

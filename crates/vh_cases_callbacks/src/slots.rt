use std::alloc::Global;
use std::process::Abort;
use vh_slots::{GiveFault, Key, Slots};

// A slot that is free again is used under its next generation, and the old key finds nothing.
#[test]
fn slots_are_used_again(rt: HostRuntime) {
    let mut slots = Slots::new(rt.alloc(), 3, 0);
    assert!(rt; given(&rt, rt.alloc(), &mut slots, 10) == key(0, 0));
    assert!(rt; given(&rt, rt.alloc(), &mut slots, 11) == key(1, 0));
    assert!(rt; given(&rt, rt.alloc(), &mut slots, 12) == key(2, 0));
    assert!(rt; is_refused(&rt, rt.alloc(), &mut slots, 13));
    assert!(rt; slots.take(at(1, 0)) == Some(11));
    assert!(rt; slots.take(at(1, 0)) == None);
    assert!(rt; given(&rt, rt.alloc(), &mut slots, 14) == key(1, 1));
    assert!(rt; slots.slots() == 3 && slots.retired() == 0);
    assert!(rt; slots.get(at(1, 0)).copied() == None);
    assert!(rt; slots.get(at(1, 1)).copied() == Some(14));
    assert!(rt; slots.get(at(3, 0)).copied() == None);
    assert!(rt; slots.replace(at(1, 0), 15) == Err(15));
    assert!(rt; slots.replace(at(1, 1), 16) == Ok(14));
    assert!(rt; slots.get(at(1, 1)).copied() == Some(16));
    assert!(rt; slots.take(at(0, 0)) == Some(10));
    assert!(rt; slots.take(at(2, 0)) == Some(12));
}

// A slot past its last generation is not used again.
#[test]
fn slots_retire(rt: HostRuntime) {
    let last = u32::MAX;
    let mut slots = Slots::new(rt.alloc(), 4, last - 1);
    assert!(rt; given(&rt, rt.alloc(), &mut slots, 1) == key(0, last - 1));
    assert!(rt; slots.take(at(0, last - 1)) == Some(1));
    assert!(rt; given(&rt, rt.alloc(), &mut slots, 2) == key(0, last));
    assert!(rt; slots.take(at(0, last)) == Some(2));
    assert!(rt; given(&rt, rt.alloc(), &mut slots, 3) == key(1, last - 1));
    assert!(rt; slots.retired() == 1 && slots.slots() == 2);
    assert!(rt; slots.get(at(0, last - 1)).copied() == None);
    assert!(rt; slots.get(at(0, last)).copied() == None);
}

fn at(slot: u32, generation: u32) -> Key {
    Key { slot, generation }
}

fn key(slot: u32, generation: u32) -> Option<Key> {
    Some(at(slot, generation))
}

fn given(rt: &impl Abort, alloc: Global, slots: &mut Slots<u32>, value: u32) -> Option<Key> {
    assert!(rt; slots.slots() < 9);
    slots.give(alloc, value).ok()
}

fn is_refused(rt: &impl Abort, alloc: Global, slots: &mut Slots<u32>, value: u32) -> bool {
    assert!(rt; slots.slots() < 9);
    match slots.give(alloc, value) {
        Err(GiveFault::Full(back)) => back == value,
        _ => false,
    }
}

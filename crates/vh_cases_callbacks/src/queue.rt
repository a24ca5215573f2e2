use std::alloc::Global;
use std::process::Abort;
use vh_base::{CbNumber, MOST_ENTRIES, ObjId, Object, ProcId, Serial};
use vh_logic::{Digit, Vec4};
use vh_queue::{AddFault, Queue, Region, Work};

// What is left is performed by regions, then by times.
#[test]
fn regions_and_times(rt: HostRuntime) {
    let mut queue = opening(&rt, rt.alloc(), 2);
    assert!(rt; queue.choices() == 2);
    assert!(rt; picked(&mut queue, 1) == Some(2));
    assert!(rt; picked(&mut queue, 0) == Some(1));
    assert!(rt; queue.len() == 0);
    assert!(rt; queue.activate() == None);
    assert!(rt; later(&mut queue, 0, Region::Monitor) == Some(3));
    assert!(rt; later(&mut queue, 5, Region::Inactive) == Some(4));
    assert!(rt; later(&mut queue, 0, Region::Inactive) == Some(5));
    assert!(rt; later(&mut queue, 0, Region::Nonblocking) == Some(6));
    assert!(rt; queue.choices() == 0);
    assert!(rt; queue.activate() == Some(Region::Inactive));
    assert!(rt; picked(&mut queue, 0) == Some(5));
    assert!(rt; queue.activate() == Some(Region::Nonblocking));
    assert!(rt; picked(&mut queue, 0) == Some(6));
    assert!(rt; queue.activate() == Some(Region::Monitor));
    assert!(rt; picked(&mut queue, 0) == Some(3));
    assert!(rt; queue.activate() == None);
    assert!(rt; queue.advance() == Some(5));
    assert!(rt; queue.time() == 5);
    assert!(rt; picked(&mut queue, 0) == Some(4));
    assert!(rt; queue.advance() == None);
}

// An entry that is added to a region of the present time waits, also where that region was made active.
#[test]
fn added_behind_the_region(rt: HostRuntime) {
    let mut queue = opening(&rt, rt.alloc(), 0);
    assert!(rt; later(&mut queue, 0, Region::Inactive) == Some(1));
    assert!(rt; later(&mut queue, 0, Region::Inactive) == Some(2));
    assert!(rt; queue.activate() == Some(Region::Inactive));
    assert!(rt; later(&mut queue, 0, Region::Inactive) == Some(3));
    assert!(rt; queue.choices() == 2);
    assert!(rt; queue.activate() == Some(Region::Inactive));
    assert!(rt; queue.choices() == 3);
    assert!(rt; picked(&mut queue, 2) == Some(3));
    assert!(rt; picked(&mut queue, 1) == Some(2));
    assert!(rt; picked(&mut queue, 0) == Some(1));
}

// What stands at the start of a time goes before what is active.
#[test]
fn starts_go_first(rt: HostRuntime) {
    let mut queue = opening(&rt, rt.alloc(), 1);
    assert!(rt; later(&mut queue, 0, Region::Start) == Some(2));
    assert!(rt; queue.choices() == 1);
    assert!(rt; picked(&mut queue, 0) == Some(2));
    assert!(rt; picked(&mut queue, 0) == Some(1));
    queue.clear();
    assert!(rt; queue.len() == 0);
}

// Of the nonblocking updates only the first may be picked; the rest of what is active at once.
#[test]
fn updates_in_their_order(rt: HostRuntime) {
    let mut queue = opening(&rt, rt.alloc(), 0);
    assert!(rt; update(&mut queue, 0) == Some(1));
    assert!(rt; later(&mut queue, 0, Region::Nonblocking) == Some(2));
    assert!(rt; update(&mut queue, 0) == Some(3));
    assert!(rt; queue.activate() == Some(Region::Nonblocking));
    assert!(rt; queue.choices() == 2);
    assert!(rt; picked(&mut queue, 1) == Some(2));
    assert!(rt; queue.choices() == 1);
    assert!(rt; picked(&mut queue, 0) == Some(1));
    assert!(rt; picked(&mut queue, 0) == Some(3));
}

// An entry without a time gets that of the next one with an entry beyond its start.
#[test]
fn next_times(rt: HostRuntime) {
    let mut queue = opening(&rt, rt.alloc(), 0);
    assert!(rt; next(&mut queue) == Some(1));
    assert!(rt; queue.advance() == None);
    assert!(rt; later(&mut queue, 3, Region::Start) == Some(2));
    assert!(rt; later(&mut queue, 7, Region::Monitor) == Some(3));
    assert!(rt; queue.advance() == Some(3));
    assert!(rt; queue.choices() == 1);
    assert!(rt; picked(&mut queue, 0) == Some(2));
    assert!(rt; queue.advance() == Some(7));
    assert!(rt; next(&mut queue) == Some(4));
    assert!(rt; queue.choices() == 1);
    assert!(rt; picked(&mut queue, 0) == Some(1));
    assert!(rt; queue.choices() == 0);
    assert!(rt; queue.activate() == Some(Region::Monitor));
    assert!(rt; picked(&mut queue, 0) == Some(3));
    assert!(rt; queue.advance() == None);
    assert!(rt; queue.len() == 1);
}

// A cancelled entry doesn't come back, in whichever region it stood.
#[test]
fn cancelled_entries(rt: HostRuntime) {
    let mut queue = opening(&rt, rt.alloc(), 2);
    assert!(rt; later(&mut queue, 2, Region::Inactive) == Some(3));
    assert!(rt; next(&mut queue) == Some(4));
    assert!(rt; matches!(queue.work(Serial::new(1)), Some(Work::Evaluate(_))));
    assert!(rt; queue.cancel(Serial::new(1)).is_some());
    assert!(rt; queue.cancel(Serial::new(1)).is_none());
    assert!(rt; queue.work(Serial::new(1)).is_none());
    assert!(rt; picked(&mut queue, 0) == Some(2));
    assert!(rt; matches!(queue.cancel(Serial::new(4)), Some(Work::Call(_))));
    assert!(rt; queue.cancel(Serial::new(3)).is_some());
    assert!(rt; queue.advance() == None);
    assert!(rt; queue.len() == 0);
    assert!(rt; later(&mut queue, 0, Region::Active) == Some(5));
}

// The queue is full at 1,048,576 entries; a refusal changes nothing, and where one is gone one is added.
#[test]
fn full(rt: HostRuntime) {
    let mut queue = opening(&rt, rt.alloc(), MOST_ENTRIES as u64);
    assert!(rt; queue.is_full());
    assert!(rt; queue.len() == 1_048_576);
    assert!(rt; refused(&mut queue));
    assert!(rt; queue.len() == 1_048_576);
    assert!(rt; queue.choices() == 1_048_576);
    assert!(rt; picked(&mut queue, 1_048_575) == Some(1_048_576));
    assert!(rt; later(&mut queue, 0, Region::Active) == Some(1_048_577));
    assert!(rt; refused(&mut queue));
}

// A queue with so many evaluations of time 0.
fn opening(rt: &impl Abort, alloc: Global, count: u64) -> Queue {
    let Ok(mut queue) = Queue::new(alloc) else {
        rt.abort();
    };
    for _ in 0..count {
        if later(&mut queue, 0, Region::Active).is_none() {
            rt.abort();
        }
    }
    queue
}

// Adds an evaluation of a time that is later or the present one, and answers its serial.
fn later(queue: &mut Queue, time: u64, region: Region) -> Option<u64> {
    if time < queue.time() {
        return None;
    }
    if region == Region::Active && time != queue.time() {
        return None;
    }
    let work = Work::Evaluate(ProcId::new(0));
    Some(queue.add(Some(time), region, work).ok()?.number())
}

// Adds a nonblocking update.
fn update(queue: &mut Queue, time: u64) -> Option<u64> {
    if time < queue.time() {
        return None;
    }
    let object = Object {
        id: ObjId::new(1),
        word: None,
    };
    let work = Work::Assign {
        object,
        low: 0,
        value: Vec4::filled(1, Digit::One, false),
    };
    Some(
        queue
            .add(Some(time), Region::Nonblocking, work)
            .ok()?
            .number(),
    )
}

// Adds a callback at the next simulation time.
fn next(queue: &mut Queue) -> Option<u64> {
    let work = Work::Call(CbNumber::new(1));
    Some(queue.add(None, Region::Start, work).ok()?.number())
}

// Is another entry refused because the queue is full?
fn refused(queue: &mut Queue) -> bool {
    let work = Work::Evaluate(ProcId::new(0));
    let answer = queue.add(Some(queue.time()), Region::Active, work);
    answer == Err(AddFault::Full)
}

// Takes the k-th that may be picked out, and answers its serial.
fn picked(queue: &mut Queue, k: u32) -> Option<u64> {
    if k >= queue.choices() {
        return None;
    }
    Some(queue.pick(k).serial.number())
}

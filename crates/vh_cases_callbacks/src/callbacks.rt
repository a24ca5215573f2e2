use std::alloc::{AllocError, Global};
use std::test::Fail;
use vh_base::{CbNumber, HandleNo, MOST_FRAMES, NoMemory, ObjId, Object, Reason, Serial};
use vh_callbacks::{RegisterFault, Registration, Registry, Removed, callbacks_laws};

// What is done to a registry of numbers as bodies.
#[derive(Drop)]
enum Act {
    Watch(Reason, u32),
    WatchWord(Reason, u32, u32),
    Await(Reason),
    Remove(u64),
}

// An act, the number that it gives or else the body that comes back (0 where there is none),
// and then how many are live, and who watches the value of object 7.
struct Row {
    act: Act,
    answer: u64,
    live: u32,
    watchers: &'static [u64],
}

// The bodies are 101, 102, .. by the number.
static ROWS: [Row; 12] = [
    Row {
        act: Act::Watch(Reason::CbValueChange, 7),
        answer: 1,
        live: 1,
        watchers: &[1],
    },
    Row {
        act: Act::Watch(Reason::CbValueChange, 7),
        answer: 2,
        live: 2,
        watchers: &[1, 2],
    },
    Row {
        act: Act::Watch(Reason::CbForce, 7),
        answer: 3,
        live: 3,
        watchers: &[1, 2],
    },
    Row {
        act: Act::Watch(Reason::CbValueChange, 8),
        answer: 4,
        live: 4,
        watchers: &[1, 2],
    },
    Row {
        act: Act::WatchWord(Reason::CbValueChange, 7, 0),
        answer: 5,
        live: 5,
        watchers: &[1, 2],
    },
    Row {
        act: Act::Await(Reason::CbEndOfSimulation),
        answer: 6,
        live: 6,
        watchers: &[1, 2],
    },
    Row {
        act: Act::Remove(1),
        answer: 101,
        live: 5,
        watchers: &[2],
    },
    Row {
        act: Act::Remove(1),
        answer: 0,
        live: 5,
        watchers: &[2],
    },
    Row {
        act: Act::Watch(Reason::CbValueChange, 7),
        answer: 7,
        live: 6,
        watchers: &[2, 7],
    },
    Row {
        act: Act::Remove(8),
        answer: 0,
        live: 6,
        watchers: &[2, 7],
    },
    Row {
        act: Act::Remove(2),
        answer: 102,
        live: 5,
        watchers: &[7],
    },
    Row {
        act: Act::Remove(7),
        answer: 107,
        live: 4,
        watchers: &[],
    },
];

fn object(id: u32, word: Option<u32>) -> Option<Object> {
    Some(Object {
        id: ObjId::new(id),
        word,
    })
}

fn registration(reason: Reason, object: Option<Object>) -> Registration {
    Registration {
        reason,
        object,
        object_handle: None,
        me: HandleNo::new(9),
        time: 5,
        serial: Some(Serial::new(3)),
        user_data: 2,
    }
}

// The number, or the body that came back.
fn add(alloc: Global, registry: &mut Registry<u64>, reason: Reason, object: Option<Object>) -> u64 {
    let body = registry.next_number().number().saturating_add(100);
    match registry.register(alloc, registration(reason, object), body) {
        Ok(number) => number.number(),
        Err(RegisterFault::Full(body)) => body,
        Err(RegisterFault::NoMemory(_)) => 0,
    }
}

fn perform(alloc: Global, registry: &mut Registry<u64>, act: &Act) -> u64 {
    match act {
        Act::Watch(reason, id) => add(alloc, registry, *reason, object(*id, None)),
        Act::WatchWord(reason, id, word) => {
            add(alloc, registry, *reason, object(*id, Some(*word)))
        }
        Act::Await(reason) => add(alloc, registry, *reason, None),
        Act::Remove(number) => match registry.remove(CbNumber::new(*number)) {
            Removed::Gone(body) => body,
            Removed::Running => 1,
            Removed::NotLive => 0,
        },
    }
}

// Are these the numbers?
fn are(found: &[CbNumber], wanted: &[u64]) -> bool {
    if found.len() != wanted.len() {
        return false;
    }
    for (a, b) in found.iter().zip(wanted.iter()) {
        if a.number() != *b {
            return false;
        }
    }
    true
}

// The numbers that have this reason and this object, by the set of depth 3.
fn watching(
    alloc: Global,
    registry: &mut Registry<u64>,
    reason: Reason,
    object: Option<Object>,
) -> Result<Vec<CbNumber>, NoMemory> {
    let mut numbers = Vec::new(alloc);
    registry.clear_marks(3);
    registry.mark_all(alloc, 3, reason, object)?;
    for _ in 0..registry.marked(3) {
        if let Some(c) = registry.take_marked(3, 0) {
            numbers.push(c)?;
        }
    }
    Ok(numbers)
}

#[test]
fn tells_who_watches(rt: HostRuntime) -> Result<(), Fail> {
    let alloc = rt.alloc();
    let mut registry = Registry::new(alloc);
    for row in &ROWS {
        assert_eq!(rt; perform(alloc, &mut registry, &row.act), row.answer);
        assert_eq!(rt; registry.live(), row.live);
        let found = watching(alloc, &mut registry, Reason::CbValueChange, object(7, None)).expect(
            &rt,
            "there is memory",
        );
        assert!(rt; are(found.as_slice(), row.watchers));
        let any = registry.matches(Reason::CbValueChange, object(7, None));
        assert_eq!(rt; any, !row.watchers.is_empty());
    }
    Ok(())
}

#[test]
fn tells_what_was_registered(rt: HostRuntime) -> Result<(), Fail> {
    let alloc = rt.alloc();
    let mut registry = Registry::new(alloc);
    assert_eq!(rt;
        add(alloc, &mut registry, Reason::CbForce, object(7, Some(3))),
        1
    );
    let info = registry.info(CbNumber::new(1)).expect(&rt, "it is live");
    assert_eq!(rt; info.object, object(7, Some(3)));
    assert_eq!(rt; info.user_data, 2);
    let live = registry
        .callback(CbNumber::new(1))
        .expect(&rt, "it is live");
    assert_eq!(rt; live.body, 101);
    assert_eq!(rt; live.registration.user_data, 2);
    assert_eq!(rt; live.activations, 0);
    assert!(rt; registry.info(CbNumber::new(2)).is_none());
    assert!(rt; registry.callback(CbNumber::new(2)).is_none());
    assert!(rt; registry.held(CbNumber::new(1)).is_none());
    callbacks_laws::<u64>();
    Ok(())
}

// A live callback of the plain list: its number, its reason, and its object.
#[derive(Clone, Copy)]
struct Plain {
    number: u64,
    reason: Reason,
    id: u32,
}

const REASONS: [Reason; 3] = [Reason::CbValueChange, Reason::CbForce, Reason::CbRelease];

// The numbers of the plain list with this reason and this object.
fn plain_matching(
    alloc: Global,
    live: &[Plain],
    reason: Reason,
    id: u32,
) -> Result<Vec<u64>, AllocError> {
    let mut numbers = Vec::new(alloc);
    for callback in live {
        if callback.reason == reason && callback.id == id {
            numbers.push(callback.number)?;
        }
    }
    Ok(numbers)
}

// Registers one of five objects, or removes an earlier callback, by the turn.
fn turn(
    alloc: Global,
    registry: &mut Registry<u64>,
    live: &mut Vec<Plain>,
    turn: u32,
) -> Result<(), AllocError> {
    if turn % 3 == 2 {
        let number = (turn / 4) as u64;
        registry.remove(CbNumber::new(number));
        live.retain(|callback| callback.number != number);
        return Ok(());
    }
    let reason = REASONS[(turn % 7 % 3) as usize];
    let id = turn % 11 % 5;
    let number = add(alloc, registry, reason, object(id, None));
    live.push(Plain { number, reason, id })?;
    Ok(())
}

#[test]
fn finds_what_a_plain_list_has(rt: HostRuntime) -> Result<(), Fail> {
    let alloc = rt.alloc();
    let mut registry = Registry::new(alloc);
    let mut live = Vec::new(alloc);
    for count in 0..600 {
        turn(alloc, &mut registry, &mut live, count)?;
        let reason = REASONS[(count % 3) as usize];
        let found = watching(alloc, &mut registry, reason, object(count % 5, None)).expect(
            &rt,
            "there is memory",
        );
        let wanted = plain_matching(alloc, live.as_slice(), reason, count % 5)?;
        assert!(rt; are(found.as_slice(), wanted.as_slice()));
    }
    assert_eq!(rt; registry.live() as usize, live.len());
    Ok(())
}

// Registers so many, each of an object of its own.
fn fill(alloc: Global, registry: &mut Registry<u64>, count: u32) -> u64 {
    let mut last = 0;
    for id in 0..count {
        last = add(alloc, registry, Reason::CbValueChange, object(id, None));
    }
    last
}

#[test]
fn has_room_for_65536(rt: HostRuntime) -> Result<(), Fail> {
    let alloc = rt.alloc();
    let mut registry = Registry::new(alloc);
    assert_eq!(rt; fill(alloc, &mut registry, 65_536), 65_536);
    assert!(rt; registry.is_full());
    // The body comes back, and the number isn't used up.
    assert_eq!(rt; add(alloc, &mut registry, Reason::CbForce, None), 65_637);
    assert_eq!(rt; registry.live(), 65_536);
    assert!(rt; matches!(registry.remove(CbNumber::new(1)), Removed::Gone(101)));
    assert_eq!(rt; add(alloc, &mut registry, Reason::CbForce, None), 65_537);
    assert!(rt; registry.is_full());
    Ok(())
}

#[test]
fn keeps_what_runs(rt: HostRuntime) -> Result<(), Fail> {
    let alloc = rt.alloc();
    let mut registry = Registry::new(alloc);
    let Ok(c) = registry.register(alloc, registration(Reason::CbForce, None), 101) else {
        return Err("there is memory")?;
    };
    registry.start_activation(c);
    registry.start_activation(c);
    assert!(rt; matches!(registry.remove(c), Removed::Running));
    assert_eq!(rt; registry.live(), 0);
    assert!(rt; registry.info(c).is_none());
    assert_eq!(rt; *registry.body(c), 101);
    registry.set_data(c, 9);
    let held = registry.held(c).expect(&rt, "it is held");
    assert_eq!(rt; held.user_data, 9);
    assert!(rt; registry.end_activation(c).is_none());
    assert!(rt; registry.held(c).is_some());
    assert_eq!(rt; registry.end_activation(c), Some(101));
    assert!(rt; registry.held(c).is_none());
    assert!(rt; matches!(registry.remove(c), Removed::NotLive));
    Ok(())
}

// What is done to the sets of depths.
enum Mark {
    Register,
    All(u32),
    One(u32, u64),
    Take(u32, u32),
    Clear(u32),
    Remove(u64),
}

// An act, the number that it gives or the body that comes back (0 where there is neither), and
// then how many are in the sets of depths 0 and 1. All are registered for object 7.
struct Marked {
    act: Mark,
    answer: u64,
    counts: (u32, u32),
}

static MARKS: [Marked; 15] = [
    Marked {
        act: Mark::Register,
        answer: 1,
        counts: (0, 0),
    },
    Marked {
        act: Mark::Register,
        answer: 2,
        counts: (0, 0),
    },
    Marked {
        act: Mark::Register,
        answer: 3,
        counts: (0, 0),
    },
    Marked {
        act: Mark::All(0),
        answer: 0,
        counts: (3, 0),
    },
    Marked {
        act: Mark::One(1, 2),
        answer: 0,
        counts: (3, 1),
    },
    // One that is registered now is in no set.
    Marked {
        act: Mark::Register,
        answer: 4,
        counts: (3, 1),
    },
    // A removal takes its number out of both.
    Marked {
        act: Mark::Remove(2),
        answer: 102,
        counts: (2, 0),
    },
    Marked {
        act: Mark::Take(0, 1),
        answer: 3,
        counts: (1, 0),
    },
    Marked {
        act: Mark::Take(0, 1),
        answer: 0,
        counts: (1, 0),
    },
    Marked {
        act: Mark::Take(1, 0),
        answer: 0,
        counts: (1, 0),
    },
    Marked {
        act: Mark::All(1),
        answer: 0,
        counts: (1, 3),
    },
    Marked {
        act: Mark::Take(1, 2),
        answer: 4,
        counts: (1, 2),
    },
    Marked {
        act: Mark::Clear(0),
        answer: 0,
        counts: (0, 2),
    },
    Marked {
        act: Mark::Take(1, 0),
        answer: 1,
        counts: (0, 1),
    },
    Marked {
        act: Mark::Take(63, 0),
        answer: 0,
        counts: (0, 1),
    },
];

// Fills the set of a depth anew.
fn mark_all(alloc: Global, registry: &mut Registry<u64>, depth: u32) -> Result<(), NoMemory> {
    registry.clear_marks(depth);
    if depth as usize >= MOST_FRAMES {
        return Ok(());
    }
    registry.mark_all(alloc, depth, Reason::CbValueChange, object(7, None))
}

// Puts a callback, if it is live, into the set of a depth.
fn mark_one(
    alloc: Global,
    registry: &mut Registry<u64>,
    depth: u32,
    c: CbNumber,
) -> Result<(), NoMemory> {
    registry.clear_marks(depth);
    if depth as usize >= MOST_FRAMES || registry.callback(c).is_none() {
        return Ok(());
    }
    registry.mark_one(alloc, depth, c)
}

fn make(alloc: Global, registry: &mut Registry<u64>, act: &Mark) -> Result<u64, NoMemory> {
    match act {
        Mark::Register => Ok(add(alloc, registry, Reason::CbValueChange, object(7, None))),
        Mark::All(depth) => {
            mark_all(alloc, registry, *depth)?;
            Ok(0)
        }
        Mark::One(depth, c) => {
            mark_one(alloc, registry, *depth, CbNumber::new(*c))?;
            Ok(0)
        }
        Mark::Take(depth, k) => {
            let taken = registry.take_marked(*depth, *k);
            Ok(taken.map_or(0, |c| c.number()))
        }
        Mark::Clear(depth) => {
            registry.clear_marks(*depth);
            Ok(0)
        }
        Mark::Remove(c) => Ok(perform(alloc, registry, &Act::Remove(*c))),
    }
}

#[test]
fn keeps_a_set_for_each_depth(rt: HostRuntime) -> Result<(), Fail> {
    let alloc = rt.alloc();
    let mut registry = Registry::new(alloc);
    for row in &MARKS {
        let answer = make(alloc, &mut registry, &row.act).expect(&rt, "there is memory");
        assert_eq!(rt; answer, row.answer);
        assert_eq!(rt; registry.marked(0), row.counts.0);
        assert_eq!(rt; registry.marked(1), row.counts.1);
    }
    Ok(())
}

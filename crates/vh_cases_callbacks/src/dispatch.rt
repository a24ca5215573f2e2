use std::alloc::Global;
use std::test::Fail;
use vh_base::{CbNumber, HandleNo, MOST_FRAMES, NoMemory, ObjId, Object, Reason};
use vh_callbacks::{Registration, Registry};
use vh_dispatch::{Begun, Dispatch, dispatch_laws};

// What is done to the frames and to the registry. Objects are given by number.
enum Act {
    Register(u32),
    Remove(u64),
    Begin(u64, u32),
    BeginOne(u64, u64),
    Next(u32),
    Finish,
}

// What it answers: a number, or that a frame was made or not.
#[derive(Clone, Copy, Debug, PartialEq, Eq)]
enum Answer {
    Number(u64),
    Begun(Begun),
    None,
}

// An act, its answer, and then how many frames stand, and how many are to fire for the top one.
struct Row {
    act: Act,
    answer: Answer,
    frames: usize,
    choices: u32,
}

static ROWS: [Row; 22] = [
    Row {
        act: Act::Register(7),
        answer: Answer::Number(1),
        frames: 0,
        choices: 0,
    },
    Row {
        act: Act::Register(7),
        answer: Answer::Number(2),
        frames: 0,
        choices: 0,
    },
    Row {
        act: Act::Register(7),
        answer: Answer::Number(3),
        frames: 0,
        choices: 0,
    },
    Row {
        act: Act::Register(8),
        answer: Answer::Number(4),
        frames: 0,
        choices: 0,
    },
    Row {
        act: Act::Begin(1, 9),
        answer: Answer::Begun(Begun::Nothing),
        frames: 0,
        choices: 0,
    },
    Row {
        act: Act::Begin(1, 7),
        answer: Answer::Begun(Begun::Frame),
        frames: 1,
        choices: 3,
    },
    Row {
        act: Act::Next(1),
        answer: Answer::Number(2),
        frames: 1,
        choices: 2,
    },
    Row {
        act: Act::BeginOne(2, 4),
        answer: Answer::Begun(Begun::Frame),
        frames: 2,
        choices: 1,
    },
    Row {
        act: Act::Next(0),
        answer: Answer::Number(4),
        frames: 2,
        choices: 0,
    },
    Row {
        act: Act::Next(0),
        answer: Answer::None,
        frames: 2,
        choices: 0,
    },
    Row {
        act: Act::Begin(3, 7),
        answer: Answer::Begun(Begun::Frame),
        frames: 3,
        choices: 3,
    },
    // It goes from the top frame and from the lowest.
    Row {
        act: Act::Remove(3),
        answer: Answer::None,
        frames: 3,
        choices: 2,
    },
    // One that is registered now fires for none of them.
    Row {
        act: Act::Register(7),
        answer: Answer::Number(5),
        frames: 3,
        choices: 2,
    },
    Row {
        act: Act::Next(1),
        answer: Answer::Number(2),
        frames: 3,
        choices: 1,
    },
    Row {
        act: Act::Finish,
        answer: Answer::None,
        frames: 2,
        choices: 0,
    },
    Row {
        act: Act::Finish,
        answer: Answer::None,
        frames: 1,
        choices: 1,
    },
    Row {
        act: Act::Begin(4, 7),
        answer: Answer::Begun(Begun::Frame),
        frames: 2,
        choices: 3,
    },
    Row {
        act: Act::Next(2),
        answer: Answer::Number(5),
        frames: 2,
        choices: 2,
    },
    Row {
        act: Act::Finish,
        answer: Answer::None,
        frames: 1,
        choices: 1,
    },
    Row {
        act: Act::Next(0),
        answer: Answer::Number(1),
        frames: 1,
        choices: 0,
    },
    Row {
        act: Act::Finish,
        answer: Answer::None,
        frames: 0,
        choices: 0,
    },
    Row {
        act: Act::Finish,
        answer: Answer::None,
        frames: 0,
        choices: 0,
    },
];

fn object(id: u32) -> Option<Object> {
    Some(Object {
        id: ObjId::new(id),
        word: None,
    })
}

fn register(alloc: Global, registry: &mut Registry<u64>, id: u32) -> Answer {
    let registration = Registration {
        reason: Reason::CbValueChange,
        object: object(id),
        object_handle: None,
        me: HandleNo::new(9),
        time: 0,
        serial: None,
        user_data: 0,
    };
    match registry.register(alloc, registration, 0) {
        Ok(c) => Answer::Number(c.number()),
        Err(_) => Answer::None,
    }
}

// Makes a frame with one callback, if that is live and there is room.
fn begin_one(
    alloc: Global,
    dispatch: &mut Dispatch,
    registry: &mut Registry<u64>,
    n: u64,
    c: CbNumber,
) -> Result<Answer, NoMemory> {
    if dispatch.len() >= MOST_FRAMES || registry.callback(c).is_none() {
        return Ok(Answer::None);
    }
    dispatch.begin_one(alloc, registry, n, c)?;
    Ok(Answer::Begun(Begun::Frame))
}

fn perform(
    alloc: Global,
    dispatch: &mut Dispatch,
    registry: &mut Registry<u64>,
    act: &Act,
) -> Result<Answer, NoMemory> {
    match act {
        Act::Register(id) => Ok(register(alloc, registry, *id)),
        Act::Remove(c) => {
            registry.remove(CbNumber::new(*c));
            Ok(Answer::None)
        }
        Act::Begin(n, id) => {
            let begun = dispatch.begin(alloc, registry, *n, Reason::CbValueChange, object(*id))?;
            Ok(Answer::Begun(begun))
        }
        Act::BeginOne(n, c) => begin_one(alloc, dispatch, registry, *n, CbNumber::new(*c)),
        Act::Next(k) => match dispatch.next(registry, *k) {
            Some(c) => Ok(Answer::Number(c.number())),
            None => Ok(Answer::None),
        },
        Act::Finish => {
            dispatch.finish(registry);
            Ok(Answer::None)
        }
    }
}

#[test]
fn tells_each_frame_its_own(rt: HostRuntime) -> Result<(), Fail> {
    let alloc = rt.alloc();
    let mut registry = Registry::new(alloc);
    let mut dispatch = Dispatch::new(alloc).expect(&rt, "there is memory");
    for row in &ROWS {
        let answer = perform(alloc, &mut dispatch, &mut registry, &row.act).expect(
            &rt,
            "there is memory",
        );
        assert_eq!(rt; answer, row.answer);
        assert_eq!(rt; dispatch.len(), row.frames);
        assert_eq!(rt; dispatch.choices(&registry), row.choices);
    }
    assert!(rt; dispatch.is_empty());
    dispatch_laws::<u64>();
    Ok(())
}

// Tells an occurrence at object 7 so many times; how many frames that made.
fn fill(
    alloc: Global,
    dispatch: &mut Dispatch,
    registry: &mut Registry<u64>,
    count: u32,
) -> Result<u32, NoMemory> {
    let mut made = 0u32;
    for n in 0..count {
        let begun = dispatch.begin(alloc, registry, n as u64, Reason::CbValueChange, object(7))?;
        if begun == Begun::Frame {
            made = made.saturating_add(1);
        }
    }
    Ok(made)
}

#[test]
fn has_room_for_64(rt: HostRuntime) -> Result<(), Fail> {
    let alloc = rt.alloc();
    let mut registry = Registry::new(alloc);
    let mut dispatch = Dispatch::new(alloc).expect(&rt, "there is memory");
    register(alloc, &mut registry, 7);
    assert_eq!(rt;
        fill(alloc, &mut dispatch, &mut registry, 70).expect(&rt, "there is memory"),
        64
    );
    let deep = dispatch
        .begin(alloc, &mut registry, 65, Reason::CbValueChange, object(7))
        .expect(&rt, "there is memory");
    assert_eq!(rt; deep, Begun::TooDeep);
    let nothing = dispatch
        .begin(alloc, &mut registry, 65, Reason::CbValueChange, object(8))
        .expect(&rt, "there is memory");
    assert_eq!(rt; nothing, Begun::Nothing);
    assert_eq!(rt; dispatch.len(), 64);
    assert_eq!(rt; dispatch.choices(&registry), 1);
    dispatch.clear(&mut registry);
    assert_eq!(rt; dispatch.len(), 0);
    assert_eq!(rt; registry.marked(63), 0);
    assert_eq!(rt;
        fill(alloc, &mut dispatch, &mut registry, 1).expect(&rt, "there is memory"),
        1
    );
    Ok(())
}

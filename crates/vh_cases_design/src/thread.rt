ghost use Rattle.std.specs.Prelude.{◌≡◌};
ghost use Rattle.vh_design_nodes.specs.Fits.{has_body};
ghost use Rattle.vh_proc_thread.specs.Control.{Runs};

use std::alloc::Global;
use std::test::Fail;
use vh_base::{Boxed, NoMemory, ObjId, Place, ProcId, Sequence};
use vh_design::{
    Block, Code, Design, Detail, Goes, Instruction, Kind, Leave, Name, ObjectInfo, Operation,
    Parts, StmtInfo, StmtKind,
};
use vh_proc_thread::{CallFault, Thread};

// The objects of the design below.
const TOP: u32 = 0;

const OUTER: u32 = 1;

const INNER: u32 = 2;

const TASK: u32 = 3;

const EMPTY: u32 = 4;

// Its statements: those of the process by place, and from here those of the task.
const OF_TASK: u32 = 10;

fn object(alloc: Global, kind: Kind, parent: u32, detail: Detail) -> Result<ObjectInfo, NoMemory> {
    Ok(ObjectInfo {
        kind,
        name: Name::from_slice(alloc, b"x")?,
        parent: (kind != Kind::Module).then_some(ObjId::new(parent)),
        width: 1,
        signed: false,
        words: 0,
        line: 1,
        detail,
    })
}

fn instruction(stmt: u32, next: Goes, block: Option<u32>) -> Instruction {
    Instruction {
        operation: Operation::End,
        next,
        stmt: Some(stmt),
        block,
        first: true,
    }
}

// The end of a call without outputs.
fn leave(
    alloc: Global,
    stmt: u32,
    next: Goes,
    block: Option<u32>,
) -> Result<Instruction, NoMemory> {
    let without_outputs = Leave {
        outputs: Sequence::new(Vec::new(alloc)),
        result: None,
    };
    let mut end = instruction(stmt, next, block);
    end.operation = Operation::Leave(Boxed::new(alloc, without_outputs)?);
    Ok(end)
}

fn block(object: u32, around: Option<u32>) -> Block {
    Block {
        object: ObjId::new(object),
        around,
        after: Goes::To(3),
    }
}

fn statement() -> StmtInfo {
    StmtInfo {
        kind: StmtKind::Assignment,
        scope: ObjId::new(TOP),
        place: Place {
            file: 1,
            line: 1,
            column: 1,
        },
    }
}

// initial begin begin : outer task; begin : inner S2 end end S3 end
fn process(alloc: Global) -> Result<Code, NoMemory> {
    let mut instructions = Vec::new(alloc);
    instructions.push(instruction(0, Goes::To(1), Some(0)))?;
    instructions.push(leave(alloc, 1, Goes::To(2), Some(0))?)?;
    instructions.push(instruction(2, Goes::To(3), Some(1)))?;
    instructions.push(instruction(3, Goes::Back, None))?;
    let mut blocks = Vec::new(alloc);
    blocks.push(block(OUTER, None))?;
    blocks.push(block(INNER, Some(0)))?;
    Ok(Code {
        start: Goes::To(0),
        instructions: Sequence::new(instructions),
        blocks: Sequence::new(blocks),
    })
}

// task task; task; endtask
fn body(alloc: Global) -> Result<Code, NoMemory> {
    let mut instructions = Vec::new(alloc);
    instructions.push(instruction(OF_TASK, Goes::To(1), None))?;
    instructions.push(instruction(OF_TASK + 1, Goes::Back, None))?;
    Ok(Code {
        start: Goes::To(0),
        instructions: Sequence::new(instructions),
        blocks: Sequence::new(Vec::new(alloc)),
    })
}

// task empty; endtask
fn nothing(alloc: Global) -> Code {
    Code {
        start: Goes::Back,
        instructions: Sequence::new(Vec::new(alloc)),
        blocks: Sequence::new(Vec::new(alloc)),
    }
}

fn design(alloc: Global) -> Result<Option<Design>, NoMemory> {
    let name = Name::from_slice(alloc, b"top")?;
    let mut objects = Vec::new(alloc);
    objects.push(object(alloc, Kind::Module, TOP, Detail::Module(name))?)?;
    objects.push(object(alloc, Kind::NamedBegin, TOP, Detail::Plain)?)?;
    objects.push(object(alloc, Kind::NamedBegin, OUTER, Detail::Plain)?)?;
    objects.push(object(alloc, Kind::Task, TOP, Detail::Routine(0))?)?;
    objects.push(object(alloc, Kind::Task, TOP, Detail::Routine(1))?)?;
    let mut codes = Vec::new(alloc);
    codes.push(process(alloc)?)?;
    let mut bodies = Vec::new(alloc);
    bodies.push(body(alloc)?)?;
    bodies.push(nothing(alloc))?;
    let stmts = vec![in alloc; statement(); 12]?;
    Ok(Design::build(Parts {
        objects,
        exprs: Vec::new(alloc),
        drivers: Vec::new(alloc),
        codes,
        bodies,
        waits: Vec::new(alloc),
        shows: Vec::new(alloc),
        stmts,
        precision: 0,
    }))
}

// What a test does to a thread.
#[derive(Clone, Copy)]
enum Does {
    Goes(Goes),
    Calls(u32),
    Repeats(Option<u32>, u64),
    Turns,
    Disables(u32),
    IsDisabled(u32),
    Forks(u32),
}

use Does::{Calls, Disables, Forks, IsDisabled, Repeats, Turns};

fn has_body(d: &Design, t: ObjId) -> bool
    ensures { result ≡ has_body (d.now).objects t }
{
    t.number() < d.counts().objects && d.object(t).detail.body().is_some()
}

// Does this to a thread by a label of its own, but for a disable by another thread, and answers what it
// answers: whether a call was begun, a turn taken, or the thread inside what is disabled.
fn perform(alloc: Global, d: &Design, thread: &mut Thread, action: Does) -> Result<bool, NoMemory>
    requires { Runs d.now thread.old }
    ensures { Runs d.now thread.new }
{
    if !matches!(action, IsDisabled(_)) {
        thread.arrive(d);
    }
    match action {
        Does::Goes(goes) => thread.go_on(goes),
        Calls(routine) => {
            let routine = ObjId::new(routine);
            if !has_body(d, routine) {
                return Ok(false);
            }
            match thread.call(d, routine) {
                Ok(()) => {}
                Err(CallFault::TooDeep) => return Ok(false),
                Err(CallFault::NoMemory) => return Err(NoMemory),
            }
        }
        Repeats(block, left) => thread.begin_repeat(block, left)?,
        Turns => return Ok(thread.take_turn()),
        Disables(target) | IsDisabled(target) => {
            let target = ObjId::new(target);
            let inside = thread.is_inside(d, target);
            thread.disable(d, target);
            return Ok(inside);
        }
        Forks(place) => {
            let branch = thread.branch(alloc, place)?;
            *thread = branch;
        }
    }
    Ok(true)
}

// The last answer after all this, and the statement at which the thread stands then.
fn after(alloc: Global, d: &Design, actions: &[Does]) -> Result<(bool, Option<u32>), NoMemory> {
    if d.counts().processes == 0 {
        return Ok((false, None));
    }
    let mut thread = Thread::of_process(alloc, d, ProcId::new(0))?;
    let mut last = true;
    for action in actions {
        last = perform(alloc, d, &mut thread, *action)?;
    }
    Ok((last, thread.next(d).and_then(|at| at.stmt)))
}

// Where a thread goes on, and how it calls and repeats.
#[test]
fn goes_calls_and_repeats(rt: HostRuntime) -> Result<(), Fail> {
    let alloc = rt.alloc();
    let d = design(alloc)?.expect(&rt, "every rule is kept");
    let to = |place| Does::Goes(Goes::To(place));
    let back = Does::Goes(Goes::Back);
    let rows: [(&[Does], (bool, Option<u32>)); 18] = [
        (&[], (true, Some(0))),
        (&[to(2)], (true, Some(2))),
        (&[back], (true, None)),
        (&[Calls(TASK)], (true, Some(10))),
        (&[Calls(TASK), to(1)], (true, Some(11))),
        (&[Calls(TASK), back], (true, Some(1))),
        (&[Calls(TASK), Calls(TASK), back], (true, Some(11))),
        (&[Calls(TASK), Calls(TASK), back, back], (true, Some(1))),
        (&[Calls(EMPTY)], (true, Some(1))),
        (&[Calls(TASK), Calls(EMPTY)], (true, Some(11))),
        (&[Turns], (false, Some(0))),
        (&[Repeats(None, 0), Turns], (false, Some(0))),
        (&[Repeats(None, 2), Turns, Turns], (true, Some(0))),
        (&[Repeats(None, 2), Turns, Turns, Turns], (false, Some(0))),
        (
            &[Repeats(None, 1), Repeats(None, 0), Turns],
            (false, Some(0)),
        ),
        (
            &[Repeats(None, 1), Repeats(None, 0), Turns, Turns],
            (true, Some(0)),
        ),
        (&[Forks(3)], (true, Some(3))),
        (&[Calls(TASK), Forks(1)], (true, Some(11))),
    ];
    for (actions, answer) in rows {
        assert!(rt; after(alloc, &d, actions)? == answer);
    }
    Ok(())
}

// A block or task that is disabled is left from anywhere inside, with the calls and repeats in it.
#[test]
fn disables(rt: HostRuntime) -> Result<(), Fail> {
    let alloc = rt.alloc();
    let d = design(alloc)?.expect(&rt, "every rule is kept");
    let to = |place| Does::Goes(Goes::To(place));
    let back = Does::Goes(Goes::Back);
    let rows: [(&[Does], (bool, Option<u32>)); 24] = [
        // By another thread: one that hasn't begun is in no block, and one that waits is where it waits.
        (&[IsDisabled(OUTER)], (false, Some(0))),
        (&[to(2), IsDisabled(INNER)], (false, Some(2))),
        (&[to(2), IsDisabled(OUTER)], (true, Some(3))),
        (&[to(3), IsDisabled(OUTER)], (true, Some(3))),
        (&[to(2), to(3), IsDisabled(INNER)], (true, Some(3))),
        (
            &[to(2), to(2), IsDisabled(INNER), IsDisabled(INNER)],
            (false, Some(3)),
        ),
        // By itself.
        (&[Disables(INNER)], (false, Some(0))),
        (&[to(2), Disables(INNER)], (true, Some(3))),
        (&[to(2), Disables(OUTER)], (true, Some(3))),
        (&[to(3), Disables(OUTER)], (false, Some(3))),
        (&[Calls(TASK), Disables(OUTER)], (true, Some(3))),
        (&[Calls(TASK), Disables(INNER)], (false, Some(10))),
        (&[Disables(TASK)], (false, Some(0))),
        (&[Calls(TASK), Disables(TASK)], (true, Some(2))),
        (&[Calls(TASK), Calls(TASK), Disables(TASK)], (true, Some(2))),
        // A task whose last label waits is left with the next label alone.
        (&[Calls(TASK), back, IsDisabled(TASK)], (true, Some(2))),
        (
            &[Calls(TASK), Calls(TASK), back, back, IsDisabled(TASK)],
            (true, Some(2)),
        ),
        (
            &[Calls(TASK), back, to(2), IsDisabled(TASK)],
            (false, Some(2)),
        ),
        (
            &[Calls(TASK), to(1), Calls(TASK), Disables(TASK)],
            (true, Some(2)),
        ),
        (&[to(2), Forks(2), Disables(INNER)], (true, Some(3))),
        (
            &[
                Repeats(None, 1),
                Repeats(Some(0), 9),
                to(2),
                Disables(OUTER),
                Turns,
            ],
            (true, Some(3)),
        ),
        (
            &[
                Repeats(None, 1),
                Repeats(Some(0), 9),
                to(2),
                Disables(OUTER),
                Turns,
                Turns,
            ],
            (false, Some(3)),
        ),
        (
            &[
                Repeats(Some(0), 1),
                to(2),
                Repeats(Some(1), 9),
                Disables(INNER),
                Turns,
                Turns,
            ],
            (false, Some(3)),
        ),
        (
            &[
                Repeats(Some(0), 1),
                Calls(TASK),
                Repeats(None, 9),
                Disables(TASK),
                Turns,
                Turns,
            ],
            (false, Some(2)),
        ),
    ];
    for (actions, answer) in rows {
        assert!(rt; after(alloc, &d, actions)? == answer);
    }
    Ok(())
}

// How many further calls of the task a thread begins, up to 300.
fn calls_left(alloc: Global, d: &Design, thread: &mut Thread) -> Result<u32, NoMemory>
    requires { Runs d.now thread.old }
    ensures { Runs d.now thread.new }
{
    for k in 0..300 {
        if !perform(alloc, d, thread, Calls(TASK))? {
            return Ok(k);
        }
    }
    Ok(300)
}

// The 257th nested call is refused, and a branch counts those around its fork.
#[test]
fn nested_calls(rt: HostRuntime) -> Result<(), Fail> {
    let alloc = rt.alloc();
    let d = design(alloc)?.expect(&rt, "every rule is kept");
    assert!(rt; d.counts().processes > 0);
    let mut thread = Thread::of_process(alloc, &d, ProcId::new(0))?;
    assert_eq!(rt; calls_left(alloc, &d, &mut thread)?, 256);
    thread.go_on(Goes::Back);
    thread.arrive(&d);
    let mut branch = thread.branch(alloc, 0)?;
    assert_eq!(rt; calls_left(alloc, &d, &mut branch)?, 1);
    Ok(())
}

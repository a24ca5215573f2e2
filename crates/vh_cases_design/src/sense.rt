ghost use Rattle.std.specs.Prelude.{◌≤◌, ◌<◌, length, IfOk};

use std::alloc::Global;
use std::process::Abort;
use std::test::Fail;
use vh_base::{ExprId, NoMemory, ObjId, Object, ProcId, Sequence, WaitId};
use vh_design::{
    Change, Chosen, Code, Design, Detail, Edge, ExprKind, ExprNode, Goes, Instruction, Kind, Link,
    Logic, Name, ObjectInfo, Operation, Parts, Range, Select, Selected, Single, Term, WaitInfo,
};
use vh_logic::{Digit, Vec4};
use vh_sense::{Follow, Sense, sense_laws};

// The objects of the design below: reg [3:0] q, r; reg m [0:1]; event e.
const Q: u32 = 1;

const R: u32 = 2;

const M: u32 = 3;

const E: u32 = 4;

fn object(alloc: Global, kind: Kind, width: u32, words: u32) -> Result<ObjectInfo, NoMemory> {
    Ok(ObjectInfo {
        kind,
        name: Name::from_slice(alloc, b"x")?,
        parent: None,
        width,
        signed: false,
        words,
        line: 1,
        detail: Detail::Plain,
    })
}

fn selected(object: u32, word: Option<u32>, select: Select) -> ExprKind {
    let of = Chosen {
        object: ObjId::new(object),
        word: word.map(|e| ExprId::new(e)),
    };
    ExprKind::Selected(Selected { of, select })
}

fn node(kind: ExprKind, width: u32) -> ExprNode {
    ExprNode {
        kind,
        width,
        signed: false,
    }
}

// 0: q; 1: m[q]; 2: r && m[q]; 3: q[q]
fn exprs(alloc: Global) -> Result<Vec<ExprNode>, NoMemory> {
    let mut all = Vec::new(alloc);
    all.push(node(selected(Q, None, Select::Whole), 4))?;
    all.push(node(selected(M, Some(0), Select::Whole), 1))?;
    all.push(node(selected(R, None, Select::Whole), 4))?;
    let link = Link {
        op: Logic::And,
        part: ExprId::new(1),
    };
    let both = ExprKind::Logic {
        first: ExprId::new(2),
        rest: Sequence::from_slice(alloc, &[link])?,
    };
    all.push(node(both, 1))?;
    let index = ExprId::new(0);
    let range = Range { left: 3, right: 0 };
    all.push(node(selected(Q, None, Select::Bit { range, index }), 1))?;
    Ok(all)
}

fn force(object: u32, value: u32) -> Single {
    Single::Force {
        object: ObjId::new(object),
        value: ExprId::new(value),
    }
}

fn procedural(object: u32, value: u32) -> Single {
    Single::Procedural {
        object: ObjId::new(object),
        value: ExprId::new(value),
    }
}

// A process of these statements and an end.
fn process(alloc: Global, statements: &[Single]) -> Result<Code, NoMemory> {
    let mut instructions = Vec::new(alloc);
    for single in statements {
        instructions.push(instruction(Operation::Single(*single)))?;
    }
    instructions.push(instruction(Operation::End))?;
    Ok(Code {
        start: Goes::To(0),
        instructions: Sequence::new(instructions),
        blocks: Sequence::new(Vec::new(alloc)),
    })
}

fn instruction(operation: Operation) -> Instruction {
    Instruction {
        operation,
        next: Goes::To(0),
        stmt: None,
        block: None,
        first: true,
    }
}

fn digits(object: u32, low: u32, width: u32, edge: Edge) -> Term {
    Term::Digits {
        object: ObjId::new(object),
        low,
        width,
        edge,
    }
}

fn wait(alloc: Global, terms: &[Term]) -> Result<WaitInfo, NoMemory> {
    Ok(WaitInfo {
        terms: Sequence::from_slice(alloc, terms)?,
    })
}

// 0: @(posedge q), 1: @(negedge q), 2: @q[2:1], 3: @(r or posedge q), 4: @* reading m and r,
// 5: @e, 6: a select past the highest digit
fn waits(alloc: Global) -> Result<Vec<WaitInfo>, NoMemory> {
    let mut all = Vec::new(alloc);
    all.push(wait(alloc, &[digits(Q, 0, 4, Edge::Rising)])?)?;
    all.push(wait(alloc, &[digits(Q, 0, 4, Edge::Falling)])?)?;
    all.push(wait(alloc, &[digits(Q, 1, 2, Edge::Any)])?)?;
    let terms = [digits(R, 0, 4, Edge::Any), digits(Q, 0, 4, Edge::Rising)];
    all.push(wait(alloc, &terms)?)?;
    let terms = [Term::Reads(ObjId::new(M)), Term::Reads(ObjId::new(R))];
    all.push(wait(alloc, &terms)?)?;
    all.push(wait(alloc, &[Term::Event(ObjId::new(E))])?)?;
    all.push(wait(alloc, &[digits(Q, 4, 2, Edge::Any)])?)?;
    Ok(all)
}

fn parts(alloc: Global) -> Result<Parts, NoMemory> {
    let mut objects = Vec::new(alloc);
    objects.push(object(alloc, Kind::Module, 1, 0)?)?;
    objects.push(object(alloc, Kind::Reg, 4, 0)?)?;
    objects.push(object(alloc, Kind::Reg, 4, 0)?)?;
    objects.push(object(alloc, Kind::Memory, 1, 2)?)?;
    objects.push(object(alloc, Kind::NamedEvent, 1, 0)?)?;
    let mut codes = Vec::new(alloc);
    codes.push(process(alloc, &[force(R, 3), procedural(R, 1), force(Q, 1)])?)?;
    codes.push(process(alloc, &[procedural(Q, 3), force(Q, 4), force(Q, 1)])?)?;
    Ok(Parts {
        objects,
        exprs: exprs(alloc)?,
        drivers: Vec::new(alloc),
        codes,
        bodies: Vec::new(alloc),
        waits: waits(alloc)?,
        shows: Vec::new(alloc),
        stmts: Vec::new(alloc),
        precision: 9,
    })
}

fn design(alloc: Global) -> Result<Option<Design>, NoMemory> {
    let parts = parts(alloc)?;
    if parts.objects.len() > 99 || parts.exprs.len() > 99 || parts.drivers.len() > 99 {
        return Ok(None);
    }
    if parts.codes.len() > 99 || parts.bodies.len() > 99 || parts.waits.len() > 99 {
        return Ok(None);
    }
    if parts.shows.len() > 99 || parts.stmts.len() > 99 {
        return Ok(None);
    }
    Ok(Design::build(parts))
}

// A change from these digits to those, the highest first.
fn change(id: u32, word: Option<u32>, old: [Digit; 4], new: [Digit; 4]) -> Change {
    Change {
        object: Object {
            id: ObjId::new(id),
            word,
        },
        old: vector(old),
        new: vector(new),
    }
}

fn vector(digits: [Digit; 4]) -> Vec4 {
    let mut aval = 0;
    let mut bval = 0;
    for digit in digits {
        let (a, b) = match digit {
            Digit::Zero => (0, 0),
            Digit::One => (1, 0),
            Digit::Z => (0, 1),
            Digit::X => (1, 1),
        };
        aval = (aval << 1) | a;
        bval = (bval << 1) | b;
    }
    Vec4::from_planes(4, aval, bval, false)
}

const O: Digit = Digit::Zero;

const I: Digit = Digit::One;

const X: Digit = Digit::X;

const Z: Digit = Digit::Z;

// The processes that a change wakes, one after another, as the digits of a number from the left.
fn woken(sense: &mut Sense, c: &Change) -> u64 {
    let mut all = 0u64;
    let mut after = None;
    for _ in 0..9 {
        let Some(p) = sense.next_woken(c, after) else {
            return all;
        };
        all = all.saturating_mul(10).saturating_add(p.number());
        after = Some(p);
    }
    all
}

// A process waits for one of the seven waits.
fn waits_for(sense: &mut Sense, p: u64, w: u32) -> Result<(), NoMemory>
    requires there { w < 7 }
    requires all { 7 ≤ length sense.old.waits }
    ensures { 7 ≤ length sense.new.waits }
{
    sense.wait(ProcId::new(p), WaitId::new(w))
}

// Process 1 waits for wait 0, and so on up to process 7, the last first.
fn all_wait(sense: &mut Sense) -> Result<(), NoMemory>
    requires { 7 ≤ length sense.old.waits }
    ensures { 7 ≤ length sense.new.waits }
{
    waits_for(sense, 7, 6)?;
    waits_for(sense, 6, 5)?;
    waits_for(sense, 5, 4)?;
    waits_for(sense, 4, 3)?;
    waits_for(sense, 3, 2)?;
    waits_for(sense, 2, 1)?;
    waits_for(sense, 1, 0)
}

fn opened(alloc: Global, d: &Design) -> Result<Sense, NoMemory>
    requires { 7 ≤ length d.now.waits }
    ensures { IfOk result (λ s. 7 ≤ length s.waits) }
{
    Sense::new(alloc, d)
}

// Whom a change wakes of the seven processes; then nobody is left that it meets.
fn wakes(alloc: Global, d: &Design, c: &Change) -> Result<Option<u64>, NoMemory> {
    if d.counts().waits < 7 {
        return Ok(None);
    }
    let mut sense = opened(alloc, d)?;
    all_wait(&mut sense)?;
    let all = woken(&mut sense, c);
    if sense.next_woken(c, None).is_some() {
        return Ok(None);
    }
    Ok(Some(all))
}

// Each change of q, r, the memory and the event, and whom it wakes (IEEE 1364-2005, 9.7.2 to 9.7.5). The
// digits stand from the highest to the lowest.
#[test]
fn changes_wake(rt: HostRuntime) -> Result<(), Fail> {
    let alloc = rt.alloc();
    let Some(d) = design(alloc)? else {
        rt.abort();
    };
    let rows = [
        (Q, None, [O, O, O, O], [O, O, O, I], 14),
        (Q, None, [O, O, O, O], [O, O, O, X], 14),
        (Q, None, [O, O, O, O], [O, O, O, Z], 14),
        (Q, None, [O, O, O, X], [O, O, O, I], 14),
        (Q, None, [O, O, O, Z], [O, O, O, I], 14),
        (Q, None, [O, O, O, I], [O, O, O, O], 2),
        (Q, None, [O, O, O, I], [O, O, O, X], 2),
        (Q, None, [O, O, O, I], [O, O, O, Z], 2),
        (Q, None, [O, O, O, X], [O, O, O, O], 2),
        (Q, None, [O, O, O, Z], [O, O, O, O], 2),
        (Q, None, [O, O, O, X], [O, O, O, Z], 0),
        (Q, None, [O, O, O, O], [O, O, I, O], 3),
        (Q, None, [O, Z, O, O], [O, X, O, O], 3),
        (Q, None, [O, O, O, O], [I, O, O, O], 0),
        (Q, None, [I, I, I, O], [I, O, O, I], 134),
        (Q, None, [O, O, O, I], [O, I, I, O], 23),
        (R, None, [O, O, O, O], [I, O, O, O], 45),
        (M, Some(1), [O, O, O, O], [O, O, O, I], 5),
        (E, None, [X, X, X, X], [X, X, X, X], 6),
    ];
    for (id, word, old, new, expected) in rows {
        let c = change(id, word, old, new);
        assert!(rt; wakes(alloc, &d, &c)? == Some(expected));
    }
    Ok(())
}

// A wait takes the place of another; a process that is forgotten isn't woken; those above one are asked for.
#[test]
fn waits_come_and_go(rt: HostRuntime) -> Result<(), Fail> {
    let alloc = rt.alloc();
    let Some(d) = design(alloc)? else {
        rt.abort();
    };
    if d.counts().waits < 7 {
        rt.abort();
    }
    let mut sense = opened(alloc, &d)?;
    all_wait(&mut sense)?;
    waits_for(&mut sense, 1, 5)?;
    sense.forget(ProcId::new(6));
    let event = change(E, None, [X, X, X, X], [X, X, X, X]);
    let edge = change(Q, None, [O, O, O, O], [O, O, O, I]);
    assert!(rt; woken(&mut sense, &edge) == 4);
    assert!(rt; woken(&mut sense, &event) == 1);
    let mut sense = opened(alloc, &d)?;
    waits_for(&mut sense, 9, 0)?;
    waits_for(&mut sense, 8, 0)?;
    let first = sense.next_woken(&edge, Some(ProcId::new(8)));
    assert!(rt; first.map(|p| p.number()) == Some(9));
    assert!(rt; woken(&mut sense, &edge) == 8);
    sense_laws();
    Ok(())
}

// The statements that follow a change, one after another: the object, 1 for a force, and the expression.
fn follows(sense: &Sense, c: &Change, expected: &[(u32, bool, u32)]) -> bool {
    let mut after = None;
    for (object, force, expr) in expected {
        let follow = Follow {
            object: ObjId::new(*object),
            force: *force,
            expr: ExprId::new(*expr),
        };
        let next = sense.next_follow(c, after);
        if next != Some(follow) {
            return false;
        }
        after = next;
    }
    sense.next_follow(c, after).is_none()
}

// force r = r && m[q]; assign r = m[q]; force q = m[q]; and assign q = r && m[q]; force q = q[q];
// force q = m[q]; by what they read.
#[test]
fn statements_follow(rt: HostRuntime) -> Result<(), Fail> {
    let alloc = rt.alloc();
    let Some(d) = design(alloc)? else {
        rt.abort();
    };
    let sense = Sense::new(alloc, &d)?;
    let of = |id, word| change(id, word, [O, O, O, O], [O, O, O, I]);
    let by_q = [
        (Q, true, 1),
        (Q, true, 4),
        (Q, false, 3),
        (R, true, 3),
        (R, false, 1),
    ];
    assert!(rt; follows(&sense, &of(Q, None), &by_q));
    assert!(rt; follows(&sense, &of(R, None), &[(Q, false, 3), (R, true, 3)]));
    let by_m = [(Q, true, 1), (Q, false, 3), (R, true, 3), (R, false, 1)];
    assert!(rt; follows(&sense, &of(M, Some(0)), &by_m));
    assert!(rt; follows(&sense, &of(E, None), &[]));
    Ok(())
}

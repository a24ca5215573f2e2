use crate::statements::{Run, built, code, delay, node, object, shown};
use std::alloc::Global;
use std::test::Fail;
use vh_base::{Boxed, Bytes, DriverId, ExprId, NoMemory, ObjId, Object, Sequence, ShowId, WaitId};
use vh_design::{
    Chosen, Detail, Drive, DriverInfo, ExprKind, ExprNode, Kind, NetType, ObjectInfo, Operation,
    Parts, Pause, Select, Selected, ShowArg, ShowCall, ShowTask, Single, Term, WaitInfo,
};
use vh_logic::{Digit, Vec4};
use vh_proc_simulation::StepFault;
use vh_queue::Work;

// Designs of three variables and a net that follows one of them:
//
//   module top; reg a, b, d; wire w; assign w = d;
//   initial begin .. end
//   endmodule
const A: u32 = 1;

const B: u32 = 2;

const D: u32 = 3;

const W: u32 = 4;

// Their values, behind the numbers 0 and 1.
const ZERO: u32 = 0;

const ONE: u32 = 1;

const READ_A: u32 = 2;

const READ_B: u32 = 3;

const READ_D: u32 = 4;

const READ_W: u32 = 5;

const UNDRIVEN: u32 = 6;

fn objects(alloc: Global) -> Result<Vec<ObjectInfo>, NoMemory> {
    let mut all = Vec::new(alloc);
    all.push(object(alloc, Kind::Module, Detail::Plain)?)?;
    for _ in 0..3 {
        all.push(object(alloc, Kind::Reg, Detail::Plain)?)?;
    }
    all.push(object(alloc, Kind::Net, Detail::Net(NetType::Wire))?)?;
    Ok(all)
}

fn whole(o: u32) -> Selected {
    Selected {
        of: Chosen {
            object: ObjId::new(o),
            word: None,
        },
        select: Select::Whole,
    }
}

fn exprs(alloc: Global, objects: &[ObjectInfo]) -> Result<Vec<ExprNode>, NoMemory> {
    let mut all: Vec<ExprNode> = Vec::new(alloc);
    for number in [0, 1] {
        all.push(node(
            &all,
            objects,
            ExprKind::Literal(Vec4::from_planes(32, number, 0, true)),
        ))?;
    }
    for o in [A, B, D, W] {
        all.push(node(&all, objects, ExprKind::Selected(whole(o))))?;
    }
    let z = Vec4::filled(1, Digit::Z, false);
    all.push(node(&all, objects, ExprKind::Literal(z)))?;
    Ok(all)
}

// `assign w = d`, whose process is the first.
fn drive(alloc: Global) -> Result<Operation, NoMemory> {
    let drive = Drive {
        drivers: Sequence::from_slice(alloc, &[DriverId::new(0)])?,
        value: ExprId::new(READ_D),
        delay: None,
        wait: WaitId::new(0),
    };
    Ok(Operation::Drive(Boxed::new(alloc, drive)?))
}

// A statement of the second process.
#[derive(Clone, Copy)]
enum Does {
    Takes(u32, u32),
    Forces(u32, u32),
    Releases(u32),
    Assigns(u32, u32),
    Deassigns(u32),
    // `#1`
    Waits,
    // `$display("%b%b", a, w)`
    ShowsBoth,
    // `$display("%b", a)`
    Shows,
}

fn operation(alloc: Global, does: Does) -> Result<Operation, NoMemory> {
    Ok(match does {
        Does::Takes(o, e) => Operation::Assign {
            value: ExprId::new(e),
            targets: Sequence::from_slice(alloc, &[whole(o)])?,
        },
        Does::Forces(o, e) => Operation::Single(Single::Force {
            object: ObjId::new(o),
            value: ExprId::new(e),
        }),
        Does::Releases(o) => Operation::Single(Single::Release(ObjId::new(o))),
        Does::Assigns(o, e) => Operation::Single(Single::Procedural {
            object: ObjId::new(o),
            value: ExprId::new(e),
        }),
        Does::Deassigns(o) => Operation::Single(Single::Deassign(ObjId::new(o))),
        Does::Waits => Operation::Pause(Pause::Wait(delay(1))),
        Does::ShowsBoth => Operation::Single(Single::Show(ShowId::new(0))),
        Does::Shows => Operation::Single(Single::Show(ShowId::new(1))),
    })
}

fn show(alloc: Global, format: &[u8], exprs: &[u32]) -> Result<ShowCall, NoMemory> {
    let mut args = Vec::new(alloc);
    args.push(ShowArg::Format(Bytes::from_slice(alloc, format)?))?;
    for e in exprs {
        args.push(ShowArg::Value(ExprId::new(*e)))?;
    }
    Ok(ShowCall {
        task: ShowTask::Display,
        scope: ObjId::new(0),
        unit: 9,
        args: Sequence::new(args),
    })
}

fn parts(alloc: Global, statements: &[Does]) -> Result<Parts, NoMemory> {
    let objects = objects(alloc)?;
    let exprs = exprs(alloc, &objects)?;
    let mut drivers = Vec::new(alloc);
    drivers.push(DriverInfo {
        object: ObjId::new(W),
        low: 0,
        below: 0,
        width: 1,
    })?;
    let mut first = Vec::new(alloc);
    first.push(drive(alloc)?)?;
    let mut second = Vec::new(alloc);
    for does in statements {
        second.push(operation(alloc, *does)?)?;
    }
    second.push(Operation::End)?;
    let mut codes = Vec::new(alloc);
    codes.push(code(alloc, first)?)?;
    codes.push(code(alloc, second)?)?;
    let mut waits = Vec::new(alloc);
    waits.push(WaitInfo {
        terms: Sequence::from_slice(alloc, &[Term::Reads(ObjId::new(D))])?,
    })?;
    let mut shows = Vec::new(alloc);
    shows.push(show(alloc, b"%b%b", &[READ_A, READ_W])?)?;
    shows.push(show(alloc, b"%b", &[READ_A])?)?;
    Ok(Parts {
        objects,
        exprs,
        drivers,
        codes,
        bodies: Vec::new(alloc),
        waits,
        shows,
        stmts: Vec::new(alloc),
        precision: 9,
    })
}

fn joined(alloc: Global, lines: &[(u64, Bytes)]) -> Result<Bytes, NoMemory> {
    let mut all = Vec::new(alloc);
    for (_, line) in lines {
        for byte in line.as_slice() {
            all.push(*byte)?;
        }
    }
    Ok(Sequence::new(all))
}

// What statements show, line for line.
fn text(alloc: Global, statements: &[Does]) -> Result<Bytes, StepFault> {
    let Some(d) = built(parts(alloc, statements)?) else {
        return Ok(Sequence::new(Vec::new(alloc)));
    };
    let lines = shown(alloc, d)?;
    Ok(joined(alloc, &lines)?)
}

fn is_text(alloc: Global, statements: &[Does], expected: &[u8]) -> bool {
    match text(alloc, statements) {
        Ok(text) => text.as_slice() == expected,
        Err(_) => false,
    }
}

// An assign under a force isn't shown; a release falls back to it, and of a net to its drivers; the value of an assign
// is kept behind it, and so is that of a force where there is no assign.
#[test]
fn a_release_falls_back(rt: HostRuntime) -> Result<(), Fail> {
    let statements = [
        Does::Takes(D, ZERO),
        Does::Takes(A, ZERO),
        Does::Assigns(A, ONE),
        Does::Forces(A, ZERO),
        Does::Forces(W, ONE),
        Does::Waits,
        Does::ShowsBoth,
        Does::Releases(A),
        Does::Releases(W),
        Does::ShowsBoth,
        Does::Deassigns(A),
        Does::Takes(A, ZERO),
        Does::Shows,
        Does::Forces(A, ONE),
        Does::Releases(A),
        Does::Shows,
    ];
    assert!(rt; is_text(rt.alloc(), &statements, b"01\n10\n0\n1\n"));
    Ok(())
}

// A force follows its operand, also where an assign stands below it.
#[test]
fn a_force_follows_its_operand(rt: HostRuntime) -> Result<(), Fail> {
    let statements = [
        Does::Takes(A, ONE),
        Does::Takes(B, ZERO),
        Does::Forces(A, READ_B),
        Does::Waits,
        Does::Shows,
        Does::Takes(B, ONE),
        Does::Shows,
        Does::Waits,
        Does::Shows,
        Does::Assigns(A, ZERO),
        Does::Takes(B, ZERO),
        Does::Takes(B, ONE),
        Does::Waits,
        Does::Shows,
        Does::Releases(A),
        Does::Shows,
        Does::Takes(B, ZERO),
        Does::Deassigns(A),
        Does::Waits,
        Does::Shows,
    ];
    assert!(rt; is_text(rt.alloc(), &statements, b"0\n0\n1\n1\n0\n0\n"));
    Ok(())
}

// An assign follows its operand, under a force without being shown.
#[test]
fn an_assign_follows_its_operand(rt: HostRuntime) -> Result<(), Fail> {
    let statements = [
        Does::Takes(A, ONE),
        Does::Takes(B, ZERO),
        Does::Assigns(A, READ_B),
        Does::Shows,
        Does::Takes(B, ONE),
        Does::Waits,
        Does::Shows,
        Does::Forces(A, ONE),
        Does::Takes(B, ZERO),
        Does::Waits,
        Does::Shows,
        Does::Releases(A),
        Does::Shows,
        Does::Takes(B, ONE),
        Does::Deassigns(A),
        Does::Waits,
        Does::Shows,
    ];
    assert!(rt; is_text(rt.alloc(), &statements, b"0\n1\n1\n0\n0\n"));
    Ok(())
}

// A force that is in the place of another follows its own operand alone; a net's follows until its release.
#[test]
fn the_force_in_place_is_followed(rt: HostRuntime) -> Result<(), Fail> {
    let statements = [
        Does::Takes(A, ZERO),
        Does::Takes(B, ZERO),
        Does::Takes(D, ZERO),
        Does::Forces(W, READ_A),
        Does::Forces(W, READ_B),
        Does::Takes(A, ONE),
        Does::Waits,
        Does::ShowsBoth,
        Does::Takes(B, ONE),
        Does::Waits,
        Does::ShowsBoth,
        Does::Takes(B, ZERO),
        Does::Releases(W),
        Does::Waits,
        Does::ShowsBoth,
        Does::Takes(D, ONE),
        Does::Waits,
        Does::ShowsBoth,
    ];
    assert!(rt; is_text(rt.alloc(), &statements, b"10\n11\n10\n11\n"));
    Ok(())
}

// The same, where an object gets a put of 1 once this time has come.
fn text_with_put(alloc: Global, statements: &[Does], o: u32, at: u64) -> Result<Bytes, StepFault> {
    let Some(d) = built(parts(alloc, statements)?) else {
        return Ok(Sequence::new(Vec::new(alloc)));
    };
    let mut run = Run::new(alloc, d)?;
    let object = Object {
        id: ObjId::new(o),
        word: None,
    };
    let put = Work::Put(object, Vec4::filled(1, Digit::One, false));
    let mut is_put = false;
    for _ in 0..100 {
        if !is_put && run.simulation.time() == at {
            run.simulation.work(alloc, &put)?;
            is_put = true;
        }
        run.step(alloc)?;
    }
    Ok(joined(alloc, &run.shown)?)
}

fn is_put_text(alloc: Global, statements: &[Does], o: u32, at: u64, expected: &[u8]) -> bool {
    match text_with_put(alloc, statements, o, at) {
        Ok(text) => text.as_slice() == expected,
        Err(_) => false,
    }
}

// A put on a net stands until a driver's value changes.
#[test]
fn a_driver_ends_an_override(rt: HostRuntime) -> Result<(), Fail> {
    let statements = [
        Does::Takes(A, ZERO),
        Does::Takes(D, ZERO),
        Does::Waits,
        Does::Takes(D, ZERO),
        Does::Waits,
        Does::ShowsBoth,
        Does::Takes(D, UNDRIVEN),
        Does::Waits,
        Does::ShowsBoth,
    ];
    assert!(rt; is_put_text(rt.alloc(), &statements, W, 1, b"01\n0z\n"));
    Ok(())
}

// One on a variable under an assign changes nothing, and one on an operand is followed.
#[test]
fn a_put_is_followed(rt: HostRuntime) -> Result<(), Fail> {
    let statements = [
        Does::Takes(B, ZERO),
        Does::Assigns(A, READ_B),
        Does::Waits,
        Does::Waits,
        Does::Shows,
    ];
    assert!(rt; is_put_text(rt.alloc(), &statements, A, 1, b"0\n"));
    assert!(rt; is_put_text(rt.alloc(), &statements, B, 1, b"1\n"));
    Ok(())
}

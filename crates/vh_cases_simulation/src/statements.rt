use std::alloc::Global;
use std::test::Fail;
use vh_base::{Boxed, Bytes, DriverId, ExprId, NoMemory, ObjId, ProcId, Sequence, ShowId, WaitId};
use vh_design::{
    Chosen, Code, Delay, Design, Detail, Drive, DriverInfo, ExprKind, ExprNode, Goes, Instruction,
    Kind, Name, NetType, ObjectInfo, Operation, Parts, Pause, Select, Selected, ShowArg, ShowCall,
    ShowTask, Single, Term, WaitInfo,
};
use vh_design_nodes::{kind_signed, kind_width};
use vh_logic::{Digit, Vec4};
use vh_proc_simulation::{Came, Next, Simulation, StepFault};
use vh_queue::{Entry, Work};

// The design below:
//
//   module top; reg a; wire w; assign #5 w = a;
//   initial begin a = 0; #6 a = 1; #2 a = 0; #9 $display("%b", w); end
//   initial #12 $display("%b", w);
//   endmodule
const A: u32 = 1;

const W: u32 = 2;

pub(crate) fn object(alloc: Global, kind: Kind, detail: Detail) -> Result<ObjectInfo, NoMemory> {
    Ok(ObjectInfo {
        kind,
        name: Name::from_slice(alloc, b"x")?,
        parent: None,
        width: 1,
        signed: false,
        words: 0,
        line: 1,
        detail,
    })
}

fn objects(alloc: Global) -> Result<Vec<ObjectInfo>, NoMemory> {
    let mut all = Vec::new(alloc);
    all.push(object(alloc, Kind::Module, Detail::Plain)?)?;
    all.push(object(alloc, Kind::Reg, Detail::Plain)?)?;
    all.push(object(alloc, Kind::Net, Detail::Net(NetType::Wire))?)?;
    Ok(all)
}

fn whole(o: u32) -> Selected {
    Selected {
        of: Chosen {
            object: ObjId::new(o),
            word: None,
        },
        select: Select::Whole,
    }
}

// Numbers, each at the expression of its place, and what the two objects hold behind them.
const NUMBERS: [u64; 7] = [0, 1, 2, 5, 6, 9, 12];

fn at(number: u64) -> ExprId {
    let place = NUMBERS.iter().position(|n| *n == number).unwrap_or(0);
    ExprId::new(u32::try_from(place).unwrap_or(0))
}

const READ_A: u32 = 7;

const READ_W: u32 = 8;

fn exprs(alloc: Global, objects: &[ObjectInfo]) -> Result<Vec<ExprNode>, NoMemory> {
    let mut all: Vec<ExprNode> = Vec::new(alloc);
    for number in NUMBERS {
        all.push(node(
            &all,
            objects,
            ExprKind::Literal(Vec4::from_planes(32, number, 0, true)),
        ))?;
    }
    for o in [A, W] {
        all.push(node(&all, objects, ExprKind::Selected(whole(o))))?;
    }
    Ok(all)
}

pub(crate) fn node(exprs: &[ExprNode], objects: &[ObjectInfo], kind: ExprKind) -> ExprNode {
    let width = kind_width(exprs, objects, &kind);
    let signed = kind_signed(exprs, objects, &kind);
    ExprNode {
        kind,
        width,
        signed,
    }
}

pub(crate) fn delay(number: u64) -> Delay {
    Delay {
        amount: at(number),
        unit: 9,
    }
}

fn drive(alloc: Global) -> Result<Operation, NoMemory> {
    let drive = Drive {
        drivers: Sequence::from_slice(alloc, &[DriverId::new(0)])?,
        value: ExprId::new(READ_A),
        delay: Some(delay(5)),
        wait: WaitId::new(0),
    };
    Ok(Operation::Drive(Boxed::new(alloc, drive)?))
}

fn assign(alloc: Global, number: u64) -> Result<Operation, NoMemory> {
    Ok(Operation::Assign {
        value: at(number),
        targets: Sequence::from_slice(alloc, &[whole(A)])?,
    })
}

fn display() -> Operation {
    Operation::Single(Single::Show(ShowId::new(0)))
}

fn wait(number: u64) -> Operation {
    Operation::Pause(Pause::Wait(delay(number)))
}

// Each operation goes on at the next one.
pub(crate) fn code(alloc: Global, operations: Vec<Operation>) -> Result<Code, NoMemory> {
    let mut instructions = Vec::new(alloc);
    let last = operations.len().saturating_sub(1);
    for (k, operation) in operations.into_iter().enumerate() {
        let to = if k == last { 0 } else { k + 1 };
        instructions.push(Instruction {
            operation,
            next: Goes::To(u32::try_from(to).unwrap_or(0)),
            stmt: None,
            block: None,
            first: true,
        })?;
    }
    Ok(Code {
        start: Goes::To(0),
        instructions: Sequence::new(instructions),
        blocks: Sequence::new(Vec::new(alloc)),
    })
}

fn codes(alloc: Global) -> Result<Vec<Code>, NoMemory> {
    let mut all = Vec::new(alloc);
    let mut first = Vec::new(alloc);
    first.push(drive(alloc)?)?;
    all.push(code(alloc, first)?)?;
    let mut second = Vec::new(alloc);
    second.push(assign(alloc, 0)?)?;
    second.push(wait(6))?;
    second.push(assign(alloc, 1)?)?;
    second.push(wait(2))?;
    second.push(assign(alloc, 0)?)?;
    second.push(wait(9))?;
    second.push(display())?;
    second.push(Operation::End)?;
    all.push(code(alloc, second)?)?;
    let mut third = Vec::new(alloc);
    third.push(wait(12))?;
    third.push(display())?;
    third.push(Operation::End)?;
    all.push(code(alloc, third)?)?;
    Ok(all)
}

fn shows(alloc: Global) -> Result<Vec<ShowCall>, NoMemory> {
    let mut args = Vec::new(alloc);
    args.push(ShowArg::Format(Bytes::from_slice(alloc, b"%b")?))?;
    args.push(ShowArg::Value(ExprId::new(READ_W)))?;
    let mut all = Vec::new(alloc);
    all.push(ShowCall {
        task: ShowTask::Display,
        scope: ObjId::new(0),
        unit: 9,
        args: Sequence::new(args),
    })?;
    Ok(all)
}

fn parts(alloc: Global) -> Result<Parts, NoMemory> {
    let objects = objects(alloc)?;
    let exprs = exprs(alloc, &objects)?;
    let mut drivers = Vec::new(alloc);
    drivers.push(DriverInfo {
        object: ObjId::new(W),
        low: 0,
        below: 0,
        width: 1,
    })?;
    let mut waits = Vec::new(alloc);
    waits.push(WaitInfo {
        terms: Sequence::from_slice(alloc, &[Term::Reads(ObjId::new(A))])?,
    })?;
    Ok(Parts {
        objects,
        exprs,
        drivers,
        codes: codes(alloc)?,
        bodies: Vec::new(alloc),
        waits,
        shows: shows(alloc)?,
        stmts: Vec::new(alloc),
        precision: 9,
    })
}

pub(crate) fn built(parts: Parts) -> Option<Design> {
    if parts.objects.len() > 99 || parts.exprs.len() > 99 || parts.drivers.len() > 99 {
        return None;
    }
    if parts.codes.len() > 99 || parts.bodies.len() > 99 || parts.waits.len() > 99 {
        return None;
    }
    if parts.shows.len() > 99 || parts.stmts.len() > 99 {
        return None;
    }
    Design::build(parts)
}

// A run with the texts that it has shown, each with its time.
#[derive(Drop)]
pub(crate) struct Run {
    pub(crate) simulation: Simulation,
    pub(crate) shown: Vec<(u64, Bytes)>,
}

impl Run {
    pub(crate) fn new(alloc: Global, d: Design) -> Result<Run, NoMemory> {
        Ok(Run {
            simulation: Simulation::new(alloc, d)?,
            shown: Vec::new(alloc),
        })
    }

    fn note(&mut self, came: Came) -> Result<(), NoMemory> {
        let Came { made: _, shown } = came;
        let Some(text) = shown else {
            return Ok(());
        };
        let time = self.simulation.time();
        self.shown.push((time, text))?;
        Ok(())
    }

    // A process goes on until it waits.
    fn process(&mut self, alloc: Global, p: ProcId) -> Result<(), StepFault> {
        for _ in 0..50 {
            let performed = self.simulation.perform(alloc, p)?;
            let Some(performed) = performed else {
                return Ok(());
            };
            let goes_on = matches!(performed.next, Next::On | Next::Shows(_));
            self.note(performed.came)?;
            if !goes_on {
                return Ok(());
            }
        }
        Ok(())
    }

    fn work(&mut self, alloc: Global, entry: &Entry) -> Result<(), StepFault> {
        match entry.work {
            Work::Evaluate(p) => self.process(alloc, p),
            Work::Drive(..)
            | Work::Assign { .. }
            | Work::Follow { .. }
            | Work::Put(..)
            | Work::Strobe(_)
            | Work::MonitorShow => {
                let came = self.simulation.work(alloc, &entry.work)?;
                self.note(came)?;
                Ok(())
            }
            Work::Call(_) => Ok(()),
        }
    }

    // The first entry that may be picked does its work; or else time goes on.
    pub(crate) fn step(&mut self, alloc: Global) -> Result<(), StepFault> {
        if self.simulation.choices() > 0 {
            let entry = self.simulation.pick(0);
            return self.work(alloc, &entry);
        }
        if self.simulation.activate().is_none() {
            self.simulation.advance();
        }
        Ok(())
    }
}

pub(crate) fn shown(alloc: Global, d: Design) -> Result<Vec<(u64, Bytes)>, StepFault> {
    let mut run = Run::new(alloc, d)?;
    for _ in 0..100 {
        run.step(alloc)?;
    }
    Ok(run.shown)
}

// The update to 1 at 11 goes when `a` is 0 once more at 8.
#[test]
fn a_scheduled_update_goes(rt: HostRuntime) -> Result<(), Fail> {
    let alloc = rt.alloc();
    let d = built(parts(alloc)?).expect(&rt, "every rule is kept");
    let texts = shown(alloc, d);
    assert!(rt; texts.is_ok());
    if let Ok(texts) = texts {
        assert_eq!(rt; texts.len(), 2);
        for (k, time) in [(0, 12), (1, 17)] {
            if k < texts.len() {
                assert_eq!(rt; texts[k].0, time);
                assert!(rt; texts[k].1.as_slice() == b"0\n".as_slice());
            }
        }
    }
    Ok(())
}

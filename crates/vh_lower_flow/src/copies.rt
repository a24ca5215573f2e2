ghost use Rattle.std.specs.Prelude.{◌≡◌, [], ◌++◌, ◌∷◌, IfOk, OnOk};

use std::alloc::Global;
use vh_base::{Boxed, NoMemory, Sequence};
use vh_design_code::{Arm, CaseTest, Drive, Leave, Operation, Output, Outputs, Schedule};

// A nonblocking assignment once more.
fn schedule(alloc: Global, of: &Schedule) -> Result<Schedule, NoMemory>
    ensures { IfOk result (λ s. s ≡ of.now) }
{
    Ok(Schedule {
        targets: Sequence::from_slice(alloc, of.targets.as_slice())?,
        value: of.value,
        delay: of.delay,
    })
}

// A `case` once more.
fn case_test(alloc: Global, of: &CaseTest) -> Result<CaseTest, NoMemory>
    ensures { IfOk result (λ c. c ≡ of.now) }
{
    Ok(CaseTest {
        kind: of.kind,
        subject: of.subject,
        arms: Sequence::from_slice(alloc, of.arms.as_slice())?,
        width: of.width,
        signed: of.signed,
    })
}

// What the end of a call assigns from one variable, once more.
fn output(alloc: Global, of: &Output) -> Result<Output, NoMemory>
    ensures { IfOk result (λ o. o ≡ of.now) }
{
    Ok(Output {
        targets: Sequence::from_slice(alloc, of.targets.as_slice())?,
        variable: of.variable,
    })
}

// What it assigns, once more.
fn outputs(alloc: Global, of: &[Output]) -> Result<Outputs, NoMemory>
    ensures { IfOk result (λ os. os ≡ of.now) }
{
    let mut all = Vec::new(alloc);
    for one in of {
        all.push(output(alloc, one)?)?;
    }
    Ok(Sequence::new(all))
}

// The end of a call once more.
fn leave(alloc: Global, of: &Leave) -> Result<Leave, NoMemory>
    ensures { IfOk result (λ l. l ≡ of.now) }
{
    Ok(Leave {
        outputs: outputs(alloc, of.outputs.as_slice())?,
        result: of.result,
    })
}

// A continuous assignment once more.
fn drive(alloc: Global, of: &Drive) -> Result<Drive, NoMemory>
    ensures { IfOk result (λ d. d ≡ of.now) }
{
    Ok(Drive {
        drivers: Sequence::from_slice(alloc, of.drivers.as_slice())?,
        value: of.value,
        delay: of.delay,
        wait: of.wait,
    })
}

/// An operation once more. Its cost is that of its lists.
pub fn copied(alloc: Global, of: &Operation) -> Result<Operation, NoMemory>
    ensures { IfOk result (λ o. o ≡ of.now) }
{
    match of {
        Operation::Assign { value, targets } => {
            let targets = Sequence::from_slice(alloc, targets.as_slice())?;
            Ok(Operation::Assign {
                value: *value,
                targets,
            })
        }
        Operation::Hold {
            value,
            width,
            delay,
        } => Ok(Operation::Hold {
            value: *value,
            width: *width,
            delay: *delay,
        }),
        Operation::Store(targets) => {
            let targets = Sequence::from_slice(alloc, targets.as_slice())?;
            Ok(Operation::Store(targets))
        }
        Operation::Schedule(s) => {
            let copy = schedule(alloc, s.get())?;
            Ok(Operation::Schedule(Boxed::new(alloc, copy)?))
        }
        Operation::Pause(pause) => Ok(Operation::Pause(*pause)),
        Operation::Test {
            condition,
            otherwise,
        } => Ok(Operation::Test {
            condition: *condition,
            otherwise: *otherwise,
        }),
        Operation::Case(test) => {
            let copy = case_test(alloc, test.get())?;
            Ok(Operation::Case(Boxed::new(alloc, copy)?))
        }
        Operation::Loop(turn) => Ok(Operation::Loop(*turn)),
        Operation::Fork(positions) => {
            let positions = Sequence::from_slice(alloc, positions.as_slice())?;
            Ok(Operation::Fork(positions))
        }
        Operation::End => Ok(Operation::End),
        Operation::Enter { routine, inputs } => {
            let inputs = Sequence::from_slice(alloc, inputs.as_slice())?;
            Ok(Operation::Enter {
                routine: *routine,
                inputs,
            })
        }
        Operation::Leave(l) => {
            let copy = leave(alloc, l.get())?;
            Ok(Operation::Leave(Boxed::new(alloc, copy)?))
        }
        Operation::SysCall(call) => Ok(Operation::SysCall(*call)),
        Operation::SysFunc(call) => Ok(Operation::SysFunc(*call)),
        Operation::Single(single) => Ok(Operation::Single(*single)),
        Operation::Drive(d) => {
            let copy = drive(alloc, d.get())?;
            Ok(Operation::Drive(Boxed::new(alloc, copy)?))
        }
        Operation::Initial { object, value } => Ok(Operation::Initial {
            object: *object,
            value: *value,
        }),
    }
}

ghost use Rattle.std.specs.Prelude.{◌≡◌, ◌+◌, length, IfOk, IfSome};
ghost use Rattle.std.specs.List.{flat_map};
ghost use Rattle.vh_design_first.specs.Designs.{value_of, delays_in, calls_in, operation_of, instruction_of, register, instructions_of, code_of, codes_of};

use std::alloc::Global;
use vh_base::{ExprId, FirstBit, FirstCode, NoMemory, ObjId, Sequence, ShowId};
use vh_design::{
    Chosen, Code, Delay, Goes, Instruction, Operation, Pause, Select, Selected, Single,
};

/// How many expressions and display calls stand before a step's own.
#[derive(Clone, Copy)]
pub struct Before {
    pub exprs: u32,
    pub calls: u32,
}

// The number of a digit's expression.
fn value_of(bit: FirstBit) -> ExprId
    ensures { result ≡ value_of bit }
{
    match bit {
        FirstBit::Zero => ExprId::new(0),
        FirstBit::One => ExprId::new(1),
        FirstBit::X => ExprId::new(2),
        FirstBit::Z => ExprId::new(3),
    }
}

// What a register takes.
fn register(reg: u32) -> Option<Selected>
    ensures { IfSome result (λ s. s ≡ register reg) }
{
    let object = ObjId::new(reg.checked_add(1)?);
    Some(Selected {
        of: Chosen { object, word: None },
        select: Select::Whole,
    })
}

// What a step does.
fn operation_of(alloc: Global, before: Before, step: &FirstCode) -> Result<Operation, NoMemory>
    ensures { IfOk result (λ o. o ≡ operation_of before.exprs before.calls step.now) }
{
    match step {
        FirstCode::Wait(_) => Ok(Operation::Pause(Pause::Wait(Delay {
            amount: ExprId::new(before.exprs),
            unit: 0,
        }))),
        FirstCode::Assign { reg, bit } => {
            let target = register(*reg).ok_or(NoMemory)?;
            Ok(Operation::Assign {
                value: value_of(*bit),
                targets: Sequence::from_slice(alloc, &[target])?,
            })
        }
        FirstCode::Show(_) => Ok(Operation::Single(Single::Show(ShowId::new(before.calls)))),
        FirstCode::Finish => Ok(Operation::Single(Single::Finish)),
    }
}

fn instruction_of(operation: Operation, next: Goes) -> Instruction
    ensures { result ≡ instruction_of operation next }
{
    Instruction {
        operation,
        next,
        stmt: None,
        block: None,
        first: true,
    }
}

// Behind a step.
fn behind(before: Before, step: &FirstCode) -> Option<Before>
    ensures { IfSome result (λ b. (b.exprs ≡ before.exprs + length (delays_in step.now))
        × (b.calls ≡ before.calls + length (calls_in step.now))) }
{
    match step {
        FirstCode::Wait(_) => Some(Before {
            exprs: before.exprs.checked_add(1)?,
            calls: before.calls,
        }),
        FirstCode::Show(_) => Some(Before {
            exprs: before.exprs,
            calls: before.calls.checked_add(1)?,
        }),
        FirstCode::Assign { .. } | FirstCode::Finish => Some(before),
    }
}

// The code of an initial construct, and what stands behind it.
#[tactic(auto, unfolding(crate::specs::Designs::instructions_of))]
fn code_of(alloc: Global, before: Before, steps: &[FirstCode]) -> Result<(Code, Before), NoMemory>
    ensures code { IfOk result (λ r. r.0 ≡ code_of before.exprs before.calls steps.now) }
    ensures exprs { IfOk result (λ r. r.1.exprs
        ≡ before.exprs + length (flat_map delays_in steps.now)) }
    ensures calls { IfOk result (λ r. r.1.calls
        ≡ before.calls + length (flat_map calls_in steps.now)) }
{
    let mut instructions = Vec::new(alloc);
    let mut now = before;
    let mut place: u32 = 0;
    for step in steps {
        place = place.checked_add(1).ok_or(NoMemory)?;
        let operation = operation_of(alloc, now, step)?;
        instructions.push(instruction_of(operation, Goes::To(place)))?;
        now = behind(now, step).ok_or(NoMemory)?;
    }
    instructions.push(instruction_of(Operation::End, Goes::Back))?;
    let code = Code {
        start: Goes::To(0),
        instructions: Sequence::new(instructions),
        blocks: Sequence::new(Vec::new(alloc)),
    };
    Ok((code, now))
}

/// The codes of all initial constructs.
#[tactic(auto, unfolding(crate::specs::Designs::codes_of))]
pub fn codes_of(alloc: Global, blocks: &[Sequence<FirstCode>]) -> Result<Vec<Code>, NoMemory>
    ensures { IfOk result (λ v. v.items ≡ codes_of 4 0 blocks.now) }
{
    let mut codes = Vec::new(alloc);
    let mut before = Before { exprs: 4, calls: 0 };
    for block in blocks {
        let (code, behind) = code_of(alloc, before, block.as_slice())?;
        codes.push(code)?;
        before = behind;
    }
    Ok(codes)
}

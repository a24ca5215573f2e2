ghost use Rattle.std.specs.Prelude.{◌≡◌, ◌+◌, [], length, map, IfOk, OnOk};
ghost use Rattle.vh_lower_flow.specs.Laid.{position_in, with_instruction, with_block, instruction_of, start_at, gate_of, empty, end_of};
ghost use Rattle.vh_lower_flow.specs.Views.{laid_seen};

use crate::flow::{Gate, Origin};
use std::alloc::Global;
use vh_base::{NoMemory, ObjId};
use vh_design_code::{Block, Goes, Instruction, Loop, Operation};

// The instructions and the named blocks of a code so far.
#[derive(Drop)]
pub(crate) struct Laid {
    pub instructions: Vec<Instruction>,
    pub blocks: Vec<Block>,
}

// None.
pub(crate) fn empty(alloc: Global) -> Laid
    ensures { laid_seen result ≡ empty }
{
    Laid {
        instructions: Vec::new(alloc),
        blocks: Vec::new(alloc),
    }
}

// The position of the next instruction, where it can be numbered.
pub(crate) fn position_in(so: &Laid) -> Result<u32, NoMemory>
    ensures { IfOk result (λ n. n ≡ position_in (laid_seen so.now)) }
{
    match u32::try_from(so.instructions.len()) {
        Err(_) => Err(NoMemory),
        Ok(position) => Ok(position),
    }
}

// The number of the next block.
pub(crate) fn next_block(so: &Laid) -> Result<u32, NoMemory>
    ensures { IfOk result (λ n. n ≡ length (laid_seen so.now).blocks) }
{
    match u32::try_from(so.blocks.len()) {
        Err(_) => Err(NoMemory),
        Ok(number) => Ok(number),
    }
}

// One instruction more.
pub(crate) fn add_instruction(
    so: &mut Laid,
    operation: Operation,
    origin: Origin,
    next: Goes,
    inner: Option<u32>,
) -> Result<(), NoMemory>
    ensures { OnOk result
        (laid_seen so.new ≡
        with_instruction (instruction_of operation origin next inner) (laid_seen so.old)) }
{
    so.instructions.push(Instruction {
        operation,
        next,
        stmt: origin.stmt,
        block: inner,
        first: origin.first,
    })?;
    Ok(())
}

// One block more.
pub(crate) fn add_block(
    so: &mut Laid,
    object: ObjId,
    around: Option<u32>,
    after: Goes,
) -> Result<(), NoMemory>
    ensures { OnOk result (laid_seen so.new ≡ with_block object around after (laid_seen so.old)) }
{
    so.blocks.push(Block {
        object,
        around,
        after,
    })?;
    Ok(())
}

// Where a statement of so many instructions begins.
pub(crate) fn start_at(position: u32, size: u32, after: Goes) -> Goes
    ensures { result ≡ start_at position size after }
{
    if size == 0 { after } else { Goes::To(position) }
}

// An instruction that goes on there, or else behind it.
pub(crate) fn gate_of(gate: Gate, otherwise: Goes) -> Operation
    ensures { result ≡ gate_of gate otherwise }
{
    match gate {
        Gate::Test(condition) => Operation::Test {
            condition,
            otherwise,
        },
        Gate::Repeat(count) => Operation::Loop(Loop::Repeat {
            count,
            done: otherwise,
        }),
        Gate::Again => Operation::Loop(Loop::Again { done: otherwise }),
        Gate::Turn => Operation::Loop(Loop::Turn),
    }
}

// The origin of an instruction that belongs to no statement.
pub(crate) const NO_ORIGIN: Origin = Origin {
    stmt: None,
    first: false,
};

// The end of an `initial` or of a branch.
pub(crate) fn add_end(so: &mut Laid) -> Result<(), NoMemory>
    ensures { OnOk result (laid_seen so.new ≡ with_instruction end_of (laid_seen so.old)) }
{
    add_instruction(so, Operation::End, NO_ORIGIN, Goes::Back, None)
}

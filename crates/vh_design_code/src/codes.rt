ghost use Rattle.std.specs.Prelude.{◌≡◌};
ghost use Rattle.std.specs.List.{list_all};
ghost use Rattle.vh_design_nodes.specs.Fits.{before};
ghost use Rattle.vh_design_code.specs.Codes.{fits_instruction, fits_block, fits_blocks, fits_code, fits_term, fits_wait, fits_arg, fits_show, fits_statement};

use crate::code::{Block, Code, Instruction};
use crate::operations::{fits_goes, fits_operation};
use crate::show::{ShowArg, ShowCall};
use crate::statement::StmtInfo;
use crate::wait::{Term, WaitInfo};
use vh_design_nodes::{
    DriverInfo, ExprNode, ObjectInfo, is_before, is_event_at, is_memory_at, is_named_block_at,
    is_scope_at, is_unit, is_vector_at, is_width,
};

/// How many waits, display calls and statements a design has, and the simulation's precision.
#[derive(Clone, Copy)]
pub struct Limits {
    pub waits: usize,
    pub shows: usize,
    pub stmts: usize,
    pub precision: u8,
}

// Whether a number, where there is one, is below this one.
fn is_none_or_below(most: usize, number: Option<u32>) -> bool
    ensures { result ≡ before most number }
{
    match number {
        None => true,
        Some(number) => (number as usize) < most,
    }
}

// Whether an instruction may stand in a code with so many positions and blocks.
fn fits_instruction(
    objects: &[ObjectInfo],
    exprs: &[ExprNode],
    drivers: &[DriverInfo],
    limits: Limits,
    positions: usize,
    blocks: usize,
    instruction: &Instruction,
) -> bool
    ensures { result ≡
        fits_instruction objects.now exprs.now drivers.now limits positions blocks instruction.now }
{
    fits_operation(
        objects,
        exprs,
        drivers,
        limits,
        positions,
        &instruction.operation,
    ) && fits_goes(positions, instruction.next)
        && is_none_or_below(limits.stmts, instruction.stmt)
        && is_none_or_below(blocks, instruction.block)
}

// Whether all these instructions may.
fn all_instructions_fit(
    objects: &[ObjectInfo],
    exprs: &[ExprNode],
    drivers: &[DriverInfo],
    limits: Limits,
    positions: usize,
    blocks: usize,
    instructions: &[Instruction],
) -> bool
    ensures { result ≡
        list_all (fits_instruction objects.now exprs.now drivers.now limits positions blocks)
        instructions.now }
{
    instructions.iter().all(|instruction| {
        fits_instruction(
            objects,
            exprs,
            drivers,
            limits,
            positions,
            blocks,
            instruction,
        )
    })
}

// Whether a block may have the number `k` in such a code.
fn fits_block(objects: &[ObjectInfo], positions: usize, k: usize, block: Block) -> bool
    ensures { result ≡ fits_block objects.now positions k block }
{
    is_named_block_at(objects, block.object)
        && is_none_or_below(k, block.around)
        && fits_goes(positions, block.after)
}

// Whether all these blocks may stand at their positions.
fn fits_blocks(objects: &[ObjectInfo], positions: usize, blocks: &[Block]) -> bool
    ensures { result ≡ fits_blocks objects.now positions blocks.now }
{
    blocks
        .iter()
        .enumerate()
        .all(|(k, block)| fits_block(objects, positions, k, *block))
}

/// Whether a code may stand in a design. It goes once over its instructions and blocks, and over
/// the parts of each.
pub fn fits_code(
    objects: &[ObjectInfo],
    exprs: &[ExprNode],
    drivers: &[DriverInfo],
    limits: Limits,
    code: &Code,
) -> bool
    ensures { result ≡ fits_code objects.now exprs.now drivers.now limits code.now }
{
    let instructions = code.instructions.as_slice();
    let blocks = code.blocks.as_slice();
    let positions = instructions.len();
    fits_goes(positions, code.start)
        && all_instructions_fit(
            objects,
            exprs,
            drivers,
            limits,
            positions,
            blocks.len(),
            instructions,
        )
        && fits_blocks(objects, positions, blocks)
}

// Whether a wait may wait for this.
fn fits_term(objects: &[ObjectInfo], term: Term) -> bool
    ensures { result ≡ fits_term objects.now term }
{
    match term {
        Term::Digits { object, width, .. } => is_vector_at(objects, object) && is_width(width),
        Term::Event(object) => is_event_at(objects, object),
        Term::Reads(object) => is_vector_at(objects, object) || is_memory_at(objects, object),
    }
}

/// Whether a wait may stand in a design.
pub fn fits_wait(objects: &[ObjectInfo], wait: &WaitInfo) -> bool
    ensures { result ≡ fits_wait objects.now wait.now }
{
    wait.terms
        .as_slice()
        .iter()
        .all(|term| fits_term(objects, *term))
}

// Whether an argument of a display call may stand beside so many expressions.
fn fits_arg(exprs: usize, arg: &ShowArg) -> bool
    ensures { result ≡ fits_arg exprs arg.now }
{
    match arg {
        ShowArg::Empty => true,
        ShowArg::Format(_) => true,
        ShowArg::Value(e) => is_before(exprs, *e),
    }
}

// Whether all these arguments may.
fn all_args_fit(exprs: usize, args: &[ShowArg]) -> bool
    ensures { result ≡ list_all (fits_arg exprs) args.now }
{
    args.iter().all(|arg| fits_arg(exprs, arg))
}

/// Whether a display call may stand in a design of this precision.
pub fn fits_show(objects: &[ObjectInfo], exprs: usize, precision: u8, show: &ShowCall) -> bool
    ensures { result ≡ fits_show objects.now exprs precision show.now }
{
    is_scope_at(objects, show.scope)
        && is_unit(precision, show.unit)
        && all_args_fit(exprs, show.args.as_slice())
}

/// Whether a statement may stand in a design.
pub fn fits_statement(objects: &[ObjectInfo], statement: &StmtInfo) -> bool
    ensures { result ≡ fits_statement objects.now statement.now }
{
    is_scope_at(objects, statement.scope)
}

ghost use Rattle.std.specs.Prelude.{◌≡◌, ◌<◌, ◌≤◌, ◌+◌, ◌^◌, List, ◌∷◌, length, take, reverse, slice_get, option_copied, Some, IfSome, true};
ghost use Rattle.std.specs.List.{AllByRecursion};
ghost use Rattle.vh_design_nodes.specs.Fits.{has_body};
ghost use Rattle.vh_proc_thread.specs.declared.call.Call.{Call as TheCall};
ghost use Rattle.vh_proc_thread.specs.Control.{code_of, start_of, behind, end_from, open_behind, behind_end, is_call_of, block_around, blocks_of, is_within, outermost, repeats_within, HasBody};

use crate::block::block_of;
use crate::call::{Call, Repeat};
use vh_base::{ObjId, ProcId};
use vh_design::{Block, Code, Design, Goes, Instruction, Operation};

// The code of a task or function, or else of the process.
pub(crate) fn code_of(d: &Design, root: ProcId, routine: Option<ObjId>) -> &Code
    requires root { root < length (d.now).codes }
    requires body { IfSome routine (λ r. has_body (d.now).objects r ≡ true) }
    ensures { code_of d.now root routine ≡ Some result.now }
{
    match routine {
        None => d.code(root),
        Some(routine) => d.body(routine),
    }
}

// Where it starts.
pub(crate) fn start_of(d: &Design, root: ProcId, routine: Option<ObjId>) -> Goes
    requires root { root < length (d.now).codes }
    requires body { IfSome routine (λ r. has_body (d.now).objects r ≡ true) }
    ensures { result ≡ start_of d.now root routine }
{
    code_of(d, root, routine).start
}

// Where a call goes on behind its instruction.
pub(crate) fn behind(d: &Design, root: ProcId, call: &Call) -> Goes
    requires root { root < length (d.now).codes }
    requires body { HasBody d.now call.now }
    ensures { result ≡ behind d.now root call.now }
{
    let code = code_of(d, root, call.routine);
    match code.instructions.as_slice().get(call.position as usize) {
        None => Goes::Back,
        Some(instruction) => instruction.next,
    }
}

// The instruction at a position of a code.
pub(crate) fn instruction_at(code: &Code, position: u32) -> Option<&Instruction>
    ensures { option_copied result ≡ slice_get code.now.instructions position }
{
    code.instructions.as_slice().get(position as usize)
}

// Behind the label that ends a call: the calls on the way have labels of their own.
#[tactic(auto, unfolding(crate::specs::Control::end_from))]
fn end_from(instructions: &[Instruction], steps: usize, opened: usize, goes: Goes) -> Goes
    requires { opened + steps < 2 ^ 64 }
    ensures { result ≡ end_from steps instructions.now opened goes }
{
    if steps == 0 {
        return Goes::Back;
    }
    let Goes::To(position) = goes else {
        return Goes::Back;
    };
    let Some(instruction) = instructions.get(position as usize) else {
        return Goes::Back;
    };
    match open_behind(opened, &instruction.operation) {
        None => instruction.next,
        Some(opened) => end_from(instructions, steps - 1, opened, instruction.next),
    }
}

// How many calls are open behind a label, of so many before it; none where it ends the one that is looked for.
fn open_behind(opened: usize, operation: &Operation) -> Option<usize>
    requires { opened + 1 < 2 ^ 64 }
    ensures open { result ≡ open_behind opened operation.now }
    ensures one { IfSome result (λ n. n ≤ opened + 1) }
{
    match operation {
        Operation::Leave(_) => opened.checked_sub(1),
        Operation::Enter { .. } => Some(opened + 1),
        _ => Some(opened),
    }
}

// Behind the end of the call at which this one stands.
pub(crate) fn behind_end(d: &Design, root: ProcId, call: &Call) -> Goes
    requires root { root < length (d.now).codes }
    requires body { HasBody d.now call.now }
    ensures { (around : List TheCall) → result ≡ behind_end d.now root (call.now ∷ around) }
{
    let instructions = code_of(d, root, call.routine).instructions.as_slice();
    let next = behind(d, root, call);
    end_from(instructions, instructions.len(), 0, next)
}

// Is the call one of this task?
pub(crate) fn is_call_of(target: ObjId, call: &Call) -> bool
    ensures { result ≡ is_call_of target call.now }
{
    match call.routine {
        None => false,
        Some(routine) => routine == target,
    }
}

// The block of this object in which a call stands.
pub(crate) fn block_around(d: &Design, root: ProcId, target: ObjId, call: &Call) -> Option<Block>
    requires root { root < length (d.now).codes }
    requires body { HasBody d.now call.now }
    ensures { result ≡ block_around d.now root target call.now }
{
    let code = code_of(d, root, call.routine);
    block_of(code.blocks.as_slice(), target, call.block)
}

// Is the call inside the block or task?
fn is_within(d: &Design, root: ProcId, target: ObjId, call: &Call) -> bool
    requires root { root < length (d.now).codes }
    requires body { HasBody d.now call.now }
    ensures { result ≡ is_within d.now root target call.now }
{
    is_call_of(target, call) || block_around(d, root, target, call).is_some()
}

// How many calls there are from the first to the outermost that is inside; none where none is.
pub(crate) fn up_to_outermost(d: &Design, root: ProcId, target: ObjId, calls: &[Call]) -> usize
    requires root { root < length (d.now).codes }
    requires bodies { AllByRecursion (HasBody d.now) calls.now }
    ensures most { result ≤ length calls.now }
    ensures found { reverse (take result calls.now)
        ≡ outermost (is_within d.now root target) (reverse calls.now) }
{
    for k in 0..calls.len() {
        if is_within(d, root, target, &calls[k]) {
            return k + 1;
        }
    }
    0
}

// Is a repeat inside the block, by how many calls there are up to that one's, and its blocks?
pub(crate) fn is_repeat_within(
    blocks: &[Block],
    depth: usize,
    target: ObjId,
    repeat: &Repeat,
) -> bool
    ensures { result ≡ repeats_within blocks.now depth target repeat.now }
{
    let own = repeat.depth as usize;
    depth < own || own == depth && block_of(blocks, target, repeat.block).is_some()
}

ghost use Rattle.std.specs.Prelude.{◌≡◌, ◌<◌, ◌≤◌, length, reverse, slice_get, option_copied, true, IfOk, OnOk, OnErr, IfErr};
ghost use Rattle.std.specs.List.{AllByRecursion};
ghost use Rattle.std.specs.Option.{option_and_then};
ghost use Rattle.vh_design_nodes.specs.Fits.{has_body};
ghost use Rattle.vh_design.specs.Shape.{Shape};
ghost use Rattle.vh_proc_thread.specs.Control.{Runs, HasBody, HasCause, has_turn, next_of, instruction_of, process_of, branch_of, gone, goes_on, called, is_inside, disabled, repeat_turned, repeating, depth_of, routine_of, arrived, settled, standing_in, position_of, without_call, without_block};

use crate::call::{Call, CallFault, MOST_CALLS, Repeat};
use crate::position::{
    behind, behind_end, block_around, code_of, instruction_at, is_call_of, is_repeat_within,
    start_of, up_to_outermost,
};
use std::alloc::Global;
use std::marker::Model;
use vh_base::{NoMemory, ObjId, ProcId};
use vh_design::{Block, Design, Goes, Instruction};

/// A process, or a branch of a `fork`, which contracts see as its `Control`.
#[derive(Drop)]
pub struct Thread {
    root: ProcId,
    outer: u32,
    calls: Vec<Call>,
    repeats: Vec<Repeat>,
    goes: Goes,
}

impl Model for Thread {
    ghost use Rattle.std.specs.Prelude.{reverse, ◌≤◌, ◌+◌, length};
    ghost use Rattle.vh_proc_thread.specs.Control.{Control};

    ghost Value = { Control };

    ghost view = { λ t. record {
      root = t.root;
      outer = t.outer;
      calls = reverse t.calls.items;
      repeats = reverse t.repeats.items;
      goes = t.goes;
    } };

    ghost invariant = { λ t. (t.outer ≤ 256) × (t.outer + length t.calls.items ≤ 257) };
}

impl Thread {
    /// A process of the design at its beginning.
    pub fn of_process(alloc: Global, d: &Design, p: ProcId) -> Result<Thread, NoMemory>
        requires { p < length (d.now).codes }
        ensures process { IfOk result (λ t. t ≡ process_of d.now p) }
        ensures runs { IfOk result (Runs d.now) }
    {
        let mut calls = Vec::new(alloc);
        calls.push(Call {
            routine: None,
            position: 0,
            block: None,
        })?;
        Ok(Thread {
            root: p,
            outer: 0,
            calls,
            repeats: Vec::new(alloc),
            goes: start_of(d, p, None),
        })
    }

    /// A branch that begins there, in the code of the `fork` at which this thread stands.
    pub fn branch(&self, alloc: Global, position: u32) -> Result<Thread, NoMemory>
        ensures branch { IfOk result (λ t. t ≡ branch_of position self.now) }
        ensures runs { (d : Shape) → Runs d self.now → IfOk result (Runs d) }
    {
        let mut calls = Vec::new(alloc);
        calls.push(Call {
            routine: self.routine(),
            position,
            block: None,
        })?;
        Ok(Thread {
            root: self.root,
            outer: self.depth(),
            calls,
            repeats: Vec::new(alloc),
            goes: Goes::To(position),
        })
    }

    // The task or function whose code it runs.
    fn routine(&self) -> Option<ObjId>
        ensures { result ≡ routine_of self.now }
    {
        self.calls.last()?.routine
    }

    // How many calls it is in, with those around it where it began.
    fn depth(&self) -> u32
        ensures depth { result ≡ depth_of self.now }
        ensures most { result ≤ 256 }
    {
        self.outer + (self.calls.len() as u32).saturating_sub(1)
    }

    /// Its next label; none where it has ended.
    pub fn next<'a>(&self, d: &'a Design) -> Option<&'a Instruction>
        requires { Runs d.now self.now }
        ensures { option_copied result ≡ next_of d.now self.now }
    {
        self.label_from(d, &self.calls, self.goes)
    }

    // The label that comes next, where the last of these calls goes on there.
    fn label_from<'a>(&self, d: &'a Design, calls: &[Call], goes: Goes) -> Option<&'a Instruction>
        requires root { self.now.root < length (d.now).codes }
        requires bodies { AllByRecursion (HasBody d.now) calls.now }
        ensures { option_copied result ≡ option_and_then (instruction_of d.now self.now.root)
            (slice_get (gone d.now self.now.root goes (reverse calls.now)) 0) }
    {
        if calls.is_empty() {
            return None;
        }
        let last = calls.len() - 1;
        if let Goes::To(position) = goes {
            return instruction_at(code_of(d, self.root, calls[last].routine), position);
        }
        if last == 0 {
            return None;
        }
        let next = behind(d, self.root, &calls[last - 1]);
        self.label_from(d, &calls[..last], next)
    }

    /// It performs the label that comes next: it has left the calls that it goes back from, and is in the
    /// block of that instruction until it performs another one.
    pub fn arrive(&mut self, d: &Design)
        requires { Runs d.now self.old }
        ensures arrived { self.new ≡ arrived d.now self.old }
        ensures runs { Runs d.now self.new }
    {
        let block = match self.next(d) {
            Some(instruction) => instruction.block,
            None => None,
        };
        self.settle(d);
        self.stand_in(block);
    }

    // It leaves the calls that it goes back from, and stands at its next label.
    fn settle(&mut self, d: &Design)
        requires { Runs d.now self.old }
        ensures settled { self.new ≡ settled d.now self.old }
        ensures runs { Runs d.now self.new }
    {
        let goes = self.goes;
        self.walk(d, goes);
        self.goes = match self.calls.last() {
            Some(call) => Goes::To(call.position),
            None => Goes::Back,
        };
    }

    // Its calls once the innermost goes on there.
    fn walk(&mut self, d: &Design, goes: Goes)
        requires { Runs d.now self.old }
        ensures on { self.new
            ≡ record self.old { calls = gone d.now (self.old).root goes (self.old).calls } }
        ensures runs { Runs d.now self.new }
    {
        match goes {
            Goes::To(position) => {
                if let Some(call) = self.calls.last_mut() {
                    call.position = position;
                }
            }
            Goes::Back => {
                self.calls.pop();
                if let Some(call) = self.calls.last() {
                    let next = behind(d, self.root, call);
                    self.walk(d, next);
                }
            }
        }
    }

    /// It goes on there behind the label that it performs.
    pub fn go_on(&mut self, goes: Goes)
        ensures on { self.new ≡ goes_on goes self.old }
        ensures runs { (d : Shape) → Runs d self.old → Runs d self.new }
    {
        self.goes = goes;
    }

    /// It calls a task or function, whose body comes next.
    pub fn call(&mut self, d: &Design, routine: ObjId) -> Result<(), CallFault>
        requires runs { Runs d.now self.old }
        requires body { has_body (d.now).objects routine ≡ true }
        ensures called { OnOk result (self.new ≡ called d.now routine self.old) }
        ensures room { OnOk result (depth_of self.old < 256) }
        ensures refused { IfErr result (HasCause self.old) }
        ensures kept { OnErr result (self.new ≡ self.old) }
        ensures runs { Runs d.now self.new }
    {
        if self.depth() >= MOST_CALLS {
            return Err(CallFault::TooDeep);
        }
        let pushed = self.calls.push(Call {
            routine: Some(routine),
            position: 0,
            block: None,
        });
        if pushed.is_err() {
            return Err(CallFault::NoMemory);
        }
        self.goes = start_of(d, self.root, Some(routine));
        Ok(())
    }

    /// It begins a `repeat` in this block of its code, with so many turns behind the first.
    pub fn begin_repeat(&mut self, block: Option<u32>, left: u64) -> Result<(), NoMemory>
        ensures begun { OnOk result (self.new ≡ repeating block left self.old) }
        ensures kept { OnErr result (self.new ≡ self.old) }
        ensures runs { (d : Shape) → Runs d self.old → Runs d self.new }
    {
        let depth = self.calls.len() as u32;
        self.repeats.push(Repeat { depth, block, left })?;
        Ok(())
    }

    /// The innermost `repeat` takes a turn; or none is left, and it is over.
    pub fn take_turn(&mut self) -> bool
        ensures turn { result ≡ has_turn (self.old).repeats }
        ensures turned { self.new ≡ repeat_turned self.old }
        ensures runs { (d : Shape) → Runs d self.old → Runs d self.new }
    {
        let Some(repeat) = self.repeats.last_mut() else {
            return false;
        };
        if repeat.left > 0 {
            repeat.left -= 1;
            return true;
        }
        self.repeats.pop();
        false
    }

    /// Is it inside the named block or task?
    pub fn is_inside(&self, d: &Design, target: ObjId) -> bool
        requires { Runs d.now self.now }
        ensures { result ≡ is_inside d.now target self.now }
    {
        up_to_outermost(d, self.root, target, &self.calls) > 0
    }

    /// The named block or task is disabled: where it is inside, it goes on behind the outermost
    /// such block
    /// or call (IEEE 1364-2005, 10.3).
    pub fn disable(&mut self, d: &Design, target: ObjId)
        requires { Runs d.now self.old }
        ensures disabled { self.new ≡ disabled d.now target self.old }
        ensures runs { Runs d.now self.new }
    {
        let depth = up_to_outermost(d, self.root, target, &self.calls);
        if depth == 0 {
            return;
        }
        self.calls.truncate(depth);
        let Some(call) = self.calls.last() else {
            return;
        };
        if is_call_of(target, call) {
            self.repeats
                .retain(|repeat| (repeat.depth as usize) < depth);
            self.leave_call(d);
            return;
        }
        if let Some(block) = block_around(d, self.root, target, call) {
            let blocks = code_of(d, self.root, call.routine).blocks.as_slice();
            self.repeats
                .retain(|repeat| !is_repeat_within(blocks, depth, target, repeat));
            self.leave_block(&block);
        }
    }

    // It goes on behind the end of the innermost call, without its label.
    fn leave_call(&mut self, d: &Design)
        requires { Runs d.now self.old }
        ensures left { self.new ≡ without_call d.now self.old }
        ensures runs { Runs d.now self.new }
    {
        self.calls.pop();
        let Some(around) = self.calls.last() else {
            self.goes = Goes::Back;
            return;
        };
        let goes = behind_end(d, self.root, around);
        self.goes = goes;
    }

    // It goes on behind this block of its code, in the one around it.
    fn leave_block(&mut self, block: &Block)
        ensures left { self.new ≡ without_block block.now self.old }
        ensures runs { (d : Shape) → Runs d self.old → Runs d self.new }
    {
        self.stand_in(block.around);
        self.go_on(block.after);
    }

    // The innermost call is in this block of its code.
    fn stand_in(&mut self, block: Option<u32>)
        ensures stands { self.new ≡ standing_in block self.old }
        ensures runs { (d : Shape) → Runs d self.old → Runs d self.new }
    {
        let Some(call) = self.calls.last_mut() else {
            return;
        };
        call.block = block;
    }
}

ghost use Rattle.std.specs.Prelude.{◌≡◌, Ok, IfSome, IfErr, OnOk};
ghost use Rattle.vh_design.specs.Shape.{Shape};
ghost use Rattle.vh_proc.specs.Processes.{AllRun, process_at, without_process, branch_begun, branches_begun, joined, queued};
ghost use Rattle.vh_proc.specs.Steps.{forked};
ghost use Rattle.vh_proc_turn.specs.Own.{FailsBy};

use crate::threads::{Threads, keep};
use std::alloc::Global;
use vh_base::{Fault, MOST_NUMBERS, ProcId};
use vh_design::{Design, Goes};
use vh_proc_turn::{Process, StepFault, Updates, add_entry};
use vh_queue::{Queue, Region, Work};

impl Threads {
    // A branch of a fork begins at a position of the code, with the next number and an entry.
    fn begin_branch(
        &mut self,
        alloc: Global,
        q: &mut Queue,
        p: ProcId,
        position: u32,
    ) -> Result<(), StepFault>
        ensures done { OnOk result (branch_begun p position (queued self.old q.old)
            ≡ Ok (queued self.new q.new)) }
        ensures fails { IfErr result (FailsBy (branch_begun p position (queued self.old q.old))) }
        ensures now { (q.new).time ≡ (q.old).time }
        ensures runs { (d : Shape) → AllRun d self.old → OnOk result (AllRun d self.new) }
    {
        if self.next > MOST_NUMBERS {
            return Err(StepFault::Run(Fault::F3));
        }
        let number = ProcId::new(self.next);
        let time = q.time();
        let serial = add_entry(q, time, Region::Active, Work::Evaluate(number))?;
        let Some(parent) = self.all.get(&p.number()) else {
            return Ok(());
        };
        let process = Process {
            thread: parent.thread.branch(alloc, position)?,
            parent: Some(p),
            left: 0,
            held: None,
            entry: Some(serial),
            updates: Updates::new(alloc),
        };
        let were_kept = self.are_kept;
        self.are_kept = false;
        let are_kept = self.families.join(p, self.next, were_kept)?;
        keep(&mut self.all, self.next, process)?;
        self.next += 1;
        self.are_kept = are_kept;
        Ok(())
    }

    // Branches begin, in order.
    #[tactic(auto, unfolding(crate::specs::Processes::branches_begun))]
    fn begin_branches(
        &mut self,
        alloc: Global,
        q: &mut Queue,
        p: ProcId,
        positions: &[u32],
    ) -> Result<(), StepFault>
        ensures done { OnOk result (branches_begun p positions.now (queued self.old q.old)
            ≡ Ok (queued self.new q.new)) }
        ensures fails { IfErr result (FailsBy (branches_begun p positions.now
            (queued self.old q.old))) }
        ensures now { (q.new).time ≡ (q.old).time }
        ensures runs { (d : Shape) → AllRun d self.old → OnOk result (AllRun d self.new) }
    {
        for position in positions {
            self.begin_branch(alloc, q, p, *position)?;
        }
        Ok(())
    }

    // A process begins branches and waits for them; without a branch it goes on. It stands apart, so that other
    // labels make no room for it.
    #[inline(never)]
    pub(crate) fn fork(
        &mut self,
        alloc: Global,
        d: &Design,
        q: &mut Queue,
        p: ProcId,
        goes: Goes,
        positions: &[u32],
    ) -> Result<(), StepFault>
        requires runs { AllRun d.now self.old }
        ensures done { OnOk result (forked d.now p goes positions.now (queued self.old q.old)
            ≡ Ok (queued self.new q.new)) }
        ensures fails { IfErr result (FailsBy (forked d.now p goes positions.now
            (queued self.old q.old))) }
        ensures now { (q.new).time ≡ (q.old).time }
        ensures runs { OnOk result (AllRun d.now self.new) }
    {
        if positions.is_empty() {
            self.go_on(p, goes);
            return Ok(());
        }
        self.wait_for(p, positions.len() as u64);
        self.begin_branches(alloc, q, p, positions)
    }

    // A process has ended, and its parent with the last of its branches goes on.
    fn join(&mut self, d: &Design, q: &mut Queue, parent: Option<ProcId>) -> Result<(), StepFault>
        requires runs { AllRun d.now self.old }
        ensures done { OnOk result (joined d.now parent (queued self.old q.old)
            ≡ Ok (queued self.new q.new)) }
        ensures fails { IfErr result (FailsBy (joined d.now parent (queued self.old q.old))) }
        ensures now { (q.new).time ≡ (q.old).time }
        ensures runs { OnOk result (AllRun d.now self.new) }
    {
        let Some(p) = parent else {
            return Ok(());
        };
        let Some(process) = self.all.get(&p.number()) else {
            return Ok(());
        };
        let is_last = process.left <= 1;
        let goes = match process.thread.next(d) {
            Some(i) => i.next,
            None => Goes::Back,
        };
        self.lose_one(p);
        if !is_last {
            return Ok(());
        }
        self.go_on(p, goes);
        self.resume(q, p)
    }

    // The end of an `initial` or of a branch. It stands apart for the same reason.
    #[inline(never)]
    pub(crate) fn end(&mut self, d: &Design, q: &mut Queue, p: ProcId) -> Result<(), StepFault>
        requires runs { AllRun d.now self.old }
        ensures done { IfSome (process_at p self.old) (λ t.
            OnOk result (joined d.now t.parent (queued (without_process p self.old) q.old)
            ≡ Ok (queued self.new q.new))) }
        ensures fails { IfSome (process_at p self.old) (λ t.
            IfErr result (FailsBy (joined d.now t.parent (queued
            (without_process p self.old) q.old)))) }
        ensures now { (q.new).time ≡ (q.old).time }
        ensures runs { OnOk result (AllRun d.now self.new) }
    {
        let Some(process) = self.take_out(p.number()) else {
            return Ok(());
        };
        self.join(d, q, process.parent)
    }
}

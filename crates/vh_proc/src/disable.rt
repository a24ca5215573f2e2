ghost use Rattle.std.specs.Prelude.{◌≡◌, Ok, IfSome, IfOk, IfErr, OnOk};
ghost use Rattle.std.specs.BTreeMap.{is_at, IsOrdered};
ghost use Rattle.std.specs.List.{AllByRecursion};
ghost use Rattle.std.specs.Map.{lookup};
ghost use Rattle.std.specs.Ordering.{nat_cmp};
ghost use Rattle.vh_sense.specs.Sensitivity.{without_wait};
ghost use Rattle.vh_proc_thread.specs.Control.{Runs};
ghost use Rattle.vh_proc.specs.Processes.{AllRun, process_at, queued, scheduled};
ghost use Rattle.vh_proc.specs.Disabled.{begun_by, with_stopped, stopped, stopped_of, without_entry, ended_in, left_in, all_ended, all_left, resumed_but, all_resumed};
ghost use Rattle.vh_design.specs.Shape.{Shape};
ghost use Rattle.vh_proc.specs.Steps.{before_disable, disabled_by, after_disable};
ghost use Rattle.vh_proc.specs.Views.{HoldsAll, found_seen, nobody, with_noted};
ghost use Rattle.vh_proc.specs.Families.{HasAll};
ghost use Rattle.vh_proc_turn.specs.Own.{FailsBy};

use crate::families::Family;
use crate::layout::{Layout, Owner};
use crate::threads::Threads;
use std::alloc::Global;
use std::collections::{BTreeMap, BTreeSet};
use vh_base::{NoMemory, ObjId, ProcId};
use vh_design::{Design, Goes};
use vh_proc_turn::{Next, Process, StepFault};
use vh_queue::Queue;
use vh_sense::Sense;

// The processes that a disable stops, by rising number: those that end, and those that leave; and
// all of them, to ask for one.
#[derive(Drop)]
pub(crate) struct Stopped {
    ends: Vec<u64>,
    leaves: Vec<u64>,
    all: BTreeSet<u64, Global>,
}

impl Stopped {
    // None yet.
    fn none(alloc: Global) -> Stopped
        ensures none { found_seen result ≡ nobody }
        ensures all { HoldsAll result }
    {
        Stopped {
            ends: Vec::new(alloc),
            leaves: Vec::new(alloc),
            all: BTreeSet::new(alloc),
        }
    }

    // Has one of these begun it?
    fn has_begun(&self, process: &Process) -> bool
        requires { HoldsAll self.now }
        ensures { result ≡ begun_by (found_seen self.now) process.now }
    {
        let Some(parent) = process.parent else {
            return false;
        };
        self.all.contains(&parent.number())
    }

    // Notes a process, where it is stopped.
    fn note(&mut self, d: &Design, target: ObjId, p: u64, process: &Process) -> Result<(), NoMemory>
        requires runs { Runs d.now (process.now).thread }
        requires all { HoldsAll self.old }
        ensures noted { OnOk result (found_seen self.new
            ≡ with_stopped d.now target (found_seen self.old) p process.now) }
        ensures all { OnOk result (HoldsAll self.new) }
    {
        if self.has_begun(process) {
            self.ends.push(p)?;
            self.all.insert(p)?;
        } else if process.thread.is_inside(d, target) {
            self.leaves.push(p)?;
            self.all.insert(p)?;
        }
        Ok(())
    }
}

// Notes the process of a number, where it is there and stopped.
fn note_one(
    d: &Design,
    target: ObjId,
    all: &BTreeMap<u64, Process, Global>,
    p: u64,
    found: &mut Stopped,
) -> Result<(), NoMemory>
    requires runs { AllByRecursion (λ e. Runs d.now e.1.thread) all.now.entries }
    requires all { HoldsAll found.old }
    ensures noted { OnOk result (found_seen found.new
        ≡ with_noted d.now target (found_seen found.old) p
        (lookup (is_at (nat_cmp p)) all.now.entries)) }
    ensures all { OnOk result (HoldsAll found.new) }
{
    match all.get(&p) {
        Some(process) => found.note(d, target, p, process),
        None => Ok(()),
    }
}

// The processes stand by rising number; it is there for the prover.
fn rise(all: &BTreeMap<u64, Process, Global>)
    ensures { IsOrdered nat_cmp all.now }
{
    all.len();
}

// The processes that a disable stops, among all.
#[tactic(auto, unfolding(crate::specs::Disabled::stopped_of))]
fn stopped_of_all(
    alloc: Global,
    d: &Design,
    target: ObjId,
    all: &BTreeMap<u64, Process, Global>,
) -> Result<Stopped, NoMemory>
    requires { AllByRecursion (λ e. Runs d.now e.1.thread) all.now.entries }
    ensures found { IfOk result (λ found. found_seen found
        ≡ stopped_of d.now target nobody all.now.entries) }
    ensures all { IfOk result HoldsAll }
{
    let mut found = Stopped::none(alloc);
    for (p, process) in all.iter() {
        found.note(d, target, *p, process)?;
    }
    Ok(found)
}

// Those, where all of them are in a family.
fn stopped_of_family(
    alloc: Global,
    d: &Design,
    target: ObjId,
    all: &BTreeMap<u64, Process, Global>,
    family: &Family,
) -> Result<Stopped, NoMemory>
    requires runs { AllByRecursion (λ e. Runs d.now e.1.thread) all.now.entries }
    requires has_all { HasAll d.now target family.now all.now.entries }
    ensures found { IfOk result (λ found. found_seen found
        ≡ stopped_of d.now target nobody all.now.entries) }
    ensures all { IfOk result HoldsAll }
{
    rise(all);
    let mut found = Stopped::none(alloc);
    for p in family.iter() {
        note_one(d, target, all, *p, &mut found)?;
    }
    Ok(found)
}

// A process waits for nothing any more.
fn halt(sense: &mut Sense, q: &mut Queue, p: ProcId, process: &Process)
    ensures wait { sense.new ≡ without_wait p sense.old }
    ensures entry { q.new ≡ without_entry (process.now).entry q.old }
    ensures kept { (sense.new).waits ≡ (sense.old).waits }
    ensures now { (q.new).time ≡ (q.old).time }
{
    sense.forget(p);
    if let Some(serial) = process.entry {
        q.cancel(serial);
    }
}

impl Threads {
    // The family that has all whom a disable stops, where the block is in the code of one process
    // of the design alone.
    fn family_of(&self, d: &Layout, target: ObjId) -> Option<&Family>
        requires { AllRun d.now self.now }
        ensures { IfSome result (λ family. HasAll d.now target family.now (self.now).all) }
    {
        if !self.are_kept {
            return None;
        }
        let Some(Owner::Process(root)) = d.owner(target) else {
            return None;
        };
        let Some(family) = self.families.sets.get(root as usize) else {
            return None;
        };
        Some(family)
    }

    // All whom it may stop, where the block is in the body of one task or function alone, or is
    // one: those that come from its callers.
    fn callers_of(
        &self,
        alloc: Global,
        d: &Layout,
        target: ObjId,
    ) -> Result<Option<Family>, NoMemory>
        requires { AllRun d.now self.now }
        ensures { IfOk result (λ them. IfSome them
            (λ family. HasAll d.now target family (self.now).all)) }
    {
        if !self.are_kept {
            return Ok(None);
        }
        let Some(Owner::Routine(r)) = d.owner(target) else {
            return Ok(None);
        };
        let family = self.families.of_callers(alloc, r)?;
        Ok(Some(family))
    }

    // Callers of whom nobody is in a call any more are forgotten. It stands apart for the same reason.
    #[inline(never)]
    pub(crate) fn forget_idle(
        &mut self,
        alloc: Global,
        d: &Layout,
        target: ObjId,
    ) -> Result<(), NoMemory>
        requires { AllRun d.now self.old }
        ensures { self.new ≡ self.old }
    {
        if !self.are_kept {
            return Ok(());
        }
        let Some(Owner::Routine(r)) = d.owner(target) else {
            return Ok(());
        };
        rise(&self.all);
        self.are_kept = false;
        self.families.forget_idle(alloc, d.design(), &self.all, r)?;
        self.are_kept = true;
        Ok(())
    }

    // The processes that a disable stops: where the block is in one code alone, of those that come
    // from its process or its callers, else of all.
    fn stopped(&self, alloc: Global, d: &Layout, target: ObjId) -> Result<Stopped, NoMemory>
        requires { AllRun d.now self.now }
        ensures found { IfOk result (λ found. found_seen found ≡ stopped d.now target self.now) }
        ensures all { IfOk result HoldsAll }
    {
        let design = d.design();
        if let Some(family) = self.family_of(d, target) {
            return stopped_of_family(alloc, design, target, &self.all, family);
        }
        if let Some(family) = self.callers_of(alloc, d, target)? {
            return stopped_of_family(alloc, design, target, &self.all, &family);
        }
        stopped_of_all(alloc, design, target, &self.all)
    }

    // A process ends.
    fn end_one(&mut self, sense: &mut Sense, q: &mut Queue, p: u64)
        ensures ended { scheduled self.new sense.new q.new
            ≡ ended_in (process_at p self.old) p (scheduled self.old sense.old q.old) }
        ensures waits { (sense.new).waits ≡ (sense.old).waits }
        ensures now { (q.new).time ≡ (q.old).time }
        ensures runs { (d : Shape) → AllRun d self.old → AllRun d self.new }
    {
        if let Some(process) = self.take_out(p) {
            halt(sense, q, ProcId::new(p), &process);
        }
    }

    // A process leaves the block or task.
    fn leave_one(&mut self, d: &Design, target: ObjId, sense: &mut Sense, q: &mut Queue, p: u64)
        requires { AllRun d.now self.old }
        ensures left { scheduled self.new sense.new q.new
            ≡ left_in d.now target (process_at p self.old) p (scheduled self.old sense.old q.old) }
        ensures waits { (sense.new).waits ≡ (sense.old).waits }
        ensures now { (q.new).time ≡ (q.old).time }
        ensures runs { AllRun d.now self.new }
    {
        if let Some(process) = self.all.get_mut(&p) {
            halt(sense, q, ProcId::new(p), process);
            process.thread.disable(d, target);
            process.left = 0;
            process.entry = None;
        }
    }

    // These processes end.
    #[tactic(auto, unfolding(crate::specs::Disabled::all_ended))]
    fn end_all(&mut self, sense: &mut Sense, q: &mut Queue, ends: &[u64])
        ensures ended { scheduled self.new sense.new q.new
            ≡ all_ended ends.now (scheduled self.old sense.old q.old) }
        ensures waits { (sense.new).waits ≡ (sense.old).waits }
        ensures now { (q.new).time ≡ (q.old).time }
        ensures runs { (d : Shape) → AllRun d self.old → AllRun d self.new }
    {
        for p in ends {
            self.end_one(sense, q, *p);
        }
    }

    // These leave the block or task.
    #[tactic(auto, unfolding(crate::specs::Disabled::all_left))]
    fn leave_all(
        &mut self,
        d: &Design,
        target: ObjId,
        sense: &mut Sense,
        q: &mut Queue,
        leaves: &[u64],
    )
        requires { AllRun d.now self.old }
        ensures left { scheduled self.new sense.new q.new
            ≡ all_left d.now target leaves.now (scheduled self.old sense.old q.old) }
        ensures waits { (sense.new).waits ≡ (sense.old).waits }
        ensures now { (q.new).time ≡ (q.old).time }
        ensures runs { AllRun d.now self.new }
    {
        for p in leaves {
            self.leave_one(d, target, sense, q, *p);
        }
    }

    // A process gets an evaluation entry, where it isn't the one that executes the disable.
    fn resume_but(&mut self, q: &mut Queue, own: ProcId, p: u64) -> Result<(), StepFault>
        ensures done { OnOk result (resumed_but own p (queued self.old q.old)
            ≡ Ok (queued self.new q.new)) }
        ensures fails { IfErr result (FailsBy (resumed_but own p (queued self.old q.old))) }
        ensures now { (q.new).time ≡ (q.old).time }
        ensures runs { (d : Shape) → AllRun d self.old → OnOk result (AllRun d self.new) }
    {
        if p == own.number() {
            return Ok(());
        }
        self.resume(q, ProcId::new(p))
    }

    // Each of these does so.
    #[tactic(auto, unfolding(crate::specs::Disabled::all_resumed))]
    fn resume_all(&mut self, q: &mut Queue, own: ProcId, leaves: &[u64]) -> Result<(), StepFault>
        ensures done { OnOk result (all_resumed own leaves.now (queued self.old q.old)
            ≡ Ok (queued self.new q.new)) }
        ensures fails { IfErr result (FailsBy (all_resumed own leaves.now
            (queued self.old q.old))) }
        ensures now { (q.new).time ≡ (q.old).time }
        ensures runs { (d : Shape) → AllRun d self.old → OnOk result (AllRun d self.new) }
    {
        for p in leaves {
            self.resume_but(q, own, *p)?;
        }
        Ok(())
    }

    // The process that executes a disable goes on, where it isn't inside itself.
    fn pass(&mut self, d: &Design, own: ProcId, goes: Goes, target: ObjId)
        requires { AllRun d.now self.old }
        ensures on { self.new ≡ before_disable d.now target own goes self.old }
        ensures runs { AllRun d.now self.new }
    {
        let Some(process) = self.all.get(&own.number()) else {
            return;
        };
        if !process.thread.is_inside(d, target) {
            self.go_on(own, goes);
        }
    }

    // What it does next.
    fn next_after(&self, found: &Stopped, own: ProcId) -> Next
        requires { HoldsAll found.now }
        ensures { result ≡ after_disable (found_seen found.now) own self.now }
    {
        match self.all.get(&own.number()) {
            Some(process) if found.has_begun(process) => Next::Ends,
            _ => Next::On,
        }
    }

    // A process disables a named block or task; answers what it does next. It stands apart, so that other
    // labels make no room for it.
    #[inline(never)]
    pub(crate) fn disable(
        &mut self,
        alloc: Global,
        d: &Layout,
        sense: &mut Sense,
        q: &mut Queue,
        own: ProcId,
        goes: Goes,
        target: ObjId,
    ) -> Result<Next, StepFault>
        requires { AllRun d.now self.old }
        ensures done { OnOk result (disabled_by d.now target own goes
            (scheduled self.old sense.old q.old) ≡ Ok (scheduled self.new sense.new q.new)) }
        ensures next { IfOk result (λ n. n
            ≡ after_disable (stopped d.now target self.old) own self.old) }
        ensures fails { IfErr result (FailsBy (disabled_by d.now target own goes
            (scheduled self.old sense.old q.old))) }
        ensures waits { (sense.new).waits ≡ (sense.old).waits }
        ensures now { (q.new).time ≡ (q.old).time }
        ensures runs { OnOk result (AllRun d.now self.new) }
    {
        let found = self.stopped(alloc, d, target)?;
        let next = self.next_after(&found, own);
        let design = d.design();
        self.pass(design, own, goes, target);
        self.end_all(sense, q, &found.ends);
        self.leave_all(design, target, sense, q, &found.leaves);
        self.resume_all(q, own, &found.leaves)?;
        Ok(next)
    }
}

ghost use Rattle.std.specs.Prelude.{◌≡◌, [], true, Some, None, Ok, Err, IfSome, IfNone, IfOk, IfErr, OnOk};
ghost use Rattle.std.specs.BTreeMap.{insert_entry};
ghost use Rattle.std.specs.Ordering.{nat_cmp};
ghost use Rattle.vh_design.specs.Shape.{Shape};
ghost use Rattle.vh_design.specs.Validity.{IsValid};
ghost use Rattle.vh_proc.specs.Processes.{AllRun, process_at, without_process, changed, arrived_in, gone_on, with_left, one_less, opening, noted, resumed, queued, world_of, step_with};
ghost use Rattle.vh_proc.specs.Steps.{StandsBefore, step_of, step_at, single_step, alone, after_fork};
ghost use Rattle.vh_proc_turn.specs.Turns.{is_own};
ghost use Rattle.vh_proc_turn.specs.Own.{FailsBy};

use crate::families::Families;
use crate::layout::Layout;
use crate::stepped::{MadeList, Stepped};
use std::alloc::Global;
use std::collections::BTreeMap;
use std::marker::Model;
use std::mem;
use vh_base::{NoMemory, ProcId, Sequence, Serial};
use vh_design::{Design, Goes, Instruction, Made, Operation, Single};
use vh_proc_thread::Thread;
use vh_proc_turn::{Next, Process, Room, StepFault, Updates, add_entry, turn};
use vh_queue::{Queue, Region, Work};
use vh_sense::Sense;
use vh_store::Store;

/// The processes of a simulation, which contracts see as `Processes`.
#[derive(Drop)]
pub struct Threads {
    pub(crate) all: BTreeMap<u64, Process, Global>,
    pub(crate) next: u64,
    pub(crate) families: Families,
    // whether each process is in its family
    pub(crate) are_kept: bool,
    room: Room,
}

impl Model for Threads {
    ghost use Rattle.std.specs.Prelude.{◌≡◌, true};
    ghost use Rattle.vh_proc.specs.Families.{AreKept};
    ghost use Rattle.vh_proc.specs.Processes.{Processes};

    ghost Value = { Processes };

    ghost view = { λ s. record { all = s.all.entries; next = s.next } };

    ghost invariant = { λ s. s.are_kept ≡ true → AreKept s.families s.next s.all.entries };
}

// What a label came to that changed no value.
pub(crate) fn quietly(alloc: Global, next: Next) -> Stepped
    ensures made { result.made ≡ [] }
    ensures next { result.next ≡ next }
{
    Stepped {
        made: Sequence::new(Vec::new(alloc)),
        next,
    }
}

// The rules that a design keeps; it is there for the prover.
fn keeps_rules(d: &Design)
    ensures { IsValid d.now }
{
    d.counts();
}

// A process gets its number.
pub(crate) fn keep(
    all: &mut BTreeMap<u64, Process, Global>,
    number: u64,
    process: Process,
) -> Result<(), NoMemory>
    ensures { OnOk result (all.new.entries ≡ insert_entry nat_cmp all.old.entries number process) }
{
    all.insert(number, process)?;
    Ok(())
}

// What a process does behind a fork with these branches.
fn after_fork(positions: &[u32]) -> Next
    ensures { result ≡ after_fork positions.now }
{
    if positions.is_empty() {
        return Next::On;
    }
    Next::Waits
}

impl Threads {
    /// The processes of a design, each at its beginning.
    pub fn new(alloc: Global, d: &Design) -> Result<Threads, NoMemory>
        ensures opening { IfOk result (λ ps. ps ≡ opening d.now) }
        ensures runs { IfOk result (AllRun d.now) }
    {
        let mut all = BTreeMap::new(alloc);
        let mut families = Families::none(alloc);
        let count = u64::from(d.counts().processes);
        for k in 0..count {
            families.own(alloc, k)?;
            let process = Process {
                thread: Thread::of_process(alloc, d, ProcId::new(k))?,
                parent: None,
                left: 0,
                held: None,
                entry: None,
                updates: Updates::new(alloc),
            };
            keep(&mut all, k, process)?;
        }
        Ok(Threads {
            all,
            next: count,
            families,
            are_kept: true,
            room: Room {
                pieces: Vec::new(alloc),
                made: Vec::new(alloc),
            },
        })
    }

    /// Notes the evaluation entry that was added for a process, so that a `disable` finds it.
    pub fn entered(&mut self, p: ProcId, e: Serial)
        ensures noted { self.new ≡ noted p e self.old }
        ensures runs { (d : Shape) → AllRun d self.old → AllRun d self.new }
    {
        if let Some(process) = self.all.get_mut(&p.number()) {
            process.entry = Some(e);
        }
    }

    /// An empty list for what a label changes: the room of one that was kept.
    pub fn take_list(&mut self, alloc: Global) -> Vec<Made>
        ensures empty { result.items ≡ [] }
        ensures same { self.new ≡ self.old }
    {
        let mut made = mem::replace(&mut self.room.made, Vec::new(alloc));
        made.clear();
        made
    }

    /// Keeps the room of such a list for the labels that follow, where it is larger than that which
    /// is kept, so that these take no memory.
    pub fn keep_list(&mut self, made: MadeList)
        ensures { self.new ≡ self.old }
    {
        let made = made.into_vec();
        if made.capacity() > self.room.made.capacity() {
            self.room.made = made;
        }
    }

    // A process is gone.
    pub(crate) fn take_out(&mut self, p: u64) -> Option<Process>
        ensures process { result ≡ process_at p self.old }
        ensures gone { self.new ≡ without_process p self.old }
        ensures runs { (d : Shape) → AllRun d self.old → AllRun d self.new }
    {
        let process = self.all.remove(&p)?;
        self.families.leave(p);
        Some(process)
    }

    // A process performs a label.
    fn arrive(&mut self, d: &Design, p: ProcId)
        requires { AllRun d.now self.old }
        ensures arrived { self.new ≡ arrived_in d.now p self.old }
        ensures runs { AllRun d.now self.new }
    {
        if let Some(process) = self.all.get_mut(&p.number()) {
            process.thread.arrive(d);
        }
    }

    // A process goes on there.
    pub(crate) fn go_on(&mut self, p: ProcId, goes: Goes)
        ensures on { self.new ≡ gone_on p goes self.old }
        ensures runs { (d : Shape) → AllRun d self.old → AllRun d self.new }
    {
        if let Some(process) = self.all.get_mut(&p.number()) {
            process.thread.go_on(goes);
        }
    }

    // A process waits for so many branches.
    pub(crate) fn wait_for(&mut self, p: ProcId, count: u64)
        ensures left { self.new ≡ changed p (with_left count) self.old }
        ensures runs { (d : Shape) → AllRun d self.old → AllRun d self.new }
    {
        if let Some(process) = self.all.get_mut(&p.number()) {
            process.left = count;
        }
    }

    // One of these has ended.
    pub(crate) fn lose_one(&mut self, p: ProcId)
        ensures left { self.new ≡ changed p one_less self.old }
        ensures runs { (d : Shape) → AllRun d self.old → AllRun d self.new }
    {
        if let Some(process) = self.all.get_mut(&p.number()) {
            process.left = process.left.saturating_sub(1);
        }
    }

    /// A process gets an evaluation entry, now.
    pub fn resume(&mut self, q: &mut Queue, p: ProcId) -> Result<(), StepFault>
        ensures done { OnOk result (resumed p (queued self.old q.old)
            ≡ Ok (queued self.new q.new)) }
        ensures fails { IfErr result (FailsBy (resumed p (queued self.old q.old))) }
        ensures now { (q.new).time ≡ (q.old).time }
        ensures runs { (d : Shape) → AllRun d self.old → OnOk result (AllRun d self.new) }
    {
        let time = q.time();
        let serial = add_entry(q, time, Region::Active, Work::Evaluate(p))?;
        self.entered(p, serial);
        Ok(())
    }

    // A label that touches no other process.
    fn alone(
        &mut self,
        alloc: Global,
        d: &Design,
        s: &mut Store,
        sense: &mut Sense,
        q: &mut Queue,
        p: ProcId,
        i: &Instruction,
    ) -> Result<Stepped, StepFault>
        requires stands { StandsBefore d.now i.now p self.old }
        requires said { is_own i.now.operation ≡ true }
        requires waits { (sense.old).waits ≡ (d.now).waits }
        requires now { (s.old).time ≡ (q.old).time }
        ensures done { IfSome (process_at p self.old) (λ t. IfOk result
            (λ r. alone d.now p t i.now (world_of self.old s.old sense.old q.old)
            ≡ Ok (step_with (world_of self.new s.new sense.new q.new) r.made r.next))) }
        ensures fails { IfSome (process_at p self.old) (λ t.
            IfErr result (FailsBy (alone d.now p t i.now
            (world_of self.old s.old sense.old q.old)))) }
        ensures time { (s.new).time ≡ (s.old).time }
        ensures kept { (sense.new).waits ≡ (sense.old).waits }
        ensures still { (q.new).time ≡ (q.old).time }
        ensures runs { OnOk result (AllRun d.now self.new) }
    {
        self.room.made.clear();
        let were_kept = self.are_kept;
        self.are_kept = false;
        self.families.arrive(alloc, p, i)?;
        let Some(process) = self.all.get_mut(&p.number()) else {
            unreachable!();
        };
        let next = turn(d, process, s, sense, q, p, i, &mut self.room)?;
        self.are_kept = were_kept;
        let made = mem::replace(&mut self.room.made, Vec::new(alloc));
        Ok(Stepped {
            made: Sequence::new(made),
            next,
        })
    }

    // A statement with one label that goes on at once.
    fn single(
        &mut self,
        alloc: Global,
        d: &Layout,
        s: &mut Store,
        sense: &mut Sense,
        q: &mut Queue,
        p: ProcId,
        i: &Instruction,
        it: Single,
    ) -> Result<Stepped, StepFault>
        requires stands { StandsBefore d.now i.now p self.old }
        requires is { i.now.operation ≡ Operation.Single it }
        requires waits { (sense.old).waits ≡ (d.now).waits }
        requires now { (s.old).time ≡ (q.old).time }
        ensures done { IfSome (process_at p self.old) (λ t. IfOk result
            (λ r. single_step d.now p t i.now it (world_of self.old s.old sense.old q.old)
            ≡ Ok (step_with (world_of self.new s.new sense.new q.new) r.made r.next))) }
        ensures fails { IfSome (process_at p self.old) (λ t.
            IfErr result (FailsBy (single_step d.now p t i.now it
            (world_of self.old s.old sense.old q.old)))) }
        ensures time { (s.new).time ≡ (s.old).time }
        ensures kept { (sense.new).waits ≡ (sense.old).waits }
        ensures still { (q.new).time ≡ (q.old).time }
        ensures runs { OnOk result (AllRun d.now self.new) }
    {
        match it {
            Single::Disable(target) => {
                self.arrive(d.design(), p);
                let next = self.disable(alloc, d, sense, q, p, i.next, target)?;
                self.forget_idle(alloc, d, target)?;
                Ok(quietly(alloc, next))
            }
            _ => self.alone(alloc, d.design(), s, sense, q, p, i),
        }
    }

    /// Performs the next label of a process; none where it has none.
    pub fn step(
        &mut self,
        alloc: Global,
        d: &Layout,
        s: &mut Store,
        sense: &mut Sense,
        q: &mut Queue,
        p: ProcId,
    ) -> Result<Option<Stepped>, StepFault>
        requires runs { AllRun d.now self.old }
        requires waits { (sense.old).waits ≡ (d.now).waits }
        requires now { (s.old).time ≡ (q.old).time }
        ensures done { IfOk result (λ o. IfSome o (λ r.
            step_of d.now p (world_of self.old s.old sense.old q.old)
            ≡ Ok (step_with (world_of self.new s.new sense.new q.new) r.made r.next))) }
        ensures none { IfOk result (λ o. IfNone o
            (step_of d.now p (world_of self.old s.old sense.old q.old) ≡ Err None)) }
        ensures same { IfOk result (λ o. IfNone o (world_of self.new s.new sense.new q.new
            ≡ world_of self.old s.old sense.old q.old)) }
        ensures fails { IfErr result (FailsBy (step_of d.now p
            (world_of self.old s.old sense.old q.old))) }
        ensures time { (s.new).time ≡ (s.old).time }
        ensures kept { (sense.new).waits ≡ (sense.old).waits }
        ensures still { (q.new).time ≡ (q.old).time }
        ensures runs { OnOk result (AllRun d.now self.new) }
    {
        let design = d.design();
        keeps_rules(design);
        let Some(process) = self.all.get(&p.number()) else {
            return Ok(None);
        };
        let Some(i) = process.thread.next(design) else {
            return Ok(None);
        };
        let stepped = self.perform(alloc, d, s, sense, q, p, i)?;
        Ok(Some(stepped))
    }

    // Performs a label of a process, which is its next one.
    fn perform(
        &mut self,
        alloc: Global,
        d: &Layout,
        s: &mut Store,
        sense: &mut Sense,
        q: &mut Queue,
        p: ProcId,
        i: &Instruction,
    ) -> Result<Stepped, StepFault>
        requires stands { StandsBefore d.now i.now p self.old }
        requires waits { (sense.old).waits ≡ (d.now).waits }
        requires now { (s.old).time ≡ (q.old).time }
        ensures done { IfSome (process_at p self.old) (λ t. IfOk result
            (λ r. step_at d.now p t i.now i.now.operation (world_of self.old s.old sense.old q.old)
            ≡ Ok (step_with (world_of self.new s.new sense.new q.new) r.made r.next))) }
        ensures fails { IfSome (process_at p self.old) (λ t.
            IfErr result (FailsBy (step_at d.now p t i.now i.now.operation
            (world_of self.old s.old sense.old q.old)))) }
        ensures time { (s.new).time ≡ (s.old).time }
        ensures kept { (sense.new).waits ≡ (sense.old).waits }
        ensures still { (q.new).time ≡ (q.old).time }
        ensures runs { OnOk result (AllRun d.now self.new) }
    {
        let design = d.design();
        match &i.operation {
            Operation::Fork(positions) => {
                self.arrive(design, p);
                self.fork(alloc, design, q, p, i.next, positions.as_slice())?;
                Ok(quietly(alloc, after_fork(positions.as_slice())))
            }
            Operation::End => {
                self.end(design, q, p)?;
                Ok(quietly(alloc, Next::Ends))
            }
            Operation::Initial { .. } => {
                let stepped = self.alone(alloc, design, s, sense, q, p, i)?;
                self.take_out(p.number());
                Ok(stepped)
            }
            Operation::Single(it) => self.single(alloc, d, s, sense, q, p, i, *it),
            _ => self.alone(alloc, design, s, sense, q, p, i),
        }
    }
}

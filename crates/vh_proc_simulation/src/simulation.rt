ghost use Rattle.std.specs.Prelude.{◌≡◌, ◌<◌, ◌≤◌, length, slice_get, Some, IfOk, OnOk};
ghost use Rattle.vh_base.specs.declared.limits.TheConstants.{MOST_ENTRIES};
ghost use Rattle.vh_design.specs.Shape.{Shape};
ghost use Rattle.vh_proc.specs.Processes.{AllRun, queued};
ghost use Rattle.vh_queue.specs.Events.{no_events, eligible, without, cleared, next_region, activated_next, least_time};
ghost use Rattle.vh_proc_simulation.specs.Activity.{IsOpening, evaluations, stopped};
ghost use Rattle.vh_proc_simulation.specs.Labels.{at_next_time};

use crate::follows::Follows;
use crate::monitor::Monitor;
use std::alloc::Global;
use std::marker::Model;
use vh_base::{MOST_ENTRIES, NoMemory, ProcId, Sequence};
use vh_design::Design;
use vh_proc::{Layout, Threads};
use vh_queue::{AddFault, Entry, Queue, Region, Work};
use vh_sense::Sense;
use vh_store::Store;

/// A design as it is simulated, which contracts see as its `Activity`. After a fault nothing is
/// left of it but the design and the time, and each further label is answered by want of memory.
#[derive(Drop)]
pub struct Simulation {
    pub(crate) design: Layout,
    pub(crate) threads: Threads,
    pub(crate) store: Store,
    pub(crate) sense: Sense,
    pub(crate) follows: Follows,
    pub(crate) queue: Queue,
    pub(crate) monitor: Monitor,
    // whether a label wasn't brought to its end: nothing but the design and the time is seen
    pub(crate) is_broken: bool,
}

impl Model for Simulation {
    ghost use Rattle.std.specs.Prelude.{◌≡◌, false, if◌then◌else◌};
    ghost use Rattle.vh_proc_simulation.specs.Activity.{Activity, IsSound, activity, stopped_at};

    ghost Value = { Activity };

    ghost view = { λ s. if s.is_broken then stopped_at s.design s.queue.time
        else activity s.design s.threads s.store s.sense s.follows s.queue s.monitor };

    ghost invariant = { λ s. s.is_broken ≡ false →
        IsSound (activity s.design s.threads s.store s.sense s.follows s.queue s.monitor) };
}

// An evaluation of each of so many processes.
fn enter_processes(q: &mut Queue, threads: &mut Threads, count: u64) -> Result<(), NoMemory>
    requires few { count ≤ MOST_ENTRIES }
    requires empty { q.old ≡ no_events }
    ensures entered { OnOk result (queued threads.new q.new ≡ evaluations count threads.old) }
    ensures runs { (d : Shape) → AllRun d threads.old → AllRun d threads.new }
{
    for p in 0..count {
        let p = ProcId::new(p);
        match q.add(Some(0), Region::Active, Work::Evaluate(p)) {
            Ok(serial) => threads.entered(p, serial),
            Err(AddFault::Full) => unreachable!(),
            Err(AddFault::NoMemory) => return Err(NoMemory),
        }
    }
    Ok(())
}

impl Simulation {
    /// A design before all: time is 0, and each process has an evaluation entry; where more are
    /// than
    /// the queue has room for, none has one.
    pub fn new(alloc: Global, design: Design) -> Result<Simulation, NoMemory>
        ensures { IfOk result (IsOpening design) }
    {
        let layout = Layout::new(alloc, design)?;
        let design = layout.design();
        let mut threads = Threads::new(alloc, design)?;
        let mut queue = Queue::new(alloc)?;
        let count = design.counts().processes;
        if count as usize <= MOST_ENTRIES {
            enter_processes(&mut queue, &mut threads, u64::from(count))?;
        }
        let store = Store::new(alloc, design)?;
        let sense = Sense::new(alloc, design)?;
        Ok(Simulation {
            design: layout,
            threads,
            store,
            sense,
            follows: Follows::new(alloc),
            queue,
            monitor: Monitor {
                call: None,
                is_new: false,
                stands: false,
                values: Sequence::new(Vec::new(alloc)),
            },
            is_broken: false,
        })
    }

    /// The design.
    pub fn design(&self) -> &Design
        ensures { result.now ≡ (self.now).design }
    {
        self.design.design()
    }

    /// The present time, in units of the simulation's precision.
    pub fn time(&self) -> u64
        ensures { result ≡ (self.now).queue.time }
    {
        self.queue.time()
    }

    /// How many entries may be picked.
    pub fn choices(&self) -> u32
        ensures { result ≡ length (eligible (self.now).queue) }
    {
        if self.is_broken {
            return 0;
        }
        self.queue.choices()
    }

    /// Takes the k-th of these out of the queue.
    pub fn pick(&mut self, k: u32) -> Entry
        requires { k < length (eligible (self.old).queue) }
        ensures entry { slice_get (eligible (self.old).queue) k ≡ Some result }
        ensures gone { self.new
            ≡ record self.old { queue = without result.serial (self.old).queue } }
    {
        if self.is_broken {
            unreachable!();
        }
        self.queue.pick(k)
    }

    /// The entries of the next region become active (IEEE 1364-2005, 11.3); none where no region
    /// has
    /// an entry of the present time.
    pub fn activate(&mut self) -> Option<Region>
        ensures region { result ≡ next_region (self.old).queue }
        ensures active { self.new ≡ record self.old {
          queue = activated_next (next_region (self.old).queue) (self.old).queue;
        } }
    {
        if self.is_broken {
            return None;
        }
        self.queue.activate()
    }

    /// Time goes on to the least time of an entry, where one is left.
    pub fn advance(&mut self) -> Option<u64>
        ensures time { result ≡ least_time (self.old).queue.entries }
        ensures active { self.new ≡ at_next_time (least_time (self.old).queue.entries) self.old }
    {
        if self.is_broken {
            return None;
        }
        let time = self.queue.advance()?;
        self.store.set_time(time);
        Some(time)
    }

    /// No entry is left.
    pub fn clear(&mut self)
        ensures { self.new ≡ record self.old { queue = cleared (self.old).queue } }
    {
        if !self.is_broken {
            self.queue.clear();
        }
    }

    /// Nothing is left but the design and the time.
    pub fn stop(&mut self)
        ensures { self.new ≡ stopped self.old }
    {
        self.is_broken = true;
    }
}

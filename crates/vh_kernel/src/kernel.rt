ghost use Rattle.std.specs.Prelude.{◌≡◌, ◌<◌, ℕ, false, List, [], Some, is_some, slice_get, length, ◌^◌, IfOk};
ghost use Rattle.vh_queue.specs.Events.{eligible, next_region, least_time};
ghost use Rattle.vh_orders.specs.Names.{name_of};

mod callbacks;
mod frames;
mod opening;
mod processes;
mod settling;

use crate::activation::{Activation, startup_seen};
use crate::control::{Control, Stack};
use crate::label::Label;
use crate::occurrence::{Agendum, Occurrence};
use crate::ordered::Ordered;
use crate::texts::Texts;
use std::alloc::Global;
use std::collections::VecDeque;
use vh_app::Script;
use vh_base::{Cause, Fault, MOST_ENTRIES, NoMemory, ObjId, Reason, Seen};
use vh_design::Design;
use vh_orders::{Ending, Phase, Who, World};

/// The machine of one design with its scripts. What it shows is a state; each call of
/// [`Kernel::step`] takes the logarithm of the entries that stand in the queue, goes over those
/// that become active, and once, where the first order looks for a name, over the design's names,
/// and takes no other time that grows with the design.
#[derive(Drop)]
pub struct Kernel {
    world: World,
    control: Stack,
    agenda: VecDeque<Agendum>,
    occurrence: u64,
    // memory of what an activation saw, which the next one takes, and of an order that was told
    spare: Option<Box<Seen>>,
    spare_order: Option<Ordered>,
    // and for the texts of values
    texts: Texts,
}

impl Kernel {
    ghost use Rattle.vh_kernel.specs.Line.{script_name};
    ghost use Rattle.vh_kernel.specs.Outcome.{end_move, fault_move};
    ghost use Rattle.vh_kernel.specs.Settle.{Opens};
    ghost use Rattle.vh_kernel.specs.Step.{finish_move, time_move, region_move, pick_move, agenda_move, idle_move, crowded_move, top_move, item_move, is_crowded, is_end, step_of, next_given, IsStep, choices_of, top_choices, item_choices, idle_choices, agenda_choices, frame_of};
    ghost use Rattle.vh_kernel.specs.Views.{state_of, given_by, Moves};

    /// The machine at the opening of a design with its scripts.
    pub fn new(alloc: Global, design: Design, scripts: Vec<Script>) -> Result<Kernel, NoMemory>
        requires few { length scripts.items < 2 ^ 32 }
        ensures opens { IfOk result (λ k. Opens design scripts.items (state_of k)) }
        ensures goes { IfOk result (λ k. 0 < choices_of (state_of k)) }
    {
        let mut kernel = Kernel::before_all(alloc, design, scripts)?;
        kernel.settle();
        Ok(kernel)
    }

    /// The present time, in units of the simulation's precision.
    pub fn time(&self) -> u64
        ensures { result ≡ (state_of self.now).world.activity.queue.time }
    {
        self.world.simulation.time()
    }

    // The full name of an object; no bytes where the design has no such object.
    pub(crate) fn object_name(&self, id: ObjId) -> &[u8]
        ensures { result.now ≡ name_of id (state_of self.now).world.names }
    {
        self.world.object_name(id)
    }

    // The name of a script by its number from 1; no bytes where there is no such script.
    pub(crate) fn script_name(&self, number: u32) -> &[u8]
        ensures { result.now ≡ script_name number (state_of self.now) }
    {
        match self.world.scripts.get(number.saturating_sub(1) as usize) {
            Some(script) => script.name().bytes(),
            None => &[],
        }
    }

    // Are there more processes than the queue has room for?
    fn is_crowded(&self) -> bool
        ensures { result ≡ is_crowded (state_of self.now) }
    {
        self.world.simulation.design().counts().processes as usize > MOST_ENTRIES
    }

    /// How many choices the next label has: at least one before the end, none after it.
    pub fn choices(&self) -> u32
        ensures { result ≡ choices_of (state_of self.now) }
    {
        if let Phase::Ended(_) = self.world.phase {
            return 0;
        }
        if self.is_crowded() {
            return 1;
        }
        match self.control.top() {
            Some(item) => self.item_choices(item),
            None => self.idle_choices(),
        }
    }

    fn item_choices(&self, item: &Control) -> u32
        ensures { result ≡ item_choices item.now (state_of self.now) }
    {
        match item {
            Control::Frame(_) => self.left().max(1),
            Control::Process(_)
            | Control::Pending(_)
            | Control::Activation(_)
            | Control::Leave(_) => 1,
        }
    }

    fn idle_choices(&self) -> u32
        ensures { result ≡ idle_choices (state_of self.now).world.phase (state_of self.now) }
    {
        match self.world.phase {
            Phase::Running => self.agenda_choices(),
            Phase::Finished(_) => 1,
            Phase::Ended(_) => 0,
        }
    }

    fn agenda_choices(&self) -> u32
        ensures { result ≡ agenda_choices (slice_get (state_of self.now).agenda 0)
            (state_of self.now) }
    {
        match self.agenda.front() {
            Some(_) => 1,
            None => self.world.simulation.choices().max(1),
        }
    }

    /// Makes one step of the machine by the k-th choice, and answers its label. A new handle
    /// gets a number that was never given. After want of memory the kernel isn't used again.
    pub fn step(&mut self, alloc: Global, k: u32) -> Result<Label, NoMemory>
        requires { k < choices_of (state_of self.old) }
        ensures step { IfOk result (λ l. IsStep (state_of self.old) k (l, state_of self.new)) }
        ensures in_order { IfOk result
            (λ l. step_of (state_of self.old) k (next_given (state_of self.old))
            ≡ (l, state_of self.new)) }
        ensures goes { IfOk result (λ l. is_end l ≡ false → 0 < choices_of (state_of self.new)) }
    {
        let label = self.make_label(alloc, k)?;
        if !label.is_end() {
            self.settle();
        }
        Ok(label)
    }

    /// Takes a label back that was told: the next order has the memory of its order.
    pub fn keep(&mut self, label: Label)
        ensures { state_of self.new ≡ state_of self.old }
    {
        if let Label::Do(_, order, _) = label {
            self.spare_order = Some(order);
        }
    }

    fn make_label(&mut self, alloc: Global, k: u32) -> Result<Label, NoMemory>
        requires { k < choices_of (state_of self.old) }
        ensures { Moves (crowded_move (is_crowded (state_of self.old)) (state_of self.old) k
            (given_by self.old))
            result self.new }
    {
        if self.is_crowded() {
            return Ok(self.fail(Fault::F3));
        }
        self.go_on(alloc, k)
    }

    fn go_on(&mut self, alloc: Global, k: u32) -> Result<Label, NoMemory>
        requires { k < top_choices (slice_get (state_of self.old).control 0) (state_of self.old) }
        ensures { Moves (top_move (slice_get (state_of self.old).control 0) (state_of self.old) k
            (given_by self.old))
            result self.new }
    {
        if let Some(p) = self.control.take_process() {
            return self.perform_next(alloc, p);
        }
        if self.control.frame().is_some() {
            return self.fire(alloc, k);
        }
        match self.control.pop() {
            None => self.go_idle(alloc, k),
            Some(item) => self.go_on_by(alloc, item, k),
        }
    }

    // What was on top of control goes on: no occurrence that was told, which goes on in its place.
    fn go_on_by(&mut self, alloc: Global, item: Control, k: u32) -> Result<Label, NoMemory>
        requires { is_some (frame_of (Some item)) ≡ false }
        ensures { Moves (item_move item (state_of self.old) k (given_by self.old)) result self.new }
    {
        match item {
            Control::Process(p) => self.perform_next(alloc, p),
            Control::Pending(what) => self.occur(alloc, what),
            Control::Frame(_) => unreachable!(),
            Control::Activation(activation) => self.act(alloc, activation),
            Control::Leave(cause) => self.finish(cause),
        }
    }

    // The run is over.
    fn end(&mut self, ending: Ending) -> Label
        ensures { end_move ending (state_of self.old) ≡ (result, state_of self.new) }
    {
        self.world.phase = Phase::Ended(ending);
        Label::End(ending)
    }

    // In place of a label that would exceed a number.
    fn fail(&mut self, fault: Fault) -> Label
        ensures { fault_move fault (state_of self.old) ≡ (result, state_of self.new) }
    {
        self.world.simulation.stop();
        self.end(Ending::Fault(fault))
    }

    fn finish(&mut self, cause: Cause) -> Result<Label, NoMemory>
        ensures { Moves (finish_move cause (state_of self.old)) result self.new }
    {
        self.world.simulation.clear();
        self.agenda.clear();
        self.control.clear();
        self.close_frames();
        let what = Occurrence::new(Reason::CbEndOfSimulation);
        self.control.push(Control::Pending(what))?;
        self.world.phase = Phase::Finished(cause);
        Ok(Label::Finish(cause))
    }

    // With nothing on control.
    fn go_idle(&mut self, alloc: Global, k: u32) -> Result<Label, NoMemory>
        requires { k < idle_choices (state_of self.old).world.phase (state_of self.old) }
        ensures { Moves (idle_move (state_of self.old).world.phase
            (state_of self.old) k) result self.new }
    {
        match self.world.phase {
            Phase::Running => self.take_agenda(alloc, k),
            Phase::Finished(cause) => Ok(self.end(Ending::Cause(cause))),
            Phase::Ended(ending) => Ok(self.end(ending)),
        }
    }

    fn take_agenda(&mut self, alloc: Global, k: u32) -> Result<Label, NoMemory>
        requires { k < agenda_choices (slice_get (state_of self.old).agenda 0) (state_of self.old) }
        ensures { Moves (agenda_move (slice_get (state_of self.old).agenda 0) (state_of self.old) k)
            result self.new }
    {
        match self.agenda.front() {
            None => self.pick(alloc, k),
            Some(Agendum::Startup(number)) => {
                let number = *number;
                self.start(alloc, number)
            }
            Some(Agendum::Occurrence(reason)) => {
                let what = Occurrence::new(*reason);
                self.occur_next(alloc, what)
            }
        }
    }

    // The startup of a script begins, which was next on the agenda.
    fn start(&mut self, alloc: Global, number: u32) -> Result<Label, NoMemory>
        ensures { Moves (agenda_move (Some (Agendum.Startup number))
            (state_of self.old) 0) result self.new }
    {
        let _ = self.agenda.pop_front();
        let i = number.saturating_sub(1) as usize;
        let Some(script) = self.world.scripts.get(i) else {
            return Ok(Label::Startup(number));
        };
        let seen = startup_seen(self.world.simulation.time());
        let activation = Activation::new(
            alloc,
            None,
            Who::Startup(number),
            i,
            script.startup(),
            seen,
        )?;
        self.control.push(Control::Activation(activation))?;
        Ok(Label::Startup(number))
    }

    fn pick(&mut self, alloc: Global, k: u32) -> Result<Label, NoMemory>
        requires { k < agenda_choices None (state_of self.old) }
        ensures { Moves (pick_move (slice_get (eligible (state_of self.old).world.activity.queue) k)
            (state_of self.old)) result self.new }
    {
        if self.world.simulation.choices() == 0 {
            return self.change_region();
        }
        let entry = self.world.simulation.pick(k);
        self.work(alloc, &entry)
    }

    fn change_region(&mut self) -> Result<Label, NoMemory>
        ensures { Moves (region_move (next_region (state_of self.old).world.activity.queue)
            (state_of self.old))
            result self.new }
    {
        match self.world.simulation.activate() {
            Some(region) => Ok(Label::Activate(region)),
            None => self.advance_time(),
        }
    }

    fn advance_time(&mut self) -> Result<Label, NoMemory>
        ensures { Moves (time_move (least_time (state_of self.old).world.activity.queue.entries)
            (state_of self.old))
            result self.new }
    {
        match self.world.simulation.advance() {
            Some(time) => Ok(Label::Advance(time)),
            None => self.finish(Cause::Nothing),
        }
    }
}

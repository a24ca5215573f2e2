ghost use Rattle.std.specs.Prelude.{◌≡◌, ◌++◌, true, map, OnOk};
ghost use Rattle.vh_kernel.specs.Occurrences.{change_at, by_made, all_by};
ghost use Rattle.vh_kernel.specs.Statements.{next_on};
ghost use Rattle.vh_design_nodes.specs.Fits.{has_kind};
ghost use Rattle.vh_design_nodes.specs.Kinds.{is_event};

use crate::control::{Control, Stack};
use crate::kernel::Kernel;
use crate::label::Label;
use crate::occurrence::Occurrence;
use std::alloc::Global;
use vh_base::{Cause, NoMemory, ObjId, Object, ProcId};
use vh_design::{Change, Design, Made};
use vh_logic::Vec4;
use vh_proc_simulation::{Next, StepFault};
use vh_queue::{Entry, Work};

// The occurrences of a change of an object or a word are pending.
fn pend_change(
    control: &mut Stack,
    id: ObjId,
    word: Option<u32>,
    value: Vec4,
) -> Result<(), NoMemory>
    ensures { OnOk result (control.new
        ≡ map Control.Pending (change_at id word value) ++ control.old) }
{
    let whole = Object { id, word: None };
    control.push(Control::Pending(Occurrence::value_change(whole, word, value)))?;
    if word.is_some() {
        let object = Object { id, word };
        control.push(Control::Pending(Occurrence::value_change(object, None, value)))?;
    }
    Ok(())
}

// Those of what was made of an object. It stands apart, so that a label that changes nothing makes no room for it.
#[inline(never)]
fn pend_made(control: &mut Stack, d: &Design, made: &Made) -> Result<(), NoMemory>
    ensures { OnOk result (control.new
        ≡ map Control.Pending (by_made (d.now).objects (made.now).change) ++ control.old) }
{
    let Some(change) = &made.change else {
        return Ok(());
    };
    let object = change.object;
    if is_event(d, object.id) {
        return Ok(());
    }
    pend_change(control, object.id, object.word, change.new)
}

// Is an object a named event?
fn is_event(d: &Design, id: ObjId) -> bool
    ensures { result ≡ has_kind is_event (d.now).objects id }
{
    id.number() < d.counts().objects && d.object(id).kind.is_event()
}

// Those of all changes, the first of them on top. It is inlined, since most labels change nothing.
#[inline(always)]
fn pend_all(control: &mut Stack, d: &Design, made: &[Made]) -> Result<(), NoMemory>
    ensures { OnOk result (control.new
        ≡ map Control.Pending (all_by (d.now).objects made.now) ++ control.old) }
{
    for i in 0..made.len() {
        pend_made(control, d, &made[made.len() - 1 - i])?;
    }
    Ok(())
}

// What a process does next stands on control.
fn go_on(control: &mut Stack, next: Next, p: u64) -> Result<(), NoMemory>
    ensures { OnOk result (control.new ≡ next_on next p control.old) }
{
    match next {
        Next::On | Next::Shows(_) | Next::Calls(_) => control.push_process(p),
        Next::Waits | Next::Ends => Ok(()),
        Next::Finishes => {
            control.push_process(p)?;
            control.push(Control::Leave(Cause::Finish))
        }
        Next::Stops => {
            control.push_process(p)?;
            control.push(Control::Leave(Cause::Stop))
        }
    }
}

impl Kernel {
    ghost use Rattle.vh_kernel.specs.Step.{item_move};
    ghost use Rattle.vh_kernel.specs.Outcome.{move_of};
    ghost use Rattle.vh_kernel.specs.Statements.{work_outcome, worked_outcome};
    ghost use Rattle.vh_proc_simulation.specs.Labels.{worked};
    ghost use Rattle.vh_kernel.specs.Views.{state_of, given_by, Moves};

    // A process that was on top of control performs its next label. It stands apart, so that other labels
    // make no room for it.
    #[inline(never)]
    pub(crate) fn perform_next(&mut self, alloc: Global, p: u64) -> Result<Label, NoMemory>
        ensures { Moves (item_move (Control.Process p) (state_of self.old) 0
            (given_by self.old)) result self.new }
    {
        let process = ProcId::new(p);
        match self.world.simulation.perform(alloc, process) {
            Ok(None) => Ok(Label::Stmt(process, None)),
            Ok(Some(performed)) => {
                go_on(&mut self.control, performed.next, p)?;
                let made = performed.came.made.as_slice();
                pend_all(&mut self.control, self.world.simulation.design(), made)?;
                self.world.simulation.keep_list(performed.came.made);
                Ok(Label::Stmt(process, performed.came.shown))
            }
            Err(StepFault::Run(fault)) => {
                self.control.push_process(p)?;
                Ok(self.fail(fault))
            }
            Err(StepFault::NoMemory) => Err(NoMemory),
        }
    }

    // An entry that was picked does its work.
    pub(crate) fn work(&mut self, alloc: Global, entry: &Entry) -> Result<Label, NoMemory>
        ensures { Moves (move_of (λ shown. Label.Pick (entry.now).serial shown) (state_of self.old)
            (work_outcome (entry.now).work (state_of self.old))) result self.new }
    {
        match &entry.work {
            Work::Evaluate(p) => {
                self.control.push_process(p.number())?;
                Ok(Label::Pick(entry.serial, None))
            }
            Work::Assign { .. }
            | Work::Drive(..)
            | Work::Follow { .. }
            | Work::Put(..)
            | Work::Strobe(_)
            | Work::MonitorShow => self.simulate(alloc, entry),
            // nothing adds one of these yet
            Work::Call(_) => Ok(Label::Pick(entry.serial, None)),
        }
    }

    // One that changes or shows something. It stands apart for the same reason.
    #[inline(never)]
    fn simulate(&mut self, alloc: Global, entry: &Entry) -> Result<Label, NoMemory>
        ensures { Moves (move_of (λ shown. Label.Pick (entry.now).serial shown) (state_of self.old)
            (worked_outcome (worked (entry.now).work (state_of self.old).world.activity)
            (state_of self.old)))
            result self.new }
    {
        match self.world.simulation.work(alloc, &entry.work) {
            Ok(came) => {
                pend_all(
                    &mut self.control,
                    self.world.simulation.design(),
                    came.made.as_slice(),
                )?;
                self.world.simulation.keep_list(came.made);
                Ok(Label::Pick(entry.serial, came.shown))
            }
            Err(StepFault::Run(fault)) => Ok(self.fail(fault)),
            Err(StepFault::NoMemory) => Err(NoMemory),
        }
    }
}

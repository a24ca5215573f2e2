ghost use Rattle.std.specs.Prelude.{◌≡◌, [], true, length, slice_get, None, Ok, Err, IfSome, IfNone, IfOk, IfErr, OnOk};
ghost use Rattle.std.specs.List.{flat_map, list_all};
ghost use Rattle.vh_design_code.specs.Codes.{fits_arg};
ghost use Rattle.vh_display.specs.Calls.{shown_text};
ghost use Rattle.vh_proc_assign.specs.Assigned.{is_same_value};
ghost use Rattle.vh_proc_simulation.specs.Entries.{watched, monitor_entered};
ghost use Rattle.vh_proc_simulation.specs.Labels.{IsOver, came, performed, changes, with_changes, worked, monitor_of, displaying, displayed, monitor_shown, compared, all_compared, are_same};
ghost use Rattle.vh_proc_turn.specs.Own.{FailsBy, with_entry};

use crate::clock::asks_time;
use crate::entries::{enter_all, enter_monitor};
use crate::monitor::{Monitor, Values};
use crate::simulation::Simulation;
use std::alloc::Global;
use vh_base::{Bytes, NoMemory, ProcId, Sequence, ShowId};
use vh_design::{Design, Made, ShowArg, ShowTask};
use vh_display::show;
use vh_logic::{Digit, Vec4, case_equal};
use vh_proc::{MadeList, Next, StepFault};
use vh_proc_assign::{Piece, follow_object, take_driver, take_pieces, take_put, value_alone};
use vh_proc_turn::add_entry;
use vh_queue::{Queue, Region, Work};
use vh_store::Store;

/// What a label comes to: what it changed in order, and the text that it shows.
#[derive(Drop)]
pub struct Came {
    pub made: MadeList,
    pub shown: Option<Bytes>,
}

/// The next label of a process, and what the process does behind it.
#[derive(Drop)]
pub struct Performed {
    pub came: Came,
    pub next: Next,
}

// A label that changed nothing.
fn showing(alloc: Global, shown: Option<Bytes>) -> Came
    ensures made { result.made ≡ [] }
    ensures shown { result.shown ≡ shown }
{
    Came {
        made: Sequence::new(Vec::new(alloc)),
        shown,
    }
}

// The text of a display call; no bytes where the design has none of the number.
fn text_of(alloc: Global, d: &Design, s: &Store, n: ShowId) -> Result<Bytes, NoMemory>
    ensures { IfOk result (λ text. text ≡ shown_text d.now s.now n) }
{
    if n.number() >= d.counts().shows {
        return Ok(Sequence::new(Vec::new(alloc)));
    }
    show(alloc, d, s, n)
}

// The values of arguments without `$time`.
fn compared(alloc: Global, d: &Design, s: &Store, args: &[ShowArg]) -> Result<Vec<Vec4>, NoMemory>
    requires { list_all (fits_arg (length (d.now).exprs)) args.now ≡ true }
    ensures { IfOk result (λ vs. vs.items ≡ flat_map (compared d.now s.now) args.now) }
{
    let mut values = Vec::new(alloc);
    for arg in args {
        match arg {
            ShowArg::Value(e) if !asks_time(d, *e) => values.push(value_alone(d, s, *e))?,
            _ => {}
        }
    }
    Ok(values)
}

// Those of a display call.
fn all_compared(alloc: Global, d: &Design, s: &Store, n: ShowId) -> Result<Vec<Vec4>, NoMemory>
    ensures { IfOk result (λ vs. vs.items ≡ all_compared d.now s.now (slice_get (d.now).shows n)) }
{
    if n.number() >= d.counts().shows {
        return Ok(Vec::new(alloc));
    }
    compared(alloc, d, s, d.show_call(n).args.as_slice())
}

// Have two values the same width, sign and digits?
fn is_same(a: &Vec4, b: &Vec4) -> bool
    ensures { result ≡ is_same_value a.now b.now }
{
    a.width() == b.width()
        && a.is_signed() == b.is_signed()
        && matches!(case_equal(a, b), Digit::One)
}

// Are these the same values?
#[tactic(auto, unfolding(crate::specs::Labels::are_same))]
fn are_same(before: &[Vec4], now: &[Vec4]) -> bool
    ensures { result ≡ are_same before.now now.now }
{
    if before.len() != now.len() {
        return false;
    }
    for i in 0..before.len() {
        if !is_same(&before[i], &now[i]) {
            return false;
        }
    }
    true
}

// A `$strobe` shows at the end of this time.
fn strobe(q: &mut Queue, n: ShowId) -> Result<(), StepFault>
    ensures done { OnOk result (with_entry (q.old).time Region.Monitor (Work.Strobe n) q.old
        ≡ Ok q.new) }
    ensures fails { IfErr result (FailsBy (with_entry (q.old).time Region.Monitor
        (Work.Strobe n) q.old)) }
    ensures now { (q.new).time ≡ (q.old).time }
{
    let now = q.time();
    add_entry(q, now, Region::Monitor, Work::Strobe(n))?;
    Ok(())
}

// A `$monitor` puts its list in the place of the one before.
fn monitor_on(
    alloc: Global,
    q: &mut Queue,
    monitor: &mut Monitor,
    n: ShowId,
) -> Result<(), StepFault>
    ensures done { OnOk result (monitor_entered (watched (monitor_of n monitor.old) q.old)
        ≡ Ok (watched monitor.new q.new)) }
    ensures fails { IfErr result (FailsBy (monitor_entered (watched
        (monitor_of n monitor.old) q.old))) }
    ensures now { (q.new).time ≡ (q.old).time }
{
    *monitor = Monitor {
        call: Some(n),
        is_new: true,
        stands: monitor.stands,
        values: Sequence::new(Vec::new(alloc)),
    };
    enter_monitor(q, monitor)
}

// What a display task does.
fn display(
    alloc: Global,
    d: &Design,
    s: &Store,
    q: &mut Queue,
    monitor: &mut Monitor,
    n: ShowId,
) -> Result<Option<Bytes>, StepFault>
    ensures done { IfOk result (λ shown. displaying d.now s.now n (watched monitor.old q.old)
        ≡ Ok (shown, watched monitor.new q.new)) }
    ensures fails { IfErr result (FailsBy (displaying d.now s.now n (watched monitor.old q.old))) }
    ensures now { (q.new).time ≡ (q.old).time }
{
    if n.number() >= d.counts().shows {
        return Ok(None);
    }
    match d.show_call(n).task {
        ShowTask::Display | ShowTask::Write => Ok(Some(show(alloc, d, s, n)?)),
        ShowTask::Strobe => {
            strobe(q, n)?;
            Ok(None)
        }
        ShowTask::Monitor => {
            monitor_on(alloc, q, monitor, n)?;
            Ok(None)
        }
    }
}

// What is shown behind a label.
fn display_after(
    alloc: Global,
    d: &Design,
    s: &Store,
    q: &mut Queue,
    monitor: &mut Monitor,
    next: Next,
) -> Result<Option<Bytes>, StepFault>
    ensures done { IfOk result (λ shown. displayed d.now s.now next (watched monitor.old q.old)
        ≡ Ok (shown, watched monitor.new q.new)) }
    ensures fails { IfErr result (FailsBy (displayed d.now s.now next
        (watched monitor.old q.old))) }
    ensures now { (q.new).time ≡ (q.old).time }
{
    match next {
        Next::Shows(n) => display(alloc, d, s, q, monitor, n),
        Next::On | Next::Waits | Next::Ends | Next::Calls(_) | Next::Finishes | Next::Stops => Ok(
            None,
        ),
    }
}

// What an entry changes in the store is noted.
fn take_changes(
    d: &Design,
    s: &mut Store,
    work: &Work,
    made: &mut Vec<Made>,
) -> Result<(), NoMemory>
    requires none { made.old.items ≡ [] }
    ensures done { OnOk result ((made.new.items, s.new) ≡ changes work.now d.now s.old) }
    ensures time { (s.new).time ≡ (s.old).time }
{
    match work {
        Work::Drive(x, v) => take_driver(s, *x, v, made),
        Work::Assign { object, low, value } => {
            let piece = Piece {
                object: *object,
                low: *low,
                value: *value,
            };
            take_pieces(s, &[piece], made)
        }
        Work::Follow { object, force } => follow_object(d, s, *force, *object, made),
        Work::Put(o, v) => take_put(s, *o, v, made),
        Work::Evaluate(_) | Work::Strobe(_) | Work::MonitorShow | Work::Call(_) => Ok(()),
    }
}

// What the monitor shows when its entry is picked.
fn show_monitor(
    alloc: Global,
    d: &Design,
    s: &Store,
    monitor: &mut Monitor,
) -> Result<Option<Bytes>, NoMemory>
    ensures { IfOk result (λ shown. (shown, monitor.new)
        ≡ monitor_shown (monitor.old).call d.now s.now monitor.old) }
{
    monitor.stands = false;
    let Some(n) = monitor.call else {
        return Ok(None);
    };
    let values = all_compared(alloc, d, s, n)?;
    let is_due = monitor.is_new || !are_same(monitor.values.as_slice(), values.as_slice());
    monitor.is_new = false;
    monitor.values = Sequence::new(values);
    if !is_due {
        return Ok(None);
    }
    let text = text_of(alloc, d, s, n)?;
    Ok(Some(text))
}

impl Simulation {
    /// Performs the next label of a process; none where it has none.
    pub fn perform(&mut self, alloc: Global, p: ProcId) -> Result<Option<Performed>, StepFault>
        ensures done { IfOk result (λ o. IfSome o (λ r. performed p self.old
            ≡ Ok (record { came = came r.came.made r.came.shown self.new; next = r.next }))) }
        ensures none { IfOk result (λ o. IfNone o (performed p self.old ≡ Err None)) }
        ensures same { IfOk result (λ o. IfNone o (self.new ≡ self.old)) }
        ensures fails { IfErr result (FailsBy (performed p self.old)) }
        ensures over { IfErr result (λ e. IsOver e self.old self.new) }
    {
        if self.is_broken {
            return Err(StepFault::NoMemory);
        }
        self.is_broken = true;
        let d = self.design.design();
        let stepped = self.threads.step(
            alloc,
            &self.design,
            &mut self.store,
            &mut self.sense,
            &mut self.queue,
            p,
        )?;
        let Some(stepped) = stepped else {
            self.is_broken = false;
            return Ok(None);
        };
        let made = stepped.made.as_slice();
        enter_all(
            d,
            &self.store,
            &mut self.threads,
            &mut self.sense,
            &mut self.follows,
            &mut self.queue,
            &mut self.monitor,
            made,
        )?;
        let shown = display_after(
            alloc,
            d,
            &self.store,
            &mut self.queue,
            &mut self.monitor,
            stepped.next,
        )?;
        self.is_broken = false;
        Ok(Some(Performed {
            came: Came {
                made: stepped.made,
                shown,
            },
            next: stepped.next,
        }))
    }

    /// Keeps the room of a list of changes, so that the labels that follow take no memory for theirs.
    pub fn keep_list(&mut self, made: MadeList)
        ensures { self.new ≡ self.old }
    {
        self.threads.keep_list(made);
    }

    // An entry changes the store, and what it changed enters.
    fn change(&mut self, alloc: Global, work: &Work) -> Result<Came, StepFault>
        ensures done { IfOk result (λ r. with_changes
            (changes work.now (self.old).design (self.old).store) self.old
            ≡ Ok (came r.made r.shown self.new)) }
        ensures fails { IfErr result (FailsBy (with_changes
            (changes work.now (self.old).design (self.old).store) self.old)) }
        ensures over { IfErr result (λ e. IsOver e self.old self.new) }
    {
        if self.is_broken {
            return Err(StepFault::NoMemory);
        }
        self.is_broken = true;
        let design = self.design.design();
        let mut made = self.threads.take_list(alloc);
        take_changes(design, &mut self.store, work, &mut made)?;
        enter_all(
            design,
            &self.store,
            &mut self.threads,
            &mut self.sense,
            &mut self.follows,
            &mut self.queue,
            &mut self.monitor,
            made.as_slice(),
        )?;
        self.is_broken = false;
        Ok(Came {
            made: Sequence::new(made),
            shown: None,
        })
    }

    /// Does what an entry that was picked does, beside what it puts on control.
    pub fn work(&mut self, alloc: Global, work: &Work) -> Result<Came, StepFault>
        ensures done { IfOk result (λ r. worked work.now self.old
            ≡ Ok (came r.made r.shown self.new)) }
        ensures fails { IfErr result (FailsBy (worked work.now self.old)) }
        ensures over { IfErr result (λ e. IsOver e self.old self.new) }
    {
        if self.is_broken {
            return Err(StepFault::NoMemory);
        }
        match work {
            Work::Strobe(n) => {
                let shown = text_of(alloc, self.design.design(), &self.store, *n)?;
                Ok(showing(alloc, Some(shown)))
            }
            Work::MonitorShow => {
                let shown = show_monitor(
                    alloc,
                    self.design.design(),
                    &self.store,
                    &mut self.monitor,
                )?;
                Ok(showing(alloc, shown))
            }
            Work::Drive(..) | Work::Assign { .. } | Work::Follow { .. } | Work::Put(..) => {
                self.change(alloc, work)
            }
            Work::Evaluate(_) | Work::Call(_) => Ok(showing(alloc, None)),
        }
    }
}

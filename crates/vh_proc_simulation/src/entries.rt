ghost use Rattle.std.specs.Prelude.{◌≡◌, Ok, IfErr, OnOk};
ghost use Rattle.vh_design.specs.Shape.{Shape};
ghost use Rattle.vh_proc.specs.Processes.{AllRun, scheduled};
ghost use Rattle.vh_proc_simulation.specs.Entries.{waking, watched, monitor_entered, monitored, list_reads, scheduling, entered, entered_by, all_entered};
ghost use Rattle.vh_proc_turn.specs.Own.{FailsBy};

use crate::follows::{Follows, follow};
use crate::monitor::Monitor;
use vh_base::{ObjId, ShowId};
use vh_design::{Change, Design, Made};
use vh_display::reads;
use vh_proc::{StepFault, Threads};
use vh_proc_turn::add_entry;
use vh_queue::{Queue, Region, Work};
use vh_sense::Sense;
use vh_store::Store;

// Each process that waits on the change goes on, by an entry, in process order.
fn wake(
    threads: &mut Threads,
    sense: &mut Sense,
    q: &mut Queue,
    c: &Change,
) -> Result<(), StepFault>
    ensures woken { OnOk result (waking c.now (scheduled threads.old sense.old q.old)
        ≡ Ok (scheduled threads.new sense.new q.new)) }
    ensures fails { IfErr result (FailsBy (waking c.now (scheduled threads.old sense.old q.old))) }
    ensures waits { (sense.new).waits ≡ (sense.old).waits }
    ensures now { (q.new).time ≡ (q.old).time }
    ensures runs { (d : Shape) → AllRun d threads.old → OnOk result (AllRun d threads.new) }
{
    let mut last = None;
    'woken: while let Some(p) = sense.next_woken(c, last) {
        threads.resume(q, p)?;
        last = Some(p);
    }
    Ok(())
}

// The monitor gets an entry, now, unless one stands.
pub(crate) fn enter_monitor(q: &mut Queue, monitor: &mut Monitor) -> Result<(), StepFault>
    ensures done { OnOk result (monitor_entered (watched monitor.old q.old)
        ≡ Ok (watched monitor.new q.new)) }
    ensures fails { IfErr result (FailsBy (monitor_entered (watched monitor.old q.old))) }
    ensures now { (q.new).time ≡ (q.old).time }
{
    if monitor.stands {
        return Ok(());
    }
    let now = q.time();
    add_entry(q, now, Region::Monitor, Work::MonitorShow)?;
    monitor.stands = true;
    Ok(())
}

// Does the monitor's list read the object?
fn list_reads(d: &Design, call: Option<ShowId>, o: ObjId) -> bool
    ensures { result ≡ list_reads d.now call o }
{
    match call {
        Some(n) if n.number() < d.counts().shows => reads(d, n, o),
        _ => false,
    }
}

// The monitor's entry for a change.
fn note(d: &Design, q: &mut Queue, monitor: &mut Monitor, c: &Change) -> Result<(), StepFault>
    ensures done { OnOk result (monitored d.now c.now (watched monitor.old q.old)
        ≡ Ok (watched monitor.new q.new)) }
    ensures fails { IfErr result (FailsBy (monitored d.now c.now (watched monitor.old q.old))) }
    ensures now { (q.new).time ≡ (q.old).time }
{
    if !list_reads(d, monitor.call, c.object.id) {
        return Ok(());
    }
    enter_monitor(q, monitor)
}

// The entries that a change adds. It stands apart, so that a label that changes nothing makes no room for it.
#[inline(never)]
fn enter(
    d: &Design,
    s: &Store,
    threads: &mut Threads,
    sense: &mut Sense,
    follows: &mut Follows,
    q: &mut Queue,
    monitor: &mut Monitor,
    change: &Option<Change>,
) -> Result<(), StepFault>
    ensures done { OnOk result (entered_by d.now s.now change.now
        (scheduling threads.old sense.old follows.old q.old monitor.old)
        ≡ Ok (scheduling threads.new sense.new follows.new q.new monitor.new)) }
    ensures fails { IfErr result (FailsBy (entered_by d.now s.now change.now
        (scheduling threads.old sense.old follows.old q.old monitor.old))) }
    ensures waits { (sense.new).waits ≡ (sense.old).waits }
    ensures now { (q.new).time ≡ (q.old).time }
    ensures runs { (d : Shape) → AllRun d threads.old → OnOk result (AllRun d threads.new) }
{
    let Some(c) = change else {
        return Ok(());
    };
    wake(threads, sense, q, c)?;
    follow(s, sense, follows, q, c)?;
    note(d, q, monitor, c)
}

// The entries that changes add, in order. It is inlined, since most labels change nothing.
#[inline(always)]
#[tactic(auto, unfolding(crate::specs::Entries::all_entered))]
pub(crate) fn enter_all(
    d: &Design,
    s: &Store,
    threads: &mut Threads,
    sense: &mut Sense,
    follows: &mut Follows,
    q: &mut Queue,
    monitor: &mut Monitor,
    made: &[Made],
) -> Result<(), StepFault>
    ensures done { OnOk result (all_entered d.now s.now made.now
        (scheduling threads.old sense.old follows.old q.old monitor.old)
        ≡ Ok (scheduling threads.new sense.new follows.new q.new monitor.new)) }
    ensures fails { IfErr result (FailsBy (all_entered d.now s.now made.now
        (scheduling threads.old sense.old follows.old q.old monitor.old))) }
    ensures waits { (sense.new).waits ≡ (sense.old).waits }
    ensures now { (q.new).time ≡ (q.old).time }
    ensures runs { (d : Shape) → AllRun d threads.old → OnOk result (AllRun d threads.new) }
{
    for it in made {
        enter(d, s, threads, sense, follows, q, monitor, &it.change)?;
    }
    Ok(())
}

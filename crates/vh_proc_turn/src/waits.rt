ghost use Rattle.std.specs.Prelude.{◌≡◌, ◌≤◌, ◌<◌, length, true, Some, None, Ok, Err, OnOk, OnErr, IfOk, IfErr, IfSome};
ghost use Rattle.vh_design_code.specs.Operations.{fits_delayed};
ghost use Rattle.vh_design_code.specs.Targets.{fits_delay};
ghost use Rattle.vh_queue.specs.declared.region.Region.TheVariants as region;
ghost use Rattle.vh_queue.specs.declared.work.Work.TheVariants as work;
ghost use Rattle.vh_proc_turn.specs.Own.{with_entry, update_time, FailsBy};
ghost use Rattle.vh_queue.specs.Entries.{IsPresent};
ghost use Rattle.vh_proc_turn.specs.Turns.{with_updates, schedule_of, resumption, entered};

use crate::fault::StepFault;
use crate::process::Process;
use vh_base::{Fault, ProcId, Serial};
use vh_design::{Delay, Design};
use vh_proc_assign::{Piece, time_after};
use vh_queue::{AddFault, Queue, Region, Work};
use vh_store::Store;

/// Adds an entry at a time that isn't over; a full queue is the fault of an entry more than there
/// may be.
pub fn add_entry(q: &mut Queue, time: u64, region: Region, work: Work) -> Result<Serial, StepFault>
    requires later { (q.old).time ≤ time }
    requires active { IsPresent region (q.old).time (Some time) }
    ensures added { OnOk result (with_entry time region work q.old ≡ Ok q.new) }
    ensures serial { IfOk result (λ s. s ≡ (q.old).next) }
    ensures refused { IfErr result (FailsBy (with_entry time region work q.old)) }
    ensures kept { OnErr result (q.new ≡ q.old) }
    ensures now { (q.new).time ≡ (q.old).time }
{
    match q.add(Some(time), region, work) {
        Ok(serial) => Ok(serial),
        Err(AddFault::Full) => Err(StepFault::Run(Fault::F3)),
        Err(AddFault::NoMemory) => Err(StepFault::NoMemory),
    }
}

// The process goes on after a delay.
pub(crate) fn resume(
    d: &Design,
    process: &mut Process,
    s: &Store,
    q: &mut Queue,
    p: ProcId,
    delay: Delay,
) -> Result<(), StepFault>
    requires there { fits_delay (length (d.now).exprs) (d.now).precision delay ≡ true }
    requires now { (s.now).time ≡ (q.old).time }
    ensures added { OnOk result (resumption d.now s.now p delay q.old ≡ Ok q.new) }
    ensures noted { OnOk result (process.new ≡ entered (q.old).next process.old) }
    ensures refused { IfErr result (FailsBy (resumption d.now s.now p delay q.old)) }
    ensures now { (q.new).time ≡ (q.old).time }
{
    let Some(time) = time_after(d, s, delay) else {
        return Err(StepFault::Run(Fault::F2));
    };
    let serial = add_entry(q, time, Region::Inactive, Work::Evaluate(p))?;
    process.entry = Some(serial);
    Ok(())
}

// Updates of these pieces at a time, in order.
#[tactic(auto, unfolding(crate::specs::Turns::with_updates))]
fn add_updates(q: &mut Queue, time: u64, pieces: &[Piece]) -> Result<(), StepFault>
    requires { (q.old).time ≤ time }
    ensures added { OnOk result (with_updates time pieces.now q.old ≡ Ok q.new) }
    ensures refused { IfErr result (FailsBy (with_updates time pieces.now q.old)) }
    ensures now { (q.new).time ≡ (q.old).time }
{
    for piece in pieces {
        let work = Work::Assign {
            object: piece.object,
            low: piece.low,
            value: piece.value,
        };
        add_entry(q, time, Region::Nonblocking, work)?;
    }
    Ok(())
}

// When the updates of an assignment come.
pub(crate) fn update_time(d: &Design, s: &Store, delay: Option<Delay>) -> Option<u64>
    requires { fits_delayed (length (d.now).exprs) (d.now).precision delay ≡ true }
    ensures time { result ≡ update_time d.now s.now delay }
    ensures later { IfSome result (λ time. (s.now).time ≤ time) }
{
    match delay {
        None => Some(s.time()),
        Some(delay) => time_after(d, s, delay),
    }
}

// A nonblocking assignment of these pieces. Its delay is judged also where there are none.
pub(crate) fn schedule(
    d: &Design,
    s: &Store,
    q: &mut Queue,
    delay: Option<Delay>,
    pieces: &[Piece],
) -> Result<(), StepFault>
    requires there { fits_delayed (length (d.now).exprs) (d.now).precision delay ≡ true }
    requires now { (s.now).time ≡ (q.old).time }
    ensures added { OnOk result (schedule_of d.now s.now delay pieces.now q.old ≡ Ok q.new) }
    ensures refused { IfErr result (FailsBy (schedule_of d.now s.now delay pieces.now q.old)) }
    ensures now { (q.new).time ≡ (q.old).time }
{
    let Some(time) = update_time(d, s, delay) else {
        return Err(StepFault::Run(Fault::F2));
    };
    add_updates(q, time, pieces)
}

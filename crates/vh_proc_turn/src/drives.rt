ghost use Rattle.std.specs.Prelude.{◌≡◌, ◌≤◌, ◌<◌, ◌-◌, length, true, Some, Ok, OnOk, IfOk, IfErr, IfSome};
ghost use Rattle.vh_logic.specs.declared.vector.TheConstants.{MAX_WIDTH};
ghost use Rattle.vh_logic.specs.Parts.{part_of};
ghost use Rattle.vh_logic.specs.Vector.{width_of as digits_in};
ghost use Rattle.vh_design_nodes.specs.Widths.{driver_width};
ghost use Rattle.vh_design_code.specs.Targets.{fits_drivers};
ghost use Rattle.vh_queue.specs.Entries.{IsPresent};
ghost use Rattle.vh_proc_turn.specs.Own.{Comes, FailsBy};
ghost use Rattle.vh_proc_turn.specs.Drives.{AreInTime, driving, update_value, value_at, scheduled_value, has_value, without_update, region_at, with_update, rescheduled, one_driven, digits_driven, all_driven};

use crate::fault::StepFault;
use crate::updates::Updates;
use crate::waits::add_entry;
use vh_base::{DriverId, Fault, Serial};
use vh_design::Design;
use vh_logic::{Vec4, select};
use vh_queue::{Queue, Region, Work};
use vh_store::{Store, is_same_value};

// The value of an update of a driver.
fn update_value(work: &Work) -> Option<Vec4>
    ensures { result ≡ update_value work.now }
{
    match work {
        Work::Drive(_, v) => Some(*v),
        Work::Evaluate(_)
        | Work::Assign { .. }
        | Work::Follow { .. }
        | Work::Put(..)
        | Work::Strobe(_)
        | Work::MonitorShow
        | Work::Call(_) => None,
    }
}

// That of a serial, where it stands.
fn value_at(q: &Queue, serial: Serial) -> Option<Vec4>
    ensures { result ≡ value_at q.now serial }
{
    let work = q.work(serial)?;
    update_value(work)
}

// The value of a driver's scheduled update, where one stands.
fn scheduled_value(updates: &Updates, q: &Queue, x: DriverId) -> Option<Vec4>
    ensures { result ≡ scheduled_value x (driving updates.now q.now) }
{
    let serial = updates.at(x)?;
    value_at(q, serial)
}

// Is it this value?
fn has_value(v: &Vec4, update: Option<Vec4>) -> bool
    ensures { result ≡ has_value v.now update }
{
    match update {
        None => false,
        Some(value) => is_same_value(&value, v),
    }
}

// That update goes, where it stands.
fn withdraw(updates: &Updates, q: &mut Queue, x: DriverId)
    ensures gone { driving updates.now q.new ≡ without_update x (driving updates.now q.old) }
    ensures now { q.new.time ≡ q.old.time }
{
    if let Some(serial) = updates.at(x) {
        q.cancel(serial);
    }
}

// The region of an update that comes at a time.
fn region_at(now: u64, time: u64) -> Region
    ensures region { result ≡ region_at now time }
    ensures present { IsPresent result now (Some time) }
{
    if time == now {
        return Region::Active;
    }
    Region::Inactive
}

// A driver's update comes at a time, where there is one.
fn add_update(
    updates: &mut Updates,
    s: &Store,
    q: &mut Queue,
    time: Option<u64>,
    x: DriverId,
    v: &Vec4,
) -> Result<(), StepFault>
    requires time { AreInTime s.now q.old time }
    ensures comes { Comes (with_update s.now time x v.now (driving updates.old q.old)) result
        (driving updates.new q.new) }
    ensures now { q.new.time ≡ q.old.time }
{
    let Some(time) = time else {
        return Err(StepFault::Run(Fault::F2));
    };
    let region = region_at(s.time(), time);
    let serial = add_entry(q, time, region, Work::Drive(x, *v))?;
    updates.note(x, serial)?;
    Ok(())
}

// The same, but for a driver that has this value.
fn reschedule(
    updates: &mut Updates,
    s: &Store,
    q: &mut Queue,
    time: Option<u64>,
    x: DriverId,
    v: &Vec4,
) -> Result<(), StepFault>
    requires time { AreInTime s.now q.old time }
    ensures comes { Comes (rescheduled s.now time x v.now (driving updates.old q.old)) result
        (driving updates.new q.new) }
    ensures now { q.new.time ≡ q.old.time }
{
    if is_same_value(&s.driven(x), v) {
        return Ok(());
    }
    add_update(updates, s, q, time, x, v)
}

// A driver's new value against its scheduled update.
fn drive_one(
    updates: &mut Updates,
    s: &Store,
    q: &mut Queue,
    time: Option<u64>,
    x: DriverId,
    v: &Vec4,
) -> Result<(), StepFault>
    requires time { AreInTime s.now q.old time }
    ensures comes { Comes (one_driven s.now time x v.now (driving updates.old q.old)) result
        (driving updates.new q.new) }
    ensures now { q.new.time ≡ q.old.time }
{
    let update = scheduled_value(updates, q, x);
    if has_value(v, update) {
        return Ok(());
    }
    withdraw(updates, q, x);
    reschedule(updates, s, q, time, x, v)
}

// How many digits drivers have.
#[tactic(auto, unfolding(crate::specs::Drives::digits_driven))]
pub(crate) fn digits_driven(d: &Design, drivers: &[DriverId]) -> u32
    requires { fits_drivers d.now.drivers drivers.now ≡ true }
    ensures value { result ≡ digits_driven d.now.drivers drivers.now }
    ensures least { 1 ≤ result }
    ensures most { result ≤ MAX_WIDTH }
{
    let mut sum = 0;
    for x in drivers {
        sum += d.driver(*x).width;
    }
    sum
}

// The next driver takes its digits, of so many that are left; answers how many are left behind it.
fn drive_next(
    d: &Design,
    updates: &mut Updates,
    s: &Store,
    q: &mut Queue,
    time: Option<u64>,
    x: DriverId,
    v: &Vec4,
    left: u32,
) -> Result<u32, StepFault>
    requires known { x < length d.now.drivers }
    requires time { AreInTime s.now q.old time }
    requires wide { driver_width d.now.drivers x ≤ left }
    requires inside { left ≤ digits_in v.now }
    ensures left { let w = driver_width d.now.drivers x in IfOk result (λ rest. rest ≡ left - w) }
    ensures driven { let w = driver_width d.now.drivers x in
        OnOk result (one_driven s.now time x (part_of v.now (left - w) w)
        (driving updates.old q.old) ≡ Ok (driving updates.new q.new)) }
    ensures refused { let w = driver_width d.now.drivers x in
        IfErr result (FailsBy (one_driven s.now time x (part_of v.now (left - w) w)
        (driving updates.old q.old))) }
    ensures now { q.new.time ≡ q.old.time }
{
    let width = d.driver(x).width;
    let rest = left - width;
    drive_one(updates, s, q, time, x, &select(v, rest, width))?;
    Ok(rest)
}

// Each driver takes its digits of a value, the first one the highest: it compares them with its
// scheduled update.
#[tactic(auto, unfolding(crate::specs::Drives::all_driven, crate::specs::Drives::digits_driven))]
pub(crate) fn drive_all(
    d: &Design,
    updates: &mut Updates,
    s: &Store,
    q: &mut Queue,
    time: Option<u64>,
    drivers: &[DriverId],
    v: &Vec4,
) -> Result<(), StepFault>
    requires known { fits_drivers d.now.drivers drivers.now ≡ true }
    requires time { AreInTime s.now q.old time }
    requires wide { digits_driven d.now.drivers drivers.now ≤ digits_in v.now }
    ensures driven { OnOk result (all_driven d.now.drivers s.now time drivers.now v.now
        (driving updates.old q.old) ≡ Ok (driving updates.new q.new)) }
    ensures refused { IfErr result (FailsBy (all_driven d.now.drivers s.now time drivers.now v.now
        (driving updates.old q.old))) }
    ensures now { q.new.time ≡ q.old.time }
{
    let mut left = digits_driven(d, drivers);
    for x in drivers {
        left = drive_next(d, updates, s, q, time, *x, v, left)?;
    }
    Ok(())
}

ghost use Rattle.std.specs.Prelude.{◌≡◌, ◌<◌, if◌then◌else◌, map, filter, length, slice_get, option_copied, Some, None, IfSome, OnOk, OnErr, IfOk, IfErr, true, false};
ghost use Rattle.std.specs.List.{list_any};
ghost use Rattle.std.specs.Map.{values_of};
ghost use Rattle.vh_queue.specs.Entries.{is_due, IsFrom, IsPresent, HasTime};
ghost use Rattle.vh_queue.specs.Events.{no_events, eligible, entry_of, work_of, without, cleared, is_full, HasCause, added, next_region, activated_next, least_time, is_beyond_start, advanced_next, Rises};
ghost use Rattle.vh_queue.specs.Serials.{least_serial, greatest_serial, last_of, is_active_of, picked_by};
ghost use Rattle.vh_queue.specs.Views.{Later, all_seen};

use crate::entry::Entry;
use crate::fault::AddFault;
use crate::horizons::Horizons;
use crate::index::{Index, count_start};
use crate::key::{
    any_four, count_four, earlier, first_four, first_of, first_time, last_four, last_of, later,
};
use crate::region::Region;
use crate::work::Work;
use std::alloc::Global;
use std::marker::Model;
use vh_base::{MOST_ENTRIES, MOST_NUMBERS, NoMemory, Serial};
use vh_queue_maps::Recent;

/// The event queue, which contracts see as `Events`: its entries by rising serial, the
/// next serial, and the present time. Inside, entries stay as they were added; they wait in sets that are
/// ordered by time, region and serial, and horizons say which of the present time are active. So no call goes
/// over all entries, but a pick that is neither the first nor the last.
#[derive(Drop)]
pub struct Queue {
    entries: Recent<Entry>,
    index: Index,
    horizons: Horizons,
    next: u64,
    time: u64,
    starts: u32,
    ready: u32,
}

impl Model for Queue {
    ghost use Rattle.std.specs.Map.{values_of};
    ghost use Rattle.vh_queue.specs.Events.{Events};
    ghost use Rattle.vh_queue.specs.Views.{all_seen, Holds};

    ghost Value = { Events };

    ghost view = { λ q. record {
      entries = all_seen q.time q.horizons (values_of q.entries);
      next = q.next;
      time = q.time;
    } };

    ghost invariant = { λ q. Holds q.next q.time q.horizons q.starts q.ready q.entries q.index };
}

// One where it is so, else none.
fn one_if(so: bool) -> u32
    ensures { result ≡ (if so then 1 else 0) }
{
    if so { 1 } else { 0 }
}

// The time where it is so, else none.
fn time_if(so: bool, time: u64) -> Option<u64>
    ensures { result ≡ (if so then Some time else None) }
{
    if so { Some(time) } else { None }
}

// The serial of the k-th entry that may be picked, as entries are seen.
fn nth_picked(
    entries: &Recent<Entry>,
    now: u64,
    horizons: &Horizons,
    starts: bool,
    first: Option<u64>,
    k: u32,
) -> Option<u64>
    ensures { result ≡ slice_get (map (λ e. e.serial)
        (filter (picked_by starts now first) (all_seen now horizons.now (values_of entries.now)))) k }
{
    let (old, row) = entries.parts();
    let mut left = k;
    for stored in old.values() {
        let entry = stored.seen(now, horizons);
        if entry.is_picked_by(starts, now, first) {
            if left == 0 {
                return Some(entry.serial.number());
            }
            left -= 1;
        }
    }
    for stored in row {
        let entry = stored.1.seen(now, horizons);
        if entry.is_picked_by(starts, now, first) {
            if left == 0 {
                return Some(entry.serial.number());
            }
            left -= 1;
        }
    }
    None
}

impl Queue {
    /// No entry stands, and time is 0.
    pub fn new(alloc: Global) -> Result<Queue, NoMemory>
        ensures { IfOk result (λ q. q ≡ no_events) }
    {
        Ok(Queue {
            entries: Recent::new(alloc),
            index: Index::new(alloc),
            horizons: Horizons {
                inactive: 0,
                nonblocking: 0,
                monitor: 0,
                dated: 0,
            },
            next: 1,
            time: 0,
            starts: 0,
            ready: 0,
        })
    }

    /// The present time, in units of the simulation's precision.
    pub fn time(&self) -> u64
        ensures { result ≡ self.now.time }
    {
        self.time
    }

    /// How many entries stand.
    pub fn len(&self) -> u32
        ensures len { result ≡ length self.now.entries }
        ensures rising { Rises 1 self.now.next self.now.entries }
    {
        self.entries.len() as u32
    }

    /// Would [`Queue::add`] answer [`AddFault::Full`]?
    pub fn is_full(&self) -> bool
        ensures { result ≡ is_full self.now }
    {
        self.entries.len() >= MOST_ENTRIES || self.next > MOST_NUMBERS
    }

    // The first active nonblocking update.
    fn first_update(&self) -> Option<u64>
        ensures { result ≡ least_serial (filter (is_active_of true) self.now.entries) }
    {
        first_four(&self.index.updates, self.time, self.next, &self.horizons)
    }

    // The first active entry that is none.
    fn first_plain(&self) -> Option<u64>
        ensures { result ≡ least_serial (filter (is_active_of false) self.now.entries) }
    {
        first_four(&self.index.plain, self.time, self.next, &self.horizons)
    }

    // The last one.
    fn last_plain(&self) -> Option<u64>
        ensures { result ≡ greatest_serial (filter (is_active_of false) self.now.entries) }
    {
        last_four(&self.index.plain, self.time, self.next, &self.horizons)
    }

    // The first start entry that is due.
    fn first_start(&self) -> Option<u64>
        ensures { result ≡ least_serial
            (filter (is_due Region.Start self.now.time) self.now.entries) }
    {
        let rank = Region::Start as u8;
        let plain = first_of(&self.index.plain, self.time, rank, 0, self.next);
        let update = first_of(&self.index.updates, self.time, rank, 0, self.next);
        let dated = self.index.first_dated(self.horizons.dated);
        earlier(earlier(plain, update), dated)
    }

    // The last one.
    fn last_start(&self) -> Option<u64>
        ensures { result ≡ greatest_serial
            (filter (is_due Region.Start self.now.time) self.now.entries) }
    {
        let rank = Region::Start as u8;
        let plain = last_of(&self.index.plain, self.time, rank, 0, self.next);
        let update = last_of(&self.index.updates, self.time, rank, 0, self.next);
        let dated = self.index.last_dated(self.horizons.dated);
        later(later(plain, update), dated)
    }

    /// How many entries may be picked now.
    pub fn choices(&self) -> u32
        ensures { result ≡ length (eligible self.now) }
    {
        if self.starts > 0 {
            return self.starts;
        }
        self.ready + one_if(self.first_update().is_some())
    }

    // The serial of the first entry that may be picked.
    fn first_eligible(&self) -> Option<u64>
        ensures serial { result ≡ slice_get (map (λ e. e.serial) (eligible self.now)) 0 }
        ensures rising { Rises 1 self.now.next self.now.entries }
    {
        if self.starts > 0 {
            return self.first_start();
        }
        earlier(self.first_plain(), self.first_update())
    }

    // That of the last one.
    fn last_eligible(&self) -> Option<u64>
        ensures serial { result ≡ last_of (map (λ e. e.serial) (eligible self.now)) }
        ensures rising { Rises 1 self.now.next self.now.entries }
    {
        if self.starts > 0 {
            return self.last_start();
        }
        later(self.last_plain(), self.first_update())
    }

    // That of the k-th, by going over all entries.
    fn walk(&self, k: u32) -> Option<u64>
        ensures serial { result ≡ slice_get (map (λ e. e.serial) (eligible self.now)) k }
        ensures rising { Rises 1 self.now.next self.now.entries }
    {
        let first = self.first_update();
        let starts = self.starts > 0;
        nth_picked(&self.entries, self.time, &self.horizons, starts, first, k)
    }

    // The serial of the k-th entry that may be picked.
    fn serial_at(&self, k: u32) -> Option<u64>
        ensures serial { result ≡ slice_get (map (λ e. e.serial) (eligible self.now)) k }
        ensures rising { Rises 1 self.now.next self.now.entries }
    {
        if k == 0 {
            return self.first_eligible();
        }
        if k == self.choices().saturating_sub(1) {
            return self.last_eligible();
        }
        self.walk(k)
    }

    // Takes the entry of a serial out.
    fn take(&mut self, serial: u64) -> Option<Entry>
        ensures entry { result ≡ entry_of serial self.old }
        ensures gone { self.new ≡ without serial self.old }
    {
        let stored = self.entries.remove(serial)?;
        self.index.leave(&stored);
        let entry = stored.seen(self.time, &self.horizons);
        self.starts -= one_if(entry.is_due(Region::Start, self.time));
        self.ready -= one_if(entry.is_plain());
        Some(entry)
    }

    /// Takes the k-th entry that may be picked out, by rising serial. The first and the last take the
    /// logarithm of the entries that stand; any other goes over them.
    pub fn pick(&mut self, k: u32) -> Entry
        requires { k < length (eligible self.old) }
        ensures entry { slice_get (eligible self.old) k ≡ Some result }
        ensures gone { self.new ≡ without result.serial self.old }
    {
        let Some(serial) = self.serial_at(k) else {
            unreachable!();
        };
        let Some(entry) = self.take(serial) else {
            unreachable!();
        };
        entry
    }

    /// What the entry of a serial does, where one stands.
    pub fn work(&self, s: Serial) -> Option<&Work>
        ensures { option_copied result ≡ work_of s self.now }
    {
        let entry = self.entries.get(s.number())?;
        Some(&entry.work)
    }

    /// Takes the entry of a serial out, where one stands. It takes the logarithm of the entries that stand.
    pub fn cancel(&mut self, s: Serial) -> Option<Work>
        ensures work { result ≡ work_of s self.old }
        ensures gone { self.new ≡ without s self.old }
    {
        let entry = self.take(s.number())?;
        Some(entry.work)
    }

    /// Adds an entry, by the next serial. It takes the logarithm of the entries that stand.
    pub fn add(&mut self, time: Option<u64>, region: Region, work: Work) -> Result<Serial, AddFault>
        requires from { IsFrom (self.old).time time }
        requires present { IsPresent region (self.old).time time }
        requires timed { HasTime region work time }
        ensures serial { IfOk result (λ s. s ≡ (self.old).next) }
        ensures room { OnOk result (is_full self.old ≡ false) }
        ensures added { OnOk result (self.new ≡ added time region work self.old) }
        ensures refused { IfErr result (HasCause (is_full self.old)) }
        ensures kept { OnErr result (self.new ≡ self.old) }
    {
        if self.is_full() {
            return Err(AddFault::Full);
        }
        let serial = Serial::new(self.next);
        let entry = Entry {
            serial,
            time,
            region,
            work,
        };
        if self.entries.push(self.next, entry).is_err() {
            return Err(AddFault::NoMemory);
        }
        if self.index.enter(&entry).is_err() {
            self.entries.remove(self.next);
            return Err(AddFault::NoMemory);
        }
        self.starts += one_if(entry.is_due(Region::Start, self.time));
        self.ready += one_if(entry.is_plain());
        self.next += 1;
        Ok(serial)
    }

    // Does an entry of the present time wait in this region?
    fn has_due(&self, region: Region) -> bool
        requires { Later region }
        ensures { result ≡ list_any (is_due region self.now.time) self.now.entries }
    {
        let from = self.horizons.of(region);
        let rank = region.rank();
        first_of(&self.index.plain, self.time, rank, from, self.next).is_some()
            || first_of(&self.index.updates, self.time, rank, from, self.next).is_some()
    }

    // The first of the inactive, the nonblocking and the monitor region that has an entry of the
    // present time.
    fn next_region(&self) -> Option<Region>
        ensures region { result ≡ next_region self.now }
        ensures later { IfSome result Later }
    {
        if self.has_due(Region::Inactive) {
            return Some(Region::Inactive);
        }
        if self.has_due(Region::Nonblocking) {
            return Some(Region::Nonblocking);
        }
        if self.has_due(Region::Monitor) {
            return Some(Region::Monitor);
        }
        None
    }

    /// The entries of the next region of the present time become active: the inactive ones, else the
    /// nonblocking ones, else those of the monitor region (IEEE 1364-2005, 11.3). Answers the region. It goes
    /// over the active entries.
    pub fn activate(&mut self) -> Option<Region>
        ensures region { result ≡ next_region self.old }
        ensures active { self.new ≡ activated_next (next_region self.old) self.old }
    {
        let region = self.next_region()?;
        let mut horizons = self.horizons;
        horizons.set(region, self.next);
        self.starts = count_start(&self.index, self.time, self.next, &horizons) as u32;
        self.ready = count_four(&self.index.plain, self.time, self.next, &horizons) as u32;
        self.horizons = horizons;
        Some(region)
    }

    // The least time of an entry.
    fn least_time(&self) -> Option<u64>
        ensures { result ≡ least_time self.now.entries }
    {
        let plain = first_time(&self.index.plain);
        let update = first_time(&self.index.updates);
        let dated = self.index.first_dated(self.horizons.dated).is_some();
        earlier(earlier(plain, update), time_if(dated, self.time))
    }

    // Does an entry stand at a time, and not at its start?
    fn any_beyond(&self, time: u64) -> bool
        ensures { result ≡ list_any (is_beyond_start time) self.now.entries }
    {
        let all = Horizons {
            inactive: self.next,
            nonblocking: self.next,
            monitor: self.next,
            dated: 0,
        };
        any_four(&self.index.plain, time, self.next, &all)
            || any_four(&self.index.updates, time, self.next, &all)
    }

    /// Time goes on to the least time of an entry, whose inactive entries become active; an entry without
    /// a time gets it where an entry that isn't of its start stands there. Answers the time. It goes over the
    /// entries that are active or due at its start then.
    pub fn advance(&mut self) -> Option<u64>
        ensures time { result ≡ least_time self.old.entries }
        ensures active { self.new ≡ advanced_next (least_time self.old.entries) self.old }
    {
        let time = self.least_time()?;
        let gives = self.any_beyond(time);
        let horizons = self.horizons.at(time == self.time, gives, self.next);
        self.starts = count_start(&self.index, time, self.next, &horizons) as u32;
        self.ready = count_four(&self.index.plain, time, self.next, &horizons) as u32;
        self.horizons = horizons;
        self.time = time;
        Some(time)
    }

    /// Takes all entries away.
    pub fn clear(&mut self)
        ensures { self.new ≡ cleared self.old }
    {
        self.entries.clear();
        self.index.clear();
        self.starts = 0;
        self.ready = 0;
    }
}

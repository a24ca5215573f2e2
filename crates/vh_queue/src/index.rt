ghost use Rattle.std.specs.Prelude.{◌≡◌, ◌<◌, ◌^◌, [], length, slice_get, OnOk, OnErr};
ghost use Rattle.vh_queue.specs.Lanes.{count_start};
ghost use Rattle.vh_queue.specs.Ranked.{dated_in, Indexes, Entered, Left, StaysSorted, IsSame};
ghost use Rattle.vh_queue.specs.Serials.{last_of};

use crate::entry::Entry;
use crate::horizons::Horizons;
use crate::key::{Ranked, count_of};
use crate::region::Region;
use std::alloc::Global;
use std::collections::BTreeSet;
use std::ops::Bound;
use vh_base::NoMemory;

// Where entries wait: the nonblocking updates and the others with a time, each by key, and those without a time.
#[derive(Drop)]
pub(crate) struct Index {
    pub(crate) plain: Ranked,
    pub(crate) updates: Ranked,
    pub(crate) untimed: BTreeSet<u64, Global>,
}

impl Index {
    // Of no entry.
    pub(crate) fn new(alloc: Global) -> Index
        ensures { Indexes [] result }
    {
        Index {
            plain: Ranked::new(alloc),
            updates: Ranked::new(alloc),
            untimed: BTreeSet::new(alloc),
        }
    }

    // An entry more is in it.
    pub(crate) fn enter(&mut self, entry: &Entry) -> Result<(), NoMemory>
        ensures entered { OnOk result (Entered entry.now self.old self.new) }
        ensures kept { OnErr result (IsSame self.old self.new) }
        ensures sorted { StaysSorted self.old self.new }
    {
        let serial = entry.serial.number();
        match entry.key() {
            None => {
                self.untimed.insert(serial)?;
            }
            Some(key) => {
                if entry.work.is_update() {
                    self.updates.insert(key)?;
                } else {
                    self.plain.insert(key)?;
                }
            }
        }
        Ok(())
    }

    // An entry is in it no more.
    pub(crate) fn leave(&mut self, entry: &Entry)
        ensures left { Left entry.now self.old self.new }
        ensures sorted { StaysSorted self.old self.new }
    {
        let serial = entry.serial.number();
        match entry.key() {
            None => {
                self.untimed.remove(&serial);
            }
            Some(key) => {
                if entry.work.is_update() {
                    self.updates.remove(&key);
                } else {
                    self.plain.remove(&key);
                }
            }
        }
    }

    // No entry is in it.
    pub(crate) fn clear(&mut self)
        ensures { Indexes [] self.new }
    {
        self.plain.clear();
        self.updates.clear();
        self.untimed.clear();
    }

    // The first without a time and below a serial.
    pub(crate) fn first_dated(&self, below: u64) -> Option<u64>
        ensures { result ≡ slice_get (dated_in below self.now.untimed) 0 }
    {
        let least = self.untimed.first()?;
        if below <= *least {
            return None;
        }
        Some(*least)
    }

    // The last one.
    pub(crate) fn last_dated(&self, below: u64) -> Option<u64>
        ensures { result ≡ last_of (dated_in below self.now.untimed) }
    {
        if self.untimed.is_empty() {
            return None;
        }
        let end = Bound::Excluded(below);
        let serial = self.untimed.range((Bound::Unbounded, end)).next_back()?;
        Some(*serial)
    }

    // How many there are. It goes over them.
    pub(crate) fn count_dated(&self, below: u64) -> usize
        ensures { result ≡ length (dated_in below self.now.untimed) }
    {
        if self.untimed.is_empty() {
            return 0;
        }
        let end = Bound::Excluded(below);
        self.untimed.range((Bound::Unbounded, end)).count()
    }
}

// How many start entries of a time stand up to a serial, with those without a time that have got it. It goes
// over them.
pub(crate) fn count_start(index: &Index, time: u64, own: u64, horizons: &Horizons) -> usize
    requires { count_start time own horizons.now (index.now).plain (index.now).updates
        (index.now).untimed < 2 ^ 32 }
    ensures { result ≡ count_start time own horizons.now (index.now).plain (index.now).updates
        (index.now).untimed }
{
    let plain = count_of(&index.plain, time, Region::Start as u8, 0, own);
    let updates = count_of(&index.updates, time, Region::Start as u8, 0, own);
    (plain + updates) + index.count_dated(horizons.dated)
}

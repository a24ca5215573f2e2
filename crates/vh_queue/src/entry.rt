ghost use Rattle.std.specs.Prelude.{◌≡◌, ◌==◌, false};
ghost use Rattle.vh_queue.specs.Entries.{rank, is_at, is_due, is_active};
ghost use Rattle.vh_queue.specs.Ranked.{key_of};
ghost use Rattle.vh_queue.specs.Views.{seen};
ghost use Rattle.vh_queue.specs.Serials.{is_active_of, picked_by};

use crate::horizons::Horizons;
use crate::key::Key;
use crate::region::Region;
use crate::work::Work;
use vh_base::Serial;

/// An entry of the event queue.
#[derive(Clone, Copy)]
pub struct Entry {
    /// Its number in the order of adding, from 1.
    pub serial: Serial,
    /// When it is performed, in units of the simulation's precision; an entry without a time waits for
    /// the next simulation time.
    pub time: Option<u64>,
    /// The region in which it waits (IEEE 1364-2005, 11.3).
    pub region: Region,
    /// What it does then.
    pub work: Work,
}

impl Entry {
    // Where it waits, where it has a time.
    pub(crate) fn key(&self) -> Option<Key>
        ensures { result ≡ key_of self.now }
    {
        let time = self.time?;
        Some(Key {
            time,
            rank: self.region as u8,
            serial: self.serial.number(),
        })
    }

    // The entry that was added as this one, as it is now.
    pub(crate) fn seen(&self, now: u64, horizons: &Horizons) -> Entry
        ensures { result ≡ seen now horizons.now self.now }
    {
        let mut entry = *self;
        if self.time.is_none() && self.serial.number() < horizons.dated {
            entry.time = Some(now);
        }
        if self.is_at(now) && self.serial.number() < horizons.of(self.region) {
            entry.region = Region::Active;
        }
        entry
    }

    // Is its time this one?
    fn is_at(&self, now: u64) -> bool
        ensures { result ≡ is_at (self.now).time now }
    {
        match self.time {
            Some(time) => time == now,
            None => false,
        }
    }

    // Does it stand in this region at this time?
    pub(crate) fn is_due(&self, region: Region, now: u64) -> bool
        ensures { result ≡ is_due region now self.now }
    {
        match self.time {
            Some(time) => time == now && self.region as u8 == region as u8,
            None => false,
        }
    }

    // Is it active?
    pub(crate) fn is_active(&self) -> bool
        ensures { result ≡ is_active self.now }
    {
        self.region as u8 == Region::Active as u8
    }

    // Is it active, and no nonblocking update?
    pub(crate) fn is_plain(&self) -> bool
        ensures { result ≡ is_active_of false self.now }
    {
        self.is_active() && !self.work.is_update()
    }

    // May it be picked, where a start entry is due or none is, given the first active update?
    pub(crate) fn is_picked_by(&self, starts: bool, now: u64, first: Option<u64>) -> bool
        ensures { result ≡ picked_by starts now first self.now }
    {
        if starts {
            return self.is_due(Region::Start, now);
        }
        if !self.is_active() {
            return false;
        }
        if !self.work.is_update() {
            return true;
        }
        match first {
            Some(other) => other >= self.serial.number(),
            None => true,
        }
    }
}

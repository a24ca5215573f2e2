ghost use Rattle.std.specs.Prelude.{◌≡◌, ◌<◌, ◌-◌, ◌^◌, [], None, Some, false, length, IfOk, IfErr, OnErr, IfSome, count_by};
ghost use Rattle.std.specs.Option.{option_copied};
ghost use Rattle.vh_slots.specs.Table.{Table, held, is_full, is_retired, after_take, after_replace, Gives, HandsBack};
ghost use Rattle.vh_slots.specs.Views.{position_of};

use slab::Slab;
use std::alloc::Global;
use std::marker::Model;

/// How many generations a slot has: those of a key are below it.
pub const GENERATIONS: u64 = 1 << 32;

/// What a value is held under.
#[derive(Clone, Copy, Debug, PartialEq, Eq)]
pub struct Key {
    pub slot: u32,
    pub generation: u32,
}

/// Why a value was not taken in; it comes back.
#[derive(Debug, Drop)]
pub enum GiveFault<T> {
    /// As many values are held as may be.
    Full(T),
    /// Memory was refused.
    NoMemory(T),
}

// A slot: the generation of its key, where its value is, and the free slot behind it.
#[derive(Clone, Copy, Drop)]
struct Slot {
    generation: u64,
    at: Option<usize>,
    next: Option<u32>,
}

/// Values under keys, in slots that are numbered from 0. Contracts see a cell for each slot, the
/// greatest number of values, and the generation that slots begin with.
#[derive(Drop)]
pub struct Slots<T> {
    slots: Vec<Slot>,
    values: Slab<T>,
    free: Option<u32>,
    retired: u32,
    limit: u32,
    first: u32,
}

impl<T> Model for Slots<T> {
    ghost use Rattle.vh_slots.specs.Table.{Table};
    ghost use Rattle.vh_slots.specs.Views.{table_in, IsSound};

    ghost Value = { Table T };

    ghost view = { λ s. table_in s.slots.items s.values s.limit s.first };

    ghost invariant = { λ s. IsSound s.slots.items s.values s.free s.retired s.first };
}

impl<T: Drop> Slots<T> {
    /// No slot. At most `limit` values are held at once, and slots begin with the generation
    /// `first`.
    pub fn new(alloc: Global, limit: u32, first: u32) -> Slots<T>
        ensures { result ≡ record { cells = []; limit = limit; first = first } }
    {
        Slots {
            slots: Vec::new(alloc),
            values: Slab::new(alloc),
            free: None,
            retired: 0,
            limit,
            first,
        }
    }

    /// Holds a value, under a key that never was.
    pub fn give(&mut self, _alloc: Global, value: T) -> Result<Key, GiveFault<T>>
        requires { length self.old.cells < 2 ^ 32 - 1 }
        ensures room { IfOk result (λ _. is_full self.old ≡ false) }
        ensures given { IfOk result (λ key. Gives key value self.old self.new) }
        ensures err { IfErr result (HandsBack (is_full self.old) value) }
        ensures kept { OnErr result (self.new ≡ self.old) }
    {
        if self.values.len() >= self.limit as usize {
            return Err(GiveFault::Full(value));
        }
        let Some(slot) = self.free else {
            if self.slots.reserve(1).is_err() {
                return Err(GiveFault::NoMemory(value));
            }
            let at = match self.values.insert(value) {
                Ok(at) => at,
                Err(failed) => return Err(GiveFault::NoMemory(failed.value)),
            };
            let slot = self.slots.len() as u32;
            let generation = self.first;
            self.slots.push_reserved(Slot {
                generation: u64::from(generation),
                at: Some(at),
                next: None,
            });
            return Ok(Key { slot, generation });
        };
        let at = match self.values.insert(value) {
            Ok(at) => at,
            Err(failed) => return Err(GiveFault::NoMemory(failed.value)),
        };
        let found = self.slots[slot as usize];
        self.slots[slot as usize] = Slot {
            generation: found.generation,
            at: Some(at),
            next: None,
        };
        self.free = found.next;
        Ok(Key {
            slot,
            generation: found.generation as u32,
        })
    }

    /// The value under a key; `None` where none is held under it.
    pub fn get(&self, key: Key) -> Option<&T>
        ensures { option_copied result ≡ held key self.now }
    {
        let at = position(&self.slots, key)?;
        self.values.get(at)
    }

    /// Takes the value under a key; `None` where none is held under it.
    pub fn take(&mut self, key: Key) -> Option<T>
        ensures value { result ≡ held key self.old }
        ensures taken { IfSome result (λ _. self.new ≡ after_take key self.old) }
        ensures kept { result ≡ None → self.new ≡ self.old }
    {
        let at = position(&self.slots, key)?;
        let value = self.values.remove(at);
        let generation = u64::from(key.generation) + 1;
        if generation == GENERATIONS {
            self.slots[key.slot as usize] = Slot {
                generation,
                at: None,
                next: None,
            };
            self.retired += 1;
            return Some(value);
        }
        self.slots[key.slot as usize] = Slot {
            generation,
            at: None,
            next: self.free,
        };
        self.free = Some(key.slot);
        Some(value)
    }

    /// Puts a value in place of another, under the same key, and hands the other back; hands
    /// the value itself back where none is held under the key.
    pub fn replace(&mut self, key: Key, value: T) -> Result<T, T>
        ensures old { IfOk result (λ old. held key self.old ≡ Some old) }
        ensures replaced { IfOk result (λ _. self.new ≡ after_replace key value self.old) }
        ensures none { IfErr result (λ back. (held key self.old ≡ None) × (back ≡ value)) }
        ensures kept { OnErr result (self.new ≡ self.old) }
    {
        let Some(at) = position(&self.slots, key) else {
            return Err(value);
        };
        let old = self.values.remove(at);
        self.values.insert_reserved(value);
        Ok(old)
    }

    /// How many slots there are.
    pub fn slots(&self) -> u32
        ensures { result ≡ length self.now.cells }
    {
        self.slots.len() as u32
    }

    /// How many slots are retired: no key is left for them.
    pub fn retired(&self) -> u32
        ensures { result ≡ count_by is_retired self.now.cells }
    {
        self.retired
    }
}

// Where the value under a key is.
fn position(slots: &Vec<Slot>, key: Key) -> Option<usize>
    ensures { result ≡ position_of slots.now.items key }
{
    let slot = slots.get(key.slot as usize)?;
    if slot.generation == u64::from(key.generation) {
        slot.at
    } else {
        None
    }
}

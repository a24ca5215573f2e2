ghost use Rattle.std.specs.Prelude.{ℕ, ◌≡◌, ◌<◌, ◌-◌, ◌^◌, [], None, Some, true, false, length, IfOk, IfErr, OnOk, OnErr, IfSome};
ghost use Rattle.std.specs.Option.{option_copied};
ghost use Rattle.std.specs.BTreeMap.{is_at};
ghost use Rattle.std.specs.Map.{set_value};
ghost use Rattle.std.specs.Ordering.{nat_cmp};
ghost use Rattle.std.specs.List.{list_any, slice_get};
ghost use Rattle.vh_slots.specs.Table.{held, held_count, is_full, is_free, after_take, after_replace, Reuses, Opens, Gives, HandsBack};
ghost use Rattle.vh_cases_plain.specs.Views.{under, is_of_generation, is_free_one, is_held_one};

use std::alloc::Global;
use std::collections::BTreeMap;
use std::marker::Model;
use std::mem;
use vh_slots::{GENERATIONS, GiveFault, Key};

/// Values under keys, in an ordered map from the slots. Contracts see what they see of
/// `vh_slots::Slots`.
#[derive(Drop)]
pub struct PlainSlots<T> {
    generations: Vec<u64>,
    values: BTreeMap<u32, T, Global>,
    limit: u32,
    first: u32,
}

impl<T> Model for PlainSlots<T> {
    ghost use Rattle.vh_slots.specs.Table.{Table};
    ghost use Rattle.vh_cases_plain.specs.Views.{table_in, under, IsWithin};

    ghost Value = { Table T };

    ghost view = { λ s. table_in s.generations.items (under s.values) s.limit s.first };

    ghost invariant = { λ s. IsWithin s.generations.items (under s.values) };
}

impl<T: Drop> PlainSlots<T> {
    /// No slot. At most `limit` values are held at once, and slots begin with the generation
    /// `first`.
    pub fn new(alloc: Global, limit: u32, first: u32) -> PlainSlots<T>
        ensures { result ≡ record { cells = []; limit = limit; first = first } }
    {
        PlainSlots {
            generations: Vec::new(alloc),
            values: BTreeMap::new(alloc),
            limit,
            first,
        }
    }

    /// Holds a value, under a key that never was: in the first slot that is free.
    pub fn give(&mut self, value: T) -> Result<Key, GiveFault<T>>
        requires { length self.old.cells < 2 ^ 32 - 1 }
        ensures room { IfOk result (λ _. is_full self.old ≡ false) }
        ensures given { IfOk result (λ key. Gives key value self.old self.new) }
        ensures err { IfErr result (HandsBack (is_full self.old) value) }
        ensures kept { OnErr result (self.new ≡ self.old) }
    {
        if self.is_full() {
            return Err(GiveFault::Full(value));
        }
        match self.free_slot() {
            Some(slot) => self.reuse(slot, value),
            None => self.open(value),
        }
    }

    /// The value under a key; `None` where none is held under it.
    pub fn get(&self, key: Key) -> Option<&T>
        ensures { option_copied result ≡ held key self.now }
    {
        if !self.is_of(key) {
            return None;
        }
        self.values.get(&key.slot)
    }

    /// Takes the value under a key; `None` where none is held under it.
    pub fn take(&mut self, key: Key) -> Option<T>
        ensures value { result ≡ held key self.old }
        ensures taken { IfSome result (λ _. self.new ≡ after_take key self.old) }
        ensures kept { result ≡ None → self.new ≡ self.old }
    {
        if !self.is_of(key) {
            return None;
        }
        let value = self.values.remove(&key.slot)?;
        self.generations[key.slot as usize] = u64::from(key.generation) + 1;
        Some(value)
    }

    /// Puts a value in the place of another, under the same key, and hands the other back; hands
    /// the value itself back where none is held under the key.
    pub fn replace(&mut self, key: Key, value: T) -> Result<T, T>
        ensures old { IfOk result (λ old. held key self.old ≡ Some old) }
        ensures replaced { IfOk result (λ _. self.new ≡ after_replace key value self.old) }
        ensures none { IfErr result (λ back. (held key self.old ≡ None) × (back ≡ value)) }
        ensures kept { OnErr result (self.new ≡ self.old) }
    {
        if !self.is_of(key) {
            return Err(value);
        }
        set(&mut self.values, key.slot, value)
    }

    /// How many slots there are.
    pub fn slots(&self) -> u32
        ensures { result ≡ length self.now.cells }
    {
        self.generations.len() as u32
    }

    // Is the slot of a key there, and of its generation?
    fn is_of(&self, key: Key) -> bool
        ensures { result ≡ is_of_generation key.generation (slice_get self.now.cells key.slot) }
    {
        match generation_at(&self.generations, key.slot) {
            Some(generation) => generation == u64::from(key.generation),
            None => false,
        }
    }

    // Is a slot there, and free?
    fn is_free(&self, slot: u32) -> bool
        ensures { result ≡ is_free_one (slice_get self.now.cells slot) }
    {
        match generation_at(&self.generations, slot) {
            Some(generation) => generation < GENERATIONS && !self.is_held(slot),
            None => false,
        }
    }

    // Is a slot there, with a value?
    fn is_held(&self, slot: u32) -> bool
        ensures { result ≡ is_held_one (slice_get self.now.cells slot) }
    {
        self.values.contains_key(&slot)
    }

    // Are as many values held as may be?
    fn is_full(&self) -> bool
        ensures { result ≡ is_full self.now }
    {
        self.held() >= self.limit
    }

    // How many values are held.
    fn held(&self) -> u32
        ensures { result ≡ held_count self.now }
    {
        let mut held = 0;
        for slot in 0..self.slots() {
            if self.is_held(slot) {
                held += 1;
            }
        }
        held
    }

    // The first free slot; `None` where none is.
    fn free_slot(&self) -> Option<u32>
        ensures some { IfSome result (λ i. is_free_one (slice_get self.now.cells i) ≡ true) }
        ensures none { result ≡ None → list_any is_free self.now.cells ≡ false }
    {
        for slot in 0..self.slots() {
            if self.is_free(slot) {
                return Some(slot);
            }
        }
        None
    }

    // Holds a value in a free slot.
    fn reuse(&mut self, slot: u32, value: T) -> Result<Key, GiveFault<T>>
        requires { is_free_one (slice_get self.old.cells slot) ≡ true }
        ensures given { IfOk result (λ key. Reuses key value self.old self.new) }
        ensures err { IfErr result (HandsBack false value) }
        ensures kept { OnErr result (self.new ≡ self.old) }
    {
        let generation = self.generations[slot as usize] as u32;
        match self.values.insert(slot, value) {
            Ok(_) => Ok(Key { slot, generation }),
            Err(refused) => {
                let (_, back) = refused.value;
                Err(GiveFault::NoMemory(back))
            }
        }
    }

    // Holds a value in a new slot.
    fn open(&mut self, value: T) -> Result<Key, GiveFault<T>>
        requires { length self.old.cells < 2 ^ 32 - 1 }
        ensures given { IfOk result (λ key. Opens key value self.old self.new) }
        ensures err { IfErr result (HandsBack false value) }
        ensures kept { OnErr result (self.new ≡ self.old) }
    {
        if self.generations.reserve(1).is_err() {
            return Err(GiveFault::NoMemory(value));
        }
        let slot = self.generations.len() as u32;
        let generation = self.first;
        match self.values.insert(slot, value) {
            Ok(_) => {
                self.generations.push_reserved(u64::from(generation));
                Ok(Key { slot, generation })
            }
            Err(refused) => {
                let (_, back) = refused.value;
                Err(GiveFault::NoMemory(back))
            }
        }
    }
}

// The generation of a slot; `None` where there is no such slot.
fn generation_at(generations: &Vec<u64>, slot: u32) -> Option<u64>
    ensures { result ≡ slice_get generations.now.items slot }
{
    generations.get(slot as usize).copied()
}

// Puts another value under a slot that has one, and hands that back; hands the value itself back
// where it has none.
fn set<T: Drop>(values: &mut BTreeMap<u32, T, Global>, slot: u32, value: T) -> Result<T, T>
    ensures old { IfOk result (λ old. under values.old slot ≡ Some old) }
    ensures set { OnOk result (values.new.entries
        ≡ set_value (is_at (nat_cmp slot)) values.old.entries value) }
    ensures none { IfErr result (λ back. (under values.old slot ≡ None) × (back ≡ value)) }
    ensures kept { OnErr result (values.new.entries ≡ values.old.entries) }
{
    match values.get_mut(&slot) {
        Some(place) => Ok(mem::replace(place, value)),
        None => Err(value),
    }
}

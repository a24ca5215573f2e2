ghost use Rattle.std.specs.Prelude.{◌≡◌, ◌++◌, [], length, slice_get, true, false, if◌then◌else◌, IfSome, IfNone, OnOk, OnErr, IsTrue};
ghost use Rattle.std.specs.List.{All};
ghost use Rattle.std.specs.List.Sorted.{IsStrictlySortedBy};
ghost use Rattle.std.specs.Option.{option_copied};
ghost use Rattle.std.specs.Ordering.{is_gt};
ghost use Rattle.std.specs.BTreeSet.{contains, insert_key, IsLowerBound, IsOrdered};
ghost use Rattle.std.specs.Set.{remove_key};
ghost use Rattle.std.specs.BTreeMap.{is_at};
ghost use Rattle.std.specs.BTreeMap.Range.{IsLeBy};
ghost use Rattle.vh_queue_maps.specs.Rows.{before_len, leads, from_to, last_key};

use std::alloc::Global;
use std::collections::BTreeSet;
use std::marker::Model;
use std::ops::Bound;
use vh_base::NoMemory;

// How many keys stand in the row, but where memory for one more in the set is refused.
const MOST_NEAR: usize = 32;

// From how many keys in the tree on none is taken into an empty row.
const MOST_DRAWN: usize = 16;

/// A set in its order, which contracts see as such: the least keys in a row, where few cost little, and the
/// others in a tree.
#[derive(Drop)]
pub struct Near<K: Ord> {
    near: Vec<K>,
    far: BTreeSet<K, Global>,
}

impl<K: Ord> Model for Near<K> {
    ghost use Rattle.std.specs.Prelude.{◌++◌};
    ghost use Rattle.std.specs.BTreeSet.{BTreeSet};
    ghost use Rattle.std.specs.List.Sorted.{IsStrictlySortedBy};

    ghost Value = { BTreeSet K };

    ghost view = { λ p. record { keys = p.near.items ++ p.far.keys } };

    ghost invariant = { λ p. IsStrictlySortedBy K.cmp (p.near.items ++ p.far.keys) };
}

// How many of some keys in a row are before one.
fn row_from<K: Ord>(near: &[K], from: &K) -> usize
    requires { IsStrictlySortedBy K.cmp near.now }
    ensures { result ≡ before_len K.cmp from.now near.now }
{
    near.partition_point(|key| *from > *key)
}

// Is a key before all of some?
fn leads<K: Ord>(key: &K, far: &BTreeSet<K, Global>) -> bool
    ensures { result ≡ leads K.cmp key.now far.now.keys }
{
    match far.first() {
        None => true,
        Some(first) => *key < *first,
    }
}

// The tree's keys stand in the row, where that is empty and they are few.
fn draw<K: Ord + Copy + Drop>(near: &mut Vec<K>, far: &mut BTreeSet<K, Global>)
    ensures { near.new.items ++ far.new.keys ≡ near.old.items ++ far.old.keys }
{
    if !near.is_empty() || far.len() > MOST_DRAWN {
        return;
    }
    while let Some(first) = far.first() {
        if near.push(*first).is_err() {
            return;
        }
        far.pop_first();
    }
}

// The last of a row that is too long stands in the tree, if there is memory for it there.
fn spill<K: Ord + Copy + Drop>(near: &mut Vec<K>, far: &mut BTreeSet<K, Global>)
    requires { IsStrictlySortedBy K.cmp (near.old.items ++ far.old.keys) }
    ensures { near.new.items ++ far.new.keys ≡ near.old.items ++ far.old.keys }
{
    if near.len() <= MOST_NEAR {
        return;
    }
    let Some(last) = near.last() else {
        return;
    };
    if far.insert(*last).is_ok() {
        near.pop();
    }
}

// One key more, if it isn't there.
fn place<K: Ord + Copy + Drop>(
    near: &mut Vec<K>,
    far: &mut BTreeSet<K, Global>,
    key: K,
) -> Result<(), NoMemory>
    requires { IsStrictlySortedBy K.cmp (near.old.items ++ far.old.keys) }
    ensures added { OnOk result (near.new.items ++ far.new.keys
        ≡ insert_key K.cmp (near.old.items ++ far.old.keys) key) }
    ensures kept { OnErr result (near.new.items ++ far.new.keys
        ≡ near.old.items ++ far.old.keys) }
{
    let at = row_from(near, &key);
    match near.get(at) {
        Some(there) => {
            if *there != key {
                near.insert(at, key)?;
            }
        }
        None => {
            if leads(&key, far) {
                near.push(key)?;
            } else {
                far.insert(key)?;
            }
        }
    }
    Ok(())
}

// A key less, if it is there.
fn take<K: Ord + Copy + Drop>(near: &mut Vec<K>, far: &mut BTreeSet<K, Global>, key: &K)
    requires { IsStrictlySortedBy K.cmp (near.old.items ++ far.old.keys) }
    ensures { near.new.items ++ far.new.keys
        ≡ remove_key (is_at (K.cmp key.now)) (near.old.items ++ far.old.keys) }
{
    let at = row_from(near, key);
    match near.get(at) {
        Some(there) => {
            if *there == *key {
                near.remove(at);
            }
        }
        None => {
            far.remove(key);
        }
    }
}

impl<K: Ord + Copy + Drop> Near<K> {
    /// Of no key.
    pub fn new(alloc: Global) -> Near<K>
        ensures { result.keys ≡ [] }
    {
        Near {
            near: Vec::new(alloc),
            far: BTreeSet::new(alloc),
        }
    }

    /// One key more, if it isn't there.
    pub fn insert(&mut self, key: K) -> Result<(), NoMemory>
        ensures updates { OnOk result ((q : _) → contains K.cmp self.new q
            ≡ (if is_at (K.cmp key) q then true else contains K.cmp self.old q)) }
        ensures kept { OnErr result (self.new ≡ self.old) }
        ensures ordered { IsOrdered K.cmp self.new }
    {
        draw(&mut self.near, &mut self.far);
        place(&mut self.near, &mut self.far, key)?;
        spill(&mut self.near, &mut self.far);
        Ok(())
    }

    /// A key less, if it is there.
    pub fn remove(&mut self, key: &K)
        ensures updates { (q : _) → contains K.cmp self.new q
            ≡ (if is_at (K.cmp key.now) q then false else contains K.cmp self.old q) }
        ensures ordered { IsOrdered K.cmp self.new }
    {
        take(&mut self.near, &mut self.far, key);
    }

    /// Takes all out.
    pub fn clear(&mut self)
        ensures empty { self.new.keys ≡ [] }
        ensures ordered { IsOrdered K.cmp self.new }
    {
        self.near.clear();
        self.far.clear();
    }

    /// The least.
    pub fn first(&self) -> Option<&K>
        ensures first { IfSome result (λ p. slice_get self.now.keys 0 ≡ Some p.now) }
        ensures member { IfSome result (λ p. IsTrue (contains K.cmp self.now p.now)) }
        ensures least { IfSome result (λ p. IsLowerBound K.cmp self.now p.now) }
        ensures none { IfNone result (self.now.keys ≡ []) }
        ensures all_from { IfSome result (λ p. All (IsLeBy K.cmp p.now) self.now.keys) }
    {
        match self.near.first() {
            Some(first) => Some(first),
            None => self.far.first(),
        }
    }

    /// The first from one key on and before another.
    pub fn first_between(&self, first: &K, end: &K) -> Option<&K>
        requires { is_gt (K.cmp first.now end.now) ≡ false }
        ensures { option_copied result ≡ slice_get (from_to K.cmp first.now end.now self.now) 0 }
    {
        match self.near.get(row_from(&self.near, first)) {
            Some(key) if *key < *end => Some(key),
            Some(_) => None,
            None => {
                let bounds = (Bound::Included(*first), Bound::Excluded(*end));
                self.far.range(bounds).next()
            }
        }
    }

    /// The last of these.
    pub fn last_between(&self, first: &K, end: &K) -> Option<&K>
        requires { is_gt (K.cmp first.now end.now) ≡ false }
        ensures { option_copied result ≡ last_key (from_to K.cmp first.now end.now self.now) }
    {
        let bounds = (Bound::Included(*first), Bound::Excluded(*end));
        if let Some(key) = self.far.range(bounds).next_back() {
            return Some(key);
        }
        let before = row_from(&self.near, end);
        if before == 0 {
            return None;
        }
        let last = self.near.get(before - 1)?;
        if *first <= *last { Some(last) } else { None }
    }

    /// How many these are. It goes over those in the tree.
    pub fn count_between(&self, first: &K, end: &K) -> usize
        requires { is_gt (K.cmp first.now end.now) ≡ false }
        ensures { result ≡ length (from_to K.cmp first.now end.now self.now) }
    {
        let near = row_from(&self.near, end).saturating_sub(row_from(&self.near, first));
        if self.far.is_empty() {
            return near;
        }
        let bounds = (Bound::Included(*first), Bound::Excluded(*end));
        near + self.far.range(bounds).count()
    }
}

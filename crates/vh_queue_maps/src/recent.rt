ghost use Rattle.std.specs.Prelude.{◌≡◌, ◌++◌, ◌∷◌, ◌<◌, [], length, OnOk, OnErr};
ghost use Rattle.std.specs.List.{All};
ghost use Rattle.std.specs.List.Sorted.{IsStrictlySortedBy};
ghost use Rattle.std.specs.Map.{keys_of, lookup, remove_entry};
ghost use Rattle.std.specs.BTreeMap.{is_at};
ghost use Rattle.std.specs.Option.{option_copied};
ghost use Rattle.std.specs.Ordering.{nat_cmp};
ghost use Rattle.vh_queue_maps.specs.Recent.{early_len};

use std::alloc::Global;
use std::collections::BTreeMap;
use std::marker::Model;
use vh_base::NoMemory;

// How many entries stand in the row, but where memory for one more in the tree is refused.
const MOST_RECENT: usize = 32;

/// A map from numbers that rise as they are added, which contracts see as such: the last ones in a row, where few
/// cost little, and the others in a tree.
#[derive(Drop)]
pub struct Recent<V> {
    tree: BTreeMap<u64, V, Global>,
    row: Vec<(u64, V)>,
}

impl<V> Model for Recent<V> {
    ghost use Rattle.std.specs.Prelude.{◌++◌, ℕ, List};
    ghost use Rattle.std.specs.List.Sorted.{IsStrictlySortedBy};
    ghost use Rattle.std.specs.Map.{keys_of};
    ghost use Rattle.std.specs.Ordering.{nat_cmp};

    ghost Value = { List (ℕ × V) };

    ghost view = { λ r. r.tree.entries ++ r.row.items };

    ghost invariant = { λ r. IsStrictlySortedBy nat_cmp (keys_of (r.tree.entries ++ r.row.items)) };
}

// How many of some in their order have a number below one.
fn early<V>(row: &[(u64, V)], number: u64) -> usize
    requires { IsStrictlySortedBy nat_cmp (keys_of row.now) }
    ensures { result ≡ early_len number row.now }
{
    row.partition_point(|entry| entry.0 < number)
}

// The first of a row that is too long stands in the tree, if there is memory for it there.
fn settle<V: Copy + Drop>(tree: &mut BTreeMap<u64, V, Global>, row: &mut Vec<(u64, V)>)
    requires { IsStrictlySortedBy nat_cmp (keys_of (tree.old.entries ++ row.old.items)) }
    ensures { tree.new.entries ++ row.new.items ≡ tree.old.entries ++ row.old.items }
{
    if row.len() <= MOST_RECENT {
        return;
    }
    let Some(first) = row.first() else {
        return;
    };
    if tree.insert(first.0, first.1).is_ok() {
        row.remove(0);
    }
}

impl<V: Copy + Drop> Recent<V> {
    /// Of no entry.
    pub fn new(alloc: Global) -> Recent<V>
        ensures { result ≡ [] }
    {
        Recent {
            tree: BTreeMap::new(alloc),
            row: Vec::new(alloc),
        }
    }

    /// How many entries there are.
    pub fn len(&self) -> usize
        ensures { result ≡ length self.now }
    {
        self.tree.len() + self.row.len()
    }

    /// An entry more, by a number that is above all others.
    pub fn push(&mut self, number: u64, value: V) -> Result<(), NoMemory>
        requires { All (λ n. n < number) (keys_of self.old) }
        ensures added { OnOk result (self.new ≡ self.old ++ (number, value) ∷ []) }
        ensures kept { OnErr result (self.new ≡ self.old) }
    {
        self.row.push((number, value))?;
        settle(&mut self.tree, &mut self.row);
        Ok(())
    }

    /// What a number has, where it has something.
    pub fn get(&self, number: u64) -> Option<&V>
        ensures { option_copied result ≡ lookup (is_at (nat_cmp number)) self.now }
    {
        let Some(entry) = self.row.get(early(&self.row, number)) else {
            return self.tree.get(&number);
        };
        if entry.0 == number {
            return Some(&entry.1);
        }
        self.tree.get(&number)
    }

    /// Takes out what a number has, where it has something.
    pub fn remove(&mut self, number: u64) -> Option<V>
        ensures value { result ≡ lookup (is_at (nat_cmp number)) self.old }
        ensures rest { self.new ≡ remove_entry (is_at (nat_cmp number)) self.old }
    {
        let at = early(&self.row, number);
        let Some(entry) = self.row.get(at) else {
            return self.tree.remove(&number);
        };
        if entry.0 == number {
            return Some(self.row.remove(at).1);
        }
        self.tree.remove(&number)
    }

    /// Takes all out.
    pub fn clear(&mut self)
        ensures { self.new ≡ [] }
    {
        self.tree.clear();
        self.row.clear();
    }

    /// The entries: those of the tree, and then those of the row.
    pub fn parts(&self) -> (&BTreeMap<u64, V, Global>, &[(u64, V)])
        ensures { result.0.now.entries ++ result.1.now ≡ self.now }
    {
        (&self.tree, self.row.as_slice())
    }
}

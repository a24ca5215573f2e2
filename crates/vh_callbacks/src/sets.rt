ghost use Rattle.std.specs.Prelude.{◌≡◌, ◌==◌, ◌<◌, ◌+◌, ℕ, [], ◌∷◌, if◌then◌else◌, length, slice_get, IfSome, IfNone, OnOk, OnErr};
ghost use Rattle.vh_callbacks.specs.Marks.{set_at, without_number, IsSet};

use crate::numbers::Numbers;
use std::alloc::Global;
use vh_base::{CbNumber, MOST_FRAMES, NoMemory};

// The set of each depth, from 0. One that isn't there is empty.
pub(crate) type Sets = Vec<Numbers, Global>;

// How many are in the set of this depth.
pub(crate) fn count_at(sets: &Sets, depth: usize) -> usize
    ensures count { result ≡ length (set_at depth sets.now.items) }
    ensures set { IsSet (set_at depth sets.now.items) }
{
    match sets.get(depth) {
        Some(set) => set.len(),
        None => 0,
    }
}

// Puts these numbers into the empty set of this depth.
pub(crate) fn fill_at(
    alloc: Global,
    sets: &mut Sets,
    depth: usize,
    numbers: &Numbers,
) -> Result<(), NoMemory>
    requires few { depth < MOST_FRAMES }
    requires empty { set_at depth sets.old.items ≡ [] }
    ensures ok { OnOk result ((d : ℕ) → set_at d sets.new.items
        ≡ (if d == depth then numbers.now else set_at d sets.old.items)) }
    ensures kept { OnErr result ((d : ℕ) → set_at d sets.new.items ≡ set_at d sets.old.items) }
{
    make_room(alloc, sets, depth)?;
    fill_one(sets, depth, numbers)
}

// Sees to it that there is a set of this depth.
fn make_room(alloc: Global, sets: &mut Sets, depth: usize) -> Result<(), NoMemory>
    requires { depth < MOST_FRAMES }
    ensures there { OnOk result (depth < length sets.new.items) }
    ensures same { (d : ℕ) → set_at d sets.new.items ≡ set_at d sets.old.items }
{
    while sets.len() <= depth {
        sets.push(Numbers::new(alloc))?;
    }
    Ok(())
}

// Puts numbers into the empty set of this depth, which is there.
fn fill_one(sets: &mut Sets, depth: usize, numbers: &Numbers) -> Result<(), NoMemory>
    requires there { depth < length sets.old.items }
    requires empty { set_at depth sets.old.items ≡ [] }
    ensures ok { OnOk result ((d : ℕ) → set_at d sets.new.items
        ≡ (if d == depth then numbers.now else set_at d sets.old.items)) }
    ensures kept { OnErr result ((d : ℕ) → set_at d sets.new.items ≡ set_at d sets.old.items) }
{
    let set = &mut sets[depth];
    set.fill(numbers)?;
    Ok(())
}

// Puts one number into the empty set of this depth.
pub(crate) fn put_one(
    alloc: Global,
    sets: &mut Sets,
    depth: usize,
    c: CbNumber,
) -> Result<(), NoMemory>
    requires few { depth < MOST_FRAMES }
    requires empty { set_at depth sets.old.items ≡ [] }
    ensures ok { OnOk result ((d : ℕ) → set_at d sets.new.items
        ≡ (if d == depth then c ∷ [] else set_at d sets.old.items)) }
    ensures kept { OnErr result ((d : ℕ) → set_at d sets.new.items ≡ set_at d sets.old.items) }
{
    make_room(alloc, sets, depth)?;
    push_at(sets, depth, c)
}

// Puts one number into the empty set of this depth, which is there.
fn push_at(sets: &mut Sets, depth: usize, c: CbNumber) -> Result<(), NoMemory>
    requires there { depth < length sets.old.items }
    requires empty { set_at depth sets.old.items ≡ [] }
    ensures ok { OnOk result ((d : ℕ) → set_at d sets.new.items
        ≡ (if d == depth then c ∷ [] else set_at d sets.old.items)) }
    ensures kept { OnErr result ((d : ℕ) → set_at d sets.new.items ≡ set_at d sets.old.items) }
{
    let set = &mut sets[depth];
    set.push(c)?;
    Ok(())
}

// Takes the k-th out of the set of this depth; none where there are not so many.
pub(crate) fn take_at(sets: &mut Sets, depth: usize, k: usize) -> Option<CbNumber>
    ensures taken { result ≡ slice_get (set_at depth sets.old.items) k }
    ensures left { IfSome result (λ c. (d : ℕ) → set_at d sets.new.items
        ≡ (if d == depth then without_number c (set_at d sets.old.items)
        else set_at d sets.old.items)) }
    ensures kept { IfNone result ((d : ℕ) → set_at d sets.new.items ≡ set_at d sets.old.items) }
{
    if depth >= sets.len() {
        return None;
    }
    let set = &mut sets[depth];
    set.take(k)
}

// Empties the set of this depth.
pub(crate) fn clear_at(sets: &mut Sets, depth: usize)
    ensures { (d : ℕ) → set_at d sets.new.items
        ≡ (if d == depth then [] else set_at d sets.old.items) }
{
    if depth >= sets.len() {
        return;
    }
    let set = &mut sets[depth];
    set.clear();
}

// Takes this number out of each set.
pub(crate) fn drop_everywhere(sets: &mut Sets, c: CbNumber)
    ensures { (d : ℕ) → set_at d sets.new.items ≡ without_number c (set_at d sets.old.items) }
{
    for depth in 0..sets.len() {
        drop_at(sets, depth, c);
    }
}

// Takes this number out of the set of this depth.
fn drop_at(sets: &mut Sets, depth: usize, c: CbNumber)
    ensures { (d : ℕ) → set_at d sets.new.items
        ≡ (if d == depth then without_number c (set_at d sets.old.items)
        else set_at d sets.old.items) }
{
    if depth >= sets.len() {
        return;
    }
    let set = &mut sets[depth];
    set.drop_number(c);
}

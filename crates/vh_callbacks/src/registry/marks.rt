ghost use Rattle.std.specs.Prelude.{◌≡◌, ◌==◌, ◌<◌, ℕ, [], ◌∷◌, true, if◌then◌else◌, length, slice_get, IfSome, IfNone, OnOk, OnErr};
ghost use Rattle.vh_callbacks.specs.Callbacks.{matching, is_live};
ghost use Rattle.vh_callbacks.specs.Marks.{marked, without_number};

use crate::index::{numbers_for, watch_of};
use crate::registry::Registry;
use crate::sets::{clear_at, count_at, fill_at, put_one, take_at};
use std::alloc::Global;
use vh_base::{CbNumber, MOST_FRAMES, NoMemory, Object, Reason};

impl<B: Drop> Registry<B> {
    /// Puts the live callbacks with this reason and this object into the empty set of a depth.
    /// Callbacks of others are not walked.
    pub fn mark_all(
        &mut self,
        alloc: Global,
        depth: u32,
        reason: Reason,
        o: Option<Object>,
    ) -> Result<(), NoMemory>
        requires depth { depth < MOST_FRAMES }
        requires empty { marked depth self.old ≡ [] }
        ensures callbacks { self.new.callbacks ≡ self.old.callbacks }
        ensures sets { OnOk result ((d : ℕ) → marked d self.new
            ≡ (if d == depth then matching reason o self.old.callbacks else marked d self.old)) }
        ensures kept { OnErr result ((d : ℕ) → marked d self.new ≡ marked d self.old) }
    {
        let Some(numbers) = numbers_for(&self.index, watch_of(reason, &o)) else {
            return Ok(());
        };
        fill_at(alloc, &mut self.sets, depth as usize, numbers)
    }

    /// Puts one live callback into the empty set of a depth.
    pub fn mark_one(&mut self, alloc: Global, depth: u32, c: CbNumber) -> Result<(), NoMemory>
        requires depth { depth < MOST_FRAMES }
        requires empty { marked depth self.old ≡ [] }
        requires live { is_live c self.old.callbacks ≡ true }
        ensures callbacks { self.new.callbacks ≡ self.old.callbacks }
        ensures sets { OnOk result ((d : ℕ) → marked d self.new
            ≡ (if d == depth then c ∷ [] else marked d self.old)) }
        ensures kept { OnErr result ((d : ℕ) → marked d self.new ≡ marked d self.old) }
    {
        put_one(alloc, &mut self.sets, depth as usize, c)
    }

    /// How many are in the set of a depth.
    pub fn marked(&self, depth: u32) -> u32
        ensures { result ≡ length (marked depth self.now) }
    {
        count_at(&self.sets, depth as usize) as u32
    }

    /// Takes the k-th out of the set of a depth, by number from 0; none where there are not so
    /// many.
    pub fn take_marked(&mut self, depth: u32, k: u32) -> Option<CbNumber>
        ensures taken { result ≡ slice_get (marked depth self.old) k }
        ensures callbacks { self.new.callbacks ≡ self.old.callbacks }
        ensures left { IfSome result (λ c. (d : ℕ) → marked d self.new
            ≡ (if d == depth then without_number c (marked d self.old) else marked d self.old)) }
        ensures kept { IfNone result ((d : ℕ) → marked d self.new ≡ marked d self.old) }
    {
        take_at(&mut self.sets, depth as usize, k as usize)
    }

    /// Empties the set of a depth.
    pub fn clear_marks(&mut self, depth: u32)
        ensures callbacks { self.new.callbacks ≡ self.old.callbacks }
        ensures sets { (d : ℕ) → marked d self.new
            ≡ (if d == depth then [] else marked d self.old) }
    {
        clear_at(&mut self.sets, depth as usize);
    }
}

ghost use Rattle.std.specs.Prelude.{◌≡◌, ◌+◌, ℕ, length, false, true, is_some, Some, IfOk, IfErr, OnErr};
ghost use Rattle.std.specs.Option.{option_copied, option_map};
ghost use Rattle.vh_callbacks.specs.Callbacks.{live_at, is_full, registered, removed, info_of, body_of, held_of, known_at, matches, HandsBack, gone_of};
ghost use Rattle.vh_callbacks.specs.Marks.{empty, marked, without_number, IsMarked};

mod activations;
mod marks;

use crate::entries::{Entries, hold, live_one, put, take_body, watched};
use crate::index::{Index, is_watched, take, watch_of};
use crate::live::Live;
use crate::registration::{RegisterFault, Registration, Removed};
use crate::sets::{Sets, drop_everywhere};
use std::alloc::Global;
use std::collections::BTreeMap;
use std::marker::Model;
use vh_base::{CbNumber, MOST_CALLBACKS, MOST_NUMBERS, Object, Reason};

/// The callbacks by number, with a set of live numbers for each depth, which contracts see as
/// `Registered`. A body is what a callback calls; the registry only keeps it.
#[derive(Drop)]
pub struct Registry<B> {
    entries: Entries<B>,
    index: Index,
    next: u64,
    // how many are live
    count: u32,
    sets: Sets,
}

impl<B> Model for Registry<B> {
    ghost use Rattle.vh_callbacks.specs.Marks.{Registered};
    ghost use Rattle.vh_callbacks.specs.Keeping.{shown, IsKept};

    ghost Value = { Registered B };

    ghost view = { λ r. shown r.entries.entries r.next r.sets.items };

    ghost invariant = { λ r. IsKept r.entries.entries r.index.entries r.next r.count r.sets.items };
}

impl<B: Drop> Registry<B> {
    /// No callback; the first number is 1.
    pub fn new(alloc: Global) -> Registry<B>
        ensures { result ≡ empty }
    {
        Registry {
            entries: BTreeMap::new(alloc),
            index: BTreeMap::new(alloc),
            next: 1,
            count: 0,
            sets: Vec::new(alloc),
        }
    }

    /// Registers a callback, under the next number.
    pub fn register(
        &mut self,
        alloc: Global,
        r: Registration,
        body: B,
    ) -> Result<CbNumber, RegisterFault<B>>
        ensures ok { IfOk result (λ c. (is_full self.old.callbacks ≡ false)
            × (c ≡ self.old.callbacks.next)
            × (self.new ≡ record self.old { callbacks = registered r body self.old.callbacks })) }
        // A full registry refuses, and no other but where memory is refused; the body comes back.
        ensures err { IfErr result (HandsBack (is_full self.old.callbacks) body) }
        ensures kept { OnErr result (self.new ≡ self.old) }
    {
        if self.is_full() {
            return Err(RegisterFault::Full(body));
        }
        let number = self.next;
        let live = Live {
            registration: r,
            body,
            activations: 0,
        };
        if let Err(live) = put(alloc, &mut self.entries, &mut self.index, number, live) {
            return Err(RegisterFault::NoMemory(live.body));
        }
        self.next = number + 1;
        self.count += 1;
        Ok(CbNumber::new(number))
    }

    /// Takes a callback out, if it is live, and its number out of each set. One of which an
    /// activation runs is held from now on.
    pub fn remove(&mut self, c: CbNumber) -> Removed<B>
        ensures answer { result ≡ gone_of (live_at c self.old.callbacks.live) }
        ensures callbacks { self.new.callbacks ≡ removed c self.old.callbacks }
        ensures sets { (d : ℕ) → marked d self.new ≡ without_number c (marked d self.old) }
    {
        let number = c.number();
        let Some(w) = watched(&self.entries, number) else {
            return Removed::NotLive;
        };
        take(&mut self.index, w, c);
        drop_everywhere(&mut self.sets, c);
        self.count -= 1;
        if hold(&mut self.entries, number) {
            return Removed::Running;
        }
        Removed::Gone(take_body(&mut self.entries, number))
    }

    /// What a callback was registered with; none where it isn't live.
    pub fn info(&self, c: CbNumber) -> Option<Registration>
        ensures { result ≡ info_of c self.now.callbacks }
    {
        let live = self.callback(c)?;
        Some(live.registration)
    }

    /// The callback of this number; none where it isn't live.
    pub fn callback(&self, c: CbNumber) -> Option<&Live<B>>
        ensures live { option_copied result ≡ live_at c self.now.callbacks.live }
        ensures info { option_map (λ live. live.now.registration) result
            ≡ info_of c self.now.callbacks }
        ensures body { option_map (λ live. live.now.body) result ≡ body_of c self.now.callbacks }
    {
        live_one(&self.entries, c.number())
    }

    /// What a held callback was registered with: one that was removed, and of which an
    /// activation still runs. None for every other.
    pub fn held(&self, c: CbNumber) -> Option<Registration>
        ensures { result ≡ held_of c self.now.callbacks }
    {
        let kept = self.entries.get(&c.number())?;
        if kept.is_live {
            return None;
        }
        Some(kept.callback.registration)
    }

    /// What a live or held callback calls.
    pub fn body(&self, c: CbNumber) -> &B
        requires known { is_some (known_at c self.now.callbacks) ≡ true }
        ensures { option_map (λ l. l.body) (known_at c self.now.callbacks) ≡ Some result.now }
    {
        let Some(kept) = self.entries.get(&c.number()) else {
            unreachable!();
        };
        &kept.callback.body
    }

    /// The number that the next registration gets.
    pub fn next_number(&self) -> CbNumber
        ensures number { result ≡ self.now.callbacks.next }
        ensures marked { IsMarked self.now }
    {
        CbNumber::new(self.next)
    }

    /// How many callbacks are live: [`MOST_CALLBACKS`] at most.
    pub fn live(&self) -> u32
        ensures { result ≡ length self.now.callbacks.live }
    {
        self.count
    }

    /// May no callback be registered? So many are live, or the numbers are used up.
    pub fn is_full(&self) -> bool
        ensures { result ≡ is_full self.now.callbacks }
    {
        self.count as usize >= MOST_CALLBACKS || self.next > MOST_NUMBERS
    }

    /// Has a live callback this reason and this object? Callbacks of others are not walked.
    pub fn matches(&self, reason: Reason, o: Option<Object>) -> bool
        ensures { result ≡ matches reason o self.now.callbacks }
    {
        is_watched(&self.index, watch_of(reason, &o))
    }
}

ghost use Rattle.std.specs.Prelude.{◌≡◌, ◌<◌, ◌==◌, ℕ, [], false, map, length, take, OnOk, OnErr, IfOk};
ghost use Rattle.std.specs.List.Sorted.{IsStrictlySortedBy};
ghost use Rattle.std.specs.Map.{keys_of};
ghost use Rattle.std.specs.Ordering.{nat_cmp};
ghost use Rattle.vh_sense.specs.Follows.{follow_cmp};
ghost use Rattle.vh_sense.specs.Sensitivity.{IsOpening, with_wait, without_wait, woken, next_woken, after_woken, readers_of, next_follow};
ghost use Rattle.vh_sense.specs.Views.{behind, watches};

use crate::follow::{Follow, Key};
use crate::readers::{Readers, readers_of};
use crate::sets::empty_sets;
use crate::watchers::{Waiting, Watchers, enter, first_met, leave};
use std::alloc::Global;
use std::collections::BTreeMap;
use std::marker::Model;
use std::ops::Bound;
use vh_base::{NoMemory, ProcId, Sequence, WaitId};
use vh_design::{Change, Design, WaitInfo};

/// Who waits on what in a design, which contracts see as `Sensitivity`. Inside each object has the set of
/// the processes that wait on it, so that a change looks at no others.
#[derive(Drop)]
pub struct Sense {
    waits: Vec<WaitInfo>,
    readers: Vec<Readers>,
    watchers: Vec<Watchers>,
    waiting: Waiting,
}

impl Model for Sense {
    ghost use Rattle.std.specs.Prelude.{map};
    ghost use Rattle.vh_sense.specs.Sensitivity.{Sensitivity};
    ghost use Rattle.vh_sense.specs.Views.{follows_in, Holds};

    ghost Value = { Sensitivity };

    ghost view = { λ s. record {
      waits = s.waits.items;
      readers = map follows_in s.readers.items;
      waiting = s.waiting.entries;
    } };

    ghost invariant = { λ s. Holds s.waits.items s.watchers.items s.waiting.entries };
}

// The waits of a design once more.
fn waits_of(alloc: Global, d: &Design) -> Result<Vec<WaitInfo>, NoMemory>
    ensures { IfOk result (λ ws. ws.items ≡ d.now.waits) }
{
    let count = d.counts().waits;
    let mut waits = Vec::with_capacity(alloc, count as usize)?;
    for w in 0..count {
        let terms = Sequence::from_slice(alloc, d.wait(WaitId::new(w)).terms.as_slice())?;
        waits.push(WaitInfo { terms })?;
    }
    Ok(waits)
}

// The keys above one, where there is one.
fn behind(after: Option<Follow>) -> Bound<Key>
    ensures { result ≡ behind after }
{
    match after {
        None => Bound::Unbounded,
        Some(f) => Bound::Excluded(Key::new(f)),
    }
}

impl Sense {
    /// Nobody waits. It goes once over the design.
    pub fn new(alloc: Global, d: &Design) -> Result<Sense, NoMemory>
        ensures { IfOk result (λ s. IsOpening d.now s) }
    {
        Ok(Sense {
            waits: waits_of(alloc, d)?,
            readers: readers_of(alloc, d)?,
            watchers: empty_sets(alloc, d.counts().objects)?,
            waiting: BTreeMap::new(alloc),
        })
    }

    /// The process waits, for this and for nothing else; without memory it waits for nothing. It takes
    /// the logarithm of what waits, for each term.
    pub fn wait(&mut self, p: ProcId, terms: WaitId) -> Result<(), NoMemory>
        requires { terms < length self.old.waits }
        ensures waits { OnOk result (self.new ≡ with_wait p terms self.old) }
        ensures none { OnErr result (self.new ≡ without_wait p self.old) }
    {
        let process = p.number();
        leave(&self.waits, &mut self.watchers, &mut self.waiting, process);
        enter(
            &self.waits,
            &mut self.watchers,
            &mut self.waiting,
            process,
            terms.number(),
        )
    }

    /// The process waits for nothing any more.
    pub fn forget(&mut self, p: ProcId)
        ensures { self.new ≡ without_wait p self.old }
    {
        leave(
            &self.waits,
            &mut self.watchers,
            &mut self.waiting,
            p.number(),
        );
    }

    /// The least process above another that a change wakes (IEEE 1364-2005, 9.7); it waits for nothing any
    /// more. A named event's change has one x before and after. It takes the logarithm of what waits, and
    /// a test of each process above the other that waits on the same object and isn't woken.
    pub fn next_woken(&mut self, c: &Change, after: Option<ProcId>) -> Option<ProcId>
        ensures woken { result ≡ next_woken self.old c.now after }
        ensures gone { self.new ≡ after_woken result self.old }
        ensures rising { IsStrictlySortedBy nat_cmp (keys_of self.old.waiting) }
    {
        let watchers = self.watchers.get(c.object.id.number() as usize)?;
        let p = first_met(watchers, &self.waits, &self.waiting, c, after)?;
        leave(&self.waits, &mut self.watchers, &mut self.waiting, p);
        Some(ProcId::new(p))
    }

    /// The first force or assign statement behind another, by object, force before assign, then expression,
    /// whose expression reads the changed object or a word of it (IEEE 1364-2005, 9.3). It takes the
    /// logarithm of how many do.
    pub fn next_follow(&self, c: &Change, after: Option<Follow>) -> Option<Follow>
        ensures follow { result ≡ next_follow self.now c.now after }
        ensures rising { IsStrictlySortedBy follow_cmp (readers_of c.now.object.id self.now) }
    {
        let readers = self.readers.get(c.object.id.number() as usize)?;
        let key = readers.range((behind(after), Bound::Unbounded)).next()?;
        Some(key.follow())
    }
}

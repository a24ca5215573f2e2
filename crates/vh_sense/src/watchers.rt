ghost use Rattle.std.specs.Prelude.{◌≡◌, ◌<◌, ◌==◌, ◌&&◌, ◌||◌, ℕ, true, false, find, length, if◌then◌else◌, OnOk, OnErr, IfOk, Option, None, slice_get};
ghost use Rattle.std.specs.BTreeMap.{is_at, insert_entry, get};
ghost use Rattle.std.specs.BTreeSet.{keys_between, IsOrdered as IsOrderedSet};
ghost use Rattle.std.specs.Map.{remove_entry};
ghost use Rattle.std.specs.declared.ops.Bound.TheVariants.{Unbounded};
ghost use Rattle.std.specs.Ordering.{nat_cmp};
ghost use Rattle.vh_sense.specs.Waits.{object_of, is_met_by, meets, is_met, is_met_at};
ghost use Rattle.vh_sense.specs.Views.{names, watches, above, SetsTo, ArePlaced, Holds};

use crate::edges::is_change;
use std::alloc::Global;
use std::collections::{BTreeMap, BTreeSet};
use std::ops::Bound;
use vh_base::{NoMemory, ObjId, ProcId};
use vh_design::{Change, Term, WaitInfo};

// The processes that wait on an object.
pub(crate) type Watchers = BTreeSet<u64, Global>;

// The number of the wait of each process that waits.
pub(crate) type Waiting = BTreeMap<u64, u32, Global>;

// The object that a term names.
fn object_of(term: &Term) -> ObjId
    ensures { result ≡ object_of term.now }
{
    match term {
        Term::Digits { object, .. } => *object,
        Term::Event(object) => *object,
        Term::Reads(object) => *object,
    }
}

// Does the change of its object meet a term?
fn is_met_by(c: &Change, term: &Term) -> bool
    ensures { result ≡ is_met_by c.now term.now }
{
    match term {
        Term::Digits {
            low,
            width,
            edge,
            ..
        } => is_change(*edge, *low, *width, &c.old, &c.new),
        Term::Event(_) | Term::Reads(_) => true,
    }
}

// Does a change meet a term?
fn meets(c: &Change, term: &Term) -> bool
    ensures { result ≡ meets c.now term.now }
{
    object_of(term).number() == c.object.id.number() && is_met_by(c, term)
}

// Does a change meet a wait?
fn is_met(wait: &WaitInfo, c: &Change) -> bool
    ensures { result ≡ is_met wait.now c.now }
{
    wait.terms.as_slice().iter().any(|term| meets(c, term))
}

// Does a change wake the process?
fn is_woken(waits: &[WaitInfo], waiting: &Waiting, c: &Change, p: u64) -> bool
    ensures { result ≡ is_met_at waits.now (get nat_cmp waiting.now p) c.now }
{
    waiting
        .get(&p)
        .and_then(|number| waits.get(*number as usize))
        .map_or(false, |wait| is_met(wait, c))
}

// The processes above one, where there is one.
fn above(after: Option<ProcId>) -> Bound<u64>
    ensures { result ≡ above after }
{
    match after {
        None => Bound::Unbounded,
        Some(p) => Bound::Excluded(p.number()),
    }
}

// The least of these processes above one that a change wakes.
pub(crate) fn first_met(
    watchers: &Watchers,
    waits: &[WaitInfo],
    waiting: &Waiting,
    c: &Change,
    after: Option<ProcId>,
) -> Option<u64>
    ensures value { result ≡
        find (λ p. is_met_at waits.now (get nat_cmp waiting.now p) c.now)
        (keys_between nat_cmp (above after) Unbounded watchers.now) }
    ensures sorted { IsOrderedSet nat_cmp watchers.now }
{
    watchers
        .range((above(after), Bound::Unbounded))
        .copied()
        .find(|p| is_woken(waits, waiting, c, *p))
}

// The process is in the set of an object.
fn put_process(watchers: &mut [Watchers], o: ObjId, p: u64) -> Result<(), NoMemory>
    requires { o < length watchers.old }
    ensures added { OnOk result (SetsTo true (λ x. o == x) p watchers.old watchers.new) }
    ensures kept { OnErr result (SetsTo true (λ x. false) p watchers.old watchers.new) }
{
    watchers[o.number() as usize].insert(p)?;
    Ok(())
}

// The process is not in the set of an object.
fn take_process(watchers: &mut [Watchers], o: ObjId, p: u64)
    requires { o < length watchers.old }
    ensures { SetsTo false (λ x. o == x) p watchers.old watchers.new }
{
    watchers[o.number() as usize].remove(&p);
}

// The process is in no set of an object that a term names.
fn unwatch(watchers: &mut [Watchers], terms: &[Term], p: u64)
    requires { ArePlaced terms.now (length watchers.old) }
    ensures { SetsTo false (names terms.now) p watchers.old watchers.new }
{
    for term in terms {
        take_process(watchers, object_of(term), p);
    }
}

// The process is in the set of each object that a term names; without memory, in none of these sets.
fn watch(watchers: &mut [Watchers], terms: &[Term], p: u64) -> Result<(), NoMemory>
    requires { ArePlaced terms.now (length watchers.old) }
    ensures added { OnOk result (SetsTo true (names terms.now) p watchers.old watchers.new) }
    ensures none { OnErr result (SetsTo false (names terms.now) p watchers.old watchers.new) }
{
    for term in terms {
        if let Err(fault) = put_process(watchers, object_of(term), p) {
            unwatch(watchers, terms, p);
            return Err(fault);
        }
    }
    Ok(())
}

// A process that waits for nothing waits from now on, by the number of its wait; without memory it
// still waits for nothing.
pub(crate) fn enter(
    waits: &[WaitInfo],
    watchers: &mut [Watchers],
    waiting: &mut Waiting,
    p: u64,
    number: u32,
) -> Result<(), NoMemory>
    requires there { number < length waits.now }
    requires holds { Holds waits.now watchers.old waiting.old.entries }
    requires free { get nat_cmp waiting.old p ≡ None }
    ensures holds { Holds waits.now watchers.new waiting.new.entries }
    ensures added { OnOk result
        (waiting.new.entries ≡ insert_entry nat_cmp waiting.old.entries p number) }
    ensures kept { OnErr result (waiting.new.entries ≡ waiting.old.entries) }
{
    let terms = waits[number as usize].terms.as_slice();
    watch(watchers, terms, p)?;
    match waiting.insert(p, number) {
        Ok(_) => Ok(()),
        Err(_) => {
            unwatch(watchers, terms, p);
            Err(NoMemory)
        }
    }
}

// A process waits for nothing any more.
pub(crate) fn leave(waits: &[WaitInfo], watchers: &mut [Watchers], waiting: &mut Waiting, p: u64)
    requires { Holds waits.now watchers.old waiting.old.entries }
    ensures holds { Holds waits.now watchers.new waiting.new.entries }
    ensures gone { waiting.new.entries ≡ remove_entry (is_at (nat_cmp p)) waiting.old.entries }
    ensures free { get nat_cmp waiting.new p ≡ None }
{
    if let Some(number) = waiting.remove(&p) {
        unwatch(watchers, waits[number as usize].terms.as_slice(), p);
    }
}

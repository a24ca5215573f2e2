ghost use Rattle.std.specs.Prelude.{◌≡◌, false, true, length, is_some, IfOk, IfErr, OnOk, OnErr};
ghost use Rattle.std.specs.BTreeMap.{is_at, insert_entry};
ghost use Rattle.std.specs.Map.{lookup, set_value};
ghost use Rattle.std.specs.Option.{option_and_then};
ghost use Rattle.std.specs.Ordering.{nat_cmp};
ghost use Rattle.vh_handles.specs.Handles.{Numbered, no_handles, handles_of, thing_at, no_handle_more, opened, freed, past_next, advanced, HasCause};

use std::alloc::Global;
use std::collections::BTreeMap;
use std::marker::Model;
use thiserror::Error;
use vh_base::{CbNumber, HandleNo, MOST_HANDLES, MOST_NUMBERS, NoMemory, Object, Relation, Serial};

/// What a handle names.
#[derive(Clone, Copy, Debug, PartialEq, Eq)]
pub enum Thing {
    Object(Object),
    /// The objects of a relation, one after the other.
    Iterator {
        relation: Relation,
        /// Whose relation it is; `None` where it is that of no object.
        from: Option<Object>,
        /// How many objects it is past.
        at: u32,
        /// How many objects there are.
        count: u32,
    },
    /// A callback, by its number.
    Callback(CbNumber),
    /// An event that stands in the queue, by its serial.
    Event(Serial),
}

impl Thing {
    // The iterator past its next object; none where it is past all, or where it is no iterator.
    fn past_next(self) -> Option<Thing>
        ensures { result ≡ past_next self }
    {
        match self {
            Thing::Iterator {
                relation,
                from,
                at,
                count,
            } => {
                if at >= count {
                    return None;
                }
                Some(Thing::Iterator {
                    relation,
                    from,
                    at: at + 1,
                    count,
                })
            }
            Thing::Object(_) | Thing::Callback(_) | Thing::Event(_) => None,
        }
    }
}

/// Why no handle was given. Nothing has changed.
#[derive(Clone, Copy, Debug, PartialEq, Eq, Error)]
pub enum OpenFault {
    #[error("65,536 handles are live, or the numbers are used up")]
    Full,
    #[error("out of memory")]
    NoMemory,
}

/// The handles that are live, and the next number.
#[derive(Drop)]
pub struct Handles {
    live: BTreeMap<u64, Thing, Global>,
    next: u64,
}

impl Model for Handles {
    ghost use Rattle.vh_handles.specs.Handles.{Numbered, handles_of};
    ghost use Rattle.vh_handles.specs.Laws.{IsSound};

    ghost Value = { Numbered };

    ghost view = { λ h. record { live = h.live.entries; next = h.next } };

    ghost invariant = { λ h.
        IsSound (handles_of (record { live = h.live.entries; next = h.next })) };
}

impl Handles {
    ghost use Rattle.vh_handles.specs.Laws.{IsSound};

    /// No handle was given.
    pub fn new(alloc: Global) -> Handles
        ensures { handles_of result ≡ no_handles }
    {
        Handles {
            live: BTreeMap::new(alloc),
            next: 0,
        }
    }

    /// The number that the next handle gets.
    pub fn next_number(&self) -> HandleNo
        ensures next { result ≡ self.now.next }
        ensures new { (handles_of self.now).is_given result ≡ false }
        ensures sound { IsSound (handles_of self.now) }
    {
        HandleNo::new(self.next)
    }

    /// What a live handle names.
    pub fn thing(&self, h: HandleNo) -> Option<Thing>
        ensures { result ≡ thing_at h (handles_of self.now) }
    {
        self.live.get(&h.number()).copied()
    }

    /// How many handles are live: [`MOST_HANDLES`] at most.
    pub fn live(&self) -> u32
        ensures { result ≡ length (handles_of self.now).live }
    {
        self.live.len() as u32
    }

    /// May no handle be given? So many are live, or the numbers are used up.
    pub fn is_full(&self) -> bool
        ensures { result ≡ no_handle_more (handles_of self.now) }
    {
        self.live.len() >= MOST_HANDLES || self.next >= MOST_NUMBERS
    }

    /// Gives the next number to a thing.
    pub fn open_handle(&mut self, _alloc: Global, thing: Thing) -> Result<HandleNo, OpenFault>
        ensures room { IfOk result (λ h. no_handle_more (handles_of self.old) ≡ false) }
        ensures number { IfOk result (λ h. h ≡ (self.old).next) }
        ensures opens { IfOk result
            (λ h. handles_of self.new ≡ opened h thing (handles_of self.old)) }
        // Full handles refuse, and no others but where memory is refused.
        ensures err { IfErr result (HasCause (no_handle_more (handles_of self.old))) }
        ensures kept { OnErr result (handles_of self.new ≡ handles_of self.old) }
    {
        if self.is_full() {
            return Err(OpenFault::Full);
        }
        let number = self.next;
        match put(&mut self.live, number, thing) {
            Ok(()) => {
                self.next = number + 1;
                Ok(HandleNo::new(number))
            }
            Err(_) => Err(OpenFault::NoMemory),
        }
    }

    /// The number names nothing any more. Was it live?
    pub fn free(&mut self, h: HandleNo) -> bool
        ensures answer { result ≡ is_some (thing_at h (handles_of self.old)) }
        ensures frees { handles_of self.new ≡ freed h (handles_of self.old) }
    {
        self.live.remove(&h.number()).is_some()
    }

    /// An iterator goes past its next object. Did it? Not where it is past all, and not where the
    /// handle names no iterator or isn't live.
    pub fn advance_iterator(&mut self, h: HandleNo) -> bool
        ensures answer { result ≡ is_some
            (option_and_then past_next (thing_at h (handles_of self.old))) }
        ensures advances { handles_of self.new ≡ advanced h (handles_of self.old) }
    {
        let Some(thing) = self.thing(h) else {
            return false;
        };
        let Some(next) = thing.past_next() else {
            return false;
        };
        set(&mut self.live, h.number(), next);
        true
    }
}

// Puts a thing under a number.
fn put(live: &mut BTreeMap<u64, Thing, Global>, number: u64, thing: Thing) -> Result<(), Thing>
    ensures put { OnOk result
        (live.new.entries ≡ insert_entry nat_cmp live.old.entries number thing) }
    ensures kept { OnErr result (live.new.entries ≡ live.old.entries) }
{
    match live.insert(number, thing) {
        Ok(_) => Ok(()),
        Err(refused) => {
            let (_, back) = refused.value;
            Err(back)
        }
    }
}

// Puts another thing under a live number.
fn set(live: &mut BTreeMap<u64, Thing, Global>, number: u64, thing: Thing)
    requires { is_some (lookup (is_at (nat_cmp number)) live.old.entries) ≡ true }
    ensures { live.new.entries ≡ set_value (is_at (nat_cmp number)) live.old.entries thing }
{
    let Some(position) = live.get_mut(&number) else {
        unreachable!();
    };
    *position = thing;
}

ghost use Rattle.std.specs.Prelude.{◌≡◌, true, position, slice_get, IfOk, OnOk};
ghost use Rattle.std.specs.Option.{option_copied};
ghost use Rattle.vh_orders.specs.Names.{is_meant, object_named};
ghost use Rattle.vh_orders.specs.LookUp.{is_findable, candidate, lesser, IsMemoryCandidate, IsIndexOf, Adds};

use crate::addresses::memory_of;
use crate::names::{Named, has_path, narrow, narrow_address, position_named};
use indexmap::IndexMap;
use std::alloc::Global;
use std::marker::Model;
use vh_base::{NoMemory, ObjId, Object};

// The positions of objects by their full names. It isn't whole where two of them have one name.
#[derive(Drop)]
struct Index {
    positions: IndexMap<Vec<u8>, u32>,
    is_whole: bool,
}

// Has an object a name that is looked for: its own, or those of its words?
fn is_findable(named: &Named) -> bool
    ensures { result ≡ is_findable named.now }
{
    has_path(named.kind) || named.words > 0
}

// The lesser of two positions, where there are any.
fn lesser(a: Option<u32>, b: Option<u32>) -> Option<u32>
    ensures { result ≡ lesser a b }
{
    match (a, b) {
        (Some(a), Some(b)) => Some(a.min(b)),
        (Some(_), None) => a,
        (None, _) => b,
    }
}

impl Index {
    // Of all objects.
    fn new(alloc: Global, names: &[Named]) -> Result<Index, NoMemory>
        ensures { IfOk result (λ i. IsIndexOf names.now i) }
    {
        let mut index = Index {
            positions: IndexMap::new(alloc),
            is_whole: true,
        };
        for at in 0..names.len() {
            index.add(alloc, at, &names[at])?;
        }
        Ok(index)
    }

    // One object more.
    fn add(&mut self, alloc: Global, at: usize, named: &Named) -> Result<(), NoMemory>
        ensures { OnOk result (Adds at named.now self.old self.new) }
    {
        if !self.is_whole || !is_findable(named) {
            return Ok(());
        }
        if self.positions.get(named.name.as_slice()).is_some() {
            self.is_whole = false;
            return Ok(());
        }
        let Ok(place) = u32::try_from(at) else {
            return Err(NoMemory);
        };
        let key = Vec::from_slice(alloc, named.name.as_slice())?;
        self.positions.insert(key, place)?;
        Ok(())
    }

    // The place of the object of a name, if a text means that object.
    fn candidate(&self, name: &[u8], text: &[u8], names: &[Named]) -> Option<u32>
        ensures { result ≡ candidate name.now text.now self.now names.now }
    {
        let Some(place) = self.positions.get(name).copied() else {
            return None;
        };
        let Some(named) = names.get(place as usize) else {
            return None;
        };
        if !named.is_meant(text) {
            return None;
        }
        Some(place)
    }

    // The place of the memory whose word a text means.
    fn memory_candidate(&self, text: &[u8], names: &[Named]) -> Option<u32>
        ensures { IsMemoryCandidate text.now self.now names.now result }
    {
        let Some(name) = memory_of(text) else {
            return None;
        };
        self.candidate(name, text, names)
    }

    // The place of the object that a text means, or a word of which it means.
    fn position_named(&self, text: &[u8], names: &[Named]) -> Option<usize>
        requires indexes { IsIndexOf names.now self.now }
        requires whole { self.now.is_whole ≡ true }
        ensures { result ≡ position (is_meant text.now) names.now }
    {
        let object = self.candidate(text, text, names);
        let memory = self.memory_candidate(text, names);
        let Some(place) = lesser(object, memory) else {
            return None;
        };
        Some(place as usize)
    }
}

/// The objects of a design by number, which contracts see as a list. The first order that looks
/// for a name goes over them once, and takes memory for each name; a later one takes the time of
/// its text alone. In a design where two objects that a name may mean have one name, each goes
/// over all.
#[derive(Drop)]
pub struct Names {
    all: Vec<Named>,
    index: Option<Index>,
}

impl Model for Names {
    ghost use Rattle.std.specs.Prelude.{List};
    ghost use Rattle.vh_orders.specs.declared.names.Named.{Named};
    ghost use Rattle.vh_orders.specs.LookUp.{IsIndexed};

    ghost Value = { List Named };

    ghost view = { λ n. n.all.items };

    ghost invariant = { λ n. IsIndexed n.all.items n.index };
}

impl Names {
    /// Of objects by number.
    pub fn new(all: Vec<Named>) -> Names
        ensures { result ≡ all.items }
    {
        Names { all, index: None }
    }

    // The object of a number.
    pub(crate) fn get(&self, id: ObjId) -> Option<&Named>
        ensures { option_copied result ≡ slice_get self.now id }
    {
        self.all.get(id.number() as usize)
    }

    // The object of a full name, or the word.
    pub(crate) fn object_named(
        &mut self,
        alloc: Global,
        text: &[u8],
    ) -> Result<Option<Object>, NoMemory>
        ensures same { self.new ≡ self.old }
        ensures found { IfOk result (λ o. o ≡ object_named text.now self.old) }
    {
        self.make_index(alloc)?;
        self.found(text)
    }

    // Makes the index, if there is none yet.
    fn make_index(&mut self, alloc: Global) -> Result<(), NoMemory>
        ensures { self.new ≡ self.old }
    {
        if self.index.is_none() {
            self.index = Some(Index::new(alloc, self.all.as_slice())?);
        }
        Ok(())
    }

    // The object of a full name, or the word, by the index if there is one.
    fn found(&self, text: &[u8]) -> Result<Option<Object>, NoMemory>
        ensures { IfOk result (λ o. o ≡ object_named text.now self.now) }
    {
        let Some(at) = self.position_named(text) else {
            return Ok(None);
        };
        let Some(named) = self.all.get(at) else {
            return Ok(None);
        };
        let word = narrow_address(named.word_of(text))?;
        let id = ObjId::new(narrow(at as u64)?);
        Ok(Some(Object { id, word }))
    }

    // The place of the object that a full name means, or a word of which it means.
    fn position_named(&self, text: &[u8]) -> Option<usize>
        ensures { result ≡ position (is_meant text.now) self.now }
    {
        if let Some(index) = &self.index {
            if index.is_whole {
                return index.position_named(text, self.all.as_slice());
            }
        }
        position_named(self.all.as_slice(), text)
    }
}

ghost use Rattle.std.specs.Prelude.{◌≡◌, position, IfOk};
ghost use Rattle.vh_orders.specs.Names.{has_path, has_name, word_of, is_meant, below, may_watch};

use crate::addresses::word_named;
use std::alloc::Global;
use vh_base::{Bytes, NoMemory, Reason, Sequence};
use vh_design::Kind;

/// An object of the design as applications know it.
#[derive(Drop)]
pub struct Named {
    /// Its full name.
    pub name: Bytes,
    pub kind: Kind,
    /// The lowest address of a memory; 0 for every other kind.
    pub lowest: u32,
    /// How many words a memory has; 0 for every other kind.
    pub words: u32,
}

impl Named {
    // Is it the object of that full name?
    fn has_name(&self, text: &[u8]) -> bool
        ensures { result ≡ has_name text.now self.now }
    {
        has_path(self.kind) && self.name.as_slice() == text
    }

    // The address of its word of that full name.
    pub(crate) fn word_of(&self, text: &[u8]) -> Option<u64>
        ensures { result ≡ word_of text.now self.now }
    {
        word_named(text, self.name.as_slice(), self.lowest, self.words)
    }

    // Does that full name mean it, or a word of it?
    pub(crate) fn is_meant(&self, text: &[u8]) -> bool
        ensures { result ≡ is_meant text.now self.now }
    {
        self.has_name(text) || self.word_of(text).is_some()
    }
}

// Does a full name mean an object of this kind?
pub(crate) fn has_path(kind: Kind) -> bool
    ensures { result ≡ has_path kind }
{
    kind.is_scope() || kind.is_vector() || kind.is_memory() || kind.is_event()
}

// The place of the object that a full name means, or a word of which it means.
pub(crate) fn position_named(names: &[Named], text: &[u8]) -> Option<usize>
    ensures { result ≡ position (is_meant text.now) names.now }
{
    names.iter().position(|n| n.is_meant(text))
}

// A number of an object, or an address: no design has one of 2^32.
pub(crate) fn narrow(number: u64) -> Result<u32, NoMemory>
    ensures { IfOk result (λ n. n ≡ number) }
{
    u32::try_from(number).map_err(|_| NoMemory)
}

// The address of a word, if it is one.
pub(crate) fn narrow_address(address: Option<u64>) -> Result<Option<u32>, NoMemory>
    ensures { IfOk result (λ a. a ≡ address) }
{
    match address {
        None => Ok(None),
        Some(address) => Ok(Some(narrow(address)?)),
    }
}

// May a reason watch an object of this kind?
pub(crate) fn may_watch(reason: Reason, kind: Kind) -> bool
    ensures { result ≡ may_watch reason kind }
{
    match reason {
        Reason::CbValueChange => kind.is_forcible() || kind.is_memory(),
        Reason::CbForce | Reason::CbRelease => kind.is_forcible(),
        Reason::CbAtStartOfSimTime
        | Reason::CbAfterDelay
        | Reason::CbNextSimTime
        | Reason::CbReadWriteSynch
        | Reason::CbReadOnlySynch
        | Reason::CbEndOfCompile
        | Reason::CbStartOfSimulation
        | Reason::CbEndOfSimulation => false,
    }
}

/// A path below a scope: the two with a dot between them.
pub fn joined(alloc: Global, scope: &[u8], path: &[u8]) -> Result<Bytes, NoMemory>
    ensures { IfOk result (λ name. name ≡ below scope.now path.now) }
{
    let length = scope.len().saturating_add(path.len()).saturating_add(1);
    let mut name = Vec::with_capacity(alloc, length)?;
    name.extend_from_slice(scope)?;
    name.push(b'.')?;
    name.extend_from_slice(path)?;
    Ok(Sequence::new(name))
}

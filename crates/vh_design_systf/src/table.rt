ghost use Rattle.std.specs.Prelude.{◌≡◌, ◌<◌, ◌≤◌, ◌+◌, ◌^◌, length, slice_get, Some, IfOk, IfSome, IsTrue, OnOk, ◌↔◌, List};
ghost use Rattle.vh_design_systf.specs.Table.{has_name, position_of, with_entry, table_of};

use crate::built_in::is_built_in;
use indexmap::IndexMap;
use std::alloc::Global;
use std::marker::Model;
use vh_base::{NoMemory, SystfEntry};

/// The user system tasks and functions, by number and by name, which contracts see as the list of
/// their registrations.
#[derive(Drop)]
pub struct SystfTable {
    rows: IndexMap<Vec<u8>, SystfEntry>,
}

impl Model for SystfTable {
    ghost use Rattle.std.specs.Prelude.{List};
    ghost use Rattle.vh_base.specs.declared.orders.SystfEntry.{SystfEntry};
    ghost use Rattle.vh_design_systf.specs.Seen.{entries_seen, IsKept};

    ghost Value = { List SystfEntry };

    ghost view = { λ t. entries_seen t.rows.entries };

    ghost invariant = { λ t. IsKept t.rows.entries };
}

// The same registration once more.
fn copied(entry: &SystfEntry) -> Result<SystfEntry, NoMemory>
    ensures { IfOk result (λ copied. copied ≡ entry.now) }
{
    let compiletf = match &entry.compiletf {
        None => None,
        Some(name) => Some(name.copy()?),
    };
    Ok(SystfEntry {
        kind: entry.kind,
        name: entry.name.copy()?,
        size: entry.size,
        calltf: entry.calltf.copy()?,
        compiletf,
    })
}

impl SystfTable {
    /// The table of some registrations: the first of each name that is not built in. Each takes
    /// constant time in their number.
    pub fn of(alloc: Global, entries: &Vec<SystfEntry>) -> Result<SystfTable, NoMemory>
        requires { length entries.now.items < 2 ^ 32 }
        ensures { IfOk result (λ table. table ≡ table_of entries.now.items) }
    {
        let mut table = SystfTable {
            rows: IndexMap::new(alloc),
        };
        for entry in entries {
            table.add(alloc, entry)?;
        }
        Ok(table)
    }

    // Adds a registration, if its name is not built in and was not registered before.
    fn add(&mut self, alloc: Global, entry: &SystfEntry) -> Result<(), NoMemory>
        requires { length self.old + 1 < 2 ^ 32 }
        ensures added { OnOk result (self.new ≡ with_entry self.old entry.now) }
        ensures grows { OnOk result (length self.new ≤ length self.old + 1) }
    {
        let name = entry.name.bytes();
        if is_built_in(name) || self.has(name) {
            return Ok(());
        }
        let name = Vec::from_slice(alloc, name)?;
        let copied = copied(entry)?;
        self.rows.insert(name, copied)?;
        Ok(())
    }

    // Whether a name is there.
    fn has(&self, name: &[u8]) -> bool
        ensures { result ≡ has_name name.now self.now }
    {
        self.rows.get(name).is_some()
    }

    // The position_named of a name.
    fn position_named(&self, name: &[u8]) -> Option<usize>
        ensures value { result ≡ position_of name.now self.now }
        ensures below { IfSome result (λ n. n < length self.now) }
        ensures small { IfSome result (λ n. n < 2 ^ 32) }
    {
        self.rows.get_index_of(name)
    }

    /// The number of the task or function of this name. It takes constant time.
    pub fn find(&self, name: &[u8]) -> Option<u32>
        ensures value { result ≡ position_of name.now self.now }
        ensures below { IfSome result (λ n. n < length self.now) }
    {
        match self.position_named(name) {
            None => None,
            Some(position_named) => Some(position_named as u32),
        }
    }

    /// How many there are.
    pub fn len(&self) -> usize
        ensures { result ≡ length self.now }
    {
        self.rows.len()
    }

    /// Whether there is none.
    pub fn is_empty(&self) -> bool
        ensures { IsTrue result ↔ (length self.now ≡ 0) }
    {
        self.rows.len() == 0
    }

    /// The registration of a number.
    pub fn entry(&self, n: u32) -> &SystfEntry
        requires { n < length self.now }
        ensures { slice_get self.now n ≡ Some result.now }
    {
        match self.rows.get_index(n as usize) {
            Some((_, entry)) => entry,
            None => unreachable!(),
        }
    }
}

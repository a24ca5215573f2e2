ghost use Rattle.std.specs.Prelude.{◌≡◌, ◌^◌, ◌<◌, ◌≢◌, ◌≤◌, ◌+◌, ℕ, List, [], None, Some, take, option_copied, IfOk, OnOk};
ghost use Rattle.vh_base.specs.Held.{shelf_files};
ghost use Rattle.std.specs.Option.{option_map};
ghost use Rattle.vh_base.specs.Memory.{Shelf, bytes_named, read_of, after_read, after_failed_read};
ghost use Rattle.vh_base.specs.Outside.{Rose, IsAnswered};

use crate::outside::{FetchFault, Files};
use std::alloc::Global;
use std::marker::Model;

/// A source of files in memory, whose failing reads are named by number. Contracts see
/// it as a `Shelf`: names with their bytes, the numbers that fail, and the counts.
#[derive(Drop)]
pub struct MemoryFiles {
    files: Vec<(String, Vec<u8>)>,
    failing: Vec<u64>,
    calls: u64,
    faults: u64,
    blamed: Option<String>,
}

impl Model for MemoryFiles {
    ghost use Rattle.vh_base.specs.Memory.{Shelf};
    ghost use Rattle.vh_base.specs.Held.{shelf_files, text_or_empty};

    ghost Value = { Shelf };

    ghost view = { λ s. record {
      files = shelf_files s.files.items;
      failing = s.failing.items;
      calls = s.calls;
      faults = s.faults;
      blamed = text_or_empty s.blamed;
    } };
}

impl MemoryFiles {
    ghost use Rattle.vh_base.specs.Held.{shelf_files};

    /// A source that holds these files, under their names; the reads of the numbers in
    /// `failing`, counted from 1, fail.
    pub fn new(files: Vec<(String, Vec<u8>)>, failing: Vec<u64>) -> MemoryFiles
        ensures { result ≡ record {
          files = shelf_files files.items;
          failing = failing.items;
          calls = 0;
          faults = 0;
          blamed = [];
        } }
    {
        MemoryFiles {
            files,
            failing,
            calls: 0,
            faults: 0,
            blamed: None,
        }
    }
}

impl Files for MemoryFiles {
    ghost holds = { λ s name. bytes_named s.files name };

    ghost faults = { λ s. s.faults };

    ghost blamed = { λ s. s.blamed };

    fn read(&mut self, alloc: Global, name: &str, limit: usize) -> Result<Vec<u8>, FetchFault>
        requires { limit < 2 ^ 31 }
        ensures exact { IfOk result (λ found. read_of self.old name.now limit ≡ Some found.items) }
        ensures after { OnOk result (self.new ≡ after_read self.old) }
        ensures fails { result ≡ Err FetchFault.Failed → read_of self.old name.now limit ≡ None }
        ensures after_failed { result ≡ Err FetchFault.Failed →
            self.new ≡ after_failed_read self.old name.now }
        ensures after_refused { result ≡ Err FetchFault.NoMemory → self.new ≡ after_read self.old }
        ensures bytes { IfOk result
            (λ found. IsAnswered (bytes_named self.old.files name.now) limit found.items) }
        ensures failed { result ≡ Err FetchFault.Failed → Rose self.old.faults self.new.faults }
        ensures blame { result ≡ Err FetchFault.Failed → self.new.blamed ≡ name.now }
        ensures calm { result ≢ Err FetchFault.Failed → self.new.faults ≡ self.old.faults }
        ensures unblamed { result ≢ Err FetchFault.Failed → self.new.blamed ≡ self.old.blamed }
        ensures later { self.old.faults ≤ self.new.faults }
        ensures same { (other : List ℕ) →
            bytes_named self.new.files other ≡ bytes_named self.old.files other }
    {
        self.calls = self.calls.saturating_add(1);
        let found = if self.failing.contains(&self.calls) {
            None
        } else {
            file_named(&self.files, name)
        };
        match found {
            Some(bytes) => { front(alloc, bytes, limit) }
            None => {
                let kept = match String::from_str(alloc, name) {
                    Ok(kept) => kept,
                    Err(_) => return Err(FetchFault::NoMemory),
                };
                self.blamed = Some(kept);
                self.faults = self.faults.saturating_add(1);
                Err(FetchFault::Failed)
            }
        }
    }
}

// The first bytes of a file, one more than the limit at most.
fn front(alloc: Global, bytes: &[u8], limit: usize) -> Result<Vec<u8>, FetchFault>
    requires { limit < 2 ^ 31 }
    ensures ok { IfOk result (λ found. found.items ≡ take (limit + 1) bytes.now) }
    ensures err { result ≢ Err FetchFault.Failed }
{
    let end = bytes.len().min(limit + 1);
    match Vec::from_slice(alloc, &bytes[..end]) {
        Ok(found) => Ok(found),
        Err(_) => Err(FetchFault::NoMemory),
    }
}

// The bytes of the first file of that name.
fn file_named<'a>(files: &'a [(String, Vec<u8>)], name: &str) -> Option<&'a [u8]>
    ensures { option_copied result ≡ bytes_named (shelf_files files.now) name.now }
{
    for file in files {
        if file.0.as_str() == name {
            return Some(file.1.as_slice());
        }
    }
    None
}

ghost use Rattle.std.specs.Prelude.{◌≡◌, ◌≢◌, ◌<◌, ◌≤◌, ◌+◌, ◌^◌, ℕ, List, [], None, vec_len, string_bytes, IfOk, OnOk, OnErr, length};
ghost use Rattle.vh_base.specs.Held.{text_or_empty};

use std::alloc::Global;
use std::io::{ErrorKind, Read};
use std::{fs, rt};
use vh_base::{FetchFault, Files};

// How many bytes are asked for at once.
const CHUNK: usize = 65_536;

/// The real file system as a source of files. It tells no content.
#[derive(Drop)]
pub struct Source<'a, R> {
    rt: &'a R,
    faults: u64,
    blamed: Option<String>,
}

impl<'a, R: rt::Files> Source<'a, R> {
    pub fn new(rt: &'a R) -> Source<'a, R> {
        Source {
            rt,
            faults: 0,
            blamed: None,
        }
    }
}

impl<R: rt::Files> Files for Source<'_, R> {
    ghost holds = { λ _ _. None };

    ghost faults = { λ s. s.faults };

    ghost blamed = { λ s. text_or_empty s.blamed };

    fn read(&mut self, alloc: Global, name: &str, limit: usize) -> Result<Vec<u8>, FetchFault> {
        match read_file(self.rt, alloc, name, limit) {
            Err(FetchFault::Failed) => {
                let Ok(kept) = String::from_str(alloc, name) else {
                    return Err(FetchFault::NoMemory);
                };
                self.blamed = Some(kept);
                self.faults = self.faults.saturating_add(1);
                Err(FetchFault::Failed)
            }
            other => other,
        }
    }
}

// The first bytes of a file, one more than the limit at most.
fn read_file<R: rt::Files>(
    rt: &R,
    alloc: Global,
    name: &str,
    limit: usize,
) -> Result<Vec<u8>, FetchFault>
    requires { limit < 2 ^ 31 }
    ensures { IfOk result (λ bytes. length bytes.items ≤ limit + 1) }
{
    let mut chunk = empty_chunk(alloc)?;
    let Ok(mut file) = fs::open(rt, name) else {
        return Err(FetchFault::Failed);
    };
    let mut bytes = Vec::new(alloc);
    'chunks: for _ in 0..u64::MAX {
        match read_some(&mut file, &mut chunk) {
            Ok(0) => return Ok(bytes),
            Ok(count) => {
                let room = limit + 1 - bytes.len();
                let taken = count.min(room);
                if bytes.extend_from_slice(&chunk[..taken]).is_err() {
                    return Err(FetchFault::NoMemory);
                }
                if bytes.len() > limit {
                    return Ok(bytes);
                }
            }
            Err(ErrorKind::Interrupted) => {}
            Err(ErrorKind::OutOfMemory) => return Err(FetchFault::NoMemory),
            Err(_) => return Err(FetchFault::Failed),
        }
    }
    Err(FetchFault::Failed)
}

// A buffer for the bytes that are asked for at once.
fn empty_chunk(alloc: Global) -> Result<Vec<u8>, FetchFault> {
    match vec![in alloc; 0u8; CHUNK] {
        Ok(chunk) => Ok(chunk),
        Err(_) => Err(FetchFault::NoMemory),
    }
}

// Reads some bytes into a buffer, and answers how many; none at the end of the file.
fn read_some<F: Read>(file: &mut F, buffer: &mut [u8]) -> Result<usize, ErrorKind>
    ensures { IfOk result (λ count. count ≤ length buffer.old) }
{
    match file.read(buffer) {
        Ok(count) => Ok(count),
        Err(e) => Err(e.kind()),
    }
}

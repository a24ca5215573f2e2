ghost use Rattle.std.specs.Prelude.{◌≡◌, ◌<◌, ◌≢◌, ◌≤◌, ◌++◌, ℕ, List, [], Some, take, length, true, false, min, IfOk, OnOk, OnErr, IsOk};
ghost use Rattle.vh_base.specs.Memory.{Tape, write_fails, after_write, after_refused_write, after_failed_write};
ghost use Rattle.vh_base.specs.Outside.{Rose, appended};

use crate::faults::NoMemory;
use crate::outside::{Sink, SinkFault};
use std::alloc::Global;
use std::marker::Model;

/// A sink that keeps what was written in memory, takes at most so many bytes a call, and
/// whose failing writes are named by number. Contracts see it as a `Tape`.
#[derive(Drop)]
pub struct MemorySink {
    written: Vec<u8>,
    most: usize,
    failing: Vec<u64>,
    calls: u64,
    faults: u64,
}

impl Model for MemorySink {
    ghost Value = { Tape };

    ghost view = { λ s. record {
      written = s.written.items;
      most = s.most;
      failing = s.failing.items;
      calls = s.calls;
      faults = s.faults;
    } };

    ghost invariant = { λ s. 0 < s.most };
}

impl MemorySink {
    /// An empty sink that takes at most `most` bytes a call; the writes of the numbers in
    /// `failing`, counted from 1, fail.
    pub fn new(alloc: Global, most: usize, failing: Vec<u64>) -> Result<MemorySink, NoMemory>
        requires { 0 < most }
        ensures made { IfOk result
            (λ s. s ≡ record {
              written = [];
              most = most;
              failing = failing.items;
              calls = 0;
              faults = 0;
            }) }
        ensures always { IsOk result }
    {
        Ok(MemorySink {
            written: Vec::new(alloc),
            most,
            failing,
            calls: 0,
            faults: 0,
        })
    }

    /// All that was written.
    pub fn bytes(&self) -> &[u8]
        ensures { result.now ≡ self.now.written }
    {
        self.written.as_slice()
    }
}

impl Sink for MemorySink {
    ghost written = { λ s. Some s.written };

    ghost faults = { λ s. s.faults };

    fn write(&mut self, piece: &[u8]) -> Result<usize, SinkFault>
        ensures exact { IfOk result (λ taken. taken ≡ min (length piece.now) self.old.most) }
        ensures calmly { OnOk result (write_fails self.old ≡ false) }
        ensures after { OnOk result (self.new ≡ after_write self.old piece.now) }
        ensures fails { result ≡ Err SinkFault.Failed → write_fails self.old ≡ true }
        ensures after_failed { result ≡ Err SinkFault.Failed →
            self.new ≡ after_failed_write self.old }
        ensures after_refused { result ≡ Err SinkFault.NoMemory →
            self.new ≡ after_refused_write self.old }
        ensures most { IfOk result (λ taken. taken ≤ length piece.now) }
        ensures least { IfOk result (λ taken. 0 < length piece.now → 0 < taken) }
        ensures bytes { IfOk result
            (λ taken. Some self.new.written ≡
            appended (Some self.old.written) (take taken piece.now)) }
        ensures kept { OnErr result (Some self.new.written ≡ Some self.old.written) }
        ensures failed { result ≡ Err SinkFault.Failed → Rose self.old.faults self.new.faults }
        ensures calm { result ≢ Err SinkFault.Failed → self.new.faults ≡ self.old.faults }
        ensures later { self.old.faults ≤ self.new.faults }
    {
        self.calls = self.calls.saturating_add(1);
        if self.failing.contains(&self.calls) {
            self.faults = self.faults.saturating_add(1);
            return Err(SinkFault::Failed);
        }
        let taken = piece.len().min(self.most);
        match self.written.extend_from_slice(&piece[..taken]) {
            Ok(()) => Ok(taken),
            Err(_) => Err(SinkFault::NoMemory),
        }
    }
}

ghost use Rattle.std.specs.Prelude.{◌≡◌, ◌≢◌, ℕ, ◌+◌, ◌<◌, ◌≤◌, ◌^◌, List, Option, length, take, IfOk, OnErr};
ghost use Rattle.vh_base.specs.Outside.{Rose, IsAnswered, appended};

use std::alloc::Global;
use thiserror::Error;

/// Why a read gave no bytes.
#[derive(Clone, Copy, Debug, PartialEq, Eq, Error)]
pub enum FetchFault {
    /// Its count of faults rose.
    #[error("the source of files failed")]
    Failed,
    #[error("out of memory")]
    NoMemory,
}

/// Why a write took no bytes.
#[derive(Clone, Copy, Debug, PartialEq, Eq, Error)]
pub enum SinkFault {
    /// Its count of faults rose.
    #[error("the sink failed")]
    Failed,
    #[error("out of memory")]
    NoMemory,
}

/// A source of files by name.
pub trait Files {
    /// The bytes of the file of a name, where the source tells them.
    ghost holds: { Self → List ℕ → Option (List ℕ) };

    /// How many reads have failed.
    ghost faults: { Self → ℕ };

    /// The name of the last read that failed, empty at first.
    ghost blamed: { Self → List ℕ };

    /// The first `limit + 1` bytes of the file, or all where it has no more.
    fn read(&mut self, alloc: Global, name: &str, limit: usize) -> Result<Vec<u8>, FetchFault>
        requires { limit < 2 ^ 31 }
        ensures bytes { IfOk result
            (λ found. IsAnswered (holds self.old name.now) limit found.items) }
        ensures failed { result ≡ Err FetchFault.Failed → Rose (faults self.old) (faults self.new) }
        ensures blame { result ≡ Err FetchFault.Failed → blamed self.new ≡ name.now }
        ensures calm { result ≢ Err FetchFault.Failed → faults self.new ≡ faults self.old }
        ensures unblamed { result ≢ Err FetchFault.Failed → blamed self.new ≡ blamed self.old }
        ensures later { faults self.old ≤ faults self.new }
        ensures same { (other : List ℕ) → holds self.new other ≡ holds self.old other };
}

/// A sink of bytes.
pub trait Sink {
    /// All that was written, where the sink tells it.
    ghost written: { Self → Option (List ℕ) };

    /// How many writes have failed.
    ghost faults: { Self → ℕ };

    /// Appends the front of the piece, and answers how many bytes it took: at least
    /// one of a piece that isn't empty.
    fn write(&mut self, piece: &[u8]) -> Result<usize, SinkFault>
        ensures most { IfOk result (λ taken. taken ≤ length piece.now) }
        ensures least { IfOk result (λ taken. 0 < length piece.now → 0 < taken) }
        ensures bytes { IfOk result
            (λ taken. written self.new ≡ appended (written self.old) (take taken piece.now)) }
        ensures kept { OnErr result (written self.new ≡ written self.old) }
        ensures failed { result ≡ Err SinkFault.Failed → Rose (faults self.old) (faults self.new) }
        ensures calm { result ≢ Err SinkFault.Failed → faults self.new ≡ faults self.old }
        ensures later { faults self.old ≤ faults self.new };
}

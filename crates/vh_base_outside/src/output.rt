ghost use Rattle.std.specs.Prelude.{◌≡◌, ◌≢◌, ◌<◌, ◌≤◌, ◌+◌, ℕ, None, length, IfOk};

use std::io::ErrorKind;
use std::os::unix::fs::FileTypeExt;
use std::rt::Clock;
use std::time::Duration;
use std::{fs, rt, thread};
use vh_base::{Sink, SinkFault};

// How many milliseconds a pipe that is full is given to be read.
const PAUSE: u64 = 1;

/// Standard output as a sink, which tells nothing. It writes the whole of each piece itself, at once. Where standard output is a
/// pipe that answers that it is full, it tries again each millisecond, as long as the pipe is full.
#[derive(Drop)]
pub struct Output<'a, R> {
    rt: &'a R,
    faults: u64,
}

impl<'a, R: Print + Clock> Output<'a, R> {
    pub fn new(rt: &'a R) -> Output<'a, R> {
        Output { rt, faults: 0 }
    }
}

impl<R: Print + Clock> Sink for Output<'_, R> {
    ghost written = { λ _. None };

    ghost faults = { λ s. s.faults };

    fn write(&mut self, piece: &[u8]) -> Result<usize, SinkFault> {
        match write_all(self.rt, piece) {
            Ok(()) => Ok(piece.len()),
            Err(SinkFault::Failed) => {
                self.faults = self.faults.saturating_add(1);
                Err(SinkFault::Failed)
            }
            Err(SinkFault::NoMemory) => Err(SinkFault::NoMemory),
        }
    }
}

/// Is standard output a file or a pipe? What the system doesn't tell counts as neither.
pub fn is_file_or_pipe<R: rt::Files>(rt: &R) -> bool {
    match fs::metadata(rt, "/dev/stdout") {
        Ok(found) => found.is_file() || found.file_type().is_fifo(),
        Err(_) => false,
    }
}

// Writes all of a piece. A write that takes nothing is a failure; one that was interrupted, or would have had to wait, isn't.
fn write_all<R: Print + Clock>(rt: &R, piece: &[u8]) -> Result<(), SinkFault> {
    let mut done = 0;
    for _ in 0..u64::MAX {
        if done >= piece.len() {
            return Ok(());
        }
        match rt.write_some(&piece[done..]) {
            Ok(0) => return Err(SinkFault::Failed),
            Ok(count) => done += count,
            Err(e) if e.kind() == ErrorKind::Interrupted => {}
            Err(e) if e.kind() == ErrorKind::WouldBlock => {
                thread::sleep(rt, Duration::from_millis(PAUSE));
            }
            Err(_) => return Err(SinkFault::Failed),
        }
    }
    Err(SinkFault::Failed)
}

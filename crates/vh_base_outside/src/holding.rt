ghost use Rattle.std.specs.Prelude.{◌≡◌, ◌++◌, ◌*◌, ◌-◌, ◌≤◌, ◌↔◌, [], None, length, OnOk, OnErr, IfOk, IsTrue, IsFalse, if◌then◌else◌};
ghost use Rattle.std.specs.Time.{instant_nanos};
ghost use Rattle.vh_base.specs.Outside.{appended, AppendsFront};
ghost use Rattle.vh_base_outside.specs.Kept.{Kept, Tells};

use crate::write::write_whole;
use std::alloc::Global;
use std::rt::Clock;
use std::time::{Duration, Instant};
use vh_base::{Sink, SinkFault};

// How many milliseconds after the last write below a look at the clock writes out what is held.
const PATIENCE: u64 = 100;

// Where so many bytes or more came within so many milliseconds of that write, the clock isn't looked at with so many pieces.
const MUCH: usize = 4_096;

const HASTE: u64 = 10;

const UNSEEN: u8 = 7;

/// A sink that holds what it is given, up to so many bytes, and writes it out to the sink below: when there would be more, with
/// a piece that comes 100 milliseconds or more after the last write below ended, and by `flush`. So the first piece of all goes
/// out at once, and so does the first one behind a quiet stretch, while pieces that come fast are held. But where 4,096 bytes
/// came within 10 milliseconds of the last write the clock is looked at with each eighth piece alone, and then it may be any of
/// the first eight. An empty piece adds nothing and always looks at the clock: offered where no other will come soon, it writes
/// out what was held long enough. With no room each piece is written at once. It tells nothing itself, since what is held when
/// a write fails is lost.
#[derive(Drop)]
pub struct Holding<'a, K, C> {
    sink: K,
    clock: &'a C,
    room: usize,
    held: Vec<u8>,
    // when the last write below ended; none where there was none, or the clock didn't tell
    last: Option<Instant>,
    // with how many pieces more the clock isn't looked at
    unseen: u8,
}

impl<'a, K: Sink, C: Clock> Holding<'a, K, C> {
    pub fn new(sink: K, clock: &'a C, alloc: Global, room: usize) -> Holding<'a, K, C>
        ensures sink { result.sink ≡ sink }
        ensures nothing { result.held.items ≡ [] }
        ensures room { result.room ≡ room }
    {
        Holding {
            sink,
            clock,
            room,
            held: Vec::new(alloc),
            last: None,
            unseen: 0,
        }
    }

    /// Writes out what is held. Nothing is held then, also where this fails: what wasn't written is lost.
    pub fn flush(&mut self) -> Result<(), SinkFault>
        ensures nothing { self.new.held.items ≡ [] }
        ensures ok { OnOk result (K.written self.new.sink
            ≡ appended (K.written self.old.sink) self.old.held.items) }
        ensures err { OnErr result (AppendsFront (K.written self.old.sink) (K.written self.new.sink)
            self.old.held.items) }
        ensures tells { Tells result (K.faults self.old.sink) (K.faults self.new.sink) }
        ensures room { self.new.room ≡ self.old.room }
        ensures last { self.old.held.items ≡ [] → self.new.last ≡ self.old.last }
    {
        let written = write_whole(&mut self.sink, self.held.as_slice());
        if !self.held.is_empty() {
            self.held.clear();
            self.last = Instant::now(self.clock).ok();
            self.unseen = 0;
        }
        written
    }

    // Takes a piece: keeps it, and writes out what is held where the last write below was long ago. So what comes before any
    // write is written at once.
    fn take(&mut self, piece: &[u8]) -> Result<(), SinkFault>
        ensures ok { OnOk result (Kept (K.written self.old.sink) (K.written self.new.sink)
            self.new.held.items (self.old.held.items ++ piece.now)) }
        ensures err { OnErr result (AppendsFront (K.written self.old.sink) (K.written self.new.sink)
            (self.old.held.items ++ piece.now)) }
        ensures nothing { OnErr result (self.new.held.items ≡ []) }
        ensures tells { Tells result (K.faults self.old.sink) (K.faults self.new.sink) }
        ensures bounded { length self.old.held.items ≤ self.old.room
            → length self.new.held.items ≤ self.old.room }
        ensures first { self.old.last ≡ None → self.old.held.items ≡ []
            → OnOk result (self.new.held.items ≡ []) }
    {
        self.keep(piece)?;
        if self.is_due(piece) {
            self.flush()?;
        }
        Ok(())
    }

    // Holds a piece behind what is held, or where it has no room writes that out first, and the piece too where it has no
    // room alone.
    #[tactic(auto, using(crate::proofs::Appended::kept_all))]
    fn keep(&mut self, piece: &[u8]) -> Result<(), SinkFault>
        ensures ok { OnOk result (Kept (K.written self.old.sink) (K.written self.new.sink)
            self.new.held.items (self.old.held.items ++ piece.now)) }
        ensures err { OnErr result (AppendsFront (K.written self.old.sink) (K.written self.new.sink)
            (self.old.held.items ++ piece.now)) }
        ensures nothing { OnErr result (self.new.held.items ≡ []) }
        ensures tells { Tells result (K.faults self.old.sink) (K.faults self.new.sink) }
        ensures bounded { length self.old.held.items ≤ self.old.room
            → length self.new.held.items ≤ self.old.room }
        ensures room { self.new.room ≡ self.old.room }
        ensures last { self.old.held.items ≡ [] → self.new.last ≡ self.old.last }
    {
        if self.hold(piece) {
            return Ok(());
        }
        self.flush()?;
        if self.hold(piece) {
            return Ok(());
        }
        write_whole(&mut self.sink, piece)
    }

    // Appends a piece to what is held, where there is room and memory for it.
    fn hold(&mut self, piece: &[u8]) -> bool
        ensures held { self.new.held.items
            ≡ (if result then self.old.held.items ++ piece.now else self.old.held.items) }
        ensures bounded { length self.old.held.items ≤ self.old.room
            → length self.new.held.items ≤ self.old.room }
        ensures sink { self.new.sink ≡ self.old.sink }
        ensures room { self.new.room ≡ self.old.room }
        ensures last { self.new.last ≡ self.old.last }
    {
        piece.len() <= self.room.saturating_sub(self.held.len())
            && self.held.extend_from_slice(piece).is_ok()
    }

    // Does what is held go out with this piece, as far as the clock is looked at? It does where nothing was written below before,
    // and where the clock can't be read; the clock isn't read where nothing is held.
    fn is_due(&mut self, piece: &[u8]) -> bool
        ensures held { self.new.held.items ≡ self.old.held.items }
        ensures sink { self.new.sink ≡ self.old.sink }
        ensures room { self.new.room ≡ self.old.room }
        ensures first { self.old.last ≡ None → IsFalse result → self.new.held.items ≡ [] }
    {
        if self.held.is_empty() {
            return false;
        }
        let Some(last) = self.last else {
            return true;
        };
        if self.unseen > 0 && !piece.is_empty() {
            self.unseen -= 1;
            return false;
        }
        let Ok(now) = Instant::now(self.clock) else {
            return true;
        };
        if self.held.len() >= MUCH && now.duration_since(last) < Duration::from_millis(HASTE) {
            self.unseen = UNSEEN;
        }
        is_late(last, now)
    }
}

// Is this time so long after the last write that what is held goes out?
fn is_late(last: Instant, now: Instant) -> bool
    ensures { IsTrue result ↔ (PATIENCE * 1_000_000 ≤ instant_nanos now - instant_nanos last) }
{
    now.duration_since(last) >= Duration::from_millis(PATIENCE)
}

impl<K: Sink, C: Clock> Sink for Holding<'_, K, C> {
    ghost written = { λ _. None };

    ghost faults = { λ s. K.faults s.sink };

    fn write(&mut self, piece: &[u8]) -> Result<usize, SinkFault> {
        self.take(piece)?;
        Ok(piece.len())
    }
}

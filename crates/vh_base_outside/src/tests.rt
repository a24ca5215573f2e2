use crate::{Holding, Output, Source};
use std::cell::Cell;
use std::fmt::Display;
use std::rt::Clock;
use std::test::Fail;
use std::time::Duration;
use std::{fs, io};
use vh_base::{FetchFault, Files, Sink, SinkFault};

#[test]
fn a_source_reads_real_files(rt: HostRuntime) -> Result<(), Fail> {
    let name = "source-test.v";
    fs::write(&rt, name, b"module top;".as_slice())?;
    let mut source = Source::new(&rt);
    let whole = source
        .read(rt.alloc(), name, 100)
        .expect(&rt, "written above");
    assert_eq!(rt; whole.as_slice(), b"module top;".as_slice());
    // One byte more than the limit tells that the file is longer.
    let cut = source
        .read(rt.alloc(), name, 5)
        .expect(&rt, "written above");
    assert_eq!(rt; cut.as_slice(), b"module".as_slice());
    fs::remove_file(&rt, name)?;
    let missing = source.read(rt.alloc(), name, 100);
    assert!(rt; matches!(missing, Err(FetchFault::Failed)));
    Ok(())
}

#[test]
fn an_output_takes_the_whole_piece(rt: HostRuntime) -> Result<(), Fail> {
    let mut out = Output::new(&rt);
    assert_eq!(rt; out.write(b"0 end none\n"), Ok(11));
    assert_eq!(rt; out.write(b""), Ok(0));
    Ok(())
}

// A standard output with a clock: how many bytes were written and by how many calls, and the time in milliseconds, or
// none where there is no clock. It has room for so many bytes, and so many of the next writes would have to wait.
#[derive(Drop)]
struct Stand {
    written: Cell<usize>,
    calls: Cell<u32>,
    time: Cell<Option<u64>>,
    room: usize,
    full: Cell<u32>,
}

impl Stand {
    fn new(room: usize) -> Stand {
        Stand {
            written: Cell::new(0),
            calls: Cell::new(0),
            time: Cell::new(Some(0)),
            room,
            full: Cell::new(0),
        }
    }

    fn seen(&self) -> (usize, u32) {
        (self.written.get(), self.calls.get())
    }
}

impl Print for Stand {
    fn print<D: Display + Drop>(&self, _value: D) -> io::Result<()> {
        Err(io::Error::from(io::ErrorKind::Unsupported))
    }

    fn println<D: Display + Drop>(&self, _value: D) -> io::Result<()> {
        Err(io::Error::from(io::ErrorKind::Unsupported))
    }

    fn write_all(&self, bytes: &[u8]) -> io::Result<()> {
        self.calls.set(self.calls.get().saturating_add(1));
        if self.full.get() > 0 {
            self.full.set(self.full.get().saturating_sub(1));
            return Err(io::Error::from(io::ErrorKind::WouldBlock));
        }
        let written = self.written.get().saturating_add(bytes.len());
        if written > self.room {
            return Err(io::Error::from(io::ErrorKind::StorageFull));
        }
        self.written.set(written);
        Ok(())
    }
}

impl Clock for Stand {
    fn monotonic(&self) -> io::Result<Duration> {
        match self.time.get() {
            Some(time) => Ok(Duration::from_millis(time)),
            None => Err(io::Error::from(io::ErrorKind::Unsupported)),
        }
    }

    fn since_1970(&self) -> io::Result<Duration> {
        Err(io::Error::from(io::ErrorKind::Unsupported))
    }
}

#[test]
fn a_terminal_gets_each_piece_at_once(rt: HostRuntime) -> Result<(), Fail> {
    let stand = Stand::new(100);
    let mut out = Holding::new(Output::new(&stand), &stand, rt.alloc(), 0);
    assert_eq!(rt; out.write(b"0 end none\n"), Ok(11));
    assert_eq!(rt; stand.seen(), (11, 1));
    assert_eq!(rt; out.flush(), Ok(()));
    assert_eq!(rt; stand.seen(), (11, 1));
    Ok(())
}

#[test]
fn a_pipe_gets_what_comes_a_tenth_of_a_second_after_the_last_write(
    rt: HostRuntime,
) -> Result<(), Fail> {
    let stand = Stand::new(100);
    let mut out = Holding::new(Output::new(&stand), &stand, rt.alloc(), 65_536);
    // the first piece of all at once, and those that come soon behind it later
    assert_eq!(rt; out.write(b"1234567890"), Ok(10));
    assert_eq!(rt; stand.seen(), (10, 1));
    stand.time.set(Some(99));
    assert_eq!(rt; out.write(b"1234567890"), Ok(10));
    assert_eq!(rt; stand.seen(), (10, 1));
    stand.time.set(Some(100));
    assert_eq!(rt; out.write(b"1234567890"), Ok(10));
    assert_eq!(rt; stand.seen(), (30, 2));
    // behind a quiet stretch at once
    stand.time.set(Some(900));
    assert_eq!(rt; out.write(b"1234567890"), Ok(10));
    assert_eq!(rt; stand.seen(), (40, 3));
    // a flush is a write too
    stand.time.set(Some(990));
    assert_eq!(rt; out.write(b"1234567890"), Ok(10));
    assert_eq!(rt; out.flush(), Ok(()));
    assert_eq!(rt; stand.seen(), (50, 4));
    stand.time.set(Some(1089));
    assert_eq!(rt; out.write(b"1234567890"), Ok(10));
    assert_eq!(rt; stand.seen(), (50, 4));
    Ok(())
}

#[test]
fn without_a_clock_each_piece_is_written_at_once(rt: HostRuntime) -> Result<(), Fail> {
    let stand = Stand::new(100);
    let mut out = Holding::new(Output::new(&stand), &stand, rt.alloc(), 65_536);
    assert_eq!(rt; out.write(b"1234567890"), Ok(10));
    assert_eq!(rt; out.write(b"1234567890"), Ok(10));
    assert_eq!(rt; stand.seen(), (10, 1));
    stand.time.set(None);
    assert_eq!(rt; out.write(b"1234567890"), Ok(10));
    assert_eq!(rt; stand.seen(), (30, 2));
    assert_eq!(rt; out.write(b"1234567890"), Ok(10));
    assert_eq!(rt; stand.seen(), (40, 3));
    Ok(())
}

#[test]
fn an_empty_piece_writes_out_what_was_held_long_enough(rt: HostRuntime) -> Result<(), Fail> {
    let stand = Stand::new(100);
    let mut out = Holding::new(Output::new(&stand), &stand, rt.alloc(), 65_536);
    assert_eq!(rt; out.write(b""), Ok(0));
    assert_eq!(rt; stand.seen(), (0, 0));
    assert_eq!(rt; out.write(b"1234567890"), Ok(10));
    assert_eq!(rt; out.write(b"1234567890"), Ok(10));
    stand.time.set(Some(99));
    assert_eq!(rt; out.write(b""), Ok(0));
    assert_eq!(rt; stand.seen(), (10, 1));
    stand.time.set(Some(100));
    assert_eq!(rt; out.write(b""), Ok(0));
    assert_eq!(rt; stand.seen(), (20, 2));
    // where nothing is held it writes nothing
    stand.time.set(Some(300));
    assert_eq!(rt; out.write(b""), Ok(0));
    assert_eq!(rt; stand.seen(), (20, 2));
    Ok(())
}

#[test]
fn where_much_comes_at_once_the_clock_is_looked_at_with_each_eighth_piece(
    rt: HostRuntime,
) -> Result<(), Fail> {
    let stand = Stand::new(20_000);
    let mut out = Holding::new(Output::new(&stand), &stand, rt.alloc(), 65_536);
    let piece = [b'a'; 1000];
    for _ in 0..5 {
        assert_eq!(rt; out.write(&piece), Ok(1000));
    }
    stand.time.set(Some(9));
    assert_eq!(rt; out.write(&piece), Ok(1000));
    // not with the next seven
    stand.time.set(Some(100));
    for _ in 0..7 {
        assert_eq!(rt; out.write(b"1234567890"), Ok(10));
    }
    assert_eq!(rt; stand.seen(), (1000, 1));
    assert_eq!(rt; out.write(b"1234567890"), Ok(10));
    assert_eq!(rt; stand.seen(), (6080, 2));
    // but always with an empty one
    for _ in 0..5 {
        assert_eq!(rt; out.write(&piece), Ok(1000));
    }
    stand.time.set(Some(200));
    assert_eq!(rt; out.write(b"1234567890"), Ok(10));
    assert_eq!(rt; stand.seen(), (6080, 2));
    assert_eq!(rt; out.write(b""), Ok(0));
    assert_eq!(rt; stand.seen(), (11_090, 3));
    Ok(())
}

#[test]
fn where_little_comes_at_once_the_clock_is_looked_at_with_each_piece(
    rt: HostRuntime,
) -> Result<(), Fail> {
    let stand = Stand::new(100);
    let mut out = Holding::new(Output::new(&stand), &stand, rt.alloc(), 65_536);
    assert_eq!(rt; out.write(b"1234567890"), Ok(10));
    stand.time.set(Some(9));
    assert_eq!(rt; out.write(b"1234567890"), Ok(10));
    stand.time.set(Some(100));
    assert_eq!(rt; out.write(b"1234567890"), Ok(10));
    assert_eq!(rt; stand.seen(), (30, 2));
    Ok(())
}

#[test]
fn no_more_is_held_than_there_is_room(rt: HostRuntime) -> Result<(), Fail> {
    let stand = Stand::new(1_000_000);
    let mut out = Holding::new(Output::new(&stand), &stand, rt.alloc(), 65_536);
    let piece = [b'a'; 1000];
    for _ in 0..66 {
        assert_eq!(rt; out.write(&piece), Ok(1000));
    }
    assert_eq!(rt; stand.seen(), (1000, 1));
    assert_eq!(rt; out.write(&piece), Ok(1000));
    assert_eq!(rt; stand.seen(), (66_000, 2));
    assert_eq!(rt; out.flush(), Ok(()));
    assert_eq!(rt; stand.seen(), (67_000, 3));
    Ok(())
}

#[test]
fn a_failed_write_is_told_at_the_end(rt: HostRuntime) -> Result<(), Fail> {
    let stand = Stand::new(15);
    let mut out = Holding::new(Output::new(&stand), &stand, rt.alloc(), 65_536);
    assert_eq!(rt; out.write(b"1234567890"), Ok(10));
    assert_eq!(rt; out.write(b"1234567890"), Ok(10));
    assert_eq!(rt; out.flush(), Err(SinkFault::Failed));
    // and nothing is written after it
    assert_eq!(rt; out.flush(), Ok(()));
    assert_eq!(rt; stand.seen(), (10, 2));
    Ok(())
}

#[test]
fn a_pipe_that_is_full_is_tried_again(rt: HostRuntime) -> Result<(), Fail> {
    let stand = Stand::new(100);
    stand.full.set(3);
    let mut out = Output::new(&stand);
    assert_eq!(rt; out.write(b"1234567890"), Ok(10));
    assert_eq!(rt; stand.seen(), (10, 4));
    Ok(())
}

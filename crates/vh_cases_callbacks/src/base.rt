ghost use Rattle.std.specs.Prelude.{◌≡◌};
ghost use Rattle.vh_base.specs.Promise.{stop_at};

use std::alloc::Global;
use std::test::Fail;
use vh_base::{
    Answer, AppFault, Bytes, Code, DesignFault, Fault, FetchFault, Files, HandleNo, MemoryFiles,
    MemorySink, Native, Order, Promise, Reason, Seen, Sequence, Short, Sink, SinkFault,
};

fn one_file(alloc: Global, failing: u64) -> Result<MemoryFiles, Fail> {
    let mut files = Vec::new(alloc);
    files.push((
        String::from_str(alloc, "a.v")?,
        Vec::from_slice(alloc, b"module")?,
    ))?;
    let mut numbers = Vec::new(alloc);
    numbers.push(failing)?;
    Ok(MemoryFiles::new(files, numbers))
}

#[test]
fn reads_by_name_within_the_limit(rt: HostRuntime) -> Result<(), Fail> {
    let alloc = rt.alloc();
    let mut files = one_file(alloc, 3)?;
    // One byte more than the limit tells that the file is longer.
    let cut = files.read(alloc, "a.v", 2).expect(&rt, "held");
    assert_eq!(rt; cut.as_slice(), b"mod".as_slice());
    let whole = files.read(alloc, "a.v", 6).expect(&rt, "held");
    assert_eq!(rt; whole.as_slice(), b"module".as_slice());
    // The third read fails, and so does one of a name that isn't held.
    let third = files.read(alloc, "a.v", 6);
    assert!(rt; matches!(third, Err(FetchFault::Failed)));
    let missing = files.read(alloc, "b.v", 6);
    assert!(rt; matches!(missing, Err(FetchFault::Failed)));
    let again = files.read(alloc, "a.v", 0).expect(&rt, "held");
    assert_eq!(rt; again.as_slice(), b"m".as_slice());
    Ok(())
}

#[test]
fn a_sink_takes_parts_and_fails_by_number(rt: HostRuntime) -> Result<(), Fail> {
    let alloc = rt.alloc();
    let mut failing = Vec::new(alloc);
    failing.push(2)?;
    let mut sink = MemorySink::new(alloc, 3, failing).expect(&rt, "no memory is taken");
    assert_eq!(rt; sink.write(b"hello"), Ok(3));
    assert_eq!(rt; sink.write(b"lo"), Err(SinkFault::Failed));
    assert_eq!(rt; sink.write(b"lo"), Ok(2));
    assert_eq!(rt; sink.write(b""), Ok(0));
    assert_eq!(rt; sink.bytes(), b"hello".as_slice());
    Ok(())
}

#[test]
fn a_short_text_has_255_bytes_at_most(rt: HostRuntime) -> Result<(), Fail> {
    let bytes = [b'a'; 256];
    let none = Short::new(rt.alloc(), &bytes).expect(&rt, "memory");
    assert!(rt; none.is_none());
    let most = Short::new(rt.alloc(), &bytes[..255])
        .expect(&rt, "memory")
        .expect(&rt, "255 bytes");
    assert_eq!(rt; most.bytes().len(), 255);
    let again = most.copy().expect(&rt, "no memory is taken");
    assert_eq!(rt; again.bytes().len(), 255);
    let empty = Short::new(rt.alloc(), b"")
        .expect(&rt, "memory")
        .expect(&rt, "no bytes");
    assert_eq!(rt; empty.bytes(), b"".as_slice());
    Ok(())
}

#[test]
fn a_sequence_gives_its_vector_back(rt: HostRuntime) -> Result<(), Fail> {
    let bytes: Bytes = Sequence::new(Vec::from_slice(rt.alloc(), b"top")?);
    assert_eq!(rt; bytes.as_slice(), b"top".as_slice());
    assert_eq!(rt; bytes.into_vec().as_slice(), b"top".as_slice());
    Ok(())
}

#[test]
fn a_fault_has_a_name_and_says_what_it_means(rt: HostRuntime) -> Result<(), Fail> {
    let alloc = rt.alloc();
    let design = DesignFault::N9;
    let app = AppFault::A3;
    let run = Fault::F1;
    let code = Code::E15;
    let mut lines = format!(in alloc; "{} {design}, ", design.name())?;
    lines.push_str(format!(in alloc; "{} {app}, ", app.name())?.as_str())?;
    lines.push_str(format!(in alloc; "{} {run}, ", run.name())?.as_str())?;
    lines.push_str(format!(in alloc; "{} {code}", code.name())?.as_str())?;
    // The two widest show their names, the others what they mean.
    let wanted = "N9 N9, A3 an unknown routine, reason, relation, property, format or mode, \
        F1 a 65th frame of callbacks would stand, E15 E15";
    assert_eq!(rt; lines.as_str(), wanted);
    Ok(())
}

// What the native `stop` answers.
fn stop(seen: &Seen) -> Order
    ensures { result ≡ stop_at seen.now.step seen.now }
{
    if seen.step == 0 {
        Order::Control { stop: false }
    } else {
        Order::Return
    }
}

#[test]
fn a_native_answers_what_its_promise_allows(rt: HostRuntime) -> Result<(), Fail> {
    let name = Short::new(rt.alloc(), b"stop")
        .expect(&rt, "memory")
        .expect(&rt, "a short name");
    let native = Native {
        name,
        promise: Promise::Stop,
        body: Box::new(rt.alloc(), stop)?,
    };
    let mut seen = Seen {
        reason: Reason::CbValueChange,
        time: 5,
        object: None,
        me: Some(HandleNo::new(1)),
        value: None,
        index: None,
        user_data: 0,
        step: 0,
        last: Answer::Null,
    };
    let first = native.order(&seen);
    assert!(rt; matches!(first, Order::Control { stop: false }));
    seen.step = 1;
    let second = native.order(&seen);
    assert!(rt; matches!(second, Order::Return));
    Ok(())
}

use std::alloc::Global;
use std::process::Abort;
use std::test::Fail;
use vh_base::{Cause, MemoryFiles, MemorySink};
use vh_host::{Status, run};

// Runs a design with a script beside it.
fn ran(
    rt: &impl Abort,
    alloc: Global,
    design: Vec<u8>,
    script: Vec<u8>,
) -> Result<(Status, Vec<u8>), Fail> {
    let mut words = Vec::new(alloc);
    words.push(String::from_str(alloc, "run")?)?;
    words.push(String::from_str(alloc, "top.v")?)?;
    words.push(String::from_str(alloc, "a.app")?)?;
    let mut held = Vec::new(alloc);
    held.push((String::from_str(alloc, "top.v")?, design))?;
    held.push((String::from_str(alloc, "a.app")?, script))?;
    let mut files = MemoryFiles::new(held, Vec::new(alloc));
    let mut out = MemorySink::new(alloc, 1024, Vec::new(alloc)).expect(rt, "no memory is taken");
    let status = run(alloc, &words, &mut files, &mut out);
    Ok((status, Vec::from_slice(alloc, out.bytes())?))
}

// How many lines of a text end so.
fn lines_with(text: &[u8], end: &[u8]) -> usize {
    text.split(|byte| *byte == b'\n')
        .filter(|line| line.ends_with(end))
        .count()
}

// A design whose register changes so many times, twice at each time.
fn toggling(alloc: Global, pairs: usize) -> Result<Vec<u8>, Fail> {
    let mut text = Vec::from_slice(alloc, b"module top; reg r; initial begin ")?;
    for _ in 0..pairs {
        text.extend_from_slice(b"r = 0; r = 1; ")?;
    }
    text.extend_from_slice(b"end endmodule")?;
    Ok(text)
}

#[test]
fn the_65537th_live_handle_is_refused(rt: HostRuntime) -> Result<(), Fail> {
    let alloc = rt.alloc();
    let script = "app a; var r; startup { register cbEndOfCompile null 0 proc init 0; }
proc init { r = by_name \"top.r\" null; register cbValueChange r 0 proc more 0; }
proc more { register cbEndOfSimulation null 0 proc last 0; } proc last { }";
    let design = toggling(alloc, 35_000)?;
    let (status, text) = ran(
        &rt,
        alloc,
        design,
        Vec::from_slice(alloc, script.as_bytes())?,
    )?;
    assert!(rt; matches!(status, Status::Done(Cause::Nothing)));
    // Three handles stand before the first change: 65,533 are given, and the rest refused.
    assert_eq!(rt;
        lines_with(text.as_slice(), b" 0 proc a.last 0 => E10"),
        4_467
    );
    assert_eq!(rt; lines_with(text.as_slice(), b" => h65535"), 1);
    assert_eq!(rt; lines_with(text.as_slice(), b" => h65536"), 0);
    // Each occurrence is done, and each of the callbacks at the end fires once: 70,000 changes
    // of four lines, 65,533 fires, ten lines of the head and the end, and what is behind the last.
    assert_eq!(rt; lines_with(text.as_slice(), b""), 280_000 + 65_533 + 10 + 1);
    Ok(())
}

// A script with a thousand callbacks on one register, each of which removes its opposite.
fn crosswise(alloc: Global) -> Result<Vec<u8>, Fail> {
    let mut text = String::from_str(alloc, "app a; var r")?;
    for i in 0..1000u32 {
        let name = format!(in alloc; ", c{i}")?;
        text.push_str(name.as_str())?;
    }
    text.push_str(
        "; startup { register cbEndOfCompile null 0 proc init 0; } proc init { r = by_name \"top.r\" null;",
    )?;
    for i in 0..1000u32 {
        let order = format!(in alloc; " c{i} = register cbValueChange r 0 proc p{i} 0;")?;
        text.push_str(order.as_str())?;
    }
    text.push_str(" }")?;
    for i in 0..1000u32 {
        let other = 999 - i;
        let procedure = format!(in alloc; " proc p{i} ( remove c{other}; )")?;
        text.push_str(procedure.as_str())?;
    }
    Ok(braced(alloc, text.as_bytes())?)
}

// The text with each parenthesis as a brace.
fn braced(alloc: Global, text: &[u8]) -> Result<Vec<u8>, Fail> {
    let mut bytes = Vec::new(alloc);
    for byte in text {
        match byte {
            b'(' => bytes.push(b'{')?,
            b')' => bytes.push(b'}')?,
            other => bytes.push(*other)?,
        }
    }
    Ok(bytes)
}

#[test]
fn callbacks_that_remove_each_other_fire_once(rt: HostRuntime) -> Result<(), Fail> {
    let alloc = rt.alloc();
    let design = Vec::from_slice(alloc, b"module top; reg r; initial #1 r = 0; endmodule")?;
    let (status, text) = ran(&rt, alloc, design, crosswise(alloc)?)?;
    assert!(rt; matches!(status, Status::Done(Cause::Nothing)));
    // The first half fires and removes the second, which doesn't.
    assert_eq!(rt; lines_with(text.as_slice(), b" => 1"), 500);
    assert_eq!(rt; lines_with(text.as_slice(), b" => E1"), 0);
    assert_eq!(rt; lines_with(text.as_slice(), b"fire 2 c501"), 1);
    assert_eq!(rt; lines_with(text.as_slice(), b"fire 2 c502"), 0);
    Ok(())
}

#[test]
fn a_callback_may_register_its_successor(rt: HostRuntime) -> Result<(), Fail> {
    let alloc = rt.alloc();
    let script = "app a; var r; startup { register cbEndOfCompile null 0 proc init 0; }
proc init { r = by_name \"top.r\" null; register cbValueChange r 0 proc again 0; }
proc again { remove me; register cbValueChange r 0 proc again 0; }";
    let design = toggling(alloc, 5_000)?;
    let (status, text) = ran(
        &rt,
        alloc,
        design,
        Vec::from_slice(alloc, script.as_bytes())?,
    )?;
    assert!(rt; matches!(status, Status::Done(Cause::Nothing)));
    // The callback of change n has the number n + 1 and the handle n + 1.
    assert_eq!(rt; lines_with(text.as_slice(), b"fire 10001 c10001"), 1);
    assert_eq!(rt;
        lines_with(text.as_slice(), b"do c10001 remove h10001 => 1"),
        1
    );
    assert_eq!(rt; lines_with(text.as_slice(), b" => h10002"), 1);
    assert_eq!(rt; lines_with(text.as_slice(), b" => E1"), 0);
    Ok(())
}

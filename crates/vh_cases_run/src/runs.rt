use std::alloc::Global;
use std::process::Abort;
use std::test::Fail;
use vh_base::{Bytes, Cause, MemoryFiles, MemorySink};
use vh_host::{Status, exit_number, plain_text, run, status_line};

const FIRST: &str =
    "module top; reg a; initial begin a = 1; #3 $display(\"hi\"); $finish; end endmodule\n";

const FIRST_TEXT: &str = "3 out \"hi\\n\"\n3 end finish\n";

fn words_of(alloc: Global, list: &[&str]) -> Result<Vec<String>, Fail> {
    let mut words = Vec::new(alloc);
    for word in list {
        words.push(String::from_str(alloc, word)?)?;
    }
    Ok(words)
}

fn contents_of(alloc: Global, list: &[&str]) -> Result<Vec<Bytes>, Fail> {
    let mut contents = Vec::new(alloc);
    for text in list {
        contents.push(Bytes::new(Vec::from_slice(alloc, text.as_bytes())?))?;
    }
    Ok(contents)
}

// Runs the words over one file `top.v`, read and written with the faults of these numbers.
fn ran(
    rt: &impl Abort,
    alloc: Global,
    list: &[&str],
    text: &[u8],
    failing_reads: &[u64],
    most: usize,
    failing_writes: &[u64],
) -> Result<(Status, Vec<u8>), Fail> {
    let mut held = Vec::new(alloc);
    held.push((
        String::from_str(alloc, "top.v")?,
        Vec::from_slice(alloc, text)?,
    ))?;
    let files = MemoryFiles::new(held, Vec::from_slice(alloc, failing_reads)?);
    ran_over(rt, alloc, list, files, most, failing_writes)
}

// Runs the words over these files, written with the faults of these numbers.
fn ran_over(
    rt: &impl Abort,
    alloc: Global,
    list: &[&str],
    source: MemoryFiles,
    most: usize,
    failing_writes: &[u64],
) -> Result<(Status, Vec<u8>), Fail> {
    let words = words_of(alloc, list)?;
    let mut files = source;
    let mut out = MemorySink::new(
        alloc,
        most.max(1),
        Vec::from_slice(alloc, failing_writes)?,
    ).expect(rt, "no memory is taken");
    let status = run(alloc, &words, &mut files, &mut out);
    Ok((status, Vec::from_slice(alloc, out.bytes())?))
}

#[test]
fn a_design_runs_to_its_end(rt: HostRuntime) -> Result<(), Fail> {
    let rows = [
        (FIRST, Status::Done(Cause::Finish), FIRST_TEXT),
        (
            "module top; initial #2 $display(\"b\"); initial #1 $display(\"a\"); endmodule",
            Status::Done(Cause::Nothing),
            "1 out \"a\\n\"\n2 out \"b\\n\"\n2 end none\n",
        ),
        (
            "module top; initial begin end endmodule",
            Status::Done(Cause::Nothing),
            "0 end none\n",
        ),
        (
            "module top; initial begin #1; #1; $finish; end endmodule",
            Status::Done(Cause::Finish),
            "2 end finish\n",
        ),
        // Entries of one time are picked in the order in which they were added.
        (
            "module top; initial #1 $display(\"a\"); initial #1 $display(\"b\"); endmodule",
            Status::Done(Cause::Nothing),
            "1 out \"a\\n\"\n1 out \"b\\n\"\n1 end none\n",
        ),
        // #0 lets what is active go first.
        (
            "module top; initial begin #0 $display(\"late\"); end initial $display(\"now\"); endmodule",
            Status::Done(Cause::Nothing),
            "0 out \"now\\n\"\n0 out \"late\\n\"\n0 end none\n",
        ),
        // What stands behind a finish isn't performed.
        (
            "module top; initial begin $finish; $display(\"no\"); end initial #1 $finish; endmodule",
            Status::Done(Cause::Finish),
            "0 end finish\n",
        ),
        (
            "module top; endmodule",
            Status::Done(Cause::Nothing),
            "0 end none\n",
        ),
    ];
    for (design, status, text) in rows {
        let (told, written) = ran(
            &rt,
            rt.alloc(),
            &["run", "top.v"],
            design.as_bytes(),
            &[],
            1024,
            &[],
        )?;
        assert_eq!(rt; told, status, "{design}");
        assert_eq!(rt; written.as_slice(), text.as_bytes(), "{design}");
        let words = words_of(rt.alloc(), &["run", "top.v"])?;
        let contents = contents_of(rt.alloc(), &[design])?;
        let plain = plain_text(rt.alloc(), &words, &contents, 1000).expect(&rt, "memory");
        assert_eq!(rt; plain.as_slice(), text.as_bytes(), "{design}");
    }
    Ok(())
}

#[test]
fn a_file_has_4194304_bytes_at_most(rt: HostRuntime) -> Result<(), Fail> {
    let alloc = rt.alloc();
    let mut text = Vec::from_slice(alloc, b"module top; initial begin end endmodule")?;
    for _ in text.len()..4_194_304 {
        text.push(b' ')?;
    }
    let (told, written) = ran(&rt, alloc, &["run", "top.v"], &text, &[], 1024, &[])?;
    assert_eq!(rt; told, Status::Done(Cause::Nothing));
    assert_eq!(rt; written.as_slice(), b"0 end none\n".as_slice());
    text.push(b' ')?;
    let (told, written) = ran(&rt, alloc, &["run", "top.v"], &text, &[], 1024, &[])?;
    assert_eq!(rt; told, Status::TooLong(1));
    assert!(rt; written.is_empty());
    let words = words_of(alloc, &["run", "top.v"])?;
    let said = status_line(alloc, &words, &told).expect(&rt, "memory");
    assert_eq!(rt; said.as_bytes(), b"too long: top.v".as_slice());
    assert_eq!(rt; exit_number(&told), 6);
    Ok(())
}

#[test]
fn a_failed_read_or_write_leaves_a_front(rt: HostRuntime) -> Result<(), Fail> {
    let alloc = rt.alloc();
    let run_top = ["run", "top.v"];
    let (told, written) = ran(&rt, alloc, &run_top, FIRST.as_bytes(), &[1], 1024, &[])?;
    assert_eq!(rt; told, Status::ReadFault(1));
    assert!(rt; written.is_empty());
    // The file is read once, so a second read that would fail changes nothing.
    let (told, written) = ran(&rt, alloc, &run_top, FIRST.as_bytes(), &[2], 1024, &[])?;
    assert_eq!(rt; told, Status::Done(Cause::Finish));
    assert_eq!(rt; written.as_slice(), FIRST_TEXT.as_bytes());
    // A sink that takes one byte a call gets the whole text.
    let (told, written) = ran(&rt, alloc, &run_top, FIRST.as_bytes(), &[], 1, &[])?;
    assert_eq!(rt; told, Status::Done(Cause::Finish));
    assert_eq!(rt; written.as_slice(), FIRST_TEXT.as_bytes());
    // It fails at each byte in turn: what was taken before stands, and nothing after it.
    for n in 0..FIRST_TEXT.len() {
        let number = n as u64 + 1;
        let (told, written) = ran(&rt, alloc, &run_top, FIRST.as_bytes(), &[], 1, &[number])?;
        assert_eq!(rt; told, Status::WriteFault);
        assert_eq!(rt; exit_number(&told), 7);
        assert!(rt; n <= FIRST_TEXT.len());
        assert_eq!(rt; written.as_slice(), &FIRST_TEXT.as_bytes()[..n]);
    }
    Ok(())
}

const SCRIPT: &str =
    "app watch; var r; startup { by_name \"top\" null; print \"on\"; } proc p { r = remove me; }\n";

// What it writes before the design of `FIRST` does.
const SCRIPT_TEXT: &str = "0 startup watch
0 do s1 by_name \"top\" null => E9
0 do s1 print \"on\" => ok
3 out \"hi\\n\"
3 end finish
";

// A source with the files `a.v`, `b.app`, `c.v` and `d.app`.
fn two_of_each(
    alloc: Global,
    design: &[u8],
    script: &[u8],
    failing: &[u64],
) -> Result<MemoryFiles, Fail> {
    let mut held = Vec::new(alloc);
    for (name, bytes) in [
        ("a.v", design),
        ("b.app", script),
        ("c.v", design),
        ("d.app", script),
    ] {
        held.push((
            String::from_str(alloc, name)?,
            Vec::from_slice(alloc, bytes)?,
        ))?;
    }
    Ok(MemoryFiles::new(held, Vec::from_slice(alloc, failing)?))
}

// A text with spaces behind it, so many bytes in all.
fn padded(alloc: Global, text: &[u8], length: usize) -> Result<Vec<u8>, Fail> {
    let mut bytes = Vec::from_slice(alloc, text)?;
    for _ in text.len()..length {
        bytes.push(b' ')?;
    }
    Ok(bytes)
}

// Words, and the contents of their files.
static SIDES: [(&[&str], &[&str], &str); 3] = [
    (&["run", "a.v"], &[FIRST], FIRST_TEXT),
    (&["run", "a.v", "b.app"], &[FIRST, SCRIPT], SCRIPT_TEXT),
    (&["run", "b.app", "a.v"], &[SCRIPT, FIRST], SCRIPT_TEXT),
];

#[test]
fn a_script_may_stand_on_either_side(rt: HostRuntime) -> Result<(), Fail> {
    let alloc = rt.alloc();
    let design = FIRST.as_bytes();
    let script = SCRIPT.as_bytes();
    for (list, texts, text) in &SIDES {
        let source = two_of_each(alloc, design, script, &[])?;
        let (told, written) = ran_over(&rt, alloc, list, source, 1024, &[])?;
        assert_eq!(rt; told, Status::Done(Cause::Finish));
        assert_eq!(rt; written.as_slice(), text.as_bytes());
        let words = words_of(alloc, list)?;
        let contents = contents_of(alloc, texts)?;
        let plain = plain_text(alloc, &words, &contents, 1000).expect(&rt, "memory");
        assert_eq!(rt; plain.as_slice(), text.as_bytes());
    }
    Ok(())
}

// A design with a fault, and a script with one.
const NO_DESIGN: &str = "module top; reg a; reg a; endmodule";

const NO_SCRIPT: &str = "app watch; startup { print \"on\" }";

// Words, the design's and the script's text, the reads that fail, and the status with its line. They come before the faults
// of texts.
static FAILED_READS: [(&[&str], &str, &str, &[u64], Status, &str); 3] = [
    (
        &["run", "a.v", "b.app"],
        NO_DESIGN,
        NO_SCRIPT,
        &[2],
        Status::ReadFault(2),
        "cannot read b.app",
    ),
    (
        &["run", "b.app", "a.v"],
        FIRST,
        SCRIPT,
        &[2],
        Status::ReadFault(2),
        "cannot read a.v",
    ),
    (
        &["run", "a.v", "b.app"],
        FIRST,
        SCRIPT,
        &[1, 2],
        Status::ReadFault(1),
        "cannot read a.v",
    ),
];

#[test]
fn the_first_failed_read_is_told_and_nothing_is_written(rt: HostRuntime) -> Result<(), Fail> {
    let alloc = rt.alloc();
    for (list, design, script, failing, status, line) in &FAILED_READS {
        let source = two_of_each(alloc, design.as_bytes(), script.as_bytes(), failing)?;
        let (told, written) = ran_over(&rt, alloc, list, source, 1024, &[])?;
        assert_eq!(rt; told, *status, "{line}");
        assert!(rt; written.is_empty(), "{line}");
        let words = words_of(alloc, list)?;
        let said = status_line(alloc, &words, &told).expect(&rt, "memory");
        assert_eq!(rt; said.as_bytes(), line.as_bytes());
        assert_eq!(rt; exit_number(&told), 6);
    }
    Ok(())
}

#[test]
fn a_script_has_1048576_bytes_at_most(rt: HostRuntime) -> Result<(), Fail> {
    let alloc = rt.alloc();
    let list = ["run", "a.v", "b.app"];
    let longest = padded(alloc, SCRIPT.as_bytes(), 1_048_576)?;
    let source = two_of_each(alloc, FIRST.as_bytes(), &longest, &[])?;
    let (told, written) = ran_over(&rt, alloc, &list, source, 1024, &[])?;
    assert_eq!(rt; told, Status::Done(Cause::Finish));
    assert_eq!(rt; written.as_slice(), SCRIPT_TEXT.as_bytes());
    // One byte more is too long, also where the design would be refused.
    let longer = padded(alloc, SCRIPT.as_bytes(), 1_048_577)?;
    let source = two_of_each(alloc, NO_DESIGN.as_bytes(), &longer, &[])?;
    let (told, written) = ran_over(&rt, alloc, &list, source, 1024, &[])?;
    assert_eq!(rt; told, Status::TooLong(2));
    assert!(rt; written.is_empty());
    // The first file that is too long is told, and the read behind it isn't made.
    let source = two_of_each(alloc, FIRST.as_bytes(), &longer, &[2])?;
    let (told, _) = ran_over(&rt, alloc, &["run", "b.app", "a.v"], source, 1024, &[])?;
    assert_eq!(rt; told, Status::TooLong(1));
    let words = words_of(alloc, &["run", "b.app", "a.v"])?;
    let said = status_line(alloc, &words, &told).expect(&rt, "memory");
    assert_eq!(rt; said.as_bytes(), b"too long: b.app".as_slice());
    assert_eq!(rt; exit_number(&told), 6);
    // A Verilog file may be longer than that.
    let design = padded(alloc, FIRST.as_bytes(), 1_048_577)?;
    let source = two_of_each(alloc, &design, SCRIPT.as_bytes(), &[])?;
    let (told, _) = ran_over(&rt, alloc, &list, source, 1024, &[])?;
    assert_eq!(rt; told, Status::Done(Cause::Finish));
    Ok(())
}

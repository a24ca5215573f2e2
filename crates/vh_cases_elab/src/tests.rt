use std::alloc::Global;
use std::fmt::Write;
use std::process::Abort;
use std::test::Fail;
use vh_base::{ObjId, Place, ProcId};
use vh_design::{Design, Operation};
use vh_elab::{Elaboration, elaborate};
use vh_lex::{Lexer, Token};
use vh_parse_items::parse;

// What comes of tokens.
fn of_tokens(alloc: Global, tokens: &[Token]) -> Result<Elaboration, &'static str> {
    let after = Place {
        file: 1,
        line: 1,
        column: 1,
    };
    let Ok(source) = parse(alloc, tokens, after) else {
        return Err("no source");
    };
    match elaborate(alloc, after, &source) {
        Ok(elaboration) => Ok(elaboration),
        Err(_) => Err("no memory"),
    }
}

// What comes of a text.
fn of_text(alloc: Global, text: &[u8]) -> Result<Elaboration, &'static str> {
    let Ok(mut lexer) = Lexer::new(alloc) else {
        return Err("no memory");
    };
    if text.len() > 1000 || lexer.file(alloc, 1, text).is_err() {
        return Err("no tokens");
    }
    of_tokens(alloc, lexer.tokens().as_slice())
}

// An object: its name, its width, whether it is signed, and how many words it has.
fn push_object(line: &mut String, design: &Design, number: u32) -> Result<(), Fail> {
    let id = ObjId::new(number);
    if number >= design.counts().objects {
        return Ok(());
    }
    let object = design.object(id);
    for byte in object.name.as_slice() {
        line.push(*byte as char)?;
    }
    write!(line, ":{}", object.width)?;
    if object.signed {
        line.push('s')?;
    }
    if object.words > 0 {
        write!(line, "x{}", object.words)?;
    }
    line.push(' ')?;
    Ok(())
}

// A process: that of a first value, or of a construct.
fn push_process(line: &mut String, design: &Design, number: u32) -> Result<(), Fail> {
    let id = ProcId::new(u64::from(number));
    if number >= design.counts().processes {
        return Ok(());
    }
    let code = design.code(id);
    match code.instructions.as_slice().last() {
        Some(last) => {
            let letter = match last.operation {
                Operation::Initial { .. } => 'V',
                _ => 'C',
            };
            line.push(letter)?;
        }
        None => line.push('?')?,
    }
    Ok(())
}

fn push_design(line: &mut String, design: &Design) -> Result<(), Fail> {
    let counts = design.counts();
    for number in 0..counts.objects {
        push_object(line, design, number)?;
    }
    line.push('|')?;
    for number in 0..counts.processes {
        push_process(line, design, number)?;
    }
    Ok(())
}

// What comes of a text in one line: the objects of its design, and a letter for each process; or the
// fault and its column; or `later`.
fn shown(alloc: Global, text: &[u8]) -> Result<String, Fail> {
    let mut line = String::new(alloc);
    match of_text(alloc, text) {
        Ok(Elaboration::Made(design)) => push_design(&mut line, &design)?,
        Ok(Elaboration::Refused(fault, place)) => {
            write!(line, "{fault:?} {}:{}", place.line, place.column)?;
        }
        Ok(Elaboration::Later) => line.push_str("later")?,
        Err(word) => line.push_str(word)?,
    }
    Ok(line)
}

fn check_all(rt: &impl Abort, alloc: Global, rows: &[(&[u8], &str)]) -> Result<(), Fail> {
    for (text, line) in rows {
        let told = shown(alloc, text)?;
        assert_eq!(rt; told.as_str(), *line);
    }
    Ok(())
}

// Faults, with their places.
static FAULTS: [(&[u8], &str); 40] = [
    (b"module m; initial a = 1; endmodule", "N1 1:19"),
    (b"module m; reg a; initial a = b; endmodule", "N1 1:30"),
    (b"module m; reg [w:0] a; endmodule", "N1 1:16"),
    (b"module m; parameter P = Q; endmodule", "N1 1:25"),
    (b"module m; initial t; endmodule", "N1 1:19"),
    (b"module m; reg a; initial a; endmodule", "N1 1:26"),
    (
        b"module m; reg [7:0] r [0:3]; initial r = 1; endmodule",
        "N1 1:38",
    ),
    (
        b"module m; reg a; initial begin : b end initial a = b; endmodule",
        "N1 1:52",
    ),
    (
        b"module m; function f; input x; f = x; endfunction initial disable f; endmodule",
        "N1 1:67",
    ),
    (b"module m; reg a = q; initial a = 1; endmodule", "N1 1:19"),
    (b"module top; reg [3:0] a; reg a; endmodule", "N2 1:30"),
    (
        b"module m; task t; input a; reg a; ; endtask endmodule",
        "N2 1:32",
    ),
    (b"module m; reg a; task a; ; endtask endmodule", "N2 1:23"),
    (
        b"module m; parameter P = 1; localparam P = 2; endmodule",
        "N2 1:39",
    ),
    (
        b"module m; initial begin : b end initial begin : b end endmodule",
        "N2 1:49",
    ),
    (
        b"module m; function f; input f; f = 1; endfunction endmodule",
        "N2 1:29",
    ),
    (b"module m #(parameter P = 1); reg P; endmodule", "N2 1:34"),
    (b"module m; reg [64:0] a; endmodule", "N3 1:15"),
    (b"module m; reg [-1:0] a; endmodule", "N3 1:15"),
    (b"module m; reg [1'bx:0] a; endmodule", "N3 1:15"),
    (b"module m; reg [7:0] a [0:65536]; endmodule", "N3 1:23"),
    (b"module m; parameter [64:0] P = 1; endmodule", "N3 1:21"),
    (
        b"module m; task t; input [64:0] a; ; endtask endmodule",
        "N3 1:25",
    ),
    (
        b"module m; function [64:0] f; input a; f = a; endfunction endmodule",
        "N3 1:20",
    ),
    (
        b"module m; initial begin : b reg [64:0] a; end endmodule",
        "N3 1:33",
    ),
    (b"module m; reg a; reg [a:0] b; endmodule", "N4 1:23"),
    (b"module m; parameter P = m.Q; endmodule", "N4 1:25"),
    (b"module m; reg [$time:0] a; endmodule", "N4 1:16"),
    (b"module m; reg [nothing(1):0] a; endmodule", "N1 1:16"),
    (
        b"module m; function f; input x; f = x; endfunction reg [f(1):0] a; endmodule",
        "N4 1:56",
    ),
    (
        b"module m; function f; input x; f = x; endfunction parameter P = f(1); endmodule",
        "N4 1:65",
    ),
    (
        b"module m; parameter P = 1; initial P = 2; endmodule",
        "N5 1:36",
    ),
    (
        b"module m; reg a, b; initial @(a + b) ; endmodule",
        "N6 1:31",
    ),
    (
        b"module m; reg a [0:1]; initial @(a) ; endmodule",
        "N6 1:34",
    ),
    (
        b"module m; task t; input a; ; endtask initial t; endmodule",
        "N7 1:46",
    ),
    (
        b"module m; reg a; function f; input x; f = x; endfunction initial a = f(1, 2); endmodule",
        "N7 1:70",
    ),
    (b"module m; initial $foo; endmodule", "N10 1:19"),
    (
        b"module m; reg a; initial $finish(a); endmodule",
        "N10 1:26",
    ),
    (b"module m; initial $display(\"%d\"); endmodule", "N10 1:19"),
    (b"", "N9 1:1"),
];

#[test]
fn faults(rt: HostRuntime) -> Result<(), Fail> {
    check_all(&rt, rt.alloc(), &FAULTS)
}

// Of two faults the least: by pass, and in a pass by place.
static TWO_FAULTS: [(&[u8], &str); 14] = [
    (
        b"module m; initial a = 1; reg [64:0] b; endmodule",
        "N3 1:30",
    ),
    (b"module m; initial a = 1; reg b, b; endmodule", "N2 1:33"),
    (
        b"module m; parameter P = q; reg [64:0] b; endmodule",
        "N1 1:25",
    ),
    (b"module m; reg [q:-1] b; endmodule", "N3 1:15"),
    (b"module m; reg [q:r] b; endmodule", "N1 1:16"),
    (b"module m; reg [64:0] b; reg b; endmodule", "N3 1:15"),
    (
        b"module m; initial begin : b reg x = y; z = 1; end endmodule",
        "N1 1:37",
    ),
    (
        b"module m; initial begin z = 1; begin : b reg x = y; end end endmodule",
        "N1 1:25",
    ),
    (
        b"module m; initial begin : b reg x = y; x = 1; end endmodule",
        "N1 1:37",
    ),
    (b"module m; reg a = q; initial r = 1; endmodule", "N1 1:19"),
    (
        b"module m; reg [P:0] a; parameter P = q; endmodule",
        "N1 1:38",
    ),
    (
        b"module m; reg [P:0] a [P:0]; parameter Q = P; parameter P = q; endmodule",
        "N1 1:61",
    ),
    (
        b"module m; reg P; reg [P:0] b; parameter P = 2; endmodule",
        "N4 1:23",
    ),
    (
        b"module m; parameter P = 1; reg [P:0] a; parameter P = 70; endmodule",
        "N2 1:51",
    ),
];

#[test]
fn two_faults(rt: HostRuntime) -> Result<(), Fail> {
    check_all(&rt, rt.alloc(), &TWO_FAULTS)
}

// Each two of the faults in one text, in either order: `N9` and `N8` come first, then the faults of the first pass, then those of
// the second, and of one pass the first by its place. (own)
static PAIRS: [(&[u8], &str); 99] = [
    (b"module m; initial a = 1; reg b, b; endmodule", "N2 1:33"),
    (b"module m; reg b, b; initial a = 1; endmodule", "N2 1:18"),
    (
        b"module m; initial a = 1; reg [64:0] c; endmodule",
        "N3 1:30",
    ),
    (
        b"module m; reg [64:0] c; initial a = 1; endmodule",
        "N3 1:15",
    ),
    (
        b"module m; initial a = 1; parameter D = D; endmodule",
        "N4 1:36",
    ),
    (
        b"module m; parameter D = D; initial a = 1; endmodule",
        "N4 1:21",
    ),
    (
        b"module m; initial a = 1; wire g; initial g = 1; endmodule",
        "N1 1:19",
    ),
    (
        b"module m; wire g; initial g = 1; initial a = 1; endmodule",
        "N5 1:27",
    ),
    (
        b"module m; initial a = 1; reg h; initial @(h + 1) ; endmodule",
        "N1 1:19",
    ),
    (
        b"module m; reg h; initial @(h + 1) ; initial a = 1; endmodule",
        "N6 1:28",
    ),
    (
        b"module m; initial a = 1; wire k; and (k, k); endmodule",
        "N1 1:19",
    ),
    (
        b"module m; wire k; and (k, k); initial a = 1; endmodule",
        "N7 1:23",
    ),
    (
        b"module m; initial a = 1; endmodule module s; s t(); endmodule",
        "N8 1:46",
    ),
    (
        b"module m; initial a = 1; endmodule module z; endmodule",
        "N9 1:1",
    ),
    (
        b"module m; initial a = 1; initial $foo; endmodule",
        "N1 1:19",
    ),
    (
        b"module m; initial $foo; initial a = 1; endmodule",
        "N10 1:19",
    ),
    (
        b"module m; initial a = 1; reg w0 [0:65535], w1 [0:65535], w2 [0:65535], w3 [0:65535], w4 [0:65535], w5 [0:65535], w6 [0:65535], w7 [0:65535], w8 [0:65535], w9 [0:65535], w10 [0:65535], w11 [0:65535], w12 [0:65535], w13 [0:65535], w14 [0:65535], w15 [0:65535], v [0:0]; endmodule",
        "N11 1:260",
    ),
    (
        b"module m; reg w0 [0:65535], w1 [0:65535], w2 [0:65535], w3 [0:65535], w4 [0:65535], w5 [0:65535], w6 [0:65535], w7 [0:65535], w8 [0:65535], w9 [0:65535], w10 [0:65535], w11 [0:65535], w12 [0:65535], w13 [0:65535], w14 [0:65535], w15 [0:65535], v [0:0]; initial a = 1; endmodule",
        "N11 1:245",
    ),
    (b"module m; reg b, b; reg [64:0] c; endmodule", "N2 1:18"),
    (b"module m; reg [64:0] c; reg b, b; endmodule", "N3 1:15"),
    (b"module m; reg b, b; parameter D = D; endmodule", "N2 1:18"),
    (b"module m; parameter D = D; reg b, b; endmodule", "N4 1:21"),
    (
        b"module m; reg b, b; wire g; initial g = 1; endmodule",
        "N2 1:18",
    ),
    (
        b"module m; wire g; initial g = 1; reg b, b; endmodule",
        "N2 1:41",
    ),
    (
        b"module m; reg b, b; reg h; initial @(h + 1) ; endmodule",
        "N2 1:18",
    ),
    (
        b"module m; reg h; initial @(h + 1) ; reg b, b; endmodule",
        "N2 1:44",
    ),
    (
        b"module m; reg b, b; wire k; and (k, k); endmodule",
        "N2 1:18",
    ),
    (
        b"module m; wire k; and (k, k); reg b, b; endmodule",
        "N2 1:38",
    ),
    (
        b"module m; reg b, b; endmodule module s; s t(); endmodule",
        "N8 1:41",
    ),
    (
        b"module m; reg b, b; endmodule module z; endmodule",
        "N9 1:1",
    ),
    (b"module m; reg b, b; initial $foo; endmodule", "N2 1:18"),
    (b"module m; initial $foo; reg b, b; endmodule", "N2 1:32"),
    (
        b"module m; reg b, b; reg w0 [0:65535], w1 [0:65535], w2 [0:65535], w3 [0:65535], w4 [0:65535], w5 [0:65535], w6 [0:65535], w7 [0:65535], w8 [0:65535], w9 [0:65535], w10 [0:65535], w11 [0:65535], w12 [0:65535], w13 [0:65535], w14 [0:65535], w15 [0:65535], v [0:0]; endmodule",
        "N2 1:18",
    ),
    (
        b"module m; reg w0 [0:65535], w1 [0:65535], w2 [0:65535], w3 [0:65535], w4 [0:65535], w5 [0:65535], w6 [0:65535], w7 [0:65535], w8 [0:65535], w9 [0:65535], w10 [0:65535], w11 [0:65535], w12 [0:65535], w13 [0:65535], w14 [0:65535], w15 [0:65535], v [0:0]; reg b, b; endmodule",
        "N11 1:245",
    ),
    (
        b"module m; reg [64:0] c; parameter D = D; endmodule",
        "N3 1:15",
    ),
    (
        b"module m; parameter D = D; reg [64:0] c; endmodule",
        "N4 1:21",
    ),
    (
        b"module m; reg [64:0] c; wire g; initial g = 1; endmodule",
        "N3 1:15",
    ),
    (
        b"module m; wire g; initial g = 1; reg [64:0] c; endmodule",
        "N3 1:38",
    ),
    (
        b"module m; reg [64:0] c; reg h; initial @(h + 1) ; endmodule",
        "N3 1:15",
    ),
    (
        b"module m; reg h; initial @(h + 1) ; reg [64:0] c; endmodule",
        "N3 1:41",
    ),
    (
        b"module m; reg [64:0] c; wire k; and (k, k); endmodule",
        "N3 1:15",
    ),
    (
        b"module m; wire k; and (k, k); reg [64:0] c; endmodule",
        "N3 1:35",
    ),
    (
        b"module m; reg [64:0] c; endmodule module s; s t(); endmodule",
        "N8 1:45",
    ),
    (
        b"module m; reg [64:0] c; endmodule module z; endmodule",
        "N9 1:1",
    ),
    (
        b"module m; reg [64:0] c; initial $foo; endmodule",
        "N3 1:15",
    ),
    (
        b"module m; initial $foo; reg [64:0] c; endmodule",
        "N3 1:29",
    ),
    (
        b"module m; reg [64:0] c; reg w0 [0:65535], w1 [0:65535], w2 [0:65535], w3 [0:65535], w4 [0:65535], w5 [0:65535], w6 [0:65535], w7 [0:65535], w8 [0:65535], w9 [0:65535], w10 [0:65535], w11 [0:65535], w12 [0:65535], w13 [0:65535], w14 [0:65535], w15 [0:65535], v [0:0]; endmodule",
        "N3 1:15",
    ),
    (
        b"module m; reg w0 [0:65535], w1 [0:65535], w2 [0:65535], w3 [0:65535], w4 [0:65535], w5 [0:65535], w6 [0:65535], w7 [0:65535], w8 [0:65535], w9 [0:65535], w10 [0:65535], w11 [0:65535], w12 [0:65535], w13 [0:65535], w14 [0:65535], w15 [0:65535], v [0:0]; reg [64:0] c; endmodule",
        "N11 1:245",
    ),
    (
        b"module m; parameter D = D; wire g; initial g = 1; endmodule",
        "N4 1:21",
    ),
    (
        b"module m; wire g; initial g = 1; parameter D = D; endmodule",
        "N4 1:44",
    ),
    (
        b"module m; parameter D = D; reg h; initial @(h + 1) ; endmodule",
        "N4 1:21",
    ),
    (
        b"module m; reg h; initial @(h + 1) ; parameter D = D; endmodule",
        "N4 1:47",
    ),
    (
        b"module m; parameter D = D; wire k; and (k, k); endmodule",
        "N4 1:21",
    ),
    (
        b"module m; wire k; and (k, k); parameter D = D; endmodule",
        "N4 1:41",
    ),
    (
        b"module m; parameter D = D; endmodule module s; s t(); endmodule",
        "N8 1:48",
    ),
    (
        b"module m; parameter D = D; endmodule module z; endmodule",
        "N9 1:1",
    ),
    (
        b"module m; parameter D = D; initial $foo; endmodule",
        "N4 1:21",
    ),
    (
        b"module m; initial $foo; parameter D = D; endmodule",
        "N4 1:35",
    ),
    (
        b"module m; parameter D = D; reg w0 [0:65535], w1 [0:65535], w2 [0:65535], w3 [0:65535], w4 [0:65535], w5 [0:65535], w6 [0:65535], w7 [0:65535], w8 [0:65535], w9 [0:65535], w10 [0:65535], w11 [0:65535], w12 [0:65535], w13 [0:65535], w14 [0:65535], w15 [0:65535], v [0:0]; endmodule",
        "N4 1:21",
    ),
    (
        b"module m; reg w0 [0:65535], w1 [0:65535], w2 [0:65535], w3 [0:65535], w4 [0:65535], w5 [0:65535], w6 [0:65535], w7 [0:65535], w8 [0:65535], w9 [0:65535], w10 [0:65535], w11 [0:65535], w12 [0:65535], w13 [0:65535], w14 [0:65535], w15 [0:65535], v [0:0]; parameter D = D; endmodule",
        "N11 1:245",
    ),
    (
        b"module m; wire g; initial g = 1; reg h; initial @(h + 1) ; endmodule",
        "N5 1:27",
    ),
    (
        b"module m; reg h; initial @(h + 1) ; wire g; initial g = 1; endmodule",
        "N6 1:28",
    ),
    (
        b"module m; wire g; initial g = 1; wire k; and (k, k); endmodule",
        "N5 1:27",
    ),
    (
        b"module m; wire k; and (k, k); wire g; initial g = 1; endmodule",
        "N7 1:23",
    ),
    (
        b"module m; wire g; initial g = 1; endmodule module s; s t(); endmodule",
        "N8 1:54",
    ),
    (
        b"module m; wire g; initial g = 1; endmodule module z; endmodule",
        "N9 1:1",
    ),
    (
        b"module m; wire g; initial g = 1; initial $foo; endmodule",
        "N5 1:27",
    ),
    (
        b"module m; initial $foo; wire g; initial g = 1; endmodule",
        "N10 1:19",
    ),
    (
        b"module m; wire g; initial g = 1; reg w0 [0:65535], w1 [0:65535], w2 [0:65535], w3 [0:65535], w4 [0:65535], w5 [0:65535], w6 [0:65535], w7 [0:65535], w8 [0:65535], w9 [0:65535], w10 [0:65535], w11 [0:65535], w12 [0:65535], w13 [0:65535], w14 [0:65535], w15 [0:65535], v [0:0]; endmodule",
        "N11 1:268",
    ),
    (
        b"module m; reg w0 [0:65535], w1 [0:65535], w2 [0:65535], w3 [0:65535], w4 [0:65535], w5 [0:65535], w6 [0:65535], w7 [0:65535], w8 [0:65535], w9 [0:65535], w10 [0:65535], w11 [0:65535], w12 [0:65535], w13 [0:65535], w14 [0:65535], w15 [0:65535], v [0:0]; wire g; initial g = 1; endmodule",
        "N11 1:245",
    ),
    (
        b"module m; reg h; initial @(h + 1) ; wire k; and (k, k); endmodule",
        "N6 1:28",
    ),
    (
        b"module m; wire k; and (k, k); reg h; initial @(h + 1) ; endmodule",
        "N7 1:23",
    ),
    (
        b"module m; reg h; initial @(h + 1) ; endmodule module s; s t(); endmodule",
        "N8 1:57",
    ),
    (
        b"module m; reg h; initial @(h + 1) ; endmodule module z; endmodule",
        "N9 1:1",
    ),
    (
        b"module m; reg h; initial @(h + 1) ; initial $foo; endmodule",
        "N6 1:28",
    ),
    (
        b"module m; initial $foo; reg h; initial @(h + 1) ; endmodule",
        "N10 1:19",
    ),
    (
        b"module m; reg h; initial @(h + 1) ; reg w0 [0:65535], w1 [0:65535], w2 [0:65535], w3 [0:65535], w4 [0:65535], w5 [0:65535], w6 [0:65535], w7 [0:65535], w8 [0:65535], w9 [0:65535], w10 [0:65535], w11 [0:65535], w12 [0:65535], w13 [0:65535], w14 [0:65535], w15 [0:65535], v [0:0]; endmodule",
        "N11 1:271",
    ),
    (
        b"module m; reg w0 [0:65535], w1 [0:65535], w2 [0:65535], w3 [0:65535], w4 [0:65535], w5 [0:65535], w6 [0:65535], w7 [0:65535], w8 [0:65535], w9 [0:65535], w10 [0:65535], w11 [0:65535], w12 [0:65535], w13 [0:65535], w14 [0:65535], w15 [0:65535], v [0:0]; reg h; initial @(h + 1) ; endmodule",
        "N11 1:245",
    ),
    (
        b"module m; wire k; and (k, k); endmodule module s; s t(); endmodule",
        "N8 1:51",
    ),
    (
        b"module m; wire k; and (k, k); endmodule module z; endmodule",
        "N9 1:1",
    ),
    (
        b"module m; wire k; and (k, k); initial $foo; endmodule",
        "N7 1:23",
    ),
    (
        b"module m; initial $foo; wire k; and (k, k); endmodule",
        "N10 1:19",
    ),
    (
        b"module m; wire k; and (k, k); reg w0 [0:65535], w1 [0:65535], w2 [0:65535], w3 [0:65535], w4 [0:65535], w5 [0:65535], w6 [0:65535], w7 [0:65535], w8 [0:65535], w9 [0:65535], w10 [0:65535], w11 [0:65535], w12 [0:65535], w13 [0:65535], w14 [0:65535], w15 [0:65535], v [0:0]; endmodule",
        "N11 1:265",
    ),
    (
        b"module m; reg w0 [0:65535], w1 [0:65535], w2 [0:65535], w3 [0:65535], w4 [0:65535], w5 [0:65535], w6 [0:65535], w7 [0:65535], w8 [0:65535], w9 [0:65535], w10 [0:65535], w11 [0:65535], w12 [0:65535], w13 [0:65535], w14 [0:65535], w15 [0:65535], v [0:0]; wire k; and (k, k); endmodule",
        "N11 1:245",
    ),
    (
        b"module m; endmodule module s; s t(); endmodule module z; endmodule",
        "N9 1:1",
    ),
    (
        b"module m; initial $foo; endmodule module s; s t(); endmodule",
        "N8 1:45",
    ),
    (
        b"module m; reg w0 [0:65535], w1 [0:65535], w2 [0:65535], w3 [0:65535], w4 [0:65535], w5 [0:65535], w6 [0:65535], w7 [0:65535], w8 [0:65535], w9 [0:65535], w10 [0:65535], w11 [0:65535], w12 [0:65535], w13 [0:65535], w14 [0:65535], w15 [0:65535], v [0:0]; endmodule module s; s t(); endmodule",
        "N8 1:274",
    ),
    (
        b"module m; initial $foo; endmodule module z; endmodule",
        "N9 1:1",
    ),
    (
        b"module m; reg w0 [0:65535], w1 [0:65535], w2 [0:65535], w3 [0:65535], w4 [0:65535], w5 [0:65535], w6 [0:65535], w7 [0:65535], w8 [0:65535], w9 [0:65535], w10 [0:65535], w11 [0:65535], w12 [0:65535], w13 [0:65535], w14 [0:65535], w15 [0:65535], v [0:0]; endmodule module z; endmodule",
        "N9 1:1",
    ),
    (
        b"module m; initial $foo; reg w0 [0:65535], w1 [0:65535], w2 [0:65535], w3 [0:65535], w4 [0:65535], w5 [0:65535], w6 [0:65535], w7 [0:65535], w8 [0:65535], w9 [0:65535], w10 [0:65535], w11 [0:65535], w12 [0:65535], w13 [0:65535], w14 [0:65535], w15 [0:65535], v [0:0]; endmodule",
        "N11 1:259",
    ),
    (
        b"module m; reg w0 [0:65535], w1 [0:65535], w2 [0:65535], w3 [0:65535], w4 [0:65535], w5 [0:65535], w6 [0:65535], w7 [0:65535], w8 [0:65535], w9 [0:65535], w10 [0:65535], w11 [0:65535], w12 [0:65535], w13 [0:65535], w14 [0:65535], w15 [0:65535], v [0:0]; initial $foo; endmodule",
        "N11 1:245",
    ),
    (b"module m; parameter P = q; reg b, b; endmodule", "N1 1:25"),
    (b"module m; reg b, b; parameter P = q; endmodule", "N2 1:18"),
    (
        b"module m; parameter P = q; reg [64:0] c; endmodule",
        "N1 1:25",
    ),
    (
        b"module m; reg [64:0] c; parameter P = q; endmodule",
        "N3 1:15",
    ),
    (
        b"module m; parameter P = q; parameter D = D; endmodule",
        "N1 1:25",
    ),
    (
        b"module m; parameter D = D; parameter P = q; endmodule",
        "N4 1:21",
    ),
    (
        b"module m; parameter P = q; reg w0 [0:65535], w1 [0:65535], w2 [0:65535], w3 [0:65535], w4 [0:65535], w5 [0:65535], w6 [0:65535], w7 [0:65535], w8 [0:65535], w9 [0:65535], w10 [0:65535], w11 [0:65535], w12 [0:65535], w13 [0:65535], w14 [0:65535], w15 [0:65535], v [0:0]; endmodule",
        "N1 1:25",
    ),
    (
        b"module m; reg w0 [0:65535], w1 [0:65535], w2 [0:65535], w3 [0:65535], w4 [0:65535], w5 [0:65535], w6 [0:65535], w7 [0:65535], w8 [0:65535], w9 [0:65535], w10 [0:65535], w11 [0:65535], w12 [0:65535], w13 [0:65535], w14 [0:65535], w15 [0:65535], v [0:0]; parameter P = q; endmodule",
        "N11 1:245",
    ),
];

#[test]
fn each_two_faults(rt: HostRuntime) -> Result<(), Fail> {
    check_all(&rt, rt.alloc(), &PAIRS)
}

// Designs.
static MADE: [(&[u8], &str); 17] = [
    (b"module m; endmodule", "m:1 |"),
    (
        b"module m; reg a; reg signed [7:0] b; integer i; time t; endmodule",
        "m:1 a:1 b:8s i:32s t:64 |",
    ),
    (
        b"module m; reg [3:0] r [7:4], s; endmodule",
        "m:1 r:4x4 s:4 |",
    ),
    (
        b"module m; event e; initial ; always ; endmodule",
        "m:1 e:1 :1 :1 |CC",
    ),
    (
        b"module m; parameter P = 4; parameter Q = 3'b1; parameter signed R = 3'b1; parameter signed [7:0] S = P; endmodule",
        "m:1 P:32s Q:3 R:3s S:8s |",
    ),
    (
        b"module m #(parameter [3:0] P = 1, Q = 2); endmodule",
        "m:1 P:4 Q:4 |",
    ),
    (
        b"module m; parameter A = B + 1; parameter B = C + 1; parameter C = 1; reg [A:0] a; endmodule",
        "m:1 A:32s B:32s C:32s a:4 |",
    ),
    (
        b"module m; parameter [7:0] P = 255; parameter [P[3:2]:0] Q = 0; endmodule",
        "m:1 P:8 Q:4 |",
    ),
    (
        b"module m; parameter A = B + 1; parameter B = C + 1; parameter C = D + 1; parameter D = E + 1; parameter E = 2; reg [A:0] a; reg [D:0] d; endmodule",
        "m:1 A:32s B:32s C:32s D:32s E:32s a:7 d:4 |",
    ),
    (
        b"module m; parameter A = D + 1; parameter D = B + 1; parameter B = E + C; parameter E = C; parameter C = 1; reg [A:0] a; reg [D:0] d; reg [B:0] b; reg [E:0] e; endmodule",
        "m:1 A:32s D:32s B:32s E:32s C:32s a:5 d:4 b:3 e:2 |",
    ),
    (
        b"module m; parameter [B:0] A = C; parameter B = C; parameter C = 2; reg [A:0] a; endmodule",
        "m:1 A:3 B:32s C:32s a:3 |",
    ),
    (
        b"module m; reg a = 1; initial begin : b integer i = 2; i = 3; end reg c = 0; endmodule",
        "m:1 a:1 :1 b:1 i:32s c:1 |VCVV",
    ),
    (
        b"module m; task t; input [3:0] x; output y; reg z; begin : w reg v; end endtask endmodule",
        "m:1 t:1 x:4 y:1 z:1 w:1 v:1 |",
    ),
    (
        b"module m; function [7:0] f; input integer x; f = x; endfunction function g; input x; g = x; endfunction endmodule",
        "m:1 f:1 f:8 x:32s g:1 g:1 x:1 |",
    ),
    (
        b"module m; initial if (1) begin : b reg x; end else begin : c reg x; end endmodule",
        "m:1 :1 b:1 x:1 c:1 x:1 |C",
    ),
    (
        b"module m; initial case (1) 0: begin : b end default: fork : c join endcase endmodule",
        "m:1 :1 b:1 c:1 |C",
    ),
    (
        b"module m; generate reg a; endgenerate endmodule",
        "m:1 a:1 |",
    ),
];

#[test]
fn designs(rt: HostRuntime) -> Result<(), Fail> {
    check_all(&rt, rt.alloc(), &MADE)
}

// Faults of sources with nets, ports, instances and generate constructs.
static TREE_FAULTS: [(&[u8], &str); 47] = [
    (b"module m; m u(); endmodule", "N9 1:1"),
    (
        b"module a; b u(); endmodule module b; a u(); endmodule",
        "N9 1:1",
    ),
    (b"module a; endmodule module b; endmodule", "N9 1:1"),
    (b"module t; endmodule module a; a u(); endmodule", "N8 1:31"),
    (
        b"module t; s u(); endmodule module s; if (0) s v(); endmodule",
        "N8 1:45",
    ),
    (
        b"module t; s u(); endmodule module s; endmodule module s; endmodule",
        "N2 1:55",
    ),
    (b"module t; s u(); endmodule", "N1 1:11"),
    (
        b"module t; s #(.Q(1)) u(); endmodule module s; parameter P = 1; endmodule",
        "N1 1:16",
    ),
    (
        b"module t; s #(.L(1)) u(); endmodule module s; localparam L = 1; endmodule",
        "N1 1:16",
    ),
    (
        b"module t; s #(1, 2) u(); endmodule module s; parameter P = 1; endmodule",
        "N7 1:11",
    ),
    (
        b"module t; s #(1, .P(2)) u(); endmodule module s; parameter P = 1, Q = 2; endmodule",
        "N7 1:11",
    ),
    (
        b"module t; s #(.P(1), .P(2)) u(); endmodule module s; parameter P = 1; endmodule",
        "N7 1:22",
    ),
    (
        b"module t; reg r; s #(r) u(); endmodule module s; parameter P = 1; endmodule",
        "N4 1:22",
    ),
    (
        b"module t; s #(64) u(); endmodule module s; parameter P = 1; reg [P:0] r; endmodule",
        "N3 1:65",
    ),
    (
        b"module t; s u(1); endmodule module s(a, b); input a, b; endmodule",
        "N7 1:13",
    ),
    (
        b"module t; s u(1, .b(1)); endmodule module s(a, b); input a, b; endmodule",
        "N7 1:13",
    ),
    (
        b"module t; s u(.a(1), .a(1)); endmodule module s(a, b); input a, b; endmodule",
        "N7 1:22",
    ),
    (
        b"module t; s u(.c(1)); endmodule module s(a, b); input a, b; endmodule",
        "N1 1:16",
    ),
    (
        b"module t; reg r; s u(r); endmodule module s(output q); endmodule",
        "N5 1:22",
    ),
    (
        b"module t; s u(1 + 1); endmodule module s(output q); endmodule",
        "N5 1:15",
    ),
    (
        b"module t; s u(.a(1)); endmodule module s(input reg a); endmodule",
        "N5 1:15",
    ),
    (b"module t; reg r; assign r = 1; endmodule", "N5 1:25"),
    (b"module t; wire w; initial w = 1; endmodule", "N5 1:27"),
    (b"module t; wire w; assign w = q; endmodule", "N1 1:30"),
    (
        b"module t; reg r; wire [3:0] w; assign w[r] = 1; endmodule",
        "N4 1:41",
    ),
    (
        b"module t; wire [63:0] w; wire v; assign {w, v} = 1; endmodule",
        "N3 1:41",
    ),
    (b"module t; and (a, b); endmodule", "N7 1:15"),
    (b"module t; not (a, b, c); endmodule", "N7 1:15"),
    (
        b"module t; reg [1:0] r; and g1(x, 1'b1, 1'b0), g2(a, r, 1'b1); endmodule",
        "N7 1:47",
    ),
    (b"module t; reg r; buf (r, 1'b1); endmodule", "N5 1:23"),
    (b"module t(a); endmodule", "N1 1:10"),
    (b"module t(a); input a; input b; endmodule", "N1 1:29"),
    (b"module t(a, a); input a; endmodule", "N2 1:13"),
    (b"module t(a); input a; input a; endmodule", "N2 1:29"),
    (b"module t(q); output reg q; reg q; endmodule", "N2 1:32"),
    (b"module t(q); output q; integer q; endmodule", "N2 1:32"),
    (b"module t(q); output q; reg q [0:3]; endmodule", "N2 1:28"),
    (
        b"module t; parameter P = Q; parameter Q = P; endmodule",
        "N4 1:21",
    ),
    (b"module t; parameter P = P; endmodule", "N4 1:21"),
    (
        b"module t; parameter A = B; parameter P = P; parameter B = 1; endmodule",
        "N4 1:38",
    ),
    (b"module t; parameter [P:0] P = 1; endmodule", "N4 1:27"),
    (
        b"module t; for (i = 0; i < 2; i = i + 1) reg a; endmodule",
        "N1 1:16",
    ),
    (
        b"module t; genvar i, j; for (i = 0; i < 2; j = i + 1) reg a; endmodule",
        "N5 1:43",
    ),
    (
        b"module t; genvar i; for (i = 0; i < 2; i = i) begin : g reg a; end endmodule",
        "N2 1:55",
    ),
    (
        b"module t; genvar i; for (i = 1'bx; i < 2; i = i + 1) reg a; endmodule",
        "N4 1:30",
    ),
    (b"module t; reg r; if (r) reg a; endmodule", "N4 1:22"),
    (
        b"module t; if (0) reg a; else reg b; initial b = 1; endmodule",
        "N1 1:45",
    ),
];

#[test]
fn faults_of_trees(rt: HostRuntime) -> Result<(), Fail> {
    check_all(&rt, rt.alloc(), &TREE_FAULTS)
}

// Their designs.
static TREES: [(&[u8], &str); 18] = [
    (b"module m; wire w; endmodule", "m:1 w:1 |"),
    (
        b"module m; wire [3:0] a = 1, b; endmodule",
        "m:1 a:4 :1 b:4 |C",
    ),
    (
        b"module m; reg v; assign w = v; endmodule",
        "m:1 v:1 w:1 :1 |C",
    ),
    (
        b"module m; reg a, b; and (c, a, b), g(d, a, b); endmodule",
        "m:1 a:1 b:1 c:1 d:1 |CC",
    ),
    (
        b"module m(a, q); input [3:0] a; output q; reg q; endmodule",
        "m:1 a:4 a:4 q:1 q:1 |",
    ),
    (
        b"module m(q); output [3:0] q; reg signed q; endmodule",
        "m:1 q:4s q:4s |",
    ),
    (
        b"module s(input i, output o); assign o = i; endmodule module m; reg a; s u(a, b); s v(.o(c)); endmodule",
        "m:1 a:1 b:1 c:1 u:1 i:1 i:1 o:1 o:1 :1 v:1 i:1 i:1 o:1 o:1 :1 |CCCCC",
    ),
    (
        b"module s; parameter P = 1; reg [P:0] r; endmodule module m; s #(3) u(); s #(.P(7)) v(); s w(); endmodule",
        "m:1 u:1 P:32s r:4 v:1 P:32s r:8 w:1 P:32s r:2 |",
    ),
    (
        b"module s; parameter P = Q; parameter Q = 1; reg [P:0] r; endmodule module m; s #(3) u(); s #(.Q(7)) v(); endmodule",
        "m:1 u:1 P:32s Q:32s r:4 v:1 P:32s Q:32s r:8 |",
    ),
    (
        b"module s; t a(); endmodule module t; endmodule module m; s u(); s v(); reg r; endmodule",
        "m:1 r:1 u:1 a:1 v:1 a:1 |",
    ),
    (
        b"module m; parameter P = 1; if (P) begin : g reg a; end else begin : h reg b; end endmodule",
        "m:1 P:32s g:1 a:1 |",
    ),
    (
        b"module m; genvar i; for (i = 0; i < 2; i = i + 1) begin : g reg [i:0] r; end endmodule",
        "m:1 g[0]:1 r:1 g[1]:1 r:2 |",
    ),
    (
        b"module m; genvar i; for (i = -1; i < 0; i = i + 1) begin : g reg r; end endmodule",
        "m:1 g[-1]:1 r:1 |",
    ),
    (
        b"module m; if (0) reg a; if (1) reg b; endmodule",
        "m:1 genblk2:1 b:1 |",
    ),
    (
        b"module m; reg genblk1; if (1) reg b; endmodule",
        "m:1 genblk1:1 genblk01:1 b:1 |",
    ),
    (
        b"module m; if (0) reg a; else if (1) reg b; endmodule",
        "m:1 genblk1:1 b:1 |",
    ),
    (
        b"module m; if (1) begin : g not (a, w); end assign w = 1; endmodule",
        "m:1 g:1 a:1 w:1 w:1 :1 |CC",
    ),
    (
        b"module m; reg a; initial force a = 1; endmodule",
        "m:1 a:1 :1 |C",
    ),
];

#[test]
fn trees(rt: HostRuntime) -> Result<(), Fail> {
    check_all(&rt, rt.alloc(), &TREES)
}

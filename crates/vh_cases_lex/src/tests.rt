use std::alloc::Global;
use std::fmt::Write;
use std::process::Abort;
use std::test::Fail;
use vh_base::{DesignFault, Place};
use vh_lex::{DefaultNet, Kind, LexFault, Lexer, Number, Token};

// What the files come to, in one line: each token behind its line and column, or the fault and its
// place, behind the number of its file where that is not 1.
fn shown(alloc: Global, files: &[&[u8]]) -> Result<String, Fail> {
    let mut lexer = Lexer::new(alloc)?;
    let mut line = String::new(alloc);
    let mut number = 0u32;
    for bytes in files {
        if number < 100 && bytes.len() < 100_000_000 {
            number += 1;
            if let Err(fault) = lexer.file(alloc, number, bytes) {
                push_fault(&mut line, &fault)?;
                return Ok(line);
            }
        }
    }
    if let Err(fault) = lexer.end() {
        push_fault(&mut line, &fault)?;
        return Ok(line);
    }
    for token in lexer.tokens() {
        push_token(&mut line, token)?;
    }
    Ok(line)
}

fn push_fault(line: &mut String, fault: &LexFault) -> Result<(), Fail> {
    match fault {
        LexFault::Refused(fault, place) => {
            write!(line, "{fault:?} ")?;
            push_place(line, place)
        }
        LexFault::NoMemory => {
            line.push_str("no memory")?;
            Ok(())
        }
    }
}

fn push_place(line: &mut String, place: &Place) -> Result<(), Fail> {
    if place.file != 1 {
        write!(line, "{}:", place.file)?;
    }
    write!(line, "{}:{}", place.line, place.column)?;
    Ok(())
}

fn push_token(line: &mut String, token: &Token) -> Result<(), Fail> {
    if !line.is_empty() {
        line.push(' ')?;
    }
    push_place(line, &token.place)?;
    line.push(' ')?;
    push_kind(line, &token.kind)
}

fn push_kind(line: &mut String, kind: &Kind) -> Result<(), Fail> {
    match kind {
        Kind::Module(setting) => {
            let net = setting.default_net == DefaultNet::Wire;
            write!(
                line,
                "module/{}/{}/{}",
                setting.unit, setting.precision, net
            )?;
        }
        Kind::Word(keyword) => write!(line, "{keyword:?}")?,
        Kind::Symbol(symbol) => write!(line, "{symbol:?}")?,
        Kind::Name(name) => push_bytes(line, name.as_slice())?,
        Kind::SysName(name) => push_bytes(line, name.as_slice())?,
        Kind::Text(text) => push_text(line, text.as_slice())?,
        Kind::Number(number) => {
            let Number { value, sized } = *number.get();
            push_number(line, value.number(), value.width(), sized)?;
        }
    }
    Ok(())
}

fn push_number(
    line: &mut String,
    number: Option<u64>,
    width: u32,
    is_sized: bool,
) -> Result<(), Fail> {
    write!(line, "{width}")?;
    line.push(if is_sized { '\'' } else { '~' })?;
    match number {
        Some(number) => write!(line, "{number}")?,
        None => line.push('x')?,
    }
    Ok(())
}

fn push_text(line: &mut String, text: &[u8]) -> Result<(), Fail> {
    line.push('"')?;
    push_bytes(line, text)?;
    line.push('"')?;
    Ok(())
}

fn push_bytes(line: &mut String, bytes: &[u8]) -> Result<(), Fail> {
    for byte in bytes {
        line.push(*byte as char)?;
    }
    Ok(())
}

fn check(rt: &impl Abort, alloc: Global, files: &[&[u8]], line: &str) -> Result<(), Fail> {
    assert_eq!(rt; shown(alloc, files)?.as_str(), line);
    Ok(())
}

// Texts with their tokens.
static READ: [(&[u8], &str); 66] = [
    (b"", ""),
    (b" \t\n\x0c\r\n ", ""),
    (b"a//b\nc", "1:1 a 2:1 c"),
    (b"a/* \n */b", "1:1 a 2:4 b"),
    (b"/**/a/***/b", "1:5 a 1:11 b"),
    (b"/* \x00\xff */a", "1:9 a"),
    (b"(* full, \"x *) a", "1:16 a"),
    (b"(**)a", "1:5 a"),
    (b"(*)", "1:1 LeftParen 1:2 Star 1:3 RightParen"),
    (b"(* \n)", "1:1 LeftParen 1:2 Star 2:1 RightParen"),
    (
        b"a_1$B $x1 \\b+c ;",
        "1:1 a_1$B 1:7 $x1 1:11 b+c 1:16 Semicolon",
    ),
    (b"\\module module", "1:1 module 1:9 module/6/6/true"),
    (b"endmodule endmodules", "1:1 Endmodule 1:11 endmodules"),
    (b"always xor If", "1:1 Always 1:8 Xor 1:12 If"),
    // The longest operator.
    (b"a>>>b", "1:1 a 1:2 ArithmeticShiftRight 1:5 b"),
    (b"<<<<=", "1:1 ArithmeticShiftLeft 1:4 LessEqual"),
    (b"====", "1:1 CaseEqual 1:4 Equal"),
    (b"!==!=!", "1:1 CaseUnequal 1:4 LogicalUnequal 1:6 Bang"),
    (
        b"~&~|~^^~~",
        "1:1 TildeAnd 1:3 TildeOr 1:5 TildeCaret 1:7 CaretTilde 1:9 Tilde",
    ),
    (b"***", "1:1 StarStar 1:3 Star"),
    (b"&&&|||", "1:1 AndAnd 1:3 Ampersand 1:4 OrOr 1:6 Bar"),
    (
        b"->-:+:-+:",
        "1:1 Arrow 1:3 MinusColon 1:5 PlusColon 1:7 Minus 1:8 PlusColon",
    ),
    (
        b"[](){},.:#@/%?<>",
        "1:1 LeftBracket 1:2 RightBracket 1:3 LeftParen 1:4 RightParen 1:5 LeftBrace 1:6 RightBrace 1:7 Comma 1:8 Dot 1:9 Colon 1:10 Hash 1:11 At 1:12 Slash 1:13 Percent 1:14 Question 1:15 Less 1:16 Greater",
    ),
    // Numbers.
    (
        b"1_0 0 4'b1_0 'h1F",
        "1:1 32~10 1:5 32~0 1:7 4'2 1:14 32~31",
    ),
    (b"4294967296 4'bx1", "1:1 64~4294967296 1:12 4'x"),
    (b"1 .5", "1:1 32~1 1:3 Dot 1:4 32~5"),
    (
        b"1.a 1en 12ab",
        "1:1 32~1 1:2 Dot 1:3 a 1:5 32~1 1:6 en 1:9 32~12 1:11 ab",
    ),
    (
        b"x==4'd5?a:b",
        "1:1 x 1:2 LogicalEqual 1:4 4'5 1:8 Question 1:9 a 1:10 Colon 1:11 b",
    ),
    (b"4'd??", "1:1 4'x 1:5 Question"),
    (b"4'b1?", "1:1 4'x"),
    (b"4'b1g", "1:1 4'1 1:5 g"),
    (b"#5 'h1", "1:1 Hash 1:2 5'1"),
    (b"#5\n'h\n1", "1:1 Hash 1:2 5'1"),
    (b"#5 /**/ 'h1", "1:1 Hash 1:2 32~5 1:9 32~1"),
    (b"4'sb1 4 'SD 1", "1:1 4'1 1:7 4'1"),
    // Strings.
    (b"\"a\\\"b\\\\\\101\\060\\60c\"", "1:1 \"a\"b\\A00c\""),
    (b"\"//\" \"/*\"", "1:1 \"//\" 1:6 \"/*\""),
    // Macros.
    (b"`define A x y\n`A `A", "2:1 x 2:1 y 2:4 x 2:4 y"),
    (b"`define A\n`A", ""),
    (b"`define A x // `A\ny", "2:1 y"),
    (b"`define A x // \\\ny", "2:1 y"),
    (b"`define A \"//\" \\\n b\n`A", "3:1 \"//\" 3:1 b"),
    (b"`define A /* // */ x\n`A", "2:1 x"),
    (b"`define A 1\n`define A 2\n`A", "3:1 32~2"),
    (
        b"`define B `A;\n`define A x\n`B `\\A ",
        "3:1 x 3:1 Semicolon 3:4 x",
    ),
    (b"`define B 4\n`B 'h1", "2:1 32~4 2:4 32~1"),
    (b"`define module m\n`module", "2:1 m"),
    (b"`define A /* c */ 3\n`undef A\n`ifdef A x `endif", ""),
    (b"`define /* c */ A 3\n`A", "2:1 32~3"),
    (b"`define A \\\n x\n`A", "3:1 x"),
    (b"`define A x \\\r\n y\r\n`A", "3:1 x 3:1 y"),
    // Conditionals.
    (b"`ifdef A\n x `else y `endif", "2:10 y"),
    (b"`ifndef A\n x `else y `endif", "2:2 x"),
    (
        b"`define A\n`ifdef A x `elsif B y `else z `endif w",
        "2:10 x 2:38 w",
    ),
    (
        b"`define B\n`ifdef A x `elsif B y `elsif B v `else z `endif",
        "2:21 y",
    ),
    (
        b"`ifdef A `ifdef B x `else y `endif z `else w `endif",
        "1:44 w",
    ),
    (
        b"`ifdef A \" \x00 `foo 8'hg // `endif\n /* `endif */ `include `endif z",
        "2:31 z",
    ),
    (b"`ifdef /* c */\n A `endif x", "2:11 x"),
    (b"`ifdef A `\\b//c `endif x\n`endif y", "2:8 y"),
    (b"`ifdef A `\\endif `endif x", "1:25 x"),
    // Settings.
    (
        b"`timescale 1 ns // c\n/ 10ps module",
        "2:8 module/6/4/true",
    ),
    (
        b"`timescale 100s/100s module `resetall module",
        "1:22 module/17/17/true 1:39 module/6/6/true",
    ),
    (
        b"`timescale 10us/1fs\n`default_nettype none\nmodule `default_nettype wire module",
        "3:1 module/10/0/false 3:30 module/10/0/true",
    ),
    (
        b"`define M module\n`M `timescale 1s/1ms `M",
        "2:1 module/6/6/true 2:22 module/15/12/true",
    ),
    (b"`resetall x", "1:11 x"),
    (b"`ifdef A `timescale x `endif x", "1:30 x"),
];

#[test]
fn texts(rt: HostRuntime) -> Result<(), Fail> {
    for (text, line) in &READ {
        check(&rt, rt.alloc(), &[*text], line)?;
    }
    Ok(())
}

// Texts with their faults.
static REFUSED: [(&[u8], &str); 78] = [
    (b"/* a", "L5 1:1"),
    (b"a /* b\n * /", "L5 1:3"),
    (b"/*/", "L5 1:1"),
    (b"\"abc", "L5 1:1"),
    (b"x \"ab\ncd\"", "L5 1:3"),
    (b"\"a\tb\"", "L5 1:1"),
    (b"\"a\xffb\"", "L5 1:1"),
    (b"\"a\\", "L5 1:1"),
    (b"\"a\\\n\"", "L5 1:1"),
    (b"\"\\q", "L5 1:1"),
    (b"(* full", "L5 1:1"),
    (b"(* \x01", "L5 1:1"),
    (b"(* \x01 *)", "L1 1:4"),
    (b"8'hg", "L4 1:1"),
    (b"a = 65'h1", "L4 1:5"),
    (b"module top; reg [63:0] a = 65'h1; endmodule", "L4 1:28"),
    (b"module top; initial $display(\"ab", "L5 1:30"),
    (b"0'b1", "L4 1:1"),
    (b"1.5", "L4 1:1"),
    (b" 1e5", "L4 1:2"),
    (b"\n1E+5", "L4 2:1"),
    (b"4'b12", "L4 1:1"),
    (b"x 4'b1a", "L4 1:3"),
    (b"4'd5x", "L4 1:1"),
    (b"4'b;", "L4 1:1"),
    (b"4'b_1", "L4 1:1"),
    (b"18446744073709551616", "L4 1:1"),
    (b"4'q", "L1 1:2"),
    (b"'q", "L1 1:1"),
    (b"4 's1", "L1 1:3"),
    (b"\"a\\q\"", "L4 1:3"),
    (b"x \"\\400\"", "L4 1:4"),
    (b"\\ x", "L1 1:1"),
    (b"$ x", "L1 1:1"),
    (b"a\x00", "L1 1:2"),
    (b"\x80", "L1 1:1"),
    (b"a\n\xff", "L1 2:1"),
    (b"\x0b", "L1 1:1"),
    (b"\r\r\x1b", "L1 1:3"),
    (b"a ` b", "L1 1:3"),
    (b"`1", "L1 1:1"),
    (b"x `FOO", "L3 1:3"),
    (b"x `\\endif ", "L3 1:3"),
    (b"`ifdef A `\\b//c `endif x", "L2 1:1"),
    (b"`define A \"x\\\r\ny\"\n`A", "L5 3:1"),
    (b"`define A \"\\\r\" \\\r\n y\n`A", "L5 3:1"),
    (b"`define M(x) x", "L3 1:1"),
    (b"`define A `A\n`A", "L3 2:1"),
    (b"`define A `else\n x `A", "L3 2:4"),
    (b"`define A `define B\n`A", "L3 2:1"),
    (b"`define A `include\n`A", "L3 2:1"),
    (b"`define A 1\n`undef A\n`A", "L3 3:1"),
    (b"`define A x\n`define B `A 1.5\n `B", "L4 3:2"),
    (b"`define M /* x\ny `M", "L5 2:3"),
    (b"`define M \"a\\\nb\"\n`M", "L5 3:1"),
    (b"`define M \"a\n`M", "L5 2:1"),
    (b"`define A 8'hg 'q\n `A", "L4 2:2"),
    (b"`else", "L2 1:1"),
    (b" `endif", "L2 1:2"),
    (b"`elsif A", "L2 1:1"),
    (b"`ifdef A ", "L2 1:1"),
    (b"`ifndef A\n`ifdef B", "L2 1:1"),
    (b"`ifdef A `endif `ifdef B\n`ifdef C `endif", "L2 1:17"),
    (b"`ifdef A\n`else\n`else\n`endif", "L2 3:1"),
    (b"`ifdef A\n`else\n`elsif B\n`endif", "L2 3:1"),
    (b"`ifdef A\n`ifdef\n", "L2 2:1"),
    (b"`ifdef A /* ", "L5 1:10"),
    (b"`ifdef /* ", "L2 1:1"),
    (b"`include \"x\"", "L2 1:1"),
    (b"a `celldefine", "L2 1:3"),
    (b"`timescale 1ps/1ns", "L2 1:1"),
    (b"`timescale 2ns/1ns", "L2 1:1"),
    (b"`timescale 1ns 1ns", "L2 1:1"),
    (b"`timescale 1ns/1nsx", "L2 1:1"),
    (b"`define define x", "L2 1:1"),
    (b"`define\nA x", "L2 1:1"),
    (b"`undef", "L2 1:1"),
    (b"`default_nettype tri", "L2 1:1"),
];

#[test]
fn faults(rt: HostRuntime) -> Result<(), Fail> {
    for (text, line) in &REFUSED {
        check(&rt, rt.alloc(), &[*text], line)?;
    }
    Ok(())
}

#[test]
fn files(rt: HostRuntime) -> Result<(), Fail> {
    let alloc = rt.alloc();
    check(
        &rt,
        alloc,
        &[b"a `ifndef B b", b"c\n`endif d", b"e"],
        "1:1 a 1:13 b 2:1:1 c 2:2:8 d 3:1:1 e",
    )?;
    check(&rt, alloc, &[b"`define A x\n", b" `A"], "2:1:2 x")?;
    check(&rt, alloc, &[b"a", b" `ifdef A ", b"x"], "L2 2:1:2")?;
    check(&rt, alloc, &[b"`ifdef A ", b"`endif 'q", b"x"], "L1 2:1:8")
}

// So many copies of the part between a front and an end.
fn repeated(
    alloc: Global,
    front: &[u8],
    part: &[u8],
    count: usize,
    end: &[u8],
) -> Result<Vec<u8>, Fail> {
    let mut text = Vec::from_slice(alloc, front)?;
    for _ in 0..count {
        text.extend_from_slice(part)?;
    }
    text.extend_from_slice(end)?;
    Ok(text)
}

// Names and strings of the greatest length, and of one byte more.
#[test]
fn lengths(rt: HostRuntime) -> Result<(), Fail> {
    let alloc = rt.alloc();
    check_length(&rt, alloc, b" ", 1024, b"", "L2 1:1027")?;
    check_length(&rt, alloc, b" ", 1025, b"", "L6 1:2")?;
    check_length(&rt, alloc, b"$", 1023, b"", "L2 1:1026")?;
    check_length(&rt, alloc, b"$", 1024, b"", "L6 1:1")?;
    check_length(&rt, alloc, b"\\", 1024, b"", "L2 1:1027")?;
    check_length(&rt, alloc, b"\\", 1025, b"", "L6 1:1")?;
    check_length(&rt, alloc, b"`undef ", 1024, b"", "L2 1:1033")?;
    check_length(&rt, alloc, b"`undef ", 1025, b"", "L6 1:8")?;
    check_length(&rt, alloc, b"x`", 1025, b"", "L3 1:2")?;
    check_length(&rt, alloc, b"\"", 4096, b"\"", "L2 1:4100")?;
    check_length(&rt, alloc, b"x \"", 4097, b"\"", "L6 1:3")?;
    check_length(&rt, alloc, b"\"\\q", 4097, b"\"", "L4 1:2")
}

// A text of a front, so many letters, an end, a blank and an unbalanced directive.
fn check_length(
    rt: &impl Abort,
    alloc: Global,
    front: &[u8],
    count: usize,
    end: &[u8],
    line: &str,
) -> Result<(), Fail> {
    let mut text = repeated(alloc, front, b"a", count, end)?;
    text.extend_from_slice(b" `else")?;
    check(rt, alloc, &[text.as_slice()], line)
}

// A macro whose use is so deep: each macro of the text uses the one before it.
fn nested(alloc: Global, front: &str, each: &str, count: u32) -> Result<String, Fail> {
    let mut text = String::from_str(alloc, front)?;
    for k in 1..count {
        let before = k - 1;
        write!(text, "`define m{k} ")?;
        for letter in each.chars() {
            if letter == '.' {
                write!(text, "`m{before} ")?;
            }
        }
        text.push('\n')?;
    }
    Ok(text)
}

// 64 nested macros, and 65.
#[test]
fn depths(rt: HostRuntime) -> Result<(), Fail> {
    let alloc = rt.alloc();
    let mut text = nested(alloc, "`define m0 x\n", ".", 64)?;
    text.push_str(" `m63")?;
    check(&rt, alloc, &[text.as_bytes()], "65:2 x")?;
    let mut text = nested(alloc, "`define m0 x\n", ".", 65)?;
    text.push_str(" `m64")?;
    check(&rt, alloc, &[text.as_bytes()], "L3 66:2")
}

// 1,048,576 uses of macros and no more: 20 macros that each use the one before twice, used so that
// each use counts.
#[test]
fn uses(rt: HostRuntime) -> Result<(), Fail> {
    let alloc = rt.alloc();
    let mut text = nested(alloc, "`define m0\n", "..", 20)?;
    text.push_str("`m19 `m0")?;
    check(&rt, alloc, &[text.as_bytes()], "")?;
    text.push_str(" `m0")?;
    check(&rt, alloc, &[text.as_bytes()], "L6 21:10")?;
    let mut text = nested(alloc, "`define m0\n", "..", 21)?;
    text.push_str("x `m20")?;
    check(&rt, alloc, &[text.as_bytes()], "L6 22:3")
}

// How many tokens a text has, if it is read.
fn count(alloc: Global, text: &[u8]) -> Option<usize> {
    let Ok(mut lexer) = Lexer::new(alloc) else {
        return None;
    };
    if text.len() > 100_000_000 || lexer.file(alloc, 1, text).is_err() {
        return None;
    }
    Some(lexer.tokens().len())
}

// 4,194,304 tokens and no more, a comment of 4,194,304 bytes, and as many bytes of attributes.
#[test]
fn tokens(rt: HostRuntime) -> Result<(), Fail> {
    let alloc = rt.alloc();
    let text = repeated(alloc, b"", b"a;", 2_097_152, b"")?;
    assert_eq!(&rt; count(alloc, &text), Some(4_194_304));
    check(&rt, alloc, &[text.as_slice(), b" ;"], "L6 2:1:2")?;
    let comment = repeated(alloc, b"/*", b"/ ", 2_097_150, b"*/")?;
    check(&rt, alloc, &[comment.as_slice()], "")?;
    let attributes = repeated(alloc, b"", b"(**)", 1_048_576, b"")?;
    check(&rt, alloc, &[attributes.as_slice()], "")
}

// The places before the first byte and behind the last, and a fault that is answered again.
#[test]
fn ends(rt: HostRuntime) -> Result<(), Fail> {
    let alloc = rt.alloc();
    let mut lexer = Lexer::new(alloc)?;
    assert!(&rt; lexer.file(alloc, 3, b"a\n").is_ok());
    assert!(&rt; lexer.file(alloc, 5, b"\n bc").is_ok());
    assert!(&rt; lexer.end().is_ok());
    assert!(&rt; lexer.file(alloc, 6, b"a 'q").is_err());
    let fault = LexFault::Refused(
        DesignFault::L1,
        Place {
            file: 6,
            line: 1,
            column: 3,
        },
    );
    assert_eq!(&rt; lexer.end(), Err(fault));
    assert_eq!(&rt; lexer.file(alloc, 7, b"/*"), Err(fault));
    assert_eq!(&rt; lexer.end(), Err(fault));
    Ok(())
}

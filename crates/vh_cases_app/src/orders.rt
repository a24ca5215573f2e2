use std::alloc::Global;
use std::process::Abort;
use std::test::Fail;
use vh_app::{Point, Script, ScriptFault, Vars, read_app};
use vh_app_lines::push_order;
use vh_base::{Answer, AppFault, Code, HandleNo, Order, Place, Reason, Seen, Short};

// The answer of the last order.
#[derive(Clone, Copy)]
enum Last {
    Null,
    Done,
    Handle(u64),
    Number(u64),
    Text(&'static [u8]),
    Refused(Code),
}

// The body of a procedure in a script with the variables x, y, z and me, and the order that comes
// after each answer, as it is printed. Behind the last one stands how the body ends.
type Row = (&'static [u8], &'static [(Last, &'static str)]);

static ROWS: [Row; 27] = [
    (b"", &[(Last::Null, "return"), (Last::Done, "return")]),
    // Orders, with their values turned into what the order needs.
    (
        b"x = by_name \"top.r\" null; y = by_name \"r\" x; by_name 7 y; by_name me \"a\";",
        &[
            (Last::Null, "by_name \"top.r\" null"),
            (Last::Handle(5), "by_name \"r\" h5"),
            (Last::Refused(Code::E2), "by_name \"7\" null"),
            (Last::Null, "by_name \"h3\" null"),
            (Last::Null, "return"),
        ],
    ),
    (
        b"x = print \"a\\\"b\\\\\"; print x; print null; y = remove me; print y; print 0;",
        &[
            (Last::Null, "print \"a\\\"b\\\\\""),
            (Last::Done, "print \"\""),
            (Last::Done, "print \"\""),
            (Last::Done, "remove h3"),
            (Last::Refused(Code::E12), "print \"E12\""),
            (Last::Done, "print \"0\""),
            (Last::Done, "return"),
        ],
    ),
    (
        b"register cbEndOfCompile 5 0 proc p \"7\"; register cbValueChange me 0 proc q 18446744073709551615;",
        &[
            (Last::Null, "register cbEndOfCompile null 0 proc a.p 0"),
            (
                Last::Null,
                "register cbValueChange h3 0 proc a.q 18446744073709551615",
            ),
            (Last::Null, "return"),
        ],
    ),
    (
        b"remove x; remove 3; remove \"h3\"; remove obj; remove last; remove last;",
        &[
            (Last::Null, "remove null"),
            (Last::Null, "remove null"),
            (Last::Null, "remove null"),
            (Last::Null, "remove h8"),
            (Last::Handle(4), "remove h4"),
            (Last::Number(4), "remove null"),
            (Last::Null, "return"),
        ],
    ),
    // What is seen.
    (
        b"print obj; print me; print value; print index; print data; print time; print last;",
        &[
            (Last::Null, "print \"h8\""),
            (Last::Null, "print \"h3\""),
            (Last::Null, "print \"1x\""),
            (Last::Null, "print \"6\""),
            (Last::Null, "print \"9\""),
            (Last::Null, "print \"40\""),
            (Last::Text(b"l"), "print \"l\""),
            (Last::Null, "return"),
        ],
    ),
    // `me` is this word, also where a variable has the name.
    (
        b"me = by_name \"r\" null; remove me; set me = 4; print me;",
        &[
            (Last::Null, "by_name \"r\" null"),
            (Last::Handle(7), "remove h3"),
            (Last::Null, "print \"h3\""),
            (Last::Null, "return"),
        ],
    ),
    // A variable is set to a value of any kind; a sum is one of numbers.
    (
        b"set x = \"t\"; set y = x; print y; set y = obj; remove y; set y = null; print y;",
        &[
            (Last::Null, "print \"t\""),
            (Last::Null, "remove h8"),
            (Last::Null, "print \"\""),
            (Last::Null, "return"),
        ],
    ),
    (
        b"set x = 18446744073709551615 + 2; print x; set x = x + x; print x; set y = \"4\" + 3; print y;",
        &[
            (Last::Null, "print \"1\""),
            (Last::Null, "print \"2\""),
            (Last::Null, "print \"3\""),
            (Last::Null, "return"),
        ],
    ),
    (
        b"set x = me + index; print x; set x = value + null; print x;",
        &[
            (Last::Null, "print \"6\""),
            (Last::Null, "print \"0\""),
            (Last::Null, "return"),
        ],
    ),
    // A variable is set when its activation goes on.
    (
        b"x = by_name \"a\" null; y = by_name \"b\" x; print x;",
        &[
            (Last::Null, "by_name \"a\" null"),
            (Last::Handle(5), "by_name \"b\" h5"),
            (Last::Handle(6), "print \"h5\""),
            (Last::Null, "return"),
        ],
    ),
    // Tests.
    (
        b"if (x == null) { print \"a\"; } print \"b\";",
        &[
            (Last::Null, "print \"a\""),
            (Last::Null, "print \"b\""),
            (Last::Null, "return"),
        ],
    ),
    (
        b"if (x != null) { print \"a\"; } print \"b\";",
        &[(Last::Null, "print \"b\""), (Last::Null, "return")],
    ),
    (
        b"if (5 == \"5\") { print \"a\"; } else { print \"b\"; } if (5 == 5) { print \"c\"; } else { print \"d\"; }",
        &[
            (Last::Null, "print \"b\""),
            (Last::Null, "print \"c\""),
            (Last::Null, "return"),
        ],
    ),
    (
        b"if (me == 3) { print \"a\"; } if (me == me) { print \"b\"; } if (me == obj) { print \"c\"; }",
        &[(Last::Null, "print \"b\""), (Last::Null, "return")],
    ),
    (
        b"if (\"ab\" == \"ab\") { print \"a\"; } if (\"ab\" == \"abc\") { print \"b\"; } if (\"\" != null) { print \"c\"; }",
        &[
            (Last::Null, "print \"a\""),
            (Last::Null, "print \"c\""),
            (Last::Null, "return"),
        ],
    ),
    (
        b"x = remove null; y = remove null; if (x == y) { print \"a\"; } if (last == x) { print \"b\"; }",
        &[
            (Last::Null, "remove null"),
            (Last::Refused(Code::E1), "remove null"),
            (Last::Refused(Code::E2), "return"),
        ],
    ),
    (
        b"x = print 1; y = print 2; if (x == y) { print \"a\"; } if (x == null) { print \"b\"; }",
        &[
            (Last::Null, "print \"1\""),
            (Last::Done, "print \"2\""),
            (Last::Done, "print \"a\""),
            (Last::Done, "return"),
        ],
    ),
    // An `else` is that of the `if` before it.
    (
        b"if (x == 0) { if (x == null) { print 1; } } else { print 2; } print 3;",
        &[
            (Last::Null, "print \"2\""),
            (Last::Null, "print \"3\""),
            (Last::Null, "return"),
        ],
    ),
    (
        b"if (x == null) { if (x == 0) { print 1; } else { print 2; if (y == 0) { } print 4; } } else { print 3; }",
        &[
            (Last::Null, "print \"2\""),
            (Last::Null, "print \"4\""),
            (Last::Null, "return"),
        ],
    ),
    (b"if (x == 0) { } else { }", &[(Last::Null, "return")]),
    // A `while` tests before its body, and each test is a pass.
    (
        b"set x = 0; while (x != 3) { print x; set x = x + 1; } print \"e\";",
        &[
            (Last::Null, "pass"),
            (Last::Null, "print \"0\""),
            (Last::Done, "pass"),
            (Last::Done, "print \"1\""),
            (Last::Done, "pass"),
            (Last::Done, "print \"2\""),
            (Last::Done, "pass"),
            (Last::Done, "print \"e\""),
            (Last::Done, "return"),
        ],
    ),
    (
        b"while (1 == 2) { print x; } print \"e\";",
        &[
            (Last::Null, "pass"),
            (Last::Null, "print \"e\""),
            (Last::Null, "return"),
        ],
    ),
    (
        b"while (1 == 1) { }",
        &[
            (Last::Null, "pass"),
            (Last::Null, "pass"),
            (Last::Null, "pass"),
            (Last::Null, "pass"),
        ],
    ),
    (
        b"set x = 2; while (x != 4) { set y = 0; while (y != 1) { print x; set y = 1; } set x = x + 1; } print y;",
        &[
            (Last::Null, "pass"),
            (Last::Null, "pass"),
            (Last::Null, "print \"2\""),
            (Last::Done, "pass"),
            (Last::Done, "pass"),
            (Last::Done, "pass"),
            (Last::Done, "print \"3\""),
            (Last::Done, "pass"),
            (Last::Done, "pass"),
            (Last::Done, "print \"1\""),
            (Last::Done, "return"),
        ],
    ),
    // The variable that waits is set before the test.
    (
        b"x = print 1; while (x == null) { print 2; return; } if (x != null) { print 3; return; } print 4;",
        &[
            (Last::Null, "print \"1\""),
            (Last::Done, "pass"),
            (Last::Done, "print \"3\""),
            (Last::Done, "return"),
            (Last::Done, "return"),
        ],
    ),
    (
        b"print 1; return; print 2;",
        &[(Last::Null, "print \"1\""), (Last::Done, "return")],
    ),
];

fn short(rt: &impl Abort, alloc: Global, bytes: &[u8]) -> Short {
    Short::new(alloc, bytes)
        .expect(rt, "memory")
        .expect(rt, "a short text")
}

fn answer_of(rt: &impl Abort, alloc: Global, last: Last) -> Answer {
    match last {
        Last::Null => Answer::Null,
        Last::Done => Answer::Done,
        Last::Handle(number) => Answer::Handle(HandleNo::new(number)),
        Last::Number(number) => Answer::Number(number),
        Last::Text(bytes) => Answer::Text(short(rt, alloc, bytes)),
        Last::Refused(code) => Answer::Refused(code),
    }
}

// The next order after an answer, as it is printed; a pass and a return by their words.
fn next_text(
    rt: &impl Abort,
    alloc: Global,
    script: &Script,
    at: &mut Point,
    vars: &mut Vars,
    last: Last,
) -> String {
    let seen = Seen {
        reason: Reason::CbValueChange,
        time: 40,
        object: Some(HandleNo::new(8)),
        me: Some(HandleNo::new(3)),
        value: Some(short(rt, alloc, b"1x")),
        index: Some(6),
        user_data: 9,
        step: 0,
        last: answer_of(rt, alloc, last),
    };
    let order = script.next(alloc, at, vars, &seen).expect(rt, "memory");
    let mut text = String::new(alloc);
    push_order(&mut text, &order).expect(rt, "memory");
    text
}

// The script of a text that is one.
fn script_of(rt: &impl Abort, alloc: Global, text: &[u8]) -> Script {
    assert!(rt; text.len() < 2_147_483_648);
    let earlier: Vec<Short> = Vec::new(alloc);
    read_app(alloc, text, &earlier).expect(rt, "a script")
}

// A script with a procedure of this body between two others.
fn with_body(rt: &impl Abort, alloc: Global, body: &[u8]) -> Script {
    let mut text = Vec::new(alloc);
    text.extend_from_slice(
        b"app a; var x, y; var z, me; startup { print \"s\"; } proc before { print 0; } proc it {",
    ).expect(rt, "memory");
    text.extend_from_slice(body).expect(rt, "memory");
    text.extend_from_slice(b"} proc after { print 9; }")
        .expect(rt, "memory");
    script_of(rt, alloc, text.as_slice())
}

#[test]
fn a_procedure_gives_its_orders(rt: HostRuntime) -> Result<(), Fail> {
    for (body, wanted) in &ROWS {
        let script = with_body(&rt, rt.alloc(), body);
        let mut vars = Vars::new(rt.alloc(), &script).expect(&rt, "memory");
        let mut at = script.procedure(b"it").ok_or("no procedure")?;
        for (last, want) in *wanted {
            let text = next_text(&rt, rt.alloc(), &script, &mut at, &mut vars, *last);
            assert_eq!(rt; text.as_str(), *want);
        }
    }
    Ok(())
}

// What starts in a script: its startup, where no name is given, or a procedure.
static STARTS: [(&[u8], &[u8], &[&str]); 7] = [
    (b"app a;", b"", &["return"]),
    (b"app a; startup { }", b"", &["return"]),
    (
        b"app a; startup { print \"s\"; register cbEndOfCompile null 0 proc q 1; } proc p { print 1; }",
        b"",
        &[
            "print \"s\"",
            "register cbEndOfCompile null 0 proc a.q 1",
            "return",
        ],
    ),
    (
        b"app a; startup { print \"s\"; } proc p { print 1; }",
        b"p",
        &["print \"1\"", "return"],
    ),
    (
        b"app a; proc p { while (1 == 0) { } } proc q { print 2; }",
        b"q",
        &["print \"2\"", "return"],
    ),
    (
        b"app a; proc p { if (1 == 0) { print 1; } else { } } proc q { print 2; }",
        b"p",
        &["return", "return"],
    ),
    (
        b"app a; proc p { } proc pp { print 3; }",
        b"pp",
        &["print \"3\"", "return"],
    ),
];

#[test]
fn a_script_starts_at_its_bodies(rt: HostRuntime) -> Result<(), Fail> {
    for (text, name, wanted) in &STARTS {
        let script = script_of(&rt, rt.alloc(), text);
        assert_eq!(rt; script.name().bytes(), b"a".as_slice());
        assert!(rt; script.procedure(b"r").is_none());
        let mut vars = Vars::new(rt.alloc(), &script).expect(&rt, "memory");
        let mut at = if name.is_empty() {
            script.startup()
        } else {
            script.procedure(name).ok_or("no procedure")?
        };
        for want in *wanted {
            let text = next_text(&rt, rt.alloc(), &script, &mut at, &mut vars, Last::Null);
            assert_eq!(rt; text.as_str(), *want);
        }
    }
    Ok(())
}

// Which of two activations goes on, the answer of its last order, and its next order.
static TWO: [(bool, Last, &str); 6] = [
    (true, Last::Null, "by_name \"top.r\" null"),
    // The order of the second is given while the first still waits for its answer: the
    // variable is null.
    (false, Last::Null, "remove null"),
    (true, Last::Handle(5), "print \"x\""),
    (false, Last::Null, "remove h5"),
    (true, Last::Handle(6), "return"),
    (false, Last::Handle(6), "return"),
];

#[test]
fn a_variable_is_set_when_its_activation_goes_on(rt: HostRuntime) -> Result<(), Fail> {
    let text = b"app a; var r;
        proc p { r = by_name \"top.r\" null; print \"x\"; } proc q { remove r; remove r; }"
        .as_slice();
    let script = script_of(&rt, rt.alloc(), text);
    let mut vars = Vars::new(rt.alloc(), &script).expect(&rt, "memory");
    let mut first = script.procedure(b"p").ok_or("no procedure")?;
    let mut second = script.procedure(b"q").ok_or("no procedure")?;
    for (is_first, last, want) in &TWO {
        let text = if *is_first {
            next_text(&rt, rt.alloc(), &script, &mut first, &mut vars, *last)
        } else {
            next_text(&rt, rt.alloc(), &script, &mut second, &mut vars, *last)
        };
        assert_eq!(rt; text.as_str(), *want);
    }
    Ok(())
}

// The fault of a text behind a script called b, and its line and column.
static FAULTS: [(&[u8], AppFault, u32, u32); 4] = [
    (b"app b;", AppFault::A4, 1, 5),
    (b"app a;\n proc p { x = print 1; }", AppFault::A2, 2, 11),
    (b"app a; proc p { frob 1; }", AppFault::A3, 1, 17),
    (b"app a; proc p { print \"x; }", AppFault::A1, 1, 23),
];

#[test]
fn a_refused_text_has_its_fault(rt: HostRuntime) -> Result<(), Fail> {
    let mut earlier = Vec::new(rt.alloc());
    earlier
        .push(short(&rt, rt.alloc(), b"b"))
        .expect(&rt, "memory");
    for (text, fault, line, column) in &FAULTS {
        let place = Place {
            file: 0,
            line: *line,
            column: *column,
        };
        let refusal = match read_app(rt.alloc(), text, &earlier) {
            Ok(_) => return Err("a script".into()),
            Err(refusal) => refusal,
        };
        assert_eq!(rt; refusal, ScriptFault::Refused(*fault, place));
    }
    Ok(())
}

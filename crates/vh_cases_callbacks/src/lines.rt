use std::alloc::Global;
use std::process::Abort;
use std::test::Fail;
use vh_app_lines::{push_answer, push_order};
use vh_base::{
    Answer, BodyName, Code, Format, HandleNo, Mode, Order, ProcName, Property, Reason, Relation,
    Short, SystfKind,
};

// How a row writes an order without texts; a handle is its number.
#[derive(Clone, Copy)]
enum Plain {
    ByIndex(Option<u64>, u64),
    Handle(Relation, Option<u64>),
    Iterate(Relation, Option<u64>),
    Scan(Option<u64>),
    Free(Option<u64>),
    Compare(Option<u64>, Option<u64>),
    Get(Property, Option<u64>),
    GetStr(Property, Option<u64>),
    GetValue(Option<u64>, Format),
    Cancel(Option<u64>),
    GetTime,
    Remove(Option<u64>),
    CbInfo(Option<u64>),
    ChkError,
    Control(bool),
    SetData(u64),
    Pass,
    Return,
}

// How a row writes a procedure: its script and its name.
#[derive(Clone, Copy)]
struct Procedure(&'static str, &'static str);

// How a row writes what a callback calls.
#[derive(Clone, Copy)]
enum Called {
    Proc(Procedure),
    Native(&'static str),
}

// How a row writes an order with texts.
#[derive(Clone, Copy)]
enum Texts {
    ByName(&'static str, Option<u64>),
    PutValue(Option<u64>, Format, &'static str, Mode, u64, bool),
    Register(Reason, Option<u64>, u64, Called, u64),
    RegisterSystf(SystfKind, &'static str, u64, Procedure, Option<Procedure>),
    Print(&'static str),
}

fn handle(number: Option<u64>) -> Option<HandleNo> {
    match number {
        Some(number) => Some(HandleNo::new(number)),
        None => None,
    }
}

fn short(rt: &impl Abort, alloc: Global, text: &str) -> Short {
    Short::new(alloc, text.as_bytes())
        .expect(rt, "memory")
        .expect(rt, "a row's text is short")
}

fn made_procedure(rt: &impl Abort, alloc: Global, written: Procedure) -> ProcName {
    ProcName {
        app: short(rt, alloc, written.0),
        name: short(rt, alloc, written.1),
    }
}

fn body(rt: &impl Abort, alloc: Global, written: Called) -> BodyName {
    match written {
        Called::Proc(written) => BodyName::Proc(made_procedure(rt, alloc, written)),
        Called::Native(name) => BodyName::Native(short(rt, alloc, name)),
    }
}

fn plain_order(written: Plain) -> Order {
    match written {
        Plain::ByIndex(h, n) => Order::ByIndex { h: handle(h), n },
        Plain::Handle(relation, h) => Order::Handle {
            relation,
            h: handle(h),
        },
        Plain::Iterate(relation, h) => Order::Iterate {
            relation,
            h: handle(h),
        },
        Plain::Scan(h) => Order::Scan { h: handle(h) },
        Plain::Free(h) => Order::Free { h: handle(h) },
        Plain::Compare(a, b) => Order::Compare {
            a: handle(a),
            b: handle(b),
        },
        Plain::Get(property, h) => Order::Get {
            property,
            h: handle(h),
        },
        Plain::GetStr(property, h) => Order::GetStr {
            property,
            h: handle(h),
        },
        Plain::GetValue(h, format) => Order::GetValue {
            h: handle(h),
            format,
        },
        Plain::Cancel(h) => Order::Cancel { h: handle(h) },
        Plain::GetTime => Order::GetTime,
        Plain::Remove(h) => Order::Remove { h: handle(h) },
        Plain::CbInfo(h) => Order::CbInfo { h: handle(h) },
        Plain::ChkError => Order::ChkError,
        Plain::Control(stop) => Order::Control { stop },
        Plain::SetData(n) => Order::SetData { n },
        Plain::Pass => Order::Pass,
        Plain::Return => Order::Return,
    }
}

fn text_order(rt: &impl Abort, alloc: Global, written: Texts) -> Order {
    match written {
        Texts::ByName(text, scope) => Order::ByName {
            text: short(rt, alloc, text),
            scope: handle(scope),
        },
        Texts::PutValue(h, format, text, mode, time, event) => Order::PutValue {
            h: handle(h),
            format,
            text: short(rt, alloc, text),
            mode,
            time,
            event,
        },
        Texts::Register(reason, h, time, called, n) => Order::Register {
            reason,
            h: handle(h),
            time,
            body: body(rt, alloc, called),
            n,
        },
        Texts::RegisterSystf(kind, text, n, calltf, compiletf) => Order::RegisterSystf {
            kind,
            text: short(rt, alloc, text),
            n,
            calltf: made_procedure(rt, alloc, calltf),
            compiletf: optional(rt, alloc, compiletf),
        },
        Texts::Print(text) => Order::Print {
            text: short(rt, alloc, text),
        },
    }
}

fn optional(rt: &impl Abort, alloc: Global, written: Option<Procedure>) -> Option<ProcName> {
    match written {
        Some(written) => Some(made_procedure(rt, alloc, written)),
        None => None,
    }
}

fn printed(alloc: Global, order: &Order) -> Result<String, Fail> {
    let mut line = String::from_str(alloc, "0 do c1 ")?;
    push_order(&mut line, order)?;
    Ok(line)
}

// An order without texts, and the line up to its answer.
static PLAIN: [(Plain, &'static str); 26] = [
    (Plain::ByIndex(Some(2), 3), "0 do c1 by_index h2 3"),
    (
        Plain::Handle(Relation::VpiSysTfCall, None),
        "0 do c1 handle vpiSysTfCall null",
    ),
    (
        Plain::Handle(Relation::VpiParent, Some(9)),
        "0 do c1 handle vpiParent h9",
    ),
    (
        Plain::Iterate(Relation::VpiNet, Some(1)),
        "0 do c1 iterate vpiNet h1",
    ),
    (
        Plain::Iterate(Relation::VpiModule, None),
        "0 do c1 iterate vpiModule null",
    ),
    (Plain::Scan(Some(3)), "0 do c1 scan h3"),
    (Plain::Free(Some(0)), "0 do c1 free h0"),
    (Plain::Free(None), "0 do c1 free null"),
    (Plain::Compare(Some(1), Some(20)), "0 do c1 compare h1 h20"),
    (Plain::Compare(None, Some(1)), "0 do c1 compare null h1"),
    (
        Plain::Get(Property::VpiSize, Some(5)),
        "0 do c1 get vpiSize h5",
    ),
    (
        Plain::GetStr(Property::VpiFullName, Some(u64::MAX)),
        "0 do c1 get_str vpiFullName h18446744073709551615",
    ),
    (
        Plain::GetValue(Some(2), Format::VpiBinStrVal),
        "0 do c1 get_value h2 vpiBinStrVal",
    ),
    (
        Plain::GetValue(None, Format::VpiVectorVal),
        "0 do c1 get_value null vpiVectorVal",
    ),
    (Plain::Cancel(Some(4)), "0 do c1 cancel h4"),
    (Plain::GetTime, "0 do c1 get_time"),
    (Plain::Remove(Some(4)), "0 do c1 remove h4"),
    (Plain::Remove(None), "0 do c1 remove null"),
    (Plain::CbInfo(Some(4)), "0 do c1 cb_info h4"),
    (Plain::ChkError, "0 do c1 chk_error"),
    (Plain::Control(false), "0 do c1 control finish"),
    (Plain::Control(true), "0 do c1 control stop"),
    (Plain::SetData(9), "0 do c1 set_data 9"),
    (
        Plain::SetData(u64::MAX),
        "0 do c1 set_data 18446744073709551615",
    ),
    (Plain::Pass, "0 do c1 pass"),
    (Plain::Return, "0 do c1 return"),
];

#[test]
fn orders_without_texts(rt: HostRuntime) -> Result<(), Fail> {
    for &(written, expected) in &PLAIN {
        let line = printed(rt.alloc(), &plain_order(written))?;
        assert_eq!(rt; line.as_bytes(), expected.as_bytes(), "{expected}");
    }
    Ok(())
}

// An order with texts, and the line up to its answer.
static TEXTS: [(Texts, &'static str); 20] = [
    (
        Texts::ByName("top.r", None),
        r#"0 do c1 by_name "top.r" null"#,
    ),
    (
        Texts::ByName("q[2]", Some(7)),
        r#"0 do c1 by_name "q[2]" h7"#,
    ),
    (
        Texts::PutValue(
            Some(1),
            Format::VpiBinStrVal,
            "1",
            Mode::VpiNoDelay,
            0,
            false,
        ),
        r#"0 do c1 put_value h1 vpiBinStrVal "1" vpiNoDelay 0"#,
    ),
    (
        Texts::PutValue(None, Format::VpiBinStrVal, "0", Mode::VpiNoDelay, 0, false),
        r#"0 do c1 put_value null vpiBinStrVal "0" vpiNoDelay 0"#,
    ),
    (
        Texts::PutValue(
            Some(1),
            Format::VpiBinStrVal,
            "1",
            Mode::VpiInertialDelay,
            5,
            true,
        ),
        r#"0 do c1 put_value h1 vpiBinStrVal "1" vpiInertialDelay 5 event"#,
    ),
    (
        Texts::PutValue(
            Some(1),
            Format::VpiHexStrVal,
            "",
            Mode::VpiReleaseFlag,
            0,
            true,
        ),
        r#"0 do c1 put_value h1 vpiHexStrVal "" vpiReleaseFlag 0 event"#,
    ),
    (
        Texts::Register(
            Reason::CbValueChange,
            Some(1),
            0,
            Called::Proc(Procedure("a", "p4")),
            4,
        ),
        "0 do c1 register cbValueChange h1 0 proc a.p4 4",
    ),
    (
        Texts::Register(
            Reason::CbEndOfCompile,
            None,
            0,
            Called::Proc(Procedure("a", "init")),
            0,
        ),
        "0 do c1 register cbEndOfCompile null 0 proc a.init 0",
    ),
    (
        Texts::Register(Reason::CbAfterDelay, None, 5, Called::Native("once"), 0),
        "0 do c1 register cbAfterDelay null 5 native once 0",
    ),
    (
        Texts::Register(
            Reason::CbNextSimTime,
            None,
            0,
            Called::Native("my native"),
            1,
        ),
        r#"0 do c1 register cbNextSimTime null 0 native "my native" 1"#,
    ),
    (
        Texts::Register(
            Reason::CbForce,
            Some(3),
            0,
            Called::Proc(Procedure("a.b", "_X9")),
            0,
        ),
        r#"0 do c1 register cbForce h3 0 proc "a.b"._X9 0"#,
    ),
    (
        Texts::Register(
            Reason::CbRelease,
            Some(3),
            0,
            Called::Proc(Procedure("A_0z", "9p")),
            0,
        ),
        r#"0 do c1 register cbRelease h3 0 proc A_0z."9p" 0"#,
    ),
    (
        Texts::Register(Reason::CbReadOnlySynch, None, 2, Called::Native(""), 0),
        r#"0 do c1 register cbReadOnlySynch null 2 native "" 0"#,
    ),
    (
        Texts::Register(Reason::CbReadWriteSynch, None, 2, Called::Native("a$b"), 0),
        r#"0 do c1 register cbReadWriteSynch null 2 native "a$b" 0"#,
    ),
    (
        Texts::RegisterSystf(SystfKind::Func, "$id", 64, Procedure("a", "tw"), None),
        r#"0 do c1 register_systf func "$id" 64 calltf a.tw"#,
    ),
    (
        Texts::RegisterSystf(
            SystfKind::Task,
            "$t",
            0,
            Procedure("a", "tw"),
            Some(Procedure("a", "tc")),
        ),
        r#"0 do c1 register_systf task "$t" 0 calltf a.tw compiletf a.tc"#,
    ),
    (Texts::Print("p3"), r#"0 do c1 print "p3""#),
    (Texts::Print(""), r#"0 do c1 print """#),
    (
        Texts::Print("a\"b\\c\n\t ~"),
        r#"0 do c1 print "a\"b\\c\n\t ~""#,
    ),
    (
        Texts::Print("\0\r\x7f\u{e9}"),
        r#"0 do c1 print "\x00\x0d\x7f\xc3\xa9""#,
    ),
];

#[test]
fn orders_with_texts(rt: HostRuntime) -> Result<(), Fail> {
    for &(written, expected) in &TEXTS {
        let line = printed(rt.alloc(), &text_order(&rt, rt.alloc(), written))?;
        assert_eq!(rt; line.as_bytes(), expected.as_bytes(), "{expected}");
    }
    Ok(())
}

// How a row writes an answer.
#[derive(Clone, Copy)]
enum Given {
    Done,
    Null,
    Handle(u64),
    Number(u64),
    Text(&'static str),
    Refused(Code),
}

fn answer(rt: &impl Abort, alloc: Global, written: Given) -> Answer {
    match written {
        Given::Done => Answer::Done,
        Given::Null => Answer::Null,
        Given::Handle(number) => Answer::Handle(HandleNo::new(number)),
        Given::Number(n) => Answer::Number(n),
        Given::Text(text) => Answer::Text(short(rt, alloc, text)),
        Given::Refused(code) => Answer::Refused(code),
    }
}

// An answer, and its text.
static ANSWERS: [(Given, &'static str); 12] = [
    (Given::Done, "ok"),
    (Given::Null, "null"),
    (Given::Handle(0), "h0"),
    (Given::Handle(12), "h12"),
    (Given::Number(0), "0"),
    (Given::Number(u64::MAX), "18446744073709551615"),
    (Given::Text("xxxxxxxx"), "\"xxxxxxxx\""),
    (Given::Text("cbValueChange 4"), "\"cbValueChange 4\""),
    (Given::Text(""), "\"\""),
    (Given::Refused(Code::E1), "E1"),
    (Given::Refused(Code::E12), "E12"),
    (Given::Refused(Code::E16), "E16"),
];

#[test]
fn answers_of_each_kind(rt: HostRuntime) -> Result<(), Fail> {
    for &(written, expected) in &ANSWERS {
        let mut line = String::new(rt.alloc());
        push_answer(&mut line, &answer(&rt, rt.alloc(), written))?;
        assert_eq!(rt; line.as_bytes(), expected.as_bytes(), "{expected}");
    }
    Ok(())
}

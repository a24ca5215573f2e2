//! Faults with places that were found by hand, limits, trees, and the arguments of all routines.

use indexmap::IndexSet;
use std::alloc::Global;
use std::process::Abort;
use std::test::Fail;
use vh_app::ScriptFault;
use vh_app_lines::Routine;
use vh_app_script::{
    App, Atom, Block, Command, Env, MOST_LEVELS, Order, read_arguments, read_script, tokens,
};
use vh_base::{AppFault, Place, Short};

// What a text is answered: its fault, line and column, or nothing where it is a script. Memory is
// ample, and a script of the name `old` stands before.
fn fault_of(
    rt: &impl Abort,
    alloc: Global,
    text: &[u8],
) -> Result<Option<(AppFault, u32, u32)>, Fail> {
    assert!(rt; text.len() < 2_147_483_648);
    let mut earlier = Vec::new(alloc);
    if let Some(name) = Short::new(alloc, b"old").expect(rt, "memory") {
        earlier.push(name)?;
    }
    match read_script(alloc, text, &earlier) {
        Ok(_) => Ok(None),
        Err(ScriptFault::Refused(fault, Place { file, line, column })) => {
            assert_eq!(rt; file, 0);
            Ok(Some((fault, line, column)))
        }
        Err(ScriptFault::NoMemory) => {
            assert!(rt; false);
            Ok(None)
        }
    }
}

// A text, its fault, and where that stands.
type Row = (&'static [u8], AppFault, u32, u32);

// Each text is answered so.
fn are_refused(rt: &impl Abort, alloc: Global, rows: &[Row]) -> Result<(), Fail> {
    for (text, fault, line, column) in rows {
        let told = fault_of(rt, alloc, text)?;
        assert_eq!(rt; told, Some((*fault, *line, *column)), "{text:?}");
    }
    Ok(())
}

// No token begins there, or a number is too large.
static SPELLED: [Row; 12] = [
    (b"?", AppFault::A1, 1, 1),
    (b"app a;\n ~", AppFault::A1, 2, 2),
    (b"app a; \x0b", AppFault::A1, 1, 8),
    (b"app a; # \x80 \"\n\x80", AppFault::A1, 2, 1),
    (b"app a; proc p { print \"x; }", AppFault::A1, 1, 23),
    (b"app a; proc p { print \"x\\\"; }", AppFault::A1, 1, 23),
    (b"app a; proc p { print \"\\n\"; }", AppFault::A1, 1, 23),
    (b"app a; proc p { print \"\t\"; }", AppFault::A1, 1, 23),
    (b"app a; var x; proc p { set x = !1; }", AppFault::A1, 1, 32),
    (
        b"app a; var x; proc p { set x = 18446744073709551616; }",
        AppFault::A1,
        1,
        32,
    ),
    // The least of two faults at one place.
    (b"app 18446744073709551616;", AppFault::A1, 1, 5),
    // The first of two places.
    (b"app a; proc p { x ~", AppFault::A3, 1, 17),
];

// Tokens that no script has there.
static PARTS: [Row; 20] = [
    (b"", AppFault::A2, 1, 1),
    (b"# nothing\n", AppFault::A2, 2, 1),
    (b"app", AppFault::A2, 1, 4),
    (b"appa;", AppFault::A2, 1, 1),
    (b"app a", AppFault::A2, 1, 6),
    (b"app ;", AppFault::A2, 1, 5),
    (b"app a; }", AppFault::A2, 1, 8),
    (b"app a; var", AppFault::A2, 1, 11),
    (b"app a; var x", AppFault::A2, 1, 13),
    (b"app a; var x y;", AppFault::A2, 1, 14),
    (b"app a; var x,;", AppFault::A2, 1, 14),
    (b"app a; startup { } var x;", AppFault::A2, 1, 20),
    (b"app a; proc p { } startup { }", AppFault::A2, 1, 19),
    (b"app a; startup { } startup { }", AppFault::A2, 1, 20),
    (b"app a; startup { print \"x\" }", AppFault::A2, 1, 28),
    (b"app a; startup { print me; }", AppFault::A2, 1, 24),
    (b"app a; startup { print = \"x\"; }", AppFault::A2, 1, 24),
    (
        b"app a; var x; startup { register cbEndOfCompile x 0 proc p 0; }",
        AppFault::A2,
        1,
        49,
    ),
    (b"app a; proc p {", AppFault::A2, 1, 16),
    (b"app a; proc p { } }", AppFault::A2, 1, 19),
];

static COMMANDS: [Row; 20] = [
    (b"app a; proc p { ; }", AppFault::A2, 1, 17),
    (b"app a; proc p { print \"x\" }", AppFault::A2, 1, 27),
    (b"app a; proc p { print y; }", AppFault::A2, 1, 23),
    (b"app a; proc p { print 1 + 2; }", AppFault::A2, 1, 25),
    (b"app a; var x; proc p { x y; }", AppFault::A2, 1, 26),
    (b"app a; var x; proc p { x", AppFault::A2, 1, 25),
    (b"app a; var x; proc p { x == 1; }", AppFault::A2, 1, 26),
    (b"app a; proc p { frob = 1; }", AppFault::A2, 1, 17),
    (b"app a; proc p { set = 1; }", AppFault::A2, 1, 17),
    (
        b"app a; proc p { return # = is next\n = 1; }",
        AppFault::A2,
        1,
        17,
    ),
    (b"app a; var x; proc p { set y = 1; }", AppFault::A2, 1, 28),
    (b"app a; var x; proc p { set x 1; }", AppFault::A2, 1, 30),
    (
        b"app a; var x; proc p { set x = 1 + ; }",
        AppFault::A2,
        1,
        36,
    ),
    (b"app a; proc p { return 1; }", AppFault::A2, 1, 24),
    (b"app a; proc p { if 1 == 1 { } }", AppFault::A2, 1, 20),
    (b"app a; proc p { if (1 = 1) { } }", AppFault::A2, 1, 23),
    (
        b"app a; proc p { if (1 == 1) print \"x\"; }",
        AppFault::A2,
        1,
        29,
    ),
    (
        b"app a; proc p { if (1 == 1) { } else print \"x\"; }",
        AppFault::A2,
        1,
        38,
    ),
    (b"app a; proc p { while (1 == 1 { } }", AppFault::A2, 1, 31),
    (
        b"app a; proc p { register cbEndOfCompile null 0 native once 0; }",
        AppFault::A2,
        1,
        48,
    ),
];

// Words that are unknown, or of what isn't built.
static WORDS: [Row; 15] = [
    (b"app a; proc p { frob 1; }", AppFault::A3, 1, 17),
    (b"app a; proc p { frob", AppFault::A3, 1, 17),
    (b"app a; proc p { Print \"x\"; }", AppFault::A3, 1, 17),
    (b"app a; proc p { pass; }", AppFault::A3, 1, 17),
    (b"app a; proc p { set_data 1; }", AppFault::A3, 1, 17),
    (
        b"app a; proc p { register_systf task; }",
        AppFault::A3,
        1,
        17,
    ),
    (b"app a; var x; proc p { x = return; }", AppFault::A3, 1, 28),
    (b"app a; var x; proc p { x = x; }", AppFault::A3, 1, 28),
    (
        b"app a; proc p { while (1 == 1) { } else { } }",
        AppFault::A3,
        1,
        36,
    ),
    (b"app a; startup { a = print \"x\"; }", AppFault::A3, 1, 18),
    (b"app a; startup { set x = 1; }", AppFault::A3, 1, 18),
    (b"app a; startup { if (1 == 1) { } }", AppFault::A3, 1, 18),
    (
        b"app a; proc p { register cbForce null 0 proc p 0; }",
        AppFault::A3,
        1,
        26,
    ),
    (
        b"app a; proc p { register frob null 0 proc p 0; }",
        AppFault::A3,
        1,
        26,
    ),
    (
        b"app a; proc p { register cbValueChange null 0 proc p frob; }",
        AppFault::A2,
        1,
        54,
    ),
];

// Names that are there already.
static NAMES: [Row; 6] = [
    (b"app old;", AppFault::A4, 1, 5),
    (b"app a; var x; var x;", AppFault::A4, 1, 19),
    (b"app a; var x, y, x;", AppFault::A4, 1, 18),
    (b"app a; var x, x y;", AppFault::A4, 1, 15),
    (b"app a; proc p { } proc p { }", AppFault::A4, 1, 24),
    (
        b"app a; proc p { }\nproc q { }\nproc p ~",
        AppFault::A4,
        3,
        6,
    ),
];

#[test]
fn faults_stand_at_their_first_places(rt: HostRuntime) -> Result<(), Fail> {
    are_refused(&rt, rt.alloc(), &SPELLED)?;
    are_refused(&rt, rt.alloc(), &PARTS)?;
    are_refused(&rt, rt.alloc(), &COMMANDS)?;
    are_refused(&rt, rt.alloc(), &WORDS)?;
    are_refused(&rt, rt.alloc(), &NAMES)
}

static ACCEPTED: [&[u8]; 12] = [
    b"app a;",
    b"app older; var older; proc older { } # the end",
    b"\tapp\x0ca\r\n; startup\n{\n}\n",
    b"app a;startup{print\"x\";print 7;by_name\"t\"null;}proc p{print\"# none\";}",
    b"app app; var var, startup, proc; startup { } proc proc { var = print \"x\"; }",
    b"app a; var set, return, if; proc p { set=print 1; return # \n= print 2; if = print 3; return; }",
    b"app a; var x; proc p { set x = 18446744073709551615 + 007; set x = \"\" + null; }",
    b"app a; var x; proc p { x = print obj; print value; set x = index + data; remove me; }",
    b"app a; proc p { while (time != last) { } if (1 == \"1\") { } else { return; } }",
    b"app a; proc p { register cbStartOfSimulation 1 \"2\" proc nowhere null; }",
    b"app a; startup { register cbEndOfSimulation null 0 proc p 0; } proc p { }",
    b"app a; var print, null; proc p { print = print print; print null; }",
];

#[test]
fn scripts_are_accepted(rt: HostRuntime) -> Result<(), Fail> {
    for text in &ACCEPTED {
        let told = fault_of(&rt, rt.alloc(), text)?;
        assert_eq!(rt; told, None, "{text:?}");
    }
    Ok(())
}

// A text in which a part stands so many times.
fn repeated(
    alloc: Global,
    before: &[u8],
    part: &[u8],
    count: u32,
    behind: &[u8],
) -> Result<Vec<u8>, Fail> {
    let mut text = Vec::from_slice(alloc, before)?;
    for _ in 0..count {
        text.extend_from_slice(part)?;
    }
    text.extend_from_slice(behind)?;
    Ok(text)
}

// What stands before a part that is repeated, the part, what stands behind it, how many of the part
// a script has at most, and the column of the fault where it has one more.
type Limit = (&'static [u8], &'static [u8], &'static [u8], u32, u32);

static LIMITS: [Limit; 6] = [
    (b"app ", b"n", b";", 100, 5),
    (b"app a; var ", b"n", b";", 100, 12),
    (b"app a; proc ", b"n", b" { }", 100, 13),
    (
        b"app a; startup { register cbEndOfCompile null 0 proc ",
        b"n",
        b" 1; }",
        100,
        54,
    ),
    (b"app a; startup { print \"", b"x", b"\"; }", 255, 24),
    (b"app a; proc p { print \"", b"\\\"", b"\"; }", 255, 23),
];

fn is_limited(rt: &impl Abort, alloc: Global, limit: Limit) -> Result<(), Fail> {
    let (before, part, behind, most, column) = limit;
    let text = repeated(alloc, before, part, most, behind)?;
    let told = fault_of(rt, alloc, &text)?;
    assert_eq!(rt; told, None, "{before:?}");
    let longer = repeated(alloc, before, part, most.saturating_add(1), behind)?;
    let told = fault_of(rt, alloc, &longer)?;
    assert_eq!(rt; told, Some((AppFault::A5, 1, column)), "{before:?}");
    Ok(())
}

#[test]
fn names_and_texts_have_limits(rt: HostRuntime) -> Result<(), Fail> {
    for limit in &LIMITS {
        is_limited(&rt, rt.alloc(), *limit)?;
    }
    Ok(())
}

// Commands of all procedures count, nested ones too, and those of the startup don't.
#[test]
fn commands_have_a_limit(rt: HostRuntime) -> Result<(), Fail> {
    let before = b"app a; startup { print 1; } proc p { if (1 == 1) { print 2; } } proc q {";
    is_limited(
        &rt,
        rt.alloc(),
        (before, b"remove 1;", b" }", 65_534, 589_879),
    )
}

// A name of 101 bytes that is unknown is told by the lesser number.
#[test]
fn unknown_names_may_be_long(rt: HostRuntime) -> Result<(), Fail> {
    let routine = repeated(rt.alloc(), b"app a; proc p { ", b"n", 101, b" 1; }")?;
    let told = fault_of(&rt, rt.alloc(), &routine)?;
    assert_eq!(rt; told, Some((AppFault::A3, 1, 17)));
    let value = repeated(rt.alloc(), b"app a; proc p { print ", b"n", 101, b"; }")?;
    let told = fault_of(&rt, rt.alloc(), &value)?;
    assert_eq!(rt; told, Some((AppFault::A2, 1, 23)));
    Ok(())
}

// Blocks in each other: 64 are a script, of which a procedure's is the first; the 65th is refused
// at its brace, and another token there as one that could not stand there.
#[test]
fn blocks_nest_to_a_limit(rt: HostRuntime) -> Result<(), Fail> {
    let open = repeated(rt.alloc(), b"app a; proc p { ", b"if (1 == 1) {", 63, b"")?;
    let whole = repeated(rt.alloc(), &open, b"}", 64, b"")?;
    let told = fault_of(&rt, rt.alloc(), &whole)?;
    assert_eq!(rt; told, None);
    let deeper = repeated(rt.alloc(), &open, b"if (1 == 1) {", 1, b"")?;
    let told = fault_of(&rt, rt.alloc(), &deeper)?;
    assert_eq!(rt; told, Some((AppFault::A5, 1, 848)));
    let other = repeated(rt.alloc(), &open, b"if (1 == 1) ;", 1, b"")?;
    let told = fault_of(&rt, rt.alloc(), &other)?;
    assert_eq!(rt; told, Some((AppFault::A2, 1, 848)));
    Ok(())
}

// A script of a megabyte that is one `if`, and one that never closes.
#[test]
fn a_megabyte_is_read(rt: HostRuntime) -> Result<(), Fail> {
    let whole = repeated(
        rt.alloc(),
        b"app a; proc p { if (1 == 1) {",
        b" ",
        1_048_540,
        b"} }",
    )?;
    let told = fault_of(&rt, rt.alloc(), &whole)?;
    assert_eq!(rt; told, None);
    let open = repeated(rt.alloc(), b"app a; proc p ", b"{", 1_048_000, b"")?;
    let told = fault_of(&rt, rt.alloc(), &open)?;
    assert_eq!(rt; told, Some((AppFault::A2, 1, 16)));
    Ok(())
}

// A script cut at each of its bytes.
#[test]
fn a_cut_script_is_refused(rt: HostRuntime) -> Result<(), Fail> {
    let text = b"app a;var r;proc p{r=print \"\\\"\";if(r==1){}}".as_slice();
    for n in 0..text.len() {
        let told = fault_of(&rt, rt.alloc(), &text[..n])?;
        // The first 6 and 12 bytes are scripts without procedures.
        assert_eq!(rt; told.is_none(), n == 6 || n == 12, "{n}");
    }
    let told = fault_of(&rt, rt.alloc(), text)?;
    assert!(rt; told.is_none());
    Ok(())
}

fn is_name(text: Option<&&[u8]>, name: &[u8]) -> bool {
    match text {
        Some(own) => *own == name,
        None => false,
    }
}

// `y = by_name TEXT x`
fn is_asked(command: &Command<'_>) -> bool {
    match command {
        Command::Ask(Some(1), asked) => match asked.get() {
            Order::ByName { text, scope } => {
                matches!(text, Atom::Text(_)) && matches!(scope, Atom::Variable(0))
            }
            _ => false,
        },
        _ => false,
    }
}

// `set x = y + 7`
fn is_sum(command: &Command<'_>) -> bool {
    match command {
        Command::Set(0, first, Some(second)) => {
            matches!(first, Atom::Variable(1)) && matches!(second, Atom::Number(7))
        }
        _ => false,
    }
}

// `while (..) { }`
fn is_loop(command: &Command<'_>) -> bool {
    match command {
        Command::While { body, .. } => body.is_empty(),
        _ => false,
    }
}

// `if (obj != null) { .. } else { .. }`
fn is_choice(command: &Command<'_>) -> bool {
    let Command::If { test, holds, fails } = command else {
        return false;
    };
    let tested = matches!(test.left, Atom::Obj) && !test.same && matches!(test.right, Atom::Null);
    let first = match holds.as_slice() {
        [only] => is_sum(only),
        _ => false,
    };
    let second = match fails.as_slice() {
        [only] => is_loop(only),
        _ => false,
    };
    tested && first && second
}

// The commands of the second procedure.
fn is_tree(app: &App<'_>) -> bool {
    let Some(procedure) = app.procedures.get(1) else {
        return false;
    };
    let [first, second, third] = procedure.commands.as_slice() else {
        return false;
    };
    procedure.name == b"q".as_slice()
        && is_asked(first)
        && is_choice(second)
        && matches!(third, Command::Return)
}

#[test]
fn a_script_has_a_tree(rt: HostRuntime) -> Result<(), Fail> {
    let text = b"app tree; var x; var y; startup { print \"s\"; remove null; } proc p { } proc q { \
        y = by_name \"top\" x; if (obj != null) { set x = y + 7; } else { while (1 == 1) { } } return; }"
        .as_slice();
    let app = read_script(rt.alloc(), text, &Vec::new(rt.alloc()))?;
    assert!(rt; app.name == b"tree".as_slice());
    assert!(rt; app.variables.len() == 2 && is_name(app.variables.get(1), b"y"));
    assert!(rt; app.startup.len() == 2 && app.procedures.len() == 2);
    assert!(rt; is_tree(&app));
    Ok(())
}

// A routine, and its arguments as they are written.
static ARGUMENTS: [(Routine, &[u8]); 28] = [
    (Routine::ByName, b"\"top.r\" null"),
    (Routine::ByIndex, b"me 3"),
    (Routine::Handle, b"vpiScope me"),
    (Routine::Handle, b"vpiSysTfCall null"),
    (Routine::Iterate, b"vpiArgument null"),
    (Routine::Scan, b"last"),
    (Routine::Free, b"last"),
    (Routine::Compare, b"me last"),
    (Routine::Get, b"vpiSize obj"),
    (Routine::GetStr, b"vpiFullName obj"),
    (Routine::GetValue, b"obj vpiBinStrVal"),
    (Routine::GetValue, b"obj vpiVectorVal"),
    (Routine::PutValue, b"obj vpiBinStrVal \"1\" vpiNoDelay 0"),
    (
        Routine::PutValue,
        b"obj vpiIntVal 7 vpiReleaseFlag time event",
    ),
    (Routine::Cancel, b"last"),
    (Routine::GetTime, b""),
    (Routine::Register, b"cbValueChange obj 0 proc p data"),
    (Routine::Remove, b"me"),
    (Routine::CbInfo, b"me"),
    (Routine::RegisterSystf, b"task \"$t\" 0 calltf p"),
    (
        Routine::RegisterSystf,
        b"func \"$f\" 8 calltf p compiletf q",
    ),
    (Routine::ChkError, b""),
    (Routine::Control, b"finish"),
    (Routine::Control, b"stop"),
    (Routine::Print, b"value"),
    (Routine::SetData, b"7"),
    (Routine::Handle, b"vpiModule \"x\""),
    (Routine::Get, b"vpiLineNo 5"),
];

// The arguments of a routine, none wanting and none left over.
fn are_arguments(alloc: Global, routine: Routine, text: &[u8]) -> Result<bool, Fail> {
    let env = Env {
        rules: AppFault::A5,
        block: Block::Procedure,
        names: IndexSet::new(alloc),
    };
    let tokens = tokens(alloc, text)?;
    match read_arguments(MOST_LEVELS, &env, routine, tokens.as_slice()) {
        Ok((_, rest)) => Ok(rest.is_empty()),
        Err(_) => Ok(false),
    }
}

#[test]
fn each_routine_has_its_arguments(rt: HostRuntime) -> Result<(), Fail> {
    for (routine, text) in &ARGUMENTS {
        let read = are_arguments(rt.alloc(), *routine, text)?;
        assert!(rt; read, "{text:?}");
    }
    Ok(())
}

// The routine, and what isn't its arguments.
static WRONG: [(Routine, &[u8]); 12] = [
    (Routine::Handle, b"vpiSize me"),
    (Routine::Iterate, b"vpiReg"),
    (Routine::Get, b"vpiReg me"),
    (Routine::GetValue, b"obj vpiNoDelay"),
    (Routine::PutValue, b"obj vpiBinStrVal \"1\" vpiNoDelay"),
    (
        Routine::PutValue,
        b"obj vpiBinStrVal \"1\" vpiNoDelay 0 events",
    ),
    (Routine::GetTime, b"0"),
    (Routine::RegisterSystf, b"proc \"$t\" 0 calltf p"),
    (Routine::RegisterSystf, b"task \"$t\" 0 compiletf p"),
    (Routine::Control, b"vpiStop"),
    (Routine::Compare, b"me"),
    (Routine::SetData, b""),
];

#[test]
fn other_arguments_are_refused(rt: HostRuntime) -> Result<(), Fail> {
    for (routine, text) in &WRONG {
        let read = are_arguments(rt.alloc(), *routine, text)?;
        assert!(rt; !read, "{text:?}");
    }
    Ok(())
}

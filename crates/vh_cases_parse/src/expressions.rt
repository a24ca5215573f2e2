//! Texts with what is answered for their tokens.

use std::alloc::Global;
use std::fmt::Write;
use std::test::Fail;
use vh_ast::{Binary, Expr, ExprForm, Id, Name, Part, Primary, Sel, Step, Unary};
use vh_base::Place;
use vh_lex::Lexer;
use vh_parse_expr::{MOST_LEVELS, ParseFault, parse_expr};

// What is still to be written of a tree.
#[derive(Clone, Copy)]
enum Piece<'e> {
    Mark(&'static str),
    Expr(&'e Expr),
    Id(&'e Id),
    Binary(Binary),
    Unary(Unary),
}

type Pieces<'e> = Vec<Piece<'e>>;

fn push_list<'e>(pieces: &mut Pieces<'e>, exprs: &'e [Expr]) -> Result<(), Fail> {
    for (index, expr) in exprs.iter().enumerate().rev() {
        pieces.push(Piece::Expr(expr))?;
        if index > 0 {
            pieces.push(Piece::Mark(", "))?;
        }
    }
    Ok(())
}

fn push_step<'e>(pieces: &mut Pieces<'e>, step: &'e Step<Expr>) -> Result<(), Fail> {
    if let Some(index) = &step.index {
        pieces.push(Piece::Mark(">"))?;
        pieces.push(Piece::Expr(index.get()))?;
        pieces.push(Piece::Mark("<"))?;
    }
    pieces.push(Piece::Id(&step.id))?;
    Ok(())
}

fn push_name<'e>(pieces: &mut Pieces<'e>, name: &'e Name<Expr>) -> Result<(), Fail> {
    for step in name.more.as_slice().iter().rev() {
        push_step(pieces, step)?;
        pieces.push(Piece::Mark("."))?;
    }
    push_step(pieces, &name.first)
}

fn push_pair<'e>(
    pieces: &mut Pieces<'e>,
    left: &'e Expr,
    lexeme: &'static str,
    right: &'e Expr,
) -> Result<(), Fail> {
    pieces.push(Piece::Expr(right))?;
    pieces.push(Piece::Mark(lexeme))?;
    pieces.push(Piece::Expr(left))?;
    Ok(())
}

fn push_part<'e>(pieces: &mut Pieces<'e>, part: &'e Part<Expr>) -> Result<(), Fail> {
    pieces.push(Piece::Mark("]"))?;
    match part {
        Part::Index(index) => pieces.push(Piece::Expr(index.get()))?,
        Part::Range(left, right) => push_pair(pieces, left.get(), ":", right.get())?,
        Part::Up(base, width) => push_pair(pieces, base.get(), "+:", width.get())?,
        Part::Down(base, width) => push_pair(pieces, base.get(), "-:", width.get())?,
    }
    pieces.push(Piece::Mark("["))?;
    Ok(())
}

fn push_index<'e>(pieces: &mut Pieces<'e>, index: &'e Expr) -> Result<(), Fail> {
    pieces.push(Piece::Mark("]"))?;
    pieces.push(Piece::Expr(index))?;
    pieces.push(Piece::Mark("["))?;
    Ok(())
}

fn push_sel<'e>(pieces: &mut Pieces<'e>, sel: &'e Sel<Expr>) -> Result<(), Fail> {
    match sel {
        Sel::Index(_, index) => push_index(pieces, index.get()),
        Sel::Both { index, last, .. } => {
            push_part(pieces, &last.part)?;
            push_index(pieces, index.get())
        }
        Sel::Part(esel) => push_part(pieces, &esel.part),
    }
}

// A list in brackets.
fn push_bracketed<'e>(
    pieces: &mut Pieces<'e>,
    opening: &'static str,
    exprs: &'e [Expr],
    closing: &'static str,
) -> Result<(), Fail> {
    pieces.push(Piece::Mark(closing))?;
    push_list(pieces, exprs)?;
    pieces.push(Piece::Mark(opening))?;
    Ok(())
}

// An index of a name stands in `<>`, and a call is marked by `!`.
fn push_named<'e>(pieces: &mut Pieces<'e>, primary: &'e Primary<Expr>) -> Result<(), Fail> {
    match primary {
        Primary::Name(name, Some(sel)) => {
            push_sel(pieces, sel.get())?;
            push_name(pieces, name.get())
        }
        Primary::Name(name, None) => push_name(pieces, name.get()),
        Primary::Call(name, arguments) => {
            push_bracketed(pieces, "!(", arguments.as_slice(), ")")?;
            push_name(pieces, name.get())
        }
        Primary::System(id, arguments) => {
            push_bracketed(pieces, "(", arguments.as_slice(), ")")?;
            pieces.push(Piece::Id(id.get()))?;
            Ok(())
        }
        _ => Ok(()),
    }
}

fn push_repeat<'e>(
    pieces: &mut Pieces<'e>,
    count: &'e Expr,
    parts: &'e [Expr],
) -> Result<(), Fail> {
    push_bracketed(pieces, "{", parts, "}}")?;
    pieces.push(Piece::Expr(count))?;
    pieces.push(Piece::Mark("{"))?;
    Ok(())
}

fn push_paren<'e>(pieces: &mut Pieces<'e>, inner: &'e Expr) -> Result<(), Fail> {
    pieces.push(Piece::Mark(")"))?;
    pieces.push(Piece::Expr(inner))?;
    pieces.push(Piece::Mark("("))?;
    Ok(())
}

fn push_number(line: &mut String, number: Option<u64>) -> Result<(), Fail> {
    match number {
        Some(value) => write!(line, "{value}")?,
        None => line.push('x')?,
    }
    Ok(())
}

fn push_primary<'e>(
    line: &mut String,
    pieces: &mut Pieces<'e>,
    primary: &'e Primary<Expr>,
) -> Result<(), Fail> {
    match primary {
        Primary::Number(number) => push_number(line, number.value.number()),
        Primary::Text(text) => push_bytes(line, text.as_slice()),
        Primary::Paren(inner) => push_paren(pieces, inner.get()),
        Primary::Concat(parts) => push_bracketed(pieces, "{", parts.as_slice(), "}"),
        Primary::Repeat(count, parts) => push_repeat(pieces, count.get(), parts.as_slice()),
        _ => push_named(pieces, primary),
    }
}

// What operators make stands in `<>`.
fn push_expr<'e>(line: &mut String, pieces: &mut Pieces<'e>, expr: &'e Expr) -> Result<(), Fail> {
    if let ExprForm::Primary(primary) = &expr.form {
        return push_primary(line, pieces, primary);
    }
    pieces.push(Piece::Mark(">"))?;
    match &expr.form {
        ExprForm::Primary(_) => {}
        ExprForm::Unary(operator, operand) => {
            pieces.push(Piece::Expr(operand.get()))?;
            pieces.push(Piece::Unary(*operator))?;
        }
        ExprForm::Chain(first, links) => {
            for link in links.as_slice().iter().rev() {
                pieces.push(Piece::Expr(&link.operand))?;
                pieces.push(Piece::Binary(link.operator))?;
            }
            pieces.push(Piece::Expr(first.get()))?;
        }
        ExprForm::Choice { test, holds, fails } => {
            push_pair(pieces, holds.get(), " : ", fails.get())?;
            pieces.push(Piece::Mark(" ? "))?;
            pieces.push(Piece::Expr(test.get()))?;
        }
    }
    pieces.push(Piece::Mark("<"))?;
    Ok(())
}

fn push_bytes(line: &mut String, bytes: &[u8]) -> Result<(), Fail> {
    for byte in bytes {
        line.push(*byte as char)?;
    }
    Ok(())
}

fn push_tree(alloc: Global, line: &mut String, expr: &Expr) -> Result<(), Fail> {
    let mut pieces = Vec::new(alloc);
    pieces.push(Piece::Expr(expr))?;
    for _ in 0..u32::MAX {
        match pieces.pop() {
            Some(Piece::Mark(mark)) => line.push_str(mark)?,
            Some(Piece::Expr(expr)) => push_expr(line, &mut pieces, expr)?,
            Some(Piece::Id(id)) => push_bytes(line, id.name.as_slice())?,
            Some(Piece::Binary(operator)) => write!(line, " {operator:?} ")?,
            Some(Piece::Unary(operator)) => write!(line, "{operator:?} ")?,
            None => return Ok(()),
        }
    }
    Ok(())
}

// The tree of the expression with which a text of one line begins, and how many tokens are left
// behind it; or the fault and its place.
fn shown(alloc: Global, depth: u32, calls: bool, text: &str) -> Result<String, Fail> {
    let mut line = String::new(alloc);
    let mut lexer = Lexer::new(alloc)?;
    let bytes = text.as_bytes();
    if bytes.len() > 1_000_000 || depth > MOST_LEVELS {
        return Ok(line);
    }
    let after = Place {
        file: 1,
        line: 1,
        column: 1 + bytes.len() as u32,
    };
    lexer.file(alloc, 1, bytes)?;
    let tokens = lexer.tokens();
    match parse_expr(alloc, tokens, 0, depth, calls, after) {
        Ok((expr, next)) => {
            push_tree(alloc, &mut line, &expr)?;
            if next < tokens.len() {
                write!(line, " | {}", tokens.len() - next)?;
            }
        }
        Err(ParseFault::Refused(fault, place)) => {
            write!(line, "{fault:?} {}:{}", place.line, place.column)?;
        }
        Err(ParseFault::NoMemory) => line.push_str("no memory")?,
    }
    Ok(line)
}

static ROWS: [(u32, bool, &str, &str); 99] = [
    // what stands alone
    (0, true, "1", "1"),
    (0, true, "\"ab\"", "ab"),
    (0, true, "a", "a"),
    (0, true, "a b", "a | 1"),
    (0, true, "(a)", "(a)"),
    (0, true, "{a}", "{a}"),
    (0, true, "{a,b,1}", "{a, b, 1}"),
    (0, true, "{2{a}}", "{2{a}}"),
    (0, true, "{2{a,b}}", "{2{a, b}}"),
    (0, true, "$time", "$time()"),
    (0, true, "$f(1,a)", "$f(1, a)"),
    // names, selects and calls
    (0, true, "a.b.c", "a.b.c"),
    (0, true, "a[1]", "a[1]"),
    (0, true, "a[1].b", "a<1>.b"),
    (0, true, "a[1].b[2]", "a<1>.b[2]"),
    (0, true, "a[1][2]", "a[1][2]"),
    (0, true, "a[3:0]", "a[3:0]"),
    (0, true, "a[i+:2]", "a[i+:2]"),
    (0, true, "a[i-:2]", "a[i-:2]"),
    (0, true, "a[1][3:0]", "a[1][3:0]"),
    (0, true, "a[b[1]]", "a[b[1]]"),
    (0, true, "a[1][2][3]", "a[1][2] | 3"),
    (0, true, "a[3:0].b", "a[3:0] | 2"),
    (0, true, "a[3:0][1]", "a[3:0] | 3"),
    (0, true, "a[1:0](b)", "a[1:0] | 3"),
    (0, true, "f(a,b)", "f!(a, b)"),
    (0, true, "f[1](a)", "f<1>!(a)"),
    (0, true, "m.f(g(1))", "m.f!(g!(1))"),
    // operators
    (0, true, "-a", "<Minus a>"),
    (0, true, "!~a", "<Not <Invert a>>"),
    (0, true, "~&a", "<ReduceNand a>"),
    (0, true, "^~a", "<ReduceXnor a>"),
    (0, true, "~^a", "<ReduceXnor a>"),
    (0, true, "-(a)", "<Minus (a)>"),
    (0, true, "a+b", "<a Plus b>"),
    (0, true, "a-b-c", "<a Minus b Minus c>"),
    (0, true, "a+b*c", "<a Plus <b Times c>>"),
    (0, true, "a*b+c", "<<a Times b> Plus c>"),
    (
        0,
        true,
        "a*b+c*d-e",
        "<<a Times b> Plus <c Times d> Minus e>",
    ),
    (0, true, "a**b**c", "<a Power b Power c>"),
    (0, true, "-a**b", "<<Minus a> Power b>"),
    (
        0,
        true,
        "a||b&&c|d^e&f==g<h<<i+j*k**l",
        "<a OrOr <b AndAnd <c Or <d Xor <e And <f LogicalEqual <g Less <h ShiftLeft <i Plus <j Times <k Power l>>>>>>>>>>>",
    ),
    (
        0,
        true,
        "a**b*c+d<<e<f==g&h^i|j&&k||l",
        "<<<<<<<<<<<a Power b> Times c> Plus d> ShiftLeft e> Less f> LogicalEqual g> And h> Xor i> Or j> AndAnd k> OrOr l>",
    ),
    (0, true, "a<b<=c", "<a Less b LessEqual c>"),
    (0, true, "a===b!==c", "<a CaseEqual b CaseUnequal c>"),
    (
        0,
        true,
        "a>>>b<<<c",
        "<a ArithmeticShiftRight b ArithmeticShiftLeft c>",
    ),
    (0, true, "a&~|b", "<a And <ReduceNor b>>"),
    (0, true, "a?b:c", "<a ? b : c>"),
    (0, true, "a?b:c?d:e", "<a ? b : <c ? d : e>>"),
    (0, true, "a?b?c:d:e", "<a ? <b ? c : d> : e>"),
    (0, true, "a|b?c:d", "<<a Or b> ? c : d>"),
    // tokens that could not stand there, and missing ones
    (0, true, "", "S1 1:1"),
    (0, true, "(", "S1 1:2"),
    (0, true, "(a", "S1 1:3"),
    (0, true, ")", "S1 1:1"),
    (0, true, "(a,b)", "S1 1:3"),
    (0, true, "a+", "S1 1:3"),
    (0, true, "a+)", "S1 1:3"),
    (0, true, "a ? b", "S1 1:6"),
    (0, true, "a?b;c", "S1 1:4"),
    (0, true, "{}", "S1 1:2"),
    (0, true, "{a", "S1 1:3"),
    (0, true, "{2{a}", "S1 1:6"),
    (0, true, "{2{a};", "S1 1:6"),
    (0, true, "{2{a}{b}}", "S1 1:6"),
    (0, true, "f()", "S1 1:3"),
    (0, true, "f(a b)", "S1 1:5"),
    (0, true, "a[", "S1 1:3"),
    (0, true, "a[1", "S1 1:4"),
    (0, true, "a[1;", "S1 1:4"),
    (0, true, "a[1:2:3]", "S1 1:6"),
    (0, true, "a.", "S1 1:3"),
    (0, true, "a.[1]", "S1 1:3"),
    // a reserved word that stands in no production
    (0, true, "specify", "S3 1:1"),
    (0, true, "a+specify", "S3 1:3"),
    (0, true, "a specify", "a | 1"),
    (0, true, "module", "S1 1:1"),
    // calls where they are left out
    (0, false, "a+1", "<a Plus 1>"),
    (0, false, "f(1)", "S3 1:1"),
    (0, false, "a+f(1)", "S3 1:3"),
    (0, false, "f( )", "S3 1:1"),
    (0, false, "f[g(1)](2)", "S3 1:1"),
    (0, false, "f[g(1)]", "S3 1:3"),
    (0, false, "a[1:0](b)", "a[1:0] | 3"),
    (0, false, "$time", "$time()"),
    (0, false, "$signed(a)", "$signed(a)"),
    (0, false, "$f", "S3 1:1"),
    (0, false, "$time(f(1))", "S3 1:7"),
    (0, false, "-$display(a)", "S3 1:2"),
    (0, false, "a+b ? f(1", "S3 1:7"),
    (0, true, "$display(f(1))", "$display(f!(1))"),
    (0, true, "$monitor(f(1))", "S3 1:10"),
    (0, true, "$strobe($f)", "S3 1:9"),
    // the last level
    (MOST_LEVELS, true, "a+b", "<a Plus b>"),
    (MOST_LEVELS, true, "(a)", "S2 1:2"),
    (MOST_LEVELS, true, "-a", "S2 1:2"),
    (MOST_LEVELS, true, "(", "S1 1:2"),
    (MOST_LEVELS, true, "(specify", "S3 1:2"),
    (MOST_LEVELS, false, "f((1))", "S3 1:1"),
];

#[test]
fn texts(rt: HostRuntime) -> Result<(), Fail> {
    for (depth, calls, text, answer) in &ROWS {
        let line = shown(rt.alloc(), *depth, *calls, text)?;
        assert_eq!(rt; line.as_str(), *answer, "of {text}");
    }
    Ok(())
}

// As many times the first text, then the middle one, and as many times the last.
fn nested(alloc: Global, times: usize, texts: (&str, &str, &str)) -> Result<String, Fail> {
    let mut text = String::new(alloc);
    for _ in 0..times {
        text.push_str(texts.0)?;
    }
    text.push_str(texts.1)?;
    for _ in 0..times {
        text.push_str(texts.2)?;
    }
    Ok(text)
}

// Texts that go on and on: how deep they nest, and how long they are.
#[test]
fn long_texts(rt: HostRuntime) -> Result<(), Fail> {
    let alloc = rt.alloc();
    let rows = [
        (199, ("(", "a", ")"), "("),
        (200, ("(", "a", ")"), "S2 1:201"),
        (199, ("a**(", "a", ")"), "<"),
        (200, ("a**(", "a", ")"), "S2 1:801"),
        (199, ("a||b&&c|d^e&f==g<h<<i+j*k**(", "a", ")"), "<"),
        (199, ("!", "a", ""), "<"),
        (199, ("a?b:", "a", ""), "<"),
        (200, ("a?b:", "a", ""), "S2 1:799"),
        (199, ("{1{", "a", "}}"), "{"),
        (199, ("a[", "1", "]"), "a"),
        (199, ("f(", "1", ")"), "f"),
        (10_000, ("a+", "a", ""), "<"),
        (1_000, ("a.", "a", ""), "a"),
        (10_000, ("(", "a", ""), "S2 1:201"),
    ];
    for (times, texts, answer) in rows {
        let text = nested(alloc, times, texts)?;
        let line = shown(alloc, 1, true, text.as_str())?;
        assert!(rt;
            line.as_str().starts_with(answer),
            "of {times} times {}",
            texts.0
        );
    }
    Ok(())
}

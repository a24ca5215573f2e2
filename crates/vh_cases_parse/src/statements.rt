//! Statements.

use sqlite_items::Boxed;
use std::alloc::Global;
use std::fmt::Write;
use std::process::Abort;
use std::test::Fail;
use vh_ast::{
    AssignWord, BlockWord, CaseWord, DataType, Decl, Delay, DelayValue, Edge, Ev, Event, Expr,
    ExprForm, ForceWord, Id, Init, LoopWord, Lv, LvPart, Matched, Name, Primary, Range,
    ReleaseWord, Sel, Set, Simple, Step, Stmt, StmtForm, Var, VarPart, held,
};
use vh_base::Place;
use vh_lex::Lexer;
use vh_parse_expr::ParseFault;
use vh_parse_stmt::parse_stmt;

pub(crate) fn push_id(line: &mut String, id: &Id) -> Result<(), Fail> {
    for byte in id.name.as_slice() {
        line.push(*byte as char)?;
    }
    Ok(())
}

fn push_number(line: &mut String, number: Option<u64>) -> Result<(), Fail> {
    match number {
        Some(value) => write!(line, "{value}")?,
        None => line.push('x')?,
    }
    Ok(())
}

// An index that is a number or a single name; any other one is `?`.
fn push_index(line: &mut String, index: &Expr) -> Result<(), Fail> {
    match &index.form {
        ExprForm::Primary(Primary::Number(number)) => push_number(line, number.value.number()),
        ExprForm::Primary(Primary::Name(name, None)) => push_id(line, &name.get().first.id),
        _ => Ok(line.push('?')?),
    }
}

// An index of a name stands in `<>`.
fn push_step(line: &mut String, step: &Step<Expr>) -> Result<(), Fail> {
    push_id(line, &step.id)?;
    if let Some(index) = &step.index {
        line.push('<')?;
        push_index(line, index.get())?;
        line.push('>')?;
    }
    Ok(())
}

fn push_name(line: &mut String, name: &Name<Expr>) -> Result<(), Fail> {
    push_step(line, &name.first)?;
    for step in name.more.as_slice() {
        line.push('.')?;
        push_step(line, step)?;
    }
    Ok(())
}

// Of a select its first index alone.
fn push_sel(line: &mut String, sel: &Option<Boxed<Sel<Expr>>>) -> Result<(), Fail> {
    match held(sel) {
        Some(Sel::Index(_, index)) => {
            line.push('[')?;
            push_index(line, index.get())?;
            line.push(']')?;
        }
        Some(Sel::Both { index, .. }) => {
            line.push('[')?;
            push_index(line, index.get())?;
            line.push_str("][?]")?;
        }
        Some(Sel::Part(_)) => line.push_str("[?]")?,
        None => {}
    }
    Ok(())
}

// An expression of more than a name or a number is `?`.
pub(crate) fn push_expr(line: &mut String, expr: &Expr) -> Result<(), Fail> {
    match &expr.form {
        ExprForm::Primary(Primary::Number(number)) => push_number(line, number.value.number()),
        ExprForm::Primary(Primary::Name(name, sel)) => {
            push_name(line, name.get())?;
            push_sel(line, sel)
        }
        _ => Ok(line.push('?')?),
    }
}

fn push_lv(line: &mut String, lv: &Lv) -> Result<(), Fail> {
    for part in lv.parts.as_slice() {
        match part {
            LvPart::Open => line.push('{')?,
            LvPart::Name(name, sel) => {
                line.push(' ')?;
                push_name(line, name.get())?;
                push_sel(line, sel)?;
            }
            LvPart::Close => line.push_str(" }")?,
        }
    }
    Ok(())
}

pub(crate) fn push_set(line: &mut String, set: &Set) -> Result<(), Fail> {
    push_lv(line, &set.target)?;
    line.push_str(" = ")?;
    push_expr(line, &set.value)
}

pub(crate) fn push_delay(line: &mut String, delay: &Delay) -> Result<(), Fail> {
    line.push('#')?;
    match &delay.value {
        DelayValue::Number(number) => push_number(line, number.value.number()),
        DelayValue::Id(id) => push_id(line, id),
        DelayValue::Expr(expr) => {
            line.push('(')?;
            push_expr(line, expr)?;
            Ok(line.push(')')?)
        }
    }
}

fn push_ev(line: &mut String, ev: &Ev) -> Result<(), Fail> {
    match ev.edge {
        Some(Edge::Positive) => line.push_str(" posedge ")?,
        Some(Edge::Negative) => line.push_str(" negedge ")?,
        None => line.push(' ')?,
    }
    push_expr(line, &ev.expr)
}

fn push_evs(line: &mut String, evs: &[Ev]) -> Result<(), Fail> {
    line.push('(')?;
    for ev in evs {
        push_ev(line, ev)?;
    }
    Ok(line.push_str(" )")?)
}

fn push_event(line: &mut String, event: &Event) -> Result<(), Fail> {
    line.push('@')?;
    match event {
        Event::Any => Ok(line.push('*')?),
        Event::Name(name) => push_name(line, name),
        Event::List(evs) => push_evs(line, evs.as_slice()),
    }
}

pub(crate) fn push_range(line: &mut String, range: &Range) -> Result<(), Fail> {
    line.push_str(" [")?;
    push_expr(line, &range.left)?;
    line.push(':')?;
    push_expr(line, &range.right)?;
    Ok(line.push(']')?)
}

pub(crate) fn push_type(line: &mut String, data_type: &DataType) -> Result<(), Fail> {
    if data_type.signed {
        line.push_str(" signed")?;
    }
    if let Some(range) = &data_type.range {
        push_range(line, range.get())?;
    }
    Ok(())
}

fn push_vars(line: &mut String, vars: &[Var]) -> Result<(), Fail> {
    for var in vars {
        line.push(' ')?;
        push_id(line, &var.id)?;
        match &var.part {
            VarPart::Plain => {}
            VarPart::Range(range) => push_range(line, range.get())?,
            VarPart::Value(value) => {
                line.push_str(" = ")?;
                push_expr(line, value.get())?;
            }
        }
    }
    Ok(())
}

fn push_inits(line: &mut String, inits: &[Init]) -> Result<(), Fail> {
    for init in inits {
        line.push(' ')?;
        push_id(line, &init.id)?;
        if let Some(value) = &init.value {
            line.push_str(" = ")?;
            push_expr(line, value.get())?;
        }
    }
    Ok(())
}

pub(crate) fn push_decl(line: &mut String, decl: &Decl) -> Result<(), Fail> {
    match decl {
        Decl::Reg {
            data_type,
            vars,
            ..
        } => {
            line.push_str(" <reg")?;
            push_type(line, data_type)?;
            push_vars(line, vars.as_slice())?;
        }
        Decl::Integer(_, inits) => {
            line.push_str(" <integer")?;
            push_inits(line, inits.as_slice())?;
        }
        Decl::Time(_, inits) => {
            line.push_str(" <time")?;
            push_inits(line, inits.as_slice())?;
        }
    }
    Ok(line.push('>')?)
}

fn assign_lexeme(word: AssignWord) -> &'static str {
    match word {
        AssignWord::Blocking => " = ",
        AssignWord::Nonblocking => " <= ",
    }
}

fn push_assign(
    line: &mut String,
    target: &Lv,
    lexeme: &str,
    delay: &Option<Boxed<Delay>>,
    value: &Expr,
) -> Result<(), Fail> {
    push_lv(line, target)?;
    line.push_str(lexeme)?;
    if let Some(delay) = delay {
        push_delay(line, delay.get())?;
        line.push(' ')?;
    }
    push_expr(line, value)
}

fn force_text(word: ForceWord) -> &'static str {
    match word {
        ForceWord::Force => "force",
        ForceWord::Assign => "assign",
    }
}

fn release_text(word: ReleaseWord) -> &'static str {
    match word {
        ReleaseWord::Release => "release",
        ReleaseWord::Deassign => "deassign",
    }
}

pub(crate) fn push_exprs(line: &mut String, exprs: &[Expr]) -> Result<(), Fail> {
    for expr in exprs {
        line.push(' ')?;
        push_expr(line, expr)?;
    }
    Ok(())
}

// An argument that is absent is `-`.
fn push_slots(line: &mut String, slots: &[Option<Expr>]) -> Result<(), Fail> {
    for slot in slots {
        line.push(' ')?;
        match slot {
            Some(expr) => push_expr(line, expr)?,
            None => line.push('-')?,
        }
        line.push(',')?;
    }
    Ok(())
}

fn push_call(line: &mut String, simple: &Simple) -> Result<(), Fail> {
    match simple {
        Simple::Call(name, arguments) => {
            push_name(line, name.get())?;
            line.push('(')?;
            push_exprs(line, arguments.as_slice())?;
            line.push_str(" )")?;
        }
        Simple::System(id, slots) => {
            push_id(line, id)?;
            line.push('(')?;
            push_slots(line, slots.as_slice())?;
            line.push_str(" )")?;
        }
        _ => {}
    }
    Ok(())
}

fn push_simple(line: &mut String, simple: &Simple) -> Result<(), Fail> {
    match simple {
        Simple::Assign {
            target,
            word,
            delay,
            value,
        } => push_assign(line, target, assign_lexeme(*word), delay, value.get()),
        Simple::Trigger(name) => {
            line.push_str("-> ")?;
            push_name(line, name)
        }
        Simple::Disable(name) => {
            line.push_str("disable ")?;
            push_name(line, name)
        }
        Simple::Force(word, set) => {
            line.push_str(force_text(*word))?;
            push_set(line, set.get())
        }
        Simple::Release(word, target) => {
            line.push_str(release_text(*word))?;
            push_lv(line, target)
        }
        _ => push_call(line, simple),
    }
}

// What is still to be written of a tree.
#[derive(Clone, Copy)]
enum Piece<'e> {
    Mark(&'static str),
    Matched(&'e Matched),
    Stmt(&'e Stmt),
}

type Pieces<'e> = Vec<Piece<'e>>;

fn loop_text(word: LoopWord) -> &'static str {
    match word {
        LoopWord::While => "while ",
        LoopWord::Repeat => "repeat ",
    }
}

fn case_text(word: CaseWord) -> &'static str {
    match word {
        CaseWord::Case => "case ",
        CaseWord::Casez => "casez ",
        CaseWord::Casex => "casex ",
    }
}

fn block_text(word: BlockWord) -> &'static str {
    match word {
        BlockWord::Begin => "begin",
        BlockWord::Fork => "fork",
    }
}

fn push_labels(line: &mut String, matched: &Matched) -> Result<(), Fail> {
    match matched {
        Matched::Default => line.push_str(" default")?,
        Matched::Values(all) => push_exprs(line, all.as_slice())?,
    }
    Ok(line.push(':')?)
}

// A statement that stands behind what is in front of it.
fn push_timed<'e>(
    line: &mut String,
    pieces: &mut Pieces<'e>,
    form: &'e StmtForm<Stmt>,
) -> Result<(), Fail> {
    match form {
        StmtForm::Delay(delay, body) => {
            push_delay(line, delay.get())?;
            pieces.push(Piece::Stmt(body.get()))?;
        }
        StmtForm::Event(event, body) => {
            push_event(line, event.get())?;
            pieces.push(Piece::Stmt(body.get()))?;
        }
        StmtForm::Wait(test, body) => {
            line.push_str("wait ")?;
            push_expr(line, test.get())?;
            pieces.push(Piece::Stmt(body.get()))?;
        }
        _ => {}
    }
    Ok(())
}

fn push_loop<'e>(
    line: &mut String,
    pieces: &mut Pieces<'e>,
    form: &'e StmtForm<Stmt>,
) -> Result<(), Fail> {
    match form {
        StmtForm::For {
            start,
            test,
            step,
            body,
        } => {
            line.push_str("for")?;
            push_set(line, start.get())?;
            line.push_str("; ")?;
            push_expr(line, test.get())?;
            line.push(';')?;
            push_set(line, step.get())?;
            pieces.push(Piece::Stmt(body.get()))?;
        }
        StmtForm::Loop { word, test, body } => {
            line.push_str(loop_text(*word))?;
            push_expr(line, test.get())?;
            pieces.push(Piece::Stmt(body.get()))?;
        }
        StmtForm::Forever(body) => {
            line.push_str("forever")?;
            pieces.push(Piece::Stmt(body.get()))?;
        }
        _ => {}
    }
    Ok(())
}

fn push_if<'e>(
    line: &mut String,
    pieces: &mut Pieces<'e>,
    form: &'e StmtForm<Stmt>,
) -> Result<(), Fail> {
    if let StmtForm::If { test, holds, fails } = form {
        line.push_str("if ")?;
        push_expr(line, test.get())?;
        if let Some(other) = fails {
            pieces.push(Piece::Stmt(other.get()))?;
            pieces.push(Piece::Mark(" else"))?;
        }
        pieces.push(Piece::Stmt(holds.get()))?;
    }
    Ok(())
}

fn push_case<'e>(
    line: &mut String,
    pieces: &mut Pieces<'e>,
    form: &'e StmtForm<Stmt>,
) -> Result<(), Fail> {
    if let StmtForm::Case {
        word,
        value,
        citems,
    } = form
    {
        line.push_str(case_text(*word))?;
        push_expr(line, value.get())?;
        for citem in citems.as_slice().iter().rev() {
            pieces.push(Piece::Stmt(&citem.body))?;
            pieces.push(Piece::Matched(&citem.matched))?;
        }
    }
    Ok(())
}

fn push_decls(line: &mut String, decls: &[Decl]) -> Result<(), Fail> {
    for decl in decls {
        push_decl(line, decl)?;
    }
    Ok(())
}

fn push_block<'e>(
    line: &mut String,
    pieces: &mut Pieces<'e>,
    form: &'e StmtForm<Stmt>,
) -> Result<(), Fail> {
    if let StmtForm::Block {
        word,
        id,
        decls,
        stmts,
    } = form
    {
        line.push_str(block_text(*word))?;
        if let Some(id) = id {
            line.push_str(" :")?;
            push_id(line, id)?;
        }
        push_decls(line, decls.as_slice())?;
        for stmt in stmts.as_slice().iter().rev() {
            pieces.push(Piece::Stmt(stmt))?;
        }
    }
    Ok(())
}

// A statement stands in brackets.
fn push_stmt<'e>(line: &mut String, pieces: &mut Pieces<'e>, stmt: &'e Stmt) -> Result<(), Fail> {
    line.push_str(" [")?;
    pieces.push(Piece::Mark("]"))?;
    if let StmtForm::Simple(simple) = &stmt.form {
        return push_simple(line, simple);
    }
    push_timed(line, pieces, &stmt.form)?;
    push_if(line, pieces, &stmt.form)?;
    push_case(line, pieces, &stmt.form)?;
    push_loop(line, pieces, &stmt.form)?;
    push_block(line, pieces, &stmt.form)
}

pub(crate) fn push_tree(alloc: Global, line: &mut String, stmt: &Stmt) -> Result<(), Fail> {
    let mut pieces = Vec::new(alloc);
    pieces.push(Piece::Stmt(stmt))?;
    for _ in 0..u32::MAX {
        match pieces.pop() {
            Some(Piece::Mark(mark)) => line.push_str(mark)?,
            Some(Piece::Matched(matched)) => push_labels(line, matched)?,
            Some(Piece::Stmt(stmt)) => push_stmt(line, &mut pieces, stmt)?,
            None => return Ok(()),
        }
    }
    Ok(())
}

// The tree of the statement with which a text of one line begins, and how many tokens are left behind
// it; or the fault and its column.
fn shown(alloc: Global, inside: bool, text: &str) -> Result<String, Fail> {
    let mut line = String::new(alloc);
    let mut lexer = Lexer::new(alloc)?;
    let bytes = text.as_bytes();
    if bytes.len() > 10_000_000 {
        return Ok(line);
    }
    let after = Place {
        file: 1,
        line: 1,
        column: 1 + bytes.len() as u32,
    };
    lexer.file(alloc, 1, bytes)?;
    match parse_stmt(alloc, lexer.tokens().as_slice(), 0, inside, after) {
        Ok((stmt, left)) => {
            push_tree(alloc, &mut line, stmt.get())?;
            if left > 0 {
                write!(line, " | {left}")?;
            }
        }
        Err(ParseFault::Refused(fault, place)) => write!(line, " {fault:?} {}", place.column)?,
        Err(ParseFault::NoMemory) => line.push_str(" no memory")?,
    }
    Ok(line)
}

// The rows of which something else is shown: each is a text, two colons, and what is shown of it.
fn differing(alloc: Global, inside: bool, rows: &str) -> Result<String, Fail> {
    let mut all = String::new(alloc);
    for row in rows.lines() {
        if let Some((text, answer)) = row.split_once(" ::") {
            let line = shown(alloc, inside, text)?;
            if line.as_str() != answer {
                write!(all, "{text} ::{}; ", line.as_str())?;
            }
        }
    }
    Ok(all)
}

// Statements in which none stands.
static SIMPLE: &str = "
; :: []
a = b; :: [ a = b]
a <= b; :: [ a <= b]
a = #5 b; :: [ a = #5 b]
a <= #d b; :: [ a <= #d b]
a = #(d) b; :: [ a = #(d) b]
a = b ; c = d; :: [ a = b] | 4
a.b.c = d; :: [ a.b.c = d]
a[1] = c; :: [ a[1] = c]
a[1].b = c; :: [ a<1>.b = c]
a[1][2] = c; :: [ a[1][?] = c]
a[3:0] = c; :: [ a[?] = c]
{a, b} = c; :: [{ a b } = c]
{a, {b, c}} <= 1; :: [{ a{ b c } } <= 1]
t; :: [t( )]
t(a, 1); :: [t( a 1 )]
t(f(1)) ; :: [t( ? )]
a.t; :: [a.t( )]
a[1]; :: [a<1>( )]
a[1](x); :: [a<1>( x )]
$display; :: [$display( )]
$display(); :: [$display( )]
$display(,); :: [$display( -, -, )]
$display(a, , 1); :: [$display( a, -, 1, )]
$display(f(1)); :: [$display( ?, )]
-> e; :: [-> e]
-> a[1]; :: [-> a<1>]
disable a.b; :: [disable a.b]
force a = b; :: [force a = b]
force {a, b} = 1; :: [force{ a b } = 1]
assign a = $time; :: [assign a = ?]
release a; :: [release a]
release a[f(1)]; :: [release a[?]]
deassign a; :: [deassign a]
";

// Statements in which others stand.
static NESTED: &str = "
#5 a = b; :: [#5 [ a = b]]
#5; :: [#5 []]
#d; :: [#d []]
#(d) ; :: [#(d) []]
@* ; :: [@* []]
@(*) ; :: [@* []]
@e; :: [@e []]
@a[1].b; :: [@a<1>.b []]
@(a) ; :: [@( a ) []]
@(posedge c or negedge r, d) ; :: [@( posedge c negedge r d ) []]
wait (a) ; :: [wait a []]
if (a) b = c; else ; :: [if a [ b = c] else []]
if (a) if (b) ; else x = y; :: [if a [if b [] else [ x = y]]]
if (a) begin if (b) ; end else x = y; :: [if a [begin [if b []]] else [ x = y]]
if (a) ; ; else ; :: [if a []] | 3
case (a) 1, 2: ; default ; endcase :: [case a 1 2: [] default: []]
case (a) default : ; 1: ; endcase :: [case a default: [] 1: []]
casez (a) b: c = d; endcase :: [casez a b: [ c = d]]
casex (a) b: ; endcase :: [casex a b: []]
for (i = 0; i; i = 1) ; :: [for i = 0; i; i = 1 []]
while (a) ; :: [while a []]
repeat (3) ; :: [repeat 3 []]
forever #1 ; :: [forever [#1 []]]
begin end :: [begin]
begin ; a = b; end :: [begin [] [ a = b]]
fork join :: [fork]
fork : f ; join :: [fork :f []]
begin : n reg r; integer i, j = 1; time t; ; end :: [begin :n <reg r> <integer i j = 1> <time t> []]
begin : n reg signed [3:0] a [1:0], b = 2; end :: [begin :n <reg signed [3:0] a [1:0] b = 2>]
begin : n reg [3:0] a; end :: [begin :n <reg [3:0] a>]
begin : n reg signed a; time t = 1, u; end :: [begin :n <reg signed a> <time t = 1 u>]
";

// Tokens that could not stand there, and missing ones, in statements in which none stands.
static LOST: &str = "
 :: S1 1
end :: S1 1
else ; :: S1 1
a :: S1 2
a = :: S1 4
a = ; :: S1 5
a = b :: S1 6
a b; :: S1 3
a[3:0]; :: S1 7
a[1][2](x); :: S1 8
a[1][2][3] = 1; :: S1 8
a = repeat (2) @(e) b; :: S1 5
a = #1 @(e) b; :: S1 8
{a :: S1 3
{} = 1; :: S1 2
{a} ; :: S1 5
t( :: S1 3
t(); :: S1 3
$display(a b); :: S1 12
$display(a :: S1 11
$display a; :: S1 10
-> ; :: S1 4
-> a[1:0]; :: S1 7
disable ; :: S1 9
force a; :: S1 8
release a = 1; :: S1 11
";

// The same in those in which others stand.
static LOST_INSIDE: &str = "
# a = b; :: S1 5
#(a; :: S1 4
#+ ; :: S1 2
@ ; :: S1 3
@(a or) ; :: S1 7
@( * a) ; :: S1 6
@(posedge) ; :: S1 10
@f(1) ; :: S1 3
wait a; :: S1 6
if a :: S1 4
if (a) :: S1 7
if (a) else ; :: S1 8
case (a) endcase :: S1 10
case (a) 1 ; endcase :: S1 12
case (a) 1: ; :: S1 14
case (a) default default ; endcase :: S1 18
for (i = 0 i) ; :: S1 12
for (i = 0; i; i = 1) :: S1 22
while () ; :: S1 8
repeat (2) forever :: S1 19
begin :: S1 6
begin ; :: S1 8
begin join :: S1 7
fork end :: S1 6
begin : end :: S1 9
begin reg r; end :: S1 7
begin : n ; reg r; end :: S1 13
begin : n reg ; end :: S1 15
begin : n reg a [1:0] = 1; end :: S1 23
begin : n reg [1:0 a; end :: S1 20
begin : n reg [1] a; end :: S1 17
begin : n time t = ; end :: S1 20
";

// What is left out.
static LEFT_OUT: &str = "
specify :: S3 1
a = specify; :: S3 5
begin specify end :: S3 7
a = @(e) b; :: S3 5
a <= @e b; :: S3 6
#(a, b) ; :: S3 1
a = #(b, c) d; :: S3 5
wait (f(1)) ; :: S3 7
@(f(1)) ; :: S3 3
@(a or posedge f(1)) ; :: S3 16
@(a[f(1)]) ; :: S3 5
@a[f(1)] ; :: S3 4
force a = f(1); :: S3 11
force a[f(1)] = 1; :: S3 9
assign a = $random; :: S3 12
$strobe(f(1)); :: S3 9
$monitor($random); :: S3 10
$mine(f(1)); :: S3 7
$write($mine(f(1))); :: S3 14
begin : n integer i [1:0]; end :: S3 21
begin : n time t, u [1:0]; end :: S3 21
begin : n reg a [1:0][2:0]; end :: S3 22
";

// Statements in a function.
static INSIDE: &str = "
a = b; :: [ a = b]
-> e; :: [-> e]
disable b; :: [disable b]
force a = b; :: [force a = b]
$display(a); :: [$display( a, )]
for (i = 0; i; i = 1) a = f(1); :: [for i = 0; i; i = 1 [ a = ?]]
begin : n reg r; r = a; end :: [begin :n <reg r> [ r = a]]
#1 a = b; :: S3 1
@(e) a = b; :: S3 1
wait (a) ; :: S3 1
fork join :: S3 1
a <= b; :: S3 3
a = #1 b; :: S3 5
a <= #1 b; :: S3 3
a <= @(e) b; :: S3 3
{a, b} <= c; :: S3 8
t; :: S3 1
t(1); :: S3 1
t( :: S3 1
a.t; :: S3 1
a[1]; :: S3 1
a[1](x); :: S3 1
a[3:0]; :: S1 7
a :: S1 2
a = :: S1 4
if (a) #1 ; :: S3 8
if (a) ; else fork :: S3 15
while (a) t; :: S3 11
repeat (2) wait (a) ; :: S3 12
case (a) 1: #1 ; endcase :: S3 13
begin # end :: S3 7
begin : b t; end :: S3 11
begin a = b; fork join end :: S3 14
";

// Faults whose places an independent implementation of the grammar gave.
static GIVEN: &str = "
-a_10 = 1; :: S1 1
a_40 = f_40 g_40(1); :: S1 13
for (a_80 = 0; ; a_80 = 1) ; :: S1 16
$display(f_150(1), $foo_150(2 + f_150(3))); :: S3 33
#-1 ; :: S1 2
a_200 = {}; :: S1 10
-> e_290[1:0]; :: S1 11
$strobe(\"%d\", f_411(1)); :: S3 15
@(posedge f_420(1)) ; :: S3 11
assign #1 a_440 = 1; :: S1 8
force a_510 = $time + f_510(1); :: S3 23
$strobe($unsigned(a_560), b_560.f(1)); :: S3 27
$monitor(a_570, $foo_570(1)); :: S3 17
for (; a_580; a_580 = 1) ; :: S1 6
a_610 = b_610.; :: S1 15
wait (f_620(1)) ; :: S3 7
a_640 = @e_640 c_640; :: S3 9
disable b_670 = 1; :: S1 15
force a_740[f_740(1)] = 1; :: S3 13
@(edge__780 , ) ; :: S1 15
highz0; :: S3 1
a_860 = b_860 c_860; :: S1 15
#1 . ; :: S1 4
$foo_950(1, $bar_950); :: S3 13
for (a_1020 = @(b_1020) 0; a_1020; a_1020 = 1) ; :: S1 15
a_1030 = $signed(b_1030; :: S1 24
begin : b reg x; a_1040 = 1; reg y; end :: S1 30
deassign 1; :: S1 10
a_1130 = 1 2; :: S1 12
$display(a_1160)(b_1160); :: S1 17
t_1171(a_1171,); :: S1 15
a_1230 = (b_1230 , c_1230); :: S1 18
a_1250 <= #(1 + 2, 3) b_1250; :: S3 11
a_1290 = #(1) ; :: S1 15
t_1330(.x(a_1330)); :: S1 8
a_1340 = $time(); :: S1 16
unsigned a_1400; :: S3 1
wait ($signed(f_1460(1))) ; :: S3 15
force a_1501 <= 1; :: S1 14
a_1520 = f_1520(); :: S1 17
a_1541 = {2{}}; :: S1 13
a_1780[1:2:3] = 1; :: S1 11
@posedge a_1820 ; :: S1 2
a_1921.[0] = 1; :: S1 8
@(a_1941 b_1941) ; :: S1 10
a_1990[1:0]; :: S1 12
a_2190 = b_2190 ? c_2190 : d_2190 : e_2190; :: S1 35
@a_2290[f_2290(1)].b ; :: S3 9
";

static GIVEN_INSIDE: &str = "
repeat (3) @(posedge x) ; :: S3 12
begin f_760 = x; fork : k join end :: S3 18
t_800 endfunction :: S1 7
@* f_830 = x; :: S3 1
@(x) f_1260 = x; :: S3 1
t_1280 + ; :: S1 8
wait (x) f_2050 = x; :: S3 1
a_2230.t(1); :: S3 1
";

// No text is answered otherwise than its row says.
fn check(rt: &impl Abort, alloc: Global, inside: bool, texts: &str) -> Result<(), Fail> {
    let all = differing(alloc, inside, texts)?;
    assert_eq!(rt; all.as_str(), "");
    Ok(())
}

#[test]
fn given_texts(rt: HostRuntime) -> Result<(), Fail> {
    check(&rt, rt.alloc(), false, GIVEN)
}

#[test]
fn given_function_texts(rt: HostRuntime) -> Result<(), Fail> {
    check(&rt, rt.alloc(), true, GIVEN_INSIDE)
}

#[test]
fn simple_texts(rt: HostRuntime) -> Result<(), Fail> {
    check(&rt, rt.alloc(), false, SIMPLE)
}

#[test]
fn nested_texts(rt: HostRuntime) -> Result<(), Fail> {
    check(&rt, rt.alloc(), false, NESTED)
}

#[test]
fn lost_texts(rt: HostRuntime) -> Result<(), Fail> {
    check(&rt, rt.alloc(), false, LOST)
}

#[test]
fn lost_inside_texts(rt: HostRuntime) -> Result<(), Fail> {
    check(&rt, rt.alloc(), false, LOST_INSIDE)
}

#[test]
fn left_out_texts(rt: HostRuntime) -> Result<(), Fail> {
    check(&rt, rt.alloc(), false, LEFT_OUT)
}

#[test]
fn function_texts(rt: HostRuntime) -> Result<(), Fail> {
    check(&rt, rt.alloc(), true, INSIDE)
}

// As many times the first text, then the middle one, and as many times the last.
pub(crate) fn repeated(
    alloc: Global,
    times: usize,
    texts: (&str, &str, &str),
) -> Result<String, Fail> {
    let mut text = String::new(alloc);
    for _ in 0..times {
        text.push_str(texts.0)?;
    }
    text.push_str(texts.1)?;
    for _ in 0..times {
        text.push_str(texts.2)?;
    }
    Ok(text)
}

// In every form in which statements nest, 199 around one more are read, and 200 are too deep.
#[test]
fn levels(rt: HostRuntime) -> Result<(), Fail> {
    let alloc = rt.alloc();
    let rows = [
        (("begin ", ";", " end"), " S2 1201"),
        (("fork ", ";", " join"), " S2 1001"),
        (("begin : n reg r; ", ";", " end"), " S2 3401"),
        (("if (a) ", ";", ""), " S2 1401"),
        (("if (a) ; else ", ";", ""), " S2 2794"),
        (("#1 ", ";", ""), " S2 601"),
        (("@e ", ";", ""), " S2 601"),
        (("@(a) ", ";", ""), " S2 1001"),
        (("wait (a) ", ";", ""), " S2 1801"),
        (("case (a) 1: ", ";", " endcase"), " S2 2401"),
        (("case (a) default ", ";", " endcase"), " S2 3401"),
        (("for (a = 1; a; a = 1) ", ";", ""), " S2 4401"),
        (("while (a) ", ";", ""), " S2 2001"),
        (("repeat (a) ", ";", ""), " S2 2201"),
        (("forever ", ";", ""), " S2 1601"),
    ];
    for (texts, answer) in rows {
        let text = repeated(alloc, 200, texts)?;
        let line = shown(alloc, false, text.as_str())?;
        assert_eq!(rt; line.as_str(), answer, "of {}", texts.0);
        let text = repeated(alloc, 199, (texts.0, ";", texts.2))?;
        let line = shown(alloc, false, text.as_str())?;
        assert!(rt; line.as_str().starts_with(" ["), "of {}", texts.0);
    }
    Ok(())
}

// Statements and the expressions in them share the levels.
#[test]
fn levels_of_both(rt: HostRuntime) -> Result<(), Fail> {
    let alloc = rt.alloc();
    let rows = [(99, " ["), (100, " S2 805")];
    for (times, answer) in rows {
        let inner = repeated(alloc, times, ("(", "1", ")"))?;
        let assigned = format!(in alloc; "a = {};", inner.as_str())?;
        let text = repeated(alloc, 100, ("if (a) ", assigned.as_str(), ""))?;
        let line = shown(alloc, false, text.as_str())?;
        assert!(rt; line.as_str().starts_with(answer), "of {times}");
    }
    Ok(())
}

// Lists of any length take no stack, and neither does what is too deep.
#[test]
fn long_texts(rt: HostRuntime) -> Result<(), Fail> {
    let alloc = rt.alloc();
    let rows = [
        ("", "begin ", 100_000, "", " S2 1201"),
        ("begin ", ";", 10_000, " end", " ["),
        ("case (a) ", "1: ;", 10_000, " endcase", " ["),
        ("@(a", " or a", 10_000, ") ;", " ["),
        ("$display(a", ", a", 10_000, ");", " ["),
        ("begin : n reg a", ", a", 10_000, "; end", " ["),
        ("begin : n ", "reg a;", 10_000, " end", " ["),
    ];
    for (front, item, times, end, answer) in rows {
        let all = repeated(alloc, times, (item, end, ""))?;
        let text = format!(in alloc; "{front}{}", all.as_str())?;
        let line = shown(alloc, false, text.as_str())?;
        assert!(rt; line.as_str().starts_with(answer), "of {item}");
    }
    Ok(())
}

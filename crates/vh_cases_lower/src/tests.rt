//! Statements of a module: each instruction with a letter and where it goes on, `!` before the first instruction of
//! an execution, and its statement's number; or the fault and its column.

ghost use Rattle.std.specs.Prelude.{◌≡◌, true, IfOk};
ghost use Rattle.vh_design_nodes.specs.Fits.{is_unit};
ghost use Rattle.vh_bind.specs.declared.scope.Mode.TheVariants as mode;
ghost use Rattle.vh_bind.specs.Nodes.{IsSound};
ghost use Rattle.vh_bind.specs.Views.{scope_seen};
ghost use Rattle.vh_bind_stmt.specs.Views.{surroundings_seen};
ghost use Rattle.vh_lower.specs.Views.{Stands, added_seen};

use crate::texts::{show_operation, show_place};
use sqlite_items::Boxed;
use std::alloc::Global;
use std::process::Abort;
use std::test::Fail;
use vh_ast::{Delay, Expr, Simple, Stmt, StmtForm, TaskDirection};
use vh_base::{ExprId, NoMemory, ObjId, Place, Sequence};
use vh_bind::{Genvar, Mode, Routine, Scope, push};
use vh_bind_scope::{Meaning, Names, Top};
use vh_bind_stmt::{Argument, Arguments, Surroundings};
use vh_design_code::{Code, Edge, Instruction, Operation, Pause, Single, Term, WaitInfo};
use vh_design_nodes::{Detail, ExprKind, ExprNode, Kind, ObjectInfo, Range};
use vh_lex::Lexer;
use vh_logic::Vec4;
use vh_lower::{Added, LowerFault, Lowered, Maker, drive_code, initial_code, lower};
use vh_lower_flow::CodeKind;
use vh_parse_stmt::parse_stmt;

// What is declared in the module: the parameter `P` [7:0], which is 5; the net `w`; `r` and `q`
// [7:0], `k` an integer and `s` of one digit; the memory `m` of 4 bytes; the event `e`; the function
// `f` of one argument with its result, its argument `x`; the task `t` with an input `i` and an output
// `o`, the task `u` without any, the task `v` with an `inout`; the blocks `b` and `j`; the function `h` of an
// output, an input and an `inout`.
#[derive(Drop)]
struct World {
    names: Names,
    around: Vec<ObjId>,
    genvars: Vec<Genvar>,
    objects: Vec<ObjectInfo>,
    arguments: Vec<Arguments>,
    routines: Vec<Routine>,
}

impl World {
    fn new(alloc: Global) -> Result<World, NoMemory> {
        let mut world = World {
            names: Names::new(alloc),
            around: Vec::from_slice(alloc, &[ObjId::new(0)])?,
            genvars: Vec::new(alloc),
            objects: Vec::new(alloc),
            arguments: arguments(alloc)?,
            routines: routines(alloc)?,
        };
        world.object(alloc, Kind::Module, 1, Detail::Plain)?;
        let five = Detail::Value(ExprId::new(0));
        world.vector(alloc, Kind::Parameter, b"P", 8, five)?;
        world.vector(alloc, Kind::Net, b"w", 8, Detail::Plain)?;
        world.vector(alloc, Kind::Reg, b"r", 8, Detail::Plain)?;
        world.vector(alloc, Kind::Reg, b"q", 8, Detail::Plain)?;
        world.vector(alloc, Kind::IntegerVar, b"k", 32, Detail::Plain)?;
        world.vector(alloc, Kind::Reg, b"s", 1, Detail::Plain)?;
        world.vector(alloc, Kind::Memory, b"m", 8, Detail::Memory(0))?;
        world.vector(alloc, Kind::NamedEvent, b"e", 1, Detail::Plain)?;
        world.declare_routines(alloc)?;
        Ok(world)
    }

    fn declare_routines(&mut self, alloc: Global) -> Result<(), NoMemory> {
        self.vector(alloc, Kind::Function, b"f", 1, Detail::Routine(0))?;
        let id = self.object(alloc, Kind::Reg, 8, Detail::Plain)?;
        let range = Range { left: 7, right: 0 };
        self.names
            .declare(alloc, ObjId::new(9), b"f", Meaning::Result { id, range })?;
        self.object(alloc, Kind::Reg, 8, Detail::Plain)?;
        self.vector(alloc, Kind::Task, b"t", 1, Detail::Routine(1))?;
        self.object(alloc, Kind::Reg, 8, Detail::Plain)?;
        self.object(alloc, Kind::Reg, 8, Detail::Plain)?;
        self.vector(alloc, Kind::Task, b"u", 1, Detail::Routine(2))?;
        self.vector(alloc, Kind::Task, b"v", 1, Detail::Routine(3))?;
        self.object(alloc, Kind::Reg, 8, Detail::Plain)?;
        self.vector(alloc, Kind::NamedBegin, b"b", 1, Detail::Plain)?;
        self.vector(alloc, Kind::NamedFork, b"j", 1, Detail::Plain)?;
        self.vector(alloc, Kind::Function, b"h", 1, Detail::Routine(4))?;
        for _variable in 0..4 {
            self.object(alloc, Kind::Reg, 8, Detail::Plain)?;
        }
        Ok(())
    }

    fn vector(
        &mut self,
        alloc: Global,
        kind: Kind,
        name: &[u8],
        width: u32,
        detail: Detail,
    ) -> Result<(), NoMemory> {
        let id = self.object(alloc, kind, width, detail)?;
        let range = Range {
            left: width.saturating_sub(1),
            right: 0,
        };
        self.names
            .declare(alloc, ObjId::new(0), name, Meaning::Object { id, range })?;
        Ok(())
    }

    fn object(
        &mut self,
        alloc: Global,
        kind: Kind,
        width: u32,
        detail: Detail,
    ) -> Result<ObjId, NoMemory> {
        let id = ObjId::new(u32::try_from(self.objects.len()).unwrap_or(0));
        let words = match kind {
            Kind::Memory => 4,
            _ => 0,
        };
        let object = ObjectInfo {
            kind,
            name: Sequence::from_slice(alloc, b"x")?,
            parent: None,
            width,
            signed: false,
            words,
            line: 1,
            detail,
        };
        self.objects.push(object)?;
        Ok(id)
    }
}

fn argument(variable: u32, direction: TaskDirection) -> Argument {
    Argument {
        variable: ObjId::new(variable),
        direction,
    }
}

fn arguments(alloc: Global) -> Result<Vec<Arguments>, NoMemory> {
    let mut all = Vec::new(alloc);
    let one = [argument(11, TaskDirection::Input)];
    all.push(Sequence::from_slice(alloc, &one)?)?;
    let two = [
        argument(13, TaskDirection::Input),
        argument(14, TaskDirection::Output),
    ];
    all.push(Sequence::from_slice(alloc, &two)?)?;
    all.push(Sequence::from_slice(alloc, &[])?)?;
    let both = [argument(17, TaskDirection::Inout)];
    all.push(Sequence::from_slice(alloc, &both)?)?;
    let three = [
        argument(22, TaskDirection::Output),
        argument(23, TaskDirection::Input),
        argument(24, TaskDirection::Inout),
    ];
    all.push(Sequence::from_slice(alloc, &three)?)?;
    Ok(all)
}

fn routine(
    alloc: Global,
    variable: Option<u32>,
    directions: &[TaskDirection],
) -> Result<Routine, NoMemory> {
    Ok(Routine {
        result: variable.map(ObjId::new),
        arguments: Sequence::from_slice(alloc, directions)?,
    })
}

fn routines(alloc: Global) -> Result<Vec<Routine>, NoMemory> {
    let mut all = Vec::new(alloc);
    all.push(routine(alloc, Some(10), &[TaskDirection::Input])?)?;
    let two = [TaskDirection::Input, TaskDirection::Output];
    all.push(routine(alloc, None, &two)?)?;
    all.push(routine(alloc, None, &[])?)?;
    all.push(routine(alloc, None, &[TaskDirection::Inout])?)?;
    let three = [
        TaskDirection::Output,
        TaskDirection::Input,
        TaskDirection::Inout,
    ];
    all.push(routine(alloc, Some(21), &three)?)?;
    Ok(all)
}

const PLACE: Place = Place {
    file: 1,
    line: 1,
    column: 1,
};

fn added(alloc: Global, scope: &Scope) -> Lowered<Added>
    ensures { IfOk result (λ a. IsSound mode.Value (scope_seen scope.now) (added_seen a).exprs) }
{
    let mut added = Added {
        exprs: Vec::new(alloc),
        waits: Vec::new(alloc),
        shows: Vec::new(alloc),
        stmts: Vec::new(alloc),
    };
    let five = ExprKind::Literal(Vec4::from_planes(8, 5, 0, false));
    push(scope, Mode::Value, &mut added.exprs, PLACE, five)?;
    Ok(added)
}

// What is lowered: a statement by what it is of; or the right side of an assignment as the initial value
// of `q`, or as what drives no driver.
#[derive(Clone, Copy)]
enum Wanted {
    Statement(CodeKind),
    Value,
    Driven,
}

fn right_side(stmt: Stmt) -> Option<(Option<Boxed<Delay>>, Boxed<Expr>)> {
    match stmt.form {
        StmtForm::Simple(Simple::Assign { delay, value, .. }) => Some((delay, value)),
        _ => None,
    }
}

fn initial(maker: &mut Maker, stmt: Stmt) -> Lowered<Code>
    requires stands { Stands maker.old }
{
    match right_side(stmt) {
        Some((_, value)) => initial_code(maker, ObjId::new(4), value.get()),
        None => Err(LowerFault::PassedOver),
    }
}

fn driven(maker: &mut Maker, stmt: Stmt) -> Lowered<Code>
    requires stands { Stands maker.old }
{
    let drivers = Sequence::new(Vec::new(maker.alloc));
    match right_side(stmt) {
        Some((delay, value)) => drive_code(maker, drivers, &delay, value.get()),
        None => Err(LowerFault::PassedOver),
    }
}

fn made(maker: &mut Maker, wanted: Wanted, stmt: Stmt) -> Lowered<Code>
    requires stands { Stands maker.old }
{
    match wanted {
        Wanted::Statement(kind) => lower(maker, kind, &stmt),
        Wanted::Value => initial(maker, stmt),
        Wanted::Driven => driven(maker, stmt),
    }
}

fn made_beside(
    alloc: Global,
    around: &Surroundings,
    wanted: Wanted,
    stmt: Stmt,
) -> Lowered<(Code, Added)>
    requires unit { is_unit (surroundings_seen around.now).scope.precision
        (surroundings_seen around.now).scope.unit ≡ true }
{
    let mut added = added(alloc, around.scope)?;
    let mut maker = Maker {
        alloc,
        around,
        added: &mut added,
    };
    let code = made(&mut maker, wanted, stmt)?;
    Ok((code, added))
}

fn lowered_in<'s>(
    alloc: Global,
    scope: &'s Scope,
    arguments: &'s [Arguments],
    wanted: Wanted,
    stmt: Stmt,
) -> Lowered<(Code, Added)>
    requires unit { is_unit (scope_seen scope.now).precision (scope_seen scope.now).unit ≡ true }
{
    let around = Surroundings { scope, arguments };
    made_beside(alloc, &around, wanted, stmt)
}

fn lowered(alloc: Global, world: &World, wanted: Wanted, stmt: Stmt) -> Lowered<(Code, Added)> {
    let five = ExprNode {
        kind: ExprKind::Literal(Vec4::from_planes(8, 5, 0, false)),
        width: 8,
        signed: false,
    };
    let values = [five];
    let scope = Scope {
        names: &world.names,
        around: &world.around,
        top: Top {
            id: ObjId::new(0),
            name: b"top",
        },
        genvars: &world.genvars,
        objects: &world.objects,
        exprs: &values,
        routines: &world.routines,
        unit: 9,
        precision: 6,
    };
    lowered_in(alloc, &scope, &world.arguments, wanted, stmt)
}

fn single_letter(single: Single) -> &'static str {
    match single {
        Single::Show(_) => "$",
        Single::Finish => "F",
        Single::Stop => "S",
        Single::Trigger(_) => "T",
        Single::Disable(_) => "D",
        Single::Force { .. } => "X",
        Single::Release(_) => "R",
        Single::Procedural { .. } => "P",
        Single::Deassign(_) => "Q",
    }
}

fn letter(operation: &Operation) -> &'static str {
    match operation {
        Operation::Assign { .. } => "=",
        Operation::Hold { .. } => "h",
        Operation::Store(_) => "s",
        Operation::Schedule(_) => "n",
        Operation::Pause(Pause::Wait(_)) => "#",
        Operation::Pause(Pause::Await(_)) => "@",
        Operation::Pause(Pause::WaitFor { .. }) => "w",
        Operation::Enter { .. } => "(",
        Operation::Leave(_) => ")",
        Operation::Single(single) => single_letter(*single),
        Operation::End => "e",
        Operation::Initial { .. } => "i",
        Operation::Drive(_) => "d",
        _ => "?",
    }
}

fn show_instruction(text: &mut String, instruction: &Instruction) -> Result<(), NoMemory> {
    if instruction.first {
        text.push_str("!")?;
    }
    show_operation(text, &instruction.operation, letter(&instruction.operation))?;
    if let Some(stmt) = instruction.stmt {
        write!(text, "{{{stmt}}}")?;
    }
    text.push_str(">")?;
    show_place(text, instruction.next)
}

fn shown(alloc: Global, code: &Code) -> Result<String, NoMemory> {
    let mut text = String::new(alloc);
    let mut first = true;
    for instruction in code.instructions.as_slice() {
        if !first {
            text.push_str(" ")?;
        }
        first = false;
        show_instruction(&mut text, instruction)?;
    }
    Ok(text)
}

fn show_term(text: &mut String, term: Term) -> Result<(), NoMemory> {
    match term {
        Term::Digits {
            object,
            low,
            width,
            edge,
        } => {
            let letter = match edge {
                Edge::Any => "",
                Edge::Rising => "+",
                Edge::Falling => "-",
            };
            write!(
                text,
                "{object}.{low}.{width}{letter}",
                object = object.number()
            )?;
        }
        Term::Event(object) => write!(text, "e{object}", object = object.number())?,
        Term::Reads(object) => write!(text, "{object}", object = object.number())?,
    }
    Ok(())
}

fn shown_waits(alloc: Global, waits: &[WaitInfo]) -> Result<String, NoMemory> {
    let mut text = String::new(alloc);
    for wait in waits {
        text.push_str("(")?;
        for term in wait.terms.as_slice() {
            text.push_str(" ")?;
            show_term(&mut text, *term)?;
        }
        text.push_str(" )")?;
    }
    Ok(text)
}

// What is shown of a statement: its code, or what its waits wait for.
#[derive(Clone, Copy)]
enum View {
    Code,
    Waits,
}

fn answer(alloc: Global, wanted: Wanted, view: View, stmt: Stmt) -> Result<String, Fail> {
    let world = World::new(alloc)?;
    match lowered(alloc, &world, wanted, stmt) {
        Ok((code, added)) => match view {
            View::Code => Ok(shown(alloc, &code)?),
            View::Waits => Ok(shown_waits(alloc, &added.waits)?),
        },
        Err(LowerFault::Refused(fault, place)) => {
            Ok(format!(in alloc; "{fault:?} {column}", column = place.column)?)
        }
        Err(LowerFault::PassedOver) => Ok(format!(in alloc; "passed over")?),
        Err(LowerFault::NoMemory) => Ok(format!(in alloc; "no memory")?),
    }
}

fn read(alloc: Global, wanted: Wanted, view: View, text: &str) -> Result<String, Fail> {
    let mut lexer = Lexer::new(alloc)?;
    if text.len() > 1_000 {
        return Ok(String::new(alloc));
    }
    lexer.file(alloc, 1, text.as_bytes())?;
    let tokens = lexer.tokens().as_slice();
    match parse_stmt(alloc, tokens, 0, false, PLACE) {
        Ok((stmt, _)) => answer(alloc, wanted, view, stmt.into_inner()),
        Err(_) => Ok(format!(in alloc; "not read")?),
    }
}

// A row is a statement and, behind an arrow, what is shown of it.
fn check_rows(
    rt: &impl Abort,
    alloc: Global,
    wanted: Wanted,
    view: View,
    rows: &str,
) -> Result<(), Fail> {
    for row in rows.lines() {
        let (text, told) = row.split_once(" =>").unwrap_or((row, "no arrow"));
        let got = read(alloc, wanted, view, text)?;
        assert_eq!(rt; got.as_str(), told.trim_start(), "{text}");
    }
    Ok(())
}

// Statements alone, in the body of a task.
const STATEMENTS: &str = r#"r = 1; => !={0}>b
r = #5 1; => !h{0}>1 s{0}>b
r <= 1; => !n{0}>b
r <= #5 1; => !n{0}>b
; =>
#5 r = 1; => !#{0}>1 !={1}>b
#5 ; => !#{0}>b
#P r = 1; => !#{0}>1 !={1}>b
@e r = 1; => !@{0}>1 !={1}>b
@(posedge s or negedge r) ; => !@{0}>b
@* r = q; => !@{0}>1 !={1}>b
wait (s) r = 1; => !w{0}>1 !={1}>b
-> e; => !T{0}>b
disable b; => !D{0}>b
disable t; => !D{0}>b
release w; => !R{0}>b
assign r = 1; => !P{0}>b
deassign r; => !Q{0}>b
$display("%d", r); => !${0}>b
$display; => !${0}>b
$finish; => !F{0}>b
$stop(1); => !S{0}>b
{r, s} = 3; => !={0}>b
@(e or posedge s, r) ; => !@{0}>b
@* begin r = m[k]; q = 1; end => !@{0}>1 !={1}>2 !={2}>b
$write("a", r, , "%b", q); => !${0}>b
$strobe("%0d %m %% %5h", r, q); => !${0}>b
$monitor(r); => !${0}>b
r[3:0] = 1; => !={0}>b
r[k] <= 1; => !n{0}>b
m[1][3:0] = 2; => !={0}>b
r[k +: 2] = 1; => !={0}>b
{m[0], {r, q}} = 5; => !={0}>b"#;

#[test]
fn statements(rt: HostRuntime) -> Result<(), Fail> {
    check_rows(
        &rt,
        rt.alloc(),
        Wanted::Statement(CodeKind::Body),
        View::Code,
        STATEMENTS,
    )
}

// Blocks, forks, tests and loops.
const BLOCKS: &str = r#"begin end =>
begin r = 1; q = 2; end => !={0}>1 !={1}>b
begin begin r = 1; end ; begin q = 2; end end => !={0}>1 !={1}>b
if (s) r = 1; => !t/b{0}>1 !={1}>b
if (s) r = 1; else r = 2; => !t/2{0}>1 !={1}>b !={2}>b
if (s) ; else r = 2; => !t/1{0}>b !={1}>b
case (r) 1: q = 1; 2, 3: q = 2; default: q = 3; endcase => !c/1/2/2{0}>3 !={1}>b !={2}>b !={3}>b
case (r) default: q = 3; 1: q = 1; endcase => !c/1{0}>2 !={2}>b !={1}>b
for (k = 0; k < 3; k = k + 1) r = k; => !={0}>1 t/b{0}>2 !={1}>3 ={0}>4 t/b{0}>2
while (s) r = 1; => !t/b{0}>1 !={1}>2 t/b{0}>1
repeat (3) r = 1; => !r/b{0}>1 !={1}>2 a/b{0}>1
forever #5 r = 1; => !u{0}>1 !#{1}>2 !={2}>3 u{0}>1
fork r = 1; #5 q = 2; join => !f/1/3{0}>b !={1}>2 e>b !#{2}>4 !={3}>5 e>b
fork join => !f{0}>b
begin : b r = 1; end => !={0}>b
force w = 1; => !X{0}>b
if (s) begin end => !t/b{0}>b
while (s) ; => !t/b{0}>1 t/b{0}>1
repeat (3) ; => !r/b{0}>1 a/b{0}>1
forever ; => !u{0}>1 u{0}>1
for (k = 0; k < 3; k = k + 1) ; => !={0}>1 t/b{0}>2 ={0}>3 t/b{0}>2
casez (r) 8'b1?: q = 1; default ; endcase => !c/1{0}>b !={1}>b
casex (r) 1, 2: ; 3: q = 1; endcase => !c/b/b/1{0}>b !={1}>b
fork : j begin r = 1; q = 2; end ; join => !f/1/4{0}>b !={1}>2 !={2}>3 e>b e>b
begin : b #1 ; disable b; end => !#{0}>1 !D{1}>b"#;

#[test]
fn blocks_and_loops(rt: HostRuntime) -> Result<(), Fail> {
    check_rows(
        &rt,
        rt.alloc(),
        Wanted::Statement(CodeKind::Body),
        View::Code,
        BLOCKS,
    )
}

// Calls of tasks and functions.
const CALLS: &str = r#"t(r, q); => !({0}>1 ){0}>b
u; => !({0}>1 ){0}>b
v(r); => !({0}>1 ){0}>b
r = f(q); => !({0}>1 ){0}>2 ={0}>b
r = f(f(q)) + f(1); => !({0}>1 ){0}>2 ({0}>3 ){0}>4 ({0}>5 ){0}>6 ={0}>b
m[f(1)] = 2; => !({0}>1 ){0}>2 ={0}>b
m[f(1)] = #5 2; => !h{0}>1 ({0}>2 ){0}>3 s{0}>b
if (f(1)) r = 1; => !({0}>1 ){0}>2 t/b{0}>3 !={1}>b
while (f(1)) r = 1; => !({0}>1 ){0}>2 t/b{0}>3 !={1}>4 ({0}>5 ){0}>6 t/b{0}>3
t(f(1), m[f(2)]); => !({0}>1 ){0}>2 ({0}>3 ({0}>4 ){0}>5 ){0}>b
r = h(q, 1, s); => !({0}>1 ){0}>2 ={0}>b
r = h(m[f(1)], f(2), {s, q}); => !({0}>1 ){0}>2 ({0}>3 ({0}>4 ){0}>5 ){0}>6 ={0}>b
r = h(q, h(r, 1, s), m[h(q, 1, k)]); => !({0}>1 ){0}>2 ({0}>3 ){0}>4 ({0}>5 ({0}>6 ){0}>7 ){0}>8 ={0}>b
$display("%d", f(r)); => !({0}>1 ){0}>2 ${0}>b
#(f(1)) ; => !({0}>1 ){0}>2 #{0}>b
repeat (f(1)) r = 1; => !({0}>1 ){0}>2 r/b{0}>3 !={1}>4 a/b{0}>3
case (f(1)) f(2): r = 1; endcase => !({0}>1 ){0}>2 ({0}>3 ){0}>4 c/5{0}>b !={1}>b
for (k = f(0); f(1); k = f(2)) r = 1; => !({0}>1 ){0}>2 ={0}>3 ({0}>4 ){0}>5 t/b{0}>6 !={1}>7 ({0}>8 ){0}>9 ={0}>10 ({0}>11 ){0}>12 t/b{0}>6"#;

#[test]
fn calls(rt: HostRuntime) -> Result<(), Fail> {
    check_rows(
        &rt,
        rt.alloc(),
        Wanted::Statement(CodeKind::Body),
        View::Code,
        CALLS,
    )
}

// The first fault, with its column.
const REFUSED: &str = r#"z = 1; => N1 1
w = 1; => N5 1
P = 1; => N5 1
m = 1; => N1 1
r = z; => N1 5
{k, k, s} = 3; => N3 1
{r, w} = 3; => N5 5
-> r; => N1 4
disable f; => N1 9
disable r; => N1 9
force {w, r} = 1; => N5 7
force r[1] = 1; => N5 7
assign w = 1; => N5 8
release m; => N5 9
@(r + 1) ; => N6 3
@(m) ; => N6 3
@(r[q]) ; => N6 3
@(posedge e) ; => N6 11
@z ; => N1 2
t(r); => N7 1
r; => N1 1
t(r, 1); => N5 6
t(r, w); => N5 6
r = h(w, 1, s); => N5 7
r = h(q, 1, 1); => N5 13
r = h(P, 1, s); => N5 7
r = h(m, 1, s); => N1 7
r = h(q + 1, 1, s); => N5 7
r = h({q, w}, 1, s); => N5 11
r = h({k, k, s}, 1, s); => N3 7
r = h(w, z, s); => N5 7
r = h(q, z, w); => N1 10
r = h(z, z, w); => N1 7
r = h(q, 1); => N7 5
$foo; => N10 1
$finish(r); => N10 1
$display("%d"); => N10 1
$display("%y", r); => N10 1
$display("%05d", r); => N10 1
$display("%d", , z); => N10 1
begin r = z; w = 1; end => N1 11
begin : c r = 1; end => N1 9
r[0][1] = 1; => N1 1
m[0:1] = 1; => N1 1
r[1:2] = 1; => N3 2
@(r[0][1]) ; => N6 3
t(1); => N7 1
$stop(1, 2); => N10 1
$display("%d%d", r); => N10 1
$display("%1000d", r); => N10 1
$display("%5%"); => N10 1
if (z) w = 1; => N1 5
case (r) z: w = 1; endcase => N1 10
f(1); => N1 1
force z = 1; => N1 7
release r[0]; => N5 9
assign {r} = 1; => N5 8
#z ; => N1 2
#m ; => N1 2
r <= #w f(z); => N1 11"#;

#[test]
fn refused(rt: HostRuntime) -> Result<(), Fail> {
    check_rows(
        &rt,
        rt.alloc(),
        Wanted::Statement(CodeKind::Body),
        View::Code,
        REFUSED,
    )
}

// The statement of an `initial`.
const INITIALS: &str = r#"r = 1; => !={0}>1 e>b"#;

#[test]
fn of_an_initial(rt: HostRuntime) -> Result<(), Fail> {
    check_rows(
        &rt,
        rt.alloc(),
        Wanted::Statement(CodeKind::Initial),
        View::Code,
        INITIALS,
    )
}

// The statement of an `always`.
const ALWAYS: &str = r#"#5 r = 1; => u>1 !#{0}>2 !={1}>0"#;

#[test]
fn of_an_always(rt: HostRuntime) -> Result<(), Fail> {
    check_rows(
        &rt,
        rt.alloc(),
        Wanted::Statement(CodeKind::Always),
        View::Code,
        ALWAYS,
    )
}

// What statements wait for: objects by their numbers, with the lowest digit, the number of digits
// and the edge where an event control names them, and `e` before an event.
const WAITS: &str = r#"@* r = q + m[k]; => ( 4 5 7 )
@* m[q] = s; => ( 4 6 )
@* t(q, r); => ( 4 )
@* v(q); => ( 4 )
@* r = f(q + s); => ( 4 6 )
@* if (q) r = s; else #k r = w; => ( 4 6 5 2 )
@* case (q) s: r = k; default: r = w; endcase => ( 4 6 5 2 )
@* wait (q) r = s; => ( 4 )( 4 6 )
@* @(s) r = q; => ( 6.0.1 )( 4 )
@* $display("%d", q, , m[0]); => ( 4 7 )
@* force r = q; => ( 4 )
@* for (k = q; k < s; k = k + 1) r = w; => ( 4 5 6 5 2 )
wait (q & m[s]) ; => ( 4 6 7 )
@(posedge s or negedge r[2] or r[3:1] or e) ; => ( 6.0.1+ 3.2.1- 3.1.3 e8 )
@* begin r = q; @* r = s; end => ( 6 )( 4 6 )"#;

#[test]
fn waits(rt: HostRuntime) -> Result<(), Fail> {
    check_rows(
        &rt,
        rt.alloc(),
        Wanted::Statement(CodeKind::Body),
        View::Waits,
        WAITS,
    )
}

// The right side as the initial value of `q`.
const VALUES: &str = r#"r = 5; => i>b
r = f(q); => (>1 )>2 i>b
r = z; => N1 5"#;

#[test]
fn values(rt: HostRuntime) -> Result<(), Fail> {
    check_rows(&rt, rt.alloc(), Wanted::Value, View::Code, VALUES)
}

// The right side as what drives no driver.
const DRIVES: &str = r#"r = q; => d>0
r = f(q); => (>1 )>2 d>0
r = #(f(1)) f(2); => (>1 )>2 (>3 )>4 d>0
r = #z y; => N1 6"#;

#[test]
fn drives(rt: HostRuntime) -> Result<(), Fail> {
    check_rows(&rt, rt.alloc(), Wanted::Driven, View::Code, DRIVES)
}

// What it waits for.
const DRIVE_WAITS: &str = r#"r = #k q + f(s); => ( 4 6 )"#;

#[test]
fn waits_of_a_drive(rt: HostRuntime) -> Result<(), Fail> {
    check_rows(&rt, rt.alloc(), Wanted::Driven, View::Waits, DRIVE_WAITS)
}

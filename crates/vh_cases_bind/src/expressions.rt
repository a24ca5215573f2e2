//! Expressions over the objects of a module, with their values, or their faults and places.

use crate::genvar::two;
use std::alloc::Global;
use std::test::Fail;
use vh_ast::{Expr, ExprForm, Primary, TaskDirection};
use vh_base::{ExprId, NoMemory, ObjId, Object, Place, Sequence};
use vh_bind::{ElabFault, Genvar, Mode, Routine, Scope, push};
use vh_bind_expr::bind_expr;
use vh_bind_scope::{Meaning, Names, Top};
use vh_design::{Design, Detail, ExprKind, ExprNode, Kind, ObjectInfo, Parts, Range};
use vh_eval::eval;
use vh_lex::Lexer;
use vh_logic::{Digit, Vec4};
use vh_parse_expr::parse_expr;
use vh_store::Store;

const TOP: u32 = 0;

// The function `f` of two arguments, with a result of 4 digits.
const FUNCTION: u32 = 10;

// The function `h` of an output, an input and an `inout`, with a result of 4 digits.
const WITH_OUTPUTS: u32 = 15;

// What is declared in the module: the objects from 1 on are `P` `[7:0]` and `S`, signed, which have the
// values 5 and -1, `U`, which has none; the net `w`, which holds 0f; `r` `[7:0]` and `d` `[0:7]`, which
// hold a5; `k`, signed, which holds -2; the memory `m`, whose word at 2 holds 3c; the event `e`; `f`, its result, the task `t`,
// and the block `b` with a `y`, which holds 77; `h` and its result.
#[derive(Drop)]
struct World {
    names: Names,
    around: Vec<ObjId>,
    genvars: Vec<Genvar>,
    objects: Vec<ObjectInfo>,
}

impl World {
    fn new(alloc: Global) -> Result<World, NoMemory> {
        let mut world = World {
            names: Names::new(alloc),
            around: Vec::from_slice(alloc, &[ObjId::new(TOP)])?,
            genvars: Vec::new(alloc),
            objects: Vec::new(alloc),
        };
        world.object(alloc, Kind::Module, b"top", 1, false, Detail::Plain)?;
        world.parameters(alloc)?;
        world.variables(alloc)?;
        world.scopes(alloc)?;
        world.others(alloc)?;
        Ok(world)
    }

    fn parameters(&mut self, alloc: Global) -> Result<(), NoMemory> {
        let five = Detail::Value(ExprId::new(0));
        self.declared(alloc, Kind::Parameter, b"P", (7, 0), false, five)?;
        let minus = Detail::Value(ExprId::new(1));
        self.declared(alloc, Kind::Parameter, b"S", (3, 0), true, minus)?;
        self.declared(alloc, Kind::Parameter, b"U", (7, 0), false, Detail::Plain)
    }

    fn variables(&mut self, alloc: Global) -> Result<(), NoMemory> {
        self.declared(alloc, Kind::Net, b"w", (7, 0), false, Detail::Plain)?;
        self.declared(alloc, Kind::Reg, b"r", (7, 0), false, Detail::Plain)?;
        self.declared(alloc, Kind::Reg, b"d", (0, 7), false, Detail::Plain)?;
        self.declared(alloc, Kind::IntegerVar, b"k", (31, 0), true, Detail::Plain)?;
        self.declared(alloc, Kind::Memory, b"m", (7, 0), false, Detail::Memory(2))?;
        self.declared(alloc, Kind::NamedEvent, b"e", (0, 0), false, Detail::Plain)
    }

    fn scopes(&mut self, alloc: Global) -> Result<(), NoMemory> {
        self.declared(
            alloc,
            Kind::Function,
            b"f",
            (0, 0),
            false,
            Detail::Routine(0),
        )?;
        let id = self.object(alloc, Kind::Reg, b"f", 4, true, Detail::Plain)?;
        let range = Range { left: 3, right: 0 };
        let result = Meaning::Result { id, range };
        self.names
            .declare(alloc, ObjId::new(FUNCTION), b"f", result)?;
        self.declared(alloc, Kind::Task, b"t", (0, 0), false, Detail::Routine(1))?;
        let block = self.object(alloc, Kind::NamedBegin, b"b", 1, false, Detail::Plain)?;
        let range = Range { left: 0, right: 0 };
        self.mean(alloc, b"b", Meaning::Object { id: block, range })?;
        let id = self.object(alloc, Kind::Reg, b"y", 8, false, Detail::Plain)?;
        let range = Range { left: 7, right: 0 };
        let inside = Meaning::Object { id, range };
        self.names.declare(alloc, block, b"y", inside)?;
        self.declared(
            alloc,
            Kind::Function,
            b"h",
            (0, 0),
            false,
            Detail::Routine(2),
        )?;
        self.object(alloc, Kind::Reg, b"h", 4, true, Detail::Plain)?;
        Ok(())
    }

    // The genvar `i` is 2, and `j` stands in a loop of its own.
    fn others(&mut self, alloc: Global) -> Result<(), NoMemory> {
        self.mean(alloc, b"g", Meaning::Gate)?;
        self.mean(alloc, b"lp", Meaning::Blocks)?;
        self.mean(alloc, b"i", Meaning::Genvar)?;
        self.mean(alloc, b"j", Meaning::Genvar)?;
        self.genvars.push(two(alloc)?)?;
        Ok(())
    }

    fn mean(&mut self, alloc: Global, name: &[u8], meaning: Meaning) -> Result<(), NoMemory> {
        self.names.declare(alloc, ObjId::new(TOP), name, meaning)?;
        Ok(())
    }

    fn declared(
        &mut self,
        alloc: Global,
        kind: Kind,
        name: &[u8],
        bounds: (u32, u32),
        signed: bool,
        detail: Detail,
    ) -> Result<(), NoMemory> {
        let width = bounds.0.abs_diff(bounds.1) % 64 + 1;
        let id = self.object(alloc, kind, name, width, signed, detail)?;
        let range = Range {
            left: bounds.0,
            right: bounds.1,
        };
        self.mean(alloc, name, Meaning::Object { id, range })
    }

    fn object(
        &mut self,
        alloc: Global,
        kind: Kind,
        name: &[u8],
        width: u32,
        signed: bool,
        detail: Detail,
    ) -> Result<ObjId, NoMemory> {
        let id = ObjId::new(u32::try_from(self.objects.len()).unwrap_or(0));
        let words = match kind {
            Kind::Memory => 4,
            _ => 0,
        };
        let object = ObjectInfo {
            kind,
            name: Sequence::from_slice(alloc, name)?,
            parent: None,
            width,
            signed,
            words,
            line: 1,
            detail,
        };
        self.objects.push(object)?;
        Ok(id)
    }
}

const PLACE: Place = Place {
    file: 1,
    line: 1,
    column: 1,
};

fn routine(
    alloc: Global,
    variable: Option<u32>,
    directions: &[TaskDirection],
) -> Result<Routine, NoMemory> {
    Ok(Routine {
        result: variable.map(ObjId::new),
        arguments: Sequence::from_slice(alloc, directions)?,
    })
}

fn literal(value: Vec4) -> ExprNode {
    ExprNode {
        kind: ExprKind::Literal(value),
        width: value.width(),
        signed: value.is_signed(),
    }
}

// The expressions that an expression of the module adds to those of the parameters' values, and the
// number of its last one.
fn bound(
    alloc: Global,
    world: &World,
    e: &Expr,
) -> Result<Option<(Vec<ExprNode>, ExprId)>, ElabFault> {
    let top = Top {
        id: ObjId::new(TOP),
        name: b"top",
    };
    let two = [TaskDirection::Input, TaskDirection::Input];
    let three = [
        TaskDirection::Output,
        TaskDirection::Input,
        TaskDirection::Inout,
    ];
    let routines = [
        routine(alloc, Some(FUNCTION + 1), &two)?,
        routine(alloc, None, &[])?,
        routine(alloc, Some(WITH_OUTPUTS + 1), &three)?,
    ];
    let values = [
        literal(Vec4::from_planes(8, 5, 0, false)),
        literal(Vec4::from_planes(4, 15, 0, true)),
    ];
    let scope = Scope {
        names: &world.names,
        around: &world.around,
        top,
        genvars: &world.genvars,
        objects: &world.objects,
        exprs: &values,
        routines: &routines,
        unit: 9,
        precision: 6,
    };
    let mut nodes = Vec::new(alloc);
    let five = ExprKind::Literal(Vec4::from_planes(8, 5, 0, false));
    push(&scope, Mode::Value, &mut nodes, PLACE, five)?;
    let minus = ExprKind::Literal(Vec4::from_planes(4, 15, 0, true));
    push(&scope, Mode::Value, &mut nodes, PLACE, minus)?;
    let number = bind_expr(alloc, &mut nodes, &scope, e)?;
    Ok(number.map(|number| (nodes, number)))
}

// The expression of a text.
fn parsed(alloc: Global, text: &[u8]) -> Result<Option<Expr>, Fail> {
    let mut lexer = Lexer::new(alloc)?;
    if text.len() > 1_000 {
        return Ok(None);
    }
    lexer.file(alloc, 1, text)?;
    match parse_expr(alloc, lexer.tokens(), 0, 0, true, PLACE) {
        Ok((expr, _)) => Ok(Some(expr)),
        Err(_) => Ok(None),
    }
}

// The value of an expression where the objects hold what they hold; none where its design can't be
// built.
fn value_of(alloc: Global, exprs: Vec<ExprNode>, e: ExprId) -> Result<Option<Vec4>, NoMemory> {
    let world = World::new(alloc)?;
    let mut objects = world.objects;
    for object in &mut objects {
        if matches!(object.detail, Detail::Routine(_)) {
            object.detail = Detail::Plain;
        }
    }
    let count = exprs.len();
    if objects.len() > 99 || count > 999 {
        return Ok(None);
    }
    let parts = Parts {
        objects,
        exprs,
        drivers: Vec::new(alloc),
        codes: Vec::new(alloc),
        bodies: Vec::new(alloc),
        waits: Vec::new(alloc),
        shows: Vec::new(alloc),
        stmts: Vec::new(alloc),
        precision: 6,
    };
    let Some(design) = Design::build(parts) else {
        return Ok(None);
    };
    let mut store = Store::new(alloc, &design)?;
    hold(&mut store, 4, None, &Vec4::from_planes(8, 0x0f, 0, false));
    hold(&mut store, 5, None, &Vec4::from_planes(8, 0xa5, 0, false));
    hold(&mut store, 6, None, &Vec4::from_planes(8, 0xa5, 0, false));
    hold(
        &mut store,
        7,
        None,
        &Vec4::from_planes(32, 0xffff_fffe, 0, true),
    );
    hold(
        &mut store,
        8,
        Some(2),
        &Vec4::from_planes(8, 0x3c, 0, false),
    );
    hold(&mut store, 14, None, &Vec4::from_planes(8, 0x77, 0, false));
    store.set_time(1_500);
    if (e.number() as usize) < count {
        let value = eval(&design, &store, e, design.width(e), design.is_signed(e));
        return Ok(Some(value));
    }
    Ok(None)
}

fn hold(store: &mut Store, id: u32, word: Option<u32>, value: &Vec4) {
    let object = Object {
        id: ObjId::new(id),
        word,
    };
    store.put(object, value);
}

fn same(a: &Vec4, b: &Vec4) -> bool {
    a.width() == b.width()
        && a.is_signed() == b.is_signed()
        && a.aval() == b.aval()
        && a.bval() == b.bval()
}

// Whether a value is the number that a text spells.
fn is_number(alloc: Global, value: &Vec4, text: &[u8]) -> Result<bool, Fail> {
    let Some(expr) = parsed(alloc, text)? else {
        return Ok(false);
    };
    match &expr.form {
        ExprForm::Primary(Primary::Number(n)) => Ok(same(value, &n.value)),
        _ => Ok(false),
    }
}

// The value of an expression of the module: `1'bz`, which no row wants, where its design can't be
// built.
fn evaluated(alloc: Global, world: &World, expr: &Expr) -> Result<Option<Vec4>, ElabFault> {
    let Some((exprs, e)) = bound(alloc, world, expr)? else {
        return Ok(None);
    };
    let value = value_of(alloc, exprs, e)?;
    Ok(Some(value.unwrap_or(Vec4::filled(1, Digit::Z, false))))
}

// Whether it is what a row wants: a value, `none`, or a fault with its column.
fn answered(
    alloc: Global,
    answer: Result<Option<Vec4>, ElabFault>,
    wanted: &str,
) -> Result<bool, Fail> {
    match answer {
        Ok(None) => Ok(wanted == "none"),
        Ok(Some(value)) => is_number(alloc, &value, wanted.as_bytes()),
        Err(ElabFault::Refused(fault, place)) => {
            let text = format!(in alloc; "{fault:?} {column}", column = place.column)?;
            Ok(text.as_str() == wanted)
        }
        Err(ElabFault::NoMemory) => Ok(false),
    }
}

// Whether an expression has the answer of its row.
fn holds(alloc: Global, world: &World, text: &str, wanted: &str) -> Result<bool, Fail> {
    let Some(expr) = parsed(alloc, text.as_bytes())? else {
        return Ok(false);
    };
    answered(alloc, evaluated(alloc, world, &expr), wanted)
}

// Worked out by hand from IEEE 1364-2005, 4.9, 4.10, clause 5, 10.4 and 12.5.
static ROWS: &str = "r => 8'ha5
w => 8'h0f
k => 32'shfffffffe
P => 8'd5
S => 4'shf
i => 32'sd2
top.r => 8'ha5
b.y => 8'h77
top.b.y => 8'h77
top.P => 8'd5
f => N1 1
f.f => 4'shx
r[0] => 1'b1
r[1] => 1'b0
r[8] => 1'bx
r[k] => 1'bx
r[i] => 1'b1
r[r[0]] => 1'b0
d[0] => 1'b1
d[7] => 1'b1
r[7:4] => 4'ha
r[0:0] => 1'b1
d[0:3] => 4'ha
r[P:i] => 4'b1001
r[4+:4] => 4'ha
r[7-:4] => 4'ha
r[r[1]+:4] => 4'h5
d[0+:4] => 4'ha
d[3-:4] => 4'ha
r[P-:P] => 5'b10010
P[0] => 1'b1
P[r[1]] => 1'b1
P[2:1] => 2'b10
S[1-:2] => 2'b11
i[1] => 1'b1
i[1:0] => 2'b10
m[2] => 8'h3c
m[3] => 8'hxx
m[9] => 8'hxx
m[i] => 8'h3c
m[k + 4] => 8'h3c
m[2][2] => 1'b1
m[2][5:2] => 4'hf
m[2][r[1]+:3] => 3'b100
r + 1 => 32'ha6
r + d => 8'h4a
-k => 32'sd2
k < 0 => 1'b1
k + S => 32'shfffffffd
r > 8'h10 && k < 0 => 1'b1
r ? k : S => 32'shfffffffe
{r, d[0:3]} => 12'ha5a
{2{r}} => 16'ha5a5
{i{r[7]}} => 2'b11
$signed(r) => 8'sha5
$unsigned(k) => 32'hfffffffe
$time => 64'd2
f(1, r) => 4'shx
f(f(1, 2), r[0]) => 4'shx
h(r, 1, k) => 4'shx
h({r, {d, m[0]}}, f(1, 2), m[f(r, k)][3:0]) => 4'shx
h(r, h(d, 1, k), m[h(r, 2, k)]) => 4'shx
1 + h(r[U:0], 1, k) => none
top.f(1, 2) => 4'shx
\"ab\" => 16'h6162
U => none
r + U => none
U[r] => none
{U{r}} => none
r[U:0] => none
m[U] => none
f(U, 1) => none
nothing => N1 1
r + nothing => N1 5
m => N1 1
m + 1 => N1 1
m[3:0] => N1 1
m[1+:2] => N1 1
r[1][0] => N1 1
P[1][0] => N1 1
i[1][0] => N1 1
e => N1 1
j => N1 1
t => N1 1
b => N1 1
g => N1 1
lp => N1 1
top => N1 1
b.nothing => N1 1
nothing.r => N1 1
lp[2].x => N1 1
r[0].x => N1 1
t(1) => N1 1
r(1) => N1 1
nothing(1) => N1 1
f.f(1, 2) => N1 1
r[nothing] => N1 3
m[nothing] => N1 3
m[nothing][9:0] => N1 3
f(1) => N7 1
f(1, 2, 3) => N7 1
r + f(1) => N7 5
top.f(1) => N7 1
f(f(1), 2) => N7 3
h(r, 1) => N7 1
h(w, 1, k) => N5 3
h(P, 1, k) => N5 3
h(i, 1, k) => N1 3
h(m, 1, k) => N1 3
h(r, 1, f(1, 2)) => N5 9
h((r), 1, k) => N5 3
h({r, 4'd1}, 1, k) => N5 7
h({k, k, r}, 1, k) => N3 3
h(w, nothing, k) => N5 3
h(r, nothing, w) => N1 6
h(r, 1, nothing) => N1 9
h(r[nothing], m, w) => N1 5
f(nothing) => N7 1
f(nothing, m) => N1 3
f(r, m) => N1 6
r[k:0] => N4 3
r[7:k] => N4 5
r[0+:k] => N4 6
m[2][k:0] => N4 6
{k{r}} => N4 2
{r{r}} => N4 2
lp[k].x => N4 4
i[k] => N4 3
r[b.y:0] => N4 3
r[f(1, 2):0] => N4 3
r[0:1] => N3 2
d[1:0] => N3 2
r[-1:0] => N3 2
r[99:0] => N3 2
r[1'bx:0] => N3 2
r[k+:0] => N3 2
r[k-:65] => N3 2
m[2][0:1] => N3 5
{r, 5} => N3 5
{0{r}} => N3 1
{9{r}} => N3 1
{k, k, r} => N3 1
{65{r[0]}} => N3 1
\"123456789\" => N3 1
$time(1) => N10 1
$signed(r, d) => N10 1
$signed => N10 1
$display(r) => N10 1
$random => N10 1
$finish => N10 1
$stime => N10 1
r + $other(1) => N10 5
$signed(nothing) => N1 9
$time(nothing) => N10 1
m[nothing] + m => N1 3
{5, nothing} => N3 2
{nothing, 5} => N1 2
r[0:1] + nothing => N3 2
nothing ? m : r[0:1] => N1 1
r[nothing:k] => N1 3
r[k:nothing] => N4 3";

#[test]
fn expressions_have_their_values_and_faults(rt: HostRuntime) -> Result<(), Fail> {
    let alloc = rt.alloc();
    let world = World::new(alloc)?;
    let mut failing = String::new(alloc);
    for row in ROWS.lines() {
        let (text, wanted) = row.split_once(" => ").unwrap_or((row, ""));
        if !holds(alloc, &world, text, wanted)? {
            failing.push_str(row)?;
            failing.push_str("; ")?;
        }
    }
    assert!(rt; failing.is_empty(), "{failing}");
    Ok(())
}

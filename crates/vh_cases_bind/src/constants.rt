//! Constant expressions with their values, or their faults and places.

use crate::genvar::two;
use std::alloc::Global;
use std::test::Fail;
use vh_ast::{Expr, ExprForm, Name, Primary};
use vh_base::{ExprId, NoMemory, ObjId, Place, Sequence};
use vh_bind::{ElabFault, Genvar, Scope, constant, meaning};
use vh_bind_scope::{Meaning, Names, Top};
use vh_design::{Detail, ExprKind, ExprNode, Kind, ObjectInfo, Range};
use vh_lex::Lexer;
use vh_logic::Vec4;
use vh_parse_expr::parse_expr;

// What is declared in the module: `P` and `R` have 8 digits, `[7:0]` and `[0:7]`, `S` has 4 and is
// signed, `U` has no value; and a name of each other kind.
#[derive(Drop)]
struct World {
    names: Names,
    around: Vec<ObjId>,
    genvars: Vec<Genvar>,
    objects: Vec<ObjectInfo>,
    exprs: Vec<ExprNode>,
}

const TOP: u32 = 0;

impl World {
    fn new(alloc: Global) -> Result<World, NoMemory> {
        let mut world = World {
            names: Names::new(alloc),
            around: Vec::from_slice(alloc, &[ObjId::new(TOP)])?,
            genvars: Vec::new(alloc),
            objects: Vec::new(alloc),
            exprs: Vec::new(alloc),
        };
        world.object(alloc, Kind::Module, b"top", Detail::Plain)?;
        world.parameters(alloc)?;
        world.others(alloc)?;
        world.genvar(alloc)?;
        world.scopes(alloc)?;
        Ok(world)
    }

    fn parameters(&mut self, alloc: Global) -> Result<(), NoMemory> {
        self.parameter(alloc, b"P", (7, 0), Vec4::from_planes(8, 5, 0, false))?;
        self.parameter(alloc, b"R", (0, 7), Vec4::from_planes(8, 0xca, 0, false))?;
        self.parameter(alloc, b"S", (3, 0), Vec4::from_planes(4, 15, 0, true))?;
        let id = self.object(alloc, Kind::Parameter, b"U", Detail::Plain)?;
        self.declare(alloc, b"U", id, (7, 0))
    }

    fn others(&mut self, alloc: Global) -> Result<(), NoMemory> {
        self.other(alloc, Kind::Net, b"w")?;
        self.other(alloc, Kind::Reg, b"r")?;
        self.other(alloc, Kind::Memory, b"m")?;
        self.other(alloc, Kind::NamedEvent, b"e")?;
        self.other(alloc, Kind::Function, b"f")?;
        self.other(alloc, Kind::NamedBegin, b"b")?;
        self.mean(alloc, b"g", Meaning::Gate)?;
        self.mean(alloc, b"lp", Meaning::Blocks)?;
        self.mean(alloc, b"j", Meaning::Genvar)
    }

    // The block `lp[2]` has an `x`, the block `b` a `y`, and the function `f` its result: the objects 12,
    // 13 and 14.
    fn scopes(&mut self, alloc: Global) -> Result<(), NoMemory> {
        let block = self.object(alloc, Kind::GenScope, b"lp[2]", Detail::Plain)?;
        self.declare(alloc, b"lp[2]", block, (0, 0))?;
        self.inside(alloc, block, b"x")?;
        self.inside(alloc, ObjId::new(10), b"y")?;
        let id = self.object(alloc, Kind::Reg, b"f", Detail::Plain)?;
        let range = Range { left: 0, right: 0 };
        let result = Meaning::Result { id, range };
        self.names.declare(alloc, ObjId::new(9), b"f", result)?;
        Ok(())
    }

    fn inside(&mut self, alloc: Global, scope: ObjId, name: &[u8]) -> Result<(), NoMemory> {
        let id = self.object(alloc, Kind::Reg, name, Detail::Plain)?;
        let range = Range { left: 7, right: 0 };
        let meaning = Meaning::Object { id, range };
        self.names.declare(alloc, scope, name, meaning)?;
        Ok(())
    }

    // `i` is 2.
    fn genvar(&mut self, alloc: Global) -> Result<(), NoMemory> {
        self.mean(alloc, b"i", Meaning::Genvar)?;
        self.genvars.push(two(alloc)?)?;
        Ok(())
    }

    fn mean(&mut self, alloc: Global, name: &[u8], meaning: Meaning) -> Result<(), NoMemory> {
        self.names.declare(alloc, ObjId::new(TOP), name, meaning)?;
        Ok(())
    }

    fn declare(
        &mut self,
        alloc: Global,
        name: &[u8],
        id: ObjId,
        bounds: (u32, u32),
    ) -> Result<(), NoMemory> {
        let range = Range {
            left: bounds.0,
            right: bounds.1,
        };
        self.mean(alloc, name, Meaning::Object { id, range })
    }

    fn object(
        &mut self,
        alloc: Global,
        kind: Kind,
        name: &[u8],
        detail: Detail,
    ) -> Result<ObjId, NoMemory> {
        let id = ObjId::new(u32::try_from(self.objects.len()).unwrap_or(0));
        let object = ObjectInfo {
            kind,
            name: Sequence::from_slice(alloc, name)?,
            parent: None,
            width: 8,
            signed: false,
            words: 0,
            line: 1,
            detail,
        };
        self.objects.push(object)?;
        Ok(id)
    }

    fn other(&mut self, alloc: Global, kind: Kind, name: &[u8]) -> Result<(), NoMemory> {
        let id = self.object(alloc, kind, name, Detail::Plain)?;
        self.declare(alloc, name, id, (7, 0))
    }

    fn parameter(
        &mut self,
        alloc: Global,
        name: &[u8],
        bounds: (u32, u32),
        value: Vec4,
    ) -> Result<(), NoMemory> {
        let literal = ExprId::new(u32::try_from(self.exprs.len()).unwrap_or(0));
        let node = ExprNode {
            kind: ExprKind::Literal(value),
            width: value.width(),
            signed: value.is_signed(),
        };
        self.exprs.push(node)?;
        let id = self.object(alloc, Kind::Parameter, name, Detail::Value(literal))?;
        self.declare(alloc, name, id, bounds)
    }
}

// What comes of something that is done in the module.
fn in_module<R, F: FnOnce(&Scope) -> R>(world: &World, work: F) -> R
    requires { F.IsAlwaysCallable work }
{
    let top = Top {
        id: ObjId::new(TOP),
        name: b"top",
    };
    let scope = Scope {
        names: &world.names,
        around: &world.around,
        top,
        genvars: &world.genvars,
        objects: &world.objects,
        exprs: &world.exprs,
        routines: &[],
        unit: 6,
        precision: 6,
    };
    work(&scope)
}

// What is answered for an expression in the module, in so many digits at least.
fn value_of(alloc: Global, world: &World, e: &Expr, least: u32) -> Result<Option<Vec4>, ElabFault> {
    in_module(world, |scope| constant(alloc, scope, e, least.min(64)))
}

// What is answered for a name there.
fn meaning_of(
    alloc: Global,
    world: &World,
    name: &Name<Expr>,
    call: bool,
) -> Result<Option<Meaning>, ElabFault> {
    in_module(world, |scope| meaning(alloc, scope, name, call))
}

// The expression of a text.
fn parsed(alloc: Global, text: &[u8]) -> Result<Option<Expr>, Fail> {
    let mut lexer = Lexer::new(alloc)?;
    if text.len() > 1_000 {
        return Ok(None);
    }
    let after = Place {
        file: 1,
        line: 1,
        column: 1_000,
    };
    lexer.file(alloc, 1, text)?;
    match parse_expr(alloc, lexer.tokens(), 0, 0, true, after) {
        Ok((expr, _)) => Ok(Some(expr)),
        Err(_) => Ok(None),
    }
}

fn same(a: &Vec4, b: &Vec4) -> bool {
    a.width() == b.width()
        && a.is_signed() == b.is_signed()
        && a.aval() == b.aval()
        && a.bval() == b.bval()
}

// Whether a value is the number that a text spells.
fn is_number(alloc: Global, value: &Vec4, text: &[u8]) -> Result<bool, Fail> {
    let Some(expr) = parsed(alloc, text)? else {
        return Ok(false);
    };
    match &expr.form {
        ExprForm::Primary(Primary::Number(n)) => Ok(same(value, &n.value)),
        _ => Ok(false),
    }
}

// Whether an answer is that of a row: a number, `none`, or a fault with its column.
fn is_answer(
    alloc: Global,
    answer: Result<Option<Vec4>, ElabFault>,
    wanted: &str,
) -> Result<bool, Fail> {
    match answer {
        Ok(None) => Ok(wanted == "none"),
        Ok(Some(v)) => is_number(alloc, &v, wanted.as_bytes()),
        Err(ElabFault::Refused(fault, place)) => {
            let text = format!(in alloc; "{fault:?} {column}", column = place.column)?;
            Ok(text.as_str() == wanted)
        }
        Err(ElabFault::NoMemory) => Ok(false),
    }
}

// Whether the expression of a row has its answer, in so many digits at least.
fn holds(alloc: Global, world: &World, text: &str, wanted: &str, least: u32) -> Result<bool, Fail> {
    let Some(expr) = parsed(alloc, text.as_bytes())? else {
        return Ok(false);
    };
    let answer = value_of(alloc, world, &expr, least);
    is_answer(alloc, answer, wanted)
}

// Worked out by hand from IEEE 1364-2005, 4.2, 4.10, 5.1 to 5.5 and 12.4.
static ROWS: &str = "P => 8'd5
P + 1 => 32'd6
S => 4'shf
S + S => 4'she
-S => 4'sh1
S == -1 => 1'b1
S < 0 => 1'b1
P > 3 && S < 0 => 1'b1
P[0] => 1'b1
P[1] => 1'b0
P[8] => 1'bx
P[-1] => 1'bx
P[1'bx] => 1'bx
P[S] => 1'bx
P[2:1] => 2'b10
P[2-:2] => 2'b10
P[1+:2] => 2'b10
P[9:7] => 3'bxx0
R[0:3] => 4'b1100
R[0] => 1'b1
R[6+:2] => 2'b10
R[1-:2] => 2'b11
{P, 2'b01} => 10'b0000010101
{2{S}} => 8'hff
{P, (5)} => 40'h0500000005
{64{1'b1}} => 64'hffffffffffffffff
\"ab\" => 16'h6162
\"\" => 8'h00
\"12345678\" => 64'h3132333435363738
i => 32'sd2
i[1] => 1'b1
i * 3 => 32'sd6
P ? 4'd1 : 8'd2 => 8'd1
1'bx ? 2'b01 : 2'b11 => 2'bx1
$signed(P) => 8'sd5
$unsigned(S) => 4'hf
2 ** 3 => 32'sd8
7 % 4 - 1 => 32'sd2
P << 1 => 8'd10
S >>> 1 => 4'shf
~P => 8'hfa
|P => 1'b1
!P => 1'b0
P ^ 8'hff & 8'h0f => 8'h0a
P === 8'd5 => 1'b1
U => none
U + 1 => none
{U, P} => none
{U{P}} => none
U[0] => none
P[U] => none
P[U:0] => none
P[0+:U] => none
nothing => N1 1
P + nothing => N1 5
U + nothing => N1 5
w => N4 1
r[0] => N4 1
m => N4 1
e => N4 1
j => N4 1
f => N1 1
b => N1 1
g => N1 1
lp => N1 1
f(1) => N4 1
nothing(1) => N1 1
w(1) => N1 1
{P, nothing(w)} => N1 5
top.P => N4 1
b.nothing => N4 1
lp[nothing].x => N4 1
$time => N4 1
$random(1) => N4 1
$signed(1, 2) => N10 1
$signed => N10 1
$unsigned(nothing) => N1 11
{P, 5} => N3 5
{5} => N3 2
{2{5}} => N3 4
{0{P}} => N3 1
{65{1'b1}} => N3 1
{9{P}} => N3 1
{1'bx{P}} => N3 1
{-1{P}} => N3 1
{w{P}} => N4 2
{2{nothing}} => N1 4
{0{nothing}} => N3 1
{99{nothing}} => N1 5
P[1:2] => N3 2
R[3:0] => N3 2
P[-1:0] => N3 2
P[1'bx:0] => N3 2
P[99:0] => N3 2
P[3:w] => N4 5
P[nothing:w] => N1 3
P[0+:0] => N3 2
P[0+:65] => N3 2
P[0+:w] => N4 6
P[1][0] => N1 1
U[1][0] => N1 1
U[nothing] => N1 3
w[nothing] => N4 1
\"123456789\" => N3 1
w + nothing => N4 1
nothing + w => N1 1
w ? nothing : P => N4 1";

#[test]
fn constants_have_their_values_and_faults(rt: HostRuntime) -> Result<(), Fail> {
    let alloc = rt.alloc();
    let world = World::new(alloc)?;
    for row in ROWS.lines() {
        let (text, wanted) = row.split_once(" => ").unwrap_or((row, ""));
        assert!(rt; holds(alloc, &world, text, wanted, 0)?, "{row}");
    }
    Ok(())
}

#[test]
fn a_greater_width_goes_down_to_the_operands(rt: HostRuntime) -> Result<(), Fail> {
    let alloc = rt.alloc();
    let world = World::new(alloc)?;
    assert!(rt; holds(alloc, &world, "4'hf + 4'h1", "4'h0", 4)?);
    assert!(rt; holds(alloc, &world, "4'hf + 4'h1", "8'h10", 8)?);
    assert!(rt; holds(alloc, &world, "S", "8'shff", 8)?);
    assert!(rt; holds(alloc, &world, "P", "8'h05", 4)?);
    Ok(())
}

// The number of the object that is meant.
fn number_of(meaning: Meaning) -> Option<u32> {
    match meaning {
        Meaning::Object { id, .. } => Some(id.number()),
        Meaning::Result { id, .. } => Some(id.number()),
        Meaning::Genvar | Meaning::Blocks | Meaning::Gate => None,
    }
}

// What is answered for a name: the number of its object, `none`, or a fault with its column.
fn answered(
    alloc: Global,
    answer: Result<Option<Meaning>, ElabFault>,
    wanted: &str,
) -> Result<bool, Fail> {
    match answer {
        Ok(None) => Ok(wanted == "none"),
        Ok(Some(meaning)) => {
            let number = number_of(meaning).unwrap_or(99);
            Ok(format!(in alloc; "{number}")?.as_str() == wanted)
        }
        Err(ElabFault::Refused(fault, place)) => {
            let text = format!(in alloc; "{fault:?} {column}", column = place.column)?;
            Ok(text.as_str() == wanted)
        }
        Err(ElabFault::NoMemory) => Ok(false),
    }
}

fn means(alloc: Global, world: &World, text: &str, wanted: &str, call: bool) -> Result<bool, Fail> {
    let Some(expr) = parsed(alloc, text.as_bytes())? else {
        return Ok(false);
    };
    match &expr.form {
        ExprForm::Primary(Primary::Name(name, _)) => {
            let answer = meaning_of(alloc, world, name.get(), call);
            answered(alloc, answer, wanted)
        }
        _ => Ok(false),
    }
}

// Worked out by hand from IEEE 1364-2005, 12.5 to 12.7.
static NAMES: &str = "r => 6
b.y => 13
top.r => 6
top.b.y => 13
lp[2].x => 12
lp[i].x => 12
lp[P - 3].x => 12
top.lp[2].x => 12
f.f => 14
f => 9
lp => 99
lp[1].x => N1 1
lp[1'bx].x => N1 1
lp[-1].x => N1 1
lp.x => N1 1
lp[w].x => N4 4
lp[nothing].x => N1 4
lp[U].x => none
r[nothing].x => N1 1
nothing[w].x => N1 1
top[0].r => N1 1
b.nothing => N1 1
b.y.z => N1 1
top => N1 1
nothing => N1 1";

#[test]
fn names_and_paths_stand_for_objects(rt: HostRuntime) -> Result<(), Fail> {
    let alloc = rt.alloc();
    let world = World::new(alloc)?;
    for row in NAMES.lines() {
        let (text, wanted) = row.split_once(" => ").unwrap_or((row, ""));
        assert!(rt; means(alloc, &world, text, wanted, false)?, "{row}");
    }
    Ok(())
}

#[test]
fn in_a_function_its_name_is_its_result_but_in_a_call(rt: HostRuntime) -> Result<(), Fail> {
    let alloc = rt.alloc();
    let mut world = World::new(alloc)?;
    world.around.push(ObjId::new(9))?;
    world.around.reverse();
    assert!(rt; means(alloc, &world, "f", "14", false)?);
    assert!(rt; means(alloc, &world, "f", "9", true)?);
    assert!(rt; means(alloc, &world, "f.f", "14", false)?);
    Ok(())
}

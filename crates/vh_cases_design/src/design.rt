use std::alloc::Global;
use std::mem::size_of;
use std::test::Fail;
use vh_base::{
    Boxed, DriverId, ExprId, NoMemory, ObjId, Object, Place, ProcId, Sequence, ShowId, WaitId,
};
use vh_design::{
    Arithmetic, Arm, Block, CaseKind, CaseTest, Chosen, Code, Comparison, Counts, Delay, Design,
    Detail, Drive, DriverInfo, Edge, ExprKind, ExprNode, Goes, Input, Instruction, Kind, Leave,
    Link, Logic, Name, NetType, ObjectInfo, Operation, Parts, Pause, Range, Schedule, Select,
    Selected, Shift, ShowArg, ShowCall, ShowTask, Single, StmtInfo, StmtKind, Term, Unary,
    WaitInfo, design_laws,
};
use vh_logic::{Digit, Vec4};

// The objects of the design below.
const TOP: u32 = 0;

const Q: u32 = 1;

const W: u32 = 2;

const MEM: u32 = 3;

const SUM: u32 = 4;

const SUM_RESULT: u32 = 5;

const RANDOM: u32 = 6;

const STEP: u32 = 7;

const EVENT: u32 = 8;

const BLOCK: u32 = 9;

const TASK: u32 = 10;

const TASK_CALL: u32 = 11;

const OBJECTS: u32 = 12;

// Its expressions.
const READ_Q: u32 = 0;

const ONE: u32 = 1;

const NEXT: u32 = 2;

const EXPRS: u32 = 3;

// module counter; reg [7:0] q; wire [7:0] w; reg signed [3:0] mem [0:2];
//   function [15:0] sum; .. endfunction
//   parameter signed [7:0] STEP = 1; .. $random(q, mem[2]) .. q + 1 ..
//   event tick; initial begin : block q = q + 1; end task count; .. endtask .. $count; .. endmodule
fn counter(alloc: Global) -> Result<Parts, NoMemory> {
    let mut objects = Vec::new(alloc);
    let name = Name::from_slice(alloc, b"counter")?;
    objects.push(object(alloc, Kind::Module, None, 1, Detail::Module(name))?)?;
    let top = Some(TOP);
    objects.push(object(alloc, Kind::Reg, top, 8, Detail::Plain)?)?;
    objects.push(object(alloc, Kind::Net, top, 8, Detail::Net(NetType::Wire))?)?;
    let mut memory = object(alloc, Kind::Memory, top, 4, Detail::Plain)?;
    memory.words = 3;
    memory.signed = true;
    objects.push(memory)?;
    objects.push(object(alloc, Kind::Function, top, 1, Detail::Plain)?)?;
    objects.push(object(alloc, Kind::Reg, Some(SUM), 16, Detail::Plain)?)?;
    let call = called(alloc, Some(NEXT), &[whole(Q), word(MEM, 2)])?;
    objects.push(object(alloc, Kind::SysFuncCall, top, 12, call)?)?;
    let mut step = object(
        alloc,
        Kind::Parameter,
        top,
        8,
        Detail::Value(ExprId::new(ONE)),
    )?;
    step.signed = true;
    objects.push(step)?;
    objects.push(object(alloc, Kind::NamedEvent, top, 1, Detail::Plain)?)?;
    objects.push(object(alloc, Kind::NamedBegin, top, 1, Detail::Plain)?)?;
    objects.push(object(alloc, Kind::Task, top, 1, Detail::Routine(0))?)?;
    let call = called(alloc, None, &[])?;
    objects.push(object(alloc, Kind::SysTaskCall, top, 1, call)?)?;

    let mut exprs = Vec::new(alloc);
    exprs.push(node(ExprKind::Selected(all_of(Q, None)), 8, false))?;
    exprs.push(node(number(32, true), 32, true))?;
    exprs.push(node(chain(alloc, READ_Q, ONE)?, 32, false))?;

    let mut drivers = Vec::new(alloc);
    drivers.push(driver(W, 8))?;
    let mut parts = Parts {
        objects,
        exprs,
        drivers,
        codes: Vec::new(alloc),
        bodies: Vec::new(alloc),
        waits: Vec::new(alloc),
        shows: Vec::new(alloc),
        stmts: Vec::new(alloc),
        precision: 9,
    };
    add_code(alloc, &mut parts)?;
    Ok(parts)
}

// Its code, the body of its task, a wait, a display call and a statement.
fn add_code(alloc: Global, parts: &mut Parts) -> Result<(), NoMemory> {
    let assignment = assign(alloc, &[all_of(Q, None)], NEXT)?;
    parts.codes.push(code_of(alloc, assignment)?)?;
    parts.bodies.push(code_of(alloc, leave(alloc)?)?)?;
    parts.waits.push(wait_for(alloc, digits(Q, 8))?)?;
    parts.shows.push(show(alloc, TOP, 17, READ_Q)?)?;
    parts.stmts.push(statement(TOP))?;
    Ok(())
}

// A code of two instructions, an operation and an end, in one block.
fn code_of(alloc: Global, operation: Operation) -> Result<Code, NoMemory> {
    let block = Block {
        object: ObjId::new(BLOCK),
        around: None,
        after: Goes::To(1),
    };
    code_in(alloc, operation, block, Goes::To(1), Some(0))
}

fn code_in(
    alloc: Global,
    operation: Operation,
    block: Block,
    next: Goes,
    number: Option<u32>,
) -> Result<Code, NoMemory> {
    let mut instructions = Vec::new(alloc);
    instructions.push(Instruction {
        operation,
        next,
        stmt: number,
        block: number,
        first: true,
    })?;
    instructions.push(Instruction {
        operation: Operation::End,
        next: Goes::To(1),
        stmt: None,
        block: None,
        first: false,
    })?;
    Ok(Code {
        start: Goes::To(0),
        instructions: Sequence::new(instructions),
        blocks: Sequence::from_slice(alloc, &[block])?,
    })
}

fn assign(alloc: Global, targets: &[Selected], value: u32) -> Result<Operation, NoMemory> {
    Ok(Operation::Assign {
        value: ExprId::new(value),
        targets: Sequence::from_slice(alloc, targets)?,
    })
}

fn leave(alloc: Global) -> Result<Operation, NoMemory> {
    let end = Leave {
        outputs: Sequence::new(Vec::new(alloc)),
        result: None,
    };
    Ok(Operation::Leave(Boxed::new(alloc, end)?))
}

fn schedule(alloc: Global, unit: u8) -> Result<Operation, NoMemory> {
    let update = Schedule {
        targets: Sequence::from_slice(alloc, &[all_of(Q, None)])?,
        value: ExprId::new(NEXT),
        delay: Some(delay(ONE, unit)),
    };
    Ok(Operation::Schedule(Boxed::new(alloc, update)?))
}

// case (q) 1: .. endcase, in so many digits.
fn case(alloc: Global, width: u32, signed: bool, to: u32) -> Result<Operation, NoMemory> {
    let arm = Arm {
        value: ExprId::new(ONE),
        to: Goes::To(to),
    };
    let test = CaseTest {
        kind: CaseKind::Plain,
        subject: ExprId::new(READ_Q),
        arms: Sequence::from_slice(alloc, &[arm])?,
        width,
        signed,
    };
    Ok(Operation::Case(Boxed::new(alloc, test)?))
}

fn drive(alloc: Global, drivers: &[DriverId], wait: u32) -> Result<Operation, NoMemory> {
    let driven = Drive {
        drivers: Sequence::from_slice(alloc, drivers)?,
        value: ExprId::new(READ_Q),
        delay: None,
        wait: WaitId::new(wait),
    };
    Ok(Operation::Drive(Boxed::new(alloc, driven)?))
}

fn enter(alloc: Global, routine: u32, variable: u32) -> Result<Operation, NoMemory> {
    let input = Input {
        variable: ObjId::new(variable),
        value: ExprId::new(ONE),
    };
    Ok(Operation::Enter {
        routine: ObjId::new(routine),
        inputs: Sequence::from_slice(alloc, &[input])?,
    })
}

fn fork(alloc: Global, branch: u32) -> Result<Operation, NoMemory> {
    Ok(Operation::Fork(Sequence::from_slice(alloc, &[branch])?))
}

fn delay(amount: u32, unit: u8) -> Delay {
    Delay {
        amount: ExprId::new(amount),
        unit,
    }
}

fn hold(width: u32) -> Operation {
    Operation::Hold {
        value: ExprId::new(NEXT),
        width,
        delay: delay(ONE, 9),
    }
}

fn test(condition: u32, otherwise: u32) -> Operation {
    Operation::Test {
        condition: ExprId::new(condition),
        otherwise: Goes::To(otherwise),
    }
}

fn force(object: u32) -> Operation {
    Operation::Single(Single::Force {
        object: ObjId::new(object),
        value: ExprId::new(ONE),
    })
}

fn initial(object: u32) -> Operation {
    Operation::Initial {
        object: ObjId::new(object),
        value: ExprId::new(ONE),
    }
}

fn disable(object: u32) -> Operation {
    Operation::Single(Single::Disable(ObjId::new(object)))
}

fn trigger(object: u32) -> Operation {
    Operation::Single(Single::Trigger(ObjId::new(object)))
}

fn digits(object: u32, width: u32) -> Term {
    Term::Digits {
        object: ObjId::new(object),
        low: 0,
        width,
        edge: Edge::Any,
    }
}

fn wait_for(alloc: Global, term: Term) -> Result<WaitInfo, NoMemory> {
    Ok(WaitInfo {
        terms: Sequence::from_slice(alloc, &[term])?,
    })
}

fn show(alloc: Global, scope: u32, unit: u8, value: u32) -> Result<ShowCall, NoMemory> {
    let mut args = Vec::new(alloc);
    args.push(ShowArg::Empty)?;
    args.push(ShowArg::Value(ExprId::new(value)))?;
    Ok(ShowCall {
        task: ShowTask::Display,
        scope: ObjId::new(scope),
        unit,
        args: Sequence::new(args),
    })
}

fn statement(scope: u32) -> StmtInfo {
    StmtInfo {
        kind: StmtKind::Assignment,
        scope: ObjId::new(scope),
        place: Place {
            file: 1,
            line: 1,
            column: 1,
        },
    }
}

fn object(
    alloc: Global,
    kind: Kind,
    parent: Option<u32>,
    width: u32,
    detail: Detail,
) -> Result<ObjectInfo, NoMemory> {
    Ok(ObjectInfo {
        name: Name::from_slice(alloc, b"name")?,
        parent: parent.map(|scope| ObjId::new(scope)),
        width,
        words: 0,
        line: 1,
        kind,
        signed: false,
        detail,
    })
}

fn called(alloc: Global, value: Option<u32>, args: &[Object]) -> Result<Detail, NoMemory> {
    Ok(Detail::Call {
        systf: 0,
        result: value.map(|e| ExprId::new(e)),
        args: Sequence::from_slice(alloc, args)?,
    })
}

fn whole(id: u32) -> Object {
    Object {
        id: ObjId::new(id),
        word: None,
    }
}

fn word(id: u32, address: u32) -> Object {
    Object {
        id: ObjId::new(id),
        word: Some(address),
    }
}

fn node(kind: ExprKind, width: u32, signed: bool) -> ExprNode {
    ExprNode {
        kind,
        width,
        signed,
    }
}

// A 1 in so many digits, 32 at least.
fn number(width: u32, signed: bool) -> ExprKind {
    let width = width.clamp(32, 64);
    ExprKind::Literal(Vec4::from_planes(width, 1, 0, signed))
}

fn chain(alloc: Global, first: u32, second: u32) -> Result<ExprKind, NoMemory> {
    let link = Link {
        op: Arithmetic::Add,
        part: ExprId::new(second),
    };
    Ok(ExprKind::Arithmetic {
        first: ExprId::new(first),
        rest: Sequence::from_slice(alloc, &[link])?,
    })
}

fn driver(object: u32, width: u32) -> DriverInfo {
    DriverInfo {
        object: ObjId::new(object),
        low: 0,
        below: 0,
        width,
    }
}

fn built(parts: Parts) -> Option<Design> {
    if parts.objects.len() > 99 || parts.exprs.len() > 99 || parts.drivers.len() > 99 {
        return None;
    }
    if parts.codes.len() > 99 || parts.bodies.len() > 99 || parts.waits.len() > 99 {
        return None;
    }
    if parts.shows.len() > 99 || parts.stmts.len() > 99 {
        return None;
    }
    Design::build(parts)
}

// Whether the counter stands with one more expression, object or driver, or with another
// precision.
fn stands(alloc: Global, kind: ExprKind, width: u32, signed: bool) -> Result<bool, NoMemory> {
    let mut parts = counter(alloc)?;
    parts.exprs.push(node(kind, width, signed))?;
    Ok(built(parts).is_some())
}

fn stands_with(alloc: Global, object: ObjectInfo) -> Result<bool, NoMemory> {
    let mut parts = counter(alloc)?;
    parts.objects.push(object)?;
    Ok(built(parts).is_some())
}

fn stands_driven(alloc: Global, driver: DriverInfo) -> Result<bool, NoMemory> {
    let mut parts = counter(alloc)?;
    parts.drivers.push(driver)?;
    Ok(built(parts).is_some())
}

fn stands_at(alloc: Global, precision: u8) -> Result<bool, NoMemory> {
    let mut parts = counter(alloc)?;
    parts.precision = precision;
    Ok(built(parts).is_some())
}

// Whether the counter stands with one more process, of one operation and an end.
fn stands_doing(alloc: Global, operation: Operation) -> Result<bool, NoMemory> {
    let code = code_of(alloc, operation)?;
    stands_coded(alloc, code)
}

fn stands_coded(alloc: Global, code: Code) -> Result<bool, NoMemory> {
    let mut parts = counter(alloc)?;
    parts.codes.push(code)?;
    Ok(built(parts).is_some())
}

// The same with one more wait, display call or statement.
fn stands_waiting(alloc: Global, term: Term) -> Result<bool, NoMemory> {
    let mut parts = counter(alloc)?;
    parts.waits.push(wait_for(alloc, term)?)?;
    Ok(built(parts).is_some())
}

fn stands_showing(alloc: Global, scope: u32, unit: u8, value: u32) -> Result<bool, NoMemory> {
    let mut parts = counter(alloc)?;
    parts.shows.push(show(alloc, scope, unit, value)?)?;
    Ok(built(parts).is_some())
}

fn stands_in(alloc: Global, scope: u32) -> Result<bool, NoMemory> {
    let mut parts = counter(alloc)?;
    parts.stmts.push(statement(scope))?;
    Ok(built(parts).is_some())
}

// The forms of expressions, of objects and expressions by number.
fn bit(object: u32, word: Option<u32>, index: u32) -> ExprKind {
    let range = Range { left: 7, right: 0 };
    let index = ExprId::new(index);
    ExprKind::Selected(selected(object, word, Select::Bit { range, index }))
}

fn slice(object: u32, word: Option<u32>, width: u32) -> ExprKind {
    let select = Select::Slice {
        range: Range { left: 7, right: 0 },
        lowest: 0,
        width,
    };
    ExprKind::Selected(selected(object, word, select))
}

fn indexed(object: u32, word: Option<u32>, base: u32, width: u32) -> ExprKind {
    let select = Select::Indexed {
        up: true,
        range: Range { left: 7, right: 0 },
        base: ExprId::new(base),
        width,
    };
    ExprKind::Selected(selected(object, word, select))
}

fn selected(object: u32, word: Option<u32>, select: Select) -> Selected {
    let of = Chosen {
        object: ObjId::new(object),
        word: word.map(|at| ExprId::new(at)),
    };
    Selected { of, select }
}

// A whole object, or a word of a memory.
fn all_of(object: u32, word: Option<u32>) -> Selected {
    selected(object, word, Select::Whole)
}

fn unary(op: Unary, part: u32) -> ExprKind {
    ExprKind::Unary {
        op,
        part: ExprId::new(part),
    }
}

fn shift(alloc: Global, first: u32, second: u32) -> Result<ExprKind, NoMemory> {
    let link = Link {
        op: Shift::Left,
        part: ExprId::new(second),
    };
    Ok(ExprKind::Shift {
        first: ExprId::new(first),
        rest: Sequence::from_slice(alloc, &[link])?,
    })
}

fn compared(alloc: Global, first: u32, second: u32) -> Result<ExprKind, NoMemory> {
    let link = Link {
        op: Comparison::Equal,
        part: ExprId::new(second),
    };
    Ok(ExprKind::Comparison {
        first: ExprId::new(first),
        rest: Sequence::from_slice(alloc, &[link])?,
    })
}

fn both(alloc: Global, first: u32, second: u32) -> Result<ExprKind, NoMemory> {
    let link = Link {
        op: Logic::And,
        part: ExprId::new(second),
    };
    Ok(ExprKind::Logic {
        first: ExprId::new(first),
        rest: Sequence::from_slice(alloc, &[link])?,
    })
}

fn choice(condition: u32, yes: u32, no: u32) -> ExprKind {
    ExprKind::Choice {
        condition: ExprId::new(condition),
        yes: ExprId::new(yes),
        no: ExprId::new(no),
    }
}

fn join(alloc: Global, first: u32, rest: &[ExprId]) -> Result<ExprKind, NoMemory> {
    Ok(ExprKind::Join {
        first: ExprId::new(first),
        rest: Sequence::from_slice(alloc, rest)?,
    })
}

fn repeat(count: u32, part: u32) -> ExprKind {
    ExprKind::Repeat {
        count,
        part: ExprId::new(part),
    }
}

fn marked(part: u32, signed: bool) -> ExprKind {
    ExprKind::WithSign {
        part: ExprId::new(part),
        signed,
    }
}

fn call(alloc: Global, function: u32, variable: u32, argument: u32) -> Result<ExprKind, NoMemory> {
    let arguments = Sequence::from_slice(alloc, &[ExprId::new(argument)])?;
    Ok(ExprKind::Call {
        function: ObjId::new(function),
        result: ObjId::new(variable),
        arguments: Boxed::new(alloc, arguments)?,
    })
}

// A design answers what it was built of.
#[test]
fn a_counter_is_what_it_was_built_of(rt: HostRuntime) -> Result<(), Fail> {
    let design = built(counter(rt.alloc())?).expect(&rt, "every rule is kept");
    let counts = Counts {
        objects: OBJECTS,
        processes: 1,
        drivers: 1,
        exprs: EXPRS,
        waits: 1,
        shows: 1,
        stmts: 1,
    };
    assert_eq!(rt; design.counts(), counts);
    assert_eq!(rt; design.precision(), 9);
    assert_eq!(rt; design.width(ExprId::new(READ_Q)), 8);
    assert_eq!(rt; design.width(ExprId::new(NEXT)), 32);
    assert!(rt; !design.is_signed(ExprId::new(NEXT)));
    assert!(rt; design.is_signed(ExprId::new(ONE)));
    assert!(rt;
        matches!(
            design.expr(ExprId::new(NEXT)).kind,
            ExprKind::Arithmetic { .. }
        )
    );
    assert_eq!(rt; design.object(ObjId::new(MEM)).words, 3);
    assert_eq!(rt; design.object(ObjId::new(TOP)).kind, Kind::Module);
    assert_eq!(rt; *design.driver(DriverId::new(0)), driver(W, 8));
    assert_eq!(rt; design.code(ProcId::new(0)).start, Goes::To(0));
    assert_eq!(rt; design.wait(WaitId::new(0)).terms.as_slice().len(), 1);
    assert_eq!(rt; design.show_call(ShowId::new(0)).task, ShowTask::Display);
    assert_eq!(rt; design.stmt(0).kind, StmtKind::Assignment);
    design_laws();
    Ok(())
}

// Widths and signs after IEEE 1364-2005, 5.4.1 and 5.5.1.
#[test]
fn selects_have_their_own_width(rt: HostRuntime) -> Result<(), Fail> {
    let alloc = rt.alloc();
    assert!(rt; stands(alloc, number(64, false), 64, false)?);
    assert!(rt; stands(alloc, ExprKind::Selected(all_of(STEP, None)), 8, true)?);
    assert!(rt; stands(alloc, ExprKind::Selected(all_of(W, None)), 8, false)?);
    assert!(rt;
        stands(
            alloc,
            ExprKind::Selected(all_of(MEM, Some(READ_Q))),
            4,
            true
        )?
    );
    assert!(rt; stands(alloc, bit(Q, None, ONE), 1, false)?);
    assert!(rt; stands(alloc, bit(MEM, Some(READ_Q), ONE), 1, false)?);
    assert!(rt; stands(alloc, slice(W, None, 3), 3, false)?);
    assert!(rt; stands(alloc, slice(MEM, Some(NEXT), 4), 4, false)?);
    assert!(rt; stands(alloc, indexed(STEP, None, READ_Q, 2), 2, false)?);
    assert!(rt; stands(alloc, ExprKind::Time { unit: 9 }, 64, false)?);
    assert!(rt; stands(alloc, ExprKind::Time { unit: 17 }, 64, false)?);
    assert!(rt; stands(alloc, call(alloc, SUM, SUM_RESULT, ONE)?, 16, false)?);
    assert!(rt; stands(alloc, ExprKind::SysCall(ObjId::new(RANDOM)), 12, false)?);
    Ok(())
}

#[test]
fn operators_have_the_width_of_their_operands(rt: HostRuntime) -> Result<(), Fail> {
    let alloc = rt.alloc();
    assert!(rt; stands(alloc, unary(Unary::Negate, ONE), 32, true)?);
    assert!(rt; stands(alloc, unary(Unary::And, ONE), 1, false)?);
    assert!(rt; stands(alloc, chain(alloc, ONE, ONE)?, 32, true)?);
    assert!(rt; stands(alloc, shift(alloc, READ_Q, ONE)?, 8, false)?);
    assert!(rt; stands(alloc, shift(alloc, ONE, READ_Q)?, 32, true)?);
    assert!(rt; stands(alloc, compared(alloc, ONE, ONE)?, 1, false)?);
    assert!(rt; stands(alloc, both(alloc, READ_Q, ONE)?, 1, false)?);
    assert!(rt; stands(alloc, choice(READ_Q, READ_Q, ONE), 32, false)?);
    assert!(rt; stands(alloc, choice(READ_Q, ONE, ONE), 32, true)?);
    assert!(rt; stands(alloc, join(alloc, READ_Q, &[ExprId::new(NEXT)])?, 40, false)?);
    assert!(rt; stands(alloc, join(alloc, ONE, &[ExprId::new(ONE)])?, 64, false)?);
    assert!(rt; stands(alloc, repeat(3, READ_Q), 24, false)?);
    assert!(rt; stands(alloc, marked(READ_Q, true), 8, true)?);
    Ok(())
}

#[test]
fn an_expression_that_breaks_a_rule_is_refused(rt: HostRuntime) -> Result<(), Fail> {
    let alloc = rt.alloc();
    // A part that doesn't come before it.
    assert!(rt; !stands(alloc, unary(Unary::Plus, EXPRS), 1, false)?);
    assert!(rt; !stands(alloc, chain(alloc, ONE, EXPRS)?, 32, false)?);
    assert!(rt; !stands(alloc, bit(MEM, Some(EXPRS), ONE), 1, false)?);
    // An object that isn't there, or of a kind that doesn't stand there.
    assert!(rt; !stands(alloc, ExprKind::Selected(all_of(OBJECTS, None)), 1, false)?);
    assert!(rt; !stands(alloc, ExprKind::Selected(all_of(MEM, None)), 4, true)?);
    assert!(rt; !stands(alloc, ExprKind::Selected(all_of(Q, Some(READ_Q))), 8, false)?);
    assert!(rt; !stands(alloc, slice(MEM, None, 2), 2, false)?);
    assert!(rt; !stands(alloc, call(alloc, SUM, W, ONE)?, 8, false)?);
    assert!(rt; !stands(alloc, ExprKind::SysCall(ObjId::new(SUM)), 1, false)?);
    // A width or a sign that the parts don't give.
    assert!(rt; !stands(alloc, chain(alloc, READ_Q, ONE)?, 8, false)?);
    assert!(rt; !stands(alloc, chain(alloc, READ_Q, ONE)?, 32, true)?);
    // A width of 0, and widths above 64.
    assert!(rt; !stands(alloc, repeat(0, ONE), 0, false)?);
    assert!(rt; !stands(alloc, slice(Q, None, 65), 65, false)?);
    assert!(rt; !stands(alloc, repeat(3, ONE), 64, false)?);
    assert!(rt; !stands(alloc, repeat(3, ONE), 65, false)?);
    assert!(rt;
        !stands(
            alloc,
            join(alloc, ONE, &[ExprId::new(ONE), ExprId::new(ONE)])?,
            64,
            false
        )?
    );
    assert!(rt;
        !stands(
            alloc,
            join(alloc, ONE, &[ExprId::new(ONE), ExprId::new(ONE)])?,
            65,
            false
        )?
    );
    // A unit below the precision, and one above 100 s.
    assert!(rt; !stands(alloc, ExprKind::Time { unit: 8 }, 64, false)?);
    assert!(rt; !stands(alloc, ExprKind::Time { unit: 18 }, 64, false)?);
    Ok(())
}

#[test]
fn an_object_or_a_driver_that_breaks_a_rule_is_refused(rt: HostRuntime) -> Result<(), Fail> {
    let alloc = rt.alloc();
    // A scope that doesn't come before it; a width of 0 and one above 64.
    assert!(rt;
        stands_with(
            alloc,
            object(alloc, Kind::Reg, Some(SUM), 64, Detail::Plain)?
        )?
    );
    assert!(rt;
        !stands_with(
            alloc,
            object(alloc, Kind::Reg, Some(OBJECTS), 1, Detail::Plain)?
        )?
    );
    assert!(rt; !stands_with(alloc, object(alloc, Kind::Reg, None, 0, Detail::Plain)?)?);
    assert!(rt; !stands_with(alloc, object(alloc, Kind::Reg, None, 65, Detail::Plain)?)?);
    // A value, a call's expression and its arguments that aren't there.
    let value = Detail::Value(ExprId::new(EXPRS));
    assert!(rt; !stands_with(alloc, object(alloc, Kind::Constant, None, 1, value)?)?);
    let call = called(alloc, Some(EXPRS), &[])?;
    assert!(rt; !stands_with(alloc, object(alloc, Kind::SysFuncCall, None, 1, call)?)?);
    let call = called(alloc, None, &[whole(Q), whole(OBJECTS + 1)])?;
    assert!(rt; !stands_with(alloc, object(alloc, Kind::SysTaskCall, None, 1, call)?)?);
    let call = called(alloc, None, &[word(MEM, 3)])?;
    assert!(rt; !stands_with(alloc, object(alloc, Kind::SysTaskCall, None, 1, call)?)?);
    let call = called(alloc, None, &[word(Q, 0)])?;
    assert!(rt; !stands_with(alloc, object(alloc, Kind::SysTaskCall, None, 1, call)?)?);
    // A driver of a variable, of what isn't there, and of no digits.
    assert!(rt; stands_driven(alloc, driver(W, 64))?);
    assert!(rt; !stands_driven(alloc, driver(Q, 8))?);
    assert!(rt; !stands_driven(alloc, driver(OBJECTS, 8))?);
    assert!(rt; !stands_driven(alloc, driver(W, 0))?);
    // A precision above 100 s.
    assert!(rt; stands_at(alloc, 17)?);
    assert!(rt; !stands_at(alloc, 18)?);
    Ok(())
}

// Each rule on codes, waits, display calls and statements, kept and broken.
#[test]
fn a_code_that_breaks_a_rule_is_refused(rt: HostRuntime) -> Result<(), Fail> {
    let alloc = rt.alloc();
    // Targets: of a kind that may change, there, and together not too wide.
    let q = all_of(Q, None);
    let net = all_of(W, None);
    let memory = all_of(MEM, Some(ONE));
    assert!(rt; stands_doing(alloc, assign(alloc, &[q, memory], ONE)?)?);
    assert!(rt; !stands_doing(alloc, assign(alloc, &[net], ONE)?)?);
    assert!(rt; !stands_doing(alloc, assign(alloc, &[q], EXPRS)?)?);
    assert!(rt; !stands_doing(alloc, assign(alloc, &[], ONE)?)?);
    assert!(rt; !stands_doing(alloc, assign(alloc, &[q, q, q, q, q, q, q, q, q], ONE)?)?);
    // Widths and time units.
    assert!(rt; stands_doing(alloc, hold(64))?);
    assert!(rt; !stands_doing(alloc, hold(65))?);
    assert!(rt; stands_doing(alloc, schedule(alloc, 9)?)?);
    assert!(rt; !stands_doing(alloc, schedule(alloc, 8)?)?);
    // A `case` of 8 unsigned digits with a label of 32 signed ones.
    assert!(rt; stands_doing(alloc, case(alloc, 32, false, 1)?)?);
    assert!(rt; !stands_doing(alloc, case(alloc, 8, false, 1)?)?);
    assert!(rt; !stands_doing(alloc, case(alloc, 32, true, 1)?)?);
    assert!(rt; !stands_doing(alloc, case(alloc, 32, false, 2)?)?);
    Ok(())
}

#[test]
fn a_jump_or_a_number_that_is_not_there_is_refused(rt: HostRuntime) -> Result<(), Fail> {
    let alloc = rt.alloc();
    assert!(rt; stands_doing(alloc, test(ONE, 1))?);
    assert!(rt; !stands_doing(alloc, test(ONE, 2))?);
    assert!(rt; !stands_doing(alloc, test(EXPRS, 1))?);
    assert!(rt; stands_doing(alloc, fork(alloc, 1)?)?);
    assert!(rt; !stands_doing(alloc, fork(alloc, 2)?)?);
    assert!(rt; stands_doing(alloc, Operation::Pause(Pause::Await(WaitId::new(0))))?);
    assert!(rt; !stands_doing(alloc, Operation::Pause(Pause::Await(WaitId::new(1))))?);
    assert!(rt; stands_doing(alloc, Operation::Single(Single::Show(ShowId::new(0))))?);
    assert!(rt; !stands_doing(alloc, Operation::Single(Single::Show(ShowId::new(1))))?);
    assert!(rt; stands_doing(alloc, drive(alloc, &[DriverId::new(0)], 0)?)?);
    assert!(rt; !stands_doing(alloc, drive(alloc, &[DriverId::new(1)], 0)?)?);
    assert!(rt; !stands_doing(alloc, drive(alloc, &[DriverId::new(0)], 1)?)?);
    Ok(())
}

#[test]
fn an_object_of_another_kind_is_refused(rt: HostRuntime) -> Result<(), Fail> {
    let alloc = rt.alloc();
    assert!(rt; stands_doing(alloc, enter(alloc, TASK, Q)?)?);
    assert!(rt; !stands_doing(alloc, enter(alloc, SUM, Q)?)?);
    assert!(rt; !stands_doing(alloc, enter(alloc, TASK, W)?)?);
    assert!(rt; stands_doing(alloc, force(W))?);
    assert!(rt; !stands_doing(alloc, force(MEM))?);
    assert!(rt; stands_doing(alloc, initial(Q))?);
    assert!(rt; !stands_doing(alloc, initial(W))?);
    assert!(rt; stands_doing(alloc, disable(BLOCK))?);
    assert!(rt; stands_doing(alloc, disable(TASK))?);
    assert!(rt; !stands_doing(alloc, disable(SUM))?);
    assert!(rt; stands_doing(alloc, trigger(EVENT))?);
    assert!(rt; !stands_doing(alloc, trigger(Q))?);
    assert!(rt; stands_doing(alloc, Operation::SysCall(ObjId::new(TASK_CALL)))?);
    assert!(rt; !stands_doing(alloc, Operation::SysCall(ObjId::new(RANDOM)))?);
    assert!(rt; stands_doing(alloc, Operation::SysFunc(ObjId::new(RANDOM)))?);
    assert!(rt; !stands_doing(alloc, Operation::SysFunc(ObjId::new(TASK_CALL)))?);
    Ok(())
}

#[test]
fn a_block_a_wait_or_a_display_call_that_breaks_a_rule_is_refused(
    rt: HostRuntime,
) -> Result<(), Fail> {
    let alloc = rt.alloc();
    // A block in itself, of a scope that is none, and a code that goes on behind its end.
    let block = Block {
        object: ObjId::new(BLOCK),
        around: Some(0),
        after: Goes::To(1),
    };
    assert!(rt;
        !stands_coded(
            alloc,
            code_in(alloc, Operation::End, block, Goes::Back, None)?
        )?
    );
    let block = Block {
        object: ObjId::new(TOP),
        around: None,
        after: Goes::To(1),
    };
    assert!(rt;
        !stands_coded(
            alloc,
            code_in(alloc, Operation::End, block, Goes::Back, None)?
        )?
    );
    let block = Block {
        object: ObjId::new(BLOCK),
        around: None,
        after: Goes::Back,
    };
    assert!(rt;
        stands_coded(
            alloc,
            code_in(alloc, Operation::End, block, Goes::Back, None)?
        )?
    );
    assert!(rt;
        !stands_coded(
            alloc,
            code_in(alloc, Operation::End, block, Goes::To(2), None)?
        )?
    );
    assert!(rt;
        !stands_coded(
            alloc,
            code_in(alloc, Operation::End, block, Goes::Back, Some(1))?
        )?
    );
    // A memory in an event control; all its words, where it is read.
    assert!(rt; !stands_waiting(alloc, digits(MEM, 4))?);
    assert!(rt; stands_waiting(alloc, Term::Reads(ObjId::new(MEM)))?);
    assert!(rt; stands_waiting(alloc, Term::Event(ObjId::new(EVENT)))?);
    assert!(rt; !stands_waiting(alloc, Term::Event(ObjId::new(Q)))?);
    assert!(rt; !stands_waiting(alloc, digits(Q, 0))?);
    // The scope, the time unit and the values of a display call; the scope of a statement.
    assert!(rt; !stands_showing(alloc, Q, 9, ONE)?);
    assert!(rt; !stands_showing(alloc, TOP, 8, ONE)?);
    assert!(rt; !stands_showing(alloc, TOP, 9, EXPRS)?);
    assert!(rt; stands_in(alloc, BLOCK)?);
    assert!(rt; !stands_in(alloc, EVENT)?);
    Ok(())
}

// 100,000 objects and 4 million operators are to fit.
#[test]
fn objects_and_expressions_are_small(rt: HostRuntime) {
    assert_eq!(rt; size_of::<ObjectInfo>(), 96);
    assert_eq!(rt; size_of::<ExprNode>(), 48);
    assert_eq!(rt; size_of::<DriverInfo>(), 16);
}

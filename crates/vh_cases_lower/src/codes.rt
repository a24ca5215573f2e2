//! The codes of trees, by hand: a letter and its places for each instruction.

use crate::texts::{show_operation, show_place};
use sqlite_items::{Boxed, Items};
use std::alloc::Global;
use std::test::Fail;
use vh_base::{ExprId, NoMemory, ObjId, Sequence};
use vh_design_code::{CaseKind, Code, Instruction, Operation, Single};
use vh_lower_flow::{CaseHead, CaseItem, CodeKind, Flow, FlowForm, Gate, Origin, Step, code_of};

const PLAIN: Origin = Origin {
    stmt: None,
    first: false,
};

fn instruction(number: u32) -> Result<Flow, NoMemory> {
    Flow::new(FlowForm::Step(Step {
        operation: Operation::Single(Single::Trigger(ObjId::new(number))),
        origin: PLAIN,
    }))
}

fn row(alloc: Global, items: Items<Flow>) -> Result<Flow, NoMemory> {
    Flow::new(FlowForm::Row(items))
}

fn none(alloc: Global) -> Result<Flow, NoMemory> {
    row(alloc, Items::new(alloc))
}

fn pair(alloc: Global, a: Flow, b: Flow) -> Result<Flow, NoMemory> {
    let mut items = Items::new(alloc);
    items.push(a)?;
    items.push(b)?;
    row(alloc, items)
}

fn choice(alloc: Global, gate: Gate, holds: Flow, fails: Flow) -> Result<Flow, NoMemory> {
    Flow::new(FlowForm::Choice {
        gate,
        origin: PLAIN,
        holds: Boxed::new(alloc, holds)?,
        fails: Boxed::new(alloc, fails)?,
    })
}

fn turns(alloc: Global, body: Flow, gate: Gate) -> Result<Flow, NoMemory> {
    Flow::new(FlowForm::Turns {
        body: Boxed::new(alloc, body)?,
        gate,
        origin: PLAIN,
    })
}

fn block(alloc: Global, number: u32, body: Flow) -> Result<Flow, NoMemory> {
    Flow::new(FlowForm::Block {
        object: ObjId::new(number),
        body: Boxed::new(alloc, body)?,
    })
}

fn test(number: u32) -> Gate {
    Gate::Test(ExprId::new(number))
}

fn show_instruction(text: &mut String, instruction: &Instruction) -> Result<(), NoMemory> {
    text.push_str(" ")?;
    let letter = match instruction.operation {
        Operation::End => "e",
        _ => "s",
    };
    show_operation(text, &instruction.operation, letter)?;
    text.push_str(">")?;
    show_place(text, instruction.next)?;
    if let Some(block) = instruction.block {
        write!(text, "@{block}")?;
    }
    Ok(())
}

fn shown(alloc: Global, code: &Code) -> Result<String, NoMemory> {
    let mut text = String::new(alloc);
    show_place(&mut text, code.start)?;
    for instruction in code.instructions.as_slice() {
        show_instruction(&mut text, instruction)?;
    }
    for block in code.blocks.as_slice() {
        text.push_str(" [")?;
        if let Some(around) = block.around {
            write!(text, "{around}")?;
        }
        text.push_str(">")?;
        show_place(&mut text, block.after)?;
        text.push_str("]")?;
    }
    Ok(text)
}

fn code(alloc: Global, kind: CodeKind, flow: Flow) -> Result<String, NoMemory> {
    let code = code_of(alloc, kind, &flow)?;
    shown(alloc, &code)
}

#[test]
fn nothing(rt: HostRuntime) -> Result<(), Fail> {
    let alloc = rt.alloc();
    let text = code(alloc, CodeKind::Initial, none(alloc)?)?;
    assert_eq!(rt; text.as_str(), "0 e>b");
    let text = code(alloc, CodeKind::Always, none(alloc)?)?;
    assert_eq!(rt; text.as_str(), "0 u>0");
    let text = code(alloc, CodeKind::Body, none(alloc)?)?;
    assert_eq!(rt; text.as_str(), "b");
    Ok(())
}

#[test]
fn one_instruction(rt: HostRuntime) -> Result<(), Fail> {
    let alloc = rt.alloc();
    let text = code(alloc, CodeKind::Initial, instruction(1)?)?;
    assert_eq!(rt; text.as_str(), "0 s>1 e>b");
    let text = code(alloc, CodeKind::Always, instruction(1)?)?;
    assert_eq!(rt; text.as_str(), "0 u>1 s>0");
    let text = code(alloc, CodeKind::Body, instruction(1)?)?;
    assert_eq!(rt; text.as_str(), "0 s>b");
    Ok(())
}

#[test]
fn rows_go_on_at_the_next_instruction(rt: HostRuntime) -> Result<(), Fail> {
    let alloc = rt.alloc();
    let two = pair(alloc, instruction(1)?, instruction(2)?)?;
    let text = code(alloc, CodeKind::Body, two)?;
    assert_eq!(rt; text.as_str(), "0 s>1 s>b");
    let last = pair(alloc, instruction(1)?, none(alloc)?)?;
    let text = code(alloc, CodeKind::Body, last)?;
    assert_eq!(rt; text.as_str(), "0 s>b");
    let first = pair(alloc, none(alloc)?, instruction(1)?)?;
    let text = code(alloc, CodeKind::Initial, first)?;
    assert_eq!(rt; text.as_str(), "0 s>1 e>b");
    Ok(())
}

#[test]
fn values_and_assignments(rt: HostRuntime) -> Result<(), Fail> {
    let alloc = rt.alloc();
    let two = pair(alloc, instruction(1)?, instruction(2)?)?;
    let text = code(alloc, CodeKind::Value, two)?;
    assert_eq!(rt; text.as_str(), "0 s>1 s>b");
    let two = pair(alloc, instruction(1)?, instruction(2)?)?;
    let text = code(alloc, CodeKind::Assign, two)?;
    assert_eq!(rt; text.as_str(), "0 s>1 s>0");
    Ok(())
}

#[test]
fn an_if(rt: HostRuntime) -> Result<(), Fail> {
    let alloc = rt.alloc();
    let both = choice(alloc, test(7), instruction(1)?, instruction(2)?)?;
    let text = code(alloc, CodeKind::Initial, both)?;
    assert_eq!(rt; text.as_str(), "0 t/2>1 s>3 s>3 e>b");
    let no_else = choice(alloc, test(7), instruction(1)?, none(alloc)?)?;
    let text = code(alloc, CodeKind::Initial, no_else)?;
    assert_eq!(rt; text.as_str(), "0 t/2>1 s>2 e>b");
    let no_then = choice(alloc, test(7), none(alloc)?, instruction(1)?)?;
    let text = code(alloc, CodeKind::Initial, no_then)?;
    assert_eq!(rt; text.as_str(), "0 t/1>2 s>2 e>b");
    Ok(())
}

#[test]
fn loops(rt: HostRuntime) -> Result<(), Fail> {
    let alloc = rt.alloc();
    let again = turns(alloc, instruction(1)?, test(7))?;
    let while_ = choice(alloc, test(7), again, none(alloc)?)?;
    let text = code(alloc, CodeKind::Initial, while_)?;
    assert_eq!(rt; text.as_str(), "0 t/3>1 s>2 t/3>1 e>b");
    let again = turns(alloc, none(alloc)?, Gate::Again)?;
    let repeat = choice(alloc, Gate::Repeat(ExprId::new(7)), again, none(alloc)?)?;
    let text = code(alloc, CodeKind::Initial, repeat)?;
    assert_eq!(rt; text.as_str(), "0 r/2>1 a/2>1 e>b");
    let again = turns(alloc, instruction(1)?, Gate::Turn)?;
    let forever = choice(alloc, Gate::Turn, again, none(alloc)?)?;
    let text = code(alloc, CodeKind::Body, forever)?;
    assert_eq!(rt; text.as_str(), "0 u>1 s>2 u>1");
    Ok(())
}

#[test]
fn blocks(rt: HostRuntime) -> Result<(), Fail> {
    let alloc = rt.alloc();
    let inner = block(alloc, 5, instruction(1)?)?;
    let outer = block(alloc, 4, pair(alloc, inner, instruction(2)?)?)?;
    let text = code(alloc, CodeKind::Initial, outer)?;
    assert_eq!(rt; text.as_str(), "0 s>1@1 s>2@0 e>b [>2] [0>1]");
    Ok(())
}

#[test]
fn forks(rt: HostRuntime) -> Result<(), Fail> {
    let alloc = rt.alloc();
    let mut branches = Items::new(alloc);
    branches.push(instruction(1)?)?;
    branches.push(none(alloc)?)?;
    branches.push(block(alloc, 5, instruction(2)?)?)?;
    let fork = Flow::new(FlowForm::Fork {
        origin: PLAIN,
        branches,
    })?;
    let text = code(alloc, CodeKind::Initial, block(alloc, 4, fork)?)?;
    assert_eq!(rt;
        text.as_str(),
        "0 f/1/3/4>6@0 s>2 e>b e>b s>5@1 e>b e>b [>6] [>5]"
    );
    Ok(())
}

fn item(alloc: Global, matched: &[ExprId], body: Flow) -> Result<CaseItem<Flow>, NoMemory> {
    Ok(CaseItem {
        matched: Sequence::from_slice(alloc, matched)?,
        body,
    })
}

#[test]
fn a_case(rt: HostRuntime) -> Result<(), Fail> {
    let alloc = rt.alloc();
    let mut items = Items::new(alloc);
    items.push(item(alloc, &[ExprId::new(1), ExprId::new(2)], instruction(1)?)?)?;
    items.push(item(alloc, &[ExprId::new(3)], none(alloc)?)?)?;
    items.push(item(alloc, &[ExprId::new(4)], instruction(2)?)?)?;
    let case = Flow::new(FlowForm::Case {
        head: CaseHead {
            kind: CaseKind::Plain,
            subject: ExprId::new(0),
            width: 1,
            signed: false,
        },
        origin: PLAIN,
        items,
        default: Boxed::new(alloc, instruction(3)?)?,
    })?;
    let text = code(alloc, CodeKind::Initial, case)?;
    assert_eq!(rt; text.as_str(), "0 c/1/1/4/2>3 s>4 s>4 s>4 e>b");
    Ok(())
}

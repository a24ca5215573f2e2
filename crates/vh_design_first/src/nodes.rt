ghost use Rattle.std.specs.Prelude.{◌≡◌, ◌++◌, ◌∷◌, map, length, IfOk, OnOk};
ghost use Rattle.std.specs.List.{flat_map};
ghost use Rattle.vh_design_first.specs.Designs.{module_info, register_info, digit_node, digit_nodes, delay_node, delays_in, call_of, calls_in};

use std::alloc::Global;
use vh_base::{Bytes, FirstCode, NoMemory, ObjId, Sequence};
use vh_design::{Detail, ExprKind, ExprNode, Kind, Name, ObjectInfo, ShowArg, ShowCall, ShowTask};
use vh_logic::{Digit, Vec4};

// The module.
fn module_info(alloc: Global, name: &[u8]) -> Result<ObjectInfo, NoMemory>
    ensures { IfOk result (λ i. i ≡ module_info name.now) }
{
    Ok(ObjectInfo {
        kind: Kind::Module,
        name: Name::from_slice(alloc, name)?,
        parent: None,
        width: 1,
        signed: false,
        words: 0,
        line: 1,
        detail: Detail::Module(Name::from_slice(alloc, name)?),
    })
}

// A register of one digit in it.
fn register_info(alloc: Global, name: &[u8]) -> Result<ObjectInfo, NoMemory>
    ensures { IfOk result (λ i. i ≡ register_info name.now) }
{
    Ok(ObjectInfo {
        kind: Kind::Reg,
        name: Name::from_slice(alloc, name)?,
        parent: Some(ObjId::new(0)),
        width: 1,
        signed: false,
        words: 0,
        line: 1,
        detail: Detail::Plain,
    })
}

/// The module and its registers.
pub fn objects(alloc: Global, name: &[u8], regs: &[Bytes]) -> Result<Vec<ObjectInfo>, NoMemory>
    ensures { IfOk result (λ v. v.items ≡ module_info name.now ∷ map register_info regs.now) }
{
    let mut all = Vec::new(alloc);
    all.push(module_info(alloc, name)?)?;
    for reg in regs {
        all.push(register_info(alloc, reg.as_slice())?)?;
    }
    Ok(all)
}

// One digit.
fn digit_node(digit: Digit) -> ExprNode
    ensures { result ≡ digit_node digit }
{
    ExprNode {
        kind: ExprKind::Literal(Vec4::filled(1, digit, false)),
        width: 1,
        signed: false,
    }
}

// A delay.
fn delay_node(units: u32) -> ExprNode
    ensures { result ≡ delay_node units }
{
    ExprNode {
        kind: ExprKind::Literal(Vec4::from_planes(32, u64::from(units), 0, false)),
        width: 32,
        signed: false,
    }
}

/// The four digits.
pub fn digit_nodes(alloc: Global) -> Result<Vec<ExprNode>, NoMemory>
    ensures { IfOk result (λ v. v.items ≡ digit_nodes) }
{
    let mut all = Vec::new(alloc);
    all.push(digit_node(Digit::Zero))?;
    all.push(digit_node(Digit::One))?;
    all.push(digit_node(Digit::X))?;
    all.push(digit_node(Digit::Z))?;
    Ok(all)
}

/// The delays of steps, in order.
pub fn push_delays(all: &mut Vec<ExprNode>, steps: &[FirstCode]) -> Result<(), NoMemory>
    ensures { OnOk result (all.new.items ≡ all.old.items ++ flat_map delays_in steps.now) }
{
    for step in steps {
        if let FirstCode::Wait(units) = step {
            all.push(delay_node(*units))?;
        }
    }
    Ok(())
}

// A text that is shown.
fn call_of(alloc: Global, text: &[u8]) -> Result<ShowCall, NoMemory>
    ensures { IfOk result (λ c. c ≡ call_of text.now) }
{
    let mut args = Vec::new(alloc);
    args.push(ShowArg::Format(Bytes::from_slice(alloc, text)?))?;
    Ok(ShowCall {
        task: ShowTask::Display,
        scope: ObjId::new(0),
        unit: 0,
        args: Sequence::new(args),
    })
}

/// The display calls of steps, in order.
pub fn push_calls(
    alloc: Global,
    all: &mut Vec<ShowCall>,
    steps: &[FirstCode],
) -> Result<(), NoMemory>
    ensures { OnOk result (all.new.items ≡ all.old.items ++ flat_map calls_in steps.now) }
{
    for step in steps {
        if let FirstCode::Show(text) = step {
            all.push(call_of(alloc, text.as_slice())?)?;
        }
    }
    Ok(())
}

//! Instructions as text.

use vh_base::NoMemory;
use vh_design_code::{Arm, Goes, Loop, Operation};

// Where an instruction goes on.
pub(crate) fn show_place(text: &mut String, goes: Goes) -> Result<(), NoMemory> {
    match goes {
        Goes::Back => text.push_str("b")?,
        Goes::To(place) => write!(text, "{place}")?,
    }
    Ok(())
}

fn show_case(text: &mut String, arms: &[Arm]) -> Result<(), NoMemory> {
    text.push_str("c")?;
    for arm in arms {
        text.push_str("/")?;
        show_place(text, arm.to)?;
    }
    Ok(())
}

// A letter for what an instruction does, with its places: that which is given where it has none.
pub(crate) fn show_operation(
    text: &mut String,
    operation: &Operation,
    letter: &str,
) -> Result<(), NoMemory> {
    match operation {
        Operation::Test { otherwise, .. } => {
            text.push_str("t/")?;
            show_place(text, *otherwise)
        }
        Operation::Case(case) => show_case(text, case.get().arms.as_slice()),
        Operation::Loop(Loop::Repeat { done, .. }) => {
            text.push_str("r/")?;
            show_place(text, *done)
        }
        Operation::Loop(Loop::Again { done }) => {
            text.push_str("a/")?;
            show_place(text, *done)
        }
        Operation::Loop(Loop::Turn) => Ok(text.push_str("u")?),
        Operation::Fork(places) => {
            text.push_str("f")?;
            for place in places.as_slice() {
                write!(text, "/{place}")?;
            }
            Ok(())
        }
        _ => Ok(text.push_str(letter)?),
    }
}

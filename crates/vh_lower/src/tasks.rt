ghost use Rattle.std.specs.Prelude.{◌≡◌, [], ◌∷◌, ◌++◌, map, IfOk, OnOk};
ghost use Rattle.vh_ast.specs.Views.{expr_tree, name_tree};
ghost use Rattle.vh_lower.specs.Making.{Makes};
ghost use Rattle.vh_lower.specs.Statements.{with_input, with_output, with_argument, with_arguments, no_call, call_operations, task_operations};
ghost use Rattle.vh_lower.specs.Views.{calling_seen, Stands, Adds, Leaves};

use crate::added::Maker;
use crate::assignments::with_operation;
use crate::fault::Lowered;
use crate::instructions::Operations;
use crate::making::{output_of, value_of};
use crate::objects::task_of;
use sqlite_items::Items;
use std::alloc::Global;
use vh_ast::{Expr, Name, TaskDirection};
use vh_base::{Boxed, ExprId, NoMemory, ObjId, Sequence};
use vh_bind_stmt::{Argument, arguments_of};
use vh_design_code::{Input, Leave, Operation, Output, Targets};

// The call of a task so far: the instructions before its begin and before its end, and what these write.
#[derive(Drop)]
pub(crate) struct Calling {
    pub before: Vec<Operation>,
    pub behind: Vec<Operation>,
    pub inputs: Vec<Input>,
    pub outputs: Vec<Output>,
}

// Nothing yet.
fn no_call(alloc: Global) -> Calling
    ensures { calling_seen result ≡ no_call }
{
    Calling {
        before: Vec::new(alloc),
        behind: Vec::new(alloc),
        inputs: Vec::new(alloc),
        outputs: Vec::new(alloc),
    }
}

// One input more.
fn add_input(inputs: &mut Vec<Input>, variable: ObjId, value: ExprId) -> Result<(), NoMemory>
    ensures { OnOk result
        (inputs.new.items ≡ inputs.old.items ++ record { variable = variable; value = value } ∷
        []) }
{
    inputs.push(Input { variable, value })?;
    Ok(())
}

// One output more.
fn add_output(outputs: &mut Vec<Output>, targets: Targets, variable: ObjId) -> Result<(), NoMemory>
    ensures { OnOk result
        (outputs.new.items ≡ outputs.old.items ++ record {
          targets = targets;
          variable = variable;
        } ∷ []) }
{
    outputs.push(Output { targets, variable })?;
    Ok(())
}

// An argument that is given a value.
fn with_input(maker: &mut Maker, call: &mut Calling, variable: ObjId, value: &Expr) -> Lowered<()>
    requires stands { Stands maker.old }
    ensures { Adds
        (λ s a. Leaves (with_input s (calling_seen call.old) variable (expr_tree value.now) a)
        (calling_seen call.new))
        maker.old result maker.new }
{
    let value = value_of(maker, &mut call.before, value)?;
    add_input(&mut call.inputs, variable, value)?;
    Ok(())
}

// An argument whose value is assigned at the end.
fn with_output(maker: &mut Maker, call: &mut Calling, variable: ObjId, target: &Expr) -> Lowered<()>
    requires stands { Stands maker.old }
    ensures { Adds
        (λ s a. Leaves (with_output s (calling_seen call.old) variable (expr_tree target.now) a)
        (calling_seen call.new))
        maker.old result maker.new }
{
    let targets = output_of(maker, &mut call.behind, target)?;
    add_output(&mut call.outputs, targets, variable)?;
    Ok(())
}

// An argument, a row for each direction.
fn with_argument(
    maker: &mut Maker,
    call: &mut Calling,
    direction: TaskDirection,
    variable: ObjId,
    e: &Expr,
) -> Lowered<()>
    requires stands { Stands maker.old }
    ensures { Adds
        (λ s a. Leaves
        (with_argument s (calling_seen call.old) direction variable (expr_tree e.now) a)
        (calling_seen call.new))
        maker.old result maker.new }
{
    match direction {
        TaskDirection::Input => with_input(maker, call, variable, e),
        TaskDirection::Output => with_output(maker, call, variable, e),
        TaskDirection::Inout => {
            with_input(maker, call, variable, e)?;
            with_output(maker, call, variable, e)
        }
    }
}

// All arguments, from the left.
fn with_arguments(
    maker: &mut Maker,
    call: &mut Calling,
    arguments: &[Argument],
    values: &[Expr],
) -> Lowered<()>
    requires stands { Stands maker.old }
    ensures { Adds
        (λ s a. Leaves
        (with_arguments s (calling_seen call.old) arguments.now (map expr_tree values.now) a)
        (calling_seen call.new))
        maker.old result maker.new }
{
    for (k, argument) in arguments.iter().enumerate() {
        let Some(e) = values.get(k) else {
            return Ok(());
        };
        with_argument(maker, call, argument.direction, argument.variable, e)?;
    }
    Ok(())
}

// The instructions of a call.
fn call_operations(alloc: Global, task: ObjId, call: Calling) -> Result<Operations, NoMemory>
    ensures { IfOk result (λ os. os ≡ call_operations task (calling_seen call)) }
{
    let Calling {
        mut before,
        mut behind,
        inputs,
        outputs,
    } = call;
    before.push(Operation::Enter {
        routine: task,
        inputs: Sequence::new(inputs),
    })?;
    before.append(&mut behind)?;
    let leave = Leave {
        outputs: Sequence::new(outputs),
        result: None,
    };
    with_operation(before, Operation::Leave(Boxed::new(alloc, leave)?))
}

// The instructions of a call of a task (IEEE 1364-2005, 10.2.2).
pub(crate) fn task_operations(
    maker: &mut Maker,
    name: &Name<Expr>,
    values: &Items<Expr>,
) -> Lowered<Operations>
    requires stands { Stands maker.old }
    ensures { Adds (λ s a. Makes (task_operations s (name_tree name.now) (map expr_tree values.now) a))
        maker.old result maker.new }
{
    let values = values.as_slice();
    let task = task_of(maker, name, values.len())?;
    let mut call = no_call(maker.alloc);
    with_arguments(maker, &mut call, arguments_of(maker.around, task), values)?;
    Ok(call_operations(maker.alloc, task, call)?)
}

ghost use Rattle.std.specs.Prelude.{◌≡◌, IfOk};
ghost use Rattle.std.specs.Option.{option_map};
ghost use Rattle.vh_ast.specs.Views.{delay_tree, expr_tree, lv_tree, set_tree};
ghost use Rattle.vh_lower.specs.Instructions.{with_operation, delayed_in};
ghost use Rattle.vh_lower.specs.Making.{Makes};
ghost use Rattle.vh_lower.specs.Statements.{set_parts, set_of, schedule_at, delayed_parts, scheduled_parts, scheduled_later, assign_operations};
ghost use Rattle.vh_lower.specs.Views.{Stands, Adds};

use crate::added::Maker;
use crate::fault::Lowered;
use crate::instructions::Operations;
use crate::making::{delay_of, targets_of, value_of};
use sqlite_items::Boxed as TreeBox;
use std::alloc::Global;
use vh_ast::{AssignWord, Delay, Expr, Lv, Set};
use vh_base::{Boxed, ExprId, NoMemory, Sequence};
use vh_bind_stmt::targets_width;
use vh_design_code::{Delay as Wait, Operation, Schedule, Targets};

// An instruction behind others.
pub(crate) fn with_operation(
    mut operations: Vec<Operation>,
    operation: Operation,
) -> Result<Operations, NoMemory>
    ensures { IfOk result (λ os. os ≡ with_operation operations.items operation) }
{
    operations.push(operation)?;
    Ok(Sequence::new(operations))
}

// A nonblocking assignment.
fn schedule_at(
    alloc: Global,
    targets: Targets,
    value: ExprId,
    delay: Option<Wait>,
) -> Result<Operation, NoMemory>
    ensures { IfOk result (λ o. o ≡ schedule_at targets value delay) }
{
    let schedule = Schedule {
        targets,
        value,
        delay,
    };
    Ok(Operation::Schedule(Boxed::new(alloc, schedule)?))
}

// The instructions of a blocking assignment with a delay.
fn delayed(
    mut before: Vec<Operation>,
    mut calls: Vec<Operation>,
    value: ExprId,
    width: u32,
    delay: Wait,
    targets: Targets,
) -> Result<Operations, NoMemory>
    ensures { IfOk result
        (λ os. os ≡ delayed_in before.items calls.items value width delay targets) }
{
    before.push(Operation::Hold {
        value,
        width,
        delay,
    })?;
    before.append(&mut calls)?;
    with_operation(before, Operation::Store(targets))
}

// A blocking assignment without a delay.
fn set_parts(maker: &mut Maker, target: &Lv, value: &Expr) -> Lowered<Operations>
    requires stands { Stands maker.old }
    ensures { Adds (λ s a. Makes (set_parts s (lv_tree target.now) (expr_tree value.now) a))
        maker.old result maker.new }
{
    let mut operations = Vec::new(maker.alloc);
    let targets = targets_of(maker, &mut operations, target)?;
    let value = value_of(maker, &mut operations, value)?;
    Ok(with_operation(operations, Operation::Assign { value, targets })?)
}

// The same in a `for`.
pub(crate) fn set_of(maker: &mut Maker, set: &Set) -> Lowered<Operations>
    requires stands { Stands maker.old }
    ensures { Adds (λ s a. Makes (set_of s (set_tree set.now) a)) maker.old result maker.new }
{
    set_parts(maker, &set.target, &set.value)
}

// A blocking assignment with a delay.
fn delayed_parts(maker: &mut Maker, target: &Lv, delay: &Delay, value: &Expr) -> Lowered<Operations>
    requires stands { Stands maker.old }
    ensures { Adds
        (λ s a. Makes
        (delayed_parts s (lv_tree target.now) (delay_tree delay.now) (expr_tree value.now) a))
        maker.old result maker.new }
{
    let mut calls = Vec::new(maker.alloc);
    let targets = targets_of(maker, &mut calls, target)?;
    let mut operations = Vec::new(maker.alloc);
    let delay = delay_of(maker, &mut operations, delay)?;
    let value = value_of(maker, &mut operations, value)?;
    let width = targets_width(maker.around.scope.objects, targets.as_slice());
    Ok(delayed(operations, calls, value, width, delay, targets)?)
}

// A nonblocking assignment without a delay.
fn scheduled_parts(maker: &mut Maker, target: &Lv, value: &Expr) -> Lowered<Operations>
    requires stands { Stands maker.old }
    ensures { Adds (λ s a. Makes (scheduled_parts s (lv_tree target.now) (expr_tree value.now) a))
        maker.old result maker.new }
{
    let mut operations = Vec::new(maker.alloc);
    let targets = targets_of(maker, &mut operations, target)?;
    let value = value_of(maker, &mut operations, value)?;
    let schedule = schedule_at(maker.alloc, targets, value, None)?;
    Ok(with_operation(operations, schedule)?)
}

// A nonblocking assignment with a delay.
fn scheduled_later(
    maker: &mut Maker,
    target: &Lv,
    delay: &Delay,
    value: &Expr,
) -> Lowered<Operations>
    requires stands { Stands maker.old }
    ensures { Adds
        (λ s a. Makes
        (scheduled_later s (lv_tree target.now) (delay_tree delay.now) (expr_tree value.now) a))
        maker.old result maker.new }
{
    let mut operations = Vec::new(maker.alloc);
    let targets = targets_of(maker, &mut operations, target)?;
    let delay = delay_of(maker, &mut operations, delay)?;
    let value = value_of(maker, &mut operations, value)?;
    let schedule = schedule_at(maker.alloc, targets, value, Some(delay))?;
    Ok(with_operation(operations, schedule)?)
}

// An assignment, a row for each form (IEEE 1364-2005, 9.2).
pub(crate) fn assign_operations(
    maker: &mut Maker,
    target: &Lv,
    word: AssignWord,
    delay: &Option<TreeBox<Delay>>,
    value: &Expr,
) -> Lowered<Operations>
    requires stands { Stands maker.old }
    ensures { Adds
        (λ s a. Makes
        (assign_operations s (lv_tree target.now) word (option_map delay_tree delay.now)
        (expr_tree value.now) a))
        maker.old result maker.new }
{
    match (word, delay) {
        (AssignWord::Blocking, None) => set_parts(maker, target, value),
        (AssignWord::Blocking, Some(delay)) => { delayed_parts(maker, target, delay.get(), value) }
        (AssignWord::Nonblocking, None) => scheduled_parts(maker, target, value),
        (AssignWord::Nonblocking, Some(delay)) => {
            scheduled_later(maker, target, delay.get(), value)
        }
    }
}

ghost use Rattle.std.specs.Prelude.{◌≡◌, [], ◌∷◌, IfOk};
ghost use Rattle.vh_ast.specs.Views.{lv_tree, name_tree, set_tree, simple_tree};
ghost use Rattle.vh_design_code.specs.declared.operation.Operation.TheVariants as Op;
ghost use Rattle.vh_lower_flow.specs.Views.{flow_tree};
ghost use Rattle.vh_lower.specs.Making.{Makes};
ghost use Rattle.vh_lower.specs.Statements.{force_single, release_single, force_stmt, release_stmt, force_operations, release_operations, trigger_operations, disable_operations, is_null, simple_kind, simple_operations, simple_flow};
ghost use Rattle.vh_lower.specs.Views.{MakesTo, Stands, Adds};

use crate::added::Maker;
use crate::assignments::{assign_operations, with_operation};
use crate::fault::Lowered;
use crate::instructions::{Operations, instructions, nothing};
use crate::making::{numbered, value_of};
use crate::objects::{disable_target_of, event_of, forced_of, released_of};
use crate::systems::system_operations;
use crate::tasks::task_operations;
use std::alloc::Global;
use vh_ast::{Expr, ForceWord, Lv, Name, ReleaseWord, Set, Simple};
use vh_base::{ExprId, NoMemory, ObjId, Place};
use vh_design_code::{Operation, Pause, Single, StmtKind};
use vh_lower_flow::Flow;

// One instruction.
pub(crate) fn one_single(alloc: Global, single: Single) -> Result<Operations, NoMemory>
    ensures { IfOk result (λ os. os ≡ Op.Single single ∷ []) }
{
    with_operation(Vec::new(alloc), Operation::Single(single))
}

// One instruction that waits.
pub(crate) fn one_pause(alloc: Global, pause: Pause) -> Result<Operations, NoMemory>
    ensures { IfOk result (λ os. os ≡ Op.Pause pause ∷ []) }
{
    with_operation(Vec::new(alloc), Operation::Pause(pause))
}

// The instruction of a `force` or an `assign`.
fn force_single(word: ForceWord, object: ObjId, value: ExprId) -> Single
    ensures { result ≡ force_single word object value }
{
    match word {
        ForceWord::Force => Single::Force { object, value },
        ForceWord::Assign => Single::Procedural { object, value },
    }
}

// The instruction of a `release` or a `deassign`.
fn release_single(word: ReleaseWord, object: ObjId) -> Single
    ensures { result ≡ release_single word object }
{
    match word {
        ReleaseWord::Release => Single::Release(object),
        ReleaseWord::Deassign => Single::Deassign(object),
    }
}

// The kind of a `force` or an `assign`.
fn force_stmt(word: ForceWord) -> StmtKind
    ensures { result ≡ force_stmt word }
{
    match word {
        ForceWord::Force => StmtKind::Force,
        ForceWord::Assign => StmtKind::AssignStmt,
    }
}

// The kind of a `release` or a `deassign`.
fn release_stmt(word: ReleaseWord) -> StmtKind
    ensures { result ≡ release_stmt word }
{
    match word {
        ReleaseWord::Release => StmtKind::Release,
        ReleaseWord::Deassign => StmtKind::Deassign,
    }
}

// `->`.
fn trigger_operations(maker: &mut Maker, name: &Name<Expr>) -> Lowered<Operations>
    requires stands { Stands maker.old }
    ensures { Adds (λ s a. Makes (trigger_operations s (name_tree name.now) a))
        maker.old result maker.new }
{
    let object = event_of(maker, name)?;
    Ok(one_single(maker.alloc, Single::Trigger(object))?)
}

// `disable`.
fn disable_operations(maker: &mut Maker, name: &Name<Expr>) -> Lowered<Operations>
    requires stands { Stands maker.old }
    ensures { Adds (λ s a. Makes (disable_operations s (name_tree name.now) a))
        maker.old result maker.new }
{
    let object = disable_target_of(maker, name)?;
    Ok(one_single(maker.alloc, Single::Disable(object))?)
}

// A `force` or an `assign`.
fn force_operations(maker: &mut Maker, word: ForceWord, set: &Set) -> Lowered<Operations>
    requires stands { Stands maker.old }
    ensures { Adds (λ s a. Makes (force_operations s word (set_tree set.now) a))
        maker.old result maker.new }
{
    let object = forced_of(maker, word, &set.target)?;
    let mut operations = Vec::new(maker.alloc);
    let value = value_of(maker, &mut operations, &set.value)?;
    let single = force_single(word, object, value);
    Ok(with_operation(operations, Operation::Single(single))?)
}

// A `release` or a `deassign`.
fn release_operations(maker: &mut Maker, word: ReleaseWord, target: &Lv) -> Lowered<Operations>
    requires stands { Stands maker.old }
    ensures { Adds (λ s a. Makes (release_operations s word (lv_tree target.now) a))
        maker.old result maker.new }
{
    let object = released_of(maker, word, target)?;
    Ok(one_single(maker.alloc, release_single(word, object))?)
}

// What a statement is in which none stands.
fn simple_kind(simple: &Simple) -> StmtKind
    ensures { result ≡ simple_kind (simple_tree simple.now) }
{
    match simple {
        Simple::Empty | Simple::Assign { .. } => StmtKind::Assignment,
        Simple::Trigger(_) => StmtKind::EventStmt,
        Simple::Disable(_) => StmtKind::Disable,
        Simple::Force(word, _) => force_stmt(*word),
        Simple::Release(word, _) => release_stmt(*word),
        Simple::Call(_, _) => StmtKind::TaskCall,
        Simple::System(_, _) => StmtKind::SysTaskCall,
    }
}

// Its instructions, a row for each.
fn simple_operations(maker: &mut Maker, simple: &Simple) -> Lowered<Operations>
    requires stands { Stands maker.old }
    ensures { Adds (λ s a. Makes (simple_operations s (simple_tree simple.now) a))
        maker.old result maker.new }
{
    match simple {
        Simple::Empty => Ok(Operations::new(Vec::new(maker.alloc))),
        Simple::Assign {
            target,
            word,
            delay,
            value,
        } => assign_operations(maker, target, *word, delay, value.get()),
        Simple::Trigger(name) => trigger_operations(maker, name),
        Simple::Disable(name) => disable_operations(maker, name),
        Simple::Force(word, set) => force_operations(maker, *word, set.get()),
        Simple::Release(word, target) => release_operations(maker, *word, target),
        Simple::Call(name, values) => task_operations(maker, name.get(), values),
        Simple::System(id, values) => system_operations(maker, id, values),
    }
}

// Whether it is the null statement, which is none of those that have a number.
fn is_null(simple: &Simple) -> bool
    ensures { result ≡ is_null (simple_tree simple.now) }
{
    match simple {
        Simple::Empty => true,
        Simple::Assign { .. }
        | Simple::Trigger(_)
        | Simple::Disable(_)
        | Simple::Force(_, _)
        | Simple::Release(_, _)
        | Simple::Call(_, _)
        | Simple::System(_, _) => false,
    }
}

// A statement in which none stands.
pub(crate) fn simple_flow(maker: &mut Maker, place: Place, simple: &Simple) -> Lowered<Flow>
    requires stands { Stands maker.old }
    ensures { Adds (λ s a. MakesTo flow_tree (simple_flow s place (simple_tree simple.now) a))
        maker.old result maker.new }
{
    if is_null(simple) {
        return Ok(nothing(maker.alloc)?);
    }
    let number = numbered(maker, simple_kind(simple), place)?;
    let operations = simple_operations(maker, simple)?;
    Ok(instructions(maker.alloc, number, operations)?)
}

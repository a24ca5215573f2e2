ghost use Rattle.std.specs.Prelude.{◌≡◌, ◌<◌, ◌≤◌, length, IfOk, OnOk};
ghost use Rattle.vh_ast.specs.Views.{delay_tree, expr_tree, lv_tree};
ghost use Rattle.vh_bind_stmt.specs.Views.{surroundings_seen};
ghost use Rattle.vh_lower.specs.Making.{Makes, numbered, scope_of, reading_from, with_show, with_wait, called_behind};
ghost use Rattle.vh_lower.specs.Statements.{value_of, targets_of, delay_of, output_of};
ghost use Rattle.vh_lower.specs.Views.{added_seen, Performs, Stands, Adds, Finds, IsSame, added_of, around_of};

use crate::added::{Added, Maker};
use crate::fault::{LowerFault, Lowered};
use std::alloc::Global;
use vh_ast::{Delay, Expr, Lv};
use vh_base::{ExprId, NoMemory, ObjId, Place, ShowId, WaitId};
use vh_bind_expr::bind_expr;
use vh_bind_stmt::{Surroundings, add_calls, bind_delay, bind_output, bind_targets, reads_of};
use vh_design_code::{
    Delay as Wait, Operation, ShowCall, StmtInfo, StmtKind, Targets, Terms, WaitInfo,
};

/// What was bound, with the calls that are made from one expression on, where it isn't passed over.
pub fn with_calls<T: Drop>(
    maker: &Maker,
    calls: &mut Vec<Operation>,
    from: usize,
    found: Option<T>,
) -> Lowered<T>
    ensures { Finds
        (λ s a. Performs (called_behind s calls.old.items from found a) calls.new.items)
        maker.now result }
{
    let Some(found) = found else {
        return Err(LowerFault::PassedOver);
    };
    add_calls(maker.alloc, maker.around, calls, &maker.added.exprs, from)?;
    Ok(found)
}

/// A value, with the calls that it makes.
pub fn value_of(maker: &mut Maker, calls: &mut Vec<Operation>, e: &Expr) -> Lowered<ExprId>
    requires stands { Stands maker.old }
    ensures made { Adds
        (λ s a. Performs (value_of s calls.old.items (expr_tree e.now) a) calls.new.items)
        maker.old result maker.new }
    ensures below { IfOk result (λ e. e < length (added_of maker.new).exprs) }
    ensures grows { OnOk result
        (length (added_of maker.old).exprs ≤ length (added_of maker.new).exprs) }
{
    let from = maker.added.exprs.len();
    let found = bind_expr(maker.alloc, &mut maker.added.exprs, maker.around.scope, e)?;
    with_calls(maker, calls, from, found)
}

// The left side of an assignment, with the calls that it makes.
pub(crate) fn targets_of(maker: &mut Maker, calls: &mut Vec<Operation>, lv: &Lv) -> Lowered<Targets>
    requires stands { Stands maker.old }
    ensures { Adds
        (λ s a. Performs (targets_of s calls.old.items (lv_tree lv.now) a) calls.new.items)
        maker.old result maker.new }
{
    let from = maker.added.exprs.len();
    let found = bind_targets(maker.alloc, maker.around.scope, &mut maker.added.exprs, lv)?;
    with_calls(maker, calls, from, found)
}

/// A delay, with the calls that it makes.
pub fn delay_of(maker: &mut Maker, calls: &mut Vec<Operation>, delay: &Delay) -> Lowered<Wait>
    requires stands { Stands maker.old }
    ensures { Adds
        (λ s a. Performs (delay_of s calls.old.items (delay_tree delay.now) a) calls.new.items)
        maker.old result maker.new }
{
    let from = maker.added.exprs.len();
    let found = bind_delay(
        maker.alloc,
        maker.around.scope,
        &mut maker.added.exprs,
        delay,
    )?;
    with_calls(maker, calls, from, found)
}

// An output of a task, with the calls that it makes.
pub(crate) fn output_of(maker: &mut Maker, calls: &mut Vec<Operation>, e: &Expr) -> Lowered<Targets>
    requires stands { Stands maker.old }
    ensures { Adds
        (λ s a. Performs (output_of s calls.old.items (expr_tree e.now) a) calls.new.items)
        maker.old result maker.new }
{
    let from = maker.added.exprs.len();
    let found = bind_output(maker.alloc, maker.around.scope, &mut maker.added.exprs, e)?;
    with_calls(maker, calls, from, found)
}

// The scope that a statement stands in.
pub(crate) fn scope_of(around: &Surroundings) -> ObjId
    ensures { result ≡ scope_of (surroundings_seen around.now) }
{
    match around.scope.around.first() {
        None => around.scope.top.id,
        Some(scope) => *scope,
    }
}

// One statement more, under the next number.
pub(crate) fn numbered(maker: &mut Maker, kind: StmtKind, place: Place) -> Lowered<u32>
    ensures made { Makes (numbered kind (around_of maker.old) place (added_of maker.old)) result
        (added_of maker.new) }
    ensures exprs { (added_of maker.new).exprs ≡ (added_of maker.old).exprs }
    ensures same { IsSame maker.old maker.new }
{
    let Ok(number) = u32::try_from(maker.added.stmts.len()) else {
        return Err(LowerFault::NoMemory);
    };
    let scope = scope_of(maker.around);
    let Ok(()) = maker.added.stmts.push(StmtInfo { kind, scope, place }) else {
        return Err(LowerFault::NoMemory);
    };
    Ok(number)
}

// One wait more.
pub(crate) fn with_wait(added: &mut Added, terms: Terms) -> Result<WaitId, LowerFault>
    ensures made { Makes (with_wait terms (added_seen added.old)) result (added_seen added.new) }
    ensures exprs { (added_seen added.new).exprs ≡ (added_seen added.old).exprs }
{
    let Ok(number) = u32::try_from(added.waits.len()) else {
        return Err(LowerFault::NoMemory);
    };
    let Ok(()) = added.waits.push(WaitInfo { terms }) else {
        return Err(LowerFault::NoMemory);
    };
    Ok(WaitId::new(number))
}

/// A wait for what the expressions from one on read.
pub fn reading_from(alloc: Global, added: &mut Added, from: usize) -> Result<WaitId, LowerFault>
    ensures made { Makes (reading_from from (added_seen added.old)) result (added_seen added.new) }
    ensures exprs { (added_seen added.new).exprs ≡ (added_seen added.old).exprs }
{
    let terms = reads_of(alloc, &added.exprs, from)?;
    with_wait(added, terms)
}

// One display call more.
pub(crate) fn with_show(added: &mut Added, show: ShowCall) -> Result<ShowId, LowerFault>
    ensures made { Makes (with_show show (added_seen added.old)) result (added_seen added.new) }
    ensures exprs { (added_seen added.new).exprs ≡ (added_seen added.old).exprs }
{
    let Ok(number) = u32::try_from(added.shows.len()) else {
        return Err(LowerFault::NoMemory);
    };
    let Ok(()) = added.shows.push(show) else {
        return Err(LowerFault::NoMemory);
    };
    Ok(ShowId::new(number))
}

ghost use Rattle.std.specs.Prelude.{map};
ghost use Rattle.std.specs.Option.{option_map};
ghost use Rattle.vh_ast.specs.Views.{expr_tree};
ghost use Rattle.vh_bind_stmt.specs.Shows.{show_task};
ghost use Rattle.vh_lower.specs.Making.{Makes};
ghost use Rattle.vh_lower.specs.Statements.{arguments_of_show, show_operations, ending_operations, other_operations, system_operations};
ghost use Rattle.vh_lower.specs.Views.{Performs, Stands, Adds, Finds};

use crate::added::Maker;
use crate::assignments::with_operation;
use crate::fault::{LowerFault, Lowered};
use crate::instructions::Operations;
use crate::making::{scope_of, with_calls, with_show};
use crate::simple::one_single;
use sqlite_items::Items;
use vh_ast::{Expr, Id};
use vh_base::{DesignFault, Place};
use vh_bind_stmt::{arguments_fit, bind_arguments, show_task, takes_number};
use vh_design_code::{Operation, ShowArgs, ShowCall, ShowTask, Single};

// The arguments of a display call, with the calls that they make.
fn arguments_of_show(
    maker: &mut Maker,
    calls: &mut Vec<Operation>,
    values: &[Option<Expr>],
) -> Lowered<ShowArgs>
    requires stands { Stands maker.old }
    ensures { Adds
        (λ s a. Performs
        (arguments_of_show s calls.old.items (map (option_map expr_tree) values.now) a)
        calls.new.items)
        maker.old result maker.new }
{
    let from = maker.added.exprs.len();
    let found = bind_arguments(
        maker.alloc,
        maker.around.scope,
        &mut maker.added.exprs,
        values,
    )?;
    with_calls(maker, calls, from, found)
}

// A display call.
fn show_operations(
    maker: &mut Maker,
    place: Place,
    values: &[Option<Expr>],
    task: ShowTask,
) -> Lowered<Operations>
    requires stands { Stands maker.old }
    ensures { Adds
        (λ s a. Makes (show_operations s place (map (option_map expr_tree) values.now) task a))
        maker.old result maker.new }
{
    if !arguments_fit(values) {
        return Err(LowerFault::Refused(DesignFault::N10, place));
    }
    let mut operations = Vec::new(maker.alloc);
    let args = arguments_of_show(maker, &mut operations, values)?;
    let call = ShowCall {
        task,
        scope: scope_of(maker.around),
        unit: maker.around.scope.unit,
        args,
    };
    let show = with_show(maker.added, call)?;
    Ok(with_operation(operations, Operation::Single(Single::Show(show)))?)
}

// `$finish` or `$stop`.
fn ending_operations(
    maker: &Maker,
    place: Place,
    values: &[Option<Expr>],
    single: Single,
) -> Lowered<Operations>
    ensures { Finds
        (λ s a. Makes (ending_operations place (map (option_map expr_tree) values.now) single a))
        maker.now result }
{
    if !takes_number(values) {
        return Err(LowerFault::Refused(DesignFault::N10, place));
    }
    Ok(one_single(maker.alloc, single)?)
}

// Any other system task.
fn other_operations(maker: &Maker, id: &Id, values: &[Option<Expr>]) -> Lowered<Operations>
    ensures { Finds (λ s a. Makes (other_operations id.now (map (option_map expr_tree) values.now) a))
        maker.now result }
{
    let name = id.name.as_slice();
    if name == b"$finish".as_slice() {
        ending_operations(maker, id.place, values, Single::Finish)
    } else if name == b"$stop".as_slice() {
        ending_operations(maker, id.place, values, Single::Stop)
    } else {
        Err(LowerFault::Refused(DesignFault::N10, id.place))
    }
}

// The instructions of a system task that is built in (IEEE 1364-2005, 17.1 and 17.4).
pub(crate) fn system_operations(
    maker: &mut Maker,
    id: &Id,
    values: &Items<Option<Expr>>,
) -> Lowered<Operations>
    requires stands { Stands maker.old }
    ensures { Adds
        (λ s a. Makes
        (system_operations s id.now (map (option_map expr_tree) values.now) (show_task id.now.name) a))
        maker.old result maker.new }
{
    let values = values.as_slice();
    match show_task(id.name.as_slice()) {
        Some(task) => show_operations(maker, id.place, values, task),
        None => other_operations(maker, id, values),
    }
}

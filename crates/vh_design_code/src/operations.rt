ghost use Rattle.std.specs.Prelude.{◌≡◌, nat_lt};
ghost use Rattle.std.specs.List.{list_all};
ghost use Rattle.vh_design_nodes.specs.Widths.{widest, all_signed};
ghost use Rattle.vh_design_code.specs.Operations.{fits_goes, fits_delayed, fits_schedule, fits_pause, matched, fits_arm, fits_case, fits_loop, fits_result, fits_leave, fits_enter, fits_force, fits_write, fits_single, fits_drive, fits_operation};

use crate::code::Goes;
use crate::codes::Limits;
use crate::operation::{
    Arm, CaseTest, Drive, Leave, Loop, Operation, Pause, Returned, Schedule, Single,
};
use crate::target::{Delay, Input};
use crate::targets::{all_inputs_fit, all_outputs_fit, fits_delay, fits_drivers, fits_targets};
use vh_base::{ExprId, ObjId, ShowId, WaitId};
use vh_design_nodes::{
    DriverInfo, ExprNode, ObjectInfo, has_body, is_before, is_disable_target_at, is_event_at,
    is_forcible_at, is_routine_at, is_system_function_at, is_system_task_at, is_variable_at,
    is_width, same_sign, signed_of, width_of,
};

// Whether a code with so many positions may go on there.
pub(crate) fn fits_goes(positions: usize, goes: Goes) -> bool
    ensures { result ≡ fits_goes positions goes }
{
    match goes {
        Goes::Back => true,
        Goes::To(place) => (place as usize) < positions,
    }
}

// Whether a wait is there.
fn has_wait(waits: usize, wait: WaitId) -> bool
    ensures { result ≡ nat_lt wait waits }
{
    (wait.number() as usize) < waits
}

// Whether a delay may stand there, where there is one.
fn fits_delayed(exprs: usize, precision: u8, delay: Option<Delay>) -> bool
    ensures { result ≡ fits_delayed exprs precision delay }
{
    match delay {
        None => true,
        Some(delay) => fits_delay(exprs, precision, delay),
    }
}

// Whether a nonblocking assignment may stand there.
fn fits_schedule(objects: &[ObjectInfo], exprs: usize, precision: u8, schedule: &Schedule) -> bool
    ensures { result ≡ fits_schedule objects.now exprs precision schedule.now }
{
    is_before(exprs, schedule.value)
        && fits_targets(objects, exprs, schedule.targets.as_slice())
        && fits_delayed(exprs, precision, schedule.delay)
}

// Whether a statement that waits may.
fn fits_pause(exprs: usize, limits: Limits, pause: Pause) -> bool
    ensures { result ≡ fits_pause exprs limits pause }
{
    match pause {
        Pause::Wait(delay) => fits_delay(exprs, limits.precision, delay),
        Pause::Await(wait) => has_wait(limits.waits, wait),
        Pause::WaitFor { condition, wait } => {
            is_before(exprs, condition) && has_wait(limits.waits, wait)
        }
    }
}

// Whether a value of an item of a `case` may.
fn fits_arm(exprs: usize, positions: usize, arm: Arm) -> bool
    ensures { result ≡ fits_arm exprs positions arm }
{
    is_before(exprs, arm.value) && fits_goes(positions, arm.to)
}

// Whether all values may.
fn all_arms_fit(exprs: usize, positions: usize, arms: &[Arm]) -> bool
    ensures { result ≡ list_all (fits_arm exprs positions) arms.now }
{
    arms.iter().all(|arm| fits_arm(exprs, positions, *arm))
}

// The greatest width of a subject and values.
fn widest_matched(exprs: &[ExprNode], subject: u32, arms: &[Arm]) -> u32
    ensures { result ≡ widest exprs.now subject (matched arms.now) }
{
    arms.iter()
        .map(|arm| arm.value)
        .fold(subject, |best, e| best.max(width_of(exprs, e)))
}

// Whether all values are signed.
fn all_matched_signed(exprs: &[ExprNode], arms: &[Arm]) -> bool
    ensures { result ≡ all_signed exprs.now (matched arms.now) }
{
    arms.iter()
        .map(|arm| arm.value)
        .all(|e| signed_of(exprs, e))
}

// Whether a `case` may stand there.
fn fits_case(exprs: &[ExprNode], positions: usize, case: &CaseTest) -> bool
    ensures { result ≡ fits_case exprs.now positions case.now }
{
    let arms = case.arms.as_slice();
    is_before(exprs.len(), case.subject)
        && all_arms_fit(exprs.len(), positions, arms)
        && case.width == widest_matched(exprs, width_of(exprs, case.subject), arms)
        && is_width(case.width)
        && same_sign(
            case.signed,
            signed_of(exprs, case.subject) && all_matched_signed(exprs, arms),
        )
}

// Whether a turn of a loop may.
fn fits_loop(exprs: usize, positions: usize, turn: Loop) -> bool
    ensures { result ≡ fits_loop exprs positions turn }
{
    match turn {
        Loop::Repeat { count, done } => is_before(exprs, count) && fits_goes(positions, done),
        Loop::Again { done } => fits_goes(positions, done),
        Loop::Turn => true,
    }
}

// Whether all these positions are there.
fn all_positions_there(positions: usize, branches: &[u32]) -> bool
    ensures { result ≡ list_all (λ b. nat_lt b positions) branches.now }
{
    branches.iter().all(|branch| (*branch as usize) < positions)
}

// Whether a function's result may go there.
fn fits_result(objects: &[ObjectInfo], exprs: usize, result_of: Option<Returned>) -> bool
    ensures { result ≡ fits_result objects.now exprs result_of }
{
    match result_of {
        None => true,
        Some(returned) => {
            is_before(exprs, returned.call) && is_variable_at(objects, returned.variable)
        }
    }
}

// Whether the end of a call may stand there.
fn fits_leave(objects: &[ObjectInfo], exprs: usize, leave: &Leave) -> bool
    ensures { result ≡ fits_leave objects.now exprs leave.now }
{
    all_outputs_fit(objects, exprs, leave.outputs.as_slice())
        && fits_result(objects, exprs, leave.result)
}

// Whether a call of a task or function may.
fn fits_enter(objects: &[ObjectInfo], exprs: usize, routine: ObjId, inputs: &[Input]) -> bool
    ensures { result ≡ fits_enter objects.now exprs routine inputs.now }
{
    is_routine_at(objects, routine)
        && has_body(objects, routine)
        && all_inputs_fit(objects, exprs, inputs)
}

// Whether a display call is there.
fn has_show(shows: usize, show: ShowId) -> bool
    ensures { result ≡ nat_lt show shows }
{
    (show.number() as usize) < shows
}

// Whether an expression and an object that takes a force are there.
fn fits_force(objects: &[ObjectInfo], exprs: usize, object: ObjId, value: ExprId) -> bool
    ensures { result ≡ fits_force objects.now exprs object value }
{
    is_forcible_at(objects, object) && is_before(exprs, value)
}

// Whether an expression and a variable are there.
fn fits_write(objects: &[ObjectInfo], exprs: usize, object: ObjId, value: ExprId) -> bool
    ensures { result ≡ fits_write objects.now exprs object value }
{
    is_variable_at(objects, object) && is_before(exprs, value)
}

// Whether a statement with one instruction may stand there.
fn fits_single(objects: &[ObjectInfo], exprs: usize, shows: usize, single: Single) -> bool
    ensures { result ≡ fits_single objects.now exprs shows single }
{
    match single {
        Single::Show(show) => has_show(shows, show),
        Single::Finish => true,
        Single::Stop => true,
        Single::Trigger(object) => is_event_at(objects, object),
        Single::Disable(object) => is_disable_target_at(objects, object),
        Single::Force { object, value } => fits_force(objects, exprs, object, value),
        Single::Release(object) => is_forcible_at(objects, object),
        Single::Procedural { object, value } => fits_write(objects, exprs, object, value),
        Single::Deassign(object) => is_variable_at(objects, object),
    }
}

// Whether a continuous assignment may.
fn fits_drive(drivers: &[DriverInfo], exprs: usize, limits: Limits, drive: &Drive) -> bool
    ensures { result ≡ fits_drive drivers.now exprs limits drive.now }
{
    fits_drivers(drivers, drive.drivers.as_slice())
        && is_before(exprs, drive.value)
        && fits_delayed(exprs, limits.precision, drive.delay)
        && has_wait(limits.waits, drive.wait)
}

// Whether an operation may stand in a code with so many positions.
pub(crate) fn fits_operation(
    objects: &[ObjectInfo],
    exprs: &[ExprNode],
    drivers: &[DriverInfo],
    limits: Limits,
    positions: usize,
    operation: &Operation,
) -> bool
    ensures { result ≡ fits_operation objects.now exprs.now drivers.now limits positions
        operation.now }
{
    let count = exprs.len();
    match operation {
        Operation::Assign { value, targets } => {
            is_before(count, *value) && fits_targets(objects, count, targets.as_slice())
        }
        Operation::Hold {
            value,
            width,
            delay,
        } => {
            is_before(count, *value)
                && is_width(*width)
                && fits_delay(count, limits.precision, *delay)
        }
        Operation::Store(targets) => fits_targets(objects, count, targets.as_slice()),
        Operation::Schedule(schedule) => {
            fits_schedule(objects, count, limits.precision, schedule.get())
        }
        Operation::Pause(pause) => fits_pause(count, limits, *pause),
        Operation::Test {
            condition,
            otherwise,
        } => is_before(count, *condition) && fits_goes(positions, *otherwise),
        Operation::Case(case) => fits_case(exprs, positions, case.get()),
        Operation::Loop(turn) => fits_loop(count, positions, *turn),
        Operation::Fork(branches) => all_positions_there(positions, branches.as_slice()),
        Operation::End => true,
        Operation::Enter { routine, inputs } => {
            fits_enter(objects, count, *routine, inputs.as_slice())
        }
        Operation::Leave(leave) => fits_leave(objects, count, leave.get()),
        Operation::SysCall(call) => is_system_task_at(objects, *call),
        Operation::SysFunc(call) => is_system_function_at(objects, *call),
        Operation::Single(single) => fits_single(objects, count, limits.shows, *single),
        Operation::Drive(drive) => fits_drive(drivers, count, limits, drive.get()),
        Operation::Initial { object, value } => fits_write(objects, count, *object, *value),
    }
}

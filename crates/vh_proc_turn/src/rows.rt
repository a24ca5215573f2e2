ghost use Rattle.std.specs.Prelude.{◌≡◌, ◌++◌, ◌∷◌, [], length, true, Some, None, Ok, IsSome, IfOk, IfErr, OnOk};
ghost use Rattle.vh_design_code.specs.Operations.{fits_operation, fits_pause, fits_enter, fits_drive, fits_single};
ghost use Rattle.vh_design.specs.Validity.{limits_of};
ghost use Rattle.vh_proc_thread.specs.Control.{Runs};
ghost use Rattle.vh_proc_turn.specs.Own.{Fits, FailsBy, own_of, turn_with};
ghost use Rattle.vh_proc_turn.specs.Turns as turns;
ghost use Rattle.vh_proc_turn.specs.Turns.{is_own, turn_of, pausing, driving_all, entering, single_next, single_store, single_made};
ghost use Rattle.vh_proc_turn.specs.declared.next.Next.TheVariants.{On};
ghost use Rattle.vh_sense.specs.Sensitivity.{Sensitivity};
ghost use Rattle.vh_queue.specs.Events.{Events};

use crate::assigns::{enter, held_pieces, leave, right_pieces, take};
use crate::choices::{arm_of, is_true, take_turn};
use crate::drives::{digits_driven, drive_all};
use crate::fault::StepFault;
use crate::next::Next;
use crate::process::{Process, Room};
use crate::waits::{resume, schedule, update_time};
use vh_base::{Fault, NoMemory, ObjId, Object, ProcId};
use vh_design::{
    Change, Design, Drive, Goes, Input, Instruction, Layer, Made, Operation, Pause, Single,
};
use vh_logic::{Digit, Vec4};
use vh_proc_assign::{assign_object, deassign_object, force_object, release_object, right_side};
use vh_proc_thread::CallFault;
use vh_queue::Queue;
use vh_sense::Sense;
use vh_store::Store;

// `#`, `@` or `wait`.
fn pause(
    d: &Design,
    process: &mut Process,
    s: &Store,
    sense: &mut Sense,
    q: &mut Queue,
    p: ProcId,
    goes: Goes,
    it: Pause,
) -> Result<Next, StepFault>
    requires runs { Runs d.now (process.old).thread }
    requires there { fits_pause (length (d.now).exprs) (limits_of d.now) it ≡ true }
    requires waits { (sense.old).waits ≡ (d.now).waits }
    requires now { (s.now).time ≡ (q.old).time }
    ensures done { IfOk result
        (λ n. pausing d.now p goes it (own_of process.old s.now sense.old q.old)
        ≡ Ok (turn_with (own_of process.new s.now sense.new q.new) [] n)) }
    ensures fails { IfErr result (FailsBy (pausing d.now p goes it
        (own_of process.old s.now sense.old q.old))) }
    ensures waits { (sense.new).waits ≡ (sense.old).waits }
    ensures now { (q.new).time ≡ (q.old).time }
    ensures runs { OnOk result (Runs d.now (process.new).thread) }
{
    match it {
        Pause::Wait(delay) => {
            process.thread.go_on(goes);
            resume(d, process, s, q, p, delay)?;
            Ok(Next::Waits)
        }
        Pause::Await(wait) => {
            process.thread.go_on(goes);
            sense.wait(p, wait)?;
            Ok(Next::Waits)
        }
        Pause::WaitFor { condition, wait } => {
            if is_true(d, s, condition) {
                process.thread.go_on(goes);
                return Ok(Next::On);
            }
            sense.wait(p, wait)?;
            Ok(Next::Waits)
        }
    }
}

// A continuous assignment.
fn assign_continuously(
    d: &Design,
    process: &mut Process,
    s: &Store,
    sense: &mut Sense,
    q: &mut Queue,
    p: ProcId,
    it: &Drive,
) -> Result<Next, StepFault>
    requires there { fits_drive d.now.drivers (length d.now.exprs) (limits_of d.now) it.now ≡ true }
    requires waits { sense.old.waits ≡ d.now.waits }
    requires now { s.now.time ≡ q.old.time }
    ensures done { IfOk result
        (λ n. driving_all d.now p it.now (own_of process.old s.now sense.old q.old)
        ≡ Ok (turn_with (own_of process.new s.now sense.new q.new) [] n)) }
    ensures fails { IfErr result (FailsBy (driving_all d.now p it.now
        (own_of process.old s.now sense.old q.old))) }
    ensures waits { sense.new.waits ≡ sense.old.waits }
    ensures now { q.new.time ≡ q.old.time }
    ensures thread { process.new.thread ≡ process.old.thread }
{
    let drivers = it.drivers.as_slice();
    let v = right_side(d, s, it.value, digits_driven(d, drivers));
    let time = update_time(d, s, it.delay);
    drive_all(d, &mut process.updates, s, q, time, drivers, &v)?;
    sense.wait(p, it.wait)?;
    Ok(Next::Waits)
}

// A named event.
fn event_of(event: ObjId) -> Object
    ensures { result ≡ record { id = event; word = None } }
{
    Object {
        id: event,
        word: None,
    }
}

// A change of a named event.
fn triggered(event: ObjId) -> Change
    ensures { result ≡ turns.triggered event }
{
    let x = Vec4::filled(1, Digit::X, false);
    Change {
        object: event_of(event),
        old: x,
        new: x,
    }
}

// What a process does behind a statement with one label that goes on at once.
fn next_of(it: Single) -> Next
    requires { IsSome (single_next it) }
    ensures { single_next it ≡ Some result }
{
    match it {
        Single::Show(show) => Next::Shows(show),
        Single::Finish => Next::Finishes,
        Single::Stop => Next::Stops,
        Single::Trigger(_)
        | Single::Force { .. }
        | Single::Release(_)
        | Single::Procedural { .. }
        | Single::Deassign(_) => Next::On,
        Single::Disable(_) => unreachable!(),
    }
}

// A change is noted.
fn note(made: &mut Vec<Made>, change: Change) -> Result<(), NoMemory>
    ensures { OnOk result (made.new.items ≡ made.old.items ++ turns.made_of change ∷ []) }
{
    made.push(Made {
        object: change.object,
        change: Some(change),
        layer: Layer::Plain,
    })?;
    Ok(())
}

// What it does to the values of objects, and what it changes, forces or releases.
fn take_effect(d: &Design, s: &mut Store, it: Single, made: &mut Vec<Made>) -> Result<(), NoMemory>
    requires { fits_single d.now.objects (length d.now.exprs) (length d.now.shows) it ≡ true }
    ensures contents { OnOk result (s.new ≡ single_store d.now it s.old) }
    ensures made { OnOk result (made.new.items ≡ made.old.items ++ single_made d.now it s.old) }
    ensures time { s.new.time ≡ s.old.time }
{
    match it {
        Single::Trigger(event) => note(made, triggered(event)),
        Single::Force { object, value } => force_object(d, s, object, value, made),
        Single::Release(object) => release_object(s, object, made),
        Single::Procedural { object, value } => assign_object(d, s, object, value, made),
        Single::Deassign(object) => deassign_object(s, object, made),
        Single::Show(_) | Single::Finish | Single::Stop | Single::Disable(_) => Ok(()),
    }
}

// The begin of a call.
fn call(
    d: &Design,
    process: &mut Process,
    s: &mut Store,
    routine: ObjId,
    inputs: &[Input],
    room: &mut Room,
) -> Result<(), StepFault>
    requires runs { Runs d.now (process.old).thread }
    requires there { fits_enter (d.now).objects (length (d.now).exprs) routine inputs.now ≡ true }
    requires empty { room.old.made.items ≡ [] }
    ensures done { (w : Sensitivity) (q : Events) →
        OnOk result (entering d.now routine inputs.now (own_of process.old s.old w q)
        ≡ Ok (turn_with (own_of process.new s.new w q) room.new.made.items On)) }
    ensures fails { (w : Sensitivity) (q : Events) →
        IfErr result (FailsBy (entering d.now routine inputs.now (own_of process.old s.old w q))) }
    ensures time { (s.new).time ≡ (s.old).time }
    ensures runs { OnOk result (Runs d.now (process.new).thread) }
{
    match process.thread.call(d, routine) {
        Ok(()) => {}
        Err(CallFault::TooDeep) => return Err(StepFault::Run(Fault::F4)),
        Err(CallFault::NoMemory) => return Err(StepFault::NoMemory),
    }
    enter(d, s, inputs, room)?;
    Ok(())
}

/// Performs an instruction at which a process stands: one that touches no other process. What it
/// changes is noted in the room, which is empty before. Behind a fault nothing of it is read any
/// more.
pub fn turn(
    d: &Design,
    process: &mut Process,
    s: &mut Store,
    sense: &mut Sense,
    q: &mut Queue,
    p: ProcId,
    i: &Instruction,
    room: &mut Room,
) -> Result<Next, StepFault>
    requires runs { Runs d.now (process.old).thread }
    requires there { let l = limits_of d.now in let n = d.now in
        Fits (λ positions. fits_operation n.objects n.exprs n.drivers l positions i.now.operation) }
    requires said { is_own i.now.operation ≡ true }
    requires waits { (sense.old).waits ≡ (d.now).waits }
    requires now { (s.old).time ≡ (q.old).time }
    requires empty { room.old.made.items ≡ [] }
    ensures done { IfOk result
        (λ n. turn_of d.now p i.now (own_of process.old s.old sense.old q.old)
        ≡ Ok (turn_with (own_of process.new s.new sense.new q.new) room.new.made.items n)) }
    ensures fails { IfErr result (FailsBy (turn_of d.now p i.now
        (own_of process.old s.old sense.old q.old))) }
    ensures time { (s.new).time ≡ (s.old).time }
    ensures kept { (sense.new).waits ≡ (sense.old).waits }
    ensures still { (q.new).time ≡ (q.old).time }
    ensures runs { OnOk result (Runs d.now (process.new).thread) }
{
    process.thread.arrive(d);
    match &i.operation {
        Operation::Assign { value, targets } => {
            right_pieces(d, s, *value, targets.as_slice(), room)?;
            take(s, room)?;
            process.thread.go_on(i.next);
            Ok(Next::On)
        }
        Operation::Hold {
            value,
            width,
            delay,
        } => {
            process.held = Some(right_side(d, s, *value, *width));
            process.thread.go_on(i.next);
            resume(d, process, s, q, p, *delay)?;
            Ok(Next::Waits)
        }
        Operation::Store(targets) => {
            held_pieces(d, s, process, targets.as_slice(), room)?;
            take(s, room)?;
            process.thread.go_on(i.next);
            Ok(Next::On)
        }
        Operation::Schedule(it) => {
            let it = it.get();
            right_pieces(d, s, it.value, it.targets.as_slice(), room)?;
            schedule(d, s, q, it.delay, &room.pieces)?;
            process.thread.go_on(i.next);
            Ok(Next::On)
        }
        Operation::Pause(it) => pause(d, process, s, sense, q, p, i.next, *it),
        Operation::Test {
            condition,
            otherwise,
        } => {
            let goes = if is_true(d, s, *condition) {
                i.next
            } else {
                *otherwise
            };
            process.thread.go_on(goes);
            Ok(Next::On)
        }
        Operation::Case(case) => {
            let goes = arm_of(d, s, case.get(), i.next);
            process.thread.go_on(goes);
            Ok(Next::On)
        }
        Operation::Loop(it) => {
            take_turn(d, s, process, i, *it)?;
            Ok(Next::On)
        }
        Operation::End => Ok(Next::Ends),
        Operation::Enter { routine, inputs } => {
            call(d, process, s, *routine, inputs.as_slice(), room)?;
            Ok(Next::On)
        }
        Operation::Leave(it) => {
            leave(d, s, it.get(), room)?;
            process.thread.go_on(i.next);
            Ok(Next::On)
        }
        Operation::SysCall(call) | Operation::SysFunc(call) => {
            process.thread.go_on(i.next);
            Ok(Next::Calls(*call))
        }
        Operation::Single(it) => {
            process.thread.go_on(i.next);
            take_effect(d, s, *it, &mut room.made)?;
            Ok(next_of(*it))
        }
        Operation::Initial { object, value } => {
            let input = Input {
                variable: *object,
                value: *value,
            };
            enter(d, s, &[input], room)?;
            Ok(Next::Ends)
        }
        Operation::Drive(it) => {
            process.thread.go_on(i.next);
            assign_continuously(d, process, s, sense, q, p, it.get())
        }
        Operation::Fork(_) => unreachable!(),
    }
}

ghost use Rattle.std.specs.Prelude.{◌≡◌, ◌≤◌, ◌<◌, ◌^◌, ◌<ℤ◌, pos, length, OnOk, IfSome};
ghost use Rattle.vh_logic.specs.declared.vector.TheConstants.{MAX_WIDTH};
ghost use Rattle.vh_logic.specs.Vector.{width_of as digits_in};
ghost use Rattle.vh_design_nodes.specs.Widths.{width_of};
ghost use Rattle.vh_design_code.specs.Operations.{fits_case, fits_loop};
ghost use Rattle.vh_eval.specs.Value.{value_of};
ghost use Rattle.vh_proc_thread.specs.Control.{Runs};
ghost use Rattle.vh_proc_turn.specs.Own.{Fits};
ghost use Rattle.vh_proc_turn.specs.Turns.{is_true, compared, fits_value, arm_of, turns_of, turning};

use crate::process::Process;
use vh_base::{ExprId, NoMemory};
use vh_design::{Arm, CaseKind, CaseTest, Design, Goes, Instruction, Loop};
use vh_eval::eval;
use vh_logic::{Digit, Vec4, case_equal, casex_equal, casez_equal, truth};
use vh_proc_assign::{integer_alone, value_alone};
use vh_store::Store;

// Is a condition true?
pub(crate) fn is_true(d: &Design, s: &Store, condition: ExprId) -> bool
    requires { condition < length (d.now).exprs }
    ensures { result ≡ is_true d.now s.now condition }
{
    matches!(truth(&value_alone(d, s, condition)), Digit::One)
}

// How a `case` compares two values of one width and sign.
fn compared(kind: CaseKind, a: &Vec4, b: &Vec4) -> Digit
    requires { digits_in a.now ≡ digits_in b.now }
    ensures { result ≡ compared kind a.now b.now }
{
    match kind {
        CaseKind::Plain => case_equal(a, b),
        CaseKind::Z => casez_equal(a, b),
        CaseKind::X => casex_equal(a, b),
    }
}

// Does a label of a `case` fit its subject's value?
fn fits_value(d: &Design, s: &Store, case: &CaseTest, subject: &Vec4, arm: Arm) -> bool
    requires label { arm.value < length (d.now).exprs }
    requires wide { width_of (d.now).exprs arm.value ≤ case.now.width }
    requires most { case.now.width ≤ MAX_WIDTH }
    requires subject { subject.now
        ≡ value_of d.now s.now case.now.subject case.now.width case.now.signed }
    requires width { digits_in subject.now ≡ case.now.width }
    ensures { result ≡ fits_value d.now s.now case.now arm }
{
    let value = eval(d, s, arm.value, case.width, case.signed);
    matches!(compared(case.kind, subject, &value), Digit::One)
}

// Where a `case` goes on.
pub(crate) fn arm_of(d: &Design, s: &Store, case: &CaseTest, goes: Goes) -> Goes
    requires { Fits (λ positions. fits_case (d.now).exprs positions case.now) }
    ensures { result ≡ arm_of d.now s.now case.now goes }
{
    let subject = eval(d, s, case.subject, case.width, case.signed);
    for arm in case.arms.as_slice() {
        if fits_value(d, s, case, &subject, *arm) {
            return arm.to;
        }
    }
    goes
}

// How many turns a `repeat` takes.
fn turns_of(count: Option<i128>) -> u64
    requires { IfSome count (λ z. z <ℤ pos (2 ^ 64)) }
    ensures { result ≡ turns_of count }
{
    match count {
        Some(count) if count > 0 => count.unsigned_abs() as u64,
        _ => 0,
    }
}

// A turn of a loop.
pub(crate) fn take_turn(
    d: &Design,
    s: &Store,
    process: &mut Process,
    i: &Instruction,
    it: Loop,
) -> Result<(), NoMemory>
    requires runs { Runs d.now (process.old).thread }
    requires there { Fits (λ positions. fits_loop (length (d.now).exprs) positions it) }
    ensures turned { OnOk result (process.new ≡ turning d.now s.now i.now it process.old) }
    ensures runs { Runs d.now (process.new).thread }
{
    match it {
        Loop::Repeat { count, done } => {
            let turns = turns_of(integer_alone(d, s, count));
            if turns == 0 {
                process.thread.go_on(done);
                return Ok(());
            }
            process.thread.begin_repeat(i.block, turns - 1)?;
            process.thread.go_on(i.next);
        }
        Loop::Again { done } => {
            let goes = if process.thread.take_turn() {
                i.next
            } else {
                done
            };
            process.thread.go_on(goes);
        }
        Loop::Turn => process.thread.go_on(i.next),
    }
    Ok(())
}

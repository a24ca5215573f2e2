ghost use Rattle.std.specs.Prelude.{◌≡◌, ◌≢◌, ◌<◌, ◌≤◌, ℕ, List, Some, None, take, OnOk, OnErr};
ghost use Rattle.vh_base.specs.Outside.{Rose, appended, AppendsFront};
ghost use Rattle.vh_kernel.specs.Views.{state_of};
ghost use Rattle.vh_kernel_choice.specs.Choices.{chosen, chooser_after};
ghost use Rattle.vh_kernel.specs.Step.{choices_of};
ghost use Rattle.vh_kernel.specs.Run.{line_of_move};
ghost use Rattle.vh_kernel_laws.specs.Laws.{Lawful};
ghost use Rattle.vh_host.specs.Turn.{Turned, status_after};
ghost use Rattle.vh_host.specs.Transcript.{Wrote};
ghost use Rattle.vh_base_outside.specs.Kept.{Tells};

use crate::status::Status;
use std::alloc::Global;
use vh_base::{Sink, SinkFault};
use vh_base_outside::write_whole;
use vh_kernel::{Ending, Kernel, Label, push_line};
use vh_kernel_choice::Chooser;

// Behind so many labels in a row that have no line the sink is offered an empty piece.
const QUIET: u32 = 4_096;

/// Runs a kernel under an order of choice, and writes the line of each label as it is made, until
/// the run ends, as many labels as the budget were made, or a fault of the sink or of memory cuts
/// it short. Where many labels in a row have no line, the sink is offered an empty piece now and
/// then, with which it may write out what it holds.
pub fn transcribe<K: Sink>(
    alloc: Global,
    kernel: &mut Kernel,
    chooser: Chooser,
    budget: u64,
    out: &mut K,
) -> Status
    requires goes { 0 < choices_of (state_of kernel.old) }
    requires lawful { Lawful chooser (state_of kernel.old) }
    ensures wrote { (written : List ℕ) × (K.written out.new ≡ appended (K.written out.old) written)
        × Wrote chooser budget (state_of kernel.old) result written }
    ensures failed { result ≡ Status.WriteFault → Rose (K.faults out.old) (K.faults out.new) }
    ensures calm { result ≢ Status.WriteFault → K.faults out.new ≡ K.faults out.old }
    ensures read { (n : ℕ) → result ≢ Status.ReadFault n }
    ensures worded { result ≢ Status.Usage }
{
    let mut next = chooser;
    let mut line = String::new(alloc);
    let mut quiet = 0;
    for made in 0..budget {
        let k = choose(kernel, &mut next);
        if let Some(status) = turn(alloc, kernel, k, &mut line, &mut quiet, out) {
            return status;
        }
    }
    Status::BudgetSpent
}

// The number of the choice that the order takes, which then is the order for the labels after it.
pub(crate) fn choose(kernel: &Kernel, chooser: &mut Chooser) -> u32
    requires { 0 < choices_of (state_of kernel.now) }
    ensures choice { result ≡ chosen chooser.old (choices_of (state_of kernel.now)) }
    ensures below { result < choices_of (state_of kernel.now) }
    ensures next { chooser.new ≡ chooser_after chooser.old (choices_of (state_of kernel.now)) }
{
    if let Chooser::Fifo = *chooser {
        return 0;
    }
    let count = kernel.choices();
    let choice = chooser.chosen(count);
    *chooser = chooser.after(count);
    choice
}

// One step by the k-th choice, with its line, in the room that lines are kept in. `quiet` counts the labels in a row that
// have no line.
fn turn<K: Sink>(
    alloc: Global,
    kernel: &mut Kernel,
    k: u32,
    line: &mut String,
    quiet: &mut u32,
    out: &mut K,
) -> Option<Status>
    requires { k < choices_of (state_of kernel.old) }
    ensures turned { Turned k result (state_of kernel.old) (state_of kernel.new)
        (K.written out.old) (K.written out.new) }
    ensures failed { result ≡ Some Status.WriteFault → Rose (K.faults out.old) (K.faults out.new) }
    ensures calm { result ≢ Some Status.WriteFault → K.faults out.new ≡ K.faults out.old }
{
    let label = match kernel.step(alloc, k) {
        Ok(label) => label,
        Err(_) => return Some(Status::NoMemory),
    };
    match tell(kernel, &label, line, quiet, out) {
        Ok(()) => {
            if is_order(&label) {
                return hand_back(kernel, label);
            }
            status_after(&label)
        }
        Err(SinkFault::Failed) => Some(Status::WriteFault),
        Err(SinkFault::NoMemory) => Some(Status::NoMemory),
    }
}

// Writes the line of a label, at the time that the kernel shows.
fn tell<K: Sink>(
    kernel: &Kernel,
    label: &Label,
    line: &mut String,
    quiet: &mut u32,
    out: &mut K,
) -> Result<(), SinkFault>
    ensures ok { OnOk result (K.written out.new
        ≡ appended (K.written out.old) (line_of_move (label.now, state_of kernel.now))) }
    ensures err { OnErr result (AppendsFront (K.written out.old) (K.written out.new)
        (line_of_move (label.now, state_of kernel.now))) }
    ensures failed { result ≡ Err SinkFault.Failed → Rose (K.faults out.old) (K.faults out.new) }
    ensures calm { result ≢ Err SinkFault.Failed → K.faults out.new ≡ K.faults out.old }
{
    line.clear();
    match push_line(line, kernel, label) {
        Ok(()) => offer(out, line.as_bytes(), quiet),
        Err(_) => Err(SinkFault::NoMemory),
    }
}

// Offers a label's line whole, where it has one; else an empty piece, where it is the last of so many in a row.
fn offer<K: Sink>(out: &mut K, line: &[u8], quiet: &mut u32) -> Result<(), SinkFault>
    ensures ok { OnOk result (K.written out.new ≡ appended (K.written out.old) line.now) }
    ensures err { OnErr result (AppendsFront (K.written out.old) (K.written out.new) line.now) }
    ensures tells { Tells result (K.faults out.old) (K.faults out.new) }
{
    if !line.is_empty() {
        *quiet = 0;
        return write_whole(out, line);
    }
    *quiet = quiet.saturating_add(1);
    if *quiet < QUIET {
        return Ok(());
    }
    *quiet = 0;
    offer_nothing(out)
}

// Offers an empty piece, with which a sink that holds what it was given may write it out.
fn offer_nothing<K: Sink>(out: &mut K) -> Result<(), SinkFault>
    ensures same { K.written out.new ≡ K.written out.old }
    ensures tells { Tells result (K.faults out.old) (K.faults out.new) }
{
    match out.write(&[]) {
        Ok(_) => Ok(()),
        Err(fault) => Err(fault),
    }
}

// Has a label an order, whose memory the kernel takes back?
fn is_order(label: &Label) -> bool {
    matches!(label, Label::Do(_, _, _))
}

// A label that was told goes back to the kernel. Answers the status with which it ends the run, if it does. It
// stands apart, so that a label without an order isn't moved for it.
#[inline(never)]
fn hand_back(kernel: &mut Kernel, label: Label) -> Option<Status>
    ensures status { result ≡ status_after label }
    ensures same { state_of kernel.new ≡ state_of kernel.old }
{
    let status = status_after(&label);
    kernel.keep(label);
    status
}

// The status with which a label ends the run, if it does.
fn status_after(label: &Label) -> Option<Status>
    ensures { result ≡ status_after label.now }
{
    match label {
        Label::End(Ending::Cause(cause)) => Some(Status::Done(*cause)),
        Label::End(Ending::Fault(fault)) => Some(Status::RunFault(*fault)),
        Label::Startup(_)
        | Label::Do(_, _, _)
        | Label::Pass(_)
        | Label::Ret(_)
        | Label::Occ(_, _, _)
        | Label::Fire(_, _)
        | Label::Done(_)
        | Label::Activate(_)
        | Label::Advance(_)
        | Label::Pick(_, _)
        | Label::Stmt(_, _)
        | Label::Finish(_) => None,
    }
}

ghost use Rattle.std.specs.Prelude.{◌≡◌};
ghost use Rattle.vh_orders.specs.Orders.{is_startup, needs_object, needs_entry, is_running_call, is_module, error_in, error_after, is_pass, is_return};

use crate::who::Who;
use vh_base::{Answer, Code, Order, Reason, Relation};

// Startups come before the design is there.
pub(crate) fn is_startup(who: &Who) -> bool
    ensures { result ≡ is_startup who.now }
{
    matches!(who, Who::Startup(_))
}

// Which reasons watch an object.
pub(crate) fn needs_object(reason: Reason) -> bool
    ensures { result ≡ needs_object reason }
{
    matches!(
        reason,
        Reason::CbValueChange | Reason::CbForce | Reason::CbRelease
    )
}

// Which reasons stand for an entry of the event queue.
pub(crate) fn needs_entry(reason: Reason) -> bool
    ensures { result ≡ needs_entry reason }
{
    matches!(
        reason,
        Reason::CbAtStartOfSimTime
            | Reason::CbAfterDelay
            | Reason::CbNextSimTime
            | Reason::CbReadWriteSynch
            | Reason::CbReadOnlySynch
    )
}

// Is it the relation of the running call?
pub(crate) fn is_running_call(relation: Relation) -> bool
    ensures { result ≡ is_running_call relation }
{
    matches!(relation, Relation::VpiSysTfCall)
}

// Is it the relation of the modules?
pub(crate) fn is_module(relation: Relation) -> bool
    ensures { result ≡ is_module relation }
{
    matches!(relation, Relation::VpiModule)
}

// The error of an answer, if it is one.
fn error_in(answer: &Answer) -> Option<Code>
    ensures { result ≡ error_in answer.now }
{
    match answer {
        Answer::Refused(code) => Some(*code),
        Answer::Done | Answer::Null | Answer::Handle(_) | Answer::Number(_) | Answer::Text(_) => {
            None
        }
    }
}

// The error that is kept after an order: that of the answer, but for an order that asks for it.
pub(crate) fn error_after(order: &Order, answer: &Answer, kept: Option<Code>) -> Option<Code>
    ensures { result ≡ error_after order.now answer.now kept }
{
    match order {
        Order::ChkError => kept,
        _ => error_in(answer),
    }
}

/// Is it a step of an activation that asks for nothing? Such an order isn't performed.
pub fn is_pass(order: &Order) -> bool
    ensures { result ≡ is_pass order.now }
{
    matches!(order, Order::Pass)
}

/// Does an activation return with it? Such an order isn't performed.
pub fn is_return(order: &Order) -> bool
    ensures { result ≡ is_return order.now }
{
    matches!(order, Order::Return)
}

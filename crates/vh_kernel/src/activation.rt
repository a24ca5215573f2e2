ghost use Rattle.std.specs.Prelude.{◌≡◌, IfOk, OnOk};
ghost use Rattle.vh_app.specs.Next.{next_of};
ghost use Rattle.vh_kernel.specs.Activations.{after_answer, after_pass, first_seen, startup_seen};

use crate::occurrence::Occurrence;
use std::alloc::Global;
use std::marker::Model;
use vh_app::{Point, Script, Vars};
use vh_base::{Answer, NoMemory, Order, Reason, Seen};
use vh_callbacks::Registration;
use vh_orders::Who;

/// A startup or a procedure that runs: one order a label, until it returns. What it sees has memory
/// of its own, which it keeps from its first order to its last.
#[derive(Drop)]
pub struct Activation {
    who: Who,
    script: usize,
    at: Point,
    seen: Box<Seen>,
}

impl Model for Activation {
    ghost use Rattle.vh_kernel.specs.Activations.{Activation as Running};

    ghost Value = { Running };

    ghost view = { λ a. record { who = a.who; script = a.script; at = a.at; seen = a.seen.value } };
}

impl Activation {
    /// One that begins at this point of the script of this number, from 0, in memory that another had if
    /// there is some.
    pub fn new(
        alloc: Global,
        memory: Option<Box<Seen>>,
        who: Who,
        script: usize,
        at: Point,
        seen: Seen,
    ) -> Result<Activation, NoMemory>
        ensures { IfOk result (λ a. a
            ≡ record { who = who; script = script; at = at; seen = seen }) }
    {
        let seen = match memory {
            Some(mut memory) => {
                *memory = seen;
                memory
            }
            None => Box::new(alloc, seen)?,
        };
        Ok(Activation {
            who,
            script,
            at,
            seen,
        })
    }

    /// It is over; the memory of what it saw is left.
    pub fn into_memory(self) -> Box<Seen> {
        self.seen
    }

    /// How far it is.
    pub fn point(&self) -> &Point
        ensures { result.now ≡ self.now.at }
    {
        &self.at
    }

    /// Who gives its orders.
    pub fn who(&self) -> Who
        ensures { result ≡ self.now.who }
    {
        self.who
    }

    /// The script's number, from 0.
    pub fn script(&self) -> usize
        ensures { result ≡ self.now.script }
    {
        self.script
    }

    /// What its script orders next.
    pub fn next_order(
        &mut self,
        alloc: Global,
        script: &Script,
        vars: &mut Vars,
    ) -> Result<Order, NoMemory>
        ensures next { IfOk result (λ order. (order, (self.new).at, vars.new)
            ≡ next_of script.now (self.old).at vars.old (self.old).seen) }
        ensures kept { self.new ≡ record self.old { at = (self.new).at } }
    {
        script.next(alloc, &mut self.at, vars, &self.seen)
    }

    /// It passes.
    pub fn pass(&mut self)
        ensures { self.new ≡ after_pass self.old }
    {
        let seen = &mut *self.seen;
        seen.step = seen.step.saturating_add(1);
    }

    /// Its order was answered.
    pub fn note(&mut self, answer: &Answer) -> Result<(), NoMemory>
        ensures { OnOk result (self.new ≡ after_answer answer.now self.old) }
    {
        let seen = &mut *self.seen;
        seen.step = seen.step.saturating_add(1);
        seen.last = answer.copy()?;
        Ok(())
    }
}

/// What a callback's activation sees at first.
pub fn first_seen(
    alloc: Global,
    registration: &Registration,
    what: &Occurrence,
    time: u64,
) -> Result<Seen, NoMemory>
    ensures { IfOk result (λ seen. seen ≡ first_seen registration.now what.now time) }
{
    Ok(Seen {
        reason: registration.reason,
        time,
        object: registration.object_handle,
        me: Some(registration.me),
        value: what.value(alloc)?,
        index: what.index(),
        user_data: registration.user_data,
        step: 0,
        last: Answer::Null,
    })
}

/// What a startup sees.
pub fn startup_seen(time: u64) -> Seen
    ensures { result ≡ startup_seen time }
{
    Seen {
        reason: Reason::CbEndOfCompile,
        time,
        object: None,
        me: None,
        value: None,
        index: None,
        user_data: 0,
        step: 0,
        last: Answer::Null,
    }
}

ghost use Rattle.std.specs.Prelude.{◌≡◌, List, IfOk, OnOk, slice_get, set};
ghost use Rattle.vh_base.specs.declared.orders.Answer.{Answer};
ghost use Rattle.vh_app.specs.Next;
ghost use Rattle.vh_app.specs.Values as spec;
ghost use Rattle.vh_app.specs.Values.{held};

use crate::script::Script;
use crate::turned::{empty, handle_in, number_in, text_in};
use std::alloc::Global;
use std::marker::Model;
use vh_base::{Answer, HandleNo, NoMemory, Short};

/// The variables of a script, which contracts see as the list of what they hold. All
/// activations of the script share them.
#[derive(Drop)]
pub struct Vars {
    values: Vec<Answer>,
}

impl Model for Vars {
    ghost Value = { List Answer };

    ghost view = { λ v. v.values.items };
}

impl Vars {
    /// The variables of the script, each of them null.
    pub fn new(alloc: Global, s: &Script) -> Result<Vars, NoMemory>
        ensures { IfOk result (λ vars. vars ≡ Next.no_answers s.now) }
    {
        let mut values = Vec::new(alloc);
        for _ in 0..s.variable_count() {
            values.push(Answer::Null)?;
        }
        Ok(Vars { values })
    }

    // The variable that waits, if one does, gets the answer.
    pub(crate) fn store(&mut self, waiting: Option<usize>, last: &Answer) -> Result<(), NoMemory>
        ensures { OnOk result (self.new ≡ Next.stored waiting last.now self.old) }
    {
        if let Some(number) = waiting {
            self.set(number, last.copy()?);
        }
        Ok(())
    }

    // A variable gets a value, if it is there.
    pub(crate) fn set(&mut self, number: usize, value: Answer)
        ensures { self.new ≡ set self.old number value }
    {
        if number < self.values.len() {
            self.values[number] = value;
        }
    }

    // What a variable holds; one that isn't there is null.
    pub(crate) fn value(&self, number: usize) -> Result<Answer, NoMemory>
        ensures { IfOk result (λ answer. answer ≡ held (slice_get self.now number)) }
    {
        match self.values.get(number) {
            Some(answer) => answer.copy(),
            None => Ok(Answer::Null),
        }
    }

    // The handle that it is where a handle is needed.
    pub(crate) fn handle(&self, number: usize) -> Option<HandleNo>
        ensures { result ≡ spec.handle_in (held (slice_get self.now number)) }
    {
        match self.values.get(number) {
            Some(answer) => handle_in(answer),
            None => None,
        }
    }

    // The number that it is where a number is needed.
    pub(crate) fn number(&self, number: usize) -> u64
        ensures { result ≡ spec.number_in (held (slice_get self.now number)) }
    {
        match self.values.get(number) {
            Some(answer) => number_in(answer),
            None => 0,
        }
    }

    // The text that it is where a text is needed.
    pub(crate) fn text(&self, alloc: Global, number: usize) -> Result<Short, NoMemory>
        ensures { IfOk result (λ text. text ≡ spec.text_in (held (slice_get self.now number))) }
    {
        match self.values.get(number) {
            Some(answer) => text_in(alloc, answer),
            None => empty(alloc),
        }
    }
}

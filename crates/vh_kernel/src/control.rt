ghost use Rattle.std.specs.Prelude.{◌≡◌, List, [], ◌∷◌, drop, slice_get, option_copied, OnOk, IfSome, IfNone};
ghost use Rattle.vh_kernel.specs.declared.control.Control.{Control};
ghost use Rattle.vh_kernel.specs.Step.{frame_of};

use crate::activation::Activation;
use crate::occurrence::{Occurrence, Told};
use std::alloc::Global;
use std::marker::Model;
use vh_base::{Cause, NoMemory};

/// What may stand on control.
#[derive(Drop)]
pub enum Control {
    /// A process that goes on statement by statement, by its number.
    Process(u64),
    /// An occurrence that is told next, if a callback watches it.
    Pending(Occurrence),
    /// An occurrence that was told, and fires its callbacks.
    Frame(Told),
    /// A startup or a procedure that gives its orders.
    Activation(Activation),
    /// The run finishes next.
    Leave(Cause),
}

/// A stack, which contracts see as the list of what is on it, the top first. A process that is put on an
/// empty one has room of its own, so that it costs little to take it off and put it on again.
#[derive(Drop)]
pub struct Stack {
    // what is below all
    bottom: Option<Control>,
    items: Vec<Control>,
}

impl Model for Stack {
    ghost use Rattle.std.specs.Prelude.{◌++◌, List, reverse, option_to_list};
    ghost use Rattle.vh_kernel.specs.declared.control.Control.{Control};

    ghost Value = { List Control };

    ghost view = { λ s. reverse s.items.items ++ option_to_list s.bottom };
}

impl Stack {
    pub fn new(alloc: Global) -> Stack
        ensures { result ≡ [] }
    {
        Stack {
            bottom: None,
            items: Vec::new(alloc),
        }
    }

    /// What is on top.
    pub fn top(&self) -> Option<&Control>
        ensures { option_copied result ≡ slice_get self.now 0 }
    {
        match self.items.last() {
            Some(item) => Some(item),
            None => self.bottom.as_ref(),
        }
    }

    /// The occurrence on top, where one is there that was told.
    pub fn frame(&self) -> Option<&Told>
        ensures { option_copied result ≡ frame_of (slice_get self.now 0) }
    {
        match self.top() {
            Some(Control::Frame(told)) => Some(told),
            _ => None,
        }
    }

    /// Puts something on top.
    pub fn push(&mut self, item: Control) -> Result<(), NoMemory>
        ensures { OnOk result (self.new ≡ item ∷ self.old) }
    {
        self.items.push(item)?;
        Ok(())
    }

    /// Puts a process on top. It is inlined, since nearly each statement does so.
    #[inline(always)]
    pub fn push_process(&mut self, p: u64) -> Result<(), NoMemory>
        ensures { OnOk result (self.new ≡ Control.Process p ∷ self.old) }
    {
        if self.items.is_empty() && self.bottom.is_none() {
            self.bottom = Some(Control::Process(p));
            return Ok(());
        }
        self.items.push(Control::Process(p))?;
        Ok(())
    }

    /// Takes a process off that is on top and below all, where one is.
    pub fn take_process(&mut self) -> Option<u64>
        ensures some { IfSome result (λ p. self.old ≡ Control.Process p ∷ self.new) }
        ensures kept { IfNone result (self.new ≡ self.old) }
    {
        if !self.items.is_empty() {
            return None;
        }
        let Some(Control::Process(p)) = &self.bottom else {
            return None;
        };
        let p = *p;
        self.bottom = None;
        Some(p)
    }

    /// Takes the top off, where there is one.
    pub fn pop(&mut self) -> Option<Control>
        ensures top { result ≡ slice_get self.old 0 }
        ensures rest { self.new ≡ drop 1 self.old }
        ensures kept { IfNone result (self.new ≡ self.old) }
    {
        match self.items.pop() {
            Some(item) => Some(item),
            None => self.bottom.take(),
        }
    }

    /// Takes all off.
    pub fn clear(&mut self)
        ensures { self.new ≡ [] }
    {
        self.items.clear();
        self.bottom = None;
    }
}

ghost use Rattle.std.specs.Prelude.{◌≡◌, ◌++◌, ◌∷◌, [], IfOk, IsSome, slice_get};
ghost use Rattle.vh_lex.specs.Conditionals.{innermost, with_innermost, without_innermost, skips};

use std::alloc::Global;
use std::marker::Model;
use vh_base::{NoMemory, Place};

/// What is done with a branch of a conditional (IEEE 1364-2005, 19.4).
#[derive(Clone, Copy, Debug, PartialEq, Eq)]
pub enum Branch {
    /// It is skipped, and a later branch may be read.
    Sought,
    /// It is read.
    Read,
    /// It is skipped, as all that follow, since one was read or the conditional stands in
    /// skipped text.
    Past,
}

/// A conditional that is open: where its `` `ifdef `` or `` `ifndef `` stands, what is done with its
/// branch, and whether `` `else `` was there.
#[derive(Clone, Copy, Debug, PartialEq, Eq)]
pub struct Conditional {
    pub place: Place,
    pub branch: Branch,
    pub has_else: bool,
}

// The conditionals that are open, the innermost last.
#[derive(Drop)]
pub(crate) struct Conditionals {
    items: Vec<Conditional>,
}

impl Model for Conditionals {
    ghost use Rattle.std.specs.Prelude.{List};
    ghost use Rattle.vh_lex.specs.declared.conditional.Conditional.{Conditional};

    ghost Value = { List Conditional };

    ghost view = { λ c. c.items.items };
}

impl Conditionals {
    // No conditional.
    pub(crate) fn new(alloc: Global) -> Conditionals
        ensures { result ≡ [] }
    {
        Conditionals {
            items: Vec::new(alloc),
        }
    }

    // The outermost one.
    pub(crate) fn outermost(&self) -> Option<Conditional>
        ensures { result ≡ slice_get self.now 0 }
    {
        self.items.first().copied()
    }

    // The innermost one.
    pub(crate) fn innermost(&self) -> Option<Conditional>
        ensures { result ≡ innermost self.now }
    {
        self.items.last().copied()
    }

    // Whether text is skipped there.
    pub(crate) fn skips(&self) -> bool
        ensures { result ≡ skips self.now }
    {
        match self.innermost() {
            Some(innermost) => innermost.branch != Branch::Read,
            None => false,
        }
    }

    // Opens one within the others.
    pub(crate) fn push(&mut self, opened: Conditional) -> Result<(), NoMemory>
        ensures { IfOk result (λ _. self.new ≡ self.old ++ opened ∷ []) }
    {
        self.items.push(opened)?;
        Ok(())
    }

    // Puts another one in the place of the innermost.
    pub(crate) fn replace(&mut self, changed: Conditional)
        requires { IsSome (innermost self.old) }
        ensures { self.new ≡ with_innermost changed self.old }
    {
        let last = self.items.len() - 1;
        self.items[last] = changed;
    }

    // Closes the innermost.
    pub(crate) fn close(&mut self)
        ensures { self.new ≡ without_innermost self.old }
    {
        let _ = self.items.pop();
    }
}

ghost use Rattle.std.specs.Prelude.{◌≡◌, ◌<◌, ◌∷◌, not, length, Some, IfOk, IfSome, OnOk};
ghost use Rattle.vh_dispatch.specs.Frames.{stack_of};
ghost use Rattle.vh_kernel.specs.Occurrences.{occurrence_of, value_change, set_of, is_empty};

use crate::texts::Texts;
use std::alloc::Global;
use std::marker::Model;
use vh_base::{MOST_FRAMES, NoMemory, Object, Reason, Short};
use vh_callbacks::Registry;
use vh_dispatch::Dispatch;
use vh_logic::Vec4;
use vh_orders::Body;

/// Something has happened that callbacks may watch: why, to which object, and the value that
/// it left there (IEEE 1364-2005, 27.33). Contracts see the value as its text, which is made once, when the
/// occurrence is told: all callbacks that fire for it share the text.
#[derive(Drop)]
pub struct Occurrence {
    reason: Reason,
    object: Option<Object>,
    value: Left,
    index: Option<u32>,
}

// The value that an occurrence left, until its text is made.
#[derive(Drop)]
pub(crate) enum Left {
    Nothing,
    Digits(Vec4),
    Text(Short),
}

impl Model for Occurrence {
    ghost use Rattle.std.specs.Prelude.{None};
    ghost use Rattle.vh_kernel.specs.Occurrences.{Occurrence as Occurring, text_left};

    ghost Value = { Occurring };

    ghost view = { λ o. record {
      reason = o.reason;
      object = o.object;
      value = text_left o.value;
      index = o.index;
      only = None;
    } };
}

impl Occurrence {
    ghost use Rattle.vh_kernel.specs.Occurrences.{Occurrence as Occurring};

    /// An occurrence without an object.
    pub fn new(reason: Reason) -> Occurrence
        ensures { result ≡ occurrence_of reason }
    {
        Occurrence {
            reason,
            object: None,
            value: Left::Nothing,
            index: None,
        }
    }

    /// An object shows this value from now on; of a memory its word at this address does.
    pub fn value_change(object: Object, index: Option<u32>, value: Vec4) -> Occurrence
        ensures { result ≡ value_change object index value }
    {
        Occurrence {
            reason: Reason::CbValueChange,
            object: Some(object),
            value: Left::Digits(value),
            index,
        }
    }

    // The same occurrence, with the text of its value made.
    pub(crate) fn with_text(self, alloc: Global, texts: &mut Texts) -> Result<Occurrence, NoMemory>
        ensures { IfOk result (λ occurrence. occurrence ≡ self) }
    {
        let Left::Digits(value) = &self.value else {
            return Ok(self);
        };
        let text = texts.of(alloc, value)?;
        Ok(Occurrence {
            reason: self.reason,
            object: self.object,
            value: Left::Text(text),
            index: self.index,
        })
    }

    // It is over; the text of its value is left.
    pub(crate) fn into_text(self) -> Option<Short>
        ensures { IfSome result (λ text. self.value ≡ Some text) }
    {
        match self.value {
            Left::Text(text) => Some(text),
            Left::Nothing | Left::Digits(_) => None,
        }
    }

    /// Does a callback watch it?
    pub fn is_watched(&self, callbacks: &Registry<Body>) -> bool
        ensures { result ≡ not (is_empty (set_of self.now callbacks.now.callbacks)) }
    {
        callbacks.matches(self.reason, self.object)
    }

    /// A frame under this number stands, with the callbacks that watch it.
    pub fn begin(
        &self,
        alloc: Global,
        dispatch: &mut Dispatch,
        callbacks: &mut Registry<Body>,
        number: u64,
    ) -> Result<(), NoMemory>
        requires { length dispatch.old < MOST_FRAMES }
        ensures sets { OnOk result (stack_of dispatch.new callbacks.new
            ≡ set_of self.now callbacks.old.callbacks ∷ stack_of dispatch.old callbacks.old) }
        ensures callbacks { callbacks.new.callbacks ≡ callbacks.old.callbacks }
    {
        let reason = self.reason;
        let object = self.object;
        dispatch.begin_all(alloc, callbacks, number, reason, object)
    }

    /// Why it has happened.
    pub fn reason(&self) -> Reason
        ensures { result ≡ self.now.reason }
    {
        self.reason
    }

    /// To which object it has happened.
    pub fn object(&self) -> Option<Object>
        ensures { result ≡ self.now.object }
    {
        self.object
    }

    /// The word's address, where the object is a memory.
    pub fn index(&self) -> Option<u64>
        ensures { result ≡ self.now.index }
    {
        self.index.map(u64::from)
    }

    /// The value as text.
    pub fn value(&self, alloc: Global) -> Result<Option<Short>, NoMemory>
        ensures { IfOk result (λ value. value ≡ self.now.value) }
    {
        match &self.value {
            Left::Nothing => Ok(None),
            Left::Digits(value) => Ok(Some(Texts::new(alloc).of(alloc, value)?)),
            Left::Text(text) => Ok(Some(text.copy()?)),
        }
    }
}

/// An occurrence that was told, under its number. Which callbacks are still to fire for it,
/// the frames of the world have.
#[derive(Drop)]
pub struct Told {
    /// From 1, in the order in which occurrences are told.
    pub number: u64,
    pub what: Occurrence,
}

/// What begins once nothing is on control, before the first entry is picked.
#[derive(Clone, Copy)]
pub enum Agendum {
    /// The startup of a script, by its number from 1.
    Startup(u32),
    /// An occurrence without an object.
    Occurrence(Reason),
}

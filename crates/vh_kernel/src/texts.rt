ghost use Rattle.std.specs.Prelude.{◌≡◌, [], IfOk};
ghost use Rattle.vh_text.specs.declared.radix.Radix.TheVariants.{Binary};
ghost use Rattle.vh_text.specs.Texts.{text};

use std::alloc::Global;
use vh_base::{NoMemory, Short};
use vh_logic::Vec4;
use vh_text::write_binary;

// Memory for the texts of values: that of the last one is used again where no script has kept it.
#[derive(Drop)]
pub(crate) struct Texts {
    digits: String,
    spare: Option<Short>,
}

impl Texts {
    // No memory yet.
    pub(crate) fn new(alloc: Global) -> Texts {
        Texts {
            digits: String::new(alloc),
            spare: None,
        }
    }

    // A value's digits as text, of which there are 64 at most.
    pub(crate) fn of(&mut self, alloc: Global, value: &Vec4) -> Result<Short, NoMemory>
        ensures { IfOk result (λ t. t ≡ text Binary value.now) }
    {
        let _digits = value.width();
        write_binary(&mut self.digits, value)?;
        let mut made = match self.spare.take() {
            Some(spare) => spare,
            None => empty(alloc)?,
        };
        if !made.set(alloc, self.digits.as_bytes())? {
            unreachable!();
        }
        Ok(made)
    }

    // A text that is shown no more leaves its memory, where there is one.
    pub(crate) fn keep(&mut self, text: Option<Short>) {
        if text.is_some() {
            self.spare = text;
        }
    }
}

// The text without a byte.
fn empty(alloc: Global) -> Result<Short, NoMemory>
    ensures { IfOk result (λ t. t ≡ []) }
{
    match Short::new(alloc, b"")? {
        Some(text) => Ok(text),
        None => unreachable!(),
    }
}

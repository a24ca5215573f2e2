ghost use Rattle.std.specs.Prelude.{◌≡◌, List, [], IfOk, is_some};
ghost use Rattle.vh_lex.specs.Gathered.{macro_of, with_macro};
ghost use Rattle.vh_lex.specs.MacroViews.{parts_seen};

use crate::piece::Part;
use indexmap::IndexMap;
use std::alloc::Global;
use std::marker::Model;
use vh_base::{NoMemory, Sequence};

// The macros by their names, and nothing for one that is undefined again. Contracts see the list
// of names with the parts of their texts. A look-up takes constant time in their number.
#[derive(Drop)]
pub(crate) struct Macros {
    texts: IndexMap<Vec<u8>, Option<Sequence<Part>>>,
}

impl Model for Macros {
    ghost use Rattle.vh_lex.specs.Gathered.{MacroRows};
    ghost use Rattle.vh_lex.specs.MacroViews.{macros_seen};

    ghost Value = { MacroRows };

    ghost view = { λ m. macros_seen m.texts.entries };
}

impl Macros {
    // No macros.
    pub(crate) fn new(alloc: Global) -> Macros
        ensures { result ≡ [] }
    {
        Macros {
            texts: IndexMap::new(alloc),
        }
    }

    // Gives the name a text, or takes it.
    pub(crate) fn set(
        &mut self,
        alloc: Global,
        name: &[u8],
        text: Option<Sequence<Part>>,
    ) -> Result<(), NoMemory>
        ensures { IfOk result (λ _. self.new ≡ with_macro name.now text self.old) }
    {
        let name = Vec::from_slice(alloc, name)?;
        self.texts.insert(name, text)?;
        Ok(())
    }

    // The parts of the macro's text, if it is defined.
    pub(crate) fn text(&self, name: &[u8]) -> Option<&[Part]>
        ensures { parts_seen result ≡ macro_of name.now self.now }
    {
        let Some(held) = self.texts.get(name) else {
            return None;
        };
        let Some(text) = held else {
            return None;
        };
        Some(text.as_slice())
    }

    // Whether the macro is defined.
    pub(crate) fn has(&self, name: &[u8]) -> bool
        ensures { result ≡ is_some (macro_of name.now self.now) }
    {
        self.text(name).is_some()
    }
}

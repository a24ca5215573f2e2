ghost use Rattle.std.specs.Prelude.{◌≡◌, [], IfOk, OnErr, not, is_some};
ghost use Rattle.vh_bind_scope.specs.Names.{meaning_in, declared, declared_anew};

use crate::table::Table;
use indexmap::IndexMap;
use std::alloc::Global;
use std::marker::Model;
use vh_base::{NoMemory, ObjId};
use vh_design_nodes::Range;

/// What a declared name stands for (IEEE 1364-2005, 3.12).
#[derive(Clone, Copy, Debug, PartialEq, Eq)]
pub enum Meaning {
    /// An object, with the bounds of its digits; `[0:0]` where none are written.
    Object { id: ObjId, range: Range },
    /// A function's result, under the function's name in the function's scope (10.4.2).
    Result { id: ObjId, range: Range },
    /// A genvar (12.4.1).
    Genvar,
    /// A loop of generate blocks, whose blocks are called `NAME[i]` (12.4.1).
    Blocks,
    /// A gate, which is no object (7.1).
    Gate,
}

/// The names of a design's scopes. A look-up takes constant time in their number.
#[derive(Drop)]
pub struct Names {
    scopes: IndexMap<u32, Table>,
}

impl Model for Names {
    ghost use Rattle.vh_bind_scope.specs.Names.{Names};

    ghost Value = { Names };

    ghost view = { λ n. n.scopes.entries };
}

impl Names {
    /// No names.
    pub fn new(alloc: Global) -> Names
        ensures { result ≡ [] }
    {
        Names {
            scopes: IndexMap::new(alloc),
        }
    }

    /// What a name stands for in a scope, if it is declared there.
    pub fn meaning(&self, scope: ObjId, name: &[u8]) -> Option<Meaning>
        ensures { result ≡ meaning_in self.now scope name.now }
    {
        self.scopes.get(&scope.number())?.get(name)
    }

    /// Declares a name in a scope, unless it is declared there already; answers whether it wasn't.
    pub fn declare(
        &mut self,
        alloc: Global,
        scope: ObjId,
        name: &[u8],
        meaning: Meaning,
    ) -> Result<bool, NoMemory>
        ensures fresh { IfOk result
            (λ fresh. fresh ≡ not (is_some (meaning_in self.old scope name.now))) }
        ensures names { IfOk result (λ fresh. self.new ≡ declared scope name.now meaning self.old) }
        ensures kept { OnErr result (self.new ≡ self.old) }
    {
        if self.meaning(scope, name).is_some() {
            return Ok(false);
        }
        match self.scopes.get_mut(&scope.number()) {
            Some(table) => table.add(alloc, name, meaning)?,
            None => {
                let table = Table::of(alloc, name, meaning)?;
                self.scopes.insert(scope.number(), table)?;
            }
        }
        Ok(true)
    }

    /// Says anew what a declared name stands for; where it isn't declared in the scope, nothing changes.
    pub fn declare_anew(&mut self, scope: ObjId, name: &[u8], meaning: Meaning)
        ensures { self.new ≡ declared_anew scope name.now meaning self.old }
    {
        if let Some(table) = self.scopes.get_mut(&scope.number()) {
            table.set(name, meaning);
        }
    }
}

ghost use Rattle.std.specs.Prelude.{◌≡◌, ◌++◌, ◌∷◌, [], None, IfOk, OnOk, OnErr};
ghost use Rattle.vh_bind_scope.specs.Names.{named, with_meaning};

use crate::names::Meaning;
use indexmap::IndexMap;
use std::alloc::Global;
use std::marker::Model;
use vh_base::NoMemory;

// The names of one scope, in the order of their declarations.
#[derive(Drop)]
pub(crate) struct Table {
    names: IndexMap<Vec<u8>, Meaning>,
}

impl Model for Table {
    ghost use Rattle.vh_bind_scope.specs.Views.{table_seen};
    ghost use Rattle.vh_bind_scope.specs.Names.{Table};

    ghost Value = { Table };

    ghost view = { λ t. table_seen t.names.entries };
}

impl Table {
    // One name.
    pub(crate) fn of(alloc: Global, name: &[u8], meaning: Meaning) -> Result<Table, NoMemory>
        ensures { IfOk result (λ t. t ≡ (name.now, meaning) ∷ []) }
    {
        let mut table = Table {
            names: IndexMap::new(alloc),
        };
        table.add(alloc, name, meaning)?;
        Ok(table)
    }

    // What a name stands for.
    pub(crate) fn get(&self, name: &[u8]) -> Option<Meaning>
        ensures { result ≡ named name.now self.now }
    {
        self.names.get(name).copied()
    }

    // Another meaning for a name, where it is there.
    pub(crate) fn set(&mut self, name: &[u8], meaning: Meaning)
        ensures { self.new ≡ with_meaning name.now meaning self.old }
    {
        if let Some(place) = self.names.get_mut(name) {
            *place = meaning;
        }
    }

    // One name more.
    pub(crate) fn add(
        &mut self,
        alloc: Global,
        name: &[u8],
        meaning: Meaning,
    ) -> Result<(), NoMemory>
        requires { named name.now self.old ≡ None }
        ensures added { OnOk result (self.new ≡ self.old ++ (name.now, meaning) ∷ []) }
        ensures kept { OnErr result (self.new ≡ self.old) }
    {
        let name = Vec::from_slice(alloc, name)?;
        self.names.insert(name, meaning)?;
        Ok(())
    }
}

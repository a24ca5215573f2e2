ghost use Rattle.std.specs.Prelude.{◌≡◌, ◌++◌, ◌∷◌, [], IfOk};
ghost use Rattle.vh_elab_index.specs.First.{position_in};

use indexmap::IndexMap;
use std::alloc::Global;
use std::marker::Model;
use vh_base::NoMemory;

/// Names in a row, of which contracts see all.
#[derive(Drop)]
pub struct Index<'a> {
    names: Vec<&'a [u8]>,
    positions: IndexMap<Vec<u8>, u32>,
}

impl<'a> Model for Index<'a> {
    ghost use Rattle.std.specs.Prelude.{ℕ, List};
    ghost use Rattle.vh_elab_index.specs.First.{IsIndexOf};
    ghost use Rattle.vh_elab_index.specs.Views.{names_seen, rows_seen};

    ghost Value = { List (List ℕ) };

    ghost view = { λ i. names_seen i.names.items };

    ghost invariant = { λ i. IsIndexOf (names_seen i.names.items) (rows_seen i.positions.entries) };
}

impl<'a> Index<'a> {
    /// Of no names.
    pub fn new(alloc: Global) -> Index<'a>
        ensures { result ≡ [] }
    {
        Index {
            names: Vec::new(alloc),
            positions: IndexMap::new(alloc),
        }
    }

    /// The position of the first of a name, from 0.
    pub fn position(&self, name: &[u8]) -> Option<u32>
        ensures { result ≡ position_in self.now name.now }
    {
        self.positions.get(name).copied()
    }

    /// The same names with one more behind them.
    pub fn with(self, alloc: Global, name: &'a [u8]) -> Result<Index<'a>, NoMemory>
        ensures { IfOk result (λ i. i ≡ self.entry ++ name.now ∷ []) }
    {
        let Index {
            mut names,
            mut positions,
        } = self;
        let Ok(position) = u32::try_from(names.len()) else {
            return Err(NoMemory);
        };
        if positions.get(name).is_none() {
            let key = Vec::from_slice(alloc, name)?;
            positions.insert(key, position)?;
        }
        names.push(name)?;
        Ok(Index { names, positions })
    }
}

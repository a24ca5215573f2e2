ghost use Rattle.std.specs.Prelude.{◌≡◌, ◌++◌, ◌∷◌, [], IfOk, slice_get};
ghost use Rattle.vh_elab_declare.specs.Constants.{given_for};

use std::alloc::Global;
use std::marker::Model;
use vh_base::NoMemory;
use vh_elab_index::Index;
use vh_logic::Vec4;

/// The values that an instance's parameters are given, by their names.
#[derive(Drop)]
pub struct Given<'a> {
    names: Index<'a>,
    values: Vec<Vec4>,
}

impl<'a> Model for Given<'a> {
    ghost use Rattle.std.specs.Prelude.{◌≡◌, length};
    ghost use Rattle.vh_elab_declare.specs.Constants.{Given, paired};

    ghost Value = { Given };

    ghost view = { λ g. paired g.names g.values.items };

    ghost invariant = { λ g. length g.names ≡ length g.values.items };
}

impl<'a> Given<'a> {
    /// None.
    pub fn new(alloc: Global) -> Given<'a>
        ensures { result ≡ [] }
    {
        Given {
            names: Index::new(alloc),
            values: Vec::new(alloc),
        }
    }

    /// The same with one more behind them.
    pub fn with(self, alloc: Global, name: &'a [u8], value: Vec4) -> Result<Given<'a>, NoMemory>
        ensures { IfOk result (λ g. g ≡ self.entry ++ (name.now, value) ∷ []) }
    {
        let Given { names, mut values } = self;
        let names = names.with(alloc, name)?;
        values.push(value)?;
        Ok(Given { names, values })
    }

    /// That of a name: the first.
    pub fn of(&self, name: &[u8]) -> Option<Vec4>
        ensures { result ≡ given_for self.now name.now }
    {
        match self.names.position(name) {
            None => None,
            Some(place) => value_at(&self.values, place),
        }
    }
}

// The value at a place.
fn value_at(values: &[Vec4], place: u32) -> Option<Vec4>
    ensures { result ≡ slice_get values.now place }
{
    values.get(place as usize).copied()
}

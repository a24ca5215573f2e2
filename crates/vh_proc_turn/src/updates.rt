ghost use Rattle.std.specs.Prelude.{◌≡◌, [], OnOk};
ghost use Rattle.std.specs.BTreeMap.{insert_entry};
ghost use Rattle.std.specs.Ordering.{nat_cmp};
ghost use Rattle.vh_proc_turn.specs.Drives.{update_at};

use std::alloc::Global;
use std::collections::BTreeMap;
use std::marker::Model;
use vh_base::{DriverId, NoMemory, Serial};

/// The last updates that a continuous assignment scheduled, which contracts see as the serials of
/// their entries by their drivers, in order.
#[derive(Drop)]
pub struct Updates {
    all: BTreeMap<u32, Serial, Global>,
}

impl Model for Updates {
    ghost use Rattle.std.specs.Prelude.{ℕ, List};

    ghost Value = { List (ℕ × ℕ) };

    ghost view = { λ u. u.all.entries };
}

impl Updates {
    /// No update was scheduled; takes no memory.
    pub fn new(alloc: Global) -> Updates
        ensures { result ≡ [] }
    {
        Updates {
            all: BTreeMap::new(alloc),
        }
    }

    // The last one of a driver.
    pub(crate) fn at(&self, x: DriverId) -> Option<Serial>
        ensures { result ≡ update_at x self.now }
    {
        self.all.get(&x.number()).copied()
    }

    // It is noted.
    pub(crate) fn note(&mut self, x: DriverId, serial: Serial) -> Result<(), NoMemory>
        ensures { OnOk result (self.new ≡ insert_entry nat_cmp self.old x serial) }
    {
        self.all.insert(x.number(), serial)?;
        Ok(())
    }
}

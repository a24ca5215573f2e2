ghost use Rattle.std.specs.Prelude.{◌≡◌, IfOk};

use std::alloc::Global;
use vh_base::NoMemory;
use vh_base_shared::SharedBytes;

// How many names are remembered.
const SLOTS: usize = 1024;

// Names that stood before, so that one that stands again shares their bytes. Each name has a slot, by
// its bytes, which the last name with that slot has.
#[derive(Drop)]
pub(crate) struct Names {
    slots: Vec<Option<SharedBytes>>,
}

impl Names {
    // None stood.
    pub(crate) fn new(alloc: Global) -> Names {
        Names {
            slots: Vec::new(alloc),
        }
    }

    // The bytes of a name, shared with those that stood before where they are remembered.
    pub(crate) fn shared(&mut self, alloc: Global, name: &[u8]) -> Result<SharedBytes, NoMemory>
        ensures { IfOk result (λ s. s ≡ name.now) }
    {
        if self.slots.is_empty() {
            self.slots = free_slots(alloc)?;
        }
        let Some(slot) = self.slots.get_mut(slot_of(name)) else {
            return SharedBytes::from_slice(alloc, name);
        };
        if let Some(held) = slot {
            if held.as_slice() == name {
                return held.share();
            }
        }
        let fresh = SharedBytes::from_slice(alloc, name)?;
        *slot = Some(fresh.share()?);
        Ok(fresh)
    }
}

#[cold]
fn free_slots(alloc: Global) -> Result<Vec<Option<SharedBytes>>, NoMemory> {
    let mut slots = Vec::with_capacity(alloc, SLOTS)?;
    for _ in 0..SLOTS {
        slots.push(None)?;
    }
    Ok(slots)
}

// The slot of a name, below 1,024: its bytes are mixed by the golden ratio of 32 bits.
fn slot_of(name: &[u8]) -> usize {
    let mut mixed: u32 = 0;
    for byte in name {
        mixed = (mixed ^ u32::from(*byte)).wrapping_mul(0x9e37_79b1);
    }
    (mixed >> 22) as usize
}

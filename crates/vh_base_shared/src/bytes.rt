ghost use Rattle.std.specs.Prelude.{◌≡◌, IfOk};

use std::alloc::Global;
use std::marker::Model;
use std::rc::RcSlice;
use vh_base::NoMemory;

/// Bytes that are held once, however many share them. Contracts see their list.
#[derive(Drop)]
pub struct SharedBytes {
    bytes: RcSlice<u8>,
}

impl Model for SharedBytes {
    ghost use Rattle.std.specs.Prelude.{ℕ, List};
    ghost use Rattle.std.specs.Rc.{rc_slice_items};

    ghost Value = { List ℕ };

    ghost view = { λ s. rc_slice_items s.bytes };
}

impl SharedBytes {
    /// The bytes of a slice, in memory of their own.
    pub fn from_slice(alloc: Global, bytes: &[u8]) -> Result<SharedBytes, NoMemory>
        ensures { IfOk result (λ s. s ≡ bytes.now) }
    {
        let bytes = RcSlice::from_slice(alloc, bytes)?;
        Ok(SharedBytes { bytes })
    }

    /// The bytes of a vector, whose memory is kept.
    pub fn from_vec(bytes: Vec<u8>) -> Result<SharedBytes, NoMemory>
        ensures { IfOk result (λ s. s ≡ bytes.items) }
    {
        let bytes = RcSlice::from_vec(bytes)?;
        Ok(SharedBytes { bytes })
    }

    /// The same bytes once more. It takes no memory; that it is refused is for the greatest count of
    /// those that share them alone.
    pub fn share(&self) -> Result<SharedBytes, NoMemory>
        ensures { IfOk result (λ s. s ≡ self.now) }
    {
        let bytes = self.bytes.clone()?;
        Ok(SharedBytes { bytes })
    }

    /// The bytes as a slice.
    pub fn as_slice(&self) -> &[u8]
        ensures { result.now ≡ self.now }
    {
        self.bytes.as_slice()
    }
}

ghost use Rattle.std.specs.Prelude.{◌≡◌, ◌<◌, ◌≤◌, ◌↔◌, [], true, false, length, Ok, IsNone, IfSome, IfOk, OnErr};
ghost use Rattle.std.specs.Rc.{rc_value};

use crate::faults::NoMemory;
use std::alloc::Global;
use std::marker::Model;
use std::rc::Rc;

/// A text of at most 255 bytes, which is held once, however many share it. Contracts see its bytes.
#[derive(Drop)]
pub struct Short {
    bytes: Rc<Vec<u8>>,
}

impl Model for Short {
    ghost use Rattle.std.specs.Prelude.{◌≤◌, ℕ, List, length};
    ghost use Rattle.std.specs.Rc.{rc_value};

    ghost Value = { List ℕ };

    ghost view = { λ s. (rc_value s.bytes).items };

    ghost invariant = { λ s. length (rc_value s.bytes).items ≤ 255 };
}

// Writes these bytes over those that are held, where nothing else shares them.
fn overwrite(held: &mut Rc<Vec<u8>>, bytes: &[u8]) -> Result<bool, NoMemory>
    ensures own { result ≡ Ok true → (rc_value held.new).items ≡ bytes.now }
    ensures shared { result ≡ Ok false → (rc_value held.new).items ≡ (rc_value held.old).items }
    ensures none { OnErr result ((rc_value held.new).items ≡ []) }
{
    let Some(own) = Rc::get_mut(held) else {
        return Ok(false);
    };
    own.clear();
    own.extend_from_slice(bytes)?;
    Ok(true)
}

impl Short {
    /// The text of these bytes, in memory of its own; nothing above 255 of them.
    pub fn new(alloc: Global, bytes: &[u8]) -> Result<Option<Short>, NoMemory>
        ensures long { IfOk result (λ made. IsNone made ↔ (255 < length bytes.now)) }
        ensures text { IfOk result (λ made. IfSome made (λ short. short ≡ bytes.now)) }
    {
        if bytes.len() > 255 {
            return Ok(None);
        }
        let bytes = Rc::new(alloc, Vec::from_slice(alloc, bytes)?)?;
        Ok(Some(Short { bytes }))
    }

    /// The text's bytes.
    pub fn bytes(&self) -> &[u8]
        ensures text { result.now ≡ self.now }
        ensures short { length result.now ≤ 255 }
    {
        self.bytes.as_slice()
    }

    /// These bytes are the text from now on, where they are at most 255; else nothing changes, and the
    /// answer is false. It takes no memory where nothing else shares the text and its memory has room for
    /// them. After want of memory it is some text.
    pub fn set(&mut self, alloc: Global, bytes: &[u8]) -> Result<bool, NoMemory>
        ensures set { IfOk result (λ is_set. is_set ≡ true ↔ length bytes.now ≤ 255) }
        ensures text { result ≡ Ok true → self.new ≡ bytes.now }
        ensures same { result ≡ Ok false → self.new ≡ self.old }
    {
        if bytes.len() > 255 {
            return Ok(false);
        }
        if !overwrite(&mut self.bytes, bytes)? {
            self.bytes = Rc::new(alloc, Vec::from_slice(alloc, bytes)?)?;
        }
        Ok(true)
    }

    /// The same text once more, without a copy of its bytes. It takes no memory; that it is refused is for
    /// the greatest count of those that share it alone.
    pub fn copy(&self) -> Result<Short, NoMemory>
        ensures { IfOk result (λ short. short ≡ self.now) }
    {
        let bytes = self.bytes.clone()?;
        Ok(Short { bytes })
    }
}

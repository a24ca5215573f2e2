ghost use Rattle.std.specs.Prelude.{◌≡◌, ◌==◌, ◌++◌, ◌∷◌, ℕ, List, [], length, slice_get, IfSome, IfNone, OnOk, OnErr};
ghost use Rattle.vh_callbacks.specs.Marks.{IsSet, without_number};

use std::alloc::Global;
use std::collections::VecDeque;
use std::marker::Model;
use vh_base::{CbNumber, NoMemory};

// A set of callback numbers, which contracts see as their rising list.
#[derive(Drop)]
pub(crate) struct Numbers {
    items: VecDeque<CbNumber>,
}

impl Model for Numbers {
    ghost Value = { List ℕ };

    ghost view = { λ n. n.items.items };

    ghost invariant = { λ n. IsSet n.items.items };
}

impl Numbers {
    // The empty set.
    pub(crate) fn new(alloc: Global) -> Numbers
        ensures { result ≡ [] }
    {
        Numbers {
            items: VecDeque::new(alloc),
        }
    }

    // How many there are.
    pub(crate) fn len(&self) -> usize
        ensures len { result ≡ length self.now }
        ensures set { IsSet self.now }
    {
        self.items.len()
    }

    // Is there none?
    pub(crate) fn is_empty(&self) -> bool
        ensures { result ≡ (length self.now == 0) }
    {
        self.items.is_empty()
    }

    // Puts a number that is above all others at the end.
    pub(crate) fn push(&mut self, c: CbNumber) -> Result<(), NoMemory>
        requires { IsSet (self.old ++ c ∷ []) }
        ensures ok { OnOk result (self.new ≡ self.old ++ c ∷ []) }
        ensures kept { OnErr result (self.new ≡ self.old) }
    {
        self.items.push_back(c)?;
        Ok(())
    }

    // Puts the numbers of another set into the empty set. It keeps what room the set has.
    pub(crate) fn fill(&mut self, numbers: &Numbers) -> Result<(), NoMemory>
        requires { self.old ≡ [] }
        ensures ok { OnOk result (self.new ≡ numbers.now) }
        ensures kept { OnErr result (self.new ≡ self.old) }
    {
        put_all(&mut self.items, &numbers.items)?;
        Ok(())
    }

    // Takes the k-th out, from 0; none where there are not so many.
    pub(crate) fn take(&mut self, k: usize) -> Option<CbNumber>
        ensures taken { result ≡ slice_get self.old k }
        ensures left { IfSome result (λ c. self.new ≡ without_number c self.old) }
        ensures kept { IfNone result (self.new ≡ self.old) }
    {
        if k >= self.len() {
            return None;
        }
        let c = *self.items.get(k)?;
        let _ = self.items.remove(k);
        Some(c)
    }

    // Takes this number out, where it is among them.
    pub(crate) fn drop_number(&mut self, c: CbNumber)
        ensures { self.new ≡ without_number c self.old }
    {
        if let Ok(at) = self.items.binary_search(&c) {
            let _ = self.items.remove(at);
        }
    }

    // Takes all out. The set keeps its room.
    pub(crate) fn clear(&mut self)
        ensures { self.new ≡ [] }
    {
        self.items.clear();
    }
}

// Puts numbers at the end of none.
fn put_all(items: &mut VecDeque<CbNumber>, numbers: &VecDeque<CbNumber>) -> Result<(), NoMemory>
    requires { items.old.items ≡ [] }
    ensures ok { OnOk result (items.new.items ≡ numbers.now.items) }
    ensures kept { OnErr result (items.new.items ≡ []) }
{
    items.reserve(numbers.len())?;
    for c in numbers {
        items.push_back_reserved(*c);
    }
    Ok(())
}

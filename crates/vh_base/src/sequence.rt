ghost use Rattle.std.specs.Prelude.{◌≡◌, List, length, IfOk};

use crate::faults::NoMemory;
use std::alloc::Global;
use std::marker::Model;

/// Elements in order, which contracts see as their list. It is made from a `Vec`
/// and gives it back without taking memory.
#[derive(Drop)]
pub struct Sequence<T> {
    items: Vec<T>,
}

/// A text or other bytes, which contracts see as the list of the bytes.
pub type Bytes = Sequence<u8>;

impl<T> Model for Sequence<T> {
    ghost Value = { List T };

    ghost view = { λ s. s.items.items };
}

impl<T: Copy> Sequence<T> {
    /// The elements of a slice once more.
    pub fn from_slice(alloc: Global, items: &[T]) -> Result<Sequence<T>, NoMemory>
        ensures { IfOk result (λ s. s ≡ items.now) }
    {
        Ok(Sequence::new(Vec::from_slice(alloc, items)?))
    }
}

impl<T> Sequence<T> {
    /// The elements of a vector.
    pub fn new(items: Vec<T>) -> Sequence<T>
        ensures { result ≡ items.items }
    {
        Sequence { items }
    }

    /// The elements as a slice.
    pub fn as_slice(&self) -> &[T]
        ensures { result.now ≡ self.now }
    {
        self.items.as_slice()
    }

    /// Gives the vector back.
    pub fn into_vec(self) -> Vec<T>
        ensures { result.items ≡ self }
    {
        self.items
    }
}

use crate::sequence::{Bytes, Sequence};

/// A design of the first subset: one module with registers and `initial` blocks.
#[derive(Drop)]
pub struct First {
    /// The module's name.
    pub name: Bytes,
    /// The registers' names, in source order.
    pub regs: FirstNames,
    /// The code of each `initial`, in source order.
    pub blocks: FirstBlocks,
}

/// Names in source order, seen as a list of texts.
pub type FirstNames = Sequence<Bytes>;

/// Blocks in source order, seen as a list with one list of statements for each block.
pub type FirstBlocks = Sequence<Sequence<FirstCode>>;

/// A statement of a block. `begin`, `end` and the null statement have no code.
#[derive(Drop)]
pub enum FirstCode {
    /// `#d;`: waits for that many units of the simulation's precision (IEEE 1364-2005, 9.7.1).
    Wait(u32),
    /// A blocking assignment of one digit to a register, by its number from 0 (9.2.1).
    Assign { reg: u32, bit: FirstBit },
    /// `$display("TEXT");`, the text without the newline that is shown behind it (17.1).
    Show(Bytes),
    /// `$finish;` (17.4.1).
    Finish,
}

/// One four-state digit (IEEE 1364-2005, 4.1).
#[derive(Clone, Copy, Debug, PartialEq, Eq)]
pub enum FirstBit {
    Zero,
    One,
    X,
    Z,
}

/// The base in which the digits of a value are written (IEEE 1364-2005, 3.5.1 and 17.1.1).
#[derive(Clone, Copy, Debug, PartialEq, Eq)]
pub enum Radix {
    /// One digit for each character.
    Binary,
    /// Three digits for each character.
    Octal,
    /// Four digits for each character.
    Hex,
    /// All digits as one number.
    Decimal,
}

/// The form in which a value is got or put as text (IEEE 1364-2005, 27.14 and 27.32, after
/// the constants of Annex G).
#[derive(Clone, Copy, Debug, PartialEq, Eq)]
pub enum Format {
    /// Binary digits.
    VpiBinStrVal,
    /// Octal digits.
    VpiOctStrVal,
    /// Hexadecimal digits.
    VpiHexStrVal,
    /// A decimal number, as `%0d` shows it.
    VpiDecStrVal,
    /// A number from -2^31 to 2^31-1.
    VpiIntVal,
    /// One digit: `0`, `1`, `x` or `z`.
    VpiScalarVal,
    /// The two bit planes in hexadecimal, `AVAL:BVAL`.
    VpiVectorVal,
}

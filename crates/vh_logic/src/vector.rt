ghost use Rattle.std.specs.Prelude.{◌≡◌, ◌≤◌, ◌<◌, ◌-◌, ◌^◌, length, slice_get};
ghost use Rattle.vh_logic.specs.Vector.{Vector, width_of, filled};
ghost use Rattle.vh_logic.specs.Number.{binary, known_number};
ghost use Rattle.vh_logic.specs.Planes.{digits_of, plane_of, aval_bit, bval_bit};

use crate::digits::Digit;
use std::marker::Model;

/// The greatest width of a vector, in digits.
pub const MAX_WIDTH: u32 = 64;

/// One bit for each digit of a vector, the lowest digit in the lowest bit.
pub type Plane = u64;

/// The widths that a number without a size may take, the narrowest first; the greatest is
/// [`MAX_WIDTH`] (IEEE 1364-2005, 3.5.1, asks for 32 digits at least).
pub const NATURAL_WIDTHS: [u32; 2] = [32, 64];

/// A vector of 1 to `MAX_WIDTH` digits with a sign mark. Contracts see it as the list of its
/// digits, lowest first, and the mark.
#[derive(Clone, Copy)]
pub struct Vec4 {
    pub(crate) aval: Plane,
    pub(crate) bval: Plane,
    pub(crate) width: u32,
    pub(crate) signed: bool,
}

impl Model for Vec4 {
    ghost use Rattle.std.specs.Prelude.{◌≡◌, ◌≤◌, ◌<◌, ◌^◌, length};
    ghost use Rattle.vh_logic.specs.Vector.{Vector};
    ghost use Rattle.vh_logic.specs.Planes.{digits_of, plane_of, aval_bit, bval_bit};
    ghost use Rattle.vh_logic.specs.declared.vector.TheConstants.{MAX_WIDTH};

    ghost Value = { Vector };

    ghost view = { λ v. record { digits = digits_of v.width v.aval v.bval; signed = v.signed } };

    ghost invariant = { λ v. (1 ≤ v.width) × (v.width ≤ MAX_WIDTH) × (v.aval < 2 ^ v.width) ×
        (v.bval < 2 ^ v.width) };

    ghost inverse = { λ v. record {
      aval = plane_of aval_bit v.digits;
      bval = plane_of bval_bit v.digits;
      width = length v.digits;
      signed = v.signed;
    } };

    ghost use Rattle.vh_logic.specs.PlanesBack.{length-digits_of, aval-digits_of, bval-digits_of};

    ghost inverse_ok = { λ a h. Prim.rw (
      aval-digits_of a.width a.aval a.bval h.2,
      bval-digits_of a.width a.aval a.bval h.3,
      length-digits_of a.width a.aval a.bval,
    ) };
}

/// The plane whose lowest `width` bits are 1.
pub fn mask(width: u32) -> Plane
    requires low { 1 ≤ width }
    requires high { width ≤ MAX_WIDTH }
    ensures { result ≡ 2 ^ width - 1 }
{
    Plane::MAX >> (MAX_WIDTH - width)
}

impl Vec4 {
    /// The same digit at each position.
    pub fn filled(width: u32, digit: Digit, signed: bool) -> Vec4
        requires low { 1 ≤ width }
        requires high { width ≤ MAX_WIDTH }
        ensures value { result ≡ filled width digit signed }
        ensures width { width_of result ≡ width }
    {
        let all = mask(width);
        let (aval, bval) = match digit {
            Digit::Zero => (0, 0),
            Digit::One => (all, 0),
            Digit::X => (all, all),
            Digit::Z => (0, all),
        };
        Vec4 {
            aval,
            bval,
            width,
            signed,
        }
    }

    /// The vector of two planes by the pairs (aval, bval): (0, 0) is 0, (1, 0) is 1, (0, 1) is z
    /// and (1, 1) is x (IEEE 1364-2005, 27.14). Bits above the width do not count.
    pub fn from_planes(width: u32, aval: Plane, bval: Plane, signed: bool) -> Vec4
        requires low { 1 ≤ width }
        requires high { width ≤ MAX_WIDTH }
        ensures value { result ≡ record { digits = digits_of width aval bval; signed = signed } }
        ensures width { width_of result ≡ width }
    {
        let all = mask(width);
        Vec4 {
            aval: aval & all,
            bval: bval & all,
            width,
            signed,
        }
    }

    /// One bit for each digit, 1 where it is 1 or x (IEEE 1364-2005, 27.14).
    pub fn aval(&self) -> Plane
        ensures { result ≡ plane_of aval_bit self.now.digits }
    {
        self.aval
    }

    /// One bit for each digit, 1 where it is x or z (IEEE 1364-2005, 27.14).
    pub fn bval(&self) -> Plane
        ensures { result ≡ plane_of bval_bit self.now.digits }
    {
        self.bval
    }

    /// The number of digits.
    pub fn width(&self) -> u32
        ensures value { result ≡ width_of self.now }
        ensures least { 1 ≤ result }
        ensures most { result ≤ MAX_WIDTH }
    {
        self.width
    }

    /// Whether the vector is signed.
    pub fn is_signed(&self) -> bool
        ensures { result ≡ self.now.signed }
    {
        self.signed
    }

    /// The digit at position `i`, of which 0 is the lowest.
    pub fn digit(&self, i: u32) -> Digit
        requires { i < width_of self.now }
        ensures { slice_get self.now.digits i ≡ Some result }
    {
        match ((self.aval >> i) & 1 == 1, (self.bval >> i) & 1 == 1) {
            (false, false) => Digit::Zero,
            (true, false) => Digit::One,
            (false, true) => Digit::Z,
            (true, true) => Digit::X,
        }
    }

    /// The number that the digits stand for, read without a sign; `None` where a digit is x or z.
    pub fn number(&self) -> Option<Plane>
        ensures { result ≡ known_number self.now.digits }
    {
        if self.bval == 0 {
            Some(self.aval)
        } else {
            None
        }
    }

    // All x, in the width and with the sign mark of `self`.
    pub(crate) fn unknown(&self) -> Vec4
        ensures value { result ≡ filled (width_of self.now) Digit.X self.now.signed }
        ensures width { width_of result ≡ width_of self.now }
    {
        let all = mask(self.width);
        Vec4 {
            aval: all,
            bval: all,
            width: self.width,
            signed: self.signed,
        }
    }

    // The lowest digits of a number, in the width and with the sign mark of `self`.
    pub(crate) fn with_number(&self, number: Plane) -> Vec4
        ensures value { result ≡ record {
          digits = binary (width_of self.now) number;
          signed = self.now.signed;
        } }
        ensures width { width_of result ≡ width_of self.now }
    {
        Vec4 {
            aval: number & mask(self.width),
            bval: 0,
            width: self.width,
            signed: self.signed,
        }
    }
}

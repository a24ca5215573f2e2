ghost use Rattle.std.specs.Prelude.{◌≡◌, ◌<◌, ◌+◌, ◌*◌, ℕ};
ghost use Rattle.std.specs.Option.{option_map};
ghost use Rattle.vh_text.specs.Digits.{decimal_number, characters};
ghost use Rattle.vh_text.specs.Literals.{unsigned_number};
ghost use Rattle.vh_text.specs.Views.{number_kept, number_held};

use vh_logic::{MAX_WIDTH, Plane};

// The width of an integer, and of the number that `vpiIntVal` stands for (IEEE 1364-2005, 3.9, 27.14).
pub(crate) const INTEGER_WIDTH: u32 = 32;

// A number without a sign: what a plane holds of it, and whether that is all.
#[derive(Clone, Copy)]
pub(crate) struct Number {
    pub(crate) low: Plane,
    pub(crate) fits: bool,
}

impl Number {
    // Whether this many digits hold it.
    pub(crate) fn is_held(&self, digits: u32) -> bool
        ensures { result ≡ number_held self.now digits }
    {
        self.fits && (digits >= MAX_WIDTH || self.low >> digits == 0)
    }
}

// The number of a text of decimal digits and underscores that begins with a digit.
pub(crate) fn unsigned_number(bytes: &[u8]) -> Option<Number>
    ensures { result ≡ option_map number_kept (unsigned_number bytes.now) }
{
    let (first, _) = bytes.split_first()?;
    if *first == b'_' {
        return None;
    }
    read_number(bytes)
}

// The number of a text of decimal digits and underscores; that of an empty text is 0.
pub(crate) fn read_number(bytes: &[u8]) -> Option<Number>
    ensures { result ≡ option_map number_kept (decimal_number (characters bytes.now)) }
{
    let mut number = Number { low: 0, fits: true };
    for b in bytes {
        if *b != b'_' {
            if !b.is_ascii_digit() {
                return None;
            }
            number = pushed(&number, *b - b'0');
        }
    }
    Some(number)
}

// The number with one more decimal digit.
fn pushed(number: &Number, digit: u8) -> Number
    requires { digit < 10 }
    ensures { (n : ℕ) → number.now ≡ number_kept n → result ≡ number_kept (n * 10 + digit) }
{
    let digit = Plane::from(digit);
    Number {
        low: number.low.wrapping_mul(10).wrapping_add(digit),
        fits: number.fits && number.low <= (Plane::MAX - digit) / 10,
    }
}

ghost use Rattle.std.specs.Prelude.{◌≡◌};
ghost use Rattle.vh_logic.specs.Digit.{is_same};
ghost use Rattle.vh_logic.specs.Vector.{width_of, all_positions};
ghost use Rattle.vh_store.specs.Contents.{same_value, IsChange};

use vh_base::Object;
use vh_design::Change;
use vh_design_nodes::same_sign;
use vh_logic::{Digit, Vec4, case_equal};

/// Whether two values have the same width, sign and digits.
pub fn is_same_value(a: &Vec4, b: &Vec4) -> bool
    ensures { result ≡ same_value a.now b.now }
{
    a.width() == b.width() && same_sign(a.is_signed(), b.is_signed()) && has_same_digits(a, b)
}

// Have two values of the same width and sign the same digits?
fn has_same_digits(a: &Vec4, b: &Vec4) -> bool
    requires { width_of a.now ≡ width_of b.now }
    ensures { result ≡ all_positions is_same a.now.digits b.now.digits }
{
    matches!(case_equal(a, b), Digit::One)
}

// The change of an object that showed one value and now shows another.
pub(crate) fn change_of(o: Object, old: Vec4, new: Vec4) -> Option<Change>
    ensures { IsChange o old new result }
{
    if is_same_value(&old, &new) {
        return None;
    }
    Some(Change {
        object: o,
        old,
        new,
    })
}

ghost use Rattle.std.specs.Prelude.{◌≡◌, Some};
ghost use Rattle.vh_logic.specs.Vector.{width_of};
ghost use Rattle.vh_text.specs.Views.{digits_alone};
ghost use Rattle.vh_text.specs.Texts.{text, vector_text};
ghost use Rattle.vh_text.specs.Values.{value_of_text};

use crate::radix::Radix;
use vh_base::Format;
use vh_logic::Vec4;

/// Reading the binary text, and the text of the two planes, of a value at its own width gives its
/// digits again. It does nothing: its contract is the theorem.
pub fn text_laws(v: &Vec4)
    ensures binary { value_of_text Format.VpiBinStrVal (width_of v.now) (text Radix.Binary v.now)
        ≡ Some (digits_alone v.now.digits) }
    ensures planes { value_of_text Format.VpiVectorVal (width_of v.now) (vector_text v.now)
        ≡ Some (digits_alone v.now.digits) }
{
    let _width = v.width();
}

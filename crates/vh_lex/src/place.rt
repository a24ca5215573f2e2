ghost use Rattle.std.specs.Prelude.{◌≡◌, ◌≤◌, ◌<◌, ◌+◌, ◌^◌, length};
ghost use Rattle.vh_lex.specs.State.{moved};

use vh_base::Place;

// The place after the bytes, which begin at a place.
pub(crate) fn moved(place: Place, bytes: &[u8]) -> Place
    requires lines { place.line + length bytes.now < 2 ^ 32 }
    requires columns { place.column + length bytes.now < 2 ^ 32 }
    requires first { 1 ≤ place.column }
    ensures value { result ≡ moved bytes.now place }
    ensures lines { result.line ≤ place.line + length bytes.now }
    ensures columns { result.column ≤ place.column + length bytes.now }
    ensures first { 1 ≤ result.column }
{
    let mut line = place.line;
    let mut column = place.column;
    for b in bytes {
        if *b == b'\n' {
            line += 1;
            column = 1;
        } else {
            column += 1;
        }
    }
    Place {
        file: place.file,
        line,
        column,
    }
}

ghost use Rattle.std.specs.Prelude.{◌≡◌, ◌++◌, ◌∷◌, [], if◌then◌else◌, Some, None, OnOk};
ghost use Rattle.vh_logic.specs.Vector.{width_of as digits_in};
ghost use Rattle.vh_store.specs.Contents.{shown, put_at, with_driven, IsChange};
ghost use Rattle.vh_proc_assign.specs.Assigned as assigned;
ghost use Rattle.vh_proc_assign.specs.Assigned.{with_digits, with_piece, with_pieces, made_by, made_by_driver, made_by_put, made_in_turn};

use crate::piece::Piece;
use vh_base::{DriverId, NoMemory, Object};
use vh_design::{Change, Layer, Made};
use vh_logic::{Vec4, replace, select};
use vh_store::Store;

// A value with others of its digits from a position on.
pub(crate) fn with_digits(old: &Vec4, low: u32, v: &Vec4) -> Vec4
    ensures { result ≡ with_digits old.now low v.now }
{
    let width = old.width();
    if low >= width {
        return *old;
    }
    let there = v.width().min(width - low);
    replace(old, low, &select(v, 0, there))
}

/// An object takes a piece. Digits above its highest fall away.
pub fn take_piece(s: &mut Store, piece: &Piece) -> Option<Change>
    ensures contents { s.new ≡ with_piece piece.now s.old }
    ensures change { IsChange piece.now.object (shown s.old piece.now.object)
        (shown s.new piece.now.object) result }
    ensures time { (s.new).time ≡ (s.old).time }
{
    let value = with_digits(&s.shown(piece.object), piece.low, &piece.value);
    s.write(piece.object, &value)
}

// The same, and the change is noted.
fn take_noted(s: &mut Store, piece: &Piece, made: &mut Vec<Made>) -> Result<(), NoMemory>
    ensures contents { s.new ≡ with_piece piece.now s.old }
    ensures made { OnOk result (made.new.items ≡ made.old.items ++ made_by piece.now s.old) }
    ensures time { (s.new).time ≡ (s.old).time }
{
    let Some(change) = take_piece(s, piece) else {
        return Ok(());
    };
    made.push(Made {
        object: piece.object,
        change: Some(change),
        layer: Layer::Plain,
    })?;
    Ok(())
}

/// Objects take pieces in order. What that changes is noted behind what was noted. Without memory
/// the last change isn't noted, and further pieces aren't taken.
#[tactic(auto, unfolding(crate::specs::Assigned::with_pieces, crate::specs::Assigned::made_in_turn))]
pub fn take_pieces(s: &mut Store, pieces: &[Piece], made: &mut Vec<Made>) -> Result<(), NoMemory>
    ensures contents { OnOk result (s.new ≡ with_pieces pieces.now s.old) }
    ensures made { OnOk result (made.new.items ≡ made.old.items ++ made_in_turn pieces.now s.old) }
    ensures time { (s.new).time ≡ (s.old).time }
{
    for piece in pieces {
        take_noted(s, piece, made)?;
    }
    Ok(())
}

/// A driver takes a value. What that changes is noted behind what was noted; without memory it
/// isn't.
pub fn take_driver(
    s: &mut Store,
    x: DriverId,
    v: &Vec4,
    made: &mut Vec<Made>,
) -> Result<(), NoMemory>
    ensures contents { s.new ≡ with_driven x v.now s.old }
    ensures made { OnOk result (made.new.items ≡ made.old.items ++ made_by_driver x v.now s.old) }
    ensures time { s.new.time ≡ s.old.time }
{
    let Some(told) = s.drive(x, v) else {
        return Ok(());
    };
    made.push(Made {
        object: told.object,
        change: Some(told),
        layer: Layer::Plain,
    })?;
    Ok(())
}

/// A put without a force. What that changes is noted behind what was noted; without memory it
/// isn't.
pub fn take_put(s: &mut Store, o: Object, v: &Vec4, made: &mut Vec<Made>) -> Result<(), NoMemory>
    ensures contents { s.new ≡ put_at o v.now s.old }
    ensures made { OnOk result (made.new.items ≡ made.old.items ++ made_by_put o v.now s.old) }
    ensures time { s.new.time ≡ s.old.time }
{
    let Some(told) = s.put(o, v) else {
        return Ok(());
    };
    made.push(Made {
        object: told.object,
        change: Some(told),
        layer: Layer::Plain,
    })?;
    Ok(())
}

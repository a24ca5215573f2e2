ghost use Rattle.std.specs.Prelude.{◌≡◌, ◌≤◌, ◌<◌, ◌++◌, length, true, OnOk};
ghost use Rattle.std.specs.List.{list_all};
ghost use Rattle.vh_design_code.specs.Targets.{fits_targets, fits_input, fits_output};
ghost use Rattle.vh_proc_assign.specs.Pieces as pieces;
ghost use Rattle.vh_proc_assign.specs.Pieces.{digits_of};
ghost use Rattle.vh_proc_assign.specs.Assigned.{with_pieces, made_in_turn};
ghost use Rattle.vh_proc_turn.specs.Turns.{right_pieces, held_by, answering};

use crate::process::{Process, Room};
use vh_base::{ExprId, NoMemory, Object};
use vh_design::{Design, Input, Leave, Selected};
use vh_logic::{Digit, Vec4, resize};
use vh_proc_assign::{digits_of, pieces_in, pieces_of, pieces_out, right_side, take_pieces};
use vh_store::Store;

// What targets take of the right side of an assignment to them.
pub(crate) fn right_pieces(
    d: &Design,
    s: &Store,
    e: ExprId,
    targets: &[Selected],
    room: &mut Room,
) -> Result<(), NoMemory>
    requires known { e < length (d.now).exprs }
    requires there { fits_targets (d.now).objects (length (d.now).exprs) targets.now ≡ true }
    ensures pieces { OnOk result (room.new.pieces.items ≡ right_pieces d.now s.now e targets.now) }
    ensures made { room.new.made ≡ room.old.made }
{
    let v = right_side(d, s, e, digits_of(d, targets));
    room.pieces.clear();
    pieces_of(d, s, targets, &v, &mut room.pieces)
}

// What targets take of the value that was held.
pub(crate) fn held_pieces(
    d: &Design,
    s: &Store,
    process: &Process,
    targets: &[Selected],
    room: &mut Room,
) -> Result<(), NoMemory>
    requires { fits_targets (d.now).objects (length (d.now).exprs) targets.now ≡ true }
    ensures pieces { let v = held_by process.now (digits_of (d.now).objects targets.now) in
        OnOk result (room.new.pieces.items ≡ pieces.pieces_of d.now s.now targets.now v) }
    ensures made { room.new.made ≡ room.old.made }
{
    let held = process.held.unwrap_or(Vec4::filled(1, Digit::X, false));
    let v = resize(&held, digits_of(d, targets), false);
    room.pieces.clear();
    pieces_of(d, s, targets, &v, &mut room.pieces)
}

// Objects take the pieces, in order.
pub(crate) fn take(s: &mut Store, room: &mut Room) -> Result<(), NoMemory>
    ensures contents { OnOk result (s.new ≡ with_pieces room.old.pieces.items s.old) }
    ensures made { OnOk result (room.new.made.items
        ≡ room.old.made.items ++ made_in_turn room.old.pieces.items s.old) }
    ensures time { (s.new).time ≡ (s.old).time }
{
    take_pieces(s, &room.pieces, &mut room.made)
}

// The begin of a call: the variables of its task or function take its inputs.
pub(crate) fn enter(
    d: &Design,
    s: &mut Store,
    inputs: &[Input],
    room: &mut Room,
) -> Result<(), NoMemory>
    requires { list_all (fits_input (d.now).objects (length (d.now).exprs)) inputs.now ≡ true }
    ensures contents { OnOk result (s.new
        ≡ with_pieces (pieces.pieces_in d.now s.old inputs.now) s.old) }
    ensures made { let taken = pieces.pieces_in d.now s.old inputs.now in
        OnOk result (room.new.made.items ≡ room.old.made.items ++ made_in_turn taken s.old) }
    ensures time { (s.new).time ≡ (s.old).time }
{
    room.pieces.clear();
    pieces_in(d, s, inputs, &mut room.pieces)?;
    take(s, room)
}

// The end of a call: targets take its outputs, and a function answers.
pub(crate) fn leave(
    d: &Design,
    s: &mut Store,
    leave: &Leave,
    room: &mut Room,
) -> Result<(), NoMemory>
    requires { list_all (fits_output (d.now).objects (length (d.now).exprs)) leave.now.outputs
        ≡ true }
    ensures contents { let taken = pieces.pieces_out d.now s.old leave.now.outputs in
        OnOk result (s.new ≡ answering leave.now.result s.old (with_pieces taken s.old)) }
    ensures made { let taken = pieces.pieces_out d.now s.old leave.now.outputs in
        OnOk result (room.new.made.items ≡ room.old.made.items ++ made_in_turn taken s.old) }
    ensures time { (s.new).time ≡ (s.old).time }
{
    room.pieces.clear();
    pieces_out(d, s, leave.outputs.as_slice(), &mut room.pieces)?;
    let Some(returned) = leave.result else {
        return take(s, room);
    };
    let v = s.shown(Object {
        id: returned.variable,
        word: None,
    });
    take(s, room)?;
    s.set_result(returned.call, &v);
    Ok(())
}

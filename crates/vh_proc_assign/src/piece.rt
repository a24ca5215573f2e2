ghost use Rattle.std.specs.Prelude.{◌≡◌, ◌≤◌, ◌^◌, ◌<ℤ◌, neg_ℤ, pos, length, true};
ghost use Rattle.vh_design_nodes.specs.Fits.{fits_word, fits_select};
ghost use Rattle.vh_design_nodes.specs.declared.expr.Access.TheVariants as access;
ghost use Rattle.vh_design_nodes.specs.Widths.{select_width};
ghost use Rattle.vh_eval.specs.Selects.{position_of, lowest_index};
ghost use Rattle.vh_design_code.specs.Targets.{fits_target};
ghost use Rattle.vh_proc_assign.specs.Pieces.{object_of, position_in, piece_at, piece_in, piece_of};
ghost use Rattle.std.specs.Option.{option_and_then};
ghost use Rattle.vh_store.specs.Contents.{found};

use crate::values::integer_alone;
use vh_base::Object;
use vh_design::{Chosen, Design, Range, Select, Selected};
use vh_logic::{Vec4, select};
use vh_store::Store;

/// Digits that an object takes: the value's, from a position on, 0 being the object's lowest.
#[derive(Clone, Copy)]
pub struct Piece {
    pub object: Object,
    pub low: u32,
    pub value: Vec4,
}

// The object of a target.
fn object_of(d: &Design, s: &Store, chosen: Chosen) -> Option<Object>
    requires { let exprs = length (d.now).exprs in
        fits_word (d.now).objects exprs access.Assigned chosen.object chosen.word ≡ true }
    ensures { result ≡ object_of d.now s.now chosen }
{
    let Some(index) = chosen.word else {
        return Some(Object {
            id: chosen.object,
            word: None,
        });
    };
    let at = u32::try_from(integer_alone(d, s, index)?).ok()?;
    Some(Object {
        id: chosen.object,
        word: Some(at),
    })
}

// The position of the lowest of so many digits, from an index on upwards or downwards.
fn position_from(range: Range, up: bool, index: i128, width: u32) -> i128
    requires least { 1 ≤ width }
    requires below { index <ℤ pos (2 ^ 64) }
    requires above { neg_ℤ (pos (2 ^ 64)) <ℤ index }
    ensures { result ≡ position_of range (lowest_index range up index width) }
{
    let further = i128::from(width - 1);
    let right = i128::from(range.right);
    match (range.left >= range.right, up) {
        (true, true) => index - right,
        (true, false) => index - further - right,
        (false, true) => right - (index + further),
        (false, false) => right - index,
    }
}

// The position in its object where a target's digits begin.
fn position_in(d: &Design, s: &Store, it: Select) -> Option<i128>
    requires there { fits_select (length (d.now).exprs) it ≡ true }
    requires least { 1 ≤ select_width 1 it }
    ensures { result ≡ position_in d.now s.now it }
{
    match it {
        Select::Whole => Some(0),
        Select::Bit { range, index } => {
            Some(position_from(range, true, integer_alone(d, s, index)?, 1))
        }
        Select::Slice { range, lowest, .. } => {
            Some(position_from(range, true, i128::from(lowest), 1))
        }
        Select::Indexed {
            up,
            range,
            base,
            width,
        } => Some(position_from(range, up, integer_alone(d, s, base)?, width)),
    }
}

// What an object of so many digits takes of others that begin at a position of it.
fn piece_at(object: &Object, width: u32, v: &Vec4, position: i128) -> Option<Piece>
    ensures { result ≡ piece_at object.now width v.now position }
{
    let size = position.unsigned_abs();
    if position < 0 {
        if size >= u128::from(v.width()) {
            return None;
        }
        let below = size as u32;
        return Some(Piece {
            object: *object,
            low: 0,
            value: select(v, below, v.width() - below),
        });
    }
    if size >= u128::from(width) {
        return None;
    }
    Some(Piece {
        object: *object,
        low: size as u32,
        value: *v,
    })
}

// What a target takes of these digits of an object.
fn piece_in(d: &Design, s: &Store, it: Select, v: &Vec4, object: &Object) -> Option<Piece>
    requires there { fits_select (length (d.now).exprs) it ≡ true }
    requires least { 1 ≤ select_width 1 it }
    ensures { result ≡ option_and_then (piece_in d.now s.now it v.now object.now)
        (found s.now object.now) }
{
    let old = s.found(*object)?;
    let position = position_in(d, s, it)?;
    piece_at(object, old.width(), v, position)
}

// What a target takes of these digits.
pub(crate) fn piece_of(d: &Design, s: &Store, target: &Selected, v: &Vec4) -> Option<Piece>
    requires { fits_target (d.now).objects (length (d.now).exprs) target.now ≡ true }
    ensures { result ≡ piece_of d.now s.now target.now v.now }
{
    let object = object_of(d, s, target.of)?;
    piece_in(d, s, target.select, v, &object)
}

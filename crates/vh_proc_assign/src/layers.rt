ghost use Rattle.std.specs.Prelude.{◌≡◌, ◌<◌, ◌++◌, ◌∷◌, [], length, true, Some, None, OnOk};
ghost use Rattle.vh_design_code.specs.Operations.{fits_force, fits_write};
ghost use Rattle.vh_design_code.specs.declared.change.Layer.TheVariants as layer;
ghost use Rattle.vh_design_nodes.specs.Fits.{has_kind};
ghost use Rattle.vh_design_nodes.specs.Kinds.{is_forcible};
ghost use Rattle.vh_store.specs.Contents.{shown, released, deassigned, IsChange};
ghost use Rattle.vh_store.specs.Contents as contents;
ghost use Rattle.vh_proc_assign.specs.Layers as layers;
ghost use Rattle.vh_proc_assign.specs.Layers.{value_for, with_force, force_made, layer_made, release_made, with_assign, shown_made, expr_of, with_follow, follow_made};

use crate::assigned::with_digits;
use crate::values::right_side;
use vh_base::{ExprId, NoMemory, ObjId, Object};
use vh_design::{Change, Design, Layer, Made};
use vh_logic::Vec4;
use vh_store::Store;

// An object as a whole.
fn whole(o: ObjId) -> Object
    ensures { result ≡ contents.whole o }
{
    Object { id: o, word: None }
}

/// The value of an expression as an object takes it, with the object's width and sign (IEEE
/// 1364-2005, 9.3).
pub fn value_for(d: &Design, s: &Store, o: ObjId, e: ExprId) -> Vec4
    requires { fits_force d.now.objects (length d.now.exprs) o e ≡ true }
    ensures { result ≡ value_for d.now s.now o e }
{
    let width = d.object(o).width;
    with_digits(&s.shown(whole(o)), 0, &right_side(d, s, e, width))
}

// What is told of an object, and of its change, if there is one.
fn note(
    made: &mut Vec<Made>,
    o: ObjId,
    change: Option<Change>,
    layer: Layer,
) -> Result<(), NoMemory>
    ensures { OnOk result (made.new.items
        ≡ made.old.items
        ++ record { object = contents.whole o; change = change; layer = layer } ∷ []) }
{
    made.push(Made {
        object: whole(o),
        change,
        layer,
    })?;
    Ok(())
}

// The same, where there is a change.
fn note_change(made: &mut Vec<Made>, o: ObjId, change: Option<Change>) -> Result<(), NoMemory>
    ensures { OnOk result (made.new.items ≡ made.old.items ++ layers.listed_change o change) }
{
    if change.is_none() {
        return Ok(());
    }
    note(made, o, change, Layer::Plain)
}

/// `force`: an object shows the present value of an expression from now on. It is told, also where
/// the object shows the same.
pub fn force_object(
    d: &Design,
    s: &mut Store,
    o: ObjId,
    e: ExprId,
    made: &mut Vec<Made>,
) -> Result<(), NoMemory>
    requires { fits_force d.now.objects (length d.now.exprs) o e ≡ true }
    ensures contents { s.new ≡ with_force d.now o e s.old }
    ensures made { OnOk result (made.new.items ≡ made.old.items ++ force_made d.now o e s.old) }
    ensures time { s.new.time ≡ s.old.time }
{
    let v = value_for(d, s, o, e);
    let change = s.force(o, &v, Some(e));
    note(made, o, change, Layer::Force)?;
    Ok(())
}

/// `release`: the force of an object ends, where there is one, and that is told.
pub fn release_object(s: &mut Store, o: ObjId, made: &mut Vec<Made>) -> Result<(), NoMemory>
    ensures contents { s.new ≡ released o s.old }
    ensures made { OnOk result (made.new.items ≡ made.old.items ++ release_made o s.old) }
    ensures time { s.new.time ≡ s.old.time }
{
    let is_forced = s.is_forced(o);
    let change = s.release(o);
    if !is_forced {
        return Ok(());
    }
    note(made, o, change, Layer::Release)?;
    Ok(())
}

/// `assign` as a statement: a variable shows the present value of an expression, unless it is
/// forced.
pub fn assign_object(
    d: &Design,
    s: &mut Store,
    o: ObjId,
    e: ExprId,
    made: &mut Vec<Made>,
) -> Result<(), NoMemory>
    requires { fits_force d.now.objects (length d.now.exprs) o e ≡ true }
    ensures contents { s.new ≡ with_assign d.now o e s.old }
    ensures made { OnOk result (made.new.items
        ≡ made.old.items ++ shown_made o s.old (with_assign d.now o e s.old)) }
    ensures time { s.new.time ≡ s.old.time }
{
    let v = value_for(d, s, o, e);
    let change = s.assign(o, &v, e);
    note_change(made, o, change)?;
    Ok(())
}

/// `deassign`: the procedural assign of a variable ends.
pub fn deassign_object(s: &mut Store, o: ObjId, made: &mut Vec<Made>) -> Result<(), NoMemory>
    ensures contents { s.new ≡ deassigned o s.old }
    ensures made { OnOk result (made.new.items
        ≡ made.old.items ++ shown_made o s.old (deassigned o s.old)) }
    ensures time { s.new.time ≡ s.old.time }
{
    let change = s.deassign(o);
    note_change(made, o, change)?;
    Ok(())
}

/// The expression that the force of an object follows, or its procedural assign; none where none is
/// in force, or where a put gave the value.
pub fn expr_of(s: &Store, force: bool, o: ObjId) -> Option<ExprId>
    ensures { result ≡ expr_of force s.now o }
{
    if force { s.force_of(o) } else { s.assign_of(o) }
}

// May an object take the value of an expression?
fn fits_force(d: &Design, o: ObjId, e: ExprId) -> bool
    ensures { result ≡ fits_force d.now.objects (length d.now.exprs) o e }
{
    let counts = d.counts();
    o.number() < counts.objects && d.object(o).kind.is_forcible() && e.number() < counts.exprs
}

// A force takes the present value of its expression, which isn't told as a force.
fn force_anew(
    d: &Design,
    s: &mut Store,
    o: ObjId,
    e: ExprId,
    made: &mut Vec<Made>,
) -> Result<(), NoMemory>
    requires { fits_force d.now.objects (length d.now.exprs) o e ≡ true }
    ensures contents { s.new ≡ with_force d.now o e s.old }
    ensures made { OnOk result (made.new.items
        ≡ made.old.items ++ shown_made o s.old (with_force d.now o e s.old)) }
    ensures time { s.new.time ≡ s.old.time }
{
    let v = value_for(d, s, o, e);
    let change = s.force(o, &v, Some(e));
    note_change(made, o, change)?;
    Ok(())
}

/// A force or a procedural assign is followed: where one is in force, the object takes the present
/// value of its expression. It is told where the object shows another value.
pub fn follow_object(
    d: &Design,
    s: &mut Store,
    force: bool,
    o: ObjId,
    made: &mut Vec<Made>,
) -> Result<(), NoMemory>
    ensures contents { s.new ≡ with_follow force d.now o s.old }
    ensures made { OnOk result
        (made.new.items ≡ made.old.items ++ follow_made force d.now o s.old) }
    ensures time { s.new.time ≡ s.old.time }
{
    let Some(e) = expr_of(s, force, o) else {
        return Ok(());
    };
    if !fits_force(d, o, e) {
        return Ok(());
    }
    if force {
        force_anew(d, s, o, e, made)
    } else {
        assign_object(d, s, o, e, made)
    }
}

ghost use Rattle.std.specs.Prelude.{◌≡◌};
ghost use Rattle.vh_design_nodes.specs.Fits.{has_kind};
ghost use Rattle.vh_design_nodes.specs.Kinds.{is_event, is_disable_target};
ghost use Rattle.vh_ast.specs.Views.{lv_tree, name_tree, sel_tree};
ghost use Rattle.vh_bind.specs.Steps.{Gives};
ghost use Rattle.vh_bind.specs.Scopes.{here};
ghost use Rattle.vh_bind.specs.Views.{scope_seen};
ghost use Rattle.vh_lower.specs.Making.{Makes};
ghost use Rattle.vh_lower.specs.Statements.{meant_object, object_named, named_object, object_of, whole_row, whole_named, whole_looked, whole_object, force_kinds, release_kinds, is_task, task_of};
ghost use Rattle.vh_lower.specs.Views.{Finds};

use crate::added::Maker;
use crate::fault::{LowerFault, Lowered};
use sqlite_items::Boxed;
use std::alloc::Global;
use vh_ast::{Expr, ForceWord, Lv, LvPart, Name, ReleaseWord, Sel};
use vh_base::{DesignFault, ObjId, Place};
use vh_bind::{ElabFault, Readable, Scope, meaning};
use vh_bind_expr::name_read;
use vh_bind_scope::{Meaning, Top};
use vh_bind_stmt::{arguments_of, object_meant};
use vh_design_nodes::{
    ExprNode, Kind, ObjectInfo, is_disable_target_at, is_event_at, is_forcible_at, is_variable_at,
};

// It, or else the name's fault.
pub(crate) fn meant_object(place: Place, object: Option<ObjId>) -> Result<Option<ObjId>, ElabFault>
    ensures { Gives (meant_object place object) result }
{
    match object {
        None => Err(ElabFault::Refused(DesignFault::N1, place)),
        Some(object) => Ok(Some(object)),
    }
}

// The object of what is meant.
fn object_named(place: Place, meaning: Option<Meaning>) -> Result<Option<ObjId>, ElabFault>
    ensures { Gives (object_named place meaning) result }
{
    let Some(meaning) = meaning else {
        return Ok(None);
    };
    meant_object(place, object_meant(meaning))
}

// The object that a name stands for.
pub(crate) fn named_object(maker: &Maker, is_call: bool, name: &Name<Expr>) -> Lowered<ObjId>
    ensures { Finds (λ s a. Makes (named_object s is_call (name_tree name.now) a))
        maker.now result }
{
    let scope = maker.around.scope;
    let here = Scope {
        names: scope.names,
        around: scope.around,
        top: Top {
            id: scope.top.id,
            name: scope.top.name,
        },
        genvars: scope.genvars,
        objects: scope.objects,
        exprs: &maker.added.exprs,
        routines: scope.routines,
        unit: scope.unit,
        precision: scope.precision,
    };
    let meaning = meaning(maker.alloc, &here, name, is_call)?;
    match object_named(name.first.id.place, meaning)? {
        None => Err(LowerFault::PassedOver),
        Some(object) => Ok(object),
    }
}

// A named event.
pub(crate) fn event_of(maker: &Maker, name: &Name<Expr>) -> Lowered<ObjId>
    ensures { Finds (λ s a. Makes (object_of s (name_tree name.now) is_event a)) maker.now result }
{
    let object = named_object(maker, false, name)?;
    if !is_event_at(maker.around.scope.objects, object) {
        return Err(LowerFault::Refused(DesignFault::N1, name.first.id.place));
    }
    Ok(object)
}

// A named block or a task.
pub(crate) fn disable_target_of(maker: &Maker, name: &Name<Expr>) -> Lowered<ObjId>
    ensures { Finds (λ s a. Makes (object_of s (name_tree name.now) is_disable_target a))
        maker.now result }
{
    let object = named_object(maker, false, name)?;
    if !is_disable_target_at(maker.around.scope.objects, object) {
        return Err(LowerFault::Refused(DesignFault::N1, name.first.id.place));
    }
    Ok(object)
}

// What stands whole under a name.
fn whole_row(
    place: Place,
    sel: &Option<Boxed<Sel<Expr>>>,
    readable: Readable,
) -> Result<Option<ObjId>, ElabFault>
    ensures { Gives (whole_row place (sel_tree sel.now) readable) result }
{
    match readable {
        Readable::Wrong | Readable::Genvar(_) => Err(ElabFault::Refused(DesignFault::N1, place)),
        Readable::Unknown => Ok(None),
        Readable::Parameter(_, _, _) | Readable::Memory(_, _) => {
            Err(ElabFault::Refused(DesignFault::N5, place))
        }
        Readable::Vector(object, _) => {
            if sel.is_some() {
                return Err(ElabFault::Refused(DesignFault::N5, place));
            }
            Ok(Some(object))
        }
    }
}

// What a target names, which is whole.
fn whole_parts(
    alloc: Global,
    scope: &Scope,
    nodes: &[ExprNode],
    target: &Lv,
) -> Result<Option<ObjId>, ElabFault>
    ensures { Gives (whole_named (here (scope_seen scope.now) nodes.now) (lv_tree target.now))
        result }
{
    let place = target.place;
    let Some(LvPart::Name(name, sel)) = target.parts.as_slice().first() else {
        return Err(ElabFault::Refused(DesignFault::N5, place));
    };
    let readable = name_read(alloc, scope, nodes, name.get())?;
    whole_row(place, sel, readable)
}

// The same, where it is no fault and isn't passed over.
fn whole_object(maker: &Maker, target: &Lv) -> Lowered<ObjId>
    ensures { Finds (λ s a. Makes (whole_looked s (lv_tree target.now) a)) maker.now result }
{
    match whole_parts(maker.alloc, maker.around.scope, &maker.added.exprs, target)? {
        None => Err(LowerFault::PassedOver),
        Some(object) => Ok(object),
    }
}

// Whether a `force` or an `assign` may have this target.
fn takes_force(objects: &[ObjectInfo], word: ForceWord, object: ObjId) -> bool
    ensures { result ≡ has_kind (force_kinds word) objects.now object }
{
    match word {
        ForceWord::Force => is_forcible_at(objects, object),
        ForceWord::Assign => is_variable_at(objects, object),
    }
}

// Whether a `release` or a `deassign` may.
fn takes_release(objects: &[ObjectInfo], word: ReleaseWord, object: ObjId) -> bool
    ensures { result ≡ has_kind (release_kinds word) objects.now object }
{
    match word {
        ReleaseWord::Release => is_forcible_at(objects, object),
        ReleaseWord::Deassign => is_variable_at(objects, object),
    }
}

// What a `force` or an `assign` changes.
pub(crate) fn forced_of(maker: &Maker, word: ForceWord, target: &Lv) -> Lowered<ObjId>
    ensures { Finds (λ s a. Makes (whole_object s (lv_tree target.now) (force_kinds word) a))
        maker.now result }
{
    let object = whole_object(maker, target)?;
    if !takes_force(maker.around.scope.objects, word, object) {
        return Err(LowerFault::Refused(DesignFault::N5, target.place));
    }
    Ok(object)
}

// What a `release` or a `deassign` changes.
pub(crate) fn released_of(maker: &Maker, word: ReleaseWord, target: &Lv) -> Lowered<ObjId>
    ensures { Finds (λ s a. Makes (whole_object s (lv_tree target.now) (release_kinds word) a))
        maker.now result }
{
    let object = whole_object(maker, target)?;
    if !takes_release(maker.around.scope.objects, word, object) {
        return Err(LowerFault::Refused(DesignFault::N5, target.place));
    }
    Ok(object)
}

// Whether it is a task.
fn is_task_at(objects: &[ObjectInfo], object: ObjId) -> bool
    ensures { result ≡ has_kind is_task objects.now object }
{
    objects
        .get(object.number() as usize)
        .map_or(false, |info| matches!(info.kind, Kind::Task))
}

// The task that is called with so many arguments.
pub(crate) fn task_of(maker: &Maker, name: &Name<Expr>, count: usize) -> Lowered<ObjId>
    ensures { Finds (λ s a. Makes (task_of s (name_tree name.now) count a)) maker.now result }
{
    let place = name.first.id.place;
    let task = named_object(maker, true, name)?;
    if !is_task_at(maker.around.scope.objects, task) {
        return Err(LowerFault::Refused(DesignFault::N1, place));
    }
    if count != arguments_of(maker.around, task).len() {
        return Err(LowerFault::Refused(DesignFault::N7, place));
    }
    Ok(task)
}

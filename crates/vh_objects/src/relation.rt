ghost use Rattle.std.specs.Prelude.{◌≡◌, ◌<◌, length, find, slice_get, IfSome, Some};
ghost use Rattle.std.specs.Option.{option_copied};
ghost use Rattle.vh_design_names.specs.Names.{around, scope_at, scopes_of};
ghost use Rattle.vh_design_nodes.specs.Fits.{has_kind, is_address};
ghost use Rattle.vh_objects.specs.Kinds.{is_module};
ghost use Rattle.vh_objects.specs.Objects.{has_object, info_at, object_kind, kind_of};
ghost use Rattle.vh_objects.specs.Relations.{module_of, leads_to, parent_of, one_from, one_from_there, one};

use crate::found::Found;
use crate::kind::ObjectKind;
use crate::kinds::is_module;
use vh_base::{ObjId, Object, Relation};
use vh_design::{Design, Detail, Kind, ObjectInfo};

// Has a memory a word at this address?
fn is_address(info: &ObjectInfo, at: u32) -> bool
    ensures { result ≡ is_address info.now at }
{
    let lowest = match info.detail {
        Detail::Memory(lowest) => lowest,
        _ => 0,
    };
    lowest <= at && at - lowest < info.words
}

// Is it the object itself, or one of its words?
fn has_object(info: &ObjectInfo, word: Option<u32>) -> bool
    ensures { result ≡ has_object info.now word }
{
    match word {
        None => true,
        Some(at) => info.kind.is_memory() && is_address(info, at),
    }
}

// What the design has at a number.
pub(crate) fn object_at(d: &Design, id: ObjId) -> Option<&ObjectInfo>
    ensures value { option_copied result ≡ slice_get d.now.objects id }
    ensures inside { IfSome result (λ i. id < length d.now.objects) }
    ensures scope { IfSome result (λ i. IfSome i.now.parent (λ s. s < id)) }
{
    if id.number() >= d.counts().objects {
        return None;
    }
    Some(d.object(id))
}

/// What the design holds of an object; of a word it is that of its memory. Nothing where there is
/// no such object.
pub fn info_at<'a>(d: &'a Design, o: &Object) -> Option<&'a ObjectInfo>
    ensures value { option_copied result ≡ info_at d.now.objects o.now }
    ensures there { IfSome result (λ i. slice_get d.now.objects o.now.id ≡ Some i.now) }
    ensures inside { IfSome result (λ i. o.now.id < length d.now.objects) }
    ensures scope { IfSome result (λ i. IfSome i.now.parent (λ s. s < length d.now.objects)) }
{
    let Some(info) = object_at(d, o.id) else {
        return None;
    };
    if !has_object(info, o.word) {
        return None;
    }
    Some(info)
}

// What an object of a kind of the design is, or a word of it.
pub(crate) fn object_kind(kind: Kind, word: Option<u32>) -> ObjectKind
    ensures { result ≡ object_kind kind word }
{
    match word {
        None => ObjectKind::Of(kind),
        Some(_) => ObjectKind::Word,
    }
}

/// What an object is, if there is one.
pub fn kind_of(d: &Design, o: &Object) -> Option<ObjectKind>
    ensures { result ≡ kind_of d.now.objects o.now }
{
    let Some(info) = info_at(d, o) else {
        return None;
    };
    Some(object_kind(info.kind, o.word))
}

// The innermost module of a scope and those around it: a step a scope.
fn module_from(d: &Design, scope: Option<ObjId>) -> Option<ObjId>
    requires { IfSome scope (λ s. s < length d.now.objects) }
    ensures { result ≡ find (has_kind is_module d.now.objects)
        (around (scopes_of d.now.objects) scope) }
{
    let mut next = scope;
    while let Some(scope) = next {
        let info = d.object(scope);
        if is_module(info.kind) {
            return Some(scope);
        }
        next = info.parent;
    }
    None
}

// An object, or null.
fn leads_to(o: Option<ObjId>) -> Found
    ensures { result ≡ leads_to o }
{
    match o {
        None => Found::None,
        Some(id) => Found::Object(Object { id, word: None }),
    }
}

// The memory of a word.
fn parent_of(o: &Object) -> Found
    ensures { result ≡ parent_of o.now }
{
    match o.word {
        None => Found::NoRelation,
        Some(_) => leads_to(Some(o.id)),
    }
}

/// The one object that a relation leads to from an object, or from null (IEEE 1364-2005, 26.6). It
/// takes a step for each scope between an object and its module.
pub fn one(d: &Design, r: Relation, o: Option<Object>) -> Found
    ensures { result ≡ one d.now.objects r o }
{
    match o {
        None => Found::NoRelation,
        Some(o) => one_from_there(d, r, &o),
    }
}

// The same from an object, where there is one.
fn one_from_there(d: &Design, r: Relation, o: &Object) -> Found
    ensures { result ≡ one_from_there d.now.objects r o.now }
{
    let Some(info) = info_at(d, o) else {
        return Found::NoRelation;
    };
    one_from(d, r, o, info.parent)
}

// The same from an object that is there, with its scope.
fn one_from(d: &Design, r: Relation, o: &Object, scope: Option<ObjId>) -> Found
    requires there { scope ≡ scope_at d.now.objects o.now.id }
    requires inside { IfSome scope (λ s. s < length d.now.objects) }
    ensures { result ≡ one_from d.now.objects r o.now }
{
    match r {
        Relation::VpiModule => leads_to(module_from(d, scope)),
        Relation::VpiScope => leads_to(scope),
        Relation::VpiParent => parent_of(o),
        Relation::VpiSysTfCall
        | Relation::VpiInternalScope
        | Relation::VpiNet
        | Relation::VpiPort
        | Relation::VpiContAssign
        | Relation::VpiProcess
        | Relation::VpiReg
        | Relation::VpiVariables
        | Relation::VpiMemory
        | Relation::VpiParameter
        | Relation::VpiNamedEvent
        | Relation::VpiMemoryWord
        | Relation::VpiArgument => Found::NoRelation,
    }
}

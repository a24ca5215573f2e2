ghost use Rattle.std.specs.Prelude.{◌≡◌, ◌<◌, length, slice_get, IfOk, Some};
ghost use Rattle.vh_objects_names.specs.NameLaw.{IsNamed};
ghost use Rattle.vh_objects_names.specs.Paths.{meant_word, meant_by, meant_at, meant, by_name};

use crate::addresses::word_named;
use crate::paths::path_below;
use std::alloc::Global;
use vh_base::{NoMemory, ObjId, Object};
use vh_design::{Design, ObjectInfo, design_laws, lowest_of};
use vh_objects::{count_from, has_path};

// The word that a text means, of the memory of a path.
fn meant_word(text: &[u8], path: &[u8], id: ObjId, info: &ObjectInfo) -> Option<Object>
    ensures { result ≡ meant_word text.now path.now id info.now }
{
    if !info.kind.is_memory() {
        return None;
    }
    let lowest = lowest_of(&info.detail);
    let Some(at) = word_named(text, path, lowest, count_from(lowest, info.words)) else {
        return None;
    };
    Some(Object { id, word: Some(at) })
}

// What a text means of the object of a path.
fn meant_by(text: &[u8], id: ObjId, info: &ObjectInfo, path: &[u8]) -> Option<Object>
    ensures { result ≡ meant_by text.now id info.now path.now }
{
    if text == path {
        return Some(Object { id, word: None });
    }
    meant_word(text, path, id, info)
}

// What a text means below a scope, of the object of a number.
fn meant(
    alloc: Global,
    d: &Design,
    scope: &Option<ObjId>,
    text: &[u8],
    id: ObjId,
) -> Result<Option<Object>, NoMemory>
    requires { id < length d.now.objects }
    ensures { IfOk result (λ o. o ≡ meant d.now.objects scope.now text.now id) }
{
    let info = d.object(id);
    if !has_path(info.kind) {
        return Ok(None);
    }
    let Some(path) = path_below(alloc, d, scope, id)? else {
        return Ok(None);
    };
    Ok(meant_by(text, id, info, path.as_slice()))
}

/// The object whose path below a scope, or whose full name below null, a text is: that of the least number
/// of several (IEEE 1364-2005, 12.5 and 27.20). It goes over the objects up to the one that it finds.
pub fn by_name(
    alloc: Global,
    d: &Design,
    scope: Option<ObjId>,
    text: &[u8],
) -> Result<Option<Object>, NoMemory>
    ensures value { IfOk result (λ o. o ≡ by_name d.now.objects scope text.now) }
    ensures law { IfOk result (λ o. IsNamed d.now.objects scope text.now o) }
{
    design_laws();
    for k in 0..d.counts().objects {
        let found = meant(alloc, d, &scope, text, ObjId::new(k))?;
        if found.is_some() {
            return Ok(found);
        }
    }
    Ok(None)
}

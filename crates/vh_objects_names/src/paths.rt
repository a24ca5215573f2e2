ghost use Rattle.std.specs.Prelude.{◌≡◌, ◌<◌, ◌++◌, length, All, IfOk, IfSome, OnOk, Some};
ghost use Rattle.std.specs.Option.{option_map};
ghost use Rattle.vh_design_names.specs.Names.{dotted};
ghost use Rattle.vh_objects.specs.Relations.{same_scope};
ghost use Rattle.vh_objects_names.specs.Paths.{objects_to, path_below};

use std::alloc::Global;
use vh_base::{Bytes, NoMemory, ObjId};
use vh_design::Design;

// Is it the same scope, or none both times?
fn same_scope(a: &Option<ObjId>, b: &Option<ObjId>) -> bool
    ensures { result ≡ same_scope a.now b.now }
{
    match (a, b) {
        (None, None) => true,
        (None, Some(_)) | (Some(_), None) => false,
        (Some(s), Some(p)) => s.number() == p.number(),
    }
}

// An object with those between it and the scope below which it lies, from the inside out.
fn objects_to(
    alloc: Global,
    d: &Design,
    scope: &Option<ObjId>,
    o: ObjId,
) -> Result<Option<Vec<ObjId>>, NoMemory>
    requires { o < length d.now.objects }
    ensures objects { IfOk result (λ found. option_map (λ v. v.items) found
        ≡ objects_to d.now.objects scope.now o) }
    ensures there { IfOk result (λ found. IfSome found (λ v. All (λ p. p < length d.now.objects)
        v.items)) }
{
    let mut objects = Vec::new(alloc);
    let mut next = Some(o);
    while let Some(o) = next {
        objects.push(o)?;
        let info = d.object(o);
        if same_scope(scope, &info.parent) {
            return Ok(Some(objects));
        }
        next = info.parent;
    }
    Ok(None)
}

// Their names with dots, the last first.
fn push_names(name: &mut Vec<u8>, d: &Design, scopes: &[ObjId]) -> Result<(), NoMemory>
    requires { All (λ p. p < length (d.now).objects) scopes.now }
    ensures { OnOk result (name.new.items ≡ name.old.items ++ dotted (d.now).objects scopes.now) }
{
    for i in (0..scopes.len()).rev() {
        if i + 1 < scopes.len() {
            name.push(b'.')?;
        }
        name.extend_from_slice(d.object(scopes[i]).name.as_slice())?;
    }
    Ok(())
}

// The path of an object below a scope, if it lies there. It takes time in the length of the path.
pub(crate) fn path_below(
    alloc: Global,
    d: &Design,
    scope: &Option<ObjId>,
    o: ObjId,
) -> Result<Option<Bytes>, NoMemory>
    requires { o < length d.now.objects }
    ensures { IfOk result (λ path. path ≡ path_below d.now.objects scope.now o) }
{
    let Some(objects) = objects_to(alloc, d, scope, o)? else {
        return Ok(None);
    };
    let mut path = Vec::new(alloc);
    push_names(&mut path, d, objects.as_slice())?;
    Ok(Some(Bytes::new(path)))
}

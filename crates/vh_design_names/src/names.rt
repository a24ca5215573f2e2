ghost use Rattle.std.specs.Prelude.{◌≡◌, ◌<◌, ◌++◌, length, IfOk, OnOk, All};
ghost use Rattle.vh_design_names.specs.Names.{scopes_of, dotted, full_name};

use std::alloc::Global;
use vh_base::{Bytes, NoMemory, ObjId};
use vh_design::Design;

/// The full name of an object: its scopes' names and its own, the outermost first, with dots
/// (IEEE 1364-2005, 12.4). It takes time in the length of the name.
pub fn full_name(alloc: Global, d: &Design, o: ObjId) -> Result<Bytes, NoMemory>
    requires { o < length (d.now).objects }
    ensures { IfOk result (λ name. name ≡ full_name (d.now).objects o) }
{
    let scopes = scopes_of(alloc, d, o)?;
    let mut name = Vec::new(alloc);
    push_names(&mut name, d, &scopes)?;
    Ok(Bytes::new(name))
}

// An object with the scopes around it, from the inside out.
fn scopes_of(alloc: Global, d: &Design, o: ObjId) -> Result<Vec<ObjId>, NoMemory>
    requires { o < length (d.now).objects }
    ensures names { IfOk result (λ v. v.items ≡ scopes_of (d.now).objects o) }
    ensures there { IfOk result (λ v. All (λ p. p < length (d.now).objects) v.items) }
{
    let mut scopes = Vec::new(alloc);
    let mut next = Some(o);
    while let Some(scope) = next {
        scopes.push(scope)?;
        next = d.object(scope).parent;
    }
    Ok(scopes)
}

// Their names with dots, the last first.
fn push_names(name: &mut Vec<u8>, d: &Design, scopes: &[ObjId]) -> Result<(), NoMemory>
    requires { All (λ p. p < length (d.now).objects) scopes.now }
    ensures { OnOk result (name.new.items ≡ name.old.items ++ dotted (d.now).objects scopes.now) }
{
    for i in (0..scopes.len()).rev() {
        if i + 1 < scopes.len() {
            name.push(b'.')?;
        }
        name.extend_from_slice(d.object(scopes[i]).name.as_slice())?;
    }
    Ok(())
}

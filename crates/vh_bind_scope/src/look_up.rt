ghost use Rattle.std.specs.Prelude.{◌≡◌, IfOk};
ghost use Rattle.vh_bind_scope.specs.Names.{meaning_in};
ghost use Rattle.vh_bind_scope.specs.LookUp.{found, scope_found, without_result, block_name, indexed, object_meant, found_inside, top_named, first_found};

use crate::names::{Meaning, Names};
use std::alloc::Global;
use vh_base::{NoMemory, ObjId};
use vh_design_nodes::Range;

/// A declaration that a look-up has found: its scope, and what it stands for.
#[derive(Clone, Copy, Debug, PartialEq, Eq)]
pub struct Declaration {
    pub scope: ObjId,
    pub meaning: Meaning,
}

/// The top of a design: its object, and its name.
#[derive(Clone, Copy)]
pub struct Top<'a> {
    pub id: ObjId,
    pub name: &'a [u8],
}

/// What a name stands for in the innermost of these scopes that declares it (IEEE 1364-2005, 12.7).
/// `around` has the scopes from the inside out.
pub fn found(names: &Names, around: &[ObjId], name: &[u8]) -> Option<Declaration>
    ensures { result ≡ found names.now around.now name.now }
{
    for scope in around {
        if let Some(meaning) = names.meaning(*scope, name) {
            return Some(Declaration {
                scope: *scope,
                meaning,
            });
        }
    }
    None
}

/// The same, but that a function's name stands for the function and not for its result, as in a call
/// and before a dot.
pub fn found_scope(names: &Names, around: &[ObjId], name: &[u8]) -> Option<Declaration>
    ensures { result ≡ scope_found names.now around.now name.now }
{
    for scope in around {
        if let Some(meaning) = without_result(names.meaning(*scope, name)) {
            return Some(Declaration {
                scope: *scope,
                meaning,
            });
        }
    }
    None
}

// What a name stands for where a function's result is passed over.
fn without_result(meaning: Option<Meaning>) -> Option<Meaning>
    ensures { result ≡ without_result meaning }
{
    match meaning {
        Some(Meaning::Result { .. }) => None,
        other => other,
    }
}

// What the block of a loop with this index is called.
fn block_name(alloc: Global, name: &[u8], index: i128) -> Result<Vec<u8>, NoMemory>
    ensures { IfOk result (λ v. v.items ≡ block_name name.now index) }
{
    let mut called = Vec::from_slice(alloc, name)?;
    let digits = format!(in alloc; "[{index}]")?;
    called.extend_from_slice(digits.as_bytes())?;
    Ok(called)
}

// What a name with an index stands for: a block of a loop.
fn block(
    alloc: Global,
    names: &Names,
    scope: ObjId,
    name: &[u8],
    index: i128,
) -> Result<Option<Meaning>, NoMemory>
    ensures { IfOk result (λ m. m ≡ meaning_in names.now scope (block_name name.now index)) }
{
    let name = block_name(alloc, name, index)?;
    Ok(names.meaning(scope, &name))
}

/// What a declared name stands for with the index behind it, or without one: a loop of generate blocks
/// with an index stands for its block (IEEE 1364-2005, 12.5). Want of memory is the free answer.
pub fn indexed(
    alloc: Global,
    names: &Names,
    declaration: Declaration,
    name: &[u8],
    index: Option<i128>,
) -> Result<Option<Meaning>, NoMemory>
    ensures { IfOk result (λ m. m ≡ indexed names.now declaration name.now index) }
{
    match index {
        None => Ok(Some(declaration.meaning)),
        Some(index) => match declaration.meaning {
            Meaning::Blocks => block(alloc, names, declaration.scope, name, index),
            Meaning::Object { .. } | Meaning::Result { .. } | Meaning::Genvar | Meaning::Gate => {
                Ok(None)
            }
        },
    }
}

/// The declaration of a path's first part: the innermost of its name, or else the top's by its own
/// name (IEEE 1364-2005, 12.5).
pub fn found_first(names: &Names, around: &[ObjId], top: &Top, name: &[u8]) -> Option<Declaration>
    ensures { result ≡ first_found names.now around.now top.now.id top.now.name.now name.now }
{
    match found_scope(names, around, name) {
        Some(declaration) => Some(declaration),
        None => top_named(top, name),
    }
}

// The top, where this is its name.
fn top_named(top: &Top, name: &[u8]) -> Option<Declaration>
    ensures { result ≡ top_named top.now.id top.now.name.now name.now }
{
    if name != top.name {
        return None;
    }
    let range = Range { left: 0, right: 0 };
    Some(Declaration {
        scope: top.id,
        meaning: Meaning::Object { id: top.id, range },
    })
}

/// The declaration of a path's further part in what the parts before it stand for: only a scope has
/// names inside it (IEEE 1364-2005, 12.5).
pub fn found_inside(names: &Names, before: Meaning, name: &[u8]) -> Option<Declaration>
    ensures { result ≡ found_inside names.now before name.now }
{
    let scope = object_meant(before)?;
    let meaning = names.meaning(scope, name)?;
    Some(Declaration { scope, meaning })
}

// The object that is meant before a dot.
fn object_meant(meaning: Meaning) -> Option<ObjId>
    ensures { result ≡ object_meant meaning }
{
    match meaning {
        Meaning::Object { id, .. } => Some(id),
        Meaning::Result { .. } | Meaning::Genvar | Meaning::Blocks | Meaning::Gate => None,
    }
}

ghost use Rattle.std.specs.Prelude.{◌≡◌, map};
ghost use Rattle.vh_ast.specs.Expressions.{steps};
ghost use Rattle.vh_ast.specs.Views.{expr_tree, name_tree, index_by, step_by};
ghost use Rattle.vh_bind.specs.Steps.{Gives};
ghost use Rattle.vh_bind.specs.Paths.{is_blocks, meant, block_meant, alone_meant};
ghost use Rattle.vh_bind.specs.Constants.{part_meant, path_meant, name_meant};
ghost use Rattle.vh_bind.specs.Views.{scope_seen};

use crate::binding::constant;
use crate::fault::ElabFault;
use crate::scope::Scope;
use std::alloc::Global;
use vh_ast::{Expr, Id, Name, Step};
use vh_base::{DesignFault, Place};
use vh_bind_scope::{Declaration, Meaning, found, found_first, found_inside, found_scope, indexed};
use vh_eval::integer;

// Whether it is the name of a loop of generate blocks.
fn is_blocks(meaning: Meaning) -> bool
    ensures { result ≡ is_blocks meaning }
{
    match meaning {
        Meaning::Blocks => true,
        Meaning::Object { .. } | Meaning::Result { .. } | Meaning::Genvar | Meaning::Gate => false,
    }
}

// What is there, or else the fault of the name.
fn meant(place: Place, meaning: Option<Meaning>) -> Result<Option<Meaning>, ElabFault>
    ensures { Gives (meant place meaning) result }
{
    match meaning {
        None => Err(ElabFault::Refused(DesignFault::N1, place)),
        Some(meaning) => Ok(Some(meaning)),
    }
}

// The block of a loop by an index.
fn block_meant(
    alloc: Global,
    scope: &Scope,
    place: Place,
    declaration: Declaration,
    name: &[u8],
    index: Option<i128>,
) -> Result<Option<Meaning>, ElabFault>
    ensures { Gives (block_meant (scope_seen scope.now) place declaration name.now index) result }
{
    if index.is_none() {
        return Err(ElabFault::Refused(DesignFault::N1, place));
    }
    let meaning = indexed(alloc, scope.names, declaration, name, index)?;
    meant(place, meaning)
}

// A part that is declared so, with the index behind it.
fn part_meant(
    alloc: Global,
    scope: &Scope,
    place: Place,
    declaration: Option<Declaration>,
    part: &Step<Expr>,
) -> Result<Option<Meaning>, ElabFault>
    ensures { Gives
        (part_meant (scope_seen scope.now) place declaration part.now.id.name
        (index_by expr_tree part.now.index))
        result }
{
    let Some(declaration) = declaration else {
        return Err(ElabFault::Refused(DesignFault::N1, place));
    };
    let Some(index) = &part.index else {
        return Ok(Some(declaration.meaning));
    };
    if !is_blocks(declaration.meaning) {
        return Err(ElabFault::Refused(DesignFault::N1, place));
    }
    let Some(value) = constant(alloc, scope, index.get(), 0)? else {
        return Ok(None);
    };
    let name = part.id.name.as_slice();
    block_meant(alloc, scope, place, declaration, name, integer(&value))
}

// A path, from its first part on.
fn path_meant(alloc: Global, scope: &Scope, name: &Name<Expr>) -> Result<Option<Meaning>, ElabFault>
    ensures { Gives
        (path_meant (scope_seen scope.now) name.now.first.id
        (index_by expr_tree name.now.first.index)
        (steps (map (step_by expr_tree) name.now.more))) result }
{
    let place = name.first.id.place;
    let first = name.first.id.name.as_slice();
    let declaration = found_first(scope.names, scope.around, &scope.top, first);
    let mut meaning = part_meant(alloc, scope, place, declaration, &name.first)?;
    for step in name.more.as_slice() {
        let Some(before) = meaning else {
            return Ok(None);
        };
        let declaration = found_inside(scope.names, before, step.id.name.as_slice());
        meaning = part_meant(alloc, scope, place, declaration, step)?;
    }
    Ok(meaning)
}

// A name alone.
fn alone_meant(scope: &Scope, call: bool, id: &Id) -> Result<Option<Meaning>, ElabFault>
    ensures { Gives (alone_meant (scope_seen scope.now) call id.now) result }
{
    let name = id.name.as_slice();
    let declaration = if call {
        found_scope(scope.names, scope.around, name)
    } else {
        found(scope.names, scope.around, name)
    };
    match declaration {
        None => Err(ElabFault::Refused(DesignFault::N1, id.place)),
        Some(declaration) => Ok(Some(declaration.meaning)),
    }
}

/// What a name or a path stands for (IEEE 1364-2005, 12.5 to 12.7): in a call, and before a dot, a
/// function's name stands for the function, elsewhere for its result. None where the index of a generate
/// block needs a parameter that has no value yet. An error is the first fault, or want of memory.
pub fn meaning(
    alloc: Global,
    scope: &Scope,
    name: &Name<Expr>,
    call: bool,
) -> Result<Option<Meaning>, ElabFault>
    ensures { Gives (name_meant (scope_seen scope.now) call (name_tree name.now)) result }
{
    if name.first.index.is_none() && name.more.is_empty() {
        return alone_meant(scope, call, &name.first.id);
    }
    path_meant(alloc, scope, name)
}

ghost use Rattle.std.specs.Prelude.{◌≡◌, false, true, map, IfOk};
ghost use Rattle.vh_ast.specs.Expressions.{exprs};
ghost use Rattle.vh_ast.specs.Views.{expr_tree, name_tree, sel_tree};
ghost use Rattle.vh_bind.specs.Steps.{Gives};
ghost use Rattle.vh_bind.specs.Scopes.{here};
ghost use Rattle.vh_bind.specs.Constants.{called, count_of, function_called, genvar_bounded, name_meant, name_read, path_outcome, sel_value};
ghost use Rattle.vh_bind.specs.Views.{scope_seen};
ghost use Rattle.vh_bind_expr.specs.Kinds.{IsReadable, IsCallable};
ghost use Rattle.vh_bind_expr.specs.Rows.{constant_at};

use crate::functions::{directions_of, function_meant};
use sqlite_items::{Boxed, Items};
use std::alloc::Global;
use vh_ast::{Expr, Name, Sel};
use vh_base::{DesignFault, Place};
use vh_bind::{
    Bounded, ElabFault, Function, Readable, Scope, alone_read, constant, meaning, path_read,
    sel_value,
};
use vh_bind_scope::Top;
use vh_design_nodes::{ExprNode, Range};
use vh_logic::Vec4;

/// A constant in an expression, in its own width: parameters have their values in `nodes`.
pub fn constant_at(
    alloc: Global,
    scope: &Scope,
    nodes: &[ExprNode],
    e: &Expr,
) -> Result<Option<Vec4>, ElabFault>
    ensures { Gives
        (constant_at (scope_seen scope.now) nodes.now (expr_tree e.now)) result }
{
    let here = Scope {
        names: scope.names,
        around: scope.around,
        top: Top {
            id: scope.top.id,
            name: scope.top.name,
        },
        genvars: scope.genvars,
        objects: scope.objects,
        exprs: nodes,
        routines: scope.routines,
        unit: scope.unit,
        precision: scope.precision,
    };
    constant(alloc, &here, e, 0)
}

// What is read under what a path names.
fn path_named(alloc: Global, here: &Scope, name: &Name<Expr>) -> Result<Readable, ElabFault>
    ensures readable { Gives
        (path_outcome (scope_seen here.now)
        (name_meant (scope_seen here.now) false (name_tree name.now))) result }
    ensures kind { IfOk result (λ r. IsReadable (scope_seen here.now).objects r) }
{
    let meaning = meaning(alloc, here, name, false)?;
    Ok(path_read(here, meaning))
}

/// What a name or a path stands for.
pub fn name_read(
    alloc: Global,
    scope: &Scope,
    nodes: &[ExprNode],
    name: &Name<Expr>,
) -> Result<Readable, ElabFault>
    ensures readable { Gives
        (name_read (here (scope_seen scope.now) nodes.now) (name_tree name.now)) result }
    ensures kind { IfOk result (λ r. IsReadable (scope_seen scope.now).objects r) }
{
    let here = Scope {
        names: scope.names,
        around: scope.around,
        top: Top {
            id: scope.top.id,
            name: scope.top.name,
        },
        genvars: scope.genvars,
        objects: scope.objects,
        exprs: nodes,
        routines: scope.routines,
        unit: scope.unit,
        precision: scope.precision,
    };
    if name.first.index.is_none() && name.more.is_empty() {
        return Ok(alone_read(&here, name.first.id.name.as_slice()));
    }
    path_named(alloc, &here, name)
}

// The digits of a genvar.
fn genvar_bounded(value: Vec4) -> Option<Bounded>
    ensures { result ≡ genvar_bounded value }
{
    Some((Range { left: 31, right: 0 }, value))
}

// What a constant select names of a genvar.
pub(crate) fn genvar_value(
    alloc: Global,
    scope: &Scope,
    place: Place,
    value: Vec4,
    sel: &Option<Boxed<Sel<Expr>>>,
) -> Result<Option<Vec4>, ElabFault>
    ensures { Gives
        (sel_value (scope_seen scope.now) place (genvar_bounded value) (sel_tree sel.now)) result }
{
    sel_value(alloc, scope, place, genvar_bounded(value), sel)
}

// The function that is called, with as many arguments as it declares.
#[tactic(auto, using(crate::proofs::NamesLemmas::counted))]
fn called(
    scope: &Scope,
    place: Place,
    arguments: &Items<Expr>,
    function: Option<Function>,
) -> Result<Option<Function>, ElabFault>
    ensures { Gives
        (called (scope_seen scope.now) place (count_of (exprs (map expr_tree arguments.now)))
        function) result }
{
    let Some(function) = function else {
        return Err(ElabFault::Refused(DesignFault::N1, place));
    };
    if arguments.as_slice().len() != directions_of(scope, function.id).len() {
        return Err(ElabFault::Refused(DesignFault::N7, place));
    }
    Ok(Some(function))
}

// The function that a call names, which has as many arguments as are written.
pub(crate) fn function_called(
    alloc: Global,
    scope: &Scope,
    place: Place,
    name: &Name<Expr>,
    arguments: &Items<Expr>,
) -> Result<Option<Function>, ElabFault>
    ensures called { Gives
        (function_called (scope_seen scope.now) place
        (count_of (exprs (map expr_tree arguments.now)))
        (name_meant (scope_seen scope.now) true (name_tree name.now))) result }
    ensures kinds { IfOk result (λ o. IsCallable (scope_seen scope.now).objects o) }
{
    let Some(meaning) = meaning(alloc, scope, name, true)? else {
        return Ok(None);
    };
    called(scope, place, arguments, function_meant(scope, meaning))
}

ghost use Rattle.std.specs.Prelude.{◌≡◌, slice_get};
ghost use Rattle.vh_store.specs.Opening.{constant_in, literal_at, literal_in};
ghost use Rattle.vh_bind.specs.Scopes.{genvar_value, genvar_named, parameter_named, object_named, there_named, declared_named, named, kind_called, there_called, meaning_called, alone_called};
ghost use Rattle.vh_bind.specs.Views.{scope_seen};

use crate::scope::{Genvar, Scope};
use vh_base::{DesignFault, ExprId, ObjId};
use vh_bind_scope::{Meaning, found};
use vh_design::{Detail, ExprKind, ExprNode, Kind, ObjectInfo, Range};
use vh_logic::Vec4;

// What a name stands for where a constant is needed.
#[derive(Clone, Copy)]
pub(crate) enum Named {
    /// A value, with the bounds of its digits.
    Known(Range, Vec4),
    /// A parameter that has no value.
    Unknown,
    /// Nothing that may stand there.
    Wrong(DesignFault),
}

// The value of a genvar, where it has one.
pub(crate) fn genvar_value(genvars: &[Genvar], scope: ObjId, name: &[u8]) -> Option<Vec4>
    ensures { result ≡ genvar_value genvars.now scope name.now }
{
    for genvar in genvars {
        if scope == genvar.scope && name == genvar.name.as_slice() {
            return Some(genvar.value);
        }
    }
    None
}

fn genvar_named(value: Option<Vec4>) -> Named
    ensures { result ≡ genvar_named value }
{
    match value {
        None => Named::Wrong(DesignFault::N4),
        Some(v) => Named::Known(Range { left: 31, right: 0 }, v),
    }
}

// The number or string that an expression is.
fn literal_at(exprs: &[ExprNode], e: ExprId) -> Option<Vec4>
    ensures { result ≡ literal_at (slice_get exprs.now e) }
{
    match &exprs.get(e.number() as usize)?.kind {
        ExprKind::Literal(v) => Some(*v),
        _ => None,
    }
}

// The value of a parameter.
pub(crate) fn constant_in(exprs: &[ExprNode], detail: &Detail) -> Option<Vec4>
    ensures { result ≡ constant_in exprs.now detail.now }
{
    match detail {
        Detail::Value(e) => literal_at(exprs, *e),
        Detail::Plain
        | Detail::Net(_)
        | Detail::Port { .. }
        | Detail::Module(_)
        | Detail::Memory(_)
        | Detail::Call { .. }
        | Detail::Routine(_) => None,
    }
}

fn parameter_named(range: Range, value: Option<Vec4>) -> Named
    ensures { result ≡ parameter_named range value }
{
    match value {
        None => Named::Unknown,
        Some(v) => Named::Known(range, v),
    }
}

fn object_named(exprs: &[ExprNode], range: Range, object: &ObjectInfo) -> Named
    ensures { result ≡ object_named exprs.now range object.now.detail object.now.kind }
{
    match object.kind {
        Kind::Parameter => parameter_named(range, constant_in(exprs, &object.detail)),
        Kind::Net
        | Kind::Reg
        | Kind::IntegerVar
        | Kind::TimeVar
        | Kind::Memory
        | Kind::NamedEvent => Named::Wrong(DesignFault::N4),
        Kind::Module
        | Kind::GenScope
        | Kind::NamedBegin
        | Kind::NamedFork
        | Kind::Task
        | Kind::Function
        | Kind::Port
        | Kind::Initial
        | Kind::Always
        | Kind::ContAssign
        | Kind::SysTaskCall
        | Kind::SysFuncCall
        | Kind::Constant
        | Kind::Operation => Named::Wrong(DesignFault::N1),
    }
}

fn there_named(scope: &Scope, range: Range, id: ObjId) -> Named
    ensures { result ≡ there_named (scope_seen scope.now).exprs range
        (slice_get (scope_seen scope.now).objects id) }
{
    match scope.objects.get(id.number() as usize) {
        None => Named::Wrong(DesignFault::N1),
        Some(object) => object_named(scope.exprs, range, object),
    }
}

fn declared_named(scope: &Scope, name: &[u8], at: ObjId, meaning: Meaning) -> Named
    ensures { result ≡ declared_named (scope_seen scope.now) name.now at meaning }
{
    match meaning {
        Meaning::Object { id, range } => there_named(scope, range, id),
        Meaning::Result { .. } => Named::Wrong(DesignFault::N4),
        Meaning::Genvar => genvar_named(genvar_value(scope.genvars, at, name)),
        Meaning::Blocks | Meaning::Gate => Named::Wrong(DesignFault::N1),
    }
}

// What a name stands for where a constant is needed: that of its innermost declaration.
pub(crate) fn look_up(scope: &Scope, name: &[u8]) -> Named
    ensures { result ≡ named (scope_seen scope.now) name.now }
{
    match found(scope.names, scope.around, name) {
        None => Named::Wrong(DesignFault::N1),
        Some(declaration) => { declared_named(scope, name, declaration.scope, declaration.meaning) }
    }
}

fn kind_called(kind: Kind) -> DesignFault
    ensures { result ≡ kind_called kind }
{
    match kind {
        Kind::Function => DesignFault::N4,
        _ => DesignFault::N1,
    }
}

fn there_called(scope: &Scope, id: ObjId) -> DesignFault
    ensures { result ≡ there_called (slice_get (scope_seen scope.now).objects id) }
{
    match scope.objects.get(id.number() as usize) {
        None => DesignFault::N1,
        Some(object) => kind_called(object.kind),
    }
}

fn meaning_called(scope: &Scope, meaning: Meaning) -> DesignFault
    ensures { result ≡ meaning_called (scope_seen scope.now).objects meaning }
{
    match meaning {
        Meaning::Object { id, .. } => there_called(scope, id),
        Meaning::Result { .. } => DesignFault::N4,
        Meaning::Genvar | Meaning::Blocks | Meaning::Gate => DesignFault::N1,
    }
}

// What is wrong with a call of a name alone where a constant is needed.
pub(crate) fn alone_called(scope: &Scope, name: &[u8]) -> DesignFault
    ensures { result ≡ alone_called (scope_seen scope.now) name.now }
{
    match found(scope.names, scope.around, name) {
        None => DesignFault::N1,
        Some(declaration) => meaning_called(scope, declaration.meaning),
    }
}

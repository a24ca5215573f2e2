ghost use Rattle.std.specs.Prelude.{◌≡◌, slice_get};
ghost use Rattle.vh_bind.specs.Objects.{parameter_read, object_read, there_read, genvar_read, meaning_read, alone_read, path_read};
ghost use Rattle.vh_bind.specs.Views.{scope_seen};

use crate::named::{constant_in, genvar_value};
use crate::scope::Scope;
use vh_base::ObjId;
use vh_bind_scope::{Meaning, found};
use vh_design::{ExprNode, Kind, ObjectInfo, Range};
use vh_logic::Vec4;

/// What a name stands for where a value is wanted (IEEE 1364-2005, 5.2).
#[derive(Clone, Copy)]
pub enum Readable {
    /// A net, a variable or a function's result.
    Vector(ObjId, Range),
    /// A memory, whose words are declared so.
    Memory(ObjId, Range),
    /// A parameter with its value.
    Parameter(ObjId, Range, Vec4),
    /// A genvar with its value.
    Genvar(Vec4),
    /// A parameter that has no value.
    Unknown,
    /// Nothing that may stand there.
    Wrong,
}

/// A function of the design, with its result's variable.
#[derive(Clone, Copy)]
pub struct Function {
    pub id: ObjId,
    pub result: ObjId,
}

fn parameter_read(id: ObjId, range: Range, value: Option<Vec4>) -> Readable
    ensures { result ≡ parameter_read id range value }
{
    match value {
        None => Readable::Unknown,
        Some(v) => Readable::Parameter(id, range, v),
    }
}

fn object_read(exprs: &[ExprNode], id: ObjId, range: Range, object: &ObjectInfo) -> Readable
    ensures { result ≡ object_read exprs.now id range object.now.detail object.now.kind }
{
    match object.kind {
        Kind::Parameter => parameter_read(id, range, constant_in(exprs, &object.detail)),
        Kind::Net | Kind::Reg | Kind::IntegerVar | Kind::TimeVar => Readable::Vector(id, range),
        Kind::Memory => Readable::Memory(id, range),
        Kind::Module
        | Kind::GenScope
        | Kind::NamedBegin
        | Kind::NamedFork
        | Kind::Task
        | Kind::Function
        | Kind::Port
        | Kind::NamedEvent
        | Kind::Initial
        | Kind::Always
        | Kind::ContAssign
        | Kind::SysTaskCall
        | Kind::SysFuncCall
        | Kind::Constant
        | Kind::Operation => Readable::Wrong,
    }
}

fn there_read(scope: &Scope, id: ObjId, range: Range) -> Readable
    ensures { result ≡ there_read (scope_seen scope.now).exprs id range
        (slice_get (scope_seen scope.now).objects id) }
{
    match scope.objects.get(id.number() as usize) {
        None => Readable::Wrong,
        Some(object) => object_read(scope.exprs, id, range, object),
    }
}

fn genvar_read(value: Option<Vec4>) -> Readable
    ensures { result ≡ genvar_read value }
{
    match value {
        None => Readable::Wrong,
        Some(v) => Readable::Genvar(v),
    }
}

// What is read under this meaning, with the value of a genvar.
fn meaning_read(scope: &Scope, genvar: Option<Vec4>, meaning: Meaning) -> Readable
    ensures { result ≡ meaning_read (scope_seen scope.now) genvar meaning }
{
    match meaning {
        Meaning::Object { id, range } => there_read(scope, id, range),
        Meaning::Result { id, range } => there_read(scope, id, range),
        Meaning::Genvar => genvar_read(genvar),
        Meaning::Blocks | Meaning::Gate => Readable::Wrong,
    }
}

/// What a name alone stands for where a value is wanted: that of its innermost declaration (IEEE
/// 1364-2005, 12.7).
pub fn alone_read(scope: &Scope, name: &[u8]) -> Readable
    ensures { result ≡ alone_read (scope_seen scope.now) name.now }
{
    match found(scope.names, scope.around, name) {
        None => Readable::Wrong,
        Some(declaration) => {
            let genvar = genvar_value(scope.genvars, declaration.scope, name);
            meaning_read(scope, genvar, declaration.meaning)
        }
    }
}

/// The same of what a path names: a genvar has its value in its own loop alone.
pub fn path_read(scope: &Scope, meaning: Option<Meaning>) -> Readable
    ensures { result ≡ path_read (scope_seen scope.now) meaning }
{
    match meaning {
        None => Readable::Unknown,
        Some(meaning) => meaning_read(scope, None, meaning),
    }
}

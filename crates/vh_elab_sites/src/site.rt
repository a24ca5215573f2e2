ghost use Rattle.std.specs.Prelude.{◌≡◌, None, IfOk, OnOk};
ghost use Rattle.vh_elab_sites.specs.Sites;
ghost use Rattle.vh_elab_sites.specs.Views.{declared_seen, name_seen, sites_seen};

use crate::entries::{BlockName, BlockText};
use sqlite_items::Boxed;
use vh_ast::{
    BlockWord, Conn, DataType, Delay, Direction, Expr, Gate, GateType, Id, Inst, Lv, NetType,
    ParameterWord, Range, Stmt, TaskDirection,
};
use vh_base::{NoMemory, Place};
use vh_bind_scope::Names;

/// The type of a variable or net: as it is written, or one digit where none is.
#[derive(Clone, Copy)]
pub enum VarType<'a> {
    /// With that of the port of its name, if it is one's too (12.3.3).
    Typed(&'a DataType, Option<&'a DataType>),
    OneDigit,
    Integer,
    Time,
}

/// What a statement is that of (IEEE 1364-2005, 9.9 and 10).
#[derive(Clone, Copy, Debug, PartialEq, Eq)]
pub enum CodeWord {
    Initial,
    Always,
    Task,
    Function,
}

/// What a continuous assignment drives (IEEE 1364-2005, 6.1).
#[derive(Clone, Copy)]
pub enum Driven<'a> {
    /// The net of this number, which its declaration assigns to.
    Net(u32),
    Target(&'a Lv),
}

/// What of a type is declared.
#[derive(Clone, Copy)]
pub enum Thing<'a> {
    /// A variable, with its first value if one is written (6.2.1).
    Variable(Option<&'a Expr>),
    /// A function's result, under its name (10.4.2).
    Result,
    Argument(TaskDirection),
    Net(NetType),
    /// A port, with its place in the header from 0 (12.3).
    Port(Direction, u32),
}

/// The value of a genvar, by the scope that declares it.
#[derive(Clone, Copy)]
pub struct GenvarAt<'a> {
    pub scope: u32,
    pub name: &'a [u8],
    pub value: i32,
}

/// What is declared, or made (IEEE 1364-2005, 12.7).
#[derive(Clone, Copy)]
pub enum Declared<'a> {
    Typed(Thing<'a>, VarType<'a>),
    /// A memory, with its addresses (4.9).
    Words(&'a DataType, &'a Range),
    Event,
    /// A parameter, with its type if one is written (4.10).
    Constant(ParameterWord, Option<&'a DataType>, &'a Expr),
    /// A construct, a task or a function, with its statement.
    Code(CodeWord, &'a Stmt),
    Block(BlockWord),
    /// A continuous assignment, with its delay if one is written (6.1).
    Drives(&'a Option<Boxed<Delay>>, Driven<'a>, &'a Expr),
    /// A gate, which is no object (7.1).
    Gate(GateType, &'a Option<Boxed<Delay>>, &'a Gate),
    /// A wire that no declaration makes (4.5).
    Wire,
    /// A generate block, with the value that a genvar has in it (12.4).
    GenBlock(BlockName<'a>, Option<GenvarAt<'a>>),
    /// The name of a loop of generate blocks, which is no object (12.4.1).
    Loop(BlockText<'a>),
    /// A genvar, which is no object (12.4.1).
    Genvar,
    /// An instance of a module, which is an object of its own: what its parameters are given, and
    /// its connections (12.1.2).
    Child(&'a Id, &'a [Conn], &'a Inst),
}

/// A thing that an instance of a module declares, or that is to be made of it.
#[derive(Clone, Copy)]
pub struct Site<'a> {
    /// That of its object, or, where it is none, of the next.
    pub number: u32,
    /// The number of its scope.
    pub scope: u32,
    /// Empty where it has none.
    pub name: &'a [u8],
    /// That of the name, or of the first token where there is none.
    pub place: Place,
    pub declared: Declared<'a>,
}

/// The sites so far, the number of the next object, and the names that are declared or made in the
/// scopes in which items stand.
#[derive(Drop)]
pub struct Listing<'a> {
    pub all: Vec<Site<'a>>,
    pub next: u32,
    pub seen: Names,
}

/// Whether it has a number of its own.
pub fn is_object(declared: Declared) -> bool
    ensures { result ≡ Sites.is_object (declared_seen declared.entry) }
{
    match declared {
        Declared::Gate(_, _, _) | Declared::Genvar | Declared::Loop(_) | Declared::Child(_, _, _) =>
            false,
        Declared::Typed(_, _)
        | Declared::Words(_, _)
        | Declared::Event
        | Declared::Constant(_, _, _)
        | Declared::Code(_, _)
        | Declared::Block(_)
        | Declared::Wire
        | Declared::GenBlock(_, _)
        | Declared::Drives(_, _, _) => true,
    }
}

// The number behind one.
fn behind(declared: Declared, number: u32) -> Result<u32, NoMemory>
    ensures { IfOk result (λ n. n ≡ Sites.behind (declared_seen declared.entry) number) }
{
    if is_object(declared) {
        return number.checked_add(1).ok_or(NoMemory);
    }
    Ok(number)
}

/// One thing more.
pub fn add_site<'a>(
    scope: u32,
    name: &'a [u8],
    place: Place,
    declared: Declared<'a>,
    sites: &mut Listing<'a>,
) -> Result<(), NoMemory>
    ensures { OnOk result (sites_seen sites.new ≡ Sites.with_site scope
        (name_seen name.now (declared_seen declared.entry)) place (declared_seen declared.entry)
        (sites_seen sites.old)) }
{
    let next = behind(declared, sites.next)?;
    sites.all.push(Site {
        number: sites.next,
        scope,
        name,
        place,
        declared,
    })?;
    sites.next = next;
    Ok(())
}

// The same under a name.
pub(crate) fn add_named<'a>(
    scope: u32,
    id: &'a Id,
    declared: Declared<'a>,
    sites: &mut Listing<'a>,
) -> Result<(), NoMemory>
    requires { Sites.generated_name (declared_seen declared) ≡ None }
    ensures { OnOk result (sites_seen sites.new ≡
        Sites.with_named scope id.now (declared_seen declared.entry) (sites_seen sites.old)) }
{
    add_site(scope, id.name.as_slice(), id.place, declared, sites)
}

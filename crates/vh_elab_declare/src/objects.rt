ghost use Rattle.std.specs.Prelude.{◌≡◌, ◌==◌, ◌+◌, ◌-◌, ◌++◌, ◌∷◌, [], length, Some, IfOk, OnOk};
ghost use Rattle.vh_ast.specs.Views.{module_tree};
ghost use Rattle.vh_elab_sites.specs.Sites.{generated_name};
ghost use Rattle.vh_elab_sites.specs.Views.{all_seen, declared_seen, site_seen, thing_seen, var_type_seen};
ghost use Rattle.vh_elab_declare.specs.Objects;
ghost use Rattle.vh_elab_declare.specs.Objects.{each};
ghost use Rattle.vh_elab_declare.specs.Views;

use std::alloc::Global;
use vh_ast::{BlockWord, Direction, Module};
use vh_base::{DesignFault, NoMemory, ObjId, Place};
use vh_bind_least::{Fault, least};
use vh_bind_scope::{Meaning, Names};
use vh_design_nodes::{Detail, Kind, Name, NetType, ObjectInfo, Range};
use vh_elab_sites::{BlockName, CodeWord, Declared, Site, Thing, VarType, block_bytes};

fn var_kind(var_type: VarType) -> Kind
    ensures { result ≡ Objects.var_kind (var_type_seen var_type.entry) }
{
    match var_type {
        VarType::Typed(_, _) | VarType::OneDigit => Kind::Reg,
        VarType::Integer => Kind::IntegerVar,
        VarType::Time => Kind::TimeVar,
    }
}

fn code_kind(word: CodeWord) -> Kind
    ensures { result ≡ Objects.code_kind word }
{
    match word {
        CodeWord::Initial => Kind::Initial,
        CodeWord::Always => Kind::Always,
        CodeWord::Task => Kind::Task,
        CodeWord::Function => Kind::Function,
    }
}

fn block_kind(word: BlockWord) -> Kind
    ensures { result ≡ Objects.block_kind word }
{
    match word {
        BlockWord::Begin => Kind::NamedBegin,
        BlockWord::Fork => Kind::NamedFork,
    }
}

fn thing_kind(thing: Thing, var_type: VarType) -> Kind
    ensures { Some result
        ≡ Objects.kind_of (thing_seen thing.entry (var_type_seen var_type.entry)) }
{
    match thing {
        Thing::Variable(_) | Thing::Result | Thing::Argument(_) => var_kind(var_type),
        Thing::Net(_) => Kind::Net,
        Thing::Port(_, _) => Kind::Port,
    }
}

// Some are no objects.
fn kind_of(declared: Declared) -> Option<Kind>
    ensures { result ≡ Objects.kind_of (declared_seen declared.entry) }
{
    match declared {
        Declared::Typed(thing, var_type) => Some(thing_kind(thing, var_type)),
        Declared::Words(_, _) => Some(Kind::Memory),
        Declared::Event => Some(Kind::NamedEvent),
        Declared::Constant(_, _, _) => Some(Kind::Parameter),
        Declared::Code(word, _) => Some(code_kind(word)),
        Declared::Block(word) => Some(block_kind(word)),
        Declared::Drives(_, _, _) => Some(Kind::ContAssign),
        Declared::Wire => Some(Kind::Net),
        Declared::GenBlock(_, _) => Some(Kind::GenScope),
        Declared::Gate(_, _, _) | Declared::Genvar | Declared::Loop(_) | Declared::Child(_, _, _) =>
            None,
    }
}

/// Whether it is a task or a function.
pub fn is_routine(word: CodeWord) -> bool
    ensures { result ≡ Objects.is_routine word }
{
    match word {
        CodeWord::Initial | CodeWord::Always => false,
        CodeWord::Task | CodeWord::Function => true,
    }
}

fn has_body(declared: Declared) -> bool
    ensures { result ≡ Objects.has_body (declared_seen declared.entry) }
{
    match declared {
        Declared::Code(word, _) => is_routine(word),
        Declared::Typed(_, _)
        | Declared::Words(_, _)
        | Declared::Event
        | Declared::Constant(_, _, _)
        | Declared::Block(_)
        | Declared::Drives(_, _, _)
        | Declared::Gate(_, _, _)
        | Declared::Wire
        | Declared::GenBlock(_, _)
        | Declared::Loop(_)
        | Declared::Genvar
        | Declared::Child(_, _, _) => false,
    }
}

fn net_type(word: vh_ast::NetType) -> NetType
    ensures { result ≡ Objects.net_type word }
{
    match word {
        vh_ast::NetType::Wire => NetType::Wire,
        vh_ast::NetType::Tri => NetType::Tri,
        vh_ast::NetType::Wand => NetType::Wand,
        vh_ast::NetType::Triand => NetType::TriAnd,
        vh_ast::NetType::Wor => NetType::Wor,
        vh_ast::NetType::Trior => NetType::TriOr,
    }
}

fn is_output(direction: Direction) -> bool
    ensures { result ≡ Objects.is_output direction }
{
    match direction {
        Direction::Input => false,
        Direction::Output => true,
    }
}

fn code_detail(bodies: u32, word: CodeWord) -> Detail
    ensures { result ≡ Objects.code_detail bodies word }
{
    if is_routine(word) {
        Detail::Routine(bodies)
    } else {
        Detail::Plain
    }
}

fn thing_detail(bodies: u32, thing: Thing, var_type: VarType) -> Detail
    ensures { result
        ≡ Objects.detail_of bodies (thing_seen thing.entry (var_type_seen var_type.entry)) }
{
    match thing {
        Thing::Net(word) => Detail::Net(net_type(word)),
        Thing::Port(direction, index) => Detail::Port {
            output: is_output(direction),
            index,
        },
        Thing::Variable(_) | Thing::Result | Thing::Argument(_) => Detail::Plain,
    }
}

fn detail_of(bodies: u32, declared: Declared) -> Detail
    ensures { result ≡ Objects.detail_of bodies (declared_seen declared.entry) }
{
    match declared {
        Declared::Code(word, _) => code_detail(bodies, word),
        Declared::Typed(thing, var_type) => thing_detail(bodies, thing, var_type),
        Declared::Wire => Detail::Net(NetType::Wire),
        Declared::Words(_, _)
        | Declared::Event
        | Declared::Constant(_, _, _)
        | Declared::Block(_)
        | Declared::Drives(_, _, _)
        | Declared::Gate(_, _, _)
        | Declared::GenBlock(_, _)
        | Declared::Loop(_)
        | Declared::Genvar
        | Declared::Child(_, _, _) => Detail::Plain,
    }
}

// The name of a generate block or of a loop of them, which may be none that is written.
fn generated(alloc: Global, declared: Declared) -> Result<Option<Vec<u8>>, NoMemory>
    ensures { IfOk result (λ o. Views.bytes_seen o
        ≡ generated_name (declared_seen declared.entry)) }
{
    match declared {
        Declared::GenBlock(name, _) => Ok(Some(block_bytes(alloc, name)?)),
        Declared::Loop(word) => Ok(Some(block_bytes(alloc, BlockName { word, index: None })?)),
        Declared::Typed(_, _)
        | Declared::Words(_, _)
        | Declared::Event
        | Declared::Constant(_, _, _)
        | Declared::Code(_, _)
        | Declared::Block(_)
        | Declared::Drives(_, _, _)
        | Declared::Gate(_, _, _)
        | Declared::Wire
        | Declared::Genvar
        | Declared::Child(_, _, _) => Ok(None),
    }
}

// The name of a site.
pub(crate) fn name_of(alloc: Global, site: &Site) -> Result<Vec<u8>, NoMemory>
    ensures { IfOk result (λ v. v.items ≡ (site_seen site.now).name) }
{
    match generated(alloc, site.declared)? {
        None => Ok(Vec::from_slice(alloc, site.name)?),
        Some(name) => Ok(name),
    }
}

// The object of a site, before which so many bodies stand.
fn object_of(alloc: Global, bodies: u32, site: &Site, kind: Kind) -> Result<ObjectInfo, NoMemory>
    ensures { IfOk result (λ o. o ≡ Objects.object_of bodies (site_seen site.now) kind) }
{
    Ok(ObjectInfo {
        kind,
        name: Name::from_slice(alloc, &name_of(alloc, site)?)?,
        parent: Some(ObjId::new(site.scope)),
        width: 1,
        signed: false,
        words: 0,
        line: site.place.line,
        detail: detail_of(bodies, site.declared),
    })
}

/// An instance of a module under this name, in this scope: the top has none.
pub fn instance_object(
    alloc: Global,
    module: &Module,
    name: &[u8],
    place: Place,
    scope: Option<ObjId>,
) -> Result<ObjectInfo, NoMemory>
    ensures { IfOk result (λ o. o
        ≡ Objects.instance_object (module_tree module.now) name.now place scope) }
{
    Ok(ObjectInfo {
        kind: Kind::Module,
        name: Name::from_slice(alloc, name)?,
        parent: scope,
        width: 1,
        signed: false,
        words: 0,
        line: place.line,
        detail: Detail::Module(Name::from_slice(alloc, module.id.name.as_slice())?),
    })
}

// How many bodies stand behind a site.
fn bodies_behind(bodies: u32, declared: Declared) -> Result<u32, NoMemory>
    ensures { IfOk result (λ n. n ≡ Objects.bodies_behind bodies (declared_seen declared.entry)) }
{
    if has_body(declared) {
        return bodies.checked_add(1).ok_or(NoMemory);
    }
    Ok(bodies)
}

// The object of a site, if it is one.
fn make_site(
    alloc: Global,
    site: &Site,
    objects: &mut Vec<ObjectInfo>,
    bodies: &mut u32,
) -> Result<(), NoMemory>
    ensures { OnOk result (Views.gathered_seen objects.new.items bodies.new
        ≡ Objects.made_site (site_seen site.now) (Views.gathered_seen objects.old.items bodies.old)) }
{
    let Some(kind) = kind_of(site.declared) else {
        return Ok(());
    };
    objects.push(object_of(alloc, *bodies, site, kind)?)?;
    *bodies = bodies_behind(*bodies, site.declared)?;
    Ok(())
}

// The objects of sites, before any constant is known.
pub(crate) fn make_sites(
    alloc: Global,
    sites: &[Site],
    objects: &mut Vec<ObjectInfo>,
    bodies: &mut u32,
) -> Result<(), NoMemory>
    ensures { OnOk result (Views.gathered_seen objects.new.items bodies.new
        ≡ each Objects.made_site (all_seen sites.now)
        (Views.gathered_seen objects.old.items bodies.old)) }
{
    for site in sites {
        make_site(alloc, site, objects, bodies)?;
    }
    Ok(())
}

fn is_named(declared: Declared) -> bool
    ensures { result ≡ Objects.is_named (declared_seen declared.entry) }
{
    match declared {
        Declared::Code(word, _) => is_routine(word),
        Declared::Gate(_, _, gate) => gate.id.is_some(),
        Declared::Typed(Thing::Port(_, _), _) | Declared::Drives(_, _, _) | Declared::Wire => false,
        Declared::Typed(_, _)
        | Declared::Words(_, _)
        | Declared::Event
        | Declared::Constant(_, _, _)
        | Declared::Block(_)
        | Declared::GenBlock(_, _)
        | Declared::Loop(_)
        | Declared::Genvar
        | Declared::Child(_, _, _) => true,
    }
}

// What a site's name stands for, by its number and the bounds of its digits.
fn meaning_of(declared: Declared, number: u32, range: Range) -> Meaning
    ensures { result ≡ Objects.meaning_of (declared_seen declared.entry) number range }
{
    let id = ObjId::new(number);
    match declared {
        Declared::Typed(Thing::Result, _) => Meaning::Result { id, range },
        Declared::Gate(_, _, _) | Declared::Child(_, _, _) => Meaning::Gate,
        Declared::Genvar => Meaning::Genvar,
        Declared::Loop(_) => Meaning::Blocks,
        Declared::Typed(_, _)
        | Declared::Words(_, _)
        | Declared::Event
        | Declared::Constant(_, _, _)
        | Declared::Code(_, _)
        | Declared::Block(_)
        | Declared::Wire
        | Declared::GenBlock(_, _)
        | Declared::Drives(_, _, _) => Meaning::Object { id, range },
    }
}

fn is_number(number: u32, id: ObjId) -> bool
    ensures { result ≡ (id == number) }
{
    id.number() == number
}

// Whether what a name stands for is this object. (A match over the `Option` with the field inside it isn't proved.)
fn is_meant(number: u32, meaning: Meaning) -> bool
    ensures { result ≡ Objects.is_object number (Some meaning) }
{
    match meaning {
        Meaning::Object { id, .. } => is_number(number, id),
        Meaning::Result { id, .. } => is_number(number, id),
        Meaning::Genvar | Meaning::Blocks | Meaning::Gate => false,
    }
}

fn is_object(number: u32, meaning: Option<Meaning>) -> bool
    ensures { result ≡ Objects.is_object number meaning }
{
    match meaning {
        Some(meaning) => is_meant(number, meaning),
        None => false,
    }
}

// A site's name stands for these bounds, unless it stands for an earlier declaration.
pub(crate) fn set_bounds(
    alloc: Global,
    site: &Site,
    range: Range,
    names: &mut Names,
) -> Result<(), NoMemory>
    ensures { OnOk result (names.new ≡ Objects.with_bounds (site_seen site.now) range names.old) }
{
    let name = name_of(alloc, site)?;
    let scope = ObjId::new(site.scope);
    if is_object(site.number, names.meaning(scope, &name)) {
        let meaning = meaning_of(site.declared, site.number, range);
        names.declare_anew(scope, &name, meaning);
    }
    Ok(())
}

// One digit.
pub(crate) const LONE_DIGIT: Range = Range { left: 0, right: 0 };

// The names so far, and the least fault of them.
#[derive(Drop)]
pub(crate) struct Naming {
    pub(crate) names: Names,
    pub(crate) fault: Option<Fault>,
}

// The name of a site.
fn name_site(
    alloc: Global,
    site: &Site,
    names: &mut Names,
    so_far: Option<Fault>,
) -> Result<Option<Fault>, NoMemory>
    ensures { IfOk result (λ fault. Views.naming_seen names.new fault
        ≡ Objects.named_site (site_seen site.now) (Views.naming_seen names.old so_far)) }
{
    if !is_named(site.declared) {
        return Ok(so_far);
    }
    let meaning = meaning_of(site.declared, site.number, LONE_DIGIT);
    let scope = ObjId::new(site.scope);
    let name = name_of(alloc, site)?;
    if names.declare(alloc, scope, &name, meaning)? {
        return Ok(so_far);
    }
    Ok(least(so_far, Some((DesignFault::N2, site.place))))
}

// The names of sites, and the least fault of them.
pub(crate) fn name_sites(
    alloc: Global,
    sites: &[Site],
    names: &mut Names,
) -> Result<Option<Fault>, NoMemory>
    ensures { IfOk result (λ fault. Views.naming_seen names.new fault
        ≡ each Objects.named_site (all_seen sites.now) (Views.naming_seen names.old None)) }
{
    let mut fault = None;
    for site in sites {
        fault = name_site(alloc, site, names, fault)?;
    }
    Ok(fault)
}

// Whether it is a wire that no declaration makes.
fn is_wire(declared: Declared) -> bool
    ensures { result ≡ Objects.is_wire (declared_seen declared.entry) }
{
    matches!(declared, Declared::Wire)
}

// The name of a wire.
fn name_wire(alloc: Global, site: &Site, names: &mut Names) -> Result<(), NoMemory>
    ensures { OnOk result (names.new ≡ Objects.wire_named (site_seen site.now) names.old) }
{
    if !is_wire(site.declared) {
        return Ok(());
    }
    let meaning = meaning_of(site.declared, site.number, LONE_DIGIT);
    let name = name_of(alloc, site)?;
    names.declare(alloc, ObjId::new(site.scope), &name, meaning)?;
    Ok(())
}

/// The names of wires, once the first pass is over.
pub fn name_wires(alloc: Global, sites: &[Site], names: &mut Names) -> Result<(), NoMemory>
    ensures { OnOk result (names.new ≡ Objects.wires_named (all_seen sites.now) names.old) }
{
    for site in sites {
        name_wire(alloc, site, names)?;
    }
    Ok(())
}

// The scope around one: none around a module.
fn parent_at(objects: &[ObjectInfo], scope: ObjId) -> Option<ObjId>
    ensures { result ≡ Objects.parent_at objects.now scope }
{
    let object = objects.get(scope.number() as usize)?;
    match object.kind {
        Kind::Module => None,
        _ => object.parent,
    }
}

/// The scopes around what stands in one, from the inside out.
pub fn around(alloc: Global, objects: &[ObjectInfo], scope: ObjId) -> Result<Vec<ObjId>, NoMemory>
    ensures { IfOk result (λ v. v.items ≡ Objects.around_in objects.now scope) }
{
    let mut around = Vec::new(alloc);
    let mut scope = scope;
    for _up in objects {
        around.push(scope)?;
        let Some(parent) = parent_at(objects, scope) else {
            return Ok(around);
        };
        scope = parent;
    }
    Ok(around)
}

ghost use Rattle.std.specs.Prelude.{◌≡◌, ◌++◌, map, IfOk, OnOk};
ghost use Rattle.std.specs.Option.{option_map};
ghost use Rattle.vh_ast.specs.Views.{conn_tree, inst_tree, module_tree};
ghost use Rattle.vh_elab_sites.specs.Views.{all_seen, declared_seen};
ghost use Rattle.vh_elab_declare.specs.Constants.{scope_at};
ghost use Rattle.vh_elab_declare.specs.FirstPass.{checked};
ghost use Rattle.vh_elab_declare.specs.Objects.{instance_object};
ghost use Rattle.vh_elab_declare.specs.Views.{checked_seen, home_seen, known_seen};
ghost use Rattle.vh_elab_modules.specs.Modules.{module_named};
ghost use Rattle.vh_elab_unroll.specs.Constructs.{unrolled};
ghost use Rattle.vh_elab_unroll.specs.Views.{unrolled_seen};
ghost use Rattle.vh_elab_walk.specs.Overrides.{overrides};
ghost use Rattle.vh_elab_walk.specs.Walks;
ghost use Rattle.vh_elab_walk.specs.Walks.{with_instance};
ghost use Rattle.vh_elab_walk.specs.Views.{IsSource, all_waiting, children_seen, going_seen, placed_seen, source_seen, stack_seen, waiting_seen, walk_seen, walked_seen};

use crate::overrides::overrides;
use std::alloc::Global;
use vh_ast::{Conn, Id, Inst};
use vh_base::{DesignFault, NoMemory, ObjId, Place};
use vh_bind::Scope;
use vh_bind_least::{Fault, least};
use vh_bind_scope::{Meaning, Names, Top};
use vh_design_nodes::Range;
use vh_elab_declare::{
    Checked, Given, Home, Known, around, first_pass, genvars_in, instance_object, name_wires,
};
use vh_elab_index::Index;
use vh_elab_instances::module_sites;
use vh_elab_ports::{Ports, ports_fault};
use vh_elab_sites::{Declared, Site};
use vh_elab_unroll::{Unrolled, unroll_module};

/// The modules of a source with their ports, and by their names.
#[derive(Clone, Copy)]
pub struct Modules<'a, 'b> {
    pub ports: &'b [Ports<'a>],
    pub names: &'b Index<'a>,
}

// An instance that is to be walked.
#[derive(Drop)]
struct Waiting<'a, 'b> {
    ports: &'b Ports<'a>,
    name: &'a [u8],
    place: Place,
    scope: Option<ObjId>,
    given: Given<'a>,
}

/// An instance that was walked.
#[derive(Drop)]
pub struct Placed<'a, 'b> {
    /// That of its object.
    pub number: u32,
    pub top_name: &'a [u8],
    pub unit: u8,
    pub precision: u8,
    pub given: Given<'a>,
    pub ports: &'b Ports<'a>,
    pub sites: Vec<Site<'a>>,
}

/// The instances so far, in walk order, with what is known of their objects, and how many words
/// their memories have.
#[derive(Drop)]
pub struct Walk<'a, 'b> {
    pub placed: Vec<Placed<'a, 'b>>,
    pub known: Known,
    pub words: u64,
}

/// What comes of a walk.
#[derive(Drop)]
pub enum Walked<'a, 'b> {
    Walked(Walk<'a, 'b>),
    Refused(Fault),
    /// Something comes later.
    Later,
}

// How many objects a design may have.
const MOST_OBJECTS: u32 = 100_000;

// How many instances are walked at most.
const MOST_INSTANCES: u32 = 100_002;

// The instances in one so far, and the least fault so far.
#[derive(Drop)]
struct Children<'a, 'b> {
    waiting: Vec<Waiting<'a, 'b>>,
    fault: Option<Fault>,
}

// What comes of an instance: the walk goes on with those that wait, of which the last comes next.
#[derive(Drop)]
enum Going<'a, 'b> {
    On(Vec<Waiting<'a, 'b>>, Walk<'a, 'b>),
    Refused(Fault),
    Later,
}

// What the parameters of an instance in a scope are given.
fn given_in<'a>(
    alloc: Global,
    home: Home<'a, '_>,
    known: &Known,
    scope: u32,
    place: Place,
    ports: &Ports<'a>,
    parameters: &'a [Conn],
) -> Result<Result<Given<'a>, Fault>, NoMemory>
    ensures { IfOk result (λ o. o
        ≡ overrides (scope_at (home_seen home.entry) (known_seen known.now) scope) place
        (module_tree ports.now) (map conn_tree parameters.now)) }
{
    let around = around(alloc, &known.objects, ObjId::new(scope))?;
    let genvars = genvars_in(alloc, &known.genvars, &around)?;
    let inside = Scope {
        names: &known.names,
        around: &around,
        top: Top {
            id: ObjId::new(0),
            name: home.top_name,
        },
        genvars: &genvars,
        objects: &known.objects,
        exprs: &known.exprs,
        routines: &[],
        unit: home.unit,
        precision: home.precision,
    };
    overrides(alloc, &inside, place, ports.module(), parameters)
}

// An instance of a module.
fn add_waiting<'a, 'b>(
    alloc: Global,
    home: Home<'a, '_>,
    known: &Known,
    scope: u32,
    place: Place,
    ports: &'b Ports<'a>,
    parameters: &'a [Conn],
    inst: &'a Inst,
    children: &mut Children<'a, 'b>,
) -> Result<(), NoMemory>
    ensures { OnOk result (children_seen children.new
        ≡ Walks.with_child (children_seen children.old)
        (Walks.waiting_for scope (inst_tree inst.now)
        (module_tree ports.now) (overrides (scope_at (home_seen home.entry)
        (known_seen known.now) scope) place (module_tree ports.now)
        (map conn_tree parameters.now)))) }
{
    match given_in(alloc, home, known, scope, place, ports, parameters)? {
        Err(fault) => children.fault = least(children.fault, Some(fault)),
        Ok(given) => children.waiting.push(Waiting {
            ports,
            name: inst.id.name.as_slice(),
            place: inst.id.place,
            scope: Some(ObjId::new(scope)),
            given,
        })?,
    }
    Ok(())
}

// The module of a name.
fn module_named<'a, 'b>(modules: Modules<'a, 'b>, name: &[u8]) -> Option<&'b Ports<'a>>
    requires { IsSource modules }
    ensures { option_map (λ p. module_tree p.now) result
        ≡ module_named (source_seen modules.entry) name.now }
{
    let number = modules.names.position(name)?;
    modules.ports.get(number as usize)
}

// An instance whose module is one of these, or none.
fn add_instance<'a, 'b>(
    alloc: Global,
    modules: Modules<'a, 'b>,
    home: Home<'a, '_>,
    known: &Known,
    scope: u32,
    id: &Id,
    parameters: &'a [Conn],
    inst: &'a Inst,
    children: &mut Children<'a, 'b>,
) -> Result<(), NoMemory>
    requires { IsSource modules }
    ensures { OnOk result (children_seen children.new
        ≡ Walks.with_child (children_seen children.old) (Walks.child_by (home_seen home.entry)
        (known_seen known.now) scope id.now (map conn_tree parameters.now)
        (inst_tree inst.now) (module_named (source_seen modules.entry) id.now.name))) }
{
    match module_named(modules, id.name.as_slice()) {
        None => {
            children.fault = least(children.fault, Some((DesignFault::N1, id.place)));
            Ok(())
        }
        Some(ports) => add_waiting(
            alloc, home, known, scope, id.place, ports, parameters, inst, children,
        ),
    }
}

// The instance that a site is.
fn add_child<'a, 'b>(
    alloc: Global,
    modules: Modules<'a, 'b>,
    home: Home<'a, '_>,
    known: &Known,
    scope: u32,
    declared: Declared<'a>,
    children: &mut Children<'a, 'b>,
) -> Result<(), NoMemory>
    requires { IsSource modules }
    ensures { OnOk result (children_seen children.new
        ≡ Walks.child_declared (source_seen modules.entry) (home_seen home.entry)
        (known_seen known.now) scope (declared_seen declared.entry)
        (children_seen children.old)) }
{
    match declared {
        Declared::Child(id, parameters, inst) => add_instance(
            alloc, modules, home, known, scope, id, parameters, inst, children,
        ),
        Declared::Typed(_, _)
        | Declared::Words(_, _)
        | Declared::Event
        | Declared::Constant(_, _, _)
        | Declared::Code(_, _)
        | Declared::Block(_)
        | Declared::Drives(_, _, _)
        | Declared::Gate(_, _, _)
        | Declared::Wire
        | Declared::GenBlock(_, _)
        | Declared::Loop(_)
        | Declared::Genvar => Ok(()),
    }
}

// All of them.
fn children_of<'a, 'b>(
    alloc: Global,
    modules: Modules<'a, 'b>,
    home: Home<'a, '_>,
    known: &Known,
    sites: &[Site<'a>],
    fault: Option<Fault>,
) -> Result<Children<'a, 'b>, NoMemory>
    requires { IsSource modules }
    ensures { IfOk result (λ cs. children_seen cs
        ≡ Walks.children_of (source_seen modules.entry) (home_seen home.entry)
        (known_seen known.now)
        (all_seen sites.now) fault) }
{
    let mut children = Children {
        waiting: Vec::new(alloc),
        fault,
    };
    for site in sites {
        add_child(
            alloc,
            modules,
            home,
            known,
            site.scope,
            site.declared,
            &mut children,
        )?;
    }
    Ok(children)
}

// The name that an instance's item declares stands for the instance.
fn name_in(scope: Option<ObjId>, name: &[u8], number: u32, names: &mut Names)
    ensures { names.new ≡ Walks.named_in scope name.now number names.old }
{
    if let Some(scope) = scope {
        let meaning = Meaning::Object {
            id: ObjId::new(number),
            range: Range { left: 0, right: 0 },
        };
        names.declare_anew(scope, name, meaning);
    }
}

// Those in an instance come before the others that wait: the next is the last of these.
#[tactic(auto, using(crate::proofs::StackLemmas::stack_put))]
fn put_children<'a, 'b>(
    children: Vec<Waiting<'a, 'b>>,
    waiting: Vec<Waiting<'a, 'b>>,
) -> Result<Vec<Waiting<'a, 'b>>, NoMemory>
    ensures { IfOk result (λ v. stack_seen v.items
        ≡ all_waiting children.entry.items ++ stack_seen waiting.entry.items) }
{
    let mut children = children;
    let mut waiting = waiting;
    children.reverse();
    waiting.append(&mut children)?;
    Ok(waiting)
}

// The instance goes behind those so far.
fn with_placed<'a, 'b>(
    alloc: Global,
    top_name: &'a [u8],
    number: u32,
    next: Waiting<'a, 'b>,
    sites: Vec<Site<'a>>,
    checked: Checked,
    placed: Vec<Placed<'a, 'b>>,
) -> Result<Walk<'a, 'b>, NoMemory>
    ensures { IfOk result (λ wk. walk_seen wk
        ≡ Walks.with_placed (Walks.home_of top_name.now number (waiting_seen next.entry))
        (module_tree next.entry.ports.now) (all_seen sites.entry.items) (checked_seen checked)
        (map placed_seen placed.entry.items)) }
{
    let Checked { known, words, .. } = checked;
    let mut known = known;
    name_wires(alloc, &sites, &mut known.names)?;
    let setting = next.ports.module().setting;
    let mut placed = placed;
    placed.push(Placed {
        number,
        top_name,
        unit: setting.unit,
        precision: setting.precision,
        given: next.given,
        ports: next.ports,
        sites,
    })?;
    Ok(Walk {
        placed,
        known,
        words,
    })
}

// An instance whose first pass is over, with the instances in it.
fn gone<'a, 'b>(
    alloc: Global,
    top_name: &'a [u8],
    number: u32,
    next: Waiting<'a, 'b>,
    sites: Vec<Site<'a>>,
    passed: bool,
    checked: Checked,
    waiting: Vec<Waiting<'a, 'b>>,
    placed: Vec<Placed<'a, 'b>>,
    children: Children<'a, 'b>,
) -> Result<Going<'a, 'b>, NoMemory>
    ensures { IfOk result (λ g. going_seen g
        ≡ Walks.children_walked (Walks.home_of top_name.now number (waiting_seen next.entry))
        (module_tree next.entry.ports.now) (all_seen sites.entry.items) passed
        (checked_seen checked) (stack_seen waiting.entry.items)
        (map placed_seen placed.entry.items) (children_seen children.entry)) }
{
    let Children {
        waiting: inside,
        fault,
    } = children;
    if let Some(fault) = fault {
        return Ok(Going::Refused(fault));
    }
    if passed {
        return Ok(Going::Later);
    }
    let waiting = put_children(inside, waiting)?;
    let walk = with_placed(alloc, top_name, number, next, sites, checked, placed)?;
    Ok(Going::On(waiting, walk))
}

// The first pass over an instance.
fn check_instance<'a>(
    alloc: Global,
    home: Home<'a, '_>,
    next: &Waiting<'a, '_>,
    sites: &[Site<'a>],
    known: Known,
    words: u64,
) -> Result<Checked, NoMemory>
    ensures { IfOk result (λ c. checked_seen c
        ≡ checked (home_seen home.entry)
        (instance_object (module_tree next.now.ports.now) next.now.name.now
        next.now.place next.now.scope) (all_seen sites.now)
        (with_instance (waiting_seen next.now) (known_seen known)) words) }
{
    let mut known = known;
    let Ok(number) = u32::try_from(known.objects.len()) else {
        return Err(NoMemory);
    };
    name_in(next.scope, next.name, number, &mut known.names);
    let module = next.ports.module();
    let object = instance_object(alloc, module, next.name, next.place, next.scope)?;
    first_pass(alloc, home, object, sites, known, words)
}

// An instance of this number, of whose generate constructs it is known what they come to.
fn walk_unrolled<'a, 'b>(
    alloc: Global,
    modules: Modules<'a, 'b>,
    top_name: &'a [u8],
    number: u32,
    next: Waiting<'a, 'b>,
    waiting: Vec<Waiting<'a, 'b>>,
    walk: Walk<'a, 'b>,
    unrolled: Unrolled<'a>,
) -> Result<Going<'a, 'b>, NoMemory>
    requires { IsSource modules }
    ensures { IfOk result (λ g. going_seen g
        ≡ Walks.unrolled_walked (source_seen modules.entry)
        (Walks.home_of top_name.now number (waiting_seen next.entry))
        (waiting_seen next.entry) (stack_seen waiting.entry.items) (walk_seen walk.entry)
        (unrolled_seen unrolled.entry)) }
{
    let Walk {
        placed,
        known,
        words,
    } = walk;
    let sites = module_sites(alloc, number, next.ports, &unrolled.choices)?.all;
    let setting = next.ports.module().setting;
    let home = Home {
        number,
        top_name,
        unit: setting.unit,
        precision: setting.precision,
        given: &next.given,
    };
    let checked = check_instance(alloc, home, &next, &sites, known, words)?;
    let fault = least(
        ports_fault(next.ports),
        least(unrolled.fault, checked.fault),
    );
    let children = children_of(alloc, modules, home, &checked.known, &sites, fault)?;
    let passed = checked.passed || unrolled.passed;
    gone(
        alloc, top_name, number, next, sites, passed, checked, waiting, placed, children,
    )
}

// What the generate constructs of an instance come to.
fn unroll<'a>(
    alloc: Global,
    top_name: &'a [u8],
    next: &Waiting<'a, '_>,
) -> Result<Unrolled<'a>, NoMemory>
    ensures { IfOk result (λ u. unrolled_seen u
        ≡ unrolled (Walks.home_of top_name.now 0 (waiting_seen next.now))
        (module_tree next.now.ports.now)) }
{
    unroll_module(alloc, next.ports, top_name, &next.given)
}

// The next instance.
fn walk_one<'a, 'b>(
    alloc: Global,
    modules: Modules<'a, 'b>,
    top_name: &'a [u8],
    next: Waiting<'a, 'b>,
    waiting: Vec<Waiting<'a, 'b>>,
    walk: Walk<'a, 'b>,
) -> Result<Going<'a, 'b>, NoMemory>
    requires { IsSource modules }
    ensures { IfOk result (λ g. going_seen g
        ≡ Walks.one_walked (source_seen modules.entry) top_name.now (waiting_seen next.entry)
        (stack_seen waiting.entry.items) (walk_seen walk.entry)) }
{
    let Ok(number) = u32::try_from(walk.known.objects.len()) else {
        return Err(NoMemory);
    };
    if number >= MOST_OBJECTS {
        return Ok(Going::Refused((DesignFault::N11, next.place)));
    }
    let unrolled = unroll(alloc, top_name, &next)?;
    walk_unrolled(
        alloc, modules, top_name, number, next, waiting, walk, unrolled,
    )
}

// Those that wait, of which the last comes next.
fn walk_all<'a, 'b>(
    alloc: Global,
    modules: Modules<'a, 'b>,
    top_name: &'a [u8],
    waiting: Vec<Waiting<'a, 'b>>,
    walk: Walk<'a, 'b>,
) -> Result<Walked<'a, 'b>, NoMemory>
    requires { IsSource modules }
    ensures { IfOk result (λ w. walked_seen w
        ≡ Walks.walk Walks.most_instances (source_seen modules.entry) top_name.now
        (stack_seen waiting.entry.items) (walk_seen walk.entry)) }
{
    let mut waiting = waiting;
    let mut walk = walk;
    for _instance in 0..MOST_INSTANCES {
        let Some(next) = waiting.pop() else {
            return Ok(Walked::Walked(walk));
        };
        match walk_one(alloc, modules, top_name, next, waiting, walk)? {
            Going::On(others, so_far) => {
                waiting = others;
                walk = so_far;
            }
            Going::Refused(fault) => return Ok(Walked::Refused(fault)),
            Going::Later => return Ok(Walked::Later),
        }
    }
    Ok(Walked::Later)
}

/// The instances of a source below its top, in walk order; or the least fault of the first pass.
pub fn instances_of<'a, 'b>(
    alloc: Global,
    modules: Modules<'a, 'b>,
    top: &'b Ports<'a>,
) -> Result<Walked<'a, 'b>, NoMemory>
    requires { IsSource modules }
    ensures { IfOk result (λ w. walked_seen w
        ≡ Walks.instances_of (source_seen modules.entry) (module_tree top.now)) }
{
    let id = &top.module().id;
    let top_name = id.name.as_slice();
    let mut waiting = Vec::new(alloc);
    waiting.push(Waiting {
        ports: top,
        name: top_name,
        place: id.place,
        scope: None,
        given: Given::new(alloc),
    })?;
    let walk = Walk {
        placed: Vec::new(alloc),
        known: Known::new(alloc),
        words: 0,
    };
    walk_all(alloc, modules, top_name, waiting, walk)
}

ghost use Rattle.std.specs.Prelude.{◌≡◌, ◌<◌, ◌^◌, ◌↔◌, [], true, map, slice_get, IfOk, IsTrue};
ghost use Rattle.std.specs.Option.{option_map};
ghost use Rattle.vh_ast.specs.Views.{module_tree, source_tree};
ghost use Rattle.vh_bind.specs.Nodes.{AreSound};
ghost use Rattle.vh_design.specs.Handed;
ghost use Rattle.vh_design.specs.Validity.{IsCounted};
ghost use Rattle.vh_elab_walk.specs.Walks;
ghost use Rattle.vh_elab_walk.specs.Views.{IsSource, placed_seen, source_seen, walk_seen, walked_seen};
ghost use Rattle.vh_elab.specs.Elaborated;
ghost use Rattle.vh_elab.specs.Fitting;
ghost use Rattle.vh_elab.specs.Views.{Elaborates, GoesOn, GoesTo, coding_seen, ready_seen, values_seen};

use crate::coding::{Coding, Ready, only_values};
use crate::routines::routines_of;
use crate::second_pass::{Pass, code_sites};
use std::alloc::Global;
use vh_ast::{Module, Source};
use vh_base::{DesignFault, NoMemory, Place};
use vh_bind::MOST_EXPRS;
use vh_design::{Design, ExprKind, ExprNode, ObjectInfo, Parts};
use vh_design_nodes::{fits_node, is_unit};
use vh_elab_declare::Known;
use vh_elab_index::Index;
use vh_elab_modules::{named, top_of};
use vh_elab_ports::{Ports, ports_of};
use vh_elab_walk::{Modules, Placed, Walk, Walked, instances_of};
use vh_logic::Vec4;

/// What comes of a source.
#[derive(Drop)]
pub enum Elaboration {
    Made(Design),
    /// The least fault, and where it stands.
    Refused(DesignFault, Place),
    /// It has what comes later.
    Later,
}

// Whether values fit as expressions.
fn exprs_fit(exprs: &[ExprNode], objects: &[ObjectInfo], precision: u8) -> bool
    ensures { result ≡ Fitting.exprs_fit objects.now precision exprs.now }
{
    for (e, node) in exprs.iter().enumerate() {
        if !fits_node(exprs, objects, precision, e, node) {
            return false;
        }
    }
    true
}

// May so many elements have numbers?
fn have_numbers(count: usize) -> bool
    ensures { IsTrue result ↔ (count < 2 ^ 32) }
{
    u32::try_from(count).is_ok()
}

fn is_counted(parts: &Parts) -> bool
    ensures { IsTrue result ↔ IsCounted (Handed.shape_of parts.now) }
{
    have_numbers(parts.objects.len())
        && have_numbers(parts.exprs.len())
        && have_numbers(parts.drivers.len())
        && have_numbers(parts.codes.len())
        && have_numbers(parts.bodies.len())
        && have_numbers(parts.waits.len())
        && have_numbers(parts.shows.len())
        && have_numbers(parts.stmts.len())
}

// The design of parts.
fn designed(parts: Parts) -> Result<Elaboration, NoMemory>
    ensures { Elaborates (Elaborated.designed (Handed.shape_of parts)) result }
{
    if !is_counted(&parts) {
        return Err(NoMemory);
    }
    match Design::build(parts) {
        None => Ok(Elaboration::Later),
        Some(design) => Ok(Elaboration::Made(design)),
    }
}

// Whether the values of parameters are sound as expressions.
#[tactic(auto, using(crate::proofs::FittingLemmas::sound_of))]
fn are_sound(exprs: &[ExprNode], objects: &[ObjectInfo], precision: u8) -> bool
    ensures value { result ≡ Fitting.are_sound objects.now precision exprs.now }
    ensures sound { result ≡ true → AreSound objects.now precision exprs.now }
{
    if exprs.len() > MOST_EXPRS {
        return false;
    }
    exprs_fit(exprs, objects, precision)
}

// The greatest precision.
const MOST_PRECISION: u8 = 17;

fn lesser(a: u8, b: u8) -> u8
    ensures { result ≡ Walks.lesser_precision a b }
{
    if b < a { b } else { a }
}

// The least precision of instances.
fn least_precision(all: &[Placed]) -> u8
    ensures { result ≡ Walks.least_precision MOST_PRECISION (map placed_seen all.now) }
{
    let mut precision = MOST_PRECISION;
    for placed in all {
        precision = lesser(precision, placed.precision);
    }
    precision
}

fn value_in(kind: &ExprKind) -> Option<Vec4>
    ensures { result ≡ Elaborated.value_in kind.now }
{
    match kind {
        ExprKind::Literal(value) => Some(*value),
        _ => None,
    }
}

// The values of parameters, if all are some.
fn values_of(alloc: Global, exprs: &[ExprNode]) -> Result<Option<Vec<Vec4>>, NoMemory>
    ensures { IfOk result (λ o. values_seen o ≡ Elaborated.values_from [] exprs.now) }
{
    let mut values = Vec::new(alloc);
    for node in exprs {
        let Some(value) = value_in(&node.kind) else {
            return Ok(None);
        };
        values.push(value)?;
    }
    Ok(Some(values))
}

fn has_ended(coding: &Coding) -> bool
    ensures { result ≡ Elaborated.has_ended (coding_seen coding.now) }
{
    coding.fault.is_some() || coding.passed
}

// The second pass over an instance.
fn code_instance(pass: &Pass, placed: &Placed, coding: &mut Coding) -> Result<(), NoMemory>
    requires ready { GoesOn pass.now coding.old }
    ensures { GoesTo (λ ms r c. Elaborated.instance_made ms r (placed_seen placed.now) c)
        pass.now coding.old result coding.new }
{
    if !is_unit(pass.ready.precision, placed.unit) {
        coding.passed = true;
        return Ok(());
    }
    code_sites(pass, placed.unit, &placed.sites, coding)
}

// The second pass, up to the first instance that has a fault.
fn code_instances(pass: &Pass, all: &[Placed], coding: &mut Coding) -> Result<(), NoMemory>
    requires ready { GoesOn pass.now coding.old }
    ensures { GoesTo (λ ms r c. Elaborated.instances_made ms r (map placed_seen all.now) c)
        pass.now coding.old result coding.new }
{
    for placed in all {
        if has_ended(coding) {
            return Ok(());
        }
        code_instance(pass, placed, coding)?;
    }
    Ok(())
}

// All that is made over these values, where they are sound.
fn made_over(
    alloc: Global,
    modules: Modules,
    ready: Ready,
    all: &[Placed],
) -> Result<Option<Coding>, NoMemory>
    requires source { IsSource modules }
    ensures { IfOk result (λ o. option_map coding_seen o
        ≡ Elaborated.made_over (source_seen modules.entry) (ready_seen ready.entry)
        (map placed_seen all.now)) }
{
    let added = only_values(alloc, ready)?;
    if !are_sound(&added.exprs, ready.objects, ready.precision) {
        return Ok(None);
    }
    let mut coding = Coding {
        added,
        drivers: Vec::new(alloc),
        codes: Vec::new(alloc),
        bodies: Vec::new(alloc),
        fault: None,
        passed: false,
        count: 0,
    };
    let parameters = only_values(alloc, ready)?.exprs;
    let pass = Pass {
        alloc,
        modules,
        ready,
        parameters: &parameters,
    };
    code_instances(&pass, all, &mut coding)?;
    Ok(Some(coding))
}

// What comes of it.
fn finished(
    objects: Vec<ObjectInfo>,
    precision: u8,
    coding: Coding,
) -> Result<Elaboration, NoMemory>
    ensures { Elaborates (Elaborated.finished objects.items precision (coding_seen coding)) result }
{
    let Coding {
        added,
        drivers,
        codes,
        bodies,
        fault,
        passed,
        count: _,
    } = coding;
    if let Some((fault, place)) = fault {
        return Ok(Elaboration::Refused(fault, place));
    }
    if passed {
        return Ok(Elaboration::Later);
    }
    designed(Parts {
        objects,
        exprs: added.exprs,
        drivers,
        codes,
        bodies,
        waits: added.waits,
        shows: added.shows,
        stmts: added.stmts,
        precision,
    })
}

fn finished_or_later(
    objects: Vec<ObjectInfo>,
    precision: u8,
    coding: Option<Coding>,
) -> Result<Elaboration, NoMemory>
    ensures { Elaborates (Elaborated.finished_or_later objects.items precision
        (option_map coding_seen coding)) result }
{
    match coding {
        None => Ok(Elaboration::Later),
        Some(coding) => finished(objects, precision, coding),
    }
}

// The second pass.
fn second_pass(
    alloc: Global,
    modules: Modules,
    top_name: &[u8],
    walked: Walk,
) -> Result<Elaboration, NoMemory>
    requires source { IsSource modules }
    ensures { Elaborates (Elaborated.second_pass (source_seen modules.entry) top_name.now
        (walk_seen walked.entry)) result }
{
    let Walk { placed, known, .. } = walked;
    let Known {
        names,
        objects,
        exprs,
        genvars,
        ..
    } = known;
    let Some(values) = values_of(alloc, &exprs)? else {
        return Ok(Elaboration::Later);
    };
    let precision = least_precision(&placed);
    let routines = routines_of(alloc, &placed)?;
    let ready = Ready {
        top_name,
        precision,
        names: &names,
        objects: &objects,
        values: &values,
        routines: &routines,
        genvars: &genvars,
    };
    let coding = made_over(alloc, modules, ready, &placed)?;
    finished_or_later(objects, precision, coding)
}

// The ports of all modules.
fn all_ports(alloc: Global, modules: &[Module]) -> Result<Vec<Ports<'_>>, NoMemory>
    ensures { IfOk result (λ v. v.items ≡ modules.now) }
{
    let mut ports = Vec::new(alloc);
    for module in modules {
        ports.push(ports_of(alloc, module)?)?;
    }
    Ok(ports)
}

// What comes of a walk.
fn after_walk(
    alloc: Global,
    modules: Modules,
    top_name: &[u8],
    walked: Walked,
) -> Result<Elaboration, NoMemory>
    requires source { IsSource modules }
    ensures { Elaborates (Elaborated.after_walk (source_seen modules.entry) top_name.now
        (walked_seen walked.entry)) result }
{
    match walked {
        Walked::Later => Ok(Elaboration::Later),
        Walked::Refused((fault, place)) => Ok(Elaboration::Refused(fault, place)),
        Walked::Walked(walked) => second_pass(alloc, modules, top_name, walked),
    }
}

// The design below a top.
fn below<'a>(
    alloc: Global,
    all: &'a [Module],
    index: &Index<'a>,
    top: u32,
) -> Result<Elaboration, NoMemory>
    requires { index.now ≡ map (λ m. m.id.name) (map module_tree all.now) }
    ensures { Elaborates (Elaborated.from_top (map module_tree all.now)
        (slice_get (map module_tree all.now) top)) result }
{
    let ports = all_ports(alloc, all)?;
    let Some(top) = ports.get(top as usize) else {
        return Ok(Elaboration::Later);
    };
    let modules = Modules {
        ports: &ports,
        names: index,
    };
    let walked = instances_of(alloc, modules, top)?;
    after_walk(alloc, modules, top.module().id.name.as_slice(), walked)
}

/// The design of a source, which begins at `first`, or its least fault (IEEE 1364-2005, clause 12).
pub fn elaborate(alloc: Global, first: Place, source: &Source) -> Result<Elaboration, NoMemory>
    ensures { Elaborates (Elaborated.elaborated first (source_tree source.now)) result }
{
    let all = source.modules.as_slice();
    let index = named(alloc, all)?;
    match top_of(alloc, first, &index, all)? {
        Err((fault, place)) => Ok(Elaboration::Refused(fault, place)),
        Ok(top) => below(alloc, all, &index, top),
    }
}

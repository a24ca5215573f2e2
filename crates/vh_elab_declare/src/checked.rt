ghost use Rattle.std.specs.Prelude.{◌≡◌, ◌+◌, length, IfOk, OnOk};
ghost use Rattle.vh_bind.specs.Steps.{Gives};
ghost use Rattle.vh_ast.specs.Views.{expr_tree, range_tree, type_tree};
ghost use Rattle.vh_elab_ports.specs.Views.{data_type_seen};
ghost use Rattle.vh_elab_sites.specs.Views.{all_seen, site_seen, var_type_seen};
ghost use Rattle.vh_elab_declare.specs.Constants;
ghost use Rattle.vh_elab_declare.specs.FirstPass;
ghost use Rattle.vh_elab_declare.specs.Objects.{each};
ghost use Rattle.vh_elab_declare.specs.Views;
ghost use Rattle.vh_elab_declare.specs.Views.{checked_seen, home_seen, known_seen};

use crate::genvars::keep_genvars;
use crate::known::{Home, Known};
use crate::needs::needs_fault;
use crate::objects::{make_sites, name_sites, set_bounds};
use crate::parameters::Bounded;
use crate::ranges::Measure;
use crate::settling::settle;
use crate::standing::{memory_at, value_at, var_at};
use std::alloc::Global;
use vh_ast::{DataType, Expr, ParameterWord};
use vh_base::{DesignFault, NoMemory};
use vh_bind::ElabFault;
use vh_bind_least::{Fault, least};
use vh_design_nodes::{Detail, ObjectInfo};
use vh_elab_sites::{Declared, Site, VarType, is_object};

/// The first pass over the sites: what is known, the least fault so far, whether something was
/// passed
/// over, since it needs a parameter that has no value, and how many words the memories have.
#[derive(Drop)]
pub struct Checked {
    pub known: Known,
    pub fault: Option<Fault>,
    pub passed: bool,
    pub words: u64,
}

// How many objects and words a design may have.
const MOST_OBJECTS: u32 = 100_000;

const MOST_WORDS_IN_ALL: u64 = 1_048_576;

// An object of this measure.
fn measure_object(object: &mut ObjectInfo, measure: Measure)
    ensures { object.new ≡ Constants.measured_object measure object.old }
{
    object.width = measure.width;
    object.signed = measure.signed;
    object.words = measure.words;
    if let Some(lowest) = measure.lowest {
        object.detail = Detail::Memory(lowest);
    }
}

// An object takes its measure.
fn set_measure(objects: &mut Vec<ObjectInfo>, number: u32, measure: Measure)
    ensures { objects.new.items
        ≡ Constants.with_object number (Constants.measured_object measure) objects.old.items }
{
    if let Some(object) = objects.get_mut(number as usize) {
        measure_object(object, measure);
    }
}

// What a fault is, where there is too much.
fn too_many(site: &Site, is_too_many: bool) -> Option<Fault>
    ensures { result ≡ Constants.too_many (site_seen site.now) is_too_many }
{
    if is_too_many {
        Some((DesignFault::N11, site.place))
    } else {
        None
    }
}

// An object has a measure, needs what has no value, or has a fault.
fn take_measure(
    alloc: Global,
    site: &Site,
    measure: Result<Option<Measure>, ElabFault>,
    checked: &mut Checked,
) -> Result<(), NoMemory>
    ensures { Views.MeasuresBy (site_seen site.now) (checked_seen checked.old) measure result
        (checked_seen checked.new) }
{
    match measure {
        Ok(Some(measure)) => {
            set_bounds(alloc, site, measure.range, &mut checked.known.names)?;
            set_measure(&mut checked.known.objects, site.number, measure);
            let Some(words) = checked.words.checked_add(u64::from(measure.words)) else {
                return Err(NoMemory);
            };
            checked.words = words;
            checked.fault = least(checked.fault, too_many(site, words > MOST_WORDS_IN_ALL));
        }
        Ok(None) => checked.passed = true,
        Err(ElabFault::Refused(fault, place)) => {
            checked.fault = least(checked.fault, Some((fault, place)));
        }
        Err(ElabFault::NoMemory) => return Err(NoMemory),
    }
    Ok(())
}

// A parameter has a value, needs one that hasn't, or has a fault.
fn take_parameter(
    value: Result<Option<Bounded>, ElabFault>,
    checked: &mut Checked,
) -> Result<(), NoMemory>
    ensures { Views.ValuesBy (checked_seen checked.old) value result (checked_seen checked.new) }
{
    match value {
        Ok(Some(_)) => {}
        Ok(None) => checked.passed = true,
        Err(ElabFault::Refused(fault, place)) => {
            checked.fault = least(checked.fault, Some((fault, place)));
        }
        Err(ElabFault::NoMemory) => return Err(NoMemory),
    }
    Ok(())
}

// A variable.
fn measure_var(
    alloc: Global,
    home: Home,
    site: &Site,
    var_type: VarType,
    checked: &mut Checked,
) -> Result<(), NoMemory>
    ensures { OnOk result (checked_seen checked.new
        ≡ Constants.measured_var (home_seen home.entry) (site_seen site.now)
        (var_type_seen var_type.entry) (checked_seen checked.old)) }
{
    let measure = var_at(alloc, home, &checked.known, site.scope, var_type);
    take_measure(alloc, site, measure, checked)
}

// A memory.
fn measure_memory(
    alloc: Global,
    home: Home,
    site: &Site,
    data_type: &DataType,
    addresses: &vh_ast::Range,
    checked: &mut Checked,
) -> Result<(), NoMemory>
    ensures { OnOk result (checked_seen checked.new
        ≡ Constants.measured_memory (home_seen home.entry) (site_seen site.now)
        (type_tree data_type.now) (range_tree addresses.now) (checked_seen checked.old)) }
{
    let measure = memory_at(
        alloc,
        home,
        &checked.known,
        site.scope,
        data_type,
        addresses,
    );
    take_measure(alloc, site, measure, checked)
}

// A parameter.
fn measure_parameter(
    alloc: Global,
    home: Home,
    site: &Site,
    word: ParameterWord,
    data_type: Option<&DataType>,
    e: &Expr,
    checked: &mut Checked,
) -> Result<(), NoMemory>
    ensures { OnOk result (checked_seen checked.new
        ≡ Constants.measured_parameter (home_seen home.entry) (site_seen site.now) word
        (data_type_seen data_type.entry) (expr_tree e.now) (checked_seen checked.old)) }
{
    let value = value_at(alloc, home, &checked.known, site, word, data_type, e);
    take_parameter(value, checked)
}

// One site in the first pass: what is no object isn't counted.
fn measure_site(
    alloc: Global,
    home: Home,
    site: &Site,
    checked: &mut Checked,
) -> Result<(), NoMemory>
    ensures { OnOk result (checked_seen checked.new
        ≡ Constants.measured_site (home_seen home.entry) (site_seen site.now)
        (checked_seen checked.old)) }
{
    let is_over = is_object(site.declared) && site.number >= MOST_OBJECTS;
    checked.fault = least(checked.fault, too_many(site, is_over));
    match site.declared {
        Declared::Wire => measure_var(alloc, home, site, VarType::OneDigit, checked),
        Declared::Typed(_, var_type) => measure_var(alloc, home, site, var_type, checked),
        Declared::Words(data_type, addresses) => {
            measure_memory(alloc, home, site, data_type, addresses, checked)
        }
        Declared::Constant(word, data_type, e) => {
            measure_parameter(alloc, home, site, word, data_type, e, checked)
        }
        Declared::Event
        | Declared::Code(_, _)
        | Declared::Block(_)
        | Declared::Drives(_, _, _)
        | Declared::Gate(_, _, _)
        | Declared::GenBlock(_, _)
        | Declared::Loop(_)
        | Declared::Genvar
        | Declared::Child(_, _, _) => Ok(()),
    }
}

// All of them.
fn measure_sites(
    alloc: Global,
    home: Home,
    sites: &[Site],
    checked: &mut Checked,
) -> Result<(), NoMemory>
    ensures { OnOk result (checked_seen checked.new
        ≡ each (Constants.measured_site (home_seen home.entry)) (all_seen sites.now)
        (checked_seen checked.old)) }
{
    for site in sites {
        measure_site(alloc, home, site, checked)?;
    }
    Ok(())
}

/// Some sites are known, behind an object, with the values of their parameters; answers the least
/// fault of their names.
#[tactic(auto, unfolding(crate::specs::FirstPass::settled_known))]
pub fn declare(
    alloc: Global,
    home: Home,
    object: ObjectInfo,
    sites: &[Site],
    known: &mut Known,
) -> Result<Option<Fault>, NoMemory>
    ensures fault { IfOk result (λ f. f
        ≡ (FirstPass.naming_of (all_seen sites.now) (known_seen known.old)).fault) }
    ensures known { OnOk result (known_seen known.new
        ≡ FirstPass.settled_known (home_seen home.entry) object (all_seen sites.now)
        (known_seen known.old)) }
{
    known.objects.push(object)?;
    make_sites(alloc, sites, &mut known.objects, &mut known.bodies)?;
    keep_genvars(alloc, sites, &mut known.genvars)?;
    let fault = name_sites(alloc, sites, &mut known.names)?;
    settle(alloc, home, sites, known)?;
    Ok(fault)
}

/// The first pass over an instance, behind what is known of those before it: names, parameters,
/// ranges, and their least fault.
/// `words` is how many words the memories before it have.
pub fn first_pass(
    alloc: Global,
    home: Home,
    object: ObjectInfo,
    sites: &[Site],
    known: Known,
    words: u64,
) -> Result<Checked, NoMemory>
    ensures { IfOk result (λ c. checked_seen c
        ≡ FirstPass.checked (home_seen home.entry) object (all_seen sites.now)
        (known_seen known) words) }
{
    let mut known = known;
    let fault = declare(alloc, home, object, sites, &mut known)?;
    let cycle = needs_fault(alloc, home, &known, sites)?;
    let mut checked = Checked {
        known,
        fault: least(fault, cycle),
        passed: false,
        words,
    };
    measure_sites(alloc, home, sites, &mut checked)?;
    Ok(checked)
}

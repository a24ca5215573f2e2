ghost use Rattle.std.specs.Prelude.{◌≡◌, ◌++◌, [], IfOk, OnOk};
ghost use Rattle.vh_ast.specs.Views.{expr_tree};
ghost use Rattle.vh_elab_cycles.specs.Views.{edges_seen};
ghost use Rattle.vh_elab_mentions.specs.Views.{ids_seen};
ghost use Rattle.vh_elab_ports.specs.Views.{data_type_seen};
ghost use Rattle.vh_elab_sites.specs.Views.{all_seen, site_seen};
ghost use Rattle.vh_bind_scope.specs.LookUp.{object_meant};
ghost use Rattle.vh_elab_declare.specs.Constants.{has_value};
ghost use Rattle.vh_elab_declare.specs.Needs;
ghost use Rattle.vh_elab_declare.specs.Views.{home_seen, known_seen};

use crate::known::{Home, Known};
use crate::objects::around;
use crate::parameters::given_to;
use std::alloc::Global;
use vh_ast::{DataType, Expr, Id, ParameterWord};
use vh_base::{DesignFault, NoMemory, ObjId};
use vh_bind_least::Fault;
use vh_bind_scope::{Declaration, Meaning, found};
use vh_design_nodes::{Detail, Kind, ObjectInfo};
use vh_elab_cycles::{Edge, first_on_cycle};
use vh_elab_mentions::expr_ids;
use vh_elab_sites::{Declared, Site};

fn has_value(detail: &Detail) -> bool
    ensures { result ≡ has_value detail.now }
{
    matches!(detail, Detail::Value(_))
}

fn is_parameter(kind: Kind) -> bool
    ensures { result ≡ Needs.is_parameter kind }
{
    matches!(kind, Kind::Parameter)
}

// Whether an object is a parameter that has no value.
fn lacks_value(objects: &[ObjectInfo], object: ObjId) -> bool
    ensures { result ≡ Needs.lacks_value objects.now object }
{
    match objects.get(object.number() as usize) {
        None => false,
        Some(info) => is_parameter(info.kind) && !has_value(&info.detail),
    }
}

// The names in the range of a type.
fn add_type_ids<'a>(data_type: Option<&'a DataType>, ids: &mut Vec<&'a Id>) -> Result<(), NoMemory>
    ensures { ids_seen ids.old.items ≡ [] → OnOk result
        (ids_seen ids.new.items ≡ Needs.type_ids (data_type_seen data_type.entry)) }
{
    let Some(data_type) = data_type else {
        return Ok(());
    };
    if let Some(range) = &data_type.range {
        expr_ids(&range.get().left, ids)?;
        expr_ids(&range.get().right, ids)?;
    }
    Ok(())
}

// The names in what is looked at of a parameter: its range, and its value where it isn't given one.
fn looked_at<'a>(
    alloc: Global,
    home: Home,
    site: &Site<'a>,
    word: ParameterWord,
    data_type: Option<&'a DataType>,
    e: &'a Expr,
) -> Result<Vec<&'a Id>, NoMemory>
    ensures { IfOk result (λ v. ids_seen v.items
        ≡ Needs.looked_at (home_seen home.entry) (site_seen site.now) word
        (data_type_seen data_type.entry) (expr_tree e.now)) }
{
    let mut ids = Vec::new(alloc);
    add_type_ids(data_type, &mut ids)?;
    if given_to(alloc, home, site, word)?.is_none() {
        expr_ids(e, &mut ids)?;
    }
    Ok(ids)
}

fn object_meant(meaning: Meaning) -> Option<ObjId>
    ensures { result ≡ object_meant meaning }
{
    match meaning {
        Meaning::Object { id, .. } => Some(id),
        Meaning::Result { .. } | Meaning::Genvar | Meaning::Blocks | Meaning::Gate => None,
    }
}

fn declared_object(declaration: Option<Declaration>) -> Option<ObjId>
    ensures { result ≡ Needs.declared_object declaration }
{
    object_meant(declaration?.meaning)
}

// A parameter needs another one, if that has no value.
fn add_edge(
    known: &Known,
    from: u32,
    other: Option<ObjId>,
    edges: &mut Vec<Edge>,
) -> Result<(), NoMemory>
    ensures { OnOk result (edges_seen edges.new.items ≡ edges_seen edges.old.items
        ++ Needs.edge_to (known_seen known.now) from other) }
{
    let Some(other) = other else {
        return Ok(());
    };
    if lacks_value(&known.objects, other) {
        edges.push(Edge {
            from,
            to: other.number(),
        })?;
    }
    Ok(())
}

// A parameter needs those that these names stand for.
fn add_edges(
    known: &Known,
    around: &[ObjId],
    from: u32,
    ids: &[&Id],
    edges: &mut Vec<Edge>,
) -> Result<(), NoMemory>
    ensures { OnOk result (edges_seen edges.new.items ≡ edges_seen edges.old.items
        ++ Needs.edges_to (known_seen known.now) around.now from (ids_seen ids.now)) }
{
    for id in ids {
        let declaration = found(&known.names, around, id.name.as_slice());
        add_edge(known, from, declared_object(declaration), edges)?;
    }
    Ok(())
}

// What a parameter without a value needs of the others.
fn add_constant(
    alloc: Global,
    home: Home,
    known: &Known,
    site: &Site,
    word: ParameterWord,
    data_type: Option<&DataType>,
    e: &Expr,
    edges: &mut Vec<Edge>,
) -> Result<(), NoMemory>
    ensures { OnOk result (edges_seen edges.new.items ≡ edges_seen edges.old.items
        ++ Needs.constant_edges (home_seen home.entry) (known_seen known.now)
        (site_seen site.now) word (data_type_seen data_type.entry) (expr_tree e.now)) }
{
    if !lacks_value(&known.objects, ObjId::new(site.number)) {
        return Ok(());
    }
    let around = around(alloc, &known.objects, ObjId::new(site.scope))?;
    let ids = looked_at(alloc, home, site, word, data_type, e)?;
    add_edges(known, &around, site.number, &ids, edges)
}

fn add_site(
    alloc: Global,
    home: Home,
    known: &Known,
    site: &Site,
    edges: &mut Vec<Edge>,
) -> Result<(), NoMemory>
    ensures { OnOk result (edges_seen edges.new.items ≡ edges_seen edges.old.items
        ++ Needs.site_edges (home_seen home.entry) (known_seen known.now) (site_seen site.now)
        (site_seen site.now).declared) }
{
    match site.declared {
        Declared::Constant(word, data_type, e) => {
            add_constant(alloc, home, known, site, word, data_type, e, edges)
        }
        _ => Ok(()),
    }
}

// What the parameters of all sites need.
pub(crate) fn all_edges(
    alloc: Global,
    home: Home,
    known: &Known,
    sites: &[Site],
) -> Result<Vec<Edge>, NoMemory>
    ensures { IfOk result (λ v. edges_seen v.items
        ≡ Needs.all_edges (home_seen home.entry) (known_seen known.now) (all_seen sites.now)) }
{
    let mut edges = Vec::new(alloc);
    for site in sites {
        add_site(alloc, home, known, site, &mut edges)?;
    }
    Ok(edges)
}

fn is_constant(site: &Site) -> bool
    ensures { result ≡ Needs.is_constant (site_seen site.now).declared }
{
    matches!(site.declared, Declared::Constant(..))
}

// The place of a parameter's site.
fn fault_at(sites: &[Site], number: u32) -> Option<Fault>
    ensures { result ≡ Needs.fault_at (all_seen sites.now) number }
{
    for site in sites {
        if site.number == number && is_constant(site) {
            return Some((DesignFault::N4, site.place));
        }
    }
    None
}

// The first parameter that needs itself, directly or through others, if there is one.
pub(crate) fn needs_fault(
    alloc: Global,
    home: Home,
    known: &Known,
    sites: &[Site],
) -> Result<Option<Fault>, NoMemory>
    ensures { IfOk result (λ fault. fault
        ≡ Needs.needs_fault (home_seen home.entry) (known_seen known.now) (all_seen sites.now)) }
{
    let edges = all_edges(alloc, home, known, sites)?;
    let Some(place) = first_on_cycle(alloc, &edges)? else {
        return Ok(None);
    };
    match edges.get(place) {
        None => Ok(None),
        Some(edge) => Ok(fault_at(sites, edge.from)),
    }
}

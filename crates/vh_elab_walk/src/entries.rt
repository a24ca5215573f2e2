ghost use Rattle.std.specs.Prelude.{◌≡◌, [], map, None, IfOk};
ghost use Rattle.std.specs.List.{list_any};
ghost use Rattle.vh_ast.specs.Items.{by_name};
ghost use Rattle.std.specs.Option.{option_copied, option_map};
ghost use Rattle.vh_ast.specs.Views.{conn_tree, expr_tree};
ghost use Rattle.vh_elab_walk.specs.Overrides;
ghost use Rattle.vh_elab_walk.specs.Views.{names_seen};

use std::alloc::Global;
use vh_ast::{Conn, Expr, Id};
use vh_base::{DesignFault, NoMemory, Place};
use vh_bind_least::{Fault, fault_if, least};
use vh_elab_index::Index;

fn is_ordered(conn: &Conn) -> bool
    ensures { result ≡ Overrides.is_ordered (conn_tree conn.now) }
{
    match conn {
        Conn::Ordered(_) => true,
        Conn::Named { .. } => false,
    }
}

// The expression of an entry, if one is written.
pub(crate) fn written(conn: &Conn) -> &Option<Expr>
    ensures { option_map expr_tree result.now ≡ Overrides.written (conn_tree conn.now) }
{
    match conn {
        Conn::Ordered(expr) => expr,
        Conn::Named { expr, .. } => expr,
    }
}

// What an entry gives its value to.
pub(crate) fn entry_name<'a>(names: &[&'a [u8]], place: usize, conn: &'a Conn) -> Option<&'a [u8]>
    ensures { option_copied result
        ≡ Overrides.entry_name (names_seen names.now) place (conn_tree conn.now) }
{
    match conn {
        Conn::Ordered(_) => names.get(place).copied(),
        Conn::Named { id, .. } => Some(id.name.as_slice()),
    }
}

// The fault of a name: it is named twice, or there is none of the name.
fn name_fault(known: &Index, before: &Index, place: Place, id: &Id) -> Option<Fault>
    ensures { result
        ≡ Overrides.named_fault known.now before.now (by_name place id.now None) }
{
    let name = id.name.as_slice();
    if before.position(name).is_some() {
        return Some((DesignFault::N7, place));
    }
    fault_if(known.position(name).is_none(), DesignFault::N1, id.place)
}

// That of an entry.
fn named_fault(known: &Index, before: &Index, conn: &Conn) -> Option<Fault>
    ensures { result ≡ Overrides.named_fault known.now before.now (conn_tree conn.now) }
{
    match conn {
        Conn::Ordered(_) => None,
        Conn::Named { place, id, .. } => name_fault(known, before, *place, id),
    }
}

fn with_named<'a>(alloc: Global, conn: &'a Conn, before: Index<'a>) -> Result<Index<'a>, NoMemory>
    ensures { IfOk result (λ i. i ≡ Overrides.with_named (conn_tree conn.now) before.entry) }
{
    match conn {
        Conn::Ordered(_) => Ok(before),
        Conn::Named { id, .. } => before.with(alloc, id.name.as_slice()),
    }
}

fn index_of<'a>(alloc: Global, names: &[&'a [u8]]) -> Result<Index<'a>, NoMemory>
    ensures { IfOk result (λ i. i ≡ names_seen names.now) }
{
    let mut index = Index::new(alloc);
    for name in names {
        index = index.with(alloc, name)?;
    }
    Ok(index)
}

// The least fault of entries by name, where these are the parameters.
fn faults_among(alloc: Global, known: &Index, conns: &[Conn]) -> Result<Option<Fault>, NoMemory>
    ensures { IfOk result (λ f. f
        ≡ Overrides.named_faults known.now [] (map conn_tree conns.now) None) }
{
    let mut before = Index::new(alloc);
    let mut fault = None;
    for conn in conns {
        fault = least(fault, named_fault(known, &before, conn));
        before = with_named(alloc, conn, before)?;
    }
    Ok(fault)
}

fn named_faults(alloc: Global, names: &[&[u8]], conns: &[Conn]) -> Result<Option<Fault>, NoMemory>
    ensures { IfOk result (λ f. f
        ≡ Overrides.named_faults (names_seen names.now) [] (map conn_tree conns.now) None) }
{
    let known = index_of(alloc, names)?;
    faults_among(alloc, &known, conns)
}

// Whether some entry is by order, and whether some is by name.
fn any_ordered(conns: &[Conn]) -> bool
    ensures { result ≡ list_any Overrides.is_ordered (map conn_tree conns.now) }
{
    for conn in conns {
        if is_ordered(conn) {
            return true;
        }
    }
    false
}

fn any_by_name(conns: &[Conn]) -> bool
    ensures { result ≡ list_any Overrides.is_by_name (map conn_tree conns.now) }
{
    for conn in conns {
        if !is_ordered(conn) {
            return true;
        }
    }
    false
}

// The least fault of the entries, whatever their expressions are.
pub(crate) fn entries_fault(
    alloc: Global,
    place: Place,
    names: &[&[u8]],
    conns: &[Conn],
) -> Result<Option<Fault>, NoMemory>
    ensures { IfOk result (λ f. f
        ≡ Overrides.entries_fault place (names_seen names.now) (map conn_tree conns.now)) }
{
    if !any_ordered(conns) {
        return named_faults(alloc, names, conns);
    }
    let is_wrong = any_by_name(conns) || conns.len() > names.len();
    Ok(fault_if(is_wrong, DesignFault::N7, place))
}

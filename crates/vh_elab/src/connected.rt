ghost use Rattle.std.specs.Prelude.{◌≡◌, map, true, None, IfOk};
ghost use Rattle.std.specs.List.{list_any};
ghost use Rattle.std.specs.Option.{option_map};
ghost use Rattle.vh_ast.specs.Items.{by_name, ordered};
ghost use Rattle.vh_design_nodes.specs.Fits.{has_kind};
ghost use Rattle.vh_design_nodes.specs.Kinds;
ghost use Rattle.vh_ast.specs.Views.{conn_tree, expr_tree, inst_tree, module_tree};
ghost use Rattle.vh_elab_ports.specs.Ports.{is_first, port_at};
ghost use Rattle.vh_elab_ports.specs.Views.{ids_seen};
ghost use Rattle.vh_elab_walk.specs.Overrides;
ghost use Rattle.vh_elab.specs.Connected;
ghost use Rattle.vh_elab.specs.Views.{Becomes, Codes, HasObjects, Stands, outer_seen, ready_of, ready_seen};

use crate::coding::{Coder, Ready, code_input_value, put_code, put_drivers, take_fault};
use std::alloc::Global;
use vh_ast::{Conn, Direction, Expr, Id, Inst};
use vh_base::{DesignFault, NoMemory, ObjId, Place};
use vh_bind_least::{Fault, fault_if, least};
use vh_bind_stmt::object_of;
use vh_design::DriverIds;
use vh_design_nodes::is_vector_at;
use vh_elab_drives::{is_net_at, output_drivers, port_code};
use vh_elab_index::Index;
use vh_elab_ports::Ports;
use vh_lower::Maker;

// What is connected to a port, and where its entry begins.
#[derive(Clone, Copy)]
pub(crate) struct Outer<'a> {
    pub(crate) place: Place,
    pub(crate) expr: &'a Expr,
}

fn outer_at(place: Place, expr: &Option<Expr>) -> Option<Outer<'_>>
    ensures { option_map outer_seen result
        ≡ Connected.outer_at place (option_map expr_tree expr.now) }
{
    match expr {
        None => None,
        Some(expr) => Some(Outer { place, expr }),
    }
}

fn ordered_outer(expr: &Option<Expr>) -> Option<Outer<'_>>
    ensures { option_map outer_seen result
        ≡ Connected.outer_of (ordered (option_map expr_tree expr.now)) }
{
    match expr {
        None => None,
        Some(expr) => Some(Outer {
            place: expr.place,
            expr,
        }),
    }
}

fn outer_of(conn: &Conn) -> Option<Outer<'_>>
    ensures { option_map outer_seen result ≡ Connected.outer_of (conn_tree conn.now) }
{
    match conn {
        Conn::Ordered(expr) => ordered_outer(expr),
        Conn::Named { place, expr, .. } => outer_at(*place, expr),
    }
}

fn is_ordered(conn: &Conn) -> bool
    ensures { result ≡ Overrides.is_ordered (conn_tree conn.now) }
{
    match conn {
        Conn::Ordered(_) => true,
        Conn::Named { .. } => false,
    }
}

fn any_ordered(conns: &[Conn]) -> bool
    ensures { result ≡ list_any Overrides.is_ordered (map conn_tree conns.now) }
{
    for conn in conns {
        if is_ordered(conn) {
            return true;
        }
    }
    false
}

fn any_by_name(conns: &[Conn]) -> bool
    ensures { result ≡ list_any Overrides.is_by_name (map conn_tree conns.now) }
{
    for conn in conns {
        if !is_ordered(conn) {
            return true;
        }
    }
    false
}

// The name of an entry: one by order has none.
fn entry_name(conn: &Conn) -> &[u8]
    ensures { result.now ≡ Connected.entry_name (conn_tree conn.now) }
{
    match conn {
        Conn::Ordered(_) => &[],
        Conn::Named { id, .. } => id.name.as_slice(),
    }
}

// The names of entries.
fn index_of<'a>(alloc: Global, conns: &'a [Conn]) -> Result<Index<'a>, NoMemory>
    ensures { IfOk result (λ i. i ≡ Connected.names_of (map conn_tree conns.now)) }
{
    let mut index = Index::new(alloc);
    for conn in conns {
        index = index.with(alloc, entry_name(conn))?;
    }
    Ok(index)
}

// The entry of a port, by its place where some entry has no name, else by its name.
fn entry_for<'a>(
    conns: &'a [Conn],
    by_place: bool,
    index: &Index,
    number: usize,
    name: &[u8],
) -> Option<&'a Conn>
    requires ordered { by_place ≡ list_any Overrides.is_ordered (map conn_tree conns.now) }
    requires named { index.now ≡ Connected.names_of (map conn_tree conns.now) }
    ensures { option_map (λ c. conn_tree c.now) result
        ≡ Connected.entry_for (map conn_tree conns.now) number name.now }
{
    if by_place {
        return conns.get(number);
    }
    let place = index.position(name)?;
    conns.get(place as usize)
}

// What is connected to a port.
fn outer_for<'a>(
    conns: &'a [Conn],
    by_place: bool,
    index: &Index,
    number: usize,
    name: &[u8],
) -> Option<Outer<'a>>
    requires ordered { by_place ≡ list_any Overrides.is_ordered (map conn_tree conns.now) }
    requires named { index.now ≡ Connected.names_of (map conn_tree conns.now) }
    ensures { option_map outer_seen result
        ≡ Connected.outer_for (map conn_tree conns.now) number name.now }
{
    let entry = entry_for(conns, by_place, index, number, name)?;
    outer_of(entry)
}

fn is_first(index: &Index, number: usize, name: &[u8]) -> bool
    ensures { result ≡ is_first index.now number name.now }
{
    match index.position(name) {
        None => false,
        Some(place) => place as usize == number,
    }
}

// The fault of an entry by name.
fn name_fault(ports: &Ports, index: &Index, number: usize, place: Place, id: &Id) -> Option<Fault>
    ensures { result ≡ Connected.entry_fault (module_tree ports.now) index.now number
        (by_name place id.now None) }
{
    let name = id.name.as_slice();
    if !is_first(index, number, name) {
        return Some((DesignFault::N7, place));
    }
    fault_if(ports.index(name).is_none(), DesignFault::N1, id.place)
}

fn entry_fault(ports: &Ports, index: &Index, number: usize, conn: &Conn) -> Option<Fault>
    ensures { result ≡ Connected.entry_fault (module_tree ports.now) index.now number
        (conn_tree conn.now) }
{
    match conn {
        Conn::Ordered(_) => None,
        Conn::Named { place, id, .. } => name_fault(ports, index, number, *place, id),
    }
}

fn entries_fault(ports: &Ports, index: &Index, conns: &[Conn]) -> Option<Fault>
    ensures { result ≡ Connected.entries_fault (module_tree ports.now) index.now 0
        (map conn_tree conns.now) None }
{
    let mut fault = None;
    for (number, conn) in conns.iter().enumerate() {
        fault = least(fault, entry_fault(ports, index, number, conn));
    }
    fault
}

// The fault of a list itself.
fn list_fault(ports: &Ports, index: &Index, place: Place, conns: &[Conn]) -> Option<Fault>
    requires { index.now ≡ Connected.names_of (map conn_tree conns.now) }
    ensures { result ≡ Connected.list_fault (module_tree ports.now) place
        (map conn_tree conns.now) }
{
    if !any_ordered(conns) {
        return entries_fault(ports, index, conns);
    }
    let is_wrong = any_by_name(conns) || conns.len() != ports.ids().len();
    fault_if(is_wrong, DesignFault::N7, place)
}

// The object of a name in a scope.
pub(crate) fn object_at(ready: Ready, scope: u32, name: &[u8]) -> Option<ObjId>
    ensures { result ≡ Connected.object_at (ready_seen ready.entry) scope name.now }
{
    object_of(ready.names.meaning(ObjId::new(scope), name))
}

// An input drives its inner net.
fn code_input(coder: &mut Coder, outer: Outer, inner: ObjId) -> Result<(), NoMemory>
    requires stands { Stands coder.old }
    requires same { HasObjects coder.old }
    ensures { Codes (λ r w c. Becomes (Connected.input_coded r w (outer_seen outer.entry) inner c))
        coder.old result coder.new }
{
    if !is_net_at(coder.ready.objects, inner) {
        take_fault(DesignFault::N5, outer.place, coder.coding);
        return Ok(());
    }
    code_input_value(coder, inner, outer.expr)
}

// An output, whose drivers these are.
fn code_driven(
    coder: &mut Coder,
    outer: Outer,
    inner: ObjId,
    numbers: DriverIds,
) -> Result<(), NoMemory>
    requires stands { Stands coder.old }
    requires same { HasObjects coder.old }
    requires readable { has_kind Kinds.is_vector (ready_of coder.old).objects inner ≡ true }
    ensures { Codes
        (λ r w c. Becomes (Connected.output_driven r w (outer_seen outer.entry) inner (numbers, c)))
        coder.old result coder.new }
{
    let place = outer.expr.place;
    let outcome = port_code(
        &mut Maker {
            alloc: coder.alloc,
            around: coder.around,
            added: &mut coder.coding.added,
        },
        place,
        numbers,
        inner,
    );
    put_code(coder.alloc, coder.ready, outcome, coder.coding)
}

// An output drives what it is connected to.
fn code_output(coder: &mut Coder, outer: Outer, inner: ObjId) -> Result<(), NoMemory>
    requires stands { Stands coder.old }
    requires same { HasObjects coder.old }
    ensures { Codes (λ r w c. Becomes (Connected.output_coded r w (outer_seen outer.entry) inner c))
        coder.old result coder.new }
{
    if !is_vector_at(coder.ready.objects, inner) {
        coder.coding.passed = true;
        return Ok(());
    }
    let outcome = output_drivers(
        coder.alloc,
        coder.around.scope,
        &coder.coding.added.exprs,
        outer.expr,
    );
    let numbers = put_drivers(coder.alloc, outcome, coder.coding)?;
    code_driven(coder, outer, inner, numbers)
}

fn code_direction(
    coder: &mut Coder,
    outer: Outer,
    inner: ObjId,
    direction: Direction,
) -> Result<(), NoMemory>
    requires stands { Stands coder.old }
    requires same { HasObjects coder.old }
    ensures { Codes
        (λ r w c. Becomes
        (Connected.direction_coded r w (outer_seen outer.entry) inner direction c))
        coder.old result coder.new }
{
    match direction {
        Direction::Input => code_input(coder, outer, inner),
        Direction::Output => code_output(coder, outer, inner),
    }
}

// A port: one that isn't connected makes nothing.
fn code_port(
    coder: &mut Coder,
    ports: &Ports,
    instance: u32,
    outer: Option<Outer>,
    id: &Id,
) -> Result<(), NoMemory>
    requires stands { Stands coder.old }
    requires same { HasObjects coder.old }
    ensures { Codes
        (λ r w c. Becomes
        (Connected.inner_coded r w (option_map outer_seen outer.entry)
        (Connected.object_at r instance id.now.name) (port_at (module_tree ports.now) id.now.name)
        c))
        coder.old result coder.new }
{
    let Some(outer) = outer else {
        return Ok(());
    };
    let name = id.name.as_slice();
    let Some(inner) = object_at(coder.ready, instance, name) else {
        return Ok(());
    };
    let Some(directed) = ports.port_at(name) else {
        return Ok(());
    };
    code_direction(coder, outer, inner, directed.direction)
}

// The ports in a row.
fn code_row(
    coder: &mut Coder,
    ports: &Ports,
    instance: u32,
    conns: &[Conn],
    index: &Index,
    ids: &[&Id],
) -> Result<(), NoMemory>
    requires stands { Stands coder.old }
    requires same { HasObjects coder.old }
    requires named { index.now ≡ Connected.names_of (map conn_tree conns.now) }
    ensures { Codes
        (λ r w c. Becomes
        (Connected.ports_coded r w (module_tree ports.now) instance (map conn_tree conns.now) 0
        (ids_seen ids.now) c))
        coder.old result coder.new }
{
    let by_place = any_ordered(conns);
    for (number, id) in ids.iter().enumerate() {
        let outer = outer_for(conns, by_place, index, number, id.name.as_slice());
        code_port(coder, ports, instance, outer, id)?;
    }
    Ok(())
}

// The connected ports of an instance with this number, in the order of the header.
pub(crate) fn code_ports(
    coder: &mut Coder,
    ports: &Ports,
    instance: u32,
    inst: &Inst,
) -> Result<(), NoMemory>
    requires stands { Stands coder.old }
    requires same { HasObjects coder.old }
    ensures { Codes
        (λ r w c. Becomes
        (Connected.connected r w (module_tree ports.now) instance (inst_tree inst.now) c))
        coder.old result coder.new }
{
    let conns = inst.conns.as_slice();
    let index = index_of(coder.alloc, conns)?;
    let fault = list_fault(ports, &index, inst.id.place, conns);
    coder.coding.fault = least(coder.coding.fault, fault);
    code_row(coder, ports, instance, conns, &index, ports.ids())
}

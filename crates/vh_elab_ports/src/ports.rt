ghost use Rattle.std.specs.Prelude.{◌≡◌, map, IfOk};
ghost use Rattle.std.specs.Option.{option_map};
ghost use Rattle.vh_ast.specs.Views.{module_tree};
ghost use Rattle.vh_bind_least.specs.Least.{least_of};
ghost use Rattle.vh_elab_ports.specs.Ports as spec;
ghost use Rattle.vh_elab_ports.specs.Views.{data_type_seen, directed_seen, ids_seen, typed_seen};

use crate::directed::{Directed, directed_in};
use crate::faults::{again_directed, again_ids, no_ports_in};
use crate::header::header_ids;
use crate::typed::{Typed, items_typed};
use std::alloc::Global;
use std::marker::Model;
use vh_ast::{DataType, Id, Module};
use vh_base::{DesignFault, NoMemory};
use vh_bind_least::{Fault, fault_if, least};
use vh_elab_index::Index;

/// The ports of a module, which contracts see as that. A look-up takes constant time in their
/// number.
#[derive(Drop)]
pub struct Ports<'a> {
    pub module: &'a Module,
    ids: Vec<&'a Id>,
    header: Index<'a>,
    directed: Vec<Directed<'a>>,
    directions: Index<'a>,
    typed: Vec<Typed<'a>>,
    types: Index<'a>,
}

impl<'a> Model for Ports<'a> {
    ghost use Rattle.std.specs.Coded.{codes};
    ghost use Rattle.vh_ast.specs.contracts.expr.Expr as expr;
    ghost use Rattle.vh_ast.specs.contracts.item.Item as item;
    ghost use Rattle.vh_ast.specs.contracts.stmt.Stmt as stmt;
    ghost use Rattle.vh_ast.specs.declared.module.Module.{Module};
    ghost use Rattle.std.specs.Prelude.{map};
    ghost use Rattle.vh_ast.specs.Views.{module_tree};
    ghost use Rattle.vh_elab_ports.specs.Tied.{AreDirections, AreTyped, IsHeader};
    ghost use Rattle.vh_elab_ports.specs.Views.{directed_seen, ids_seen, typed_seen};

    ghost Value = { Module };

    ghost coded = { Prim.hlevel (
      codes,
      expr.the_row.coded,
      item.the_row.coded,
      stmt.the_row.coded,
    ) };

    ghost view = { λ p. p.module.now };

    ghost invariant = { λ p. (IsHeader (module_tree p.module.now) (ids_seen p.ids.items) p.header)
        × (AreDirections (module_tree p.module.now) (map directed_seen p.directed.items)
        p.directions)
        × (AreTyped (module_tree p.module.now) (map typed_seen p.typed.items) p.types) };
}

fn index_ids<'a>(alloc: Global, ids: &[&'a Id]) -> Result<Index<'a>, NoMemory>
    ensures { IfOk result (λ i. i ≡ spec.names_of (ids_seen ids.now)) }
{
    let mut index = Index::new(alloc);
    for id in ids {
        index = index.with(alloc, id.name.as_slice())?;
    }
    Ok(index)
}

fn index_directed<'a>(alloc: Global, all: &[Directed<'a>]) -> Result<Index<'a>, NoMemory>
    ensures named { IfOk result (λ i. i ≡ map spec.directed_name (map directed_seen all.now)) }
    ensures identified { IfOk result (λ i. i
        ≡ spec.names_of (map (λ d. d.id) (map directed_seen all.now))) }
{
    let mut index = Index::new(alloc);
    for directed in all {
        index = index.with(alloc, directed.id.name.as_slice())?;
    }
    Ok(index)
}

fn index_typed<'a>(alloc: Global, all: &[Typed<'a>]) -> Result<Index<'a>, NoMemory>
    ensures { IfOk result (λ i. i ≡ map spec.typed_name (map typed_seen all.now)) }
{
    let mut index = Index::new(alloc);
    for typed in all {
        index = index.with(alloc, typed.name)?;
    }
    Ok(index)
}

/// The ports of a module.
pub fn ports_of(alloc: Global, module: &Module) -> Result<Ports<'_>, NoMemory>
    ensures { IfOk result (λ p. p ≡ module.now) }
{
    let ids = header_ids(alloc, &module.ports)?;
    let directed = directed_in(alloc, module)?;
    let typed = items_typed(alloc, module.items.as_slice())?;
    let header = index_ids(alloc, &ids)?;
    let directions = index_directed(alloc, &directed)?;
    let types = index_typed(alloc, &typed)?;
    Ok(Ports {
        module,
        ids,
        header,
        directed,
        directions,
        typed,
        types,
    })
}

impl<'a> Ports<'a> {
    /// The module.
    pub fn module(&self) -> &'a Module
        ensures { result.now ≡ self.now }
    {
        self.module
    }

    /// The names in the header, in order.
    pub fn ids(&self) -> &[&'a Id]
        ensures { ids_seen result.now ≡ spec.header_ids (module_tree self.now).ports }
    {
        &self.ids
    }

    /// The place of a name in the header, from 0.
    pub fn index(&self, name: &[u8]) -> Option<u32>
        ensures { result ≡ spec.port_index (module_tree self.now) name.now }
    {
        self.header.position(name)
    }

    /// What a name is as a port: its first direction.
    pub fn port_at(&self, name: &[u8]) -> Option<Directed<'a>>
        ensures { option_map directed_seen result ≡ spec.port_at (module_tree self.now) name.now }
    {
        let place = self.directions.position(name)?;
        self.directed.get(place as usize).copied()
    }

    /// The type of the first register or net of this name that the module's own items declare.
    pub fn declared_type(&self, name: &[u8]) -> Option<&'a DataType>
        ensures { data_type_seen result ≡ spec.declared_type (module_tree self.now) name.now }
    {
        let place = self.types.position(name)?;
        let typed = self.typed.get(place as usize)?;
        Some(typed.data_type)
    }

    /// The type that a port gives to the declaration of its name: none where its direction says
    /// what it is.
    pub fn open_type(&self, name: &[u8]) -> Option<&'a DataType>
        ensures { data_type_seen result ≡ spec.open_type (module_tree self.now) name.now }
    {
        let directed = self.port_at(name)?;
        if directed.port_type.is_some() {
            return None;
        }
        Some(directed.data_type)
    }

    // The least fault of names that come again, after some others.
    pub(crate) fn again(&self, so_far: Option<Fault>) -> Option<Fault>
        ensures { result ≡ spec.again_fault
            (map (λ d. d.id) (spec.directed_in (module_tree self.now)))
            (spec.again_fault (spec.header_ids (module_tree self.now).ports) so_far) }
    {
        let fault = again_ids(&self.header, &self.ids, so_far);
        again_directed(&self.directions, &self.directed, fault)
    }

    // The least fault of directions of what isn't in the header, after some others.
    pub(crate) fn no_ports(&self, so_far: Option<Fault>) -> Option<Fault>
        ensures { result ≡ least_of (spec.is_no_port (module_tree self.now))
            (spec.directed_in (module_tree self.now)) so_far }
    {
        no_ports_in(&self.header, &self.directed, so_far)
    }
}

// The least fault of names of the header without a direction, after some others.
fn lacking(ports: &Ports, ids: &[&Id], so_far: Option<Fault>) -> Option<Fault>
    ensures { result ≡ least_of (spec.lacks_direction (module_tree ports.now)) (ids_seen ids.now)
        so_far }
{
    let mut fault = so_far;
    for id in ids {
        let lacks = ports.port_at(id.name.as_slice()).is_none();
        fault = least(fault, fault_if(lacks, DesignFault::N1, id.place));
    }
    fault
}

/// The least fault of a module's ports: names that are there once only, or twice.
pub fn ports_fault(ports: &Ports) -> Option<Fault>
    ensures { result ≡ spec.ports_fault (module_tree ports.now) }
{
    let fault = lacking(ports, ports.ids(), None);
    let fault = ports.no_ports(fault);
    ports.again(fault)
}

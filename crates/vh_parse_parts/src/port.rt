//! Ports of a module's header.

ghost use Rattle.std.specs.Prelude.{◌≡◌};
ghost use Rattle.vh_parse_grammar.specs.Part.{act, bind};
ghost use Rattle.vh_ast.specs.Views.{pdecl_tree, ports_tree};
ghost use Rattle.vh_parse_syntax.specs.Items as parts;
ghost use Rattle.vh_parse_syntax.specs.Items.{port_bare, next_ports, with_pdecl, with_port};
ghost use Rattle.vh_parse_syntax.specs.Declarations.{bare_id};
ghost use Rattle.vh_parse_syntax.specs.Parts.{comma_list};
ghost use Rattle.vh_parse_expr.specs.Views.{Reads};
ghost use Rattle.vh_parse_parts.specs.Pieces.{more_ports, port_or_name};
ghost use Rattle.vh_parse_parts.specs.Views.{header_tree};

use crate::head::port_head;
use crate::ids::{bare_ids, ids};
use sqlite_items::{Boxed, Items};
use std::alloc::Global;
use vh_ast::{Id, Ids, Pdecl, Port, PortType, Ports, Variable};
use vh_parse_decl::bare_id;
use vh_parse_expr::{At, Read};
use vh_parse_syntax::{Class, Lexeme, Rows};

// Declared ports so far, and the type of the last of them.
#[derive(Drop)]
pub(crate) struct Header {
    pub first: Boxed<Pdecl>,
    pub more: Items<Port>,
    pub port_type: Option<PortType>,
}

// Whether a range is left out behind the name of such a port: behind that of any but a register.
fn port_bare(port_type: Option<PortType>) -> bool
    ensures { result ≡ port_bare port_type }
{
    match port_type {
        None => true,
        Some(PortType::Net(_)) => true,
        Some(PortType::Variable(Variable::Reg)) => false,
        Some(PortType::Variable(Variable::Integer)) => true,
        Some(PortType::Variable(Variable::Time)) => true,
    }
}

// `ID`, behind which a range is left out where it is so behind such a port.
fn port_id<'t>(port_type: Option<PortType>, at: At<'t>) -> Read<'t, Id>
    ensures { Reads (λ i. i) 0 (bare_id (port_bare port_type)) at.entry result }
{
    bare_id(port_bare(port_type), at)
}

// `ID { "," ID }`, behind each of which a range is left out in the same way.
pub(crate) fn port_names<'t>(
    alloc: Global,
    depth: usize,
    port_type: Option<PortType>,
    at: At<'t>,
) -> Read<'t, Ids>
    ensures { let part = comma_list (bare_id (port_bare port_type)) in
        Reads (λ all. all) depth part at.entry result }
{
    bare_ids(alloc, depth, port_bare(port_type), at)
}

// `pdecl`
#[tactic(auto, unfolding(vh_parse_syntax::specs::Items::pdecl))]
fn pdecl<'t>(alloc: Global, depth: usize, at: At<'t>) -> Read<'t, Pdecl>
    ensures { Reads pdecl_tree depth parts.pdecl at.entry result }
{
    let (head, more) = port_head(alloc, depth, at)?;
    let (id, rest) = port_id(head.kind, more)?;
    let pdecl = Pdecl {
        place: head.place,
        direction: head.direction,
        port_type: head.kind,
        data_type: head.data_type.into_inner(),
        id,
    };
    Ok((pdecl, rest))
}

// A `pdecl` behind a comma.
fn next_pdecl<'t>(alloc: Global, depth: usize, header: Header, at: At<'t>) -> Read<'t, Header>
    ensures { let part = act (with_pdecl (header_tree header)) parts.pdecl in
        Reads header_tree depth part at.entry result }
{
    let (pdecl, rest) = pdecl(alloc, depth, at)?;
    let mut header = header;
    header.port_type = pdecl.port_type;
    header.more.push(Port::Pdecl(pdecl))?;
    Ok((header, rest))
}

// An `ID` behind a comma: a port like the one before it.
fn next_name<'t>(header: Header, at: At<'t>) -> Read<'t, Header>
    ensures { let d = header_tree header in
        let part = act (with_port d) (bare_id (port_bare d.port_type)) in
        Reads header_tree 0 part at.entry result }
{
    let (id, rest) = port_id(header.port_type, at)?;
    let mut header = header;
    header.more.push(Port::Id(id))?;
    Ok((header, rest))
}

// `pdecl | ID`, behind a comma: an `inout` is left out.
fn port_or_name<'t>(alloc: Global, depth: usize, header: Header, at: At<'t>) -> Read<'t, Header>
    ensures { Reads header_tree depth (port_or_name (header_tree header)) at.entry result }
{
    let at = at.noting(at.tokens, at.next_is(Class::Is(Lexeme::Inout)));
    if at.next_is(Class::Row(Rows::Direction)) {
        return next_pdecl(alloc, depth, header, at);
    }
    next_name(header, at)
}

// `"," ( pdecl | ID )`
#[tactic(auto, unfolding(vh_parse_syntax::specs::Items::next_port))]
fn next_port<'t>(alloc: Global, depth: usize, header: Header, at: At<'t>) -> Read<'t, Header>
    ensures { Reads header_tree depth (parts.next_port (header_tree header)) at.entry result }
{
    let next = at.take(Class::Is(Lexeme::Comma))?;
    port_or_name(alloc, depth, header, next)
}

// `{ "," ( pdecl | ID ) }`
fn more_ports<'t>(alloc: Global, depth: usize, first: Header, at: At<'t>) -> Read<'t, Header>
    ensures { Reads header_tree depth (more_ports (header_tree first)) at.entry result }
{
    let mut header = first;
    let mut rest = at;
    'ports: while rest.next_is(Class::Is(Lexeme::Comma)) {
        let (longer, end) = next_port(alloc, depth, header, rest)?;
        header = longer;
        rest = end;
    }
    Ok((header, rest))
}

// `pdecl { "," ( pdecl | ID ) }`
#[tactic(auto, unfolding(vh_parse_syntax::specs::Items::next_ports))]
fn declared_ports<'t>(alloc: Global, depth: usize, at: At<'t>) -> Read<'t, Boxed<Ports>>
    ensures { Reads ports_tree depth (bind parts.pdecl next_ports) at.entry result }
{
    let (first, more) = pdecl(alloc, depth, at)?;
    let port_type = first.port_type;
    let header = Header {
        first: Boxed::new(alloc, first)?,
        more: Items::new(alloc),
        port_type,
    };
    let (header, rest) = more_ports(alloc, depth, header, more)?;
    let first = header.first.into_inner();
    Ok((
        Boxed::new(alloc, Ports::Declared(first, header.more))?,
        rest,
    ))
}

/// `ports = ID { "," ID } | pdecl { "," ( pdecl | ID ) }` (IEEE 1364-2005, A.1.3)
#[tactic(auto, unfolding(vh_parse_syntax::specs::Items::ports))]
pub fn ports<'t>(alloc: Global, depth: usize, at: At<'t>) -> Read<'t, Boxed<Ports>>
    ensures { Reads ports_tree depth parts.ports at.entry result }
{
    if at.next_is(Class::Name) {
        let (all, rest) = ids(alloc, depth, at)?;
        return Ok((Boxed::new(alloc, Ports::Plain(all))?, rest));
    }
    declared_ports(alloc, depth, at)
}

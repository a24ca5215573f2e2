ghost use Rattle.std.specs.Prelude.{◌≡◌, is_some, map, None, OnOk};
ghost use Rattle.std.specs.Option.{option_map};
ghost use Rattle.vh_ast.specs.Views.{assigned_tree, conn_tree, delay_tree, expr_tree, gate_tree, inst_tree, item_tree, module_tree, net_tree, par_tree, plain_tree, set_tree, stmt_tree, type_tree};
ghost use Rattle.vh_elab_mentions.specs.Views.{ids_seen};
ghost use Rattle.vh_bind_scope.specs.LookUp.{found};
ghost use Rattle.vh_elab_sites.specs.Sites;
ghost use Rattle.vh_elab_sites.specs.Sites.{each};
ghost use Rattle.vh_elab_ports.specs.Views.{data_type_seen, directed_seen};
ghost use Rattle.vh_elab_sites.specs.Views.{declared_seen, home_seen, sites_seen, around_seen, var_type_seen};

use crate::decls::{add_decl, type_at};
use crate::routines::{add_function, add_task};
use crate::site::{CodeWord, Declared, Driven, Listing, Thing, VarType, add_named, add_site};
use crate::stmts::add_stmt;
use sqlite_items::Boxed;
use std::alloc::Global;
use vh_ast::{
    Assigned, Conn, DataType, Delay, Direction, Expr, Gate, GateType, Id, Inst, Item, ItemForm,
    Net, NetType, Par, ParameterWord, Plain, PortType, ProcessWord, Set, Stmt, Variable,
};
use vh_base::{NoMemory, ObjId, Place};
use vh_bind_scope::{Meaning, found};
use vh_elab_mentions::{conns_ids, target_ids, terminals_ids};
use vh_elab_ports::{Directed, Ports};

/// Where items stand: their module, and the scopes around them, from the inside out, of which the
/// first is their own.
#[derive(Clone, Copy)]
pub struct Around<'a, 'b> {
    pub ports: &'b Ports<'a>,
    pub scope: u32,
    /// Whether names that aren't declared are wires.
    pub wires: bool,
    /// Without the scope itself.
    pub around: &'b [ObjId],
}

// The ports of the module, in its own scope.
fn home_at<'a, 'b>(around_it: Around<'a, 'b>) -> Option<&'b Ports<'a>>
    ensures { home_seen result ≡ Sites.home_at (around_seen around_it.entry) }
{
    match around_it.around {
        [] => Some(around_it.ports),
        [_, ..] => None,
    }
}

// A name that none of the scopes declares is a wire of this one.
fn add_wire<'a>(
    alloc: Global,
    around_it: Around<'a, '_>,
    id: &'a Id,
    sites: &mut Listing<'a>,
) -> Result<(), NoMemory>
    ensures { OnOk result (sites_seen sites.new ≡
        Sites.with_wire (around_seen around_it.entry) id.now (sites_seen sites.old)) }
{
    let scope = ObjId::new(around_it.scope);
    add_named(around_it.scope, id, Declared::Wire, sites)?;
    sites
        .seen
        .declare(alloc, scope, id.name.as_slice(), Meaning::Gate)?;
    Ok(())
}

// Whether a scope or one around it declares a name.
fn is_seen(around_it: Around, name: &[u8], sites: &Listing) -> bool
    ensures { result ≡ is_some (found (sites_seen sites.now).seen (Sites.scopes_of
        (around_seen around_it.entry)) name.now) }
{
    let scope = ObjId::new(around_it.scope);
    sites.seen.meaning(scope, name).is_some()
        || found(&sites.seen, around_it.around, name).is_some()
}

fn add_missing<'a>(
    alloc: Global,
    around_it: Around<'a, '_>,
    id: &'a Id,
    sites: &mut Listing<'a>,
) -> Result<(), NoMemory>
    ensures { OnOk result (sites_seen sites.new ≡
        Sites.wire_site (around_seen around_it.entry) id.now (sites_seen sites.old)) }
{
    if is_seen(around_it, id.name.as_slice(), sites) {
        return Ok(());
    }
    add_wire(alloc, around_it, id, sites)
}

// The wires that names make.
fn add_wires<'a>(
    alloc: Global,
    around_it: Around<'a, '_>,
    ids: &[&'a Id],
    sites: &mut Listing<'a>,
) -> Result<(), NoMemory>
    ensures { OnOk result (sites_seen sites.new ≡
        Sites.wires_sites (around_seen around_it.entry) (ids_seen ids.now)
        (sites_seen sites.old)) }
{
    if !around_it.wires {
        return Ok(());
    }
    for id in ids {
        add_missing(alloc, around_it, id, sites)?;
    }
    Ok(())
}

// What a direction says that a port is.
fn port_declared<'a>(port_type: PortType, data_type: &'a DataType) -> Declared<'a>
    ensures own { Sites.generated_name (declared_seen result) ≡ None }
    ensures value { declared_seen result ≡ Sites.port_declared port_type (type_tree data_type.now) }
{
    match port_type {
        PortType::Net(word) => Declared::Typed(Thing::Net(word), VarType::Typed(data_type, None)),
        PortType::Variable(Variable::Reg) => {
            Declared::Typed(Thing::Variable(None), VarType::Typed(data_type, None))
        }
        PortType::Variable(Variable::Integer) => Declared::Typed(
            Thing::Variable(None),
            VarType::Integer,
        ),
        PortType::Variable(Variable::Time) => Declared::Typed(Thing::Variable(None), VarType::Time),
    }
}

fn written_type<'a>(port_type: PortType, data_type: &'a DataType) -> VarType<'a>
    ensures { var_type_seen result ≡ Sites.written_type port_type (type_tree data_type.now) }
{
    match port_type {
        PortType::Net(_) | PortType::Variable(Variable::Reg) => VarType::Typed(data_type, None),
        PortType::Variable(Variable::Integer) => VarType::Integer,
        PortType::Variable(Variable::Time) => VarType::Time,
    }
}

// The type of a port, which another declaration of its name may have.
fn port_at_type<'a>(
    declared: Option<&'a DataType>,
    port_type: Option<PortType>,
    data_type: &'a DataType,
) -> VarType<'a>
    ensures { var_type_seen result
        ≡ Sites.port_at_type (data_type_seen declared.entry) port_type (type_tree data_type.now) }
{
    match port_type {
        Some(port_type) => written_type(port_type, data_type),
        None => match declared {
            None => VarType::Typed(data_type, None),
            Some(declared) => VarType::Typed(declared, Some(data_type)),
        },
    }
}

// The net or variable of a port, where no other declaration is one.
fn add_thing<'a>(
    scope: u32,
    directed: Directed<'a>,
    declared: Option<&'a DataType>,
    sites: &mut Listing<'a>,
) -> Result<(), NoMemory>
    ensures { OnOk result (sites_seen sites.new ≡
        Sites.thing_site scope (directed_seen directed.entry) (data_type_seen declared.entry)
        (directed_seen directed.entry).port_type (sites_seen sites.old)) }
{
    match directed.port_type {
        Some(port_type) => {
            let declared = port_declared(port_type, directed.data_type);
            add_named(scope, directed.id, declared, sites)
        }
        None => match declared {
            Some(_) => Ok(()),
            None => {
                let declared = Declared::Typed(
                    Thing::Net(NetType::Wire),
                    VarType::Typed(directed.data_type, None),
                );
                add_named(scope, directed.id, declared, sites)
            }
        },
    }
}

// A port, and its net or variable.
fn add_port<'a>(
    ports: &Ports<'a>,
    scope: u32,
    directed: Directed<'a>,
    sites: &mut Listing<'a>,
) -> Result<(), NoMemory>
    ensures { OnOk result (sites_seen sites.new ≡
        Sites.port_site (module_tree ports.now) scope (directed_seen directed.entry)
        (sites_seen sites.old)) }
{
    let name = directed.id.name.as_slice();
    let declared = ports.declared_type(name);
    let var_type = port_at_type(declared, directed.port_type, directed.data_type);
    let index = ports.index(name).unwrap_or(0);
    let port = Declared::Typed(Thing::Port(directed.direction, index), var_type);
    add_named(scope, directed.id, port, sites)?;
    add_thing(scope, directed, declared, sites)
}

// A name that a direction is given to: in a generate block it is no port.
fn add_port_id<'a>(
    around_it: Around<'a, '_>,
    directed: Directed<'a>,
    sites: &mut Listing<'a>,
) -> Result<(), NoMemory>
    ensures { OnOk result (sites_seen sites.new ≡ Sites.port_by
        (Sites.home_at (around_seen around_it.entry)) around_it.entry.scope
        (directed_seen directed.entry) (sites_seen sites.old)) }
{
    match home_at(around_it) {
        None => Ok(()),
        Some(ports) => add_port(ports, around_it.scope, directed, sites),
    }
}

// The ports of a row of names.
fn add_directed<'a>(
    around_it: Around<'a, '_>,
    direction: Direction,
    port_type: Option<PortType>,
    data_type: &'a DataType,
    ids: &'a [Id],
    sites: &mut Listing<'a>,
) -> Result<(), NoMemory>
    ensures { OnOk result (sites_seen sites.new ≡
        each (Sites.port_id (around_seen around_it.entry) direction port_type
        (type_tree data_type.now)) ids.now (sites_seen sites.old)) }
{
    for id in ids {
        let directed = Directed {
            id,
            direction,
            port_type,
            data_type,
        };
        add_port_id(around_it, directed, sites)?;
    }
    Ok(())
}

/// The ports that a header declares.
pub fn add_ports<'a>(
    ports: &Ports<'a>,
    scope: u32,
    all: &[Directed<'a>],
    sites: &mut Listing<'a>,
) -> Result<(), NoMemory>
    ensures { OnOk result (sites_seen sites.new ≡
        Sites.ports_sites (module_tree ports.now) scope (map directed_seen all.now)
        (sites_seen sites.old)) }
{
    for directed in all {
        add_port(ports, scope, *directed, sites)?;
    }
    Ok(())
}

// What a declaration assigns to its net.
fn add_value<'a>(
    scope: u32,
    delay: &'a Option<Boxed<Delay>>,
    number: u32,
    id: &'a Id,
    value: &'a Option<Boxed<Expr>>,
    sites: &mut Listing<'a>,
) -> Result<(), NoMemory>
    ensures { OnOk result (sites_seen sites.new ≡
        Sites.value_site scope (option_map delay_tree delay.now) number id.now
        (option_map expr_tree value.now) (sites_seen sites.old)) }
{
    match value {
        None => Ok(()),
        Some(value) => {
            let declared = Declared::Drives(delay, Driven::Net(number), value.get());
            add_site(scope, &[], id.place, declared, sites)
        }
    }
}

// A net, with what its declaration assigns to it.
fn add_net<'a>(
    around_it: Around<'a, '_>,
    word: NetType,
    data_type: &'a DataType,
    delay: &'a Option<Boxed<Delay>>,
    net: &'a Net,
    sites: &mut Listing<'a>,
) -> Result<(), NoMemory>
    ensures { OnOk result (sites_seen sites.new ≡
        Sites.net_sites (around_seen around_it.entry) word (type_tree data_type.now)
        (option_map delay_tree delay.now) (net_tree net.now) (sites_seen sites.old)) }
{
    let number = sites.next;
    let var_type = type_at(home_at(around_it), net.id.name.as_slice(), data_type);
    add_named(
        around_it.scope,
        &net.id,
        Declared::Typed(Thing::Net(word), var_type),
        sites,
    )?;
    add_value(around_it.scope, delay, number, &net.id, &net.value, sites)
}

fn add_nets<'a>(
    around_it: Around<'a, '_>,
    word: NetType,
    data_type: &'a DataType,
    delay: &'a Option<Boxed<Delay>>,
    nets: &'a [Net],
    sites: &mut Listing<'a>,
) -> Result<(), NoMemory>
    ensures { OnOk result (sites_seen sites.new ≡
        each (Sites.net_sites (around_seen around_it.entry) word (type_tree data_type.now)
        (option_map delay_tree delay.now)) (map net_tree nets.now) (sites_seen sites.old)) }
{
    for net in nets {
        add_net(around_it, word, data_type, delay, net, sites)?;
    }
    Ok(())
}

// A continuous assignment, and the wires that its target makes.
fn add_set<'a>(
    alloc: Global,
    around_it: Around<'a, '_>,
    delay: &'a Option<Boxed<Delay>>,
    set: &'a Set,
    sites: &mut Listing<'a>,
) -> Result<(), NoMemory>
    ensures { OnOk result (sites_seen sites.new ≡
        Sites.set_site (around_seen around_it.entry) (option_map delay_tree delay.now)
        (set_tree set.now) (sites_seen sites.old)) }
{
    let mut ids = Vec::new(alloc);
    target_ids(&set.target, &mut ids)?;
    add_wires(alloc, around_it, &ids, sites)?;
    let declared = Declared::Drives(delay, Driven::Target(&set.target), &set.value);
    add_site(around_it.scope, &[], set.target.place, declared, sites)
}

fn add_sets<'a>(
    alloc: Global,
    around_it: Around<'a, '_>,
    delay: &'a Option<Boxed<Delay>>,
    sets: &'a [Set],
    sites: &mut Listing<'a>,
) -> Result<(), NoMemory>
    ensures { OnOk result (sites_seen sites.new ≡
        each (Sites.set_site (around_seen around_it.entry) (option_map delay_tree delay.now))
        (map set_tree sets.now) (sites_seen sites.old)) }
{
    for set in sets {
        add_set(alloc, around_it, delay, set, sites)?;
    }
    Ok(())
}

fn gate_name(id: &Option<Id>) -> &[u8]
    ensures { result.now ≡ Sites.gate_name id.now }
{
    match id {
        None => &[],
        Some(id) => id.name.as_slice(),
    }
}

// A gate, and the wires that its terminals make.
fn add_gate<'a>(
    alloc: Global,
    around_it: Around<'a, '_>,
    word: GateType,
    delay: &'a Option<Boxed<Delay>>,
    gate: &'a Gate,
    sites: &mut Listing<'a>,
) -> Result<(), NoMemory>
    ensures { OnOk result (sites_seen sites.new ≡
        Sites.gate_site (around_seen around_it.entry) word (option_map delay_tree delay.now)
        (gate_tree gate.now) (sites_seen sites.old)) }
{
    let mut ids = Vec::new(alloc);
    terminals_ids(gate.terminals.as_slice(), &mut ids)?;
    add_wires(alloc, around_it, &ids, sites)?;
    let declared = Declared::Gate(word, delay, gate);
    add_site(
        around_it.scope,
        gate_name(&gate.id),
        gate.place,
        declared,
        sites,
    )
}

fn add_gates<'a>(
    alloc: Global,
    around_it: Around<'a, '_>,
    word: GateType,
    delay: &'a Option<Boxed<Delay>>,
    gates: &'a [Gate],
    sites: &mut Listing<'a>,
) -> Result<(), NoMemory>
    ensures { OnOk result (sites_seen sites.new ≡
        each (Sites.gate_site (around_seen around_it.entry) word (option_map delay_tree delay.now))
        (map gate_tree gates.now) (sites_seen sites.old)) }
{
    for gate in gates {
        add_gate(alloc, around_it, word, delay, gate, sites)?;
    }
    Ok(())
}

// An instance, and the wires that its connections make.
fn add_child<'a>(
    alloc: Global,
    around_it: Around<'a, '_>,
    module: &'a Id,
    parameters: &'a [Conn],
    inst: &'a Inst,
    sites: &mut Listing<'a>,
) -> Result<(), NoMemory>
    ensures { OnOk result (sites_seen sites.new ≡
        Sites.child_site (around_seen around_it.entry) module.now (map conn_tree parameters.now)
        (inst_tree inst.now) (sites_seen sites.old)) }
{
    let mut ids = Vec::new(alloc);
    conns_ids(inst.conns.as_slice(), &mut ids)?;
    add_wires(alloc, around_it, &ids, sites)?;
    let declared = Declared::Child(module, parameters, inst);
    add_named(around_it.scope, &inst.id, declared, sites)
}

fn add_children<'a>(
    alloc: Global,
    around_it: Around<'a, '_>,
    module: &'a Id,
    parameters: &'a [Conn],
    insts: &'a [Inst],
    sites: &mut Listing<'a>,
) -> Result<(), NoMemory>
    ensures { OnOk result (sites_seen sites.new ≡
        each (Sites.child_site (around_seen around_it.entry) module.now
        (map conn_tree parameters.now)) (map inst_tree insts.now) (sites_seen sites.old)) }
{
    for inst in insts {
        add_child(alloc, around_it, module, parameters, inst, sites)?;
    }
    Ok(())
}

// Events, genvars.
fn add_ids<'a>(
    scope: u32,
    declared: Declared<'a>,
    ids: &'a [Id],
    sites: &mut Listing<'a>,
) -> Result<(), NoMemory>
    requires { Sites.generated_name (declared_seen declared) ≡ None }
    ensures { OnOk result (sites_seen sites.new ≡
        each (λ id so. Sites.with_named scope id (declared_seen declared.entry) so) ids.now
        (sites_seen sites.old)) }
{
    for id in ids {
        add_named(scope, id, declared, sites)?;
    }
    Ok(())
}

fn add_constants<'a>(
    scope: u32,
    word: ParameterWord,
    data_type: &'a DataType,
    all: &'a [Assigned],
    sites: &mut Listing<'a>,
) -> Result<(), NoMemory>
    ensures { OnOk result (sites_seen sites.new ≡
        each (Sites.constant_site scope word (type_tree data_type.now)) (map assigned_tree all.now)
        (sites_seen sites.old)) }
{
    for assigned in all {
        let declared = Declared::Constant(word, Some(data_type), &assigned.value);
        add_named(scope, &assigned.id, declared, sites)?;
    }
    Ok(())
}

fn construct_word(word: ProcessWord) -> CodeWord
    ensures { result ≡ Sites.construct_word word }
{
    match word {
        ProcessWord::Initial => CodeWord::Initial,
        ProcessWord::Always => CodeWord::Always,
    }
}

// An `initial` or `always` construct, with the named blocks in it.
fn add_construct<'a>(
    scope: u32,
    place: Place,
    word: ProcessWord,
    stmt: &'a Stmt,
    sites: &mut Listing<'a>,
) -> Result<(), NoMemory>
    ensures { OnOk result (sites_seen sites.new ≡
        Sites.construct_sites scope place word (stmt_tree stmt.now) (sites_seen sites.old)) }
{
    let declared = Declared::Code(construct_word(word), stmt);
    add_site(scope, &[], place, declared, sites)?;
    add_stmt(scope, stmt, sites)
}

/// An item that holds none.
pub fn add_plain<'a>(
    alloc: Global,
    around_it: Around<'a, '_>,
    place: Place,
    plain: &'a Plain,
    sites: &mut Listing<'a>,
) -> Result<(), NoMemory>
    ensures { OnOk result (sites_seen sites.new ≡
        Sites.plain_sites (around_seen around_it.entry) place (plain_tree plain.now)
        (sites_seen sites.old)) }
{
    let scope = around_it.scope;
    match plain {
        Plain::Port {
            direction,
            port_type,
            data_type,
            ids,
        } => add_directed(
            around_it,
            *direction,
            *port_type,
            data_type,
            ids.as_slice(),
            sites,
        ),
        Plain::Net {
            net_type,
            data_type,
            delay,
            nets,
        } => add_nets(
            around_it,
            *net_type,
            data_type,
            delay,
            nets.as_slice(),
            sites,
        ),
        Plain::Decl(decl) => add_decl(home_at(around_it), scope, decl, sites),
        Plain::Event(ids) => add_ids(scope, Declared::Event, ids.as_slice(), sites),
        Plain::Genvar(ids) => add_ids(scope, Declared::Genvar, ids.as_slice(), sites),
        Plain::Parameter {
            word,
            data_type,
            values,
        } => add_constants(scope, *word, data_type, values.as_slice(), sites),
        Plain::Assign(delay, sets) => add_sets(alloc, around_it, delay, sets.as_slice(), sites),
        Plain::Gate {
            gate_type,
            delay,
            gates,
        } => add_gates(alloc, around_it, *gate_type, delay, gates.as_slice(), sites),
        Plain::Inst {
            module,
            conns,
            insts,
        } => add_children(
            alloc,
            around_it,
            module,
            conns.as_slice(),
            insts.as_slice(),
            sites,
        ),
        Plain::Process(word, stmt) => add_construct(scope, place, *word, stmt.get(), sites),
        Plain::Task(task) => add_task(scope, task.get(), sites),
        Plain::Function(function) => add_function(scope, function.get(), sites),
    }
}

/// An item that holds none; of another one nothing is made.
pub fn add_item<'a>(
    alloc: Global,
    around_it: Around<'a, '_>,
    item: &'a Item,
    sites: &mut Listing<'a>,
) -> Result<(), NoMemory>
    ensures { OnOk result (sites_seen sites.new ≡ Sites.own_item
        (around_seen around_it.entry) (item_tree item.now) (sites_seen sites.old)) }
{
    match &item.form {
        ItemForm::Plain(plain) => add_plain(alloc, around_it, item.place, plain, sites),
        ItemForm::Generate | ItemForm::Endgenerate | ItemForm::For { .. } | ItemForm::If { .. } =>
            Ok(()),
    }
}

fn type_or<'a>(written: &'a Option<DataType>, before: Option<&'a DataType>) -> Option<&'a DataType>
    ensures { data_type_seen result
        ≡ Sites.type_or (option_map type_tree written.now) (data_type_seen before.entry) }
{
    match written {
        None => before,
        Some(data_type) => Some(data_type),
    }
}

/// The parameters of a header.
pub fn add_pars<'a>(scope: u32, pars: &'a [Par], sites: &mut Listing<'a>) -> Result<(), NoMemory>
    ensures { OnOk result (sites_seen sites.new ≡
        Sites.pars_sites scope None (map par_tree pars.now) (sites_seen sites.old)) }
{
    let mut last: Option<&'a DataType> = None;
    for par in pars {
        last = type_or(&par.data_type, last);
        let declared = Declared::Constant(ParameterWord::Parameter, last, &par.value);
        add_named(scope, &par.id, declared, sites)?;
    }
    Ok(())
}

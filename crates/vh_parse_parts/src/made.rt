//! Items that are made of their parts.

ghost use Rattle.std.specs.Prelude.{◌≡◌, MatchResult, option_map, map};
ghost use Rattle.vh_parse_grammar.specs.declared.stop.Stop.TheVariants.{Memory};
ghost use Rattle.vh_ast.specs.Views.{type_tree, assigned_tree, net_tree, plain_tree, item_tree, decl_tree, set_tree, gate_tree, inst_tree, delay_tree};
ghost use Rattle.vh_parse_syntax.specs.Items as parts;
ghost use Rattle.vh_parse_parts.specs.Views.{head_tree, nets_pair, conns_seen};

use crate::head::PortHead;
use sqlite_items::{Boxed, Items};
use std::alloc::Global;
use vh_ast::{
    Assigned, Conns, DataType, Decl, Delay, Gate, GateType, Id, Ids, Inst, Item, ItemForm, Net,
    NetType, ParameterWord, Plain, Set,
};
use vh_base::Place;
use vh_parse_grammar::Stop;

/// An item in which none stands.
pub fn plain(alloc: Global, place: Place, form: Plain) -> Result<Boxed<Item>, Stop>
    ensures { let made = parts.plain_at place (plain_tree form) in
        MatchResult result (λ i. item_tree i ≡ made) (λ stop. stop ≡ Memory) }
{
    let form = ItemForm::Plain(form);
    Ok(Boxed::new(alloc, Item { place, form })?)
}

// Ports of a module.
pub(crate) fn ports(alloc: Global, head: PortHead, ids: Ids) -> Result<Boxed<Item>, Stop>
    ensures { let made = parts.port_of (head_tree head) ids in
        MatchResult result (λ i. item_tree i ≡ made) (λ stop. stop ≡ Memory) }
{
    let form = Plain::Port {
        direction: head.direction,
        port_type: head.kind,
        data_type: head.data_type.into_inner(),
        ids,
    };
    plain(alloc, head.place, form)
}

// A declaration of nets.
pub(crate) fn nets(
    alloc: Global,
    word: (Place, NetType),
    data_type: Boxed<DataType>,
    all: (Option<Boxed<Delay>>, Items<Net>),
) -> Result<Boxed<Item>, Stop>
    ensures { let made = parts.net_item_of word (type_tree data_type, nets_pair all) in
        MatchResult result (λ i. item_tree i ≡ made) (λ stop. stop ≡ Memory) }
{
    let form = Plain::Net {
        net_type: word.1,
        data_type: data_type.into_inner(),
        delay: all.0,
        nets: all.1,
    };
    plain(alloc, word.0, form)
}

// Parameters of a module.
pub(crate) fn parameters(
    alloc: Global,
    word: (Place, ParameterWord),
    data_type: Boxed<DataType>,
    values: Items<Assigned>,
) -> Result<Boxed<Item>, Stop>
    ensures { let made = parts.parameter_of word (type_tree data_type, map assigned_tree values) in
        MatchResult result (λ i. item_tree i ≡ made) (λ stop. stop ≡ Memory) }
{
    let form = Plain::Parameter {
        word: word.1,
        data_type: data_type.into_inner(),
        values,
    };
    plain(alloc, word.0, form)
}

// Where a declaration stands.
fn decl_place(decl: &Decl) -> Place
    ensures { result ≡ parts.decl_place (decl_tree decl.now) }
{
    match decl {
        Decl::Reg { place, .. } => *place,
        Decl::Integer(place, _) => *place,
        Decl::Time(place, _) => *place,
    }
}

// A declaration of variables.
pub(crate) fn declared(alloc: Global, decl: Decl) -> Result<Boxed<Item>, Stop>
    ensures { let made = parts.decl_of (decl_tree decl) in
        MatchResult result (λ i. item_tree i ≡ made) (λ stop. stop ≡ Memory) }
{
    let place = decl_place(&decl);
    plain(alloc, place, Plain::Decl(decl))
}

// Continuous assignments.
pub(crate) fn assigns(
    alloc: Global,
    place: Place,
    delay: Option<Boxed<Delay>>,
    sets: Items<Set>,
) -> Result<Boxed<Item>, Stop>
    ensures { let made = parts.assign_of place (option_map delay_tree delay, map set_tree sets) in
        MatchResult result (λ i. item_tree i ≡ made) (λ stop. stop ≡ Memory) }
{
    plain(alloc, place, Plain::Assign(delay, sets))
}

// Gates of one kind.
pub(crate) fn gates(
    alloc: Global,
    word: (Place, GateType),
    delay: Option<Boxed<Delay>>,
    gates: Items<Gate>,
) -> Result<Boxed<Item>, Stop>
    ensures { let made = parts.gate_of word (option_map delay_tree delay, map gate_tree gates) in
        MatchResult result (λ i. item_tree i ≡ made) (λ stop. stop ≡ Memory) }
{
    let form = Plain::Gate {
        gate_type: word.1,
        delay,
        gates,
    };
    plain(alloc, word.0, form)
}

// Instances of a module.
pub(crate) fn instances(
    alloc: Global,
    name: Id,
    overrides: Option<Conns>,
    insts: Items<Inst>,
) -> Result<Boxed<Item>, Stop>
    ensures { let conns = option_map conns_seen overrides in
        let made = parts.instance_of name (conns, map inst_tree insts) in
        MatchResult result (λ i. item_tree i ≡ made) (λ stop. stop ≡ Memory) }
{
    let place = name.place;
    let conns = match overrides {
        Some(all) => all,
        None => Items::new(alloc),
    };
    let form = Plain::Inst {
        module: name,
        conns,
        insts,
    };
    plain(alloc, place, form)
}

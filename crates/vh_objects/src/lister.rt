ghost use Rattle.std.specs.Prelude.{◌≡◌, ◌<◌, ◌≤◌, ◌+◌, ◌^◌, length, map, slice_get, IfOk, IfSome, None};
ghost use Rattle.std.specs.List.{range_with_len};
ghost use Rattle.vh_design_nodes.specs.Fits.{has_kind};
ghost use Rattle.vh_objects.specs.Objects.{word};
ghost use Rattle.vh_objects.specs.Relations.{lists, count_from, children_listed, arguments_of, members, many_from_null, many_from_whole, many};
ghost use Rattle.vh_objects.specs.Views.{AreChildren, objects_in, HasAddresses};

use crate::children::Children;
use crate::order::{Key, in_order};
use crate::relation::object_at;
use crate::tables::{leads_from, leads_from_null, lists};
use std::alloc::Global;
use std::marker::Model;
use vh_base::{NoMemory, ObjId, Object, Relation};
use vh_design::{Design, Detail, ObjectInfo, lowest_of};

// What is listed: objects of the design, so many words of a memory, or the arguments of a call.
#[derive(Drop)]
enum Listed {
    Objects(Vec<ObjId>),
    Words {
        memory: ObjId,
        lowest: u32,
        count: u32,
    },
    Arguments(Vec<Object>),
}

/// The objects that stand in a relation to an object, which contracts see as their list. It is made once, and
/// then the object at a position is there at once.
#[derive(Drop)]
pub struct Lister {
    listed: Listed,
}

impl Model for Lister {
    ghost use Rattle.std.specs.Prelude.{List};
    ghost use Rattle.vh_base.specs.declared.orders.Object.{Object};
    ghost use Rattle.vh_objects.specs.Views.{objects_in, HasAddresses};

    ghost Value = { List Object };

    ghost view = { λ l. objects_in l.listed };

    ghost invariant = { λ l. HasAddresses l.listed };
}

impl Lister {
    /// Of a relation from an object, or from null, in the order of the source; nothing where the kind has
    /// no such relation (IEEE 1364-2005, 26.6). It takes a step for each object directly inside the scope.
    pub fn of(
        alloc: Global,
        d: &Design,
        children: &Children,
        r: Relation,
        o: Option<Object>,
    ) -> Result<Option<Lister>, NoMemory>
        requires { AreChildren (length d.now.objects) d.now.objects children.now }
        ensures { IfOk result (λ l. l ≡ many d.now.objects r o) }
    {
        match o {
            None => Lister::of_null(alloc, d, children, r),
            Some(Object { word: Some(_), .. }) => Ok(None),
            Some(Object { id, word: None }) => Lister::of_object(alloc, d, children, r, id),
        }
    }

    // From null.
    fn of_null(
        alloc: Global,
        d: &Design,
        children: &Children,
        r: Relation,
    ) -> Result<Option<Lister>, NoMemory>
        requires { AreChildren (length d.now.objects) d.now.objects children.now }
        ensures { IfOk result (λ l. l ≡ many_from_null d.now.objects r) }
    {
        if !leads_from_null(r) {
            return Ok(None);
        }
        let listed = Listed::Objects(children_listed(alloc, d, children, r, None)?);
        Ok(Some(Lister { listed }))
    }

    // From an object that is no word.
    fn of_object(
        alloc: Global,
        d: &Design,
        children: &Children,
        r: Relation,
        id: ObjId,
    ) -> Result<Option<Lister>, NoMemory>
        requires { AreChildren (length d.now.objects) d.now.objects children.now }
        ensures { IfOk result (λ l. l ≡ many_from_whole d.now.objects r id None) }
    {
        let Some(info) = object_at(d, id) else {
            return Ok(None);
        };
        if !leads_from(r, info.kind) {
            return Ok(None);
        }
        let listed = members(alloc, d, children, r, id, info)?;
        Ok(Some(Lister { listed }))
    }

    /// The object at a position.
    pub fn get(&self, at: u32) -> Option<Object>
        ensures { result ≡ slice_get self.now at }
    {
        match &self.listed {
            Listed::Objects(objects) => match objects.as_slice().get(at as usize) {
                None => None,
                Some(id) => Some(Object {
                    id: *id,
                    word: None,
                }),
            },
            Listed::Words {
                memory,
                lowest,
                count,
            } => word_at(*memory, *lowest, *count, at),
            Listed::Arguments(objects) => objects.as_slice().get(at as usize).copied(),
        }
    }
}

/// How many words with an address a memory has, from the lowest on: all addresses are below 2^32.
pub fn count_from(lowest: u32, words: u32) -> u32
    ensures value { result ≡ count_from lowest words }
    ensures fits { lowest + result ≤ 2 ^ 32 }
{
    let room = (1_u64 << 32) - u64::from(lowest);
    u64::from(words).min(room) as u32
}

// A word of so many, from the lowest address on.
fn word_at(memory: ObjId, lowest: u32, count: u32, at: u32) -> Option<Object>
    requires { lowest + count ≤ 2 ^ 32 }
    ensures { result ≡ slice_get (map (word memory) (range_with_len lowest count)) at }
{
    if at >= count {
        return None;
    }
    Some(Object {
        id: memory,
        word: Some(lowest + at),
    })
}

// The objects directly inside a scope that the relation lists.
fn children_listed(
    alloc: Global,
    d: &Design,
    children: &Children,
    r: Relation,
    scope: Option<ObjId>,
) -> Result<Vec<ObjId>, NoMemory>
    requires made { AreChildren (length d.now.objects) d.now.objects children.now }
    requires there { IfSome scope (λ s. s < length d.now.objects) }
    ensures { IfOk result (λ v. v.items ≡ children_listed d.now.objects r scope) }
{
    let mut listed = Vec::new(alloc);
    for o in children.inside(d, scope) {
        if is_listed(d, r, *o) {
            listed.push(*o)?;
        }
    }
    Ok(listed)
}

// Does the relation list this object?
fn is_listed(d: &Design, r: Relation, o: ObjId) -> bool
    ensures { result ≡ has_kind (lists r) d.now.objects o }
{
    match object_at(d, o) {
        None => false,
        Some(info) => lists(r, info.kind),
    }
}

// What a relation lists from an object that it leads from.
fn members(
    alloc: Global,
    d: &Design,
    children: &Children,
    r: Relation,
    id: ObjId,
    info: &ObjectInfo,
) -> Result<Listed, NoMemory>
    requires made { AreChildren (length d.now.objects) d.now.objects children.now }
    requires there { id < length d.now.objects }
    ensures members { IfOk result (λ l. objects_in l ≡ members d.now.objects r id info.now) }
    ensures addresses { IfOk result (λ l. HasAddresses l) }
{
    match r {
        Relation::VpiScope | Relation::VpiParent | Relation::VpiSysTfCall => {
            Ok(Listed::Objects(Vec::new(alloc)))
        }
        Relation::VpiMemoryWord => {
            let lowest = lowest_of(&info.detail);
            Ok(Listed::Words {
                memory: id,
                lowest,
                count: count_from(lowest, info.words),
            })
        }
        Relation::VpiArgument => Ok(Listed::Arguments(arguments_of(alloc, &info.detail)?)),
        Relation::VpiInternalScope => {
            let scopes = children_listed(alloc, d, children, r, Some(id))?;
            Ok(Listed::Objects(in_order(alloc, d, Key::Line, scopes.as_slice())?))
        }
        Relation::VpiPort => {
            let ports = children_listed(alloc, d, children, r, Some(id))?;
            Ok(Listed::Objects(in_order(alloc, d, Key::Index, ports.as_slice())?))
        }
        Relation::VpiModule
        | Relation::VpiNet
        | Relation::VpiContAssign
        | Relation::VpiProcess
        | Relation::VpiReg
        | Relation::VpiVariables
        | Relation::VpiMemory
        | Relation::VpiParameter
        | Relation::VpiNamedEvent => Ok(Listed::Objects(children_listed(
            alloc,
            d,
            children,
            r,
            Some(id),
        )?)),
    }
}

// The arguments of a call.
fn arguments_of(alloc: Global, detail: &Detail) -> Result<Vec<Object>, NoMemory>
    ensures { IfOk result (λ v. v.items ≡ arguments_of detail.now) }
{
    match detail {
        Detail::Call { args, .. } => Ok(Vec::from_slice(alloc, args.as_slice())?),
        _ => Ok(Vec::new(alloc)),
    }
}

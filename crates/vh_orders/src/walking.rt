ghost use Rattle.std.specs.Prelude.{◌≡◌, false};
ghost use Rattle.vh_objects.specs.Objects.{kind_of};
ghost use Rattle.vh_orders.specs.Orders.{effect_of, objects_of, one_related, thing_named, is_running_call};
ghost use Rattle.vh_orders.specs.Things.{led_to, related, is_memory_kind, if_there, word_at, word_in};
ghost use Rattle.vh_orders.specs.Views.{world_of, HasEffect};

use crate::halt::Halt;
use crate::tables::{is_running_call, is_startup};
use crate::who::Who;
use crate::world::World;
use std::alloc::Global;
use vh_base::{Answer, Code, HandleNo, ObjId, Object, Order, Relation};
use vh_design::Design;
use vh_handles::Thing;
use vh_objects::{Found, ObjectKind, info_at, kind_of, one};

// What a relation leads to.
fn led_to(found: Found) -> Result<Option<Object>, Code>
    ensures { result ≡ led_to found }
{
    match found {
        Found::Object(object) => Ok(Some(object)),
        Found::None => Ok(None),
        Found::NoRelation => Err(Code::E3),
    }
}

// The same from what a handle names.
fn related(d: &Design, relation: Relation, thing: Thing) -> Result<Option<Object>, Code>
    ensures { result ≡ related d.now.objects relation thing }
{
    match thing {
        Thing::Object(object) => led_to(one(d, relation, Some(object))),
        Thing::Iterator { .. } | Thing::Callback(_) | Thing::Event(_) => Err(Code::E3),
    }
}

// Is it the kind of a memory?
fn is_memory_kind(kind: Option<ObjectKind>) -> bool
    ensures { result ≡ is_memory_kind kind }
{
    match kind {
        Some(ObjectKind::Of(kind)) => kind.is_memory(),
        Some(ObjectKind::Word) | None => false,
    }
}

// An object that the design has.
fn if_there(d: &Design, object: Object) -> Option<Object>
    ensures { result ≡ if_there d.now.objects object }
{
    match info_at(d, &object) {
        Some(_) => Some(object),
        None => None,
    }
}

// The word of a memory at an address.
fn word_at(d: &Design, id: ObjId, n: u64) -> Option<Object>
    ensures { result ≡ word_at d.now.objects id n }
{
    match u32::try_from(n) {
        Ok(at) => if_there(d, Object { id, word: Some(at) }),
        Err(_) => None,
    }
}

// The same of what a handle names.
fn word_in(d: &Design, thing: Thing, n: u64) -> Result<Option<Object>, Code>
    ensures { result ≡ word_in d.now.objects thing n }
{
    match thing {
        Thing::Object(object) => {
            if !is_memory_kind(kind_of(d, &object)) {
                return Err(Code::E2);
            }
            Ok(word_at(d, object.id, n))
        }
        Thing::Iterator { .. } | Thing::Callback(_) | Thing::Event(_) => Err(Code::E2),
    }
}

impl World {
    // The thing that a handle names.
    pub(crate) fn thing_named(&self, h: Option<HandleNo>) -> Result<Thing, Code>
        ensures { result ≡ thing_named h (world_of self.now) }
    {
        let Some(handle) = h else {
            return Err(Code::E1);
        };
        match self.handles.thing(handle) {
            Some(thing) => Ok(thing),
            None => Err(Code::E1),
        }
    }

    // by_index: the word of a memory.
    #[inline(never)]
    pub(crate) fn by_index(
        &mut self,
        alloc: Global,
        who: &Who,
        h: Option<HandleNo>,
        n: u64,
    ) -> Result<Answer, Halt>
        ensures { HasEffect (effect_of (Order.ByIndex h n) who.now (world_of self.old))
            self.old result self.new }
    {
        if is_startup(who) {
            return Err(Halt::Refused(Code::E9));
        }
        let thing = match self.thing_named(h) {
            Ok(thing) => thing,
            Err(code) => return Err(Halt::Refused(code)),
        };
        match word_in(self.simulation.design(), thing, n) {
            Ok(found) => self.open(alloc, found),
            Err(code) => Err(Halt::Refused(code)),
        }
    }

    // handle: what a relation leads to.
    #[inline(never)]
    pub(crate) fn handle(
        &mut self,
        alloc: Global,
        who: &Who,
        relation: Relation,
        h: Option<HandleNo>,
    ) -> Result<Answer, Halt>
        ensures { HasEffect (effect_of (Order.Handle relation h) who.now (world_of self.old))
            self.old result self.new }
    {
        if is_startup(who) {
            return Err(Halt::Refused(Code::E9));
        }
        if is_running_call(relation) && h.is_none() {
            return Ok(Answer::Null);
        }
        self.one_related(alloc, relation, h)
    }

    // The same from what a handle names.
    fn one_related(
        &mut self,
        alloc: Global,
        relation: Relation,
        h: Option<HandleNo>,
    ) -> Result<Answer, Halt>
        ensures { HasEffect (one_related false relation h (world_of self.old))
            self.old result self.new }
    {
        let thing = match self.thing_named(h) {
            Ok(thing) => thing,
            Err(code) => return Err(Halt::Refused(code)),
        };
        match related(self.simulation.design(), relation, thing) {
            Ok(found) => self.open(alloc, found),
            Err(code) => Err(Halt::Refused(code)),
        }
    }
}

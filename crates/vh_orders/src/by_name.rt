ghost use Rattle.std.specs.Prelude.{◌≡◌, IfOk};
ghost use Rattle.vh_orders.specs.Names.{name_of, below};
ghost use Rattle.vh_orders.specs.Orders.{effect_of, object_in, new_handle};
ghost use Rattle.vh_orders.specs.Views.{world_of, HasEffect};

use crate::halt::Halt;
use crate::names::joined;
use crate::tables::is_startup;
use crate::who::Who;
use crate::world::World;
use std::alloc::Global;
use vh_base::{Answer, Bytes, Code, HandleNo, NoMemory, Object, Order};
use vh_handles::Thing;

// The object that a handle names.
pub(crate) fn object_in(thing: Option<Thing>) -> Result<Object, Code>
    ensures { result ≡ object_in thing }
{
    match thing {
        None => Err(Code::E1),
        Some(Thing::Object(object)) => Ok(object),
        Some(Thing::Iterator { .. } | Thing::Callback(_) | Thing::Event(_)) => Err(Code::E2),
    }
}

impl World {
    // by_name: the object of a full name, or of a path below a scope. Like `register` it stands apart, so that other orders make
    // no room for it.
    #[inline(never)]
    pub(crate) fn by_name(
        &mut self,
        alloc: Global,
        who: &Who,
        text: &[u8],
        scope: Option<HandleNo>,
    ) -> Result<Answer, Halt>
        ensures { HasEffect (effect_of (Order.ByName text.now scope) who.now (world_of self.old))
            self.old result self.new }
    {
        if is_startup(who) {
            return Err(Halt::Refused(Code::E9));
        }
        let Some(handle) = scope else {
            let found = self.names.object_named(alloc, text)?;
            return self.open(alloc, found);
        };
        let object = match object_in(self.handles.thing(handle)) {
            Ok(object) => object,
            Err(code) => return Err(Halt::Refused(code)),
        };
        if !self.is_scope(object.id) {
            return Err(Halt::Refused(Code::E2));
        }
        let name = self.name_below(alloc, &object, text)?;
        let found = self.names.object_named(alloc, name.as_slice())?;
        self.open(alloc, found)
    }

    // The full name of a path below a scope.
    fn name_below(&self, alloc: Global, scope: &Object, path: &[u8]) -> Result<Bytes, NoMemory>
        ensures { IfOk result (λ name. name ≡
            below (name_of scope.now.id (world_of self.now).names) path.now) }
    {
        joined(alloc, self.object_name(scope.id), path)
    }

    // A new handle of an object, if there is one.
    pub(crate) fn open(&mut self, alloc: Global, object: Option<Object>) -> Result<Answer, Halt>
        ensures { HasEffect (new_handle object (world_of self.old)) self.old result self.new }
    {
        let Some(object) = object else {
            return Ok(Answer::Null);
        };
        if self.handles.is_full() {
            return Err(Halt::Refused(Code::E10));
        }
        let Ok(handle) = self.handles.open_handle(alloc, Thing::Object(object)) else {
            return Err(Halt::NoMemory);
        };
        Ok(Answer::Handle(handle))
    }
}

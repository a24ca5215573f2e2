ghost use Rattle.std.specs.Prelude.{◌≡◌, Some, None, Ok, position, bytes_eq};
ghost use Rattle.vh_orders.specs.Orders.{effect_of, needs_object, object_watched, body_named, new_callback};
ghost use Rattle.vh_orders.specs.Views.{world_of, given_by, HasEffect};

use crate::by_name::object_in;
use crate::halt::Halt;
use crate::tables::{is_startup, needs_entry, needs_object};
use crate::who::{Body, Who};
use crate::world::World;
use std::alloc::Global;
use vh_app::Script;
use vh_base::{Answer, BodyName, Code, HandleNo, Object, Order, ProcName, Reason};
use vh_callbacks::Registration;
use vh_handles::Thing;

// The script of a name.
fn script_named(scripts: &[Script], name: &[u8]) -> Option<usize>
    ensures { result ≡ position (λ s. bytes_eq s.name name.now) scripts.now }
{
    scripts
        .iter()
        .position(|script| script.name().bytes() == name)
}

// The procedure of a script, by their names.
fn body_named(scripts: &[Script], body: &BodyName) -> Result<Body, Code>
    ensures { result ≡ body_named body.now scripts.now }
{
    match body {
        BodyName::Native(_) => Err(Code::E12),
        BodyName::Proc(procedure) => procedure_named(scripts, procedure),
    }
}

fn procedure_named(scripts: &[Script], procedure: &ProcName) -> Result<Body, Code>
    ensures { result ≡ body_named (BodyName.Proc procedure.now) scripts.now }
{
    let Some(i) = script_named(scripts, procedure.app.bytes()) else {
        return Err(Code::E13);
    };
    let Some(script) = scripts.get(i) else {
        return Err(Code::E13);
    };
    let Some(start) = script.procedure(procedure.name.bytes()) else {
        return Err(Code::E13);
    };
    Ok(Body { script: i, start })
}

impl World {
    // register: a callback for a reason and an object.
    #[inline(never)]
    pub(crate) fn register(
        &mut self,
        alloc: Global,
        who: &Who,
        registration: Registration,
        body: &BodyName,
    ) -> Result<Answer, Halt>
        requires unwatched { registration.object ≡ None }
        requires alone { registration.serial ≡ None }
        requires fresh { registration.me ≡ (given_by self.old).handle }
        ensures { HasEffect (effect_of
            (Order.Register registration.reason registration.object_handle
            registration.time body.now registration.user_data) who.now (world_of self.old))
            self.old result self.new }
    {
        let reason = registration.reason;
        if is_startup(who) && needs_object(reason) {
            return Err(Halt::Refused(Code::E9));
        }
        if needs_entry(reason) {
            return Err(Halt::Refused(Code::E9));
        }
        let object = match self.object_watched(reason, registration.object_handle) {
            Ok(object) => object,
            Err(code) => return Err(Halt::Refused(code)),
        };
        let body = match body_named(&self.scripts, body) {
            Ok(body) => body,
            Err(code) => return Err(Halt::Refused(code)),
        };
        let mut registration = registration;
        registration.object = object;
        self.add_callback(alloc, registration, body)
    }

    // What a registration watches, or the error of its handle.
    fn object_watched(&self, reason: Reason, h: Option<HandleNo>) -> Result<Option<Object>, Code>
        ensures { result ≡ object_watched (needs_object reason) reason h (world_of self.now) }
    {
        if !needs_object(reason) {
            return Ok(None);
        }
        let Some(handle) = h else {
            return Err(Code::E1);
        };
        let object = match object_in(self.handles.thing(handle)) {
            Ok(object) => object,
            Err(code) => return Err(code),
        };
        if !self.may_watch(reason, object.id) {
            return Err(Code::E2);
        }
        Ok(Some(object))
    }

    // A new callback with its handle, if there is room for both.
    fn add_callback(
        &mut self,
        alloc: Global,
        registration: Registration,
        body: Body,
    ) -> Result<Answer, Halt>
        requires { registration.me ≡ (given_by self.old).handle }
        ensures { HasEffect (new_callback
            (λ me. record registration { me = me }) body (world_of self.old))
            self.old result self.new }
    {
        if self.registry.is_full() {
            return Err(Halt::Refused(Code::E11));
        }
        if self.handles.is_full() {
            return Err(Halt::Refused(Code::E10));
        }
        let thing = Thing::Callback(self.registry.next_number());
        let Ok(handle) = self.handles.open_handle(alloc, thing) else {
            return Err(Halt::NoMemory);
        };
        match self.registry.register(alloc, registration, body) {
            Ok(_) => Ok(Answer::Handle(handle)),
            Err(_) => Err(Halt::NoMemory),
        }
    }
}

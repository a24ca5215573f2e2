ghost use Rattle.std.specs.Prelude.{◌≡◌, Ok};
ghost use Rattle.vh_base.specs.Checks.{with_ok};
ghost use Rattle.vh_orders.specs.Orders.{answers, effect_of, callback_in, without_callback};
ghost use Rattle.vh_orders.specs.Views.{world_of, HasEffect};

use crate::halt::Halt;
use crate::tables::is_startup;
use crate::who::Who;
use crate::world::World;
use vh_base::{Answer, CbNumber, Code, HandleNo, Order};
use vh_handles::Thing;

impl World {
    // remove: the callback is gone, and its handle is freed.
    pub(crate) fn remove(&mut self, who: &Who, h: Option<HandleNo>) -> Result<Answer, Halt>
        ensures { HasEffect (effect_of (Order.Remove h) who.now
            (world_of self.old)) self.old result self.new }
    {
        if is_startup(who) {
            return Err(Halt::Refused(Code::E9));
        }
        let Some(handle) = h else {
            return Err(Halt::Refused(Code::E1));
        };
        let thing = self.handles.thing(handle);
        self.remove_thing(thing, handle)
    }

    // The callback that a handle names is gone.
    fn remove_thing(&mut self, thing: Option<Thing>, handle: HandleNo) -> Result<Answer, Halt>
        ensures { HasEffect (with_ok (callback_in thing) (λ c. Ok (answers (Answer.Number 1)
            ((without_callback c handle (world_of self.old)))))) self.old result self.new }
    {
        let Some(thing) = thing else {
            return Err(Halt::Refused(Code::E1));
        };
        match thing {
            Thing::Object(_) | Thing::Iterator { .. } | Thing::Event(_) => {
                Err(Halt::Refused(Code::E2))
            }
            Thing::Callback(c) => self.forget(c, handle),
        }
    }

    // A callback is gone, from every frame's set too, and a handle is freed.
    fn forget(&mut self, c: CbNumber, handle: HandleNo) -> Result<Answer, Halt>
        ensures { HasEffect (Ok (answers (Answer.Number 1)
            ((without_callback c handle (world_of self.old))))) self.old result self.new }
    {
        let _ = self.registry.remove(c);
        self.handles.free(handle);
        Ok(Answer::Number(1))
    }
}

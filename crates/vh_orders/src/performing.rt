ghost use Rattle.std.specs.Prelude.{◌≡◌, false, IfOk, Err};
ghost use Rattle.vh_orders.specs.Orders.{performed, answered, effect_of, not_yet, is_pass, is_return};
ghost use Rattle.vh_orders.specs.Views.{world_of, given_by, HasEffect};

use crate::asking::error_number;
use crate::halt::Halt;
use crate::tables::{error_after, is_startup};
use crate::who::Who;
use crate::world::World;
use std::alloc::Global;
use vh_base::{Answer, Code, NoMemory, Order};
use vh_callbacks::Registration;

/// Performs an order: answers it, and changes the world as its row says. The error of the
/// answer is the world's last error. An order that ends an activation, or asks for nothing, is
/// not performed.
/// The first `by_name` goes over the design's names once, and takes memory for each; a later one
/// takes the time of its text alone, if no two objects have one name.
pub fn perform(alloc: Global, w: &mut World, who: Who, order: &Order) -> Result<Answer, NoMemory>
    requires goes_on { is_return order.now ≡ false }
    requires asks { is_pass order.now ≡ false }
    ensures { IfOk result (λ a. performed order.now who (world_of w.old) (given_by w.old)
        ≡ (a, world_of w.new)) }
{
    let kept = w.last_error;
    let answer = w.answer(alloc, &who, order)?;
    w.last_error = error_after(order, &answer, kept);
    Ok(answer)
}

impl World {
    // Answers an order, and changes what it changes.
    fn answer(&mut self, alloc: Global, who: &Who, order: &Order) -> Result<Answer, NoMemory>
        ensures { IfOk result (λ a. answered (effect_of order.now who.now (world_of self.old))
            (world_of self.old) (given_by self.old) ≡ (a, world_of self.new)) }
    {
        match self.carry_out(alloc, who, order) {
            Ok(answer) => Ok(answer),
            Err(Halt::Refused(code)) => Ok(Answer::Refused(code)),
            Err(Halt::NoMemory) => Err(NoMemory),
        }
    }

    fn carry_out(&mut self, alloc: Global, who: &Who, order: &Order) -> Result<Answer, Halt>
        ensures { HasEffect (effect_of order.now who.now
            (world_of self.old)) self.old result self.new }
    {
        match order {
            Order::ByName { text, scope } => self.by_name(alloc, who, text.bytes(), *scope),
            Order::Register {
                reason,
                h,
                time,
                body,
                n,
            } => {
                let registration = Registration {
                    reason: *reason,
                    object: None,
                    object_handle: *h,
                    me: self.handles.next_number(),
                    time: *time,
                    serial: None,
                    user_data: *n,
                };
                self.register(alloc, who, registration, body)
            }
            Order::Remove { h } => self.remove(who, *h),
            Order::Print { .. } => Ok(Answer::Done),
            Order::ByIndex { h, n } => self.by_index(alloc, who, *h, *n),
            Order::Handle { relation, h } => self.handle(alloc, who, *relation, *h),
            Order::Free { h } => self.free(who, *h),
            Order::Compare { a, b } => self.compare(who, *a, *b),
            Order::Get { property, h } => self.get(alloc, who, *property, *h),
            Order::GetStr { property, h } => self.get_str(alloc, who, *property, *h),
            Order::GetTime => Ok(Answer::Number(self.simulation.time())),
            Order::CbInfo { h } => self.cb_info(alloc, who, *h),
            Order::ChkError => Ok(Answer::Number(error_number(self.last_error))),
            Order::Iterate { .. }
            | Order::Scan { .. }
            | Order::GetValue { .. }
            | Order::PutValue { .. }
            | Order::Cancel { .. }
            | Order::RegisterSystf { .. }
            | Order::Control { .. }
            | Order::SetData { .. }
            | Order::Pass
            | Order::Return => self.not_yet(who, order),
        }
    }

    // An order that no script gives yet.
    #[inline(never)]
    fn not_yet(&self, who: &Who, order: &Order) -> Result<Answer, Halt>
        ensures { HasEffect (not_yet order.now who.now
            (world_of self.now)) self.now result self.now }
    {
        if is_startup(who) {
            return Err(Halt::Refused(Code::E9));
        }
        if !self.names_all(order) {
            return Err(Halt::Refused(Code::E1));
        }
        Err(Halt::Refused(Code::E9))
    }
}

ghost use Rattle.std.specs.Prelude.{◌≡◌};
ghost use Rattle.vh_orders.specs.Orders.{handle_or_null, handle_if, handles_read, is_named, all_named};
ghost use Rattle.vh_orders.specs.Views.{world_of};

use crate::tables::{is_module, is_running_call, needs_object};
use crate::world::World;
use vh_base::{HandleNo, Order};

impl World {
    // Does each handle that an order reads name something?
    pub(crate) fn names_all(&self, order: &Order) -> bool
        ensures { result ≡ all_named (world_of self.now) (handles_read order.now) }
    {
        match order {
            Order::ByName { scope, .. } => self.names_or_null(true, *scope),
            Order::Handle { relation, h } => self.names_or_null(is_running_call(*relation), *h),
            Order::Iterate { relation, h } => self.names_or_null(is_module(*relation), *h),
            Order::Compare { a, b } => self.is_named(*b) && self.is_named(*a),
            Order::Register { reason, h, .. } => self.names_if(needs_object(*reason), *h),
            Order::ByIndex { h, .. }
            | Order::Scan { h }
            | Order::Free { h }
            | Order::Get { h, .. }
            | Order::GetStr { h, .. }
            | Order::GetValue { h, .. }
            | Order::PutValue { h, .. }
            | Order::Cancel { h }
            | Order::Remove { h }
            | Order::CbInfo { h } => self.is_named(*h),
            Order::GetTime
            | Order::RegisterSystf { .. }
            | Order::ChkError
            | Order::Control { .. }
            | Order::Print { .. }
            | Order::SetData { .. }
            | Order::Pass
            | Order::Return => true,
        }
    }

    // The same of a handle for which null may stand.
    fn names_or_null(&self, free: bool, h: Option<HandleNo>) -> bool
        ensures { result ≡ all_named (world_of self.now) (handle_or_null free h) }
    {
        let Some(handle) = h else {
            return free;
        };
        self.handles.thing(handle).is_some()
    }

    // The same of a handle that is read on a condition.
    fn names_if(&self, needed: bool, h: Option<HandleNo>) -> bool
        ensures { result ≡ all_named (world_of self.now) (handle_if needed h) }
    {
        if !needed {
            return true;
        }
        self.is_named(h)
    }

    // Does a handle name something?
    fn is_named(&self, h: Option<HandleNo>) -> bool
        ensures { result ≡ is_named (world_of self.now) h }
    {
        match h {
            Some(handle) => self.handles.thing(handle).is_some(),
            None => false,
        }
    }
}

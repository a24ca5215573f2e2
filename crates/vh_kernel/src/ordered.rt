ghost use Rattle.std.specs.Prelude.{◌≡◌, IfOk};

use std::alloc::Global;
use std::marker::Model;
use vh_base::{NoMemory, Order};

/// An order with memory of its own, so that a label is small. Contracts see the order.
#[derive(Drop)]
pub struct Ordered {
    inner: Box<Order>,
}

impl Model for Ordered {
    ghost use Rattle.vh_base.specs.declared.orders.Order.{Order};

    ghost Value = { Order };

    ghost view = { λ o. o.inner.value };
}

impl Ordered {
    // The order, in memory that another had if there is some.
    pub(crate) fn new(
        alloc: Global,
        memory: Option<Ordered>,
        order: Order,
    ) -> Result<Ordered, NoMemory>
        ensures { IfOk result (λ o. o ≡ order) }
    {
        let Some(mut memory) = memory else {
            return Ok(Ordered {
                inner: Box::new(alloc, order)?,
            });
        };
        *memory.inner = order;
        Ok(memory)
    }

    // The memory of an order that is shown no more, without its texts, which others may have.
    pub(crate) fn into_memory(self) -> Ordered {
        let mut inner = self.inner;
        *inner = Order::Return;
        Ordered { inner }
    }

    /// The order.
    pub fn get(&self) -> &Order
        ensures { result.now ≡ self.now }
    {
        &self.inner
    }
}

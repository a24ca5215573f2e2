ghost use Rattle.std.specs.Prelude.{◌≡◌};
ghost use Rattle.std.proofs.Props.{props};
ghost use Rattle.vh_base.specs.Promise.{Allows};

use crate::orders::{Order, Seen};
use crate::short::Short;
use crate::words::Promise;

type Body = Box<dyn Fn(&Seen) -> Order>;

/// An application as a closure, which answers one order a call. It may be called on every
/// `Seen`, and answers an order that its promise allows; contracts see it as its name and
/// its promise.
#[derive(Drop)]
pub struct Native {
    pub name: Short,
    pub promise: Promise,
    pub body: Body,
    ghost callable: { Body.IsAlwaysCallable body },
    ghost keeps: { (s : _) (o : _) → Body.post body s o →
        Allows promise s.now o } by { Prim.hlevel props },
}

impl Native {
    /// The order that the closure answers.
    pub fn order(&self, seen: &Seen) -> Order
        ensures { Allows self.now.promise seen.now result }
    {
        ask(self, seen)
    }
}

fn ask(native: &Native, seen: &Seen) -> Order
    ensures { Body.post native.now.body seen.entry result }
{
    (native.body)(seen)
}

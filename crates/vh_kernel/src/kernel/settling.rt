ghost use Rattle.std.specs.Prelude.{◌≡◌, ℕ, List, Bool, is_some, slice_get};
ghost use Rattle.vh_kernel.specs.Settle.{is_void, is_void_item, first_is, without_front};

use crate::control::{Control, Stack};
use crate::kernel::Kernel;
use crate::occurrence::{Agendum, Occurrence};
use std::collections::VecDeque;
use vh_callbacks::Registry;
use vh_orders::Body;

// Does no callback watch what is on control?
fn is_void(callbacks: &Registry<Body>, item: &Control) -> bool
    ensures { result ≡ is_void callbacks.now.callbacks item.now }
{
    match item {
        Control::Pending(what) => !what.is_watched(callbacks),
        Control::Process(_) | Control::Frame(_) | Control::Activation(_) | Control::Leave(_) => {
            false
        }
    }
}

// Does no callback watch what the agenda has?
fn is_void_item(callbacks: &Registry<Body>, item: Agendum) -> bool
    ensures { result ≡ is_void_item callbacks.now.callbacks item }
{
    match item {
        Agendum::Startup(_) => false,
        Agendum::Occurrence(reason) => !Occurrence::new(reason).is_watched(callbacks),
    }
}

// Drops void occurrences from the top of control.
fn settle_control(callbacks: &Registry<Body>, control: &mut Stack)
    ensures { control.new ≡ without_front (is_void callbacks.now.callbacks) control.old }
{
    'voids: while top_is_void(callbacks, control) {
        let _ = control.pop();
    }
}

// Is there a void occurrence on top?
fn top_is_void(callbacks: &Registry<Body>, control: &Stack) -> bool
    ensures { result ≡ first_is (is_void callbacks.now.callbacks) control.now }
{
    match control.top() {
        Some(item) => is_void(callbacks, item),
        None => false,
    }
}

// Drops void occurrences from the front of the agenda.
fn settle_agenda(callbacks: &Registry<Body>, agenda: &mut VecDeque<Agendum>)
    ensures { agenda.new.items
        ≡ without_front (is_void_item callbacks.now.callbacks) agenda.old.items }
{
    'voids: while front_is_void(callbacks, agenda) {
        let _ = agenda.pop_front();
    }
}

// Is there a void occurrence at the front?
fn front_is_void(callbacks: &Registry<Body>, agenda: &VecDeque<Agendum>) -> bool
    ensures { result ≡ first_is (is_void_item callbacks.now.callbacks) agenda.now.items }
{
    match agenda.front() {
        Some(item) => is_void_item(callbacks, *item),
        None => false,
    }
}

impl Kernel {
    ghost use Rattle.vh_kernel.specs.Settle.{settled};
    ghost use Rattle.vh_kernel.specs.Views.{state_of};

    // Drops what no callback watches. It is inlined, since each label does so and most drop nothing.
    #[inline(always)]
    pub(crate) fn settle(&mut self)
        ensures { state_of self.new ≡ settled (state_of self.old) }
    {
        settle_control(&self.world.registry, &mut self.control);
        if self.control.top().is_some() {
            return;
        }
        settle_agenda(&self.world.registry, &mut self.agenda);
    }
}

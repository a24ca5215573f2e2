ghost use Rattle.std.specs.Prelude.{◌≡◌, ◌<◌, true, is_some};
ghost use Rattle.vh_callbacks.specs.Callbacks.{live_at, known_at, activations_of, started, ended, body_after, with_data, changed_in};

use crate::entries::{end, put_data, start, take_body};
use crate::registry::Registry;
use vh_base::{CbNumber, MOST_FRAMES};

impl<B: Drop> Registry<B> {
    /// One more activation of a live or held callback runs.
    pub fn start_activation(&mut self, c: CbNumber)
        requires known { is_some (known_at c self.old.callbacks) ≡ true }
        requires few { activations_of c self.old.callbacks < MOST_FRAMES }
        ensures { self.new ≡ record self.old { callbacks = started c self.old.callbacks } }
    {
        start(&mut self.entries, c.number());
    }

    /// An activation of a callback ends. Where it was the last of a held one that is gone now,
    /// and this was its body.
    pub fn end_activation(&mut self, c: CbNumber) -> Option<B>
        requires { 0 < activations_of c self.old.callbacks }
        ensures body { result ≡ body_after (live_at c self.old.callbacks.held) }
        ensures ended { self.new ≡ record self.old { callbacks = ended c self.old.callbacks } }
    {
        let number = c.number();
        if !end(&mut self.entries, number) {
            return None;
        }
        Some(take_body(&mut self.entries, number))
    }

    /// A live or held callback has other data of the user.
    pub fn set_data(&mut self, c: CbNumber, n: u64)
        requires { is_some (known_at c self.old.callbacks) ≡ true }
        ensures { self.new
            ≡ record self.old { callbacks = changed_in (with_data n) c self.old.callbacks } }
    {
        put_data(&mut self.entries, c.number(), n);
    }
}

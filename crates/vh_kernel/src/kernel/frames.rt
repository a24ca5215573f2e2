ghost use Rattle.std.specs.Prelude.{◌≡◌, ◌≤◌, ◌<◌, [], ◌∷◌, length, drop, slice_get, OnOk, IfSome, IfNone};
ghost use Rattle.vh_dispatch.specs.Frames.{top_set, without_in_top};
ghost use Rattle.vh_kernel.specs.Occurrences.{set_of};

use crate::kernel::Kernel;
use crate::occurrence::Occurrence;
use std::alloc::Global;
use vh_base::{CbNumber, MOST_FRAMES, NoMemory};

impl Kernel {
    ghost use Rattle.vh_kernel.specs.State.{with_frames};
    ghost use Rattle.vh_kernel.specs.Views.{state_of};

    // How many frames stand.
    pub(crate) fn frames(&self) -> usize
        ensures len { result ≡ length (state_of self.now).world.frames }
        ensures bound { result ≤ MOST_FRAMES }
    {
        self.world.dispatch.len()
    }

    // How many callbacks are still to fire for the top frame.
    pub(crate) fn left(&self) -> u32
        ensures { result ≡ length (top_set (state_of self.now).world.frames) }
    {
        self.world.dispatch.choices(&self.world.registry)
    }

    // A frame more stands, with the callbacks that watch the occurrence.
    pub(crate) fn open_frame(
        &mut self,
        alloc: Global,
        number: u64,
        what: &Occurrence,
    ) -> Result<(), NoMemory>
        requires { length (state_of self.old).world.frames < MOST_FRAMES }
        ensures { OnOk result (state_of self.new ≡ with_frames
            (set_of what.now (state_of self.old).world.callbacks ∷
            (state_of self.old).world.frames) (state_of self.old)) }
    {
        let world = &mut self.world;
        what.begin(alloc, &mut world.dispatch, &mut world.registry, number)
    }

    // Takes the k-th callback out of the top frame's set.
    pub(crate) fn take_left(&mut self, k: u32) -> Option<CbNumber>
        ensures taken { result ≡ slice_get (top_set (state_of self.old).world.frames) k }
        ensures left { IfSome result (λ c. state_of self.new
            ≡ with_frames (without_in_top c (state_of self.old).world.frames) (state_of self.old)) }
        ensures kept { IfNone result (state_of self.new ≡ state_of self.old) }
    {
        self.world.dispatch.next(&mut self.world.registry, k)
    }

    // The top frame goes.
    pub(crate) fn close_frame(&mut self)
        ensures { state_of self.new
            ≡ with_frames (drop 1 (state_of self.old).world.frames) (state_of self.old) }
    {
        self.world.dispatch.finish(&mut self.world.registry);
    }

    // All frames go.
    pub(crate) fn close_frames(&mut self)
        ensures { state_of self.new ≡ with_frames [] (state_of self.old) }
    {
        self.world.dispatch.clear(&mut self.world.registry);
    }
}

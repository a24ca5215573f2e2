ghost use Rattle.std.specs.Prelude.{◌≡◌};
ghost use Rattle.vh_queue.specs.Entries.{rank};

/// A region of the event queue (IEEE 1364-2005, 11.3).
#[derive(Clone, Copy, Debug, PartialEq, Eq)]
pub enum Region {
    /// Before all else of a time: the callbacks at the start of a time.
    Start,
    /// Performed in any order.
    Active,
    /// Performed when no active entry is left, as after `#0`.
    Inactive,
    /// The nonblocking updates, performed when no active or inactive entry is left.
    Nonblocking,
    /// The last of a time: strobes and monitors.
    Monitor,
}

impl Region {
    // Its key in the order in which those of one time are performed.
    pub(crate) fn rank(self) -> u8
        ensures { result ≡ rank self }
    {
        self as u8
    }
}

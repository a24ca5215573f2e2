use vh_base::{ObjId, ShowId};

/// What a process does next.
#[derive(Clone, Copy, Debug, PartialEq, Eq)]
pub enum Next {
    /// It goes on with its next label.
    On,
    /// It waits: for a time, a change, or its branches.
    Waits,
    /// It has ended.
    Ends,
    /// A display task shows its text, or is noted for the end of the time.
    Shows(ShowId),
    /// A user system task or function is called, by its call's object.
    Calls(ObjId),
    /// `$finish`.
    Finishes,
    /// `$stop`.
    Stops,
}

use thiserror::Error;
use vh_base::{HandleNo, Object, Reason, Serial};

/// What a callback was registered with (IEEE 1364-2005, 27.33).
#[derive(Clone, Copy, Debug, PartialEq, Eq)]
pub struct Registration {
    pub reason: Reason,
    /// The object that it watches, where the reason has one.
    pub object: Option<Object>,
    /// The handle that the registration named.
    pub object_handle: Option<HandleNo>,
    /// The callback's own handle.
    pub me: HandleNo,
    /// In units of the simulation's precision.
    pub time: u64,
    /// The serial of its entry of the event queue, where it has one.
    pub serial: Option<Serial>,
    pub user_data: u64,
}

/// Why a callback wasn't registered. Both hand the body back, and the registry is as before.
#[derive(Debug, Drop, Error)]
pub enum RegisterFault<B> {
    #[error("65,536 callbacks are live, or the numbers are used up")]
    Full(B),
    #[error("out of memory")]
    NoMemory(B),
}

/// What a removal answers.
#[derive(Drop)]
pub enum Removed<B> {
    /// The callback is gone; this was its body.
    Gone(B),
    /// It is live no more. Its body stays until its last activation ends.
    Running,
    /// It wasn't live; nothing has changed.
    NotLive,
}

use thiserror::Error;

/// Why no entry was added.
#[derive(Clone, Copy, Debug, PartialEq, Eq, Error)]
pub enum AddFault {
    /// 1,048,576 entries stand, or 2^63 serials were given. (own)
    #[error("the event queue is full, or its serials are used up")]
    Full,
    /// Memory was refused.
    #[error("out of memory")]
    NoMemory,
}

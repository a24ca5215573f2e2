use crate::registration::Registration;

/// A callback that is live or held.
#[derive(Drop)]
pub struct Live<B> {
    pub registration: Registration,
    pub body: B,
    /// How many activations of it run.
    pub activations: u32,
}

// A callback with the mark whether it is live. One that isn't is held: it was removed while an
// activation of it ran.
#[derive(Drop)]
pub(crate) struct Kept<B> {
    pub(crate) callback: Live<B>,
    pub(crate) is_live: bool,
}

ghost use Rattle.std.specs.Prelude.{◌≡◌, ◌<◌};
ghost use Rattle.vh_kernel_choice.specs.Choices.{next_state, chosen, chooser_after};

/// An order of choice: which of a label's choices is taken (IEEE 1364-2005, 11.4.2 leaves it open).
#[derive(Clone, Copy, Debug, PartialEq, Eq)]
pub enum Chooser {
    /// The first of them.
    Fifo,
    /// The last of them.
    Lifo,
    /// One that a generator with this state draws.
    Seeded(u64),
}

impl Chooser {
    /// The number of the choice among so many, from 0.
    pub fn chosen(self, count: u32) -> u32
        requires { 0 < count }
        ensures { result ≡ chosen self count }
    {
        match self {
            Chooser::Fifo => 0,
            Chooser::Lifo => count - 1,
            Chooser::Seeded(state) => draw(state, count),
        }
    }

    /// The order of choice for the labels after one with so many choices.
    pub fn after(self, count: u32) -> Chooser
        ensures { result ≡ chooser_after self count }
    {
        match self {
            Chooser::Fifo => Chooser::Fifo,
            Chooser::Lifo => Chooser::Lifo,
            Chooser::Seeded(state) => Chooser::Seeded(state_after(state, count)),
        }
    }
}

// The generator's next state.
fn next_state(state: u64) -> u64
    ensures { result ≡ next_state state }
{
    state
        .wrapping_mul(6_364_136_223_846_793_005)
        .wrapping_add(1_442_695_040_888_963_407)
}

// The generator's state after a label with so many choices.
fn state_after(state: u64, count: u32) -> u64
    ensures { Chooser.Seeded result ≡ chooser_after (Chooser.Seeded state) count }
{
    if count > 1 { next_state(state) } else { state }
}

// The number of the choice that the generator draws among so many.
fn draw(state: u64, count: u32) -> u32
    requires { 0 < count }
    ensures { result ≡ chosen (Chooser.Seeded state) count }
{
    if count > 1 {
        ((next_state(state) >> 33) % u64::from(count)) as u32
    } else {
        0
    }
}

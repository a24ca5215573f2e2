ghost use Rattle.std.specs.Prelude.{◌≡◌};
ghost use Rattle.vh_app.specs.Next.{beginning};

/// How far an activation is.
#[derive(Clone, Copy, Debug, PartialEq, Eq)]
pub struct Point {
    // The number of the next step.
    pub(crate) at: usize,
    // The variable that waits for the answer of the last order.
    pub(crate) waiting: Option<usize>,
}

impl Point {
    // One that begins at a step.
    pub(crate) fn new(at: usize) -> Point
        ensures { result ≡ beginning at }
    {
        Point { at, waiting: None }
    }
}

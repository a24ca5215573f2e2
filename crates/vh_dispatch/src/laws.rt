ghost use Rattle.vh_dispatch.specs.Laws.{LosesNumber, KeepsFrames};

/// The laws of the frames' sets, whatever a body is. It does nothing: its contract is the
/// theorem.
pub fn dispatch_laws<B>()
    // A removal takes a number out of every frame's set,
    ensures loses { LosesNumber B }
    // and what leaves the sets of their depths leaves them.
    ensures keeps { KeepsFrames B }
{}

ghost use Rattle.vh_proc_turn.specs.Laws.{ComesToItsValue};

/// The law of continuous assignments, which nobody calls: behind an evaluation the scheduled update
/// of each driver has the new value, or none stands and the driver has it already. The body does
/// nothing.
pub fn turn_laws()
    ensures drivers { ComesToItsValue }
{}

ghost use Rattle.vh_kernel.specs.Table.{StepsByTable, TableBySteps, OpensSound, StaysSound, OneStateAfter};
ghost use Rattle.vh_kernel.specs.Noted.{OpensNoted, StaysNoted, TellsStanding, StandsOnce};
ghost use Rattle.vh_kernel.specs.Run.{OneRun};

/// The laws of the machine's step, of every state and every choice. It does nothing: its
/// contract is the theorem.
pub fn step_laws()
    // Each choice is a step of the table, whatever unused number a new handle gets,
    ensures by_table { StepsByTable }
    // and each step of the table is that of a choice.
    ensures by_choice { TableBySteps }

    // From a design's opening on, serials rise and are given once,
    ensures opens { OpensSound }
    ensures stays { StaysSound }
    // so that the state after is a function of the state before and the label.
    ensures one_after { OneStateAfter }

    // Of each force and each procedural assign one follow entry stands at most, and the serial that
    // was noted last tells whether it does.
    ensures opens_noted { OpensNoted }
    ensures stays_noted { StaysNoted }
    ensures tells_standing { TellsStanding }
    ensures stands_once { StandsOnce }

    // Under an order of choice there is one run, but for the numbers of new handles.
    ensures one_run { OneRun }
{}

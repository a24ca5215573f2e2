ghost use Rattle.vh_design.specs.Laws.{PartsComeBefore, ReadsFit, NodesAreMeasured, UnitsFit, ScopesComeBefore, DriversAreOfNets, PrecisionFits};
ghost use Rattle.vh_design.specs.CodeLaws.{CodesMayStand, BodiesMayStand, PositionsAreThere, ExpressionsAreThere, ChangesFit, DelaysFit, CasesAreMeasured, WaitsFit, ShowsFit, StatementsFit};

/// What the rules of a valid design mean. It does nothing: its contract is the theorem.
pub fn design_laws()
    // The parts of an expression have lesser numbers, and the objects that it reads are of kinds
    // that may stand there.
    ensures parts { PartsComeBefore }
    ensures reads { ReadsFit }

    // Its width, from 1 to the greatest, and its sign are those that its parts give.
    ensures measured { NodesAreMeasured }

    // Time units are not below the precision, and neither is above 100 s.
    ensures units { UnitsFit }
    ensures precision { PrecisionFits }

    // The scope of an object has a lesser number, and drivers are of nets.
    ensures scopes { ScopesComeBefore }
    ensures drivers { DriversAreOfNets }

    // Each code and each body may stand in the design: it goes on at positions of its own, its
    // expressions are there, it changes objects of kinds that may stand there, and its time units,
    // widths and signs are as above.
    ensures codes { CodesMayStand }
    ensures bodies { BodiesMayStand }
    ensures positions { PositionsAreThere }
    ensures expressions { ExpressionsAreThere }
    ensures changes { ChangesFit }
    ensures delays { DelaysFit }
    ensures cases { CasesAreMeasured }

    // Waits, display calls and statements name objects of kinds that may stand there.
    ensures waits { WaitsFit }
    ensures shows { ShowsFit }
    ensures statements { StatementsFit }
{}

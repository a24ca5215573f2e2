ghost use Rattle.vh_display.specs.Laws.{ShowsBytes, WantsValues, ShowsNames, ShowsPercents, EndsWithNothing};

/// What the reading of formats means, piece by piece. It does nothing, and is there for its clauses.
pub fn display_laws()
    ensures bytes { ShowsBytes }
    ensures values { WantsValues }
    ensures names { ShowsNames }
    ensures percents { ShowsPercents }
    ensures ends { EndsWithNothing }
{}

ghost use Rattle.vh_sense.specs.Laws.{WakesWhoIsMet, LeavesWhoIsNotMet, LeavesOthers, WakesInTurn, WakesToTheEnd, FollowsInTurn, FollowsToTheEnd};

/// What the definitions mean (IEEE 1364-2005, 9.7 and 9.3). It does nothing: its contract is the theorem.
pub fn sense_laws()
    // Who was woken waited, and its wait is gone; who still waits wasn't met; no other wait is touched.
    ensures met { WakesWhoIsMet }
    ensures left { LeavesWhoIsNotMet }
    ensures others { LeavesOthers }

    // The answers one after another are all that a change wakes, and all statements that follow it.
    ensures turn { WakesInTurn }
    ensures end { WakesToTheEnd }
    ensures follows { FollowsInTurn }
    ensures follows_end { FollowsToTheEnd }
{}

ghost use Rattle.vh_proc_laws.specs.Laws.{FindsAll, DisableStops, OpensNumbered, KeepsNumbers, NotesNumbers, OpensWaits, KeepsWaits, WakesInOrder, GivesFreshNumbers, NextNeverFalls, AssignsDigits};

/// The laws of processes. It does nothing: its contract is the theorem.
pub fn processes_laws()
    // A `disable` stops who is inside, and the branches that these have begun, over any number of
    // forks, and nobody else.
    ensures found { FindsAll }
    // Those branches are gone; who was inside goes on; neither waits any more, nor does an
    // evaluation entry of theirs stand; all others, their waits and all other entries are as before.
    ensures stops { DisableStops }
    // Each process of a design has its number at the beginning, and each label keeps that, and so
    // does an entry that is noted between labels.
    ensures opens { OpensNumbered }
    ensures keeps { KeepsNumbers }
    ensures notes { NotesNumbers }
    // Those that wait stand by rising numbers: at the beginning, behind each label, and where a
    // change has woken one.
    ensures waits { OpensWaits }
    ensures waiting { KeepsWaits }
    ensures wakes { WakesInOrder }
    // No number is given twice.
    ensures fresh { GivesFreshNumbers }
    ensures rises { NextNeverFalls }
    // An assignment changes the digits at which those it assigns lie, each to the one that lies there,
    // and no other.
    ensures digits { AssignsDigits }
{}

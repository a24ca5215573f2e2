ghost use Rattle.vh_callbacks.specs.Laws.{OpensSound, RegistersSound, RemovesSound, StartsSound, EndsSound, ChangesSound, TellsRegistered, KeepsOthersRegistered, TellsNoneRemoved, KeepsOthersRemoved, HoldsRunning, CountsStarted, CountsEnded, KeepsOthersKnown, GivesLastBack, ForgetsLast, NextIsNew, MatchingIsSet, MatchesIsSome};

/// The laws of the registry, whatever a body is. It does nothing: its contract is the
/// theorem.
pub fn callbacks_laws<B>()
    // Numbers rise and are below the next one, 65,536 are live at most, none is live and held,
    // and of each that is held an activation runs,
    ensures opens { OpensSound B }
    ensures registers { RegistersSound B }
    ensures removes { RemovesSound B }
    ensures starts { StartsSound B }
    ensures ends { EndsSound B }
    ensures changes { ChangesSound B }
    // so that the next number is of no live callback.
    ensures next_is_new { NextIsNew B }

    // After a registration the new number has it, and the others are as before.
    ensures tells_registered { TellsRegistered B }
    ensures keeps_registered { KeepsOthersRegistered B }

    // After a removal the number has none, and the others are as before. It is held exactly
    // where an activation of it runs.
    ensures tells_removed { TellsNoneRemoved B }
    ensures keeps_removed { KeepsOthersRemoved B }
    ensures holds_running { HoldsRunning B }

    // Activations are counted, and concern no other callback. A body comes back exactly where
    // the callback is held and its last activation ends; then it is known no more.
    ensures counts_started { CountsStarted B }
    ensures counts_ended { CountsEnded B }
    ensures keeps_known { KeepsOthersKnown B }
    ensures gives_last_back { GivesLastBack B }
    ensures forgets_last { ForgetsLast B }

    // The matching ones are exactly those that are live with this reason and this object.
    ensures matching { MatchingIsSet B }
    ensures matches { MatchesIsSome B }
{}

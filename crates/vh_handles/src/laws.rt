ghost use Rattle.vh_handles.specs.Laws.{OpensSound, OpensOne, FreesOne, AdvancesOne};

/// What opening, freeing and advancing mean for a number. It does nothing: its contract is the
/// theorem.
pub fn handles_laws()
    ensures none { OpensSound }
    ensures opens { OpensOne }
    ensures frees { FreesOne }
    ensures advances { AdvancesOne }
{}

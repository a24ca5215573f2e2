ghost use Rattle.vh_eval.specs.Laws.{HasValueOfParts};

/// The law of the definition, which nobody calls: the value of an expression is that of its kind by the values
/// of its parts (IEEE 1364-2005, clause 5). The body does nothing.
pub fn eval_laws()
    ensures parts { HasValueOfParts }
{}

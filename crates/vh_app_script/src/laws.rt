//! The laws of reading, at the grammar of scripts.

ghost use Rattle.std.specs.Prelude.{ℕ, List};
ghost use Rattle.vh_base.specs.declared.faults.AppFault.{AppFault};
ghost use Rattle.vh_app_script.specs.Table.{ScriptLaws};

/// The laws of reading scripts, whatever rules count and whatever scripts stand before. The body
/// does nothing: the contract is the theorem.
pub fn script_laws()
    ensures { (rules : AppFault) (earlier : List (List ℕ)) → ScriptLaws rules earlier }
{}

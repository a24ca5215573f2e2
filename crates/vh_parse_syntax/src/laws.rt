//! The laws of reading, at this grammar.

ghost use Rattle.vh_parse_grammar.specs.Laws.{LawsOfProductions, LawsOfSources, ClassesAreFirsts, SpellsWithoutClasses, BeginsWithoutClasses};
ghost use Rattle.vh_parse_syntax.specs.Table.{syntax_table};

use vh_parse_grammar::{Grammar, exact};

/// The language.
pub struct Syntax;

impl Grammar for Syntax {
    ghost table = { syntax_table };
}

/// The laws of reading the language. The body does nothing: the contract is the theorem.
pub fn syntax_laws()
    ensures productions { LawsOfProductions syntax_table }
    ensures sources { LawsOfSources syntax_table }
    ensures firsts { ClassesAreFirsts syntax_table }
    ensures spelled { SpellsWithoutClasses syntax_table }
    ensures begun { BeginsWithoutClasses syntax_table }
{
    exact::<Syntax>();
}

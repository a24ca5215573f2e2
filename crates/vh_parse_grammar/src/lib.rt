//! A grammar as a table, and the laws of reading it. The crate knows no language: it is generic in the
//! token, which may carry its place, and in the names of the productions.
//!
//! What it is for stands in `specs/`: the parts that productions are written with (`Part`), the one total
//! function that reads them (`Reading`), with an omission of what is left out (`Omissions`), what reading means, by
//! cases on parts (`Sentences`), the language without the classes of its choices (`Language`), and what a
//! table has to meet (`Conditions`, `Choices`, `Table`). The README says how a grammar is written.
//!
//! The contract that the crates above use is that of [`exact`]: for each table, each production and a
//! whole source, reading gives a tree exactly where the tokens spell it, a fault exactly at the first token
//! that the grammar refuses, and what is left out exactly where it is shown before one. A parser's functions
//! read by [`Cursor`] and each ensure one equation with the reading of their part (`Says`, `Passes`), and so
//! have all the laws.
//!
//! The crate stands on std alone.
#![tactic(auto)]

ghost use Rattle.vh_parse_grammar.specs.Table.{Table};
ghost use Rattle.vh_parse_grammar.specs.Laws.{LawsOfProductions, LawsOfSources, ClassesAreFirsts, SpellsWithoutClasses, BeginsWithoutClasses};

mod cursor;
mod stop;

pub use cursor::{Cursor, Token};
pub use stop::Stop;

/// A grammar: a type that stands for a table of productions.
pub trait Grammar {
    /// The table, with the proofs that it meets the conditions.
    ghost table: { Table };
}

/// The laws of reading, for every grammar. The body does nothing: the contract is the theorem.
pub fn exact<G: Grammar>()
    ensures productions { LawsOfProductions G.table }
    ensures sources { LawsOfSources G.table }
    ensures firsts { ClassesAreFirsts G.table }
    ensures spelled { SpellsWithoutClasses G.table }
    ensures begun { BeginsWithoutClasses G.table }
{}

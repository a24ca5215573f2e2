ghost use Rattle.vh_lex.specs.Laws.{OneList, TokensOrRefused, NeverBoth, FaultStays};
ghost use Rattle.vh_lex.specs.Lexed.{Spells};
ghost use Rattle.vh_lex.specs.SourceText.{HasText};
ghost use Rattle.vh_lex.specs.TextLaws.{Covers, SpelledHasText, TextIsSpelled, FaultStops, Longest};

/// The laws of spelling, over all lists of files. It does nothing: its contract is the theorem.
pub fn lex_laws()
    // Files spell at most one list of tokens;
    ensures one_list { OneList Spells }
    // they are spelled, or refused with a fault at a place,
    ensures spelled_or_refused { TokensOrRefused Spells }
    // and never both.
    ensures never_both { NeverBoth Spells }
    // A fault stays the answer, whatever files follow.
    ensures fault_stays { FaultStays }
{}

/// The laws of what files spell, as a tree of pieces and conditionals. It does nothing: its contract
/// is the theorem.
pub fn text_laws()
    // The pieces of a text, one after the other, are the bytes of its files.
    ensures covers { Covers }
    // The tokens that files spell are those of a text that they have,
    ensures spelled { SpelledHasText }
    // the tokens of each text that they have are what they spell,
    ensures text { TextIsSpelled }
    // and so all their texts have the same tokens.
    ensures one { OneList HasText }
    // Files have a text, or they are refused with a fault at a place,
    ensures refused { TokensOrRefused HasText }
    // and never both.
    ensures never { NeverBoth HasText }
    // Up to a fault there is a text, and none goes further.
    ensures stops { FaultStops }
    // A token is the longest with which bytes begin.
    ensures longest { Longest }
{}

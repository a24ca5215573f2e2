//! Texts with what the lexer makes of them: tests of `vh_lex`, so that a change of a test proves it not
//! again.
#![tactic(auto)]

#[cfg(test)]
mod tests;

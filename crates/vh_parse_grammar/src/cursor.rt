//! The words with which every parser reads its tokens.

ghost use Rattle.std.specs.Prelude.{◌≡◌, ⊤, ℕ, Bool, map};
ghost use Rattle.vh_parse_grammar.specs.Part.{only_means};
ghost use Rattle.vh_parse_grammar.specs.Reading.{next_is, lost};
ghost use Rattle.vh_parse_grammar.specs.Omissions.{omission_at, refused, noting_past, noting_token};
ghost use Rattle.vh_parse_grammar.specs.Says.{Passes, Stops};

use crate::Stop;
use std::alloc::AllocError;
use std::marker::PhantomData;

/// A token of a parser: it may hold what it borrows, since the grammar's table sees it by `seen`. `C` are
/// the classes by which choices are made, as the grammar's terminals; a parser that reads the tokens of
/// another crate brings its own.
pub trait Token<C: Copy> {
    /// The tokens of the grammar's table.
    ghost Seen: { Type 0 };
    /// The token, as the table sees it.
    ghost seen: { Self → Seen };
    /// The words that stand in no production.
    ghost word: { Seen → Bool };
    /// The tokens of a class.
    ghost has: { C → Seen → Bool };

    /// Whether the token is of the class.
    fn is(&self, class: C) -> bool
        ensures { result ≡ has class (seen self.now) };

    /// Whether the token is a word that stands in no production.
    fn is_left_out(&self) -> bool
        ensures { result ≡ word (seen self.now) };
}

/// The tokens that a parser has still to read, by classes `C`, and the first place of what was shown to be
/// left out, as the number of tokens that were left there: 0 where nothing was.
pub struct Cursor<'t, T, C> {
    pub tokens: &'t [T],
    pub omission: usize,
    classes: PhantomData<C>,
}

impl<'t, T, C> Clone for Cursor<'t, T, C> {
    ghost is_clone = { λ x y. y ≡ x };

    ghost is_infallible = { λ _. ⊤ };

    fn clone(&self) -> Result<Cursor<'t, T, C>, AllocError> {
        Ok(*self)
    }
}

impl<'t, T, C> Copy for Cursor<'t, T, C> {}

impl<'t, T, C> Cursor<'t, T, C> {
    /// The cursor before all tokens.
    pub fn new(tokens: &'t [T]) -> Cursor<'t, T, C>
        ensures tokens { result.tokens.now ≡ tokens.now }
        ensures omission { result.omission ≡ 0 }
    {
        Cursor {
            tokens,
            omission: 0,
            classes: PhantomData,
        }
    }

    /// The cursor behind these tokens.
    pub fn before(self, tokens: &'t [T]) -> Cursor<'t, T, C>
        ensures tokens { result.tokens.now ≡ tokens.now }
        ensures omission { result.omission ≡ self.entry.omission }
    {
        Cursor {
            tokens,
            omission: self.omission,
            classes: PhantomData,
        }
    }
}

impl<'t, T: Token<C>, C: Copy> Cursor<'t, T, C> {
    /// The cursor, where a token was or wasn't seen that shows what begins at `start` to be left out.
    pub fn noting(self, start: &[T], shown: bool) -> Cursor<'t, T, C>
        ensures tokens { result.tokens.now ≡ self.entry.tokens.now }
        ensures omission { result.omission ≡ omission_at (map T.seen start.now) shown self.entry.omission }
    {
        let omission = if shown {
            self.omission.max(start.len())
        } else {
            self.omission
        };
        Cursor {
            tokens: self.tokens,
            omission,
            classes: PhantomData,
        }
    }

    /// Whether a token of the class is next.
    pub fn next_is(self, class: C) -> bool
        ensures { result ≡ next_is (T.has class) (map T.seen self.entry.tokens.now) }
    {
        match self.tokens {
            [] => false,
            [first, ..] => first.is(class),
        }
    }

    /// Why a parser stops at the next token, which could not stand there, or at the end.
    pub fn lost(self) -> Stop
        ensures { Stops (refused {A = Unit {0}} T.word lost (map T.seen self.entry.tokens.now)
            self.entry.omission) result }
    {
        let shown = match self.tokens {
            [] => false,
            [first, ..] => first.is_left_out(),
        };
        let at = self.noting(self.tokens, shown);
        if at.omission == 0 {
            Stop::Lost(self.tokens.len())
        } else {
            Stop::LeftOut(at.omission)
        }
    }

    /// The cursor behind a token of the class.
    pub fn take(self, class: C) -> Result<Cursor<'t, T, C>, Stop>
        ensures { Passes T.seen tt
            (noting_token T.word (only_means (T.has class)) (map T.seen self.entry.tokens.now)
            self.entry.omission) result }
    {
        match self.tokens {
            [first, rest @ ..] if first.is(class) => Ok(self.before(rest)),
            _ => Err(self.lost()),
        }
    }

    /// Why a parser stops where no level is left.
    pub fn past(self) -> Stop
        ensures { Stops (noting_past {A = Unit {0}} T.word (map T.seen self.entry.tokens.now)
            self.entry.omission) result }
    {
        let Some(first) = self.tokens.first() else {
            return self.lost();
        };
        let at = self.noting(self.tokens, first.is_left_out());
        if at.omission == 0 {
            Stop::Deep(self.tokens.len())
        } else {
            Stop::LeftOut(at.omission)
        }
    }
}

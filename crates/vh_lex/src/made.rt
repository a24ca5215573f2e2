ghost use Rattle.std.specs.Prelude.{◌≡◌, ◌≤◌, ◌+◌, IfOk};
ghost use Rattle.vh_lex.specs.Gathered.{nothing_gathered};
ghost use Rattle.vh_lex.specs.Spelling.{with_token, with_use};
ghost use Rattle.vh_lex.specs.Outcomes.{Makes};

use crate::fault::Halt;
use crate::names::Names;
use crate::symbol::Symbol;
use crate::token::{Kind, Token};
use std::alloc::Global;
use std::marker::Model;
use vh_base::{DesignFault, NoMemory, Place};
use vh_base_shared::SharedBytes;

// The greatest number of tokens.
const TOKEN_LIMIT: usize = 4_194_304;

// The greatest number of uses of macros.
const USE_LIMIT: u32 = 1_048_576;

// The tokens so far, and how many macros were used. Contracts see nothing of the names that stood before.
#[derive(Drop)]
pub(crate) struct Output {
    tokens: Vec<Token>,
    uses: u32,
    names: Names,
}

impl Model for Output {
    ghost use Rattle.vh_lex.specs.Gathered.{Gathered};

    ghost Value = { Gathered };

    ghost view = { λ o. record { tokens = o.tokens.items; uses = o.uses } };
}

impl Output {
    // No tokens.
    pub(crate) fn new(alloc: Global) -> Output
        ensures { result ≡ nothing_gathered }
    {
        Output {
            tokens: Vec::new(alloc),
            uses: 0,
            names: Names::new(alloc),
        }
    }

    // A token more.
    #[inline(always)]
    pub(crate) fn push(&mut self, kind: Kind, place: Place) -> Result<(), Halt>
        ensures value { Makes (with_token kind place self.old) result self.new }
        ensures uses { self.new.uses ≡ self.old.uses }
    {
        if self.tokens.len() >= TOKEN_LIMIT {
            return Err(Halt::Fault(DesignFault::L6));
        }
        self.tokens.push(Token { kind, place })?;
        Ok(())
    }

    // A symbol more.
    pub(crate) fn push_symbol(&mut self, symbol: Symbol, place: Place) -> Result<(), Halt>
        ensures { Makes (with_token (Kind.Symbol symbol) place self.old) result self.new }
    {
        self.push(Kind::Symbol(symbol), place)
    }

    // The bytes of a name, shared with one that stood before where it is remembered.
    pub(crate) fn shared(&mut self, alloc: Global, name: &[u8]) -> Result<SharedBytes, NoMemory>
        ensures value { IfOk result (λ s. s ≡ name.now) }
        ensures kept { self.new ≡ self.old }
    {
        self.names.shared(alloc, name)
    }

    // A use of a macro more.
    pub(crate) fn count_use(&mut self) -> Result<(), Halt>
        ensures value { Makes (with_use self.old) result self.new }
        ensures counted { IfOk result (λ _. self.new.uses ≡ self.old.uses + 1) }
        ensures within { IfOk result (λ _. self.new.uses ≤ 1048576) }
    {
        if self.uses >= USE_LIMIT {
            return Err(Halt::Fault(DesignFault::L6));
        }
        self.uses += 1;
        Ok(())
    }

    // The tokens.
    pub(crate) fn tokens(&self) -> &Vec<Token>
        ensures { result.now.items ≡ self.now.tokens }
    {
        &self.tokens
    }
}

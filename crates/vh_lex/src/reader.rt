ghost use Rattle.std.specs.Prelude.{◌≡◌, ◌≤◌, ◌<◌, ◌+◌, ◌^◌, false, length, drop, IfOk, IfSome};
ghost use Rattle.vh_lex.specs.Conditionals.{skips};
ghost use Rattle.vh_lex.specs.Directives;
ghost use Rattle.vh_lex.specs.Beginning;
ghost use Rattle.vh_lex.specs.Inside.{IsLone};
ghost use Rattle.vh_lex.specs.Lexed;
ghost use Rattle.vh_lex.specs.Outcomes.{Leaves, Went, Reads, stop_of, fault_of};
ghost use Rattle.vh_lex.specs.Spelling;

use crate::beginning::{beginning, comment_len, lone_symbol};
use crate::bytes::{Class, after, begins, begins_with, run_len, upto};
use crate::conditional::Conditionals;
use crate::directed::first_setting;
use crate::directive::{Directive, directive_behind, directive_of};
use crate::expand::{Around, expand};
use crate::fault::{Halt, LexFault, Stop};
use crate::keyword::keyword_of;
use crate::macros::Macros;
use crate::made::Output;
use crate::name::{is_long, word_name};
use crate::piece::{Part, Piece};
use crate::place::moved;
use crate::setting::Setting;
use crate::symbol::Symbol;
use crate::token::Kind;
use std::alloc::Global;
use vh_base::{DesignFault, Place, is_name_start, is_space};

// What reading has come to: the macros, the tokens, the conditionals that are open, what the
// directives so far set, and the place of the next byte.
#[derive(Drop)]
pub(crate) struct Reader {
    pub(crate) macros: Macros,
    pub(crate) made: Output,
    pub(crate) conditionals: Conditionals,
    pub(crate) setting: Setting,
    pub(crate) place: Place,
}

impl Reader {
    // Nothing is read.
    pub(crate) fn new(alloc: Global) -> Reader
        ensures { result ≡ Lexed.first_state }
    {
        Reader {
            macros: Macros::new(alloc),
            made: Output::new(alloc),
            conditionals: Conditionals::new(alloc),
            setting: first_setting(),
            place: Place {
                file: 0,
                line: 1,
                column: 1,
            },
        }
    }

    // Reads the bytes, which begin at the reader's place. It takes time in their number and in
    // the number of tokens and uses of macros that they give.
    pub(crate) fn read(&mut self, alloc: Global, bytes: &[u8]) -> Result<(), LexFault>
        requires lines { self.old.place.line + length bytes.now < 2 ^ 32 }
        requires columns { self.old.place.column + length bytes.now < 2 ^ 32 }
        requires first { 1 ≤ self.old.place.column }
        ensures { Reads (Spelling.read bytes.now self.old) result self.new }
    {
        let mut rest = bytes;
        while let Some((_, behind)) = rest.split_first() {
            let place = self.place;
            if let Some(symbol) = self.next_symbol(rest) {
                match self.symbol_step(symbol, rest) {
                    Ok(_) => {
                        self.place.column += 1;
                        rest = behind;
                        continue;
                    }
                    Err(stop) => return Err(placed(stop, place, rest)),
                }
            }
            match self.step(alloc, rest) {
                Ok(len) => {
                    self.place = moved(place, upto(len, rest));
                    rest = after(len.saturating_sub(1), behind);
                }
                Err(stop) => return Err(placed(stop, place, rest)),
            }
        }
        Ok(())
    }

    // The symbol of one byte with which the bytes begin, as `lone_symbol` sees it, in text that is read.
    fn next_symbol(&self, bytes: &[u8]) -> Option<Symbol>
        ensures { IfSome result (λ symbol.
            (skips self.now.conditionals ≡ false) × IsLone symbol bytes.now) }
    {
        if self.conditionals.skips() {
            return None;
        }
        lone_symbol(bytes)
    }

    // Reads this symbol, with which the bytes begin.
    fn symbol_step(&mut self, symbol: Symbol, _bytes: &[u8]) -> Result<usize, Stop>
        requires read { skips self.old.conditionals ≡ false }
        requires lone { IsLone symbol _bytes.now }
        ensures went { Went (Spelling.step _bytes.now self.old) result self.new }
        ensures one { IfOk result (λ len. len ≡ 1) }
        ensures place { self.new.place ≡ self.old.place }
    {
        made(1, self.made.push_symbol(symbol, self.place))
    }

    // Reads what the bytes begin with; answers how many bytes that is.
    fn step(&mut self, alloc: Global, bytes: &[u8]) -> Result<usize, Stop>
        ensures { Went (Spelling.step bytes.now self.old) result self.new }
    {
        if self.conditionals.skips() {
            return self.skipped(bytes);
        }
        if let Some((first, _)) = bytes.split_first() {
            if is_space(*first) {
                return Ok(run_len(Class::Space, bytes));
            }
            if is_name_start(*first) {
                return self.word(alloc, bytes);
            }
        }
        self.piece(alloc, bytes)
    }

    // Reads the piece that the bytes begin with.
    #[inline(never)]
    fn piece(&mut self, alloc: Global, bytes: &[u8]) -> Result<usize, Stop>
        ensures { Went (Spelling.piece_read (Beginning.beginning bytes.now) bytes.now self.old) result
            self.new }
    {
        match beginning(alloc, &mut self.made, bytes)? {
            Piece::Blank(len) => Ok(len),
            Piece::Kept(part, len) => self.part_read(alloc, part, len, bytes),
            Piece::Fault(fault, at) => Err(Stop::Fault(fault, at)),
        }
    }

    // Reads a keyword or a name.
    fn word(&mut self, alloc: Global, bytes: &[u8]) -> Result<usize, Stop>
        ensures { Went (Spelling.piece_read (Beginning.word_at bytes.now) bytes.now self.old) result
            self.new }
    {
        let word = &bytes[..run_len(Class::Name, bytes)];
        if word == b"module".as_slice() {
            return self.part_read(alloc, Part::Module, word.len(), bytes);
        }
        let kind = match keyword_of(word) {
            Some(keyword) => Kind::Word(keyword),
            None if is_long(word) => return Err(Stop::Fault(DesignFault::L6, 0)),
            None => Kind::Name(self.made.shared(alloc, word)?),
        };
        made(word.len(), self.made.push(kind, self.place))
    }

    // Reads a part of so many bytes.
    fn part_read(
        &mut self,
        alloc: Global,
        part: Part,
        len: usize,
        bytes: &[u8],
    ) -> Result<usize, Stop>
        requires { len ≤ length bytes.now }
        ensures { Went (Spelling.part_read part len bytes.now self.old) result self.new }
    {
        match part {
            Part::Token(kind) => made(len, self.made.push(kind, self.place)),
            Part::Module => made(len, self.made.push(Kind::Module(self.setting), self.place)),
            Part::Use(name) => {
                let directive = directive_behind(after(1, bytes), name.as_slice());
                self.name_read(alloc, directive, name.as_slice(), len, after(len, bytes))
            }
            Part::Wrong(fault) => Err(Stop::Fault(fault, 0)),
        }
    }

    // A directive, or the use of a macro, of so many bytes, behind which the bytes stand.
    fn name_read(
        &mut self,
        alloc: Global,
        directive: Option<Directive>,
        name: &[u8],
        len: usize,
        behind: &[u8],
    ) -> Result<usize, Stop>
        requires { len + length behind.now ≤ usize.MAX }
        ensures { Went (Spelling.name_read directive name.now len behind.now self.old) result
            self.new }
    {
        match directive {
            Some(directive) => self.directed(alloc, directive, len, behind),
            None => made(len, self.used(alloc, name)),
        }
    }

    // The use of a macro.
    fn used(&mut self, alloc: Global, name: &[u8]) -> Result<(), Halt>
        ensures { Leaves (Spelling.used
            (Spelling.expanded Spelling.most_levels (Spelling.around_of self.old))
            (Spelling.around_of self.old) name.now self.old.made) result self.old self.new }
    {
        let around = Around {
            macros: &self.macros,
            setting: self.setting,
            place: self.place,
        };
        match self.macros.text(name) {
            Some(text) => expand(alloc, &around, text, &mut self.made),
            None => Err(Halt::Fault(DesignFault::L3)),
        }
    }

    // Passes over what skipped bytes begin with; answers how many bytes that is.
    #[inline(never)]
    fn skipped(&mut self, bytes: &[u8]) -> Result<usize, Stop>
        ensures { Went (Spelling.skipped bytes.now self.old) result self.new }
    {
        if let Some(len) = comment_len(bytes) {
            return Ok(len);
        }
        if begins_with(b'/', b'*', bytes) {
            return Err(Stop::Fault(DesignFault::L5, 0));
        }
        if begins(b'`', bytes) {
            return self.use_skipped(bytes);
        }
        Ok(1)
    }

    // A name behind a backquote in skipped text.
    fn use_skipped(&mut self, bytes: &[u8]) -> Result<usize, Stop>
        requires { 1 ≤ length bytes.now }
        ensures { Went (Spelling.use_skipped (Beginning.word_name (drop 1 bytes.now)) bytes.now
            self.old) result self.new }
    {
        let Some(named) = word_name(after(1, bytes)) else {
            return Ok(1);
        };
        let at = named.len + 1;
        match directive_of(named.name) {
            Some(directive) => self.seen_directive(directive, at, after(at, bytes)),
            None => Ok(at),
        }
    }
}

// How many bytes gave what was made, or the fault at their first.
fn made(len: usize, outcome: Result<(), Halt>) -> Result<usize, Stop>
    ensures { result ≡ stop_of len outcome }
{
    match outcome {
        Ok(()) => Ok(len),
        Err(Halt::Fault(fault)) => Err(Stop::Fault(fault, 0)),
        Err(Halt::NoMemory) => Err(Stop::NoMemory),
    }
}

// A fault where it stands, so many bytes behind the place at which the bytes begin.
fn placed(stop: Stop, place: Place, bytes: &[u8]) -> LexFault
    requires lines { place.line + length bytes.now < 2 ^ 32 }
    requires columns { place.column + length bytes.now < 2 ^ 32 }
    requires first { 1 ≤ place.column }
    ensures { result ≡ fault_of stop place bytes.now }
{
    match stop {
        Stop::Fault(fault, at) => LexFault::Refused(fault, moved(place, upto(at, bytes))),
        Stop::NoMemory => LexFault::NoMemory,
    }
}

ghost use Rattle.std.specs.Prelude.{◌≡◌, ◌≢◌, ◌<◌, ◌^◌, length, Some, Ok, Err, IfOk};
ghost use Rattle.vh_lex.specs.Ends.{AnswersFile, AnswersEnd};
ghost use Rattle.vh_lex.specs.Lexed.{nothing_read, file_read, answer_of, end_of, IfReading, IsBegun};

use crate::fault::LexFault;
use crate::reader::Reader;
use crate::token::Token;
use std::alloc::Global;
use std::marker::Model;
use vh_base::{DesignFault, NoMemory, Place};

/// The tokens of the files of a source, which are given one after the other. Directives carry over
/// from each file to the next (IEEE 1364-2005, clause 19). After a fault the lexer answers that
/// fault again.
#[derive(Drop)]
pub struct Lexer {
    reader: Reader,
    first: Option<Place>,
    stopped: Option<LexFault>,
}

impl Model for Lexer {
    ghost use Rattle.vh_lex.specs.Lexed.{Lexed, lexed_of};

    ghost Value = { Lexed };

    ghost view = { λ l. lexed_of l.stopped l.first l.reader };
}

impl Lexer {
    /// No file is read.
    pub fn new(alloc: Global) -> Result<Lexer, NoMemory>
        ensures { IfOk result (λ lexer. lexer ≡ nothing_read) }
    {
        Ok(Lexer {
            reader: Reader::new(alloc),
            first: None,
            stopped: None,
        })
    }

    /// Reads a file more, whose number among the file words is `file`; answers the first lexical
    /// fault, `L1` to `L6`, or want of memory. It takes time in the number of bytes, tokens and uses
    /// of macros.
    pub fn file(&mut self, alloc: Global, file: u32, bytes: &[u8]) -> Result<(), LexFault>
        requires { length bytes.now < 2 ^ 31 }
        // Unless memory was refused, the files so far are those before and this one,
        ensures read { result ≢ Err LexFault.NoMemory
            → self.new ≡ file_read (record { number = file; bytes = bytes.now }) self.old }
        // the answer is what they come to,
        ensures answer { result ≡ answer_of self.new }
        // and where it is a fault, they have no text: it stops there.
        ensures text { AnswersFile self.new result }
    {
        self.read(alloc, file, bytes)
    }

    fn read(&mut self, alloc: Global, file: u32, bytes: &[u8]) -> Result<(), LexFault>
        requires { length bytes.now < 2 ^ 31 }
        ensures read { result ≢ Err LexFault.NoMemory
            → self.new ≡ file_read (record { number = file; bytes = bytes.now }) self.old }
        ensures answer { result ≡ answer_of self.new }
    {
        if let Some(fault) = self.stopped {
            return Err(fault);
        }
        let start = Place {
            file,
            line: 1,
            column: 1,
        };
        if self.first.is_none() {
            self.first = Some(start);
        }
        self.reader.place = start;
        match self.reader.read(alloc, bytes) {
            Ok(()) => Ok(()),
            Err(fault) => {
                self.stopped = Some(fault);
                Err(fault)
            }
        }
    }

    /// The answer at the end of the last file: `L2` where a conditional is left open, at the
    /// outermost one, or the fault that was answered before.
    pub fn end(&self) -> Result<(), LexFault>
        ensures answer { result ≡ end_of self.now }
        // Where it is Ok, the files have a text with the tokens that were made, and no other; and else they
        // have none: it stops at the fault.
        ensures text { AnswersEnd self.now result }
    {
        self.closed()
    }

    fn closed(&self) -> Result<(), LexFault>
        ensures { result ≡ end_of self.now }
    {
        if let Some(fault) = self.stopped {
            return Err(fault);
        }
        match self.reader.conditionals.outermost() {
            Some(outermost) => Err(LexFault::Refused(DesignFault::L2, outermost.place)),
            None => Ok(()),
        }
    }

    /// The tokens of the files so far. After a fault they are of no use.
    pub fn tokens(&self) -> &Vec<Token>
        ensures { IfReading self.now (λ first s. result.now.items ≡ s.made.tokens) }
    {
        self.reader.made.tokens()
    }

    /// Line 1, column 1 of the first file.
    pub fn first(&self) -> Place
        requires { IsBegun self.now }
        ensures { IfReading self.now (λ first s. first ≡ Some result) }
    {
        match self.first {
            Some(first) => first,
            None => unreachable!(),
        }
    }

    /// The place behind the last byte of the last file.
    pub fn after(&self) -> Place
        requires { IsBegun self.now }
        ensures { IfReading self.now (λ first s. s.place ≡ result) }
    {
        self.reader.place
    }
}

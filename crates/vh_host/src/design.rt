ghost use Rattle.std.specs.Prelude.{◌≡◌, ◌≤◌, None, length, IfOk};
ghost use Rattle.vh_lex.specs.Lexed.{files_after, nothing_read, IfReading};
ghost use Rattle.vh_ast.specs.Views.{source_tree};
ghost use Rattle.vh_elab.specs.Elaborated.{elaborated};
ghost use Rattle.vh_base.specs.declared.faults.DesignFault.TheVariants.{S3};
ghost use Rattle.vh_host.specs.declared.judging.Refusal.TheVariants as to;
ghost use Rattle.vh_host.specs.Acceptance.{begin_from, design_files, first_too_long, place, source_of, tokens_answer};
ghost use Rattle.vh_host.specs.Reading.{files_seen};
ghost use Rattle.vh_host.specs.Judging.{Designs, Sources, Lexes, Begins};

use crate::file::TextFile;
use crate::judging::Refusal;
use std::alloc::Global;
use vh_ast::Source;
use vh_base::{DesignFault, Place};
use vh_design::Design;
use vh_elab::{Elaboration, elaborate};
use vh_host_words::is_design_word;
use vh_lex::{Lexer, Token};
use vh_parse_expr::ParseFault;
use vh_parse_items::parse;

/// The source of the Verilog files among these, which are read as one text in word order; or their
/// first fault. Its tokens are given back here.
pub fn read_source(alloc: Global, files: &[TextFile<'_>]) -> Result<Source, Refusal>
    requires few { length files.now ≤ 8 }
    requires short { first_too_long 1 (files_seen files.now) ≡ None }
    ensures { Sources (source_of (files_seen files.now)) result }
{
    let mut lexer = Lexer::new(alloc)?;
    let is_begun = lex_files(alloc, &mut lexer, files)?;
    lexer.end()?;
    let after = place_after(&lexer, is_begun);
    parsed(alloc, lexer.tokens().as_slice(), after)
}

// Reads the Verilog files among these, and tells whether there is one.
fn lex_files(alloc: Global, lexer: &mut Lexer, files: &[TextFile<'_>]) -> Result<bool, Refusal>
    requires few { length files.now ≤ 8 }
    requires short { first_too_long 1 (files_seen files.now) ≡ None }
    ensures read { Lexes (files_after lexer.old (design_files 1 (files_seen files.now)))
        result lexer.new }
    ensures begun { IfOk result (λ is_begun. Begins is_begun lexer.old lexer.new) }
{
    let mut is_begun = false;
    let mut number: u32 = 0;
    for file in files {
        number += 1;
        if !is_design_word(file.word) {
            continue;
        }
        lexer.file(alloc, number, file.bytes.as_slice())?;
        is_begun = true;
    }
    Ok(is_begun)
}

// The place behind the last byte that was read.
fn place_after(lexer: &Lexer, is_begun: bool) -> Place
    requires { Begins is_begun nothing_read lexer.now }
    ensures { IfReading lexer.now (λ first s. s.place ≡ result) }
{
    if is_begun {
        return lexer.after();
    }
    Place {
        file: 0,
        line: 1,
        column: 1,
    }
}

/// The place of the first byte of the Verilog files.
pub fn begin_of(files: &[TextFile<'_>]) -> Place
    requires few { length files.now ≤ 8 }
    ensures { result ≡ begin_from 1 (files_seen files.now) }
{
    let mut number: u32 = 1;
    for file in files {
        if is_design_word(file.word) {
            return Place {
                file: number,
                line: 1,
                column: 1,
            };
        }
        number += 1;
    }
    Place {
        file: 0,
        line: 1,
        column: 1,
    }
}

// Where what comes later is told.
fn later() -> Refusal
    ensures { result ≡ to.Design S3 (place 1 1 1) }
{
    let place = Place {
        file: 1,
        line: 1,
        column: 1,
    };
    Refusal::Design(DesignFault::S3, place)
}

// The source of tokens, behind which this place is.
#[tactic(auto, unfolding(crate::specs::Acceptance::tokens_answer))]
fn parsed(alloc: Global, tokens: &[Token], after: Place) -> Result<Source, Refusal>
    ensures { Sources (tokens_answer tokens.now after) result }
{
    match parse(alloc, tokens, after) {
        Ok(source) => Ok(source),
        Err(ParseFault::Refused(fault, place)) => Err(Refusal::Design(fault, place)),
        Err(ParseFault::NoMemory) => Err(Refusal::NoMemory),
    }
}

/// The design of a source, which begins at this place, or its least fault.
pub fn designed(alloc: Global, begin: Place, source: &Source) -> Result<Design, Refusal>
    ensures { Designs (elaborated begin (source_tree source.now)) result }
{
    match elaborate(alloc, begin, source)? {
        Elaboration::Made(design) => Ok(design),
        Elaboration::Refused(fault, place) => Err(Refusal::Design(fault, place)),
        Elaboration::Later => Err(later()),
    }
}

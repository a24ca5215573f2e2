ghost use Rattle.std.specs.Prelude.{◌≡◌, ◌≤◌, ◌<◌, [], Ok, None, length, IfOk, IfErr};
ghost use Rattle.vh_app.specs.Reading.{app_of};
ghost use Rattle.vh_host.specs.Acceptance.{by_texts, script_in, scripts_of, accepts, first_too_long};
ghost use Rattle.vh_host.specs.Reading.{files_seen};
ghost use Rattle.vh_host.specs.Judging.{RefusesTexts, RefusesScript, RefusesFile, status_of};

use crate::design::{begin_of, designed, read_source};
use crate::file::TextFile;
use crate::status::Status;
use std::alloc::{AllocError, AllocFailed, Global};
use thiserror::Error;
use vh_app::{Script, ScriptFault, read_app};
use vh_base::{AppFault, DesignFault, NoMemory, Place, Short};
use vh_design::Design;
use vh_host_words::is_script_word;
use vh_lex::LexFault;

/// Why texts can't be run.
#[derive(Clone, Copy, Debug, PartialEq, Eq, Error)]
pub enum Refusal {
    /// The Verilog text is refused.
    #[error("design refused: {0}")]
    Design(DesignFault, Place),
    /// The script of this file, by its number from 1, is refused.
    #[error("script of file {0} refused: {1}")]
    Script(u32, AppFault, Place),
    #[error("out of memory")]
    NoMemory,
}

impl From<AllocError> for Refusal {
    ghost use Rattle.vh_host.specs.declared.judging.Refusal.TheVariants.{NoMemory};

    ghost from_gives = { λ _ refusal. refusal ≡ NoMemory };

    fn from(_refused: AllocError) -> Refusal {
        Refusal::NoMemory
    }
}

impl From<NoMemory> for Refusal {
    ghost use Rattle.vh_host.specs.declared.judging.Refusal.TheVariants.{NoMemory};

    ghost from_gives = { λ _ refusal. refusal ≡ NoMemory };

    fn from(_refused: NoMemory) -> Refusal {
        Refusal::NoMemory
    }
}

impl From<LexFault> for Refusal {
    ghost use Rattle.vh_host.specs.Judging.{refusal_of};

    ghost from_gives = { λ fault given. given ≡ refusal_of fault };

    fn from(fault: LexFault) -> Refusal {
        match fault {
            LexFault::Refused(fault, place) => Refusal::Design(fault, place),
            LexFault::NoMemory => Refusal::NoMemory,
        }
    }
}

impl<T: Drop> From<AllocFailed<T>> for Refusal {
    ghost use Rattle.vh_host.specs.declared.judging.Refusal.TheVariants.{NoMemory};

    ghost from_gives = { λ _ refusal. refusal ≡ NoMemory };

    fn from(_refused: AllocFailed<T>) -> Refusal {
        Refusal::NoMemory
    }
}

/// The status of a refusal.
pub fn status_of(refusal: Refusal) -> Status
    ensures { result ≡ status_of refusal }
{
    match refusal {
        Refusal::Design(fault, place) => Status::DesignRefused(fault, place),
        Refusal::Script(n, fault, place) => Status::AppRefused(n, fault, place),
        Refusal::NoMemory => Status::NoMemory,
    }
}

/// The design and the scripts of files that were read, or the first refusal: the tokens and the grammar
/// of the Verilog files first, then the scripts in word order, and then the elaboration.
pub fn judge(alloc: Global, files: &[TextFile<'_>]) -> Result<(Design, Vec<Script>), Refusal>
    requires few { length files.now ≤ 8 }
    requires short { first_too_long 1 (files_seen files.now) ≡ None }
    ensures accepted { IfOk result (λ parts. by_texts (files_seen files.now)
        ≡ accepts parts.0 parts.1.items) }
    ensures few { IfOk result (λ parts. length parts.1.items ≤ 8) }
    ensures refused { IfErr result
        (λ refusal. RefusesTexts refusal (by_texts (files_seen files.now))) }
{
    let source = read_source(alloc, files)?;
    let scripts = scripts_of(alloc, files)?;
    let design = designed(alloc, begin_of(files), &source)?;
    Ok((design, scripts))
}

// The scripts in word order, or the first refusal.
fn scripts_of(alloc: Global, files: &[TextFile<'_>]) -> Result<Vec<Script>, Refusal>
    requires few { length files.now ≤ 8 }
    requires short { first_too_long 1 (files_seen files.now) ≡ None }
    ensures read { IfOk result (λ scripts. scripts_of 1 [] (files_seen files.now) ≡
        Ok scripts.items) }
    ensures few { IfOk result (λ scripts. length scripts.items ≤ 8) }
    ensures refused { IfErr result
        (λ refusal. RefusesScript refusal (scripts_of 1 [] (files_seen files.now))) }
{
    let mut scripts = Vec::new(alloc);
    let mut names = Vec::new(alloc);
    let mut number: u32 = 0;
    for file in files {
        number += 1;
        if !is_script_word(file.word) {
            continue;
        }
        let script = script_of(alloc, number, &names, file)?;
        names.push(script.name().copy()?)?;
        scripts.push(script)?;
    }
    Ok(scripts)
}

// The script of the file of this number, behind scripts of these names.
fn script_of(
    alloc: Global,
    number: u32,
    earlier: &Vec<Short>,
    file: &TextFile<'_>,
) -> Result<Script, Refusal>
    requires { length file.now.bytes.items < 2147483648 }
    ensures read { let told = script_in number (app_of file.now.bytes.items earlier.now.items) in
        IfOk result (λ script. told ≡ Ok script) }
    ensures refused { let told = script_in number (app_of file.now.bytes.items earlier.now.items) in
        IfErr result (λ refusal. RefusesFile refusal told) }
{
    match read_app(alloc, file.bytes.as_slice(), earlier) {
        Ok(script) => Ok(script),
        Err(ScriptFault::Refused(fault, place)) => {
            let of_file = Place {
                file: number,
                line: place.line,
                column: place.column,
            };
            Err(Refusal::Script(number, fault, of_file))
        }
        Err(ScriptFault::NoMemory) => Err(Refusal::NoMemory),
    }
}

ghost use Rattle.std.specs.Prelude.{◌≡◌, drop, IfOk, IsTrue, IsFalse};
ghost use Rattle.std.specs.Process.{exit_status};
ghost use Rattle.std.specs.Vec.Iter.{into_iter_items};
ghost use Rattle.vh_host.specs.Report.{exit_of};

use std::alloc::Global;
use std::env::Args;
use std::io::ErrorKind;
use std::process::ExitCode;
use std::rt::{Clock, Env};
use std::{env, rt};
use thiserror::Error;
use vh_base::NoMemory;
use vh_base_outside::{Holding, Output, Source, is_file_or_pipe};
use vh_host::{Status, exit_number, run, status_line};

// How many bytes of the transcript are held at most.
const ROOM: usize = 65_536;

// Why there are no words.
#[derive(Clone, Copy, Debug, PartialEq, Eq, Error)]
enum WordsFault {
    #[error("a word is no text")]
    NoText,
    #[error("out of memory")]
    NoMemory,
}

/// Runs what the program's words ask for, writes the transcript to standard output and the
/// status line to standard error, and gives the number to exit with.
pub fn run_program<R: Env + rt::Files + Print + Eprint + Clock + AllocGlobal>(rt: &R) -> ExitCode {
    match words_of(rt) {
        Ok(words) => {
            let mut files = Source::new(rt);
            let room = if is_file_or_pipe(rt) { ROOM } else { 0 };
            let mut out = Holding::new(Output::new(rt), rt, rt.alloc(), room);
            let status = run(rt.alloc(), &words, &mut files, &mut out);
            let is_written = out.flush().is_ok();
            tell(rt, &words, &once_written(status, is_written))
        }
        Err(WordsFault::NoText) => tell(rt, &Vec::new(rt.alloc()), &Status::Usage),
        Err(WordsFault::NoMemory) => ExitCode::from(exit_number(&Status::NoMemory)),
    }
}

// The words behind the program's own name.
fn words_of<R: Env + AllocGlobal>(rt: &R) -> Result<Vec<String>, WordsFault> {
    match env::args(rt) {
        Ok(args) => match all_words(rt.alloc(), args) {
            Ok(words) => Ok(without_name(words)),
            Err(NoMemory) => Err(WordsFault::NoMemory),
        },
        Err(e) if e.kind() == ErrorKind::InvalidData => Err(WordsFault::NoText),
        Err(_) => Err(WordsFault::NoMemory),
    }
}

// All the words, the program's name first.
fn all_words(alloc: Global, args: Args) -> Result<Vec<String>, NoMemory>
    ensures { IfOk result (λ words. words.items ≡ into_iter_items args) }
{
    let mut words = Vec::new(alloc);
    for word in args {
        if words.push(word).is_err() {
            return Err(NoMemory);
        }
    }
    Ok(words)
}

// All words but the first, which is the program's name.
fn without_name(words: Vec<String>) -> Vec<String>
    ensures { result.items ≡ drop 1 words.items }
{
    let mut words = words;
    if !words.is_empty() {
        let _name = words.remove(0);
    }
    words
}

// The status once what was held is written out. Where that failed, a failed write is told.
fn once_written(status: Status, is_written: bool) -> Status
    ensures written { IsTrue is_written → result ≡ status }
    ensures unwritten { IsFalse is_written → result ≡ Status.WriteFault }
{
    if is_written {
        status
    } else {
        Status::WriteFault
    }
}

// Writes the status line to standard error where there is one, and gives the exit number.
fn tell<R: Eprint + AllocGlobal>(rt: &R, words: &Vec<String>, status: &Status) -> ExitCode
    ensures { exit_status result ≡ exit_of status.now }
{
    if let Ok(line) = status_line(rt.alloc(), words, status) {
        if !line.is_empty() {
            let _ = rt.eprintln(line.as_str());
        }
    }
    ExitCode::from(exit_number(status))
}

ghost use Rattle.std.specs.Prelude.{◌≡◌, ◌++◌, codes, string_bytes, IfOk, Some, [], unwrap_or, slice_get};
ghost use Rattle.std.specs.Option.{option_map};
ghost use Rattle.std.specs.Fmt.{decimal};
ghost use Rattle.vh_host_words.specs.Words.{texts, numbered, files_of};
ghost use Rattle.vh_host_words.specs.Views.{asked};
ghost use Rattle.vh_host.specs.Report.{line_of_status, exit_of, name_of_file};

use crate::status::Status;
use std::alloc::{AllocError, Global};
use vh_base::{NoMemory, Place};
use vh_host_words::{Asked, read_words};

/// The line that is told of a status, without a newline; it is empty for a run that came to
/// its end. A file goes by its word among `words`, which don't hold the program's name.
pub fn status_line(alloc: Global, words: &Vec<String>, status: &Status) -> Result<String, NoMemory>
    ensures { IfOk result (λ line. string_bytes line
        ≡ line_of_status (texts words.now.items) status.now) }
{
    line_of(alloc, words.as_slice(), status)
}

fn line_of(alloc: Global, words: &[String], status: &Status) -> Result<String, NoMemory>
    ensures { IfOk result (λ line. string_bytes line
        ≡ line_of_status (texts words.now) status.now) }
{
    match status {
        Status::ReadFault(n) => line_with(alloc, "cannot read ", words, *n),
        Status::TooLong(n) => line_with(alloc, "too long: ", words, *n),
        Status::AppRefused(n, fault, place) => {
            let asked = read_words(alloc, words)?;
            Ok(line_of_app(alloc, file_name(&asked, *n), fault.name(), place)?)
        }
        Status::DesignRefused(fault, place) => Ok(line_of_design(alloc, fault.name(), place)?),
        Status::RunFault(fault) => {
            let name = fault.name();
            Ok(format!(in alloc; "run fault: {name}")?)
        }
        Status::Done(_) => Ok(String::new(alloc)),
        Status::Usage => Ok(String::from_str(
            alloc,
            "usage: vhost run [--order fifo|lifo|seeded:N] [--budget N] FILES..",
        )?),
        Status::BudgetSpent => Ok(String::from_str(alloc, "budget spent")?),
        Status::WriteFault => Ok(String::from_str(alloc, "cannot write")?),
        Status::NoMemory => Ok(String::from_str(alloc, "out of memory")?),
    }
}

// The name of a file, behind these words.
fn line_with(alloc: Global, before: &str, words: &[String], n: u32) -> Result<String, NoMemory>
    ensures { IfOk result (λ line. string_bytes line
        ≡ before.now ++ name_of_file (texts words.now) n) }
{
    let asked = read_words(alloc, words)?;
    let name = file_name(&asked, n);
    Ok(format!(in alloc; "{before}{name}")?)
}

// The line of a Verilog text that is refused.
fn line_of_design(alloc: Global, fault: &str, place: &Place) -> Result<String, AllocError>
    ensures { IfOk result (λ text. string_bytes text
        ≡ codes "design refused: " ++ fault.now ++ codes " at "
        ++ decimal place.now.file ++ codes ":" ++ decimal place.now.line ++ codes ":" ++ decimal
        place.now.column) }
{
    let file = place.file;
    let line = place.line;
    let column = place.column;
    format!(in alloc; "design refused: {fault} at {file}:{line}:{column}")
}

// The line of a script that is refused.
fn line_of_app(alloc: Global, name: &str, fault: &str, place: &Place) -> Result<String, AllocError>
    ensures { IfOk result (λ text. string_bytes text
        ≡ codes "application refused: " ++ name.now ++ codes ": " ++ fault.now
        ++ codes " at " ++ decimal place.now.line ++ codes ":" ++ decimal place.now.column) }
{
    let line = place.line;
    let column = place.column;
    format!(in alloc; "application refused: {name}: {fault} at {line}:{column}")
}

// The word of the file of this number, or nothing where there is none.
fn file_name(words: &Option<Asked>, n: u32) -> &str
    ensures { result.now ≡ unwrap_or (numbered (files_of (option_map asked words.now)) n) [] }
{
    match words {
        Some(asked) => name_in(asked.files.as_slice(), n),
        None => "",
    }
}

// The same among the file words.
fn name_in(files: &[String], n: u32) -> &str
    ensures { result.now ≡ unwrap_or (numbered (texts files.now) n) [] }
{
    if n == 0 {
        return "";
    }
    word_at(files, n as usize - 1)
}

// The word at an index, or nothing where there is none.
fn word_at(files: &[String], index: usize) -> &str
    ensures { result.now ≡ unwrap_or (option_map string_bytes (slice_get files.now index)) [] }
{
    match files.get(index) {
        Some(file) => file.as_str(),
        None => "",
    }
}

/// The number with which the program exits on a status.
pub fn exit_number(status: &Status) -> u8
    ensures { result ≡ exit_of status.now }
{
    match status {
        Status::Done(_) => 0,
        Status::Usage => 1,
        Status::DesignRefused(_, _) => 2,
        Status::AppRefused(_, _, _) => 3,
        Status::RunFault(_) => 4,
        Status::BudgetSpent => 5,
        Status::ReadFault(_) | Status::TooLong(_) => 6,
        Status::WriteFault => 7,
        Status::NoMemory => 8,
    }
}

ghost use Rattle.std.specs.Prelude.{◌≡◌, ◌≢◌, ◌<◌, ◌≤◌, ℕ, List, Some, None, true, false, length, IfOk};
ghost use Rattle.vh_base.specs.Outside.{Rose, IsAnswered};
ghost use Rattle.vh_host_words.specs.Words.{texts, numbered};
ghost use Rattle.vh_host.specs.Acceptance.{limit_of, first_too_long, is_too_long};
ghost use Rattle.vh_host.specs.Reading.{file_seen, files_seen, AreRead, MeetsLong, MeetsNoneLong};

use crate::file::TextFile;
use std::alloc::{AllocFailed, Global};
use thiserror::Error;
use vh_base::{FetchFault, Files};
use vh_host_words::is_script_word;

// How many bytes a Verilog file may have.
const DESIGN_LIMIT: usize = 4_194_304;

// How many bytes a script may have.
const SCRIPT_LIMIT: usize = 1_048_576;

/// Why files weren't read. A file goes by its number among the file words, from 1.
#[derive(Clone, Copy, Debug, PartialEq, Eq, Error)]
pub enum Unread {
    #[error("the source failed at file {0}")]
    Failed(u32),
    #[error("file {0} has more bytes than it may have")]
    TooLong(u32),
    #[error("out of memory")]
    NoMemory,
}

impl<T: Drop> From<AllocFailed<T>> for Unread {
    ghost use Rattle.vh_host.specs.declared.reading.Unread.TheVariants.{NoMemory};

    ghost from_gives = { λ _ unread. unread ≡ NoMemory };

    fn from(_refused: AllocFailed<T>) -> Unread {
        Unread::NoMemory
    }
}

/// Reads each file once, in word order, up to the first that fails or is too long.
pub fn read_files<'a, F: Files>(
    alloc: Global,
    words: &'a [String],
    files: &mut F,
) -> Result<Vec<TextFile<'a>>, Unread>
    requires { length words.now ≤ 8 }
    ensures read { IfOk result
        (λ found. AreRead (F.holds files.old) (texts words.now) (files_seen found.items)) }
    ensures short { IfOk result (λ found. first_too_long 1 (files_seen found.items) ≡ None) }
    ensures long { (n : ℕ) → result
        ≡ Err (Unread.TooLong n) → MeetsLong (F.holds files.old) (texts words.now) n }
    ensures failed { (n : ℕ) → result
        ≡ Err (Unread.Failed n) → Rose (F.faults files.old) (F.faults files.new) }
    ensures in_order { (n : ℕ) → result
        ≡ Err (Unread.Failed n) → MeetsNoneLong (F.holds files.old) (texts words.now) n }
    ensures blamed { (n : ℕ) → result ≡ Err (Unread.Failed n) → numbered (texts words.now) n
        ≡ Some (F.blamed files.new) }
    ensures calm { ((n : ℕ) → result ≢ Err (Unread.Failed n)) → F.faults files.new
        ≡ F.faults files.old }
{
    let mut found = Vec::new(alloc);
    let mut number: u32 = 0;
    for word in words {
        number += 1;
        let file = match read_file(alloc, word.as_str(), number, files) {
            Ok(file) => file,
            Err(unread) => return Err(unread),
        };
        found.push(file)?;
    }
    Ok(found)
}

// Reads the file of this number.
fn read_file<'a, F: Files>(
    alloc: Global,
    word: &'a str,
    number: u32,
    files: &mut F,
) -> Result<TextFile<'a>, Unread>
    ensures word { IfOk result (λ file. file.word.now ≡ word.now) }
    ensures read { IfOk result
        (λ file. IsAnswered (F.holds files.old word.now) (limit_of word.now) file.bytes.items) }
    ensures short { IfOk result (λ file. is_too_long (file_seen file) ≡ false) }
    ensures long { (n : ℕ) → result ≡ Err (Unread.TooLong n) → (n ≡ number)
        × ((bytes : List ℕ) × IsAnswered (F.holds files.old word.now) (limit_of word.now) bytes
        × (is_too_long (record { word = word.now; bytes = bytes }) ≡ true)) }
    ensures failed { (n : ℕ) → result ≡ Err (Unread.Failed n) → (n
        ≡ number) × Rose (F.faults files.old) (F.faults files.new) }
    ensures blamed { (n : ℕ) → result ≡ Err (Unread.Failed n) → F.blamed files.new ≡ word.now }
    ensures calm { ((n : ℕ) → result ≢ Err (Unread.Failed n)) → F.faults files.new
        ≡ F.faults files.old }
    ensures same { (other : List ℕ) → F.holds files.new other ≡ F.holds files.old other }
{
    let limit = limit_of(word);
    match files.read(alloc, word, limit) {
        Ok(bytes) => {
            if bytes.len() > limit {
                return Err(Unread::TooLong(number));
            }
            Ok(TextFile { word, bytes })
        }
        Err(FetchFault::Failed) => Err(Unread::Failed(number)),
        Err(FetchFault::NoMemory) => Err(Unread::NoMemory),
    }
}

/// How many bytes the file of a word may have.
pub fn limit_of(word: &str) -> usize
    ensures { result ≡ limit_of word.now }
{
    if is_script_word(word) {
        SCRIPT_LIMIT
    } else {
        DESIGN_LIMIT
    }
}

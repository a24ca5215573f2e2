ghost use Rattle.std.specs.Prelude.{◌≡◌, ◌≢◌, ◌≤◌, ℕ, List, Some, None, length};
ghost use Rattle.vh_base.specs.Outside.{Rose};
ghost use Rattle.vh_host_words.specs.Words.{reading, file_word, texts};
ghost use Rattle.vh_host.specs.Acceptance.{by_texts, accepts, first_too_long};
ghost use Rattle.vh_host.specs.Reading.{files_seen};
ghost use Rattle.vh_host.specs.Headline.{Accounts, AnswersWith, Transcribes, Refuses, Exactly};

use crate::file::TextFile;
use crate::judging::{judge, status_of};
use crate::reading::{Unread, read_files};
use crate::status::Status;
use crate::transcript::transcribe;
use std::alloc::Global;
use vh_app::Script;
use vh_base::{Files, Sink};
use vh_design::Design;
use vh_host_words::read_words;
use vh_kernel::Kernel;
use vh_kernel_choice::Chooser;

/// Runs the Verilog files that the words ask for, as one source, with the script beside them, and
/// writes the transcript: reads the words, each file once in word order, the Verilog files and the
/// scripts, and then makes the run's labels, each line offered to the sink as its label is
/// made. It answers the first refusal, and nothing is written before the run begins. `words`
/// don't hold the program's own name.
pub fn run<F: Files, K: Sink>(
    alloc: Global,
    words: &Vec<String>,
    files: &mut F,
    out: &mut K,
) -> Status
    // For accepted words, texts and scripts, the bytes written are exactly the text of a run.
    ensures headline { Transcribes (texts words.now.items) (F.holds files.old) result
        (K.written out.old) (K.written out.new) }
    // A refused input gets its refusal, and nothing is written.
    ensures refused { Refuses (texts words.now.items) (F.holds files.old) result
        (K.written out.old) (K.written out.new) }
    // The same whatever the source tells, on the contents that it answered.
    ensures accounts { Accounts (texts words.now.items) (F.holds files.old) result
        (K.written out.old) (K.written out.new) }

    ensures usage { Exactly result Status.Usage (reading (texts words.now.items) ≡ None) }
    ensures read_fault { (n : ℕ) → result
        ≡ Status.ReadFault n → Rose (F.faults files.old) (F.faults files.new) }
    ensures blamed { (n : ℕ) → result ≡ Status.ReadFault n → file_word (texts words.now.items) n
        ≡ Some (F.blamed files.new) }
    ensures write_fault { result ≡ Status.WriteFault → Rose (K.faults out.old) (K.faults out.new) }

    ensures source_calm { ((n : ℕ) → result ≢ Status.ReadFault n) → F.faults files.new
        ≡ F.faults files.old }
    ensures sink_calm { result ≢ Status.WriteFault → K.faults out.new ≡ K.faults out.old }
{
    run_words(alloc, words.as_slice(), files, out)
}

// Reads the words and the files that they name, and runs their texts.
fn run_words<F: Files, K: Sink>(
    alloc: Global,
    words: &[String],
    files: &mut F,
    out: &mut K,
) -> Status
    ensures accounts { Accounts (texts words.now) (F.holds files.old) result (K.written out.old)
        (K.written out.new) }
    ensures usage { Exactly result Status.Usage (reading (texts words.now) ≡ None) }
    ensures read_fault { (n : ℕ) → result
        ≡ Status.ReadFault n → Rose (F.faults files.old) (F.faults files.new) }
    ensures blamed { (n : ℕ) → result ≡ Status.ReadFault n → file_word (texts words.now) n
        ≡ Some (F.blamed files.new) }
    ensures write_fault { result ≡ Status.WriteFault → Rose (K.faults out.old) (K.faults out.new) }
    ensures source_calm { ((n : ℕ) → result ≢ Status.ReadFault n) → F.faults files.new
        ≡ F.faults files.old }
    ensures sink_calm { result ≢ Status.WriteFault → K.faults out.new ≡ K.faults out.old }
{
    let asked = match read_words(alloc, words) {
        Ok(Some(asked)) => asked,
        Ok(None) => return Status::Usage,
        Err(_) => return Status::NoMemory,
    };
    match read_files(alloc, asked.files.as_slice(), files) {
        Ok(found) => run_files(alloc, found.as_slice(), asked.chooser, asked.budget, out),
        Err(Unread::Failed(n)) => Status::ReadFault(n),
        Err(Unread::TooLong(n)) => Status::TooLong(n),
        Err(Unread::NoMemory) => Status::NoMemory,
    }
}

// Runs the texts of files, none of which is too long.
fn run_files<K: Sink>(
    alloc: Global,
    files: &[TextFile<'_>],
    chooser: Chooser,
    budget: u64,
    out: &mut K,
) -> Status
    requires few { length files.now ≤ 8 }
    requires short { first_too_long 1 (files_seen files.now) ≡ None }
    ensures answers { AnswersWith chooser budget (by_texts (files_seen files.now)) result
        (K.written out.old) (K.written out.new) }
    ensures failed { result ≡ Status.WriteFault → Rose (K.faults out.old) (K.faults out.new) }
    ensures calm { result ≢ Status.WriteFault → K.faults out.new ≡ K.faults out.old }
    ensures read { (n : ℕ) → result ≢ Status.ReadFault n }
    ensures worded { result ≢ Status.Usage }
{
    match judge(alloc, files) {
        Ok((design, scripts)) => run_design(alloc, design, scripts, chooser, budget, out),
        Err(refusal) => status_of(refusal),
    }
}

// Runs a design with its scripts.
fn run_design<K: Sink>(
    alloc: Global,
    design: Design,
    scripts: Vec<Script>,
    chooser: Chooser,
    budget: u64,
    out: &mut K,
) -> Status
    requires { length scripts.items ≤ 8 }
    ensures answers { AnswersWith chooser budget (accepts design scripts.items) result
        (K.written out.old) (K.written out.new) }
    ensures failed { result ≡ Status.WriteFault → Rose (K.faults out.old) (K.faults out.new) }
    ensures calm { result ≢ Status.WriteFault → K.faults out.new ≡ K.faults out.old }
    ensures read { (n : ℕ) → result ≢ Status.ReadFault n }
    ensures worded { result ≢ Status.Usage }
{
    match Kernel::new(alloc, design, scripts) {
        Ok(mut kernel) => transcribe(alloc, &mut kernel, chooser, budget, out),
        Err(_) => Status::NoMemory,
    }
}

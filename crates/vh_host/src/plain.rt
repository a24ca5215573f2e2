ghost use Rattle.std.specs.Prelude.{◌≡◌, ◌<◌, ◌≤◌, ◌++◌, List, [], None, length, map, IfOk, OnOk};
ghost use Rattle.std.specs.List.{list_any};
ghost use Rattle.vh_kernel.specs.Views.{state_of};
ghost use Rattle.vh_kernel.specs.Step.{choices_of};
ghost use Rattle.vh_kernel.specs.Run.{moves_of, text_of, line_of_move};
ghost use Rattle.vh_host_words.specs.Words.{texts, chooser_word};
ghost use Rattle.vh_host.specs.Acceptance.{verdict, by_files, by_texts, files_with, first_too_long, is_too_long};
ghost use Rattle.vh_host.specs.Reading.{file_seen, files_seen};
ghost use Rattle.vh_host.specs.Headline.{IsTextBy};
ghost use Rattle.vh_host.specs.Transcript.{IsTextFromOpening};

use crate::file::TextFile;
use crate::judging::{Refusal, judge};
use crate::reading::limit_of;
use crate::transcript::choose;
use std::alloc::Global;
use vh_app::Script;
use vh_base::{Bytes, NoMemory};
use vh_design::Design;
use vh_host_words::read_words;
use vh_kernel::{Kernel, Label};
use vh_kernel_choice::Chooser;

/// The plain program beside the definitions: the text of the run that these words and these
/// contents of their files, in word order, ask for, of so many labels at most, all of it in
/// memory; no bytes where they are refused. Tests compare `run` with it.
pub fn plain_text(
    alloc: Global,
    words: &[String],
    contents: &[Bytes],
    budget: u64,
) -> Result<Vec<u8>, NoMemory>
    ensures { IfOk result
        (λ text. IsTextBy (chooser_word (texts words.now)) budget (verdict
        (texts words.now) contents.now) text.items) }
{
    let Some(asked) = read_words(alloc, words)? else {
        return Ok(Vec::new(alloc));
    };
    let files = files_with(alloc, asked.files.as_slice(), contents)?;
    text_of_files(alloc, files.as_slice(), asked.chooser, budget)
}

// The files of these words with these contents.
fn files_with<'a>(
    alloc: Global,
    words: &'a [String],
    contents: &[Bytes],
) -> Result<Vec<TextFile<'a>>, NoMemory>
    ensures files { IfOk result (λ files. files_seen files.items
        ≡ files_with (texts words.now) contents.now) }
    ensures few { IfOk result (λ files. length files.items ≤ length words.now) }
{
    let mut files = Vec::new(alloc);
    for word in words {
        let number = files.len();
        if number >= contents.len() {
            return Ok(files);
        }
        let copied = Vec::from_slice(alloc, contents[number].as_slice())?;
        files.push(TextFile {
            word: word.as_str(),
            bytes: copied,
        })?;
    }
    Ok(files)
}

// Does the file have more bytes than it may have?
fn is_too_long(file: &TextFile<'_>) -> bool
    ensures { result ≡ is_too_long (file_seen file.now) }
{
    file.bytes.len() > limit_of(file.word)
}

// The text of the run of files.
fn text_of_files(
    alloc: Global,
    files: &[TextFile<'_>],
    chooser: Chooser,
    budget: u64,
) -> Result<Vec<u8>, NoMemory>
    requires { length files.now ≤ 8 }
    ensures { IfOk result
        (λ text. IsTextBy chooser budget (by_files (files_seen files.now)) text.items) }
{
    if any_too_long(files) {
        return Ok(Vec::new(alloc));
    }
    text_of_texts(alloc, files, chooser, budget)
}

// Is one of the files too long?
fn any_too_long(files: &[TextFile<'_>]) -> bool
    ensures { result ≡ list_any (λ file. is_too_long (file_seen file)) files.now }
{
    files.iter().any(|file| is_too_long(file))
}

// The text of the run of files, none of which is too long.
fn text_of_texts(
    alloc: Global,
    files: &[TextFile<'_>],
    chooser: Chooser,
    budget: u64,
) -> Result<Vec<u8>, NoMemory>
    requires few { length files.now ≤ 8 }
    requires short { first_too_long 1 (files_seen files.now) ≡ None }
    ensures { IfOk result
        (λ text. IsTextBy chooser budget (by_texts (files_seen files.now)) text.items) }
{
    match judge(alloc, files) {
        Ok((design, scripts)) => text_of_run(alloc, design, scripts, chooser, budget),
        Err(Refusal::NoMemory) => Err(NoMemory),
        Err(Refusal::Design(_, _) | Refusal::Script(_, _, _)) => Ok(Vec::new(alloc)),
    }
}

// The text of the run of a design with its scripts.
fn text_of_run(
    alloc: Global,
    design: Design,
    scripts: Vec<Script>,
    chooser: Chooser,
    budget: u64,
) -> Result<Vec<u8>, NoMemory>
    requires { length scripts.items ≤ 8 }
    ensures { IfOk result
        (λ text. IsTextFromOpening chooser budget design scripts.items text.items) }
{
    let mut kernel = Kernel::new(alloc, design, scripts)?;
    let text = text_from(alloc, &mut kernel, chooser, budget)?;
    Ok(text)
}

// The text of so many labels at most, from the state that the kernel shows.
fn text_from(
    alloc: Global,
    kernel: &mut Kernel,
    chooser: Chooser,
    budget: u64,
) -> Result<Vec<u8>, NoMemory>
    requires { 0 < choices_of (state_of kernel.old) }
    ensures { IfOk result (λ text. text.items
        ≡ text_of (moves_of chooser budget (state_of kernel.old))) }
{
    let mut text = Vec::new(alloc);
    let mut next = chooser;
    for made in 0..budget {
        let k = choose(kernel, &mut next);
        let label = kernel.step(alloc, k)?;
        push_line(alloc, &mut text, kernel, &label)?;
        if label.is_end() {
            return Ok(text);
        }
    }
    Ok(text)
}

// Adds the line of a label, where it has one.
fn push_line(
    alloc: Global,
    text: &mut Vec<u8>,
    kernel: &Kernel,
    label: &Label,
) -> Result<(), NoMemory>
    ensures { OnOk result (text.new.items
        ≡ text.old.items ++ line_of_move (label.now, state_of kernel.now)) }
{
    let mut line = String::new(alloc);
    vh_kernel::push_line(&mut line, kernel, label)?;
    text.extend_from_slice(line.as_bytes())?;
    Ok(())
}

//! A call of the program over texts, and what it is to write.

use anyhow::Result;
use std::alloc::Global;
use vh_base::{MemoryFiles, MemorySink};
use vh_host::{exit_number, run, status_line};

/// Files by their names.
pub type Texts = Vec<(String, Vec<u8>)>;

/// What a call writes, and in one line what it exits with and tells.
#[derive(Drop)]
pub struct Written {
    pub transcript: Vec<u8>,
    pub told: String,
}

/// What is written where the program is called with these words over these files.
pub fn make_call(alloc: Global, words: &Vec<String>, texts: &Texts) -> Result<Written> {
    let mut files = MemoryFiles::new(copies(alloc, texts)?, Vec::new(alloc));
    let mut out = MemorySink::new(alloc, 1024, Vec::new(alloc))?;
    let status = run(alloc, words, &mut files, &mut out);
    let line = status_line(alloc, words, &status)?;
    let exit = exit_number(&status);
    let told = format!(in alloc; "{exit} {line}")?;
    Ok(Written {
        transcript: Vec::from_slice(alloc, out.bytes())?,
        told: String::from_str(alloc, told.trim_end())?,
    })
}

fn copies(alloc: Global, texts: &Texts) -> Result<Texts> {
    let mut files = Vec::new(alloc);
    for (name, text) in texts {
        files.push((name.clone()?, text.clone()?))?;
    }
    Ok(files)
}

/// The words of a line, which are apart by spaces.
pub fn words_of(alloc: Global, line: &str) -> Result<Vec<String>> {
    let mut words = Vec::new(alloc);
    for word in line.split_whitespace() {
        words.push(String::from_str(alloc, word)?)?;
    }
    Ok(words)
}

/// The same words with this budget behind the first of them.
pub fn with_budget(alloc: Global, words: &Vec<String>, budget: usize) -> Result<Vec<String>> {
    let mut all = Vec::new(alloc);
    for (i, word) in words.iter().enumerate() {
        all.push(word.clone()?)?;
        if i == 0 {
            all.push(String::from_str(alloc, "--budget")?)?;
            all.push(format!(in alloc; "{budget}")?)?;
        }
    }
    Ok(all)
}

/// A transcript without its last line.
pub fn before_the_last(transcript: &[u8]) -> &[u8] {
    let Some((_, lines)) = transcript.split_last() else {
        return transcript;
    };
    match lines.iter().rposition(|byte| *byte == b'\n') {
        Some(at) => &transcript[..at + 1],
        None => &transcript[..0],
    }
}

//! A list of cases as it is read, line by line.

use crate::call::{Texts, before_the_last, make_call, with_budget, words_of};
use anyhow::{Context, Result};
use std::alloc::Global;
use std::io;

// What the lines below belong to.
#[derive(Clone, Copy)]
enum Part {
    Nothing,
    FirstLine,
    Text,
    Transcript,
}

/// The case that is read, and the counts of those before.
#[derive(Drop)]
pub struct List {
    part: Part,
    head: String,
    texts: Texts,
    // How many labels its runs have, where that is said.
    labels: usize,
    // What its designs show before the lines of a transcript.
    shown: Vec<u8>,
    words: Vec<String>,
    transcript: Vec<u8>,
    cases: usize,
    calls: usize,
    differ: usize,
}

impl List {
    /// No case so far.
    pub fn new(alloc: Global) -> List {
        List {
            part: Part::Nothing,
            head: String::new(alloc),
            texts: Vec::new(alloc),
            labels: 0,
            shown: Vec::new(alloc),
            words: Vec::new(alloc),
            transcript: Vec::new(alloc),
            cases: 0,
            calls: 0,
            differ: 0,
        }
    }

    /// How many cases there were.
    pub fn cases(&self) -> usize {
        self.cases
    }

    /// How many calls were made.
    pub fn calls(&self) -> usize {
        self.calls
    }

    /// How many of them weren't as they are to be.
    pub fn differ(&self) -> usize {
        self.differ
    }

    /// Takes the next line. Behind the last of a call it makes the call.
    pub fn take(&mut self, rt: &HostRuntime, line: &[u8]) -> Result<()> {
        let alloc = rt.alloc();
        match line {
            [b'=', b'=', b' ', ..] => self.begin(alloc, text_of(line, 3)?),
            [b'-', b'-', b' ', ..] => self.begin_text(alloc, text_of(line, 3)?),
            [b'=', b' ', ..] => self.add_labels(text_of(line, 2)?),
            [b'>'] | [b'>', b' ', ..] => self.begin_call(alloc, text_of(line, 2)?),
            [b'!', b' ', ..] => self.end_call(rt, text_of(line, 2)?),
            _ => self.add(alloc, line),
        }
    }

    fn begin(&mut self, alloc: Global, head: &str) -> Result<()> {
        self.part = Part::Nothing;
        self.head = String::from_str(alloc, head)?;
        self.texts = Vec::new(alloc);
        self.labels = 0;
        self.shown = Vec::new(alloc);
        self.cases = self.cases.saturating_add(1);
        Ok(())
    }

    fn begin_text(&mut self, alloc: Global, name: &str) -> Result<()> {
        self.part = Part::FirstLine;
        self.texts
            .push((String::from_str(alloc, name)?, Vec::new(alloc)))?;
        Ok(())
    }

    fn add_labels(&mut self, line: &str) -> Result<()> {
        let count = line.split_whitespace().count();
        self.labels = self.labels.saturating_add(count);
        Ok(())
    }

    fn begin_call(&mut self, alloc: Global, line: &str) -> Result<()> {
        self.part = Part::Transcript;
        self.words = words_of(alloc, line)?;
        self.transcript = self.shown.clone()?;
        Ok(())
    }

    fn add(&mut self, alloc: Global, line: &[u8]) -> Result<()> {
        match self.part {
            Part::Nothing => Ok(()),
            Part::FirstLine | Part::Text => self.add_to_text(alloc, line),
            Part::Transcript => self.add_to_transcript(line),
        }
    }

    // A line of a text, or what it shows behind `=>`.
    fn add_to_text(&mut self, alloc: Global, line: &[u8]) -> Result<()> {
        if let Ok(row) = std::str::from_utf8(line) {
            if let Some((shown, value)) = row.split_once(" => ") {
                let display = display_of(alloc, shown)?;
                self.shown.extend_from_slice(b"0 out \"")?;
                self.shown.extend_from_slice(value.as_bytes())?;
                self.shown.extend_from_slice(b"\\n\"\n")?;
                return self.add_line(display.as_bytes());
            }
        }
        self.add_line(line)
    }

    // A text is its lines with the ends of lines between them.
    fn add_line(&mut self, line: &[u8]) -> Result<()> {
        let is_first = matches!(self.part, Part::FirstLine);
        self.part = Part::Text;
        let Some((_, text)) = self.texts.last_mut() else {
            return Ok(());
        };
        if !is_first {
            text.push(b'\n')?;
        }
        text.extend_from_slice(line)?;
        Ok(())
    }

    fn add_to_transcript(&mut self, line: &[u8]) -> Result<()> {
        self.transcript.extend_from_slice(line)?;
        self.transcript.push(b'\n')?;
        Ok(())
    }

    // Makes the call, and where its labels are known the same with as many and with one less.
    fn end_call(&mut self, rt: &HostRuntime, told: &str) -> Result<()> {
        let alloc = rt.alloc();
        self.part = Part::Nothing;
        let words = std::mem::replace(&mut self.words, Vec::new(alloc));
        let transcript = std::mem::replace(&mut self.transcript, Vec::new(alloc));
        self.compare(rt, &words, &transcript, told)?;
        let labels = self.labels;
        if labels > 0 {
            let whole = with_budget(alloc, &words, labels)?;
            self.compare(rt, &whole, &transcript, told)?;
            let less = with_budget(alloc, &words, labels.saturating_sub(1))?;
            self.compare(rt, &less, before_the_last(&transcript), "5 budget spent")?;
        }
        Ok(())
    }

    // Compares what a call writes and tells with what it is to, and prints where they differ.
    fn compare(
        &mut self,
        rt: &HostRuntime,
        words: &Vec<String>,
        transcript: &[u8],
        told: &str,
    ) -> Result<()> {
        self.calls = self.calls.saturating_add(1);
        let found = make_call(rt.alloc(), words, &self.texts)?;
        if found.transcript.as_slice() == transcript && found.told.as_str() == told {
            return Ok(());
        }
        self.differ = self.differ.saturating_add(1);
        println!(rt; "{}: {words:?} tells {} and writes", self.head, found.told)?;
        rt.write_all(found.transcript.as_slice())?;
        Ok(())
    }
}

// The text of a line from there on.
fn text_of(line: &[u8], from: usize) -> Result<&str> {
    let text = line.get(from..).unwrap_or(&line[..0]);
    std::str::from_utf8(text).context("a line isn't UTF-8")
}

// A display of this value in binary, or of these arguments, which begin with a format.
fn display_of(alloc: Global, shown: &str) -> io::Result<String> {
    if shown.starts_with('"') {
        Ok(format!(in alloc; "$display({shown});")?)
    } else {
        Ok(format!(in alloc; "$display(\"%b\", {shown});")?)
    }
}

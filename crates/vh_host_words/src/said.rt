ghost use Rattle.std.specs.Prelude.{◌≡◌, IfOk, string_bytes};
ghost use Rattle.std.specs.Option.{option_map};
ghost use Rattle.vh_host_words.specs.Words;
ghost use Rattle.vh_host_words.specs.Words.{texts};
ghost use Rattle.vh_host_words.specs.Views.{saying};

use crate::values::{budget_named, chooser_named};
use std::alloc::Global;
use vh_base::NoMemory;
use vh_kernel_choice::Chooser;

/// What a run of the program does.
#[derive(Clone, Copy, Debug, PartialEq, Eq)]
pub enum Mode {
    Run,
}

/// What the next word is read as.
#[derive(Clone, Copy, Debug, PartialEq, Eq)]
pub enum Expects {
    Anything,
    Order,
    Budget,
    Position,
}

/// What words said so far.
#[derive(Drop)]
pub struct Said {
    pub mode: Option<Mode>,
    pub files: Vec<String>,
    pub chooser: Option<Chooser>,
    pub budget: Option<u64>,
    pub expects: Expects,
}

fn mode_named(word: &str) -> Option<Mode>
    ensures { result ≡ Words.mode_named word.now }
{
    match word {
        "run" => Some(Mode::Run),
        _ => None,
    }
}

impl Said {
    fn nothing(alloc: Global) -> Said
        ensures { saying result ≡ Words.nothing_said }
    {
        Said {
            mode: None,
            files: Vec::new(alloc),
            chooser: None,
            budget: None,
            expects: Expects::Anything,
        }
    }

    fn expecting(self, expects: Expects) -> Said
        ensures { Some (saying result) ≡ Words.expecting expects (saying self) }
    {
        let mut said = self;
        said.expects = expects;
        said
    }

    fn with_chooser(self, chooser: Option<Chooser>) -> Option<Said>
        ensures { option_map saying result ≡ Words.with_chooser chooser (saying self) }
    {
        let chooser = chooser?;
        if self.chooser.is_some() {
            return None;
        }
        let mut said = self;
        said.chooser = Some(chooser);
        said.expects = Expects::Anything;
        Some(said)
    }

    fn with_budget(self, budget: Option<u64>) -> Option<Said>
        ensures { option_map saying result ≡ Words.with_budget budget (saying self) }
    {
        let budget = budget?;
        if self.budget.is_some() {
            return None;
        }
        let mut said = self;
        said.budget = Some(budget);
        said.expects = Expects::Anything;
        Some(said)
    }

    // A word by position: the mode, or a file.
    fn with_position(self, alloc: Global, word: &str) -> Result<Option<Said>, NoMemory>
        ensures { IfOk result (λ said. option_map saying said
            ≡ Words.with_position word.now (saying self)) }
    {
        if self.mode.is_none() {
            return Ok(self.with_mode(mode_named(word)));
        }
        let mut said = self;
        let file = String::from_str(alloc, word)?;
        said.files.push(file)?;
        Ok(Some(said))
    }

    fn with_mode(self, mode: Option<Mode>) -> Option<Said>
        ensures { option_map saying result ≡ Words.with_mode (saying self) mode }
    {
        let mode = mode?;
        let mut said = self;
        said.mode = Some(mode);
        Some(said)
    }

    // An option whose value stands behind `=`.
    fn with_valued(self, word: &str) -> Option<Said>
        ensures { option_map saying result ≡ Words.with_valued word.now (saying self) }
    {
        if let Some(value) = word.strip_prefix("--order=") {
            return self.with_chooser(chooser_named(value));
        }
        let value = word.strip_prefix("--budget=")?;
        self.with_budget(budget_named(value))
    }

    fn with_option(self, word: &str) -> Option<Said>
        ensures { option_map saying result ≡ Words.with_option word.now (saying self) }
    {
        match word {
            "--" => Some(self.expecting(Expects::Position)),
            "--order" => Some(self.expecting(Expects::Order)),
            "--budget" => Some(self.expecting(Expects::Budget)),
            _ => self.with_valued(word),
        }
    }

    fn with_any(self, alloc: Global, word: &str) -> Result<Option<Said>, NoMemory>
        ensures { IfOk result (λ said. option_map saying said
            ≡ Words.with_any word.now (saying self)) }
    {
        if is_option(word) {
            return Ok(self.with_option(word));
        }
        self.with_position(alloc, word)
    }

    // One word more; none where there is no reading with it.
    fn with_word(self, alloc: Global, word: &str) -> Result<Option<Said>, NoMemory>
        ensures { IfOk result (λ said. option_map saying said
            ≡ Words.with_word word.now (saying self)) }
    {
        match self.expects {
            Expects::Anything => self.with_any(alloc, word),
            Expects::Order => Ok(self.with_chooser(chooser_named(word))),
            Expects::Budget => Ok(self.with_budget(budget_named(word))),
            Expects::Position => self.with_position(alloc, word),
        }
    }
}

// Is the word written as an option is?
fn is_option(word: &str) -> bool
    ensures { result ≡ Words.is_option word.now }
{
    word.as_bytes().starts_with(b"-") && word != "-"
}

/// What all words say; none where they have no reading.
pub fn all_said(alloc: Global, words: &[String]) -> Result<Option<Said>, NoMemory>
    ensures { IfOk result (λ s. option_map saying s
        ≡ Words.said (texts words.now) Words.nothing_said) }
{
    let mut said = Said::nothing(alloc);
    for word in words {
        match said.with_word(alloc, word.as_str())? {
            Some(more) => said = more,
            None => return Ok(None),
        }
    }
    Ok(Some(said))
}

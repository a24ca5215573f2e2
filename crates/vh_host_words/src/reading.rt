ghost use Rattle.std.specs.Prelude.{◌≡◌, ◌≤◌, length, IfOk, IfSome};
ghost use Rattle.std.specs.Option.{option_map};
ghost use Rattle.vh_host_words.specs.Words;
ghost use Rattle.vh_host_words.specs.Words.{texts};
ghost use Rattle.vh_host_words.specs.Views.{asked, saying};

use crate::file_words::can_be_run;
use crate::said::{Expects, Mode, Said, all_said};
use std::alloc::Global;
use vh_base::NoMemory;
use vh_kernel_choice::Chooser;

/// What words ask for: to run these files under this order of choice, for so many labels at most.
#[derive(Drop)]
pub struct Asked {
    pub files: Vec<String>,
    pub chooser: Chooser,
    pub budget: u64,
}

// How many labels a run has at most, where no budget is said.
const DEFAULT_BUDGET: u64 = 100_000_000;

fn is_whole(expects: Expects) -> bool
    ensures { result ≡ Words.is_whole expects }
{
    match expects {
        Expects::Anything | Expects::Position => true,
        Expects::Order | Expects::Budget => false,
    }
}

// What a run asks for.
fn run_asked(said: Said) -> Option<Asked>
    ensures asked { option_map asked result ≡ Words.run_reading (saying said) }
    ensures few { IfSome result (λ a. length a.files.items ≤ 8) }
{
    if !can_be_run(said.files.as_slice()) {
        return None;
    }
    Some(Asked {
        files: said.files,
        chooser: said.chooser.unwrap_or(Chooser::Fifo),
        budget: said.budget.unwrap_or(DEFAULT_BUDGET),
    })
}

fn asked_by(said: Said) -> Option<Asked>
    ensures asked { option_map asked result ≡ Words.reading_said (saying said) }
    ensures few { IfSome result (λ a. length a.files.items ≤ 8) }
{
    if !is_whole(said.expects) {
        return None;
    }
    match said.mode {
        None => None,
        Some(Mode::Run) => run_asked(said),
    }
}

/// What the words ask for; none where they have no reading.
pub fn read_words(alloc: Global, words: &[String]) -> Result<Option<Asked>, NoMemory>
    ensures reading { IfOk result (λ a. option_map asked a ≡ Words.reading (texts words.now)) }
    ensures few { IfOk result (λ o. IfSome o (λ a. length a.files.items ≤ 8)) }
{
    match all_said(alloc, words)? {
        Some(said) => Ok(asked_by(said)),
        None => Ok(None),
    }
}

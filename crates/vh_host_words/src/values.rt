ghost use Rattle.std.specs.Prelude.{◌≡◌, Some, None};
ghost use Rattle.std.specs.List.{list_all};
ghost use Rattle.vh_host_words.specs.Words.{is_digit, is_numeral, number_named, chooser_named, seed_named, budget_in, budget_named};

use vh_kernel_choice::Chooser;

fn is_digit(byte: u8) -> bool
    ensures { result ≡ is_digit byte }
{
    byte >= b'0' && byte <= b'9'
}

fn all_digits(word: &[u8]) -> bool
    ensures { result ≡ list_all is_digit word.now }
{
    word.iter().all(|byte| is_digit(*byte))
}

// Decimal digits without a leading zero?
fn is_numeral(word: &[u8]) -> bool
    ensures { result ≡ is_numeral word.now }
{
    !word.is_empty() && all_digits(word) && (word.len() <= 1 || !word.starts_with(b"0"))
}

// The number below 2^64 that a word is.
fn number_named(word: &str) -> Option<u64>
    ensures { result ≡ number_named word.now }
{
    if !is_numeral(word.as_bytes()) {
        return None;
    }
    match word.parse::<u64>() {
        Ok(number) => Some(number),
        Err(_) => None,
    }
}

fn seed_named(word: &str) -> Option<Chooser>
    ensures { result ≡ seed_named word.now }
{
    match number_named(word) {
        Some(number) => Some(Chooser::Seeded(number)),
        None => None,
    }
}

/// The order of choice that a word is.
pub fn chooser_named(word: &str) -> Option<Chooser>
    ensures { result ≡ chooser_named word.now }
{
    match word {
        "fifo" => Some(Chooser::Fifo),
        "lifo" => Some(Chooser::Lifo),
        _ => seed_named(word.strip_prefix("seeded:")?),
    }
}

fn budget_in(number: u64) -> Option<u64>
    ensures { result ≡ budget_in number }
{
    if number > 0 && number < 1 << 63 {
        Some(number)
    } else {
        None
    }
}

/// The budget that a word is.
pub fn budget_named(word: &str) -> Option<u64>
    ensures { result ≡ budget_named word.now }
{
    budget_in(number_named(word)?)
}

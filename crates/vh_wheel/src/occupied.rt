ghost use Rattle.std.specs.Prelude.{ℕ, ◌≡◌, ◌≢◌, ◌<◌, ◌≤◌, ◌+◌, None, IfSome};
ghost use Rattle.std.specs.Int.{bit_at};
ghost use Rattle.vh_wheel.specs.Views.{flag_at, IsFirstFlag};

use std::sync::ledger::Ledger;
use vh_base::Steps;

// Which buckets have nodes: a bit for each, 64 to a word.
#[derive(Drop)]
pub struct Occupied {
    words: [u64; 33],
}

impl Occupied {
    // None has.
    pub fn new() -> Occupied
        ensures { (b : ℕ) → flag_at result b ≡ 0 }
    {
        Occupied { words: [0; 33] }
    }

    // Says of a bucket that it has nodes.
    pub fn set(&mut self, bucket: u32)
        requires { bucket < 2049 }
        ensures there { flag_at self.new bucket ≡ 1 }
        ensures others { (b : ℕ) → b ≢ bucket → flag_at self.new b ≡ flag_at self.old b }
    {
        let position = (bucket / 64) as usize;
        self.words[position] = with_bit(self.words[position], bucket % 64);
    }

    // Says of a bucket that it has no nodes.
    pub fn clear(&mut self, bucket: u32)
        requires { bucket < 2049 }
        ensures there { flag_at self.new bucket ≡ 0 }
        ensures others { (b : ℕ) → b ≢ bucket → flag_at self.new b ≡ flag_at self.old b }
    {
        let position = (bucket / 64) as usize;
        self.words[position] = without_bit(self.words[position], bucket % 64);
    }

    // The first bucket of the levels that has nodes, by a look at 32 words at most.
    pub fn first<L: Ledger>(&self, steps: &mut Steps<L>) -> Option<u32>
        ensures some { IfSome result (λ b. IsFirstFlag self.now b) }
        ensures none { result ≡ None → (b : ℕ) → b < 2048 → flag_at self.now b ≡ 0 }
        ensures steps { steps.new ≤ steps.old + 32 }
    {
        for position in 0..32u32 {
            steps.tick();
            let word = self.words[position as usize];
            if word != 0 {
                return Some(64 * position + word.trailing_zeros());
            }
        }
        None
    }
}

// A word with a bit set.
fn with_bit(word: u64, bit: u32) -> u64
    requires { bit < 64 }
    ensures there { bit_at result bit ≡ 1 }
    ensures others { (i : ℕ) → i ≢ bit → bit_at result i ≡ bit_at word i }
{
    word | (1 << bit)
}

// A word with a bit clear.
fn without_bit(word: u64, bit: u32) -> u64
    requires { bit < 64 }
    ensures there { bit_at result bit ≡ 0 }
    ensures others { (i : ℕ) → i < 64 → i ≢ bit → bit_at result i ≡ bit_at word i }
{
    word & !(1 << bit)
}

ghost use Rattle.std.specs.Prelude.{◌≡◌, ◌≤◌, ◌+◌, length, IfSome};
ghost use Rattle.std.specs.Option.{option_map};
ghost use Rattle.vh_lex.specs.Directives;
ghost use Rattle.vh_lex.specs.Views.{found_seen};

use crate::bytes::{Class, after, begins, run_len, upto};
use crate::gap::gap_len;

// A value that stands in a directive, and how many bytes it has with the white space and comments
// before it.
#[derive(Clone, Copy)]
pub(crate) struct Found {
    pub(crate) value: u8,
    pub(crate) len: usize,
}

// An amount and a unit, as a power of ten of 1 fs (IEEE 1364-2005, 19.8).
pub(crate) fn time_behind(bytes: &[u8]) -> Option<Found>
    ensures value { option_map found_seen result ≡ Directives.time_behind bytes.now }
    ensures inside { IfSome result (λ found. found.len ≤ length bytes.now) }
    ensures small { IfSome result (λ found. found.value ≤ 17) }
{
    let Some(amount) = amount_behind(bytes) else {
        return None;
    };
    let Some(unit) = unit_behind(after(amount.len, bytes)) else {
        return None;
    };
    Some(Found {
        value: amount.value + unit.value,
        len: amount.len + unit.len,
    })
}

// The slash between two times, and the time behind it.
pub(crate) fn slash_behind(bytes: &[u8]) -> Option<Found>
    ensures value { option_map found_seen result ≡ Directives.slash_behind bytes.now }
    ensures inside { IfSome result (λ found. found.len ≤ length bytes.now) }
    ensures small { IfSome result (λ found. found.value ≤ 17) }
{
    let gap = gap_len(bytes);
    if !begins(b'/', after(gap, bytes)) {
        return None;
    }
    let Some(found) = time_behind(after(gap + 1, bytes)) else {
        return None;
    };
    Some(Found {
        value: found.value,
        len: gap + 1 + found.len,
    })
}

fn amount_behind(bytes: &[u8]) -> Option<Found>
    ensures value { option_map found_seen result ≡ Directives.amount_behind bytes.now }
    ensures inside { IfSome result (λ found. found.len ≤ length bytes.now) }
    ensures small { IfSome result (λ found. found.value ≤ 2) }
{
    let gap = gap_len(bytes);
    let behind = after(gap, bytes);
    let len = run_len(Class::Digit, behind);
    let value = amount_of(upto(len, behind))?;
    let len = gap + len;
    Some(Found { value, len })
}

fn unit_behind(bytes: &[u8]) -> Option<Found>
    ensures value { option_map found_seen result ≡ Directives.unit_behind bytes.now }
    ensures inside { IfSome result (λ found. found.len ≤ length bytes.now) }
    ensures small { IfSome result (λ found. found.value ≤ 15) }
{
    let gap = gap_len(bytes);
    let behind = after(gap, bytes);
    let len = run_len(Class::Name, behind);
    let value = unit_of(upto(len, behind))?;
    let len = gap + len;
    Some(Found { value, len })
}

// 1, 10 or 100, as a power of ten.
fn amount_of(word: &[u8]) -> Option<u8>
    ensures value { result ≡ Directives.amount_of word.now }
    ensures small { IfSome result (λ value. value ≤ 2) }
{
    if b"1".as_slice() == word {
        Some(0)
    } else if b"10".as_slice() == word {
        Some(1)
    } else if b"100".as_slice() == word {
        Some(2)
    } else {
        None
    }
}

// A unit, as a power of ten of 1 fs.
fn unit_of(word: &[u8]) -> Option<u8>
    ensures value { result ≡ Directives.unit_of word.now }
    ensures small { IfSome result (λ value. value ≤ 15) }
{
    if b"s".as_slice() == word {
        Some(15)
    } else if b"ms".as_slice() == word {
        Some(12)
    } else if b"us".as_slice() == word {
        Some(9)
    } else if b"ns".as_slice() == word {
        Some(6)
    } else if b"ps".as_slice() == word {
        Some(3)
    } else if b"fs".as_slice() == word {
        Some(0)
    } else {
        None
    }
}

ghost use Rattle.std.specs.Prelude.{◌≡◌, ◌<◌, ◌≤◌, ◌+◌, ◌^◌, MatchOption};
ghost use Rattle.std.specs.Fmt.{decimal};
ghost use Rattle.vh_objects_names.specs.Addresses.{is_canonical, IsNoNumber, IsNoWord};
ghost use Rattle.vh_objects.specs.Properties.{at_address};
ghost use Rattle.vh_objects_names.specs.Paths.{word_named};

// Do digits begin with neither a sign nor a zero in front of others?
fn is_canonical(digits: &[u8]) -> bool
    ensures { result ≡ is_canonical digits.now }
{
    match digits.split_first() {
        None => false,
        Some((first, rest)) => *first != b'+' && (*first != b'0' || rest.is_empty()),
    }
}

// The number that canonical decimal digits write.
fn number_of(digits: &[u8]) -> Option<u64>
    ensures { MatchOption result (IsNoNumber digits.now) (λ a. (a < 2 ^ 64) ×
        (digits.now ≡ decimal a)) }
{
    if !is_canonical(digits) {
        return None;
    }
    let Ok(text) = std::str::from_utf8(digits) else {
        return None;
    };
    match text.parse::<u64>() {
        Ok(number) => Some(number),
        Err(_) => None,
    }
}

// The address in brackets behind a name.
fn address_behind(name: &[u8], text: &[u8]) -> Option<u64>
    ensures { MatchOption result (IsNoWord name.now text.now) (λ a. (a < 2 ^ 64)
        × (text.now ≡ at_address name.now a)) }
{
    let Some(behind) = text.strip_prefix(name) else {
        return None;
    };
    let Some(open) = behind.strip_prefix(b"[") else {
        return None;
    };
    let Some(digits) = open.strip_suffix(b"]") else {
        return None;
    };
    number_of(digits)
}

// The address of the word of that name, if the memory has one.
pub(crate) fn word_named(text: &[u8], name: &[u8], lowest: u32, words: u32) -> Option<u32>
    requires { lowest + words ≤ 2 ^ 32 }
    ensures { result ≡ word_named text.now name.now lowest words }
{
    let Some(address) = address_behind(name, text) else {
        return None;
    };
    if address < u64::from(lowest) {
        return None;
    }
    if address - u64::from(lowest) >= u64::from(words) {
        return None;
    }
    Some(address as u32)
}

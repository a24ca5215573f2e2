ghost use Rattle.std.specs.Prelude.{◌≡◌, ◌<◌, ◌≤◌, ◌+◌, length, IfSome};
ghost use Rattle.std.specs.List.{prefix_len};
ghost use Rattle.vh_lex.specs.Bytes.{is_graphic};
ghost use Rattle.std.specs.Option.{option_map};
ghost use Rattle.vh_lex.specs.Beginning;
ghost use Rattle.vh_lex.specs.Views.{named_seen};

use crate::bytes::{Class, begins, run_len};
use vh_base::is_name_start;

// The greatest number of bytes of a name.
pub(crate) const NAME_LIMIT: usize = 1024;

// A name, and how many bytes its spelling has.
#[derive(Clone, Copy)]
pub(crate) struct Named<'a> {
    pub(crate) name: &'a [u8],
    pub(crate) len: usize,
}

// The name with which the bytes begin: a simple one, or an escaped one without its backslash
// (IEEE 1364-2005, 3.7 and 3.7.1).
pub(crate) fn name_of(bytes: &[u8]) -> Option<Named<'_>>
    ensures value { option_map named_seen result ≡ Beginning.name_of bytes.now }
    ensures inside { IfSome result (λ named. named.len ≤ length bytes.now) }
{
    let Some((first, after)) = bytes.split_first() else {
        return None;
    };
    if is_name_start(*first) {
        return Some(simple_name(bytes));
    }
    if *first == b'\\' {
        return escaped_name(after);
    }
    None
}

// The name without a backslash with which the bytes begin, which alone can be a directive's word.
pub(crate) fn word_name(bytes: &[u8]) -> Option<Named<'_>>
    ensures value { option_map named_seen result ≡ Beginning.word_name bytes.now }
    ensures inside { IfSome result (λ named. named.len ≤ length bytes.now) }
{
    let Some((first, _)) = bytes.split_first() else {
        return None;
    };
    if is_name_start(*first) {
        return Some(simple_name(bytes));
    }
    None
}

// The bytes with which a name can go on.
fn simple_name(bytes: &[u8]) -> Named<'_>
    ensures value { named_seen result ≡ Beginning.simple_name bytes.now }
    ensures inside { result.len ≤ length bytes.now }
{
    let len = run_len(Class::Name, bytes);
    Named {
        name: &bytes[..len],
        len,
    }
}

// The escaped name whose bytes behind the backslash these are.
fn escaped_name(bytes: &[u8]) -> Option<Named<'_>>
    requires { length bytes.now < usize.MAX }
    ensures value { option_map named_seen result ≡ Beginning.escaped_name
        (prefix_len is_graphic bytes.now) bytes.now }
    ensures inside { IfSome result (λ named. named.len ≤ length bytes.now + 1) }
{
    let len = run_len(Class::Graphic, bytes);
    if len == 0 {
        return None;
    }
    Some(Named {
        name: &bytes[..len],
        len: len + 1,
    })
}

// Whether a name is longer than names may be.
pub(crate) fn is_long(name: &[u8]) -> bool
    ensures { result ≡ Beginning.is_long name.now }
{
    name.len() > NAME_LIMIT
}

ghost use Rattle.std.specs.Prelude.{◌≡◌, ◌≤◌, length};
ghost use Rattle.vh_lex.specs.Directives;

use crate::beginning::comment_len;
use crate::bytes::after;
use vh_base::is_space;

// How many bytes of white space and comments stand at the front. It takes time in their number.
pub(crate) fn gap_len(bytes: &[u8]) -> usize
    ensures value { result ≡ Directives.gap_len bytes.now }
    ensures inside { result ≤ length bytes.now }
{
    let mut rest = bytes;
    while let Some((_, behind)) = rest.split_first() {
        let Some(skip) = blank_at(rest) else {
            return bytes.len() - rest.len();
        };
        rest = after(skip, behind);
    }
    bytes.len()
}

// How many bytes behind the first the blank or the comment has with which the bytes begin.
fn blank_at(bytes: &[u8]) -> Option<usize>
    ensures { result ≡ Directives.blank_at bytes.now }
{
    let Some((first, _)) = bytes.split_first() else {
        return None;
    };
    if let Some(len) = comment_len(bytes) {
        return Some(len.saturating_sub(1));
    }
    if is_space(*first) { Some(0) } else { None }
}

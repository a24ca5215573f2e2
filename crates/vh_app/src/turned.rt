ghost use Rattle.std.specs.Prelude.{◌≡◌, ◌≤◌, ◌∷◌, [], length, IfOk};
ghost use Rattle.std.specs.Fmt.{decimal};
ghost use Rattle.vh_app.specs.Values as spec;
ghost use Rattle.vh_base.specs.Words.{code_name};

use itoa::Buffer;
use std::alloc::Global;
use vh_base::{Answer, Code, HandleNo, NoMemory, Short};

// The handle that an answer is where a handle is needed.
pub(crate) fn handle_in(answer: &Answer) -> Option<HandleNo>
    ensures { result ≡ spec.handle_in answer.now }
{
    match answer {
        Answer::Handle(handle) => Some(*handle),
        Answer::Done | Answer::Null | Answer::Number(_) | Answer::Text(_) | Answer::Refused(_) =>
            None,
    }
}

// The number that it is where a number is needed.
pub(crate) fn number_in(answer: &Answer) -> u64
    ensures { result ≡ spec.number_in answer.now }
{
    match answer {
        Answer::Number(number) => *number,
        Answer::Done | Answer::Null | Answer::Handle(_) | Answer::Text(_) | Answer::Refused(_) => 0,
    }
}

// The text that it is where a text is needed.
pub(crate) fn text_in(alloc: Global, answer: &Answer) -> Result<Short, NoMemory>
    ensures { IfOk result (λ text. text ≡ spec.text_in answer.now) }
{
    match answer {
        Answer::Done | Answer::Null => empty(alloc),
        Answer::Handle(handle) => handle_text(alloc, *handle),
        Answer::Number(number) => number_text(alloc, *number),
        Answer::Text(text) => text.copy(),
        Answer::Refused(code) => code_text(alloc, *code),
    }
}

// The empty text.
pub(crate) fn empty(alloc: Global) -> Result<Short, NoMemory>
    ensures { IfOk result (λ text. text ≡ []) }
{
    short(alloc, b"")
}

// The digits of a number.
pub(crate) fn number_text(alloc: Global, number: u64) -> Result<Short, NoMemory>
    ensures { IfOk result (λ text. text ≡ decimal number) }
{
    let mut buffer = Buffer::new();
    short(alloc, buffer.format(number).as_bytes())
}

// `hN`.
pub(crate) fn handle_text(alloc: Global, handle: HandleNo) -> Result<Short, NoMemory>
    ensures { IfOk result (λ text. text ≡ 104 ∷ decimal handle) }
{
    let mut buffer = Buffer::new();
    let digits = buffer.format(handle.number()).as_bytes();
    let end = 1 + digits.len();
    let mut bytes = [b'h'; 41];
    bytes[1..end].copy_from_slice(digits);
    short(alloc, &bytes[..end])
}

// The name of an error.
fn code_text(alloc: Global, code: Code) -> Result<Short, NoMemory>
    ensures { IfOk result (λ text. text ≡ code_name code) }
{
    short(alloc, code.name().as_bytes())
}

// A short text of few bytes.
fn short(alloc: Global, bytes: &[u8]) -> Result<Short, NoMemory>
    requires { length bytes.now ≤ 255 }
    ensures { IfOk result (λ text. text ≡ bytes.now) }
{
    match Short::new(alloc, bytes)? {
        Some(text) => Ok(text),
        None => unreachable!(),
    }
}

ghost use Rattle.std.specs.Prelude.{◌≡◌, IfOk};
ghost use Rattle.vh_app.specs.Next.{handle_at, number_at, text_at};
ghost use Rattle.vh_app.specs.Values as spec;
ghost use Rattle.vh_app.specs.Values.{handle_or_null, number_or_null, text_or_null, value_of};

use crate::form::{Atom, Test};
use crate::turned::{empty, handle_in, handle_text, number_in, number_text, text_in};
use crate::vars::Vars;
use std::alloc::Global;
use vh_base::{Answer, HandleNo, NoMemory, Seen, Short};

// A handle, a text or a number that may be missing.
fn handle_or_null(handle: Option<HandleNo>) -> Answer
    ensures { result ≡ handle_or_null handle }
{
    match handle {
        Some(handle) => Answer::Handle(handle),
        None => Answer::Null,
    }
}

fn text_or_null(text: &Option<Short>) -> Result<Answer, NoMemory>
    ensures { IfOk result (λ answer. answer ≡ text_or_null text.now) }
{
    match text {
        Some(text) => Ok(Answer::Text(text.copy()?)),
        None => Ok(Answer::Null),
    }
}

fn number_or_null(number: Option<u64>) -> Answer
    ensures { result ≡ number_or_null number }
{
    match number {
        Some(number) => Answer::Number(number),
        None => Answer::Null,
    }
}

// What an atom stands for.
fn value_of(vars: &Vars, seen: &Seen, atom: &Atom) -> Result<Answer, NoMemory>
    ensures { IfOk result (λ answer. answer ≡ value_of vars.now seen.now atom.now) }
{
    Ok(match atom {
        Atom::Number(number) => Answer::Number(*number),
        Atom::Text(text) => Answer::Text(text.copy()?),
        Atom::Null => Answer::Null,
        Atom::Variable(number) => vars.value(*number)?,
        Atom::Obj => handle_or_null(seen.object),
        Atom::Me => handle_or_null(seen.me),
        Atom::Value => text_or_null(&seen.value)?,
        Atom::Index => number_or_null(seen.index),
        Atom::Data => Answer::Number(seen.user_data),
        Atom::Time => Answer::Number(seen.time),
        Atom::Last => seen.last.copy()?,
    })
}

// The handle that it is where a handle is needed.
pub(crate) fn handle_at(vars: &Vars, seen: &Seen, atom: &Atom) -> Option<HandleNo>
    ensures { result ≡ handle_at vars.now seen.now atom.now }
{
    match atom {
        Atom::Variable(number) => vars.handle(*number),
        Atom::Obj => seen.object,
        Atom::Me => seen.me,
        Atom::Last => handle_in(&seen.last),
        Atom::Number(_)
        | Atom::Text(_)
        | Atom::Null
        | Atom::Value
        | Atom::Index
        | Atom::Data
        | Atom::Time => None,
    }
}

// The number that it is where a number is needed.
pub(crate) fn number_at(vars: &Vars, seen: &Seen, atom: &Atom) -> u64
    ensures { result ≡ number_at vars.now seen.now atom.now }
{
    match atom {
        Atom::Number(number) => *number,
        Atom::Variable(number) => vars.number(*number),
        Atom::Index => seen.index.unwrap_or(0),
        Atom::Data => seen.user_data,
        Atom::Time => seen.time,
        Atom::Last => number_in(&seen.last),
        Atom::Text(_) | Atom::Null | Atom::Obj | Atom::Me | Atom::Value => 0,
    }
}

// The text that it is where a text is needed.
pub(crate) fn text_at(
    alloc: Global,
    vars: &Vars,
    seen: &Seen,
    atom: &Atom,
) -> Result<Short, NoMemory>
    ensures { IfOk result (λ text. text ≡ text_at vars.now seen.now atom.now) }
{
    match atom {
        Atom::Number(number) => number_text(alloc, *number),
        Atom::Text(text) => text.copy(),
        Atom::Null => empty(alloc),
        Atom::Variable(number) => vars.text(alloc, *number),
        Atom::Obj => text_of_handle(alloc, seen.object),
        Atom::Me => text_of_handle(alloc, seen.me),
        Atom::Value => text_or_empty(alloc, &seen.value),
        Atom::Index => text_of_number(alloc, seen.index),
        Atom::Data => number_text(alloc, seen.user_data),
        Atom::Time => number_text(alloc, seen.time),
        Atom::Last => text_in(alloc, &seen.last),
    }
}

// The texts of a handle, a text and a number that may be missing.
fn text_of_handle(alloc: Global, handle: Option<HandleNo>) -> Result<Short, NoMemory>
    ensures { IfOk result (λ text. text ≡ spec.text_in (handle_or_null handle)) }
{
    match handle {
        Some(handle) => handle_text(alloc, handle),
        None => empty(alloc),
    }
}

fn text_or_empty(alloc: Global, text: &Option<Short>) -> Result<Short, NoMemory>
    ensures { IfOk result (λ t. t ≡ spec.text_in (text_or_null text.now)) }
{
    match text {
        Some(text) => text.copy(),
        None => empty(alloc),
    }
}

fn text_of_number(alloc: Global, number: Option<u64>) -> Result<Short, NoMemory>
    ensures { IfOk result (λ text. text ≡ spec.text_in (number_or_null number)) }
{
    match number {
        Some(number) => number_text(alloc, number),
        None => empty(alloc),
    }
}

// Whether two values are of one kind, with the same content.
fn is_same(a: &Answer, b: &Answer) -> bool
    ensures { result ≡ spec.is_same a.now b.now }
{
    match a {
        Answer::Done => matches!(b, Answer::Done),
        Answer::Null => matches!(b, Answer::Null),
        Answer::Handle(own) => match b {
            Answer::Handle(other) => own.number() == other.number(),
            _ => false,
        },
        Answer::Number(own) => match b {
            Answer::Number(other) => *own == *other,
            _ => false,
        },
        Answer::Text(own) => match b {
            Answer::Text(other) => own.bytes() == other.bytes(),
            _ => false,
        },
        Answer::Refused(own) => match b {
            Answer::Refused(other) => own.name().as_bytes() == other.name().as_bytes(),
            _ => false,
        },
    }
}

// Whether a test holds.
pub(crate) fn holds(vars: &Vars, seen: &Seen, test: &Test) -> Result<bool, NoMemory>
    ensures { IfOk result (λ so. so ≡ spec.holds vars.now seen.now test.now) }
{
    let left = value_of(vars, seen, &test.left)?;
    let right = value_of(vars, seen, &test.right)?;
    Ok(if is_same(&left, &right) {
        test.same
    } else {
        !test.same
    })
}

// What a variable is set to.
pub(crate) fn set_to(
    vars: &Vars,
    seen: &Seen,
    value: &Atom,
    added: &Option<Atom>,
) -> Result<Answer, NoMemory>
    ensures { IfOk result (λ answer. answer ≡ spec.set_to vars.now seen.now value.now added.now) }
{
    match added {
        None => value_of(vars, seen, value),
        Some(added) => {
            let first = number_at(vars, seen, value);
            let second = number_at(vars, seen, added);
            Ok(Answer::Number(first.wrapping_add(second)))
        }
    }
}

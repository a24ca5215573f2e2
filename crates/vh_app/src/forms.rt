ghost use Rattle.std.specs.Prelude.{◌≡◌, IfOk, false, option_map, nat_eq, ◌&&◌, not};
ghost use Rattle.vh_app.specs.Layout as spec;
ghost use Rattle.vh_app.specs.Layout.{atom_laid, body_laid, form_laid, test_laid};
ghost use Rattle.vh_app_script.specs.Spelling.{unescaped};
ghost use Rattle.vh_app_script.specs.Views.{atom_seen, body_seen, name_seen, order_seen, test_seen};

use crate::form::{Atom, Body, Form, Test};
use std::alloc::Global;
use vh_app_script as tree;
use vh_base::{NoMemory, Short};

// How long a text is at most.
const TEXT_LIMIT: usize = 255;

// A name of few bytes; no script that was read has another.
pub(crate) fn name(alloc: Global, bytes: &[u8]) -> Result<Short, NoMemory>
    ensures { IfOk result (λ n. n ≡ bytes.now) }
{
    match Short::new(alloc, bytes)? {
        Some(name) => Ok(name),
        None => Err(NoMemory),
    }
}

// A text without the backslashes of its escapes.
fn text(alloc: Global, bytes: &[u8]) -> Result<Short, NoMemory>
    ensures { IfOk result (λ t. t ≡ unescaped false bytes.now) }
{
    let mut buffer = [0; TEXT_LIMIT];
    let mut length = 0;
    let mut escaped = false;
    for byte in bytes {
        if opens_escape(escaped, *byte) {
            escaped = true;
            continue;
        }
        if length == TEXT_LIMIT {
            return Err(NoMemory);
        }
        buffer[length] = *byte;
        length += 1;
        escaped = false;
    }
    name(alloc, &buffer[..length])
}

// The byte is the backslash of an escape.
fn opens_escape(escaped: bool, byte: u8) -> bool
    ensures { result ≡ (not escaped && nat_eq byte 92) }
{
    !escaped && byte == b'\\'
}

// What stands for a value.
pub(crate) fn atom(alloc: Global, atom: tree::Atom<'_>) -> Result<Atom, NoMemory>
    ensures { IfOk result (λ a. a ≡ atom_laid (atom_seen atom.entry)) }
{
    match atom {
        tree::Atom::Number(number) => Ok(Atom::Number(number)),
        tree::Atom::Text(bytes) => Ok(Atom::Text(text(alloc, bytes)?)),
        tree::Atom::Null => Ok(Atom::Null),
        tree::Atom::Variable(number) => Ok(Atom::Variable(number)),
        tree::Atom::Obj => Ok(Atom::Obj),
        tree::Atom::Me => Ok(Atom::Me),
        tree::Atom::Value => Ok(Atom::Value),
        tree::Atom::Index => Ok(Atom::Index),
        tree::Atom::Data => Ok(Atom::Data),
        tree::Atom::Time => Ok(Atom::Time),
        tree::Atom::Last => Ok(Atom::Last),
    }
}

// One that may be missing.
pub(crate) fn atom_if(
    alloc: Global,
    value: Option<tree::Atom<'_>>,
) -> Result<Option<Atom>, NoMemory>
    ensures { IfOk result (λ a. a ≡ option_map atom_laid (option_map atom_seen value.entry)) }
{
    match value {
        Some(value) => Ok(Some(atom(alloc, value)?)),
        None => Ok(None),
    }
}

// What a callback is to call.
fn body(alloc: Global, body: tree::Body<'_>) -> Result<Body, NoMemory>
    ensures { IfOk result (λ b. b ≡ body_laid (body_seen body.entry)) }
{
    match body {
        tree::Body::Proc(bytes) => Ok(Body::Proc(name(alloc, bytes)?)),
        tree::Body::Native(bytes) => Ok(Body::Native(name(alloc, bytes)?)),
    }
}

fn name_if(alloc: Global, bytes: Option<&[u8]>) -> Result<Option<Short>, NoMemory>
    ensures { IfOk result (λ n. n ≡ name_seen bytes.entry) }
{
    match bytes {
        Some(bytes) => Ok(Some(name(alloc, bytes)?)),
        None => Ok(None),
    }
}

// A test.
pub(crate) fn test(alloc: Global, test: tree::Test<'_>) -> Result<Test, NoMemory>
    ensures { IfOk result (λ t. t ≡ test_laid (test_seen test.entry)) }
{
    Ok(Test {
        left: atom(alloc, test.left)?,
        same: test.same,
        right: atom(alloc, test.right)?,
    })
}

// An order.
pub(crate) fn form(alloc: Global, order: &tree::Order<'_>) -> Result<Form, NoMemory>
    ensures { IfOk result (λ f. f ≡ form_laid (order_seen order.now)) }
{
    match *order {
        tree::Order::ByName { text, scope } => Ok(Form::ByName {
            text: atom(alloc, text)?,
            scope: atom(alloc, scope)?,
        }),
        tree::Order::ByIndex { memory, index } => Ok(Form::ByIndex {
            memory: atom(alloc, memory)?,
            index: atom(alloc, index)?,
        }),
        tree::Order::Handle { relation, object } => Ok(Form::Handle {
            relation,
            object: atom(alloc, object)?,
        }),
        tree::Order::Iterate { relation, object } => Ok(Form::Iterate {
            relation,
            object: atom(alloc, object)?,
        }),
        tree::Order::Scan(a) => Ok(Form::Scan(atom(alloc, a)?)),
        tree::Order::Free(a) => Ok(Form::Free(atom(alloc, a)?)),
        tree::Order::Compare(a, b) => Ok(Form::Compare(atom(alloc, a)?, atom(alloc, b)?)),
        tree::Order::Get { property, object } => Ok(Form::Get {
            property,
            object: atom(alloc, object)?,
        }),
        tree::Order::GetStr { property, object } => Ok(Form::GetStr {
            property,
            object: atom(alloc, object)?,
        }),
        tree::Order::GetValue { object, format } => Ok(Form::GetValue {
            object: atom(alloc, object)?,
            format,
        }),
        tree::Order::PutValue {
            object,
            format,
            text,
            mode,
            time,
            event,
        } => Ok(Form::PutValue {
            object: atom(alloc, object)?,
            format,
            text: atom(alloc, text)?,
            mode,
            time: atom(alloc, time)?,
            event,
        }),
        tree::Order::Cancel(a) => Ok(Form::Cancel(atom(alloc, a)?)),
        tree::Order::GetTime => Ok(Form::GetTime),
        tree::Order::Register {
            reason,
            object,
            time,
            body: what,
            data,
        } => Ok(Form::Register {
            reason,
            object: atom(alloc, object)?,
            time: atom(alloc, time)?,
            body: body(alloc, what)?,
            data: atom(alloc, data)?,
        }),
        tree::Order::Remove(a) => Ok(Form::Remove(atom(alloc, a)?)),
        tree::Order::CbInfo(a) => Ok(Form::CbInfo(atom(alloc, a)?)),
        tree::Order::RegisterSystf {
            kind,
            name: registered,
            size,
            calltf,
            compiletf,
        } => Ok(Form::RegisterSystf {
            kind,
            name: atom(alloc, registered)?,
            size: atom(alloc, size)?,
            calltf: name(alloc, calltf)?,
            compiletf: name_if(alloc, compiletf)?,
        }),
        tree::Order::ChkError => Ok(Form::ChkError),
        tree::Order::Control { stop } => Ok(Form::Control { stop }),
        tree::Order::Print(a) => Ok(Form::Print(atom(alloc, a)?)),
        tree::Order::SetData(a) => Ok(Form::SetData(atom(alloc, a)?)),
    }
}

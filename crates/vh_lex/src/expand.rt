ghost use Rattle.std.specs.Prelude.{◌≡◌, ◌≤◌, length, IfOk};
ghost use Rattle.vh_lex.specs.Outcomes.{Makes};
ghost use Rattle.vh_lex.specs.Spelling.{expanded, most_levels};
ghost use Rattle.vh_lex.specs.Uses.{around_seen, Pauses, frames_seen, UsesText};

use crate::directive::is_directive;
use crate::fault::Halt;
use crate::macros::Macros;
use crate::made::Output;
use crate::piece::Part;
use crate::setting::Setting;
use crate::token::Kind;
use std::alloc::Global;
use vh_base::{Boxed, DesignFault, NoMemory, Place};

// The greatest number of uses of macros that are open at one time.
const LEVEL_LIMIT: usize = 64;

// Where a macro is used: the macros, what the directives set, and the place of its tokens.
#[derive(Clone, Copy)]
pub(crate) struct Around<'a> {
    pub(crate) macros: &'a Macros,
    pub(crate) setting: Setting,
    pub(crate) place: Place,
}

// Reads the text of a macro where it is used in a file, and the texts of the macros in it. It
// takes time in the number of tokens and uses that they give.
pub(crate) fn expand<'a>(
    alloc: Global,
    around: &Around<'a>,
    text: &'a [Part],
    made: &mut Output,
) -> Result<(), Halt>
    ensures { Makes (expanded most_levels (around_seen around.now) text.now made.old) result
        made.new }
{
    let mut frames: Vec<&'a [Part]> = Vec::new(alloc);
    let mut next = text;
    loop {
        if frames.len() >= LEVEL_LIMIT {
            return Err(Halt::Fault(DesignFault::L3));
        }
        if let Err(halt) = made.count_use() {
            return Err(halt);
        }
        frames.push(next)?;
        match read_on(alloc, around, &mut frames, made) {
            Ok(Some(used)) => next = used,
            Ok(None) => return Ok(()),
            Err(halt) => return Err(halt),
        }
    }
}

// Reads the texts that are open, the innermost last, to their end or to the next use of a macro,
// whose text it answers.
fn read_on<'a>(
    alloc: Global,
    around: &Around<'a>,
    frames: &mut Vec<&'a [Part]>,
    made: &mut Output,
) -> Result<Option<&'a [Part]>, Halt>
    requires { length frames.old.items ≤ 64 }
    ensures paused { Pauses (around_seen around.now) (frames_seen frames.old.items) made.old result
        (frames_seen frames.new.items) made.new }
    ensures within { length frames.new.items ≤ length frames.old.items }
    ensures uses { made.new.uses ≡ made.old.uses }
{
    while let Some(rest) = frames.pop() {
        let Some((part, behind)) = rest.split_first() else {
            continue;
        };
        frames.push(behind)?;
        match part {
            Part::Token(kind) => made.push(copied_kind(alloc, kind)?, around.place)?,
            Part::Module => made.push(Kind::Module(around.setting), around.place)?,
            Part::Use(name) => return Ok(Some(used(around, name.as_slice())?)),
            Part::Wrong(fault) => return Err(Halt::Fault(*fault)),
        }
    }
    Ok(None)
}

// The text of a macro that is used in a macro's text.
fn used<'a>(around: &Around<'a>, name: &[u8]) -> Result<&'a [Part], Halt>
    ensures { UsesText around.now.macros.now name.now result }
{
    if is_directive(name) {
        return Err(Halt::Fault(DesignFault::L3));
    }
    match around.macros.text(name) {
        Some(text) => Ok(text),
        None => Err(Halt::Fault(DesignFault::L3)),
    }
}

// The same kind once more, which shares its name or text.
#[inline(always)]
fn copied_kind(alloc: Global, kind: &Kind) -> Result<Kind, NoMemory>
    ensures { IfOk result (λ copy. copy ≡ kind.now) }
{
    match kind {
        Kind::Module(setting) => Ok(Kind::Module(*setting)),
        Kind::Word(keyword) => Ok(Kind::Word(*keyword)),
        Kind::Symbol(symbol) => Ok(Kind::Symbol(*symbol)),
        Kind::Name(name) => Ok(Kind::Name(name.share()?)),
        Kind::SysName(name) => Ok(Kind::SysName(name.share()?)),
        Kind::Text(text) => Ok(Kind::Text(text.share()?)),
        Kind::Number(number) => Ok(Kind::Number(Boxed::new(alloc, *number.get())?)),
    }
}

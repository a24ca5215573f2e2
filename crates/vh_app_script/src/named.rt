//! Words that each name a value.

ghost use Rattle.std.specs.Prelude.{◌≡◌, ℕ, List};
ghost use Rattle.vh_base.specs.Words.{reason_text};
ghost use Rattle.vh_app_lines.specs.OrderText as texts;
ghost use Rattle.vh_app_lines.specs.Routines.{routine_text};
ghost use Rattle.vh_app_script.specs.Words as words;

use crate::built;
use vh_app_lines::{Routine, format_name, mode_name, property_name, relation_name};
use vh_base::{Format, Mode, Property, Reason, Relation, SystfKind};

/// A value that a word names.
pub trait Worded: Copy {
    /// The word.
    ghost word: { Self → List ℕ };

    /// The word.
    fn word(self) -> &'static str
        ensures { result.now ≡ word self };
}

/// The first of these whose word this is. It takes time in their number.
pub fn named<T: Worded>(all: &[T], word: &[u8]) -> Option<T>
    ensures { result ≡ words.named T.word all.now word.now }
{
    for one in all {
        if word == one.word().as_bytes() {
            return Some(*one);
        }
    }
    None
}

impl Worded for Reason {
    ghost word = { reason_text };

    fn word(self) -> &'static str {
        self.name()
    }
}

impl Worded for Routine {
    ghost word = { routine_text };

    fn word(self) -> &'static str {
        self.name()
    }
}

impl Worded for Relation {
    ghost word = { texts.relation_text };

    fn word(self) -> &'static str {
        relation_name(self)
    }
}

impl Worded for Property {
    ghost word = { texts.property_text };

    fn word(self) -> &'static str {
        property_name(self)
    }
}

impl Worded for Format {
    ghost word = { texts.format_text };

    fn word(self) -> &'static str {
        format_name(self)
    }
}

impl Worded for Mode {
    ghost word = { texts.mode_text };

    fn word(self) -> &'static str {
        mode_name(self)
    }
}

/// All relations.
pub static RELATIONS: [Relation; 16] = [
    Relation::VpiModule,
    Relation::VpiScope,
    Relation::VpiParent,
    Relation::VpiSysTfCall,
    Relation::VpiInternalScope,
    Relation::VpiNet,
    Relation::VpiPort,
    Relation::VpiContAssign,
    Relation::VpiProcess,
    Relation::VpiReg,
    Relation::VpiVariables,
    Relation::VpiMemory,
    Relation::VpiParameter,
    Relation::VpiNamedEvent,
    Relation::VpiMemoryWord,
    Relation::VpiArgument,
];

/// All properties.
pub static PROPERTIES: [Property; 11] = [
    Property::VpiType,
    Property::VpiSize,
    Property::VpiSigned,
    Property::VpiTopModule,
    Property::VpiDirection,
    Property::VpiNetType,
    Property::VpiPortIndex,
    Property::VpiLineNo,
    Property::VpiName,
    Property::VpiFullName,
    Property::VpiDefName,
];

/// All formats.
pub static FORMATS: [Format; 7] = [
    Format::VpiBinStrVal,
    Format::VpiOctStrVal,
    Format::VpiHexStrVal,
    Format::VpiDecStrVal,
    Format::VpiIntVal,
    Format::VpiScalarVal,
    Format::VpiVectorVal,
];

/// All modes.
pub static MODES: [Mode; 6] = [
    Mode::VpiNoDelay,
    Mode::VpiInertialDelay,
    Mode::VpiTransportDelay,
    Mode::VpiPureTransportDelay,
    Mode::VpiForceFlag,
    Mode::VpiReleaseFlag,
];

/// The routine whose word this is, if it is built.
pub fn routine_of(word: &[u8]) -> Option<Routine>
    ensures { result ≡ words.routine_of word.now }
{
    named(built::routines(), word)
}

/// `task` or `func`.
pub fn kind_of(word: &[u8]) -> Option<SystfKind>
    ensures { result ≡ words.named texts.kind_text words.kinds word.now }
{
    if word == b"task".as_slice() {
        Some(SystfKind::Task)
    } else if word == b"func".as_slice() {
        Some(SystfKind::Func)
    } else {
        None
    }
}

/// Whether it is `stop`, and not `finish`.
pub fn control_of(word: &[u8]) -> Option<bool>
    ensures { result ≡ words.control_of word.now }
{
    if word == b"finish".as_slice() {
        Some(false)
    } else if word == b"stop".as_slice() {
        Some(true)
    } else {
        None
    }
}

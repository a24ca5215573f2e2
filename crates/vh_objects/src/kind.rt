ghost use Rattle.std.specs.Prelude.{◌≡◌};
ghost use Rattle.vh_objects.specs.Kinds.{design_kind_text, kind_text, object_has_value};

use crate::kinds::has_value;
use vh_design::Kind;

/// What an object is: of a kind of the design, or a word of a memory (IEEE 1364-2005, 26.6).
#[derive(Clone, Copy, Debug, PartialEq, Eq)]
pub enum ObjectKind {
    Of(Kind),
    Word,
}

impl ObjectKind {
    /// Its word: the answer of `vpiType`.
    pub fn name(self) -> &'static str
        ensures { result.now ≡ kind_text self }
    {
        match self {
            ObjectKind::Of(kind) => design_kind_text(kind),
            ObjectKind::Word => "vpiMemoryWord",
        }
    }

    /// Whether it has a value.
    pub fn has_value(self) -> bool
        ensures { result ≡ object_has_value self }
    {
        match self {
            ObjectKind::Of(kind) => has_value(kind),
            ObjectKind::Word => true,
        }
    }
}

// The word of a kind of the design.
fn design_kind_text(kind: Kind) -> &'static str
    ensures { result.now ≡ design_kind_text kind }
{
    match kind {
        Kind::Module => "vpiModule",
        Kind::GenScope => "vpiGenScope",
        Kind::NamedBegin => "vpiNamedBegin",
        Kind::NamedFork => "vpiNamedFork",
        Kind::Task => "vpiTask",
        Kind::Function => "vpiFunction",
        Kind::Net => "vpiNet",
        Kind::Reg => "vpiReg",
        Kind::IntegerVar => "vpiIntegerVar",
        Kind::TimeVar => "vpiTimeVar",
        Kind::Memory => "vpiMemory",
        Kind::Parameter => "vpiParameter",
        Kind::Port => "vpiPort",
        Kind::NamedEvent => "vpiNamedEvent",
        Kind::Initial => "vpiInitial",
        Kind::Always => "vpiAlways",
        Kind::ContAssign => "vpiContAssign",
        Kind::SysTaskCall => "vpiSysTaskCall",
        Kind::SysFuncCall => "vpiSysFuncCall",
        Kind::Constant => "vpiConstant",
        Kind::Operation => "vpiOperation",
    }
}

ghost use Rattle.std.specs.Prelude.{◌≡◌};
ghost use Rattle.vh_app_lines.specs.Routines.{routine_text};

/// An order without its arguments, by the word with which scripts give it and lines show it
/// (IEEE 1364-2005, clause 27, in this project's spelling).
#[derive(Clone, Copy)]
pub enum Routine {
    ByName,
    ByIndex,
    Handle,
    Iterate,
    Scan,
    Free,
    Compare,
    Get,
    GetStr,
    GetValue,
    PutValue,
    Cancel,
    GetTime,
    Register,
    Remove,
    CbInfo,
    RegisterSystf,
    ChkError,
    Control,
    Print,
    SetData,
    Pass,
    Return,
}

impl Routine {
    /// The word.
    pub fn name(self) -> &'static str
        ensures { result.now ≡ routine_text self }
    {
        match self {
            Routine::ByName => "by_name",
            Routine::ByIndex => "by_index",
            Routine::Handle => "handle",
            Routine::Iterate => "iterate",
            Routine::Scan => "scan",
            Routine::Free => "free",
            Routine::Compare => "compare",
            Routine::Get => "get",
            Routine::GetStr => "get_str",
            Routine::GetValue => "get_value",
            Routine::PutValue => "put_value",
            Routine::Cancel => "cancel",
            Routine::GetTime => "get_time",
            Routine::Register => "register",
            Routine::Remove => "remove",
            Routine::CbInfo => "cb_info",
            Routine::RegisterSystf => "register_systf",
            Routine::ChkError => "chk_error",
            Routine::Control => "control",
            Routine::Print => "print",
            Routine::SetData => "set_data",
            Routine::Pass => "pass",
            Routine::Return => "return",
        }
    }
}

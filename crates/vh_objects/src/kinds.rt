ghost use Rattle.std.specs.Prelude.{◌≡◌};
ghost use Rattle.vh_objects.specs.Kinds.{is_module, has_items, is_port, is_assignment, is_process, is_reg, is_integer_or_time, is_parameter, is_call, has_value, has_path, has_name};

use vh_design::Kind;

// Is it a module?
pub(crate) fn is_module(kind: Kind) -> bool
    ensures { result ≡ is_module kind }
{
    matches!(kind, Kind::Module)
}

// Do items stand in it?
pub(crate) fn has_items(kind: Kind) -> bool
    ensures { result ≡ has_items kind }
{
    matches!(kind, Kind::Module | Kind::GenScope)
}

pub(crate) fn is_port(kind: Kind) -> bool
    ensures { result ≡ is_port kind }
{
    matches!(kind, Kind::Port)
}

pub(crate) fn is_assignment(kind: Kind) -> bool
    ensures { result ≡ is_assignment kind }
{
    matches!(kind, Kind::ContAssign)
}

pub(crate) fn is_process(kind: Kind) -> bool
    ensures { result ≡ is_process kind }
{
    matches!(kind, Kind::Initial | Kind::Always)
}

pub(crate) fn is_reg(kind: Kind) -> bool
    ensures { result ≡ is_reg kind }
{
    matches!(kind, Kind::Reg)
}

pub(crate) fn is_integer_or_time(kind: Kind) -> bool
    ensures { result ≡ is_integer_or_time kind }
{
    matches!(kind, Kind::IntegerVar | Kind::TimeVar)
}

pub(crate) fn is_parameter(kind: Kind) -> bool
    ensures { result ≡ is_parameter kind }
{
    matches!(kind, Kind::Parameter)
}

// Is it a call of a user system task or function?
pub(crate) fn is_call(kind: Kind) -> bool
    ensures { result ≡ is_call kind }
{
    matches!(kind, Kind::SysTaskCall | Kind::SysFuncCall)
}

// Has it a value?
pub(crate) fn has_value(kind: Kind) -> bool
    ensures { result ≡ has_value kind }
{
    kind.is_vector() || matches!(kind, Kind::Constant | Kind::Operation | Kind::SysFuncCall)
}

/// Whether an object of this kind is found by its name or path. A port stands beside the net or
/// variable of its name, which is found.
pub fn has_path(kind: Kind) -> bool
    ensures { result ≡ has_path kind }
{
    kind.is_scope() || kind.is_vector() || kind.is_memory() || kind.is_event()
}

/// Whether it has a name (IEEE 1364-2005, 26.6).
pub fn has_name(kind: Kind) -> bool
    ensures { result ≡ has_name kind }
{
    has_path(kind) || is_port(kind)
}

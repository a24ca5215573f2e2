ghost use Rattle.std.specs.Prelude.{◌≡◌};
ghost use Rattle.vh_objects.specs.Relations.{leads_from, leads_from_null, lists};

use crate::kinds::{
    has_items, is_assignment, is_call, is_integer_or_time, is_module, is_parameter, is_port,
    is_process, is_reg,
};
use vh_base::Relation;
use vh_design::Kind;

// Does the relation lead from the kind to many?
pub(crate) fn leads_from(r: Relation, kind: Kind) -> bool
    ensures { result ≡ leads_from r kind }
{
    match r {
        Relation::VpiScope | Relation::VpiParent | Relation::VpiSysTfCall => false,
        Relation::VpiModule
        | Relation::VpiNet
        | Relation::VpiPort
        | Relation::VpiContAssign
        | Relation::VpiProcess => has_items(kind),
        Relation::VpiInternalScope
        | Relation::VpiReg
        | Relation::VpiVariables
        | Relation::VpiMemory
        | Relation::VpiParameter
        | Relation::VpiNamedEvent => kind.is_scope(),
        Relation::VpiMemoryWord => kind.is_memory(),
        Relation::VpiArgument => is_call(kind),
    }
}

// Does it lead from null to many?
pub(crate) fn leads_from_null(r: Relation) -> bool
    ensures { result ≡ leads_from_null r }
{
    matches!(r, Relation::VpiModule)
}

// Does it list objects of the kind, of those directly inside a scope?
pub(crate) fn lists(r: Relation, kind: Kind) -> bool
    ensures { result ≡ lists r kind }
{
    match r {
        Relation::VpiModule => is_module(kind),
        Relation::VpiInternalScope => kind.is_scope(),
        Relation::VpiNet => kind.is_net(),
        Relation::VpiPort => is_port(kind),
        Relation::VpiContAssign => is_assignment(kind),
        Relation::VpiProcess => is_process(kind),
        Relation::VpiReg => is_reg(kind),
        Relation::VpiVariables => is_integer_or_time(kind),
        Relation::VpiMemory => kind.is_memory(),
        Relation::VpiParameter => is_parameter(kind),
        Relation::VpiNamedEvent => kind.is_event(),
        Relation::VpiScope
        | Relation::VpiParent
        | Relation::VpiSysTfCall
        | Relation::VpiMemoryWord
        | Relation::VpiArgument => false,
    }
}

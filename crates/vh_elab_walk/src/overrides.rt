ghost use Rattle.std.specs.Prelude.{◌≡◌, map, IfOk};
ghost use Rattle.std.specs.Option.{option_copied, option_map};
ghost use Rattle.vh_ast.specs.Views.{conn_tree, expr_tree, module_tree};
ghost use Rattle.vh_bind.specs.Steps.{Gives};
ghost use Rattle.vh_bind.specs.Views.{scope_seen};
ghost use Rattle.vh_elab_walk.specs.Overrides;
ghost use Rattle.vh_elab_walk.specs.Views.{names_seen, overriding_seen, TakesBy};

use crate::entries::{entries_fault, entry_name, written};
use crate::parameters::parameters_of;
use std::alloc::Global;
use vh_ast::{Conn, Expr, Module};
use vh_base::{NoMemory, Place};
use vh_bind::{ElabFault, Scope, constant};
use vh_bind_least::{Fault, least};
use vh_elab_declare::Given;
use vh_logic::Vec4;

// What is given so far, and the least fault so far.
#[derive(Drop)]
pub(crate) struct Overriding<'a> {
    given: Given<'a>,
    fault: Option<Fault>,
}

// The value of what is written; none where nothing is.
fn written_value(alloc: Global, scope: &Scope, e: &Option<Expr>) -> Result<Option<Vec4>, ElabFault>
    ensures { Gives (Overrides.written_value (scope_seen scope.now) (option_map expr_tree e.now))
        result }
{
    match e {
        None => Ok(None),
        Some(e) => constant(alloc, scope, e, 0),
    }
}

fn with_entry<'a>(
    alloc: Global,
    name: Option<&'a [u8]>,
    value: Option<Vec4>,
    given: Given<'a>,
) -> Result<Given<'a>, NoMemory>
    ensures { IfOk result (λ g. g
        ≡ Overrides.with_entry (option_copied name.entry) value given.entry) }
{
    let Some(name) = name else {
        return Ok(given);
    };
    match value {
        None => Ok(given),
        Some(value) => given.with(alloc, name, value),
    }
}

// A value that was asked for is taken.
fn take_value<'a>(
    alloc: Global,
    name: Option<&'a [u8]>,
    value: Result<Option<Vec4>, ElabFault>,
    overriding: Overriding<'a>,
) -> Result<Overriding<'a>, NoMemory>
    ensures { TakesBy (option_copied name.entry) value (overriding_seen overriding.entry) result }
{
    let Overriding { given, fault } = overriding;
    match value {
        Ok(value) => {
            let given = with_entry(alloc, name, value, given)?;
            Ok(Overriding { given, fault })
        }
        Err(ElabFault::Refused(wrong, place)) => {
            let fault = least(fault, Some((wrong, place)));
            Ok(Overriding { given, fault })
        }
        Err(ElabFault::NoMemory) => Err(NoMemory),
    }
}

// An entry.
#[tactic(auto, unfolding(crate::specs::Overrides::entry_taken))]
fn take_entry<'a>(
    alloc: Global,
    scope: &Scope,
    names: &[&'a [u8]],
    place: usize,
    conn: &'a Conn,
    overriding: Overriding<'a>,
) -> Result<Overriding<'a>, NoMemory>
    ensures { IfOk result (λ o. overriding_seen o
        ≡ Overrides.entry_taken (scope_seen scope.now) (names_seen names.now) place
        (conn_tree conn.now) (overriding_seen overriding.entry)) }
{
    let name = entry_name(names, place, conn);
    let value = written_value(alloc, scope, written(conn));
    take_value(alloc, name, value, overriding)
}

fn take_entries<'a>(
    alloc: Global,
    scope: &Scope,
    names: &[&'a [u8]],
    conns: &'a [Conn],
    overriding: Overriding<'a>,
) -> Result<Overriding<'a>, NoMemory>
    ensures { IfOk result (λ o. overriding_seen o
        ≡ Overrides.entries_taken (scope_seen scope.now) (names_seen names.now) 0
        (map conn_tree conns.now) (overriding_seen overriding.entry)) }
{
    let mut overriding = overriding;
    for (place, conn) in conns.iter().enumerate() {
        overriding = take_entry(alloc, scope, names, place, conn, overriding)?;
    }
    Ok(overriding)
}

// What an instance of a module gives to its parameters, worked out where its item stands, or the
// least fault of that; `place` is that of the item's module name.
#[tactic(auto, unfolding(crate::specs::Overrides::overrides))]
pub(crate) fn overrides<'a>(
    alloc: Global,
    scope: &Scope,
    place: Place,
    module: &'a Module,
    conns: &'a [Conn],
) -> Result<Result<Given<'a>, Fault>, NoMemory>
    ensures { IfOk result (λ o. o
        ≡ Overrides.overrides (scope_seen scope.now) place (module_tree module.now)
        (map conn_tree conns.now)) }
{
    let names = parameters_of(alloc, module)?;
    let fault = entries_fault(alloc, place, &names, conns)?;
    let overriding = Overriding {
        given: Given::new(alloc),
        fault,
    };
    let Overriding { given, fault } = take_entries(alloc, scope, &names, conns, overriding)?;
    match fault {
        None => Ok(Ok(given)),
        Some(fault) => Ok(Err(fault)),
    }
}

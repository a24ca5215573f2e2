ghost use Rattle.std.specs.Prelude.{◌≡◌, ◌++◌, ◌∷◌, [], map, IfOk, OnOk};
ghost use Rattle.vh_bind_stmt.specs.declared.surroundings.Argument.{Argument};
ghost use Rattle.vh_elab_sites.specs.Views.{all_seen, declared_seen, site_seen};
ghost use Rattle.vh_elab.specs.Routines as spec;
ghost use Rattle.vh_elab_walk.specs.Views.{placed_seen};
ghost use Rattle.vh_elab.specs.Views.{routines_seen};

use std::alloc::Global;
use vh_base::{NoMemory, ObjId, Sequence};
use vh_bind::{Directions, Routine};
use vh_bind_stmt::{Argument, Arguments};
use vh_elab_declare::is_routine;
use vh_elab_sites::{CodeWord, Declared, Site, Thing};
use vh_elab_walk::Placed;

// What is known of all tasks and functions, by the numbers of their bodies.
#[derive(Drop)]
pub(crate) struct Routines {
    pub(crate) routines: Vec<Routine>,
    pub(crate) arguments: Vec<Arguments>,
}

// The argument that a site is.
fn add_argument(
    number: u32,
    declared: Declared,
    arguments: &mut Vec<Argument>,
) -> Result<(), NoMemory>
    ensures { OnOk result (arguments.new.items
        ≡ arguments.old.items ++ spec.argument_in number (declared_seen declared.entry)) }
{
    match declared {
        Declared::Typed(Thing::Argument(direction), _) => {
            let variable = ObjId::new(number);
            arguments.push(Argument {
                variable,
                direction,
            })?;
        }
        Declared::Typed(_, _)
        | Declared::Words(_, _)
        | Declared::Event
        | Declared::Constant(_, _, _)
        | Declared::Code(_, _)
        | Declared::Block(_)
        | Declared::Drives(_, _, _)
        | Declared::Gate(_, _, _)
        | Declared::Wire
        | Declared::GenBlock(_, _)
        | Declared::Loop(_)
        | Declared::Genvar
        | Declared::Child(_, _, _) => {}
    }
    Ok(())
}

// The arguments of a task or function, behind which these sites stand.
fn arguments_from(alloc: Global, scope: u32, sites: &[Site]) -> Result<Vec<Argument>, NoMemory>
    ensures { IfOk result (λ v. v.items ≡ spec.arguments_from scope (all_seen sites.now)) }
{
    let mut arguments = Vec::new(alloc);
    for site in sites {
        if site.scope != scope {
            return Ok(arguments);
        }
        add_argument(site.number, site.declared, &mut arguments)?;
    }
    Ok(arguments)
}

fn is_function(word: CodeWord) -> bool
    ensures { result ≡ spec.is_function word }
{
    match word {
        CodeWord::Function => true,
        CodeWord::Initial | CodeWord::Always | CodeWord::Task => false,
    }
}

// The variable of a function's result stands directly behind it.
fn result_number(word: CodeWord, number: u32) -> Result<Option<ObjId>, NoMemory>
    ensures { IfOk result (λ o. o ≡ spec.result_number word number) }
{
    if !is_function(word) {
        return Ok(None);
    }
    let number = number.checked_add(1).ok_or(NoMemory)?;
    Ok(Some(ObjId::new(number)))
}

// Where they go.
fn directions_of(alloc: Global, arguments: &[Argument]) -> Result<Directions, NoMemory>
    ensures { IfOk result (λ ds. ds ≡ map (λ (a : Argument). a.direction) arguments.now) }
{
    let mut directions = Vec::new(alloc);
    for argument in arguments {
        directions.push(argument.direction)?;
    }
    Ok(Sequence::new(directions))
}

// A task or function more, with its arguments.
fn add_routine(
    alloc: Global,
    word: CodeWord,
    number: u32,
    arguments: Vec<Argument>,
    all: &mut Routines,
) -> Result<(), NoMemory>
    ensures { OnOk result (routines_seen all.new
        ≡ spec.with_routine word number arguments.items (routines_seen all.old)) }
{
    let result = result_number(word, number)?;
    let directions = directions_of(alloc, &arguments)?;
    all.routines.push(Routine {
        result,
        arguments: directions,
    })?;
    all.arguments.push(Sequence::new(arguments))?;
    Ok(())
}

// The task or function that a site is, behind which these stand.
fn routine_site(
    alloc: Global,
    number: u32,
    declared: Declared,
    behind: &[Site],
    all: &mut Routines,
) -> Result<(), NoMemory>
    ensures { OnOk result (routines_seen all.new
        ≡ spec.routine_declared number (declared_seen declared.entry) (all_seen behind.now)
        (routines_seen all.old)) }
{
    let Declared::Code(word, _) = declared else {
        return Ok(());
    };
    if !is_routine(word) {
        return Ok(());
    }
    let arguments = arguments_from(alloc, number, behind)?;
    add_routine(alloc, word, number, arguments, all)
}

// Those of an instance.
fn add_routines(alloc: Global, sites: &[Site], all: &mut Routines) -> Result<(), NoMemory>
    ensures { OnOk result (routines_seen all.new
        ≡ spec.routines_in (all_seen sites.now) (routines_seen all.old)) }
{
    for (place, site) in sites.iter().enumerate() {
        routine_site(alloc, site.number, site.declared, &sites[place + 1..], all)?;
    }
    Ok(())
}

// The tasks and functions of all instances.
pub(crate) fn routines_of(alloc: Global, all: &[Placed]) -> Result<Routines, NoMemory>
    ensures { IfOk result (λ r. routines_seen r ≡ spec.routines_of (map placed_seen all.now)) }
{
    let mut routines = Routines {
        routines: Vec::new(alloc),
        arguments: Vec::new(alloc),
    };
    for placed in all {
        add_routines(alloc, &placed.sites, &mut routines)?;
    }
    Ok(routines)
}

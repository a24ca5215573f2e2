ghost use Rattle.std.specs.Prelude.{◌≡◌, ◌<◌, ◌^◌, map, length, IfOk};
ghost use Rattle.vh_app.specs.Next.{no_answers};
ghost use Rattle.vh_kernel.specs.State.{startups, opening_agenda, world_before};
ghost use Rattle.vh_orders.specs.Names.{full_names};
ghost use Rattle.vh_orders.specs.Views.{world_of};
ghost use Rattle.vh_proc_simulation.specs.Activity.{IsOpening};

use crate::control::Stack;
use crate::kernel::Kernel;
use crate::occurrence::Agendum;
use crate::texts::Texts;
use std::alloc::Global;
use std::collections::VecDeque;
use vh_app::{Script, Vars};
use vh_base::{NoMemory, ObjId, Reason};
use vh_callbacks::Registry;
use vh_design::{Design, lowest_of};
use vh_design_names::full_name;
use vh_dispatch::Dispatch;
use vh_handles::Handles;
use vh_orders::{Named, Names, Phase, World};
use vh_proc_simulation::Simulation;

// Every variable of every script is null.
fn all_vars(alloc: Global, scripts: &[Script]) -> Result<Vec<Vars>, NoMemory>
    ensures { IfOk result (λ v. v.items ≡ map no_answers scripts.now) }
{
    let mut vars = Vec::new(alloc);
    for script in scripts {
        vars.push(Vars::new(alloc, script)?)?;
    }
    Ok(vars)
}

// The objects of a design, with their full names and kinds, and the addresses of memories.
fn all_names(alloc: Global, d: &Design) -> Result<Vec<Named>, NoMemory>
    ensures { IfOk result (λ names. names.items ≡ full_names d.now) }
{
    let count = d.counts().objects;
    let mut names = Vec::with_capacity(alloc, count as usize)?;
    for o in 0..count {
        let object = ObjId::new(o);
        let info = d.object(object);
        names.push(Named {
            name: full_name(alloc, d, object)?,
            kind: info.kind,
            lowest: lowest_of(&info.detail),
            words: info.words,
        })?;
    }
    Ok(names)
}

// The startup of each script, the end of compilation and the start of simulation.
fn opening_agenda(alloc: Global, scripts: &[Script]) -> Result<VecDeque<Agendum>, NoMemory>
    requires { length scripts.now < 2 ^ 32 }
    ensures { IfOk result (λ agenda. agenda.items ≡ opening_agenda scripts.now) }
{
    let mut agenda = all_startups(alloc, scripts.len() as u32)?;
    agenda.push_back(Agendum::Occurrence(Reason::CbEndOfCompile))?;
    agenda.push_back(Agendum::Occurrence(Reason::CbStartOfSimulation))?;
    Ok(agenda)
}

// The startups of so many scripts.
fn all_startups(alloc: Global, scripts: u32) -> Result<VecDeque<Agendum>, NoMemory>
    ensures { IfOk result (λ agenda. agenda.items ≡ startups 1 scripts) }
{
    let mut agenda = VecDeque::new(alloc);
    for i in 0..scripts {
        agenda.push_back(Agendum::Startup(i + 1))?;
    }
    Ok(agenda)
}

// The world before all.
fn world_before(alloc: Global, design: Design, scripts: Vec<Script>) -> Result<World, NoMemory>
    ensures world { IfOk result (λ w. world_of w
        ≡ world_before design scripts.items (world_of w).activity) }
    ensures opens { IfOk result (λ w. IsOpening design (world_of w).activity) }
    ensures few { IfOk result (λ w. w.scripts.items ≡ scripts.items) }
{
    let names = Names::new(all_names(alloc, &design)?);
    let vars = all_vars(alloc, scripts.as_slice())?;
    let dispatch = Dispatch::new(alloc)?;
    Ok(World {
        simulation: Simulation::new(alloc, design)?,
        names,
        scripts,
        vars,
        handles: Handles::new(alloc),
        registry: Registry::new(alloc),
        dispatch,
        last_error: None,
        phase: Phase::Running,
    })
}

impl Kernel {
    ghost use Rattle.vh_kernel.specs.State.{IsBeforeAll};
    ghost use Rattle.vh_kernel.specs.Views.{state_of};

    // The state before all.
    pub(crate) fn before_all(
        alloc: Global,
        design: Design,
        scripts: Vec<Script>,
    ) -> Result<Kernel, NoMemory>
        requires { length scripts.items < 2 ^ 32 }
        ensures { IfOk result (λ k. IsBeforeAll design scripts.items (state_of k)) }
    {
        let world = world_before(alloc, design, scripts)?;
        let agenda = opening_agenda(alloc, world.scripts.as_slice())?;
        Ok(Kernel {
            world,
            control: Stack::new(alloc),
            agenda,
            occurrence: 1,
            spare: None,
            spare_order: None,
            texts: Texts::new(alloc),
        })
    }
}

ghost use Rattle.std.specs.Prelude.{◌≡◌, Ok, OnOk, IfErr};
ghost use Rattle.vh_sense.specs.Sensitivity.{readers_of};
ghost use Rattle.vh_proc_simulation.specs.Entries.{following};
ghost use Rattle.vh_proc_simulation.specs.Follows.{no_serials, last_of, noted, is_standing, followed, added_one, follow_entered, is_in_force, one_followed};
ghost use Rattle.vh_proc_turn.specs.Own.{FailsBy};

use std::alloc::Global;
use std::collections::BTreeMap;
use std::marker::Model;
use vh_base::{NoMemory, ObjId, Serial};
use vh_design::Change;
use vh_proc::StepFault;
use vh_proc_assign::expr_of;
use vh_proc_turn::add_entry;
use vh_queue::{Queue, Region, Work};
use vh_sense::{Follow, Sense};
use vh_store::Store;

/// The last follow entries of forces and of procedural assigns, which contracts see as their
/// serials by their objects.
#[derive(Drop)]
pub struct Follows {
    forces: BTreeMap<u32, Serial, Global>,
    assigns: BTreeMap<u32, Serial, Global>,
}

impl Model for Follows {
    ghost use Rattle.vh_proc_simulation.specs.Follows.{Serials};

    ghost Value = { Serials };

    ghost view = { λ n. record { forces = n.forces.entries; assigns = n.assigns.entries } };
}

impl Follows {
    /// Nothing was followed; takes no memory.
    pub fn new(alloc: Global) -> Follows
        ensures { result ≡ no_serials }
    {
        Follows {
            forces: BTreeMap::new(alloc),
            assigns: BTreeMap::new(alloc),
        }
    }

    // That of the force of an object, or of its assign.
    fn last(&self, force: bool, o: ObjId) -> Option<Serial>
        ensures { result ≡ last_of force o self.now }
    {
        if force {
            self.forces.get(&o.number()).copied()
        } else {
            self.assigns.get(&o.number()).copied()
        }
    }

    // It is noted.
    fn note(&mut self, force: bool, o: ObjId, serial: Serial) -> Result<(), NoMemory>
        ensures { OnOk result (self.new ≡ noted force o serial self.old) }
    {
        if force {
            self.forces.insert(o.number(), serial)?;
        } else {
            self.assigns.insert(o.number(), serial)?;
        }
        Ok(())
    }
}

// Does an entry of the serial stand?
fn is_standing(q: &Queue, serial: Option<Serial>) -> bool
    ensures { result ≡ is_standing q.now serial }
{
    match serial {
        None => false,
        Some(serial) => q.work(serial).is_some(),
    }
}

// A force of an object, or its assign, gets an entry, now.
fn add_one(follows: &mut Follows, q: &mut Queue, force: bool, o: ObjId) -> Result<(), StepFault>
    ensures done { OnOk result (added_one force o (followed follows.old q.old)
        ≡ Ok (followed follows.new q.new)) }
    ensures fails { IfErr result (FailsBy (added_one force o (followed follows.old q.old))) }
    ensures now { q.new.time ≡ q.old.time }
{
    let now = q.time();
    let serial = add_entry(q, now, Region::Active, Work::Follow { object: o, force })?;
    follows.note(force, o, serial)?;
    Ok(())
}

// It does unless one stands.
fn enter_follow(
    follows: &mut Follows,
    q: &mut Queue,
    force: bool,
    o: ObjId,
) -> Result<(), StepFault>
    ensures done { OnOk result (follow_entered force o (followed follows.old q.old)
        ≡ Ok (followed follows.new q.new)) }
    ensures fails { IfErr result (FailsBy (follow_entered force o (followed follows.old q.old))) }
    ensures now { q.new.time ≡ q.old.time }
{
    if is_standing(q, follows.last(force, o)) {
        return Ok(());
    }
    add_one(follows, q, force, o)
}

// Is the statement's force or assign the one in place?
fn is_in_force(s: &Store, f: &Follow) -> bool
    ensures { result ≡ is_in_force s.now f.now }
{
    match expr_of(s, f.force, f.object) {
        Some(e) => e.number() == f.expr.number(),
        None => false,
    }
}

// A statement reads what has changed.
fn follow_one(s: &Store, follows: &mut Follows, q: &mut Queue, f: &Follow) -> Result<(), StepFault>
    ensures done { OnOk result (one_followed s.now f.now (followed follows.old q.old)
        ≡ Ok (followed follows.new q.new)) }
    ensures fails { IfErr result (FailsBy (one_followed s.now f.now (followed follows.old q.old))) }
    ensures now { q.new.time ≡ q.old.time }
{
    if !is_in_force(s, f) {
        return Ok(());
    }
    enter_follow(follows, q, f.force, f.object)
}

// Each statement in turn that reads what has changed.
pub(crate) fn follow(
    s: &Store,
    sense: &Sense,
    follows: &mut Follows,
    q: &mut Queue,
    c: &Change,
) -> Result<(), StepFault>
    ensures done { OnOk result (following s.now sense.now c.now (followed follows.old q.old)
        ≡ Ok (followed follows.new q.new)) }
    ensures fails { IfErr result (FailsBy (following s.now sense.now c.now
        (followed follows.old q.old))) }
    ensures now { q.new.time ≡ q.old.time }
{
    let mut last = None;
    'followed: while let Some(f) = sense.next_follow(c, last) {
        follow_one(s, follows, q, &f)?;
        last = Some(f);
    }
    Ok(())
}

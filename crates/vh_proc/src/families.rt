ghost use Rattle.std.specs.Prelude.{◌≡◌, ◌+◌, ◌||◌, [], length, true, false, Some, None, IfOk, OnOk};
ghost use Rattle.std.specs.BTreeMap.{is_at};
ghost use Rattle.std.specs.BTreeSet.{contains};
ghost use Rattle.std.specs.Map.{lookup};
ghost use Rattle.std.specs.Ordering.{nat_cmp};
ghost use Rattle.vh_proc.specs.Families.{AreKept, CallJoins, Joins, Leaves, Calls, ComeFrom, IsExact, MembersJoin, MembersLeave, called_by, is_of, root_of};

use std::alloc::Global;
use std::collections::{BTreeMap, BTreeSet};
use vh_base::{NoMemory, ObjId, ProcId};
use vh_design::{Instruction, Operation};

// The numbers of a process of the design and of the branches that come from it.
pub(crate) type Family = BTreeSet<u64, Global>;

// For each task and function that was called, the processes of the design that have called it, or
// from which a branch comes that has, and aren't forgotten.
type Callers = BTreeMap<u32, BTreeSet<u64, Global>, Global>;

// The family of each process of the design, and of each number in one that process; and who has
// called what.
#[derive(Drop)]
pub(crate) struct Families {
    pub(crate) sets: Vec<Family>,
    pub(crate) roots: BTreeMap<u64, u64, Global>,
    pub(crate) callers: Callers,
}

// Adds a family of one number.
fn push_one(alloc: Global, sets: &mut Vec<Family>, p: u64) -> Result<(), NoMemory>
    requires { length sets.old.items ≡ p }
    ensures length { OnOk result (length sets.new.items ≡ p + 1) }
    ensures joins { OnOk result (MembersJoin sets.old.items sets.new.items p p) }
{
    let mut family = BTreeSet::new(alloc);
    family.insert(p)?;
    sets.push(family)?;
    Ok(())
}

// A number comes into a family. Is there one?
fn insert_at(sets: &mut Vec<Family>, k: u64, p: u64) -> Result<bool, NoMemory>
    ensures { IfOk result (λ is_there. is_there ≡ true
        → MembersJoin sets.old.items sets.new.items k p) }
{
    let Some(family) = sets.get_mut(k as usize) else {
        return Ok(false);
    };
    family.insert(p)?;
    Ok(true)
}

// A number goes out of it.
fn remove_at(sets: &mut Vec<Family>, k: u64, p: u64)
    ensures { MembersLeave sets.old.items sets.new.items k p }
{
    if let Some(family) = sets.get_mut(k as usize) {
        family.remove(&p);
    }
}

// A caller comes into the set of a task or function. Is there one?
fn insert_under(callers: &mut Callers, r: ObjId, k: u64) -> Result<bool, NoMemory>
    ensures there { IfOk result (λ is_there. is_there ≡ true
        → CallJoins callers.old.entries callers.new.entries r k) }
    ensures none { IfOk result (λ is_there. is_there ≡ false
        → (callers.new.entries ≡ callers.old.entries)
        × (lookup (is_at (nat_cmp r)) callers.old.entries ≡ None)) }
{
    let Some(set) = callers.get_mut(&r.number()) else {
        return Ok(false);
    };
    set.insert(k)?;
    Ok(true)
}

// A caller of a task or function comes in.
fn insert_caller(alloc: Global, callers: &mut Callers, r: ObjId, k: u64) -> Result<(), NoMemory>
    ensures { OnOk result (CallJoins callers.old.entries callers.new.entries r k) }
{
    if insert_under(callers, r, k)? {
        return Ok(());
    }
    let mut set = BTreeSet::new(alloc);
    set.insert(k)?;
    callers.insert(r.number(), set)?;
    Ok(())
}

// The numbers of a family come into a set.
fn add_family(all: &mut Family, family: &Family) -> Result<(), NoMemory>
    ensures { OnOk result ((p : _) → contains nat_cmp all.new p
        ≡ (contains nat_cmp all.old p || contains nat_cmp family.now p)) }
{
    for p in family.iter() {
        all.insert(*p)?;
    }
    Ok(())
}

// Those of the family of a process of the design do.
fn add_all(all: &mut Family, sets: &[Family], k: u64) -> Result<(), NoMemory>
    ensures { OnOk result ((p : _) → contains nat_cmp all.new p
        ≡ (contains nat_cmp all.old p || is_of sets.now k p)) }
{
    match sets.get(k as usize) {
        Some(family) => add_family(all, family),
        None => Ok(()),
    }
}

impl Families {
    // No process is there.
    pub(crate) fn none(alloc: Global) -> Families
        ensures length { length result.sets.items ≡ 0 }
        ensures kept { AreKept result 0 [] }
    {
        Families {
            sets: Vec::new(alloc),
            roots: BTreeMap::new(alloc),
            callers: BTreeMap::new(alloc),
        }
    }

    // The next process of the design has a family of its own.
    pub(crate) fn own(&mut self, alloc: Global, p: u64) -> Result<(), NoMemory>
        requires { length (self.old).sets.items ≡ p }
        ensures length { OnOk result (length (self.new).sets.items ≡ p + 1) }
        ensures joins { OnOk result (Joins self.old self.new p p) }
    {
        push_one(alloc, &mut self.sets, p)?;
        self.roots.insert(p, p)?;
        Ok(())
    }

    // A branch comes into the family of what has begun it. Is there one, and was each in its own?
    pub(crate) fn join(&mut self, parent: ProcId, p: u64, were_kept: bool) -> Result<bool, NoMemory>
        ensures kept { IfOk result (λ are. are ≡ true → were_kept ≡ true) }
        ensures joins { IfOk result (λ are. are ≡ true
            → (k : _) → root_of parent self.old ≡ Some k → Joins self.old self.new k p) }
    {
        let Some(root) = self.roots.get(&parent.number()) else {
            return Ok(false);
        };
        let root = *root;
        let is_there = insert_at(&mut self.sets, root, p)?;
        self.roots.insert(p, root)?;
        Ok(were_kept && is_there)
    }

    // A process goes out of its family.
    pub(crate) fn leave(&mut self, p: u64)
        ensures { Leaves self.old self.new p }
    {
        if let Some(root) = self.roots.remove(&p) {
            remove_at(&mut self.sets, root, p);
        }
    }

    // A process calls a task or function.
    #[inline(never)]
    fn note_call(&mut self, alloc: Global, p: ProcId, r: ObjId) -> Result<(), NoMemory>
        ensures { OnOk result (Calls self.old self.new p (Some r)) }
    {
        let Some(root) = self.roots.get(&p.number()) else {
            return Ok(());
        };
        let root = *root;
        insert_caller(alloc, &mut self.callers, r, root)
    }

    // A process performs a label: what it calls is noted.
    pub(crate) fn arrive(
        &mut self,
        alloc: Global,
        p: ProcId,
        i: &Instruction,
    ) -> Result<(), NoMemory>
        ensures { OnOk result (Calls self.old self.new p (called_by i.now.operation)) }
    {
        let Operation::Enter { routine, .. } = &i.operation else {
            return Ok(());
        };
        self.note_call(alloc, p, *routine)
    }

    // All that come from the callers of a task or function.
    pub(crate) fn of_callers(&self, alloc: Global, r: u32) -> Result<Family, NoMemory>
        requires { IsExact self.now }
        ensures { IfOk result (ComeFrom self.now r) }
    {
        let mut all = BTreeSet::new(alloc);
        let Some(callers) = self.callers.get(&r) else {
            return Ok(all);
        };
        for k in callers.iter() {
            add_all(&mut all, &self.sets, *k)?;
        }
        Ok(all)
    }
}

ghost use Rattle.std.specs.Prelude.{◌≡◌, true, false, IfOk, OnOk};
ghost use Rattle.std.specs.BTreeMap.{is_at};
ghost use Rattle.std.specs.BTreeSet.{contains};
ghost use Rattle.std.specs.List.{AllByRecursion};
ghost use Rattle.std.specs.Map.{lookup};
ghost use Rattle.std.specs.Ordering.{nat_cmp};
ghost use Rattle.vh_proc_thread.specs.Control.{Runs};
ghost use Rattle.vh_proc.specs.Families.{Forgets, IsIdle, is_in_call};

use crate::families::{Families, Family};
use std::alloc::Global;
use std::collections::{BTreeMap, BTreeSet};
use vh_base::{NoMemory, ObjId};
use vh_design::Design;
use vh_proc_turn::Process;

// The processes, by their numbers.
type All = BTreeMap<u64, Process, Global>;

// Is the process of a number in a call of a task or function?
fn is_in_call(d: &Design, all: &All, p: u64, r: u32) -> bool
    requires { AllByRecursion (λ e. Runs d.now e.1.thread) all.now.entries }
    ensures { result ≡ is_in_call d.now r (lookup (is_at (nat_cmp p)) all.now.entries) }
{
    match all.get(&p) {
        Some(process) => process.thread.is_inside(d, ObjId::new(r)),
        None => false,
    }
}

// Is one of a family?
fn is_any_in_call(d: &Design, all: &All, family: &Family, r: u32) -> bool
    requires { AllByRecursion (λ e. Runs d.now e.1.thread) all.now.entries }
    ensures { result ≡ false → (p : _) → contains nat_cmp family.now p ≡ true
        → is_in_call d.now r (lookup (is_at (nat_cmp p)) all.now.entries) ≡ false }
{
    for p in family.iter() {
        if is_in_call(d, all, *p, r) {
            return true;
        }
    }
    false
}

// Is one that comes from this process of the design?
fn is_active(d: &Design, all: &All, sets: &[Family], k: u64, r: u32) -> bool
    requires { AllByRecursion (λ e. Runs d.now e.1.thread) all.now.entries }
    ensures { result ≡ false → IsIdle d.now r sets.now all.now.entries k }
{
    match sets.get(k as usize) {
        Some(family) => is_any_in_call(d, all, family, r),
        None => false,
    }
}

// Keeps it, where one is.
fn keep_active(
    still: &mut BTreeSet<u64, Global>,
    d: &Design,
    all: &All,
    sets: &[Family],
    k: u64,
    r: u32,
) -> Result<(), NoMemory>
    requires { AllByRecursion (λ e. Runs d.now e.1.thread) all.now.entries }
    ensures kept { OnOk result ((n : _) → contains nat_cmp still.old n ≡ true
        → contains nat_cmp still.new n ≡ true) }
    ensures idle { OnOk result (contains nat_cmp still.new k ≡ false
        → IsIdle d.now r sets.now all.now.entries k) }
{
    if is_active(d, all, sets, k, r) {
        still.insert(k)?;
    }
    Ok(())
}

// Those of them of whom one is.
fn active_of(
    alloc: Global,
    d: &Design,
    all: &All,
    sets: &[Family],
    callers: &BTreeSet<u64, Global>,
    r: u32,
) -> Result<BTreeSet<u64, Global>, NoMemory>
    requires { AllByRecursion (λ e. Runs d.now e.1.thread) all.now.entries }
    ensures { IfOk result (λ still. (k : _) → contains nat_cmp callers.now k ≡ true
        → contains nat_cmp still k ≡ false → IsIdle d.now r sets.now all.now.entries k) }
{
    let mut still = BTreeSet::new(alloc);
    for k in callers.iter() {
        keep_active(&mut still, d, all, sets, *k, r)?;
    }
    Ok(still)
}

impl Families {
    // Callers of a task or function, of whom nobody is in a call of it now, are forgotten, where
    // it has several.
    pub(crate) fn forget_idle(
        &mut self,
        alloc: Global,
        d: &Design,
        all: &All,
        r: u32,
    ) -> Result<(), NoMemory>
        requires { AllByRecursion (λ e. Runs d.now e.1.thread) all.now.entries }
        ensures { OnOk result (Forgets d.now r all.now.entries self.old self.new) }
    {
        let Some(callers) = self.callers.get(&r) else {
            return Ok(());
        };
        if callers.len() < 2 {
            return Ok(());
        }
        let still = active_of(alloc, d, all, &self.sets, callers, r)?;
        self.callers.insert(r, still)?;
        Ok(())
    }
}

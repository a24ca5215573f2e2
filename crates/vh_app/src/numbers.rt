ghost use Rattle.std.specs.Prelude.{IfOk, OnOk};
ghost use Rattle.vh_app.specs.Numbers.{Adds, IsTableOf};

use crate::form::Procedure;
use indexmap::IndexMap;
use std::alloc::Global;
use vh_base::NoMemory;

// The numbers of procedures by their names: for each name that of the first.
pub(crate) fn numbers_of(
    alloc: Global,
    procedures: &[Procedure],
) -> Result<IndexMap<Vec<u8>, usize>, NoMemory>
    ensures { IfOk result (λ numbers. IsTableOf procedures.now numbers.entries) }
{
    let mut numbers = IndexMap::new(alloc);
    for at in 0..procedures.len() {
        add(alloc, &mut numbers, at, &procedures[at])?;
    }
    Ok(numbers)
}

// One procedure more.
fn add(
    alloc: Global,
    numbers: &mut IndexMap<Vec<u8>, usize>,
    at: usize,
    procedure: &Procedure,
) -> Result<(), NoMemory>
    ensures { OnOk result (Adds at procedure.now numbers.old.entries numbers.new.entries) }
{
    let name = procedure.name.bytes();
    if numbers.contains_key(name) {
        return Ok(());
    }
    let key = Vec::from_slice(alloc, name)?;
    numbers.insert(key, at)?;
    Ok(())
}

ghost use Rattle.std.specs.Prelude.{◌≡◌, length, IfOk};
ghost use Rattle.vh_sense.specs.Views.{AllEmpty};

use std::alloc::Global;
use std::collections::BTreeSet;
use vh_base::NoMemory;

// So many empty sets.
pub(crate) fn empty_sets<K: Ord + Drop>(
    alloc: Global,
    count: u32,
) -> Result<Vec<BTreeSet<K, Global>>, NoMemory>
    ensures count { IfOk result (λ ss. length ss.items ≡ count) }
    ensures empty { IfOk result (λ ss. AllEmpty ss.items) }
{
    let mut sets = Vec::with_capacity(alloc, count as usize)?;
    for _ in 0..count {
        sets.push(BTreeSet::new(alloc))?;
    }
    Ok(sets)
}

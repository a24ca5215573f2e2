ghost use Rattle.std.specs.Prelude.{◌≡◌, [], ◌∷◌, IfOk};

use sqlite_items::Items;
use std::alloc::{AllocError, Global};

/// A list of one item. It takes room for one, since most lists of a tree have no more: the first push
/// onto an empty list takes room for four.
pub fn only<T: Drop>(alloc: Global, item: T) -> Result<Items<T>, AllocError>
    ensures { IfOk result (λ all. all ≡ item ∷ []) }
{
    let mut all = Vec::with_capacity(alloc, 1)?;
    all.push(item)?;
    Ok(Items::from_vec(all))
}

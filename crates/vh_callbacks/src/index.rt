ghost use Rattle.std.specs.Prelude.{◌≡◌, ◌++◌, ◌∷◌, ◌==◌, [], if◌then◌else◌, true, not, length, is_some, Some, OnOk, OnErr};
ghost use Rattle.std.specs.Option.{option_copied, option_map};
ghost use Rattle.std.specs.BTreeMap.{is_at, get};
ghost use Rattle.vh_callbacks.specs.Watching.{watch, watch_cmp, list_under, numbers_under, if_any, is_empty_list};
ghost use Rattle.vh_callbacks.specs.Marks.{without_number, IsSet};

use crate::numbers::Numbers;
use std::alloc::Global;
use std::collections::BTreeMap;
use vh_base::{CbNumber, NoMemory, Object, Reason};

// What a callback watches, by numbers that have an order: its reason, its object and the
// word of that.
#[derive(Clone, Copy, PartialEq, Eq, PartialOrd, Ord)]
pub(crate) struct Watch {
    pub(crate) reason: u8,
    pub(crate) object: Option<u32>,
    pub(crate) word: Option<u32>,
}

// The live callbacks by what they watch, and nothing without a callback.
pub(crate) type Index = BTreeMap<Watch, Numbers, Global>;

// What a callback with this reason and this object watches.
pub(crate) fn watch_of(reason: Reason, object: &Option<Object>) -> Watch
    ensures { result ≡ watch reason object.now }
{
    let number = reason as u8;
    match object {
        Some(o) => Watch {
            reason: number,
            object: Some(o.id.number()),
            word: o.word,
        },
        None => Watch {
            reason: number,
            object: None,
            word: None,
        },
    }
}

// Puts a number that is above all others at the end of those that watch this.
pub(crate) fn add(
    alloc: Global,
    index: &mut Index,
    w: Watch,
    number: CbNumber,
) -> Result<(), NoMemory>
    requires { IsSet (numbers_under w index.old.entries ++ number ∷ []) }
    ensures ok { OnOk result ((q : Watch) → list_under q index.new.entries
        ≡ (if is_at (watch_cmp w) q then Some (numbers_under w index.old.entries ++ number ∷ [])
        else list_under q index.old.entries)) }
    ensures kept { OnErr result ((q : Watch) →
        list_under q index.new.entries ≡ list_under q index.old.entries) }
{
    if index.contains_key(&w) {
        return push_at(index, w, number);
    }
    let mut numbers = Numbers::new(alloc);
    numbers.push(number)?;
    index.insert(w, numbers)?;
    Ok(())
}

// Puts a number at the end of those that watch this, of which there are some.
fn push_at(index: &mut Index, w: Watch, number: CbNumber) -> Result<(), NoMemory>
    requires there { is_some (get watch_cmp index.old w) ≡ true }
    requires set { IsSet (numbers_under w index.old.entries ++ number ∷ []) }
    ensures ok { OnOk result ((q : Watch) → list_under q index.new.entries
        ≡ (if is_at (watch_cmp w) q then Some (numbers_under w index.old.entries ++ number ∷ [])
        else list_under q index.old.entries)) }
    ensures kept { OnErr result ((q : Watch) →
        list_under q index.new.entries ≡ list_under q index.old.entries) }
{
    let Some(numbers) = index.get_mut(&w) else {
        unreachable!();
    };
    numbers.push(number)?;
    Ok(())
}

// Takes a number out of those that watch this, and their list where none are left.
pub(crate) fn take(index: &mut Index, w: Watch, number: CbNumber)
    ensures { (q : Watch) → list_under q index.new.entries
        ≡ (if is_at (watch_cmp w) q
        then if_any (without_number number (numbers_under w index.old.entries))
        else list_under q index.old.entries) }
{
    if !drop_at(index, w, number) {
        return;
    }
    index.remove(&w);
}

// Takes a number out of those that watch this. Are there some of whom none are left?
fn drop_at(index: &mut Index, w: Watch, number: CbNumber) -> bool
    ensures taken { (q : Watch) → list_under q index.new.entries
        ≡ (if is_at (watch_cmp w) q
        then option_map (without_number number) (list_under w index.old.entries)
        else list_under q index.old.entries) }
    ensures empty { result
        ≡ is_empty_list (option_map (without_number number) (list_under w index.old.entries)) }
{
    let Some(numbers) = index.get_mut(&w) else {
        return false;
    };
    numbers.drop_number(number);
    numbers.is_empty()
}

// The numbers of those that watch this; none where nobody does.
pub(crate) fn numbers_for<'a>(index: &'a Index, w: Watch) -> Option<&'a Numbers>
    ensures { option_copied result ≡ list_under w index.now.entries }
{
    index.get(&w)
}

// Is there one that watches this?
pub(crate) fn is_watched(index: &Index, w: Watch) -> bool
    ensures { result ≡ not (length (numbers_under w index.now.entries) == 0) }
{
    match numbers_for(index, w) {
        Some(numbers) => !numbers.is_empty(),
        None => false,
    }
}

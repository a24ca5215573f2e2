ghost use Rattle.std.specs.Prelude.{◌≡◌, ◌<◌, ◌++◌, ◌∷◌, [], length, true, is_some, Some, if◌then◌else◌, IfErr, OnOk, OnErr};
ghost use Rattle.std.specs.Option.{option_copied, option_map};
ghost use Rattle.vh_callbacks.specs.Callbacks.{live_at, without, changed, one_more, one_less, with_data, Rise};
ghost use Rattle.vh_callbacks.specs.Keeping.{inside, live_of, unmarked, only, is_live_one, watched_by, is_running_one, is_last_one, activations_in};
ghost use Rattle.vh_callbacks.specs.Watching.{Indexes};

use crate::index::{Index, Watch, add, take, watch_of};
use crate::live::{Kept, Live};
use std::alloc::Global;
use std::collections::BTreeMap;
use vh_base::{CbNumber, MOST_CALLBACKS, MOST_FRAMES, NoMemory};

// The live and held callbacks by number.
pub(crate) type Entries<B> = BTreeMap<u64, Kept<B>, Global>;

// Puts a live callback into the map and the index, or hands it back.
pub(crate) fn put<B: Drop>(
    alloc: Global,
    entries: &mut Entries<B>,
    index: &mut Index,
    number: u64,
    live: Live<B>,
) -> Result<(), Live<B>>
    requires rising { Rise 1 entries.old.entries number }
    requires few { length (live_of entries.old.entries) < MOST_CALLBACKS }
    requires indexed { Indexes index.old.entries (live_of entries.old.entries) }
    ensures ok { OnOk result (entries.new.entries
        ≡ entries.old.entries ++ (number, record { callback = live; is_live = true }) ∷ []) }
    ensures err { IfErr result (λ back. back ≡ live) }
    ensures kept { OnErr result (entries.new.entries ≡ entries.old.entries) }
    ensures indexed { Indexes index.new.entries (live_of entries.new.entries) }
{
    let w = watch_of(live.registration.reason, &live.registration.object);
    let c = CbNumber::new(number);
    let Ok(()) = add(alloc, index, w, c) else {
        return Err(live);
    };
    match put_last(entries, number, live) {
        Ok(()) => Ok(()),
        Err(back) => {
            take(index, w, c);
            Err(back)
        }
    }
}

// Puts a live callback under a number above all others, or hands it back.
fn put_last<B: Drop>(entries: &mut Entries<B>, number: u64, live: Live<B>) -> Result<(), Live<B>>
    requires { Rise 1 entries.old.entries number }
    ensures ok { OnOk result (entries.new.entries
        ≡ entries.old.entries ++ (number, record { callback = live; is_live = true }) ∷ []) }
    ensures err { IfErr result (λ back. back ≡ live) }
    ensures kept { OnErr result (entries.new.entries ≡ entries.old.entries) }
{
    let kept = Kept {
        callback: live,
        is_live: true,
    };
    match entries.insert(number, kept) {
        Ok(_) => Ok(()),
        Err(refused) => {
            let (_, back) = refused.value;
            Err(back.callback)
        }
    }
}

// The live callback of this number.
pub(crate) fn live_one<B>(entries: &Entries<B>, number: u64) -> Option<&Live<B>>
    ensures { option_copied result ≡ only is_live_one (live_at number entries.now.entries) }
{
    match entries.get(&number) {
        Some(kept) if kept.is_live => Some(&kept.callback),
        _ => None,
    }
}

// What the live callback of this number watches.
pub(crate) fn watched<B>(entries: &Entries<B>, number: u64) -> Option<Watch>
    ensures { result ≡ watched_by (only is_live_one (live_at number entries.now.entries)) }
{
    let live = live_one(entries, number)?;
    Some(watch_of(live.registration.reason, &live.registration.object))
}

// Takes the mark from the callback of this number, where an activation of it runs. Does one?
pub(crate) fn hold<B>(entries: &mut Entries<B>, number: u64) -> bool
    ensures running { result ≡ is_running_one (live_at number entries.old.entries) }
    ensures entries { entries.new.entries
        ≡ (if result then changed unmarked number entries.old.entries else entries.old.entries) }
{
    let Some(kept) = entries.get_mut(&number) else {
        return false;
    };
    if kept.callback.activations == 0 {
        return false;
    }
    kept.is_live = false;
    true
}

// Takes the callback of this number out, which is there.
pub(crate) fn take_body<B: Drop>(entries: &mut Entries<B>, number: u64) -> B
    requires { is_some (live_at number entries.old.entries) ≡ true }
    ensures body { option_map (λ k. k.callback.body) (live_at number entries.old.entries)
        ≡ Some result }
    ensures entries { entries.new.entries ≡ without number entries.old.entries }
{
    let Some(kept) = entries.remove(&number) else {
        unreachable!();
    };
    kept.callback.body
}

// One more activation of the callback of this number runs.
pub(crate) fn start<B>(entries: &mut Entries<B>, number: u64)
    requires { activations_in (live_at number entries.old.entries) < MOST_FRAMES }
    ensures { entries.new.entries ≡ changed (inside one_more) number entries.old.entries }
{
    let Some(kept) = entries.get_mut(&number) else {
        return;
    };
    kept.callback.activations += 1;
}

// One less runs, but where it is the last of a held one. Is it?
pub(crate) fn end<B>(entries: &mut Entries<B>, number: u64) -> bool
    requires { 0 < activations_in (live_at number entries.old.entries) }
    ensures last { result ≡ is_last_one (live_at number entries.old.entries) }
    ensures entries { entries.new.entries
        ≡ (if result then entries.old.entries
        else changed (inside one_less) number entries.old.entries) }
{
    let Some(kept) = entries.get_mut(&number) else {
        return false;
    };
    if !kept.is_live && kept.callback.activations == 1 {
        return true;
    }
    kept.callback.activations -= 1;
    false
}

// The callback of this number has other data of the user.
pub(crate) fn put_data<B>(entries: &mut Entries<B>, number: u64, to: u64)
    ensures { entries.new.entries ≡ changed (inside (with_data to)) number entries.old.entries }
{
    let Some(kept) = entries.get_mut(&number) else {
        return;
    };
    kept.callback.registration.user_data = to;
}

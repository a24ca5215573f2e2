ghost use Rattle.std.specs.Prelude.{◌≡◌, ◌≤◌, ◌<◌, ◌^◌, true, length, slice_get, is_some, IfSome, IfNone, []};
ghost use Rattle.vh_queue.specs.Ranked.{serials_of, AreLater, IsLeastTime};
ghost use Rattle.vh_queue.specs.Lanes.{first_four, last_four, count_four};
ghost use Rattle.vh_queue.specs.Events.{earlier_of};
ghost use Rattle.vh_queue.specs.Serials.{later_of, last_of};

use crate::horizons::Horizons;
use crate::region::Region::{Active, Inactive, Monitor, Nonblocking};
use vh_queue_maps::Near;

// Where an entry with a time waits: by its time, its region's rank and its serial.
#[derive(Clone, Copy, PartialEq, Eq, PartialOrd, Ord)]
pub(crate) struct Key {
    pub(crate) time: u64,
    pub(crate) rank: u8,
    pub(crate) serial: u64,
}

// The ranked of some entries.
pub(crate) type Ranked = Near<Key>;

// Does each key stand at a later time? Then no more is to be asked.
fn are_later(ranked: &Ranked, time: u64) -> bool
    ensures { result ≡ true → AreLater time ranked.now }
{
    match ranked.first() {
        None => true,
        Some(least) => time < least.time,
    }
}

// The first serial of a time and region from one on and below another. It is inlined, so that those who ask
// for several regions look at the least key once.
#[inline(always)]
pub(crate) fn first_of(ranked: &Ranked, time: u64, rank: u8, from: u64, below: u64) -> Option<u64>
    requires { from ≤ below }
    ensures { result ≡ slice_get (serials_of time rank from below ranked.now) 0 }
{
    if from == below {
        return None;
    }
    let first = Key {
        time,
        rank,
        serial: from,
    };
    let end = Key {
        time,
        rank,
        serial: below,
    };
    let least = ranked.first()?;
    if end <= *least {
        return None;
    }
    if first <= *least {
        return Some(least.serial);
    }
    let key = ranked.first_between(&first, &end)?;
    Some(key.serial)
}

// The last one.
pub(crate) fn last_of(ranked: &Ranked, time: u64, rank: u8, from: u64, below: u64) -> Option<u64>
    requires { from ≤ below }
    ensures { result ≡ last_of (serials_of time rank from below ranked.now) }
{
    let first = Key {
        time,
        rank,
        serial: from,
    };
    let end = Key {
        time,
        rank,
        serial: below,
    };
    let least = ranked.first()?;
    if end <= *least {
        return None;
    }
    let key = ranked.last_between(&first, &end)?;
    Some(key.serial)
}

// How many there are. It goes over them, and is inlined for the same reason.
#[inline(always)]
pub(crate) fn count_of(ranked: &Ranked, time: u64, rank: u8, from: u64, below: u64) -> usize
    requires { from ≤ below }
    ensures { result ≡ length (serials_of time rank from below ranked.now) }
{
    if from == below {
        return 0;
    }
    let first = Key {
        time,
        rank,
        serial: from,
    };
    let end = Key {
        time,
        rank,
        serial: below,
    };
    let Some(least) = ranked.first() else {
        return 0;
    };
    if end <= *least {
        return 0;
    }
    ranked.count_between(&first, &end)
}

// The earlier of two numbers that may be missing.
pub(crate) fn earlier(a: Option<u64>, b: Option<u64>) -> Option<u64>
    ensures { result ≡ earlier_of a b }
{
    match (a, b) {
        (Some(x), Some(y)) => Some(x.min(y)),
        (Some(x), None) => Some(x),
        (None, y) => y,
    }
}

// The later of two.
pub(crate) fn later(a: Option<u64>, b: Option<u64>) -> Option<u64>
    ensures { result ≡ later_of a b }
{
    match (a, b) {
        (Some(x), Some(y)) => Some(x.max(y)),
        (Some(x), None) => Some(x),
        (None, y) => y,
    }
}

// The first serial at a time of the active region up to one, and of the others up to their horizons.
pub(crate) fn first_four(ranked: &Ranked, time: u64, own: u64, horizons: &Horizons) -> Option<u64>
    ensures { result ≡ first_four time own horizons.now ranked.now }
{
    if are_later(ranked, time) {
        return None;
    }
    let active = first_of(ranked, time, Active as u8, 0, own);
    let inactive = first_of(ranked, time, Inactive as u8, 0, horizons.inactive);
    let nonblocking = first_of(ranked, time, Nonblocking as u8, 0, horizons.nonblocking);
    let monitor = first_of(ranked, time, Monitor as u8, 0, horizons.monitor);
    earlier(earlier(active, inactive), earlier(nonblocking, monitor))
}

// Is there one?
pub(crate) fn any_four(ranked: &Ranked, time: u64, own: u64, horizons: &Horizons) -> bool
    ensures { result ≡ is_some (first_four time own horizons.now ranked.now) }
{
    if are_later(ranked, time) {
        return false;
    }
    first_of(ranked, time, Active as u8, 0, own).is_some()
        || first_of(ranked, time, Inactive as u8, 0, horizons.inactive).is_some()
        || first_of(ranked, time, Nonblocking as u8, 0, horizons.nonblocking).is_some()
        || first_of(ranked, time, Monitor as u8, 0, horizons.monitor).is_some()
}

// The last one.
pub(crate) fn last_four(ranked: &Ranked, time: u64, own: u64, horizons: &Horizons) -> Option<u64>
    ensures { result ≡ last_four time own horizons.now ranked.now }
{
    if are_later(ranked, time) {
        return None;
    }
    let active = last_of(ranked, time, Active as u8, 0, own);
    let inactive = last_of(ranked, time, Inactive as u8, 0, horizons.inactive);
    let nonblocking = last_of(ranked, time, Nonblocking as u8, 0, horizons.nonblocking);
    let monitor = last_of(ranked, time, Monitor as u8, 0, horizons.monitor);
    later(later(active, inactive), later(nonblocking, monitor))
}

// How many there are. It goes over them.
pub(crate) fn count_four(ranked: &Ranked, time: u64, own: u64, horizons: &Horizons) -> usize
    requires { count_four time own horizons.now ranked.now < 2 ^ 32 }
    ensures { result ≡ count_four time own horizons.now ranked.now }
{
    if are_later(ranked, time) {
        return 0;
    }
    let active = count_of(ranked, time, Active as u8, 0, own);
    let inactive = count_of(ranked, time, Inactive as u8, 0, horizons.inactive);
    let nonblocking = count_of(ranked, time, Nonblocking as u8, 0, horizons.nonblocking);
    let monitor = count_of(ranked, time, Monitor as u8, 0, horizons.monitor);
    (active + inactive) + (nonblocking + monitor)
}

// The least time.
pub(crate) fn first_time(ranked: &Ranked) -> Option<u64>
    ensures least { IfSome result (λ t. IsLeastTime t ranked.now) }
    ensures none { IfNone result (ranked.now.keys ≡ []) }
{
    let key = ranked.first()?;
    Some(key.time)
}

ghost use Rattle.std.specs.Prelude.{ℕ, ◌<◌, ◌-◌, ◌^◌, List, length, IsSome};
ghost use Rattle.vh_slots.specs.Table.{Table, held, after_take};
ghost use Rattle.vh_slots.specs.Laws.{Call, IsRun, end_of, given_count, HoldAtMost, IsOver, IsBounded, empty};

use crate::slots::{GENERATIONS, Key};

/// After a key is taken it is never given again and finds nothing; slots that aren't retired are
/// at most as many as values were ever held at once; and the condition of [`crate::Slots::give`]
/// holds where slots begin with generation 0, at most 2^31-1 values are held at once and fewer than
/// 2^63 were ever given. It does nothing: its contract is the theorem, over every run of calls.
pub fn slots_laws<T>()
    ensures over { (t : Table T) (key : Key) (ms : List (Call T × Table T)) → IsSome (held key t)
        → IsRun (after_take key t) ms → IsOver key ms (end_of (after_take key t) ms) }
    ensures bounded { (limit first most : ℕ) (ms : List (Call T × Table T)) → first < GENERATIONS
        → IsRun (empty limit first) ms → HoldAtMost most ms
        → IsBounded first most (given_count ms) (end_of (empty limit first) ms) }
    ensures room { (limit : ℕ) (ms : List (Call T × Table T)) → limit < 2 ^ 31 →
        IsRun (empty limit 0) ms
        → given_count ms < 2 ^ 63 → length (end_of (empty limit 0) ms).cells < 2 ^ 32 - 1 }
{}

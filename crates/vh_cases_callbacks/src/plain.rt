ghost use Rattle.std.specs.Prelude.{◌≡◌, ◌<◌, ◌≤◌, ◌+◌, ◌^◌, length, IfOk, IfSome};
ghost use Rattle.vh_wheel.specs.Schedule.{held_in};

use std::alloc::Global;
use std::marker::Brand;
use std::sync::ledger::{Blank, Ledger};
use std::test::Fail;
use vh_base::{NoMemory, Steps};
use vh_cases_plain::{PlainSlots, PlainWheel};
use vh_slots::{GiveFault, Key, Slots};
use vh_wheel::Wheel;

// The number after one, in a row of random numbers below 2^31.
fn next_random(seed: u64) -> u64
    requires { seed < 2147483648 }
    ensures { result < 2147483648 }
{
    (seed * 1_103_515_245 + 12_345) % 2_147_483_648
}

// Holds two payloads in both wheels and takes the first; do both answer it?
fn cancel_both(
    alloc: Global,
    wheel: &mut Wheel,
    plain: &mut PlainWheel,
    time: u64,
    payload: u64,
) -> Result<bool, NoMemory>
    requires few { held_in wheel.old.entries < 2 ^ 30 }
    requires plain_few { held_in plain.old.entries < 2 ^ 30 }
    requires later { wheel.old.present ≤ time }
    requires plain_later { plain.old.present ≤ time }
    ensures held { IfOk result (λ _. held_in wheel.new.entries ≡ held_in wheel.old.entries + 1) }
    ensures plain_held { IfOk result (λ _. held_in plain.new.entries
        ≡ held_in plain.old.entries + 1) }
    ensures present { IfOk result (λ _. wheel.new.present ≡ wheel.old.present) }
    ensures plain_present { IfOk result (λ _. plain.new.present ≡ plain.old.present) }
{
    let node = wheel.schedule(alloc, time, payload)?;
    let other = plain.schedule(time, payload)?;
    wheel.schedule(alloc, time, 1)?;
    plain.schedule(time, 1)?;
    let taken = wheel.cancel(node);
    let plain_taken = plain.cancel(other);
    Ok(taken == payload && plain_taken == payload)
}

// Takes all that is held until the least time; the sum of the squares of its payloads.
fn due_of<L: Ledger>(wheel: &mut Wheel, time: u64, steps: &mut Steps<L>) -> u64
    requires { wheel.old.present ≤ time }
    ensures held { held_in wheel.new.entries ≤ held_in wheel.old.entries }
    ensures present { wheel.new.present ≤ time }
{
    let mut sum = 0u64;
    while let Some(next) = wheel.next_time(steps) {
        if next != time {
            break;
        }
        let Some(payload) = wheel.take_due(time, steps) else {
            break;
        };
        sum = sum.wrapping_add(payload.wrapping_mul(payload));
    }
    sum
}

// The same of the plain wheel.
fn plain_due_of(plain: &mut PlainWheel, time: u64) -> u64
    requires { plain.old.present ≤ time }
    ensures held { held_in plain.new.entries ≤ held_in plain.old.entries }
    ensures present { plain.new.present ≤ time }
{
    let mut sum = 0u64;
    while let Some(next) = plain.next_time() {
        if next != time {
            break;
        }
        let Some(payload) = plain.take_due(time) else {
            break;
        };
        sum = sum.wrapping_add(payload.wrapping_mul(payload));
    }
    sum
}

// Takes all that is held until the least time; the present time after it, and `None` where the
// wheels don't answer the same.
fn take_both<L: Ledger>(
    wheel: &mut Wheel,
    plain: &mut PlainWheel,
    now: u64,
    steps: &mut Steps<L>,
) -> Option<u64>
    requires later { wheel.old.present ≤ now }
    requires plain_later { plain.old.present ≤ now }
    ensures later { IfSome result (λ t. wheel.new.present ≤ t) }
    ensures plain_later { IfSome result (λ t. plain.new.present ≤ t) }
    ensures held { held_in wheel.new.entries ≤ held_in wheel.old.entries }
    ensures plain_held { held_in plain.new.entries ≤ held_in plain.old.entries }
{
    let Some(time) = wheel.next_time(steps) else {
        return match plain.next_time() {
            None => Some(now),
            Some(_) => None,
        };
    };
    let other = plain.next_time()?;
    if other != time {
        return None;
    }
    let sum = due_of(wheel, time, steps);
    if plain_due_of(plain, time) == sum {
        Some(time)
    } else {
        None
    }
}

// Makes the same random calls of both wheels; how many are answered the same.
fn calls_alike<L: Ledger>(alloc: Global, blank: Blank) -> Result<u32, NoMemory>
    requires name { blank.name ≡ L.name }
    requires parts { blank.parts ≡ L.parts }
    requires some { 0 < blank.parts }
{
    let mut steps = Steps::<L>::new(blank);
    let mut wheel = Wheel::new(alloc)?;
    let mut plain = PlainWheel::new(alloc);
    let mut seed = 1;
    let mut now = 0;
    for call in 0..100_000u32 {
        seed = next_random(seed);
        if now > u64::MAX / 2 {
            return Ok(call);
        }
        // More are held on the way up, and fewer on the way down.
        let most = if call % 64 < 32 { 5 } else { 0 };
        let kind = seed / 65_536 % 8;
        let time = now
            + next_random(seed) / [1, 256, 65_536, 16_777_216][(seed / 1024 % 4) as usize];
        if kind < most {
            wheel.schedule(alloc, time, seed)?;
            plain.schedule(time, seed)?;
        } else if kind == most {
            if !cancel_both(alloc, &mut wheel, &mut plain, time, seed)? {
                return Ok(call);
            }
        } else {
            let Some(next) = take_both(&mut wheel, &mut plain, now, &mut steps) else {
                return Ok(call);
            };
            now = next;
        }
    }
    Ok(100_000)
}

// Both wheels answer the same.
#[test]
fn wheels_are_alike(rt: HostRuntime) -> Result<(), Fail> {
    assert!(rt; calls_alike::<Brand>(rt.alloc(), Blank::new(1))? == 100_000);
    Ok(())
}

// Gives a value to both bodies of slots: its two keys, and else whether both are full and hand it
// back.
fn give_both(
    alloc: Global,
    slots: &mut Slots<u64>,
    plain: &mut PlainSlots<u64>,
    value: u64,
) -> Result<(Key, Key), bool>
    requires few { length slots.old.cells < 2 ^ 31 }
    requires plain_few { length plain.old.cells < 2 ^ 31 }
{
    let given = slots.give(alloc, value);
    let plain_given = plain.give(value);
    match given {
        Ok(key) => match plain_given {
            Ok(other) => Ok((key, other)),
            Err(_) => Err(false),
        },
        Err(GiveFault::Full(back)) => match plain_given {
            Err(GiveFault::Full(other)) => Err(back == value && other == value),
            _ => Err(false),
        },
        Err(GiveFault::NoMemory(_)) => Err(false),
    }
}

// Makes one call of both with the keys of one value; is it answered the same?
fn is_alike(
    slots: &mut Slots<u64>,
    plain: &mut PlainSlots<u64>,
    keys: (Key, Key),
    kind: u64,
    value: u64,
) -> bool {
    let (key, other) = keys;
    match kind {
        1 => slots.take(key) == plain.take(other),
        2 => slots.replace(key, value) == plain.replace(other, value),
        _ => slots.get(key).copied() == plain.get(other).copied(),
    }
}

// Makes the same random calls of both bodies of slots; how many are answered the same.
fn slots_alike(alloc: Global, limit: u32, first: u32) -> Result<u32, NoMemory> {
    let mut slots = Slots::new(alloc, limit, first);
    let mut plain = PlainSlots::new(alloc, limit, first);
    // The keys of 64 values at most, of those that were taken too.
    let mut keys = Vec::new(alloc);
    let mut seed = 1;
    for call in 0..100_000u32 {
        seed = next_random(seed);
        let kind = seed / 65_536 % 4;
        if kind == 0 {
            if keys.len() >= 64 {
                let pair = keys.swap_remove((seed / 4 % 64) as usize);
                if !is_alike(&mut slots, &mut plain, pair, 1, seed) {
                    return Ok(call);
                }
            }
            if slots.slots() > 100_000 || plain.slots() > 100_000 {
                return Ok(call);
            }
            match give_both(alloc, &mut slots, &mut plain, seed) {
                Ok(pair) => keys.push(pair)?,
                Err(true) => {}
                Err(false) => return Ok(call),
            }
        } else if !keys.is_empty() {
            let pair = keys[(seed / 4) as usize % keys.len()];
            if !is_alike(&mut slots, &mut plain, pair, kind, seed) {
                return Ok(call);
            }
        }
    }
    Ok(100_000)
}

// Both bodies of slots answer the same: where no slot is retired, and where each is after 16 keys.
#[test]
fn slots_are_alike(rt: HostRuntime) -> Result<(), Fail> {
    assert!(rt; slots_alike(rt.alloc(), 8, 0)? == 100_000);
    assert!(rt; slots_alike(rt.alloc(), 8, u32::MAX - 15)? == 100_000);
    Ok(())
}

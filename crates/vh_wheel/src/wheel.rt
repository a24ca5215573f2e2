ghost use Rattle.std.specs.Prelude.{ℕ, ◌≡◌, ◌<◌, ◌≤◌, ◌+◌, ◌^◌, [], None, Some, true, false, length, slice_set, IfOk, OnErr, IfSome};
ghost use Rattle.vh_wheel.specs.Schedule.{entry_at, is_held, held_in, least_time, payload_of, after_cancel, until, Schedules, Takes, moves_of, moves_left};
ghost use Rattle.vh_wheel.specs.Views.{node_at, bucket_at, with_bucket, AreFrom, entries_of, ArePlaced, AreLater, AreMoving, moves_of_all};

use crate::bucket::{FREE, bucket_of};
use crate::buckets::Buckets;
use crate::node::Node;
use std::alloc::Global;
use std::marker::Model;
use std::sync::ledger::Ledger;
use vh_base::{NoMemory, Steps};

/// What is held until its time. Contracts see the time and the payload under each held node, and
/// the present time, which is the last one that was given to [`Wheel::take_due`], and 0 at first.
#[derive(Drop)]
pub struct Wheel {
    buckets: Buckets,
    present: u64,
}

impl Model for Wheel {
    ghost use Rattle.vh_wheel.specs.Schedule.{Schedule};
    ghost use Rattle.vh_wheel.specs.Views.{schedule_in, ArePlaced};

    ghost Value = { Schedule };

    ghost view = { λ w. schedule_in w.buckets w.present };

    ghost invariant = { λ w. ArePlaced w.present w.buckets };
}

impl Wheel {
    /// Nothing is held, and the present time is 0.
    pub fn new(alloc: Global) -> Result<Wheel, NoMemory>
        ensures { IfOk result (λ w. w ≡ record { entries = []; present = 0 }) }
    {
        let buckets = Buckets::new(alloc)?;
        Ok(Wheel {
            buckets,
            present: 0,
        })
    }

    /// Holds a payload until a time; the node under which it is held.
    pub fn schedule(&mut self, alloc: Global, time: u64, payload: u64) -> Result<u32, NoMemory>
        requires few { held_in self.old.entries < 2 ^ 31 }
        requires later { self.old.present ≤ time }
        ensures scheduled { IfOk result (λ x. Schedules x (until time payload) self.old self.new) }
        ensures held { IfOk result (λ _. held_in self.new.entries ≡ held_in self.old.entries + 1) }
        ensures left { moves_of self.old.present time ≤ 8 }
        ensures moves { IfOk result (λ _. moves_left self.new ≤ moves_left self.old + 8) }
        ensures kept { OnErr result (self.new ≡ self.old) }
    {
        let bucket = bucket_of(self.present, time);
        let node = Node {
            time,
            payload,
            bucket,
        };
        if let Some(free) = self.buckets.first(FREE) {
            self.buckets.put(free, node);
            return Ok(free);
        }
        self.buckets.add(alloc, node)
    }

    /// Takes what is held under a node; its payload.
    pub fn cancel(&mut self, node: u32) -> u64
        requires { is_held (entry_at node self.old.entries) ≡ true }
        ensures payload { payload_of (entry_at node self.old.entries) ≡ Some result }
        ensures cancelled { self.new ≡ after_cancel node self.old }
        ensures held { held_in self.new.entries + 1 ≡ held_in self.old.entries }
    {
        free(&mut self.buckets, node)
    }

    /// The least time of what is held; `None` where nothing is held. It looks at 32 words and one
    /// bucket at most, and goes over the nodes of that one where it has more than one time.
    pub fn next_time<L: Ledger>(&self, steps: &mut Steps<L>) -> Option<u64>
        ensures time { result ≡ least_time self.now.entries }
        ensures later { IfSome result (λ t. self.now.present ≤ t) }
        ensures steps { steps.new ≤ steps.old + 2048 }
    {
        let first = self.buckets.first_held(steps)?;
        let node = self.buckets.get(first);
        if node.bucket < 256 {
            return Some(node.time);
        }
        Some(self.buckets.least(first))
    }

    /// Takes one of what is held until a time, which is the present time from then on; its payload,
    /// and `None` where nothing is held until that time. It takes time in the number of nodes that
    /// it moves.
    pub fn take_due<L: Ledger>(&mut self, time: u64, steps: &mut Steps<L>) -> Option<u64>
        requires later { self.old.present ≤ time }
        requires least { IfSome (least_time self.old.entries) (λ t. time ≤ t) }
        ensures taken { Takes time result self.old self.new }
        ensures held { IfSome result
            (λ _. held_in self.new.entries + 1 ≡ held_in self.old.entries) }
        ensures steps { steps.new + moves_left self.new ≤ steps.old + 2048 + moves_left self.old }
        ensures each { (t : ℕ) → time ≤ t → moves_of time t ≤ moves_of self.old.present t }
    {
        advance(&mut self.buckets, self.present, time, steps);
        self.present = time;
        steps.tick();
        let due = self.buckets.first((time % 256) as u32)?;
        Some(free(&mut self.buckets, due))
    }
}

// Frees a node; the payload that it had.
fn free(buckets: &mut Buckets, number: u32) -> u64
    requires { number < length buckets.old }
    ensures payload { result ≡ (node_at buckets.old number).payload }
    ensures freed { buckets.new ≡
        slice_set buckets.old number (with_bucket 2048 (node_at buckets.old number)) }
{
    let node = buckets.get(number);
    buckets.put(
        number,
        Node {
            time: node.time,
            payload: node.payload,
            bucket: FREE,
        },
    );
    node.payload
}

// Gives each node its position at a new present time.
fn advance<L: Ledger>(buckets: &mut Buckets, now: u64, time: u64, steps: &mut Steps<L>)
    requires now { now ≤ time }
    requires later { AreLater time buckets.old }
    requires placed { ArePlaced now buckets.old }
    ensures entries { entries_of buckets.new ≡ entries_of buckets.old }
    ensures placed { ArePlaced time buckets.new }
    ensures steps { steps.new + moves_of_all buckets.new ≤ steps.old + 1 + moves_of_all
        buckets.old }
{
    steps.tick();
    let bucket = bucket_of(now, time);
    if bucket >= 256 {
        move_down(buckets, bucket, time, steps);
    }
}

// Moves the nodes of a bucket to those of their times, seen from a new present time.
fn move_down<L: Ledger>(buckets: &mut Buckets, from: u32, time: u64, steps: &mut Steps<L>)
    requires low { 256 ≤ from }
    requires high { from < 2048 }
    requires moving { AreMoving time from buckets.old }
    ensures entries { entries_of buckets.new ≡ entries_of buckets.old }
    ensures placed { ArePlaced time buckets.new }
    ensures steps { steps.new + moves_of_all buckets.new ≤ steps.old + moves_of_all buckets.old }
{
    while let Some(number) = buckets.first(from) {
        let node = buckets.get(number);
        let bucket = bucket_of(time, node.time);
        buckets.put(
            number,
            Node {
                time: node.time,
                payload: node.payload,
                bucket,
            },
        );
        steps.tick();
    }
}

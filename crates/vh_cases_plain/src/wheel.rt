ghost use Rattle.std.specs.Prelude.{ℕ, ◌≡◌, ◌≢◌, ◌<◌, ◌≤◌, ◌+◌, ◌^◌, [], None, Some, true, length, IfOk, OnErr, IfSome};
ghost use Rattle.vh_wheel.specs.Schedule.{entry_at, is_held, is_of, held_in, least_time, sooner, payload_of, after_cancel, until, Schedules, Takes};
ghost use Rattle.vh_cases_plain.specs.Views.{entry_of};

use std::alloc::Global;
use std::collections::BTreeMap;
use std::marker::Model;
use vh_base::NoMemory;

// What is held under a node.
#[derive(Clone, Copy, Drop)]
pub struct Held {
    pub time: u64,
    pub payload: u64,
}

/// What is held until its time, in an ordered map from the nodes. Contracts see what they see of
/// `vh_wheel::Wheel`.
#[derive(Drop)]
pub struct PlainWheel {
    held: BTreeMap<u32, Held, Global>,
    nodes: u32,
    present: u64,
}

impl Model for PlainWheel {
    ghost use Rattle.vh_wheel.specs.Schedule.{Schedule};
    ghost use Rattle.vh_cases_plain.specs.Views.{schedule_in, under, IsKept};

    ghost Value = { Schedule };

    ghost view = { λ w. schedule_in w.nodes w.present (under w.held) };

    ghost invariant = { λ w. IsKept w.nodes w.present (under w.held) };
}

impl PlainWheel {
    /// Nothing is held, and the present time is 0.
    pub fn new(alloc: Global) -> PlainWheel
        ensures { result ≡ record { entries = []; present = 0 } }
    {
        PlainWheel {
            held: BTreeMap::new(alloc),
            nodes: 0,
            present: 0,
        }
    }

    /// Holds a payload until a time; the node under which it is held, the first that is free.
    pub fn schedule(&mut self, time: u64, payload: u64) -> Result<u32, NoMemory>
        requires few { held_in self.old.entries < 2 ^ 31 }
        requires later { self.old.present ≤ time }
        ensures scheduled { IfOk result (λ x. Schedules x (until time payload) self.old self.new) }
        ensures held { IfOk result (λ _. held_in self.new.entries ≡ held_in self.old.entries + 1) }
        ensures kept { OnErr result (self.new ≡ self.old) }
    {
        let node = self.free_node();
        match self.held.insert(node, Held { time, payload }) {
            Ok(_) => {}
            Err(_) => return Err(NoMemory),
        }
        self.nodes = self.nodes.max(node + 1);
        Ok(node)
    }

    /// Takes what is held under a node; its payload.
    pub fn cancel(&mut self, node: u32) -> u64
        requires { is_held (entry_at node self.old.entries) ≡ true }
        ensures payload { payload_of (entry_at node self.old.entries) ≡ Some result }
        ensures cancelled { self.new ≡ after_cancel node self.old }
        ensures held { held_in self.new.entries + 1 ≡ held_in self.old.entries }
    {
        let Some(held) = self.held.remove(&node) else {
            unreachable!();
        };
        held.payload
    }

    /// The least time of what is held; `None` where nothing is held.
    pub fn next_time(&self) -> Option<u64>
        ensures time { result ≡ least_time self.now.entries }
        ensures later { IfSome result (λ t. self.now.present ≤ t) }
    {
        let mut least = None;
        let mut node = self.nodes;
        while node > 0 {
            node -= 1;
            if let Some(held) = self.held_at(node) {
                least = Some(sooner(held.time, least));
            }
        }
        least
    }

    /// Takes the first of what is held until a time, which is the present time from then on; its
    /// payload, and `None` where nothing is held until that time.
    pub fn take_due(&mut self, time: u64) -> Option<u64>
        requires later { self.old.present ≤ time }
        requires least { IfSome (least_time self.old.entries) (λ t. time ≤ t) }
        ensures taken { Takes time result self.old self.new }
        ensures held { IfSome result
            (λ _. held_in self.new.entries + 1 ≡ held_in self.old.entries) }
    {
        let due = self.first_due(time);
        self.present = time;
        Some(self.cancel(due?))
    }

    // What is held under a node.
    fn held_at(&self, node: u32) -> Option<Held>
        ensures { entry_of result ≡ entry_at node self.now.entries }
    {
        self.held.get(&node).copied()
    }

    // The first node that is free, which may be a new one.
    fn free_node(&self) -> u32
        ensures free { entry_at result self.now.entries ≡ None }
        ensures within { result ≤ length self.now.entries }
        ensures first { (x : ℕ) → x < result → is_held (entry_at x self.now.entries) ≡ true }
    {
        for node in 0..self.nodes {
            if self.held_at(node).is_none() {
                return node;
            }
        }
        self.nodes
    }

    // The first node under which something is held until a time; `None` where none is.
    fn first_due(&self, time: u64) -> Option<u32>
        ensures some { IfSome result (λ x. is_of time (entry_at x self.now.entries) ≡ true) }
        ensures none { result ≡ None → (x : ℕ) → is_of time (entry_at x self.now.entries) ≢ true }
    {
        for node in 0..self.nodes {
            if let Some(held) = self.held_at(node)
                && held.time == time
            {
                return Some(node);
            }
        }
        None
    }
}

// The less of a time and of one that there may be.
fn sooner(time: u64, other: Option<u64>) -> u64
    ensures { result ≡ sooner time other }
{
    match other {
        None => time,
        Some(other) => time.min(other),
    }
}

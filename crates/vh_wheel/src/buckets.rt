ghost use Rattle.std.specs.Prelude.{◌≡◌, ◌≢◌, ◌<◌, ◌≤◌, ◌+◌, ◌^◌, ◌++◌, ◌∷◌, [], ℕ, None, length, slice_index_or, slice_set, IfOk, IfSome, OnErr};
ghost use Rattle.vh_wheel.specs.Views.{nowhere, bucket_at, flag_at, list_flag, AreFrom, IsLeast};

use crate::bucket::FREE;
use crate::node::Node;
use crate::occupied::Occupied;
use std::alloc::Global;
use std::marker::Model;
use std::sync::ledger::Ledger;
use vh_base::{NoMemory, Steps};
use vh_links::Links;

// The nodes, each in the list of its bucket, and which buckets have nodes. Contracts see the nodes.
#[derive(Drop)]
pub struct Buckets {
    links: Links,
    occupied: Occupied,
    nodes: Vec<Node>,
}

impl Model for Buckets {
    ghost use Rattle.std.specs.Prelude.{List};
    ghost use Rattle.vh_wheel.specs.declared.node.Node.{Node};
    ghost use Rattle.vh_wheel.specs.Views.{IsKept};

    ghost Value = { List Node };

    ghost view = { λ b. b.nodes.items };

    ghost invariant = { λ b. IsKept b.occupied b.links b.nodes.items };
}

impl Buckets {
    // No node.
    pub fn new(alloc: Global) -> Result<Buckets, NoMemory>
        ensures { IfOk result (λ b. b ≡ []) }
    {
        let links = Links::new(alloc, FREE + 1)?;
        Ok(Buckets {
            links,
            occupied: Occupied::new(),
            nodes: Vec::new(alloc),
        })
    }

    // A node more.
    pub fn add(&mut self, alloc: Global, node: Node) -> Result<u32, NoMemory>
        requires few { length self.old < 2 ^ 31 }
        requires bucket { node.bucket < 2049 }
        ensures number { IfOk result (λ x. x ≡ length self.old) }
        ensures added { IfOk result (λ _. self.new ≡ self.old ++ node ∷ []) }
        ensures kept { OnErr result (self.new ≡ self.old) }
    {
        self.nodes.reserve(1)?;
        let number = self.links.add_node(alloc)?;
        self.links.push_back(node.bucket, number);
        self.occupied.set(node.bucket);
        self.nodes.push_reserved(node);
        Ok(number)
    }

    // Another node in a node's position.
    pub fn put(&mut self, number: u32, node: Node)
        requires number { number < length self.old }
        requires bucket { node.bucket < 2049 }
        ensures { self.new ≡ slice_set self.old number node }
    {
        let from = self.get(number).bucket;
        self.links.unlink(number);
        self.links.push_back(node.bucket, number);
        self.occupied.set(node.bucket);
        clear_if_empty(&mut self.occupied, &self.links, from);
        self.nodes[number as usize] = node;
    }

    // A node.
    pub fn get(&self, number: u32) -> Node
        requires { number < length self.now }
        ensures { result ≡ slice_index_or self.now number nowhere }
    {
        self.nodes[number as usize]
    }

    // The first node of a bucket; `None` where it is empty.
    pub fn first(&self, bucket: u32) -> Option<u32>
        requires { bucket < 2049 }
        ensures some { IfSome result (λ x. (x < length self.now) ×
            (bucket_at self.now x ≡ bucket)) }
        ensures none { result ≡ None → (x : ℕ) → x < length self.now →
            bucket_at self.now x ≢ bucket }
    {
        self.links.first(bucket)
    }

    // The first node of the first bucket of the levels that has nodes; `None` where none has.
    pub fn first_held<L: Ledger>(&self, steps: &mut Steps<L>) -> Option<u32>
        ensures some { IfSome result (λ x. x < length self.now) }
        ensures held { IfSome result (λ x. bucket_at self.now x < 2048) }
        ensures first { IfSome result (λ x. AreFrom (bucket_at self.now x) self.now) }
        ensures none { result ≡ None → AreFrom 2048 self.now }
        ensures steps { steps.new ≤ steps.old + 33 }
    {
        let bucket = self.occupied.first(steps)?;
        steps.tick();
        self.links.first(bucket)
    }

    // The least time of the nodes that stand in the bucket of this one.
    pub fn least(&self, number: u32) -> u64
        requires { number < length self.now }
        ensures { IsLeast (bucket_at self.now number) self.now result }
    {
        let first = self.get(number);
        let mut least = first.time;
        let mut at = self.links.first(first.bucket);
        while let Some(number) = at {
            let time = self.get(number).time;
            if time < least {
                least = time;
            }
            at = self.links.next(number);
        }
        least
    }
}

// Says of a bucket that it has no nodes, where it lost its last one.
fn clear_if_empty(occupied: &mut Occupied, links: &Links, bucket: u32)
    requires bucket { bucket < 2049 }
    requires lists { length links.now.lists ≡ 2049 }
    requires set { flag_at occupied.old bucket ≡ 1 }
    ensures there { flag_at occupied.new bucket ≡ list_flag bucket links.now }
    ensures others { (b : ℕ) → b ≢ bucket → flag_at occupied.new b ≡ flag_at occupied.old b }
{
    if links.first(bucket).is_none() {
        occupied.clear(bucket);
    }
}

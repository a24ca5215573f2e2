ghost use Rattle.std.specs.Prelude.{◌≡◌, ◌<◌, ◌+◌, ◌-◌, ◌^◌, [], true, false, List, length, replicate, IfOk, OnErr};
ghost use Rattle.std.specs.List.{slice_get};
ghost use Rattle.vh_links.specs.Lists.{Lists, is_linked, list_of, after_add, after_push, after_unlink, after_move, next_of};
ghost use Rattle.vh_links.specs.Views.{Joins, AreRings, node_of};

use std::alloc::Global;
use std::marker::Model;
use vh_base::NoMemory;

// The positions before and behind one.
#[derive(Clone, Copy, Drop)]
struct Link {
    prev: usize,
    next: usize,
}

/// The lists of all anchors. Contracts see the list of node numbers of each anchor, and the number
/// of nodes.
#[derive(Drop)]
pub struct Links {
    anchors: usize,
    links: Vec<Link>,
}

impl Model for Links {
    ghost use Rattle.vh_links.specs.Lists.{Lists};
    ghost use Rattle.vh_links.specs.Views.{lists_in, Holds};

    ghost Value = { Lists };

    ghost view = { λ k. lists_in k.anchors k.links.items };

    ghost invariant = { λ k. Holds k.anchors k.links.items (lists_in k.anchors k.links.items) };
}

impl Links {
    /// An empty list for each anchor, and no node. It takes time in the number of anchors.
    pub fn new(alloc: Global, anchors: u32) -> Result<Links, NoMemory>
        ensures { IfOk result (λ k. k ≡ record { lists = replicate anchors []; nodes = 0 }) }
    {
        let anchors = anchors as usize;
        let links = rings(alloc, anchors)?;
        Ok(Links { anchors, links })
    }

    /// One node more, in no list; the number of nodes before it, which is its own.
    pub fn add_node(&mut self, alloc: Global) -> Result<u32, NoMemory>
        requires { self.old.nodes < 2 ^ 32 - 1 }
        ensures number { IfOk result (λ x. x ≡ self.old.nodes) }
        ensures added { IfOk result (λ _. self.new ≡ after_add self.old) }
        ensures kept { OnErr result (self.new ≡ self.old) }
    {
        let position = self.links.len();
        self.links.push(Link {
            prev: position,
            next: position,
        })?;
        Ok((position - self.anchors) as u32)
    }

    /// Appends a node that is in no list.
    pub fn push_back(&mut self, anchor: u32, node: u32)
        requires anchor { anchor < length self.old.lists }
        requires node { node < self.old.nodes }
        requires free { is_linked node self.old ≡ false }
        ensures { self.new ≡ after_push anchor node self.old }
    {
        let anchor = anchor as usize;
        let position = self.anchors + node as usize;
        let last = self.links[anchor].prev;
        join(&mut self.links, last, position);
        join(&mut self.links, position, anchor);
    }

    /// Takes a node out of its list.
    pub fn unlink(&mut self, node: u32)
        requires { is_linked node self.old ≡ true }
        ensures { self.new ≡ after_unlink node self.old }
    {
        let position = self.anchors + node as usize;
        let link = self.links[position];
        join(&mut self.links, link.prev, link.next);
    }

    /// Appends the list of `from` to that of `to`, and empties it; nothing where they are one.
    pub fn move_all(&mut self, from: u32, to: u32)
        requires from { from < length self.old.lists }
        requires to { to < length self.old.lists }
        ensures { self.new ≡ after_move from to self.old }
    {
        let from = from as usize;
        let to = to as usize;
        let moved = self.links[from];
        if from == to || moved.next == from {
            return;
        }
        let last = self.links[to].prev;
        join(&mut self.links, last, moved.next);
        join(&mut self.links, moved.prev, to);
        join(&mut self.links, from, from);
    }

    /// The first node of a list; `None` where it is empty.
    pub fn first(&self, anchor: u32) -> Option<u32>
        requires { anchor < length self.now.lists }
        ensures { result ≡ slice_get (list_of anchor self.now) 0 }
    {
        node_at(self.anchors, self.links[anchor as usize].next)
    }

    /// The node behind one that is in a list; `None` where it is the last.
    pub fn next(&self, node: u32) -> Option<u32>
        requires { is_linked node self.now ≡ true }
        ensures { result ≡ next_of node self.now }
    {
        let position = self.anchors + node as usize;
        node_at(self.anchors, self.links[position].next)
    }
}

// A ring of its own for each of these positions.
fn rings(alloc: Global, count: usize) -> Result<Vec<Link>, NoMemory>
    ensures { IfOk result (λ ls. AreRings count ls.items) }
{
    let mut links = Vec::with_capacity(alloc, count)?;
    for i in 0..count {
        links.push(Link { prev: i, next: i })?;
    }
    Ok(links)
}

// Links a position to another, in both ways.
fn join(links: &mut Vec<Link>, i: usize, j: usize)
    requires left { i < length links.old.items }
    requires right { j < length links.old.items }
    ensures { Joins i j links.old.items links.new.items }
{
    links[i].next = j;
    links[j].prev = i;
}

// The node at a position; `None` where an anchor stands there.
fn node_at(anchors: usize, position: usize) -> Option<u32>
    requires { position < anchors + 2 ^ 32 }
    ensures { result ≡ node_of anchors position }
{
    if position < anchors {
        None
    } else {
        Some((position - anchors) as u32)
    }
}

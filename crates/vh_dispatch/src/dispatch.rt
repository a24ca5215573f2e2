ghost use Rattle.std.specs.Prelude.{◌≡◌, ◌==◌, ◌<◌, ◌≤◌, ℕ, List, [], ◌∷◌, true, if◌then◌else◌, nat_le, length, drop, slice_get, reverse, IfOk, IfSome, IfNone, OnOk, OnErr};
ghost use Rattle.vh_callbacks.specs.Callbacks.{matching, matches, is_live};
ghost use Rattle.vh_callbacks.specs.Marks.{marked};
ghost use Rattle.vh_dispatch.specs.Frames.{stack_of, top_set, without_in_top, begun_of, framed, depth_of};

use std::alloc::Global;
use std::marker::Model;
use vh_base::{CbNumber, MOST_FRAMES, NoMemory, Object, Reason};
use vh_callbacks::Registry;

/// What telling an occurrence comes to.
#[derive(Clone, Copy, Debug, PartialEq, Eq)]
pub enum Begun {
    /// Its frame is on top now.
    Frame,
    /// No live callback watches it; nothing has changed.
    Nothing,
    /// Some watch it, but 64 frames stand; nothing has changed.
    TooDeep,
}

/// The frames that stand, which contracts see as their numbers, the top first. Their sets are
/// the registry's, by depth.
#[derive(Drop)]
pub struct Dispatch {
    // the top last
    frames: Vec<u64, Global>,
}

impl Model for Dispatch {
    ghost use Rattle.std.specs.Prelude.{ℕ, List, ◌≤◌, reverse, length};
    ghost use Rattle.vh_base.specs.declared.limits.TheConstants.{MOST_FRAMES};

    ghost Value = { List ℕ };

    ghost view = { λ d. reverse d.frames.items };

    ghost invariant = { λ d. length d.frames.items ≤ MOST_FRAMES };
}

impl Dispatch {
    /// No frame. It takes the room of all that may stand.
    pub fn new(alloc: Global) -> Result<Dispatch, NoMemory>
        ensures { IfOk result (λ d. d ≡ []) }
    {
        let frames = Vec::with_capacity(alloc, MOST_FRAMES)?;
        Ok(Dispatch { frames })
    }

    /// How many frames stand: [`MOST_FRAMES`] at most.
    pub fn len(&self) -> usize
        ensures len { result ≡ length self.now }
        ensures bound { result ≤ MOST_FRAMES }
    {
        self.frames.len()
    }

    /// Does no frame stand?
    pub fn is_empty(&self) -> bool
        ensures { result ≡ (length self.now == 0) }
    {
        self.frames.is_empty()
    }

    /// Tells an occurrence under this number: its frame is on top, with those that watch it.
    pub fn begin<B: Drop>(
        &mut self,
        alloc: Global,
        r: &mut Registry<B>,
        n: u64,
        reason: Reason,
        o: Option<Object>,
    ) -> Result<Begun, NoMemory>
        ensures answer { IfOk result (λ b. b
            ≡ begun_of (matches reason o r.old.callbacks) (nat_le MOST_FRAMES (length self.old))) }
        ensures numbers { IfOk result (λ b. self.new ≡ framed b (n ∷ self.old) self.old) }
        ensures sets { IfOk result (λ b. stack_of self.new r.new
            ≡ framed b (matching reason o r.old.callbacks ∷ stack_of self.old r.old)
            (stack_of self.old r.old)) }
        ensures callbacks { r.new.callbacks ≡ r.old.callbacks }
        ensures kept { OnErr result (self.new ≡ self.old) }
        ensures sets_kept { OnErr result (stack_of self.new r.new ≡ stack_of self.old r.old) }
    {
        // a copy of its own, which the prover asks for
        let asked = o;
        if !r.matches(reason, asked) {
            return Ok(Begun::Nothing);
        }
        if self.len() >= MOST_FRAMES {
            return Ok(Begun::TooDeep);
        }
        self.begin_all(alloc, r, n, reason, o)?;
        Ok(Begun::Frame)
    }

    /// A frame under this number is on top, with those that have this reason and this object, be
    /// there some or none: for who has looked that there is room.
    pub fn begin_all<B: Drop>(
        &mut self,
        alloc: Global,
        r: &mut Registry<B>,
        n: u64,
        reason: Reason,
        o: Option<Object>,
    ) -> Result<(), NoMemory>
        requires { length self.old < MOST_FRAMES }
        ensures numbers { OnOk result (self.new ≡ n ∷ self.old) }
        ensures sets { OnOk result (stack_of self.new r.new
            ≡ matching reason o r.old.callbacks ∷ stack_of self.old r.old) }
        ensures callbacks { r.new.callbacks ≡ r.old.callbacks }
        ensures kept { OnErr result (self.new ≡ self.old) }
        ensures sets_kept { OnErr result (stack_of self.new r.new ≡ stack_of self.old r.old) }
    {
        let depth = self.len() as u32;
        r.clear_marks(depth);
        r.mark_all(alloc, depth, reason, o)?;
        self.push(n)
    }

    /// A frame under this number is on top, with one callback that is live.
    pub fn begin_one<B: Drop>(
        &mut self,
        alloc: Global,
        r: &mut Registry<B>,
        n: u64,
        c: CbNumber,
    ) -> Result<(), NoMemory>
        requires live { is_live c r.old.callbacks ≡ true }
        requires few { length self.old < MOST_FRAMES }
        ensures numbers { OnOk result (self.new ≡ n ∷ self.old) }
        ensures sets { OnOk result (stack_of self.new r.new ≡ (c ∷ []) ∷ stack_of self.old r.old) }
        ensures callbacks { r.new.callbacks ≡ r.old.callbacks }
        ensures kept { OnErr result (self.new ≡ self.old) }
        ensures sets_kept { OnErr result (stack_of self.new r.new ≡ stack_of self.old r.old) }
    {
        let depth = self.len() as u32;
        r.clear_marks(depth);
        r.mark_one(alloc, depth, c)?;
        self.push(n)
    }

    // Puts a number on top.
    fn push(&mut self, n: u64) -> Result<(), NoMemory>
        requires { length self.old < MOST_FRAMES }
        ensures ok { OnOk result (self.new ≡ n ∷ self.old) }
        ensures kept { OnErr result (self.new ≡ self.old) }
    {
        self.frames.push(n)?;
        Ok(())
    }

    /// How many callbacks are still to fire for the top frame; 0 where no frame stands.
    pub fn choices<B: Drop>(&self, r: &Registry<B>) -> u32
        ensures { result ≡ length (top_set (stack_of self.now r.now)) }
    {
        match self.top() {
            Some(depth) => r.marked(depth),
            None => 0,
        }
    }

    /// Takes the k-th callback out of the top frame's set, by number from 0; none where there
    /// are not so many.
    pub fn next<B: Drop>(&mut self, r: &mut Registry<B>, k: u32) -> Option<CbNumber>
        ensures taken { result ≡ slice_get (top_set (stack_of self.old r.old)) k }
        ensures left { IfSome result (λ c. stack_of self.new r.new
            ≡ without_in_top c (stack_of self.old r.old)) }
        ensures kept { IfNone result (stack_of self.new r.new ≡ stack_of self.old r.old) }
        ensures numbers { self.new ≡ self.old }
        ensures callbacks { r.new.callbacks ≡ r.old.callbacks }
    {
        let depth = self.top()?;
        r.take_marked(depth, k)
    }

    /// The top frame goes, with what is left of its set; nothing where no frame stands.
    pub fn finish<B: Drop>(&mut self, r: &mut Registry<B>)
        ensures numbers { self.new ≡ drop 1 self.old }
        ensures sets { stack_of self.new r.new ≡ drop 1 (stack_of self.old r.old) }
        ensures marks { (d : ℕ) → marked d r.new
            ≡ (if d == length self.new then [] else marked d r.old) }
        ensures callbacks { r.new.callbacks ≡ r.old.callbacks }
    {
        self.pop();
        r.clear_marks(self.len() as u32);
    }

    // The top number goes, where there is one.
    fn pop(&mut self)
        ensures { self.new ≡ drop 1 self.old }
    {
        let _ = self.frames.pop();
    }

    /// All frames go, with what is left of their sets.
    pub fn clear<B: Drop>(&mut self, r: &mut Registry<B>)
        ensures numbers { self.new ≡ [] }
        ensures cleared { (d : ℕ) → d < length self.old → marked d r.new ≡ [] }
        ensures callbacks { r.new.callbacks ≡ r.old.callbacks }
    {
        'frames: while !self.is_empty() {
            self.finish(r);
        }
    }

    // The depth of the top frame.
    fn top(&self) -> Option<u32>
        ensures { result ≡ depth_of self.now }
    {
        let depth = self.frames.len().checked_sub(1)?;
        Some(depth as u32)
    }
}

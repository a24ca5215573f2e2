use crate::updates::Updates;
use vh_base::{ProcId, Serial};
use vh_design::Made;
use vh_logic::Vec4;
use vh_proc_assign::Piece;
use vh_proc_thread::Thread;

/// A process of the simulation.
#[derive(Drop)]
pub struct Process {
    /// What it has still to do.
    pub thread: Thread,
    /// The process whose `fork` began it, where it is a branch.
    pub parent: Option<ProcId>,
    /// How many branches of the `fork` at which it stands haven't ended.
    pub left: u64,
    /// The value of a blocking assignment between its two labels.
    pub held: Option<Vec4>,
    /// The serial of its last evaluation entry.
    pub entry: Option<Serial>,
    /// The last updates of its drivers, where it is a continuous assignment.
    pub updates: Updates,
}

/// Room for what a label assigns and what that changes, which is kept from label to label.
#[derive(Drop)]
pub struct Room {
    pub pieces: Vec<Piece>,
    pub made: Vec<Made>,
}

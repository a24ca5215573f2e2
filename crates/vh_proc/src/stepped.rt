use vh_base::Sequence;
use vh_design::Made;
use vh_proc_turn::Next;

/// What a label changed, forced or released, in order, which contracts see as a list.
pub type MadeList = Sequence<Made>;

/// What a label of a process came to.
#[derive(Drop)]
pub struct Stepped {
    pub made: MadeList,
    pub next: Next,
}

// A node: its time, its payload, and the bucket whose list has it.
#[derive(Clone, Copy, Drop)]
pub struct Node {
    pub time: u64,
    pub payload: u64,
    pub bucket: u32,
}

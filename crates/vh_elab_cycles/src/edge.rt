/// An edge of a graph, by the numbers of its nodes.
#[derive(Clone, Copy)]
pub struct Edge {
    pub from: u32,
    pub to: u32,
}

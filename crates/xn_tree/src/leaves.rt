use crate::states::Given;
use xn_graph::Graph;
use xn_kinds::Row;

/// A leaf of a proof tree in its state.
#[derive(Clone, Copy)]
pub struct Leaf<'a> {
    /// The graph.
    pub graph: &'a Graph,
    /// The state.
    pub given: &'a Given,
    /// Rows of the graph.
    pub rows: &'a [Row],
    /// The numbers of rows, each with its multiplier.
    pub parts: &'a [(u32, u64)],
    /// The divisor.
    pub d: u64,
}

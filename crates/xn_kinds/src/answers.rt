ghost use Rattle.std.specs.Prelude.{◌≡◌, IfOk};

use crate::drawings::Drawing;
use crate::rows::Row;
use crate::trees::Tree;
use std::alloc::{AllocError, Global};
use xn_graph::Graph;
use xn_list::Sequence;

/// An answer: a graph, a drawing of it, and a proof that no drawing has fewer crossings than its lower bound.
#[derive(Debug, Drop)]
pub struct Answer {
    /// The graph, without the loops of the input.
    pub graph: Graph,
    /// How many loops of the input were left aside.
    pub loops: u64,
    /// What the proof shows: every drawing has at least so many crossings.
    pub lower: u32,
    /// The number of crossings of the drawing.
    pub upper: u32,
    /// How many tree nodes the search opened, at most `budget`.
    pub spent: u64,
    /// How many it might have opened, at most 200,000.
    pub budget: u64,
    /// The drawing.
    pub drawing: Drawing,
    /// The rows that the leaves of the tree name.
    pub rows: Sequence<Row>,
    /// The proof tree of the lower bound.
    pub tree: Tree,
}

impl Answer {
    /// The same answer again. It fails only for want of memory.
    pub fn copy(&self, alloc: Global) -> Result<Answer, AllocError>
        ensures { IfOk result (λ copy. copy ≡ self.now) }
    {
        let graph = self.graph.copy(alloc)?;
        let drawing = self.drawing.copy(alloc)?;
        let rows = copied_rows(alloc, self.rows.as_slice())?;
        let tree = self.tree.copy(alloc)?;
        Ok(Answer {
            graph,
            loops: self.loops,
            lower: self.lower,
            upper: self.upper,
            spent: self.spent,
            budget: self.budget,
            drawing,
            rows,
            tree,
        })
    }
}

// The same rows again.
fn copied_rows(alloc: Global, rows: &[Row]) -> Result<Sequence<Row>, AllocError>
    ensures { IfOk result (λ copy. copy ≡ rows.now) }
{
    let mut copies = Vec::with_capacity(alloc, rows.len())?;
    for row in rows {
        copies.push(row.copy(alloc)?)?;
    }
    Ok(Sequence::new(copies))
}

// Fewer edges whose web isn't likely to have a flat map. What is found is judged anew, so no clause speaks of
// it.
ghost use Rattle.std.specs.Prelude.{◌≡◌, length};
ghost use Rattle.xn_model.specs.Drawing.{order_of};
ghost use Rattle.xn_model.specs.Graph.{edges_of};
ghost use Rattle.xn_model.specs.Orders.{IsOrders};

use crate::costs::Costs;
use crate::judging::part_seems_flat;
use crate::planting::Rule;
use std::alloc::{AllocError, Global};
use xn_frac::Frac;
use xn_graph::Graph;
use xn_kinds::{Orders, Var};

/// More turns than halvings of a step can make, for at most 2^32 edges.
const HALVINGS: usize = 32;

/// Marks of edges whose web, with the crossings among them, isn't likely to have a flat map; none where the
/// web of all is.
///
/// The edges that cost most go together, a quarter of all at first; where the web of the rest seems flat they
/// come back, and half as many are tried. An edge that can't go alone stays. It fails only for want of
/// memory.
pub fn shrunk(
    alloc: Global,
    graph: &Graph,
    orders: &Orders,
    point: &[(Var, Frac)],
    rule: Rule,
) -> Result<Option<Vec<bool>>, AllocError>
    requires lists { length orders.now ≡ length graph.now.ends }
    requires orders { IsOrders graph.now.ends (edges_of graph.now) (order_of graph.now orders.now) }
{
    let edges = graph.edges() as usize;
    let all = vec![in alloc; true; edges]?;
    if part_seems_flat(alloc, graph, orders, all.as_slice())? {
        return Ok(None);
    }
    let costs = Costs::new(alloc, graph, point, rule)?;
    let mut left = Left::all(alloc, all, &costs)?;
    // Each turn takes out an edge, fixes one, or halves the step.
    for _ in 0..edges + HALVINGS {
        let heaviest = left.heaviest(alloc)?;
        if heaviest.is_empty() {
            break;
        }
        left.mark(heaviest.as_slice(), false);
        if part_seems_flat(alloc, graph, orders, left.kept.as_slice())? {
            left.put_back(heaviest.as_slice());
        } else {
            left.lighten(heaviest.as_slice(), &costs);
        }
    }
    let Left { kept, .. } = left;
    Ok(Some(kept))
}

// The edges that are left.
#[derive(Drop)]
struct Left {
    // Which edges are left.
    kept: Vec<bool>,
    // Which of them can't go.
    fixed: Vec<bool>,
    // What each edge costs with those that are left.
    weights: Vec<u64>,
    // How many go together.
    step: usize,
}

impl Left {
    // Edges that are all left, and may all go.
    fn all(alloc: Global, kept: Vec<bool>, costs: &Costs) -> Result<Left, AllocError> {
        let edges = kept.len();
        Ok(Left {
            kept,
            fixed: vec![in alloc; false; edges]?,
            weights: costs.weights(alloc)?,
            step: (edges / 4).max(1),
        })
    }

    // Those that may go and cost most, as many as go together.
    fn heaviest(&self, alloc: Global) -> Result<Vec<usize>, AllocError> {
        let mut candidates = Vec::new(alloc);
        for (e, weight) in self.weights.iter().enumerate() {
            if self.may_go(e) {
                candidates.push((*weight, e))?;
            }
        }
        candidates.sort_unstable();
        let mut heaviest = Vec::new(alloc);
        for (_, e) in candidates.iter().rev().take(self.step) {
            heaviest.push(*e)?;
        }
        Ok(heaviest)
    }

    // Whether an edge is left and may go.
    fn may_go(&self, e: usize) -> bool {
        matches!(self.kept.get(e), Some(true)) && matches!(self.fixed.get(e), Some(false))
    }

    // Marks some edges as left or not.
    fn mark(&mut self, edges: &[usize], is_left: bool) {
        for e in edges {
            if let Some(place) = self.kept.get_mut(*e) {
                *place = is_left;
            }
        }
    }

    // Puts edges back, which can't go together: one alone stays for good.
    fn put_back(&mut self, edges: &[usize]) {
        self.mark(edges, true);
        if edges.len() == 1 {
            self.fix(edges);
        }
        self.step = (edges.len() / 2).max(1);
    }

    // Marks edges that can't go.
    fn fix(&mut self, edges: &[usize]) {
        for e in edges {
            if let Some(place) = self.fixed.get_mut(*e) {
                *place = true;
            }
        }
    }

    // Takes what the edges that went cost off the weights.
    fn lighten(&mut self, edges: &[usize], costs: &Costs) {
        for e in edges {
            costs.take_off(self.weights.as_mut_slice(), *e);
        }
    }
}

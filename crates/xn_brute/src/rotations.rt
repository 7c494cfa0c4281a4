// The search for a rotation that makes a drawing of given orders.
ghost use Rattle.std.specs.Prelude.{◌≡◌, ◌*◌, ◌≤◌, ◌<◌, ◌↔◌, IfOk, IsTrue, length};
ghost use Rattle.xn_model.specs.Graph.{edges_of};
ghost use Rattle.xn_model.specs.Map.{tail_of};
ghost use Rattle.xn_brute.specs.Found.{AreDrawn, BeginsRotation, IsRotation, IsTrial, may_lead};

use crate::drawings::is_drawing;
use crate::lists::{appended, has};
use crate::orders::{are_orders, are_short};
use crate::webs::{crossings, segments};
use std::alloc::{AllocError, Global};
use xn_graph::Graph;
use xn_kinds::{Drawing, Orders};
use xn_list::Sequence;

// Orders whose rotations are tried.
#[derive(Clone, Copy)]
struct Trial<'a> {
    graph: &'a Graph,
    orders: &'a Orders,
    // The edges of the graph.
    edges: &'a [u32],
    // The ends of the segments of the planarised graph.
    ends: &'a [(u32, u32)],
}

/// Whether the lists are the orders of a drawing of the graph with at most so many crossings.
///
/// The edges are those of the graph.
pub fn are_drawn(
    alloc: Global,
    graph: &Graph,
    edges: &[u32],
    orders: &Orders,
    most: u32,
) -> Result<bool, AllocError>
    requires edges { edges.now ≡ edges_of graph.now }
    requires few { length edges.now ≤ 1000 }
    ensures { IfOk result (λ yes. IsTrue yes ↔ AreDrawn graph.now most orders.now) }
{
    if !are_short(orders) {
        return Ok(false);
    }
    if !are_orders(graph, orders) {
        return Ok(false);
    }
    let pairs = crossings(alloc, graph, orders, edges)?;
    if pairs.len() > most as usize {
        return Ok(false);
    }
    let ends = segments(alloc, graph, orders, edges, &pairs)?;
    let trial = Trial {
        graph,
        orders,
        edges,
        ends: &ends,
    };
    turns_from(alloc, &trial, &[])
}

// Whether some turns after these make a rotation of a drawing.
fn turns_from(alloc: Global, trial: &Trial, turns: &[u32]) -> Result<bool, AllocError>
    requires { IsTrial trial.now }
    ensures { IfOk result (λ yes. IsTrue yes ↔ BeginsRotation trial.now turns.now) }
{
    let darts = 2 * trial.ends.len();
    if turns.len() >= darts {
        return is_rotation(alloc, trial, turns);
    }
    for d in 0..darts as u32 {
        if may_lead(trial.ends, turns, d)
            && turns_from(alloc, trial, &appended(alloc, turns, d)?)?
        {
            return Ok(true);
        }
    }
    Ok(false)
}

// Whether these turns make a drawing.
fn is_rotation(alloc: Global, trial: &Trial, turns: &[u32]) -> Result<bool, AllocError>
    requires { IsTrial trial.now }
    ensures { IfOk result (λ yes. IsTrue yes ↔ IsRotation trial.now turns.now) }
{
    let orders = trial.orders.copy(alloc)?;
    let next = Sequence::new(turns.to_vec(alloc)?);
    is_drawing(alloc, trial.graph, &Drawing { orders, next }, trial.edges)
}

// Whether the next turn may lead to the dart d: it is at the same node, and no turn leads to it yet.
fn may_lead(ends: &[(u32, u32)], turns: &[u32], d: u32) -> bool
    requires few { length ends.now ≤ 1001000 }
    requires d_in { d < 2 * length ends.now }
    requires turns_in { length turns.now < 2 * length ends.now }
    ensures { result ≡ may_lead ends.now turns.now d }
{
    tail(ends, d) == tail(ends, turns.len() as u32) && !has(turns, d)
}

// The node of a dart.
fn tail(ends: &[(u32, u32)], d: u32) -> u32
    requires { d < 2 * length ends.now }
    ensures { result ≡ tail_of ends.now d }
{
    let (first, second) = ends[d as usize / 2];
    if d % 2 == 0 { first } else { second }
}

// The search for drawings, over all orders.
ghost use Rattle.std.specs.Prelude.{◌≡◌, ◌+◌, ◌≤◌, ◌<◌, ◌++◌, ◌∷◌, [], ◌↔◌, IfOk, IsTrue, length};
ghost use Rattle.xn_model.specs.Graph.{edges_of};
ghost use Rattle.xn_brute.specs.Found.{BeginOrders, BeginsList, FindsBelow, SaysWithin};

use crate::drawings::all_edges;
use crate::lists::appended;
use crate::rotations::are_drawn;
use std::alloc::{AllocError, Global};
use xn_general::laws::all_drawings;
use xn_graph::Graph;
use xn_kinds::Orders;

/// Whether the graph has a drawing with at most so many crossings, simple or not: if not, each of its drawings has more.
///
/// It looks for simple ones alone, since every drawing gives a simple one with no more crossings.
/// It tries all orders with at most twice so many entries, and each rotation for them that keeps to the nodes. So its time
/// grows faster than exponentially with the graph and with the number of crossings.
pub fn has_drawing_within(alloc: Global, graph: &Graph, most: u32) -> Result<bool, AllocError>
    ensures { IfOk result (SaysWithin graph.now most) }
{
    all_drawings();
    let _nodes = graph.nodes();
    let edges = all_edges(alloc, graph)?;
    let search = Search {
        graph,
        edges: &edges,
        most,
    };
    let none = Orders::new(Vec::new(alloc));
    lists_from(alloc, &search, &none, 2 * u64::from(most))
}

/// The crossing number of the graph, where it is below the bound.
///
/// It asks for a drawing without crossings, then for one with at most one crossing, and so on.
pub fn crossing_number_below(
    alloc: Global,
    graph: &Graph,
    bound: u32,
) -> Result<Option<u32>, AllocError>
    ensures { IfOk result (FindsBelow graph.now bound) }
{
    for k in 0..bound {
        if has_drawing_within(alloc, graph, k)? {
            return Ok(Some(k));
        }
    }
    Ok(None)
}

// A graph with its edges, and the most crossings that a drawing may have.
#[derive(Clone, Copy)]
struct Search<'a> {
    graph: &'a Graph,
    edges: &'a [u32],
    most: u32,
}

// Whether some lists after these, with at most so many entries, make orders of such a drawing.
#[cycle(orders)]
fn lists_from(alloc: Global, search: &Search, lists: &Orders, left: u64) -> Result<bool, AllocError>
    requires edges { search.now.edges.now ≡ edges_of search.now.graph.now }
    requires few { length search.now.edges.now ≤ 1000 }
    ensures { IfOk result (λ yes. IsTrue yes ↔ BeginOrders search.now left lists.now) }
{
    if lists.len() >= search.edges.len() {
        return are_drawn(alloc, search.graph, search.edges, lists, search.most);
    }
    list_from(alloc, search, lists, &[], left)
}

// The same, where the list after these begins with some entries.
#[cycle(orders)]
fn list_from(
    alloc: Global,
    search: &Search,
    lists: &Orders,
    list: &[u32],
    left: u64,
) -> Result<bool, AllocError>
    requires edges { search.now.edges.now ≡ edges_of search.now.graph.now }
    requires few { length search.now.edges.now ≤ 1000 }
    requires lacks { length lists.now < length search.now.edges.now }
    ensures { IfOk result (λ yes. IsTrue yes ↔ BeginsList search.now left lists.now list.now) }
{
    if lists_from(alloc, search, &with_list(alloc, lists, list)?, left)? {
        return Ok(true);
    }
    if left == 0 {
        return Ok(false);
    }
    for f in 0..search.edges.len() as u32 {
        if list_from(alloc, search, lists, &appended(alloc, list, f)?, left - 1)? {
            return Ok(true);
        }
    }
    Ok(false)
}

// These lists, and one more.
fn with_list(alloc: Global, lists: &Orders, list: &[u32]) -> Result<Orders, AllocError>
    ensures { IfOk result (λ more. more ≡ lists.now ++ list.now ∷ []) }
{
    let mut more = Vec::new(alloc);
    for i in 0..lists.len() {
        more.push(lists.at(i).to_vec(alloc)?)?;
    }
    more.push(list.to_vec(alloc)?)?;
    Ok(Orders::new(more))
}

// Some edges of a graph, with the crossings among them.
ghost use Rattle.std.specs.Prelude.{◌≡◌, ◌<◌, All, IfOk, filter, length};
ghost use Rattle.xn_model.specs.Drawing.{order_of};
ghost use Rattle.xn_model.specs.Graph.{edges_of};
ghost use Rattle.xn_model.specs.Orders.{IsOrders};
ghost use Rattle.xn_cut.specs.Kept.{IsPart, edges_kept, is_kept, lists_kept};

use std::alloc::{AllocError, Global};
use xn_graph::Graph;
use xn_kinds::Orders;

/// The marked edges, and for each of them what is marked of its list. It fails only for want of memory.
pub fn part_of(
    alloc: Global,
    graph: &Graph,
    orders: &Orders,
    kept: &[bool],
) -> Result<(Vec<u32>, Orders), AllocError>
    requires lists { length orders.now ≡ length graph.now.ends }
    requires orders { IsOrders graph.now.ends (edges_of graph.now) (order_of graph.now orders.now) }
    ensures { IfOk result (λ part. IsPart graph.now orders.now part.0.items part.1) }
{
    let edges = kept_edges(alloc, graph, kept)?;
    let lists = kept_lists(alloc, orders, kept, edges.as_slice())?;
    Ok((edges, lists))
}

// The marked edges, rising.
fn kept_edges(alloc: Global, graph: &Graph, kept: &[bool]) -> Result<Vec<u32>, AllocError>
    ensures { IfOk result (λ edges. edges.items ≡ edges_kept graph.now kept.now) }
{
    let edges = graph.all_edges(alloc)?;
    kept_list(alloc, edges.as_slice(), kept)
}

// What is marked of the lists of some edges.
fn kept_lists(
    alloc: Global,
    orders: &Orders,
    kept: &[bool],
    edges: &[u32],
) -> Result<Orders, AllocError>
    requires { All (λ e. e < length orders.now) edges.now }
    ensures { IfOk result (λ lists. lists ≡ lists_kept orders.now kept.now edges.now) }
{
    let mut lists = Vec::with_capacity(alloc, edges.len())?;
    for e in edges {
        lists.push(kept_list(alloc, orders.at(*e as usize), kept)?)?;
    }
    Ok(Orders::new(lists))
}

// What is marked of a list.
fn kept_list(alloc: Global, list: &[u32], kept: &[bool]) -> Result<Vec<u32>, AllocError>
    ensures { IfOk result (λ left. left.items ≡ filter (is_kept kept.now) list.now) }
{
    let mut left = Vec::new(alloc);
    for e in list {
        if is_kept(kept, *e) {
            left.push(*e)?;
        }
    }
    Ok(left)
}

// Whether an edge is marked.
fn is_kept(kept: &[bool], e: u32) -> bool
    ensures { result ≡ is_kept kept.now e }
{
    match kept.get(e as usize) {
        Some(is) => *is,
        None => false,
    }
}

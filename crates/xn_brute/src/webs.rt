// The planarised graph of orders.
ghost use Rattle.std.specs.Prelude.{◌≡◌, ◌+◌, ◌≤◌, ◌<◌, ◌++◌, IfOk, OnOk, length};
ghost use Rattle.xn_model.specs.Drawing.{order_of};
ghost use Rattle.xn_model.specs.Graph.{edges_of};
ghost use Rattle.xn_model.specs.Orders.{crossings_of};
ghost use Rattle.xn_model.specs.Web.{crossing_node, crossing_number_in};
ghost use Rattle.xn_brute.specs.Drawings.{AreShort, crossings_with, segments_of_all, through};

use crate::lists::has;
use crate::orders::order;
use std::alloc::{AllocError, Global};
use xn_graph::Graph;
use xn_kinds::Orders;

/// The pairs of edges that cross.
pub fn crossings(
    alloc: Global,
    graph: &Graph,
    orders: &Orders,
    edges: &[u32],
) -> Result<Vec<(u32, u32)>, AllocError>
    requires edges { edges.now ≡ edges_of graph.now }
    requires few { length edges.now ≤ 1000 }
    requires short { AreShort orders.now }
    ensures pairs { IfOk result (λ pairs. pairs.items ≡ crossings_of edges.now (order_of graph.now orders.now)) }
    ensures few { IfOk result (λ pairs. length pairs.items ≤ 1000000) }
{
    let mut pairs = Vec::new(alloc);
    for i in 0..edges.len() {
        push_crossings(
            edges[i],
            order(graph, orders, edges[i]),
            &edges[i + 1..],
            &mut pairs,
        )?;
    }
    Ok(pairs)
}

// Appends the pairs of e with those of the edges that stand in its list.
fn push_crossings(
    e: u32,
    list: &[u32],
    edges: &[u32],
    pairs: &mut Vec<(u32, u32)>,
) -> Result<(), AllocError>
    ensures pairs { OnOk result (pairs.new.items ≡ pairs.old.items ++ crossings_with e list.now edges.now) }
    ensures few { OnOk result (length pairs.new.items ≤ length pairs.old.items + length edges.now) }
{
    for f in edges {
        if has(list, *f) {
            pairs.push((e, *f))?;
        }
    }
    Ok(())
}

// The number of the crossing of e and f, the smaller first, or the number of all crossings.
fn crossing_number_in(pairs: &[(u32, u32)], e: u32, f: u32) -> usize
    ensures number { result ≡ crossing_number_in pairs.now e f }
    ensures few { result ≤ length pairs.now }
{
    for (i, p) in pairs.iter().enumerate() {
        if p.0 == e && p.1 == f {
            return i;
        }
    }
    pairs.len()
}

// The node at which e and f cross.
fn crossing_node(nodes: u32, pairs: &[(u32, u32)], e: u32, f: u32) -> u32
    requires few_nodes { nodes ≤ 1000 }
    requires few { length pairs.now ≤ 1000000 }
    ensures { result ≡ crossing_node nodes pairs.now e f }
{
    let number = if e < f {
        crossing_number_in(pairs, e, f)
    } else {
        crossing_number_in(pairs, f, e)
    };
    nodes + number as u32
}

/// The segments of the edges, each from its first end through its crossings to its second.
pub fn segments(
    alloc: Global,
    graph: &Graph,
    orders: &Orders,
    edges: &[u32],
    pairs: &[(u32, u32)],
) -> Result<Vec<(u32, u32)>, AllocError>
    requires edges { edges.now ≡ edges_of graph.now }
    requires few { length edges.now ≤ 1000 }
    requires short { AreShort orders.now }
    requires few_pairs { length pairs.now ≤ 1000000 }
    ensures segments { IfOk result (λ ends. ends.items ≡ segments_of_all graph.now orders.now pairs.now edges.now) }
    ensures few { IfOk result (λ ends. length ends.items ≤ 1001000) }
{
    let mut ends = Vec::new(alloc);
    for e in edges {
        push_segments(graph, pairs, *e, order(graph, orders, *e), &mut ends)?;
    }
    Ok(ends)
}

// Appends the segments of an edge with its list.
fn push_segments(
    graph: &Graph,
    pairs: &[(u32, u32)],
    e: u32,
    list: &[u32],
    ends: &mut Vec<(u32, u32)>,
) -> Result<(), AllocError>
    requires e_in { e < length graph.now.ends }
    requires few_pairs { length pairs.now ≤ 1000000 }
    ensures segments { OnOk result (ends.new.items ≡ ends.old.items ++ through graph.now pairs.now e list.now) }
    ensures few { OnOk result (length ends.new.items ≡ length ends.old.items + length list.now + 1) }
{
    let nodes = graph.nodes();
    let (mut from, last) = graph.end(e);
    for f in list {
        let node = crossing_node(nodes, pairs, e, *f);
        ends.push((from, node))?;
        from = node;
    }
    ends.push((from, last))?;
    Ok(())
}

// The planarised graph of orders.
ghost use Rattle.std.specs.Prelude.{◌≡◌, ◌++◌, ◌+◌, ◌<◌, ◌≤◌, ◌^◌, length, map, IfOk, OnOk, All, true};
ghost use Rattle.std.specs.List.{flat_map};
ghost use Rattle.xn_model.specs.Graph.{ends_at};
ghost use Rattle.xn_model.specs.Orders.{IsOrders, crossings_of, order_at};
ghost use Rattle.xn_model.specs.Web.{crossing_node, segments_of, segments_through, web_of};
ghost use Rattle.xn_graph.specs.Limits.{IsLimitedWeb};
ghost use Rattle.xn_orders.specs.Crossed.{crosses_in};
ghost use Rattle.xn_orders.specs.Pairs.{PairsRise};

use crate::crossings::{crossing_number, crossings};
use std::alloc::{AllocError, Global};
use xn_graph::{Graph, Web};
use xn_kinds::Orders;

/// The planarised graph of the orders of a list of edges, which has a node for each crossing.
///
/// After the nodes of the graph come the crossings, in lexicographic order. Each edge in turn is cut into segments, from its
/// first end through its crossings to its second. It takes time near linear in the number of segments.
pub fn planarise(
    alloc: Global,
    graph: &Graph,
    edges: &[u32],
    orders: &Orders,
) -> Result<Web, AllocError>
    requires lists { length orders.now ≡ length edges.now }
    requires orders { IsOrders graph.now.ends edges.now (order_at edges.now orders.now) }
    ensures web { IfOk result (λ web. web ≡ web_of graph.now edges.now (order_at edges.now orders.now)) }
    ensures limited { IfOk result IsLimitedWeb }
{
    let pairs = crossings(alloc, edges, orders)?;
    let nodes = graph.nodes() + pairs.len() as u32;
    let ends = segments(alloc, graph, edges, orders, &pairs)?;
    Ok(Web::make(nodes, ends).unwrap())
}

// The segments of all edges.
fn segments(
    alloc: Global,
    graph: &Graph,
    edges: &[u32],
    orders: &Orders,
    pairs: &[(u32, u32)],
) -> Result<Vec<(u32, u32)>, AllocError>
    requires lists { length orders.now ≡ length edges.now }
    requires orders { IsOrders graph.now.ends edges.now (order_at edges.now orders.now) }
    requires pairs { pairs.now ≡ crossings_of edges.now (order_at edges.now orders.now) }
    requires few { length pairs.now ≤ 2 ^ 30 }
    ensures { IfOk result (λ ends. ends.items ≡ flat_map (segments_of graph.now pairs.now (order_at edges.now orders.now)) edges.now) }
{
    let mut ends = Vec::new(alloc);
    for (i, e) in edges.iter().enumerate() {
        push_segments(&mut ends, graph, pairs, *e, orders.at(i))?;
    }
    Ok(ends)
}

// Appends the segments of an edge.
fn push_segments(
    ends: &mut Vec<(u32, u32)>,
    graph: &Graph,
    pairs: &[(u32, u32)],
    e: u32,
    list: &[u32],
) -> Result<(), AllocError>
    requires edge { e < length graph.now.ends }
    requires rise { PairsRise pairs.now }
    requires few { length pairs.now ≤ 2 ^ 30 }
    requires numbered { All (λ f. crosses_in pairs.now e f ≡ true) list.now }
    ensures { let p = ends_at graph.now.ends e in
        OnOk result (ends.new.items ≡ ends.old.items ++ segments_through p.0 (map (crossing_node graph.now.nodes pairs.now e) list.now) p.1) }
{
    let (first, second) = graph.end(e);
    let nodes = graph.nodes();
    let mut from = first;
    for f in list {
        let to = node_of(nodes, pairs, e, *f);
        ends.push((from, to))?;
        from = to;
    }
    ends.push((from, second))?;
    Ok(())
}

// The node at which two edges cross.
fn node_of(nodes: u32, pairs: &[(u32, u32)], e: u32, f: u32) -> u32
    requires few_nodes { nodes ≤ 1000 }
    requires rise { PairsRise pairs.now }
    requires few { length pairs.now ≤ 2 ^ 30 }
    requires numbered { crosses_in pairs.now e f ≡ true }
    ensures value { result ≡ crossing_node nodes pairs.now e f }
    ensures within { result < nodes + length pairs.now }
{
    let number = if e < f {
        crossing_number(pairs, e, f)
    } else {
        crossing_number(pairs, f, e)
    };
    nodes + number as u32
}

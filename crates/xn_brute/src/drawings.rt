ghost use Rattle.std.specs.Prelude.{◌≡◌, ◌≤◌, ◌<◌, ◌^◌, ◌↔◌, IfOk, IsTrue, length};
ghost use Rattle.xn_model.specs.Drawing.{order_of};
ghost use Rattle.xn_model.specs.Graph.{edges_of};
ghost use Rattle.xn_model.specs.Lists.{at};
ghost use Rattle.xn_model.specs.Web.{first_segment};
ghost use Rattle.xn_graph.specs.Limits.{graph_of};
ghost use Rattle.xn_brute.specs.Drawings.{AllCross, AreShort, IsDrawingOf, IsListedFlatMap, cross_along, crosses_at, orders_in};

use crate::lists::{at, numbers, position_in};
use crate::orders::{are_orders, are_short, order};
use crate::webs::{crossings, segments};
use std::alloc::{AllocError, Global};
use xn_graph::{Graph, Web};
use xn_kinds::{Drawing, Orders};
use xn_map::{Map, MapErr};

/// Whether the orders and the rotation are a drawing of the graph: one list for each edge and two turns for each segment.
pub fn is_listed_drawing(
    alloc: Global,
    graph: &Graph,
    drawing: &Drawing,
) -> Result<bool, AllocError>
    ensures { IfOk result (λ yes. IsTrue yes ↔ IsDrawingOf graph.now drawing.now) }
{
    let edges = all_edges(alloc, graph)?;
    if !are_short(&drawing.orders) {
        return Ok(false);
    }
    is_drawing(alloc, graph, drawing, &edges)
}

/// The edges of a graph, in order.
pub fn all_edges(alloc: Global, graph: &Graph) -> Result<Vec<u32>, AllocError>
    ensures edges { IfOk result (λ edges. edges.items ≡ edges_of graph.now) }
    ensures few { IfOk result (λ edges. length edges.items ≤ 1000) }
{
    numbers(alloc, graph.edges())
}

/// The same, where the edges of the graph are at hand.
pub fn is_drawing(
    alloc: Global,
    graph: &Graph,
    drawing: &Drawing,
    edges: &[u32],
) -> Result<bool, AllocError>
    requires short { AreShort drawing.now.orders }
    requires edges { edges.now ≡ edges_of graph.now }
    requires few { length edges.now ≤ 1000 }
    ensures { IfOk result (λ yes. IsTrue yes ↔ IsDrawingOf graph.now drawing.now) }
{
    if drawing.orders.len() != graph.edges() as usize {
        return Ok(false);
    }
    if !are_orders(graph, &drawing.orders) {
        return Ok(false);
    }
    if !all_cross(graph, drawing, edges) {
        return Ok(false);
    }
    let pairs = crossings(alloc, graph, &drawing.orders, edges)?;
    let ends = segments(alloc, graph, &drawing.orders, edges, &pairs)?;
    is_flat_map(
        alloc,
        graph.nodes() + pairs.len() as u32,
        ends,
        drawing.next.as_slice(),
    )
}

// Whether the rotation makes a flat map of the web of these nodes and ends.
fn is_flat_map(
    alloc: Global,
    nodes: u32,
    ends: Vec<(u32, u32)>,
    next: &[u32],
) -> Result<bool, AllocError>
    requires few_nodes { nodes ≤ 2 ^ 30 }
    requires few_ends { length ends.items ≤ 2 ^ 30 }
    ensures { IfOk result (λ yes. IsTrue yes ↔ IsListedFlatMap (graph_of nodes ends.items) next.now) }
{
    match Web::make(nodes, ends) {
        Ok(web) => is_flat(alloc, web, next),
        Err(_) => Ok(false),
    }
}

// Whether the rotation makes a flat map of the web.
fn is_flat(alloc: Global, web: Web, next: &[u32]) -> Result<bool, AllocError>
    ensures { IfOk result (λ yes. IsTrue yes ↔ IsListedFlatMap web next.now) }
{
    match Map::make(alloc, web, next) {
        Ok(map) => map.is_flat(alloc),
        Err(MapErr::Memory) => Err(AllocError),
        Err(MapErr::Length) => Ok(false),
        Err(MapErr::Rotation(_)) => Ok(false),
    }
}

// The number of the first segment of e.
fn first_segment(graph: &Graph, orders: &Orders, edges: &[u32], e: u32) -> usize
    requires edges { edges.now ≡ edges_of graph.now }
    requires few { length edges.now ≤ 1000 }
    requires short { AreShort orders.now }
    ensures segment { result ≡ first_segment edges.now (order_of graph.now orders.now) e }
    ensures small { result ≤ 1001000 }
{
    let mut sum = 0;
    for x in edges {
        if *x == e {
            return sum;
        }
        sum += order(graph, orders, *x).len() + 1;
    }
    sum
}

// Whether e and f cross, and don't touch.
fn crosses_at(graph: &Graph, drawing: &Drawing, edges: &[u32], e: u32, f: u32) -> bool
    requires e_in { e < length graph.now.ends }
    requires edges { edges.now ≡ edges_of graph.now }
    requires few { length edges.now ≤ 1000 }
    requires short { AreShort drawing.now.orders }
    ensures { result ≡ crosses_at edges.now (orders_in graph.now drawing.now) (at drawing.now.next) e f }
{
    let next = drawing.next.as_slice();
    let before = first_segment(graph, &drawing.orders, edges, e)
        + position_in(order(graph, &drawing.orders, e), f);
    at(next, at(next, 2 * before + 1)) == 2 * (before + 1)
}

// Whether e crosses each later edge in its list.
fn cross_along(graph: &Graph, drawing: &Drawing, edges: &[u32], e: u32) -> bool
    requires e_in { e < length graph.now.ends }
    requires edges { edges.now ≡ edges_of graph.now }
    requires few { length edges.now ≤ 1000 }
    requires short { AreShort drawing.now.orders }
    ensures { result ≡ cross_along edges.now (orders_in graph.now drawing.now) (at drawing.now.next) e }
{
    let list = order(graph, &drawing.orders, e);
    list.iter()
        .all(|f| e >= *f || crosses_at(graph, drawing, edges, e, *f))
}

// Whether each edge crosses the later ones in its list.
fn all_cross(graph: &Graph, drawing: &Drawing, edges: &[u32]) -> bool
    requires edges { edges.now ≡ edges_of graph.now }
    requires few { length edges.now ≤ 1000 }
    requires short { AreShort drawing.now.orders }
    ensures { IsTrue result ↔ AllCross graph.now (orders_in graph.now drawing.now) (at drawing.now.next) }
{
    for e in 0..graph.edges() {
        if !cross_along(graph, drawing, edges, e) {
            return false;
        }
    }
    true
}

// Orders of all edges of a graph.
ghost use Rattle.std.specs.Prelude.{◌≡◌, ◌≤◌, ◌<◌, ◌↔◌, IsTrue, length};
ghost use Rattle.std.specs.List.{list_all};
ghost use Rattle.xn_model.specs.Drawing.{order_of};
ghost use Rattle.xn_brute.specs.Drawings.{AreOrders, AreShort, is_distinct, is_entry, is_order};

use crate::lists::has;
use xn_graph::Graph;
use xn_kinds::Orders;

// Whether no number stands twice in the list.
fn is_distinct(list: &[u32]) -> bool
    ensures { result ≡ is_distinct list.now }
{
    for i in 0..list.len() {
        if has(&list[i + 1..], list[i]) {
            return false;
        }
    }
    true
}

/// Whether no list is longer than a graph has edges.
pub fn are_short(orders: &Orders) -> bool
    ensures { IsTrue result ↔ AreShort orders.now }
{
    for i in 0..orders.len() {
        if orders.at(i).len() > 1000 {
            return false;
        }
    }
    true
}

/// The list of an edge.
pub fn order<'a>(graph: &Graph, orders: &'a Orders, e: u32) -> &'a [u32]
    requires edge { e < length graph.now.ends }
    requires short { AreShort orders.now }
    ensures list { result.now ≡ order_of graph.now orders.now e }
    ensures short { length result.now ≤ 1000 }
{
    let i = e as usize;
    if i < orders.len() { orders.at(i) } else { &[] }
}

// Whether f may stand in the list of e: it is an edge, independent of e, and has e in its own list.
fn is_entry(graph: &Graph, orders: &Orders, e: u32, f: u32) -> bool
    requires edge { e < length graph.now.ends }
    requires short { AreShort orders.now }
    ensures { result ≡ is_entry graph.now (order_of graph.now orders.now) e f }
{
    f < graph.edges() && graph.independent(e, f) && has(order(graph, orders, f), e)
}

// Whether the list of an edge has no repeats and each entry may stand there.
fn is_order(graph: &Graph, orders: &Orders, e: u32) -> bool
    requires edge { e < length graph.now.ends }
    requires short { AreShort orders.now }
    ensures { result ≡ is_order graph.now (order_of graph.now orders.now) e }
{
    let list = order(graph, orders, e);
    is_distinct(list) && are_entries(graph, orders, e, list)
}

// Whether each of these may stand in the list of e.
fn are_entries(graph: &Graph, orders: &Orders, e: u32, list: &[u32]) -> bool
    requires edge { e < length graph.now.ends }
    requires short { AreShort orders.now }
    ensures { result ≡ list_all (is_entry graph.now (order_of graph.now orders.now) e) list.now }
{
    list.iter().all(|f| is_entry(graph, orders, e, *f))
}

/// Whether the lists are orders of all edges.
pub fn are_orders(graph: &Graph, orders: &Orders) -> bool
    requires { AreShort orders.now }
    ensures { IsTrue result ↔ AreOrders graph.now (order_of graph.now orders.now) }
{
    for e in 0..graph.edges() {
        if !is_order(graph, orders, e) {
            return false;
        }
    }
    true
}

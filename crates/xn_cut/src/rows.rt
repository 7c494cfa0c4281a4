// Rows from orders of all edges.
ghost use Rattle.std.specs.Prelude.{◌≡◌, IfOk, IfSome, length};
ghost use Rattle.xn_model.specs.Drawing.{order_of};
ghost use Rattle.xn_model.specs.Graph.{edges_of};
ghost use Rattle.xn_model.specs.Orders.{IsOrders};
ghost use Rattle.xn_cut.specs.Cuts.{IsCut, IsCutRow, crosses_in};

use crate::judging::judged;
use crate::parts::part_of;
use crate::planting::Rule;
use crate::shrinking::shrunk;
use crate::used::{used_marks, uses_all};
use std::alloc::{AllocError, Global};
use xn_frac::Frac;
use xn_graph::Graph;
use xn_kinds::{Orders, Row, Var};

/// A row of some edges with the crossings among them, none where the web of all has a flat map. It fails only
/// for want of memory.
pub fn row_of(
    alloc: Global,
    graph: &Graph,
    orders: &Orders,
    point: &[(Var, Frac)],
    rule: Rule,
) -> Result<Option<Row>, AllocError>
    requires lists { length orders.now ≡ length graph.now.ends }
    requires orders { IsOrders graph.now.ends (edges_of graph.now) (order_of graph.now orders.now) }
    ensures { IfOk result (IsCut graph.now (crosses_in graph.now orders.now)) }
{
    if let Some(row) = shrunk_row(alloc, graph, orders, point, rule)? {
        return Ok(Some(least_row(alloc, graph, orders, row)?));
    }
    match whole_row(alloc, graph, orders)? {
        Some(row) => Ok(Some(least_row(alloc, graph, orders, row)?)),
        None => Ok(None),
    }
}

// A row of the edges that are left of all; none where hints led to edges whose web has a flat map.
fn shrunk_row(
    alloc: Global,
    graph: &Graph,
    orders: &Orders,
    point: &[(Var, Frac)],
    rule: Rule,
) -> Result<Option<Row>, AllocError>
    requires lists { length orders.now ≡ length graph.now.ends }
    requires orders { IsOrders graph.now.ends (edges_of graph.now) (order_of graph.now orders.now) }
    ensures { IfOk result (λ found. IfSome found (IsCutRow graph.now (crosses_in graph.now orders.now))) }
{
    match shrunk(alloc, graph, orders, point, rule)? {
        Some(kept) => part_row(alloc, graph, orders, kept.as_slice()),
        None => Ok(None),
    }
}

// A row of all edges, or none where their web has a flat map.
fn whole_row(alloc: Global, graph: &Graph, orders: &Orders) -> Result<Option<Row>, AllocError>
    requires lists { length orders.now ≡ length graph.now.ends }
    requires orders { IsOrders graph.now.ends (edges_of graph.now) (order_of graph.now orders.now) }
    ensures { IfOk result (IsCut graph.now (crosses_in graph.now orders.now)) }
{
    let edges = graph.all_edges(alloc)?;
    let lists = orders.copy(alloc)?;
    let found = judged(alloc, graph, edges, lists)?;
    Ok(found)
}

// A row of the marked edges, or none.
fn part_row(
    alloc: Global,
    graph: &Graph,
    orders: &Orders,
    kept: &[bool],
) -> Result<Option<Row>, AllocError>
    requires lists { length orders.now ≡ length graph.now.ends }
    requires orders { IsOrders graph.now.ends (edges_of graph.now) (order_of graph.now orders.now) }
    ensures { IfOk result (λ found. IfSome found (IsCutRow graph.now (crosses_in graph.now orders.now))) }
{
    let (edges, lists) = part_of(alloc, graph, orders, kept)?;
    let found = judged(alloc, graph, edges, lists)?;
    Ok(found)
}

// A row of the edges that the evidence of a row uses, or the row itself, where it uses all of them.
fn least_row(alloc: Global, graph: &Graph, orders: &Orders, row: Row) -> Result<Row, AllocError>
    requires lists { length orders.now ≡ length graph.now.ends }
    requires orders { IsOrders graph.now.ends (edges_of graph.now) (order_of graph.now orders.now) }
    requires row { IsCutRow graph.now (crosses_in graph.now orders.now) row }
    ensures { IfOk result (IsCutRow graph.now (crosses_in graph.now orders.now)) }
{
    let used = used_marks(alloc, &row, graph.edges() as usize)?;
    if uses_all(&row, used.as_slice()) {
        return Ok(row);
    }
    match part_row(alloc, graph, orders, used.as_slice())? {
        Some(least) => Ok(least),
        None => Ok(row),
    }
}

// The test of the lists of edges: entries that stray, and dependent edges that cross.
ghost use Rattle.std.specs.Prelude.{◌≡◌, length, IfOk, MatchOption};
ghost use Rattle.xn_model.specs.Orders.{IsEdgeList, IsOrders, order_at};
ghost use Rattle.xn_orders.specs.Entries.{IsOrdersFlaw};

use crate::dependents::dependent_entry;
use crate::strays::stray_entry;
use std::alloc::{AllocError, Global};
use xn_graph::Graph;
use xn_kinds::Orders;

/// What is first wrong with the lists of a list of edges.
#[derive(Clone, Copy, Debug, PartialEq, Eq)]
pub enum OrdersFlaw {
    /// In the list of the first edge, the second isn't one of the edges, or stands twice, or hasn't the first in its list.
    Stray(u32, u32),
    /// No entry is stray, and in the list of the first edge, the second isn't independent of it.
    Dependent(u32, u32),
}

/// The first flaw of the lists of a rising list of edges, where they aren't orders over these.
///
/// Stray entries come before dependent ones, and among one kind the entries of smaller edges, then the earlier in a list. It
/// takes time near linear in the number of entries, and fails only for want of memory.
pub fn orders_flaw(
    alloc: Global,
    graph: &Graph,
    edges: &[u32],
    orders: &Orders,
) -> Result<Option<OrdersFlaw>, AllocError>
    requires lists { length orders.now ≡ length edges.now }
    requires edges { IsEdgeList (length graph.now.ends) edges.now }
    ensures { let ends = graph.now.ends in let ord = order_at edges.now orders.now in
        IfOk result (λ flaw. MatchOption flaw (IsOrders ends edges.now ord) (IsOrdersFlaw ends edges.now ord)) }
{
    if let Some((e, f)) = stray_entry(alloc, graph.edges(), edges, orders)? {
        return Ok(Some(OrdersFlaw::Stray(e, f)));
    }
    if let Some((e, f)) = dependent_entry(graph, edges, orders) {
        return Ok(Some(OrdersFlaw::Dependent(e, f)));
    }
    Ok(None)
}

// The entries of the lists: whether they are independent of their edges.
ghost use Rattle.std.specs.Prelude.{◌≡◌, ℕ, ◌<◌, length, MatchOption};
ghost use Rattle.xn_model.specs.Lists.{at};
ghost use Rattle.xn_model.specs.Orders.{IsEdgeList, order_at};
ghost use Rattle.xn_orders.specs.Entries.{IsClose, IsDependent, IsFirstOf, IsStray, NamesFirst, NoEntry, NoneOf};

use xn_graph::Graph;
use xn_kinds::Orders;

/// The first entry, with its edge before it, that isn't independent of the edge.
pub fn dependent_entry(graph: &Graph, edges: &[u32], orders: &Orders) -> Option<(u32, u32)>
    requires lists { length orders.now ≡ length edges.now }
    requires edges { IsEdgeList (length graph.now.ends) edges.now }
    requires order { let ord = order_at edges.now orders.now in NoEntry ord (IsStray edges.now ord) }
    ensures { let ord = order_at edges.now orders.now in let Wrong = IsDependent graph.now.ends ord in
        MatchOption result (NoEntry ord Wrong) (λ p. NamesFirst ord Wrong p.0 p.1) }
{
    for (i, e) in edges.iter().enumerate() {
        if let Some(f) = close_in(graph, *e, orders.at(i)) {
            return Some((*e, f));
        }
    }
    None
}

// The first entry of a list of e that isn't independent of e.
fn close_in(graph: &Graph, e: u32, list: &[u32]) -> Option<u32>
    requires edge { e < length graph.now.ends }
    requires below { (i : ℕ) → i < length list.now → at list.now i < length graph.now.ends }
    ensures { let Wrong = IsClose graph.now.ends e list.now in
        MatchOption result (NoneOf list.now Wrong) (IsFirstOf list.now Wrong) }
{
    for f in list {
        if !graph.independent(e, *f) {
            return Some(*f);
        }
    }
    None
}

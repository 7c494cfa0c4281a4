// Whether the web of orders over some edges has a flat map.
ghost use Rattle.std.specs.Prelude.{◌≡◌, IfOk, length};
ghost use Rattle.xn_model.specs.Drawing.{order_of};
ghost use Rattle.xn_model.specs.Graph.{HasNoLoop, edges_of};
ghost use Rattle.xn_model.specs.Orders.{IsOrders, order_at};
ghost use Rattle.xn_model.specs.Web.{web_of};
ghost use Rattle.xn_cut.specs.Cuts.{IsJudged};

use crate::parts::part_of;
use std::alloc::{AllocError, Global};
use xn_graph::{Graph, Web};
use xn_hint::seems_flat;
use xn_kinds::{Orders, Row};
use xn_list::Sequence;
use xn_orders::laws::no_loops;
use xn_orders::planarise;
use xn_planar::{Planarity, planar};

/// A row of the edges and their orders that holds; none where their web has a flat map. It fails only for
/// want of memory.
pub fn judged(
    alloc: Global,
    graph: &Graph,
    edges: Vec<u32>,
    orders: Orders,
) -> Result<Option<Row>, AllocError>
    requires lists { length orders ≡ length edges.items }
    requires orders { IsOrders graph.now.ends edges.items (order_at edges.items orders) }
    ensures { IfOk result (IsJudged graph.now edges.items orders) }
{
    let web = web_over(alloc, graph, edges.as_slice(), &orders)?;
    match planar(alloc, &web)? {
        Planarity::Flat(_) => Ok(None),
        Planarity::Not(evidence) => Ok(Some(Row {
            edges: Sequence::new(edges),
            orders,
            evidence,
        })),
    }
}

/// Whether the web of the marked edges and the crossings among them is likely to have a flat map. It fails
/// only for want of memory.
pub fn part_seems_flat(
    alloc: Global,
    graph: &Graph,
    orders: &Orders,
    kept: &[bool],
) -> Result<bool, AllocError>
    requires lists { length orders.now ≡ length graph.now.ends }
    requires orders { IsOrders graph.now.ends (edges_of graph.now) (order_of graph.now orders.now) }
{
    let (edges, lists) = part_of(alloc, graph, orders, kept)?;
    let web = web_over(alloc, graph, edges.as_slice(), &lists)?;
    seems_flat(alloc, &web)
}

// The web of orders over some edges.
fn web_over(alloc: Global, graph: &Graph, edges: &[u32], orders: &Orders) -> Result<Web, AllocError>
    requires lists { length orders.now ≡ length edges.now }
    requires orders { IsOrders graph.now.ends edges.now (order_at edges.now orders.now) }
    ensures web { IfOk result (λ web. web ≡ web_of graph.now edges.now (order_at edges.now orders.now)) }
    ensures no_loop { IfOk result (λ web. HasNoLoop web.ends) }
{
    no_loops();
    let _nodes = graph.nodes();
    let web = planarise(alloc, graph, edges, orders)?;
    Ok(web)
}

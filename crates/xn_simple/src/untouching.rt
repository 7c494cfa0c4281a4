// Edges that touch are drawn apart.
ghost use Rattle.std.specs.Prelude.{◌≡◌, ℕ, ◌≤◌, IfOk};
ghost use Rattle.xn_model.specs.Drawing.{IsListedDrawing, order_of};
ghost use Rattle.xn_model.specs.Graph.{edges_of};
ghost use Rattle.xn_model.specs.Lists.{at};
ghost use Rattle.xn_model.specs.Orders.{crossing_count};
ghost use Rattle.xn_simple.specs.Crossed.{crossed_order};
ghost use Rattle.xn_simple.specs.Untouched.{MayTouch};

use crate::crossed::push_crossed;
use crate::starts::push_starts;
use crate::turning::turns_along;
use std::alloc::{AllocError, Global};
use xn_graph::Graph;
use xn_kinds::{Drawing, Orders};
use xn_list::Sequence;
use xn_map::Map;

/// The drawing in which those edges cross that crossed, and those that touched don't meet.
///
/// The map is a flat one of the planarised graph of the orders, in which edges may touch at a crossing. Each edge keeps
/// the edges that cross it, in their order, and so there are no more crossings. It takes time linear in the number of
/// segments, and fails only for want of memory.
pub fn untouch(
    alloc: Global,
    graph: &Graph,
    orders: &Orders,
    map: Map,
) -> Result<Drawing, AllocError>
    requires { MayTouch graph.now orders.now map }
    ensures drawing { IfOk result (λ d. IsListedDrawing graph.now d.orders d.next) }
    ensures crossed { let ord = order_of graph.now orders.now in
        IfOk result (λ d. (e : ℕ) → order_of graph.now d.orders e ≡ crossed_order (edges_of graph.now) ord (at map.next) e) }
    ensures no_more { let g = graph.now in
        IfOk result (λ d. crossing_count g (order_of g d.orders) ≤ crossing_count g (order_of g orders.now)) }
{
    let mut crossed = Orders::new(Vec::with_capacity(alloc, graph.edges() as usize)?);
    let mut starts = Vec::with_capacity(alloc, 2 * map.web().segments() as usize)?;
    push_crossed(alloc, &mut crossed, orders, &map)?;
    push_starts(&mut starts, orders, &map)?;
    let next = turns_along(alloc, &map, &starts)?;
    Ok(Drawing {
        orders: crossed,
        next: Sequence::new(next),
    })
}

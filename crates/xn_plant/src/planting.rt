ghost use Rattle.std.specs.Prelude.{◌≡◌, IfOk, length};
ghost use Rattle.xn_model.specs.Drawing.{IsListedDrawing, drawn_web, order_of};
ghost use Rattle.xn_model.specs.Graph.{HasNoLoop, edges_of};
ghost use Rattle.xn_model.specs.Orders.{IsEdgeList, IsOrders};
ghost use Rattle.xn_kinds.specs.State.{IsState};
ghost use Rattle.xn_components.specs.Listing.{IsFlatMapOf};
ghost use Rattle.xn_tree.specs.Given.{state_of};
ghost use Rattle.xn_plant.specs.Planting.{HasNoMore, IsPlanted, IsRowOfState, IsTested, IsTried};

use crate::orders::planted_orders;
use crate::used::used_edges;
use std::alloc::{AllocError, Global};
use xn_graph::{Graph, Web};
use xn_kinds::{Drawing, Evidence, Orders, Row};
use xn_list::Sequence;
use xn_map::Map;
use xn_orders::laws::no_loops;
use xn_orders::planarise;
use xn_tree::Given;

/// Whether a web has a flat map.
#[derive(Drop)]
pub enum Planarity {
    /// It has this one.
    Flat(Map),
    /// It has none, as this evidence shows: a subdivision of K5 or of K3,3.
    Not(Evidence),
}

/// What tests webs for flat maps, and makes drawings of them.
pub trait Planes {
    /// A flat map of a web without loops, or evidence that there is none. It fails only for want of memory.
    fn planar(&mut self, alloc: Global, web: &Web) -> Result<Planarity, AllocError>
        requires { HasNoLoop web.now.ends }
        ensures { IfOk result (IsTested web.now) };

    /// A drawing with at most as many crossings as the orders, from a flat map of their web, in which edges may
    /// touch. It fails only for want of memory.
    fn untouch(
        &mut self,
        alloc: Global,
        graph: &Graph,
        orders: &Orders,
        map: Map,
    ) -> Result<Drawing, AllocError>
        requires lists { length orders.now ≡ length graph.now.ends }
        requires orders { IsOrders graph.now.ends (edges_of graph.now) (order_of graph.now orders.now) }
        requires map { IsFlatMapOf (drawn_web graph.now orders.now) map }
        ensures { IfOk result (HasNoMore graph.now orders.now) };

    /// Some drawing of a graph. It fails only for want of memory.
    fn upper(&mut self, alloc: Global, graph: &Graph) -> Result<Drawing, AllocError>
        ensures { IfOk result (λ d. IsListedDrawing graph.now d.orders d.next) };
}

/// What planting the crossings of a state comes to.
#[derive(Drop)]
pub enum Planted {
    /// The graph has this drawing, with no more crossings.
    Flat(Drawing),
    /// The edges of the row, with the crossings among them, have no flat web.
    Excluded(Row),
}

/// What planting the crossings among some edges comes to.
#[derive(Drop)]
pub enum Tried {
    /// Their orders, and a flat map of their web.
    Flat(Orders, Map),
    /// Their web has no flat map.
    Excluded(Row),
}

/// Plants the crossings of a state: along each edge the placed edges in their order, then the others that cross it.
/// Where their web has no flat map, the edges that the evidence uses are tried by themselves. It fails only for
/// want of memory.
pub fn plant<P: Planes>(
    alloc: Global,
    graph: &Graph,
    given: &Given,
    planes: &mut P,
) -> Result<Planted, AllocError>
    requires graph { given.now.graph ≡ graph.now }
    requires state { IsState graph.now (state_of given.now) }
    ensures { IfOk result (IsPlanted graph.now (state_of given.now)) }
{
    let edges = graph.all_edges(alloc)?;
    match try_edges(alloc, graph, given, edges, planes)? {
        Tried::Flat(orders, map) => {
            let drawing = planes.untouch(alloc, graph, &orders, map)?;
            Ok(Planted::Flat(drawing))
        }
        Tried::Excluded(row) => {
            let row = shrunk(alloc, graph, given, row, planes)?;
            Ok(Planted::Excluded(row))
        }
    }
}

// A row over the edges that the evidence of a row uses, or the row itself, where it uses all of them.
fn shrunk<P: Planes>(
    alloc: Global,
    graph: &Graph,
    given: &Given,
    row: Row,
    planes: &mut P,
) -> Result<Row, AllocError>
    requires graph { given.now.graph ≡ graph.now }
    requires state { IsState graph.now (state_of given.now) }
    requires row { IsRowOfState graph.now (state_of given.now) row }
    ensures { IfOk result (IsRowOfState graph.now (state_of given.now)) }
{
    let edges = used_edges(alloc, &row)?;
    if edges.len() == row.edges.len() {
        return Ok(row);
    }
    match try_edges(alloc, graph, given, edges, planes)? {
        Tried::Flat(_, _) => Ok(row),
        Tried::Excluded(smaller) => Ok(smaller),
    }
}

// The web of the crossings among some edges: a flat map of it, or a row.
fn try_edges<P: Planes>(
    alloc: Global,
    graph: &Graph,
    given: &Given,
    edges: Vec<u32>,
    planes: &mut P,
) -> Result<Tried, AllocError>
    requires graph { given.now.graph ≡ graph.now }
    requires state { IsState graph.now (state_of given.now) }
    requires edges { IsEdgeList (length graph.now.ends) edges.items }
    ensures { IfOk result (IsTried graph.now (state_of given.now) edges.items) }
{
    no_loops();
    let _nodes = graph.nodes();
    let orders = planted_orders(alloc, given, edges.as_slice())?;
    let web = planarise(alloc, graph, edges.as_slice(), &orders)?;
    match planes.planar(alloc, &web)? {
        Planarity::Flat(map) => Ok(Tried::Flat(orders, map)),
        Planarity::Not(evidence) => Ok(Tried::Excluded(Row {
            edges: Sequence::new(edges),
            orders,
            evidence,
        })),
    }
}

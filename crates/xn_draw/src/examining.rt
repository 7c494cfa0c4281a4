// The test of a drawing: lengths, orders, rotation, crossings, genus.
ghost use Rattle.std.specs.Prelude.{◌≡◌, ◌≤◌, ◌^◌, length, IfOk, IfErr, MatchResult};
ghost use Rattle.xn_map.specs.Listed.{map_of};
ghost use Rattle.xn_model.specs.Graph.{edges_of};
ghost use Rattle.xn_model.specs.Drawing.{drawn_web};
ghost use Rattle.xn_draw.specs.Flaws.{HasCrossings, HasMap, HasOrders};
ghost use Rattle.xn_draw.specs.Seen.{IsCause, IsSeen};

use crate::lengths::has_lengths;
use crate::results::{DrawErr, Seen};
use crate::touches::touch;
use std::alloc::Global;
use xn_graph::Graph;
use xn_kinds::{DrawFlaw, Drawing};
use xn_map::{Map, MapErr};
use xn_orders::{OrdersFlaw, orders_flaw, planarise};

/// What is seen of a simple drawing of the graph, or its first flaw.
///
/// The flaws, in this order: lengths; entries that are out of order; dependent edges that cross; the rotation; edges that
/// touch; the genus. It takes time near linear in the number of segments.
pub fn examine(alloc: Global, graph: &Graph, drawing: &Drawing) -> Result<Seen, DrawErr>
    ensures ok { IfOk result (IsSeen graph.now drawing.now.orders drawing.now.next) }
    ensures err { IfErr result (IsCause graph.now drawing.now.orders drawing.now.next) }
{
    let edges = graph.all_edges(alloc)?;
    check_lists(alloc, graph, &edges, drawing)?;
    let map = map_of(alloc, graph, &edges, drawing)?;
    check_crossings(graph, drawing, &map)?;
    let euler = map.euler(alloc)?;
    if euler.v + euler.f != 2 * euler.c + euler.e {
        return Err(DrawErr::Flaw(DrawFlaw::Genus(euler)));
    }
    let crossings = euler.v - u64::from(graph.nodes());
    Ok(Seen { crossings, euler })
}

// Whether the lists are orders of all edges, and lists and turns of the right number.
fn check_lists(
    alloc: Global,
    graph: &Graph,
    edges: &[u32],
    drawing: &Drawing,
) -> Result<(), DrawErr>
    requires { edges.now ≡ edges_of graph.now }
    ensures { let d = drawing.now in
        MatchResult result (λ _. HasOrders graph.now d.orders d.next) (IsCause graph.now d.orders d.next) }
{
    if !has_lengths(graph, &drawing.orders, drawing.next.as_slice()) {
        return Err(DrawErr::Flaw(DrawFlaw::Length));
    }
    match orders_flaw(alloc, graph, edges, &drawing.orders)? {
        None => Ok(()),
        Some(OrdersFlaw::Stray(e, f)) => Err(DrawErr::Flaw(DrawFlaw::Order(e, f))),
        Some(OrdersFlaw::Dependent(e, f)) => Err(DrawErr::Flaw(DrawFlaw::Dependent(e, f))),
    }
}

// The map of the planarised graph with the turns of the drawing.
fn map_of(alloc: Global, graph: &Graph, edges: &[u32], drawing: &Drawing) -> Result<Map, DrawErr>
    requires edges { edges.now ≡ edges_of graph.now }
    requires orders { HasOrders graph.now drawing.now.orders drawing.now.next }
    ensures map { let d = drawing.now in
        MatchResult result
        (λ map. HasMap graph.now d.orders d.next × (map ≡ map_of (drawn_web graph.now d.orders) d.next))
        (IsCause graph.now d.orders d.next) }
    ensures few { IfOk result (λ map. length map.next ≤ 2 ^ 31) }
{
    let web = planarise(alloc, graph, edges, &drawing.orders)?;
    match Map::make(alloc, web, drawing.next.as_slice()) {
        Ok(map) => Ok(map),
        Err(MapErr::Length) => Err(DrawErr::Flaw(DrawFlaw::Length)),
        Err(MapErr::Rotation(d)) => Err(DrawErr::Flaw(DrawFlaw::Rotation(d))),
        Err(MapErr::Memory) => Err(DrawErr::Memory),
    }
}

// Whether edges that meet cross.
fn check_crossings(graph: &Graph, drawing: &Drawing, map: &Map) -> Result<(), DrawErr>
    requires has_map { HasMap graph.now drawing.now.orders drawing.now.next }
    requires map { map.now ≡ map_of (drawn_web graph.now drawing.now.orders) drawing.now.next }
    requires few { length map.now.next ≤ 2 ^ 31 }
    ensures { let d = drawing.now in
        MatchResult result (λ _. HasCrossings graph.now d.orders d.next) (IsCause graph.now d.orders d.next) }
{
    match touch(&drawing.orders, map) {
        None => Ok(()),
        Some((e, f)) => Err(DrawErr::Flaw(DrawFlaw::Touch(e, f))),
    }
}

//! Edges that touch, that cross, and both; a simple drawing, and an edge with a kink.
use super::*;
use std::alloc::{AllocError, Global};
use std::test::Fail;
use xn_draw::examine;
use xn_graph::{Graph, Web};
use xn_insert::{Loose, Walks};
use xn_kinds::{Drawing, Orders};
use xn_list::Sequence;
use xn_map::Map;
use xn_orders::{orders_flaw, planarise};

/// The edges of K5.
const K5: [(u32, u32); 10] = [
    (0, 1),
    (0, 2),
    (0, 3),
    (0, 4),
    (1, 2),
    (1, 3),
    (1, 4),
    (2, 3),
    (2, 4),
    (3, 4),
];
/// The rotation of a drawing of K5 in which edge 9 crosses edge 0.
const K5_TURNS: [u32; 24] = [
    6, 22, 21, 14, 8, 16, 4, 20, 0, 19, 12, 18, 3, 17, 10, 23, 11, 7, 5, 15, 13, 1, 2, 9,
];

/// Orders of this many edges: each pair has an edge, and the next in its list.
fn orders(alloc: Global, edges: u32, pairs: &[(u32, u32)]) -> Result<Orders, AllocError> {
    let mut orders = Orders::new(Vec::new(alloc));
    for e in 0..edges {
        let mut list = Vec::new(alloc);
        for (edge, crosser) in pairs {
            if *edge == e {
                list.push(*crosser)?;
            }
        }
        orders.push(list)?;
    }
    Ok(orders)
}

/// What is left of a flat map with these turns, in which the edges meet as listed.
fn untouched(
    alloc: Global,
    nodes: u32,
    ends: &[(u32, u32)],
    pairs: &[(u32, u32)],
    turns: &[u32],
) -> Result<Drawing, Fail> {
    let graph = Graph::make(nodes, Vec::from_slice(alloc, ends)?)?;
    let edges = graph.all_edges(alloc)?;
    let orders = orders(alloc, graph.edges(), pairs)?;
    if orders.len() != edges.len() {
        return Err("lists of another number")?;
    }
    match orders_flaw(alloc, &graph, &edges, &orders)? {
        Some(_) => Err("no orders")?,
        None => {
            let web = planarise(alloc, &graph, &edges, &orders)?;
            let map = Map::make(alloc, web, turns)?;
            if !map.is_flat(alloc)? {
                return Err("not flat")?;
            }
            Ok(untouch(alloc, &graph, &orders, map)?)
        }
    }
}

/// What a drawing with these lists and turns comes to, which is taken as a loose one.
fn simplified(
    alloc: Global,
    nodes: u32,
    ends: &[(u32, u32)],
    pairs: &[(u32, u32)],
    turns: &[u32],
) -> Result<Drawing, Fail> {
    let graph = Graph::make(nodes, Vec::from_slice(alloc, ends)?)?;
    let orders = orders(alloc, graph.edges(), pairs)?;
    let next = Sequence::new(Vec::from_slice(alloc, turns)?);
    let drawing = Drawing { orders, next };
    examine(alloc, &graph, &drawing)?;
    let edges = graph.all_edges(alloc)?;
    let web = planarise(alloc, &graph, &edges, &drawing.orders)?;
    let map = Map::make(alloc, web, drawing.next.as_slice())?;
    let loose = Loose::start(alloc, &graph, &edges, &drawing.orders, map)?;
    Ok(simplify(alloc, &graph, loose)?)
}

/// Whether a drawing has these lists, each pair an edge and the next in its list, and these turns.
fn is(
    alloc: Global,
    drawing: &Drawing,
    pairs: &[(usize, u32)],
    turns: &[u32],
) -> Result<bool, AllocError> {
    let mut found = Vec::new(alloc);
    for e in 0..drawing.orders.len() {
        for f in drawing.orders.at(e) {
            found.push((e, *f))?;
        }
    }
    Ok(found.as_slice() == pairs && drawing.next.as_slice() == turns)
}

#[test]
fn k5_keeps_its_crossing(rt: HostRuntime) -> Result<(), Fail> {
    let drawing = untouched(rt.alloc(), 5, &K5, &[(0, 9), (9, 0)], &K5_TURNS)?;
    assert!(rt; is(rt.alloc(), &drawing, &[(0, 9), (9, 0)], &K5_TURNS)?);
    Ok(())
}

#[test]
fn two_edges_that_touch_come_apart(rt: HostRuntime) -> Result<(), Fail> {
    let pairs = [(0, 1), (1, 0)];
    let crosses = [0, 5, 6, 3, 4, 2, 1, 7];
    let touches = [0, 2, 5, 3, 4, 6, 1, 7];
    let turned = [0, 6, 1, 3, 4, 2, 5, 7];
    let one = untouched(rt.alloc(), 4, &[(0, 1), (2, 3)], &pairs, &crosses)?;
    assert!(rt; is(rt.alloc(), &one, &[(0, 1), (1, 0)], &crosses)?);
    let two = untouched(rt.alloc(), 4, &[(0, 1), (2, 3)], &pairs, &touches)?;
    assert!(rt; is(rt.alloc(), &two, &[], &[0, 1, 2, 3])?);
    let three = untouched(rt.alloc(), 4, &[(1, 0), (2, 3)], &pairs, &turned)?;
    assert!(rt; is(rt.alloc(), &three, &[], &[0, 1, 2, 3])?);
    Ok(())
}

#[test]
fn an_edge_that_touches_one_and_crosses_another(rt: HostRuntime) -> Result<(), Fail> {
    let ends = [(0, 1), (2, 3), (4, 5)];
    let pairs = [(0, 1), (0, 2), (1, 0), (2, 0)];
    let turns = [0, 2, 7, 11, 12, 5, 6, 8, 1, 9, 10, 4, 3, 13];
    let drawing = untouched(rt.alloc(), 6, &ends, &pairs, &turns)?;
    let left = [0, 7, 8, 3, 4, 5, 6, 2, 1, 9];
    assert!(rt; is(rt.alloc(), &drawing, &[(0, 2), (2, 0)], &left)?);
    Ok(())
}

#[test]
fn a_simple_drawing_stays(rt: HostRuntime) -> Result<(), Fail> {
    let drawing = simplified(rt.alloc(), 5, &K5, &[(0, 9), (9, 0)], &K5_TURNS)?;
    assert!(rt; is(rt.alloc(), &drawing, &[(0, 9), (9, 0)], &K5_TURNS)?);
    Ok(())
}

/// An edge that crosses itself is straightened.
#[test]
fn a_kink_goes(rt: HostRuntime) -> Result<(), Fail> {
    let alloc = rt.alloc();
    let graph = Graph::make(2, [(0, 1)].to_vec(alloc)?)?;
    let web = Web::make(3, [(0, 2), (2, 2), (2, 1)].to_vec(alloc)?)?;
    let map = Map::make(alloc, web, &[0, 3, 4, 2, 1, 5])?;
    let walks = Walks::new(vec![in alloc; [0, 2, 4].to_vec(alloc)?]?);
    let loose = Loose::make(alloc, &graph, map, walks)?;
    let drawing = simplify(alloc, &graph, loose)?;
    assert!(rt; is(alloc, &drawing, &[], &[0, 1])?);
    Ok(())
}

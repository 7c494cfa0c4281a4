//! Two nodes and the edge between them, edges that come in one after the other, and an edge with a kink.
ghost use Rattle.std.specs.Prelude.{◌≡◌, [], IfOk};
ghost use Rattle.xn_insert.specs.ListedLoose.{IsLooseOf, edges_in};

use super::*;
use std::alloc::Global;
use std::process::Abort;
use std::test::Fail;
use xn_graph::{Euler, Graph, Web};
use xn_kinds::Orders;
use xn_map::Map;
use xn_orders::{orders_flaw, planarise};

/// The loose drawing of one edge.
fn one_edge(rt: &impl Abort, alloc: Global) -> Result<Loose, Fail> {
    let graph = Graph::make(2, [(0, 1)].to_vec(alloc)?)?;
    let kept = graph.all_edges(alloc)?;
    let orders = Orders::new(vec![in alloc; Vec::new(alloc)]?);
    assert!(rt; orders.len() == kept.len());
    match orders_flaw(alloc, &graph, &kept, &orders)? {
        Some(_) => Err("no orders")?,
        None => {
            let web = planarise(alloc, &graph, &kept, &orders)?;
            let map = Map::make(alloc, web, &[0, 1])?;
            let flat = map.is_flat(alloc)?;
            assert!(rt; flat);
            Ok(Loose::start(alloc, &graph, &kept, &orders, map)?)
        }
    }
}

#[test]
fn one_edge_is_walked(rt: HostRuntime) -> Result<(), Fail> {
    let loose = one_edge(&rt, rt.alloc())?;
    assert_eq!(rt; loose.crossings(), 0);
    assert!(rt; loose.whole());
    let (map, walks) = loose.into_parts();
    assert_eq!(rt; map.web().segments(), 1);
    assert!(rt; walks.len() == 1);
    assert_eq!(rt; walks.at(0), [0].as_slice());
    Ok(())
}

/// The loose drawing of no edge.
fn no_edge(alloc: Global, graph: &Graph) -> Result<Loose, Fail>
    ensures { IfOk result (λ l. IsLooseOf graph.now l × (edges_in l ≡ [])) }
{
    let web = Web::make(graph.nodes(), Vec::new(alloc))?;
    let map = Map::make(alloc, web, &[])?;
    if !map.is_flat(alloc)? {
        return Err("not flat")?;
    }
    let orders = Orders::new(Vec::new(alloc));
    Ok(Loose::start(alloc, graph, &[], &orders, map)?)
}

/// The numbers of crossings and of segments once all edges came in, in their order.
fn all_come_in(rt: &impl Abort, alloc: Global, graph: &Graph) -> Result<(u64, u32), Fail> {
    let mut loose = no_edge(alloc, graph)?;
    for e in 0..graph.edges() {
        assert!(rt; loose.crossings() <= 1_000);
        loose.insert(alloc, graph, e)?;
    }
    assert!(rt; loose.whole());
    let crossings = loose.crossings();
    let (map, _) = loose.into_parts();
    Ok((crossings, map.web().segments()))
}

/// The same of the graph with these ends.
fn counts(
    rt: &impl Abort,
    alloc: Global,
    nodes: u32,
    ends: &[(u32, u32)],
) -> Result<(u64, u32), Fail> {
    let graph = Graph::make(nodes, Vec::from_slice(alloc, ends)?)?;
    all_come_in(rt, alloc, &graph)
}

/// What is made of one edge and a web with a loop at a third node, with these turns and this walk.
fn kinked(alloc: Global, turns: &[u32], walk: &[u32]) -> Result<Result<Loose, LooseErr>, Fail> {
    let graph = Graph::make(2, [(0, 1)].to_vec(alloc)?)?;
    let web = Web::make(3, [(0, 2), (2, 2), (2, 1)].to_vec(alloc)?)?;
    let map = Map::make(alloc, web, turns)?;
    let walks = Walks::new(vec![in alloc; walk.to_vec(alloc)?]?);
    Ok(Loose::make(alloc, &graph, map, walks))
}

/// What is made of K4 without crossings, with these turns and the walks of so many edges.
fn of_k4(alloc: Global, turns: &[u32], edges: u32) -> Result<Result<Loose, LooseErr>, Fail> {
    let ends = [(0, 1), (0, 2), (0, 3), (1, 2), (1, 3), (2, 3)];
    let graph = Graph::make(4, ends.to_vec(alloc)?)?;
    let web = Web::make(4, ends.to_vec(alloc)?)?;
    let map = Map::make(alloc, web, turns)?;
    let mut walks = Vec::new(alloc);
    for e in 0..edges.min(6) {
        walks.push([2 * e].to_vec(alloc)?)?;
    }
    Ok(Loose::make(alloc, &graph, map, Walks::new(walks)))
}

/// The flaw, where there is one.
fn flaw_of(made: Result<Loose, LooseErr>) -> Option<LooseFlaw> {
    match made {
        Err(LooseErr::Flaw(flaw)) => Some(flaw),
        _ => None,
    }
}

/// A walk is missing; all are there; and turns with two faces in place of four.
#[test]
fn a_drawing_of_k4(rt: HostRuntime) -> Result<(), Fail> {
    let alloc = rt.alloc();
    let flat = [2, 8, 4, 7, 0, 11, 1, 10, 6, 5, 3, 9];
    let twisted = [2, 6, 4, 7, 0, 9, 8, 10, 1, 11, 3, 5];
    assert_eq!(rt; flaw_of(of_k4(alloc, &flat, 5)?), Some(LooseFlaw::Size));
    assert_eq!(rt; flaw_of(of_k4(alloc, &flat, 6)?), None);
    let counts = Euler {
        v: 4,
        e: 6,
        f: 2,
        c: 1,
    };
    assert_eq!(rt;
        flaw_of(of_k4(alloc, &twisted, 6)?),
        Some(LooseFlaw::Genus(counts))
    );
    Ok(())
}

/// An edge crosses itself; its walk begins late, and leaves its loop out; it touches itself.
#[test]
fn an_edge_with_a_kink(rt: HostRuntime) -> Result<(), Fail> {
    let alloc = rt.alloc();
    let crosses = [0, 3, 4, 2, 1, 5];
    let touches = [0, 2, 3, 4, 1, 5];
    match kinked(alloc, &crosses, &[0, 2, 4])? {
        Ok(loose) => assert_eq!(rt; loose.crossings(), 1),
        Err(_) => Err("refused")?,
    }
    assert_eq!(rt;
        flaw_of(kinked(alloc, &crosses, &[2, 4])?),
        Some(LooseFlaw::Ends(0))
    );
    assert_eq!(rt;
        flaw_of(kinked(alloc, &crosses, &[0, 4])?),
        Some(LooseFlaw::Walked(1))
    );
    assert_eq!(rt;
        flaw_of(kinked(alloc, &touches, &[0, 2, 4])?),
        Some(LooseFlaw::Turn(2))
    );
    Ok(())
}

/// Components are joined, a cycle is closed, and the last edge of K5 has to cross another.
#[test]
fn edges_come_in(rt: HostRuntime) -> Result<(), Fail> {
    let alloc = rt.alloc();
    let cycle = [(0, 1), (2, 3), (1, 2), (3, 0)];
    assert_eq!(rt; counts(&rt, alloc, 4, &cycle)?, (0, 4));
    let k5 = [
        (0, 1),
        (0, 2),
        (0, 3),
        (0, 4),
        (1, 2),
        (1, 3),
        (1, 4),
        (2, 3),
        (2, 4),
        (3, 4),
    ];
    assert_eq!(rt; counts(&rt, alloc, 5, &k5)?, (1, 12));
    Ok(())
}

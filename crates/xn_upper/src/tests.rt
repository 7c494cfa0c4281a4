//! Small graphs, whose crossing numbers are known.
ghost use Rattle.std.specs.Prelude.{◌<◌};

use super::*;
use crate::flat_starts::flat_start;
use crate::uppers::all_in;
use std::alloc::{AllocError, Global};
use std::process::Abort;
use std::test::Fail;
use xn_draw::examine;
use xn_graph::Graph;
use xn_simple::simplify;

/// The edges of the complete graph.
fn complete(alloc: Global, n: u32) -> Result<Vec<(u32, u32)>, AllocError> {
    let mut ends = Vec::new(alloc);
    for i in 0..n {
        for j in i + 1..n {
            ends.push((i, j))?;
        }
    }
    Ok(ends)
}

/// The edges of the complete graph with two sides.
fn two_sides(alloc: Global, a: u32, b: u32) -> Result<Vec<(u32, u32)>, AllocError>
    requires a { a < 1000 }
    requires b { b < 1000 }
{
    let mut ends = Vec::new(alloc);
    for i in 0..a {
        for j in 0..b {
            ends.push((i, a + j))?;
        }
    }
    Ok(ends)
}

/// The edges of a ring of n nodes, of a star in n nodes more, in which each is joined to the one k on, and between the two.
fn ring_and_star(alloc: Global, n: u32, k: u32) -> Result<Vec<(u32, u32)>, AllocError>
    requires n { 0 < n }
    requires few { n < 1000 }
    requires k { k < 1000 }
{
    let mut ends = Vec::new(alloc);
    for i in 0..n {
        ends.push((i, (i + 1) % n))?;
    }
    for i in 0..n {
        ends.push((i, n + i))?;
    }
    for i in 0..n {
        ends.push((n + i, n + (i + k) % n))?;
    }
    Ok(ends)
}

/// The crossings of the drawing that is found.
fn crossings(alloc: Global, nodes: u32, ends: Vec<(u32, u32)>, tries: u32) -> Result<u64, Fail>
    requires { 0 < tries }
{
    let graph = Graph::make(nodes, ends)?;
    let drawing = upper(alloc, &graph, tries)?;
    match examine(alloc, &graph, &drawing) {
        Ok(seen) => Ok(seen.crossings),
        Err(_) => Err("no drawing")?,
    }
}

/// The crossings once those edges came in that don't lie flat with the others, and those of the simple drawing.
fn others_come_in(
    rt: &impl Abort,
    alloc: Global,
    nodes: u32,
    ends: Vec<(u32, u32)>,
) -> Result<(u64, u64), Fail> {
    let graph = Graph::make(nodes, ends)?;
    let order = graph.all_edges(alloc)?;
    let flat = flat_start(alloc, &graph, &order)?;
    assert!(rt; flat.crossings() == 0);
    assert!(rt; !flat.whole());
    let loose = all_in(alloc, &graph, &order)?;
    assert!(rt; loose.whole());
    let crossings = loose.crossings();
    let drawing = simplify(alloc, &graph, loose)?;
    match examine(alloc, &graph, &drawing) {
        Ok(seen) => Ok((crossings, seen.crossings)),
        Err(_) => Err("no drawing")?,
    }
}

/// Nine edges of K5 lie flat, and the last has to cross one.
#[test]
fn the_last_edge_of_k5_comes_in(rt: HostRuntime) -> Result<(), Fail> {
    let k5 = complete(rt.alloc(), 5)?;
    assert_eq!(rt; others_come_in(&rt, rt.alloc(), 5, k5)?, (1, 1));
    Ok(())
}

#[test]
fn one_order_serves_small_graphs(rt: HostRuntime) -> Result<(), Fail> {
    assert!(rt; crossings(rt.alloc(), 4, complete(rt.alloc(), 4)?, 1)? == 0);
    assert!(rt; crossings(rt.alloc(), 5, complete(rt.alloc(), 5)?, 1)? == 1);
    assert!(rt; crossings(rt.alloc(), 6, two_sides(rt.alloc(), 3, 3)?, 1)? == 1);
    assert!(rt; crossings(rt.alloc(), 6, complete(rt.alloc(), 6)?, 1)? == 3);
    let parallel = [(1, 0), (0, 1), (2, 3), (3, 2), (3, 2)].to_vec(rt.alloc())?;
    assert!(rt; crossings(rt.alloc(), 4, parallel, 1)? == 0);
    Ok(())
}

#[test]
fn ten_orders_serve_greater_ones(rt: HostRuntime) -> Result<(), Fail> {
    assert!(rt; crossings(rt.alloc(), 10, ring_and_star(rt.alloc(), 5, 2)?, 10)? == 2);
    assert!(rt; crossings(rt.alloc(), 20, ring_and_star(rt.alloc(), 10, 3)?, 10)? == 6);
    assert!(rt; crossings(rt.alloc(), 8, complete(rt.alloc(), 8)?, 10)? == 18);
    assert!(rt; crossings(rt.alloc(), 9, two_sides(rt.alloc(), 4, 5)?, 10)? == 8);
    Ok(())
}

#[test]
fn a_graph_without_edges_has_no_crossing(rt: HostRuntime) -> Result<(), Fail> {
    assert!(rt; crossings(rt.alloc(), 0, Vec::new(rt.alloc()), 1)? == 0);
    assert!(rt; crossings(rt.alloc(), 3, Vec::new(rt.alloc()), 2)? == 0);
    Ok(())
}

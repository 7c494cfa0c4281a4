//! Stated changes of a triangle, and the crossing of K5 resolved.
use super::*;
use std::alloc::{AllocError, Global};
use std::process::Abort;
use std::test::Fail;
use xn_graph::{Euler, Web};
use xn_map::Map;

/// The map of these nodes, ends and successors.
fn map(alloc: Global, nodes: u32, ends: &[(u32, u32)], next: &[u32]) -> Result<Map, Fail> {
    let web = Web::make(nodes, Vec::from_slice(alloc, ends)?)?;
    Ok(Map::make(alloc, web, next)?)
}

/// The segments of a triangle.
const TRIANGLE: [(u32, u32); 3] = [(0, 2), (2, 1), (0, 1)];
/// Its rotation.
const TURNS: [u32; 6] = [4, 2, 1, 5, 0, 3];

/// A triangle.
fn triangle(alloc: Global) -> Result<Map, Fail> {
    map(alloc, 3, &TRIANGLE, &TURNS)
}

/// K5 with edge 9 across edge 0: its segments. The crossing is node 5.
const K5: [(u32, u32); 12] = [
    (0, 5),
    (5, 1),
    (0, 2),
    (0, 3),
    (0, 4),
    (1, 2),
    (1, 3),
    (1, 4),
    (2, 3),
    (2, 4),
    (3, 5),
    (5, 4),
];
/// Its rotation.
const K5_TURNS: [u32; 24] = [
    6, 22, 21, 14, 8, 16, 4, 20, 0, 19, 12, 18, 3, 17, 10, 23, 11, 7, 5, 15, 13, 1, 2, 9,
];

/// Splits the node of two darts.
fn split(rt: &impl Abort, map: &mut Map, a: u32, b: u32) -> Result<u32, AllocError> {
    let segments = map.web().segments();
    assert!(rt; map.web().nodes() < 1 << 30);
    assert!(rt; a < 2 * segments && b < 2 * segments && a != b);
    assert!(rt; map.tail(a) == map.tail(b));
    split_node(map, a, b)
}

/// Takes away the node of two darts, that of the smaller segment first.
fn pass(rt: &impl Abort, map: &mut Map, p: u32, q: u32) {
    let darts = 2 * map.web().segments();
    assert!(rt; p < darts);
    assert!(rt; q < darts);
    assert!(rt; p / 2 < q / 2);
    let second = map.next(p);
    assert!(rt; second == q);
    let first = map.next(q);
    assert!(rt; first == p);
    let v = map.tail(p);
    smooth(map, v);
}

/// Takes a segment out.
fn delete(rt: &impl Abort, map: &mut Map, s: u32) {
    assert!(rt; s < map.web().segments());
    delete_edge(map, s);
}

/// Takes away the node of a dart, the least of four. The first two come together, or the second and the third.
fn part(rt: &impl Abort, map: &mut Map, a: u32, how: Way) -> Result<(), AllocError> {
    assert!(rt; map.web().nodes() < 1 << 30);
    assert!(rt; a < 2 * map.web().segments());
    let b = map.next(a);
    let c = map.next(b);
    let d = map.next(c);
    let e = map.next(d);
    assert!(rt; e == a);
    assert!(rt; a < b);
    assert!(rt; a < c);
    assert!(rt; a < d);
    assert!(rt; a / 2 != b / 2);
    assert!(rt; c / 2 != d / 2);
    assert!(rt; c / 2 != a / 2);
    assert!(rt; c / 2 != b / 2);
    assert!(rt; d / 2 != a / 2);
    let v = map.tail(a);
    resolve(map, v, how)
}

/// How many segments lead between two nodes.
fn between(map: &Map, u: u32, v: u32) -> usize {
    (0..map.web().segments())
        .filter(|s| map.web().end(*s) == (u, v) || map.web().end(*s) == (v, u))
        .count()
}

/// The counts of a map.
fn counts(v: u64, e: u64, f: u64, c: u64) -> Euler {
    Euler { v, e, f, c }
}

#[test]
fn a_triangle_is_split(rt: HostRuntime) -> Result<(), Fail> {
    let mut map = triangle(rt.alloc())?;
    assert_eq!(rt; split(&rt, &mut map, 1, 2)?, 3);
    assert_eq!(rt; map.euler(rt.alloc())?, counts(4, 3, 1, 1));
    Ok(())
}

#[test]
fn a_node_of_a_triangle_is_smoothed(rt: HostRuntime) -> Result<(), Fail> {
    let mut map = triangle(rt.alloc())?;
    pass(&rt, &mut map, 1, 2);
    assert_eq!(rt; map.euler(rt.alloc())?, counts(2, 2, 2, 1));
    assert_eq!(rt; between(&map, 0, 1), 2);
    Ok(())
}

#[test]
fn a_segment_of_a_triangle_is_deleted(rt: HostRuntime) -> Result<(), Fail> {
    let mut map = triangle(rt.alloc())?;
    delete(&rt, &mut map, 2);
    assert_eq!(rt; map.euler(rt.alloc())?, counts(3, 2, 1, 1));
    Ok(())
}

#[test]
fn the_crossing_of_k5_resolved(rt: HostRuntime) -> Result<(), Fail> {
    let mut k5 = map(rt.alloc(), 6, &K5, &K5_TURNS)?;
    assert_eq!(rt; k5.euler(rt.alloc())?, counts(6, 12, 8, 1));
    part(&rt, &mut k5, 1, Way::First)?;
    assert_eq!(rt; k5.euler(rt.alloc())?, counts(5, 10, 7, 1));
    assert_eq!(rt; between(&k5, 0, 4), 2);
    assert_eq!(rt; between(&k5, 1, 3), 2);
    Ok(())
}

#[test]
fn the_crossing_of_k5_resolved_the_other_way(rt: HostRuntime) -> Result<(), Fail> {
    let mut k5 = map(rt.alloc(), 6, &K5, &K5_TURNS)?;
    part(&rt, &mut k5, 1, Way::Second)?;
    assert_eq!(rt; k5.euler(rt.alloc())?, counts(5, 10, 7, 1));
    assert_eq!(rt; between(&k5, 1, 4), 2);
    assert_eq!(rt; between(&k5, 0, 3), 2);
    Ok(())
}

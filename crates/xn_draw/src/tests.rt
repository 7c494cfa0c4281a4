use super::*;
use std::alloc::{AllocError, Global};
use std::test::Fail;
use xn_graph::{Euler, Graph};
use xn_kinds::{DrawFlaw, Drawing, Orders};
use xn_list::Sequence;

/// The edges of K4.
const K4: [(u32, u32); 6] = [(0, 1), (0, 2), (0, 3), (1, 2), (1, 3), (2, 3)];
/// The edges of K5.
const K5: [(u32, u32); 10] = [
    (0, 1),
    (0, 2),
    (0, 3),
    (0, 4),
    (1, 2),
    (1, 3),
    (1, 4),
    (2, 3),
    (2, 4),
    (3, 4),
];
/// The rotation of a drawing of K4 without crossings.
const K4_TURNS: [u32; 12] = [2, 8, 4, 7, 0, 11, 1, 10, 6, 5, 3, 9];
/// The rotation of a drawing of K5 in which edge 9 crosses edge 0.
const K5_TURNS: [u32; 24] = [
    6, 22, 21, 14, 8, 16, 4, 20, 0, 19, 12, 18, 3, 17, 10, 23, 11, 7, 5, 15, 13, 1, 2, 9,
];

/// The graph of these nodes and ends.
fn graph(alloc: Global, nodes: u32, ends: &[(u32, u32)]) -> Result<Graph, Fail> {
    Ok(Graph::make(nodes, Vec::from_slice(alloc, ends)?)?)
}

/// Orders of this many edges: each pair has an edge, and the next in its list.
fn orders(alloc: Global, edges: u32, pairs: &[(u32, u32)]) -> Result<Orders, AllocError> {
    let mut lists = Vec::new(alloc);
    for e in 0..edges {
        let mut list = Vec::new(alloc);
        for (edge, crosser) in pairs {
            if *edge == e {
                list.push(*crosser)?;
            }
        }
        lists.push(list)?;
    }
    Ok(Orders::new(lists))
}

/// The turn of a dart: the changed one, or that of the list, or 0.
fn turn_of(turns: &[u32], changes: &[(u32, u32)], d: usize) -> u32 {
    for (dart, turn) in changes {
        if *dart as usize == d {
            return *turn;
        }
    }
    match turns.get(d) {
        Some(turn) => *turn,
        None => 0,
    }
}

/// What is answered of lists, and of turns of which some are changed, each to the number beside it.
fn examined(
    alloc: Global,
    graph: &Graph,
    pairs: &[(u32, u32)],
    turns: &[u32],
    changes: &[(u32, u32)],
) -> Result<Result<Seen, DrawErr>, Fail> {
    let mut next = Vec::new(alloc);
    for d in 0..turns.len() {
        next.push(turn_of(turns, changes, d))?;
    }
    let orders = orders(alloc, graph.edges(), pairs)?;
    let next = Sequence::new(next);
    let drawing = Drawing { orders, next };
    Ok(examine(alloc, graph, &drawing))
}

/// What is seen of a drawing with these numbers.
fn seen(crossings: u64, v: u64, e: u64, f: u64, c: u64) -> Result<Seen, DrawErr> {
    let euler = Euler { v, e, f, c };
    Ok(Seen { crossings, euler })
}

/// The refusal for this flaw.
fn refused(flaw: DrawFlaw) -> Result<Seen, DrawErr> {
    Err(DrawErr::Flaw(flaw))
}

#[test]
fn drawings_of_k4_are_examined(rt: HostRuntime) -> Result<(), Fail> {
    let k4 = graph(rt.alloc(), 4, &K4)?;
    let answer = examined(rt.alloc(), &k4, &[], &K4_TURNS, &[])?;
    assert_eq!(rt; answer, seen(0, 4, 6, 4, 1));
    let on_torus = [(5, 9), (8, 6), (9, 11), (11, 5)];
    let answer = examined(rt.alloc(), &k4, &[], &K4_TURNS, &on_torus)?;
    assert_eq!(rt;
        answer,
        refused(DrawFlaw::Genus(Euler {
            v: 4,
            e: 6,
            f: 2,
            c: 1
        }))
    );
    let answer = examined(rt.alloc(), &k4, &[], &K4_TURNS, &[(0, 2), (1, 2)])?;
    assert_eq!(rt; answer, refused(DrawFlaw::Rotation(1)));
    let answer = examined(rt.alloc(), &k4, &[(0, 1), (1, 0)], &[0; 16], &[])?;
    assert_eq!(rt; answer, refused(DrawFlaw::Dependent(0, 1)));
    let answer = examined(rt.alloc(), &k4, &[], &[0; 11], &[])?;
    assert_eq!(rt; answer, refused(DrawFlaw::Length));
    Ok(())
}

#[test]
fn drawings_of_k5_are_examined(rt: HostRuntime) -> Result<(), Fail> {
    let k5 = graph(rt.alloc(), 5, &K5)?;
    let crossing = [(0, 9), (9, 0)];
    let answer = examined(rt.alloc(), &k5, &crossing, &K5_TURNS, &[])?;
    assert_eq!(rt; answer, seen(1, 6, 12, 8, 1));
    let touching = [(1, 21), (2, 1), (20, 13), (21, 22)];
    let answer = examined(rt.alloc(), &k5, &crossing, &K5_TURNS, &touching)?;
    assert_eq!(rt; answer, refused(DrawFlaw::Touch(0, 9)));
    let answer = examined(rt.alloc(), &k5, &[(0, 9)], &[0; 22], &[])?;
    assert_eq!(rt; answer, refused(DrawFlaw::Order(0, 9)));
    let answer = examined(rt.alloc(), &k5, &[(0, 9), (0, 9), (9, 0)], &[0; 26], &[])?;
    assert_eq!(rt; answer, refused(DrawFlaw::Order(0, 9)));
    let answer = examined(rt.alloc(), &k5, &[(0, 10)], &[0; 22], &[])?;
    assert_eq!(rt; answer, refused(DrawFlaw::Order(0, 10)));
    let answer = examined(rt.alloc(), &k5, &[(0, 1), (1, 0), (5, 0)], &[0; 26], &[])?;
    assert_eq!(rt; answer, refused(DrawFlaw::Order(5, 0)));
    let answer = examined(rt.alloc(), &k5, &[(0, 0)], &[0; 22], &[])?;
    assert_eq!(rt; answer, refused(DrawFlaw::Dependent(0, 0)));
    Ok(())
}

#[test]
fn components_are_balanced_together(rt: HostRuntime) -> Result<(), Fail> {
    let mut ends = Vec::from_slice(rt.alloc(), &K5)?;
    ends.push((5, 6))?;
    ends.push((7, 8))?;
    let graph = Graph::make(9, ends)?;
    let mut turns = Vec::from_slice(rt.alloc(), &K5_TURNS)?;
    turns.extend_from_slice(&[24, 25, 26, 27])?;
    let answer = examined(rt.alloc(), &graph, &[(0, 9), (9, 0)], turns.as_slice(), &[])?;
    assert_eq!(rt; answer, seen(1, 10, 14, 10, 3));
    Ok(())
}

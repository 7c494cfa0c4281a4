//! Stated lists over K5: the first flaws of some, and the planarised graph of others.
use super::*;
use std::alloc::{AllocError, Global};
use std::test::Fail;
use xn_graph::{Graph, Web};
use xn_kinds::Orders;

/// The edges of K5.
const K5: [(u32, u32); 10] = [
    (0, 1),
    (0, 2),
    (0, 3),
    (0, 4),
    (1, 2),
    (1, 3),
    (1, 4),
    (2, 3),
    (2, 4),
    (3, 4),
];

/// Lists of these edges: each pair has an edge, and the next in its list.
fn lists(alloc: Global, edges: &[u32], pairs: &[(u32, u32)]) -> Result<Orders, AllocError> {
    let mut lists = Vec::new(alloc);
    for e in edges {
        let mut list = Vec::new(alloc);
        for (edge, crosser) in pairs {
            if *edge == *e {
                list.push(*crosser)?;
            }
        }
        lists.push(list)?;
    }
    Ok(Orders::new(lists))
}

/// The first flaw of the lists of all edges of K5 with these entries, or their planarised graph.
fn planarised(alloc: Global, pairs: &[(u32, u32)]) -> Result<Result<Web, OrdersFlaw>, Fail> {
    let k5 = Graph::make(5, Vec::from_slice(alloc, &K5)?)?;
    let edges = k5.all_edges(alloc)?;
    let orders = lists(alloc, &edges, pairs)?;
    if orders.len() != edges.len() {
        return Err("lists of another number")?;
    }
    match orders_flaw(alloc, &k5, &edges, &orders)? {
        Some(flaw) => Ok(Err(flaw)),
        None => Ok(Ok(planarise(alloc, &k5, &edges, &orders)?)),
    }
}

/// The first flaw of the lists of all edges of K5 with these entries.
fn flaw_of(alloc: Global, pairs: &[(u32, u32)]) -> Result<Option<OrdersFlaw>, Fail> {
    Ok(planarised(alloc, pairs)?.err())
}

#[test]
fn edges_are_cut_at_their_crossings(rt: HostRuntime) -> Result<(), Fail> {
    let ends = [
        (0, 5),
        (5, 1),
        (0, 2),
        (0, 3),
        (0, 4),
        (1, 2),
        (1, 3),
        (1, 4),
        (2, 3),
        (2, 4),
        (3, 5),
        (5, 4),
    ];
    match planarised(rt.alloc(), &[(0, 9), (9, 0)])? {
        Ok(web) => {
            assert_eq!(rt; web.nodes(), 6);
            assert_eq!(rt; web.segments(), 12);
            for s in 0..12u32 {
                assert_eq!(rt; web.end(s), ends[s as usize]);
            }
            Ok(())
        }
        Err(_) => Err("no orders")?,
    }
}

#[test]
fn first_flaws_of_lists(rt: HostRuntime) -> Result<(), Fail> {
    let alloc = rt.alloc();
    assert_eq!(rt; flaw_of(alloc, &[(0, 9), (9, 0)])?, None);
    assert_eq!(rt; flaw_of(alloc, &[(0, 9)])?, Some(OrdersFlaw::Stray(0, 9)));
    assert_eq!(rt; flaw_of(alloc, &[(0, 10)])?, Some(OrdersFlaw::Stray(0, 10)));
    assert_eq!(rt;
        flaw_of(alloc, &[(0, 0)])?,
        Some(OrdersFlaw::Dependent(0, 0))
    );
    Ok(())
}

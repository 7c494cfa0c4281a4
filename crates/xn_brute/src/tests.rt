ghost use Rattle.xn_model.specs.Insertion.{GrowsFromFirst};

use super::*;
use std::alloc::{AllocError, Global};
use std::test::Fail;
use xn_graph::{Graph, Web};
use xn_kinds::{Drawing, Evidence, Orders, Row};
use xn_list::{Lists, Sequence};

/// The edges of K5.
const K5: [(u32, u32); 10] = [
    (0, 1),
    (0, 2),
    (0, 3),
    (0, 4),
    (1, 2),
    (1, 3),
    (1, 4),
    (2, 3),
    (2, 4),
    (3, 4),
];

/// The edges of K3,3.
const K33: [(u32, u32); 9] = [
    (0, 3),
    (0, 4),
    (0, 5),
    (1, 3),
    (1, 4),
    (1, 5),
    (2, 3),
    (2, 4),
    (2, 5),
];

/// The orders in which just these two of count edges cross.
fn one_crossing(alloc: Global, count: u32, e: u32, f: u32) -> Result<Orders, AllocError> {
    let mut lists = Vec::new(alloc);
    for x in 0..count {
        let crosser = if x == e {
            [f].as_slice().to_vec(alloc)?
        } else if x == f {
            [e].as_slice().to_vec(alloc)?
        } else {
            Vec::new(alloc)
        };
        lists.push(crosser)?;
    }
    Ok(Orders::new(lists))
}

/// Whether the crossing of these two edges and the turns are a drawing of K5.
fn is_drawn(alloc: Global, e: u32, f: u32, next: &[u32]) -> Result<bool, Fail> {
    let graph = Graph::make(5, K5.to_vec(alloc)?)?;
    let orders = one_crossing(alloc, 10, e, f)?;
    let next = Sequence::new(next.to_vec(alloc)?);
    Ok(is_listed_drawing(alloc, &graph, &Drawing { orders, next })?)
}

#[test]
fn drawings_are_told_from_others(rt: HostRuntime) -> Result<(), Fail> {
    let turns = [
        6, 22, 21, 14, 8, 16, 4, 20, 0, 19, 12, 18, 3, 17, 10, 23, 11, 7, 5, 15, 13, 1, 2, 9,
    ];
    let touching = [
        6, 21, 1, 14, 8, 16, 4, 20, 0, 19, 12, 18, 3, 17, 10, 23, 11, 7, 5, 15, 13, 22, 2, 9,
    ];
    assert!(rt; is_drawn(rt.alloc(), 0, 9, &turns)?);
    assert!(rt; !is_drawn(rt.alloc(), 0, 9, &touching)?);
    assert!(rt; !is_drawn(rt.alloc(), 0, 9, &turns[..23])?);
    assert!(rt; !is_drawn(rt.alloc(), 0, 8, &turns)?);
    assert!(rt; !is_drawn(rt.alloc(), 0, 1, &turns)?);
    Ok(())
}

/// Whether flat insertions in this order lead to a map of these segments.
fn grows(alloc: Global, nodes: u32, ends: &[(u32, u32)], list: &[u32]) -> Result<bool, Fail>
    requires { GrowsFromFirst ends.now list.now }
{
    let web = Web::make(nodes, ends.to_vec(alloc)?)?;
    Ok(extends_by_search(alloc, &web, list)?)
}

#[test]
fn five_nodes_do_not_grow_in_the_plane(rt: HostRuntime) -> Result<(), Fail> {
    let alloc = rt.alloc();
    assert!(rt; grows(alloc, 3, &[(0, 1), (1, 2), (0, 2)], &[0, 1, 2])?);
    assert!(rt; grows(alloc, 5, &K5, &[0, 1, 2, 3, 4, 5, 6, 7, 8])?);
    assert!(rt; !grows(alloc, 5, &K5, &[0, 1, 2, 3, 4, 5, 6, 7, 8, 9])?);
    Ok(())
}

#[test]
fn the_row_of_two_far_edges_has_its_bounds(rt: HostRuntime) -> Result<(), Fail> {
    let alloc = rt.alloc();
    let graph = Graph::make(4, [(0, 1), (2, 3)].to_vec(alloc)?)?;
    let row = Row {
        edges: Sequence::new([0, 1].to_vec(alloc)?),
        orders: one_crossing(alloc, 2, 0, 1)?,
        evidence: Evidence::Extension {
            list: Sequence::new(Vec::new(alloc)),
        },
    };
    let rows = vec![in alloc; row]?;
    let open = Given {
        decided: Sequence::new(Vec::new(alloc)),
        placed: Lists::new(Vec::new(alloc)),
    };
    let crossed = Given {
        decided: Sequence::new([(0, 1, true)].to_vec(alloc)?),
        placed: Lists::new(Vec::new(alloc)),
    };
    let leaf = Leaf {
        graph: &graph,
        rows: &rows,
        d: 2,
        parts: &[(0, 5)],
    };
    assert!(rt; is_small(&leaf));
    assert_eq!(rt; bound_by_search(alloc, &leaf, &open)?, 0);
    assert_eq!(rt; bound_by_search(alloc, &leaf, &crossed)?, 7);
    Ok(())
}

/// The crossing number of a graph, where it is below the bound.
fn found(alloc: Global, nodes: u32, ends: &[(u32, u32)], bound: u32) -> Result<Option<u32>, Fail> {
    let graph = Graph::make(nodes, ends.to_vec(alloc)?)?;
    Ok(crossing_number_below(alloc, &graph, bound)?)
}

#[test]
fn small_graphs_have_their_crossing_numbers(rt: HostRuntime) -> Result<(), Fail> {
    let alloc = rt.alloc();
    assert_eq!(rt; found(alloc, 2, &[(0, 1)], 1)?, Some(0));
    assert_eq!(rt; found(alloc, 4, &[(0, 1), (2, 3)], 1)?, Some(0));
    assert_eq!(rt; found(alloc, 3, &[(0, 1), (1, 2), (0, 2)], 1)?, Some(0));
    assert_eq!(rt; found(alloc, 6, &K33, 1)?, None);
    Ok(())
}

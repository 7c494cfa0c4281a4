//! Stated rows, over K5 and two far edges: those that hold, and the first flaws of others.
ghost use Rattle.std.specs.Prelude.{IsTrue};
ghost use Rattle.xn_rows.specs.Holding.{HasPaths, HasSizes};

use super::*;
use std::alloc::{AllocError, Global};
use std::test::Fail;
use xn_graph::Graph;
use xn_kinds::{Evidence, EvidenceFlaw, Orders, Paths, Row, RowFlaw};
use xn_list::Sequence;

mod leaves;

/// The edges of K5, and two that share no node with another.
const ENDS: [(u32, u32); 12] = [
    (0, 1),
    (0, 2),
    (0, 3),
    (0, 4),
    (1, 2),
    (1, 3),
    (1, 4),
    (2, 3),
    (2, 4),
    (3, 4),
    (5, 6),
    (7, 8),
];

/// Orders of the edges below a number: each pair has an edge, and the next in its list.
fn orders(alloc: Global, edges: u32, pairs: &[(u32, u32)]) -> Result<Orders, AllocError> {
    let mut lists = Vec::new(alloc);
    for e in 0..edges {
        let mut list = Vec::new(alloc);
        for (edge, crosser) in pairs {
            if *edge == e {
                list.push(*crosser)?;
            }
        }
        lists.push(list)?;
    }
    Ok(Orders::new(lists))
}

/// A Five on the nodes of K5, whose paths are one segment each: the first path this one, each other its own.
fn five(alloc: Global, first: u32) -> Result<Evidence, AllocError> {
    let mut lists = Vec::new(alloc);
    lists.push([first].to_vec(alloc)?)?;
    for s in 1u32..10 {
        lists.push([s].to_vec(alloc)?)?;
    }
    Ok(Evidence::Five {
        branch: [0, 1, 2, 3, 4],
        paths: Paths::new(lists),
    })
}

/// An extension by the segments below a number.
fn extension(alloc: Global, segments: u32) -> Result<Evidence, AllocError> {
    Ok(Evidence::Extension {
        list: Sequence::new((0..segments).collect(alloc)?),
    })
}

/// Whether there is a list for each edge, and the paths are of the right number.
fn has_sizes(row: &Row) -> bool
    ensures { IsTrue result → HasSizes row.now }
{
    row.orders.len() == row.edges.len() && has_paths(&row.evidence)
}

/// Whether a Five has ten paths and a ThreeThree nine.
fn has_paths(evidence: &Evidence) -> bool
    ensures { IsTrue result → HasPaths evidence.now }
{
    match evidence {
        Evidence::Five { branch, paths } => branch.as_slice().len() == 5 && paths.len() == 10,
        Evidence::ThreeThree { branch, paths } => branch.as_slice().len() == 6 && paths.len() == 9,
        Evidence::Extension { .. } => true,
    }
}

/// The row of the edges below a number, with these crossings.
fn row(
    alloc: Global,
    edges: u32,
    pairs: &[(u32, u32)],
    evidence: Evidence,
) -> Result<Row, AllocError> {
    Ok(Row {
        edges: Sequence::new((0..edges).collect(alloc)?),
        orders: orders(alloc, edges, pairs)?,
        evidence,
    })
}

/// What is answered of the row of the edges below a number, with these crossings.
fn judged(
    alloc: Global,
    edges: u32,
    pairs: &[(u32, u32)],
    evidence: Evidence,
) -> Result<Result<(), RowErr>, Fail> {
    let graph = Graph::make(9, Vec::from_slice(alloc, &ENDS)?)?;
    let row = row(alloc, edges, pairs, evidence)?;
    if !has_sizes(&row) {
        return Err("a row of other sizes")?;
    }
    Ok(row_holds(alloc, &graph, &row))
}

/// What is answered where the evidence is a Five with this first path.
fn of_five(
    alloc: Global,
    edges: u32,
    pairs: &[(u32, u32)],
    first: u32,
) -> Result<Result<(), RowErr>, Fail> {
    judged(alloc, edges, pairs, five(alloc, first)?)
}

/// What is answered of ten edges without crossings, where the evidence is an extension.
fn of_extension(alloc: Global, segments: u32) -> Result<Result<(), RowErr>, Fail> {
    judged(alloc, 10, &[], extension(alloc, segments)?)
}

#[test]
fn rows_of_five_nodes(rt: HostRuntime) -> Result<(), Fail> {
    let alloc = rt.alloc();
    assert!(rt; of_five(alloc, 10, &[], 0)? == Ok(()));
    assert!(rt; of_five(alloc, 12, &[(10, 11), (11, 10)], 0)? == Ok(()));
    let ends = RowFlaw::Evidence(EvidenceFlaw::Ends(0));
    assert!(rt; of_five(alloc, 10, &[], 1)? == Err(RowErr::Flaw(ends)));
    Ok(())
}

#[test]
fn first_flaws_of_edges_and_orders(rt: HostRuntime) -> Result<(), Fail> {
    let alloc = rt.alloc();
    assert!(rt; of_five(alloc, 13, &[], 0)? == Err(RowErr::Flaw(RowFlaw::Edge(12))));
    let one_way = of_five(alloc, 10, &[(0, 9), (1, 1)], 0)?;
    assert!(rt; one_way == Err(RowErr::Flaw(RowFlaw::Order(0, 9))));
    let near = of_five(alloc, 10, &[(0, 9), (9, 0), (1, 1)], 0)?;
    assert!(rt; near == Err(RowErr::Flaw(RowFlaw::Dependent(1, 1))));
    Ok(())
}

#[test]
fn rows_of_extensions(rt: HostRuntime) -> Result<(), Fail> {
    let alloc = rt.alloc();
    assert!(rt; of_extension(alloc, 10)? == Ok(()));
    assert!(rt; of_extension(alloc, 1)? == Err(RowErr::Flaw(RowFlaw::Extends)));
    let list = RowFlaw::Evidence(EvidenceFlaw::List(0));
    assert!(rt; of_extension(alloc, 0)? == Err(RowErr::Flaw(list)));
    Ok(())
}

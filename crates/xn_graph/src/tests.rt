use super::*;
use std::alloc::Global;
use std::test::Fail;

/// The graph of these nodes and ends.
fn graph(alloc: Global, nodes: u32, ends: &[(u32, u32)]) -> Result<Graph, Fail> {
    Ok(Graph::make(nodes, Vec::from_slice(alloc, ends)?)?)
}

#[test]
fn four_nodes_have_three_pairs(rt: HostRuntime) -> Result<(), Fail> {
    let ends = [(0, 1), (0, 2), (0, 3), (1, 2), (1, 3), (2, 3)];
    let k4 = graph(rt.alloc(), 4, &ends)?;
    let pairs = k4.pairs(rt.alloc())?;
    assert_eq!(rt; k4.pair_count(), 3);
    assert_eq!(rt; pairs.as_slice(), [(0, 5), (1, 4), (2, 3)].as_slice());
    Ok(())
}

#[test]
fn three_against_three_have_eighteen_pairs(rt: HostRuntime) -> Result<(), Fail> {
    let ends = [
        (0, 3),
        (0, 4),
        (0, 5),
        (1, 3),
        (1, 4),
        (1, 5),
        (2, 3),
        (2, 4),
        (2, 5),
    ];
    let k33 = graph(rt.alloc(), 6, &ends)?;
    let pairs = k33.pairs(rt.alloc())?;
    assert_eq!(rt; k33.pair_count(), 18);
    assert_eq!(rt; pairs.len(), 18);
    assert_eq!(rt; pairs.first().copied(), Some((0, 4)));
    Ok(())
}

#[test]
fn copies_are_made(rt: HostRuntime) -> Result<(), Fail> {
    let ends = [(0, 1), (0, 1)];
    assert_eq!(rt; graph(rt.alloc(), 2, &ends)?.copy(rt.alloc())?.edges(), 2);
    let web = Web::make(2, Vec::from_slice(rt.alloc(), &ends)?)?;
    assert_eq!(rt; web.copy(rt.alloc())?.segments(), 2);
    Ok(())
}

#[test]
fn lists_of_edges_and_darts_are_made(rt: HostRuntime) -> Result<(), Fail> {
    let triangle = graph(rt.alloc(), 3, &[(0, 1), (1, 2), (2, 0)])?;
    assert_eq!(rt;
        triangle.all_edges(rt.alloc())?.as_slice(),
        [0, 1, 2].as_slice()
    );
    let web = Web::make(3, Vec::from_slice(rt.alloc(), &[(1, 0), (1, 1)])?)?;
    let stars = Stars::of(rt.alloc(), &web)?;
    assert!(rt; stars.nodes() == 3);
    assert_eq!(rt; stars.at(0), [1].as_slice());
    assert_eq!(rt; stars.at(1), [0, 2, 3].as_slice());
    assert_eq!(rt; stars.at(2).len(), 0);
    Ok(())
}

#[test]
fn refusals_have_texts(rt: HostRuntime) -> Result<(), Fail> {
    let rows = [
        (GraphErr::TooManyNodes, "more than 1000 nodes"),
        (GraphErr::TooManyEdges, "more than 1000 edges"),
        (GraphErr::End(7), "an end of edge 7 is no node"),
        (GraphErr::Loop(7), "edge 7 joins a node to itself"),
    ];
    for (error, text) in rows {
        assert_eq!(rt; format!(in rt.alloc(); "{error}")?.as_str(), text);
    }
    assert_eq!(rt;
        format!(in rt.alloc(); "{}", WebErr::End(7))?.as_str(),
        "an end of segment 7 is no node"
    );
    Ok(())
}

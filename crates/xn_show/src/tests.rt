// Drawings, and the texts that show them.
use super::*;
use std::alloc::{AllocError, Global};
use std::test::Fail;
use xn_draw::examine;
use xn_graph::Graph;
use xn_kinds::{Drawing, Orders};
use xn_list::Sequence;

/// The edges of K5.
const K5: [(u32, u32); 10] = [
    (0, 1),
    (0, 2),
    (0, 3),
    (0, 4),
    (1, 2),
    (1, 3),
    (1, 4),
    (2, 3),
    (2, 4),
    (3, 4),
];
/// The rotation of a drawing of K5 in which edge 9 crosses edge 0.
const K5_TURNS: [u32; 24] = [
    6, 22, 21, 14, 8, 16, 4, 20, 0, 19, 12, 18, 3, 17, 10, 23, 11, 7, 5, 15, 13, 1, 2, 9,
];
/// What shows it.
const K5_SHOWN: &str = r#"graph [
  directed 0
  node [ id 0 label "7" kind "input" turn "0 6 4 8" ]
  node [ id 1 label "-3" kind "input" turn "3 14 10 12" ]
  node [ id 2 label "0" kind "input" turn "5 16 11 18" ]
  node [ id 3 label "-9223372036854775808" kind "input" turn "7 20 13 17" ]
  node [ id 4 label "9223372036854775807" kind "input" turn "9 19 15 23" ]
  node [ id 5 kind "crossing" turn "1 22 2 21" ]
  edge [ id 0 source 0 target 5 of 0 ]
  edge [ id 1 source 5 target 1 of 0 ]
  edge [ id 2 source 0 target 2 of 1 ]
  edge [ id 3 source 0 target 3 of 2 ]
  edge [ id 4 source 0 target 4 of 3 ]
  edge [ id 5 source 1 target 2 of 4 ]
  edge [ id 6 source 1 target 3 of 5 ]
  edge [ id 7 source 1 target 4 of 6 ]
  edge [ id 8 source 2 target 3 of 7 ]
  edge [ id 9 source 2 target 4 of 8 ]
  edge [ id 10 source 3 target 5 of 9 ]
  edge [ id 11 source 5 target 4 of 9 ]
]
"#;
/// What shows two nodes and an edge.
const EDGE_SHOWN: &str = r#"graph [
  directed 0
  node [ id 0 label "4" kind "input" turn "0" ]
  node [ id 1 label "9" kind "input" turn "1" ]
  edge [ id 0 source 0 target 1 of 0 ]
]
"#;
/// What shows two nodes without darts.
const LONE_SHOWN: &str = r#"graph [
  directed 0
  node [ id 0 label "5" kind "input" turn "" ]
  node [ id 1 label "-1" kind "input" turn "" ]
]
"#;
/// What shows the graph without nodes.
const EMPTY_SHOWN: &str = "graph [\n  directed 0\n]\n";

/// Orders of this many edges: each pair has an edge, and the one in its list.
fn orders(alloc: Global, edges: u32, pairs: &[(u32, u32)]) -> Result<Orders, AllocError> {
    let mut lists = Vec::new(alloc);
    for e in 0..edges {
        let mut list = Vec::new(alloc);
        for (edge, crosser) in pairs {
            if *edge == e {
                list.push(*crosser)?;
            }
        }
        lists.push(list)?;
    }
    Ok(Orders::new(lists))
}

/// What shows the drawing of a graph with these ids, edges, crossings and turns.
fn shown(
    alloc: Global,
    ids: &[i64],
    ends: &[(u32, u32)],
    pairs: &[(u32, u32)],
    turns: &[u32],
) -> Result<String, Fail> {
    let graph = Graph::make(u32::try_from(ids.len())?, Vec::from_slice(alloc, ends)?)?;
    let orders = orders(alloc, graph.edges(), pairs)?;
    let next = Sequence::new(Vec::from_slice(alloc, turns)?);
    let drawing = Drawing { orders, next };
    examine(alloc, &graph, &drawing)?;
    let text = show(alloc, &graph, ids, &drawing)?;
    Ok(String::from_utf8(text)?)
}

#[test]
fn drawings_are_shown(rt: HostRuntime) -> Result<(), Fail> {
    let alloc = rt.alloc();
    let text = shown(alloc, &[4, 9], &[(0, 1)], &[], &[0, 1])?;
    assert_eq!(rt; text.as_str(), EDGE_SHOWN);
    let text = shown(alloc, &[5, -1], &[], &[], &[])?;
    assert_eq!(rt; text.as_str(), LONE_SHOWN);
    let text = shown(alloc, &[], &[], &[], &[])?;
    assert_eq!(rt; text.as_str(), EMPTY_SHOWN);
    let ids = [7, -3, 0, i64::MIN, i64::MAX];
    let text = shown(alloc, &ids, &K5, &[(0, 9), (9, 0)], &K5_TURNS)?;
    assert_eq!(rt; text.as_str(), K5_SHOWN);
    Ok(())
}

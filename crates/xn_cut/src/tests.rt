//! What the cutters give about K5.
use super::*;
use std::alloc::Global;
use std::test::Fail;
use xn_cutter::Cutter;
use xn_frac::Frac;
use xn_graph::Graph;
use xn_kinds::Var;
use xn_tree::Given;

/// The edges of K5.
const K5: [(u32, u32); 10] = [
    (0, 1),
    (0, 2),
    (0, 3),
    (0, 4),
    (1, 2),
    (1, 3),
    (1, 4),
    (2, 3),
    (2, 4),
    (3, 4),
];

// The number of edges of the row that a cutter gives in the empty state, at a point where all is 0.
fn edges_cut<C: Cutter>(alloc: Global, cutter: &mut C) -> Result<usize, Fail> {
    let graph = Graph::make(5, K5.to_vec(alloc)?)?;
    let given = Given::empty(alloc, &graph)?;
    let point: Vec<(Var, Frac)> = Vec::new(alloc);
    match cutter.cut(alloc, &graph, &given, point.as_slice())? {
        Some(row) => Ok(row.edges.len()),
        None => Ok(0),
    }
}

#[test]
fn each_cutter_gives_a_row_of_k5(rt: HostRuntime) -> Result<(), Fail> {
    let alloc = rt.alloc();
    assert_eq!(rt; edges_cut(alloc, &mut OnesCutter::new())?, 10);
    assert_eq!(rt; edges_cut(alloc, &mut RoundCutter::new())?, 10);
    assert_eq!(rt; edges_cut(alloc, &mut OrderCutter::new())?, 10);
    Ok(())
}

//! Searches with linear programs: with a cutter that knows six rows of K6, and with none.
ghost use Rattle.std.specs.Prelude.{◌≤◌, IfOk, IfSome, IsTrue};
ghost use Rattle.xn_kinds.specs.Row.{RowHolds};
ghost use Rattle.xn_rows.specs.Holding.{HasPaths, HasSizes};

use super::{K5, K6};
use crate::{answer_of, solve};
use std::alloc::{AllocError, Global};
use std::test::Fail;
use xn_cutter::Cutter;
use xn_frac::Frac;
use xn_graph::Graph;
use xn_kinds::{Evidence, Orders, Paths, Row, Var};
use xn_list::Sequence;
use xn_rows::{RowErr, row_holds};
use xn_tree::Given;

/// Gives the first of its rows that holds, and has a sum below 1 at the point.
#[derive(Drop)]
struct Known {
    rows: Vec<Row>,
}

impl Cutter for Known {
    fn cut(
        &mut self,
        alloc: Global,
        graph: &Graph,
        _given: &Given,
        point: &[(Var, Frac)],
    ) -> Result<Option<Row>, AllocError> {
        for row in &self.rows {
            let found = cut_by(alloc, graph, row, point)?;
            if let Some(copy) = found {
                return Ok(Some(copy));
            }
        }
        Ok(None)
    }
}

/// A copy of the row, if it holds, and the sum of the point over its independent pairs is below 1.
fn cut_by(
    alloc: Global,
    graph: &Graph,
    row: &Row,
    point: &[(Var, Frac)],
) -> Result<Option<Row>, AllocError>
    ensures { IfOk result (λ found. IfSome found (RowHolds graph.now)) }
{
    if !has_sizes(row) || !is_below_one(row, point) {
        return Ok(None);
    }
    match row_holds(alloc, graph, row) {
        Ok(()) => {
            let copy = row.copy(alloc)?;
            Ok(Some(copy))
        }
        Err(RowErr::Memory) => Err(AllocError),
        Err(RowErr::Flaw(_)) => Ok(None),
    }
}

/// Whether the sum of the point over the pairs of the row's edges is below 1.
fn is_below_one(row: &Row, point: &[(Var, Frac)]) -> bool {
    let edges = row.edges.as_slice();
    let mut sum = Frac::whole(0);
    for (variable, value) in point {
        if let Var::Cross(e, f) = variable {
            if edges.contains(e) && edges.contains(f) {
                match sum.add(*value) {
                    Ok(more) => sum = more,
                    Err(_) => return false,
                }
            }
        }
    }
    sum.less(Frac::whole(1))
}

/// Whether there is a list for each edge, and the paths are of the right number.
fn has_sizes(row: &Row) -> bool
    ensures { IsTrue result → HasSizes row.now }
{
    row.orders.len() == row.edges.len() && has_paths(&row.evidence)
}

/// Whether a Five has ten paths and a ThreeThree nine.
fn has_paths(evidence: &Evidence) -> bool
    ensures { IsTrue result → HasPaths evidence.now }
{
    match evidence {
        Evidence::Five { branch, paths } => branch.as_slice().len() == 5 && paths.len() == 10,
        Evidence::ThreeThree { branch, paths } => branch.as_slice().len() == 6 && paths.len() == 9,
        Evidence::Extension { .. } => true,
    }
}

/// The row of the edges of K6 that leave out a node: they are a K5, and don't cross.
fn row_without(alloc: Global, node: u32) -> Result<Row, AllocError> {
    let mut edges = Vec::new(alloc);
    let mut e: u32 = 0;
    for (u, v) in K6 {
        if u != node && v != node {
            edges.push(e)?;
        }
        e = e.wrapping_add(1);
    }
    let mut orders = Vec::new(alloc);
    let mut paths = Vec::new(alloc);
    for s in 0u32..10 {
        orders.push(Vec::new(alloc))?;
        paths.push([s].to_vec(alloc)?)?;
    }
    let branch = [
        other(node, 0),
        other(node, 1),
        other(node, 2),
        other(node, 3),
        other(node, 4),
    ];
    Ok(Row {
        edges: Sequence::new(edges),
        orders: Orders::new(orders),
        evidence: Evidence::Five {
            branch,
            paths: Paths::new(paths),
        },
    })
}

/// The i-th of the numbers that aren't this node.
fn other(node: u32, i: u32) -> u32 {
    if i < node { i } else { i.wrapping_add(1) }
}

/// What is proved of a graph within a budget: the two bounds, and what was spent.
fn searched(
    alloc: Global,
    nodes: u32,
    ends: &[(u32, u32)],
    budget: u64,
    cutters: &mut Vec<Box<dyn Cutter>>,
) -> Result<(u32, u32, u64), Fail>
    requires { budget ≤ 200000 }
{
    let graph = Graph::make(nodes, Vec::from_slice(alloc, ends)?)?;
    let solved = solve(alloc, &graph, budget, cutters)?;
    let answer = answer_of(alloc, &graph, 0, budget, solved)?;
    Ok((answer.lower, answer.upper, answer.spent))
}

#[test]
fn each_round_of_k6_is_one_leaf(rt: HostRuntime) -> Result<(), Fail> {
    let alloc = rt.alloc();
    let mut rows = Vec::new(alloc);
    for node in 0u32..6 {
        rows.push(row_without(alloc, node)?)?;
    }
    let mut cutters: Vec<Box<dyn Cutter>> = Vec::new(alloc);
    cutters.push(Box::new(alloc, Known { rows })?)?;
    assert_eq!(rt; searched(alloc, 6, &K6, 3, &mut cutters)?, (3, 3, 3));
    // the cutter came back
    assert_eq!(rt; cutters.len(), 1);
    Ok(())
}

#[test]
fn no_cutter_is_needed(rt: HostRuntime) -> Result<(), Fail> {
    let alloc = rt.alloc();
    let mut cutters: Vec<Box<dyn Cutter>> = Vec::new(alloc);
    let (lower, upper, _) = searched(alloc, 5, &K5, 82_208, &mut cutters)?;
    assert_eq!(rt; (lower, upper), (1, 1));
    Ok(())
}

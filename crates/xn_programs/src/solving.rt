// The search of a graph by linear programs.
ghost use Rattle.std.specs.Prelude.{◌≤◌, IfOk};
ghost use Rattle.xn_model.specs.Drawing.{HasDrawingWith};
ghost use Rattle.xn_search.specs.Solved.{IsFree, IsSolved};

use crate::deciding::ByPrograms;
use std::alloc::{AllocError, Global};
use xn_cutter::Cutter;
use xn_graph::Graph;
use xn_plant::Planes;
use xn_search::Solved;

/// A drawing of the graph, and a proof that no drawing has fewer crossings, by linear programs of the rows that the
/// cutters find: they differ only where the whole budget is spent and is below the node limit.
///
/// A unit of the budget is a state that is opened. All this holds for every list of cutters, the empty one too. It
/// fails only for want of memory. The first tester of webs serves the first drawing, the second the search.
pub fn solve<P: Planes + Drop>(
    alloc: Global,
    graph: &Graph,
    budget: u64,
    first: &mut P,
    planes: P,
    cutters: &mut Vec<Box<dyn Cutter>>,
) -> Result<Solved, AllocError>
    requires { budget ≤ 200000 }
    ensures solved { IfOk result (IsSolved graph.now budget) }
    ensures flat { HasDrawingWith graph.now 0 → IfOk result (IsFree graph.now) }
{
    let mut decider = ByPrograms::new(alloc, planes, cutters);
    let solved = xn_search::solve(alloc, graph, budget, first, &mut decider)?;
    Ok(solved)
}

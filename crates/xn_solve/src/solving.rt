// The search of a graph.
ghost use Rattle.std.specs.Prelude.{◌≤◌, IfOk};
ghost use Rattle.xn_fewer.specs.Flat.{HasFlat};
ghost use Rattle.xn_search.specs.Solved.{IsFree, IsSolved};
ghost use Rattle.xn_solve.specs.Answers.{Bounds, DecidesFromLimit, HasWellFormedAnswers};

use crate::maps::Maps;
use std::alloc::{AllocError, Global};
use xn_answers::laws::{answers, flat_graphs};
use xn_cutter::Cutter;
use xn_general::laws::all_drawings;
use xn_graph::Graph;
use xn_search::Solved;
use xn_sound::laws::accepted_proofs;

/// A drawing of the graph, and a proof that no drawing has fewer crossings (after the branch and cut of Buchheim and
/// others, 2008).
///
/// They differ only where the whole budget is spent and is below the node limit: with a budget of at least that both
/// show the crossing number. A unit of the budget is a state that is opened; a graph that can be drawn without crossings
/// takes none. It fails only for want of memory.
///
/// All this holds for every list of cutters, the empty one too.
pub fn solve(
    alloc: Global,
    graph: &Graph,
    budget: u64,
    cutters: &mut Vec<Box<dyn Cutter>>,
) -> Result<Solved, AllocError>
    requires { budget ≤ 200000 }
    ensures solved { IfOk result (IsSolved graph.now budget) }
    ensures bounds { IfOk result (Bounds graph.now) }
    ensures complete { IfOk result (DecidesFromLimit graph.now budget) }
    ensures flat { HasFlat graph.now.nodes graph.now.ends → IfOk result (IsFree graph.now) }
    ensures well_formed { IfOk result (HasWellFormedAnswers graph.now budget) }
{
    all_drawings();
    accepted_proofs();
    answers();
    flat_graphs();
    let _nodes = graph.nodes();
    let solved = xn_programs::solve(alloc, graph, budget, &mut Maps, Maps, cutters)?;
    Ok(solved)
}

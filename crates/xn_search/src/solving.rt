// The search of a graph.
ghost use Rattle.std.specs.Prelude.{◌≡◌, ◌≤◌, IfOk};
ghost use Rattle.xn_model.specs.Drawing.{HasDrawingWith, IsListedDrawing, order_of};
ghost use Rattle.xn_model.specs.Orders.{crossing_count};
ghost use Rattle.xn_search.specs.Solved.{IsFree, IsSolved};

use crate::branching::counted;
use crate::decisions::Decider;
use crate::solved::{Solved, solve_from};
use std::alloc::{AllocError, Global};
use xn_general::laws::all_drawings;
use xn_graph::Graph;
use xn_kinds::Drawing;
use xn_kinds::laws::trees_go_through_states;
use xn_plant::{Planes, Planted, plant};
use xn_sound::laws::rows;
use xn_tree::Given;

/// A drawing of the graph, and a proof that no drawing has fewer crossings: they differ only where the whole budget
/// is spent and is below the node limit. A unit of the budget is a state that is opened. A first drawing comes of what
/// tests the webs. It fails only for want of memory.
pub fn solve<P: Planes, D: Decider>(
    alloc: Global,
    graph: &Graph,
    budget: u64,
    planes: &mut P,
    decider: &mut D,
) -> Result<Solved, AllocError>
    requires { budget ≤ 200000 }
    ensures solved { IfOk result (IsSolved graph.now budget) }
    ensures flat { HasDrawingWith graph.now 0 → IfOk result (IsFree graph.now) }
{
    let drawing = first_drawing(alloc, graph, planes)?;
    let first = counted(alloc, graph, drawing)?;
    let solved = solve_from(alloc, graph, first, budget, decider)?;
    Ok(solved)
}

// A drawing without crossings, where there is one, else any.
fn first_drawing<P: Planes>(
    alloc: Global,
    graph: &Graph,
    planes: &mut P,
) -> Result<Drawing, AllocError>
    ensures drawing { IfOk result (λ d. IsListedDrawing graph.now d.orders d.next) }
    ensures flat { HasDrawingWith graph.now 0 →
        IfOk result (λ d. crossing_count graph.now (order_of graph.now d.orders) ≡ 0) }
{
    all_drawings();
    rows();
    trees_go_through_states();
    let _nodes = graph.nodes();
    let given = Given::empty(alloc, graph)?;
    match plant(alloc, graph, &given, planes)? {
        Planted::Flat(drawing) => Ok(drawing),
        Planted::Excluded(_) => planes.upper(alloc, graph),
    }
}

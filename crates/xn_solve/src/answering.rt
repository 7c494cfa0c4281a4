// The answer made of what was found.
ghost use Rattle.std.specs.Prelude.{◌≡◌, ◌≤◌, IfOk, Ok};
ghost use Rattle.xn_model.specs.Drawing.{IsListedDrawing, order_of};
ghost use Rattle.xn_model.specs.Orders.{crossing_count};
ghost use Rattle.xn_proof.specs.Spelling.{text_of};
ghost use Rattle.xn_proof.specs.WellFormed.{WellFormed};
ghost use Rattle.xn_check.specs.Verdict.{Verdict};
ghost use Rattle.xn_search.specs.Solved.{IsSolved};
ghost use Rattle.xn_solve.specs.Answers.{answer_made};

use std::alloc::{AllocError, Global};
use xn_answers::laws::{accepted_answers, answers};
use xn_graph::Graph;
use xn_kinds::{Answer, Drawing};
use xn_orders::planarise;
use xn_search::Solved;

/// The answer of a graph, with so many loops left aside, that was searched within a budget. Its spelling is accepted.
///
/// It fails only for want of memory.
pub fn answer_of(
    alloc: Global,
    graph: &Graph,
    loops: u64,
    budget: u64,
    solved: Solved,
) -> Result<Answer, AllocError>
    requires budget { budget ≤ 200000 }
    requires solved { IsSolved graph.now budget solved }
    ensures made { IfOk result (λ a. a ≡ answer_made graph.now loops budget solved) }
    ensures well_formed { IfOk result WellFormed }
    ensures accepted { IfOk result (λ a. Verdict graph.now loops (text_of a) (Ok (a.lower, a.upper))) }
{
    answers();
    accepted_answers();
    let _nodes = graph.nodes();
    let upper = crossings(alloc, graph, &solved.drawing)?;
    let copy = graph.copy(alloc)?;
    Ok(Answer {
        graph: copy,
        loops,
        lower: solved.lower,
        upper,
        spent: solved.spent,
        budget,
        drawing: solved.drawing,
        rows: solved.rows,
        tree: solved.tree,
    })
}

// The number of crossings of a drawing.
fn crossings(alloc: Global, graph: &Graph, drawing: &Drawing) -> Result<u32, AllocError>
    requires { IsListedDrawing graph.now drawing.now.orders drawing.now.next }
    ensures { IfOk result (λ n. n ≡ crossing_count graph.now (order_of graph.now drawing.now.orders)) }
{
    let edges = graph.all_edges(alloc)?;
    let web = planarise(alloc, graph, edges.as_slice(), &drawing.orders)?;
    Ok(web.nodes() - graph.nodes())
}

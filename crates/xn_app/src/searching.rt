// The search of a graph, and the answer that is made of what was found.
ghost use Rattle.std.specs.Prelude.{◌≤◌, IfOk};
ghost use Rattle.xn_gml.specs.ReadView.{found_in};
ghost use Rattle.xn_proof.specs.Spelling.{text_of};
ghost use Rattle.xn_command.specs.Request.{most_budget};
ghost use Rattle.xn_app.specs.Outcome.{EndsSearch, IsAnswerFor, Searched};
ghost use Rattle.xn_app.specs.Status.{IsVerdictEnd};

use crate::status::Status;
use std::alloc::{AllocError, Global};
use xn_cutter::Cutter;
use xn_gml::Read;
use xn_graph::Graph;
use xn_kinds::Answer;
use xn_proof::write_answer;
use xn_solve::{answer_of, solve};

/// Searches the graph that was read, and makes the text of an answer for it.
pub fn searched(
    alloc: Global,
    read: &Read,
    budget: u64,
    cutters: &mut Vec<Box<dyn Cutter>>,
) -> Result<(Status, Vec<u8>), AllocError>
    requires { budget ≤ most_budget }
    ensures comes { IfOk result (λ x. Searched budget (found_in read.now) (x.0, x.1.items)) }
    ensures judged { IfOk result (λ x. IsVerdictEnd x.0) }
{
    let (end, answer) = answered(alloc, &read.graph, read.loops, budget, cutters)?;
    let text = write_answer(alloc, &answer)?;
    Ok((end, text))
}

/// Searches a graph with so many loops left aside: an answer for it, and the end to which it leads.
///
/// The search is done where both bounds of the answer are one number.
pub fn answered(
    alloc: Global,
    graph: &Graph,
    loops: u64,
    budget: u64,
    cutters: &mut Vec<Box<dyn Cutter>>,
) -> Result<(Status, Answer), AllocError>
    requires { budget ≤ most_budget }
    ensures answer { IfOk result (λ x. IsAnswerFor graph.now loops budget (text_of x.1) x.1) }
    ensures ends { IfOk result (λ x. EndsSearch graph.now budget x.1 x.0) }
    ensures judged { IfOk result (λ x. IsVerdictEnd x.0) }
{
    let solved = solve(alloc, graph, budget, cutters)?;
    let answer = answer_of(alloc, graph, loops, budget, solved)?;
    if answer.lower == answer.upper {
        return Ok((Status::Done, answer));
    }
    let end = Status::Undecided {
        lower: answer.lower,
        upper: answer.upper,
        spent: answer.spent,
    };
    Ok((end, answer))
}

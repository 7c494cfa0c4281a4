// The search of a sample graph, and the line that is written of it.
ghost use Rattle.std.specs.Prelude.{◌≡◌, ◌≤◌, IfOk, Ok};
ghost use Rattle.xn_check.specs.Verdict.{Verdict};
ghost use Rattle.xn_proof.specs.Spelling.{text_of};
ghost use Rattle.xn_proof.specs.WellFormed.{WellFormed};
ghost use Rattle.xn_command.specs.Request.{fewest_nodes, most_budget, most_nodes};
ghost use Rattle.xn_app.specs.Outcome.{Sampled};
ghost use Rattle.xn_app.specs.Status.{IsVerdictEnd};

use crate::output::sample_line;
use crate::searching::answered;
use crate::status::Status;
use std::alloc::{AllocError, Global};
use xn_check::laws::one_outcome;
use xn_check::{Accepted, check};
use xn_cutter::Cutter;
use xn_graph::Graph;
use xn_kinds::Answer;
use xn_proof::AnswerErr;
use xn_sample::sample;

/// Searches the sample graph of so many nodes, checks the answer, and makes the line that says what was found.
pub fn sampled(
    alloc: Global,
    nodes: u32,
    budget: u64,
    cutters: &mut Vec<Box<dyn Cutter>>,
) -> Result<(Status, Vec<u8>), AllocError>
    requires nodes { (fewest_nodes ≤ nodes) × (nodes ≤ most_nodes) }
    requires budget { budget ≤ most_budget }
    ensures comes { IfOk result (λ x. Sampled budget nodes (x.0, x.1.items)) }
    ensures judged { IfOk result (λ x. IsVerdictEnd x.0) }
{
    let graph = sample(alloc, nodes)?;
    let _nodes = graph.nodes();
    let (end, answer) = answered(alloc, &graph, 0, budget, cutters)?;
    let bounds = accepted(alloc, &graph, &answer)?;
    let line = sample_line(alloc, &graph, bounds, answer.spent)?;
    Ok((end, line))
}

// What the checker says of an answer that it accepts.
fn accepted(alloc: Global, graph: &Graph, answer: &Answer) -> Result<Accepted, AllocError>
    requires formed { WellFormed answer.now }
    requires accepted { Verdict graph.now 0 (text_of answer.now) (Ok (answer.now.lower, answer.now.upper)) }
    ensures { IfOk result (λ bounds. (bounds.lower ≡ answer.now.lower) × (bounds.upper ≡ answer.now.upper)) }
{
    one_outcome();
    match check(alloc, graph, 0, answer) {
        Ok(bounds) => Ok(bounds),
        Err(AnswerErr::Refused(_flaw)) => unreachable!(),
        Err(AnswerErr::Memory) => Err(AllocError),
    }
}

// The verdict on a text, line by line.
ghost use Rattle.xn_check.specs.Gives.{GivesDrawing, GivesSeen, GivesVerdict};
ghost use Rattle.xn_proof.specs.Spelling.{text_of};
ghost use Rattle.xn_proof.specs.WellFormed.{WellFormed};

use crate::drawing::DrawJudge;
use crate::judge::Judge;
use crate::seeing::FrontJudge;
use std::alloc::Global;
use xn_draw::Seen;
use xn_graph::Graph;
use xn_kinds::{Answer, Drawing};
use xn_proof::{AnswerErr, write_answer};
use xn_text::Lines;

/// The bounds of an answer that is accepted.
#[derive(Clone, Copy, Debug, PartialEq, Eq)]
pub struct Accepted {
    /// Every drawing has at least so many crossings.
    pub lower: u32,
    /// The drawing of the answer has so many.
    pub upper: u32,
}

/// Whether a text is an answer for the graph, with so many loops left aside, whose drawing and proof are right: its bounds, or
/// the first line whose rule fails. The law `accepted_bounds` says what the bounds show.
pub fn check_text(
    alloc: Global,
    graph: &Graph,
    loops: u64,
    text: &[u8],
) -> Result<Accepted, AnswerErr>
    ensures { GivesVerdict graph.now loops text.now result }
{
    let mut lines = Lines::new(text);
    let mut judge = Judge::new(alloc, graph, loops)?;
    while let Some(line) = lines.next() {
        judge.line(alloc, line.bytes, line.ended)?;
    }
    judge.finish()
}

/// The same for an answer, by its spelling.
pub fn check(
    alloc: Global,
    graph: &Graph,
    loops: u64,
    answer: &Answer,
) -> Result<Accepted, AnswerErr>
    requires { WellFormed answer.now }
    ensures { GivesVerdict graph.now loops (text_of answer.now) result }
{
    let text = write_answer(alloc, answer)?;
    check_text(alloc, graph, loops, &text)
}

/// The drawing of a text that is an answer for the graph, with so many loops left aside, or the first line whose rule fails.
/// The drawing is judged; the rows and the tree keep their forms, and whether they prove anything isn't judged.
pub fn draw_text(
    alloc: Global,
    graph: &Graph,
    loops: u64,
    text: &[u8],
) -> Result<Drawing, AnswerErr>
    ensures { GivesDrawing graph.now loops text.now result }
{
    let mut lines = Lines::new(text);
    let mut judge = DrawJudge::new(alloc);
    while let Some(line) = lines.next() {
        judge.line(alloc, graph, loops, line.bytes, line.ended)?;
    }
    judge.finish()
}

/// What is seen of the drawing of a text that is an answer, whatever its graph, or the first line whose rule fails. The drawing is
/// judged as one of the graph that the text says; the rows and the tree keep their forms, and whether they prove anything isn't
/// judged.
pub fn examine_text(alloc: Global, text: &[u8]) -> Result<Seen, AnswerErr>
    ensures { GivesSeen text.now result }
{
    let mut lines = Lines::new(text);
    let mut judge = FrontJudge::new(alloc);
    while let Some(line) = lines.next() {
        judge.line(alloc, line.bytes, line.ended)?;
    }
    judge.finish()
}

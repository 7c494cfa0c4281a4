// The whole text of an answer.
ghost use Rattle.std.specs.Prelude.{◌≤◌, IfOk, codes};
ghost use Rattle.xn_proof.specs.Proofs.{answer_of, nothing_at, proof_at};
ghost use Rattle.xn_proof.specs.Ranges.{no_form, one_form};
ghost use Rattle.xn_proof.specs.Reading.{Gives, Reads, form_at};
ghost use Rattle.xn_proof.specs.WellFormed.{WellFormed};

use crate::flaw::{AnswerErr, trailing};
use crate::front::front_lines;
use crate::ranges::one_number;
use crate::reader::Reader;
use crate::rows::rows;
use crate::tree::nodes;
use std::alloc::Global;
use xn_kinds::{Answer, Row, Tree};
use xn_list::Sequence;

// The number of rows.
#[tactic(auto, unfolding(crate::specs::Reading::form_at))]
fn rows_line(reader: &mut Reader) -> Result<u64, AnswerErr>
    ensures read { Reads (λ x. x) result reader.new (form_at (codes "rows") (one_form 1048576) reader.old) }
    ensures small { IfOk result (λ n. n ≤ 1048576) }
{
    let (number, values) = reader.numbers(b"rows".as_slice())?;
    one_number(1_048_576, number, &values)
}

#[tactic(auto, unfolding(crate::specs::Reading::form_at))]
fn tree_line(reader: &mut Reader) -> Result<(), AnswerErr>
    ensures { Reads (λ x. x) result reader.new (form_at (codes "tree") no_form reader.old) }
{
    let (number, values) = reader.numbers(b"tree".as_slice())?;
    values.none(number)
}

fn nothing(reader: &Reader) -> Result<(), AnswerErr>
    ensures { Gives (λ x. x) result (nothing_at reader.now) }
{
    if reader.rest().is_empty() {
        Ok(())
    } else {
        Err(trailing(reader.number()))
    }
}

/// The rows and the tree of a graph with so many edges, in the lines after `drawn`, behind which nothing stands. It refuses at
/// the first line that isn't of its form or has a number outside its range, or at the line after the end.
#[tactic(auto, unfolding(crate::specs::Proofs::proof_at))]
pub fn read_proof(
    alloc: Global,
    edges: u32,
    reader: &mut Reader,
) -> Result<(Sequence<Row>, Tree), AnswerErr>
    ensures { Gives (λ x. x) result (proof_at edges reader.old) }
{
    let count = rows_line(reader)? as u32;
    let rows = rows(alloc, edges, count, reader)?;
    tree_line(reader)?;
    let nodes = nodes(alloc, edges, count, reader)?;
    nothing(reader)?;
    Ok((Sequence::new(rows), Tree::new(nodes)))
}

#[tactic(auto, unfolding(crate::specs::Proofs::answer_of))]
fn whole_answer(alloc: Global, text: &[u8]) -> Result<Answer, AnswerErr>
    ensures { Gives (λ answer. answer) result (answer_of text.now) }
{
    let mut reader = Reader::new(text);
    let front = front_lines(alloc, &mut reader)?;
    let (rows, tree) = read_proof(alloc, front.graph.edges(), &mut reader)?;
    Ok(Answer {
        graph: front.graph,
        loops: front.loops,
        lower: front.lower,
        upper: front.upper,
        spent: front.spent,
        budget: front.budget,
        drawing: front.drawing,
        rows,
        tree,
    })
}

/// What a text says. It refuses at the first line that isn't of its form, has a number outside its range, or is an edge that
/// joins a node to itself, or at the line after the end.
pub fn read_answer(alloc: Global, text: &[u8]) -> Result<Answer, AnswerErr>
    ensures read { Gives (λ answer. answer) result (answer_of text.now) }
    ensures well_formed { IfOk result WellFormed }
{
    let answer = whole_answer(alloc, text)?;
    Ok(answer)
}

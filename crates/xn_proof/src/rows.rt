// The rows.
ghost use Rattle.std.specs.Prelude.{◌≤◌, IfOk, codes};
ghost use Rattle.xn_list.specs.Lists.{lists_of};
ghost use Rattle.xn_proof.specs.Proofs.{over_at, overs_at, row_at};
ghost use Rattle.xn_proof.specs.Ranges.{one_form, over_form};
ghost use Rattle.xn_proof.specs.Reading.{Gives, Reads, form_at, many_at};

use crate::evidence::evidence;
use crate::flaw::AnswerErr;
use crate::numbers::Numbers;
use crate::ranges::{number_list, one_number, small};
use crate::reader::Reader;
use std::alloc::Global;
use xn_kinds::{Orders, Row};
use xn_list::Sequence;

/// An edge, and a list of edges.
#[tactic(auto, unfolding(crate::specs::Ranges::over_form))]
pub fn edge_and_list(
    alloc: Global,
    number: u64,
    values: &Numbers,
) -> Result<(u32, Vec<u32>), AnswerErr>
    ensures { Gives (λ x. (x.0, x.1.items)) result (over_form number values.now) }
{
    let (edge, rest) = values.first(number)?;
    let list = number_list(alloc, 999, number, &rest)?;
    let edge = small(number, u32::MAX, edge)?;
    Ok((edge, list))
}

// An edge of a row, and those that cross it, along it.
#[tactic(auto, unfolding(crate::specs::Reading::form_at))]
fn over_line(alloc: Global, place: u32, reader: &mut Reader) -> Result<(u32, Vec<u32>), AnswerErr>
    ensures { Reads (λ x. (x.0, x.1.items)) result reader.new (over_at place reader.old) }
{
    let (number, values) = reader.numbers(b"over".as_slice())?;
    edge_and_list(alloc, number, &values)
}

// The edges of a row, and for each those that cross it, along it.
#[tactic(auto, unfolding(crate::specs::Proofs::overs_at))]
fn over_lines(
    alloc: Global,
    count: u32,
    reader: &mut Reader,
) -> Result<(Vec<u32>, Vec<Vec<u32>>), AnswerErr>
    ensures { Reads (λ x. (x.0.items, lists_of x.1.items)) result reader.new (overs_at count reader.old) }
{
    let mut edges = Vec::new(alloc);
    let mut lists = Vec::new(alloc);
    for place in 0..count {
        let (edge, list) = over_line(alloc, place, reader)?;
        edges.push(edge)?;
        lists.push(list)?;
    }
    Ok((edges, lists))
}

// The number of edges of a row, of a graph with so many.
#[tactic(auto, unfolding(crate::specs::Reading::form_at))]
fn row_line(edges: u32, reader: &mut Reader) -> Result<u64, AnswerErr>
    ensures read { Reads (λ x. x) result reader.new (form_at (codes "row") (one_form edges) reader.old) }
    ensures small { IfOk result (λ n. n ≤ edges) }
{
    let (number, values) = reader.numbers(b"row".as_slice())?;
    one_number(u64::from(edges), number, &values)
}

// A row.
#[tactic(auto, unfolding(crate::specs::Proofs::row_at))]
fn row(alloc: Global, edges: u32, place: u32, reader: &mut Reader) -> Result<Row, AnswerErr>
    ensures { Reads (λ x. x) result reader.new (row_at edges place reader.old) }
{
    let count = row_line(edges, reader)?;
    let (listed, lists) = over_lines(alloc, count as u32, reader)?;
    let evidence = evidence(alloc, reader)?;
    Ok(Row {
        edges: Sequence::new(listed),
        orders: Orders::new(lists),
        evidence,
    })
}

/// So many rows.
pub fn rows(
    alloc: Global,
    edges: u32,
    count: u32,
    reader: &mut Reader,
) -> Result<Vec<Row>, AnswerErr>
    ensures { Reads (λ x. x.items) result reader.new (many_at (row_at edges) 0 count reader.old) }
{
    let mut rows = Vec::new(alloc);
    for place in 0..count {
        rows.push(row(alloc, edges, place, reader)?)?;
    }
    Ok(rows)
}

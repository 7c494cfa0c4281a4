// Lines that stand several times one after the other.
ghost use Rattle.std.specs.Prelude.{◌≡◌, ◌+◌, ◌*◌, ◌≤◌, IfOk, length, All};
ghost use Rattle.xn_graph.specs.Limits.{IsEdge};
ghost use Rattle.xn_list.specs.Lists.{lists_of};
ghost use Rattle.xn_model.specs.Lists.{total};
ghost use Rattle.xn_proof.specs.Fronts.{along_at, edge_at, next_of, turn_at};
ghost use Rattle.xn_proof.specs.Reading.{Reads, form_at, many_at};

use crate::flaw::AnswerErr;
use crate::ranges::{edge_ends, number_list, two_numbers};
use crate::reader::Reader;
use std::alloc::{AllocError, Global};

// The ends of an edge.
#[tactic(auto, unfolding(crate::specs::Reading::form_at))]
fn edge_line(nodes: u32, edge: u32, reader: &mut Reader) -> Result<(u32, u32), AnswerErr>
    ensures read { Reads (λ x. x) result reader.new (edge_at nodes edge reader.old) }
    ensures inside { IfOk result (IsEdge nodes) }
{
    let (number, values) = reader.numbers(b"edge".as_slice())?;
    edge_ends(nodes, edge, number, &values)
}

/// The ends of all edges.
pub fn edge_lines(
    alloc: Global,
    nodes: u32,
    count: u32,
    reader: &mut Reader,
) -> Result<Vec<(u32, u32)>, AnswerErr>
    ensures read { Reads (λ x. x.items) result reader.new (many_at (edge_at nodes) 0 count reader.old) }
    ensures count { IfOk result (λ x. length x.items ≡ count) }
    ensures inside { IfOk result (λ x. All (IsEdge nodes) x.items) }
{
    let mut ends = Vec::new(alloc);
    for edge in 0..count {
        ends.push(edge_line(nodes, edge, reader)?)?;
    }
    Ok(ends)
}

// The edges that cross an edge, along it.
#[tactic(auto, unfolding(crate::specs::Reading::form_at))]
fn along_line(alloc: Global, edge: u32, reader: &mut Reader) -> Result<Vec<u32>, AnswerErr>
    ensures read { Reads (λ x. x.items) result reader.new (along_at edge reader.old) }
    ensures small { IfOk result (λ x. length x.items ≤ 999) }
{
    let (number, values) = reader.numbers(b"along".as_slice())?;
    number_list(alloc, 999, number, &values)
}

/// For each edge those that cross it, along it.
pub fn along_lines(
    alloc: Global,
    count: u32,
    reader: &mut Reader,
) -> Result<Vec<Vec<u32>>, AnswerErr>
    ensures read { Reads (λ x. lists_of x.items) result reader.new (many_at along_at 0 count reader.old) }
    ensures count { IfOk result (λ x. length x.items ≡ count) }
    ensures small { IfOk result (λ x. total length (lists_of x.items) ≤ 999 * count) }
{
    let mut lists = Vec::new(alloc);
    for edge in 0..count {
        lists.push(along_line(alloc, edge, reader)?)?;
    }
    Ok(lists)
}

/// The number of segments: each edge has one more than its list has entries.
pub fn segments(edges: u32, lists: &[Vec<u32>]) -> u32
    requires few { edges ≤ 1000 }
    requires small { total length (lists_of lists.now) ≤ 999 * edges }
    ensures { result ≡ edges + total length (lists_of lists.now) }
{
    let mut count = edges;
    for list in lists {
        count += list.len() as u32;
    }
    count
}

// What follows the two darts of a segment.
#[tactic(auto, unfolding(crate::specs::Reading::form_at))]
fn turn_line(segment: u32, reader: &mut Reader) -> Result<(u32, u32), AnswerErr>
    ensures { Reads (λ x. x) result reader.new (turn_at segment reader.old) }
{
    let (number, values) = reader.numbers(b"turn".as_slice())?;
    two_numbers((u32::MAX, u32::MAX), number, &values)
}

/// For each segment what follows its two darts.
pub fn turn_lines(
    alloc: Global,
    count: u32,
    reader: &mut Reader,
) -> Result<Vec<(u32, u32)>, AnswerErr>
    ensures { Reads (λ x. x.items) result reader.new (many_at turn_at 0 count reader.old) }
{
    let mut turns = Vec::new(alloc);
    for segment in 0..count {
        turns.push(turn_line(segment, reader)?)?;
    }
    Ok(turns)
}

/// The turns in the order of the darts.
pub fn next_of(alloc: Global, turns: &[(u32, u32)]) -> Result<Vec<u32>, AllocError>
    ensures { IfOk result (λ next. next.items ≡ next_of turns.now) }
{
    let mut next = Vec::new(alloc);
    for turn in turns {
        next.push(turn.0)?;
        next.push(turn.1)?;
    }
    Ok(next)
}

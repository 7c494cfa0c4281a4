// The edges that the evidence of a row uses.
use std::alloc::{AllocError, Global};
use xn_kinds::{Evidence, Paths, Row};

/// Marks, of so many edges, those on which a segment of the evidence of a row lies. It takes time in the
/// number of edges and segments, and fails only for want of memory. No clause says which edges these are,
/// since a row of any of them is judged anew.
pub fn used_marks(alloc: Global, row: &Row, edges: usize) -> Result<Vec<bool>, AllocError> {
    let by_segment = edges_by_segment(alloc, row)?;
    let mut marks = vec![in alloc; false; edges]?;
    match &row.evidence {
        Evidence::Five { paths, .. } => mark_paths(&mut marks, by_segment.as_slice(), paths),
        Evidence::ThreeThree { paths, .. } => mark_paths(&mut marks, by_segment.as_slice(), paths),
        Evidence::Extension { list } => mark(&mut marks, by_segment.as_slice(), list.as_slice()),
    }
    Ok(marks)
}

/// Whether each edge of a row is marked.
pub fn uses_all(row: &Row, marks: &[bool]) -> bool {
    for e in row.edges.as_slice() {
        if !matches!(marks.get(*e as usize), Some(true)) {
            return false;
        }
    }
    true
}

// For each segment of the row's web its edge.
fn edges_by_segment(alloc: Global, row: &Row) -> Result<Vec<u32>, AllocError> {
    let mut by_segment = Vec::new(alloc);
    for (i, e) in row.edges.as_slice().iter().enumerate() {
        if i < row.orders.len() {
            for _ in 0..=row.orders.at(i).len() {
                by_segment.push(*e)?;
            }
        }
    }
    Ok(by_segment)
}

// Marks the edges of some paths.
fn mark_paths(marks: &mut Vec<bool>, by_segment: &[u32], paths: &Paths) {
    for i in 0..paths.len() {
        mark(marks, by_segment, paths.at(i));
    }
}

// Marks the edges of some segments.
fn mark(marks: &mut Vec<bool>, by_segment: &[u32], segments: &[u32]) {
    for s in segments {
        if let Some(e) = by_segment.get(*s as usize) {
            if let Some(place) = marks.get_mut(*e as usize) {
                *place = true;
            }
        }
    }
}

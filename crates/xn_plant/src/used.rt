// The edges of a row that its evidence uses.
ghost use Rattle.std.specs.Prelude.{◌≡◌, true, All, IfOk, OnOk, length};
ghost use Rattle.xn_model.specs.Lists.{has};
ghost use Rattle.xn_plant.specs.Planting.{AreSome};

use std::alloc::{AllocError, Global};
use xn_kinds::{Evidence, Paths, Row};

/// The edges on which a segment of the evidence lies, rising: it takes time near linear in the number of segments.
/// It fails only for want of memory.
pub fn used_edges(alloc: Global, row: &Row) -> Result<Vec<u32>, AllocError>
    requires { length row.now.orders ≡ length row.now.edges }
    ensures { IfOk result (λ used. AreSome row.now.edges used.items) }
{
    let by_segment = edges_by_segment(alloc, row)?;
    let mut used = Vec::new(alloc);
    push_evidence(&mut used, by_segment.as_slice(), &row.evidence)?;
    used.sort()?;
    used.dedup();
    Ok(used)
}

// For each segment of the row's web its edge.
fn edges_by_segment(alloc: Global, row: &Row) -> Result<Vec<u32>, AllocError>
    requires { length row.now.orders ≡ length row.now.edges }
    ensures { IfOk result (λ edges. All (λ e. has row.now.edges e ≡ true) edges.items) }
{
    let mut by_segment = Vec::new(alloc);
    for (i, e) in row.edges.as_slice().iter().enumerate() {
        for _ in 0..=row.orders.at(i).len() {
            by_segment.push(*e)?;
        }
    }
    Ok(by_segment)
}

// Appends the edges of the segments of an evidence.
fn push_evidence(
    used: &mut Vec<u32>,
    by_segment: &[u32],
    evidence: &Evidence,
) -> Result<(), AllocError>
    requires { All (λ e. has by_segment.now e ≡ true) used.old.items }
    ensures { OnOk result (All (λ e. has by_segment.now e ≡ true) used.new.items) }
{
    match evidence {
        Evidence::Five { paths, .. } => push_paths(used, by_segment, paths),
        Evidence::ThreeThree { paths, .. } => push_paths(used, by_segment, paths),
        Evidence::Extension { list } => push_edges(used, by_segment, list.as_slice()),
    }
}

// Appends the edges of the segments of some paths.
fn push_paths(used: &mut Vec<u32>, by_segment: &[u32], paths: &Paths) -> Result<(), AllocError>
    requires { All (λ e. has by_segment.now e ≡ true) used.old.items }
    ensures { OnOk result (All (λ e. has by_segment.now e ≡ true) used.new.items) }
{
    for i in 0..paths.len() {
        push_edges(used, by_segment, paths.at(i))?;
    }
    Ok(())
}

// Appends the edges of some segments.
fn push_edges(used: &mut Vec<u32>, by_segment: &[u32], segments: &[u32]) -> Result<(), AllocError>
    requires { All (λ e. has by_segment.now e ≡ true) used.old.items }
    ensures { OnOk result (All (λ e. has by_segment.now e ≡ true) used.new.items) }
{
    for s in segments {
        if let Some(e) = by_segment.get(*s as usize) {
            used.push(*e)?;
        }
    }
    Ok(())
}

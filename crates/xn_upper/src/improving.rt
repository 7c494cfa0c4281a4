// Edges are taken out of a loose drawing and come in again.
ghost use Rattle.std.specs.Prelude.{◌<◌, IfOk, length};
ghost use Rattle.xn_upper.specs.Upper.{IsWholeOf};

use crate::uppers::with_edge;
use std::alloc::{AllocError, Global};
use xn_graph::Graph;
use xn_insert::Loose;
use xn_simple::without;

/// How much is done to improve a drawing, where an edge that comes in again costs the number of crossings.
const MOST_WORK: u64 = 1 << 23;

/// Rounds in which each edge with a crossing is taken out and comes in again, until one has no fewer crossings, or enough is
/// done (Gutwenger and Mutzel 2004).
pub fn improved(alloc: Global, graph: &Graph, loose: Loose) -> Result<Loose, AllocError>
    requires { IsWholeOf graph.now loose }
    ensures { IfOk result (IsWholeOf graph.now) }
{
    let mut left = MOST_WORK;
    let mut best = loose;
    let mut crossings = best.crossings() + 1;
    while best.crossings() < crossings {
        crossings = best.crossings();
        best = each_again(alloc, graph, best, &mut left)?;
    }
    Ok(best)
}

// Each edge with a crossing in turn comes in again, while work is left.
fn each_again(
    alloc: Global,
    graph: &Graph,
    loose: Loose,
    left: &mut u64,
) -> Result<Loose, AllocError>
    requires { IsWholeOf graph.now loose }
    ensures { IfOk result (IsWholeOf graph.now) }
{
    let mut now = loose;
    for e in 0..graph.edges() {
        if *left > 0 && now.segments_along(e) > 1 {
            *left = left.saturating_sub(now.crossings());
            now = again(alloc, graph, now, e)?;
        }
    }
    Ok(now)
}

// An edge is taken out and comes in again.
fn again(alloc: Global, graph: &Graph, loose: Loose, e: u32) -> Result<Loose, AllocError>
    requires loose { IsWholeOf graph.now loose }
    requires edge { e < length graph.now.ends }
    ensures { IfOk result (IsWholeOf graph.now) }
{
    let rest = without(alloc, graph, loose, e)?;
    let whole = with_edge(alloc, graph, rest, e)?;
    Ok(whole)
}

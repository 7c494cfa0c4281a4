// The best of several orders of the edges.
ghost use Rattle.std.specs.Prelude.{◌≡◌, ◌⊎◌, ◌<◌, IfOk, false, length};
ghost use Rattle.xn_model.specs.Drawing.{IsListedDrawing};
ghost use Rattle.xn_model.specs.Lists.{has};
ghost use Rattle.xn_insert.specs.ListedLoose.{IsLooseOf, edges_in};
ghost use Rattle.xn_upper.specs.Upper.{HasBeside, HasFew, IsOrderOfAll, IsWholeOf};

use crate::flat_starts::flat_start;
use crate::improving::improved;
use crate::shuffles::{Draws, shuffle};
use std::alloc::{AllocError, Global};
use xn_graph::Graph;
use xn_insert::Loose;
use xn_kinds::Drawing;
use xn_simple::{laid_again, simplify};

/// The most crossings at which an edge may come in.
const MOST_CROSSINGS: u64 = 1 << 24;

/// A drawing of the graph, the best that so many orders of its edges give.
///
/// For each order edges are kept as long as they have a flat map, the others come in along shortest routes, and each is taken
/// out and comes in again while that leaves fewer crossings. The first order is that of the graph, and later ones are shuffles
/// that are always the same. It fails only for want of memory.
pub fn upper(alloc: Global, graph: &Graph, tries: u32) -> Result<Drawing, AllocError>
    requires { 0 < tries }
    ensures { IfOk result (λ d. IsListedDrawing graph.now d.orders d.next) }
{
    let mut order = graph.all_edges(alloc)?;
    let mut draws = Draws::new(graph.edges());
    let mut best = drawn(alloc, graph, &order)?;
    for _ in 1..tries {
        if best.crossings() > 0 {
            shuffle(order.as_mut_slice(), &mut draws);
            best = better(best, drawn(alloc, graph, &order)?);
        }
    }
    simplify(alloc, graph, best)
}

// The one with fewer crossings, or else the first.
fn better(one: Loose, other: Loose) -> Loose
    ensures { (result ≡ one) ⊎ (result ≡ other) }
{
    if other.crossings() < one.crossings() {
        other
    } else {
        one
    }
}

// A loose drawing of all edges, in which they come in by an order and are improved.
fn drawn(alloc: Global, graph: &Graph, order: &[u32]) -> Result<Loose, AllocError>
    requires { IsOrderOfAll graph.now order.now }
    ensures { IfOk result (IsWholeOf graph.now) }
{
    let loose = all_in(alloc, graph, order)?;
    let least = improved(alloc, graph, loose)?;
    Ok(least)
}

/// A loose drawing of all edges: those that lie flat, and then the others by the order.
pub fn all_in(alloc: Global, graph: &Graph, order: &[u32]) -> Result<Loose, AllocError>
    requires { IsOrderOfAll graph.now order.now }
    ensures { IfOk result (IsWholeOf graph.now) }
{
    let mut loose = flat_start(alloc, graph, order)?;
    for e in order {
        if loose.segments_along(*e) == 0 {
            loose = with_edge(alloc, graph, loose, *e)?;
        }
    }
    Ok(loose)
}

/// The loose drawing with one edge more. Where it has too many crossings, it is made simple before.
pub fn with_edge(alloc: Global, graph: &Graph, loose: Loose, e: u32) -> Result<Loose, AllocError>
    requires loose { IsLooseOf graph.now loose }
    requires edge { e < length graph.now.ends }
    requires new { has (edges_in loose) e ≡ false }
    ensures { IfOk result (HasBeside graph.now (edges_in loose) e) }
{
    let mut fewer = few_enough(alloc, graph, loose)?;
    fewer.insert(alloc, graph, e)?;
    Ok(fewer)
}

// The loose drawing, made simple where it has too many crossings.
fn few_enough(alloc: Global, graph: &Graph, loose: Loose) -> Result<Loose, AllocError>
    requires { IsLooseOf graph.now loose }
    ensures { IfOk result (HasFew graph.now (edges_in loose)) }
{
    if loose.crossings() <= MOST_CROSSINGS {
        Ok(loose)
    } else {
        let simple = laid_again(alloc, graph, loose)?;
        Ok(simple)
    }
}

// The sample graph, edge by edge.
ghost use Rattle.std.specs.Prelude.{◌≡◌, ◌<◌, ◌≤◌, IfOk};
ghost use Rattle.xn_sample.specs.Sample.{chord_after, next_state, sample_ends, sample_of};

use crate::draws::Draws;
use std::alloc::{AllocError, Global};
use xn_graph::Graph;

/// The sample graph of so many nodes, from 3 to 400: a cycle through all of them in order, and then half as
/// many chords, rounded down, whose ends are drawn. It has no loop, and may have parallel edges.
///
/// It fails only for want of memory.
pub fn sample(alloc: Global, nodes: u32) -> Result<Graph, AllocError>
    requires { (3 ≤ nodes) × (nodes ≤ 400) }
    ensures { IfOk result (λ graph. graph ≡ sample_of nodes) }
{
    let ends = sample_ends(alloc, nodes)?;
    match Graph::make(nodes, ends) {
        Ok(graph) => Ok(graph),
        Err(_) => unreachable!(),
    }
}

// The two ends of each edge.
fn sample_ends(alloc: Global, nodes: u32) -> Result<Vec<(u32, u32)>, AllocError>
    requires { (0 < nodes) × (nodes ≤ 400) }
    ensures { IfOk result (λ ends. ends.items ≡ sample_ends nodes) }
{
    let mut ends = Vec::with_capacity(alloc, (nodes + nodes / 2) as usize)?;
    for i in 0..nodes {
        ends.push((i, (i + 1) % nodes))?;
    }
    let mut draws = Draws::new(nodes);
    for _ in 0..nodes / 2 {
        ends.push(next_chord(&mut draws, nodes))?;
    }
    Ok(ends)
}

// The chord between the next two nodes that are drawn, or to the node after the first where they are one.
fn next_chord(draws: &mut Draws, nodes: u32) -> (u32, u32)
    requires { (0 < nodes) × (nodes ≤ 400) }
    ensures state { draws.new ≡ next_state (next_state draws.old) }
    ensures chord { result ≡ chord_after nodes draws.old }
{
    let first = draws.next(nodes);
    let second = draws.next(nodes);
    if second == first {
        (first, (first + 1) % nodes)
    } else {
        (first, second)
    }
}

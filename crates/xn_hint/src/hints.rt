// Whether a web is likely to have a flat map: its kernel is embedded, unless its size tells.
ghost use Rattle.std.specs.Prelude.{◌≡◌, ◌+◌, ◌*◌, ◌^◌, ◌<◌, ◌≤◌, ◌↔◌, ◌⊎◌, IsTrue, Ok, length, true};
ghost use Rattle.xn_model.specs.Graph.{HasNoLoop};

use crate::darts::Shrinking;
use crate::kernels::{count_nodes, kernel_of};
use crate::shrinking::{LEAST_SEGMENTS, shrink};
use std::alloc::{AllocError, Global};
use xn_dmp::{Attempt, try_embed};
use xn_graph::Web;

/// Each web with fewer nodes has a flat map: K5 has five, K3,3 six.
const LEAST_NODES: u32 = 5;

/// Whether a web is likely to have a flat map, as fast as may be. It fails only for want of memory.
///
/// The web shrinks to its kernel: nodes with one segment go, the two segments of a node with two become
/// one, and loops and parallels that come of it are dropped. A kernel with fewer than 9 segments or 5 nodes
/// has a flat map, one with more than 3n - 6 segments between n nodes has none (Euler's formula), and any
/// other is embedded by `try_embed`. All but that takes linear time for each round of parallels.
pub fn seems_flat(alloc: Global, web: &Web) -> Result<bool, AllocError>
    requires { HasNoLoop web.now.ends }
    ensures few_segments { length web.now.ends < 9 → result ≡ Ok true }
    ensures few_nodes { web.now.nodes < 5 → result ≡ Ok true }
{
    if are_few(web.nodes(), web.segments()) {
        return Ok(true);
    }
    let mut shrinking = Shrinking::new(alloc, web.nodes(), web.segments())?;
    put_all(web, &mut shrinking);
    shrink(&mut shrinking);
    let nodes = count_nodes(&shrinking);
    if are_few(nodes, shrinking.segments()) {
        return Ok(true);
    }
    if are_many(nodes, shrinking.segments()) {
        return Ok(false);
    }
    let kernel = kernel_of(alloc, &shrinking, nodes)?;
    embeds(alloc, &kernel)
}

// Puts all segments of a web between its nodes.
fn put_all(web: &Web, shrinking: &mut Shrinking)
    requires { shrinking.old ≡ (web.now.nodes, 2 * length web.now.ends) }
    ensures { shrinking.new ≡ shrinking.old }
{
    for s in 0..web.segments() {
        let (u, v) = web.end(s);
        shrinking.put(s, u, v);
    }
}

// Whether each web of so many nodes and segments has a flat map.
fn are_few(nodes: u32, segments: u32) -> bool
    ensures { IsTrue result ↔ ((nodes < 5) ⊎ (segments < 9)) }
{
    nodes < LEAST_NODES || segments < LEAST_SEGMENTS
}

// Whether no web of so many nodes and segments has a flat map, if it has neither loops nor parallels.
fn are_many(nodes: u32, segments: u32) -> bool
    requires nodes { nodes ≤ 2 ^ 30 }
    requires segments { segments ≤ 2 ^ 30 }
    ensures { IsTrue result ↔ (3 * nodes < segments + 6) }
{
    3 * nodes < segments + 6
}

// Whether embedding by paths comes to a flat map.
fn embeds(alloc: Global, web: &Web) -> Result<bool, AllocError>
    requires { HasNoLoop web.now.ends }
{
    match try_embed(alloc, web)? {
        Attempt::Flat(_) => Ok(true),
        Attempt::Stuck(_) => Ok(false),
    }
}

// Orders that cross where pairs are planted.
ghost use Rattle.std.specs.Prelude.{◌≡◌, ◌<◌, IfOk, IsPermutation, length};
ghost use Rattle.xn_cut.specs.Planted.{AreShuffled, crossers};

use crate::literals::Literals;
use crate::planting::crossers_of;
use crate::ranks::Ranks;
use std::alloc::{AllocError, Global};
use xn_graph::Graph;
use xn_kinds::Orders;
use xn_tree::Given;

/// For each edge of a graph those that cross it in some pairs: first the ones that the state places along it,
/// in their order, then the others, rising or as literals favour it. It fails only for want of memory.
pub fn planted_orders(
    alloc: Global,
    graph: &Graph,
    given: &Given,
    pairs: &[(u32, u32)],
    literals: Option<&Literals>,
) -> Result<Orders, AllocError>
    requires { given.now.graph ≡ graph.now }
    ensures fit { IfOk result (λ orders. length orders ≡ length graph.now.ends) }
    ensures shuffled { IfOk result (AreShuffled pairs.now) }
{
    let edges = graph.edges();
    let mut lists = Vec::with_capacity(alloc, edges as usize)?;
    let mut ranks = Ranks::new(alloc, edges as usize)?;
    for e in 0..edges {
        lists.push(list_along(alloc, given, pairs, literals, &mut ranks, e)?)?;
    }
    Ok(Orders::new(lists))
}

// The edges that cross an edge.
fn list_along(
    alloc: Global,
    given: &Given,
    pairs: &[(u32, u32)],
    literals: Option<&Literals>,
    ranks: &mut Ranks,
    e: u32,
) -> Result<Vec<u32>, AllocError>
    requires { e < length given.now.graph.ends }
    ensures { IfOk result (λ list. IsPermutation (crossers pairs.now e) list.items) }
{
    let mut list = crossers_of(alloc, pairs, e)?;
    let placed = given.placed(e);
    let front = front_of(alloc, placed, list.as_slice(), literals, ranks, e)?;
    ranks.sort(&mut list, front.as_slice());
    Ok(list)
}

// What comes first along e of the edges that cross it: the placed edges, or all in the order that literals
// favour.
fn front_of(
    alloc: Global,
    placed: &[u32],
    list: &[u32],
    literals: Option<&Literals>,
    ranks: &mut Ranks,
    e: u32,
) -> Result<Vec<u32>, AllocError> {
    match literals {
        None => Vec::from_slice(alloc, placed),
        Some(literals) => {
            let mut sorted = Vec::from_slice(alloc, list)?;
            ranks.sort(&mut sorted, placed);
            literals.inserted(alloc, e, sorted.as_slice(), placed.len())
        }
    }
}

// The kernel as a web of its own: the nodes at which segments stand, numbered anew, and these segments.
ghost use Rattle.std.specs.Prelude.{◌≡◌, ◌^◌, ◌≤◌, ◌↔◌, All, IfOk, IsTrue, length};
ghost use Rattle.xn_model.specs.Graph.{HasNoLoop};
ghost use Rattle.xn_graph.specs.Limits.{IsEdge};

use crate::darts::Shrinking;
use std::alloc::{AllocError, Global};
use xn_graph::Web;

/// How many nodes have segments that stand.
pub fn count_nodes(web: &Shrinking) -> u32
    ensures { result ≤ 2 ^ 30 }
{
    let mut count = 0;
    for v in 0..web.nodes() {
        if web.degree(v) > 0 {
            count += 1;
        }
    }
    count
}

/// The web of the segments that stand, between so many nodes. It fails only for want of memory.
pub fn kernel_of(alloc: Global, web: &Shrinking, count: u32) -> Result<Web, AllocError>
    requires { count ≤ 2 ^ 30 }
    ensures { IfOk result (λ kernel. HasNoLoop kernel.ends) }
{
    let numbers = numbers_of(alloc, web)?;
    let ends = ends_of(alloc, web, &numbers, count)?;
    match Web::make(count, ends) {
        Ok(kernel) => Ok(kernel),
        Err(_) => unreachable!(),
    }
}

// For each node how many nodes before it have segments that stand.
fn numbers_of(alloc: Global, web: &Shrinking) -> Result<Vec<u32>, AllocError>
    ensures { IfOk result (λ numbers. length numbers.items ≡ web.now.0) }
{
    let mut numbers = Vec::with_capacity(alloc, web.nodes() as usize)?;
    let mut next = 0;
    for v in 0..web.nodes() {
        numbers.push(next)?;
        if web.degree(v) > 0 {
            next += 1;
        }
    }
    Ok(numbers)
}

// The ends of the segments that stand, by these numbers.
fn ends_of(
    alloc: Global,
    web: &Shrinking,
    numbers: &[u32],
    count: u32,
) -> Result<Vec<(u32, u32)>, AllocError>
    requires { length numbers.now ≡ web.now.0 }
    ensures edges { IfOk result (λ ends. All (IsEdge count) ends.items) }
    ensures few { IfOk result (λ ends. length ends.items ≤ 2 ^ 30) }
{
    let most = web.segments() as usize;
    let mut ends = Vec::with_capacity(alloc, most)?;
    for d in 0..web.darts() {
        let e = web.mate(d);
        let u = numbers[web.node(d) as usize];
        let v = numbers[web.node(e) as usize];
        if d < e && ends.len() < most && is_edge(count, u, v) {
            ends.push((u, v))?;
        }
    }
    Ok(ends)
}

// Whether these are two different nodes. So it is of each segment of a kernel.
fn is_edge(count: u32, u: u32, v: u32) -> bool
    ensures { IsTrue result ↔ IsEdge count (u, v) }
{
    u < count && v < count && u != v
}

// The walks of kept edges in their planarised graph.
ghost use Rattle.std.specs.Prelude.{◌≡◌, ◌+◌, ◌^◌, ◌<◌, [], IfOk, length, replicate};
ghost use Rattle.xn_list.specs.Lists.{lists_of};
ghost use Rattle.xn_model.specs.Orders.{IsOrders, order_at};
ghost use Rattle.xn_general.specs.Webs.{darts_from};
ghost use Rattle.xn_insert.specs.Starting.{AreWalksInWeb};

use std::alloc::{AllocError, Global};
use xn_graph::Graph;
use xn_kinds::Orders;

/// For each edge of a graph its walk in the planarised graph of the kept ones, and an empty list for the others.
pub fn walks_in_web(
    alloc: Global,
    graph: &Graph,
    kept: &[u32],
    orders: &Orders,
) -> Result<Vec<Vec<u32>>, AllocError>
    requires lists { length orders.now ≡ length kept.now }
    requires orders { IsOrders graph.now.ends kept.now (order_at kept.now orders.now) }
    ensures { IfOk result (λ walks. AreWalksInWeb graph.now kept.now (order_at kept.now orders.now) (lists_of walks.items)) }
{
    let mut walks = empty_walks(alloc, graph.edges())?;
    let mut first = 0;
    for (i, e) in kept.iter().enumerate() {
        let more = orders.at(i).len() as u32;
        walks[*e as usize] = first_darts(alloc, first, more)?;
        first += more + 1;
    }
    Ok(walks)
}

// So many empty lists.
fn empty_walks(alloc: Global, n: u32) -> Result<Vec<Vec<u32>>, AllocError>
    ensures { IfOk result (λ walks. lists_of walks.items ≡ replicate n []) }
{
    let mut walks = Vec::with_capacity(alloc, n as usize)?;
    for _ in 0..n {
        walks.push(Vec::new(alloc))?;
    }
    Ok(walks)
}

// The first darts of a segment and of as many more.
fn first_darts(alloc: Global, first: u32, more: u32) -> Result<Vec<u32>, AllocError>
    requires { first + more < 2 ^ 30 }
    ensures { IfOk result (λ darts. darts.items ≡ darts_from first more) }
{
    let mut darts = Vec::new(alloc);
    for i in 0..more + 1 {
        darts.push(2 * (first + i))?;
    }
    Ok(darts)
}

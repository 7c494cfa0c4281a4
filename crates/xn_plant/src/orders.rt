// The orders of a state over some edges.
ghost use Rattle.std.specs.Prelude.{◌≡◌, ◌++◌, ◌<◌, IfOk, OnOk, filter, length};
ghost use Rattle.xn_model.specs.Lists.{has};
ghost use Rattle.xn_model.specs.Orders.{IsEdgeList};
ghost use Rattle.xn_tree.specs.Given.{state_of};
ghost use Rattle.xn_plant.specs.Listed.{is_loose_on, is_planted, planted_list, planted_lists};

use std::alloc::{AllocError, Global};
use xn_kinds::Orders;
use xn_tree::Given;

/// For each of some edges those of them that cross it in a state: the placed ones in their order, then the others,
/// rising. A list takes time in the number of edges. It fails only for want of memory.
pub fn planted_orders(alloc: Global, given: &Given, edges: &[u32]) -> Result<Orders, AllocError>
    requires { IsEdgeList (length given.now.graph.ends) edges.now }
    ensures { IfOk result (λ orders. orders ≡ planted_lists (state_of given.now) edges.now) }
{
    let mut lists = Vec::with_capacity(alloc, edges.len())?;
    for e in edges {
        lists.push(list_of(alloc, given, edges, *e)?)?;
    }
    Ok(Orders::new(lists))
}

// Those of the edges that cross an edge.
fn list_of(alloc: Global, given: &Given, edges: &[u32], e: u32) -> Result<Vec<u32>, AllocError>
    requires edges { IsEdgeList (length given.now.graph.ends) edges.now }
    requires edge { e < length given.now.graph.ends }
    ensures { IfOk result (λ list. list.items ≡ planted_list (state_of given.now) edges.now e) }
{
    let mut list = Vec::new(alloc);
    push_placed(&mut list, given.placed(e), edges)?;
    push_loose(&mut list, given, edges, e)?;
    Ok(list)
}

// Appends those of the placed edges that are among the edges.
fn push_placed(list: &mut Vec<u32>, placed: &[u32], edges: &[u32]) -> Result<(), AllocError>
    ensures { OnOk result (list.new.items ≡ list.old.items ++ filter (has edges.now) placed.now) }
{
    for f in placed {
        if edges.contains(f) {
            list.push(*f)?;
        }
    }
    Ok(())
}

// Appends those of the edges that cross an edge and aren't placed along it.
fn push_loose(list: &mut Vec<u32>, given: &Given, edges: &[u32], e: u32) -> Result<(), AllocError>
    requires edges { IsEdgeList (length given.now.graph.ends) edges.now }
    requires edge { e < length given.now.graph.ends }
    ensures { OnOk result (list.new.items ≡ list.old.items ++ filter (is_loose_on (state_of given.now) e) edges.now) }
{
    for f in edges {
        if is_loose(given, e, *f) {
            list.push(*f)?;
        }
    }
    Ok(())
}

// Whether an edge crosses another and isn't placed along it.
fn is_loose(given: &Given, e: u32, f: u32) -> bool
    requires e_in { e < length given.now.graph.ends }
    requires f_in { f < length given.now.graph.ends }
    ensures { result ≡ is_loose_on (state_of given.now) e f }
{
    crosses(given, e, f) && !given.placed(e).contains(&f)
}

// Whether the pair of two edges is decided 1.
fn crosses(given: &Given, e: u32, f: u32) -> bool
    requires e_in { e < length given.now.graph.ends }
    requires f_in { f < length given.now.graph.ends }
    ensures { result ≡ is_planted (state_of given.now) e f }
{
    if e == f {
        return false;
    }
    match given.value(e, f) {
        Some(one) => one,
        None => false,
    }
}

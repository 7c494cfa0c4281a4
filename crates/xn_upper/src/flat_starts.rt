// Edges that are kept as long as they have a flat map.
ghost use Rattle.std.specs.Prelude.{◌≡◌, ℕ, ◌<◌, ◌≤◌, [], IfOk, IfSome, OnOk, filter, length, replicate};
ghost use Rattle.std.specs.List.{range_with_len};
ghost use Rattle.xn_model.specs.Graph.{HasNoLoop};
ghost use Rattle.xn_model.specs.Lists.{at};
ghost use Rattle.xn_model.specs.Orders.{IsEdgeList};
ghost use Rattle.xn_components.specs.Listing.{IsFlatMapOf};
ghost use Rattle.xn_map.specs.Marks.{is_marked};
ghost use Rattle.xn_insert.specs.ListedLoose.{IsLooseOf};
ghost use Rattle.xn_upper.specs.Upper.{AreKept, IsOrderOfAll, bare_web};

use std::alloc::{AllocError, Global};
use xn_components::Laid;
use xn_dmp::{Attempt, try_embed};
use xn_graph::{Graph, Web};
use xn_insert::Loose;
use xn_kinds::Orders;
use xn_map::Map;
use xn_orders::laws::no_loops;
use xn_orders::planarise;

// Edges that are kept: a mark for each edge, those that are kept in rising order, and a flat map of them.
#[derive(Drop)]
struct Kept {
    marks: Vec<bool>,
    edges: Vec<u32>,
    map: Map,
}

/// A loose drawing without crossings of edges that are kept, in this order, as long as they have a flat map.
///
/// All are tried at once, and then by halves: of the next edges as many are kept as have a flat map with those before, and
/// the one after them isn't. So there is one test where the graph is planar, and else about two for each edge that isn't kept.
pub fn flat_start(alloc: Global, graph: &Graph, order: &[u32]) -> Result<Loose, AllocError>
    requires { IsOrderOfAll graph.now order.now }
    ensures { IfOk result (IsLooseOf graph.now) }
{
    let mut kept = none_kept(alloc, graph)?;
    let mut first = order.len();
    let mut i = 0;
    while i < order.len() {
        i += keep_front(alloc, graph, &mut kept, &order[i..], first)? + 1;
        first = 1;
    }
    started(alloc, graph, kept)
}

// Keeps as long a front of a list as has a flat map with the kept edges: how many edges. So many are tried first, then twice
// as many until they have none, and then by halves.
fn keep_front(
    alloc: Global,
    graph: &Graph,
    kept: &mut Kept,
    list: &[u32],
    first: usize,
) -> Result<usize, AllocError>
    requires kept { AreKept graph.now kept.old.marks.items kept.old.edges.items kept.old.map }
    requires list { (i : ℕ) → i < length list.now → at list.now i < length graph.now.ends }
    requires first { 0 < first }
    ensures within { IfOk result (λ n. n ≤ length list.now) }
    ensures kept { OnOk result (AreKept graph.now kept.new.marks.items kept.new.edges.items kept.new.map) }
{
    let mut low = 0;
    let mut high = list.len();
    let mut step = first;
    let mut open = true;
    while low < high {
        let tried = low + step.min(high - low);
        match widened(alloc, graph, kept, &list[..tried])? {
            Some(wider) => {
                *kept = wider;
                low = tried;
            }
            None => {
                high = tried - 1;
                open = false;
            }
        }
        step = next_step(low, high, open);
    }
    Ok(low)
}

// How many edges are tried next, where so many are kept and so many may be.
fn next_step(low: usize, high: usize, open: bool) -> usize
    requires { low ≤ high }
    ensures { 0 < result }
{
    if open && low > 0 {
        low
    } else {
        (high - low) / 2 + 1
    }
}

// The kept edges and those of a front, where they are found to have a flat map.
fn widened(
    alloc: Global,
    graph: &Graph,
    kept: &Kept,
    front: &[u32],
) -> Result<Option<Kept>, AllocError>
    requires fits { length kept.now.marks.items ≡ length graph.now.ends }
    requires front { (i : ℕ) → i < length front.now → at front.now i < length graph.now.ends }
    ensures { IfOk result (λ found. IfSome found (λ k. AreKept graph.now k.marks.items k.edges.items k.map)) }
{
    let mut marks = Vec::from_slice(alloc, &kept.marks)?;
    set_each(marks.as_mut_slice(), front);
    let edges = marked(alloc, graph, &marks)?;
    match flat_map_of(alloc, graph, &edges)? {
        Some(map) => Ok(Some(Kept { marks, edges, map })),
        None => Ok(None),
    }
}

// Marks listed edges besides.
fn set_each(marks: &mut [bool], list: &[u32])
    requires { (i : ℕ) → i < length list.now → at list.now i < length marks.old }
    ensures { length marks.new ≡ length marks.old }
{
    for e in list {
        marks[*e as usize] = true;
    }
}

// The marked edges.
fn marked(alloc: Global, graph: &Graph, marks: &[bool]) -> Result<Vec<u32>, AllocError>
    requires { length marks.now ≡ length graph.now.ends }
    ensures { IfOk result (λ edges. edges.items ≡ filter (is_marked marks.now) (range_with_len 0 (length graph.now.ends))) }
{
    let mut edges = Vec::new(alloc);
    for e in 0..graph.edges() {
        if marks[e as usize] {
            edges.push(e)?;
        }
    }
    Ok(edges)
}

// No edge is kept: the nodes are a flat map.
fn none_kept(alloc: Global, graph: &Graph) -> Result<Kept, AllocError>
    ensures { IfOk result (λ k. AreKept graph.now k.marks.items k.edges.items k.map) }
{
    let marks = vec![in alloc; false; graph.edges() as usize]?;
    let edges = Vec::new(alloc);
    let web = web_without(alloc, graph, &edges)?;
    let map = Laid::new(alloc, &web).map(alloc)?;
    Ok(Kept { marks, edges, map })
}

// A flat map of the graph of these edges, if it is found.
fn flat_map_of(alloc: Global, graph: &Graph, edges: &[u32]) -> Result<Option<Map>, AllocError>
    requires { IsEdgeList (length graph.now.ends) edges.now }
    ensures { IfOk result (λ found. IfSome found (IsFlatMapOf (bare_web graph.now edges.now))) }
{
    let web = web_without(alloc, graph, edges)?;
    match try_embed(alloc, &web)? {
        Attempt::Flat(map) => Ok(Some(map)),
        Attempt::Stuck(_) => Ok(None),
    }
}

// The planarised graph of these edges, without crossings.
fn web_without(alloc: Global, graph: &Graph, edges: &[u32]) -> Result<Web, AllocError>
    requires { IsEdgeList (length graph.now.ends) edges.now }
    ensures web { IfOk result (λ web. web ≡ bare_web graph.now edges.now) }
    ensures no_loop { IfOk result (λ web. HasNoLoop web.ends) }
{
    no_loops();
    let _nodes = graph.nodes();
    let orders = no_orders(alloc, edges.len())?;
    let web = planarise(alloc, graph, edges, &orders)?;
    Ok(web)
}

// So many empty lists.
fn no_orders(alloc: Global, count: usize) -> Result<Orders, AllocError>
    ensures { IfOk result (λ orders. orders ≡ replicate count []) }
{
    let mut orders = Orders::new(Vec::with_capacity(alloc, count)?);
    for _ in 0..count {
        orders.push(Vec::new(alloc))?;
    }
    Ok(orders)
}

// The loose drawing of the kept edges.
fn started(alloc: Global, graph: &Graph, kept: Kept) -> Result<Loose, AllocError>
    requires { AreKept graph.now kept.marks.items kept.edges.items kept.map }
    ensures { IfOk result (IsLooseOf graph.now) }
{
    let Kept {
        marks: _marks,
        edges,
        map,
    } = kept;
    let orders = no_orders(alloc, edges.len())?;
    let loose = Loose::start(alloc, graph, &edges, &orders, map)?;
    Ok(loose)
}

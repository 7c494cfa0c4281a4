// Whether a map and walks are a loose drawing of all edges: sizes, walks, segments, further nodes.
ghost use Rattle.std.specs.Prelude.{◌≡◌, ℕ, ◌↔◌, ◌*◌, ◌<◌, ◌≤◌, ◌^◌, IfOk, IsTrue, MatchOption, MatchResult, length};
ghost use Rattle.xn_model.specs.Lists.{at};
ghost use Rattle.xn_model.specs.Map.{WalksTo};
ghost use Rattle.xn_insert.specs.Judged.{AreBends, AreTimes, HasSizes, HasTurns, HasWalks, IsFirstFailing, IsLooseCause, IsUnmarkedFour, LeadsWell, MarksBends, PassesFurther, WalksOnce, darts_walked};

use crate::flaws::{LooseErr, LooseFlaw};
use crate::walks::Walks;
use std::alloc::{AllocError, Global};
use xn_graph::{Graph, Stars};
use xn_map::Map;

/// Whether there is a walk for each edge, from its first to its second end and over further nodes between.
pub fn check_walks(graph: &Graph, map: &Map, walks: &Walks) -> Result<(), LooseErr>
    ensures { MatchResult result (λ _. HasWalks graph.now map.now walks.now) (IsLooseCause graph.now map.now walks.now) }
{
    if walks.len() != graph.edges() as usize || map.web().nodes() < graph.nodes() {
        return Err(LooseErr::Flaw(LooseFlaw::Size));
    }
    match first_astray(graph, map, walks) {
        None => Ok(()),
        Some(e) => Err(LooseErr::Flaw(LooseFlaw::Ends(e))),
    }
}

// The first edge whose walk doesn't lead so.
fn first_astray(graph: &Graph, map: &Map, walks: &Walks) -> Option<u32>
    requires { HasSizes graph.now map.now walks.now }
    ensures { MatchOption result
        ((e : ℕ) → e < length graph.now.ends → LeadsWell graph.now map.now walks.now e)
        (λ e. (e < length graph.now.ends) × IsFirstFailing 0 (LeadsWell graph.now map.now walks.now) e) }
{
    let _web = map.web();
    let nodes = graph.nodes();
    for e in 0..graph.edges() {
        let (u, v) = graph.end(e);
        let walk = walks.at(e as usize);
        if !leads_to(map, u, v, walk) {
            return Some(e);
        }
        if !passes_further(map, nodes, walk) {
            return Some(e);
        }
    }
    None
}

// Whether the darts lead from u to v.
fn leads_to(map: &Map, u: u32, v: u32, walk: &[u32]) -> bool
    ensures { IsTrue result ↔ WalksTo map.now.web.ends u walk.now v }
{
    let darts = 2 * map.web().segments();
    let mut node = u;
    for d in walk {
        if *d >= darts {
            return false;
        }
        if map.tail(*d) != node {
            return false;
        }
        node = map.tail(*d ^ 1);
    }
    node == v
}

// Whether each dart but the first begins at a further node.
fn passes_further(map: &Map, nodes: u32, walk: &[u32]) -> bool
    requires { (i : ℕ) → i < length walk.now → at walk.now i < length map.now.next }
    ensures { IsTrue result ↔ PassesFurther nodes map.now.web.ends walk.now }
{
    for i in 1..walk.len() {
        if map.tail(walk[i]) < nodes {
            return false;
        }
    }
    true
}

/// Whether each segment is walked once.
pub fn check_segments(
    alloc: Global,
    graph: &Graph,
    map: &Map,
    walks: &Walks,
) -> Result<(), LooseErr>
    requires { HasWalks graph.now map.now walks.now }
    ensures { MatchResult result (λ _. WalksOnce graph.now map.now walks.now) (IsLooseCause graph.now map.now walks.now) }
{
    let _edges = graph.edges();
    let darts = all_darts(alloc, walks)?;
    let times = times_of(alloc, map.web().segments(), &darts)?;
    match first_not_once(&times) {
        None => Ok(()),
        Some(s) => Err(LooseErr::Flaw(LooseFlaw::Walked(s))),
    }
}

// The darts of all walks, one walk after the other.
fn all_darts(alloc: Global, walks: &Walks) -> Result<Vec<u32>, AllocError>
    ensures { IfOk result (λ darts. darts.items ≡ darts_walked walks.now) }
{
    let mut darts = Vec::new(alloc);
    for e in 0..walks.len() {
        darts.extend_from_slice(walks.at(e))?;
    }
    Ok(darts)
}

// How often each segment is walked, where 2 stands for twice or more.
fn times_of(alloc: Global, segments: u32, darts: &[u32]) -> Result<Vec<u32>, AllocError>
    requires { (i : ℕ) → i < length darts.now → at darts.now i < 2 * segments }
    ensures { IfOk result (λ times. AreTimes segments darts.now times.items) }
{
    let mut times = vec![in alloc; 0; segments as usize]?;
    for d in darts {
        let s = (*d / 2) as usize;
        let before: u32 = times[s];
        times[s] = before.saturating_add(1).min(2);
    }
    Ok(times)
}

// The first segment that isn't walked once.
fn first_not_once(times: &[u32]) -> Option<u32>
    requires { length times.now ≤ 2 ^ 30 }
    ensures { MatchOption result
        ((s : ℕ) → s < length times.now → at times.now s ≡ 1)
        (λ s. (s < length times.now) × IsFirstFailing 0 (λ t. at times.now t ≡ 1) s) }
{
    for s in 0..times.len() {
        if times[s] != 1 {
            return Some(s as u32);
        }
    }
    None
}

/// Whether each further node has four darts, and walks go straight over it.
pub fn check_turns(alloc: Global, graph: &Graph, map: &Map, walks: &Walks) -> Result<(), LooseErr>
    requires { WalksOnce graph.now map.now walks.now }
    ensures { MatchResult result (λ _. HasTurns graph.now map.now walks.now) (IsLooseCause graph.now map.now walks.now) }
{
    let stars = Stars::of(alloc, map.web())?;
    let bends = bent_nodes(alloc, graph, map, walks)?;
    match first_no_crossing(graph.nodes(), &stars, &bends) {
        None => Ok(()),
        Some(v) => Err(LooseErr::Flaw(LooseFlaw::Turn(v))),
    }
}

// For each node whether a walk bends there.
fn bent_nodes(
    alloc: Global,
    graph: &Graph,
    map: &Map,
    walks: &Walks,
) -> Result<Vec<bool>, AllocError>
    requires { HasWalks graph.now map.now walks.now }
    ensures { IfOk result (λ bends. AreBends map.now walks.now (length walks.now) bends.items) }
{
    let _edges = graph.edges();
    let mut bends = vec![in alloc; false; map.web().nodes() as usize]?;
    for e in 0..walks.len() {
        mark_bends(map, walks.at(e), bends.as_mut_slice());
    }
    Ok(bends)
}

// Marks the nodes at which a walk bends.
fn mark_bends(map: &Map, walk: &[u32], bends: &mut [bool])
    requires darts { (i : ℕ) → i < length walk.now → at walk.now i < length map.now.next }
    requires nodes { length bends.old ≡ map.now.web.nodes }
    ensures { MarksBends map.now walk.now (length walk.now) bends.old bends.new }
{
    let _web = map.web();
    for i in 1..walk.len() {
        let (d, e) = (walk[i - 1], walk[i]);
        if map.next(map.next(d ^ 1)) != e {
            bends[map.tail(e) as usize] = true;
        }
    }
}

// The first node from `low` on that hasn't four darts, or is marked.
fn first_no_crossing(low: u32, stars: &Stars, bends: &[bool]) -> Option<u32>
    requires { length bends.now ≡ stars.now.nodes }
    ensures { MatchOption result
        ((v : ℕ) → low ≤ v → v < stars.now.nodes → IsUnmarkedFour stars.now.ends bends.now v)
        (λ v. (v < stars.now.nodes) × IsFirstFailing low (IsUnmarkedFour stars.now.ends bends.now) v) }
{
    for v in low..stars.nodes() {
        if stars.at(v).len() != 4 || bends[v as usize] {
            return Some(v);
        }
    }
    None
}

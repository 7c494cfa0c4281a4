// Whether a list of successors turns round each node, once through all its darts.
ghost use Rattle.std.specs.Prelude.{◌≡◌, ◌*◌, ◌^◌, ◌<◌, ◌≤◌, ◌↔◌, false, length, replicate, IfOk, IsTrue, MatchOption};
ghost use Rattle.xn_model.specs.Lists.{at};
ghost use Rattle.xn_model.specs.Permutation.{Permutes};
ghost use Rattle.xn_map.specs.Marks.{IsClosed, MarksCycle, is_marked};
ghost use Rattle.xn_model.specs.First.{IsFirst};
ghost use Rattle.xn_map.specs.Rotation.{AreTogether, IsAstray, IsFlawOrMap, LeadsRight, LeadsWrong, MarksTargets};

use std::alloc::{AllocError, Global};
use xn_graph::Web;
use xn_ring::Rings;

/// The dart at which the successors are first no rotation, if there is one.
pub fn rotation_flaw(alloc: Global, web: &Web, next: &[u32]) -> Result<Option<u32>, AllocError>
    requires { length next.now ≡ 2 * length web.now.ends }
    ensures { IfOk result (IsFlawOrMap web.now (at next.now)) }
{
    let mut taken = vec![in alloc; false; next.len()]?;
    if let Some(d) = first_wrong(taken.as_mut_slice(), web, next) {
        return Ok(Some(d));
    }
    let mut begun = vec![in alloc; false; web.nodes() as usize]?;
    let mut met = vec![in alloc; false; next.len()]?;
    Ok(first_apart(begun.as_mut_slice(), met.as_mut_slice(), web, next))
}

// The first dart that is led wrong. Marks the darts to which the successors lead.
fn first_wrong(taken: &mut [bool], web: &Web, next: &[u32]) -> Option<u32>
    requires darts { length next.now ≡ 2 * length web.now.ends }
    requires none { taken.old ≡ replicate (length next.now) false }
    ensures { MatchOption result (LeadsRight web.now.ends (at next.now))
        (λ d. (d < length next.now) × IsFirst (LeadsWrong web.now.ends (at next.now)) d) }
{
    for d in 0..2 * web.segments() {
        if leads_wrong(taken, web, next, d) {
            return Some(d);
        }
        taken[next[d as usize] as usize] = true;
    }
    None
}

// Whether a dart is led wrong, where the targets of the smaller darts are marked.
fn leads_wrong(taken: &[bool], web: &Web, next: &[u32], d: u32) -> bool
    requires darts { length next.now ≡ 2 * length web.now.ends }
    requires same_length { length taken.now ≡ length next.now }
    requires dart { d < length next.now }
    requires smaller { MarksTargets (length next.now) (at next.now) d taken.now }
    ensures { IsTrue result ↔ LeadsWrong web.now.ends (at next.now) d }
{
    let to = next[d as usize];
    to as usize >= next.len() || web.tail(to) != web.tail(d) || taken[to as usize]
}

// The first dart that isn't in the ring of the least dart at its node.
// Marks the nodes of the darts that it passes, and the ring of the first dart at each.
fn first_apart(begun: &mut [bool], met: &mut [bool], web: &Web, next: &[u32]) -> Option<u32>
    requires darts { length next.now ≡ 2 * length web.now.ends }
    requires right { LeadsRight web.now.ends (at next.now) }
    requires none_begun { begun.old ≡ replicate web.now.nodes false }
    requires none_met { met.old ≡ replicate (length next.now) false }
    ensures { MatchOption result (AreTogether web.now.ends (at next.now))
        (λ d. (d < length next.now) × IsFirst (IsAstray web.now.ends (at next.now)) d) }
{
    for d in 0..2 * web.segments() {
        let node = web.tail(d) as usize;
        if !begun[node] {
            begun[node] = true;
            mark_ring(met, next, d);
        } else if !met[d as usize] {
            return Some(d);
        }
    }
    None
}

// Marks the ring of a dart that isn't marked.
fn mark_ring(marks: &mut [bool], next: &[u32], d: u32)
    requires permutes { Permutes (length next.now) (at next.now) }
    requires same_length { length marks.old ≡ length next.now }
    requires dart { d < length next.now }
    requires fresh { is_marked marks.old d ≡ false }
    requires closed { IsClosed (length next.now) (at next.now) marks.old }
    ensures { MarksCycle (length next.now) (at next.now) d marks.old marks.new }
{
    let mut e = d;
    while !marks[e as usize] {
        marks[e as usize] = true;
        e = next[e as usize];
    }
}

/// Rings with these successors.
pub fn rings_of(alloc: Global, next: &[u32]) -> Result<Rings, AllocError>
    requires permutes { Permutes (length next.now) (at next.now) }
    requires few { length next.now ≤ 2 ^ 31 }
    ensures { IfOk result (λ rings. rings ≡ next.now) }
{
    let mut rings = Rings::new(alloc, next.len() as u32)?;
    link(&mut rings, next);
    Ok(rings)
}

// Gives each dart in turn its successor. The smaller ones keep theirs, since no two share one.
fn link(rings: &mut Rings, next: &[u32])
    requires permutes { Permutes (length next.now) (at next.now) }
    requires same_length { length rings.old ≡ length next.now }
    ensures { rings.new ≡ next.now }
{
    for d in 0..rings.len() {
        let before = rings.prev(next[d as usize]);
        rings.splice(d, before);
    }
}

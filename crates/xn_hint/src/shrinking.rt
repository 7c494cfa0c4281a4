// How a web shrinks to its kernel: nodes with one or two segments and parallel segments go.
ghost use Rattle.std.specs.Prelude.{◌≡◌, ◌<◌};

use crate::darts::Shrinking;

/// Fewer segments than this have a flat map: K5 has ten, K3,3 nine.
pub const LEAST_SEGMENTS: u32 = 9;

/// Takes away nodes with one segment, passes over nodes with two, and drops loops and parallels, as long as
/// there are any and enough segments stand.
pub fn shrink(web: &mut Shrinking)
    ensures { web.new ≡ web.old }
{
    settle_all(web);
    for _ in 0..web.segments() {
        if web.segments() < LEAST_SEGMENTS || !drop_parallels(web) {
            return;
        }
        settle_all(web);
    }
}

// Leaves no node with one or two segments.
fn settle_all(web: &mut Shrinking)
    ensures { web.new ≡ web.old }
{
    for v in 0..web.nodes() {
        settle(web, v);
    }
}

// Takes a node with one segment away, or passes over one with two, and goes on where segments are lost by it.
fn settle(web: &mut Shrinking, from: u32)
    requires { from < web.old.0 }
    ensures { web.new ≡ web.old }
{
    let mut v = from;
    for _ in 0..web.nodes() {
        if web.degree(v) == 0 || web.degree(v) > 2 {
            return;
        }
        let first = standing(web, web.last(v));
        let end = web.mate(first);
        if web.degree(v) == 1 {
            web.remove(first);
        } else if pass_over(web, first) {
            return;
        }
        v = web.node(end);
    }
}

// Makes one segment of the two of a node, of whose darts this is the last. It drops a loop, and says no then.
fn pass_over(web: &mut Shrinking, first: u32) -> bool
    requires { first < web.old.1 }
    ensures { web.new ≡ web.old }
{
    let second = standing(web, web.before(first));
    let start = web.mate(first);
    let end = web.mate(second);
    web.join(first, second);
    let is_loop = web.node(start) == web.node(end);
    if is_loop {
        web.remove(start);
    }
    !is_loop
}

// The last dart at a node, from this one back, whose segment stands.
fn standing(web: &Shrinking, from: u32) -> u32
    requires { from < web.now.1 }
    ensures { result < web.now.1 }
{
    let mut d = from;
    for _ in 0..web.darts() {
        if stands(web, d) {
            return d;
        }
        d = web.before(d);
    }
    d
}

// Whether the segment of a dart stands.
fn stands(web: &Shrinking, d: u32) -> bool
    requires { d < web.now.1 }
{
    web.mate(d) != d
}

// Drops each segment beside another one. Whether there was one.
fn drop_parallels(web: &mut Shrinking) -> bool
    ensures { web.new ≡ web.old }
{
    let mut found = false;
    for v in 0..web.nodes() {
        if web.degree(v) > 0 && drop_parallels_at(web, v) {
            found = true;
        }
    }
    found
}

// Drops each segment of a node beside another one. Whether there was one.
fn drop_parallels_at(web: &mut Shrinking, v: u32) -> bool
    requires { v < web.old.0 }
    ensures { web.new ≡ web.old }
{
    let mut found = false;
    let mut d = web.last(v);
    for _ in 0..web.darts() {
        if stands(web, d) && drop_parallel(web, d) {
            found = true;
        }
        let before = web.before(d);
        if before == d {
            return found;
        }
        d = before;
    }
    found
}

// Drops the segment of a dart where the dart that is kept at its other end is beside it, and else keeps it
// there.
fn drop_parallel(web: &mut Shrinking, d: u32) -> bool
    requires { d < web.old.1 }
    ensures { web.new ≡ web.old }
{
    let w = web.node(web.mate(d));
    let e = web.met(w);
    let parallel = d != e
        && stands(web, e)
        && web.node(e) == web.node(d)
        && web.node(web.mate(e)) == w;
    if parallel {
        web.remove(d);
    } else {
        web.set_met(w, d);
    }
    parallel
}

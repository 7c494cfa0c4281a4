// Steps by which walks meet less.
ghost use Rattle.std.specs.Prelude.{◌≡◌, ◌<◌, ℕ, suc, IfNone, IfSome, true, length};
ghost use Rattle.xn_model.specs.Lists.{has};
ghost use Rattle.xn_simple.specs.Tangle.{IsSomeTangle, IsTangle, lists_in, named, node_in, walk_in};
ghost use Rattle.xn_simple.specs.Untangling.{GoesOnWith, HasMetBefore, IsCommonEnd, IsStep, MeetWell, MeetsSoFar};

use crate::tangle::{Pass, Tangle};
use xn_graph::Graph;

/// What a walk gives that meets itself, or another one more than it may.
#[derive(Clone, Copy)]
pub enum Step {
    /// It passes a node twice, at these places.
    Closed(usize, usize),
    /// It meets the walk of an edge with a common end: its place and the other pass, and for each of the two whether the
    /// common end is its second.
    Beginnings(usize, Pass, bool, bool),
    /// It meets another walk twice: its places, and the passes of the other.
    Middles(usize, usize, Pass, Pass),
}

impl Tangle {
    /// A step that the walk of an edge gives, if there is one. Its time is linear in the length of the walk.
    ///
    /// In `met` stands for each edge where the walk met it last; what stands there before doesn't matter.
    pub fn find(&self, graph: &Graph, met: &mut [usize], e: u32) -> Option<Step>
        requires tangle { IsTangle graph.now (lists_in self.now) }
        requires edge { has self.now.edges.items e ≡ true }
        requires met { length met.old ≡ length graph.now.ends }
        ensures met { length met.new ≡ length graph.now.ends }
        ensures some { IfSome result (IsStep graph.now (lists_in self.now) e) }
        ensures none { IfNone result ((f : ℕ) → MeetWell graph.now (lists_in self.now) e f) }
    {
        for i in 1..self.walks[e as usize].len() {
            if self.is_named(e, i - 1) {
                if let Some(step) = self.find_at(graph, met, e, i - 1) {
                    return Some(step);
                }
            }
        }
        None
    }

    // The same for one place, where none was found before.
    fn find_at(&self, graph: &Graph, met: &mut [usize], e: u32, i: usize) -> Option<Step>
        requires tangle { IsTangle graph.now (lists_in self.now) }
        requires edge { has self.now.edges.items e ≡ true }
        requires place { suc i < length (walk_in (lists_in self.now) e) }
        requires holds { named (lists_in self.now) (node_in (lists_in self.now) e i) ≡ true }
        requires so_far { MeetsSoFar graph.now (lists_in self.now) e (suc i) met.old }
        ensures { GoesOnWith graph.now (lists_in self.now) e i met.new result }
    {
        match self.other_pass(e, i) {
            None => None,
            Some(pass) => {
                if pass.edge == e {
                    return Some(Step::Closed(i.min(pass.place), i.max(pass.place)));
                }
                if let Some((s, t)) = common_end(graph, e, pass.edge) {
                    return Some(Step::Beginnings(i, pass, s, t));
                }
                let first = met[pass.edge as usize];
                met[pass.edge as usize] = i;
                match self.met_before(e, first, i, pass.edge) {
                    Some(before) => Some(Step::Middles(first, i, before, pass)),
                    None => None,
                }
            }
        }
    }

    // The pass of f where the walk of e met it at an earlier place, if it did.
    fn met_before(&self, e: u32, first: usize, i: usize, f: u32) -> Option<Pass>
        requires tangle { IsSomeTangle (lists_in self.now) }
        requires place { suc i < length (walk_in (lists_in self.now) e) }
        ensures { HasMetBefore (lists_in self.now) e first i f result }
    {
        if first >= i || !self.is_named(e, first) {
            return None;
        }
        match self.other_pass(e, first) {
            Some(pass) => { if pass.edge == f { Some(pass) } else { None } }
            None => None,
        }
    }
}

// For each of two edges whether the end that they share is its second, if they share one.
fn common_end(graph: &Graph, e: u32, f: u32) -> Option<(bool, bool)>
    requires e_in { e < length graph.now.ends }
    requires f_in { f < length graph.now.ends }
    ensures { IsCommonEnd graph.now.ends e f result }
{
    let (a, b) = graph.end(e);
    let (c, d) = graph.end(f);
    if a == c {
        Some((false, false))
    } else if a == d {
        Some((false, true))
    } else if b == c {
        Some((true, false))
    } else if b == d {
        Some((true, true))
    } else {
        None
    }
}

// A node with two darts is passed over: its two segments become one.
ghost use Rattle.std.specs.Prelude.{◌≡◌, ◌≢◌, ℕ, ◌*◌, ◌/◌, ◌<◌, ◌⊎◌, length};
ghost use Rattle.xn_model.specs.Lists.{at};
ghost use Rattle.xn_model.specs.Map.{IsMap, reverse_of, tail_of};
ghost use Rattle.xn_model.specs.Permutation.{Permutes};
ghost use Rattle.xn_map.specs.Anchored.{HasNoDart, IsDartOf};
ghost use Rattle.xn_map.specs.Listed.{IsListedMap};
ghost use Rattle.xn_map.specs.Passing.{AreTwoDarts, HasTwoDarts, LeadsOn, LosesNode, MovesNode, RunsOn, Smooths};

use crate::anchored::Anchored;
use crate::maps::Map;
use crate::maps::changes::{fill, take_out, take_place};
use crate::maps::splitting::move_arc;
use xn_ring::Rings;

impl Map {
    /// Takes away a node with two darts, of two segments. The segment with the smaller number joins the two far ends and
    /// keeps its direction; at the far end of the other it takes the place of that segment's dart. The other is gone: the
    /// last segment takes its number, and the last node that of v. It takes no memory.
    pub fn pass_node(&mut self, v: u32)
        requires { HasTwoDarts self.old v }
        ensures map { IsListedMap self.old }
        ensures smoothed { Smooths self.old v self.new }
    {
        let (p, q) = self.two_darts(v);
        run_on(&mut self.rings, p, q);
        let last = self.rings.len() / 2 - 1;
        fill(&mut self.rings, q / 2, last);
        self.rings.shrink(2);
        lead_on(&mut self.web, p, q);
        lose_node(&mut self.web, &self.rings, v);
    }

    // The two darts of a node, that of the smaller segment first.
    fn two_darts(&self, v: u32) -> (u32, u32)
        requires { HasTwoDarts self.now v }
        ensures { AreTwoDarts self.now v result.0 result.1 }
    {
        let Some(d) = self.web.dart_of(v) else {
            unreachable!()
        };
        let e = self.rings.next(d);
        if d < e { (d, e) } else { (e, d) }
    }
}

// Puts p in the place of the reverse of q. There is no third dart in their ring.
fn run_on(rings: &mut Rings, p: u32, q: u32)
    requires darts { (p < length rings.old) × (q < length rings.old) }
    requires segments { p / 2 ≢ q / 2 }
    requires far { reverse_of q < length rings.old }
    requires permutes { Permutes (length rings.old) (at rings.old) }
    requires to_second { at rings.old p ≡ q }
    requires to_first { at rings.old q ≡ p }
    ensures { RunsOn p q rings.old rings.new }
{
    take_out(rings, p);
    take_place(rings, q ^ 1, p);
}

// Gives the segment of p the far end of the segment of q, and takes that segment out. The two are the darts of one node.
fn lead_on(web: &mut Anchored, p: u32, q: u32)
    requires darts { (p < 2 * length web.old.ends) × (q < 2 * length web.old.ends) }
    requires segments { p / 2 ≢ q / 2 }
    requires one_node { tail_of web.old.ends q ≡ tail_of web.old.ends p }
    requires only { (d : ℕ) → IsDartOf web.old.ends (tail_of web.old.ends p) d → (d ≡ p) ⊎ (d ≡ q) }
    ensures { LeadsOn p q web.old web.new }
{
    let far = web.web().tail(q ^ 1);
    web.move_dart(p, far, q);
    web.remove_segment(q / 2, p, p);
}

// Takes away a node without darts: the last one takes its number.
fn lose_node(web: &mut Anchored, rings: &Rings, v: u32)
    requires node { v < web.old.nodes }
    requires lone { HasNoDart web.old.ends v }
    requires darts { length rings.now ≡ 2 * length web.old.ends }
    requires map { IsMap web.old.nodes web.old.ends (at rings.now) }
    ensures { LosesNode v web.old web.new }
{
    let last = web.nodes() - 1;
    move_node(web, rings, last, v);
    web.remove_node();
}

// Brings the darts of u to v.
fn move_node(web: &mut Anchored, rings: &Rings, u: u32, v: u32)
    requires nodes { (u < web.old.nodes) × (v < web.old.nodes) }
    requires darts { length rings.now ≡ 2 * length web.old.ends }
    requires map { IsMap web.old.nodes web.old.ends (at rings.now) }
    ensures { MovesNode u v web.old web.new }
{
    if let Some(a) = web.dart_of(u) {
        move_arc(web, rings, rings.next(a), a, v);
        web.move_dart(a, v, a);
    }
}

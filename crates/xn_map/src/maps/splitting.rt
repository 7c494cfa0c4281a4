// A node that is split.
ghost use Rattle.std.specs.Prelude.{◌≡◌, ◌≢◌, ℕ, ◌*◌, ◌^◌, ◌<◌, IfOk, OnErr, OnOk, length};
ghost use Rattle.xn_model.specs.Lists.{at};
ghost use Rattle.xn_model.specs.Map.{tail_of};
ghost use Rattle.xn_model.specs.Permutation.{Permutes, Reaches};
ghost use Rattle.xn_map.specs.Cutting.{MovesArc, Splits};
ghost use Rattle.xn_map.specs.Listed.{IsListedMap};

use crate::anchored::Anchored;
use crate::maps::Map;
use std::alloc::AllocError;
use xn_ring::Rings;

impl Map {
    /// Moves a dart and those that follow it, up to the one before another dart b of its node, to a new node, and answers
    /// that: the last. On both sides the darts keep their cyclic order. It takes as long as there are darts to move. After
    /// want of memory the map is as before.
    pub fn cut_node(&mut self, a: u32, b: u32) -> Result<u32, AllocError>
        requires few { self.old.web.nodes < 2 ^ 30 }
        requires a_in { a < length self.old.next }
        requires b_in { b < length self.old.next }
        requires differ { a ≢ b }
        requires one_node { tail_of self.old.web.ends a ≡ tail_of self.old.web.ends b }
        ensures map { IsListedMap self.old }
        ensures node { IfOk result (λ v. v ≡ self.old.web.nodes) }
        ensures ok { OnOk result (Splits self.old a b self.new) }
        ensures err { OnErr result (self.new ≡ self.old) }
    {
        let v = self.web.add_node()?;
        move_arc(&mut self.web, &self.rings, a, b, v);
        let before_a = self.rings.prev(a);
        let before_b = self.rings.prev(b);
        self.rings.splice(before_a, before_b);
        Ok(v)
    }
}

/// Moves the darts from a up to the one before b to a node.
pub fn move_arc(web: &mut Anchored, rings: &Rings, a: u32, b: u32, v: u32)
    requires darts { length rings.now ≡ 2 * length web.old.ends }
    requires a_in { a < length rings.now }
    requires comes { Reaches (at rings.now) a b }
    requires permutes { Permutes (length rings.now) (at rings.now) }
    requires stays { (d : ℕ) → d < length rings.now → tail_of web.old.ends (at rings.now d) ≡ tail_of web.old.ends d }
    requires node { v < web.old.nodes }
    ensures { MovesArc (at rings.now) a b v web.old web.new }
{
    let mut d = a;
    while d != b {
        web.move_dart(d, v, b);
        d = rings.next(d);
    }
}

// Calls that change a map.
ghost use Rattle.std.specs.Prelude.{◌≡◌, ◌≢◌, ◌/◌, ◌+◌, ◌*◌, ◌^◌, ◌<◌, ◌⊎◌, IfOk, OnErr, OnOk, length};
ghost use Rattle.xn_model.specs.Lists.{at};
ghost use Rattle.xn_model.specs.Map.{Joined};
ghost use Rattle.xn_model.specs.Permutation.{Permutes};
ghost use Rattle.xn_graph.specs.Limits.{graph_of};
ghost use Rattle.xn_map.specs.Anchored.{OutlastsAt};
ghost use Rattle.xn_map.specs.Changes.{Deletes, Inserts, IsFilled, IsFreeCorner, IsOut, Stands, StaysFlat, TakesDartOut, TakesPlace, node_of};
ghost use Rattle.xn_map.specs.Corners.{InOneFace, IsCorner};
ghost use Rattle.xn_map.specs.Listed.{IsListedMap, map_of};

use crate::corners::Corner;
use crate::maps::Map;
use std::alloc::AllocError;
use xn_ring::Rings;

impl Map {
    /// Adds a node without darts, and answers it: the last. A flat map stays flat. After want of memory the map is as before.
    pub fn add_node(&mut self) -> Result<u32, AllocError>
        requires few { self.old.web.nodes < 2 ^ 30 }
        ensures node { IfOk result (λ v. v ≡ self.old.web.nodes) }
        ensures ok { OnOk result (self.new ≡ map_of (graph_of (self.old.web.nodes + 1) self.old.web.ends) self.old.next) }
        ensures err { OnErr result (self.new ≡ self.old) }
        ensures flat { StaysFlat self.old self.new }
    {
        let v = self.web.add_node()?;
        Ok(v)
    }

    /// Adds a segment from the node of a to the node of b, and answers it: the last. In a corner after a dart its dart
    /// stands right after that dart. A flat map stays flat. After want of memory the map is as before.
    pub fn add_edge(&mut self, a: Corner, b: Corner) -> Result<u32, AllocError>
        requires few { length self.old.web.ends < 2 ^ 30 }
        requires a_in { IsCorner self.old a }
        requires b_in { IsCorner self.old b }
        requires two_nodes { node_of self.old a ≢ node_of self.old b }
        requires one_face { InOneFace (at self.old.next) a b ⊎ (¬ Joined self.old.web.ends (node_of self.old a) (node_of self.old b)) }
        ensures segment { IfOk result (λ s. s ≡ length self.old.web.ends) }
        ensures ok { OnOk result (Inserts self.old a b self.new) }
        ensures err { OnErr result (self.new ≡ self.old) }
        ensures flat { StaysFlat self.old self.new }
    {
        let s = self.web.segments();
        let u = self.node_of(a);
        let v = self.node_of(b);
        self.rings.grow(2)?;
        match self.web.add_segment(u, v) {
            Ok(()) => {
                stand(&mut self.rings, b, 2 * s + 1);
                stand(&mut self.rings, a, 2 * s);
                Ok(s)
            }
            Err(error) => {
                self.rings.shrink(2);
                Err(error)
            }
        }
    }

    /// Takes a segment out of its rings; the last one takes its number. Nodes stay. It takes no memory.
    pub fn remove_edge(&mut self, s: u32)
        requires { s < length self.old.web.ends }
        ensures map { IsListedMap self.old }
        ensures deleted { Deletes self.old s self.new }
    {
        let last = self.web.segments() - 1;
        let first = self.outlasting(2 * s);
        let second = self.outlasting(2 * s + 1);
        take_out(&mut self.rings, 2 * s);
        take_out(&mut self.rings, 2 * s + 1);
        fill(&mut self.rings, s, last);
        self.rings.shrink(2);
        self.web.remove_segment(s, first, second);
    }

    // A dart of another segment at the node of a dart, if there is one.
    fn outlasting(&self, d: u32) -> u32
        requires { d < length self.now.next }
        ensures { OutlastsAt self.now.web.ends (d / 2) d result }
    {
        let after = self.rings.next(d);
        if after == d ^ 1 {
            return self.rings.next(after);
        }
        after
    }

    // The node of a corner.
    fn node_of(&self, corner: Corner) -> u32
        requires { IsCorner self.now corner }
        ensures value { result ≡ node_of self.now corner }
        ensures node { result < self.now.web.nodes }
    {
        match corner {
            Corner::After(d) => self.tail(d),
            Corner::Lone(v) => v,
        }
    }
}

// Puts a dart that is alone into a corner.
fn stand(rings: &mut Rings, corner: Corner, z: u32)
    requires dart { z < length rings.old }
    requires alone { at rings.old z ≡ z }
    requires corner { IsFreeCorner (length rings.old) z corner }
    ensures { Stands corner z rings.old rings.new }
{
    match corner {
        Corner::After(d) => rings.splice(d, z),
        Corner::Lone(_) => {}
    }
}

/// Takes a dart out of its ring, so that it is alone.
pub fn take_out(rings: &mut Rings, d: u32)
    requires dart { d < length rings.old }
    requires permutes { Permutes (length rings.old) (at rings.old) }
    ensures { TakesDartOut d rings.old rings.new }
{
    let before = rings.prev(d);
    rings.splice(before, d);
}

/// Puts a dart that is alone in the place of another, which is alone then.
pub fn take_place(rings: &mut Rings, x: u32, d: u32)
    requires darts { (x < length rings.old) × (d < length rings.old) × (x ≢ d) }
    requires alone { at rings.old d ≡ d }
    requires permutes { Permutes (length rings.old) (at rings.old) }
    ensures { TakesPlace x d rings.old rings.new }
{
    let before = rings.prev(x);
    rings.splice(before, d);
    rings.splice(d, x);
}

/// Puts the last segment in the place of one that is out.
pub fn fill(rings: &mut Rings, s: u32, last: u32)
    requires few { last < 2 ^ 30 }
    requires out { IsOut s last rings.old }
    ensures { IsFilled s last rings.old rings.new }
{
    if s == last {
        return;
    }
    take_place(rings, 2 * last, 2 * s);
    take_place(rings, 2 * last + 1, 2 * s + 1);
}

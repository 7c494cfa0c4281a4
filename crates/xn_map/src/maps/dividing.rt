// A new node on a segment.
ghost use Rattle.std.specs.Prelude.{◌≡◌, ◌+◌, ◌^◌, ◌<◌, IfOk, OnErr, OnOk, length};
ghost use Rattle.xn_map.specs.Changes.{StaysFlat};
ghost use Rattle.xn_map.specs.Dividing.{Subdivides, divided};

use crate::anchored::Anchored;
use crate::maps::Map;
use crate::maps::changes::take_place;
use std::alloc::AllocError;

impl Map {
    /// Puts a new node on a segment, and answers it: the last.
    ///
    /// The segment then leads from its first end to the new node. A further segment, the last, leads from there to its
    /// second end, where its dart takes the old place in the rotation. A flat map stays flat. After want of memory the map
    /// is as before.
    pub fn subdivide(&mut self, s: u32) -> Result<u32, AllocError>
        requires segment { s < length self.old.web.ends }
        requires few_nodes { self.old.web.nodes < 2 ^ 30 }
        requires few_segments { length self.old.web.ends < 2 ^ 30 }
        ensures node { IfOk result (λ w. w ≡ self.old.web.nodes) }
        ensures ok { OnOk result (Subdivides self.old s self.new) }
        ensures err { OnErr result (self.new ≡ self.old) }
        ensures flat { StaysFlat self.old self.new }
    {
        let last = self.web.segments();
        self.rings.grow(2)?;
        match divide(&mut self.web, s) {
            Ok(w) => {
                take_place(&mut self.rings, 2 * s + 1, 2 * last + 1);
                self.rings.splice(2 * s + 1, 2 * last);
                Ok(w)
            }
            Err(error) => {
                self.rings.shrink(2);
                Err(error)
            }
        }
    }
}

// Lets a segment lead to a new node, and a further one from there to where it led. Answers the node.
fn divide(web: &mut Anchored, s: u32) -> Result<u32, AllocError>
    requires segment { s < length web.old.ends }
    requires few_nodes { web.old.nodes < 2 ^ 30 }
    requires few_segments { length web.old.ends < 2 ^ 30 }
    ensures node { IfOk result (λ w. w ≡ web.old.nodes) }
    ensures ok { OnOk result (web.new ≡ divided web.old s) }
    ensures err { OnErr result (web.new ≡ web.old) }
{
    let (_, v) = web.end(s);
    let last = web.segments();
    let w = web.add_node()?;
    match web.add_segment(w, v) {
        Ok(()) => {
            web.move_dart(2 * s + 1, w, 2 * last + 1);
            Ok(w)
        }
        Err(error) => {
            web.remove_node();
            Err(error)
        }
    }
}

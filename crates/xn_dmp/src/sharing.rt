// Faces that have corners at given nodes, by walks along the faces. They take no memory.
ghost use Rattle.std.specs.Prelude.{◌<◌, ◌↔◌, IfNone, IfSome, IsTrue, length};
ghost use Rattle.xn_model.specs.Map.{tail_of};
ghost use Rattle.xn_map.specs.Anchored.{IsDartOf};
ghost use Rattle.xn_dmp.specs.Sharing.{HasCornerAt, HasCorners, IsCornerIn, NoFaceFrom};

use xn_map::{Corner, Map};

/// A dart at the node of a dart after which there is a corner whose face has a corner at each of these nodes, if there is one.
pub fn common_face(map: &Map, first: u32, nodes: &[u32]) -> Option<u32>
    requires dart { first < length map.now.next }
    ensures some { IfSome result (λ d. IsDartOf map.now.web.ends (tail_of map.now.web.ends first) d × HasCorners map.now d nodes.now) }
    ensures none { IfNone result (NoFaceFrom map.now (tail_of map.now.web.ends first) nodes.now) }
{
    let mut d = first;
    for _ in 0..2 * map.web().segments() {
        if has_corners(map, d, nodes) {
            return Some(d);
        }
        d = map.next(d);
        if d == first {
            return None;
        }
    }
    None
}

// Whether the face of the corner after a dart has a corner at each of these nodes.
fn has_corners(map: &Map, d: u32, nodes: &[u32]) -> bool
    requires dart { d < length map.now.next }
    ensures { IsTrue result ↔ HasCorners map.now d nodes.now }
{
    for v in nodes {
        match corner_in(map, d, *v) {
            Some(_) => {}
            None => return false,
        }
    }
    true
}

/// A dart of a node after which there is a corner in the face of the corner after another dart, if there is one.
pub fn corner_in(map: &Map, d: u32, v: u32) -> Option<u32>
    requires dart { d < length map.now.next }
    ensures some { IfSome result (λ e. IsCornerIn map.now d v e) }
    ensures none { IfNone result (¬ (HasCornerAt map.now d v)) }
{
    let first = map.dart_of(v)?;
    let mut e = first;
    for _ in 0..2 * map.web().segments() {
        if map.same_face(Corner::After(d), Corner::After(e)) {
            return Some(e);
        }
        e = map.next(e);
        if e == first {
            return None;
        }
    }
    None
}

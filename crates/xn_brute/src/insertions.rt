// The parts of a flat insertion: corners, faces, and the rotation with one more dart.
ghost use Rattle.std.specs.Prelude.{◌≡◌, ◌≢◌, ◌*◌, ◌<◌, ◌↔◌, IfOk, IsTrue, length};
ghost use Rattle.xn_model.specs.Insertion.{IsOldCorner, is_old};
ghost use Rattle.xn_model.specs.Lists.{at};
ghost use Rattle.xn_model.specs.Map.{face_step, tail_of};
ghost use Rattle.xn_model.specs.Permutation.{Reaches};
ghost use Rattle.xn_brute.specs.Insertions.{AreSegments, HasDart, IsListing};

use crate::lists::has;
use std::alloc::{AllocError, Global};
use xn_graph::Web;

/// The node of a dart.
pub fn tail(web: &Web, d: u32) -> u32
    requires { d < 2 * length web.now.ends }
    ensures { result ≡ tail_of web.now.ends d }
{
    let (first, second) = web.end(d / 2);
    if d % 2 == 0 { first } else { second }
}

/// Whether one of these segments touches the node.
pub fn is_old(web: &Web, done: &[u32], v: u32) -> bool
    requires { AreSegments web.now done.now }
    ensures { result ≡ is_old web.now.ends done.now v }
{
    for s in done {
        let (first, second) = web.end(*s);
        if first == v || second == v {
            return true;
        }
    }
    false
}

/// Whether the corner after the dart c is one at which the dart d can go in.
pub fn is_corner(web: &Web, done: &[u32], d: u32, c: u32) -> bool
    requires d_in { d < 2 * length web.now.ends }
    requires c_in { c < 2 * length web.now.ends }
    ensures { IsTrue result ↔ IsOldCorner web.now.ends done.now d c }
{
    has(done, c / 2) && tail(web, c) == tail(web, d)
}

/// Whether two darts are in one face.
pub fn in_one_face(web: &Web, next: &[u32], d: u32, e: u32) -> bool
    requires listing { IsListing web.now next.now }
    requires d_in { d < length next.now }
    ensures { IsTrue result ↔ Reaches (face_step (at next.now)) d e }
{
    let mut dart = d;
    for _ in 0..web.segments() * 2 {
        if dart == e {
            return true;
        }
        dart = next[(dart ^ 1) as usize];
    }
    false
}

/// The rotation in which d has come to stand right after c.
pub fn with_dart(
    alloc: Global,
    web: &Web,
    next: &[u32],
    c: u32,
    d: u32,
) -> Result<Vec<u32>, AllocError>
    requires listing { IsListing web.now next.now }
    requires c_in { c < length next.now }
    requires d_in { d < length next.now }
    requires apart { c ≢ d }
    ensures listing { IfOk result (λ after. IsListing web.now after.items) }
    ensures stands { IfOk result (λ after. HasDart web.now d c next.now after.items) }
{
    let mut after = next.to_vec(alloc)?;
    after[d as usize] = next[c as usize];
    after[c as usize] = d;
    Ok(after)
}

// Names of faces, the faces around a node, and the dual web.
ghost use Rattle.std.specs.Prelude.{◌≡◌, ℕ, ◌/◌, ◌%◌, ◌^◌, ◌<◌, ◌≤◌, IfOk, length, replicate};
ghost use Rattle.xn_model.specs.Lists.{at};
ghost use Rattle.xn_insert.specs.Routed.{AreClosed, AreDualEnds, IsDual, MarkCorners, NamesFace, NamesFaces};

use std::alloc::{AllocError, Global};
use xn_graph::{Stars, Web};
use xn_map::Map;

/// For each dart a dart of its face, the same for all its darts. Each dart is met once.
pub fn face_names(alloc: Global, map: &Map) -> Result<Vec<u32>, AllocError>
    ensures { IfOk result (λ names. NamesFaces map.now names.items) }
{
    let darts = 2 * map.web().segments();
    let mut names = vec![in alloc; darts; darts as usize]?;
    name_faces(names.as_mut_slice(), map);
    Ok(names)
}

// Names each face by its first dart, where the number of darts stands for no name.
fn name_faces(names: &mut [u32], map: &Map)
    requires { names.old ≡ replicate (length map.now.next) (length map.now.next) }
    ensures { NamesFaces map.now names.new }
{
    let darts = 2 * map.web().segments();
    for d in 0..darts {
        if names[d as usize] == darts {
            name_face(names, map, d);
        }
    }
}

// Names the face of a dart that has no name.
fn name_face(names: &mut [u32], map: &Map, d: u32)
    requires size { length names.old ≡ length map.now.next }
    requires dart { d < length map.now.next }
    requires fresh { at names.old d ≡ length map.now.next }
    requires closed { AreClosed map.now names.old }
    ensures { NamesFace map.now d names.old names.new }
{
    let darts = 2 * map.web().segments();
    let mut e = d;
    while names[e as usize] == darts {
        names[e as usize] = d;
        e = map.next(e ^ 1);
    }
}

/// For each name of a face a dart of the node before a corner in that face, or the number of darts.
pub fn corners_at(alloc: Global, map: &Map, names: &[u32], v: u32) -> Result<Vec<u32>, AllocError>
    requires { NamesFaces map.now names.now }
    ensures { IfOk result (λ corners. MarkCorners map.now names.now v (length map.now.next) corners.items) }
{
    let darts = 2 * map.web().segments();
    let mut corners = vec![in alloc; darts; darts as usize]?;
    mark_corners(corners.as_mut_slice(), map, names, v);
    Ok(corners)
}

// Marks the faces around a node.
fn mark_corners(corners: &mut [u32], map: &Map, names: &[u32], v: u32)
    requires names { NamesFaces map.now names.now }
    requires none { corners.old ≡ replicate (length map.now.next) (length map.now.next) }
    ensures { MarkCorners map.now names.now v (length map.now.next) corners.new }
{
    for c in 0..2 * map.web().segments() {
        if map.tail(c) == v {
            corners[names[map.next(c) as usize] as usize] = c;
        }
    }
}

/// The darts of each face: the stars of the web whose nodes are the names.
pub fn dual_stars(alloc: Global, names: &[u32]) -> Result<Stars, AllocError>
    requires even { length names.now % 2 ≡ 0 }
    requires few { length names.now ≤ 2 ^ 30 }
    requires below { (d : ℕ) → d < length names.now → at names.now d < length names.now }
    ensures { IfOk result (λ stars. IsDual names.now stars) }
{
    let ends = dual_ends(alloc, names)?;
    let web = Web::make(names.len() as u32, ends).unwrap();
    Stars::of(alloc, &web)
}

// The segments of the dual web.
fn dual_ends(alloc: Global, names: &[u32]) -> Result<Vec<(u32, u32)>, AllocError>
    ensures { IfOk result (λ ends. AreDualEnds names.now (length names.now / 2) ends.items) }
{
    let mut ends = Vec::new(alloc);
    for s in 0..names.len() / 2 {
        ends.push((names[2 * s], names[2 * s + 1]))?;
    }
    Ok(ends)
}
